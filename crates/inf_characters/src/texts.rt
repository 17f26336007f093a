//! A text as the story has it: characters and string variables.
ghost use Rattle.std.specs.Prelude.{◌≡◌, ◌<◌, length, [], IfErr, IfOk, IsTrue, ◌↔◌};

use crate::characters::Zscii;
use std::alloc::{AllocError, Global};
use std::marker::Model;

/// One item of a text.
#[derive(Clone, Copy, PartialEq, Eq)]
pub enum TextItem {
    /// A character.
    Character(Zscii),
    /// The string variable of this number, 0 to 31 (Z-Machine Standard 1.1, section 3.3).
    Variable(u8),
}

impl TextItem {
    ghost use Rattle.inf_characters.specs.Items.{IsItem, lowered};

    /// Returns the item with its capital letter, one of `A` to `Z`, made small. Each other item is itself.
    pub fn to_ascii_lowercase(self) -> TextItem
        requires { IsItem self }
        ensures value { result ≡ lowered self }
        ensures item { IsItem result }
    {
        let TextItem::Character(character) = self else {
            return self;
        };
        match character.code() {
            capital @ b'A'..=b'Z' => TextItem::Character(Zscii::from_code(capital + 32)),
            _ => self,
        }
    }
}

/// A text that was read.
#[derive(Drop)]
pub struct Text {
    items: Vec<TextItem>,
}

impl Model for Text {
    ghost use Rattle.std.specs.Prelude.{List};
    ghost use Rattle.inf_characters.specs.declared.texts.TextItem.{TextItem};

    ghost Value = { List TextItem };

    ghost view = { λ t. t.items.items };

    ghost use Rattle.inf_characters.specs.Items.{IsText};

    ghost invariant = { λ t. IsText t.items.items };
}

impl Text {
    ghost use Rattle.inf_characters.specs.Items.{IsText};

    /// Returns the items of the text, in order.
    pub fn as_slice(&self) -> &[TextItem]
        ensures value { result.now ≡ self.now }
        ensures text { IsText self.now }
    {
        self.items.as_slice()
    }

    /// Returns the number of items of the text.
    pub fn len(&self) -> usize
        ensures { result ≡ length self.now }
    {
        self.items.len()
    }

    /// Makes a text of `items`.
    pub(crate) fn from_items(items: Vec<TextItem>) -> Text
        requires { IsText items.items }
        ensures { result ≡ items.items }
    {
        Text { items }
    }

    /// Copies the text into memory of its own. The only error is that there is too little memory for its items.
    pub fn copied(&self, alloc: Global) -> Result<Text, AllocError>
        ensures ok { IfOk result (λ text. text ≡ self.now) }
        ensures err { IfErr result (λ _. 0 < length self.now) }
    {
        let items = self.as_slice();
        if items.is_empty() {
            return Ok(Text {
                items: Vec::new(alloc),
            });
        }
        let copy = Vec::from_slice(alloc, items)?;
        Ok(Text { items: copy })
    }

    /// Returns whether it has no items.
    pub fn is_empty(&self) -> bool
        ensures { IsTrue result ↔ (self.now ≡ []) }
    {
        self.items.is_empty()
    }
}
