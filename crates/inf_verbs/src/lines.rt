//! Lines of a verb.
ghost use Rattle.std.specs.Prelude.{◌≡◌, ◌≤◌, ◌++◌, IfOk, OnOk, OnErr, length};
ghost use Rattle.inf_verbs.specs.Lines.{action_word, line_cells, noun_number, prepositions, token_type, token_value, tokens_cells};

use inf_area::{Cells, Target, Value};
use std::alloc::{AllocError, Global};
use std::marker::Model;

/// The noun that a token takes.
#[derive(Clone, Copy)]
pub enum Noun {
    Noun,
    Held,
    Multi,
    MultiHeld,
    MultiExcept,
    MultiInside,
    Creature,
    Special,
    Number,
    Topic,
}

/// A token of a line.
#[derive(Clone, Copy)]
pub enum LineToken {
    Noun(Noun),
    /// The word with this text. In a list of alternatives, as `'in'/'on'`, others may stand before and behind it.
    Preposition {
        text: [u8; 6],
        is_first: bool,
        is_last: bool,
    },
    /// `noun=R`, with the number of a parsing routine.
    Filter(u16),
    /// An attribute, by its number.
    Attribute(u8),
    /// `scope=R`, with the number of a parsing routine.
    Scope(u16),
    /// The number of a parsing routine.
    Routine(u16),
}

/// A line.
#[derive(Drop)]
pub(crate) struct Line {
    action: u16,
    is_reverse: bool,
    tokens: Vec<LineToken>,
}

impl Model for Line {
    ghost use Rattle.inf_verbs.specs.Lines.{LineOf};

    ghost Value = { LineOf };

    ghost view = { λ l. record { action = l.action; is_reverse = l.is_reverse; tokens = l.tokens.items } };
}

/// Returns the number of a kind of noun.
fn noun_number(noun: Noun) -> u16
    ensures { result ≡ noun_number noun }
{
    match noun {
        Noun::Noun => 0,
        Noun::Held => 1,
        Noun::Multi => 2,
        Noun::MultiHeld => 3,
        Noun::MultiExcept => 4,
        Noun::MultiInside => 5,
        Noun::Creature => 6,
        Noun::Special => 7,
        Noun::Number => 8,
        Noun::Topic => 9,
    }
}

impl LineToken {
    /// Returns the byte that tells the type of the token: the low bits its kind, the others whether alternatives come before and behind it.
    fn type_byte(self) -> u8
        ensures { result ≡ token_type self }
    {
        match self {
            LineToken::Noun(_) => 1,
            LineToken::Preposition {
                is_first,
                is_last,
                ..
            } => {
                let before = if is_first { 0 } else { 0x10 };
                let behind = if is_last { 0 } else { 0x20 };
                2 + before + behind
            }
            LineToken::Filter(_) => 3,
            LineToken::Attribute(_) => 4,
            LineToken::Scope(_) => 5,
            LineToken::Routine(_) => 6,
        }
    }

    /// Returns the value behind the byte of the type.
    fn value(self) -> Value
        ensures { result ≡ token_value self }
    {
        match self {
            LineToken::Noun(noun) => Value::Known(noun_number(noun)),
            LineToken::Preposition { text, .. } => Value::Later(Target::Word(text)),
            LineToken::Attribute(number) => Value::Known(number as u16),
            LineToken::Filter(number) | LineToken::Scope(number) | LineToken::Routine(number) => {
                Value::Known(number)
            }
        }
    }
}

pub(crate) fn prepositions(tokens: &[LineToken]) -> usize
    ensures value { result ≡ prepositions tokens.now }
    ensures few { result ≤ length tokens.now }
{
    let mut count = 0;
    for token in tokens {
        if matches!(token, LineToken::Preposition { .. }) {
            count += 1;
        }
    }
    count
}

impl Line {
    /// Returns a line of these tokens.
    pub(crate) fn new(
        alloc: Global,
        action: u16,
        is_reverse: bool,
        tokens: &[LineToken],
    ) -> Result<Line, AllocError>
        ensures { IfOk result (λ line. line ≡ record { action = action; is_reverse = is_reverse; tokens = tokens.now }) }
    {
        Ok(Line {
            action,
            is_reverse,
            tokens: Vec::from_slice(alloc, tokens)?,
        })
    }

    /// Appends the cells of the line: its action, with the bit $400 where its nouns change places, its tokens, and 15.
    pub(crate) fn add_to(&self, cells: &mut Cells) -> Result<(), AllocError>
        ensures { OnOk result (cells.new ≡ cells.old ++ line_cells self.now) }
    {
        cells.word(self.action_word())?;
        add_tokens(cells, &self.tokens)?;
        cells.byte(15)
    }

    // Returns the word that holds the action of the line.
    fn action_word(&self) -> u16
        ensures { result ≡ action_word self.now }
    {
        if self.is_reverse {
            self.action.wrapping_add(0x400)
        } else {
            self.action
        }
    }
}

/// Appends the cells of `tokens`.
fn add_tokens(cells: &mut Cells, tokens: &[LineToken]) -> Result<(), AllocError>
    ensures { OnOk result (cells.new ≡ cells.old ++ tokens_cells tokens.now) }
{
    for token in tokens {
        cells.byte(token.type_byte())?;
        cells.value(token.value())?;
    }
    Ok(())
}
