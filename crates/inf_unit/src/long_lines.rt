//! A line of grammar that has more tokens than the grammar may have bytes.
//!
//! Such a line passes that setting, if nothing is wrong with it. For a further token it matters only whether something is wrong
//! with it, and whether it passes a setting that is told before that one: there are more names, or more words, than there may be.
ghost use Rattle.std.specs.Prelude.{◌≡◌, ◌≤◌, IfOk, None, OnErr, length};
ghost use Rattle.inf_unit.specs.LongLines.{name_added, no_tokens, word_added};

use inf_names::hashing::NameHashing;
use inf_names::symbols::Symbols;
use inf_scanner::Place;
use inf_settings::bounds::Unbounded;
use std::alloc::{AllocError, Global};
use std::collections::BTreeMap;
use std::marker::Model;

/// Place of a name that comes, which does not matter here.
const NOWHERE: Place = Place { file: 0, line: 0 };

/// The tokens of a line that is too long.
#[derive(Drop)]
pub struct LongLine {
    /// The number of the unit's tokens before the one at hand.
    pub count: usize,
    /// Tells whether something is wrong with one of them.
    pub is_bad: bool,
    /// The names that came since the line was too long, each once.
    names: Symbols<Place, Unbounded>,
    /// The words that came since, each once.
    words: BTreeMap<[u8; 6], ()>,
}

impl Model for LongLine {
    ghost use Rattle.inf_unit.specs.LongLines.{LongLine as Value_of};

    ghost Value = { Value_of };

    ghost view = { λ l. record { count = l.count; is_bad = l.is_bad; names = l.names; words = l.words.entries } };
}

impl LongLine {
    /// Makes a line with `count` tokens, one of which is wrong if `is_bad`. It has no names and no words yet.
    pub fn new(alloc: Global, hashing: NameHashing, count: usize, is_bad: bool) -> LongLine
        ensures { result ≡ no_tokens count is_bad }
    {
        LongLine {
            count,
            is_bad,
            names: Symbols::new(alloc, u32::MAX, false, hashing),
            words: BTreeMap::new(alloc),
        }
    }

    /// Adds `name`, which has at most 35 bytes, where a unit may have `most` names. Returns true if it is new and at most `most` names came
    /// before. Where memory runs out the line stays as it was.
    pub fn add_name(&mut self, name: &[u8], most: u32) -> Result<bool, AllocError>
        requires { length name.now ≤ 35 }
        ensures added { IfOk result (λ is_new. (self.new, is_new) ≡ name_added name.now most self.old) }
        ensures err { OnErr result (self.new ≡ self.old) }
    {
        let count = self.names.len();
        if count > most as usize {
            return Ok(false);
        }
        match self.names.refer(name, NOWHERE) {
            Ok(_) => Ok(self.names.len() > count),
            Err(_) => Err(AllocError),
        }
    }

    /// Adds the word `text`, where a unit may have `most` words. Returns true if it is new and at most `most` words came before. Where
    /// memory runs out the line stays as it was.
    pub fn add_word(&mut self, text: [u8; 6], most: u32) -> Result<bool, AllocError>
        ensures added { IfOk result (λ is_new. (self.new, is_new) ≡ word_added text most self.old) }
        ensures err { OnErr result (self.new ≡ self.old) }
    {
        if self.words.len() > most as usize || self.words.contains_key(&text) {
            return Ok(false);
        }
        self.words.insert(text, ())?;
        Ok(true)
    }
}

/// Forgets `line`, if there is one.
#[inline(always)]
pub(crate) fn forget_line(line: &mut Option<LongLine>)
    ensures { line.new ≡ None }
{
    if line.is_some() {
        drop_line(line);
    }
}

/// Forgets `line`. This stands apart, since few units have such a line, and the drop reads all of it.
#[cold]
#[inline(never)]
fn drop_line(line: &mut Option<LongLine>)
    ensures { line.new ≡ None }
{
    *line = None;
}
