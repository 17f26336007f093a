//! The words of conditional directives.
ghost use Rattle.std.specs.Prelude.{◌≡◌, None, false};
ghost use Rattle.inf_conditionals.specs.{Open.ends_at, Open.levels_behind, Words.awaits_of, Words.word_of};
ghost use Rattle.inf_syntax.specs.Atoms.{keyword_of};

use crate::pending::{Awaits, Effect};
use inf_syntax::Keyword;

/// The word that begins a conditional directive.
#[derive(Clone, Copy)]
pub enum ConditionalWord {
    Ifdef,
    Ifndef,
    Iftrue,
    Iffalse,
    Ifnot,
    Endif,
}

/// Returns the word of a conditional directive that `keyword` is, if it is one.
pub fn word_of(keyword: Option<Keyword>) -> Option<ConditionalWord>
    ensures { result ≡ word_of keyword }
{
    match keyword? {
        Keyword::Ifdef => Some(ConditionalWord::Ifdef),
        Keyword::Ifndef => Some(ConditionalWord::Ifndef),
        Keyword::Iftrue => Some(ConditionalWord::Iftrue),
        Keyword::Iffalse => Some(ConditionalWord::Iffalse),
        Keyword::Ifnot => Some(ConditionalWord::Ifnot),
        Keyword::Endif => Some(ConditionalWord::Endif),
        _ => None,
    }
}

/// Returns whether a name of these bytes may be the word of a conditional directive, by its length and its first letter.
#[inline(always)]
pub(crate) fn may_be_word(bytes: &[u8]) -> bool
    ensures { result ≡ false → word_of (keyword_of bytes.now) ≡ None }
{
    if bytes.len() < 5 || bytes.len() > 7 {
        return false;
    }
    let first = bytes[0].to_ascii_lowercase();
    first == b'e' || first == b'i'
}

impl ConditionalWord {
    /// Returns the thing for which a directive with this word waits next.
    pub(crate) fn awaits(self) -> Awaits
        ensures { result ≡ awaits_of self }
    {
        match self {
            ConditionalWord::Ifdef => Awaits::Name(true),
            ConditionalWord::Ifndef => Awaits::Name(false),
            ConditionalWord::Iftrue => Awaits::Condition(true),
            ConditionalWord::Iffalse => Awaits::Condition(false),
            ConditionalWord::Ifnot => Awaits::End(Effect::Turns),
            ConditionalWord::Endif => Awaits::End(Effect::Closes),
        }
    }
}

/// Returns the number of levels that are open in a side that is left out, behind `word`, before which `levels` were.
pub(crate) fn levels_behind(word: ConditionalWord, levels: u32) -> u32
    ensures { result ≡ levels_behind word levels }
{
    match word {
        ConditionalWord::Endif => levels.saturating_sub(1),
        ConditionalWord::Ifnot => levels,
        ConditionalWord::Ifdef
        | ConditionalWord::Ifndef
        | ConditionalWord::Iftrue
        | ConditionalWord::Iffalse => levels.saturating_add(1),
    }
}

/// Returns whether a word ends a side that is left out, at its own level.
pub(crate) fn ends_side(word: ConditionalWord, is_second: bool) -> bool
    ensures { result ≡ ends_at word is_second }
{
    match word {
        ConditionalWord::Endif => true,
        ConditionalWord::Ifnot => !is_second,
        _ => false,
    }
}
