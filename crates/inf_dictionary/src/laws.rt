//! Laws that an author may rely on, and an interpreter when it looks for a word (Z-Machine Standard 1.1, section 13.2).
ghost use Rattle.std.specs.Prelude.{◌≡◌, ◌<◌, ℕ, List, [], None, Some, length, slice_index_or};
ghost use Rattle.inf_dictionary.specs.{Lookup.found_by_halves, Lookup.text_written, Uses.UseOf, Uses.said_of, Uses.with_uses, Words.Words};
ghost use Rattle.inf_dictionary.specs.{Words.dictionary_bytes, Words.word_of};
ghost use Rattle.inf_dictionary.specs.Texts.{AreRising, Text, rank_of, texts_of};

use crate::dictionary::Dictionary;
use inf_settings::bounds::Bounds;

/// Shows that the facts known of a word after some uses are those that the uses of its text say together, in their
/// order, whatever uses of other words come among them.
pub fn word_of_all_uses()
    ensures { (uses : List UseOf) (text : Text) (words : Words)
        → word_of text (with_uses uses words).list ≡ said_of text uses (word_of text words.list) }
{}

/// Shows that texts rise in a dictionary, and none is in it twice.
pub fn texts_rise<B: Bounds>(dictionary: &Dictionary<B>)
    ensures { AreRising (texts_of dictionary.now.list) }
{
    dictionary.is_in_order();
}

/// Shows that each word has as many words before it as its place says, and its text is found at this place of the written bytes.
pub fn word_at_its_place<B: Bounds>(dictionary: &Dictionary<B>, place: usize)
    requires { place < length dictionary.now.list }
    ensures rank { rank_of (slice_index_or (texts_of dictionary.now.list) place []) (texts_of dictionary.now.list) ≡ place }
    ensures text { text_written (dictionary_bytes dictionary.now.list) place ≡ slice_index_or (texts_of dictionary.now.list) place [] }
{
    dictionary.is_in_order();
}

/// Shows that looking for a word by halves in the written bytes finds the place of each word that is there, which is
/// its rank, and finds no other word.
pub fn word_is_found<B: Bounds>(dictionary: &Dictionary<B>)
    ensures found { (place : ℕ) → place < length dictionary.now.list
        → found_by_halves (length dictionary.now.list) (dictionary_bytes dictionary.now.list)
        (slice_index_or (texts_of dictionary.now.list) place []) 0 (length dictionary.now.list) ≡ Some place }
    ensures absent { (text : Text) → word_of text dictionary.now.list ≡ None
        → found_by_halves (length dictionary.now.list) (dictionary_bytes dictionary.now.list) text 0 (length dictionary.now.list) ≡ None }
{
    dictionary.is_in_order();
}
