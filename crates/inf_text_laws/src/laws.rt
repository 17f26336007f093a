//! Laws of the definitions together.
ghost use Rattle.std.specs.Prelude.{List, ℕ};
ghost use Rattle.inf_text_laws.specs.{Joining.ReadsJoined, Plain.ReadsPlainly, Spelled.AccentsRead, Spelled.ComesBack};
ghost use Rattle.inf_characters.specs.{declared.characters.CharSet.CharSet, declared.reading.Mode.Mode};
ghost use Rattle.inf_characters.specs.{declared.texts.TextItem.TextItem};
ghost use Rattle.inf_text.specs.{Parts.AreLongTexts, Parts.IsCut};

/// States that no abbreviation is missed, and none overlaps another: the Z-characters of a text are
/// those of parts that follow one another and are the whole text. An item is laid as itself only where
/// no declared abbreviation begins, and an abbreviation that is taken is the longest that begins
/// there.
#[tactic(auto, using(inf_text::proofs::Cutting::is_cut))]
pub fn abbreviations_cut_texts()
    ensures { (declared : List (List TextItem)) (items : List TextItem) → AreLongTexts declared → IsCut declared items }
{}

/// States that bytes without `@`, `~`, `^`, `\` and line ends are read one by one: as the characters
/// that `source_char` gives, or with the fault `NoZscii` of the first byte for which it gives none.
pub fn plain_texts_are_their_bytes()
    ensures { (set : CharSet) (mode : Mode) (bytes : List ℕ) → ReadsPlainly set mode bytes }
{}

/// States that each of the 165 codes (13, 32 to 126 and 155 to 223) comes back from `@@` and its
/// number, in each mode and both character sets.
#[tactic(auto, using(crate::proofs::Spelled::comes_back))]
pub fn codes_come_back()
    ensures { (set : CharSet) (mode : Mode) (n : ℕ) → ComesBack set mode n }
{}

/// States that `@` and each of the spellings of an accented letter are read as its code, in each mode
/// and both character sets.
#[tactic(auto, using(crate::proofs::Spelled::accents_read))]
pub fn accents_are_spelled()
    ensures { (set : CharSet) (mode : Mode) → AccentsRead set mode }
{}

/// States that bytes that are joined are read as the two texts, joined, where no escape and no run of
/// white space goes on over the seam. The mark `^` of a new line belongs to the white space behind it.
pub fn joined_texts_are_read_joined()
    ensures { (set : CharSet) (mode : Mode) (bytes : List ℕ) (behind : List ℕ) → ReadsJoined set mode bytes behind }
{}
