//! The head of a source: its lines, from the first byte on, that begin with `!%`, and the words of these lines.
ghost use Rattle.std.specs.Prelude.{◌≡◌, ℕ, ◌+◌, ◌<◌, ◌≤◌, ◌^◌, ◌++◌, List, drop, false, length, true};
ghost use Rattle.inf_scanner.specs.Lines.{past};
ghost use Rattle.inf_lexer.specs.Heads.{head_after, head_found, head_step, is_behind, is_head_on, is_word, place_behind, turn_place};
ghost use Rattle.inf_lexer.specs.Heads.{with_head_byte};

use arrayvec::ArrayVec;
use inf_scanner::Lines;

/// Number of bytes that are kept of a word.
const MOST_WORD_BYTES: usize = 256;

/// The place in a head up to which bytes were taken.
#[derive(Clone, Copy)]
pub enum HeadPlace {
    /// The next byte is the first of a line.
    Line,
    /// The last byte is a carriage return, to which a line feed belongs.
    Return,
    /// The last byte is the `!` at the front of a line.
    Sign,
    /// Between the words of a line.
    Gap,
    /// The last byte is one of a word.
    Word,
    /// The last byte is one of the comment that ends the head.
    Comment,
    /// The head has ended.
    Behind,
}

/// The step that one byte makes in a head.
#[derive(Clone, Copy)]
pub enum HeadStep {
    /// The byte is passed over.
    Pass(HeadPlace),
    /// The byte belongs to a word.
    Keep,
    /// The byte is behind the word, or behind the head.
    Stop,
}

/// The end of taking some bytes.
#[derive(Clone, Copy)]
pub enum HeadTurn {
    /// All bytes were taken.
    On(HeadPlace),
    /// A byte is behind the word, or behind the head.
    Stopped(HeadPlace),
}

/// Returns the step of a byte at the front of a line.
fn line_step(byte: u8) -> HeadStep
    ensures { result ≡ head_step HeadPlace.Line byte }
{
    match byte {
        b'!' => HeadStep::Pass(HeadPlace::Sign),
        _ => HeadStep::Stop,
    }
}

/// Returns the step of a byte in a comment that ends the head.
fn comment_step(byte: u8) -> HeadStep
    ensures { result ≡ head_step HeadPlace.Comment byte }
{
    match byte {
        b'\r' | b'\n' => HeadStep::Stop,
        _ => HeadStep::Pass(HeadPlace::Comment),
    }
}

/// Returns the step of a byte between words.
fn gap_step(byte: u8) -> HeadStep
    ensures { result ≡ head_step HeadPlace.Gap byte }
{
    match byte {
        b' ' | b'\t' => HeadStep::Pass(HeadPlace::Gap),
        b'\r' => HeadStep::Pass(HeadPlace::Return),
        b'\n' => HeadStep::Pass(HeadPlace::Line),
        _ => HeadStep::Keep,
    }
}

/// Returns the step of `byte` at `place`.
fn head_step(place: HeadPlace, byte: u8) -> HeadStep
    ensures { result ≡ head_step place byte }
{
    match place {
        HeadPlace::Line => line_step(byte),
        HeadPlace::Return if byte == b'\n' => HeadStep::Pass(HeadPlace::Line),
        HeadPlace::Return => line_step(byte),
        HeadPlace::Sign if byte == b'%' => HeadStep::Pass(HeadPlace::Gap),
        HeadPlace::Sign | HeadPlace::Comment => comment_step(byte),
        HeadPlace::Gap => gap_step(byte),
        HeadPlace::Word if matches!(byte, b' ' | b'\t' | b'\r' | b'\n') => HeadStep::Stop,
        HeadPlace::Word => HeadStep::Keep,
        HeadPlace::Behind => HeadStep::Stop,
    }
}

/// Counts the line that `byte` ends, if it ends one.
fn pass(lines: &mut Lines, byte: u8)
    requires { lines.old.line + 1 < 2 ^ 32 }
    ensures past { lines.new ≡ past byte lines.old }
    ensures few { lines.new.line ≤ lines.old.line + 1 }
{
    if byte == b'\r' || (byte == b'\n' && !lines.after_return) {
        lines.line += 1;
    }
    lines.after_return = byte == b'\r';
}

/// Appends `byte` to `word`, as long as there is room.
fn keep(word: &mut ArrayVec<u8, MOST_WORD_BYTES>, byte: u8)
    ensures { word.new.items ≡ with_head_byte byte word.old.items }
{
    if word.len() < MOST_WORD_BYTES {
        word.push(byte);
    }
}

/// Takes bytes of a head up to the end of a word or of the head, or all of them. Returns the number of those that were taken.
#[tactic(auto, using(crate::proofs::Heading::passes_before))]
pub(crate) fn take_head(
    from: HeadPlace,
    lines: &mut Lines,
    word: &mut ArrayVec<u8, MOST_WORD_BYTES>,
    bytes: &[u8],
) -> (usize, HeadTurn)
    requires { lines.old.line + length bytes.now < 2 ^ 32 }
    ensures found { (rest : List ℕ) → head_after result.1 word.new.items lines.new (drop result.0 bytes.now ++ rest)
        ≡ head_found from word.old.items lines.old (bytes.now ++ rest) }
    ensures within { result.0 ≤ length bytes.now }
    ensures all { is_head_on result.1 ≡ true → result.0 ≡ length bytes.now }
    ensures before { is_behind from ≡ false → is_behind (turn_place result.1) ≡ false }
    ensures few { lines.new.line ≤ lines.old.line + result.0 }
{
    let mut place = from;
    let mut taken = 0;
    while let Some(byte) = bytes.get(taken) {
        match head_step(place, *byte) {
            HeadStep::Pass(next) => place = next,
            HeadStep::Keep => {
                keep(word, *byte);
                place = HeadPlace::Word;
            }
            HeadStep::Stop => return (taken, HeadTurn::Stopped(place)),
        }
        pass(lines, *byte);
        taken += 1;
    }
    (taken, HeadTurn::On(place))
}

/// Returns the place where the head goes on behind a word; the place behind the head where there was no word.
pub(crate) fn place_behind(place: HeadPlace) -> HeadPlace
    ensures { result ≡ place_behind place }
{
    match place {
        HeadPlace::Word => HeadPlace::Gap,
        _ => HeadPlace::Behind,
    }
}

/// Returns whether a word ends at `place`.
pub(crate) fn is_word(place: HeadPlace) -> bool
    ensures { result ≡ is_word place }
{
    matches!(place, HeadPlace::Word)
}
