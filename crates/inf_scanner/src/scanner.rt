//! Tokens byte by byte: each byte is skipped, is kept, or ends the token.
ghost use Rattle.std.specs.Prelude.{◌≡◌, ℕ, ◌+◌, ◌<◌, ◌≤◌, ◌^◌, ◌++◌, List, drop, length, true, IfOk, IfSome, IsErr, OnErr};
ghost use Rattle.std.specs.List.{prefix_len};
ghost use Rattle.inf_characters.specs.declared.characters.CharSet.{CharSet as Set};
ghost use Rattle.inf_scanner.specs.{Lines.first_line, Runs.is_blank, Runs.is_name_byte, Runs.is_plain, Runs.name_bytes, Runs.stays};
ghost use Rattle.inf_scanner.specs.Scanning.{is_run_byte, begins_number, step_of, begin, at_end, most, is_gap, turn, sight, marked, begun};
ghost use Rattle.inf_scanner.specs.Scanning.{ended_at, find, found_after, goes_on, is_behind, is_on, is_open, is_quoted, most_behind};
ghost use Rattle.inf_scanner.specs.Scanning.{Sight};

use crate::lines::Lines;
use crate::marks::{first_mark, is_whole, longer_mark};
use crate::spelling::Spelling;
use crate::tokens::Mark;
use inf_characters::{is_line_end, is_white};
use inf_text::CharSet;
use std::alloc::{AllocError, Global};

/// The part of a source that is being read.
#[derive(Clone, Copy)]
pub enum State {
    /// White space before a token.
    Gap,
    Comment,
    /// A name; where the flag is set a number, since the run begins with a digit or has a `$`.
    Run(bool),
    Mark(Mark),
    /// A text, behind its opening double quote.
    Text,
    /// A quote, behind its opening single quote; the flag says whether the byte before is a `@`.
    Quote(bool),
}

/// The end of a token: together with the bytes it decides the kind of the token.
#[derive(Clone, Copy)]
pub enum Ending {
    Run(bool),
    Mark(Mark),
    Text,
    Quote,
    Unclosed,
    Unfit,
    End,
}

/// The step that a byte makes.
#[derive(Clone, Copy)]
pub enum ByteStep {
    /// The byte is skipped.
    Skip(State),
    /// The byte is one of the token's.
    Keep(State),
    /// The byte is skipped, and is the last of the token.
    Close(Ending),
    /// The byte comes behind the token.
    Behind(Ending),
}

/// The outcome of a byte.
#[derive(Clone, Copy)]
pub enum Turn {
    On(State),
    /// The byte was the last of the token.
    Last(Ending),
    /// The byte comes behind the token.
    Behind(Ending),
}

fn is_run_byte(byte: u8) -> bool
    ensures { result ≡ is_run_byte byte }
{
    is_name_byte(byte) || byte == b'$'
}

/// Returns whether a byte is white space that ends no line, in both character sets.
fn is_blank(byte: u8) -> bool
    ensures { result ≡ is_blank byte }
{
    matches!(byte, b' ' | b'\t' | 12)
}

/// For each byte whether it may be in a name, but for `$`: a look into a table takes fewer steps than the tests of a byte.
#[rattlefmt::skip]
const NAME_BYTES: [bool; 256] = [
    false, false, false, false, false, false, false, false, false, false, false, false, false, false, false, false,
    false, false, false, false, false, false, false, false, false, false, false, false, false, false, false, false,
    false, false, false, false, false, false, false, false, false, false, false, false, false, false, false, false,
    true, true, true, true, true, true, true, true, true, true, false, false, false, false, false, false,
    false, true, true, true, true, true, true, true, true, true, true, true, true, true, true, true,
    true, true, true, true, true, true, true, true, true, true, true, false, false, false, false, true,
    false, true, true, true, true, true, true, true, true, true, true, true, true, true, true, true,
    true, true, true, true, true, true, true, true, true, true, true, false, false, false, false, false,
    false, false, false, false, false, false, false, false, false, false, false, false, false, false, false, false,
    false, false, false, false, false, false, false, false, false, false, false, false, false, false, false, false,
    false, false, false, false, false, false, false, false, false, false, false, false, false, false, false, false,
    false, false, false, false, false, false, false, false, false, false, false, false, false, false, false, false,
    false, false, false, false, false, false, false, false, false, false, false, false, false, false, false, false,
    false, false, false, false, false, false, false, false, false, false, false, false, false, false, false, false,
    false, false, false, false, false, false, false, false, false, false, false, false, false, false, false, false,
    false, false, false, false, false, false, false, false, false, false, false, false, false, false, false, false,
];

/// Returns for each byte whether it may be in a name, but for `$`.
fn name_bytes() -> &'static [bool; 256]
    ensures { result.now ≡ name_bytes }
{
    &NAME_BYTES
}

/// Returns whether a byte may be in a name, but for `$`.
fn is_name_byte(byte: u8) -> bool
    ensures { result ≡ is_name_byte byte }
{
    name_bytes()[byte as usize]
}

/// Returns whether a byte ends no line, text or quote, and is no `@`.
fn is_plain(byte: u8) -> bool
    ensures { result ≡ is_plain byte }
{
    !matches!(byte, b'\n' | b'\r' | b'"' | b'\'' | b'@')
}

fn begins_number(byte: u8) -> bool
    ensures { result ≡ begins_number byte }
{
    byte.is_ascii_digit() || byte == b'$'
}

/// Counts the blanks at the front.
fn blank_len(bytes: &[u8]) -> usize
    ensures { result ≡ prefix_len is_blank bytes.now }
{
    let mut len = 0;
    for byte in bytes {
        if !is_blank(*byte) {
            break;
        }
        len += 1;
    }
    len
}

/// Counts the bytes of names at the front.
fn name_len(bytes: &[u8]) -> usize
    ensures { result ≡ prefix_len is_name_byte bytes.now }
{
    let mut len = 0;
    for byte in bytes {
        if !is_name_byte(*byte) {
            break;
        }
        len += 1;
    }
    len
}

/// Counts the plain bytes at the front.
fn plain_len(bytes: &[u8]) -> usize
    ensures { result ≡ prefix_len is_plain bytes.now }
{
    let mut len = 0;
    for byte in bytes {
        if !is_plain(*byte) {
            break;
        }
        len += 1;
    }
    len
}

/// Counts the bytes at the front that are known to leave `state` as it is, and to end no line.
fn run_len(state: State, bytes: &[u8]) -> usize
    ensures { result ≡ prefix_len (stays state) bytes.now }
{
    match state {
        State::Gap => blank_len(bytes),
        State::Run(_) => name_len(bytes),
        State::Comment | State::Text | State::Quote(false) => plain_len(bytes),
        State::Quote(true) => 0,
        State::Mark(_) => 0,
    }
}

/// Returns the step that the first byte of a token makes, or a byte before it.
fn begin(set: CharSet, byte: u8) -> ByteStep
    ensures { result ≡ begin set byte }
{
    if let Some(mark) = first_mark(byte) {
        return ByteStep::Keep(State::Mark(mark));
    }
    if is_white(set, byte) {
        return ByteStep::Skip(State::Gap);
    }
    if is_run_byte(byte) {
        return ByteStep::Keep(State::Run(begins_number(byte)));
    }
    match byte {
        b'!' => ByteStep::Skip(State::Comment),
        b'"' => ByteStep::Skip(State::Text),
        b'\'' => ByteStep::Skip(State::Quote(false)),
        _ => ByteStep::Close(Ending::Unfit),
    }
}

/// Returns the step that a byte makes in a state.
fn step_of(set: CharSet, state: State, byte: u8) -> ByteStep
    ensures { result ≡ step_of set state byte }
{
    match state {
        State::Gap => begin(set, byte),
        State::Comment if is_line_end(byte) => ByteStep::Skip(State::Gap),
        State::Comment => ByteStep::Skip(State::Comment),
        State::Run(is_number) if is_run_byte(byte) => {
            ByteStep::Keep(State::Run(is_number || byte == b'$'))
        }
        State::Run(is_number) => ByteStep::Behind(Ending::Run(is_number)),
        State::Mark(mark) => match longer_mark(mark, byte) {
            Some(longer) => ByteStep::Keep(State::Mark(longer)),
            None => ByteStep::Behind(Ending::Mark(mark)),
        },
        State::Text if byte == b'"' => ByteStep::Close(Ending::Text),
        State::Text => ByteStep::Keep(State::Text),
        State::Quote(_) if is_line_end(byte) => ByteStep::Behind(Ending::Unclosed),
        State::Quote(false) if byte == b'\'' => ByteStep::Close(Ending::Quote),
        State::Quote(_) => ByteStep::Keep(State::Quote(byte == b'@')),
    }
}

impl State {
    /// Returns the ending of the token at the end of the source.
    pub fn at_end(self) -> Ending
        ensures { result ≡ at_end self }
    {
        match self {
            State::Gap | State::Comment => Ending::End,
            State::Run(is_number) => Ending::Run(is_number),
            State::Mark(mark) => Ending::Mark(mark),
            State::Text | State::Quote(_) => Ending::Unclosed,
        }
    }

    /// Returns the ending of the token at once, where no byte can go on with it: a mark that is the front of no other.
    fn ended(self) -> Option<Ending>
        ensures value { result ≡ ended_at self }
        ensures found { IfSome result (λ e. (set : Set) (limit : ℕ) (seen : Sight) (rest : List ℕ) →
            record { ending = e; seen = seen; rest = rest } ≡ find set limit self seen rest) }
    {
        match self {
            State::Mark(mark) if is_whole(mark) => Some(Ending::Mark(mark)),
            _ => None,
        }
    }

    /// Returns the number of bytes that are kept of the token: `limit` of a quoted one, and else 32.
    fn most(self, limit: u32) -> usize
        ensures { result ≡ most limit self }
    {
        match self {
            State::Text | State::Quote(_) => limit as usize,
            _ => 32,
        }
    }

    /// Returns whether this state is before a token.
    fn is_gap(self) -> bool
        ensures { result ≡ is_gap self }
    {
        matches!(self, State::Gap | State::Comment)
    }
}

/// The part of a token that was seen: the line of its first byte, its bytes, and the line behind them.
#[derive(Drop)]
pub struct Seen {
    pub first: u32,
    pub spelling: Spelling,
    pub lines: Lines,
}

impl Seen {
    /// Returns the state at the front of a source, where no byte was seen yet.
    pub fn new(alloc: Global) -> Result<Seen, AllocError>
        ensures { IfOk result (λ seen. sight seen ≡ begun first_line) }
    {
        Ok(Seen {
            first: 1,
            spelling: Spelling::new(alloc)?,
            lines: Lines::first(),
        })
    }

    /// Begins the next token: forgets the bytes of the one before.
    pub fn begin(&mut self)
        ensures { sight self.new ≡ begun self.old.lines }
    {
        self.first = self.lines.line;
        self.spelling.clear();
    }

    /// Sets the line of the token to the line at hand, as long as no token has begun.
    pub fn mark(&mut self, state: State)
        ensures { sight self.new ≡ marked state (sight self.old) }
    {
        if state.is_gap() {
            self.first = self.lines.line;
        }
    }

    /// Takes bytes up to the end of the token, or all of them. Returns their number, and the outcome of the last byte that it
    /// looked at. A mark that is the front of no other ends at once, without a look at the byte behind it.
    pub fn take_all(
        &mut self,
        set: CharSet,
        limit: u32,
        from: State,
        bytes: &[u8],
    ) -> Result<(usize, Turn), AllocError>
        requires { self.old.lines.line + length bytes.now < 2 ^ 32 }
        ensures found { IfOk result (λ r. (rest : List ℕ) → found_after set limit r.1 (sight self.new) (drop r.0 bytes.now ++ rest)
            ≡ find set limit from (sight self.old) (bytes.now ++ rest)) }
        ensures within { IfOk result (λ r. r.0 ≤ length bytes.now) }
        ensures all { IfOk result (λ r. is_on r.1 ≡ true → r.0 ≡ length bytes.now) }
        ensures opens { IfOk result (λ r. goes_on from ≡ true → is_open r.1 ≡ true) }
        ensures few { IfOk result (λ r. self.new.lines.line ≤ self.old.lines.line + r.0) }
        ensures memory { IsErr result → (rest : List ℕ) →
            is_quoted (find set limit from (sight self.old) (bytes.now ++ rest)).ending ≡ true }
    {
        let mut state = from;
        let mut taken = 0;
        loop {
            let (len, reached) = self.take_run(limit, state, &bytes[taken..])?;
            taken += len;
            state = reached;
            let Some(byte) = bytes.get(taken) else {
                return Ok((taken, Turn::On(state)));
            };
            match self.take(set, limit, state, *byte)? {
                Turn::On(next) => match next.ended() {
                    Some(ending) => return Ok((taken + 1, Turn::Last(ending))),
                    None => state = next,
                },
                Turn::Last(ending) => return Ok((taken + 1, Turn::Last(ending))),
                Turn::Behind(ending) => return Ok((taken, Turn::Behind(ending))),
            }
            taken += 1;
        }
    }

    // Takes at once the bytes at the front that leave the state as it is, and a name or number that begins behind blanks. Returns
    // their number, and the state behind them.
    fn take_run(
        &mut self,
        limit: u32,
        state: State,
        bytes: &[u8],
    ) -> Result<(usize, State), AllocError>
        ensures found { IfOk result (λ r. (set : CharSet) (rest : List ℕ) → find set limit r.1 (sight self.new) (drop r.0 bytes.now ++ rest)
            ≡ find set limit state (sight self.old) (bytes.now ++ rest)) }
        ensures opens { IfOk result (λ r. goes_on state ≡ true → goes_on r.1 ≡ true) }
        ensures within { IfOk result (λ r. r.0 ≤ length bytes.now) }
        ensures line { self.new.lines.line ≡ self.old.lines.line }
        ensures memory { IsErr result → 32 < most limit state }
    {
        let len = self.pass_run(limit, state, bytes)?;
        let behind = &bytes[len..];
        match (state, behind.first()) {
            (State::Gap, Some(byte)) if is_name_byte(*byte) => {
                self.first = self.lines.line;
                let run = State::Run(byte.is_ascii_digit());
                let more = self.pass_run(limit, run, behind)?;
                Ok((len + more, run))
            }
            _ => Ok((len, state)),
        }
    }

    // Takes at once the bytes at the front that leave the state as it is, and returns their number. Most runs are short, for
    // which a call would cost more than the run.
    #[inline(always)]
    fn pass_run(&mut self, limit: u32, state: State, bytes: &[u8]) -> Result<usize, AllocError>
        ensures found { IfOk result (λ n. (set : CharSet) (rest : List ℕ) → find set limit state (sight self.new) (drop n bytes.now ++ rest)
            ≡ find set limit state (sight self.old) (bytes.now ++ rest)) }
        ensures within { IfOk result (λ n. n ≤ length bytes.now) }
        ensures line { self.new.lines.line ≡ self.old.lines.line }
        ensures memory { IsErr result → 32 < most limit state }
    {
        let len = run_len(state, bytes);
        if len == 0 {
            return Ok(0);
        }
        if !state.is_gap() {
            self.spelling.extend(state.most(limit), &bytes[..len])?;
        }
        self.lines.after_return = false;
        Ok(len)
    }

    // Takes a byte, and returns its outcome.
    fn take(&mut self, set: CharSet, limit: u32, state: State, byte: u8) -> Result<Turn, AllocError>
        requires { self.old.lines.line + 1 < 2 ^ 32 }
        ensures turn { IfOk result (λ t. (t, sight self.new) ≡ turn set limit state byte (sight self.old)) }
        ensures few { self.new.lines.line ≤ self.old.lines.line + 1 }
        ensures behind { IfOk result (λ t. is_behind t ≡ true → self.new.lines ≡ self.old.lines) }
        ensures err { OnErr result (self.new.lines ≡ self.old.lines) }
        ensures memory { IsErr result → 32 < most_behind limit (step_of set state byte) }
    {
        self.mark(state);
        match step_of(set, state, byte) {
            ByteStep::Skip(next) => {
                self.lines.pass(byte);
                Ok(Turn::On(next))
            }
            ByteStep::Keep(next) => {
                self.spelling.push(next.most(limit), byte)?;
                self.lines.pass(byte);
                Ok(Turn::On(next))
            }
            ByteStep::Close(ending) => {
                self.lines.pass(byte);
                Ok(Turn::Last(ending))
            }
            ByteStep::Behind(ending) => Ok(Turn::Behind(ending)),
        }
    }
}
