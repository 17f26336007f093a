//! The tokens of an open source, one after another.
ghost use Rattle.std.specs.Prelude.{◌≡◌, ◌+◌, ◌-◌, ◌<◌, ◌≤◌, [], false, true, length, is_err, IsErr, IsTrue, IfErr, IfOk, OnOk, Err};
ghost use Rattle.inf_lexer.specs.Heads.{HeadFound, HeadRead, head_found, is_behind, next_head_word};
ghost use Rattle.inf_lexer.specs.Reading.{Heard, ReadsOn, is_read, tells_read};
ghost use Rattle.inf_lexer.specs.Readers.{HeadStaysOpen, Refuses, Stays, StaysOpen, Took, TookWord, at_front, head_out, place_after};
ghost use Rattle.inf_lexer.specs.Readers.{read_out};
ghost use Rattle.inf_lexer.specs.Unread.{to_come, unread};
ghost use Rattle.inf_scanner.specs.Scanning.{Found, begun, find, sight};
ghost use Rattle.inf_scanner.specs.Tokens.{Read, next_token};

use crate::faults::LexFault;
use crate::head::{HeadPlace, HeadTurn, is_word, place_behind, take_head};
use crate::window::Window;
use arrayvec::ArrayVec;
use inf_devices::files::Files;
use inf_scanner::{Ending, Lines, Place, Seen, State, Token, Turn, kind_of};
use inf_text::CharSet;
use std::alloc::{AllocError, Global};
use std::marker::Model;
use std::mem;

/// Reads the bytes of the next token into `seen`, and returns how the token ends.
fn scan<F: Files>(
    set: CharSet,
    limit: u32,
    window: &mut Window,
    seen: &mut Seen,
    files: &mut F,
) -> Result<Ending, LexFault>
    requires is_open { 0 < F.depth files.old }
    requires few { window.old.given ≤ 16777216 }
    requires room { seen.old.lines.line + length window.old.left ≤ window.old.given + 1 }
    requires window { length window.old.left ≤ 4096 }
    ensures heard { IfOk result (λ e. Heard Found F.Files false files.old files.new window.old window.new
        (λ rest. record { ending = e; seen = sight seen.new; rest = rest }) (find set limit State.Gap (begun seen.old.lines))) }
    ensures went { IfErr result (λ fault. ReadsOn F.Files (is_read fault) files.old files.new window.old window.new) }
    ensures room { OnOk result (seen.new.lines.line + length window.new.left ≤ window.new.given + 1) }
    ensures refused { IsTrue (F.is_honest files.old) → IfErr result (Refuses set limit seen.old.lines
        (to_come (F.sources files.old) (F.openings files.old) window.old)
        (window.new.given - 16777216) (unread (F.sources files.old) (F.openings files.new))) }
{
    seen.begin();
    let mut state = State::Gap;
    'windows: loop {
        window.refill(files)?;
        if window.left().is_empty() {
            seen.mark(state);
            return Ok(state.at_end());
        }
        let (taken, turn) = seen.take_all(set, limit, state, window.left())?;
        window.pass(taken);
        match turn {
            Turn::On(next) => state = next,
            Turn::Last(ending) => return Ok(ending),
            Turn::Behind(ending) => return Ok(ending),
        }
    }
}

/// Reads the bytes of a head up to the end of its next word, or to its own end, and returns the place up to which it read.
fn scan_head<F: Files>(
    from: HeadPlace,
    window: &mut Window,
    lines: &mut Lines,
    word: &mut ArrayVec<u8, 256>,
    files: &mut F,
) -> Result<HeadPlace, LexFault>
    requires is_open { 0 < F.depth files.old }
    requires few { window.old.given ≤ 16777216 }
    requires room { lines.old.line + length window.old.left ≤ window.old.given + 1 }
    requires window { length window.old.left ≤ 4096 }
    ensures heard { IfOk result (λ place. Heard HeadFound F.Files false files.old files.new window.old window.new
        (λ rest. record { place = place; word = word.new.items; lines = lines.new; rest = rest })
        (head_found from word.old.items lines.old)) }
    ensures went { IfErr result (λ fault. ReadsOn F.Files (is_read fault) files.old files.new window.old window.new) }
    ensures room { OnOk result (lines.new.line + length window.new.left ≤ window.new.given + 1) }
    ensures err { IfErr result (λ fault. fault ≡ LexFault.Read) }
    ensures refused { IsErr result → is_behind from ≡ false → IsTrue (F.is_honest files.old) →
        StaysOpen (λ bytes. (head_found from word.old.items lines.old bytes).rest)
        (to_come (F.sources files.old) (F.openings files.old) window.old)
        (window.new.given - 16777216) (unread (F.sources files.old) (F.openings files.new)) }
{
    let mut place = from;
    'windows: loop {
        window.refill(files)?;
        if window.left().is_empty() {
            return Ok(place);
        }
        let (taken, turn) = take_head(place, lines, word, window.left());
        window.pass(taken);
        match turn {
            HeadTurn::On(next) => place = next,
            HeadTurn::Stopped(last) => return Ok(last),
        }
    }
}

/// Reads the tokens of the source that was opened last.
///
/// A lexer has at most 4,096 bytes of the source in view, and keeps of the token at hand at most 32 bytes, or of a quoted one as
/// many as its limit.
#[derive(Drop)]
pub struct Lexer {
    alloc: Global,
    set: CharSet,
    limit: u32,
    file: u16,
    window: Window,
    seen: Seen,
    has_failed: bool,
}

impl Model for Lexer {
    ghost use Rattle.std.specs.Prelude.{◌≡◌, ◌+◌, ◌≤◌, length, false};
    ghost use Rattle.inf_lexer.specs.Readers.{Reader};

    ghost Value = { Reader };

    ghost view = { λ l. record {
      set = l.set;
      limit = l.limit;
      file = l.file;
      window = l.window;
      kept = l.seen.spelling;
      lines = l.seen.lines;
      has_failed = l.has_failed;
    } };

    ghost invariant = { λ l. (l.has_failed ≡ false → (l.window.given ≤ 16777216)
        × (l.seen.lines.line + length l.window.left ≤ l.window.given + 1)) × (length l.window.left ≤ 4096) };
}

impl Lexer {
    /// Returns a lexer at the front of the source with the number `file`, of which nothing was read yet. A quoted token may have
    /// `limit` bytes between its quotes.
    pub(crate) fn new(
        alloc: Global,
        set: CharSet,
        limit: u32,
        file: u16,
    ) -> Result<Lexer, AllocError>
        ensures { IfOk result (λ lexer. lexer ≡ at_front set limit file) }
    {
        Ok(Lexer {
            alloc,
            set,
            limit,
            file,
            window: Window::new(alloc)?,
            seen: Seen::new(alloc)?,
            has_failed: false,
        })
    }

    /// Returns a lexer at the front of the source with the number `file`, as `new` returns it, in the memory of this lexer, whose own
    /// source is done with.
    pub(crate) fn over(mut self, set: CharSet, limit: u32, file: u16) -> Lexer
        ensures { result ≡ at_front set limit file }
    {
        self.choose(set, limit);
        self.file = file;
        self.window.restart();
        self.seen.lines = Lines {
            line: 1,
            after_return: false,
        };
        self.seen.begin();
        self.has_failed = false;
        self
    }

    /// Reads the next token and returns it; at the source's end that is the end, again and again. The lexer's source is the one
    /// that was opened last and is not closed.
    ///
    /// Fails with `Read` where the source could not be read, or has more than 16,777,216 bytes, and after every refusal; with
    /// `Memory` where there is no room for a quoted token, and for no other token.
    pub fn next<F: Files>(&mut self, files: &mut F) -> Result<Token, LexFault>
        requires { 0 < F.depth files.old }

        // With an honest reader the result is the next token of all that is still to come.
        ensures token { IsTrue (F.is_honest files.old) → IfOk result (λ token.
            read_out token self.new (to_come (F.sources files.old) (F.openings files.new) self.new.window)
            ≡ next_token self.old.set self.old.limit self.old.lines
            (to_come (F.sources files.old) (F.openings files.old) self.old.window)) }

        // With any reader the result is the next token of the bytes that are in view and those that were given, whatever follows
        // them. At most 4,096 bytes behind the token were given to the lexer.
        ensures heard { IfOk result (λ token. Heard Read F.Files false files.old files.new self.old.window self.new.window
            (read_out token self.new) (next_token self.old.set self.old.limit self.old.lines)) }
        ensures took { IfOk result (λ token. Took token.kind self.old.window self.new.window self.new.kept
            × (token.place.file ≡ self.old.file)) }
        ensures went { self.old.has_failed ≡ false →
            ReadsOn F.Files (tells_read result) files.old files.new self.old.window self.new.window }
        ensures window { length self.new.window.left ≤ 4096 }
        ensures same { Stays self.old self.new (is_err result) }
        ensures refused { IsTrue (F.is_honest files.old) → self.old.has_failed ≡ false → IfErr result (Refuses self.old.set self.old.limit
            self.old.lines (to_come (F.sources files.old) (F.openings files.old) self.old.window)
            (self.new.window.given - 16777216) (unread (F.sources files.old) (F.openings files.new))) }

        // Behind a refusal each answer is `Read`, and nothing changes.
        ensures over { self.old.has_failed ≡ true → (result ≡ Err LexFault.Read) × ((self.new ≡ self.old) × (files.new ≡ files.old)) }
    {
        if self.has_failed {
            return Err(LexFault::Read);
        }
        self.has_failed = true;
        let ending = scan(
            self.set,
            self.limit,
            &mut self.window,
            &mut self.seen,
            files,
        )?;
        let kind = kind_of(self.alloc, self.set, ending, &self.seen.spelling)?;
        self.has_failed = false;
        Ok(Token {
            kind,
            place: Place {
                file: self.file,
                line: self.seen.first,
            },
        })
    }

    /// Reads the next word of the head of the source into `word`, of which at most 256 bytes are kept, and returns whether there was one.
    ///
    /// The head is the source's lines, from its first byte on, that begin with `!%`; lines end with CR, LF or CR LF. Words follow
    /// `!%`, which are cut at spaces and tabs alone. `place` is where the head goes on: `HeadPlace::Line` before the first call,
    /// and from then on the place that the call before left. Behind the last word the result is false, and the source goes on
    /// behind the head, but for a comment that ends it. The lexer's source is the one that was opened last and is not closed.
    ///
    /// Fails with `Read` where the source could not be read, or has more than 16,777,216 bytes, and after every refusal.
    pub fn next_head_word<F: Files>(
        &mut self,
        files: &mut F,
        place: &mut HeadPlace,
        word: &mut ArrayVec<u8, 256>,
    ) -> Result<bool, LexFault>
        requires { 0 < F.depth files.old }

        // With an honest reader the result is the next word of all that is still to come.
        ensures word { IsTrue (F.is_honest files.old) → IfOk result (λ is_word.
            head_out is_word place.new word.new.items self.new (to_come (F.sources files.old) (F.openings files.new) self.new.window)
            ≡ next_head_word place.old self.old.lines (to_come (F.sources files.old) (F.openings files.old) self.old.window)) }

        // With any reader the result is the next word of the bytes that are in view and those that were given, whatever follows them.
        ensures heard { IfOk result (λ is_word. Heard HeadRead F.Files false files.old files.new self.old.window self.new.window
            (head_out is_word place.new word.new.items self.new) (next_head_word place.old self.old.lines)) }
        ensures took { (place.new ≡ place_after result place.old)
            × IfOk result (λ is_word. TookWord is_word place.old self.old.window self.new.window) }
        ensures went { self.old.has_failed ≡ false →
            ReadsOn F.Files (tells_read result) files.old files.new self.old.window self.new.window }
        ensures window { length self.new.window.left ≤ 4096 }
        ensures same { Stays self.old self.new (is_err result) × (self.new.kept ≡ self.old.kept) }

        // The bytes that were given end neither the word nor the head, where the call is refused. Behind a refusal each answer is
        // `Read`, and nothing changes.
        ensures refused { IfErr result (λ fault. (fault ≡ LexFault.Read)
            × (IsTrue (F.is_honest files.old) → self.old.has_failed ≡ false → is_behind place.old ≡ false → HeadStaysOpen place.old
            self.old.lines (to_come (F.sources files.old) (F.openings files.old) self.old.window)
            (self.new.window.given - 16777216) (unread (F.sources files.old) (F.openings files.new)))) }
        ensures over { self.old.has_failed ≡ true → (result ≡ Err LexFault.Read) × ((self.new ≡ self.old) × (files.new ≡ files.old)) }
    {
        if mem::replace(&mut self.has_failed, true) {
            return Err(LexFault::Read);
        }
        word.clear();
        let last = scan_head(*place, &mut self.window, &mut self.seen.lines, word, files)?;
        self.has_failed = false;
        *place = place_behind(last);
        Ok(is_word(last))
    }

    /// Returns the character set by which the source is read.
    pub fn characters(&self) -> CharSet
        ensures { result ≡ self.now.set }
    {
        self.set
    }

    /// Reads by the character set `set` from the next token on.
    pub fn set_characters(&mut self, set: CharSet)
        ensures { self.new ≡ record self.old { set = set } }
    {
        self.set = set;
    }

    /// Reads by the character set `set` from the next token on, and lets a quoted token have `limit` bytes between its quotes.
    pub fn choose(&mut self, set: CharSet, limit: u32)
        ensures { self.new ≡ record self.old { set = set; limit = limit } }
    {
        self.set_characters(set);
        self.limit = limit;
    }

    /// Returns the bytes of the token that was read last: of a text or quote those between its quotes, and of a token that is too
    /// long those at its front. A byte that begins no token, and the end, have no bytes.
    pub fn spelling(&self) -> &[u8]
        ensures { result.now ≡ self.now.kept.bytes }
    {
        self.seen.spelling.as_slice()
    }
}
