//! The tokens of a text in memory, one after another.
ghost use Rattle.std.specs.Prelude.{◌≡◌, ℕ, ◌+◌, ◌<◌, ◌^◌, List, [], ◌≤◌, drop, IfOk, IsErr, OnErr, length, true};
ghost use Rattle.inf_characters.specs.declared.characters.CharSet.{CharSet as Set};
ghost use Rattle.inf_scanner.specs.Scanning.{begun, find, found_after, is_on, is_quoted, sight};
ghost use Rattle.inf_scanner.specs.Tokens.{next_token};
ghost use Rattle.inf_text_lexer.specs.TextReaders.{at_line, behind, next_of, read_with, token_of};

use inf_scanner::{Ending, Place, Seen, State, Token, TokenKind, Turn, kind_of};
use inf_text::CharSet;
use std::alloc::{AllocError, Global};
use std::marker::Model;

/// Reads the tokens of a text in memory. It asks no reader of files for anything.
#[derive(Drop)]
pub struct TextLexer<'t> {
    alloc: Global,
    set: CharSet,
    limit: u32,
    file: u16,
    rest: &'t [u8],
    seen: Seen,
}

impl<'t> Model for TextLexer<'t> {
    ghost use Rattle.std.specs.Prelude.{◌+◌, ◌<◌, ◌^◌, length};
    ghost use Rattle.inf_text_lexer.specs.TextReaders.{TextReader};

    ghost Value = { TextReader };

    ghost view = { λ l. record {
      set = l.set;
      limit = l.limit;
      file = l.file;
      rest = l.rest.now;
      kept = l.seen.spelling;
      lines = l.seen.lines;
    } };

    ghost invariant = { λ l. l.seen.lines.line + length l.rest.now < 2 ^ 32 };
}

/// Returns the ending of the token that `turn` ends; where it ends none, the text has ended, and the ending is that of its state there.
fn ending_of(turn: Turn, seen: &mut Seen) -> Ending
    ensures found { (set : Set) (limit : ℕ) (rest : List ℕ) → (is_on turn ≡ true → rest ≡ []) →
        record { ending = result; seen = sight seen.new; rest = rest } ≡ found_after set limit turn (sight seen.old) rest }
    ensures lines { seen.new.lines ≡ seen.old.lines }
{
    match turn {
        Turn::On(state) => {
            seen.mark(state);
            state.at_end()
        }
        Turn::Last(ending) | Turn::Behind(ending) => ending,
    }
}

/// Returns the bytes behind the first `count`.
fn bytes_behind(bytes: &[u8], count: usize) -> &[u8]
    requires { count ≤ length bytes.now }
    ensures { result.now ≡ drop count bytes.now }
{
    &bytes[count..]
}

/// Returns the kind of the next token, and the number of the bytes of `rest` up to its end.
fn read_token(
    alloc: Global,
    set: CharSet,
    limit: u32,
    seen: &mut Seen,
    rest: &[u8],
) -> Result<(TokenKind, usize), AllocError>
    requires { seen.old.lines.line + length rest.now < 2 ^ 32 }
    ensures token { IfOk result (λ r. read_with r.0 (sight seen.new) (drop r.1 rest.now) ≡ next_token set limit seen.old.lines rest.now) }
    ensures within { IfOk result (λ r. r.1 ≤ length rest.now) }
    ensures few { IfOk result (λ r. seen.new.lines.line ≤ seen.old.lines.line + r.1) }
    ensures memory { IsErr result → is_quoted (find set limit State.Gap (begun seen.old.lines) rest.now).ending ≡ true }
{
    seen.begin();
    let (taken, turn) = seen.take_all(set, limit, State::Gap, rest)?;
    let ending = ending_of(turn, seen);
    let kind = kind_of(alloc, set, ending, &seen.spelling)?;
    Ok((kind, taken))
}

impl<'t> TextLexer<'t> {
    /// Makes a lexer at the front of `text`, which begins on the line `line` of a file that has the number `file` in
    /// places. It reads by `set`, and a quoted token may have `limit` bytes between its quotes.
    ///
    /// `AllocError` comes where there is no room for the bytes of a name.
    pub fn new(
        alloc: Global,
        set: CharSet,
        limit: u32,
        file: u16,
        line: u32,
        text: &'t [u8],
    ) -> Result<TextLexer<'t>, AllocError>
        requires { line + length text.now < 2 ^ 32 }
        ensures { IfOk result (λ lexer. lexer ≡ at_line set limit file line text.now) }
    {
        let mut seen = Seen::new(alloc)?;
        seen.lines.line = line;
        Ok(TextLexer {
            alloc,
            set,
            limit,
            file,
            rest: text,
            seen,
        })
    }

    /// Reads the next token; at the text's end that is the end, again and again.
    ///
    /// `AllocError` comes where there is no room for a quoted token, and for no other. Then nothing was taken of the
    /// text: the next call reads the same token.
    pub fn next(&mut self) -> Result<Token, AllocError>
        ensures token { IfOk result (λ token. token ≡ token_of self.old.file (next_of self.old)) }
        ensures behind { IfOk result (λ _. self.new ≡ behind (next_of self.old) self.old) }
        ensures memory { IsErr result →
            is_quoted (find self.old.set self.old.limit State.Gap (begun self.old.lines) self.old.rest).ending ≡ true }
        ensures err { OnErr result (self.new ≡ record self.old { kept = self.new.kept }) }
    {
        let lines = self.seen.lines;
        match read_token(self.alloc, self.set, self.limit, &mut self.seen, self.rest) {
            Ok((kind, taken)) => {
                self.rest = bytes_behind(self.rest, taken);
                Ok(Token {
                    kind,
                    place: Place {
                        file: self.file,
                        line: self.seen.first,
                    },
                })
            }
            Err(fault) => {
                self.seen.lines = lines;
                Err(fault)
            }
        }
    }

    /// Returns the bytes of the token that was read last: those between its quotes for a text or a quote, and the front
    /// of a token that is too long. A byte that begins no token, and the end, have none.
    pub fn spelling(&self) -> &[u8]
        ensures { result.now ≡ self.now.kept.bytes }
    {
        self.seen.spelling.as_slice()
    }
}
