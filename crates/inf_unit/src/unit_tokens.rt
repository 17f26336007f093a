//! The tokens of a unit.
ghost use Rattle.std.specs.Prelude.{◌≡◌, ◌≤◌, [], ◌∷◌, ◌++◌, drop, IfOk, IfSome, MatchOption, OnErr, OnOk, Some, length, map, option_map};
ghost use Rattle.std.specs.{List.between, Prelude.List, Prelude.slice_get, Prelude.take, Prelude.ℕ};
ghost use Rattle.inf_names.specs.Spellings.{as_name};
ghost use Rattle.inf_unit.specs.{NameTokens.named, Spelled.spelled, Tokens.name_of};
ghost use Rattle.inf_unit.specs.Kept.{AreKept, end_of_all, kept_tokens};
ghost use Rattle.inf_unit.specs.Units.{bytes_at, directive_word, keyword_at, kind_at, last_place, name_at, name_order, names_in, place_at};
ghost use Rattle.inf_unit.specs.Units.{quoted_in, text_by, with_name};

use crate::kept::Kept;
use crate::kinds::is_mark;
use crate::tokens::SourceToken;
use inf_names::spellings::Name;
use inf_scanner::{Mark, Place, TokenKind};
use inf_syntax::Keyword;
use std::alloc::{AllocError, Global};
use std::marker::Model;

/// A name among the tokens of a unit.
#[derive(Clone, Copy)]
pub struct NameToken<'t> {
    /// The bytes of the name, 32 at most.
    pub bytes: &'t [u8],
    pub place: Place,
}

/// The tokens of a unit, in order.
#[derive(Drop)]
pub struct UnitTokens {
    kept: Vec<Kept>,
    /// The bytes of all tokens, one behind the other.
    bytes: Vec<u8>,
}

impl Model for UnitTokens {
    ghost use Rattle.std.specs.Prelude.{List};
    ghost use Rattle.inf_unit.specs.{Kept.AreKept, Kept.kept_tokens, Tokens.SourceToken};

    ghost Value = { List SourceToken };

    ghost view = { λ t. kept_tokens 0 t.kept.items t.bytes.items };

    ghost invariant = { λ t. AreKept 0 t.kept.items t.bytes.items };
}

/// Returns the name that `token` is, if it is one. It has at most 32 bytes.
#[inline(always)]
fn name_of<'t>(token: &SourceToken<'t>) -> Option<NameToken<'t>>
    ensures value { option_map named result ≡ name_of (spelled token.now) }
    ensures few { IfSome result (λ name. length name.bytes.now ≤ 32) }
{
    match token.kind {
        TokenKind::Name => Some(NameToken {
            bytes: token.bytes,
            place: token.place,
        }),
        _ => None,
    }
}

/// Returns the bytes of `token`, if it is a text.
fn text_of<'t>(token: &SourceToken<'t>) -> Option<&'t [u8]>
    ensures { let token = Some (spelled token.now) in MatchOption result
        ((others : List ℕ) → text_by token others ≡ others) (λ text. (others : List ℕ) → text_by token others ≡ text.now) }
{
    match token.kind {
        TokenKind::Text => Some(token.bytes),
        _ => None,
    }
}

/// Keeps only the bytes from `start` to `end`.
fn keep_part(bytes: &mut Vec<u8>, start: usize, end: usize)
    requires order { start ≤ end }
    requires there { end ≤ length bytes.old.items }
    ensures { bytes.new.items ≡ between start end bytes.old.items }
{
    let count = end - start;
    bytes.copy_within(start..end, 0);
    bytes.truncate(count);
}

/// Appends `more` to `bytes`, which stay as they were where memory runs out. One byte, as most marks have, is pushed: that costs a
/// third of copying a slice.
#[inline(always)]
fn add_bytes(bytes: &mut Vec<u8>, more: &[u8]) -> Result<(), AllocError>
    ensures added { OnOk result (bytes.new.items ≡ bytes.old.items ++ more.now) }
    ensures err { OnErr result (bytes.new.items ≡ bytes.old.items) }
{
    match more {
        [byte] => {
            bytes.push(*byte)?;
            Ok(())
        }
        _ => bytes.extend_from_slice(more),
    }
}

/// Returns token number `at` of `kept`, if there is one.
#[inline(always)]
fn kept_at(kept: &[Kept], at: usize) -> Option<&Kept>
    ensures { MatchOption result (length kept.now ≤ at) (λ k. slice_get kept.now at ≡ Some k.now) }
{
    kept.get(at)
}

/// Returns the place where the bytes of token number `at` of `kept` begin, or would begin if it came next.
#[inline(always)]
fn start_of(kept: &[Kept], at: usize) -> usize
    requires { at ≤ length kept.now }
    ensures { result ≡ end_of_all 0 (take at kept.now) }
{
    if at == 0 {
        return 0;
    }
    match kept_at(kept, at - 1) {
        Some(before) => before.end(),
        None => 0,
    }
}

/// Returns the bytes of `bytes` from `start` to `end`.
#[inline(always)]
fn part_of(bytes: &[u8], start: usize, end: usize) -> &[u8]
    requires order { start ≤ end }
    requires there { end ≤ length bytes.now }
    ensures { result.now ≡ between start end bytes.now }
{
    bytes.get(start..end).unwrap_or(b"")
}

/// Returns token number `at` of the tokens `kept`, which have these bytes.
#[inline(always)]
fn token_at<'k>(kept: &'k [Kept], bytes: &'k [u8], at: usize) -> Option<SourceToken<'k>>
    requires { AreKept 0 kept.now bytes.now }
    ensures { option_map spelled result ≡ slice_get (kept_tokens 0 kept.now bytes.now) at }
{
    match kept_at(kept, at) {
        Some(token) => Some(SourceToken {
            kind: token.kind,
            bytes: part_of(bytes, start_of(kept, at), token.end()),
            place: token.place(),
            is_class: token.is_class,
            atom: token.atom,
        }),
        None => None,
    }
}

impl UnitTokens {
    /// Makes an empty list of tokens. Memory is taken only when the first one comes.
    pub fn new(alloc: Global) -> UnitTokens
        ensures { result ≡ [] }
    {
        UnitTokens {
            kept: Vec::new(alloc),
            bytes: Vec::new(alloc),
        }
    }

    /// Forgets all tokens.
    pub fn clear(&mut self)
        ensures { self.new ≡ [] }
    {
        self.kept.clear();
        self.bytes.clear();
    }

    /// Keeps only the first token, where there is one.
    pub fn keep_first(&mut self)
        ensures { self.new ≡ take 1 self.old }
    {
        self.truncate(1);
    }

    /// Keeps only token number `at`, counted from 0, where there is one.
    pub fn keep_one(&mut self, at: usize)
        ensures { self.new ≡ take 1 (drop at self.old) }
    {
        match kept_at(self.kept.as_slice(), at) {
            Some(token) => {
                let start = start_of(self.kept.as_slice(), at);
                let end = token.end();
                let place = token.place();
                let alone = Kept::new(&token.kind, &place, token.is_class, token.atom, end - start);
                keep_part(&mut self.bytes, start, end);
                self.kept.clear();
                self.kept.push_reserved(alone);
            }
            None => self.clear(),
        }
    }

    /// Keeps only the first `count` tokens.
    pub fn truncate(&mut self, count: usize)
        ensures { self.new ≡ take count self.old }
    {
        if count < self.kept.len() {
            let end = start_of(self.kept.as_slice(), count);
            self.kept.truncate(count);
            self.bytes.truncate(end);
        }
    }

    /// Returns the number of tokens.
    pub fn len(&self) -> usize
        ensures { result ≡ length self.now }
    {
        self.kept.len()
    }

    /// Adds `token` behind the others, which stay as they were where memory runs out.
    #[inline(always)]
    pub fn add(&mut self, token: &SourceToken<'_>) -> Result<(), AllocError>
        ensures added { OnOk result (self.new ≡ self.old ++ spelled token.now ∷ []) }
        ensures err { OnErr result (self.new ≡ self.old) }
    {
        self.kept.reserve(1)?;
        add_bytes(&mut self.bytes, token.bytes)?;
        let end = self.bytes.len();
        self.kept.push_reserved(Kept::new(
            &token.kind,
            &token.place,
            token.is_class,
            token.atom,
            end,
        ));
        Ok(())
    }

    /// Returns token number `at`, counted from 0.
    #[inline(always)]
    pub fn get(&self, at: usize) -> Option<SourceToken<'_>>
        ensures { option_map spelled result ≡ slice_get self.now at }
    {
        token_at(self.kept.as_slice(), self.bytes.as_slice(), at)
    }

    /// Returns the kind of token number `at`, counted from 0.
    pub fn kind(&self, at: usize) -> Option<TokenKind>
        ensures { result ≡ kind_at self.now at }
    {
        match kept_at(self.kept.as_slice(), at) {
            Some(token) => Some(token.kind),
            None => None,
        }
    }

    /// Returns the place in the source of token number `at`, counted from 0.
    pub fn place(&self, at: usize) -> Option<Place>
        ensures { result ≡ place_at self.now at }
    {
        match kept_at(self.kept.as_slice(), at) {
            Some(token) => Some(token.place()),
            None => None,
        }
    }

    /// Returns the name that token number `at` is, if it is one.
    #[inline(always)]
    pub fn name_at(&self, at: usize) -> Option<NameToken<'_>>
        ensures value { option_map named result ≡ name_at self.now at }
        ensures few { IfSome result (λ name. length name.bytes.now ≤ 32) }
    {
        let found = self.get(at);
        match found {
            Some(token) => name_of(&token),
            None => None,
        }
    }

    /// Returns the bytes of the name that token number `at` is, or no bytes where it is no name.
    pub fn bytes_at(&self, at: usize) -> &[u8]
        ensures value { result.now ≡ bytes_at self.now at }
        ensures few { length result.now ≤ 32 }
    {
        match self.name_at(at) {
            Some(name) => name.bytes,
            None => b"",
        }
    }

    /// Returns the place in the source of the last token, or `other` where there is none.
    pub fn last_place(&self, other: Place) -> Place
        ensures { result ≡ last_place self.now other }
    {
        self.place(self.len().saturating_sub(1)).unwrap_or(other)
    }

    /// Returns the bytes of token number `at`, if it is a text.
    fn text_at(&self, at: usize) -> Option<&[u8]>
        ensures { let token = slice_get self.now at in MatchOption result
            ((others : List ℕ) → text_by token others ≡ others) (λ text. (others : List ℕ) → text_by token others ≡ text.now) }
    {
        match self.get(at) {
            Some(token) => text_of(&token),
            None => None,
        }
    }

    /// Returns the bytes of the first text among the tokens, or no bytes where there is no text.
    pub fn quoted(&self) -> &[u8]
        ensures { result.now ≡ quoted_in self.now }
    {
        for at in 0..self.len() {
            match self.text_at(at) {
                Some(text) => return text,
                None => {}
            }
        }
        b""
    }

    /// Returns the order of the name that these tokens, those of a directive, declare: behind the word of the directive, before
    /// which a `#` may stand.
    pub fn name_order(&self) -> u32
        ensures { result ≡ name_order self.now }
    {
        match self.kind(0) {
            Some(kind) if is_mark(kind, Mark::Hash) => 2,
            _ => 1,
        }
    }

    /// Returns the word of the grammar that token number `at` is, if it is one.
    pub fn keyword_at(&self, at: usize) -> Option<Keyword>
        ensures { result ≡ keyword_at self.now at }
    {
        match self.get(at) {
            Some(token) => token.keyword(),
            None => None,
        }
    }

    /// Returns the word of the directive that these tokens are, before which a `#` may stand.
    pub fn directive_word(&self) -> Option<Keyword>
        ensures { result ≡ directive_word self.now }
    {
        self.keyword_at(self.name_order().saturating_sub(1) as usize)
    }

    /// Returns the names among the tokens, in order.
    pub fn names(&self, alloc: Global) -> Result<Vec<Name>, AllocError>
        ensures { IfOk result (λ names. map as_name names.items ≡ names_in self.now) }
    {
        let mut names = Vec::new(alloc);
        for at in 0..self.len() {
            add_name(self.name_at(at), &mut names)?;
        }
        Ok(names)
    }
}

/// Appends `name` to `names`, if there is one.
fn add_name(name: Option<NameToken<'_>>, names: &mut Vec<Name>) -> Result<(), AllocError>
    requires { IfSome name (λ n. length n.bytes.now ≤ 32) }
    ensures { OnOk result (map as_name names.new.items ≡ with_name (option_map named name.entry) (map as_name names.old.items)) }
{
    if let Some(name) = name {
        names.push(Name::new(name.bytes, name.place))?;
    }
    Ok(())
}
