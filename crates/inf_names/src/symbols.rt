//! The names that a source declares or uses.
ghost use Rattle.std.specs.Prelude.{◌≡◌, ◌≤◌, ◌+◌, IfErr, IfOk, OnOk, OnErr, MatchResult, None, Some, length, option_map};
ghost use Rattle.inf_settings.specs.declared.setting.Setting.{Setting};

use crate::hashing::NameHashing;
use crate::keys::Key;
use crate::meanings::Meaning;
use crate::system_names::system_meaning;
use arrayvec::ArrayVec;
use indexmap::IndexMap;
use inf_settings::bounds::Bounds;
use std::alloc::{AllocError, AllocFailed, Global};
use std::marker::{Model, PhantomData};

/// The number of bytes of the longest name: 32 of a name in a source, and three more where `Sub` is behind the name of an action,
/// which is the name of its routine.
pub const LONGEST_NAME: usize = 35;

/// The finding of a look-up of a name. `P` is a place in a source.
#[derive(Clone, Copy, Debug)]
pub enum Found<P> {
    /// A name that the language has from the start.
    System(Meaning),
    /// A name that was declared, at this place.
    Declared(Meaning, P),
    /// A name that was used, and not declared so far.
    Used,
    Unknown,
}

/// The reason for which a name was not declared.
#[derive(Clone, Copy, Debug)]
pub enum DeclareFault<P> {
    /// The name was declared at this place; without a place, the language has it from the start.
    Present(Option<P>),
    /// There are as many names as there may be.
    Full,
    /// No memory was left.
    Memory,
}

impl<P, T: Drop> From<AllocFailed<T>> for DeclareFault<P> {
    ghost use Rattle.std.specs.Prelude.{◌≡◌};
    ghost use Rattle.inf_names.specs.declared.symbols.DeclareFault.TheVariants.{Memory};

    ghost from_gives = { λ _ fault. fault ≡ Memory };

    fn from(_error: AllocFailed<T>) -> DeclareFault<P> {
        DeclareFault::Memory
    }
}

/// The reason for which a name was not used.
#[derive(Clone, Copy, Debug)]
pub enum ReferFault {
    /// There are as many names as there may be.
    Full,
    /// No memory was left.
    Memory,
}

impl<T: Drop> From<AllocFailed<T>> for ReferFault {
    ghost use Rattle.std.specs.Prelude.{◌≡◌};
    ghost use Rattle.inf_names.specs.declared.symbols.ReferFault.TheVariants.{Memory};

    ghost from_gives = { λ _ fault. fault ≡ Memory };

    fn from(_error: AllocFailed<T>) -> ReferFault {
        ReferFault::Memory
    }
}

/// A name's entry in the map of names.
#[derive(Drop)]
pub enum Entry<P> {
    /// The name was declared: as the one of this number, counted from 0, with this meaning and at this place.
    Declared(usize, Meaning, P),
    /// The name was used and not declared so far: its spelling at its first use, and the place of this use.
    Used(ArrayVec<u8, LONGEST_NAME>, P),
}

/// The names that were declared or used so far, in the order in which they first came, but for those that the language has.
#[derive(Drop)]
pub struct Symbols<P: Copy, B: Bounds> {
    entries: IndexMap<Key, Entry<P>, NameHashing>,
    declared: usize,
    limit: u32,
    is_debugging: bool,
    hashing: NameHashing,
    of: PhantomData<B>,
    ghost is_most: { limit ≡ B.most Setting.Symbols },
}

impl<P: Copy, B: Bounds> Model for Symbols<P, B> {
    ghost use Rattle.std.specs.Prelude.{◌≡◌, ◌≤◌, length, map};
    ghost use Rattle.inf_names.specs.{Entries.as_named, Symbols.Table, Symbols.declarations};

    ghost Value = { Table P };

    ghost view = { λ s. record {
      names = map as_named s.entries.entries;
      declared = s.declared;
      is_debugging =
          s.is_debugging;
    } };

    ghost invariant = { λ s. (s.declared ≡ declarations (map as_named s.entries.entries)) × (length s.entries.entries ≤ s.limit) };
}

/// Returns the spelling of a name of at most 35 bytes.
fn spelled(name: &[u8]) -> ArrayVec<u8, LONGEST_NAME>
    requires { length name.now ≤ 35 }
    ensures { result.items ≡ name.now }
{
    let mut spelling = ArrayVec::new();
    if spelling.try_extend_from_slice(name).is_err() {
        unreachable!()
    }
    spelling
}

impl<P: Copy, B: Bounds> Symbols<P, B> {
    ghost use Rattle.inf_names.specs.Symbols.{declare_fault, declare_refusal, declared_before, found_as, found_in, folded as key_of};
    ghost use Rattle.inf_names.specs.Symbols.{is_full, meaning_in, no_names, number_among, number_of, refer_fault, refer_refusal};
    ghost use Rattle.inf_names.specs.Symbols.{standing_at, standing_of, use_in, with_declared, with_used};
    ghost use Rattle.inf_names.specs.Entries.{standing};

    /// Returns a map of no names, which may come to have as many as `limit`, the bound of the type `B`. With debugging the language
    /// has the name `DEBUG` from the start. The map takes no memory.
    pub fn new(alloc: Global, limit: u32, is_debugging: bool, hashing: NameHashing) -> Symbols<P, B>
        requires { limit ≡ B.most Setting.Symbols }
        ensures { result ≡ no_names is_debugging }
    {
        Symbols {
            entries: IndexMap::with_hasher(alloc, hashing),
            declared: 0,
            limit,
            is_debugging,
            hashing,
            of: PhantomData,
        }
    }

    /// Returns the hashing of the names.
    pub fn hashing(&self) -> NameHashing {
        self.hashing
    }

    /// Gives the language the name `DEBUG` from now on where `is_debugging` says so, and takes it away else. The entries of names stay.
    pub fn set_debugging(&mut self, is_debugging: bool)
        ensures { self.new ≡ record self.old { is_debugging = is_debugging } }
    {
        self.is_debugging = is_debugging;
    }

    /// Counts the names that were declared or used.
    pub fn len(&self) -> usize
        ensures count { result ≡ length self.now.names }
        ensures within { result ≤ B.most Setting.Symbols }
    {
        self.entries.len()
    }

    /// Counts the names that were declared.
    pub fn declared(&self) -> usize
        ensures { result ≡ self.now.declared }
    {
        self.declared
    }

    /// Looks up a name, in any case, and returns its meaning and place if it was declared, its meaning if the language has it, or
    /// else whether it was used.
    pub fn look(&self, name: &[u8]) -> Found<P>
        requires { length name.now ≤ 35 }
        ensures { result ≡ found_in name.now self.now }
    {
        match self.entry_of(name) {
            Some(Entry::Declared(_, meaning, place)) => Found::Declared(*meaning, *place),
            Some(Entry::Used(_, _)) => Found::Used,
            None => match system_meaning(name, self.is_debugging) {
                Some(meaning) => Found::System(meaning),
                None => Found::Unknown,
            },
        }
    }

    /// Looks up a name, as `look` does, and returns what it found and the number by which references name it: of an unknown name, the
    /// number that its first use gives it.
    pub fn find(&self, name: &[u8]) -> (Found<P>, Option<usize>)
        requires { length name.now ≤ 35 }
        ensures found { result.0 ≡ found_in name.now self.now }
        ensures number { result.1 ≡ number_of name.now self.now }
    {
        let key = Key::of(name);
        if let Some(number) = self.number(&key) {
            return (self.found_at(number), Some(number));
        }
        match system_meaning(name, self.is_debugging) {
            Some(meaning) => (Found::System(meaning), None),
            None => (Found::Unknown, Some(self.len())),
        }
    }

    /// Declares the name `name`, given in any case, at `place` with a meaning, and returns the number of names that are then declared.
    ///
    /// Refuses a name that the language has or that was declared, then a new one where there are as many names as there may be,
    /// then a new one where memory runs out. The names then stay as they were.
    pub fn declare(
        &mut self,
        name: &[u8],
        place: P,
        meaning: Meaning,
    ) -> Result<usize, DeclareFault<P>>
        requires { length name.now ≤ 35 }
        ensures ok { OnOk result (self.new ≡ with_declared name.now place meaning self.old) }
        ensures count { IfOk result (λ n. n ≡ self.old.declared + 1) }
        ensures err { OnErr result (self.new ≡ self.old) }
        ensures fault { let fault = declare_fault B.most name.now self.old in
            MatchResult result (λ _. fault ≡ None) (λ refused. refused ≡ declare_refusal fault) }
        ensures memory { IfErr result (λ fault. fault ≡ DeclareFault.Memory → found_in name.now self.old ≡ Found.Unknown) }
    {
        if let Some(fault) = self.declare_fault(name) {
            return Err(fault);
        }
        let entry = Entry::Declared(self.declared, meaning, place);
        self.entries.insert(Key::of(name), entry)?;
        self.declared += 1;
        Ok(self.declared)
    }

    /// Uses the name `name`, as it is spelled at `place`, and returns the number by which references name it: how many names came
    /// before it. There is no number for a name that the language has.
    ///
    /// Refuses a new name where there are as many as there may be, then where memory runs out, and no other. The names then stay as they
    /// were.
    pub fn refer(&mut self, name: &[u8], place: P) -> Result<Option<usize>, ReferFault>
        requires { length name.now ≤ 35 }
        ensures ok { OnOk result (self.new ≡ with_used name.now place self.old) }
        ensures number { IfOk result (λ n. n ≡ number_of name.now self.old) }
        ensures err { OnErr result (self.new ≡ self.old) }
        ensures fault { let fault = refer_fault B.most name.now self.old in
            MatchResult result (λ _. fault ≡ None) (λ refused. refused ≡ refer_refusal fault) }
        ensures memory { IfErr result (λ fault. fault ≡ ReferFault.Memory → found_in name.now self.old ≡ Found.Unknown) }
    {
        let (_, number) = self.find_and_refer(name, place)?;
        Ok(number)
    }

    /// Uses a name, as `refer` does, and returns the finding of a look-up of the name before this use, and its number.
    pub fn find_and_refer(
        &mut self,
        name: &[u8],
        place: P,
    ) -> Result<(Found<P>, Option<usize>), ReferFault>
        requires { length name.now ≤ 35 }
        ensures ok { OnOk result (self.new ≡ with_used name.now place self.old) }
        ensures found { IfOk result (λ r. r.0 ≡ found_in name.now self.old) }
        ensures number { IfOk result (λ r. r.1 ≡ number_of name.now self.old) }
        ensures err { OnErr result (self.new ≡ self.old) }
        ensures fault { let fault = refer_fault B.most name.now self.old in
            MatchResult result (λ _. fault ≡ None) (λ refused. refused ≡ refer_refusal fault) }
        ensures memory { IfErr result (λ fault. fault ≡ ReferFault.Memory → found_in name.now self.old ≡ Found.Unknown) }
    {
        let key = Key::of(name);
        if let Some(number) = self.number(&key) {
            return Ok((self.found_at(number), Some(number)));
        }
        if let Some(meaning) = system_meaning(name, self.is_debugging) {
            return Ok((Found::System(meaning), None));
        }
        if self.is_full() {
            return Err(ReferFault::Full);
        }
        let number = self.len();
        self.entries.insert(key, Entry::Used(spelled(name), place))?;
        Ok((Found::Unknown, Some(number)))
    }

    /// Returns the finding of a look-up of the name with the number `number`.
    fn found_at(&self, number: usize) -> Found<P>
        ensures { result ≡ found_as None (standing_at number self.now.names) }
    {
        match self.entry_at(number) {
            Some(Entry::Declared(_, meaning, place)) => Found::Declared(*meaning, *place),
            Some(Entry::Used(..)) => Found::Used,
            None => Found::Unknown,
        }
    }

    /// Returns whether `name`, in any case, is one that the language has or one of the first `n` names that were declared.
    pub fn declared_before(&self, name: &[u8], n: usize) -> bool
        requires { length name.now ≤ 35 }
        ensures { result ≡ declared_before name.now n self.now }
    {
        match self.entry_of(name) {
            Some(Entry::Declared(number, _, _)) => *number < n,
            Some(Entry::Used(_, _)) => false,
            None => system_meaning(name, self.is_debugging).is_some(),
        }
    }

    /// Returns the meaning with which the name of number `number` was declared; `None` where it was not declared, or where no name
    /// has that number.
    pub fn meaning_at(&self, number: usize) -> Option<Meaning>
        ensures { result ≡ meaning_in (standing_at number self.now.names) }
    {
        match self.entry_at(number)? {
            Entry::Declared(_, meaning, _) => Some(*meaning),
            Entry::Used(_, _) => None,
        }
    }

    /// Returns the spelling and the place of the first use of the name with the number `number`, if it was not declared so far;
    /// `None` where it was declared, or where no name has that number.
    pub fn use_at(&self, number: usize) -> Option<(&[u8], P)>
        ensures { option_map (λ u. (u.0.now, u.1)) result ≡ use_in (standing_at number self.now.names) }
    {
        match self.entry_at(number)? {
            Entry::Declared(_, _, _) => None,
            Entry::Used(spelling, place) => Some((spelling, *place)),
        }
    }

    /// Returns the entry of a name, in any case.
    fn entry_of(&self, name: &[u8]) -> Option<&Entry<P>>
        requires { length name.now ≤ 35 }
        ensures { option_map (λ e. standing e.now) result ≡ standing_of (key_of name.now) self.now.names }
    {
        let key = Key::of(name);
        self.entries.get(&key)
    }

    /// Returns the entry of the name with the number `number`.
    fn entry_at(&self, number: usize) -> Option<&Entry<P>>
        ensures { option_map (λ e. standing e.now) result ≡ standing_at number self.now.names }
    {
        let (_, entry) = self.entries.get_index(number)?;
        Some(entry)
    }

    /// Returns the number of the name with the key `key` if it was declared or used: how many names came before it.
    fn number(&self, key: &Key) -> Option<usize>
        ensures { result ≡ number_among key.now.items self.now.names }
    {
        self.entries.get_index_of(key)
    }

    fn is_full(&self) -> bool
        ensures { result ≡ is_full B.most self.now }
    {
        self.len() >= self.limit as usize
    }

    /// Returns the fault for which a name cannot be declared, but for want of memory.
    fn declare_fault(&self, name: &[u8]) -> Option<DeclareFault<P>>
        requires { length name.now ≤ 35 }
        ensures { result ≡ declare_fault B.most name.now self.now }
    {
        match self.look(name) {
            Found::System(_) => Some(DeclareFault::Present(None)),
            Found::Declared(_, place) => Some(DeclareFault::Present(Some(place))),
            Found::Unknown if self.is_full() => Some(DeclareFault::Full),
            Found::Unknown | Found::Used => None,
        }
    }
}
