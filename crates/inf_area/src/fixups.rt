//! Fixups: the places of numbers that are known only when the story is laid out.
ghost use Rattle.std.specs.Prelude.{◌≡◌, ◌+◌, ◌<◌, ◌≤◌, [], ◌∷◌, ◌++◌, length, take, IsTrue, ◌↔◌, OnOk, OnErr, IfErr};
ghost use Rattle.inf_area.specs.declared.fixups.AddFault.TheVariants.{Full, Memory};

use crate::targets::{AreaName, Target};
use std::alloc::{AllocError, AllocFailed, Global};
use std::marker::Model;

/// Two zero bytes of an area that the number of a target replaces.
#[derive(Clone, Copy)]
pub struct Fixup {
    pub area: AreaName,
    /// The place of the first byte in that area.
    pub place: usize,
    pub target: Target,
}

/// The reason for which a fixup was not added.
#[derive(Clone, Copy, Debug)]
pub enum AddFault {
    /// The list has as many fixups as it may have.
    Full,
    /// No memory was left.
    Memory,
}

impl From<AllocError> for AddFault {
    ghost from_gives = { λ _ fault. fault ≡ Memory };

    fn from(_error: AllocError) -> AddFault {
        AddFault::Memory
    }
}

impl<T: Drop> From<AllocFailed<T>> for AddFault {
    ghost from_gives = { λ _ fault. fault ≡ Memory };

    fn from(_error: AllocFailed<T>) -> AddFault {
        AddFault::Memory
    }
}

/// The fixups of all areas, in the order in which they were added, and the greatest number of them.
#[derive(Drop)]
pub struct Refs {
    fixups: Vec<Fixup>,
    limit: usize,
}

impl Model for Refs {
    ghost use Rattle.std.specs.Prelude.{◌≤◌, length};
    ghost use Rattle.inf_area.specs.Fixups.{Fixups};

    ghost Value = { Fixups };

    ghost view = { λ refs. record { list = refs.fixups.items; limit = refs.limit } };

    ghost invariant = { λ refs. length refs.fixups.items ≤ refs.limit };
}

impl Refs {
    ghost use Rattle.inf_area.specs.Fixups.{Fixups, with_fixups};

    /// Returns a list of no fixups, which takes at most `limit` of them. It takes no memory until the first `add`.
    pub fn new(alloc: Global, limit: usize) -> Self
        ensures { result ≡ record { list = []; limit = limit } }
    {
        Refs {
            fixups: Vec::new(alloc),
            limit,
        }
    }

    /// Returns the number of fixups, which is never above the limit.
    pub fn len(&self) -> usize
        ensures value { result ≡ length self.now.list }
        ensures limited { result ≤ self.now.limit }
    {
        self.fixups.len()
    }

    /// Returns the greatest number of fixups.
    pub fn limit(&self) -> usize
        ensures { result ≡ self.now.limit }
    {
        self.limit
    }

    /// Returns whether there are no fixups.
    pub fn is_empty(&self) -> bool
        ensures { IsTrue result ↔ (self.now.list ≡ []) }
    {
        self.fixups.is_empty()
    }

    /// Returns the fixups, in the order in which they were added.
    pub fn as_slice(&self) -> &[Fixup]
        ensures { result.now ≡ self.now.list }
    {
        self.fixups.as_slice()
    }

    /// Adds a fixup at the end. Refuses it first where the list is full, then where no memory is left; the list then stays as it was.
    pub fn add(&mut self, fixup: Fixup) -> Result<(), AddFault>
        ensures ok { OnOk result (self.new ≡ with_fixups (self.old.list ++ fixup ∷ []) self.old) }
        ensures room { OnOk result (length self.old.list < self.old.limit) }
        ensures err { OnErr result (self.new ≡ self.old) }
        ensures full { IfErr result (λ fault. fault ≡ Full → length self.old.list ≡ self.old.limit) }
        ensures memory { IfErr result (λ fault. fault ≡ Memory → length self.old.list < self.old.limit) }
    {
        if self.fixups.len() >= self.limit {
            return Err(AddFault::Full);
        }
        self.fixups.push(fixup)?;
        Ok(())
    }

    /// Adds several fixups at the end. Refuses them first where there would be more than the limit, then where no memory is left;
    /// the list then stays as it was.
    pub fn extend(&mut self, added: &[Fixup]) -> Result<(), AddFault>
        ensures ok { OnOk result (self.new ≡ with_fixups (self.old.list ++ added.now) self.old) }
        ensures room { OnOk result (length self.old.list + length added.now ≤ self.old.limit) }
        ensures err { OnErr result (self.new ≡ self.old) }
        ensures full { IfErr result (λ fault. fault ≡ Full → self.old.limit < length self.old.list + length added.now) }
        ensures memory { IfErr result (λ fault. fault ≡ Memory → length self.old.list + length added.now ≤ self.old.limit) }
    {
        if self.limit - self.fixups.len() < added.len() {
            return Err(AddFault::Full);
        }
        self.fixups.extend_from_slice(added)?;
        Ok(())
    }

    /// Keeps the first `n` fixups, of which there are at least `n`, and forgets the others.
    pub fn keep(&mut self, n: usize)
        requires { n ≤ length self.old.list }
        ensures { self.new ≡ with_fixups (take n self.old.list) self.old }
    {
        self.fixups.truncate(n);
    }
}
