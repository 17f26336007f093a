//! Names of which nothing is known but that they were given.
ghost use Rattle.std.specs.Prelude.{◌≡◌, ◌≤◌, OnErr, OnOk, [], false, length};
ghost use Rattle.inf_names.specs.NameSets.{is_among, with_name};

use crate::hashing::NameHashing;
use crate::keys::Key;
use indexmap::IndexSet;
use std::alloc::{AllocError, Global};
use std::marker::Model;

/// Names in any case, in the order in which they were first given. A name that the language has is like any other.
#[derive(Drop)]
pub struct NameSet {
    keys: IndexSet<Key, NameHashing>,
}

impl Model for NameSet {
    ghost use Rattle.std.specs.Prelude.{ℕ, List, map};

    ghost Value = { List (List ℕ) };

    ghost view = { λ s. map (λ k. k.items) s.keys.keys };
}

impl NameSet {
    /// Returns a set of no names, which will be hashed by `hashing`. It takes no memory until the first name comes.
    pub fn new(alloc: Global, hashing: NameHashing) -> NameSet
        ensures { result ≡ [] }
    {
        NameSet {
            keys: IndexSet::with_hasher(alloc, hashing),
        }
    }

    /// Returns whether `name`, in any case, is in the set. It has at most 35 bytes.
    pub fn has(&self, name: &[u8]) -> bool
        requires { length name.now ≤ 35 }
        ensures { result ≡ is_among name.now self.now }
    {
        let key = Key::of(name);
        self.keys.contains(&key)
    }

    /// Adds `name`, given in any case, unless it is in the set. It has at most 35 bytes. Where memory runs out, the name is new, and
    /// the set stays as it was.
    pub fn add(&mut self, name: &[u8]) -> Result<(), AllocError>
        requires { length name.now ≤ 35 }
        ensures ok { OnOk result (self.new ≡ with_name name.now self.old) }
        ensures err { OnErr result (self.new ≡ self.old) }
        ensures memory { OnErr result (is_among name.now self.old ≡ false) }
    {
        self.keys.insert(Key::of(name))?;
        Ok(())
    }
}
