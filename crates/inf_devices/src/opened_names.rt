ghost use Rattle.std.specs.{List.list_any, Str.bytes_eq};
ghost use Rattle.std.specs.Prelude.{◌≡◌, [], length, OnOk, OnErr};
ghost use Rattle.inf_devices.specs.Files.{with_name};

use indexmap::IndexSet;
use std::alloc::{AllocError, Global};
use std::marker::Model;

/// The different names under which a device opened sources, in the order of their first openings.
#[derive(Drop)]
pub struct OpenedNames {
    alloc: Global,
    names: IndexSet<String>,
}

impl Model for OpenedNames {
    ghost use Rattle.std.specs.Prelude.{ℕ, List, map};
    ghost use Rattle.std.specs.String.{string_bytes};

    ghost Value = { List (List ℕ) };

    ghost view = { λ n. map string_bytes n.names.keys };
}

impl OpenedNames {
    /// Returns the names of a device that opened no source yet.
    pub fn none(alloc: Global) -> OpenedNames
        ensures { result ≡ [] }
    {
        OpenedNames {
            alloc,
            names: IndexSet::new(alloc),
        }
    }

    /// Returns whether the name `name` is among them.
    pub fn has(&self, name: &str) -> bool
        ensures { result ≡ list_any (bytes_eq name.now) self.now }
    {
        self.names.contains(name)
    }

    /// Adds the name `name` behind the others, unless it is among them.
    pub fn add(&mut self, name: &str) -> Result<(), AllocError>
        ensures ok { OnOk result (self.new ≡ with_name name.now self.old) }
        ensures err { OnErr result (self.new ≡ self.old) }
    {
        if self.has(name) {
            return Ok(());
        }
        self.names.reserve(1)?;
        let name = String::from_str(self.alloc, name)?;
        let _ = self.names.insert(name);
        Ok(())
    }

    /// Returns the number of names.
    pub fn len(&self) -> usize
        ensures { result ≡ length self.now }
    {
        self.names.len()
    }
}
