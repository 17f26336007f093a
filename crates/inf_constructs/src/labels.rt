//! The labels of a routine that have names.
ghost use Rattle.std.specs.Prelude.{◌≡◌, ◌≤◌, [], None, IfOk, OnErr, OnOk, length, option_map};
ghost use Rattle.inf_names.specs.Symbols.{folded};

use arrayvec::ArrayVec;
use indexmap::IndexMap;
use inf_names::spellings::MOST_NAME_BYTES;
use inf_opcode::Label;
use std::alloc::{AllocError, Global};
use std::marker::Model;

/// A label of a name, with the spelling of the name.
#[derive(Drop)]
pub struct Entry {
    /// The name as it is spelled at its first place in the source.
    spelling: ArrayVec<u8, MOST_NAME_BYTES>,
    label: Label,
    /// Tells whether the place of the label was given.
    is_given: bool,
}

/// The labels of a routine that have names, in the order in which these first appear in it, whether as the name of a place
/// or as the goal of a jump or a branch (Designer's Manual, fourth edition, section 1.12).
#[derive(Drop)]
pub struct Labels {
    entries: IndexMap<ArrayVec<u8, MOST_NAME_BYTES>, Entry>,
}

impl Model for Labels {
    ghost use Rattle.std.specs.Prelude.{List, map};
    ghost use Rattle.inf_constructs.specs.{Entries.as_named, Labels.NamedLabel};

    ghost Value = { List NamedLabel };

    ghost view = { λ l. map as_named l.entries.entries };
}

/// Returns a name of at most 32 bytes, without case.
fn folded(name: &[u8]) -> ArrayVec<u8, MOST_NAME_BYTES>
    requires { length name.now ≤ 32 }
    ensures { result.items ≡ folded name.now }
{
    let mut key = ArrayVec::new();
    for byte in name {
        key.push(byte.to_ascii_lowercase());
    }
    key
}

/// Returns a name of at most 32 bytes, as it is spelled.
fn spelled(name: &[u8]) -> ArrayVec<u8, MOST_NAME_BYTES>
    requires { length name.now ≤ 32 }
    ensures { result.items ≡ name.now }
{
    let mut spelling = ArrayVec::new();
    if spelling.try_extend_from_slice(name).is_err() {
        unreachable!()
    }
    spelling
}

impl Labels {
    ghost use Rattle.inf_constructs.specs.Labels.{given, is_given, known_at, known_of, label_of, missing, missing_at, put, wanted};
    ghost use Rattle.inf_constructs.specs.Entries.{known};

    /// Creates an empty list of labels. It takes no memory until the first one comes.
    pub fn new(alloc: Global) -> Labels
        ensures { result ≡ [] }
    {
        Labels {
            entries: IndexMap::new(alloc),
        }
    }

    /// Removes all labels: another routine begins.
    pub fn clear(&mut self)
        ensures { self.new ≡ [] }
    {
        self.entries.clear();
    }

    /// Returns the entry of a name, in any case, if it has one.
    fn entry(&self, name: &[u8]) -> Option<&Entry>
        requires { length name.now ≤ 32 }
        ensures { option_map (λ e. known e.now) result ≡ known_of (folded name.now) self.now }
    {
        let key = folded(name);
        self.entries.get(&key)
    }

    /// Returns whether the place of the label of a name, in any case, was given.
    pub fn is_given(&self, name: &[u8]) -> bool
        requires { length name.now ≤ 32 }
        ensures { result ≡ is_given name.now self.now }
    {
        match self.entry(name) {
            Some(entry) => entry.is_given,
            None => false,
        }
    }

    /// Uses the label of `name`, in any case, as the goal of a jump or a branch. Returns this label, which is `new` where
    /// the name has none. Where memory runs out the labels stay as they were.
    pub fn want(&mut self, name: &[u8], new: Label) -> Result<Label, AllocError>
        requires { length name.now ≤ 32 }
        ensures label { IfOk result (λ label. label ≡ label_of name.now new self.old) }
        ensures wanted { OnOk result (self.new ≡ wanted name.now new self.old) }
        ensures err { OnErr result (self.new ≡ self.old) }
        ensures memory { OnErr result (known_of (folded name.now) self.old ≡ None) }
    {
        if let Some(entry) = self.entry(name) {
            return Ok(entry.label);
        }
        self.add(name, spelled(name), new, false)?;
        Ok(new)
    }

    /// Gives the label of `name`, in any case, its place. Returns this label, which is `new` where the name has none. Where memory runs
    /// out the labels stay as they were.
    pub fn give(&mut self, name: &[u8], new: Label) -> Result<Label, AllocError>
        requires { length name.now ≤ 32 }
        ensures label { IfOk result (λ label. label ≡ label_of name.now new self.old) }
        ensures given { OnOk result (self.new ≡ given name.now new self.old) }
        ensures err { OnErr result (self.new ≡ self.old) }
        ensures memory { OnErr result (known_of (folded name.now) self.old ≡ None) }
    {
        let (spelling, label) = match self.entry(name) {
            Some(entry) => (spelled(entry.spelling.as_slice()), entry.label),
            None => (spelled(name), new),
        };
        self.add(name, spelling, label, true)?;
        Ok(label)
    }

    /// Puts the label of a name, with its spelling, in the place of its entry or behind the others. Only one that has no entry takes
    /// memory; where that runs out the labels stay as they were.
    fn add(
        &mut self,
        name: &[u8],
        spelling: ArrayVec<u8, MOST_NAME_BYTES>,
        label: Label,
        is_given: bool,
    ) -> Result<(), AllocError>
        requires { length name.now ≤ 32 }
        ensures ok { OnOk result (self.new
            ≡ put (folded name.now) (record { spelling = spelling.items; label = label; is_given = is_given }) self.old) }
        ensures err { OnErr result (self.new ≡ self.old) }
        ensures memory { OnErr result (known_of (folded name.now) self.old ≡ None) }
    {
        self.entries.insert(
            folded(name),
            Entry {
                spelling,
                label,
                is_given,
            },
        )?;
        Ok(())
    }

    /// Returns the entry at `place` among the labels, if there is one.
    fn entry_at(&self, place: usize) -> Option<&Entry>
        ensures { option_map (λ e. known e.now) result ≡ known_at place self.now }
    {
        let (_, entry) = self.entries.get_index(place)?;
        Some(entry)
    }

    /// Returns the number of labels.
    fn len(&self) -> usize
        ensures { result ≡ length self.now }
    {
        self.entries.len()
    }

    fn missing_at(&self, place: usize) -> Option<&[u8]>
        ensures { option_map (λ name. name.now) result ≡ missing_at (known_at place self.now) }
    {
        let entry = self.entry_at(place)?;
        if entry.is_given {
            None
        } else {
            Some(entry.spelling.as_slice())
        }
    }

    /// Returns the name of the first label that is used and whose place is not given, as it is first spelled.
    pub fn missing(&self) -> Option<&[u8]>
        ensures { option_map (λ name. name.now) result ≡ missing self.now }
    {
        for place in 0..self.len() {
            if let Some(name) = self.missing_at(place) {
                return Some(name);
            }
        }
        None
    }
}
