ghost use Rattle.std.specs.Prelude.{◌≡◌, ◌+◌, ◌^◌, ◌<◌, ◌++◌, ◌∷◌, min, length, take, drop, unwrap_or, [], false, OnErr, OnOk};
ghost use Rattle.std.specs.String.{string_bytes};
ghost use Rattle.inf_devices.specs.{Files.counts_opened, MemoryFiles.IsOpening, MemoryFiles.kept_in, MemoryFiles.sources_of};

use crate::files::{Files, OpenFault, ReadFault};
use crate::given_bytes::GivenBytes;
use std::alloc::{AllocError, Global};
use std::collections::BTreeMap;
use std::marker::Model;

/// A source that was opened, with the number of its bytes that were given, and whether its end was read.
#[derive(Drop)]
struct Opened {
    name: String,
    given: usize,
    is_read_out: bool,
}

impl Opened {
    ghost use Rattle.inf_devices.specs.MemoryFiles.{given_more};

    /// Counts `count` bytes more as given: none are the end.
    fn give(&mut self, count: usize)
        requires { self.old.given + count < 2 ^ 64 }
        ensures { self.new ≡ given_more self.old count }
    {
        if count == 0 {
            self.is_read_out = true;
        }
        self.given += count;
    }
}

/// Returns the bytes of an opened source that were not given yet.
fn rest_of<'a>(sources: &'a BTreeMap<String, Vec<u8>>, opened: &Opened) -> &'a [u8]
    requires { IsOpening (sources_of (kept_in sources.now)) opened.now }
    ensures rest { let whole = unwrap_or (sources_of (kept_in sources.now) (string_bytes opened.now.name)) [] in
        result.now ≡ drop opened.now.given whole }
    ensures fits { opened.now.given + length result.now < 2 ^ 64 }
{
    let source = sources.get(opened.name.as_str()).unwrap();
    &source[opened.given..]
}

/// Sources in memory, by their names. They are honest: each name opens its own bytes.
#[derive(Drop)]
pub struct MemoryFiles {
    alloc: Global,
    sources: BTreeMap<String, Vec<u8>>,
    opened: Vec<Opened>,
    open_places: Vec<usize>,
    given: GivenBytes,
}

impl Model for MemoryFiles {
    ghost use Rattle.inf_devices.specs.MemoryFiles.{MemoryState, kept_in, sources_of, openings_of, AreOpenings};

    ghost Value = { MemoryState };

    ghost view = { λ f. record {
      kept = kept_in f.sources;
      openings = openings_of (sources_of (kept_in f.sources)) f.opened.items f.open_places.items;
      counts = f.given;
    } };

    ghost invariant = { λ f. AreOpenings (sources_of (kept_in f.sources)) f.opened.items f.open_places.items };
}

impl MemoryFiles {
    ghost use Rattle.std.specs.{BTreeMap.get_by_text, Option.option_map};
    ghost use Rattle.std.specs.Prelude.{ℕ, ◌≡◌, List, []};
    ghost use Rattle.inf_devices.specs.{Files.nothing_given, MemoryFiles.sources_of};

    /// Makes files of these sources, by their names, of which none was opened yet.
    pub fn new(alloc: Global, sources: BTreeMap<String, Vec<u8>>) -> MemoryFiles
        ensures sources { (name : List ℕ) → sources_of result.kept name ≡ option_map (λ v. v.items) (get_by_text sources name) }
        ensures openings { result.openings ≡ record { all = []; open_places = [] } }
        ensures counts { result.counts ≡ nothing_given }
    {
        MemoryFiles {
            alloc,
            sources,
            opened: Vec::new(alloc),
            open_places: Vec::new(alloc),
            given: GivenBytes::none(alloc),
        }
    }
}

/// Puts a source that was opened just now behind the others, as the innermost. Where memory runs out, all stays as it was.
fn add_opened(
    opened: &mut Vec<Opened>,
    open_places: &mut Vec<usize>,
    given: &mut GivenBytes,
    name: String,
) -> Result<(), AllocError>
    ensures opened { OnOk result (opened.new.items ≡ opened.old.items ++ record { name = name; given = 0; is_read_out = false } ∷ []) }
    ensures open_places { OnOk result (open_places.new.items ≡ open_places.old.items ++ length opened.old.items ∷ []) }
    ensures given { OnOk result (given.new ≡ counts_opened given.old) }
    ensures err { OnErr result ((opened.new.items ≡ opened.old.items) × ((open_places.new.items ≡ open_places.old.items)
        × (given.new ≡ given.old))) }
{
    open_places.reserve(1)?;
    opened.reserve(1)?;
    given.open()?;
    let place = opened.len();
    opened.push(Opened {
        name,
        given: 0,
        is_read_out: false,
    })?;
    open_places.push(place)?;
    Ok(())
}

/// Copies as many bytes as both sides have to the front of `to`, and returns their number.
fn copy_front(to: &mut [u8], from: &[u8]) -> usize
    ensures count { result ≡ min (length to.old) (length from.now) }
    ensures copied { take result to.new ≡ take result from.now }
{
    let count = to.len().min(from.len());
    to[..count].copy_from_slice(&from[..count]);
    count
}

impl Files for MemoryFiles {
    ghost use Rattle.std.specs.Prelude.{[], length, true};
    ghost use Rattle.inf_devices.specs.{Files.names_from, MemoryFiles.sources_of};

    ghost faults = { λ _. 0 };

    ghost counts = { λ f. f.counts };

    ghost is_honest = { λ _. true };

    ghost sources = { λ f. sources_of f.kept };

    ghost openings = { λ f. f.openings };

    ghost depth = { λ f. length f.openings.open_places };

    ghost opened = { λ f. names_from [] f.openings.all };

    fn open(&mut self, name: &str) -> Result<(), OpenFault> {
        if !self.sources.contains_key(name) {
            return Err(OpenFault::Absent);
        }
        let name = String::from_str(self.alloc, name)?;
        add_opened(
            &mut self.opened,
            &mut self.open_places,
            &mut self.given,
            name,
        )?;
        Ok(())
    }

    fn read(&mut self, to: &mut [u8]) -> Result<usize, ReadFault> {
        let place = self.open_places[self.open_places.len() - 1];
        let opened = &mut self.opened[place];
        let count = copy_front(to, rest_of(&self.sources, opened));
        opened.give(count);
        self.given.add(count);
        Ok(count)
    }

    fn close(&mut self) {
        let _ = self.open_places.pop();
        self.given.close();
    }
}
