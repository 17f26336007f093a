//! Global variables.
ghost use Rattle.std.specs.Prelude.{◌≡◌, ◌<◌, ◌≤◌, ◌+◌, ◌++◌, ◌∷◌, [], OnOk, OnErr, IfOk, IfErr, length};
ghost use Rattle.inf_area.specs.{Fixups.with_fixups, declared.cells.WriteFault.WriteFault, declared.targets.AreaName.AreaName};
ghost use Rattle.inf_area.specs.Cells.{bytes_of, fixups_of};
ghost use Rattle.inf_arrays.specs.{Globals.globals_cells, Kinds.laters};
ghost use Rattle.inf_arrays.specs.declared.globals.GlobalFault.TheVariants.{TooMany, Memory};

use crate::kinds::laters;
use inf_area::{Area, AreaName, Cells, Refs, Value, WriteFault, append_cells};
use std::alloc::{AllocError, AllocFailed, Global};
use std::marker::Model;

// The number of the first variable that a source declares; those before it are the stack and locals.
const FIRST: u8 = 16;

// The most variables that a source may declare.
const MOST: usize = 235;

// The number of variables of a story.
const ALL: usize = 240;

/// The reason why a variable was not added.
#[derive(Clone, Copy, Debug)]
pub enum GlobalFault {
    /// There are 235 variables already.
    TooMany,
    /// No memory was left.
    Memory,
}

impl<T: Drop> From<AllocFailed<T>> for GlobalFault {
    ghost from_gives = { λ _ fault. fault ≡ Memory };

    fn from(_error: AllocFailed<T>) -> GlobalFault {
        GlobalFault::Memory
    }
}

/// The first values of the variables that were declared, in order.
#[derive(Drop)]
pub struct Globals {
    alloc: Global,
    values: Vec<Value>,
    later: usize,
}

impl Model for Globals {
    ghost use Rattle.std.specs.Prelude.{◌≡◌, ◌≤◌, List, length};
    ghost use Rattle.inf_area.specs.declared.targets.Value.{Value as FirstValue};
    ghost use Rattle.inf_arrays.specs.Kinds.{laters};

    ghost Value = { List FirstValue };

    ghost view = { λ g. g.values.items };

    ghost invariant = { λ g. (g.later ≡ laters g.values.items) × (g.later ≤ length g.values.items) × (length g.values.items ≤ 235) };
}

impl Globals {
    /// Creates an empty list of variables. It takes no memory until the first one comes.
    pub fn new(alloc: Global) -> Globals
        ensures { result ≡ [] }
    {
        Globals {
            alloc,
            values: Vec::new(alloc),
            later: 0,
        }
    }

    /// Returns the number of declared variables, which is at most 235.
    pub fn len(&self) -> usize
        ensures value { result ≡ length self.now }
        ensures limited { result ≤ 235 }
    {
        self.values.len()
    }

    /// Returns the number of first values that are known later, which is the number of fixups that are written.
    pub fn later_count(&self) -> usize
        ensures { result ≡ laters self.now }
    {
        self.later
    }

    /// Adds a variable with its first value. Returns its number, which counts from 16.
    ///
    /// The call is refused first where there are 235, then for want of memory; the variables then stay unchanged.
    #[tactic(auto, using(inf_area::proofs::Sums::sum_of_push))]
    pub fn add(&mut self, value: Value) -> Result<u8, GlobalFault>
        ensures ok { OnOk result (self.new ≡ self.old ++ value ∷ []) }
        ensures number { IfOk result (λ number. number ≡ 16 + length self.old) }
        ensures room { OnOk result (length self.old < 235) }
        ensures err { OnErr result (self.new ≡ self.old) }
        ensures too_many { IfErr result (λ fault. fault ≡ TooMany → length self.old ≡ 235) }
        ensures memory { IfErr result (λ fault. fault ≡ Memory → length self.old < 235) }
    {
        let count = self.values.len();
        if count >= MOST {
            return Err(GlobalFault::TooMany);
        }
        self.values.push(value)?;
        self.later += laters(&[value]);
        Ok(FIRST + count as u8)
    }

    /// Appends the first values of all 240 variables, two bytes each, to the area of globals, and the fixups of those that
    /// are known later to `refs`. A variable that was not declared begins with 0.
    ///
    /// The call is refused first where there would be more fixups than there may be, then for want of memory; area and
    /// fixups then stay unchanged.
    #[tactic(auto, using(crate::proofs::Sizes::globals_later))]
    pub fn write<A: Area>(&self, area: &mut A, refs: &mut Refs) -> Result<(), WriteFault>
        ensures bytes { OnOk result (A.bytes area.new ≡ A.bytes area.old ++ bytes_of (globals_cells self.now)) }
        ensures fixups { OnOk result (refs.new ≡ with_fixups
            (refs.old.list ++ fixups_of AreaName.Globals (length (A.bytes area.old)) (globals_cells self.now)) refs.old) }
        ensures room { OnOk result (length refs.old.list + laters self.now ≤ refs.old.limit) }
        ensures bytes_stay { OnErr result (A.bytes area.new ≡ A.bytes area.old) }
        ensures fixups_stay { OnErr result (refs.new ≡ refs.old) }
        ensures full { IfErr result (λ fault. fault ≡ WriteFault.Full → refs.old.limit < length refs.old.list + laters self.now) }
        ensures memory { IfErr result (λ fault. fault ≡ WriteFault.Memory → length refs.old.list + laters self.now ≤ refs.old.limit) }
    {
        if refs.limit() - refs.len() < self.later {
            return Err(WriteFault::Full);
        }
        let Ok(cells) = self.cells() else {
            return Err(WriteFault::Memory);
        };
        append_cells(self.alloc, AreaName::Globals, area, refs, cells.as_slice())
    }

    // Returns the cells of all variables.
    fn cells(&self) -> Result<Cells, AllocError>
        ensures { IfOk result (λ cells. cells ≡ globals_cells self.now) }
    {
        let mut all = Vec::from_slice(self.alloc, &self.values)?;
        let rest = vec![in self.alloc; Value::Known(0); ALL - self.values.len()]?;
        all.extend_from_slice(&rest)?;
        let mut cells = Cells::new(self.alloc);
        cells.values(&all)?;
        Ok(cells)
    }
}
