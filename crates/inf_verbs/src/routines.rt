//! Routines that a grammar names, by number.
ghost use Rattle.std.specs.Prelude.{◌≡◌, ◌<◌, ◌≤◌, ◌+◌, ◌++◌, ◌%◌, [], false, None, OnOk, OnErr, IfOk, IfErr, MatchResult};
ghost use Rattle.std.specs.Prelude.{length, unwrap_or};
ghost use Rattle.inf_area.specs.{Fixups.with_fixups, declared.cells.WriteFault.WriteFault, declared.targets.AreaName.AreaName};
ghost use Rattle.inf_area.specs.Cells.{bytes_of, fixups_of};
ghost use Rattle.inf_verbs.specs.Routines.{action_fault, is_among, number_in, number_of, routines_cells, with_action, with_fake};
ghost use Rattle.inf_verbs.specs.Routines.{with_routine};
ghost use Rattle.inf_verbs.specs.declared.routines.ActionFault.TheVariants.{Memory};
ghost use Rattle.inf_settings.specs.declared.setting.Setting.{Setting};

use indexmap::IndexSet;
use inf_area::{Area, AreaName, Cells, Refs, Target, WriteFault, append_cells};
use inf_settings::bounds::Bounds;
use std::alloc::{AllocError, AllocFailed, Global};
use std::marker::{Model, PhantomData};

// The number of the first action that has no routine.
const FIRST_FAKE: u16 = 4096;

/// The reason why an action was not added.
#[derive(Clone, Copy, Debug)]
pub enum ActionFault {
    /// There are as many actions as there may be.
    Full,
    /// No memory was left.
    Memory,
}

impl<T: Drop> From<AllocFailed<T>> for ActionFault {
    ghost from_gives = { λ _ fault. fault ≡ Memory };

    fn from(_error: AllocFailed<T>) -> ActionFault {
        ActionFault::Memory
    }
}

/// The actions of a story, in the order in which they first came.
///
/// An action is known by the number that its routine has among the names of the source. A fake action has no routine.
#[derive(Drop)]
pub struct Actions<B: Bounds> {
    alloc: Global,
    routines: IndexSet<usize>,
    fakes: u16,
    limit: usize,
    of: PhantomData<B>,
    ghost is_most: { limit ≡ B.most Setting.Actions },
}

impl<B: Bounds> Model for Actions<B> {
    ghost use Rattle.std.specs.Prelude.{◌≤◌, length};
    ghost use Rattle.inf_verbs.specs.Routines.{AllActions};

    ghost Value = { AllActions };

    ghost view = { λ a. record { routines = a.routines.keys; fakes = a.fakes } };

    ghost invariant = { λ a. length a.routines.keys ≤ a.limit };
}

impl<B: Bounds> Actions<B> {
    /// Returns a set without actions, which takes `limit` actions at most, beside fake ones. It takes no memory until the first one comes.
    pub fn new(alloc: Global, limit: usize) -> Actions<B>
        requires { limit ≡ B.most Setting.Actions }
        ensures { result ≡ record { routines = []; fakes = 0 } }
    {
        Actions {
            alloc,
            routines: IndexSet::new(alloc),
            fakes: 0,
            limit,
            of: PhantomData,
        }
    }

    /// Returns the number of actions, without fake ones, which is never more than there may be; as many fixups are written.
    pub fn len(&self) -> usize
        ensures value { result ≡ length self.now.routines }
        ensures limited { result ≤ B.most Setting.Actions }
    {
        self.routines.len()
    }

    /// Returns the number of the action with this routine, modulo 65536, if there is such an action.
    pub fn number_of(&self, routine: usize) -> Option<u16>
        ensures { result ≡ number_in routine self.now.routines }
    {
        let place = self.routines.get_index_of(&routine)?;
        Some((place % 65536) as u16)
    }

    /// Adds the action with this routine where it is new, and returns its number, modulo 65536, which counts the actions before it.
    ///
    /// Returns an error where the action is new: `Full` where there are as many as there may be, else `Memory` where no
    /// memory is left. All actions then stay as they were.
    pub fn add(&mut self, routine: usize) -> Result<u16, ActionFault>
        ensures ok { OnOk result (self.new ≡ with_action routine self.old) }
        ensures number { IfOk result (λ number. number ≡ number_of routine self.old.routines) }
        ensures err { OnErr result (self.new ≡ self.old) }
        ensures fault { let fault = action_fault B.most routine self.old in
            MatchResult result (λ _. fault ≡ None) (λ refused. refused ≡ unwrap_or fault Memory) }
        ensures memory { IfErr result (λ refused. refused ≡ Memory → is_among routine self.old.routines ≡ false) }
    {
        if !self.routines.contains(&routine) && self.routines.len() >= self.limit {
            return Err(ActionFault::Full);
        }
        let (place, _) = self.routines.insert_full(routine)?;
        Ok((place % 65536) as u16)
    }

    /// Adds a fake action and returns its number, modulo 65536: they count from 4096.
    pub fn add_fake(&mut self) -> u16
        ensures number { result ≡ (4096 + self.old.fakes) % 65536 }
        ensures one { self.new ≡ with_fake self.old }
    {
        let number = FIRST_FAKE.wrapping_add(self.fakes);
        self.fakes = self.fakes.wrapping_add(1);
        number
    }

    /// Appends a place for the packed address of each action's routine to the area of actions, and their fixups to `refs`.
    ///
    /// Returns an error, the first that applies: `Full` where there would be more fixups than there may be, `Memory`
    /// where no memory is left. Area and fixups then stay as they were.
    pub fn write<A: Area>(&self, area: &mut A, refs: &mut Refs) -> Result<(), WriteFault>
        ensures bytes { OnOk result (A.bytes area.new ≡ A.bytes area.old ++ bytes_of (routines_cells self.now.routines)) }
        ensures fixups { OnOk result (refs.new ≡ with_fixups
            (refs.old.list ++ fixups_of AreaName.Actions (length (A.bytes area.old)) (routines_cells self.now.routines)) refs.old) }
        ensures room { OnOk result (length refs.old.list + length self.now.routines ≤ refs.old.limit) }
        ensures bytes_stay { OnErr result (A.bytes area.new ≡ A.bytes area.old) }
        ensures fixups_stay { OnErr result (refs.new ≡ refs.old) }
        ensures full { IfErr result (λ fault. fault ≡ WriteFault.Full → refs.old.limit < length refs.old.list + length self.now.routines) }
        ensures memory { IfErr result (λ fault. fault ≡ WriteFault.Memory
            → length refs.old.list + length self.now.routines ≤ refs.old.limit) }
    {
        write_routines(self.alloc, AreaName::Actions, &self.routines, area, refs)
    }
}

/// The routines that the lines of a grammar name, in the order in which they were first named.
///
/// A routine is known by the number that it has among the names of the source.
#[derive(Drop)]
pub struct ParsingRoutines {
    alloc: Global,
    routines: IndexSet<usize>,
}

impl Model for ParsingRoutines {
    ghost use Rattle.std.specs.Prelude.{ℕ, List};

    ghost Value = { List ℕ };

    ghost view = { λ p. p.routines.keys };
}

impl ParsingRoutines {
    /// Returns a set without routines. It takes no memory until the first one comes.
    pub fn new(alloc: Global) -> ParsingRoutines
        ensures { result ≡ [] }
    {
        ParsingRoutines {
            alloc,
            routines: IndexSet::new(alloc),
        }
    }

    /// Returns the number of routines; as many fixups are written.
    pub fn len(&self) -> usize
        ensures { result ≡ length self.now }
    {
        self.routines.len()
    }

    /// Adds a routine where it is new, and returns its number, modulo 65536, which counts the routines named before it.
    /// Where it is new and no memory is left, returns an error, and all routines stay as they were.
    pub fn add(&mut self, routine: usize) -> Result<u16, AllocError>
        ensures ok { OnOk result (self.new ≡ with_routine routine self.old) }
        ensures number { IfOk result (λ number. number ≡ number_of routine self.old) }
        ensures err { OnErr result (self.new ≡ self.old) }
        ensures memory { OnErr result (is_among routine self.old ≡ false) }
    {
        let (before, _) = self.routines.insert_full(routine)?;
        Ok((before % 65536) as u16)
    }

    /// Appends a place for the packed address of each routine to the area of parsing routines, and their fixups to `refs`.
    ///
    /// Returns an error, the first that applies: `Full` where there would be more fixups than there may be, `Memory`
    /// where no memory is left. Area and fixups then stay as they were.
    pub fn write<A: Area>(&self, area: &mut A, refs: &mut Refs) -> Result<(), WriteFault>
        ensures bytes { OnOk result (A.bytes area.new ≡ A.bytes area.old ++ bytes_of (routines_cells self.now)) }
        ensures fixups { OnOk result (refs.new ≡ with_fixups
            (refs.old.list ++ fixups_of AreaName.ParsingRoutines (length (A.bytes area.old)) (routines_cells self.now)) refs.old) }
        ensures room { OnOk result (length refs.old.list + length self.now ≤ refs.old.limit) }
        ensures bytes_stay { OnErr result (A.bytes area.new ≡ A.bytes area.old) }
        ensures fixups_stay { OnErr result (refs.new ≡ refs.old) }
        ensures full { IfErr result (λ fault. fault ≡ WriteFault.Full → refs.old.limit < length refs.old.list + length self.now) }
        ensures memory { IfErr result (λ fault. fault ≡ WriteFault.Memory → length refs.old.list + length self.now ≤ refs.old.limit) }
    {
        write_routines(
            self.alloc,
            AreaName::ParsingRoutines,
            &self.routines,
            area,
            refs,
        )
    }
}

/// Appends a place for the address of each of `routines` to an area of this name, as `Actions::write` says.
#[tactic(auto, using(crate::proofs::Sizes::later_routines))]
fn write_routines<A: Area>(
    alloc: Global,
    name: AreaName,
    routines: &IndexSet<usize>,
    area: &mut A,
    refs: &mut Refs,
) -> Result<(), WriteFault>
    ensures bytes { OnOk result (A.bytes area.new ≡ A.bytes area.old ++ bytes_of (routines_cells routines.now.keys)) }
    ensures fixups { OnOk result (refs.new ≡ with_fixups
        (refs.old.list ++ fixups_of name (length (A.bytes area.old)) (routines_cells routines.now.keys)) refs.old) }
    ensures room { OnOk result (length refs.old.list + length routines.now.keys ≤ refs.old.limit) }
    ensures bytes_stay { OnErr result (A.bytes area.new ≡ A.bytes area.old) }
    ensures fixups_stay { OnErr result (refs.new ≡ refs.old) }
    ensures full { IfErr result (λ fault. fault ≡ WriteFault.Full → refs.old.limit < length refs.old.list + length routines.now.keys) }
    ensures memory { IfErr result (λ fault. fault ≡ WriteFault.Memory → length refs.old.list + length routines.now.keys ≤ refs.old.limit) }
{
    if refs.limit() - refs.len() < routines.len() {
        return Err(WriteFault::Full);
    }
    let Ok(cells) = cells_of(alloc, routines) else {
        return Err(WriteFault::Memory);
    };
    append_cells(alloc, name, area, refs, cells.as_slice())
}

/// Returns the cells for the addresses of some routines.
fn cells_of(alloc: Global, routines: &IndexSet<usize>) -> Result<Cells, AllocError>
    ensures { IfOk result (λ cells. cells ≡ routines_cells routines.now.keys) }
{
    let mut cells = Cells::new(alloc);
    for routine in routines {
        cells.later(Target::Name(*routine))?;
    }
    Ok(cells)
}
