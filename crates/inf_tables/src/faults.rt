//! The reason why something was not added to the world.

ghost use Rattle.std.specs.Prelude.{◌≡◌, option_map};
ghost use Rattle.inf_tables.specs.Faults.{given_fault};

use inf_properties::GiveFault;
use std::alloc::{AllocError, AllocFailed};

/// A fixed bound that would be passed.
#[derive(Clone, Copy, Debug)]
pub enum Limit {
    /// There are 48 attributes already.
    Attributes,
    /// There are 60 declared properties already.
    Properties,
    /// There are 2^32 - 1 individual properties already, the most that a number of 32 bits can count.
    IndividualProperties,
    /// A property, or the list of classes, would have more than 32 values.
    Values,
}

/// An entry that is out of place, or that names nothing of the kind that it needs.
#[derive(Clone, Copy, Debug)]
pub enum Misfit {
    /// A header inside of a body.
    BodyIsOpen,
    /// An entry, or the end of a body, outside of any.
    NoBody,
    /// A parent that is no object, or a class.
    NotAnObject,
    /// Arrows where no object before has one arrow less.
    NothingAbove,
    /// A number that is no property's.
    NotAProperty,
    /// A property that the same body gave already.
    GivenAlready,
    /// A number that is no class's.
    NotAClass,
    /// A number that is no attribute's.
    NotAnAttribute,
}

/// A count that a setting bounds.
#[derive(Clone, Copy, Debug)]
pub enum WorldSetting {
    /// The number of objects.
    Objects,
    /// The number of bytes of the property tables, with the values that classes hold.
    PropertyTables,
}

/// The reason for which something was not added. `Full` is told where no limit or misfit is found, and `Memory` last; of
/// a class, whose lists are made first, `Memory` may come before a limit of values or room.
#[derive(Clone, Copy, Debug)]
pub enum WorldFault {
    Limit(Limit),
    Misfit(Misfit),
    /// A table would have more entries than a setting allows.
    Full(WorldSetting),
    /// No memory was left.
    Memory,
}

impl From<AllocError> for WorldFault {
    ghost use Rattle.std.specs.Prelude.{◌≡◌};
    ghost use Rattle.inf_tables.specs.declared.faults.WorldFault.TheVariants.{Memory};

    ghost from_gives = { λ _ fault. fault ≡ Memory };

    fn from(_error: AllocError) -> WorldFault {
        WorldFault::Memory
    }
}

impl<T: Drop> From<AllocFailed<T>> for WorldFault {
    ghost use Rattle.std.specs.Prelude.{◌≡◌};
    ghost use Rattle.inf_tables.specs.declared.faults.WorldFault.TheVariants.{Memory};

    ghost from_gives = { λ _ fault. fault ≡ Memory };

    fn from(_error: AllocFailed<T>) -> WorldFault {
        WorldFault::Memory
    }
}

impl From<GiveFault> for WorldFault {
    ghost use Rattle.std.specs.Prelude.{◌≡◌};
    ghost use Rattle.inf_tables.specs.Faults.{given_fault};

    ghost from_gives = { λ given fault. fault ≡ given_fault given };

    fn from(fault: GiveFault) -> WorldFault {
        match fault {
            GiveFault::Given => WorldFault::Misfit(Misfit::GivenAlready),
            GiveFault::TooLong => WorldFault::Limit(Limit::Values),
            GiveFault::Full => WorldFault::Full(WorldSetting::PropertyTables),
            GiveFault::Memory => WorldFault::Memory,
        }
    }
}

/// Returns the fault `found` of a property, if there is one, as a fault of the world.
pub(crate) fn told_fault(found: Option<GiveFault>) -> Option<WorldFault>
    ensures { result ≡ option_map given_fault found }
{
    match found {
        Some(fault) => Some(WorldFault::from(fault)),
        None => None,
    }
}
