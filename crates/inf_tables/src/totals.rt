//! The sizes of a world's tables, and the places where their parts begin.
ghost use Rattle.std.specs.Prelude.{◌≡◌, ◌+◌, ◌<◌, ◌≤◌, ◌^◌, IfOk, length, sum_by};
ghost use Rattle.inf_objects.specs.Objects.{object_bytes, object_fixups};
ghost use Rattle.inf_tables.specs.{Areas.all_objects, Areas.individual_places_from, Areas.table_places_from, Totals.AreTotals};
ghost use Rattle.inf_tables.specs.World.{AreHung};

use inf_objects::{Measure, Object, Part, measured};
use std::alloc::{AllocError, Global};

/// The measure of no object.
const NOTHING: Measure = Measure {
    table: Part { bytes: 0, later: 0 },
    individual_table: Part { bytes: 0, later: 0 },
};

/// The places where the property tables of the first four objects begin, and the place of the next one.
const FIRST_PLACES: [usize; 4] = [0, 6, 14, 22];

const NEXT_PLACE: usize = 30;

/// Adds up two parts: their bytes, and their numbers that are known later.
fn plus(part: Part, more: Part) -> Part
    requires bytes { part.bytes + more.bytes < 2 ^ 34 }
    requires later { part.later + more.later < 2 ^ 34 }
    ensures { result ≡ record { bytes = part.bytes + more.bytes; later = part.later + more.later } }
{
    Part {
        bytes: part.bytes + more.bytes,
        later: part.later + more.later,
    }
}

/// Adds up the bytes of the property tables and of the individual tables of `objects`, and their numbers that are known later.
pub(crate) fn totals(objects: &[Object], most: usize) -> Measure
    requires hung { AreHung most objects.now }
    requires bytes { sum_by object_bytes objects.now < 2 ^ 33 }
    requires fixups { sum_by object_fixups objects.now < 2 ^ 33 }
    ensures { AreTotals objects.now result }
{
    let mut all = NOTHING;
    for object in objects {
        let measure = measured(object);
        all = Measure {
            table: plus(all.table, measure.table),
            individual_table: plus(all.individual_table, measure.individual_table),
        };
    }
    all
}

/// Returns the place where each property table begins.
#[tactic(auto, using(crate::proofs::Joining::all_table_places))]
pub(crate) fn table_places(
    alloc: Global,
    objects: &[Object],
    most: usize,
) -> Result<Vec<usize>, AllocError>
    requires hung { AreHung most objects.now }
    requires bytes { sum_by object_bytes objects.now < 2 ^ 33 }
    ensures { IfOk result (λ places. places.items ≡ table_places_from 0 0 (all_objects objects.now)) }
{
    let mut places = Vec::from_slice(alloc, &FIRST_PLACES)?;
    let mut at = NEXT_PLACE;
    for object in objects {
        places.push(at)?;
        at += measured(object).table.bytes;
    }
    Ok(places)
}

/// Returns the place where each individual table begins.
#[tactic(auto, using(crate::proofs::Joining::all_individual_places))]
pub(crate) fn individual_places(
    alloc: Global,
    objects: &[Object],
    most: usize,
) -> Result<Vec<usize>, AllocError>
    requires hung { AreHung most objects.now }
    requires bytes { sum_by object_bytes objects.now < 2 ^ 33 }
    ensures { IfOk result (λ places. places.items ≡ individual_places_from 0 (all_objects objects.now)) }
{
    let mut places = vec![in alloc; 0; FIRST_PLACES.len()]?;
    let mut at = 0;
    for object in objects {
        places.push(at)?;
        at += measured(object).individual_table.bytes;
    }
    Ok(places)
}
