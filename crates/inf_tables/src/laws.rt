//! Laws on which an interpreter and an author may rely.
ghost use Rattle.std.specs.Prelude.{◌≡◌, ◌+◌, ◌<◌, drop, length, slice_index_or};
ghost use Rattle.inf_area.specs.Cells.{bytes_of, later_count};
ghost use Rattle.inf_tables.specs.{World.ended_bytes, World.ended_fixups, World.later_defaults, declared.kinds.WorldArea.WorldArea};
ghost use Rattle.inf_tables.specs.Areas.{all_objects, area_cells, held_bytes, individual_places_from, individual_tables, table_places_from};
ghost use Rattle.inf_tables.specs.Areas.{tables_from};

use crate::numbers::SYSTEM_OBJECTS;
use crate::totals::totals;
use crate::world::World;
use inf_settings::bounds::Bounds;

/// Tables of an object, whose number is one more than `number`, begin at the places that are told for it: its property table at the
/// one place, and its individual table at the other.
pub fn table_at_its_place<B: Bounds>(world: &World<B>, number: usize)
    requires { number < length (all_objects world.now.objects) }
    ensures table { drop (slice_index_or (table_places_from 0 0 (all_objects world.now.objects)) number 0)
        (bytes_of (area_cells WorldArea.PropertyTables world.now))
        ≡ bytes_of (tables_from number (drop number (all_objects world.now.objects))) }
    ensures individual_table { drop (slice_index_or (individual_places_from 0 (all_objects world.now.objects)) number 0)
        (bytes_of (area_cells WorldArea.IndividualTables world.now))
        ≡ bytes_of (individual_tables (drop number (all_objects world.now.objects))) }
{}

/// Tables of all objects have as many bytes as the world counts for them, but for the values that classes hold in no table; and all
/// areas have as many numbers that are known later as the world counts.
pub fn written_as_counted<B: Bounds>(world: &World<B>)
    ensures bytes { length (bytes_of (area_cells WorldArea.PropertyTables world.now)) + length
        (bytes_of (area_cells WorldArea.IndividualTables world.now)) + held_bytes world.now.objects ≡ ended_bytes world.now.objects }
    ensures later { later_count (area_cells WorldArea.PropertyDefaults world.now) + later_count (area_cells WorldArea.Objects world.now)
        + later_count (area_cells WorldArea.PropertyTables world.now) + later_count (area_cells WorldArea.ClassNumbers world.now)
        + later_count (area_cells WorldArea.IndividualTables world.now) ≡ ended_fixups world.now.objects + later_defaults
        world.now.declared }
{
    let objects = world.objects();
    let _totals = totals(objects, SYSTEM_OBJECTS + objects.len());
}
