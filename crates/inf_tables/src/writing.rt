//! The way in which a world is written.
ghost use Rattle.std.specs.Prelude.{◌≡◌, ◌+◌, ◌<◌, ◌≤◌, ◌++◌, IfOk, IfErr, OnOk, OnErr, length};
ghost use Rattle.inf_area.specs.{Fixups.with_fixups, declared.cells.WriteFault.WriteFault};
ghost use Rattle.inf_area.specs.Cells.{bytes_of, fixups_of, later_count};
ghost use Rattle.inf_tables.specs.Areas.{all_objects, area_cells, individual_places_from, name_of, table_places_from};

use crate::areas::{class_cells, default_cells, individual_cells, object_cells, table_cells};
use crate::kept::later_defaults;
use crate::kinds::WorldArea;
use crate::numbers::SYSTEM_OBJECTS;
use crate::totals::{individual_places, table_places, totals};
use crate::world::World;
use inf_area::{Area, Cells, Refs, WriteFault, append_cells};
use inf_settings::bounds::Bounds;
use std::alloc::AllocError;

impl<B: Bounds> World<B> {
    /// Counts the numbers in an area that are known later, for each of which a fixup is written with it. An open body is no part of
    /// the area.
    #[tactic(auto, using(crate::proofs::Joining::all_defaults_later, crate::proofs::Joining::all_objects_later, crate::proofs::Joining::all_classes_later))]
    pub fn later_count(&self, which: WorldArea) -> usize
        ensures { result ≡ later_count (area_cells which self.now) }
    {
        match which {
            WorldArea::PropertyDefaults => later_defaults(self.declared()),
            WorldArea::Objects => SYSTEM_OBJECTS + self.objects().len(),
            WorldArea::PropertyTables => self.table_laters(),
            WorldArea::ClassNumbers => 0,
            WorldArea::IndividualTables => self.individual_laters(),
        }
    }

    // Counts the numbers in the property tables that are known later.
    #[tactic(auto, using(crate::proofs::Joining::tables_later))]
    fn table_laters(&self) -> usize
        ensures { result ≡ later_count (area_cells WorldArea.PropertyTables self.now) }
    {
        let objects = self.objects();
        totals(objects, SYSTEM_OBJECTS + objects.len()).table.later
    }

    // Counts the numbers in the individual tables that are known later.
    #[tactic(auto, using(crate::proofs::Joining::all_individual))]
    fn individual_laters(&self) -> usize
        ensures { result ≡ later_count (area_cells WorldArea.IndividualTables self.now) }
    {
        let objects = self.objects();
        totals(objects, SYSTEM_OBJECTS + objects.len())
            .individual_table
            .later
    }

    /// Appends the area `which` of the world to `area`, and the fixups of its numbers that are known later to `refs`. An open body
    /// is no part of the area of the world.
    ///
    /// Refuses it first where there would be more fixups than there may be, then where no memory is left; `area` and `refs` then
    /// stay as they were.
    pub fn write<A: Area>(
        &self,
        which: WorldArea,
        area: &mut A,
        refs: &mut Refs,
    ) -> Result<(), WriteFault>
        ensures bytes { OnOk result (A.bytes area.new ≡ A.bytes area.old ++ bytes_of (area_cells which self.now)) }
        ensures fixups { OnOk result (refs.new ≡ with_fixups
            (refs.old.list ++ fixups_of (name_of which) (length (A.bytes area.old)) (area_cells which self.now)) refs.old) }
        ensures room { OnOk result (length refs.old.list + later_count (area_cells which self.now) ≤ refs.old.limit) }
        ensures bytes_stay { OnErr result (A.bytes area.new ≡ A.bytes area.old) }
        ensures fixups_stay { OnErr result (refs.new ≡ refs.old) }
        ensures full { IfErr result (λ fault. fault ≡ WriteFault.Full
            → refs.old.limit < length refs.old.list + later_count (area_cells which self.now)) }
        ensures memory { IfErr result (λ fault. fault ≡ WriteFault.Memory
            → length refs.old.list + later_count (area_cells which self.now) ≤ refs.old.limit) }
    {
        if refs.limit() - refs.len() < self.later_count(which) {
            return Err(WriteFault::Full);
        }
        let Ok(cells) = self.cells(which) else {
            return Err(WriteFault::Memory);
        };
        append_cells(self.alloc(), which.name(), area, refs, cells.as_slice())
    }

    // Returns the cells of an area.
    fn cells(&self, which: WorldArea) -> Result<Cells, AllocError>
        ensures { IfOk result (λ cells. cells ≡ area_cells which self.now) }
    {
        let alloc = self.alloc();
        match which {
            WorldArea::PropertyDefaults => default_cells(alloc, self.declared()),
            WorldArea::Objects => object_cells(alloc, self.objects()),
            WorldArea::PropertyTables => table_cells(alloc, self.objects()),
            WorldArea::ClassNumbers => class_cells(alloc, self.objects()),
            WorldArea::IndividualTables => individual_cells(alloc, self.objects()),
        }
    }

    /// Returns the place where each property table begins in its area, in bytes from the front, by the number of its object less 1.
    pub fn table_places(&self) -> Result<Vec<usize>, AllocError>
        ensures { IfOk result (λ places. places.items ≡ table_places_from 0 0 (all_objects self.now.objects)) }
    {
        let objects = self.objects();
        table_places(self.alloc(), objects, SYSTEM_OBJECTS + objects.len())
    }

    /// Returns the place where each individual table begins in its area, in bytes from the front, by the number of its object less
    /// 1. For an object that has none this is the place where its table would begin.
    pub fn individual_places(&self) -> Result<Vec<usize>, AllocError>
        ensures { IfOk result (λ places. places.items ≡ individual_places_from 0 (all_objects self.now.objects)) }
    {
        let objects = self.objects();
        individual_places(self.alloc(), objects, SYSTEM_OBJECTS + objects.len())
    }
}
