//! The numbers of fixups in their areas.
ghost use Rattle.std.specs.{Cmp.Lexicographic.slice_cmp, List.Sorted.IsSorted, Ordering.nat_cmp};
ghost use Rattle.std.specs.Prelude.{◌≡◌, List, ℕ};
ghost use Rattle.inf_link.specs.{Areas.contents, Targets.lookup, Targets.number_of};
ghost use Rattle.inf_link.specs.Filling.{filled, with_filled, with_number};

use crate::areas::Areas;
use crate::targets::Targets;
use inf_area::{Area, AreaName, Fixup, Scale};

/// Writes a number over the two bytes at a place of an area, if both lie within.
fn fill_at<A: Area>(area: &mut A, place: usize, number: u16)
    ensures { A.bytes area.new ≡ with_number place number (A.bytes area.old) }
{
    let len = area.len();
    if place < len && place + 1 < len {
        area.patch_word(place, number);
    }
}

impl<A: Area> Areas<A> {
    /// Writes a number over the two bytes at `place` of the area `name`, if both lie within.
    fn fill(&mut self, name: AreaName, place: usize, number: u16)
        ensures { contents A.bytes self.new ≡ with_filled name place number (contents A.bytes self.old) }
    {
        match name {
            AreaName::LowStrings => fill_at(&mut self.low_strings, place, number),
            AreaName::Abbreviations => fill_at(&mut self.abbreviations, place, number),
            AreaName::PropertyDefaults => fill_at(&mut self.property_defaults, place, number),
            AreaName::Objects => fill_at(&mut self.objects, place, number),
            AreaName::PropertyTables => fill_at(&mut self.property_tables, place, number),
            AreaName::ClassNumbers => fill_at(&mut self.class_numbers, place, number),
            AreaName::IndividualTables => fill_at(&mut self.individual_tables, place, number),
            AreaName::Globals => fill_at(&mut self.globals, place, number),
            AreaName::Arrays => fill_at(&mut self.arrays, place, number),
            AreaName::Grammar => fill_at(&mut self.grammar, place, number),
            AreaName::Actions => fill_at(&mut self.actions, place, number),
            AreaName::ParsingRoutines => fill_at(&mut self.parsing_routines, place, number),
            AreaName::Dictionary => fill_at(&mut self.dictionary, place, number),
            AreaName::Code => fill_at(&mut self.code, place, number),
            AreaName::Strings => fill_at(&mut self.strings, place, number),
        }
    }

    /// Writes the numbers of fixups over their bytes, where areas begin at `bases` and the words of the targets are in rising order.
    pub fn fill_all(
        &mut self,
        fixups: &[Fixup],
        targets: &Targets,
        scale: Scale,
        bases: &Areas<usize>,
    )
        requires sorted { IsSorted (slice_cmp nat_cmp) targets.now.words.items }
        ensures { contents A.bytes self.new ≡ filled (number_of (lookup targets.now) scale bases.now) fixups.now
            (contents A.bytes self.old) }
    {
        for fixup in fixups {
            let number = targets.number(scale, bases, fixup.target);
            self.fill(fixup.area, fixup.place, number);
        }
    }
}
