//! The laws of stories.
ghost use Rattle.inf_link.specs.FillingLaws.{CellsComeOutAsNumbers, FixupsAreFilledInAnyOrder};
ghost use Rattle.inf_link.specs.StoryLaws.{AreasStandAtTheirBases, StoriesTellThemselves};

/// Shows that the header of each story says its length and the sum of the bytes behind it.
pub fn stories_tell_themselves()
    ensures { StoriesTellThemselves }
{}

/// Shows that each area begins in the story where numbers and header say it.
pub fn areas_stand_at_their_bases()
    ensures { AreasStandAtTheirBases }
{}

/// Shows that fixups of which no two overlap give the same story, in whatever order they are filled.
pub fn fixups_are_filled_in_any_order()
    ensures { FixupsAreFilledInAnyOrder }
{}

/// Shows that areas that were written as cells give the story in which each cell has its number.
pub fn cells_come_out_as_numbers()
    ensures { CellsComeOutAsNumbers }
{}
