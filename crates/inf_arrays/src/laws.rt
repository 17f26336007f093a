//! The sizes of written arrays and variables.
ghost use Rattle.std.specs.Prelude.{◌≡◌, ◌*◌, ◌≤◌, length};
ghost use Rattle.inf_area.specs.Cells.{bytes_of, later_count};
ghost use Rattle.inf_arrays.specs.{Globals.globals_cells, Kinds.laters};
ghost use Rattle.inf_arrays.specs.Arrays.{all_of, arrays_cells, arrays_laters, arrays_size};

use crate::arrays::Arrays;
use crate::globals::Globals;
use inf_settings::bounds::Bounds;

/// Shows that written arrays have as many bytes, and as many numbers that are known later, as are counted.
pub fn written_arrays<B: Bounds>(arrays: &Arrays<B>)
    ensures size { length (bytes_of (arrays_cells (all_of arrays.now))) ≡ arrays_size (all_of arrays.now) }
    ensures laters { later_count (arrays_cells (all_of arrays.now)) ≡ arrays_laters (all_of arrays.now) }
{}

/// Shows that the written variables have 480 bytes, and as many numbers that are known later as are counted.
pub fn written_globals(globals: &Globals)
    ensures size { length (bytes_of (globals_cells globals.now)) ≡ 480 }
    ensures laters { later_count (globals_cells globals.now) ≡ laters globals.now }
{
    let _count = globals.len();
}
