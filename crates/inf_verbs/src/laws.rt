//! Laws that an author and an interpreter may rely on.
ghost use Rattle.std.specs.Prelude.{◌≡◌, ◌<◌, ◌++◌, List, drop, fold, length, slice_index_or};
ghost use Rattle.inf_area.specs.Cells.{bytes_of};
ghost use Rattle.inf_verbs.specs.Lines.{LineOf};
ghost use Rattle.inf_verbs.specs.Verbs.{VerbOf, extended, grammar_cells, lines_of, parts_cells, places_of, verbs_size, with_line};
ghost use Rattle.inf_verbs.specs.declared.verbs.LinePlace.TheVariants.{First, Last, Replace};

use crate::verbs::Verbs;
use inf_settings::bounds::Bounds;

/// Shows where the lines of an `Extend` are in a verb: those of `first` come before the old ones, those of `last`
/// behind them, those of `replace` in their place, each in their own order.
pub fn lines_as_told()
    ensures first { (more : List LineOf) (verb : VerbOf)
        → lines_of (fold (λ v line. with_line First line v) (extended First verb) more) ≡ more ++ lines_of verb }
    ensures last { (more : List LineOf) (verb : VerbOf)
        → lines_of (fold (λ v line. with_line Last line v) (extended Last verb) more) ≡ lines_of verb ++ more }
    ensures replace { (more : List LineOf) (verb : VerbOf)
        → lines_of (fold (λ v line. with_line Replace line v) (extended Replace verb) more) ≡ more }
{}

/// Shows that the grammar has as many bytes written as it counts, and that the lines of a verb are found behind the
/// place that is handed out for it.
pub fn verb_at_its_place<B: Bounds>(verbs: &Verbs<B>, number: usize)
    requires { number < length verbs.now.list }
    ensures size { length (bytes_of (grammar_cells verbs.now.list)) ≡ verbs_size verbs.now.list }
    ensures lines { drop (slice_index_or (places_of verbs.now.list) number 0) (bytes_of (grammar_cells verbs.now.list))
        ≡ bytes_of (parts_cells (drop number verbs.now.list)) }
{}
