//! Laws of the turns through a piece.
ghost use Rattle.inf_settings.specs.Bounds.{Limits};
ghost use Rattle.inf_turn_laws.specs.{Acted.PiecesDoTheirActions, Directives.PiecesDoTheirDirectives, RoutinePieces.PiecesDoTheirRoutines};
ghost use Rattle.inf_turn_laws.specs.{Routines.TurnsReadRoutinesWhole, UnusedLocals.HeadersMakeNew, UnusedLocals.UnusedAreWarned};

/// Shows that turns through a piece, whose kept tokens are a text of the grammar, have the effect of the text's actions, each at the
/// place of the token that comes next, and of the tokens, which are taken in their order; and that conditional directives between them
/// have their effect behind the ends of the statements that are over there, whatever the next token is.
pub fn pieces_do_their_actions()
    ensures { (limits : Limits) → PiecesDoTheirActions limits }
{}

/// Shows that turns through a piece that begins with a bracket, whose kept tokens are a text of the grammar, lay a routine as a whole: its
/// header, its statements as they are nested, and its end.
pub fn turns_read_routines_whole()
    ensures { (limits : Limits) → TurnsReadRoutinesWhole limits }
{}

/// Shows that a whole piece of a program, whose tokens begin as a directive that is one unit, has the effect of this directive as a tree
/// (Designer's Manual, fourth edition, section 1.4).
pub fn pieces_do_their_directives()
    ensures { (limits : Limits) → PiecesDoTheirDirectives limits }
{}

/// Shows that a whole piece of a program that begins with a bracket has the effect of a routine as a tree: of its header, of its statements
/// and of its end (Designer's Manual, fourth edition, section 1.3).
pub fn pieces_do_their_routines()
    ensures { (limits : Limits) → PiecesDoTheirRoutines limits }
{}

/// Shows that the warnings at the end of a routine are about the locals that no name in a unit of it is, in order, whatever happens between
/// its header and its end; and that the locals of each header have different names, none of which is named yet.
pub fn unused_locals_are_warned()
    ensures warned { (limits : Limits) → UnusedAreWarned limits }
    ensures headers { (limits : Limits) → HeadersMakeNew limits }
{}
