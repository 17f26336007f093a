//! Laws of programs.
ghost use Rattle.inf_settings.specs.Bounds.{Limits};
ghost use Rattle.inf_program.specs.{BySides.TurnsGoBySides, Turns.TurnsTakeTokens, Writing.LinesAreWrittenAtAnyTime};
ghost use Rattle.inf_program.specs.{Writings.OutcomesAreWritten};
ghost use Rattle.inf_program.specs.Programs.{ProgramsEndInOneWay, ProgramsHaveTheirOutcome, TurnsDoPrograms};
ghost use Rattle.inf_program.specs.Readings.{RegularReadingsArePrograms, SourcesAreRegular, SourcesHavePrograms, TextsArePrograms};

/// Shows that turns which write their messages lead to the same state as turns which write none, but that there all lines are still
/// to be written.
pub fn lines_are_written_at_any_time()
    ensures { (limits : Limits) → LinesAreWrittenAtAnyTime limits }
{}

/// Shows that turns behind which nothing else happens have the effect of the tokens that they hand on, one behind the other, and of the
/// conditional directives between them; and that within a piece this is the effect of the tokens as the machine of the grammar takes
/// them, each with the effect of the conditional directives behind it.
pub fn turns_take_tokens()
    ensures { (limits : Limits) → TurnsTakeTokens limits }
{}

/// Shows that the turns of a source, with the files that it includes, lead to the state to which turns by the sides of conditionals lead,
/// and that the same things are given of each token by the conditionals and by their sides.
pub fn turns_go_by_sides()
    ensures { TurnsGoBySides }
{}

/// Shows that turns by sides do what a program does: they end reading in the state in which the program ends.
pub fn turns_do_programs()
    ensures { (limits : Limits) → TurnsDoPrograms limits }
{}

/// Shows that all programs from a state on end in the same state.
pub fn programs_end_in_one_way()
    ensures { (limits : Limits) → ProgramsEndInOneWay limits }
{}

/// Shows that the ending behind the program of a main source and the supplied routines is the outcome of the source, as turns give it.
pub fn programs_have_their_outcome()
    ensures { ProgramsHaveTheirOutcome }
{}

/// Shows that regular turns by sides from a state between two pieces, which end reading, are a program that ends as they do.
pub fn regular_readings_are_programs()
    ensures { (limits : Limits) → RegularReadingsArePrograms limits }
{}

/// Shows that each turn by sides of the reading of a main source is regular.
pub fn sources_are_regular()
    ensures { SourcesAreRegular }
{}

/// Shows that a main source has a program.
pub fn sources_have_programs()
    ensures { SourcesHavePrograms }
{}

/// Shows that the text of each supplied routine is a program, behind any state, and that its turns by sides are regular; so the supplied
/// routines are read up to some end.
pub fn texts_are_programs()
    ensures { (limits : Limits) → TextsArePrograms limits }
{}

/// Shows that the outcome that the program of a source gives is the one that turns give; and that for all sources, choices, serial
/// numbers and names there is one, and just one.
pub fn outcomes_are_written()
    ensures { OutcomesAreWritten }
{}
