//! Laws that tokens, read one by one, do what the pieces of the language do as a whole.
ghost use Rattle.inf_settings.specs.Bounds.{Limits};
ghost use Rattle.inf_language.specs.{Gathered.ExpressionsAreGathered, HeaderNames.HeadersNoteTheirNames};
ghost use Rattle.inf_language.specs.{Headers.HeadersHaveTheirLocals, NamedLocals.UnitsNameTheirLocals, Sifting.UnitsAreSiftedAlone};
ghost use Rattle.inf_language.specs.{Texts.TextsDoTheirActions, Units.UnitsAreReadAlone};

/// Shows that tokens that are a text of a rule of the grammar fit one after the other, and that they have this effect: the
/// actions of the text act in their order, each before the token that comes next, and each token is taken.
pub fn texts_do_their_actions()
    ensures { (limits : Limits) → TextsDoTheirActions limits }
{}

/// Shows that the unit that a compilation reads depends on the tokens and actions of this unit alone: the same tokens and
/// actions make it of the unit by itself, whatever is compiled or reported meanwhile.
pub fn units_are_read_alone()
    ensures { (limits : Limits) → UnitsAreReadAlone limits }
{}

/// Shows that the unit that a compilation reads, and the locals of its routine, depend on tokens and actions alone also where values and
/// words are too many, of which those are kept that tell something by what is laid before them. Where nothing is dropped, the unit
/// depends on the tokens and actions of this unit alone.
pub fn units_are_sifted_alone()
    ensures { (limits : Limits) → UnitsAreSiftedAlone limits }
{}

/// Shows that the tokens of an expression that a compilation reads, in any place where one stands by itself, are an
/// expression by the levels of its operators, and that the unit at hand gathers it.
pub fn expressions_are_gathered()
    ensures { (limits : Limits) → ExpressionsAreGathered limits }
{}

/// Shows that a unit names, of the locals of its routine, those with the names of its expressions, and then those in which
/// it stores, and has no other effect on them.
pub fn units_name_their_locals()
    ensures { UnitsNameTheirLocals }
{}

/// Shows that the locals that a header notes name by name are those of all its names (Designer's Manual, fourth edition,
/// section 1.4), though no token of it is kept.
pub fn headers_have_their_locals()
    ensures { HeadersHaveTheirLocals }
{}

/// Shows that a header that is read in a compilation notes all its names: the unit that its end finds has the locals of the
/// names, and is unchanged otherwise.
pub fn headers_note_their_names()
    ensures { (limits : Limits) → HeadersNoteTheirNames limits }
{}
