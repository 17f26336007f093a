//! Laws of whole statements.
ghost use Rattle.inf_settings.specs.Bounds.{Limits};
ghost use Rattle.inf_statement_laws.specs.Laws.{ClosingAheadIsClosing, RoutinesAreLaidWhole, RoutinesAreReadWhole, StatementsAreLaidWhole};
ghost use Rattle.inf_statement_laws.specs.Laws.{StatementsLeaveWhatIsOpen, TokensHappen, UnitsKeepLabels};

/// Shows that a token that fits has the effect of its happenings, one by one: its actions, its taking, and the happenings
/// behind it before the next token comes; and that these are the happenings of its events.
pub fn tokens_happen()
    ensures { (limits : Limits) → TokensHappen limits }
{}

/// Shows that the statements that are open around a statement are open behind it as they were before it, however statements
/// are nested (Designer's Manual, fourth edition, sections 1.7 to 1.9), whatever faults they have, and also where their
/// routine is passed over.
pub fn statements_leave_what_is_open()
    ensures { (limits : Limits) → StatementsLeaveWhatIsOpen limits }
{}

/// Shows that each text of a statement is a nested statement, and that its tokens and actions, one by one, lay it as a
/// whole: an `if` with its `else` or without, a `while`, `do`, `for`, `objectloop` or `switch` is opened where its word was
/// read, with the labels that are handed out there, its parts run in their order, and it is closed with these same labels,
/// while all statements around it stay open as they were (Designer's Manual, fourth edition, sections 1.7 to 1.9).
pub fn statements_are_laid_whole()
    ensures { (limits : Limits) → StatementsAreLaidWhole limits }
{}

/// Shows that the text of a routine between its header and its end is nested and laid as a whole too, where cases may be
/// the routine's own (Designer's Manual, fourth edition, section 1.9). Where no statement is open before it, none is open
/// behind it.
pub fn routines_are_laid_whole()
    ensures { (limits : Limits) → RoutinesAreLaidWhole limits }
{}

/// Shows that a routine is read as a whole, from its bracket on: by tokens that fit up to where no symbol is left, with
/// conditional directives wherever they end. Their effect is that of its header, of the statements nested in it, and of its
/// end, before which no statement is open.
pub fn routines_are_read_whole()
    ensures { (limits : Limits) → RoutinesAreReadWhole limits }
{}

/// Shows that the unit of a loop over objects, of the step of a `for` and of a case leaves the innermost statement with its
/// labels, and those around it unchanged.
pub fn units_keep_labels()
    ensures { (limits : Limits) → UnitsKeepLabels limits }
{}

/// Shows that a conditional directive that ends where statements end, whatever the next token is, has the effect that it
/// would have behind their ends, and that a second one there closes no more.
pub fn closing_ahead_is_closing()
    ensures { (limits : Limits) → ClosingAheadIsClosing limits }
{}
