//! Laws of the grammar of the language. Each function's contract is one; its body does nothing.
ghost use Rattle.inf_grammar.specs.{Brackets.LeftRoutinesAreBracketed, Brackets.OpenRoutinesAreBracketed, Language.grammar, Language.known};
ghost use Rattle.inf_grammar.specs.{Sources.SourcesHavePieces};
ghost use Rattle.inf_machine.specs.Laws.{IsDecided};

/// Shows that in the grammar of the language one token decides.
pub fn language()
    ensures { IsDecided grammar known }
{}

/// Shows that every source is a sequence of pieces, each a directive or a semicolon, and of bad pieces: behind a bad token reading goes on
/// after the next semicolon, and where a routine is open after the first semicolon behind the next `]`, or at the end.
pub fn source_pieces()
    ensures { SourcesHavePieces }
{}

/// Shows that a routine is open behind tokens that begin a piece exactly where its bracket is: where the last bracket
/// among them is an opening one, and the piece is no array's; and that the rest that the machine has to read behind
/// tokens that it took has the end of a routine in the same case.
pub fn routines_are_bracketed()
    ensures begun { OpenRoutinesAreBracketed }
    ensures left { LeftRoutinesAreBracketed }
{}
