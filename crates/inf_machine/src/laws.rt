//! Laws of grammars and of the machine. The contract of each function is a law, for any type of actions; its body does nothing.
ghost use Rattle.inf_machine.specs.{Laws.BadTokensBeginNothing, Laws.SourcesEnd, Laws.TextsAreTaken, Pieces.SourcesArePieces};

/// Shows for each grammar in which one token decides: tokens are all taken exactly where they begin a text. Thus the bad token is
/// the first with which the tokens begin none.
pub fn bad_tokens<A>()
    ensures { BadTokensBeginNothing A }
{}

/// Shows for each grammar in which one token decides: tokens are a text exactly where they are taken and the symbols that are
/// left can end without a token, and the actions of the text are those of reading it, each at its place.
pub fn texts<A>()
    ensures { TextsAreTaken A }
{}

/// Shows for each grammar in which one token decides: tokens are a text exactly where they are taken and the symbols that are left can be
/// empty. Thus no bad token is reported of a source, up to its end, exactly where the source is a text of the rule of files.
pub fn sources<A>()
    ensures { SourcesEnd A }
{}

/// Shows for each grammar in which one token decides, and a rule whose texts end with a token: every source is a sequence of
/// pieces that are texts of the rule, and of bad pieces. Behind the bad token of a piece any number of tokens may be skipped; a
/// piece that the end of the source cuts off is the last.
pub fn pieces<A>()
    ensures { SourcesArePieces A }
{}
