//! Laws of the expressions that the grammar's actions gather of texts, and of their trees.
ghost use Rattle.inf_expression_laws.specs.Laws.{ExpressionsAreRead, ExpressionsAreTexts, SymbolsComeToTheirTree, TextsAreOneExpression};

/// Shows that the tokens of a text of the grammar, where an expression may come, are an expression by the levels at which
/// operators bind (Designer's Manual, fourth edition, section 1.6 and the table of operators in its appendix), which are
/// defined without the rows of the grammar. When they are taken and the actions of the text are carried out, the unit has
/// gathered this expression: its leaves by their tokens, and its symbols, each operator behind its parts.
pub fn expressions_are_read()
    ensures { ExpressionsAreRead }
{}

/// Shows that the symbols that are gathered of an expression make its tree, of the trees of its parts, and give the least
/// of its faults. Between the values of a case a comma is no operator; everywhere else this holds of all expressions.
pub fn symbols_come_to_their_tree()
    ensures { SymbolsComeToTheirTree }
{}

/// Shows that every expression by the levels of its operators is a text of the grammar's rule of expressions.
pub fn expressions_are_texts()
    ensures { ExpressionsAreTexts }
{}

/// Shows that no tokens are two expressions: the expression that is gathered of a text is the only one that the text is.
pub fn texts_are_one_expression()
    ensures { TextsAreOneExpression }
{}
