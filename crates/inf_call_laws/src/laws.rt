//! Laws of the calls that read a text by itself.
ghost use Rattle.inf_settings.specs.Bounds.{Limits};
ghost use Rattle.inf_call_laws.specs.{BadTexts.BadTokensOfTexts, Laid.ExpressionsAreLaidAlone, Texts.TextsAreReadAlone};

/// Shows that turns through a text that is read by itself, whose kept tokens are a text of its rule, have the effect of the text's actions,
/// each at the place of the token that comes next, and of the tokens, which are taken in their order with the effects of the conditional
/// directives between them; and that the part that a call reads leaves this work.
pub fn texts_are_read_alone()
    ensures { (limits : Limits) → TextsAreReadAlone limits }
{}

/// Shows that the tokens before the semicolon of an expression or a constant that is read by itself are one expression by the levels of its
/// operators, and that the call lays the code of this one by the use that is made of it, and answers the operand that it leaves, or the
/// least that is wrong with it; and for a constant its value (Designer's Manual, fourth edition, section 1.6).
pub fn expressions_are_laid_alone()
    ensures { (limits : Limits) → ExpressionsAreLaidAlone limits }
{}

/// Shows that tokens of a text that is read by itself are each taken as long as they still begin a text of its rule. The first with which
/// they begin none is bad, as is one that does not fit its conditional directive, or the end of the file. Reading goes on behind the next
/// semicolon, the bad token counted in.
pub fn bad_tokens_of_texts()
    ensures { (limits : Limits) → BadTokensOfTexts limits }
{}
