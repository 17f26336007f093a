//! Laws of tokens: their results are the same by the sides that are open as by the conditionals of the compiler.
ghost use Rattle.inf_conditional_sides.specs.{Ends.EndsAreToldBySides, Judged.SidesAreJudged, Keeping.DirectivesChooseSides};
ghost use Rattle.inf_conditional_sides.specs.{Keeping.SidesKeepTokens, Rests.TokensRest, Runs.TokensGoBySides, Tellings.ConditionsAreTold};

/// Shows that no side is open before the first token, as no conditional is. Where sides agree with the conditionals
/// that are open, a token is handed on in the same way by both, and both report the same directives that have ended, or
/// that have no conditional; and behind the token, and behind the end of a piece, the sides agree with the conditionals
/// again. In a side that is left out no more levels than 4,294,967,295 are open, and no side is left out behind those
/// that are open inside of the directive at hand.
pub fn sides_are_judged()
    ensures { SidesAreJudged }
{}

/// Shows that a side is left out behind others for a moment alone: where a token leads there, it hands nothing on, no directive is
/// being read behind it, and the reading is between two directives. While one is being read, no token is handed on.
pub fn tokens_rest()
    ensures { TokensRest }
{}

/// Shows that each token of a file is handed on by the sides that are open as by the conditionals of the compiler, from where nothing is
/// open, and the same directives are reported: as long as reading stands still where no token is handed on.
pub fn tokens_go_by_sides()
    ensures { TokensGoBySides }
{}

/// Shows that at the end of a directive, and of a file, those conditionals are reported that are open there by their sides, in order of
/// opening, but for those that were opened in a side that is left out.
pub fn ends_are_told_by_sides()
    ensures { EndsAreToldBySides }
{}

/// Shows that nothing is given of a token around which a side is left out, that a token around which all sides stay is kept where no
/// conditional directive is being read, that of a conditional the second side stays where the first did not, and that a directive is
/// reported that turns or ends a conditional where there is none.
pub fn sides_keep_tokens()
    ensures { SidesKeepTokens }
{}

/// Shows that the first side of a conditional stays by its name or its condition, and that in a side that is left out each word of a
/// conditional acts at once on the sides that are open, and no other token does.
pub fn directives_choose_sides()
    ensures { DirectivesChooseSides }
{}

/// Shows that of each token the same is told of a condition by the sides that are open as by the conditionals of the compiler, and
/// that both count the same tokens of conditions.
pub fn conditions_are_told()
    ensures { ConditionsAreTold }
{}
