//! Laws on the tokens of sources and their heads.
ghost use Rattle.inf_lexer.specs.{AnswerLaws.TokensAreTheSources, HeadLaws.HeadsHaveNoTokens, HeadLaws.WholeHeadsHaveNoTokens};

/// Tokens that a lexer answers are those of the source, however few bytes each reading gives.
pub fn tokens_are_the_sources()
    ensures { TokensAreTheSources }
{}

/// Heads have no tokens: where a word of the head of a source is read, or its end, the next token stays as it was.
pub fn heads_have_no_tokens()
    ensures { HeadsHaveNoTokens }
{}

/// Tokens of a source are those behind its head: its first token is the first one there.
pub fn whole_heads_have_no_tokens()
    ensures { WholeHeadsHaveNoTokens }
{}
