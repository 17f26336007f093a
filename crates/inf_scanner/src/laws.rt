//! Laws that follow from the definitions together.
ghost use Rattle.inf_scanner.specs.SpellingLaws.{LinesAreCounted, SourcesAreSpelledOnce};
ghost use Rattle.inf_scanner.specs.TokenLaws.{NothingIsTheEnd, RunsAreShort, TokensTakeBytes};

/// Shows that each source is the tokens that are read of it, with the gaps between them, in one way, and that no byte is left out.
pub fn sources_are_spelled_once()
    ensures { SourcesAreSpelledOnce }
{}

/// Shows that the line of a byte is one more than the number of lines that end before it.
pub fn lines_are_counted()
    ensures { LinesAreCounted }
{}

/// Shows that each token but the end takes at least one byte of its source, and that no byte is behind the end.
pub fn tokens_take_bytes()
    ensures { TokensTakeBytes }
{}

/// Shows that the end is read where there are no bytes, again and again.
pub fn nothing_is_the_end()
    ensures { NothingIsTheEnd }
{}

/// Shows that at most 32 bytes are kept of a name or a number.
pub fn runs_are_short()
    ensures { RunsAreShort }
{}
