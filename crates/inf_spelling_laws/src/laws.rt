//! A source is gaps and tokens in one way.
ghost use Rattle.inf_spelling_laws.specs.Spelling.{PartsAreSpelled, SourcesPartOnce};

/// States that each source has gaps and tokens, as the description has them, in one way, and that they are all its bytes.
pub fn sources_part_once()
    ensures { SourcesPartOnce }
{}

/// States that a gap with a token behind it, as the description has them, is what the scanner reads of these bytes, with its
/// kind, its bytes and its lines, and that the scanner reads nothing else.
pub fn parts_are_spelled()
    ensures { PartsAreSpelled }
{}
