//! Laws that follow from the definitions together.
ghost use Rattle.inf_reader.specs.Pieces.{FaultyTokensFitNothing, FrontsBegin, PiecesBegin};

/// Shows that each piece begins one, and so does each front of tokens that begin one; and that a token that is faulty
/// by itself fits nowhere.
pub fn pieces_begin()
    ensures pieces_begin { PiecesBegin }
    ensures fronts_begin { FrontsBegin }
    ensures faulty_tokens_fit_nothing { FaultyTokensFitNothing }
{}
