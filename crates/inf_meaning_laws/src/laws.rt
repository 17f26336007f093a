//! The code of an expression computes the meaning of the expression in the source.
ghost use Rattle.inf_meaning_laws.specs.Laws.{BranchesAreTaken, EffectsAreDone, ValuesAreComputed};

/// States that the items that are laid for an expression do what it means (`sense`), on a machine that runs them by the
/// Z-Machine Standard 1.1: with its value, it comes to the variable or the stack that it is laid for; as a statement,
/// the store is changed as the expression says; and as a branch, control goes to the label where the truth is the one
/// that is asked for, and to the end of the items where it is not.
pub fn expressions_are_computed()
    ensures value { ValuesAreComputed }
    ensures alone { EffectsAreDone }
    ensures branch { BranchesAreTaken }
{}
