//! Numbers that are known while a source is compiled are computed as they are in a story, and as integers are.
ghost use Rattle.inf_number_laws.specs.{Integers.NumbersAreIntegers, Whole.TreesKeep, Written.SourcesKeep, Written.UntoldIsSound};
ghost use Rattle.inf_number_laws.specs.Known.{FoldingKeeps, FoldingOneKeeps, OneIsComputed, TwoAreComputed};

/// States that the number by which an operator of known numbers is replaced is the meaning of this operator on a machine,
/// as a value, as a statement and as a condition, and changes nothing. So an operator means what it meant, whether it is
/// replaced or not.
pub fn known_is_computed()
    ensures two { TwoAreComputed }
    ensures one { OneIsComputed }
    ensures kept { FoldingKeeps }
    ensures kept_one { FoldingOneKeeps }
{}

/// States that numbers of 16 bits are added, subtracted, multiplied, divided, negated and compared as integers are, by
/// the definitions by which known numbers are computed and those by which the machine computes.
pub fn numbers_are_integers()
    ensures { NumbersAreIntegers }
{}

/// States that a tree in which numbers take the place of operators of known numbers, from the leaves up, means what the
/// tree of all operators means: as a value, as a statement and as a condition, in each world and each store. So
/// the tree of an expression in which nothing is found wrong means what the operators of its text mean.
pub fn trees_keep_their_meaning()
    ensures trees { TreesKeep }
    ensures sound { UntoldIsSound }
    ensures texts { SourcesKeep }
{}
