//! Laws of the labels of an expression: they are its own, and its code computes its meaning in every program that looks
//! them up.
ghost use Rattle.inf_label_laws.specs.{Examples.ExamplesAreEvaluated, Examples.WaitingValuesAreLost, Labels.LabelsAreOwn};
ghost use Rattle.inf_label_laws.specs.Labels.{ProgramsCompute, ProgramsPush};

/// States that the items of an expression, of whatever kind, mark no label twice, and none that was handed out before
/// or is handed out behind them.
pub fn labels_are_own()
    ensures { LabelsAreOwn }
{}

/// States that the items of an expression compute its meaning anywhere in a program that marks no label twice, with the
/// labels looked up in the program.
pub fn programs_compute()
    ensures value { ProgramsCompute }
    ensures pushed { ProgramsPush }
{}

/// States that four expressions, laid and run, leave on the stack the numbers that an interpreter prints of them. The
/// laws do not cover a fifth one, whose code does not compute its meaning.
pub fn examples_are_evaluated()
    ensures printed { ExamplesAreEvaluated }
    ensures lost { WaitingValuesAreLost }
{}
