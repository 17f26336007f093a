//! Laws that follow from the definitions together.
ghost use Rattle.inf_compile.specs.Examples.{ConditionalsChoose, ConditionsChoose, EmptySource, FilesAreIncluded, HelloIsAStory};
ghost use Rattle.inf_compile.specs.Examples.{NamesAreUndeclared, NoSource, SixteenAreOpen, TextIsMissing};
ghost use Rattle.inf_compile.specs.OutcomeLaws.{OutcomesAreUnique, OutcomesExist};

/// Shows that there is one outcome for equal sources, choices, serial number and name.
pub fn outcomes_are_unique()
    ensures { OutcomesAreUnique }
{}

/// Shows that there is an outcome for all sources, choices, serial numbers and names: reading ends.
pub fn sources_have_outcomes()
    ensures { OutcomesExist }
{}

/// Shows that some sources have the outcomes that these examples state.
pub fn sources_have_these_outcomes()
    ensures no_source { NoSource }
    ensures empty_source { EmptySource }
    ensures text_is_missing { TextIsMissing }
    ensures names_are_undeclared { NamesAreUndeclared }
    ensures files_are_included { FilesAreIncluded }
    ensures conditionals_choose { ConditionalsChoose × ConditionsChoose }
    ensures sixteen_are_open { SixteenAreOpen }
    ensures hello_is_a_story { HelloIsAStory }
{}
