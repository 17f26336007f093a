//! Laws of targets.
ghost use Rattle.inf_settings.specs.Bounds.{Limits};
ghost use Rattle.inf_devices.specs.Files.{Sources};
ghost use Rattle.inf_session.specs.Choices.{Choices};
ghost use Rattle.inf_target_laws.specs.Laws.{StepsKeepTargets, StoriesAreWhole, TargetsStand};

/// Shows that each action of the grammar, each token, each bad token, and the end of a conditional directive keep targets: all that stand
/// behind them, if all stood before.
pub fn steps_keep_targets()
    ensures { (limits : Limits) → StepsKeepTargets limits }
{}

/// Shows that all targets stand in each state of a reading and of the supplied routines behind it, and where the source ends, unless a
/// limit of names or of tables was passed.
pub fn targets_stand()
    ensures { (sources : Sources) (o : Choices) → TargetsStand sources o }
{}

/// Shows that where a reading ends with a story, all names of its source have values, and all targets of these values and of all areas of
/// the story are found: the value of each name, which refers to no name, the place of each part, and each word in the dictionary.
pub fn stories_are_whole()
    ensures { (sources : Sources) (o : Choices) → StoriesAreWhole sources o }
{}
