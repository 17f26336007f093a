//! Laws of the words that a source uses.
ghost use Rattle.inf_settings.specs.Bounds.{Limits};
ghost use Rattle.inf_word_laws.specs.Standing.{NamesAreFound, OperandsNamed, OperandsStand};
ghost use Rattle.inf_word_laws.specs.Standing.{StandingAreThere, StepsKeepWords, UsedWordsStand};

/// Shows that a word stands once it is used, and that each word that stands is one of the dictionary where no limit is told.
pub fn used_words_stand()
    ensures used { (limits : Limits) → UsedWordsStand limits }
    ensures there { (limits : Limits) → StandingAreThere limits }
{}

/// Shows that each step by which code and tables grow keeps the words that stand.
pub fn steps_keep_words()
    ensures { (limits : Limits) → StepsKeepWords limits }
{}

/// Shows that all words for which the operands of a unit stand, once its names and words are used, stand in the dictionary.
pub fn operands_stand_for_words()
    ensures { (limits : Limits) → OperandsStand limits }
{}

/// Shows that all names for which the operands of a unit stand by their numbers, once they are used, are among the names of the source.
pub fn operands_stand_for_names()
    ensures { (limits : Limits) → OperandsNamed limits }
{}

/// Shows that the value of each name of a source is found, where all of them have values, and that it refers to no name.
pub fn names_are_found()
    ensures { NamesAreFound }
{}
