//! Words and lines of verbs are those that a source describes.
ghost use Rattle.inf_verb_laws.specs.Laws.{ActionsAgree, ExtendAgrees, FlagsAgree, LinesAreRead, RoutinesAgree};
ghost use Rattle.inf_verb_laws.specs.Saying.{LinesAgree, WordsAgree};
ghost use Rattle.inf_verb_laws.specs.Rows.{LinesAreShown, WordsAreShown};

/// States that the flags of a word are the bits of all its uses together.
pub fn flags_agree()
    ensures { FlagsAgree }
{}

/// States that actions and routines that parse, as they are added one by one, stand in the order in which they first
/// appear, each once.
pub fn first_appearances_count()
    ensures actions { ActionsAgree }
    ensures routines { RoutinesAgree }
{}

/// States that the lines of an `Extend`, as they are added one by one, stand in front of those of the verb, behind them or
/// in their place.
pub fn extended_lines_agree()
    ensures { ExtendAgrees }
{}

/// States that a reader, which is given the bytes of some lines, whatever stands behind them, finds of each line the
/// action, whether its nouns change places, and the type and the word of each token.
pub fn lines_are_read()
    ensures { LinesAreRead }
{}

/// States that behind all that a source says of verbs, where no word is one of two, each verb has the lines of the
/// description, and each word its verb.
pub fn verbs_agree()
    ensures lines { LinesAgree }
    ensures words { WordsAgree }
{}

/// States of a small source with a verb that is extended that its grammar has the lines, and its words have the flags and
/// the verb, of the description.
pub fn rows_are_evaluated()
    ensures lines { LinesAreShown }
    ensures words { WordsAreShown }
{}
