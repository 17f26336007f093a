//! Laws on the definitions of the language, taken together.
ghost use Rattle.inf_settings.specs.Bounds.{Limits};
ghost use Rattle.inf_laws.specs.{Counts.LimitsCountTheStory, Findings.HeadersTellTheFirst, KeptTokens.KeptTokensAreRead};
ghost use Rattle.inf_laws.specs.{KeptTokens.TokensAreHandedOn, KeptTurns.TurnsReadPieces, Parts.PartsArePieces, Parts.PartsEndWithPieces};
ghost use Rattle.inf_laws.specs.{Told.TokensAreTakenOrTold, Told.UnfitTokensAreTold, UnitFaults.ConstantsTellTheLeast};
ghost use Rattle.inf_laws.specs.{UnitFaults.PartsTellTheLeast, UnitLimits.UnitsKeepWithin};
ghost use Rattle.inf_laws.specs.NameEvents.{FewHaveRoom, FirstDeclarationsCount, OperandsUse, UndeclaredAreTold, UnitsDeclare};
ghost use Rattle.inf_laws.specs.Skipping.{DirectivesAreSkipped, PassedTokensDoNothing, RoutinesAreSkipped, SourcesEnd};

use inf_settings::bounds::Bounds;
use inf_tables::{Tables, written_as_counted};

/// Headers of routines tell, of all errors that the rules find in them, the first by token, and of two at one token the one whose
/// message has the lower number.
pub fn first_errors_are_told()
    ensures { (limits : Limits) → HeadersTellTheFirst limits }
{}

/// Shows that the ends of all units of a routine and of constants tell the least of all that is wrong with them, by the order of its
/// token and then by the number of its error.
pub fn least_findings_are_told()
    ensures parts { (limits : Limits) → PartsTellTheLeast limits }
    ensures constants { (limits : Limits) → ConstantsTellTheLeast limits }
{}

/// Errors are told once for each name that is used and never declared, and that the language does not have: at its first use, in
/// the order of these uses. This holds as long as there is room for the names.
pub fn undeclared_names_are_told_once()
    ensures { (limits : Limits) → UndeclaredAreTold limits }
{}

/// Declarations that come first count: a name has the meaning that the language gives it, or else that of its first declaration,
/// whatever else is declared and used, as long as there is room for the names. Headers and constants declare names, and operands
/// use them. There is room where there may be as many names as there are events.
pub fn first_declarations_count()
    ensures count { (limits : Limits) → FirstDeclarationsCount limits }
    ensures declares { (limits : Limits) → UnitsDeclare limits }
    ensures operands { (limits : Limits) → OperandsUse limits }
    ensures room { (limits : Limits) → FewHaveRoom limits }
{}

/// Tokens are passed over up to the end of a bad piece: behind the first semicolon that is handed on, in a routine behind the first
/// semicolon after the next closing bracket, or with the source. A token that is passed over does nothing else.
pub fn bad_pieces_are_skipped()
    ensures alone { (limits : Limits) → PassedTokensDoNothing limits }
    ensures directives { DirectivesAreSkipped }
    ensures routines { RoutinesAreSkipped }
    ensures sources { SourcesEnd }
{}

/// Tokens of a piece that are handed on are each taken as long as they still begin a piece. The first token with which they begin
/// none is told at its place; so is one that does not fit its conditional directive. The unit that a bad token cuts gives nothing.
pub fn bad_tokens_are_told()
    ensures kept { (limits : Limits) → TokensAreTakenOrTold limits }
    ensures unfit { (limits : Limits) → UnfitTokensAreTold limits }
{}

/// Tokens that conditionals hand on decide how pieces are read: those that are kept, and those that do not fit a conditional
/// directive. They are taken to the end of a piece, or up to the bad one, which is the first that does not fit or with which they
/// begin no piece. The turns of a reading read the files that include one another in the same way.
pub fn kept_tokens_are_read()
    ensures handed_on { (limits : Limits) → TokensAreHandedOn limits }
    ensures read { KeptTokensAreRead }
    ensures turns { (limits : Limits) → TurnsReadPieces limits }
{}

/// Parts of a reading, which the steps of a session read, are the pieces of its files: from any place between two pieces on, the
/// turns of one part hand on nothing, as those of a conditional directive with the side that it leaves out do, or the tokens of one
/// piece, whole or bad, or the end of a file. Where a piece or a file ends with a turn, the part ends, too.
pub fn parts_are_pieces()
    ensures pieces { (limits : Limits) → PartsArePieces limits }
    ensures ends { (limits : Limits) → PartsEndWithPieces limits }
{}

/// Shows that behind a source the first limit that was passed, which is told, is the first that the story passes: that of code
/// by the bytes of the story's code, or that of references by the references of all of its areas.
pub fn limits_count_the_story<B: Bounds>(tables: &Tables<B>)
    ensures { LimitsCountTheStory tables.now }
{
    written_as_counted(&tables.world);
}

/// Units that end without a fatal message leave no more labels in a routine, bytes of code and references than their settings say,
/// those of the open routine and of tables with them, unless code is no longer laid though it passed no limit. So do conditional
/// directives, and the end of a source. So the greatest count of labels keeps to its setting.
pub fn units_keep_within_settings()
    ensures { (limits : Limits) → UnitsKeepWithin limits }
{}
