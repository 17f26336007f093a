//! Laws of the settings of a compilation.
ghost use Rattle.inf_settings.specs.Bounds.{Limits};
ghost use Rattle.inf_devices.specs.Files.{Sources};
ghost use Rattle.inf_session.specs.{Choices.Choices, Standing.used_by};
ghost use Rattle.inf_limit_laws.specs.Laws.{AbbreviationsStay, AmountsKeep, CountsKeepToSettings, StepsKeepCounts};
ghost use Rattle.inf_limit_laws.specs.Reached.{StatesComeBehind};
ghost use Rattle.std.specs.Prelude.{◌≡◌};

use inf_session::session::Session;
use inf_settings::bounds::Bounds;

/// Shows that the counts which are compared with their settings where an expression or a unit has ended, of tokens, of labels and
/// of references, are at most their settings wherever no fatal message was told, in each state of a reading and of the supplied
/// routines behind it.
pub fn counts_keep_to_settings()
    ensures { (sources : Sources) (o : Choices) → CountsKeepToSettings sources o }
{}

/// Returns the counts that `Session::held` returns of `session`, and shows that each is at most its setting, if the session stands
/// for a state to which a reading comes, and no fatal message was told.
pub fn held_keeps_to_settings<B: Bounds>(session: &Session<'_, B>) -> [usize; 15]
    ensures counts { result ≡ used_by session.now }
    ensures within { AmountsKeep B.most session.now result }
{
    session.held()
}

/// Shows that each action of the grammar, each token, and each bad token keep these counts, as long as no fatal message is told, in a
/// compilation in which they were within their settings. Where a unit or a conditional directive ends, references are within their
/// setting, whatever came before.
pub fn steps_keep_counts()
    ensures { (limits : Limits) → StepsKeepCounts limits }
{}

/// Shows that the states to which turns, the parts of a reading, and supplied routines lead are among those of which
/// `counts_keep_to_settings` speaks.
pub fn states_come_behind()
    ensures { (sources : Sources) (o : Choices) → StatesComeBehind sources o }
{}

/// Shows that nothing changes the abbreviations of a compilation but the end of a text of `Abbreviate`, as long as no fatal message is told.
pub fn abbreviations_stay()
    ensures { (limits : Limits) → AbbreviationsStay limits }
{}
