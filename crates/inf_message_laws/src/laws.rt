//! Laws of the report: a step of a compilation adds messages, and does not depend on those before.
ghost use Rattle.inf_settings.specs.Bounds.{Limits};
ghost use Rattle.inf_message_laws.specs.Growing.{MessagesGrow, ReportsGoOn};

/// Shows that a token, an action of the grammar, and a bad token each have the same effect whatever was reported before, and
/// that their messages stand behind that; and so have all happenings of a text, one after the other, where the conditional
/// directives between them only add messages.
pub fn messages_grow()
    ensures { (limits : Limits) → MessagesGrow limits }
{}

/// Shows that a token, an action of the grammar, and a bad token each only add to the report: the lines before are a front of
/// those behind, a fatal message stays, and there are no fewer errors.
pub fn reports_go_on()
    ensures { (limits : Limits) → ReportsGoOn limits }
{}
