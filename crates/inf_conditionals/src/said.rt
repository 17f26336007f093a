//! The messages about a condition.
ghost use Rattle.std.specs.Prelude.{◌≡◌, OnOk, Some, option_map, slice_get};
ghost use Rattle.inf_unit.specs.{AtHand.unit as unit_of, Diagnostics.blamed, Spelled.spelled};
ghost use Rattle.inf_conditionals.specs.{Meant.said_of, Said.blame_at, Said.too_much_by, Said.with_right, Said.with_said};

use crate::condition::Extent;
use crate::operands::add_actions;
use inf_expressions::Finding;
use inf_lexer::Stack;
use inf_output::Output;
use inf_report::messages::{Message, Told};
use inf_scanner::{Mark, Place};
use inf_settings::bounds::Bounds;
use inf_settings::setting::Setting;
use inf_unit::kinds::is_mark;
use inf_unit::messages::{Diagnostic, Diagnostics, location, message_of};
use inf_unit::tokens::SourceToken;
use inf_unit::unit::Unit;
use std::alloc::AllocError;

/// The most brackets that may stand in one another.
const MOST_NESTED: u32 = 64;

/// The judgement of a condition, and its message.
#[derive(Drop)]
pub enum Said {
    /// The condition with this unit is right.
    Right(Unit),
    /// The finding about the condition with this unit. Its directive begins at the place.
    Wrong(Place, Unit, Finding),
    /// The condition has too many tokens, of which the first is at this place.
    Long(Place),
    /// A bracket at this place is too deep in others.
    Deep(Place),
}

impl Said {
    /// Reports the message, if there is one.
    pub(crate) fn tell(&self, files: &Stack, report: &mut Diagnostics) -> Result<(), AllocError>
        ensures { OnOk result (report.new ≡ with_said files.now.names (Some (said_of self.now)) report.old) }
    {
        match self {
            Said::Right(_) => Ok(()),
            Said::Wrong(directive, unit, finding) => {
                let blame = blame_of(*directive, unit, *finding);
                report.fault(files, *directive, Some(blame))
            }
            Said::Long(place) => report.fatal(
                location(files, *place),
                &Message::Exceeded(Setting::ExpressionNodes),
            ),
            Said::Deep(place) => report.fatal(location(files, *place), &Message::DeepNesting),
        }
    }

    /// Adds the actions of a condition that is right, which appear.
    pub(crate) fn add<B: Bounds>(&self, out: &mut Output<B>) -> Result<(), AllocError>
        ensures { OnOk result (out.new ≡ with_right B.most (Some (said_of self.now)) out.old) }
    {
        match self {
            Said::Right(unit) => add_actions(&unit.tokens, unit.gathering.leaves(), out),
            Said::Wrong(..) | Said::Long(_) | Said::Deep(_) => Ok(()),
        }
    }

    /// Returns the unit, if there is one, whose memory another one may have.
    pub(crate) fn into_unit(self) -> Option<Unit> {
        match self {
            Said::Right(unit) | Said::Wrong(_, unit, _) => Some(unit),
            Said::Long(_) | Said::Deep(_) => None,
        }
    }
}

/// Returns the message behind `token`, the last one of a condition of `extent`, if there is one.
pub(crate) fn too_much(token: &SourceToken<'_>, extent: Extent) -> Option<Said>
    ensures { option_map said_of result ≡ too_much_by extent.long (spelled token.now) extent.depth }
{
    if let Some(place) = extent.long {
        return Some(Said::Long(place));
    }
    if is_mark(token.kind, Mark::OpenParenthesis) && extent.depth > MOST_NESTED {
        return Some(Said::Deep(token.place));
    }
    None
}

/// Returns the message and the place by which `finding`, about the condition with `unit`, is reported. Its directive begins at `directive`.
fn blame_of<'t>(directive: Place, unit: &'t Unit, finding: Finding) -> Diagnostic<'t>
    ensures { blamed result ≡ blame_at directive finding.error (slice_get (unit_of unit.now).tokens finding.order) }
{
    match unit.tokens.get(finding.order as usize) {
        Some(token) => Diagnostic {
            place: token.place,
            message: message_of(finding.error, token.told(), token.bytes),
        },
        None => Diagnostic {
            place: directive,
            message: message_of(finding.error, Told::End, b""),
        },
    }
}
