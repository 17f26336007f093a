//! Questions about an open statement: where the code goes from it, and which of its cases is open.
ghost use Rattle.std.specs.Prelude.{◌≡◌};
ghost use Rattle.inf_constructs.specs.Constructs.{are_cases, break_of, continue_of, depth_by, is_late_in, kind_behind, left_to_by};
ghost use Rattle.inf_constructs.specs.Constructs.{next_case_in, otherwise};

use crate::constructs::{Case, Construct, Kind};
use inf_opcode::Label;

pub(crate) fn otherwise(construct: &Construct) -> Label
    ensures { result ≡ otherwise construct.now construct.now.kind }
{
    match construct.kind {
        Kind::If => construct.next,
        Kind::Do => construct.top,
        _ => construct.end,
    }
}

pub(crate) fn kind_behind(kind: Kind) -> Kind
    ensures { result ≡ kind_behind kind }
{
    match kind {
        Kind::If => Kind::Else,
        _ => kind,
    }
}

/// Returns whether a kind is that of the cases of a routine itself.
pub(crate) fn are_cases(kind: Kind) -> bool
    ensures { result ≡ are_cases kind }
{
    matches!(kind, Kind::Cases(..))
}

/// Returns the number of statements among `count` open ones, where `outermost` is the kind of the outermost: the cases of a
/// routine itself are none.
pub(crate) fn depth_by(outermost: Option<Kind>, count: usize) -> usize
    ensures { result ≡ depth_by outermost count }
{
    match outermost {
        Some(kind) => {
            if are_cases(kind) {
                count.saturating_sub(1)
            } else {
                count
            }
        }
        None => count,
    }
}

/// Returns whether a case of this kind of statement would follow its default.
pub(crate) fn is_late_in(kind: Kind) -> bool
    ensures { result ≡ is_late_in kind }
{
    match kind {
        Kind::Switch(_, had_default) | Kind::Cases(_, had_default) => had_default,
        _ => false,
    }
}

pub(crate) fn next_case_in(kind: Kind) -> Option<Label>
    ensures { result ≡ next_case_in kind }
{
    match kind {
        Kind::Switch(Case::Values(next), _) | Kind::Cases(Case::Values(next), _) => Some(next),
        _ => None,
    }
}

fn break_of(construct: &Construct) -> Option<Label>
    ensures { result ≡ break_of construct.now construct.now.kind }
{
    match construct.kind {
        Kind::If | Kind::Else => None,
        _ => Some(construct.end),
    }
}

fn continue_of(construct: &Construct) -> Option<Label>
    ensures { result ≡ continue_of construct.now construct.now.kind }
{
    match construct.kind {
        Kind::If | Kind::Else | Kind::Switch(..) | Kind::Cases(..) => None,
        _ => Some(construct.next),
    }
}

/// Returns the label to which `continue` goes from a construct where `on` holds, otherwise that of `break`.
pub(crate) fn left_to(on: bool, construct: &Construct) -> Option<Label>
    ensures { result ≡ left_to_by on construct.now }
{
    if on {
        continue_of(construct)
    } else {
        break_of(construct)
    }
}
