//! The errors in an expression, operator by operator. Each function returns the least of `found`, the finding so far, and of the
//! errors that it finds itself.
ghost use Rattle.std.specs.Prelude.{◌≡◌, Option};
ghost use Rattle.inf_expressions.specs.Judging.{call_finding, case_finding, constant_finding, division_finding, is_known, is_zero};
ghost use Rattle.inf_expressions.specs.Judging.{lead_finding, leaf_finding, most_arguments, number_finding, operand_finding, root_finding};
ghost use Rattle.inf_expressions.specs.Judging.{target_finding, two_finding, unary_finding, value_finding, values_finding, wanted_finding};

use crate::findings::{Finding, least};
use crate::kinds::{Kind, Seen};
use crate::operators::{Binary, Function, Operand, Operation, Unary};
use crate::origins::Lead;
use crate::units::Wanted;

/// Finds a leaf that is wrong by itself.
pub(crate) fn leaf_finding(operand: Operand, token: u32, found: Option<Finding>) -> Option<Finding>
    ensures { result ≡ leaf_finding operand token found }
{
    match operand {
        Operand::Unknown => least(found, Finding::wrong_kind(token)),
        Operand::Known(_) | Operand::Variable(_) | Operand::Later(_) | Operand::Function(_) =>
            found,
    }
}

/// Finds a function of the system where a value is needed.
fn value_finding(seen: Seen, found: Option<Finding>) -> Option<Finding>
    ensures { result ≡ value_finding seen found }
{
    match seen.kind {
        Kind::Function(_) => least(found, Finding::wrong_kind(seen.origin.token)),
        _ => found,
    }
}

/// Finds a target that cannot be assigned or stepped: only variables, entries of arrays and properties can.
fn target_finding(seen: Seen, found: Option<Finding>) -> Option<Finding>
    ensures { result ≡ target_finding seen found }
{
    match seen.kind {
        Kind::Variable | Kind::Entry | Kind::Property => found,
        Kind::Number(_) | Kind::Constant | Kind::Function(_) | Kind::Range | Kind::Code => {
            least(found, Finding::wrong_kind(seen.origin.first))
        }
    }
}

/// Finds an expression that is no constant where one is needed.
fn constant_finding(unit: u32, kind: Kind, found: Option<Finding>) -> Option<Finding>
    ensures { result ≡ constant_finding unit kind found }
{
    match kind {
        Kind::Number(_) | Kind::Constant | Kind::Function(_) => found,
        Kind::Variable | Kind::Entry | Kind::Property | Kind::Range | Kind::Code => {
            least(found, Finding::no_constant(unit))
        }
    }
}

fn is_known(kind: Kind) -> bool
    ensures { result ≡ is_known kind }
{
    match kind {
        Kind::Number(_) | Kind::Function(_) => true,
        _ => false,
    }
}

fn is_zero(kind: Kind) -> bool
    ensures { result ≡ is_zero kind }
{
    match kind {
        Kind::Number(number) => number == 0,
        Kind::Function(_) => true,
        _ => false,
    }
}

/// Finds a known number divided by 0.
fn division_finding(unit: u32, a: Kind, b: Kind, found: Option<Finding>) -> Option<Finding>
    ensures { result ≡ division_finding unit a b found }
{
    if is_known(a) && is_zero(b) {
        least(found, Finding::out_of_range(unit))
    } else {
        found
    }
}

/// Finds the errors of an operator of one expression.
pub(crate) fn unary_finding(op: Unary, a: Seen, found: Option<Finding>) -> Option<Finding>
    ensures { result ≡ unary_finding op a found }
{
    let found = value_finding(a, found);
    match op {
        Unary::Before(_) | Unary::Behind(_) => target_finding(a, found),
        Unary::Negate
        | Unary::Not
        | Unary::Single(_)
        | Unary::Relative(_)
        | Unary::Children
        | Unary::Call
        | Unary::Indirect => found,
    }
}

/// Finds functions of the system among the two parts of an operator, which are to be values.
fn values_finding(a: Seen, b: Seen, found: Option<Finding>) -> Option<Finding>
    ensures { result ≡ values_finding a b found }
{
    value_finding(b, value_finding(a, found))
}

/// Finds the errors of an operator of two expressions, in a unit that begins at the order `unit`.
pub(crate) fn two_finding(
    op: Binary,
    unit: u32,
    a: Seen,
    b: Seen,
    found: Option<Finding>,
) -> Option<Finding>
    ensures { result ≡ two_finding op unit a b found }
{
    let found = values_finding(a, b, found);
    match op {
        Binary::Assign => target_finding(a, found),
        Binary::Operation(Operation::Divide | Operation::Remainder) => division_finding(
            unit, a.kind, b.kind, found,
        ),
        Binary::To => constant_finding(unit, b.kind, constant_finding(unit, a.kind, found)),
        _ => found,
    }
}

/// Returns the most arguments that a call may have: one where it calls a function of the system, but eight behind `indirect`, the
/// first of which is the routine that it calls; five of a message, which come behind an object and a property; else seven.
fn most_arguments(callee: Kind) -> u32
    ensures { result ≡ most_arguments callee }
{
    match callee {
        Kind::Function(Function::Indirect) => 8,
        Kind::Function(_) => 1,
        Kind::Property => 5,
        _ => 7,
    }
}

/// Finds the errors of a call with a list of `given` arguments.
pub(crate) fn call_finding(
    unit: u32,
    given: u32,
    callee: Seen,
    list: Seen,
    found: Option<Finding>,
) -> Option<Finding>
    ensures { result ≡ call_finding unit given callee list found }
{
    let found = value_finding(list, found);
    if most_arguments(callee.kind) < given {
        least(found, Finding::too_many_arguments(unit))
    } else {
        found
    }
}

/// Finds an expression that is no number known in its place, where one is needed.
fn number_finding(unit: u32, kind: Kind, found: Option<Finding>) -> Option<Finding>
    ensures { result ≡ number_finding unit kind found }
{
    if is_known(kind) {
        found
    } else {
        least(found, Finding::no_constant(unit))
    }
}

/// Finds an operand of an instruction that is neither a constant nor a variable.
fn operand_finding(unit: u32, kind: Kind, found: Option<Finding>) -> Option<Finding>
    ensures { result ≡ operand_finding unit kind found }
{
    match kind {
        Kind::Variable => found,
        _ => constant_finding(unit, kind, found),
    }
}

/// Finds a value of a case that is neither a constant nor a range.
fn case_finding(unit: u32, kind: Kind, found: Option<Finding>) -> Option<Finding>
    ensures { result ≡ case_finding unit kind found }
{
    match kind {
        Kind::Range => found,
        _ => constant_finding(unit, kind, found),
    }
}

/// Finds a loop over objects that does not begin with its variable.
fn lead_finding(lead: Lead, found: Option<Finding>) -> Option<Finding>
    ensures { result ≡ lead_finding lead found }
{
    match lead.variable {
        Some(_) => found,
        None => least(found, Finding::wrong_kind(lead.first)),
    }
}

fn wanted_finding(wanted: Wanted, unit: u32, seen: Seen, found: Option<Finding>) -> Option<Finding>
    ensures { result ≡ wanted_finding wanted unit seen found }
{
    match wanted {
        Wanted::Value => found,
        Wanted::Constant => constant_finding(unit, seen.kind, found),
        Wanted::Number => number_finding(unit, seen.kind, found),
        Wanted::Operand => operand_finding(unit, seen.kind, found),
        Wanted::Case => case_finding(unit, seen.kind, found),
        Wanted::Loop => lead_finding(seen.origin.lead, found),
    }
}

/// Finds the errors of a whole expression, by the kind that a unit wants.
pub(crate) fn root_finding(
    wanted: Wanted,
    unit: u32,
    seen: Seen,
    found: Option<Finding>,
) -> Option<Finding>
    ensures { result ≡ root_finding wanted unit seen found }
{
    wanted_finding(wanted, unit, seen, value_finding(seen, found))
}
