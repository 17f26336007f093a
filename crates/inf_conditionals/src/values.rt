//! The values of operators in the condition of a conditional directive.
ghost use Rattle.std.specs.Prelude.{◌≡◌, IfOk, Some, false};
ghost use Rattle.inf_conditionals.specs.Values.{any_of, holds_by, is_then, number_by, number_unless, single_value, tested, two_value};
ghost use Rattle.inf_expressions.specs.Folding.{or_known, sensed};

use crate::condition::number_of;
use inf_expressions::{Binary, Finding, Forest, Operand, Symbol, Test, Unary, Wanted, judge_whole};
use std::alloc::{AllocError, Global};

/// The first operand of an expression of two at most, and the second one.
const LEFT: Symbol = Symbol::Leaf {
    first: 0,
    token: 0,
    leaf: 0,
};

const RIGHT: Symbol = Symbol::Leaf {
    first: 0,
    token: 0,
    leaf: 1,
};

/// Returns whether `op` makes a list of two trees.
pub(crate) fn is_then(op: Binary) -> bool
    ensures { result ≡ is_then op }
{
    matches!(op, Binary::Then)
}

/// Returns `number`, unless there is a finding.
fn number_unless(finding: Option<Finding>, number: Option<u16>) -> Option<u16>
    ensures { result ≡ number_unless finding number }
{
    match finding {
        None => number,
        Some(_) => None,
    }
}

/// Returns whether one of two truths holds, where both are known.
fn or_known(a: Option<bool>, b: Option<bool>) -> Option<bool>
    ensures { result ≡ or_known a b }
{
    match (a, b) {
        (Some(a), Some(b)) => Some(a || b),
        _ => None,
    }
}

/// Returns the number of a truth that is known, or of its contrary where `sense` is false.
fn sensed(sense: bool, found: Option<bool>) -> Option<u16>
    ensures { result ≡ sensed sense found }
{
    match found {
        Some(found) => Some(u16::from(found == sense)),
        None => None,
    }
}

/// Returns the number of the expression that `symbols` are with `operands`, where it is known and nothing is wrong. Its trees are in the
/// memory of `spare`.
fn number_by(
    alloc: Global,
    operands: &[Operand],
    symbols: &[Symbol],
    spare: &mut Option<Forest>,
) -> Result<Option<u16>, AllocError>
    ensures { IfOk result (λ number. number ≡ number_by operands.now symbols.now) }
{
    let (finding, forest) = judge_whole(alloc, Wanted::Value, 0, symbols, operands, spare.take())?;
    let number = number_unless(finding, number_of(&forest));
    *spare = Some(forest);
    Ok(number)
}

/// Returns the value of `op` with the value `a`.
pub(crate) fn single_value(
    alloc: Global,
    op: Unary,
    a: Option<u16>,
    spare: &mut Option<Forest>,
) -> Result<Option<u16>, AllocError>
    ensures { IfOk result (λ value. value ≡ single_value op a) }
{
    match a {
        Some(a) => number_by(
            alloc,
            &[Operand::Known(a)],
            &[LEFT, Symbol::Suffix(op)],
            spare,
        ),
        None => Ok(None),
    }
}

/// Returns the value of `op` with the values `a` and `b`.
pub(crate) fn two_value(
    alloc: Global,
    op: Binary,
    a: Option<u16>,
    b: Option<u16>,
    spare: &mut Option<Forest>,
) -> Result<Option<u16>, AllocError>
    ensures { IfOk result (λ value. value ≡ two_value op a b) }
{
    match (a, b) {
        (Some(a), Some(b)) => number_by(
            alloc,
            &[Operand::Known(a), Operand::Known(b)],
            &[LEFT, RIGHT, Symbol::Two(op)],
            spare,
        ),
        _ => Ok(None),
    }
}

/// Returns whether `test` holds of `a` and the value `b`, where this is known.
fn holds_by(
    alloc: Global,
    test: Test,
    a: u16,
    b: Option<u16>,
    spare: &mut Option<Forest>,
) -> Result<Option<bool>, AllocError>
    ensures { IfOk result (λ found. found ≡ holds_by test a b) }
{
    match two_value(alloc, Binary::Test(test), Some(a), b, spare)? {
        Some(number) => Ok(Some(number != 0)),
        None => Ok(None),
    }
}

/// Returns whether `test` holds of `a` and any of `values`, where this is known.
fn any_of(
    alloc: Global,
    test: Test,
    a: u16,
    values: &[Option<u16>],
    spare: &mut Option<Forest>,
) -> Result<Option<bool>, AllocError>
    ensures { IfOk result (λ found. found ≡ any_of (Some false) test a values.now) }
{
    let mut found = Some(false);
    for value in values {
        found = or_known(found, holds_by(alloc, test, a, *value, spare)?);
    }
    Ok(found)
}

/// Returns the value of `test` of `a` against `values`, which has to hold or to fail, as `sense` says.
pub(crate) fn tested(
    alloc: Global,
    sense: bool,
    test: Test,
    a: Option<u16>,
    values: &[Option<u16>],
    spare: &mut Option<Forest>,
) -> Result<Option<u16>, AllocError>
    ensures { IfOk result (λ value. value ≡ tested sense test a values.now) }
{
    match a {
        Some(a) => Ok(sensed(sense, any_of(alloc, test, a, values, spare)?)),
        None => Ok(None),
    }
}
