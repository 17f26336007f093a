//! Computing with known numbers (Designer's Manual, fourth edition, section 1.4; Z-Machine Standard 1.1, section 2.2).
ghost use Rattle.std.specs.Prelude.{◌≡◌};
ghost use Rattle.inf_expressions.specs.Numbers.{computed, computed_single, magnitude, negated, quotient, remainder, holds, shifted, truth};

use crate::operators::{Operation, Single, Test, Unary};

/// Returns the number of 16 bits that is the negative of a number.
fn negated(number: u16) -> u16
    ensures { result ≡ negated number }
{
    ((0x10000 - number as u32) % 0x10000) as u16
}

/// Returns the magnitude of a number that is read with a sign.
fn magnitude(number: u16) -> u16
    ensures { result ≡ magnitude number }
{
    if number < 0x8000 {
        number
    } else {
        negated(number)
    }
}

/// Returns the quotient of two numbers with signs, rounded towards 0; a number divided by 0 gives 0.
fn quotient(a: u16, b: u16) -> u16
    ensures { result ≡ quotient a b }
{
    if b == 0 {
        return 0;
    }
    let size = magnitude(a) / magnitude(b);
    if (a < 0x8000) == (b < 0x8000) {
        size
    } else {
        negated(size)
    }
}

/// Returns the remainder of two numbers with signs, which has the sign of `a`; where `b` is 0 it is 0.
fn remainder(a: u16, b: u16) -> u16
    ensures { result ≡ remainder a b }
{
    if b == 0 {
        return 0;
    }
    let size = magnitude(a) % magnitude(b);
    if a < 0x8000 { size } else { negated(size) }
}

/// Returns the number that an operator gives of two known numbers, if it is one that is computed.
pub(crate) fn computed(operation: Operation, a: u16, b: u16) -> Option<u16>
    ensures { result ≡ computed operation a b }
{
    match operation {
        Operation::Add => Some(((a as u32 + b as u32) % 0x10000) as u16),
        Operation::Subtract => Some(((a as u32 + negated(b) as u32) % 0x10000) as u16),
        Operation::Multiply => Some(((a as u32 * b as u32) % 0x10000) as u16),
        Operation::Divide => Some(quotient(a, b)),
        Operation::Remainder => Some(remainder(a, b)),
        Operation::BitAnd => Some(a & b),
        Operation::BitOr => Some(a | b),
        Operation::Byte | Operation::Word => None,
    }
}

/// Returns the number that an operator gives of a known number, if it is one that is computed.
pub(crate) fn computed_single(unary: Unary, a: u16) -> Option<u16>
    ensures { result ≡ computed_single unary a }
{
    match unary {
        Unary::Negate => Some(negated(a)),
        Unary::Not => Some(truth(a == 0)),
        Unary::Single(Single::Complement) => Some(0xFFFF - a),
        Unary::Single(Single::Parent | Single::Random)
        | Unary::Before(_)
        | Unary::Behind(_)
        | Unary::Relative(_)
        | Unary::Children
        | Unary::Call
        | Unary::Indirect => None,
    }
}

/// Returns the number of a truth: 1 or 0.
pub(crate) fn truth(is_true: bool) -> u16
    ensures { result ≡ truth is_true }
{
    if is_true { 1 } else { 0 }
}

/// Returns the distance of a number, read with a sign, from the least one.
fn shifted(number: u16) -> u16
    ensures { result ≡ shifted number }
{
    ((number as u32 + 0x8000) % 0x10000) as u16
}

/// Returns whether a test holds of two known numbers, if it is one that is computed.
pub(crate) fn holds(test: Test, a: u16, b: u16) -> Option<bool>
    ensures { result ≡ holds test a b }
{
    match test {
        Test::Equal => Some(a == b),
        Test::Less => Some(shifted(a) < shifted(b)),
        Test::Greater => Some(shifted(b) < shifted(a)),
        Test::AtMost => Some(!(shifted(b) < shifted(a))),
        Test::AtLeast => Some(!(shifted(a) < shifted(b))),
        Test::Has | Test::In | Test::OfClass | Test::Provides => None,
    }
}
