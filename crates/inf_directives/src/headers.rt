//! The directives `Release` and `Serial`.
ghost use Rattle.std.specs.Prelude.{OnOk, map, ◌≡◌};
ghost use Rattle.std.specs.List.{list_all};
ghost use Rattle.inf_expressions.specs.Forests.{trees_in as rooted_in};
ghost use Rattle.inf_constructs.specs.Roots.{tree_in};
ghost use Rattle.inf_compilation.specs.{Context.handed, Works.work};
ghost use Rattle.inf_directives.specs.Headers.{is_digit, known_number, release, release_ended, release_finding, release_told};
ghost use Rattle.inf_directives.specs.Headers.{release_with, serial, serial_by, serial_in};

use inf_area::Value;
use inf_compilation::compilation::Compilation;
use inf_compilation::context::Context;
use inf_compilation::findings::Findings;
use inf_expressions::{Finding, Forest, constant as constant_in};
use inf_lexer::Place;
use inf_named_values::values::add_leaf;
use inf_settings::bounds::Bounds;
use std::alloc::AllocError;

/// The number of digits of a serial number.
const SERIAL_DIGITS: usize = 6;

// Functions for releases

fn known_number(forest: &Forest) -> Option<u16>
    ensures { result ≡ known_number (map tree_in (rooted_in forest.now)) }
{
    let root = forest.roots.first()?;
    match constant_in(&forest.nodes, root.place)? {
        Value::Known(number) => Some(number),
        Value::Later(_) => None,
    }
}

fn release_finding(number: Option<u16>, found: Option<Finding>) -> Option<Finding>
    ensures { result ≡ release_finding number found }
{
    match (number, found) {
        (None, None) => Some(Finding::no_constant(0)),
        _ => found,
    }
}

/// Has the story be of release `number`, unless `finding` is an error.
fn tell_release<B: Bounds>(
    compilation: &mut Compilation<B>,
    context: &Context<'_>,
    number: Option<u16>,
    finding: Option<Finding>,
) -> Result<(), AllocError>
    ensures { OnOk result (work compilation.new ≡ release_told B.most (handed context.now) number finding (work compilation.old)) }
{
    if finding.is_some() {
        return Ok(());
    }
    add_leaf(compilation, context)?;
    compilation.told.release = number.unwrap_or(0);
    Ok(())
}

/// Ends a `Release`, which begins at `first`, by the `number` of its expression and the `finding` about it.
fn end_release<B: Bounds>(
    compilation: &mut Compilation<B>,
    context: &Context<'_>,
    first: Place,
    number: Option<u16>,
    finding: Option<Finding>,
) -> Result<(), AllocError>
    ensures { OnOk result (work compilation.new ≡ release_ended B.most (handed context.now) first number finding (work compilation.old)) }
{
    tell_release(compilation, context, number, finding)?;
    compilation.end_unit(context, first, true, &Findings::alone(finding))
}

/// Ends a `Release`, which begins at `first`, where `found` was found of its expression. That its `number` is not known is an error, too.
fn release_with<B: Bounds>(
    compilation: &mut Compilation<B>,
    context: &Context<'_>,
    first: Place,
    number: Option<u16>,
    found: Option<Finding>,
) -> Result<(), AllocError>
    ensures { OnOk result (work compilation.new ≡ release_with B.most (handed context.now) first number found (work compilation.old)) }
{
    let finding = release_finding(number, found);
    end_release(compilation, context, first, number, finding)
}

/// Has the story the release that the unit's expression is: the latest holds. Its directive begins at the place `first`.
///
/// An expression that is wrong, or whose number is not known, is an error, and changes nothing.
pub fn release<B: Bounds>(
    compilation: &mut Compilation<B>,
    context: &Context<'_>,
    first: Place,
) -> Result<(), AllocError>
    ensures { OnOk result (work compilation.new ≡ release B.most (handed context.now) first (work compilation.old)) }
{
    let looked = compilation.look_constant()?;
    let number = known_number(&looked.forest);
    let found = looked.finding;
    compilation.keep_forest(looked.forest);
    release_with(compilation, context, first, number, found)
}

// Functions for serial numbers

fn is_digit(byte: u8) -> bool
    ensures { result ≡ is_digit byte }
{
    byte >= b'0' && byte <= b'9'
}

/// Tells whether all `bytes` are digits.
fn are_digits(bytes: &[u8]) -> bool
    ensures { result ≡ list_all is_digit bytes.now }
{
    bytes.iter().all(|byte| is_digit(*byte))
}

/// Returns `bytes`, those of a text, as a serial number where they are six digits.
fn serial_in(bytes: &[u8]) -> Option<[u8; 6]>
    ensures { result ≡ serial_in bytes.now }
{
    if bytes.len() != SERIAL_DIGITS || !are_digits(bytes) {
        return None;
    }
    let mut digits = [0; 6];
    digits.copy_from_slice(bytes);
    Some(digits)
}

/// Ends a `Serial`, which begins at `first`, with the serial number `digits`, or an error where there is none.
fn end_serial<B: Bounds>(
    compilation: &mut Compilation<B>,
    context: &Context<'_>,
    first: Place,
    digits: Option<[u8; 6]>,
) -> Result<(), AllocError>
    ensures { OnOk result (work compilation.new ≡ serial_by B.most (handed context.now) first digits (work compilation.old)) }
{
    let Some(digits) = digits else {
        let found = Findings::alone(Some(Finding::out_of_range(0)));
        return compilation.end_unit(context, first, true, &found);
    };
    compilation.told.serial = Some(digits);
    compilation.end_unit(context, first, true, &Findings::none())
}

/// Has the story the serial number that the unit's text is, by its bytes in the source: the latest holds. Its directive begins at the place
/// `first`.
///
/// A text of anything but six digits is an error, and changes nothing.
pub fn serial<B: Bounds>(
    compilation: &mut Compilation<B>,
    context: &Context<'_>,
    first: Place,
) -> Result<(), AllocError>
    ensures { OnOk result (work compilation.new ≡ serial B.most (handed context.now) first (work compilation.old)) }
{
    let digits = serial_in(compilation.unit.tokens.quoted());
    end_serial(compilation, context, first, digits)
}
