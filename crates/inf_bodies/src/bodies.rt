//! The entries in the bodies of objects and classes: classes, attributes and properties.
ghost use Rattle.inf_compilation.specs.{Actions.body_ended, Actions.world_ended, Context.handed, Works.work};
ghost use Rattle.std.specs.Prelude.{IfOk, OnOk, option_map, ◌≡◌};
ghost use Rattle.inf_names.specs.Spellings.{as_name};
ghost use Rattle.inf_bodies.specs.Bodies.{attribute_finding, attribute_of, attribute_read, attribute_set, attribute_set_some};
ghost use Rattle.inf_bodies.specs.Bodies.{class_finding, class_read, further, further_added, further_finding, further_found};
ghost use Rattle.inf_bodies.specs.Bodies.{further_placed, given, given_finding, given_with, individual_declared, individual_given};
ghost use Rattle.inf_bodies.specs.Bodies.{individual_named, is_given, is_words, last_at, number_finding, place_finding, placed};
ghost use Rattle.inf_bodies.specs.Bodies.{placed_finding, property_finding, property_given, property_gives, property_in, property_lost};
ghost use Rattle.inf_bodies.specs.Bodies.{property_of, property_read};

use crate::effects::{join_some, setting_of};
use crate::objects::{class_of, found_at, name_at, refused_finding, tell_entry};
use inf_area::Value;
use inf_compilation::compilation::Compilation;
use inf_compilation::context::Context;
use inf_expressions::{Finding, least_of_both};
use inf_lexer::Place;
use inf_named_values::declarations::declare;
use inf_names::meanings::Meaning;
use inf_names::spellings::Name;
use inf_names::symbols::Found;
use inf_output::Output;
use inf_scanner::Mark;
use inf_settings::bounds::Bounds;
use inf_tables::WorldFault;
use inf_unit::kinds::is_mark;
use inf_unit::unit::order;
use inf_unit::unit_tokens::UnitTokens;
use std::alloc::AllocError;

/// The number of the property `name`, whose values are words of the dictionary.
const NAME: usize = 1;

pub(crate) fn last_at(tokens: &UnitTokens) -> usize
    ensures { result ≡ last_at tokens.now }
{
    tokens.len().saturating_sub(1)
}

/// Returns the number of the property that a name with `meaning` stands for, or `None`.
fn property_in(meaning: Meaning) -> Option<usize>
    ensures { result ≡ property_in meaning }
{
    match meaning {
        Meaning::Property { number, .. } => Some(usize::from(number)),
        Meaning::IndividualProperty(number) => Some(usize::from(number)),
        _ => None,
    }
}

/// Returns the number of the property that a name stands for, by `found`, the answer of its look-up, or `None`.
pub(crate) fn property_of(found: Found<Place>) -> Option<usize>
    ensures { result ≡ property_of found }
{
    match found {
        Found::System(meaning) | Found::Declared(meaning, _) => property_in(meaning),
        Found::Used | Found::Unknown => None,
    }
}

/// Returns whether a number is that of the property `name`.
pub(crate) fn is_words(number: Option<usize>) -> bool
    ensures { result ≡ is_words number }
{
    match number {
        Some(number) => number == NAME,
        None => false,
    }
}

// Functions for classes and attributes

/// Returns the finding about the name of `class` at `at`: that the world refused the class by `fault`, or that there is no such class.
fn class_finding(class: Option<usize>, fault: Option<WorldFault>, at: usize) -> Option<Finding>
    ensures { result ≡ class_finding class fault at }
{
    match class {
        Some(_) => refused_finding(fault, order(at)),
        None => Some(Finding::wrong_kind(order(at))),
    }
}

/// Returns the number of the attribute that a name stands for, by the answer of its look-up, or `None`.
fn attribute_of(found: Found<Place>) -> Option<usize>
    ensures { result ≡ attribute_of found }
{
    match found {
        Found::Declared(Meaning::Attribute(number), _) => Some(usize::from(number)),
        _ => None,
    }
}

/// Returns whether the attribute whose name is at a place is given, and not taken away by `~`.
fn is_given(tokens: &UnitTokens, at: usize) -> bool
    ensures { result ≡ is_given tokens.now at }
{
    match tokens.kind(at.saturating_sub(1)) {
        Some(kind) => !is_mark(kind, Mark::BitNot),
        None => true,
    }
}

/// Gives the open body attribute `number`, or takes it away unless `is_given`.
fn set_attribute<B: Bounds>(
    number: usize,
    is_given: bool,
    out: &mut Output<B>,
) -> Result<(), AllocError>
    ensures { OnOk result (out.new ≡ attribute_set number is_given out.old) }
{
    match out.tables.world.set_attribute(number, is_given) {
        Ok(()) | Err(WorldFault::Limit(_) | WorldFault::Misfit(_) | WorldFault::Full(_)) => Ok(()),
        Err(WorldFault::Memory) => Err(AllocError),
    }
}

/// Gives the open body attribute `number`, or takes it away unless `is_given`. Nothing happens where there is no such attribute.
fn set_some<B: Bounds>(
    number: Option<usize>,
    is_given: bool,
    out: &mut Output<B>,
) -> Result<(), AllocError>
    ensures { OnOk result (out.new ≡ attribute_set_some number is_given out.old) }
{
    match number {
        Some(number) => set_attribute(number, is_given, out),
        None => Ok(()),
    }
}

/// Returns the finding that the name at `at` is no attribute's, unless it has a `number`.
fn attribute_finding(number: Option<usize>, at: usize) -> Option<Finding>
    ensures { result ≡ attribute_finding number at }
{
    match number {
        Some(_) => None,
        None => Some(Finding::wrong_kind(order(at))),
    }
}

// Functions for properties

/// Declares the name of individual property `number`, if there is a name.
fn declare_individual<B: Bounds>(
    name: &Option<Name>,
    number: usize,
    out: &mut Output<B>,
) -> Result<(), AllocError>
    ensures { OnOk result (out.new ≡ individual_declared B.most (option_map as_name name.now) number out.old) }
{
    match name {
        Some(name) => {
            let meaning = Meaning::IndividualProperty((number % 65536) as u16);
            declare(name, meaning, out)
        }
        None => Ok(()),
    }
}

/// Drops a property with something wrong: its name is declared, if it has one, and its further values give nothing.
fn lose_property<B: Bounds>(name: &Option<Name>, out: &mut Output<B>) -> Result<(), AllocError>
    ensures { OnOk result (out.new ≡ property_lost B.most (option_map as_name name.now) out.old) }
{
    declare_individual(name, 0, out)?;
    out.tables.world.lose_property();
    Ok(())
}

/// Gives the open body property `number`, with its first value if it has one. Where that would pass a setting, it is passed.
fn give_property<B: Bounds>(
    number: usize,
    value: Option<Value>,
    out: &mut Output<B>,
) -> Result<(), AllocError>
    ensures { OnOk result (out.new ≡ property_given B.most number value out.old) }
{
    match out.tables.world.give_property(number, value) {
        Ok(()) => Ok(()),
        Err(WorldFault::Memory) => Err(AllocError),
        Err(WorldFault::Full(setting)) => {
            out.pass_table(setting_of(setting));
            Ok(())
        }
        Err(WorldFault::Limit(_) | WorldFault::Misfit(_)) => Ok(()),
    }
}

/// Declares the name of individual property `number`, and gives the property to the open body.
fn give_named<B: Bounds>(
    name: &Option<Name>,
    number: usize,
    value: Option<Value>,
    out: &mut Output<B>,
) -> Result<(), AllocError>
    ensures { OnOk result (out.new ≡ individual_named B.most (option_map as_name name.now) number value out.old) }
{
    declare_individual(name, number, out)?;
    give_property(number, value, out)
}

/// Makes a new individual property, and gives it to the open body.
fn give_individual<B: Bounds>(
    name: &Option<Name>,
    value: Option<Value>,
    out: &mut Output<B>,
) -> Result<(), AllocError>
    ensures { OnOk result (out.new ≡ individual_given B.most (option_map as_name name.now) value out.old) }
{
    match out.tables.world.declare_individual() {
        Ok(number) => give_named(name, number, value, out),
        Err(WorldFault::Limit(_) | WorldFault::Misfit(_) | WorldFault::Full(_)) => Ok(()),
        Err(WorldFault::Memory) => Err(AllocError),
    }
}

/// Adds a further value to the property that was given last. Where that would pass a setting, it is passed.
fn add_further<B: Bounds>(value: Value, out: &mut Output<B>) -> Result<(), AllocError>
    ensures { OnOk result (out.new ≡ further_added B.most value out.old) }
{
    match out.tables.world.add_value(value) {
        Ok(()) => Ok(()),
        Err(WorldFault::Memory) => Err(AllocError),
        Err(WorldFault::Full(setting)) => {
            out.pass_table(setting_of(setting));
            Ok(())
        }
        Err(WorldFault::Limit(_) | WorldFault::Misfit(_)) => Ok(()),
    }
}

/// Ends the open body of the world, if one is open.
fn end_world<B: Bounds>(out: &mut Output<B>) -> Result<(), AllocError>
    ensures { OnOk result (out.new ≡ world_ended out.old) }
{
    match out.tables.world.end_body() {
        Ok(()) | Err(WorldFault::Limit(_) | WorldFault::Misfit(_) | WorldFault::Full(_)) => Ok(()),
        Err(WorldFault::Memory) => Err(AllocError),
    }
}

/// Ends the body of an object or class, if one is open.
pub fn end_body<B: Bounds>(compilation: &mut Compilation<B>) -> Result<(), AllocError>
    ensures { OnOk result (work compilation.new ≡ body_ended (work compilation.old)) }
{
    end_world(&mut compilation.output)
}

/// Adds to the open body the class that the last token names.
pub fn class_of_body<B: Bounds>(
    compilation: &mut Compilation<B>,
    context: &Context<'_>,
    place: Place,
) -> Result<(), AllocError>
    ensures { OnOk result (work compilation.new ≡ class_read B.most (handed context.now) place (work compilation.old)) }
{
    let first = compilation.unit.first_place(place);
    let at = last_at(&compilation.unit.tokens);
    let class = class_of(found_at(compilation, at));
    let fault = join_some(class, &mut compilation.output)?;
    tell_entry(compilation, context, first, class_finding(class, fault, at))
}

/// Gives the open body the attribute that the last token names, or takes it away if `~` comes before it.
pub fn attribute_of_body<B: Bounds>(
    compilation: &mut Compilation<B>,
    context: &Context<'_>,
    place: Place,
) -> Result<(), AllocError>
    ensures { OnOk result (work compilation.new ≡ attribute_read B.most (handed context.now) place (work compilation.old)) }
{
    let first = compilation.unit.first_place(place);
    let at = last_at(&compilation.unit.tokens);
    let number = attribute_of(found_at(compilation, at));
    set_some(
        number,
        is_given(&compilation.unit.tokens, at),
        &mut compilation.output,
    )?;
    tell_entry(compilation, context, first, attribute_finding(number, at))
}

// The properties to which values go

fn number_finding<B: Bounds>(
    compilation: &Compilation<B>,
    number: Option<usize>,
    value: Option<Value>,
    at: usize,
) -> Option<Finding>
    ensures { result ≡ number_finding B.most number value at (work compilation.now) }
{
    match number {
        Some(number) => refused_finding(
            compilation.output.tables.world.give_fault(number, value),
            order(at),
        ),
        None => Some(Finding::wrong_kind(order(at))),
    }
}

/// Returns the finding about a property whose name is at `at`, with the first value `value`. A name that is not
/// declared is that of a new property.
fn property_finding<B: Bounds>(
    compilation: &Compilation<B>,
    at: usize,
    value: Option<Value>,
) -> Option<Finding>
    ensures { result ≡ property_finding B.most at value (work compilation.now) }
{
    match found_at(compilation, at) {
        Found::System(meaning) | Found::Declared(meaning, _) => {
            number_finding(compilation, property_in(meaning), value, at)
        }
        Found::Used | Found::Unknown => None,
    }
}

/// Returns the finding about `value` as a further value of the property that was given last.
fn further_finding<B: Bounds>(compilation: &Compilation<B>, value: Value) -> Option<Finding>
    ensures { result ≡ further_finding B.most value (work compilation.now) }
{
    refused_finding(compilation.output.tables.world.value_fault(value), 0)
}

pub(crate) fn place_finding<B: Bounds>(
    compilation: &Compilation<B>,
    name: Option<usize>,
    value: Value,
) -> Option<Finding>
    ensures { result ≡ place_finding B.most name value (work compilation.now) }
{
    match name {
        Some(at) => property_finding(compilation, at, Some(value)),
        None => further_finding(compilation, value),
    }
}

/// Gives the open body the property whose name is at `at` and with which nothing is wrong.
fn give<B: Bounds>(
    compilation: &mut Compilation<B>,
    at: usize,
    value: Option<Value>,
) -> Result<(), AllocError>
    ensures { OnOk result (work compilation.new ≡ property_gives B.most at value (work compilation.old)) }
{
    match property_of(found_at(compilation, at)) {
        Some(number) => give_property(number, value, &mut compilation.output),
        None => {
            let name = name_at(compilation, at);
            give_individual(&name, value, &mut compilation.output)
        }
    }
}

/// Gives the open body the property whose name is at `at`, or drops it where there is a finding about it.
fn give_with<B: Bounds>(
    compilation: &mut Compilation<B>,
    found: Option<Finding>,
    at: usize,
    value: Option<Value>,
) -> Result<(), AllocError>
    ensures { OnOk result (work compilation.new ≡ given_with B.most found at value (work compilation.old)) }
{
    match found {
        Some(_) => {
            let name = name_at(compilation, at);
            lose_property(&name, &mut compilation.output)
        }
        None => give(compilation, at, value),
    }
}

/// Gives the open body the property whose name is at `at`, with its first value, where `of_value` is the finding about
/// that. Returns the finding about both; where there is one, the property is dropped.
fn given<B: Bounds>(
    compilation: &mut Compilation<B>,
    at: usize,
    value: Option<Value>,
    of_value: Option<Finding>,
) -> Result<Option<Finding>, AllocError>
    ensures value { OnOk result (work compilation.new ≡ given B.most at value of_value (work compilation.old)) }
    ensures finding { IfOk result (λ f. f ≡ given_finding B.most at value of_value (work compilation.old)) }
{
    let found = least_of_both(property_finding(compilation, at, value), of_value);
    compilation.is_name = is_words(property_of(found_at(compilation, at)));
    give_with(compilation, found, at, value)?;
    Ok(found)
}

/// Adds a further value, unless there is a finding about it.
fn further_with<B: Bounds>(
    compilation: &mut Compilation<B>,
    found: Option<Finding>,
    value: Value,
) -> Result<(), AllocError>
    ensures { OnOk result (work compilation.new ≡ further_placed B.most found value (work compilation.old)) }
{
    match found {
        Some(_) => Ok(()),
        None => add_further(value, &mut compilation.output),
    }
}

/// Adds a further value, where `of_value` is the finding about the value alone, and returns the finding about it.
fn further<B: Bounds>(
    compilation: &mut Compilation<B>,
    value: Value,
    of_value: Option<Finding>,
) -> Result<Option<Finding>, AllocError>
    ensures value { OnOk result (work compilation.new ≡ further B.most value of_value (work compilation.old)) }
    ensures finding { IfOk result (λ f. f ≡ further_found B.most value of_value (work compilation.old)) }
{
    let found = least_of_both(of_value, further_finding(compilation, value));
    further_with(compilation, found, value)?;
    Ok(found)
}

/// Puts a value into the property at `name`, or into the one that was given last, where `of_value` is the finding about
/// the value alone. Returns the finding about it.
pub(crate) fn placed<B: Bounds>(
    compilation: &mut Compilation<B>,
    name: Option<usize>,
    value: Value,
    of_value: Option<Finding>,
) -> Result<Option<Finding>, AllocError>
    ensures value { OnOk result (work compilation.new ≡ placed B.most name value of_value (work compilation.old)) }
    ensures finding { IfOk result (λ f. f ≡ placed_finding B.most name value of_value (work compilation.old)) }
{
    match name {
        Some(at) => given(compilation, at, Some(value), of_value),
        None => further(compilation, value, of_value),
    }
}

/// Adds to the open body the property without values that the last token names.
pub fn property_of_body<B: Bounds>(
    compilation: &mut Compilation<B>,
    context: &Context<'_>,
    place: Place,
) -> Result<(), AllocError>
    ensures { OnOk result (work compilation.new ≡ property_read B.most (handed context.now) place (work compilation.old)) }
{
    let first = compilation.unit.first_place(place);
    let at = last_at(&compilation.unit.tokens);
    let found = given(compilation, at, None, None)?;
    tell_entry(compilation, context, first, found)
}
