//! The directive `Property`.
ghost use Rattle.inf_compilation.specs.{Context.handed, Works.work};
ghost use Rattle.std.specs.Prelude.{IfOk, OnOk, map, ◌≡◌};
ghost use Rattle.inf_names.specs.Spellings.{as_name};
ghost use Rattle.inf_named_values.specs.Declarations.{is_additive, is_additive_word, is_alias, name_known, nothing_of, valued};
ghost use Rattle.inf_declarations.specs.Properties.{has_most_properties, new_property, property, property_added, property_ended};
ghost use Rattle.inf_declarations.specs.Properties.{property_named, property_names, property_number, property_order, property_with};

use inf_area::Value;
use inf_compilation::compilation::Compilation;
use inf_compilation::context::Context;
use inf_expressions::Finding;
use inf_lexer::Place;
use inf_named_values::declarations::{
    Declared, alias, declare, end_declaration, is_alias, nothing_of, valued,
};
use inf_named_values::values::value;
use inf_names::meanings::Meaning;
use inf_names::spellings::Name;
use inf_report::messages::FixedLimit;
use inf_settings::bounds::Bounds;
use inf_tables::WorldFault;
use inf_unit::unit_tokens::UnitTokens;
use std::alloc::AllocError;

const MOST_PROPERTIES: usize = 60;

/// The number of the first declared property.
const FIRST_PROPERTY: usize = 4;

/// Returns whether a name is the word `additive`.
fn is_additive_word(word: &Name) -> bool
    ensures { result ≡ is_additive_word (as_name word.now) }
{
    word.bytes().eq_ignore_ascii_case(b"additive")
}

/// Returns whether the first of the names of a property is the word `additive`.
pub(crate) fn is_additive(names: &[Name]) -> bool
    ensures { result ≡ is_additive (map as_name names.now) }
{
    match names.first() {
        Some(word) => is_additive_word(word),
        None => false,
    }
}

/// Returns the names of a property without the word `additive` before them.
fn property_names(names: &[Name]) -> &[Name]
    ensures { map as_name result.now ≡ property_names (map as_name names.now) }
{
    match names.split_first() {
        Some((_, others)) => { if is_additive(names) { others } else { names } }
        None => names,
    }
}

/// Returns the order of the name of a property, behind `additive` or not.
fn property_order(tokens: &UnitTokens, is_additive: bool) -> u32
    ensures { result ≡ property_order tokens.now is_additive }
{
    if is_additive {
        tokens.name_order().saturating_add(1)
    } else {
        tokens.name_order()
    }
}

/// Declares the first of these names as a property, or as another name of one. The word `additive` may come before it.
pub fn property<B: Bounds>(
    compilation: &mut Compilation<B>,
    context: &Context<'_>,
    first: Place,
    names: &[Name],
) -> Result<(), AllocError>
    ensures { OnOk result (work compilation.new ≡ property B.most (handed context.now) first (map as_name names.now)
        (work compilation.old)) }
{
    property_named(
        compilation,
        context,
        first,
        is_additive(names),
        property_names(names),
    )
}

/// Declares the first of these names as a property, which is additive or not.
fn property_named<B: Bounds>(
    compilation: &mut Compilation<B>,
    context: &Context<'_>,
    first: Place,
    is_additive: bool,
    names: &[Name],
) -> Result<(), AllocError>
    ensures { OnOk result (work compilation.new
        ≡ property_named B.most (handed context.now) first is_additive (map as_name names.now) (work compilation.old)) }
{
    let Some((name, names)) = names.split_first() else {
        compilation.pass(true);
        return Ok(());
    };
    if is_alias(names, compilation.unit.gathering.leaves()) {
        let order = property_order(&compilation.unit.tokens, is_additive);
        return alias(
            compilation,
            context,
            first,
            name,
            order,
            FixedLimit::Properties,
        );
    }
    one_property(compilation, context, first, is_additive, name)
}

/// Returns whether there are as many properties as there may be.
fn has_most_properties<B: Bounds>(compilation: &Compilation<B>) -> bool
    ensures { result ≡ has_most_properties (work compilation.now).output }
{
    compilation.output.tables.world.property_count() >= MOST_PROPERTIES
}

/// Declares a name as a property, with the value of the unit's expression, or 0.
fn one_property<B: Bounds>(
    compilation: &mut Compilation<B>,
    context: &Context<'_>,
    first: Place,
    is_additive: bool,
    name: &Name,
) -> Result<(), AllocError>
    ensures { OnOk result (work compilation.new
        ≡ property_with B.most (handed context.now) first is_additive (as_name name.now) (work compilation.old)) }
{
    let order = property_order(&compilation.unit.tokens, is_additive);
    let declared = valued(compilation, name, order, has_most_properties(compilation))?;
    end_property(compilation, context, first, is_additive, name, declared)
}

/// Ends the declaration of `name` as a property, which begins at `first`; `declared` is the declaration as far as it is
/// known. The property is additive if `is_additive`.
fn end_property<B: Bounds>(
    compilation: &mut Compilation<B>,
    context: &Context<'_>,
    first: Place,
    is_additive: bool,
    name: &Name,
    declared: Declared,
) -> Result<(), AllocError>
    ensures { OnOk result (work compilation.new
        ≡ property_ended B.most (handed context.now) first is_additive (as_name name.now) declared (work compilation.old)) }
{
    add_property(compilation, context, name, is_additive, declared.finding)?;
    end_declaration(
        compilation,
        context,
        first,
        name,
        FixedLimit::Properties,
        declared,
    )
}

/// Returns the number of the next property.
fn property_number<B: Bounds>(compilation: &Compilation<B>) -> u8
    ensures { result ≡ property_number (work compilation.now).output }
{
    (FIRST_PROPERTY + compilation.output.tables.world.property_count() % 252) as u8
}

/// Declares the name of a property, which is a new one with the value of the unit's expression where nothing is wrong with it.
fn add_property<B: Bounds>(
    compilation: &mut Compilation<B>,
    context: &Context<'_>,
    name: &Name,
    is_additive: bool,
    found: Option<Finding>,
) -> Result<(), AllocError>
    ensures { let before = work compilation.old in OnOk result (work compilation.new ≡ record before
        { output = property_added B.most (handed context.now) found (as_name name.now) is_additive before }) }
{
    if found.is_some() {
        return declare(
            name,
            nothing_of(FixedLimit::Properties),
            &mut compilation.output,
        );
    }
    let value = value(compilation, context)?;
    let meaning = Meaning::Property {
        number: property_number(compilation),
        is_additive,
    };
    declare(name, meaning, &mut compilation.output)?;
    new_property(compilation, is_additive, value)
}

/// Makes one property more, with the value that an object without it answers.
fn new_property<B: Bounds>(
    compilation: &mut Compilation<B>,
    is_additive: bool,
    value: Value,
) -> Result<(), AllocError>
    ensures { let before = work compilation.old in
        OnOk result (work compilation.new ≡ record before { output = new_property is_additive value before.output }) }
{
    match compilation
        .output
        .tables
        .world
        .declare_property(is_additive, value)
    {
        Ok(_) | Err(WorldFault::Limit(_) | WorldFault::Misfit(_) | WorldFault::Full(_)) => Ok(()),
        Err(WorldFault::Memory) => Err(AllocError),
    }
}
