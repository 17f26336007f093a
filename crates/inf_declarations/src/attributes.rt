//! The directive `Attribute`.
ghost use Rattle.inf_compilation.specs.{Context.handed, Works.work};
ghost use Rattle.std.specs.Prelude.{OnOk, map, ◌≡◌};
ghost use Rattle.inf_names.specs.Spellings.{as_name};
ghost use Rattle.inf_declarations.specs.Attributes.{attribute, attribute_added, attribute_ended, attribute_number, attribute_with};
ghost use Rattle.inf_declarations.specs.Attributes.{has_most_attributes, new_attribute};
ghost use Rattle.inf_named_values.specs.Declarations.{is_alias, name_known};

use inf_compilation::compilation::Compilation;
use inf_compilation::context::Context;
use inf_expressions::Finding;
use inf_lexer::Place;
use inf_named_values::declarations::{
    Declared, alias, declare, end_declaration, is_alias, name_known,
};
use inf_names::meanings::Meaning;
use inf_names::spellings::Name;
use inf_report::messages::FixedLimit;
use inf_settings::bounds::Bounds;
use inf_tables::WorldFault;
use std::alloc::AllocError;

/// The greatest number of attributes (Z-Machine Standard 1.1, section 12.3). Those of properties and global variables
/// are in sections 12.2 and 6.2.
const MOST_ATTRIBUTES: usize = 48;

/// Declares the first of these names as an attribute, or as another name of one.
pub fn attribute<B: Bounds>(
    compilation: &mut Compilation<B>,
    context: &Context<'_>,
    first: Place,
    names: &[Name],
) -> Result<(), AllocError>
    ensures { OnOk result (work compilation.new ≡ attribute B.most (handed context.now) first (map as_name names.now)
        (work compilation.old)) }
{
    let Some((name, names)) = names.split_first() else {
        compilation.pass(true);
        return Ok(());
    };
    if is_alias(names, compilation.unit.gathering.leaves()) {
        let order = compilation.unit.tokens.name_order();
        return alias(
            compilation,
            context,
            first,
            name,
            order,
            FixedLimit::Attributes,
        );
    }
    one_attribute(compilation, context, first, name)
}

/// Returns whether there are as many attributes as there may be.
fn has_most_attributes<B: Bounds>(compilation: &Compilation<B>) -> bool
    ensures { result ≡ has_most_attributes (work compilation.now).output }
{
    compilation.output.tables.world.attribute_count() >= MOST_ATTRIBUTES
}

/// Declares a name as an attribute.
fn one_attribute<B: Bounds>(
    compilation: &mut Compilation<B>,
    context: &Context<'_>,
    first: Place,
    name: &Name,
) -> Result<(), AllocError>
    ensures { OnOk result (work compilation.new ≡ attribute_with B.most (handed context.now) first (as_name name.now)
        (work compilation.old)) }
{
    let order = compilation.unit.tokens.name_order();
    let declared = name_known(compilation, name, order, has_most_attributes(compilation));
    end_attribute(compilation, context, first, name, declared)
}

/// Ends the declaration of `name` as an attribute, which begins at `first`; `declared` is the declaration as far as it is known.
fn end_attribute<B: Bounds>(
    compilation: &mut Compilation<B>,
    context: &Context<'_>,
    first: Place,
    name: &Name,
    declared: Declared,
) -> Result<(), AllocError>
    ensures { OnOk result (work compilation.new ≡ attribute_ended B.most (handed context.now) first (as_name name.now) declared
        (work compilation.old)) }
{
    add_attribute(compilation, name, declared.finding)?;
    end_declaration(
        compilation,
        context,
        first,
        name,
        FixedLimit::Attributes,
        declared,
    )
}

/// Returns the number of the next attribute.
fn attribute_number<B: Bounds>(compilation: &Compilation<B>) -> u8
    ensures { result ≡ attribute_number (work compilation.now).output }
{
    (compilation.output.tables.world.attribute_count() % 256) as u8
}

/// Declares the name of an attribute, which is a new one where nothing is wrong with it.
fn add_attribute<B: Bounds>(
    compilation: &mut Compilation<B>,
    name: &Name,
    found: Option<Finding>,
) -> Result<(), AllocError>
    ensures { let before = work compilation.old in
        OnOk result (work compilation.new ≡ record before { output = attribute_added B.most found (as_name name.now) before.output }) }
{
    if found.is_some() {
        return declare(name, Meaning::Attribute(0), &mut compilation.output);
    }
    let meaning = Meaning::Attribute(attribute_number(compilation));
    declare(name, meaning, &mut compilation.output)?;
    new_attribute(compilation)
}

/// Makes one attribute more.
fn new_attribute<B: Bounds>(compilation: &mut Compilation<B>) -> Result<(), AllocError>
    ensures { let before = work compilation.old in OnOk result
        (work compilation.new ≡ record before { output = new_attribute before.output }) }
{
    match compilation.output.tables.world.declare_attribute() {
        Ok(_) | Err(WorldFault::Limit(_) | WorldFault::Misfit(_) | WorldFault::Full(_)) => Ok(()),
        Err(WorldFault::Memory) => Err(AllocError),
    }
}
