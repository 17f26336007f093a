//! The directive `Global`.
ghost use Rattle.inf_compilation.specs.{Context.handed, Works.work};
ghost use Rattle.std.specs.Prelude.{OnOk, map, ◌≡◌};
ghost use Rattle.inf_names.specs.Spellings.{as_name};
ghost use Rattle.inf_declarations.specs.Globals.{global_added, global_ended, global_variable, global_with, has_most_globals, new_global};
ghost use Rattle.inf_named_values.specs.Declarations.{nothing_of, valued};

use inf_area::Value;
use inf_compilation::compilation::Compilation;
use inf_compilation::context::Context;
use inf_expressions::Finding;
use inf_lexer::Place;
use inf_named_values::declarations::{
    Declared, FIRST_GLOBAL, declare, end_declaration, nothing_of, valued,
};
use inf_named_values::values::value;
use inf_names::meanings::Meaning;
use inf_names::spellings::Name;
use inf_report::messages::FixedLimit;
use inf_settings::bounds::Bounds;
use std::alloc::AllocError;

const MOST_GLOBALS: usize = 235;

/// Declares the first of these names as a global variable, with the value of the unit's expression, or 0.
pub fn global_variable<B: Bounds>(
    compilation: &mut Compilation<B>,
    context: &Context<'_>,
    first: Place,
    names: &[Name],
) -> Result<(), AllocError>
    ensures { OnOk result (work compilation.new ≡ global_variable B.most (handed context.now) first (map as_name names.now)
        (work compilation.old)) }
{
    match names.first() {
        Some(name) => one_global(compilation, context, first, name),
        None => {
            compilation.pass(true);
            Ok(())
        }
    }
}

/// Returns whether there are as many global variables as there may be.
fn has_most_globals<B: Bounds>(compilation: &Compilation<B>) -> bool
    ensures { result ≡ has_most_globals (work compilation.now).output }
{
    compilation.output.tables.globals.len() >= MOST_GLOBALS
}

/// Declares a name as a global variable, with the value of the unit's expression, or 0.
fn one_global<B: Bounds>(
    compilation: &mut Compilation<B>,
    context: &Context<'_>,
    first: Place,
    name: &Name,
) -> Result<(), AllocError>
    ensures { OnOk result (work compilation.new ≡ global_with B.most (handed context.now) first (as_name name.now) (work compilation.old)) }
{
    let order = compilation.unit.tokens.name_order();
    let declared = valued(compilation, name, order, has_most_globals(compilation))?;
    end_global(compilation, context, first, name, declared)
}

/// Ends the declaration of `name` as a global variable, which begins at `first`; `declared` is the declaration as far as it is known.
fn end_global<B: Bounds>(
    compilation: &mut Compilation<B>,
    context: &Context<'_>,
    first: Place,
    name: &Name,
    declared: Declared,
) -> Result<(), AllocError>
    ensures { OnOk result (work compilation.new ≡ global_ended B.most (handed context.now) first (as_name name.now) declared
        (work compilation.old)) }
{
    add_global(compilation, context, name, declared.finding)?;
    end_declaration(
        compilation,
        context,
        first,
        name,
        FixedLimit::Globals,
        declared,
    )
}

/// Declares the name of a variable, which is a new one with the value of the unit's expression where nothing is wrong with it.
fn add_global<B: Bounds>(
    compilation: &mut Compilation<B>,
    context: &Context<'_>,
    name: &Name,
    found: Option<Finding>,
) -> Result<(), AllocError>
    ensures { let before = work compilation.old in OnOk result (work compilation.new ≡ record before
        { output = global_added B.most (handed context.now) found (as_name name.now) before }) }
{
    if found.is_some() {
        return declare(
            name,
            nothing_of(FixedLimit::Globals),
            &mut compilation.output,
        );
    }
    let value = value(compilation, context)?;
    let meaning = Meaning::Variable(FIRST_GLOBAL + compilation.output.tables.globals.len() as u8);
    declare(name, meaning, &mut compilation.output)?;
    new_global(compilation, value)
}

/// Makes one variable more, unless there are as many as there may be.
fn new_global<B: Bounds>(compilation: &mut Compilation<B>, value: Value) -> Result<(), AllocError>
    ensures { let before = work compilation.old in OnOk result
        (work compilation.new ≡ record before { output = new_global value before.output }) }
{
    if compilation.output.tables.globals.len() >= MOST_GLOBALS {
        return Ok(());
    }
    match compilation.output.tables.globals.add(value) {
        Ok(_) => Ok(()),
        Err(_) => Err(AllocError),
    }
}
