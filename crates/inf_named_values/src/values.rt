//! The values of a unit: those of its expression, and the characters of its texts.
ghost use Rattle.inf_compilation.specs.{Actions.operands_of, Actions.settled_of, Actions.trees_at, Context.handed, Works.work};
ghost use Rattle.std.specs.Prelude.{IfOk, OnOk, [], false, map, ◌∷◌, ◌≡◌};
ghost use Rattle.inf_expressions.specs.{Forests.trees_in as rooted_in, Trees.Leaf, Units.operand_at};
ghost use Rattle.inf_constructs.specs.Roots.{tree_in};
ghost use Rattle.inf_operands.specs.{Operands.leaf_added, Texts.text_at};
ghost use Rattle.inf_named_values.specs.Values.{is_variable, looked_value, variables_from, value_in};

use inf_area::Value;
use inf_compilation::compilation::Compilation;
use inf_compilation::context::Context;
use inf_expressions::{Forest, Operand, Symbol, Wanted, build, constant};
use inf_operands::operands::{add_leaf as add_operand, settled};
use inf_settings::bounds::Bounds;
use inf_text::{Text, TextItem};
use inf_unit::texts::text_of;
use std::alloc::AllocError;

/// Returns the trees of the unit's expression, which has to be a constant, where its leaves stand for `operands`.
fn constant_trees<B: Bounds>(
    compilation: &Compilation<B>,
    operands: &[Operand],
) -> Result<Forest, AllocError>
    ensures { IfOk result (λ forest. rooted_in forest ≡ trees_at 0 Wanted.Constant operands.now (work compilation.now)) }
{
    build(
        compilation.alloc,
        Wanted::Constant,
        0,
        compilation.unit.gathering.symbols(),
        operands,
    )
}

/// Returns the value of the expression in `forest`, which is 0 where there is none.
pub fn value_in(forest: &Forest) -> Value
    ensures { result ≡ value_in (map tree_in (rooted_in forest.now)) }
{
    match forest.roots.first() {
        Some(root) => constant(&forest.nodes, root.place).unwrap_or(Value::Known(0)),
        None => Value::Known(0),
    }
}

/// Returns the operand of the leaf with the number `leaf`: 0 where there is none.
fn operand_at(operands: &[Operand], leaf: usize) -> Operand
    ensures { result ≡ operand_at operands.now leaf }
{
    match operands.get(leaf) {
        Some(operand) => *operand,
        None => Operand::Known(0),
    }
}

/// Returns the value of an expression that is one leaf with `operand`.
fn value_of_leaf(operand: Operand) -> Value
    ensures { result ≡ value_in (Leaf operand ∷ []) }
{
    match operand {
        Operand::Known(number) => Value::Known(number),
        Operand::Later(target) => Value::Later(target),
        Operand::Variable(_) | Operand::Function(_) | Operand::Unknown => Value::Known(0),
    }
}

/// Returns the value of the unit's expression, where its leaves stand for `operands`. Most expressions are one leaf, and no tree is made to
/// see its value.
fn value_by<B: Bounds>(
    compilation: &Compilation<B>,
    operands: &[Operand],
) -> Result<Value, AllocError>
    ensures { IfOk result (λ value. value ≡ value_in (map tree_in (trees_at 0 Wanted.Constant operands.now (work compilation.now)))) }
{
    let symbols = compilation.unit.gathering.symbols();
    if let [Symbol::Leaf { leaf, .. }] = *symbols {
        return Ok(value_of_leaf(operand_at(operands, leaf)));
    }
    let forest = constant_trees(compilation, operands)?;
    Ok(value_in(&forest))
}

/// Returns the value of the unit's expression, whose names are used.
pub fn value<B: Bounds>(
    compilation: &mut Compilation<B>,
    context: &Context<'_>,
) -> Result<Value, AllocError>
    ensures { IfOk result (λ value. let s = settled_of B.most (handed context.now) (work compilation.old) in
        (value ≡ value_in (map tree_in (trees_at 0 Wanted.Constant s.operands (work compilation.old))))
        × (work compilation.new ≡ record (work compilation.old) { output = s.out })) }
{
    let operands = settled(
        compilation.alloc,
        context.set,
        &compilation.locals,
        &compilation.unit.tokens,
        compilation.unit.gathering.leaves(),
        &mut compilation.output,
    )?;
    value_by(compilation, operands.as_slice())
}

/// Returns the value of the unit's expression, where its names are only looked up.
pub fn looked_value<B: Bounds>(
    compilation: &Compilation<B>,
    operands: &[Operand],
) -> Result<Value, AllocError>
    requires { operands.now ≡ operands_of (work compilation.now) }
    ensures { IfOk result (λ value. value ≡ looked_value (work compilation.now)) }
{
    value_by(compilation, operands)
}

/// Returns the characters of the text at a place of the unit.
pub fn text_at<B: Bounds>(
    compilation: &Compilation<B>,
    context: &Context<'_>,
    at: usize,
) -> Result<Option<Text>, AllocError>
    ensures { IfOk result (λ text. text ≡ text_at (handed context.now).set compilation.now.unit.tokens at) }
{
    match compilation.unit.tokens.get(at) {
        Some(token) => text_of(compilation.alloc, context.set, &token),
        None => Ok(None),
    }
}

fn is_variable(item: TextItem) -> bool
    ensures { result ≡ is_variable item }
{
    matches!(item, TextItem::Variable(_))
}

/// Returns whether a string variable is among some items.
pub fn has_variables(items: &[TextItem]) -> bool
    ensures { result ≡ variables_from items.now false }
{
    let mut found = false;
    for item in items {
        found = found | is_variable(*item);
    }
    found
}

/// Adds the text or the word that a constant's expression is, and the actions that it names.
pub fn add_leaf<B: Bounds>(
    compilation: &mut Compilation<B>,
    context: &Context<'_>,
) -> Result<(), AllocError>
    ensures { let before = work compilation.old in OnOk result (work compilation.new ≡ record before {
      output = leaf_added B.most (handed context.now).set before.unit.tokens before.unit.gathering.leaves before.output;
    }) }
{
    let leaves = compilation.unit.gathering.leaves();
    add_operand(
        compilation.alloc,
        context.set,
        &compilation.unit.tokens,
        leaves,
        &mut compilation.output,
    )
}
