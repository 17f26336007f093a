//! The end of an expression or a constant that was read whole by itself.
ghost use Rattle.inf_alone.specs.Ending.{alone_ended, code_of, constant_alone, expression_ended, leaves_noted, left_of};
ghost use Rattle.inf_compilation.specs.{Actions.finding_at, Actions.settled_of, Actions.trees_at, Context.handed, Works.work};
ghost use Rattle.inf_constructs.specs.Roots.{tree_in};
ghost use Rattle.inf_expressions.specs.Forests.{trees_in};
ghost use Rattle.inf_templates.specs.{Meaning.part, Parts.operand_of, Parts.worked_out, Tasks.at};
ghost use Rattle.inf_unit.specs.Units.{order};
ghost use Rattle.std.specs.Prelude.{IfOk, None, OnOk, map, ◌≡◌};

use inf_area::Value;
use inf_compilation::compilation::Compilation;
use inf_compilation::context::Context;
use inf_expressions::{Finding, Forest, Wanted, build};
use inf_lexer::Place;
use inf_named_values::values::value;
use inf_opcode::Label;
use inf_operands::operands::{name_locals, settled};
use inf_output::{Output, Simple};
use inf_settings::bounds::Bounds;
use inf_templates::{Tasks, lay_alone, lay_branch, lay_value, simple_of};
use inf_unit::unit::order;
use std::alloc::AllocError;

/// The use that is made of an expression.
#[derive(Clone, Copy)]
pub enum Use {
    /// The value is used for nothing: the expression is computed for its effect.
    Nothing,
    /// An operand: its own where the expression is simple, and else the stack.
    Operand,
    /// A value that goes to this variable; 0 is the stack.
    Variable(u8),
    /// A branch to the label where its truth is the one that is given.
    Branch(bool, Label),
}

/// The result of an expression.
#[derive(Clone, Copy)]
pub enum Ended {
    /// Wrong by its least finding: the expression has no effect.
    Wrong(Finding),
    /// Laid, with the operand that it leaves, if it leaves one.
    Laid(Option<Simple>),
}

/// The result of a constant.
#[derive(Clone, Copy)]
pub enum Told {
    /// Wrong by its least finding: the constant has no effect.
    Wrong(Finding),
    /// Right, with its value.
    Is(Value),
}

/// Lays the tree of `forest` at `place` as an operand, and returns the operand. A simple one needs no code.
fn lay_operand<B: Bounds>(
    forest: &Forest,
    place: usize,
    tasks: &mut Tasks,
    out: &mut Output<B>,
) -> Result<Simple, AllocError>
    ensures { let m = at B.most forest.now.nodes place in
        IfOk result (λ operand. (operand ≡ operand_of (part m)) × (out.new ≡ worked_out (part m) out.old)) }
{
    if let Some(operand) = simple_of::<B>(&forest.nodes, place) {
        return Ok(operand);
    }
    lay_value(tasks, &forest.nodes, place, 0, out)?;
    Ok(Simple::Variable(0))
}

/// Lays the code of the expression in `forest` by the use that is `wanted` of it, and returns the operand that it leaves.
fn lay<B: Bounds>(
    wanted: Use,
    forest: &Forest,
    tasks: &mut Tasks,
    out: &mut Output<B>,
) -> Result<Option<Simple>, AllocError>
    ensures { let trees = map tree_in (trees_in forest.now) in
        IfOk result (λ left. (left ≡ left_of B.most wanted trees) × (out.new ≡ code_of B.most wanted trees out.old)) }
{
    let Some(root) = forest.roots.first() else {
        return Ok(None);
    };
    let nodes = &forest.nodes;
    match wanted {
        Use::Nothing => {
            lay_alone(tasks, nodes, root.place, out)?;
            Ok(None)
        }
        Use::Operand => {
            let operand = lay_operand(forest, root.place, tasks, out)?;
            Ok(Some(operand))
        }
        Use::Variable(variable) => {
            lay_value(tasks, nodes, root.place, variable, out)?;
            Ok(Some(Simple::Variable(variable)))
        }
        Use::Branch(sense, label) => {
            lay_branch(tasks, nodes, root.place, sense, label, out)?;
            Ok(None)
        }
    }
}

/// Uses the names of the unit's expression, which begins at `first`, and returns its tree.
fn settle<B: Bounds>(
    compilation: &mut Compilation<B>,
    context: &Context<'_>,
    first: Place,
) -> Result<Forest, AllocError>
    ensures { IfOk result (λ forest. let s = settled_of B.most (handed context.now) (work compilation.old) in
        let w = work compilation.old in (trees_in forest ≡ trees_at (order w.unit.begun) Wanted.Value s.operands w)
        × (work compilation.new ≡ record w { output = record s.out { first = first } })) }
{
    let operands = settled(
        compilation.alloc,
        context.set,
        &compilation.locals,
        &compilation.unit.tokens,
        compilation.unit.gathering.leaves(),
        &mut compilation.output,
    )?;
    compilation.output.first = first;
    build(
        compilation.alloc,
        Wanted::Value,
        order(compilation.unit.begun),
        compilation.unit.gathering.symbols(),
        operands.as_slice(),
    )
}

/// Ends the unit, an expression that begins at `first` and in which nothing is wrong, by the use that is `wanted` of it.
fn end_right<B: Bounds>(
    compilation: &mut Compilation<B>,
    context: &Context<'_>,
    first: Place,
    wanted: Use,
) -> Result<Ended, AllocError>
    ensures { IfOk result (λ ended. (work compilation.new, ended)
        ≡ expression_ended B.most (handed context.now) first wanted None (work compilation.old)) }
{
    let forest = settle(compilation, context, first)?;
    let left = lay(
        wanted,
        &forest,
        &mut compilation.tasks,
        &mut compilation.output,
    )?;
    compilation.end_clean(context, first, false)?;
    Ok(Ended::Laid(left))
}

/// Returns the least finding about the unit's expression, if there is one. The locals that the expression names are marked as named.
fn look<B: Bounds>(compilation: &mut Compilation<B>) -> Result<Option<Finding>, AllocError>
    ensures finding { let w = work compilation.old in IfOk result (λ found. found ≡ finding_at (order w.unit.begun) Wanted.Value w) }
    ensures noted { OnOk result (work compilation.new ≡ leaves_noted (work compilation.old)) }
{
    let operands = compilation.operands()?;
    let finding = compilation.finding(
        order(compilation.unit.begun),
        Wanted::Value,
        operands.as_slice(),
    )?;
    name_locals(
        &mut compilation.locals,
        &compilation.unit.tokens,
        compilation.unit.gathering.leaves(),
    );
    Ok(finding)
}

/// Ends the unit, which is an expression, before a token at `place`: has it laid by the use that is `wanted` of it, unless something is
/// wrong with it, of which the least is told. In a routine that is passed over nothing has an effect.
pub fn end_expression<B: Bounds>(
    compilation: &mut Compilation<B>,
    context: &Context<'_>,
    place: Place,
    wanted: Use,
) -> Result<Ended, AllocError>
    ensures { IfOk result (λ ended. (work compilation.new, ended)
        ≡ alone_ended B.most (handed context.now) place wanted (work compilation.old)) }
{
    if compilation.is_replaced {
        compilation.pass(false);
        return Ok(Ended::Laid(None));
    }
    let first = compilation.unit.own_place(place);
    let Some(found) = look(compilation)? else {
        return end_right(compilation, context, first, wanted);
    };
    compilation.end_alone(context, first, false, Some(found))?;
    Ok(Ended::Wrong(found))
}

/// Returns the least finding about the unit's expression, which has to be a constant, if there is one.
fn look_constant<B: Bounds>(compilation: &Compilation<B>) -> Result<Option<Finding>, AllocError>
    ensures { IfOk result (λ found. found ≡ finding_at 0 Wanted.Constant (work compilation.now)) }
{
    let operands = compilation.operands()?;
    compilation.finding(0, Wanted::Constant, operands.as_slice())
}

/// Ends the unit, which is a constant, before a token at `place`, and returns its value, unless something is wrong with it, of which the
/// least is told. Names in it are used.
pub fn end_constant<B: Bounds>(
    compilation: &mut Compilation<B>,
    context: &Context<'_>,
    place: Place,
) -> Result<Told, AllocError>
    ensures { IfOk result (λ told. (work compilation.new, told) ≡ constant_alone B.most (handed context.now) place (work compilation.old)) }
{
    let first = compilation.unit.own_place(place);
    let Some(found) = look_constant(compilation)? else {
        let value = value(compilation, context)?;
        compilation.end_clean(context, first, false)?;
        return Ok(Told::Is(value));
    };
    compilation.end_alone(context, first, false, Some(found))?;
    Ok(Told::Wrong(found))
}
