//! The code of expressions, and of instructions of expressions.
ghost use Rattle.std.specs.Prelude.{◌≡◌, ◌≤◌, [], ◌∷◌, List, OnOk, Option, is_some, length, take};
ghost use Rattle.inf_output.specs.Output.{Takes};
ghost use Rattle.inf_templates.specs.{Tasks.at, Tasks.part_of, Tasks.parts_of, Tasks.tasks_code, declared.tasks.Task.Task};
ghost use Rattle.inf_templates.specs.Parts.{call, call_routine, evaluated, operands, worked, worked_out};

use crate::laying::lay_first;
use crate::placing::{MOST_ARGUMENTS, calling, calling_routine, cut};
use crate::reading::{STACK, argument_of};
use crate::tasks::{Argument, Task, Tasks};
use arrayvec::ArrayVec;
use inf_expressions::{Node, Nodes};
use inf_opcode::{Branch, Label, MOST_OPERANDS, Opcode};
use inf_output::{Output, Simple, Veneer};
use inf_settings::bounds::Bounds;
use std::alloc::AllocError;

/// Lays the tree at `place` without result.
///
/// It is refused only for want of memory, as the other calls are.
pub fn lay_alone<B: Bounds>(
    tasks: &mut Tasks,
    nodes: &Nodes,
    place: usize,
    out: &mut Output<B>,
) -> Result<(), AllocError>
    ensures { OnOk result (out.new ≡ (at B.most nodes.now place).alone out.old) }
{
    lay(tasks, nodes, Task::Alone(place), out)
}

/// Lays the tree at `place` with its value in `variable`; 0 is the stack.
pub fn lay_value<B: Bounds>(
    tasks: &mut Tasks,
    nodes: &Nodes,
    place: usize,
    variable: u8,
    out: &mut Output<B>,
) -> Result<(), AllocError>
    ensures { OnOk result (out.new ≡ (at B.most nodes.now place).value variable out.old) }
{
    lay(tasks, nodes, Task::Value(place, variable), out)
}

/// Lays the tree at `place` as a branch to `label` where its truth is `sense`.
pub fn lay_branch<B: Bounds>(
    tasks: &mut Tasks,
    nodes: &Nodes,
    place: usize,
    sense: bool,
    label: Label,
    out: &mut Output<B>,
) -> Result<(), AllocError>
    ensures { OnOk result (out.new ≡ (at B.most nodes.now place).branch sense label out.old) }
{
    lay(tasks, nodes, Task::Branch(place, sense, label), out)
}

/// Lays an instruction of parts, none of whose operands names a variable. The opcode has to take that number of parts,
/// `store` and `branch`.
pub fn lay_instruction<B: Bounds>(
    tasks: &mut Tasks,
    nodes: &Nodes,
    opcode: Opcode,
    arguments: &[Argument],
    store: Option<u8>,
    branch: Option<Branch>,
    out: &mut Output<B>,
) -> Result<(), AllocError>
    requires { Takes opcode (length arguments.now) (is_some store) (is_some branch) }
    ensures { OnOk result (out.new ≡ worked B.most opcode (parts_of B.most nodes.now arguments.now) store branch out.old) }
{
    evaluate_all(tasks, nodes, arguments, out)?;
    let operands = operands::<B>(nodes, arguments, usize::from(opcode.row().most));
    out.instruct(opcode, &operands, store, branch)
}

/// Lays a call, with its result in a variable if it is wanted. Of the arguments the first seven are given.
#[tactic(auto, using(crate::proofs::Cuts::calling_given))]
pub fn lay_call<B: Bounds>(
    tasks: &mut Tasks,
    nodes: &Nodes,
    routine: Argument,
    arguments: &[Argument],
    store: Option<u8>,
    out: &mut Output<B>,
) -> Result<(), AllocError>
    ensures { OnOk result (out.new ≡ call B.most (part_of B.most nodes.now routine) (parts_of B.most nodes.now arguments.now)
        store out.old) }
{
    evaluate_all(tasks, nodes, arguments, out)?;
    work_out(tasks, nodes, routine, out)?;
    let operands = operands::<B>(nodes, arguments, MOST_ARGUMENTS);
    calling(argument_of::<B>(nodes, routine), &operands, store, out)
}

/// Lays a call of a routine of the veneer, with its result in a variable if it is wanted. Of the arguments the first seven are given.
#[tactic(auto, using(crate::proofs::Cuts::calling_routine_given))]
pub fn lay_routine_call<B: Bounds>(
    tasks: &mut Tasks,
    nodes: &Nodes,
    veneer: Veneer,
    arguments: &[Argument],
    store: Option<u8>,
    out: &mut Output<B>,
) -> Result<(), AllocError>
    ensures { OnOk result (out.new ≡ call_routine B.most veneer (parts_of B.most nodes.now arguments.now) store out.old) }
{
    evaluate_all(tasks, nodes, arguments, out)?;
    let operands = operands::<B>(nodes, arguments, MOST_ARGUMENTS);
    calling_routine(veneer, &operands, store, out)
}

/// Lays a task with all tasks that it makes.
fn lay<B: Bounds>(
    tasks: &mut Tasks,
    nodes: &Nodes,
    task: Task,
    out: &mut Output<B>,
) -> Result<(), AllocError>
    ensures { OnOk result (out.new ≡ tasks_code B.most nodes.now (task ∷ []) out.old) }
{
    tasks.clear();
    lay_first(nodes, task, tasks, out)
}

/// Lays a part into the stack, unless it is simple.
fn work_out<B: Bounds>(
    tasks: &mut Tasks,
    nodes: &Nodes,
    argument: Argument,
    out: &mut Output<B>,
) -> Result<(), AllocError>
    ensures { OnOk result (out.new ≡ worked_out (part_of B.most nodes.now argument) out.old) }
{
    match argument {
        Argument::Is(_) => Ok(()),
        Argument::Of(place) => match nodes.node(place) {
            Node::Leaf(_) => Ok(()),
            Node::One(..) | Node::Two(..) => lay(tasks, nodes, Task::Value(place, STACK), out),
        },
    }
}

/// Lays parts that are not simple into the stack, from the last to the first.
#[tactic(auto, using(crate::proofs::Given::evaluated_last))]
fn evaluate_all<B: Bounds>(
    tasks: &mut Tasks,
    nodes: &Nodes,
    arguments: &[Argument],
    out: &mut Output<B>,
) -> Result<(), AllocError>
    ensures { OnOk result (out.new ≡ evaluated (parts_of B.most nodes.now arguments.now) out.old) }
{
    let mut left = arguments;
    while let Some((last, others)) = left.split_last() {
        work_out(tasks, nodes, *last, out)?;
        left = others;
    }
    Ok(())
}

/// Returns the operands of the first `most` parts, once they are worked out, or of all where there are fewer.
fn operands<B: Bounds>(
    nodes: &Nodes,
    arguments: &[Argument],
    most: usize,
) -> ArrayVec<Simple, MOST_OPERANDS>
    requires { most ≤ 8 }
    ensures { result.items ≡ take most (operands (parts_of B.most nodes.now arguments.now)) }
{
    let mut operands = ArrayVec::new();
    for argument in cut(arguments, most) {
        operands.push(argument_of::<B>(nodes, *argument));
    }
    operands
}
