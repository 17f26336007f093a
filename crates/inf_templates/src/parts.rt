//! Instructions of parts: laid at once where all parts are simple, or else by tasks, with those that work out the parts in front.
ghost use Rattle.inf_settings.specs.Bounds.{Limits};
ghost use Rattle.std.specs.Prelude.{◌≡◌, ◌+◌, OnOk, true};
ghost use Rattle.inf_output.specs.Output.{Out, ◌▸◌};
ghost use Rattle.inf_templates.specs.{Meaning.part, Meaning.parts, Parts.call_routine, Parts.evaluated, Parts.worked_out};
ghost use Rattle.inf_templates.specs.{Tasks.Leads, Tasks.Puts, Tasks.at, Tasks.few_parts, Tasks.worked_code};
ghost use Rattle.inf_templates.specs.Weights.{WeighsUnder, few_load, load_at};

use crate::reading::{STACK, split};
use crate::tasks::{Few, Task, Tasks, Worked};
use crate::working::work;
use inf_expressions::{Node, Nodes};
use inf_output::{Output, Veneer};
use inf_settings::bounds::Bounds;
use std::alloc::AllocError;

/// Returns whether the tree at `place` is simple.
pub(crate) fn is_simple(nodes: &Nodes, place: usize) -> bool
    ensures { result ≡ true → (limits : Limits) (o : Out) → worked_out (part (at limits nodes.now place)) o ≡ o }
{
    matches!(nodes.node(place), Node::Leaf(_))
}

/// Returns whether all members of `list` are simple.
pub(crate) fn are_simple(nodes: &Nodes, list: usize) -> bool
    ensures { result ≡ true → (limits : Limits) (o : Out) → evaluated (parts (at limits nodes.now list)) o ≡ o }
{
    let mut left = list;
    while let Some((a, others)) = split(nodes, left) {
        if !is_simple(nodes, a) {
            return false;
        }
        left = others;
    }
    is_simple(nodes, left)
}

/// Puts first the task that works out the tree at `place` into the stack, unless the tree is simple.
pub(crate) fn before(nodes: &Nodes, place: usize, tasks: &mut Tasks) -> Result<(), AllocError>
    ensures code { OnOk result ((limits : Limits) → Puts limits nodes.now (worked_out (part (at limits nodes.now place))) tasks.old
        tasks.new) }
    ensures less { OnOk result (WeighsUnder nodes.now (3 + load_at nodes.now place) tasks.old tasks.new) }
{
    match nodes.node(place) {
        Node::Leaf(_) => Ok(()),
        Node::One(..) | Node::Two(..) => tasks.first(Task::Value(place, STACK)),
    }
}

/// Puts first the tasks that work out the members of `list` into the stack, from the last to the first.
pub(crate) fn members(nodes: &Nodes, list: usize, tasks: &mut Tasks) -> Result<(), AllocError>
    ensures code { OnOk result ((limits : Limits) → Puts limits nodes.now (evaluated (parts (at limits nodes.now list))) tasks.old
        tasks.new) }
    ensures less { OnOk result (WeighsUnder nodes.now (3 + load_at nodes.now list) tasks.old tasks.new) }
{
    let mut left = list;
    while let Some((a, others)) = split(nodes, left) {
        before(nodes, a, tasks)?;
        left = others;
    }
    before(nodes, left, tasks)
}

/// Returns whether one to three trees are simple.
fn few_are_simple(nodes: &Nodes, few: Few) -> bool
    ensures { result ≡ true → (limits : Limits) (o : Out) → evaluated (few_parts limits nodes.now few) o ≡ o }
{
    match few {
        Few::One(a) => is_simple(nodes, a),
        Few::Two(a, b) => is_simple(nodes, a) && is_simple(nodes, b),
        Few::Three(a, b, c) => is_simple(nodes, a) && is_simple(nodes, b) && is_simple(nodes, c),
    }
}

/// Puts first the tasks that work out one to three trees into the stack, from the last to the first.
fn before_all(nodes: &Nodes, few: Few, tasks: &mut Tasks) -> Result<(), AllocError>
    ensures code { OnOk result ((limits : Limits) → Puts limits nodes.now (evaluated (few_parts limits nodes.now few)) tasks.old tasks.new) }
    ensures less { OnOk result (WeighsUnder nodes.now (7 + few_load nodes.now few) tasks.old tasks.new) }
{
    match few {
        Few::One(a) => before(nodes, a, tasks),
        Few::Two(a, b) => {
            before(nodes, a, tasks)?;
            before(nodes, b, tasks)
        }
        Few::Three(a, b, c) => {
            before(nodes, a, tasks)?;
            before(nodes, b, tasks)?;
            before(nodes, c, tasks)
        }
    }
}

/// Lays `instruction`, whose parts are one to three trees.
#[inline(always)]
pub(crate) fn with_few<B: Bounds>(
    nodes: &Nodes,
    few: Few,
    instruction: Worked,
    tasks: &mut Tasks,
    out: &mut Output<B>,
) -> Result<(), AllocError>
    ensures code { let code = evaluated (few_parts B.most nodes.now few) ▸ worked_code B.most nodes.now instruction in
        OnOk result (Leads B.most nodes.now code tasks.old tasks.new out.old out.new) }
    ensures less { OnOk result (WeighsUnder nodes.now (8 + few_load nodes.now few) tasks.old tasks.new) }
{
    if few_are_simple(nodes, few) {
        return work(nodes, instruction, out);
    }
    tasks.first(Task::Instruct(instruction))?;
    before_all(nodes, few, tasks)
}

/// Lays a call of a routine of the veneer, whose arguments are one to three trees.
pub(crate) fn with_routine<B: Bounds>(
    nodes: &Nodes,
    veneer: Veneer,
    few: Few,
    store: Option<u8>,
    tasks: &mut Tasks,
    out: &mut Output<B>,
) -> Result<(), AllocError>
    ensures code { let code = call_routine B.most veneer (few_parts B.most nodes.now few) store in
        OnOk result (Leads B.most nodes.now code tasks.old tasks.new out.old out.new) }
    ensures less { OnOk result (WeighsUnder nodes.now (8 + few_load nodes.now few) tasks.old tasks.new) }
{
    let instruction = Worked::Routine(veneer, few, store);
    with_few(nodes, few, instruction, tasks, out)
}

/// Lays `instruction`, whose parts are the members of `list`.
pub(crate) fn with_members<B: Bounds>(
    nodes: &Nodes,
    list: usize,
    instruction: Worked,
    tasks: &mut Tasks,
    out: &mut Output<B>,
) -> Result<(), AllocError>
    ensures code { let code = evaluated (parts (at B.most nodes.now list)) ▸ worked_code B.most nodes.now instruction in
        OnOk result (Leads B.most nodes.now code tasks.old tasks.new out.old out.new) }
    ensures less { OnOk result (WeighsUnder nodes.now (5 + load_at nodes.now list) tasks.old tasks.new) }
{
    if are_simple(nodes, list) {
        return work(nodes, instruction, out);
    }
    tasks.first(Task::Instruct(instruction))?;
    members(nodes, list, tasks)
}
