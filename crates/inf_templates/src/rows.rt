//! The rows of operators: each is laid by tasks for its parts.
ghost use Rattle.inf_settings.specs.Bounds.{Limits};
ghost use Rattle.std.specs.Prelude.{◌≡◌, ◌+◌, [], List, OnOk, IfOk};
ghost use Rattle.inf_expressions.specs.Trees.{Tree};
ghost use Rattle.inf_output.specs.Output.{behind, next_label};
ghost use Rattle.inf_templates.specs.{Tasks.Leads, Tasks.Puts, Tasks.at, Tasks.task_code, declared.tasks.Task.Task};
ghost use Rattle.inf_templates.specs.Weights.{WeighsUnder, load_at, weight};
ghost use Rattle.inf_templates.specs.Meaning.{assign_alone, assign_value, both, call_of, either, leaf_branch, one, parts};
ghost use Rattle.inf_templates.specs.Meaning.{step_alone, step_value, truth_behind, two};

use crate::parts::{are_simple, before, is_simple, members, with_few, with_members, with_routine};
use crate::placing::{jump_zero, load, put, reader, setter, stepping};
use crate::reading::{Goal, STACK, TEMP, simple, target};
use crate::tasks::{Few, Memory, Task, Tasks, Worked};
use crate::testing::test_branch;
use crate::working::call;
use inf_expressions::{Binary, Direction, Node, Nodes, Unary};
use inf_opcode::Label;
use inf_output::{Output, Simple, Veneer};
use inf_settings::bounds::Bounds;
use std::alloc::AllocError;

/// Lays a tree with its value in variable `d`, or on the stack.
pub(crate) fn value<B: Bounds>(
    nodes: &Nodes,
    place: usize,
    to: u8,
    tasks: &mut Tasks,
    out: &mut Output<B>,
) -> Result<(), AllocError>
    ensures code { OnOk result (Leads B.most nodes.now (task_code B.most nodes.now (Task.Value place to)) tasks.old tasks.new out.old
        out.new) }
    ensures less { OnOk result (WeighsUnder nodes.now (weight nodes.now (Task.Value place to)) tasks.old tasks.new) }
{
    match nodes.node(place) {
        Node::Leaf(operand) => put(simple(operand), to, out),
        Node::One(op, a) => one_value(nodes, op, a, to, tasks, out),
        Node::Two(op, a, b) => two_value(nodes, op, a, b, to, tasks, out),
    }
}

/// Lays an operator of one part, with its value in a variable.
#[tactic(auto, unfolding(crate::specs::Meaning::related))]
fn one_value<B: Bounds>(
    nodes: &Nodes,
    op: Unary,
    a: usize,
    to: u8,
    tasks: &mut Tasks,
    out: &mut Output<B>,
) -> Result<(), AllocError>
    ensures code { OnOk result (Leads B.most nodes.now ((one B.most op (at B.most nodes.now a)).value to) tasks.old tasks.new out.old
        out.new) }
    ensures less { OnOk result (WeighsUnder nodes.now (18 + load_at nodes.now a) tasks.old tasks.new) }
{
    match op {
        Unary::Negate => {
            let instruction = Worked::Negate(a, to);
            with_few(nodes, Few::One(a), instruction, tasks, out)
        }
        Unary::Not => {
            let fails = truth(to, tasks, out)?;
            tasks.first(Task::Branch(a, true, fails))
        }
        Unary::Single(single) => {
            let instruction = Worked::Single(single, a, to);
            with_few(nodes, Few::One(a), instruction, tasks, out)
        }
        Unary::Before(step) => step_value(nodes, true, step, a, to, tasks, out),
        Unary::Behind(step) => step_value(nodes, false, step, a, to, tasks, out),
        Unary::Relative(relative) => {
            let next = out.label();
            tasks.first(Task::Mark(next))?;
            let instruction = Worked::Find(relative, a, to, next);
            with_few(nodes, Few::One(a), instruction, tasks, out)
        }
        Unary::Children => with_routine(nodes, Veneer::Children, Few::One(a), Some(to), tasks, out),
        Unary::Call => bare_call(nodes, a, Some(to), tasks, out),
        Unary::Indirect => with_members(nodes, a, Worked::Indirect(a, Some(to)), tasks, out),
    }
}

/// Lays an operator of two parts, with its value in a variable.
#[tactic(auto, unfolding(crate::specs::Meaning::and_branch, crate::specs::Meaning::or_branch))]
fn two_value<B: Bounds>(
    nodes: &Nodes,
    op: Binary,
    a: usize,
    b: usize,
    to: u8,
    tasks: &mut Tasks,
    out: &mut Output<B>,
) -> Result<(), AllocError>
    ensures code { let code = (two B.most op (at B.most nodes.now a) (at B.most nodes.now b)).value to in
        OnOk result (Leads B.most nodes.now code tasks.old tasks.new out.old out.new) }
    ensures less { OnOk result (WeighsUnder nodes.now (18 + load_at nodes.now a + load_at nodes.now b) tasks.old tasks.new) }
{
    match op {
        Binary::Operation(operation) => {
            let instruction = Worked::Compute(operation, a, b, to);
            with_few(nodes, Few::Two(a, b), instruction, tasks, out)
        }
        Binary::Property(asked) => with_routine(
            nodes,
            reader(asked),
            Few::Two(a, b),
            Some(to),
            tasks,
            out,
        ),
        Binary::Test(test) => {
            let fails = truth(to, tasks, out)?;
            test_branch(nodes, test, a, b, false, fails, tasks, out)
        }
        Binary::Fails(test) => {
            let fails = truth(to, tasks, out)?;
            test_branch(nodes, test, a, b, true, fails, tasks, out)
        }
        Binary::Assign => assign_value(nodes, a, b, to, tasks, out),
        Binary::Comma => {
            tasks.first(Task::Value(b, to))?;
            tasks.first(Task::Alone(a))
        }
        Binary::And => {
            let fails = truth(to, tasks, out)?;
            either(a, b, false, fails, tasks)
        }
        Binary::Or => {
            let fails = truth(to, tasks, out)?;
            both(a, b, false, fails, tasks, out)
        }
        Binary::Call => call_of(nodes, a, b, Some(to), tasks, out),
        Binary::Then | Binary::To => tasks.first(Task::Value(a, to)),
    }
}

/// Lays a tree without result.
pub(crate) fn alone<B: Bounds>(
    nodes: &Nodes,
    place: usize,
    tasks: &mut Tasks,
    out: &mut Output<B>,
) -> Result<(), AllocError>
    ensures code { OnOk result (Leads B.most nodes.now (task_code B.most nodes.now (Task.Alone place)) tasks.old tasks.new
        out.old out.new) }
    ensures less { OnOk result (WeighsUnder nodes.now (weight nodes.now (Task.Alone place)) tasks.old tasks.new) }
{
    match nodes.node(place) {
        Node::Leaf(_) => Ok(()),
        Node::One(Unary::Before(step), a) => step_alone(nodes, true, step, a, tasks, out),
        Node::One(Unary::Behind(step), a) => step_alone(nodes, false, step, a, tasks, out),
        Node::One(Unary::Children, a) => with_routine(
            nodes,
            Veneer::Children,
            Few::One(a),
            None,
            tasks,
            out,
        ),
        Node::One(Unary::Call, f) => bare_call(nodes, f, None, tasks, out),
        Node::One(Unary::Indirect, list) => with_members(
            nodes,
            list,
            Worked::Indirect(list, None),
            tasks,
            out,
        ),
        Node::Two(Binary::Property(asked), a, b) => with_routine(
            nodes,
            reader(asked),
            Few::Two(a, b),
            None,
            tasks,
            out,
        ),
        Node::Two(Binary::Assign, v, a) => assign_alone(nodes, v, a, tasks, out),
        Node::Two(Binary::Call, f, list) => call_of(nodes, f, list, None, tasks, out),
        Node::Two(Binary::Then | Binary::To, a, _) => tasks.first(Task::Alone(a)),
        Node::One(Unary::Negate | Unary::Not | Unary::Single(_) | Unary::Relative(_), _)
        | Node::Two(
            Binary::Operation(_)
            | Binary::Test(_)
            | Binary::Fails(_)
            | Binary::Comma
            | Binary::And
            | Binary::Or,
            _,
            _,
        ) => value(nodes, place, TEMP, tasks, out),
    }
}

/// Lays a tree as a branch to `label` where its truth is `sense`.
#[tactic(auto, unfolding(crate::specs::Meaning::and_branch, crate::specs::Meaning::or_branch))]
pub(crate) fn branch<B: Bounds>(
    nodes: &Nodes,
    place: usize,
    sense: bool,
    label: Label,
    tasks: &mut Tasks,
    out: &mut Output<B>,
) -> Result<(), AllocError>
    ensures code { let code = task_code B.most nodes.now (Task.Branch place sense label) in
        OnOk result (Leads B.most nodes.now code tasks.old tasks.new out.old out.new) }
    ensures less { OnOk result (WeighsUnder nodes.now (weight nodes.now (Task.Branch place sense label)) tasks.old tasks.new) }
{
    match nodes.node(place) {
        Node::Leaf(operand) => leaf_branch(simple(operand), sense, label, out),
        Node::One(Unary::Not, a) => tasks.first(Task::Branch(a, !sense, label)),
        Node::Two(Binary::And, a, b) if sense => both(a, b, true, label, tasks, out),
        Node::Two(Binary::And, a, b) => either(a, b, false, label, tasks),
        Node::Two(Binary::Or, a, b) if sense => either(a, b, true, label, tasks),
        Node::Two(Binary::Or, a, b) => both(a, b, false, label, tasks, out),
        Node::Two(Binary::Test(test), a, list) => test_branch(
            nodes, test, a, list, sense, label, tasks, out,
        ),
        Node::Two(Binary::Fails(test), a, list) => test_branch(
            nodes, test, a, list, !sense, label, tasks, out,
        ),
        Node::One(
            Unary::Negate
            | Unary::Single(_)
            | Unary::Before(_)
            | Unary::Behind(_)
            | Unary::Relative(_)
            | Unary::Children
            | Unary::Call
            | Unary::Indirect,
            _,
        )
        | Node::Two(
            Binary::Operation(_)
            | Binary::Property(_)
            | Binary::Assign
            | Binary::Comma
            | Binary::Call
            | Binary::Then
            | Binary::To,
            _,
            _,
        ) => {
            tasks.first(Task::JumpZero(Simple::Variable(STACK), sense, label))?;
            value(nodes, place, STACK, tasks, out)
        }
    }
}

/// Puts first the task for the end of a condition whose value is wanted: variable `d` becomes 1 where the branch is not taken,
/// otherwise 0. Returns the label for that branch.
fn truth<B: Bounds>(d: u8, tasks: &mut Tasks, out: &mut Output<B>) -> Result<Label, AllocError>
    ensures code { IfOk result (λ fails. (trees : List Tree) →
        Puts B.most trees (truth_behind B.most fails (next_label (record out.old { next = behind out.old.next })) d) tasks.old tasks.new) }
    ensures less { OnOk result ((trees : List Tree) → WeighsUnder trees 2 tasks.old tasks.new) }
    ensures label { IfOk result (λ fails. fails ≡ next_label out.old) }
    ensures out { out.new ≡ record out.old { next = behind (behind out.old.next) } }
{
    let fails = out.label();
    let last = out.label();
    tasks.first(Task::Truth(d, fails, last))?;
    Ok(fails)
}

/// Lays a simple tree as a branch.
fn leaf_branch<B: Bounds>(
    operand: Simple,
    sense: bool,
    label: Label,
    out: &mut Output<B>,
) -> Result<(), AllocError>
    ensures { OnOk result (out.new ≡ leaf_branch B.most operand sense label out.old) }
{
    match operand {
        Simple::Known(number) => {
            if (number != 0) == sense {
                out.jump(label)
            } else {
                Ok(())
            }
        }
        Simple::Variable(_) | Simple::Later(_) => jump_zero(operand, sense, label, out),
    }
}

/// Puts first the tasks of two trees as a branch, of which the first decides where its truth is `sense`.
fn either(
    a: usize,
    b: usize,
    sense: bool,
    label: Label,
    tasks: &mut Tasks,
) -> Result<(), AllocError>
    ensures code { OnOk result ((limits : Limits) (trees : List Tree) → Puts limits trees (either (at limits trees a) (at limits trees b)
        sense label) tasks.old tasks.new) }
    ensures less { OnOk result ((trees : List Tree) → WeighsUnder trees (7 + load_at trees a + load_at trees b) tasks.old tasks.new) }
{
    tasks.first(Task::Branch(b, sense, label))?;
    tasks.first(Task::Branch(a, sense, label))
}

/// Lays two trees as a branch, of which the first decides where its truth is not `sense`.
fn both<B: Bounds>(
    a: usize,
    b: usize,
    sense: bool,
    label: Label,
    tasks: &mut Tasks,
    out: &mut Output<B>,
) -> Result<(), AllocError>
    ensures code { OnOk result ((trees : List Tree) →
        Leads B.most trees (both B.most (at B.most trees a) (at B.most trees b) sense label) tasks.old tasks.new out.old out.new) }
    ensures less { OnOk result ((trees : List Tree) → WeighsUnder trees (8 + load_at trees a + load_at trees b) tasks.old tasks.new) }
{
    let over = out.label();
    tasks.first(Task::Mark(over))?;
    tasks.first(Task::Branch(b, sense, label))?;
    tasks.first(Task::Branch(a, !sense, over))
}

/// Lays `++` or `--` with a value: that behind the step or that before it.
#[tactic(auto, unfolding(crate::specs::Meaning::step_value))]
fn step_value<B: Bounds>(
    nodes: &Nodes,
    before: bool,
    step: Direction,
    a: usize,
    to: u8,
    tasks: &mut Tasks,
    out: &mut Output<B>,
) -> Result<(), AllocError>
    ensures code { let code = step_value B.most before step (at B.most nodes.now a) to in
        OnOk result (Leads B.most nodes.now code tasks.old tasks.new out.old out.new) }
    ensures less { OnOk result (WeighsUnder nodes.now (8 + load_at nodes.now a) tasks.old tasks.new) }
{
    match target(nodes, a) {
        Goal::Nowhere => tasks.first(Task::Value(a, to)),
        Goal::Variable(variable) if before => {
            stepping(step, variable, out)?;
            load(variable, to, out)
        }
        Goal::Variable(variable) => {
            load(variable, to, out)?;
            stepping(step, variable, out)
        }
        Goal::Memory(memory, x, y) => {
            let instruction = Worked::StepInMemory(before, step, memory, x, y, Some(to));
            with_few(nodes, Few::Two(x, y), instruction, tasks, out)
        }
    }
}

/// Lays `++` or `--` without result.
#[tactic(auto, unfolding(crate::specs::Meaning::step_alone))]
fn step_alone<B: Bounds>(
    nodes: &Nodes,
    before: bool,
    step: Direction,
    a: usize,
    tasks: &mut Tasks,
    out: &mut Output<B>,
) -> Result<(), AllocError>
    ensures code { let code = step_alone B.most before step (at B.most nodes.now a) in
        OnOk result (Leads B.most nodes.now code tasks.old tasks.new out.old out.new) }
    ensures less { OnOk result (WeighsUnder nodes.now (8 + load_at nodes.now a) tasks.old tasks.new) }
{
    match target(nodes, a) {
        Goal::Nowhere => tasks.first(Task::Alone(a)),
        Goal::Variable(variable) => stepping(step, variable, out),
        Goal::Memory(memory, x, y) => {
            let instruction = Worked::StepInMemory(before, step, memory, x, y, None);
            with_few(nodes, Few::Two(x, y), instruction, tasks, out)
        }
    }
}

/// Lays an assignment with its value.
#[tactic(auto, unfolding(crate::specs::Meaning::assign_value))]
fn assign_value<B: Bounds>(
    nodes: &Nodes,
    v: usize,
    a: usize,
    to: u8,
    tasks: &mut Tasks,
    out: &mut Output<B>,
) -> Result<(), AllocError>
    ensures code { let code = assign_value B.most (at B.most nodes.now v) (at B.most nodes.now a) to in
        OnOk result (Leads B.most nodes.now code tasks.old tasks.new out.old out.new) }
    ensures less { OnOk result (WeighsUnder nodes.now (8 + load_at nodes.now v + load_at nodes.now a) tasks.old tasks.new) }
{
    match target(nodes, v) {
        Goal::Nowhere => tasks.first(Task::Value(a, to)),
        Goal::Variable(variable) => {
            tasks.first(Task::Load(variable, to))?;
            tasks.first(Task::Value(a, variable))
        }
        Goal::Memory(memory, x, y) => {
            with_routine(
                nodes,
                setter(memory),
                Few::Three(x, y, a),
                Some(to),
                tasks,
                out,
            )
        }
    }
}

/// Lays an assignment without result.
#[tactic(auto, unfolding(crate::specs::Meaning::assign_alone))]
fn assign_alone<B: Bounds>(
    nodes: &Nodes,
    v: usize,
    a: usize,
    tasks: &mut Tasks,
    out: &mut Output<B>,
) -> Result<(), AllocError>
    ensures code { let code = assign_alone B.most (at B.most nodes.now v) (at B.most nodes.now a) in
        OnOk result (Leads B.most nodes.now code tasks.old tasks.new out.old out.new) }
    ensures less { OnOk result (WeighsUnder nodes.now (8 + load_at nodes.now v + load_at nodes.now a) tasks.old tasks.new) }
{
    match target(nodes, v) {
        Goal::Nowhere => tasks.first(Task::Alone(a)),
        Goal::Variable(variable) => value(nodes, a, variable, tasks, out),
        Goal::Memory(memory, x, y) => {
            let instruction = Worked::Store(memory, x, y, a);
            with_few(nodes, Few::Three(x, y, a), instruction, tasks, out)
        }
    }
}

/// Lays a call without arguments.
#[tactic(auto, unfolding(crate::specs::Meaning::call_of))]
fn bare_call<B: Bounds>(
    nodes: &Nodes,
    f: usize,
    store: Option<u8>,
    tasks: &mut Tasks,
    out: &mut Output<B>,
) -> Result<(), AllocError>
    ensures code { let code = call_of B.most (at B.most nodes.now f) [] store in
        OnOk result (Leads B.most nodes.now code tasks.old tasks.new out.old out.new) }
    ensures less { OnOk result (WeighsUnder nodes.now (8 + load_at nodes.now f) tasks.old tasks.new) }
{
    match target(nodes, f) {
        Goal::Memory(Memory::Property, a, b) => {
            with_routine(
                nodes,
                Veneer::CallProperty,
                Few::Two(a, b),
                store,
                tasks,
                out,
            )
        }
        Goal::Memory(Memory::Byte | Memory::Word, _, _) | Goal::Nowhere | Goal::Variable(_) => {
            let instruction = Worked::BareCall(f, store);
            with_few(nodes, Few::One(f), instruction, tasks, out)
        }
    }
}

/// Lays a call with a list of arguments.
#[tactic(auto, unfolding(crate::specs::Meaning::call_of))]
fn call_of<B: Bounds>(
    nodes: &Nodes,
    f: usize,
    list: usize,
    store: Option<u8>,
    tasks: &mut Tasks,
    out: &mut Output<B>,
) -> Result<(), AllocError>
    ensures code { let code = call_of B.most (at B.most nodes.now f) (parts (at B.most nodes.now list)) store in
        OnOk result (Leads B.most nodes.now code tasks.old tasks.new out.old out.new) }
    ensures less { OnOk result (WeighsUnder nodes.now (12 + load_at nodes.now f + load_at nodes.now list) tasks.old tasks.new) }
{
    match target(nodes, f) {
        Goal::Memory(Memory::Property, a, b) => {
            tasks.first(Task::Instruct(Worked::Message(a, b, list, store)))?;
            before(nodes, a, tasks)?;
            before(nodes, b, tasks)?;
            members(nodes, list, tasks)
        }
        Goal::Memory(Memory::Byte | Memory::Word, _, _) | Goal::Nowhere | Goal::Variable(_) => {
            if is_simple(nodes, f) && are_simple(nodes, list) {
                return call(nodes, f, list, store, out);
            }
            tasks.first(Task::Instruct(Worked::Call(f, list, store)))?;
            before(nodes, f, tasks)?;
            members(nodes, list, tasks)
        }
    }
}
