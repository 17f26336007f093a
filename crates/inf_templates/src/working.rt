//! Instructions whose parts are worked out.
ghost use Rattle.inf_settings.specs.Bounds.{Limits};
ghost use Rattle.std.specs.Prelude.{◌≡◌, ◌≤◌, ◌<◌, ◌++◌, OnOk, length, take};
ghost use Rattle.inf_templates.specs.{Meaning.parts, Parts.operands, declared.tasks.Worked.Worked};
ghost use Rattle.inf_templates.specs.Tasks.{at, few_parts, worked_code};

use crate::placing::{
    MOST_ARGUMENTS, by, calling, calling_routine, compared, leaves_new, operation_opcode,
    related_opcode, single_opcode, stepper, stored, to,
};
use crate::reading::{argument_of, most_compared, operand_of, split};
use crate::tasks::{Argument, Few, Memory, Worked};
use arrayvec::ArrayVec;
use inf_expressions::{Direction, Nodes, Operation, Relative, Test};
use inf_opcode::{Label, MOST_OPERANDS, Opcode};
use inf_output::{Output, Simple, Veneer};
use inf_settings::bounds::Bounds;
use std::alloc::AllocError;

/// Appends the operands of the members of `list` to `front`, up to `most` operands in all.
fn with_list(
    nodes: &Nodes,
    front: ArrayVec<Simple, MOST_OPERANDS>,
    list: usize,
    most: usize,
) -> ArrayVec<Simple, MOST_OPERANDS>
    requires front { length front.items ≤ most }
    requires few { most ≤ 8 }
    ensures value { (limits : Limits) → result.items ≡ take most (front.items ++ operands (parts (at limits nodes.now list))) }
    ensures few { length result.items ≤ most }
    ensures more { length front.items < most → length front.items < length result.items }
{
    let mut operands = front;
    let mut left = list;
    for _ in operands.len()..most {
        match split(nodes, left) {
            Some((a, others)) => {
                operands.push(operand_of(nodes, a));
                left = others;
            }
            None => {
                operands.push(operand_of(nodes, left));
                return operands;
            }
        }
    }
    operands
}

/// Returns the operands of one to three trees.
fn few_operands(nodes: &Nodes, few: Few) -> ArrayVec<Simple, MOST_OPERANDS>
    ensures { (limits : Limits) → result.items ≡ operands (few_parts limits nodes.now few) }
{
    let mut operands = ArrayVec::new();
    match few {
        Few::One(a) => operands.push(operand_of(nodes, a)),
        Few::Two(a, b) => {
            operands.push(operand_of(nodes, a));
            operands.push(operand_of(nodes, b));
        }
        Few::Three(a, b, c) => {
            operands.push(operand_of(nodes, a));
            operands.push(operand_of(nodes, b));
            operands.push(operand_of(nodes, c));
        }
    }
    operands
}

/// Lays the instruction of an operation.
fn compute<B: Bounds>(
    nodes: &Nodes,
    operation: Operation,
    a: usize,
    b: usize,
    d: u8,
    out: &mut Output<B>,
) -> Result<(), AllocError>
    ensures { OnOk result (out.new ≡ worked_code B.most nodes.now (Worked.Compute operation a b d) out.old) }
{
    let operands = [operand_of(nodes, a), operand_of(nodes, b)];
    out.instruct(operation_opcode(operation), &operands, Some(d), None)
}

/// Lays the instruction that finds an object, and branches where there is one.
fn find<B: Bounds>(
    nodes: &Nodes,
    relative: Relative,
    a: usize,
    d: u8,
    label: Label,
    out: &mut Output<B>,
) -> Result<(), AllocError>
    ensures { OnOk result (out.new ≡ worked_code B.most nodes.now (Worked.Find relative a d label) out.old) }
{
    let operands = [operand_of(nodes, a)];
    out.instruct(
        related_opcode(relative),
        &operands,
        Some(d),
        to(true, label),
    )
}

/// Lays a test for equality with three alternatives.
fn three<B: Bounds>(
    nodes: &Nodes,
    x: Simple,
    b: usize,
    c: usize,
    d: usize,
    label: Label,
    out: &mut Output<B>,
) -> Result<(), AllocError>
    ensures { OnOk result (out.new ≡ worked_code B.most nodes.now (Worked.Three x b c d label) out.old) }
{
    let operands = [
        x,
        operand_of(nodes, b),
        operand_of(nodes, c),
        operand_of(nodes, d),
    ];
    compared(Test::Equal, &operands, true, label, out)
}

/// Lays the storing of a value in memory.
fn store<B: Bounds>(
    nodes: &Nodes,
    memory: Memory,
    a: usize,
    b: usize,
    c: usize,
    out: &mut Output<B>,
) -> Result<(), AllocError>
    ensures { OnOk result (out.new ≡ worked_code B.most nodes.now (Worked.Store memory a b c) out.old) }
{
    let operands = [
        operand_of(nodes, a),
        operand_of(nodes, b),
        operand_of(nodes, c),
    ];
    stored(memory, &operands, out)
}

/// Lays a step of a value in memory.
fn step_in_memory<B: Bounds>(
    nodes: &Nodes,
    before: bool,
    step: Direction,
    memory: Memory,
    a: usize,
    b: usize,
    store: Option<u8>,
    out: &mut Output<B>,
) -> Result<(), AllocError>
    ensures { OnOk result (out.new ≡ worked_code B.most nodes.now (Worked.StepInMemory before step memory a b store) out.old) }
{
    let operands = [
        operand_of(nodes, a),
        operand_of(nodes, b),
        by(step),
        leaves_new(before),
    ];
    calling_routine(stepper(memory), &operands, store, out)
}

/// Lays a test with any member of a list, of which the instruction takes the first members.
pub(crate) fn any<B: Bounds>(
    nodes: &Nodes,
    test: Test,
    a: Argument,
    list: usize,
    sense: bool,
    label: Label,
    out: &mut Output<B>,
) -> Result<(), AllocError>
    ensures { OnOk result (out.new ≡ worked_code B.most nodes.now (Worked.Any test a list sense label) out.old) }
{
    let mut front = ArrayVec::new();
    front.push(argument_of::<B>(nodes, a));
    let operands = with_list(nodes, front, list, most_compared(test));
    compared(test, &operands, sense, label, out)
}

/// Lays a call with a list of arguments.
#[tactic(auto, using(crate::proofs::Cuts::calling_given))]
pub(crate) fn call<B: Bounds>(
    nodes: &Nodes,
    f: usize,
    list: usize,
    store: Option<u8>,
    out: &mut Output<B>,
) -> Result<(), AllocError>
    ensures { OnOk result (out.new ≡ worked_code B.most nodes.now (Worked.Call f list store) out.old) }
{
    let arguments = with_list(nodes, ArrayVec::new(), list, MOST_ARGUMENTS);
    calling(operand_of(nodes, f), &arguments, store, out)
}

/// Lays a call of a property of an object.
#[tactic(auto, using(crate::proofs::Cuts::calling_routine_given))]
fn message<B: Bounds>(
    nodes: &Nodes,
    a: usize,
    b: usize,
    list: usize,
    store: Option<u8>,
    out: &mut Output<B>,
) -> Result<(), AllocError>
    ensures { OnOk result (out.new ≡ worked_code B.most nodes.now (Worked.Message a b list store) out.old) }
{
    let mut front = ArrayVec::new();
    front.push(operand_of(nodes, a));
    front.push(operand_of(nodes, b));
    let arguments = with_list(nodes, front, list, MOST_ARGUMENTS);
    calling_routine(Veneer::CallProperty, &arguments, store, out)
}

/// Lays a call of the first member of a list, with the others as arguments.
fn indirect<B: Bounds>(
    nodes: &Nodes,
    list: usize,
    store: Option<u8>,
    out: &mut Output<B>,
) -> Result<(), AllocError>
    ensures { OnOk result (out.new ≡ worked_code B.most nodes.now (Worked.Indirect list store) out.old) }
{
    match split(nodes, list) {
        Some((f, others)) => call(nodes, f, others, store, out),
        None => calling(operand_of(nodes, list), &[], store, out),
    }
}

/// Lays an instruction whose parts are worked out. It is inlined: most callers know which one it is.
#[inline(always)]
pub(crate) fn work<B: Bounds>(
    nodes: &Nodes,
    instruction: Worked,
    out: &mut Output<B>,
) -> Result<(), AllocError>
    ensures { OnOk result (out.new ≡ worked_code B.most nodes.now instruction out.old) }
{
    match instruction {
        Worked::Compute(operation, a, b, d) => compute(nodes, operation, a, b, d, out),
        Worked::Negate(a, d) => {
            let operands = [Simple::Known(0), operand_of(nodes, a)];
            out.instruct(Opcode::Sub, &operands, Some(d), None)
        }
        Worked::Single(single, a, d) => {
            let operands = [operand_of(nodes, a)];
            out.instruct(single_opcode(single), &operands, Some(d), None)
        }
        Worked::Find(relative, a, d, label) => find(nodes, relative, a, d, label, out),
        Worked::Three(x, b, c, d, label) => three(nodes, x, b, c, d, label, out),
        Worked::Compare(test, x, b, sense, label) => {
            let operands = [x, operand_of(nodes, b)];
            compared(test, &operands, sense, label, out)
        }
        Worked::Any(test, a, list, sense, label) => any(nodes, test, a, list, sense, label, out),
        Worked::Store(memory, a, b, c) => store(nodes, memory, a, b, c, out),
        Worked::Routine(veneer, few, store) => {
            calling_routine(veneer, &few_operands(nodes, few), store, out)
        }
        Worked::StepInMemory(before, step, memory, a, b, store) => step_in_memory(
            nodes, before, step, memory, a, b, store, out,
        ),
        Worked::BareCall(f, store) => calling(operand_of(nodes, f), &[], store, out),
        Worked::Call(f, list, store) => call(nodes, f, list, store, out),
        Worked::Message(a, b, list, store) => message(nodes, a, b, list, store, out),
        Worked::Indirect(list, store) => indirect(nodes, list, store, out),
    }
}
