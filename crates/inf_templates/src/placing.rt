//! Instructions by simple operands.
ghost use Rattle.std.specs.Prelude.{◌≡◌, ◌≤◌, ◌+◌, [], ◌∷◌, OnOk, is_some, length, not, take, false, true};
ghost use Rattle.inf_output.specs.Output.{Takes, to};
ghost use Rattle.inf_templates.specs.Parts.{call_opcode, calling, calling_routine, jump_zero, load, put};
ghost use Rattle.inf_templates.specs.Meaning.{branching, asking, by, compared, leaves_new, most_compared, operation_opcode, related_opcode};
ghost use Rattle.inf_templates.specs.Meaning.{reader, setter, single_opcode, stepper, stepping, stored};

use crate::reading::STACK;
use crate::tasks::Memory;
use arrayvec::ArrayVec;
use inf_expressions::{Direction, Operation, PropertyPart, Relative, Single, Test};
use inf_opcode::{Branch, Destination, Label, MOST_OPERANDS, Opcode};
use inf_output::{Output, Simple, Veneer};
use inf_settings::bounds::Bounds;
use std::alloc::AllocError;

/// The most arguments of a call.
pub(crate) const MOST_ARGUMENTS: usize = 7;

/// Returns a branch to `label` that is taken where the truth of a test is `sense`.
pub(crate) fn to(sense: bool, label: Label) -> Option<Branch>
    ensures { result ≡ to sense label }
{
    Some(Branch {
        sense,
        target: Destination::To(label),
    })
}

pub(crate) fn put<B: Bounds>(operand: Simple, d: u8, out: &mut Output<B>) -> Result<(), AllocError>
    ensures { OnOk result (out.new ≡ put B.most operand d out.old) }
{
    if d == STACK {
        out.instruct(Opcode::Push, &[operand], None, None)
    } else {
        out.instruct_naming(Opcode::Store, d, &[operand], None, None)
    }
}

pub(crate) fn load<B: Bounds>(variable: u8, d: u8, out: &mut Output<B>) -> Result<(), AllocError>
    ensures { OnOk result (out.new ≡ load B.most variable d out.old) }
{
    out.instruct_naming(Opcode::Load, variable, &[], Some(d), None)
}

pub(crate) fn jump_zero<B: Bounds>(
    operand: Simple,
    sense: bool,
    label: Label,
    out: &mut Output<B>,
) -> Result<(), AllocError>
    ensures { OnOk result (out.new ≡ jump_zero B.most operand sense label out.old) }
{
    out.instruct(Opcode::Jz, &[operand], None, to(!sense, label))
}

/// Lays a step of a variable.
pub(crate) fn stepping<B: Bounds>(
    step: Direction,
    variable: u8,
    out: &mut Output<B>,
) -> Result<(), AllocError>
    ensures { OnOk result (out.new ≡ stepping B.most step variable out.old) }
{
    match step {
        Direction::Up => out.instruct_naming(Opcode::Inc, variable, &[], None, None),
        Direction::Down => out.instruct_naming(Opcode::Dec, variable, &[], None, None),
    }
}

/// Returns the opcode of a call with `arguments` arguments, at most seven, whose result is stored where `store` is a variable.
fn call_opcode(store: Option<u8>, arguments: usize) -> Opcode
    requires { arguments ≤ 7 }
    ensures value { result ≡ call_opcode store arguments }
    ensures takes { Takes result (arguments + 1) (is_some store) false }
{
    match (store, arguments) {
        (Some(_), 0) => Opcode::Call1s,
        (Some(_), 1) => Opcode::Call2s,
        (Some(_), 2 | 3) => Opcode::CallVs,
        (Some(_), _) => Opcode::CallVs2,
        (None, 0) => Opcode::Call1n,
        (None, 1) => Opcode::Call2n,
        (None, 2 | 3) => Opcode::CallVn,
        (None, _) => Opcode::CallVn2,
    }
}

/// Returns the first `most` members of `list`, or all where it has fewer.
pub(crate) fn cut<T>(list: &[T], most: usize) -> &[T]
    ensures value { result.now ≡ take most list.now }
    ensures few { length result.now ≤ most }
{
    list.get(..most).unwrap_or(list)
}

/// Lays a call, of whose arguments the first seven are given.
#[tactic(auto, unfolding(crate::specs::Parts::calling))]
pub(crate) fn calling<B: Bounds>(
    routine: Simple,
    arguments: &[Simple],
    store: Option<u8>,
    out: &mut Output<B>,
) -> Result<(), AllocError>
    ensures { OnOk result (out.new ≡ calling B.most routine arguments.now store out.old) }
{
    let given = cut(arguments, MOST_ARGUMENTS);
    let mut operands: ArrayVec<Simple, MOST_OPERANDS> = ArrayVec::new();
    operands.push(routine);
    if operands.try_extend_from_slice(given).is_err() {
        unreachable!()
    }
    out.instruct(call_opcode(store, given.len()), &operands, store, None)
}

#[tactic(auto, unfolding(crate::specs::Parts::calling_routine))]
pub(crate) fn calling_routine<B: Bounds>(
    veneer: Veneer,
    arguments: &[Simple],
    store: Option<u8>,
    out: &mut Output<B>,
) -> Result<(), AllocError>
    ensures { OnOk result (out.new ≡ calling_routine B.most veneer arguments.now store out.old) }
{
    let routine = out.routine(veneer)?;
    calling(routine, arguments, store, out)
}

/// Returns the opcode of an operation.
pub(crate) fn operation_opcode(operation: Operation) -> Opcode
    ensures value { result ≡ operation_opcode operation }
    ensures takes { Takes result 2 true false }
{
    match operation {
        Operation::Add => Opcode::Add,
        Operation::Subtract => Opcode::Sub,
        Operation::Multiply => Opcode::Mul,
        Operation::Divide => Opcode::Div,
        Operation::Remainder => Opcode::Mod,
        Operation::BitAnd => Opcode::And,
        Operation::BitOr => Opcode::Or,
        Operation::Byte => Opcode::Loadb,
        Operation::Word => Opcode::Loadw,
    }
}

pub(crate) fn single_opcode(single: Single) -> Opcode
    ensures value { result ≡ single_opcode single }
    ensures takes { Takes result 1 true false }
{
    match single {
        Single::Complement => Opcode::Not,
        Single::Parent => Opcode::GetParent,
        Single::Random => Opcode::Random,
    }
}

pub(crate) fn related_opcode(relative: Relative) -> Opcode
    ensures value { result ≡ related_opcode relative }
    ensures takes { Takes result 1 true true }
{
    match relative {
        Relative::Child => Opcode::GetChild,
        Relative::Sibling => Opcode::GetSibling,
    }
}

pub(crate) fn setter(memory: Memory) -> Veneer
    ensures { result ≡ setter memory }
{
    match memory {
        Memory::Byte => Veneer::WriteByte,
        Memory::Word => Veneer::WriteWord,
        Memory::Property => Veneer::WriteProperty,
    }
}

pub(crate) fn stepper(memory: Memory) -> Veneer
    ensures { result ≡ stepper memory }
{
    match memory {
        Memory::Byte => Veneer::StepByte,
        Memory::Word => Veneer::StepWord,
        Memory::Property => Veneer::StepProperty,
    }
}

pub(crate) fn reader(asked: PropertyPart) -> Veneer
    ensures { result ≡ reader asked }
{
    match asked {
        PropertyPart::Value => Veneer::ReadProperty,
        PropertyPart::Address => Veneer::PropertyAddress,
        PropertyPart::Length => Veneer::PropertyLength,
    }
}

/// Returns the operand that a step adds, modulo 65536.
pub(crate) fn by(step: Direction) -> Simple
    ensures { result ≡ by step }
{
    match step {
        Direction::Up => Simple::Known(1),
        Direction::Down => Simple::Known(65535),
    }
}

/// Returns the argument that says whether a step leaves the new value: 1 where it comes before the value, otherwise 0.
pub(crate) fn leaves_new(before: bool) -> Simple
    ensures { result ≡ leaves_new before }
{
    if before {
        Simple::Known(1)
    } else {
        Simple::Known(0)
    }
}

/// Lays the storing of a value in memory.
pub(crate) fn stored<B: Bounds>(
    memory: Memory,
    operands: &[Simple; 3],
    out: &mut Output<B>,
) -> Result<(), AllocError>
    ensures { OnOk result (out.new ≡ stored B.most memory operands.now out.old) }
{
    match memory {
        Memory::Byte => out.instruct(Opcode::Storeb, operands, None, None),
        Memory::Word => out.instruct(Opcode::Storew, operands, None, None),
        Memory::Property => calling_routine(Veneer::WriteProperty, operands, None, out),
    }
}

/// Lays an instruction that branches to `label` where its truth is `sense`.
fn branching<B: Bounds>(
    opcode: Opcode,
    operands: &[Simple],
    sense: bool,
    label: Label,
    out: &mut Output<B>,
) -> Result<(), AllocError>
    requires { Takes opcode (length operands.now) false true }
    ensures { OnOk result (out.new ≡ branching B.most opcode operands.now sense label out.old) }
{
    out.instruct(opcode, operands, None, to(sense, label))
}

fn asking<B: Bounds>(
    veneer: Veneer,
    operands: &[Simple],
    sense: bool,
    label: Label,
    out: &mut Output<B>,
) -> Result<(), AllocError>
    ensures { OnOk result (out.new ≡ asking B.most veneer operands.now sense label out.old) }
{
    calling_routine(veneer, operands, Some(STACK), out)?;
    jump_zero(Simple::Variable(STACK), sense, label, out)
}

pub(crate) fn compared<B: Bounds>(
    test: Test,
    operands: &[Simple],
    sense: bool,
    label: Label,
    out: &mut Output<B>,
) -> Result<(), AllocError>
    requires enough { 2 ≤ length operands.now }
    requires few { length operands.now ≤ most_compared test }
    ensures { OnOk result (out.new ≡ compared B.most test operands.now sense label out.old) }
{
    match test {
        Test::Equal => branching(Opcode::Je, operands, sense, label, out),
        Test::Less => branching(Opcode::Jl, operands, sense, label, out),
        Test::Greater => branching(Opcode::Jg, operands, sense, label, out),
        Test::AtMost => branching(Opcode::Jg, operands, !sense, label, out),
        Test::AtLeast => branching(Opcode::Jl, operands, !sense, label, out),
        Test::Has => branching(Opcode::TestAttr, operands, sense, label, out),
        Test::In => branching(Opcode::Jin, operands, sense, label, out),
        Test::OfClass => asking(Veneer::OfClass, operands, sense, label, out),
        Test::Provides => asking(Veneer::Provides, operands, sense, label, out),
    }
}
