//! Code that takes additions in turn under its limits.
ghost use Rattle.std.specs.Prelude.{◌≡◌};
ghost use Rattle.inf_code.specs.Code.{code_limits};

use crate::areas::bytes_of;
use crate::code_steps::{Addition, Question, Step, step_of};
use crate::fixups::fixups_of;
use inf_area::{AddFault, AreaName, PagedArea, Refs, Scale, Target};
use inf_assembler::{CloseFault, GrowFault, RoutineKind};
use inf_code::code::{Code, CodeLimits};
use inf_opcode::{Branch, Destination, Instruction, Label, Opcode, Operand};
use inf_settings::bounds::Bounds;
use inf_test_lines::{debugged, done, number_or, shown, text_of};
use std::alloc::{AllocError, Global};
use std::marker::Brand;

/// Emits a call of a routine with the first local.
fn emit_call<B: Bounds>(code: &mut Code<B>, number: usize) -> Result<(), GrowFault> {
    let operands = [Operand::Later(Target::Name(number)), Operand::Variable(1)];
    code.emit(&Instruction::new(Opcode::Call2n, &operands, None))
}

/// Emits a return of the number of a routine.
fn emit_return<B: Bounds>(code: &mut Code<B>, number: usize) -> Result<(), GrowFault> {
    let operands = [Operand::Later(Target::Name(number))];
    code.emit(&Instruction::new(Opcode::Ret, &operands, None))
}

/// Emits a branch that is taken where the first local is not 0.
fn emit_branch<B: Bounds>(code: &mut Code<B>, number: u32) -> Result<(), GrowFault> {
    let branch = Branch {
        sense: false,
        target: Destination::To(Label { number }),
    };
    let operands = [Operand::Variable(1)];
    code.emit(&Instruction::new(Opcode::Jz, &operands, None).with_branch(branch))
}

/// Adds something to a routine.
fn grow<B: Bounds>(alloc: Global, code: &mut Code<B>, addition: Addition) -> Result<(), GrowFault> {
    match addition {
        Addition::Open(locals, is_lost) => code.open(alloc, locals.min(15), is_lost),
        Addition::Branch(number) => emit_branch(code, number),
        Addition::Mark(number) => code.label(Label { number }),
        Addition::Call(number) => emit_call(code, number),
        Addition::Return(number) => emit_return(code, number),
        Addition::NewLine => code.emit(&Instruction::bare(Opcode::NewLine)),
        Addition::Quit => code.emit(&Instruction::bare(Opcode::Quit)),
    }
}

/// Adds a routine of one local, which calls a routine with it, up to its end.
fn grow_whole<B: Bounds>(
    alloc: Global,
    code: &mut Code<B>,
    number: usize,
) -> Result<(), GrowFault> {
    code.open(alloc, 1, false)?;
    emit_call(code, number)
}

/// Adds a routine of one local, which calls a routine with it.
fn add_whole<B: Bounds>(
    alloc: Global,
    code: &mut Code<B>,
    number: usize,
) -> Result<String, AllocError> {
    match grow_whole(alloc, code, number) {
        Ok(()) => close(alloc, code),
        Err(fault) => debugged(alloc, &fault),
    }
}

/// Ends a routine, and returns the answer.
fn close<B: Bounds>(alloc: Global, code: &mut Code<B>) -> Result<String, AllocError> {
    let closed: Result<(), CloseFault> = code.close(RoutineKind::Plain);
    done(alloc, &closed)
}

/// Returns the answer to a question.
fn ask<B: Bounds>(alloc: Global, code: &Code<B>, question: Question) -> Result<String, AllocError> {
    match question {
        Question::Len => shown(alloc, &code.next_place().saturating_sub(8)),
        Question::Counts => format!(in alloc; "{} {}", code.count(), code.references()),
        Question::Left => {
            let left = (code.labels_left(), code.code_left(), code.references_left());
            debugged(alloc, &left)
        }
    }
}

/// Takes a step, and returns the answer.
fn take<B: Bounds>(
    alloc: Global,
    code: &mut Code<B>,
    step: Option<Step>,
) -> Result<String, AllocError> {
    match step {
        Some(Step::Add(addition)) => done(alloc, &grow(alloc, code, addition)),
        Some(Step::Whole(number)) => add_whole(alloc, code, number),
        Some(Step::Close) => close(alloc, code),
        Some(Step::GiveUp) => {
            code.give_up();
            String::from_str(alloc, "ok")
        }
        Some(Step::Begin) => debugged(alloc, &code.begin()),
        Some(Step::Ask(question)) => ask(alloc, code, question),
        None => String::from_str(alloc, "no step"),
    }
}

/// Takes the steps of a line in turn, and returns the answers.
fn taken<B: Bounds>(alloc: Global, code: &mut Code<B>, line: &str) -> Result<String, AllocError> {
    let mut told = String::from_str(alloc, "code")?;
    for step in line.split(" | ").skip(1) {
        told.push_str(" | ")?;
        told.push_str(take(alloc, code, step_of(step))?.as_str())?;
    }
    Ok(told)
}

/// Returns the answers to steps, and the bytes and the fixups of all code behind them where these are given.
fn told_of(
    alloc: Global,
    taken: Result<String, AllocError>,
    code: Option<&Result<PagedArea, AddFault>>,
    refs: &Refs,
) -> Result<String, AllocError> {
    let told = taken?;
    match code {
        Some(Ok(area)) => {
            let bytes = bytes_of(alloc, area)?;
            format!(in alloc; "{told} | {bytes} | {}", fixups_of(alloc, refs)?)
        }
        Some(Err(fault)) => format!(in alloc; "{told} | {fault:?}"),
        None => Ok(told),
    }
}

/// Returns the answer to a line of steps: the answer to each step, and the bytes and the fixups where the line asks for them.
pub(crate) fn answer(alloc: Global, line: &str) -> Result<String, AllocError> {
    let limits = CodeLimits {
        labels: number_or(line, 1, 0),
        code: number_or(line, 2, 0),
        refs: number_or(line, 3, 0),
    };
    answer_under::<Brand>(alloc, limits, line.as_bytes())
}

/// Returns the answer to a line of steps under limits.
fn answer_under<B: Bounds>(
    alloc: Global,
    limits: CodeLimits,
    line: &[u8],
) -> Result<String, AllocError>
    requires { limits ≡ code_limits B.most }
{
    let mut code = Code::<B>::new(alloc, limits, Scale::Four)?;
    let line = text_of(line);
    let steps = line.strip_suffix(" | bytes");
    let taken = taken(alloc, &mut code, steps.unwrap_or(line));
    let mut refs = Refs::new(alloc, 100);
    // The first routine calls the place 8.
    let area = code.into_area(Target::Place(AreaName::Code, 8), &mut refs);
    let asked = match steps {
        Some(_) => Some(&area),
        None => None,
    };
    told_of(alloc, taken, asked, &refs)
}
