//! Tasks, one by one.
ghost use Rattle.std.specs.Prelude.{◌≡◌, [], OnOk};
ghost use Rattle.inf_templates.specs.{Parts.put, Weights.WeighsUnder, Weights.weight, declared.tasks.Task.Task};
ghost use Rattle.inf_templates.specs.{Meaning.truth_behind, Tasks.Leads, Tasks.task_code, Tasks.tasks_code};

use crate::placing::{jump_zero, load, put};
use crate::rows::{alone, branch, value};
use crate::tasks::{Task, Tasks};
use crate::testing::{single_tests, triple_tests};
use crate::working::work;
use inf_expressions::Nodes;
use inf_opcode::Label;
use inf_output::{Output, Simple};
use inf_settings::bounds::Bounds;
use std::alloc::AllocError;

/// Lays the end of a condition whose value goes to variable `d`: 1 where its branch to `fails` was not taken, otherwise 0.
fn truth<B: Bounds>(d: u8, fails: Label, last: Label, out: &mut Output<B>) -> Result<(), AllocError>
    ensures { OnOk result (out.new ≡ truth_behind B.most fails last d out.old) }
{
    put(Simple::Known(1), d, out)?;
    out.jump(last)?;
    out.mark(fails)?;
    put(Simple::Known(0), d, out)?;
    out.mark(last)
}

/// Does one task, or puts others in its place.
fn step<B: Bounds>(
    nodes: &Nodes,
    task: Task,
    tasks: &mut Tasks,
    out: &mut Output<B>,
) -> Result<(), AllocError>
    ensures code { OnOk result (Leads B.most nodes.now (task_code B.most nodes.now task) tasks.old tasks.new out.old out.new) }
    ensures less { OnOk result (WeighsUnder nodes.now (weight nodes.now task) tasks.old tasks.new) }
{
    match task {
        Task::Value(place, d) => value(nodes, place, d, tasks, out),
        Task::Alone(place) => alone(nodes, place, tasks, out),
        Task::Branch(place, sense, label) => branch(nodes, place, sense, label, tasks, out),
        Task::Triples(x, list, sense, label, there) => {
            triple_tests(nodes, x, list, sense, label, there, tasks)
        }
        Task::Singles(test, x, list, sense, label, there) => {
            single_tests(nodes, test, x, list, sense, label, there, tasks)
        }
        Task::Truth(d, fails, last) => truth(d, fails, last, out),
        Task::Mark(label) => out.mark(label),
        Task::Load(variable, d) => load(variable, d, out),
        Task::JumpZero(operand, sense, label) => jump_zero(operand, sense, label, out),
        Task::Instruct(instruction) => work(nodes, instruction, out),
    }
}

/// Lays all tasks that are left.
fn lay_all<B: Bounds>(
    nodes: &Nodes,
    tasks: &mut Tasks,
    out: &mut Output<B>,
) -> Result<(), AllocError>
    ensures { OnOk result (out.new ≡ tasks_code B.most nodes.now tasks.old out.old) }
{
    while let Some(task) = tasks.next() {
        step(nodes, task, tasks, out)?;
    }
    Ok(())
}

/// Lays `task`, where no other is left, with all tasks that it makes. It is done at once, and is never among the tasks that are left.
pub(crate) fn lay_first<B: Bounds>(
    nodes: &Nodes,
    task: Task,
    tasks: &mut Tasks,
    out: &mut Output<B>,
) -> Result<(), AllocError>
    requires { tasks.old ≡ [] }
    ensures { OnOk result (out.new ≡ task_code B.most nodes.now task out.old) }
{
    step(nodes, task, tasks, out)?;
    lay_all(nodes, tasks, out)
}
