//! Tests of a value against a list, where one of its members has to pass.
ghost use Rattle.inf_settings.specs.Bounds.{Limits};
ghost use Rattle.std.specs.Prelude.{◌≡◌, ◌+◌, Bool, List, OnOk, if◌then◌else◌, true};
ghost use Rattle.inf_expressions.specs.{Trees.Tree, declared.operators.Test.Test};
ghost use Rattle.inf_opcode.specs.declared.instructions.Label.{Label};
ghost use Rattle.inf_output.specs.{Output.Out, Output.◌▸◌, declared.operands.Simple.Simple};
ghost use Rattle.inf_templates.specs.{Parts.evaluated, Weights.WeighsUnder, Weights.load_at, Weights.weight};
ghost use Rattle.inf_templates.specs.{declared.tasks.Argument.Argument, declared.tasks.Task.Task, declared.tasks.Worked.Worked};
ghost use Rattle.inf_templates.specs.Meaning.{group, parts, takes_three, test_branch, tests};
ghost use Rattle.inf_templates.specs.Tasks.{Leads, Puts, at, task_code, worked_code};

use crate::parts::{are_simple, before, members};
use crate::reading::{TEMP, group, has_more, simple_of, split, takes_three};
use crate::tasks::{Argument, Task, Tasks, Worked};
use crate::working::any;
use inf_expressions::{Nodes, Test};
use inf_opcode::Label;
use inf_output::{Output, Simple};
use inf_settings::bounds::Bounds;
use std::alloc::AllocError;

/// Lays a test of a tree against a list, as a branch to `label` where its truth is `sense`.
#[tactic(auto, unfolding(crate::specs::Meaning::test_branch))]
pub(crate) fn test_branch<B: Bounds>(
    nodes: &Nodes,
    test: Test,
    a: usize,
    list: usize,
    sense: bool,
    label: Label,
    tasks: &mut Tasks,
    out: &mut Output<B>,
) -> Result<(), AllocError>
    ensures code { let code = test_branch B.most test (at B.most nodes.now a) (at B.most nodes.now list) sense label in
        OnOk result (Leads B.most nodes.now code tasks.old tasks.new out.old out.new) }
    ensures less { OnOk result (WeighsUnder nodes.now (10 + load_at nodes.now a + load_at nodes.now list) tasks.old tasks.new) }
{
    let over = out.label();
    let there = chosen(sense, label, over);
    match simple_of::<B>(nodes, a) {
        Some(x) if is_at_once(nodes, test, list) => {
            any(nodes, test, Argument::Is(x), list, sense, label, out)?;
            out.mark(over)
        }
        Some(x) => {
            tasks.first(Task::Mark(over))?;
            tasks.first(tests(test, x, list, sense, label, there))
        }
        None if has_more(nodes, list, group(test)) => {
            tasks.first(Task::Mark(over))?;
            tasks.first(tests(test, Simple::Variable(TEMP), list, sense, label, there))?;
            tasks.first(Task::Value(a, TEMP))
        }
        None => {
            tasks.first(Task::Mark(over))?;
            tasks.first(Task::Instruct(Worked::Any(test, Argument::Of(a), list, sense, label)))?;
            before(nodes, a, tasks)?;
            members(nodes, list, tasks)
        }
    }
}

/// Returns whether one instruction tests a simple value against all of `list`, whose members are simple.
#[tactic(auto, using(crate::proofs::Groups::at_once))]
fn is_at_once(nodes: &Nodes, test: Test, list: usize) -> bool
    ensures { result ≡ true → (limits : Limits) (x : Simple) (sense : Bool) (label there : Label) (o : Out) →
        tests limits test x (parts (at limits nodes.now list)) sense label there o
        ≡ worked_code limits nodes.now (Worked.Any test (Argument.Is x) list sense label) o }
{
    if has_more(nodes, list, group(test)) {
        return false;
    }
    are_simple(nodes, list)
}

/// Returns `label` where `sense` holds, otherwise `over`.
fn chosen(sense: bool, label: Label, over: Label) -> Label
    ensures { result ≡ (if sense then label else over) }
{
    if sense { label } else { over }
}

/// Returns the task of the tests of a list.
#[tactic(auto, unfolding(crate::specs::Meaning::tests))]
fn tests(test: Test, x: Simple, list: usize, sense: bool, label: Label, there: Label) -> Task
    ensures code { (limits : Limits) → (trees : List Tree) (o : Out) →
        task_code limits trees result o ≡ tests limits test x (parts (at limits trees list)) sense label there o }
    ensures less { (trees : List Tree) → weight trees result ≡ 6 + load_at trees list }
{
    if takes_three(test) {
        Task::Triples(x, list, sense, label, there)
    } else {
        Task::Singles(test, x, list, sense, label, there)
    }
}

/// Puts first the tasks of a test for equality with any member of a list, in groups of three.
#[tactic(auto, using(crate::proofs::Groups::triple_rows))]
pub(crate) fn triple_tests(
    nodes: &Nodes,
    x: Simple,
    list: usize,
    sense: bool,
    label: Label,
    there: Label,
    tasks: &mut Tasks,
) -> Result<(), AllocError>
    ensures code { OnOk result ((limits : Limits) → Puts limits nodes.now (task_code limits nodes.now
        (Task.Triples x list sense label there)) tasks.old tasks.new) }
    ensures less { OnOk result (WeighsUnder nodes.now (weight nodes.now (Task.Triples x list sense label there)) tasks.old tasks.new) }
{
    let Some((b, others)) = split(nodes, list) else {
        return last_tests(nodes, x, list, sense, label, tasks);
    };
    let Some((c, others_2)) = split(nodes, others) else {
        return last_tests(nodes, x, list, sense, label, tasks);
    };
    let Some((d, others_3)) = split(nodes, others_2) else {
        return last_tests(nodes, x, list, sense, label, tasks);
    };
    tasks.first(Task::Triples(x, others_3, sense, label, there))?;
    tasks.first(Task::Instruct(Worked::Three(x, b, c, d, there)))?;
    before(nodes, b, tasks)?;
    before(nodes, c, tasks)?;
    before(nodes, d, tasks)
}

/// Puts first the tasks of a test for equality with any member of a list of at most three.
fn last_tests(
    nodes: &Nodes,
    x: Simple,
    list: usize,
    sense: bool,
    label: Label,
    tasks: &mut Tasks,
) -> Result<(), AllocError>
    ensures code { let instruction = Worked.Any Test.Equal (Argument.Is x) list sense label in
        OnOk result ((limits : Limits) → Puts limits nodes.now (evaluated (parts (at limits nodes.now list))
        ▸ worked_code limits nodes.now instruction) tasks.old tasks.new) }
    ensures less { OnOk result (WeighsUnder nodes.now (5 + load_at nodes.now list) tasks.old tasks.new) }
{
    let last = Worked::Any(Test::Equal, Argument::Is(x), list, sense, label);
    tasks.first(Task::Instruct(last))?;
    members(nodes, list, tasks)
}

/// Puts first the tasks of another test with any member of a list, one by one.
#[tactic(auto, using(crate::proofs::Groups::single_rows))]
pub(crate) fn single_tests(
    nodes: &Nodes,
    test: Test,
    x: Simple,
    list: usize,
    sense: bool,
    label: Label,
    there: Label,
    tasks: &mut Tasks,
) -> Result<(), AllocError>
    ensures code { OnOk result ((limits : Limits) → Puts limits nodes.now (task_code limits nodes.now
        (Task.Singles test x list sense label there)) tasks.old tasks.new) }
    ensures less { let most = weight nodes.now (Task.Singles test x list sense label there) in
        OnOk result (WeighsUnder nodes.now most tasks.old tasks.new) }
{
    match split(nodes, list) {
        None => {
            tasks.first(Task::Instruct(Worked::Compare(test, x, list, sense, label)))?;
            before(nodes, list, tasks)
        }
        Some((b, others)) => {
            tasks.first(Task::Singles(test, x, others, sense, label, there))?;
            tasks.first(Task::Instruct(Worked::Compare(test, x, b, true, there)))?;
            before(nodes, b, tasks)
        }
    }
}
