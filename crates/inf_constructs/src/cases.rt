//! The tests of a case.
ghost use Rattle.std.specs.Prelude.{◌≡◌, ◌≤◌, [], List, OnOk, length, map, option_map};
ghost use Rattle.inf_expressions.specs.{Forests.trees_in, Nodes.tree_at, Nodes.trees_at, Trees.Tree};
ghost use Rattle.inf_constructs.specs.Cases.{beside, case_code, case_tested, group_tested, grouped, is_empty, laid_before, operand_in};
ghost use Rattle.inf_constructs.specs.Cases.{range_tested, value_grouped, value_laid, within};
ghost use Rattle.inf_constructs.specs.Roots.{tree_in, trees_from};

use arrayvec::ArrayVec;
use inf_expressions::{Forest, Nodes, Root, range};
use inf_opcode::{Branch, Destination, Label, Opcode};
use inf_output::{Output, Simple};
use inf_settings::bounds::Bounds;
use inf_templates::simple_of;
use std::alloc::AllocError;

/// The variable that holds the value of a `switch`.
pub const SWITCHED: u8 = 251;

/// The most values of a group.
const MOST_VALUES: usize = 3;

/// Returns a branch to `label` where the truth of a test is `sense`.
fn to(sense: bool, label: Label) -> Option<Branch>
    ensures { result ≡ Some (record { sense = sense; target = Destination.To label }) }
{
    Some(Branch {
        sense,
        target: Destination::To(label),
    })
}

fn operand_in<B: Bounds>(nodes: &Nodes, place: usize) -> Simple
    ensures { result ≡ operand_in B.most (tree_at nodes.now place) }
{
    match simple_of::<B>(nodes, place) {
        Some(operand) => operand,
        None => Simple::Variable(0),
    }
}

/// Lays a test of a group of up to three values, as a branch to `label` where its truth is `sense`.
#[tactic(auto, unfolding(crate::specs::Cases::group_tested))]
fn lay_group<B: Bounds>(
    values: &[Simple],
    sense: bool,
    label: Label,
    out: &mut Output<B>,
) -> Result<(), AllocError>
    requires { length values.now ≤ 3 }
    ensures { OnOk result (out.new ≡ group_tested B.most values.now sense label out.old) }
{
    let switched = Simple::Variable(SWITCHED);
    let branch = to(sense, label);
    match values {
        [] => Ok(()),
        [a] => out.instruct(Opcode::Je, &[switched, *a], None, branch),
        [a, b] => out.instruct(Opcode::Je, &[switched, *a, *b], None, branch),
        [a, b, c, ..] => out.instruct(Opcode::Je, &[switched, *a, *b, *c], None, branch),
    }
}

fn lay_beside<B: Bounds>(
    a: Simple,
    b: Simple,
    next: Label,
    out: &mut Output<B>,
) -> Result<(), AllocError>
    ensures { OnOk result (out.new ≡ beside B.most a b next out.old) }
{
    let switched = Simple::Variable(SWITCHED);
    out.instruct(Opcode::Jl, &[switched, a], None, to(true, next))?;
    out.instruct(Opcode::Jg, &[switched, b], None, to(true, next))
}

fn lay_within<B: Bounds>(
    a: Simple,
    b: Simple,
    here: Label,
    out: &mut Output<B>,
) -> Result<(), AllocError>
    ensures { OnOk result (out.new ≡ within B.most a b here out.old) }
{
    let switched = Simple::Variable(SWITCHED);
    let beyond = out.label();
    out.instruct(Opcode::Jl, &[switched, a], None, to(true, beyond))?;
    out.instruct(Opcode::Jg, &[switched, b], None, to(false, here))?;
    out.mark(beyond)
}

/// Lays the test of a range, which is the last value or not.
#[tactic(auto, unfolding(crate::specs::Cases::range_tested))]
fn lay_range<B: Bounds>(
    is_last: bool,
    a: Simple,
    b: Simple,
    here: Label,
    next: Label,
    out: &mut Output<B>,
) -> Result<(), AllocError>
    ensures { OnOk result (out.new ≡ range_tested B.most is_last a b here next out.old) }
{
    if is_last {
        lay_beside(a, b, next, out)
    } else {
        lay_within(a, b, here, out)
    }
}

/// Lays the tests that end at the tree at `place`, behind the open group `group`: this group, where it takes no more, and a range.
#[tactic(auto, unfolding(crate::specs::Cases::value_laid))]
fn lay_value_of<B: Bounds>(
    nodes: &Nodes,
    place: usize,
    is_last: bool,
    group: &[Simple],
    here: Label,
    next: Label,
    out: &mut Output<B>,
) -> Result<(), AllocError>
    requires { length group.now ≤ 3 }
    ensures { OnOk result (out.new ≡ value_laid B.most (tree_at nodes.now place) is_last group.now here next out.old) }
{
    match range(nodes, place) {
        Some((least, greatest)) => {
            lay_group(group, true, here, out)?;
            let (a, b) = (
                operand_in::<B>(nodes, least),
                operand_in::<B>(nodes, greatest),
            );
            lay_range(is_last, a, b, here, next, out)
        }
        None if group.len() < MOST_VALUES => Ok(()),
        None => lay_group(group, true, here, out),
    }
}

/// Returns the group that is open behind the tree at `place`.
#[tactic(auto, unfolding(crate::specs::Cases::value_grouped))]
fn grouped_behind<B: Bounds>(
    nodes: &Nodes,
    place: usize,
    group: ArrayVec<Simple, MOST_VALUES>,
) -> ArrayVec<Simple, MOST_VALUES>
    ensures { result.items ≡ value_grouped B.most (tree_at nodes.now place) group.items }
{
    let mut behind = group;
    if range(nodes, place).is_some() {
        behind.clear();
        return behind;
    }
    if behind.is_full() {
        behind.clear();
    }
    behind.push(operand_in::<B>(nodes, place));
    behind
}

/// Returns whether no values are left.
fn are_none(roots: &[Root]) -> bool
    ensures { (nodes : List Tree) → result ≡ is_empty (trees_from nodes roots.now) }
{
    match roots {
        [] => true,
        [..] => false,
    }
}

/// Lays the tests of some values: they branch to `here` where one holds, and to `next` where the last fails.
fn lay_values<B: Bounds>(
    nodes: &Nodes,
    roots: &[Root],
    here: Label,
    next: Label,
    out: &mut Output<B>,
) -> Result<(), AllocError>
    ensures { OnOk result (out.new ≡ grouped B.most [] (trees_from nodes.now roots.now) here next out.old) }
{
    let mut group = ArrayVec::new();
    let mut left = roots;
    while let Some((root, others)) = left.split_first() {
        let is_last = are_none(others);
        lay_value_of(nodes, root.place, is_last, &group, here, next, out)?;
        group = grouped_behind::<B>(nodes, root.place, group);
        left = others;
    }
    lay_group(&group, false, next, out)
}

/// Lays the tests of a case whose values are the trees of `forest`, where `next` is the label of the next case; a default
/// has no such label and no tests.
#[tactic(auto, unfolding(crate::specs::Cases::case_code))]
pub fn lay_case<B: Bounds>(
    next: Option<Label>,
    forest: &Forest,
    out: &mut Output<B>,
) -> Result<(), AllocError>
    ensures { OnOk result (out.new ≡ case_code B.most next (map tree_in (trees_in forest.now)) out.old) }
{
    let Some(next) = next else {
        return Ok(());
    };
    let here = out.label();
    lay_values(&forest.nodes, &forest.roots, here, next, out)?;
    out.mark(here)
}
