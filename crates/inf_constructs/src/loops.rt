//! The code of loops over objects.
ghost use Rattle.std.specs.Prelude.{◌≡◌, IfOk, OnOk};
ghost use Rattle.inf_expressions.specs.{Nodes.tree_at, Questions.children_of};
ghost use Rattle.inf_templates.specs.Tasks.{at};
ghost use Rattle.inf_constructs.specs.Constructs.{looped_by, looped_on, over_all, over_children, tested_over};

use crate::constructs::{Construct, Kind, Over};
use inf_area::{SystemConstant, Target};
use inf_expressions::{Nodes, Root, children_of};
use inf_opcode::{Branch, Destination, Label, Opcode};
use inf_output::{Output, Simple};
use inf_settings::bounds::Bounds;
use inf_templates::{Argument, Tasks, lay_branch, lay_instruction, simple_of};
use std::alloc::AllocError;

/// The number of the first object that a loop over all objects meets: the one behind the objects of the language's classes.
const FIRST_OBJECT: u16 = 5;

/// Returns a branch to `label` where the truth of a test is `sense`.
fn to(sense: bool, label: Label) -> Branch
    ensures { result ≡ record { sense = sense; target = Destination.To label } }
{
    Branch {
        sense,
        target: Destination::To(label),
    }
}

/// Lays a loop over the children of the object that is the tree at `parent`.
fn lay_over_children<B: Bounds>(
    nodes: &Nodes,
    parent: usize,
    variable: u8,
    construct: &Construct,
    tasks: &mut Tasks,
    out: &mut Output<B>,
) -> Result<(), AllocError>
    ensures { OnOk result (out.new ≡ over_children B.most (tree_at nodes.now parent) variable construct.now out.old) }
{
    lay_instruction(
        tasks,
        nodes,
        Opcode::GetChild,
        &[Argument::Of(parent)],
        Some(variable),
        Some(to(false, construct.end)),
        out,
    )?;
    out.mark(construct.top)
}

/// Lays the test of a loop over all objects, unless it is a variable alone.
fn lay_test<B: Bounds>(
    nodes: &Nodes,
    place: usize,
    next: Label,
    tasks: &mut Tasks,
    out: &mut Output<B>,
) -> Result<(), AllocError>
    ensures { OnOk result (out.new ≡ tested_over (at B.most nodes.now place).operand (at B.most nodes.now place) next out.old) }
{
    match simple_of::<B>(nodes, place) {
        Some(_) => Ok(()),
        None => lay_branch(tasks, nodes, place, false, next, out),
    }
}

/// Lays a loop over all objects.
fn lay_over_all<B: Bounds>(
    nodes: &Nodes,
    place: usize,
    variable: u8,
    construct: &Construct,
    tasks: &mut Tasks,
    out: &mut Output<B>,
) -> Result<(), AllocError>
    ensures { OnOk result (out.new ≡ over_all B.most (at B.most nodes.now place) variable construct.now out.old) }
{
    let first = [Simple::Known(FIRST_OBJECT)];
    out.instruct_naming(Opcode::Store, variable, &first, None, None)?;
    out.mark(construct.top)?;
    lay_test(nodes, place, construct.next, tasks, out)
}

/// Lays the beginning of a loop over the objects that the tree `root` names. Returns the loop with its kind.
pub(crate) fn lay_loop<B: Bounds>(
    nodes: &Nodes,
    root: Root,
    variable: u8,
    mut construct: Construct,
    tasks: &mut Tasks,
    out: &mut Output<B>,
) -> Result<Construct, AllocError>
    ensures { let e = tree_at nodes.now root.place in
        IfOk result (λ c. (c, out.new) ≡ looped_by B.most (children_of e) e variable construct out.old) }
{
    match children_of(nodes, root.place) {
        Some(parent) => {
            lay_over_children(nodes, parent, variable, &construct, tasks, out)?;
            construct.kind = Kind::Objects(Over::Children, variable);
        }
        None => {
            lay_over_all(nodes, root.place, variable, &construct, tasks, out)?;
            construct.kind = Kind::Objects(Over::All, variable);
        }
    }
    Ok(construct)
}

/// Lays the step of a loop over objects.
pub(crate) fn lay_loop_end<B: Bounds>(
    over: Over,
    variable: u8,
    top: Label,
    out: &mut Output<B>,
) -> Result<(), AllocError>
    ensures { OnOk result (out.new ≡ looped_on B.most over variable top out.old) }
{
    match over {
        Over::Nothing => Ok(()),
        Over::Children => out.instruct(
            Opcode::GetSibling,
            &[Simple::Variable(variable)],
            Some(variable),
            Some(to(true, top)),
        ),
        Over::All => {
            let last = [Simple::Later(Target::System(SystemConstant::HighestObjectNumber))];
            out.instruct_naming(Opcode::IncChk, variable, &last, None, Some(to(false, top)))
        }
    }
}
