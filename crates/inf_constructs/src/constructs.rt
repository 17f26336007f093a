//! The statements that hold others.
ghost use Rattle.std.specs.Prelude.{◌≡◌, ◌∷◌, [], IfOk, List, MatchOption, None, OnOk, Some};
ghost use Rattle.inf_expressions.specs.Forests.{trees_in};
ghost use Rattle.inf_output.specs.Output.{items_of};
ghost use Rattle.inf_constructs.specs.Constructs.{all_ended, are_own, begun, between, case_closed, case_entered, cases_begun, changed};
ghost use Rattle.inf_constructs.specs.Constructs.{closed, condition_label, default_entered, depth, ended, ending, entered, entered_by};
ghost use Rattle.inf_constructs.specs.Constructs.{front, is_late, joint, left_to, looped, looped_over, next_case, opened, outermost};
ghost use Rattle.inf_constructs.specs.Constructs.{stepped, values_entered, with_case, with_labels};

use crate::loops::{lay_loop, lay_loop_end};
use crate::questions::{
    are_cases, depth_by, is_late_in, kind_behind, left_to, next_case_in, otherwise,
};
use inf_expressions::Forest;
use inf_opcode::Label;
use inf_output::{Items, Output};
use inf_settings::bounds::Bounds;
use inf_templates::Tasks;
use std::alloc::{AllocError, Global};
use std::marker::Model;

/// The objects that a loop over objects goes over.
#[derive(Clone, Copy)]
pub enum Over {
    /// The loop goes over no objects: its unit is not whole, or had an error.
    Nothing,
    /// The children of an object.
    Children,
    /// The loop goes over all objects.
    All,
}

/// The open case of a `switch`.
#[derive(Clone, Copy)]
pub enum Case {
    Nothing,
    /// A case of values, with the label of the next case.
    Values(Label),
    Default,
}

/// The kind of a statement that holds others.
#[derive(Clone, Copy)]
pub enum Kind {
    If,
    /// An `if` behind its `else`.
    Else,
    While,
    Do,
    For,
    /// A loop over objects, with its variable.
    Objects(Over, u8),
    /// A `switch`, with its open case, and whether a default was among its cases.
    Switch(Case, bool),
    /// The cases of a routine itself, with the open case, and whether a default was among them.
    Cases(Case, bool),
}

/// An open statement.
#[derive(Drop)]
pub struct Construct {
    pub kind: Kind,
    /// The label where the body of a loop begins.
    pub top: Label,
    /// The label to which `continue` goes; of an `if`, the one for a condition that is not true.
    pub next: Label,
    /// The label to which `break` goes; of an `if`, the one behind its `else`.
    pub end: Label,
    /// The step of a `for`.
    pub step: Option<Items>,
}

/// Returns an open statement of a kind, and hands out its labels.
fn with_labels<B: Bounds>(kind: Kind, out: &mut Output<B>) -> Construct
    ensures { (result, out.new) ≡ with_labels kind out.old }
{
    let top = out.label();
    let next = out.label();
    let end = out.label();
    Construct {
        kind,
        top,
        next,
        end,
        step: None,
    }
}

/// Lays the beginning of a statement, where its word was read.
fn lay_front<B: Bounds>(construct: &Construct, out: &mut Output<B>) -> Result<(), AllocError>
    ensures { OnOk result (out.new ≡ front B.most construct.now.kind construct.now out.old) }
{
    match construct.kind {
        Kind::While => out.mark(construct.next),
        Kind::Do => out.mark(construct.top),
        _ => Ok(()),
    }
}

/// Opens a statement, where its word was read.
#[tactic(auto, unfolding(crate::specs::Constructs::opened))]
fn open<B: Bounds>(kind: Kind, out: &mut Output<B>) -> Result<Construct, AllocError>
    ensures { IfOk result (λ c. (c, out.new) ≡ opened B.most kind out.old) }
{
    let construct = with_labels(kind, out);
    lay_front(&construct, out)?;
    Ok(construct)
}

/// Lays the joint between the parts of a statement.
fn lay_joint<B: Bounds>(construct: &Construct, out: &mut Output<B>) -> Result<(), AllocError>
    ensures { OnOk result (out.new ≡ joint B.most construct.now construct.now.kind out.old) }
{
    match construct.kind {
        Kind::If => {
            out.jump(construct.end)?;
            out.mark(construct.next)
        }
        Kind::Do => out.mark(construct.next),
        Kind::For => out.mark(construct.top),
        Kind::Objects(Over::Nothing, _) => out.mark(construct.top),
        _ => Ok(()),
    }
}

/// Lays the end of a case.
fn close_case<B: Bounds>(case: Case, end: Label, out: &mut Output<B>) -> Result<(), AllocError>
    ensures { OnOk result (out.new ≡ case_closed B.most case end out.old) }
{
    match case {
        Case::Nothing => Ok(()),
        Case::Values(next) => {
            out.jump(end)?;
            out.mark(next)
        }
        Case::Default => out.jump(end),
    }
}

/// Lays the end of a `for`.
fn close_for<B: Bounds>(construct: &Construct, out: &mut Output<B>) -> Result<(), AllocError>
    ensures { OnOk result (out.new ≡ ending B.most construct.now Kind.For out.old) }
{
    out.mark(construct.next)?;
    if let Some(step) = &construct.step {
        out.append(step)?;
    }
    out.jump(construct.top)?;
    out.mark(construct.end)
}

/// Lays the end of a statement.
#[tactic(auto, unfolding(crate::specs::Constructs::closed))]
fn close<B: Bounds>(construct: &Construct, out: &mut Output<B>) -> Result<(), AllocError>
    ensures { OnOk result (out.new ≡ closed B.most construct.now out.old) }
{
    match construct.kind {
        Kind::If => out.mark(construct.next),
        Kind::Else | Kind::Do => out.mark(construct.end),
        Kind::While => {
            out.jump(construct.next)?;
            out.mark(construct.end)
        }
        Kind::For => close_for(construct, out),
        Kind::Objects(over, variable) => {
            out.mark(construct.next)?;
            lay_loop_end(over, variable, construct.top, out)?;
            out.mark(construct.end)
        }
        Kind::Switch(case, _) | Kind::Cases(case, _) => {
            close_case(case, construct.end, out)?;
            out.mark(construct.end)
        }
    }
}

/// Returns the kind of a statement with an open case: the cases of a routine itself, or a `switch`.
fn with_case(are_own: bool, case: Case, had_default: bool) -> Kind
    ensures { result ≡ with_case are_own case had_default }
{
    if are_own {
        Kind::Cases(case, had_default)
    } else {
        Kind::Switch(case, had_default)
    }
}

/// Begins a default behind an open case.
fn enter_default<B: Bounds>(
    are_own: bool,
    case: Case,
    mut construct: Construct,
    out: &mut Output<B>,
) -> Result<Construct, AllocError>
    ensures { IfOk result (λ c. (c, out.new) ≡ default_entered B.most are_own case construct out.old) }
{
    close_case(case, construct.end, out)?;
    construct.kind = with_case(are_own, Case::Default, true);
    Ok(construct)
}

/// Begins a case of values behind an open case, where a default may have come before.
fn enter_values<B: Bounds>(
    are_own: bool,
    case: Case,
    had_default: bool,
    mut construct: Construct,
    out: &mut Output<B>,
) -> Result<Construct, AllocError>
    ensures { IfOk result (λ c. (c, out.new) ≡ values_entered B.most are_own case had_default construct out.old) }
{
    let next = out.label();
    close_case(case, construct.end, out)?;
    construct.kind = with_case(are_own, Case::Values(next), had_default);
    Ok(construct)
}

/// Begins a case behind an open case, which is the default or not.
fn enter_case<B: Bounds>(
    are_own: bool,
    is_default: bool,
    case: Case,
    had_default: bool,
    construct: Construct,
    out: &mut Output<B>,
) -> Result<Construct, AllocError>
    ensures { IfOk result (λ c. (c, out.new) ≡ case_entered B.most are_own is_default case had_default construct out.old) }
{
    if is_default {
        enter_default(are_own, case, construct, out)
    } else {
        enter_values(are_own, case, had_default, construct, out)
    }
}

/// Begins a case, which is the default or not.
#[tactic(auto, unfolding(crate::specs::Constructs::entered))]
fn enter<B: Bounds>(
    is_default: bool,
    construct: Construct,
    out: &mut Output<B>,
) -> Result<Construct, AllocError>
    ensures { IfOk result (λ c. (c, out.new) ≡ entered B.most is_default construct out.old) }
{
    match construct.kind {
        Kind::Switch(case, had_default) => {
            enter_case(false, is_default, case, had_default, construct, out)
        }
        Kind::Cases(case, had_default) => {
            enter_case(true, is_default, case, had_default, construct, out)
        }
        _ => Ok(construct),
    }
}

/// The open statements, each of which is held by the one before: in contracts the innermost comes first.
#[derive(Drop)]
pub struct Constructs {
    list: Vec<Construct>,
}

impl Model for Constructs {
    ghost use Rattle.std.specs.Prelude.{List, reverse};
    ghost use Rattle.inf_constructs.specs.declared.constructs.Construct.{Construct};

    ghost Value = { List Construct };

    ghost view = { λ c. reverse c.list.items };
}

impl Constructs {
    ghost use Rattle.std.specs.Prelude.{length};

    /// Creates an empty list of open statements. It takes no memory until the first one comes.
    pub fn new(alloc: Global) -> Constructs
        ensures { result ≡ [] }
    {
        Constructs {
            list: Vec::new(alloc),
        }
    }

    /// Removes all statements: another routine begins.
    pub fn clear(&mut self)
        ensures { self.new ≡ [] }
    {
        self.list.clear();
    }

    /// Returns the number of open statements, with the cases of a routine itself.
    pub fn len(&self) -> usize
        ensures { result ≡ length self.now }
    {
        self.list.len()
    }

    /// Returns the innermost statement.
    fn innermost(&self) -> Option<&Construct>
        ensures { MatchOption result (self.now ≡ []) (λ c. (others : List Construct) × (self.now ≡ c.now ∷ others)) }
    {
        self.list.last()
    }

    /// Begins a statement of a kind.
    pub fn begin<B: Bounds>(&mut self, kind: Kind, out: &mut Output<B>) -> Result<(), AllocError>
        ensures { OnOk result ((self.new, out.new) ≡ begun B.most kind self.old out.old) }
    {
        let construct = open(kind, out)?;
        self.list.push(construct)?;
        Ok(())
    }

    /// Goes on behind `else`, `until` or the first `:` of the innermost statement, or where the body of a loop over objects begins.
    #[tactic(auto, unfolding(crate::specs::Constructs::between))]
    #[inline(never)]
    pub fn go_on<B: Bounds>(&mut self, out: &mut Output<B>) -> Result<(), AllocError>
        ensures { OnOk result ((self.new, out.new) ≡ changed (between B.most) self.old out.old) }
    {
        let Some(mut construct) = self.list.pop() else {
            return Ok(());
        };
        lay_joint(&construct, out)?;
        construct.kind = kind_behind(construct.kind);
        self.list.push(construct)?;
        Ok(())
    }

    /// Keeps the code that was laid apart as the step of the innermost statement.
    pub fn keep_step<B: Bounds>(
        &mut self,
        alloc: Global,
        out: &mut Output<B>,
    ) -> Result<(), AllocError>
        ensures { OnOk result ((self.new, out.new) ≡ stepped self.old out.old) }
    {
        let step = out.take_apart(alloc);
        let Some(mut construct) = self.list.pop() else {
            return Ok(());
        };
        construct.step = Some(step);
        self.list.push(construct)?;
        Ok(())
    }

    /// Begins the loop over objects that is the innermost statement, over the objects that the first tree of a unit names.
    #[tactic(auto, unfolding(crate::specs::Constructs::looped))]
    pub fn go_over<B: Bounds>(
        &mut self,
        forest: &Forest,
        tasks: &mut Tasks,
        out: &mut Output<B>,
    ) -> Result<(), AllocError>
        ensures { OnOk result ((self.new, out.new) ≡ looped_over B.most (trees_in forest.now) self.old out.old) }
    {
        let Some(root) = forest.roots.first() else {
            return Ok(());
        };
        let Some(construct) = self.list.pop() else {
            return Ok(());
        };
        let variable = root.origin.lead.variable.unwrap_or(0);
        let construct = lay_loop(&forest.nodes, *root, variable, construct, tasks, out)?;
        self.list.push(construct)?;
        Ok(())
    }

    /// Begins the routine's own cases before a case that is outside of any statement.
    pub fn begin_cases<B: Bounds>(&mut self, out: &mut Output<B>) -> Result<(), AllocError>
        ensures { OnOk result ((self.new, out.new) ≡ cases_begun B.most self.old out.old) }
    {
        match self.innermost() {
            Some(_) => Ok(()),
            None => self.begin(Kind::Cases(Case::Nothing, false), out),
        }
    }

    /// Returns whether a case would be one of the routine's own: its values are actions.
    pub fn are_own(&self) -> bool
        ensures { result ≡ are_own self.now }
    {
        match self.innermost() {
            Some(construct) => are_cases(construct.kind),
            None => false,
        }
    }

    /// Returns the kind of the outermost statement.
    #[tactic(auto, using(crate::proofs::Outermost::outermost_none, crate::proofs::Outermost::outermost_some))]
    fn outermost(&self) -> Option<Kind>
        ensures { result ≡ outermost self.now }
    {
        match self.list.first() {
            Some(construct) => Some(construct.kind),
            None => None,
        }
    }

    /// Returns the number of open statements: the cases of a routine itself are none.
    pub fn depth(&self) -> usize
        ensures { result ≡ depth self.now }
    {
        depth_by(self.outermost(), self.len())
    }

    /// Begins a case of the innermost statement, which is the default or not.
    pub fn enter<B: Bounds>(
        &mut self,
        is_default: bool,
        out: &mut Output<B>,
    ) -> Result<(), AllocError>
        ensures { OnOk result ((self.new, out.new) ≡ changed (entered B.most is_default) self.old out.old) }
    {
        let Some(construct) = self.list.pop() else {
            return Ok(());
        };
        let construct = enter(is_default, construct, out)?;
        self.list.push(construct)?;
        Ok(())
    }

    /// Ends the innermost statement.
    pub fn end<B: Bounds>(&mut self, out: &mut Output<B>) -> Result<(), AllocError>
        ensures { OnOk result ((self.new, out.new) ≡ ended B.most self.old out.old) }
    {
        let Some(construct) = self.list.pop() else {
            return Ok(());
        };
        close(&construct, out)
    }

    /// Ends the innermost `count` statements, the innermost first.
    pub fn end_all<B: Bounds>(
        &mut self,
        count: usize,
        out: &mut Output<B>,
    ) -> Result<(), AllocError>
        ensures { OnOk result ((self.new, out.new) ≡ all_ended B.most count self.old out.old) }
    {
        let mut left = count;
        while left > 0 {
            self.end(out)?;
            left -= 1;
        }
        Ok(())
    }

    /// Returns the label to which a branch goes where the condition of the innermost statement is not true.
    pub fn condition_label(&self) -> Option<Label>
        ensures { result ≡ condition_label self.now }
    {
        match self.innermost() {
            Some(construct) => Some(otherwise(construct)),
            None => None,
        }
    }

    /// Returns whether a case of the innermost statement would follow its default, which is an error.
    pub fn is_late(&self) -> bool
        ensures { result ≡ is_late self.now }
    {
        match self.innermost() {
            Some(construct) => is_late_in(construct.kind),
            None => false,
        }
    }

    /// Returns the label behind the open case of the innermost statement, if that is a case of values.
    pub fn next_case(&self) -> Option<Label>
        ensures { result ≡ next_case self.now }
    {
        let construct = self.innermost()?;
        next_case_in(construct.kind)
    }

    /// Returns the label to which `continue` goes where `on` holds, otherwise that of `break`: the label of the innermost
    /// statement that has one.
    pub fn left_to(&self, on: bool) -> Option<Label>
        ensures { result ≡ left_to on self.now }
    {
        let mut left = self.list.as_slice();
        while let Some((last, others)) = left.split_last() {
            if let Some(label) = left_to(on, last) {
                return Some(label);
            }
            left = others;
        }
        None
    }
}
