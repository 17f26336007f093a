//! Assembly lines.
ghost use Rattle.std.specs.Prelude.{◌≡◌, Bool, ◌≤◌, ◌-◌, IfOk, IfSome, OnOk, Some, false, is_some, length, true};
ghost use Rattle.inf_opcode.specs.Opcodes.{row_of};
ghost use Rattle.inf_output.specs.Output.{Takes, TakesVariable};
ghost use Rattle.inf_names.specs.LocalList.{listed};
ghost use Rattle.inf_statements.specs.Assembly.{branched, branched_to, ends_from, ends_of, first_variable, fits, fits_jump, fits_row};
ghost use Rattle.inf_statements.specs.Assembly.{fits_some, has_ends, instructed, jumped_on, labelled, line_finding, line_instructed};
ghost use Rattle.inf_statements.specs.Assembly.{line_laid, line_laid_by, named_first, no_ends, operands_in, placed, printing_of, prints};
ghost use Rattle.inf_statements.specs.Assembly.{same, some_printed, store_finding, store_of, store_variable, stored_in, variable_of};
ghost use Rattle.inf_statements.specs.Assembly.{with_end, wrong_opcode};
ghost use Rattle.inf_statements.specs.Statements.{PrintsText};
ghost use Rattle.inf_constructs.specs.Roots.{trees_from};
ghost use Rattle.inf_unit.specs.{Opcodes.opcode_of, Units.bytes_at, Units.next_place};

use crate::printing::print_text;
use arrayvec::ArrayVec;
use inf_constructs::labels::Labels;
use inf_expressions::{Finding, Nodes, Operand, Root, UnitError, least_of_both};
use inf_names::locals::Locals;
use inf_names::symbols::Symbols;
use inf_opcode::{Branch, Destination, Label, MOST_OPERANDS, Opcode, OpcodeRow};
use inf_operands::operands::{is_stack, looked_name};
use inf_output::{Output, Simple};
use inf_scanner::Place;
use inf_settings::bounds::Bounds;
use inf_templates::simple_of;
use inf_text::CharSet;
use inf_unit::items::Item;
use inf_unit::unit::{next_place, order};
use inf_unit::unit_tokens::UnitTokens;
use std::alloc::{AllocError, Global};

/// The ends of an assembly line: all in it that is no operand. Tokens are given by their places among those of the unit.
#[derive(Clone, Copy)]
pub struct Ends {
    /// The name of the variable in which the line stores.
    pub store: Option<usize>,
    /// The name of the label to which the line branches, and whether its test is to hold or not.
    pub branch: Option<(usize, bool)>,
    pub text: Option<usize>,
    /// The name of the label to which the line jumps.
    pub jump: Option<usize>,
}

/// An assembly line: all that it goes by beside the trees of its operands.
#[derive(Clone, Copy)]
pub(crate) struct Line<'a> {
    pub alloc: Global,
    pub set: CharSet,
    pub tokens: &'a UnitTokens,
    pub locals: &'a Locals,
    pub ends: Ends,
}

pub(crate) fn labelled<B: Bounds>(
    name: &[u8],
    labels: &mut Labels,
    out: &mut Output<B>,
) -> Result<Label, AllocError>
    requires { length name.now ≤ 32 }
    ensures { IfOk result (λ label. ((label, labels.new), out.new) ≡ labelled name.now labels.old out.old) }
{
    let new = out.label();
    labels.want(name, new)
}

pub(crate) fn placed<B: Bounds>(
    name: &[u8],
    labels: &mut Labels,
    out: &mut Output<B>,
) -> Result<Label, AllocError>
    requires { length name.now ≤ 32 }
    ensures { IfOk result (λ label. ((label, labels.new), out.new) ≡ placed name.now labels.old out.old) }
{
    let new = out.label();
    labels.give(name, new)
}

/// Returns `ends` with `item` as one more.
fn with_end(item: Item, ends: Ends) -> Ends
    ensures { result ≡ with_end item ends }
{
    match item {
        Item::Store(at) => Ends {
            store: Some(at),
            ..ends
        },
        Item::Branch(at, sense) => Ends {
            branch: Some((at, sense)),
            ..ends
        },
        Item::Text(at) => Ends {
            text: Some(at),
            ..ends
        },
        Item::Jump(at) => Ends {
            jump: Some(at),
            ..ends
        },
        _ => ends,
    }
}

/// Returns the ends of a unit with `items`.
pub(crate) fn ends_of(items: &[Item]) -> Ends
    ensures { result ≡ ends_of items.now }
{
    let mut ends = Ends {
        store: None,
        branch: None,
        text: None,
        jump: None,
    };
    for item in items {
        ends = with_end(*item, ends);
    }
    ends
}

fn same(first: bool, second: bool) -> bool
    ensures { result ≡ same first second }
{
    if first { second } else { !second }
}

/// Returns the variable that `operand` is, if it is one.
fn variable_of(operand: Option<Simple>) -> Option<u8>
    ensures { result ≡ variable_of operand }
{
    match operand {
        Some(Simple::Variable(variable)) => Some(variable),
        _ => None,
    }
}

/// Returns the variable that the first of some trees is, if it is one.
fn first_variable<B: Bounds>(nodes: &Nodes, roots: &[Root]) -> Option<u8>
    ensures { result ≡ first_variable B.most (trees_from nodes.now roots.now) }
{
    match roots.first() {
        Some(root) => variable_of(simple_of::<B>(nodes, root.place)),
        None => None,
    }
}

impl Ends {
    /// Returns whether these ends are those that an opcode of `row` takes.
    fn fit(self, row: OpcodeRow) -> bool
        ensures { result ≡ has_ends row self }
    {
        same(row.stores, self.store.is_some())
            && same(row.branches, self.branch.is_some())
            && same(row.has_text, self.text.is_some())
    }

    /// Returns whether these ends are those of a jump.
    fn are_of_jump(self) -> bool
        ensures { result ≡ fits_jump self }
    {
        self.jump.is_some() && self.store.is_none() && self.branch.is_none()
    }
}

fn fits_row(row: OpcodeRow, operands: usize, has_variable: bool, ends: Ends) -> bool
    ensures { result ≡ fits_row row operands has_variable ends }
{
    let is_named = if row.names_variable {
        has_variable
    } else {
        true
    };
    usize::from(row.least) <= operands
        && operands <= usize::from(row.most)
        && operands <= MOST_OPERANDS
        && is_named
        && ends.fit(row)
}

/// Returns whether `opcode` takes some trees as operands and `ends`.
#[tactic(auto, unfolding(crate::specs::Assembly::fits))]
fn fits<B: Bounds>(opcode: Opcode, nodes: &Nodes, roots: &[Root], ends: Ends) -> bool
    ensures { result ≡ fits B.most opcode (trees_from nodes.now roots.now) ends }
{
    let row = opcode.row();
    if row.jumps {
        return ends.are_of_jump();
    }
    let has_variable = first_variable::<B>(nodes, roots).is_some();
    fits_row(row, roots.len(), has_variable, ends)
}

/// Returns the variable that `operand` is, if it is one.
fn stored_in(operand: Operand) -> Option<u8>
    ensures { result ≡ stored_in operand }
{
    match operand {
        Operand::Variable(variable) => Some(variable),
        _ => None,
    }
}

/// Returns the variable of a name in which a line stores: `sp` is the stack, where no local has this name.
fn store_variable<B: Bounds>(locals: &Locals, names: &Symbols<Place, B>, name: &[u8]) -> Option<u8>
    requires { length name.now ≤ 32 }
    ensures { result ≡ store_variable (listed locals.now) names.now name.now }
{
    if is_stack(name, locals.number(name)) {
        Some(0)
    } else {
        stored_in(looked_name(locals, names, name))
    }
}

impl Line<'_> {
    /// Returns the variable in which the line stores, if it does. A name of no variable is an error of the line.
    fn store<B: Bounds>(&self, names: &Symbols<Place, B>) -> Option<u8>
        ensures there { is_some result ≡ is_some self.now.ends.store }
        ensures value { result ≡ store_of (listed self.now.locals.now) names.now self.now.tokens.now self.now.ends.store }
    {
        let at = self.ends.store?;
        let variable = store_variable(self.locals, names, self.tokens.bytes_at(at));
        Some(variable.unwrap_or(0))
    }

    /// Returns the finding about the name of the variable in which the line stores.
    fn store_finding<B: Bounds>(&self, names: &Symbols<Place, B>) -> Option<Finding>
        ensures { result ≡ store_finding (listed self.now.locals.now) names.now self.now.tokens.now self.now.ends.store }
    {
        let at = self.ends.store?;
        match store_variable(self.locals, names, self.tokens.bytes_at(at)) {
            Some(_) => None,
            None => Some(Finding::wrong_kind(order(at))),
        }
    }

    /// Returns the finding about the line's opcode, which is `opcode`, about its operands, whose trees are in `nodes` and begin at `roots`, or
    /// about the variable in which it stores. The line begins at place `begun` of its tokens.
    pub(crate) fn finding<B: Bounds>(
        &self,
        names: &Symbols<Place, B>,
        begun: usize,
        opcode: Option<Opcode>,
        nodes: &Nodes,
        roots: &[Root],
    ) -> Option<Finding>
        requires { opcode ≡ opcode_of (bytes_at self.now.tokens.now (next_place begun)) }
        ensures { let line = self.now in result ≡ line_finding B.most (listed line.locals.now) names.now line.tokens.now begun line.ends
            (trees_from nodes.now roots.now) }
    {
        let behind = next_place(begun);
        let stores = self.store_finding(names);
        let is_fit = match opcode {
            Some(opcode) => fits::<B>(opcode, nodes, roots, self.ends),
            None => false,
        };
        if is_fit {
            return stores;
        }
        let wrong = Finding {
            order: order(behind),
            error: UnitError::WrongOpcode,
        };
        least_of_both(stores, Some(wrong))
    }
}

/// Returns the operands of some trees, which are eight at most.
fn operands_in<B: Bounds>(nodes: &Nodes, roots: &[Root]) -> ArrayVec<Simple, MOST_OPERANDS>
    requires { length roots.now ≤ 8 }
    ensures value { result.items ≡ operands_in B.most (trees_from nodes.now roots.now) }
    ensures count { length result.items ≡ length roots.now }
{
    let mut operands = ArrayVec::new();
    for root in roots {
        operands.push(simple_of::<B>(nodes, root.place).unwrap_or(Simple::Variable(0)));
    }
    operands
}

/// Returns the destination of a branch, by `name`, the name behind `?`.
fn destination<B: Bounds>(
    name: &[u8],
    labels: &mut Labels,
    out: &mut Output<B>,
) -> Result<Destination, AllocError>
    requires { length name.now ≤ 32 }
    ensures { (sense : Bool) → IfOk result (λ to.
        ((Some (record { sense = sense; target = to }), labels.new), out.new) ≡ branched_to name.now sense labels.old out.old) }
{
    if name.eq_ignore_ascii_case(b"rtrue") {
        Ok(Destination::ReturnTrue)
    } else if name.eq_ignore_ascii_case(b"rfalse") {
        Ok(Destination::ReturnFalse)
    } else {
        Ok(Destination::To(labelled(name, labels, out)?))
    }
}

/// Returns the branch of a line, if it has one.
#[tactic(auto, unfolding(crate::specs::Assembly::branched))]
fn branch_of<B: Bounds>(
    line: Line<'_>,
    labels: &mut Labels,
    out: &mut Output<B>,
) -> Result<Option<Branch>, AllocError>
    ensures value { IfOk result (λ branch. ((branch, labels.new), out.new) ≡ branched line.entry.tokens.now line.entry.ends.branch
        labels.old out.old) }
    ensures there { IfOk result (λ branch. is_some branch ≡ is_some line.entry.ends.branch) }
{
    let Some((at, sense)) = line.ends.branch else {
        return Ok(None);
    };
    let target = destination(line.tokens.bytes_at(at), labels, out)?;
    Ok(Some(Branch { sense, target }))
}

/// Lays the instruction of some trees whose first names a variable.
#[tactic(auto, using(crate::proofs::Fitting::takes_others))]
fn lay_naming<B: Bounds>(
    opcode: Opcode,
    nodes: &Nodes,
    roots: &[Root],
    store: Option<u8>,
    branch: Option<Branch>,
    out: &mut Output<B>,
) -> Result<(), AllocError>
    requires few { length roots.now ≤ 8 }
    requires takes { TakesVariable opcode (length roots.now - 1) (is_some store) (is_some branch) }
    ensures { OnOk result (out.new ≡ named_first B.most opcode (trees_from nodes.now roots.now) store branch out.old) }
{
    let Some((first, others)) = roots.split_first() else {
        return Ok(());
    };
    let variable = variable_of(simple_of::<B>(nodes, first.place)).unwrap_or(0);
    let operands = operands_in::<B>(nodes, others);
    out.instruct_naming(opcode, variable, &operands, store, branch)
}

/// Lays the instruction of some trees, whose first names a variable if `names_variable`.
#[tactic(auto, using(crate::proofs::Fitting::takes_count), unfolding(crate::specs::Assembly::instructed))]
fn lay_parts<B: Bounds>(
    names_variable: bool,
    opcode: Opcode,
    nodes: &Nodes,
    roots: &[Root],
    store: Option<u8>,
    branch: Option<Branch>,
    out: &mut Output<B>,
) -> Result<(), AllocError>
    requires few { length roots.now ≤ 8 }
    requires named { names_variable ≡ true → TakesVariable opcode (length roots.now - 1) (is_some store) (is_some branch) }
    requires plain { names_variable ≡ false → Takes opcode (length roots.now) (is_some store) (is_some branch) }
    ensures { OnOk result (out.new ≡ instructed B.most names_variable opcode (trees_from nodes.now roots.now) store branch out.old) }
{
    if names_variable {
        return lay_naming(opcode, nodes, roots, store, branch, out);
    }
    let operands = operands_in::<B>(nodes, roots);
    out.instruct(opcode, &operands, store, branch)
}

/// Lays the instruction of some trees, with the ends of its line.
#[tactic(auto, using(crate::proofs::Fitting::few_roots))]
fn lay_instructed<B: Bounds>(
    line: Line<'_>,
    opcode: Opcode,
    nodes: &Nodes,
    roots: &[Root],
    labels: &mut Labels,
    out: &mut Output<B>,
) -> Result<(), AllocError>
    requires jumps { (row_of opcode).jumps ≡ false }
    requires text { (row_of opcode).has_text ≡ false }
    requires fits { let trees = trees_from nodes.now roots.now in
        fits_row (row_of opcode) (length trees) (is_some (first_variable B.most trees)) line.ends ≡ true }
    ensures { OnOk result ((labels.new, out.new)
        ≡ line_instructed B.most (listed line.entry.locals.now) line.entry.tokens.now opcode line.entry.ends
        (trees_from nodes.now roots.now) labels.old out.old) }
{
    let branch = branch_of(line, labels, out)?;
    let store = line.store(&out.names);
    let names_variable = opcode.row().names_variable;
    lay_parts(names_variable, opcode, nodes, roots, store, branch, out)
}

fn prints(row: OpcodeRow) -> bool
    ensures { result ≡ prints row }
{
    row.has_text && !row.jumps && !row.stores && !row.branches && row.least == 0
}

/// Returns `opcode`, where it prints a text and takes nothing else.
#[tactic(auto, using(crate::proofs::Fitting::prints_text))]
fn printing_of(opcode: Opcode) -> Option<Opcode>
    ensures value { result ≡ printing_of opcode }
    ensures prints { IfSome result PrintsText }
{
    if prints(opcode.row()) {
        Some(opcode)
    } else {
        None
    }
}

/// Lays the code of `opcode`, which prints the text of its line.
fn lay_text<B: Bounds>(
    line: Line<'_>,
    opcode: Opcode,
    out: &mut Output<B>,
) -> Result<(), AllocError>
    ensures { OnOk result (out.new ≡ some_printed B.most line.entry.set line.entry.tokens.now opcode line.entry.ends.text out.old) }
{
    let Some(at) = line.ends.text else {
        return Ok(());
    };
    match printing_of(opcode) {
        Some(opcode) => print_text(line.alloc, line.set, line.tokens, at, opcode, out),
        None => Ok(()),
    }
}

/// Lays a jump to the label of a line.
fn lay_jump<B: Bounds>(
    line: Line<'_>,
    labels: &mut Labels,
    out: &mut Output<B>,
) -> Result<(), AllocError>
    ensures { OnOk result ((labels.new, out.new) ≡ jumped_on B.most line.entry.tokens.now line.entry.ends.jump labels.old out.old) }
{
    let Some(at) = line.ends.jump else {
        return Ok(());
    };
    let label = labelled(line.tokens.bytes_at(at), labels, out)?;
    out.jump(label)
}

/// Lays the code of a line whose operands and ends fit `opcode`.
#[tactic(auto, using(crate::proofs::Fitting::fits_as_row))]
fn lay_fit<B: Bounds>(
    line: Line<'_>,
    opcode: Opcode,
    nodes: &Nodes,
    roots: &[Root],
    labels: &mut Labels,
    out: &mut Output<B>,
) -> Result<(), AllocError>
    requires { fits B.most opcode (trees_from nodes.now roots.now) line.ends ≡ true }
    ensures { OnOk result ((labels.new, out.new)
        ≡ line_laid_by B.most (row_of opcode).jumps (row_of opcode).has_text line.entry.set (listed line.entry.locals.now)
        line.entry.tokens.now opcode line.entry.ends (trees_from nodes.now roots.now) labels.old out.old) }
{
    let row = opcode.row();
    if row.jumps {
        return lay_jump(line, labels, out);
    }
    if row.has_text {
        return lay_text(line, opcode, out);
    }
    lay_instructed(line, opcode, nodes, roots, labels, out)
}

/// Lays the code of a line that has no error.
#[tactic(auto, unfolding(crate::specs::Assembly::line_laid))]
pub(crate) fn lay_line<B: Bounds>(
    line: Line<'_>,
    opcode: Option<Opcode>,
    nodes: &Nodes,
    roots: &[Root],
    labels: &mut Labels,
    out: &mut Output<B>,
) -> Result<(), AllocError>
    ensures { OnOk result ((labels.new, out.new)
        ≡ line_laid B.most line.entry.set (listed line.entry.locals.now) line.entry.tokens.now opcode line.entry.ends
        (trees_from nodes.now roots.now) labels.old out.old) }
{
    let Some(opcode) = opcode else {
        return Ok(());
    };
    if !fits::<B>(opcode, nodes, roots, line.ends) {
        return Ok(());
    }
    lay_fit(line, opcode, nodes, roots, labels, out)
}
