//! The code of statements that print.
ghost use Rattle.std.specs.Prelude.{◌≡◌, List, OnOk, false, map};
ghost use Rattle.inf_expressions.specs.{Forests.trees_in, Trees.Tree};
ghost use Rattle.inf_statements.specs.Printing.{called_with, ended, ends_behind, item_code, items_printed, rest_behind, rule_code};
ghost use Rattle.inf_statements.specs.Printing.{text_opcode, trees_behind, veneer_called};
ghost use Rattle.inf_statements.specs.Statements.{PrintsText, printed};
ghost use Rattle.inf_operands.specs.Texts.{text_at};
ghost use Rattle.inf_constructs.specs.Roots.{tree_in, trees_from};

use crate::statements::{lay_one, plain, rest};
use inf_expressions::{Forest, Nodes, Root};
use inf_opcode::{Instruction, Opcode};
use inf_output::{Output, Veneer};
use inf_settings::bounds::Bounds;
use inf_templates::{Argument, Tasks, lay_call, lay_routine_call};
use inf_text::CharSet;
use inf_unit::items::{Item, PrintRule};
use inf_unit::texts::text_of;
use inf_unit::unit_tokens::UnitTokens;
use std::alloc::{AllocError, Global};

/// Lays the instruction that prints the text at `at` of `tokens` (Z-Machine Standard 1.1, section 4.8).
pub(crate) fn print_text<B: Bounds>(
    alloc: Global,
    set: CharSet,
    tokens: &UnitTokens,
    at: usize,
    opcode: Opcode,
    out: &mut Output<B>,
) -> Result<(), AllocError>
    requires { PrintsText opcode }
    ensures { OnOk result (out.new ≡ printed B.most opcode (text_at set tokens.now at) out.old) }
{
    let Some(token) = tokens.get(at) else {
        return Ok(());
    };
    let Some(text) = text_of(alloc, set, &token)? else {
        return Ok(());
    };
    let packed = out.texts.pack(alloc, &text)?;
    out.emit(&Instruction::with_text(opcode, packed.as_slice()))
}

/// Returns the opcode that prints a text with `others` behind it: the last text of a statement that returns has its own.
fn text_opcode(returns: bool, others: &[Item]) -> Opcode
    ensures value { result ≡ text_opcode returns others.now }
    ensures prints { PrintsText result }
{
    if returns && others.is_empty() {
        Opcode::PrintRet
    } else {
        Opcode::Print
    }
}

/// Lays the end of a statement that prints where `ends`: the statement returns and its last item is no text.
fn end_items<B: Bounds>(ends: bool, out: &mut Output<B>) -> Result<(), AllocError>
    ensures { OnOk result (out.new ≡ ended B.most ends out.old) }
{
    if !ends {
        return Ok(());
    }
    plain(Opcode::NewLine, out)?;
    plain(Opcode::Rtrue, out)
}

/// Lays a call of the first of some trees with the second.
fn call_with<B: Bounds>(
    nodes: &Nodes,
    roots: &[Root],
    tasks: &mut Tasks,
    out: &mut Output<B>,
) -> Result<(), AllocError>
    ensures { OnOk result (out.new ≡ called_with B.most (trees_from nodes.now roots.now) out.old) }
{
    match roots {
        [routine, value, ..] => {
            let arguments = [Argument::Of(value.place)];
            lay_call(
                tasks,
                nodes,
                Argument::Of(routine.place),
                &arguments,
                None,
                out,
            )
        }
        _ => Ok(()),
    }
}

/// Lays a call of a routine of the veneer with the first of some trees.
fn call_veneer<B: Bounds>(
    veneer: Veneer,
    nodes: &Nodes,
    roots: &[Root],
    tasks: &mut Tasks,
    out: &mut Output<B>,
) -> Result<(), AllocError>
    ensures { OnOk result (out.new ≡ veneer_called B.most veneer (trees_from nodes.now roots.now) out.old) }
{
    match roots.first() {
        Some(root) => {
            let argument = [Argument::Of(root.place)];
            lay_routine_call(tasks, nodes, veneer, &argument, None, out)
        }
        None => Ok(()),
    }
}

/// Lays the code that prints a value by `rule`.
#[tactic(auto, unfolding(crate::specs::Printing::rule_code))]
fn print_by<B: Bounds>(
    rule: PrintRule,
    nodes: &Nodes,
    roots: &[Root],
    tasks: &mut Tasks,
    out: &mut Output<B>,
) -> Result<(), AllocError>
    ensures { OnOk result (out.new ≡ rule_code B.most rule (trees_from nodes.now roots.now) out.old) }
{
    match rule {
        PrintRule::Character => lay_one(Opcode::PrintChar, nodes, roots, tasks, out),
        PrintRule::String => lay_one(Opcode::PrintPaddr, nodes, roots, tasks, out),
        PrintRule::Address => lay_one(Opcode::PrintAddr, nodes, roots, tasks, out),
        PrintRule::Object => lay_one(Opcode::PrintObj, nodes, roots, tasks, out),
        PrintRule::ShortName => call_veneer(Veneer::ShortName, nodes, roots, tasks, out),
        PrintRule::DefiniteArticle => {
            call_veneer(Veneer::DefiniteArticle, nodes, roots, tasks, out)
        }
        PrintRule::CapitalArticle => call_veneer(Veneer::CapitalArticle, nodes, roots, tasks, out),
        PrintRule::IndefiniteArticle => {
            call_veneer(Veneer::IndefiniteArticle, nodes, roots, tasks, out)
        }
        PrintRule::EnglishNumber => call_veneer(Veneer::EnglishNumber, nodes, roots, tasks, out),
        PrintRule::Routine => call_with(nodes, roots, tasks, out),
    }
}

/// Returns the roots behind those of `item`, with which `roots` begin.
fn roots_behind(item: Item, roots: &[Root]) -> &[Root]
    ensures { (nodes : List Tree) → trees_from nodes result.now ≡ trees_behind item (trees_from nodes roots.now) }
{
    match item {
        Item::Value => rest(roots),
        Item::Ruled(PrintRule::Routine) => rest(rest(roots)),
        Item::Ruled(_) => rest(roots),
        _ => roots,
    }
}

/// Returns whether a statement that returns has to end the line behind `item`.
fn ends_behind(item: Item, returns: bool) -> bool
    ensures { result ≡ ends_behind item returns }
{
    match item {
        Item::Text(_) => false,
        _ => returns,
    }
}

/// The settings of a statement that prints: all that its items go by.
#[derive(Clone, Copy)]
pub(crate) struct Printing<'a> {
    pub alloc: Global,
    pub set: CharSet,
    pub tokens: &'a UnitTokens,
    /// Tells whether the statement returns.
    pub returns: bool,
}

/// Lays the code of one item, with `others` behind it.
fn print_item<B: Bounds>(
    printing: Printing<'_>,
    item: Item,
    others: &[Item],
    nodes: &Nodes,
    roots: &[Root],
    tasks: &mut Tasks,
    out: &mut Output<B>,
) -> Result<(), AllocError>
    ensures { OnOk result (out.new ≡ item_code B.most printing.entry.set printing.entry.tokens.now printing.entry.returns others.now item
        (trees_from nodes.now roots.now) out.old) }
{
    match item {
        Item::Text(at) => {
            let opcode = text_opcode(printing.returns, others);
            print_text(
                printing.alloc,
                printing.set,
                printing.tokens,
                at,
                opcode,
                out,
            )
        }
        Item::Value => lay_one(Opcode::PrintNum, nodes, roots, tasks, out),
        Item::Ruled(rule) => print_by(rule, nodes, roots, tasks, out),
        _ => Ok(()),
    }
}

/// Lays the code that prints `items`, in order, with the trees of `forest`.
pub(crate) fn print_items<B: Bounds>(
    printing: Printing<'_>,
    items: &[Item],
    forest: &Forest,
    tasks: &mut Tasks,
    out: &mut Output<B>,
) -> Result<(), AllocError>
    ensures { OnOk result (out.new
        ≡ items_printed B.most printing.entry.set printing.entry.tokens.now printing.entry.returns false items.now
        (map tree_in (trees_in forest.now)) out.old) }
{
    let nodes = &forest.nodes;
    let mut roots = forest.roots.as_slice();
    let mut left = items;
    let mut ends = false;
    while let Some((item, others)) = left.split_first() {
        print_item(printing, *item, others, nodes, roots, tasks, out)?;
        ends = ends_behind(*item, printing.returns);
        roots = roots_behind(*item, roots);
        left = others;
    }
    end_items(ends, out)
}
