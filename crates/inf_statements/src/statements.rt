//! The statements, and the code of those that need nothing beside their trees.
ghost use Rattle.std.specs.Prelude.{◌≡◌, List, OnOk, Some, map, false};
ghost use Rattle.inf_expressions.specs.{Forests.trees_in, Nodes.tree_at, Trees.Tree};
ghost use Rattle.inf_output.specs.Output.{Takes};
ghost use Rattle.inf_templates.specs.{Meaning.Meaning, Tasks.part_of, Tasks.parts_of};
ghost use Rattle.inf_unit.specs.Spelled.{spelled};
ghost use Rattle.inf_constructs.specs.Roots.{tree_in, trees_from};
ghost use Rattle.inf_statements.specs.Statements.{action_laid, action_on, alone, are_several, attribute_code, attribute_opcode};
ghost use Rattle.inf_statements.specs.Statements.{attributes_changed, attributes_given, jumped_to, mark_statement, moved, one_worked};
ghost use Rattle.inf_statements.specs.Statements.{plain, processed, rest, returned, returned_by, spaced, statement_in, statement_of_kind};
ghost use Rattle.inf_statements.specs.Statements.{string_of, string_set, style_of, styled, styled_by, switched, tested, text_statement};
ghost use Rattle.inf_statements.specs.Statements.{unless, word_statement};

use inf_area::{AreaName, Target};
use inf_constructs::SWITCHED;
use inf_expressions::{Forest, Nodes, Root};
use inf_opcode::{Label, Opcode};
use inf_output::{Output, Simple, Veneer};
use inf_scanner::{Mark, TokenKind};
use inf_settings::bounds::Bounds;
use inf_syntax::Keyword;
use inf_templates::{
    Argument, Tasks, lay_alone, lay_branch, lay_instruction, lay_routine_call, lay_value, simple_of,
};
use inf_unit::items::Item;
use inf_unit::tokens::SourceToken;
use inf_unit::unit_tokens::UnitTokens;
use std::alloc::AllocError;

/// The address at which the table of abbreviations begins, the string variables first.
const ABBREVIATIONS: Target = Target::Place(AreaName::Abbreviations, 0);

/// The variable for values that are not used.
const TEMP: u8 = 255;

/// A statement, known by its first token.
#[derive(Clone, Copy)]
pub enum Statement {
    /// A semicolon alone.
    Empty,
    /// An expression without result: the first token is no keyword.
    Expression,
    Print,
    /// `print_ret`, and a text alone.
    PrintReturn,
    Return,
    NewLine,
    Quit,
    ReturnTrue,
    ReturnFalse,
    Break,
    Continue,
    Jump,
    /// The place of a label: `.` and its name.
    Place,
    Give,
    Move,
    Remove,
    Spaces,
    /// `string`: a string variable becomes a new low string.
    String,
    Style,
    /// A line of assembly, which begins with `@`.
    Assembly,
    /// An action in angle brackets, and one that returns behind it.
    Action,
    ActionReturn,
}

/// Returns the statement that begins with a name, by `keyword`, the word of the grammar that the name is.
fn word_statement(keyword: Option<Keyword>) -> Statement
    ensures { result ≡ word_statement keyword }
{
    match keyword {
        Some(Keyword::Print) => Statement::Print,
        Some(Keyword::PrintRet) => Statement::PrintReturn,
        Some(Keyword::Return) => Statement::Return,
        Some(Keyword::NewLine) => Statement::NewLine,
        Some(Keyword::Quit) => Statement::Quit,
        Some(Keyword::Rtrue) => Statement::ReturnTrue,
        Some(Keyword::Rfalse) => Statement::ReturnFalse,
        Some(Keyword::Break) => Statement::Break,
        Some(Keyword::Continue) => Statement::Continue,
        Some(Keyword::Jump) => Statement::Jump,
        Some(Keyword::Give) => Statement::Give,
        Some(Keyword::Move) => Statement::Move,
        Some(Keyword::Remove) => Statement::Remove,
        Some(Keyword::Spaces) => Statement::Spaces,
        Some(Keyword::String) => Statement::String,
        Some(Keyword::Style) => Statement::Style,
        _ => Statement::Expression,
    }
}

/// Returns the statement that begins with `mark`.
fn mark_statement(mark: Mark) -> Statement
    ensures { result ≡ mark_statement mark }
{
    match mark {
        Mark::Dot => Statement::Place,
        Mark::At => Statement::Assembly,
        Mark::Less => Statement::Action,
        Mark::DoubleLess => Statement::ActionReturn,
        _ => Statement::Expression,
    }
}

/// Returns the statement that begins with a text and has `items`.
fn text_statement(items: &[Item]) -> Statement
    ensures { result ≡ text_statement items.now }
{
    if items.is_empty() {
        Statement::Expression
    } else {
        Statement::PrintReturn
    }
}

/// Returns the statement that begins with `token` and has `items`.
fn statement_of(token: &SourceToken<'_>, items: &[Item]) -> Statement
    ensures { result ≡ statement_of_kind token.now.kind (spelled token.now) items.now }
{
    match token.kind {
        TokenKind::Name => word_statement(token.keyword()),
        TokenKind::Text => text_statement(items),
        TokenKind::Mark(mark) => mark_statement(mark),
        _ => Statement::Expression,
    }
}

/// Returns the statement that begins at place `begun` of `tokens` and has `items`.
#[tactic(auto, unfolding(crate::specs::Statements::statement_in))]
pub(crate) fn statement_in(tokens: &UnitTokens, begun: usize, items: &[Item]) -> Statement
    ensures { result ≡ statement_in tokens.now begun items.now }
{
    match tokens.get(begun) {
        Some(token) => statement_of(&token, items),
        None => Statement::Empty,
    }
}

pub(crate) fn plain<B: Bounds>(opcode: Opcode, out: &mut Output<B>) -> Result<(), AllocError>
    requires { Takes opcode 0 false false }
    ensures { OnOk result (out.new ≡ plain B.most opcode out.old) }
{
    out.instruct(opcode, &[], None, None)
}

/// Returns `roots` without the first.
pub(crate) fn rest(roots: &[Root]) -> &[Root]
    ensures { (nodes : List Tree) → trees_from nodes result.now ≡ rest (trees_from nodes roots.now) }
{
    match roots.split_first() {
        Some((_, others)) => others,
        None => roots,
    }
}

/// Lays an instruction with the first of some trees as its operand.
pub(crate) fn lay_one<B: Bounds>(
    opcode: Opcode,
    nodes: &Nodes,
    roots: &[Root],
    tasks: &mut Tasks,
    out: &mut Output<B>,
) -> Result<(), AllocError>
    requires { Takes opcode 1 false false }
    ensures { OnOk result (out.new ≡ one_worked B.most opcode (trees_from nodes.now roots.now) out.old) }
{
    match roots.first() {
        Some(root) => {
            let argument = [Argument::Of(root.place)];
            lay_instruction(tasks, nodes, opcode, &argument, None, None, out)
        }
        None => Ok(()),
    }
}

/// Lays the code of the expression in `forest`, whose result is not used.
pub fn lay_expression<B: Bounds>(
    forest: &Forest,
    tasks: &mut Tasks,
    out: &mut Output<B>,
) -> Result<(), AllocError>
    ensures { OnOk result (out.new ≡ alone B.most (map tree_in (trees_in forest.now)) out.old) }
{
    match forest.roots.first() {
        Some(root) => lay_alone(tasks, &forest.nodes, root.place, out),
        None => Ok(()),
    }
}

/// Lays a branch to `label` where the expression is not true.
fn lay_unless<B: Bounds>(
    forest: &Forest,
    label: Label,
    tasks: &mut Tasks,
    out: &mut Output<B>,
) -> Result<(), AllocError>
    ensures { OnOk result (out.new ≡ unless B.most (map tree_in (trees_in forest.now)) label out.old) }
{
    match forest.roots.first() {
        Some(root) => lay_branch(tasks, &forest.nodes, root.place, false, label, out),
        None => Ok(()),
    }
}

/// Lays a branch to `label`, if there is one, that is taken where the expression in `forest` is not true.
pub fn lay_test<B: Bounds>(
    label: Option<Label>,
    forest: &Forest,
    tasks: &mut Tasks,
    out: &mut Output<B>,
) -> Result<(), AllocError>
    ensures { OnOk result (out.new ≡ tested B.most label (map tree_in (trees_in forest.now)) out.old) }
{
    match label {
        Some(label) => lay_unless(forest, label, tasks, out),
        None => Ok(()),
    }
}

/// Lays the code that stores the value of `forest`, which is switched on, in its variable.
pub fn lay_switched<B: Bounds>(
    forest: &Forest,
    tasks: &mut Tasks,
    out: &mut Output<B>,
) -> Result<(), AllocError>
    ensures { OnOk result (out.new ≡ switched B.most (map tree_in (trees_in forest.now)) out.old) }
{
    match forest.roots.first() {
        Some(root) => lay_value(tasks, &forest.nodes, root.place, SWITCHED, out),
        None => Ok(()),
    }
}

/// Lays the return of a simple operand: a number that is known as 1 or 0 has an instruction of its own.
fn return_simple<B: Bounds>(operand: Simple, out: &mut Output<B>) -> Result<(), AllocError>
    ensures { (m : Meaning) → OnOk result (out.new ≡ returned_by B.most (Some operand) m out.old) }
{
    match operand {
        Simple::Known(1) => plain(Opcode::Rtrue, out),
        Simple::Known(0) => plain(Opcode::Rfalse, out),
        _ => out.instruct(Opcode::Ret, &[operand], None, None),
    }
}

/// Lays the return of the first of some trees; of 1 where there is none. A value that needs code is returned from the stack.
pub(crate) fn lay_return<B: Bounds>(
    forest: &Forest,
    tasks: &mut Tasks,
    out: &mut Output<B>,
) -> Result<(), AllocError>
    ensures { OnOk result (out.new ≡ returned B.most (map tree_in (trees_in forest.now)) out.old) }
{
    let Some(root) = forest.roots.first() else {
        return plain(Opcode::Rtrue, out);
    };
    if let Some(operand) = simple_of::<B>(&forest.nodes, root.place) {
        return return_simple(operand, out);
    }
    lay_value(tasks, &forest.nodes, root.place, 0, out)?;
    plain(Opcode::RetPopped, out)
}

/// Lays the code of `move`: the first of some trees goes into the second.
pub(crate) fn lay_move<B: Bounds>(
    forest: &Forest,
    tasks: &mut Tasks,
    out: &mut Output<B>,
) -> Result<(), AllocError>
    ensures { OnOk result (out.new ≡ moved B.most (map tree_in (trees_in forest.now)) out.old) }
{
    match forest.roots.as_slice() {
        [a, b, ..] => {
            let arguments = [Argument::Of(a.place), Argument::Of(b.place)];
            lay_instruction(
                tasks,
                &forest.nodes,
                Opcode::InsertObj,
                &arguments,
                None,
                None,
                out,
            )
        }
        _ => Ok(()),
    }
}

/// Lays the code of `spaces`, which prints as many spaces as the first tree of `forest` says.
pub(crate) fn lay_spaces<B: Bounds>(
    forest: &Forest,
    tasks: &mut Tasks,
    out: &mut Output<B>,
) -> Result<(), AllocError>
    ensures { OnOk result (out.new ≡ spaced B.most (map tree_in (trees_in forest.now)) out.old) }
{
    match forest.roots.first() {
        Some(root) => {
            let argument = [Argument::Of(root.place)];
            lay_routine_call(tasks, &forest.nodes, Veneer::Spaces, &argument, None, out)
        }
        None => Ok(()),
    }
}

/// Lays the code by which the string variable whose number is the first of some trees becomes a low string: its place
/// among the abbreviations is written.
fn set_string<B: Bounds>(
    low: Target,
    nodes: &Nodes,
    roots: &[Root],
    tasks: &mut Tasks,
    out: &mut Output<B>,
) -> Result<(), AllocError>
    ensures { OnOk result (out.new ≡ string_set B.most low (trees_from nodes.now roots.now) out.old) }
{
    match roots.first() {
        Some(root) => {
            let arguments = [
                Argument::Is(Simple::Later(ABBREVIATIONS)),
                Argument::Of(root.place),
                Argument::Is(Simple::Later(low)),
            ];
            lay_instruction(tasks, nodes, Opcode::Storew, &arguments, None, None, out)
        }
        None => Ok(()),
    }
}

/// Lays the code of `string`: the string variable whose number is the first of some trees becomes a new low string of these bytes.
pub(crate) fn lay_string<B: Bounds>(
    packed: &[u8],
    forest: &Forest,
    tasks: &mut Tasks,
    out: &mut Output<B>,
) -> Result<(), AllocError>
    ensures { OnOk result (out.new ≡ string_of B.most packed.now (map tree_in (trees_in forest.now)) out.old) }
{
    let low = out.low_string(packed)?;
    set_string(low, &forest.nodes, &forest.roots, tasks, out)
}

/// Lays a call of the routine that processes actions.
fn lay_process<B: Bounds>(
    arguments: &[Argument],
    nodes: &Nodes,
    tasks: &mut Tasks,
    out: &mut Output<B>,
) -> Result<(), AllocError>
    ensures { OnOk result (out.new ≡ processed B.most (parts_of B.most nodes.now arguments.now) out.old) }
{
    lay_routine_call(tasks, nodes, Veneer::Process, arguments, None, out)
}

/// Lays an action with a noun, or with two.
fn lay_action_on<B: Bounds>(
    action: Argument,
    nouns: &[Root],
    nodes: &Nodes,
    tasks: &mut Tasks,
    out: &mut Output<B>,
) -> Result<(), AllocError>
    ensures { OnOk result (out.new ≡ action_on B.most (part_of B.most nodes.now action) (trees_from nodes.now nouns.now) out.old) }
{
    match nouns {
        [] => lay_process(&[action], nodes, tasks, out),
        [noun] => lay_process(&[action, Argument::Of(noun.place)], nodes, tasks, out),
        [noun, second, ..] => {
            let arguments = [action, Argument::Of(noun.place), Argument::Of(second.place)];
            lay_process(&arguments, nodes, tasks, out)
        }
    }
}

/// Lays an action: a call of a routine of the veneer with the trees.
pub(crate) fn lay_action<B: Bounds>(
    forest: &Forest,
    tasks: &mut Tasks,
    out: &mut Output<B>,
) -> Result<(), AllocError>
    ensures { OnOk result (out.new ≡ action_laid B.most (map tree_in (trees_in forest.now)) out.old) }
{
    match forest.roots.as_slice().split_first() {
        Some((root, nouns)) => {
            lay_action_on(Argument::Of(root.place), nouns, &forest.nodes, tasks, out)
        }
        None => Ok(()),
    }
}

/// Returns the opcode by which an attribute is given or taken away.
fn attribute_opcode(item: Item) -> Opcode
    ensures value { result ≡ attribute_opcode item }
    ensures takes { Takes result 2 false false }
{
    match item {
        Item::Set => Opcode::SetAttr,
        _ => Opcode::ClearAttr,
    }
}

/// Lays the code that gives an object the attribute that is the first of some trees, or takes it away.
fn lay_attribute<B: Bounds>(
    opcode: Opcode,
    object: Argument,
    nodes: &Nodes,
    roots: &[Root],
    tasks: &mut Tasks,
    out: &mut Output<B>,
) -> Result<(), AllocError>
    requires { Takes opcode 2 false false }
    ensures { OnOk result (out.new ≡ attribute_code B.most opcode (part_of B.most nodes.now object) (trees_from nodes.now roots.now)
        out.old) }
{
    match roots.first() {
        Some(root) => {
            let arguments = [object, Argument::Of(root.place)];
            lay_instruction(tasks, nodes, opcode, &arguments, None, None, out)
        }
        None => Ok(()),
    }
}

/// Lays the code of attributes that an object is given or that are taken from it, one by one.
fn lay_attributes<B: Bounds>(
    object: Argument,
    items: &[Item],
    nodes: &Nodes,
    roots: &[Root],
    tasks: &mut Tasks,
    out: &mut Output<B>,
) -> Result<(), AllocError>
    ensures { OnOk result (out.new ≡ attributes_given B.most (part_of B.most nodes.now object) items.now (trees_from nodes.now roots.now)
        out.old) }
{
    let mut left = items;
    let mut attributes = roots;
    while let Some((item, others)) = left.split_first() {
        let opcode = attribute_opcode(*item);
        lay_attribute(opcode, object, nodes, attributes, tasks, out)?;
        attributes = rest(attributes);
        left = others;
    }
    Ok(())
}

/// Returns whether there are two items or more.
fn are_several(items: &[Item]) -> bool
    ensures { result ≡ are_several items.now }
{
    matches!(items, [_, _, ..])
}

/// Lays the code of `give`: the first of some trees is an object. With several attributes an object that needs code is worked out first.
pub(crate) fn lay_give<B: Bounds>(
    items: &[Item],
    forest: &Forest,
    tasks: &mut Tasks,
    out: &mut Output<B>,
) -> Result<(), AllocError>
    ensures { OnOk result (out.new ≡ attributes_changed B.most items.now (map tree_in (trees_in forest.now)) out.old) }
{
    let nodes = &forest.nodes;
    let Some((root, attributes)) = forest.roots.as_slice().split_first() else {
        return Ok(());
    };
    let mut object = Argument::Of(root.place);
    if are_several(items) && simple_of::<B>(nodes, root.place).is_none() {
        lay_value(tasks, nodes, root.place, TEMP, out)?;
        object = Argument::Is(Simple::Variable(TEMP));
    }
    lay_attributes(object, items, nodes, attributes, tasks, out)
}

pub(crate) fn style_of(name: &[u8]) -> Option<u16>
    ensures { result ≡ style_of name.now }
{
    if name.eq_ignore_ascii_case(b"roman") {
        Some(0)
    } else if name.eq_ignore_ascii_case(b"reverse") {
        Some(1)
    } else if name.eq_ignore_ascii_case(b"bold") {
        Some(2)
    } else if name.eq_ignore_ascii_case(b"underline") {
        Some(4)
    } else if name.eq_ignore_ascii_case(b"fixed") {
        Some(8)
    } else {
        None
    }
}

/// Lays the code of `style`: the style of `name`.
pub(crate) fn lay_style<B: Bounds>(name: &[u8], out: &mut Output<B>) -> Result<(), AllocError>
    ensures { OnOk result (out.new ≡ styled B.most name.now out.old) }
{
    match style_of(name) {
        Some(style) => out.instruct(Opcode::SetTextStyle, &[Simple::Known(style)], None, None),
        None => Ok(()),
    }
}

/// Lays a jump to `label`, if there is one.
pub(crate) fn lay_jump<B: Bounds>(
    label: Option<Label>,
    out: &mut Output<B>,
) -> Result<(), AllocError>
    ensures { OnOk result (out.new ≡ jumped_to B.most label out.old) }
{
    match label {
        Some(label) => out.jump(label),
        None => Ok(()),
    }
}
