//! The units of a routine that have expressions, and the statements that hold others.
ghost use Rattle.inf_compilation.specs.{Context.handed, Works.work};
ghost use Rattle.inf_compilation.specs.Actions.{finding_at, named, operands_of, settled_of, trees_at};
ghost use Rattle.std.specs.Prelude.{IfOk, OnOk, true, ◌≡◌};
ghost use Rattle.inf_expressions.specs.Forests.{trees_in as rooted_in};
ghost use Rattle.inf_statements.specs.Sites.{site};
ghost use Rattle.inf_operands.specs.Uses.{LeavesStay};
ghost use Rattle.inf_unit.specs.Units.{line_opcode, order};
ghost use Rattle.inf_parts.specs.Parts.{has_last, is_case, is_default, is_line, line_finding_of, site_of, wanted_of, actions_named};
ghost use Rattle.inf_parts.specs.Parts.{case_prepared, found_in, leaves_noted, order_of, KnowsOpcode, own_case_prepared, part_prepared};
ghost use Rattle.inf_parts.specs.Parts.{own_finding, part_begun, part_carried, part_effect, part_ended, place_of, statement_at};
ghost use Rattle.inf_parts.specs.Parts.{part_finished, part_laid, statement_laid_in, stores_noted};
ghost use Rattle.inf_constructs.specs.Constructs.{are_own};

use inf_compilation::compilation::Compilation;
use inf_compilation::context::Context;
use inf_compilation::findings::Findings;
use inf_constructs::lay_case;
use inf_expressions::{Finding, Forest, Operand, UnitError, Wanted, judge_whole, least_of_both};
use inf_lexer::Place;
use inf_opcode::Opcode;
use inf_operands::naming::note_all;
use inf_operands::operands::{name_stores, settled};
use inf_settings::bounds::Bounds;
use inf_statements::effects::{Site, wanted_by};
use inf_statements::statements::{Statement, lay_expression, lay_switched, lay_test};
use inf_unit::items::Item;
use inf_unit::unit::order;
use std::alloc::AllocError;

/// A unit of a routine that has expressions.
#[derive(Clone, Copy)]
pub enum Part {
    Statement(Statement),
    /// The condition of an `if` or of a loop.
    Condition,
    /// The expression with which a `for` begins.
    Start,
    /// The expression that a `for` computes behind each turn.
    Step,
    /// The objects over which a loop goes.
    Loop,
    /// The expression that is switched on.
    Switched,
    /// The values of a case, or a default.
    Case,
}

impl Part {
    fn has_last(self) -> bool
        ensures { result ≡ has_last self }
    {
        matches!(self, Part::Statement(_))
    }

    /// Returns the use that the unit makes of its expressions.
    fn wanted(self) -> Wanted
        ensures { result ≡ wanted_of self }
    {
        match self {
            Part::Statement(statement) => wanted_by(statement),
            Part::Loop => Wanted::Loop,
            Part::Case => Wanted::Case,
            Part::Condition | Part::Start | Part::Step | Part::Switched => Wanted::Value,
        }
    }

    fn is_case(self) -> bool
        ensures { result ≡ is_case self }
    {
        matches!(self, Part::Case)
    }

    fn is_line(self) -> bool
        ensures { result ≡ is_line self }
    {
        matches!(self, Part::Statement(Statement::Assembly))
    }
}

/// The trees of a unit, whose names are only looked up, and whether these are known to stay: the use of the names changes nothing.
#[derive(Drop)]
struct Looked {
    forest: Forest,
    stays: bool,
}

/// Returns whether the case with `items` is the default.
fn is_default(items: &[Item]) -> bool
    ensures { result ≡ is_default items.now }
{
    matches!(items, [Item::Default, ..])
}

/// Marks the locals as named in which the unit stores.
fn note_stores<B: Bounds>(compilation: &mut Compilation<B>)
    ensures noted { work compilation.new ≡ stores_noted (work compilation.old) }
    ensures operands { compilation.new.operands.items ≡ compilation.old.operands.items }
{
    name_stores(
        &mut compilation.locals,
        &compilation.unit.tokens,
        compilation.unit.items.as_slice(),
    );
}

fn is_same(operand: Operand, other: Operand) -> bool
    ensures { result ≡ true → operand ≡ other }
{
    operand == other
}

/// Returns whether two lists of operands are the same.
fn are_same(operands: &[Operand], others: &[Operand]) -> bool
    ensures { result ≡ true → operands.now ≡ others.now }
{
    let mut left = operands;
    let mut right = others;
    while let (Some((a, behind)), Some((b, beside))) = (left.split_first(), right.split_first()) {
        if !is_same(*a, *b) {
            return false;
        }
        left = behind;
        right = beside;
    }
    left.is_empty() && right.is_empty()
}

/// Uses the names of the expressions of the unit, which begins at `first`, and returns their trees. Where the operands stay as they were
/// looked up, these are the trees of `looked`, and else they are in the memory of those.
fn settle<B: Bounds>(
    compilation: &mut Compilation<B>,
    context: &Context<'_>,
    first: Place,
    part: Part,
    looked: Forest,
) -> Result<Forest, AllocError>
    requires { let w = work compilation.old in
        rooted_in looked ≡ trees_at (order_of part w) (wanted_of part) compilation.old.operands.items w }
    ensures { IfOk result (λ forest. let s = settled_of B.most (handed context.now) (work compilation.old) in
        (rooted_in forest ≡ trees_at (order_of part (work compilation.old)) (wanted_of part) s.operands (work compilation.old))
        × (work compilation.new ≡ record (work compilation.old) { output = record s.out { first = first } })) }
{
    let order = part_order(compilation, part);
    let operands = settled(
        compilation.alloc,
        context.set,
        &compilation.locals,
        &compilation.unit.tokens,
        compilation.unit.gathering.leaves(),
        &mut compilation.output,
    )?;
    compilation.output.first = first;
    if are_same(operands.as_slice(), compilation.operands.as_slice()) {
        return Ok(looked);
    }
    let (_, forest) = judge_whole(
        compilation.alloc,
        part.wanted(),
        order,
        compilation.unit.gathering.symbols(),
        operands.as_slice(),
        Some(looked),
    )?;
    Ok(forest)
}

/// Returns the site of the statement at hand.
fn site<'a, B: Bounds>(compilation: &'a Compilation<B>, context: &Context<'_>) -> Site<'a>
    ensures { site result ≡ site_of (handed context.now) (work compilation.now) }
{
    Site {
        alloc: compilation.alloc,
        set: context.set,
        tokens: &compilation.unit.tokens,
        begun: compilation.unit.begun,
        items: &compilation.unit.items,
        locals: &compilation.locals,
        constructs: &compilation.constructs,
    }
}

/// Returns the order of the first token of the unit: of a case, that of the first token behind the unit before.
fn part_order<B: Bounds>(compilation: &Compilation<B>, part: Part) -> u32
    ensures { result ≡ order_of part (work compilation.now) }
{
    match part {
        Part::Case => 0,
        _ => order(compilation.unit.begun),
    }
}

/// Returns the place in the source where the unit begins, before a token at `place`.
fn part_place<B: Bounds>(compilation: &Compilation<B>, part: Part, place: Place) -> Place
    ensures { result ≡ place_of part place (work compilation.now) }
{
    match part {
        Part::Case => compilation.unit.first_place(place),
        _ => compilation.unit.own_place(place),
    }
}

/// Returns the finding about an assembly line beside its expressions, whose trees, where names are only looked up, are in `forest`.
fn line_finding<B: Bounds>(
    compilation: &Compilation<B>,
    context: &Context<'_>,
    opcode: Option<Opcode>,
    forest: &Forest,
) -> Option<Finding>
    requires trees { let w = work compilation.now in rooted_in forest.now ≡ trees_at (order w.unit.begun) Wanted.Operand (operands_of w) w }
    requires opcode { opcode ≡ line_opcode (work compilation.now).unit }
    ensures { result ≡ line_finding_of B.most (handed context.now) (work compilation.now) }
{
    let found = site(compilation, context).line_finding(
        &compilation.output.names,
        opcode,
        &forest.nodes,
        &forest.roots,
    );
    least_of_both(compilation.unit.passed, found)
}

/// Returns the finding about the unit, which is `part`, beside its expressions, whose trees, where names are only looked up, are in
/// `forest`.
fn own_finding<B: Bounds>(
    compilation: &Compilation<B>,
    context: &Context<'_>,
    part: Part,
    opcode: Option<Opcode>,
    forest: &Forest,
) -> Option<Finding>
    requires trees { let w = work compilation.now in rooted_in forest.now ≡ trees_at (order_of part w) (wanted_of part) (operands_of w) w }
    requires opcode { KnowsOpcode part opcode (work compilation.now) }
    ensures { result ≡ own_finding B.most (handed context.now) part (work compilation.now) }
{
    match part {
        Part::Statement(Statement::Assembly) => line_finding(compilation, context, opcode, forest),
        Part::Statement(statement) => site(compilation, context).finding(
            statement,
            &compilation.labels,
        ),
        Part::Case if compilation.constructs.is_late() => Some(Finding {
            order: 0,
            error: UnitError::MisplacedDefault,
        }),
        _ => None,
    }
}

/// Looks up the names of the expressions of the unit, which is `part`, and returns the least finding about the expressions, and their
/// trees, in the memory that was kept, if there is some. The locals that the expressions name are marked as named.
fn look<B: Bounds>(
    compilation: &mut Compilation<B>,
    part: Part,
) -> Result<(Option<Finding>, Looked), AllocError>
    ensures finding { let w = work compilation.old in IfOk result (λ found. found.0 ≡ finding_at (order_of part w) (wanted_of part) w) }
    ensures trees { let w = work compilation.old in IfOk result (λ found.
        rooted_in found.1.forest ≡ trees_at (order_of part w) (wanted_of part) (operands_of w) w) }
    ensures stays { let w = work compilation.old in IfOk result (λ found. found.1.stays ≡ true →
        LeavesStay w.locals w.output w.unit.tokens w.unit.gathering.leaves (operands_of w)) }
    ensures noted { OnOk result (work compilation.new ≡ leaves_noted (work compilation.old)) }
    ensures operands { OnOk result (compilation.new.operands.items ≡ operands_of (work compilation.old)) }
{
    let order = part_order(compilation, part);
    let stays = note_all(
        compilation.alloc,
        &mut compilation.locals,
        &compilation.output,
        &compilation.unit.tokens,
        compilation.unit.gathering.leaves(),
        &mut compilation.operands,
    )?;
    let spare = compilation.forest.take();
    let (finding, forest) = judge_whole(
        compilation.alloc,
        part.wanted(),
        order,
        compilation.unit.gathering.symbols(),
        compilation.operands.as_slice(),
        spare,
    )?;
    Ok((finding, Looked { forest, stays }))
}

/// Returns the least finding about the unit, which is `part` and begins at `first`, if there is one, and the trees of its expressions.
/// They stay where the unit has no error either. The locals that the expressions name are marked as named.
#[tactic(auto, using(crate::proofs::Staying::finished, crate::proofs::Noting::own_noted, crate::proofs::Noting::trees_noted))]
fn found_in<B: Bounds>(
    compilation: &mut Compilation<B>,
    context: &Context<'_>,
    first: Place,
    part: Part,
    opcode: Option<Opcode>,
) -> Result<(Option<Finding>, Looked), AllocError>
    requires { KnowsOpcode part opcode (work compilation.old) }
    ensures finding { IfOk result (λ found. found.0 ≡ found_in B.most (handed context.now) part (work compilation.old)) }
    ensures stays { let w = work compilation.old in IfOk result (λ found. found.1.stays ≡ true →
        part_laid B.most (handed context.now) first part (rooted_in found.1.forest) (named (part_begun B.most part w))
        ≡ part_finished B.most (handed context.now) first part w) }
    ensures noted { OnOk result (work compilation.new ≡ leaves_noted (work compilation.old)) }
    ensures trees { let w = work compilation.old in IfOk result (λ found.
        rooted_in found.1.forest ≡ trees_at (order_of part w) (wanted_of part) compilation.new.operands.items w) }
{
    let (finding, mut looked) = look(compilation, part)?;
    let own = own_finding(compilation, context, part, opcode, &looked.forest);
    let least = least_of_both(finding, own);
    looked.stays = looked.stays & !part.is_case() & least.is_none();
    Ok((least, looked))
}

/// Begins a case, also one with an error, if the unit, which is `part`, is one.
fn begin_part<B: Bounds>(compilation: &mut Compilation<B>, part: Part) -> Result<(), AllocError>
    ensures begun { OnOk result (work compilation.new ≡ part_begun B.most part (work compilation.old)) }
    ensures operands { compilation.new.operands.items ≡ compilation.old.operands.items }
{
    match part {
        Part::Case => {
            let is_default = is_default(&compilation.unit.items);
            compilation
                .constructs
                .enter(is_default, &mut compilation.output)
        }
        _ => Ok(()),
    }
}

/// Lays the code of `statement`, with the trees of `forest`.
fn lay_statement<B: Bounds>(
    compilation: &mut Compilation<B>,
    context: &Context<'_>,
    statement: Statement,
    opcode: Option<Opcode>,
    forest: &Forest,
) -> Result<(), AllocError>
    requires { KnowsOpcode (Part.Statement statement) opcode (work compilation.old) }
    ensures { OnOk result (work compilation.new ≡ statement_laid_in B.most (handed context.now) statement (rooted_in forest.now)
        (work compilation.old)) }
{
    let site = Site {
        alloc: compilation.alloc,
        set: context.set,
        tokens: &compilation.unit.tokens,
        begun: compilation.unit.begun,
        items: &compilation.unit.items,
        locals: &compilation.locals,
        constructs: &compilation.constructs,
    };
    site.lay(
        statement,
        opcode,
        forest,
        &mut compilation.labels,
        &mut compilation.tasks,
        &mut compilation.output,
    )
}

/// Has the unit, which is `part`, take effect, with the trees of `forest`.
#[tactic(auto, unfolding(crate::specs::Parts::part_effect))]
fn take_effect<B: Bounds>(
    compilation: &mut Compilation<B>,
    context: &Context<'_>,
    part: Part,
    opcode: Option<Opcode>,
    forest: &Forest,
) -> Result<(), AllocError>
    requires { KnowsOpcode part opcode (work compilation.old) }
    ensures { OnOk result (work compilation.new ≡ part_effect B.most (handed context.now) part (rooted_in forest.now) (work compilation.old)) }
{
    let (tasks, out) = (&mut compilation.tasks, &mut compilation.output);
    match part {
        Part::Statement(statement) => lay_statement(
            compilation,
            context,
            statement,
            opcode,
            forest,
        ),
        Part::Condition => lay_test(compilation.constructs.condition_label(), forest, tasks, out),
        Part::Start => lay_expression(forest, tasks, out),
        Part::Step => {
            out.set_apart(compilation.alloc);
            lay_expression(forest, tasks, out)?;
            compilation.constructs.keep_step(compilation.alloc, out)
        }
        Part::Loop => compilation.constructs.go_over(forest, tasks, out),
        Part::Switched => lay_switched(forest, tasks, out),
        Part::Case => lay_case(compilation.constructs.next_case(), forest, out),
    }
}

/// Has the unit, which is `part` and begins at `first`, take effect, with the trees of `forest`, whose memory is kept, and ends it.
fn lay_part<B: Bounds>(
    compilation: &mut Compilation<B>,
    context: &Context<'_>,
    first: Place,
    part: Part,
    opcode: Option<Opcode>,
    forest: Forest,
) -> Result<(), AllocError>
    requires { KnowsOpcode part opcode (work compilation.old) }
    ensures { OnOk result (work compilation.new ≡ part_laid B.most (handed context.now) first part (rooted_in forest) (work compilation.old)) }
{
    compilation.output.first = first;
    take_effect(compilation, context, part, opcode, &forest)?;
    compilation.forest = Some(forest);
    compilation.end_clean(context, first, part.has_last())
}

/// Ends the unit, which is `part` and begins at `first`, with `finding`, the least about it, if there is one: then it has no effect.
/// Its trees, where names are only looked up, are in `looked`, whose memory is kept.
fn carry_out_part<B: Bounds>(
    compilation: &mut Compilation<B>,
    context: &Context<'_>,
    first: Place,
    part: Part,
    opcode: Option<Opcode>,
    finding: Option<Finding>,
    looked: Forest,
) -> Result<(), AllocError>
    requires opcode { KnowsOpcode part opcode (work compilation.old) }
    requires trees { let w = work compilation.old in
        rooted_in looked ≡ trees_at (order_of part w) (wanted_of part) compilation.old.operands.items w }
    ensures { OnOk result (work compilation.new ≡ part_carried B.most (handed context.now) first part finding (work compilation.old)) }
{
    if finding.is_none() {
        let forest = settle(compilation, context, first, part, looked)?;
        return lay_part(compilation, context, first, part, opcode, forest);
    }
    compilation.forest = Some(looked);
    compilation.end_unit(context, first, part.has_last(), &Findings::alone(finding))
}

/// Makes the names of the expressions of the unit those of actions, where its case is one of the own cases of the routine.
fn name_actions<B: Bounds>(compilation: &mut Compilation<B>)
    ensures { let before = work compilation.old in work compilation.new ≡ actions_named (are_own before.constructs) before }
{
    if compilation.constructs.are_own() {
        compilation.unit.gathering.name_actions();
    }
}

/// Prepares a case: one outside of any statement is one of the own cases of the routine.
fn begin_cases<B: Bounds>(compilation: &mut Compilation<B>) -> Result<(), AllocError>
    ensures { OnOk result (work compilation.new ≡ own_case_prepared B.most (work compilation.old)) }
{
    compilation.constructs.begin_cases(&mut compilation.output)?;
    name_actions(compilation);
    Ok(())
}

/// Prepares the unit, which is `part`, if it is a case.
fn prepare_case<B: Bounds>(compilation: &mut Compilation<B>, part: Part) -> Result<(), AllocError>
    ensures { OnOk result (work compilation.new ≡ case_prepared B.most part (work compilation.old)) }
{
    match part {
        Part::Case => begin_cases(compilation),
        _ => Ok(()),
    }
}

/// Looks up the unit, which is `part` and begins at `first`, as `found_in` does, begins it if it is a case, and marks all locals as named
/// that the unit names.
fn take_up<B: Bounds>(
    compilation: &mut Compilation<B>,
    context: &Context<'_>,
    first: Place,
    part: Part,
    opcode: Option<Opcode>,
) -> Result<(Option<Finding>, Looked), AllocError>
    requires { KnowsOpcode part opcode (work compilation.old) }
    ensures finding { IfOk result (λ found. found.0 ≡ found_in B.most (handed context.now) part (work compilation.old)) }
    ensures stays { let w = work compilation.old in IfOk result (λ found. found.1.stays ≡ true →
        part_laid B.most (handed context.now) first part (rooted_in found.1.forest) (named (part_begun B.most part w))
        ≡ part_finished B.most (handed context.now) first part w) }
    ensures named { OnOk result (work compilation.new ≡ named (part_begun B.most part (work compilation.old))) }
    ensures trees { let w = work compilation.new in IfOk result (λ found.
        rooted_in found.1.forest ≡ trees_at (order_of part w) (wanted_of part) compilation.new.operands.items w) }
{
    let found = found_in(compilation, context, first, part, opcode)?;
    begin_part(compilation, part)?;
    note_stores(compilation);
    Ok(found)
}

/// Prepares the unit, which is `part`, and returns the opcode of an assembly line.
fn prepare<B: Bounds>(
    compilation: &mut Compilation<B>,
    part: Part,
) -> Result<Option<Opcode>, AllocError>
    ensures prepared { OnOk result (work compilation.new ≡ part_prepared (work compilation.old)) }
    ensures opcode { IfOk result (λ opcode. KnowsOpcode part opcode (work compilation.new)) }
{
    if part.is_line() {
        return compilation.unit.prepare_line();
    }
    compilation.unit.prepare()?;
    Ok(None)
}

/// Ends `part`, a unit of a routine, before a token at `place`. In a routine that is passed over nothing has an effect.
#[tactic(auto, using(crate::proofs::Lines::known_prepared))]
pub fn end_part<B: Bounds>(
    compilation: &mut Compilation<B>,
    context: &Context<'_>,
    place: Place,
    part: Part,
) -> Result<(), AllocError>
    ensures { OnOk result (work compilation.new ≡ part_ended B.most (handed context.now) place part (work compilation.old)) }
{
    if compilation.is_replaced {
        compilation.pass(part.has_last());
        return Ok(());
    }
    let opcode = prepare(compilation, part)?;
    prepare_case(compilation, part)?;
    let first = part_place(compilation, part, place);
    let (finding, looked) = take_up(compilation, context, first, part, opcode)?;
    if looked.stays {
        return lay_part(compilation, context, first, part, opcode, looked.forest);
    }
    carry_out_part(
        compilation,
        context,
        first,
        part,
        opcode,
        finding,
        looked.forest,
    )
}

/// Ends a statement, before a token at `place`.
pub fn end_statement<B: Bounds>(
    compilation: &mut Compilation<B>,
    context: &Context<'_>,
    place: Place,
) -> Result<(), AllocError>
    ensures { let before = work compilation.old in
        OnOk result (work compilation.new ≡ part_ended B.most (handed context.now) place (Part.Statement (statement_at before)) before) }
{
    let statement = site(compilation, context).statement();
    end_part(compilation, context, place, Part::Statement(statement))
}
