//! The condition of a conditional directive.
ghost use Rattle.std.specs.Prelude.{◌≡◌, IfOk, IfSome, List, OnOk, Some, drop, map, true};
ghost use Rattle.inf_conditionals.specs.Condition.{all_acted, condition_begun, condition_took, extent_of, finding_by, is_true_by, is_whole};
ghost use Rattle.inf_conditionals.specs.Condition.{number_of, tree_in, verdict_of};
ghost use Rattle.inf_conditionals.specs.{Held.IsHeld, Held.condition_by, Held.has_tokens, Held.unfolded, Truths.truth_of};
ghost use Rattle.inf_conditionals.specs.ReadAgain.{IsReadBy, all_fit, all_taken, condition_at};
ghost use Rattle.inf_expressions.specs.Forests.{trees_in};
ghost use Rattle.inf_grammar.specs.Language.{grammar, known};
ghost use Rattle.inf_machine.specs.{Machine.fits, Machine.taken, declared.symbols.Symbol.Symbol};
ghost use Rattle.inf_syntax.specs.declared.actions.Action.{Action};
ghost use Rattle.inf_unit.specs.{AtHand.unit as unit_of, Spelled.spelled, Tokens.atom_of};

use crate::operands::operands_of;
use crate::packed::PackedTokens;
use crate::truth::truth_of;
use inf_area::Value;
use inf_expressions::{Finding, Forest, Wanted, constant, judge_whole};
use inf_grammar::{Action, Openings, PIECE, Rest};
use inf_output::Output;
use inf_scanner::Place;
use inf_settings::bounds::Bounds;
use inf_unit::tokens::SourceToken;
use inf_unit::unit::Unit;
use inf_unit::unit_tokens::UnitTokens;
use std::alloc::{AllocError, Global};
use std::marker::Model;
use std::mem;

/// The most tokens of a condition that is read again, where it waits for one inside of it.
const FEW: usize = 8;

/// All that conditions share, of which one at a time is read.
#[derive(Drop)]
pub(crate) struct Steps {
    openings: Openings,
    /// The actions on the way to the token at hand.
    actions: Vec<Action>,
}

impl Steps {
    pub(crate) fn new(alloc: Global) -> Steps {
        Steps {
            openings: Openings::new(alloc),
            actions: Vec::new(alloc),
        }
    }

    /// Reads `token`, of which `rest` is still to be read, if it fits, and returns whether it does. The actions on the way to it are then
    /// those at hand.
    pub(crate) fn read(
        &mut self,
        rest: &mut Rest,
        token: &SourceToken<'_>,
    ) -> Result<bool, AllocError>
        ensures fits { IfOk result (λ fits_now. fits_now ≡ fits grammar known (atom_of (spelled token.now)) rest.old) }
        ensures left { IfOk result (λ fits_now. fits_now ≡ true →
            rest.new ≡ (taken grammar known (atom_of (spelled token.now)) rest.old).left) }
        ensures actions { IfOk result (λ fits_now. fits_now ≡ true →
            self.new.actions.items ≡ (taken grammar known (atom_of (spelled token.now)) rest.old).actions) }
    {
        self.actions.clear();
        rest.read(&mut self.openings, token.atom(), &mut self.actions)
    }

    /// Returns the actions at hand.
    pub(crate) fn actions(&self) -> &[Action]
        ensures { result.now ≡ (self.now).actions.items }
    {
        self.actions.as_slice()
    }
}

/// The parts of a condition that are up to date.
#[derive(Clone, Copy)]
pub enum Held {
    Both,
    /// The tokens alone, as in a condition that is passed over: its unit would take much more memory.
    Tokens,
    /// The unit alone, since there was no memory for a token.
    Unit,
}

/// A conditional directive with a condition that is being read: by the grammar, as any other directive.
pub struct Condition {
    alloc: Global,
    /// The rest of the directive that is still to be read.
    rest: Rest,
    unit: Unit,
    /// All tokens that were taken.
    tokens: PackedTokens,
    held: Held,
}

impl Model for Condition {
    ghost use Rattle.inf_unit.specs.AtHand.{unit as unit_of};
    ghost use Rattle.inf_conditionals.specs.{Condition.Condition, Held.IsHeld, Held.condition_by};

    ghost Value = { Condition };

    ghost view = { λ k. condition_by k.held k.rest (unit_of k.unit) k.tokens };

    ghost invariant = { λ k. IsHeld k.held k.rest (unit_of k.unit) k.tokens };
}

/// One call at each exit of a function that owns a condition, in place of a call for each part of each part.
impl Drop for Condition {
    fn drop(self) {
        let _parts = self.into_parts();
    }
}

/// The extent of a condition's expression so far: the number of its tokens, the place of the first that is too many, and the number of
/// brackets that are open.
#[derive(Clone, Copy)]
pub struct Extent {
    pub tokens: usize,
    pub long: Option<Place>,
    pub depth: u32,
}

/// The result of a condition.
#[derive(Clone, Copy)]
pub struct Verdict {
    /// Tells whether the condition is true, which it is not with an error.
    pub is_true: bool,
    /// The first finding about the condition.
    pub finding: Option<Finding>,
}

impl Condition {
    /// Returns a condition of which nothing was read. Memory is taken only when a condition begins.
    pub(crate) fn new(alloc: Global) -> Condition {
        Condition {
            alloc,
            rest: Rest::new(alloc),
            unit: Unit::new(alloc),
            tokens: PackedTokens::new(alloc),
            held: Held::Unit,
        }
    }

    /// Takes this condition apart.
    fn into_parts(self) -> (Rest, Unit, PackedTokens) {
        let Condition {
            alloc: _,
            rest,
            unit,
            tokens,
            held: _,
        } = self;
        (rest, unit, tokens)
    }

    /// Begins the condition, before the word of its directive.
    pub(crate) fn begin(&mut self) -> Result<(), AllocError>
        ensures { OnOk result (self.new ≡ condition_begun) }
    {
        self.held = Held::Unit;
        self.tokens.clear();
        self.unit.clear();
        self.rest.clear();
        self.rest.start(PIECE)?;
        self.held = Held::Both;
        Ok(())
    }

    /// Takes the next token of the directive, if it fits, and returns whether it does.
    pub(crate) fn take(
        &mut self,
        steps: &mut Steps,
        token: &SourceToken<'_>,
    ) -> Result<bool, AllocError>
        ensures fits { IfOk result (λ is_taken. is_taken ≡ fits grammar known (atom_of (spelled token.now)) self.old.stack) }
        ensures taken { IfOk result (λ is_taken. is_taken ≡ true → self.new ≡ condition_took (spelled token.now) self.old) }
    {
        let held = mem::replace(&mut self.held, Held::Unit);
        unfold(held, &self.tokens, steps, &mut self.rest, &mut self.unit)?;
        if !gather(steps, &mut self.rest, &mut self.unit, token)? {
            return Ok(false);
        }
        match held {
            Held::Unit => {}
            Held::Both | Held::Tokens => {
                self.tokens.add(token)?;
                self.held = Held::Both;
            }
        }
        Ok(true)
    }

    /// Takes the next token, as `take` does, where the directive is passed over.
    pub(crate) fn take_quietly(
        &mut self,
        steps: &mut Steps,
        token: &SourceToken<'_>,
    ) -> Result<bool, AllocError>
        ensures fits { IfOk result (λ is_taken. is_taken ≡ fits grammar known (atom_of (spelled token.now)) self.old.stack) }
        ensures taken { IfOk result (λ is_taken. is_taken ≡ true → self.new ≡ condition_took (spelled token.now) self.old) }
    {
        match self.held {
            Held::Unit => return self.take(steps, token),
            Held::Both | Held::Tokens => {}
        }
        self.held = Held::Unit;
        if !steps.read(&mut self.rest, token)? {
            return Ok(false);
        }
        self.tokens.add(token)?;
        self.held = Held::Tokens;
        Ok(true)
    }

    /// Takes the tokens of `tokens` from place `first` on, which fit one behind the other.
    pub(crate) fn take_from(
        &mut self,
        steps: &mut Steps,
        tokens: &UnitTokens,
        first: usize,
    ) -> Result<(), AllocError>
        requires { all_fit (drop first tokens.now) self.old ≡ true }
        ensures { OnOk result (self.new ≡ all_taken (drop first tokens.now) self.old) }
    {
        for at in first..tokens.len() {
            let Some(token) = tokens.get(at) else {
                unreachable!();
            };
            if !self.take(steps, &token)? {
                unreachable!();
            }
        }
        Ok(())
    }

    /// Returns the extent of the expression so far, where `longest` tokens are allowed.
    pub(crate) fn extent(&mut self, steps: &mut Steps, longest: usize) -> Result<Extent, AllocError>
        ensures extent { IfOk result (λ extent. extent ≡ extent_of longest self.old.unit) }
        ensures same { OnOk result (self.new ≡ self.old) }
    {
        let held = mem::replace(&mut self.held, Held::Unit);
        unfold(held, &self.tokens, steps, &mut self.rest, &mut self.unit)?;
        self.held = unfolded(held);
        Ok(Extent {
            tokens: self.unit.outer_tokens(),
            long: self.unit.long_at(longest),
            depth: self.unit.depth,
        })
    }

    /// Takes out the unit of the tokens that were taken.
    pub(crate) fn take_unit(&mut self, steps: &mut Steps) -> Result<Unit, AllocError>
        ensures { IfOk result (λ unit. unit_of unit ≡ self.old.unit) }
    {
        let held = mem::replace(&mut self.held, Held::Unit);
        unfold(held, &self.tokens, steps, &mut self.rest, &mut self.unit)?;
        Ok(mem::replace(&mut self.unit, Unit::new(self.alloc)))
    }

    /// Gives this condition the memory of `unit`, before another one begins.
    pub(crate) fn give_unit(&mut self, unit: Unit) {
        self.held = Held::Unit;
        self.unit = unit;
    }

    /// Returns all tokens that were taken, where they are few.
    pub(crate) fn few_tokens(&self) -> Option<&PackedTokens>
        ensures { IfSome result (λ tokens. IsReadBy tokens.now self.now) }
    {
        match self.held {
            Held::Both | Held::Tokens if self.tokens.len() <= FEW => Some(&self.tokens),
            _ => None,
        }
    }

    /// Returns whether the directive is whole.
    pub(crate) fn is_whole(&self) -> bool
        ensures { result ≡ is_whole self.now }
    {
        self.rest.is_done()
    }

    /// Returns the verdict on this condition, where `declared` names were declared by the directives before.
    pub(crate) fn judge<B: Bounds>(
        &mut self,
        steps: &mut Steps,
        declared: usize,
        out: &Output<B>,
    ) -> Result<Verdict, AllocError>
        ensures verdict { IfOk result (λ v. v ≡ verdict_of declared out.now self.old) }
        ensures same { OnOk result (self.new ≡ self.old) }
    {
        let held = mem::replace(&mut self.held, Held::Unit);
        unfold(held, &self.tokens, steps, &mut self.rest, &mut self.unit)?;
        self.held = unfolded(held);
        judge_unit(self.alloc, declared, out, &self.unit)
    }

    /// Returns whether this condition is true, where `declared` names were declared by the directives before.
    pub(crate) fn is_true<B: Bounds>(
        &mut self,
        steps: &mut Steps,
        declared: usize,
        out: &Output<B>,
    ) -> Result<bool, AllocError>
        ensures { let verdict = verdict_of declared out.now self.old in IfOk result (λ is_true. is_true ≡ verdict.is_true) }
    {
        let truth = truth_held(self.alloc, self.held, &self.tokens, steps, declared, out)?;
        match truth {
            Some(is_true) => Ok(is_true),
            None => Ok(self.judge(steps, declared, out)?.is_true),
        }
    }
}

/// Takes the condition that is spare, if there is one, or else memory for a new one.
pub(crate) fn spare_or_new(
    alloc: Global,
    spare: &mut Option<Box<Condition>>,
) -> Result<Box<Condition>, AllocError> {
    if let Some(condition) = spare.take() {
        return Ok(condition);
    }
    let condition = Box::new(alloc, Condition::new(alloc))?;
    Ok(condition)
}

/// Returns whether the condition is true that has `tokens`, where these are up to date, as `held` says, and tell it. By the directives
/// before, `declared` names were declared.
fn truth_held<B: Bounds>(
    alloc: Global,
    held: Held,
    tokens: &PackedTokens,
    steps: &mut Steps,
    declared: usize,
    out: &Output<B>,
) -> Result<Option<bool>, AllocError>
    ensures truth { IfOk result (λ truth. IfSome truth (λ is_true. truth_of declared out.now tokens.now ≡ Some is_true)) }
    ensures tokens { IfOk result (λ truth. IfSome truth (λ is_true. has_tokens held ≡ true)) }
{
    match held {
        Held::Unit => Ok(None),
        Held::Both | Held::Tokens => truth_of(alloc, declared, out, tokens, steps),
    }
}

/// Returns the parts that are up to date once the unit is.
fn unfolded(held: Held) -> Held
    ensures { result ≡ unfolded held }
{
    match held {
        Held::Both | Held::Tokens => Held::Both,
        Held::Unit => Held::Unit,
    }
}

/// Brings the unit of a condition up to date, of which the parts that `held` says are: it is read again by its tokens, if need be.
fn unfold(
    held: Held,
    tokens: &PackedTokens,
    steps: &mut Steps,
    rest: &mut Rest,
    unit: &mut Unit,
) -> Result<(), AllocError>
    requires { IsHeld held rest.old (unit_of unit.old) tokens.now }
    ensures { OnOk result (condition_at rest.new (unit_of unit.new) ≡ condition_by held rest.old (unit_of unit.old) tokens.now) }
{
    match held {
        Held::Both | Held::Unit => Ok(()),
        Held::Tokens => read_all(tokens, steps, rest, unit),
    }
}

/// Reads a condition again by its tokens, which fit one behind the other.
fn read_all(
    tokens: &PackedTokens,
    steps: &mut Steps,
    rest: &mut Rest,
    unit: &mut Unit,
) -> Result<(), AllocError>
    requires { all_fit tokens.now condition_begun ≡ true }
    ensures { OnOk result (condition_at rest.new (unit_of unit.new) ≡ all_taken tokens.now condition_begun) }
{
    unit.clear();
    rest.clear();
    rest.start(PIECE)?;
    let mut left = tokens.left();
    while let Some(token) = left.next() {
        if !gather(steps, rest, unit, &token)? {
            unreachable!();
        }
    }
    Ok(())
}

/// Takes `token` for a condition of which `rest` is to be read behind `unit`, if it fits, and returns whether it does.
fn gather(
    steps: &mut Steps,
    rest: &mut Rest,
    unit: &mut Unit,
    token: &SourceToken<'_>,
) -> Result<bool, AllocError>
    ensures fits { IfOk result (λ is_taken. is_taken ≡ fits grammar known (atom_of (spelled token.now)) rest.old) }
    ensures taken { IfOk result (λ is_taken. is_taken ≡ true → condition_at rest.new (unit_of unit.new)
        ≡ condition_took (spelled token.now) (condition_at rest.old (unit_of unit.old))) }
{
    if !steps.read(rest, token)? {
        return Ok(false);
    }
    act_all(steps.actions(), unit)?;
    unit.take(token)?;
    Ok(true)
}

/// Returns the verdict on a condition with `unit`, where `declared` names were declared by the directives before.
fn judge_unit<B: Bounds>(
    alloc: Global,
    declared: usize,
    out: &Output<B>,
    unit: &Unit,
) -> Result<Verdict, AllocError>
    ensures { (stack : List (Symbol Action)) → IfOk result (λ v. v ≡ verdict_of declared out.now (condition_at stack (unit_of unit.now))) }
{
    let symbols = unit.gathering.symbols();
    let operands = operands_of(alloc, declared, out, &unit.tokens, unit.gathering.leaves())?;
    let (found, forest) = judge_whole(
        alloc,
        Wanted::Constant,
        0,
        symbols,
        operands.as_slice(),
        None,
    )?;
    let number = number_of(&forest);
    Ok(Verdict {
        is_true: is_true(number, found),
        finding: finding_of(number, found),
    })
}

/// Lets `actions` gather in `unit`.
fn act_all(actions: &[Action], unit: &mut Unit) -> Result<(), AllocError>
    ensures { OnOk result (unit_of unit.new ≡ all_acted actions.now (unit_of unit.old)) }
{
    for action in actions {
        unit.act(*action)?;
    }
    Ok(())
}

/// Returns the known number that the first tree of `forest` is, if it is one.
pub(crate) fn number_of(forest: &Forest) -> Option<u16>
    ensures { result ≡ number_of (map tree_in (trees_in forest.now)) }
{
    let root = forest.roots.first()?;
    match constant(&forest.nodes, root.place)? {
        Value::Known(number) => Some(number),
        Value::Later(_) => None,
    }
}

/// Returns the finding about a condition: `found`, or else that its `number` is not known.
fn finding_of(number: Option<u16>, found: Option<Finding>) -> Option<Finding>
    ensures { result ≡ finding_by number found }
{
    match (number, found) {
        (None, None) => Some(Finding::no_constant(0)),
        _ => found,
    }
}

/// Returns whether the condition is true, which it is not with an error.
fn is_true(number: Option<u16>, found: Option<Finding>) -> bool
    ensures { result ≡ is_true_by number found }
{
    match (number, found) {
        (Some(number), None) => number != 0,
        _ => false,
    }
}
