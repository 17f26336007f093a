//! Whether a condition is true, token by token, with memory only for its open operators and lists.
ghost use Rattle.std.specs.Prelude.{◌≡◌, ◌≤◌, false, IfOk, IfSome, None, OnOk, Some, drop, length, option_copied, option_map, reverse};
ghost use Rattle.std.specs.Prelude.{slice_index_or};
ghost use Rattle.inf_conditionals.specs.Truths.{acted, all_acted, called_behind, is_never, is_plain, no_truth, noted, number_in, odd};
ghost use Rattle.inf_conditionals.specs.Truths.{stepped, stepped_behind};
ghost use Rattle.inf_conditionals.specs.Truths.{single_taken, test_of, test_taken, token_operand, truth_by, truth_in, truth_of, two_taken};
ghost use Rattle.inf_conditionals.specs.Truths.{with_leaf, with_value, without_list};
ghost use Rattle.inf_conditionals.specs.Values.{is_then, single_value, tested, two_value};
ghost use Rattle.inf_gathering.specs.Gatherings.{counted, latest, one_more};
ghost use Rattle.inf_unit.specs.{NameTokens.named, Spelled.spelled, Tokens.name_of};

use crate::condition::Steps;
use crate::operands::{LATER, bytes_of, name_operand};
use crate::packed::PackedTokens;
use crate::values::{is_then, single_value, tested, two_value};
use inf_expressions::{Binary, Forest, Operand, Test, Unary};
use inf_grammar::{Action, PIECE, Rest};
use inf_names::hashing::NameHashing;
use inf_names::symbols::Symbols;
use inf_operands::operands::{looked_action, system_operand};
use inf_output::Output;
use inf_scanner::{Place, TokenKind};
use inf_settings::bounds::{Bounds, Unbounded};
use inf_unit::roles::{Note, Role, role_of};
use inf_unit::steps::GatherStep;
use inf_unit::tokens::SourceToken;
use inf_unit::unit_tokens::NameToken;
use std::alloc::{AllocError, Global};
use std::marker::Model;

/// The truth of a condition so far: of its expressions only the values, of which one that is known later is `None`.
#[derive(Drop)]
pub(crate) struct Truth {
    alloc: Global,
    /// The numbers of parts of the open lists.
    counts: Vec<u32>,
    values: Vec<Option<u16>>,
    /// The new actions.
    ahead: Symbols<Place, Unbounded>,
    /// Tells whether the condition cannot be true any more.
    is_false: bool,
    /// Tells whether something in the condition is odd, so that its truth is not known.
    is_odd: bool,
    /// The memory of trees.
    spare: Option<Forest>,
}

impl Model for Truth {
    ghost use Rattle.std.specs.Prelude.{reverse};
    ghost use Rattle.inf_conditionals.specs.Truths.{Truth as Spoken};

    ghost Value = { Spoken };

    ghost view = { λ t. record {
      counts = reverse t.counts.items;
      values = reverse t.values.items;
      ahead = t.ahead;
      is_false = t.is_false;
      is_odd = t.is_odd;
    } };
}

/// Returns the name that `token` is, if it is one.
fn name_of<'t>(token: &SourceToken<'t>) -> Option<NameToken<'t>>
    ensures value { option_map named result ≡ name_of (spelled token.now) }
    ensures few { IfSome result (λ name. length name.bytes.now ≤ 32) }
{
    match token.kind {
        TokenKind::Name => Some(NameToken {
            bytes: token.bytes,
            place: token.place,
        }),
        _ => None,
    }
}

/// Returns the operand of `token`, a leaf of a condition, where `declared` names were declared by the directives before.
fn token_operand<B: Bounds>(declared: usize, out: &Output<B>, token: &SourceToken<'_>) -> Operand
    ensures { result ≡ token_operand declared out.now (spelled token.now) }
{
    match token.kind {
        TokenKind::Number(number) => Operand::Known(number),
        TokenKind::Char(zscii) => Operand::Known(u16::from(zscii.code())),
        TokenKind::Word(_) | TokenKind::Text => LATER,
        _ => name_operand(declared, &out.names, bytes_of(name_of(token))),
    }
}

/// Returns whether no condition is true that has a leaf with `operand`.
fn is_never(operand: Operand) -> bool
    ensures { result ≡ is_never operand }
{
    match operand {
        Operand::Known(_) | Operand::Later(_) => false,
        Operand::Variable(_) | Operand::Function(_) | Operand::Unknown => true,
    }
}

/// Returns the number that `operand` is, if it is one.
fn number_in(operand: Operand) -> Option<u16>
    ensures { result ≡ number_in operand }
{
    match operand {
        Operand::Known(number) => Some(number),
        _ => None,
    }
}

/// Returns whether `note` changes nothing that is gathered.
fn is_plain(note: Note) -> bool
    ensures { result ≡ is_plain note }
{
    matches!(
        note,
        Note::Outer(_) | Note::OuterWord | Note::OuterSure | Note::OuterEnd
    )
}

/// Returns the last of some numbers, or 0.
fn latest(numbers: &Vec<u32>) -> u32
    ensures { result ≡ latest (reverse numbers.now.items) }
{
    match numbers.last() {
        Some(number) => *number,
        None => 0,
    }
}

/// Returns one more than `count`, as far as numbers go.
fn counted(count: u32) -> u32
    ensures { result ≡ counted count }
{
    if count == u32::MAX { count } else { count + 1 }
}

/// Adds one part to the last of `counts`, if there is one.
fn count_part(counts: &mut Vec<u32>)
    ensures { reverse counts.new.items ≡ one_more (reverse counts.old.items) }
{
    if let Some(count) = counts.last_mut() {
        *count = counted(*count);
    }
}

/// Returns the value at a place of `values`.
fn value_at(values: &[Option<u16>], at: usize) -> Option<u16>
    ensures { result ≡ slice_index_or values.now at None }
{
    match values.get(at) {
        Some(value) => *value,
        None => None,
    }
}

/// Returns the values behind the first `count` of `values`.
fn behind(values: &[Option<u16>], count: usize) -> &[Option<u16>]
    requires { count ≤ length values.now }
    ensures { result.now ≡ drop count values.now }
{
    &values[count..]
}

/// Returns the truth of a condition with these `values`, where there is one.
fn truth_by(values: &[Option<u16>]) -> Option<bool>
    ensures { result ≡ truth_by (reverse values.now) }
{
    match values {
        [Some(number)] => Some(*number != 0),
        [None] => Some(false),
        _ => None,
    }
}

impl Truth {
    /// Returns the truth of a condition of which nothing was read.
    fn new(alloc: Global, hashing: NameHashing) -> Truth
        ensures { result ≡ no_truth }
    {
        Truth {
            alloc,
            counts: Vec::new(alloc),
            values: Vec::new(alloc),
            ahead: Symbols::<Place, Unbounded>::new(alloc, u32::MAX, false, hashing),
            is_false: false,
            is_odd: false,
            spare: None,
        }
    }

    /// Notes that something is odd, and forgets all else.
    fn make_odd(&mut self)
        ensures { self.new ≡ odd self.old }
    {
        self.counts.clear();
        self.values.clear();
        self.is_odd = true;
    }

    /// Adds the value of an operator. Where it is not known, the condition cannot be true any more.
    fn add(&mut self, value: Option<u16>) -> Result<(), AllocError>
        ensures { OnOk result (self.new ≡ with_value value self.old.values self.old) }
    {
        self.values.push(value)?;
        self.is_false = self.is_false | value.is_none();
        Ok(())
    }

    /// Adds a leaf with `operand`.
    fn leaf(&mut self, operand: Operand) -> Result<(), AllocError>
        ensures { OnOk result (self.new ≡ with_leaf operand self.old) }
    {
        self.values.push(number_in(operand))?;
        self.is_false = self.is_false | is_never(operand);
        Ok(())
    }

    /// Takes an operator of the latest value.
    fn single(&mut self, op: Unary) -> Result<(), AllocError>
        ensures { OnOk result (self.new ≡ single_taken op self.old.values self.old) }
    {
        let Some(a) = self.values.pop() else {
            self.make_odd();
            return Ok(());
        };
        let value = single_value(self.alloc, op, a, &mut self.spare)?;
        self.add(value)
    }

    /// Takes an operator of the latest two values.
    fn two(&mut self, op: Binary) -> Result<(), AllocError>
        ensures { OnOk result (self.new ≡ two_taken op self.old.values self.old) }
    {
        let (Some(b), Some(a)) = (self.values.pop(), self.values.pop()) else {
            self.make_odd();
            return Ok(());
        };
        if is_then(op) {
            self.make_odd();
            return Ok(());
        }
        let value = two_value(self.alloc, op, a, b, &mut self.spare)?;
        self.add(value)
    }

    /// Takes a test of the latest value before `parts` others against these, which has to hold or to fail, as `sense` says.
    fn test_of(&mut self, sense: bool, test: Test, parts: usize) -> Result<(), AllocError>
        ensures { OnOk result (self.new ≡ test_of sense test parts self.old) }
    {
        let count = self.values.len();
        if parts == 0 || count <= parts {
            self.make_odd();
            return Ok(());
        }
        let before = count - parts - 1;
        let a = value_at(self.values.as_slice(), before);
        let value = tested(
            self.alloc,
            sense,
            test,
            a,
            behind(self.values.as_slice(), before + 1),
            &mut self.spare,
        )?;
        self.values.truncate(before);
        self.add(value)
    }

    /// Takes a test against the parts of the open list.
    fn test(&mut self, op: Binary) -> Result<(), AllocError>
        ensures { OnOk result (self.new ≡ without_list (test_taken op (latest self.old.counts) self.old)) }
    {
        let parts = latest(&self.counts) as usize;
        self.test_by(op, parts)?;
        self.drop_list();
        Ok(())
    }

    /// Takes `op`, if it is a test, of the latest value before `parts` others against these.
    fn test_by(&mut self, op: Binary, parts: usize) -> Result<(), AllocError>
        ensures { OnOk result (self.new ≡ test_taken op parts self.old) }
    {
        match op {
            Binary::Test(test) => self.test_of(true, test, parts),
            Binary::Fails(test) => self.test_of(false, test, parts),
            _ => {
                self.make_odd();
                Ok(())
            }
        }
    }

    /// Closes the open list.
    fn drop_list(&mut self)
        ensures { self.new ≡ without_list self.old }
    {
        self.counts.pop();
    }

    /// Takes a call with the parts of the open list.
    fn call(&mut self) -> Result<(), AllocError>
        ensures { OnOk result (self.new ≡ without_list (called_behind (drop (latest self.old.counts) self.old.values) self.old)) }
    {
        let given = latest(&self.counts) as usize;
        self.call_of(given)?;
        self.drop_list();
        Ok(())
    }

    /// Takes a call of the latest value before `given` others.
    fn call_of(&mut self, given: usize) -> Result<(), AllocError>
        ensures { OnOk result (self.new ≡ called_behind (drop given self.old.values) self.old) }
    {
        let count = self.values.len();
        if count <= given {
            self.make_odd();
            return Ok(());
        }
        self.values.truncate(count - given - 1);
        self.add(None)
    }

    /// Counts the latest value as a part of the open list.
    fn part(&mut self)
        ensures { self.new ≡ record self.old { counts = one_more self.old.counts } }
    {
        count_part(&mut self.counts);
    }

    /// Takes a step by which a unit gathers, behind `token`.
    fn step_behind<B: Bounds>(
        &mut self,
        declared: usize,
        out: &Output<B>,
        token: &SourceToken<'_>,
        step: GatherStep,
    ) -> Result<(), AllocError>
        ensures { OnOk result (self.new ≡ stepped_behind declared out.now (spelled token.now) step self.old) }
    {
        match step {
            GatherStep::Leaf => self.leaf(token_operand(declared, out, token)),
            GatherStep::Action => {
                let operand = looked_action(name_of(token), out, &mut self.ahead)?;
                self.leaf(operand)
            }
            GatherStep::System => {
                self.leaf(system_operand(bytes_of(name_of(token)), out.code.scale()))
            }
            GatherStep::Prefix(op) | GatherStep::Suffix(op) => self.single(op),
            GatherStep::Two(op) => self.two(op),
            GatherStep::Comma => self.two(Binary::Comma),
            GatherStep::List => {
                self.counts.push(0)?;
                Ok(())
            }
            GatherStep::Part => {
                self.part();
                Ok(())
            }
            GatherStep::Call => self.call(),
            GatherStep::Test(op) => self.test(op),
            GatherStep::Bracket | GatherStep::Bracketed => Ok(()),
        }
    }

    /// Takes a step by which a unit gathers, behind the `last` token, if there is one.
    fn step<B: Bounds>(
        &mut self,
        declared: usize,
        out: &Output<B>,
        last: Option<&SourceToken<'_>>,
        step: GatherStep,
    ) -> Result<(), AllocError>
        ensures { OnOk result (self.new ≡ stepped declared out.now (option_map spelled (option_copied last.entry)) step self.old) }
    {
        match last {
            Some(token) => self.step_behind(declared, out, token, step),
            None => {
                self.make_odd();
                Ok(())
            }
        }
    }

    /// Takes `note`.
    fn note(&mut self, note: Note)
        ensures { self.new ≡ noted note self.old }
    {
        if !is_plain(note) {
            self.make_odd();
        }
    }

    /// Takes `action`, behind the `last` token. Behind one that is odd nothing is done.
    fn act<B: Bounds>(
        &mut self,
        declared: usize,
        out: &Output<B>,
        last: Option<&SourceToken<'_>>,
        action: Action,
    ) -> Result<(), AllocError>
        ensures { OnOk result (self.new ≡ acted declared out.now (option_map spelled (option_copied last.entry)) action self.old) }
    {
        if self.is_odd {
            return Ok(());
        }
        match role_of(action) {
            Role::Gather(step) => self.step(declared, out, last, step),
            Role::Note(note) => {
                self.note(note);
                Ok(())
            }
            _ => Ok(()),
        }
    }

    /// Takes `actions`, behind the `last` token.
    fn act_all<B: Bounds>(
        &mut self,
        declared: usize,
        out: &Output<B>,
        last: Option<&SourceToken<'_>>,
        actions: &[Action],
    ) -> Result<(), AllocError>
        ensures { OnOk result (self.new ≡ all_acted declared out.now (option_map spelled (option_copied last.entry)) actions.now self.old) }
    {
        for action in actions {
            self.act(declared, out, last, *action)?;
        }
        Ok(())
    }

    /// Returns the truth at the end, where it is known.
    fn found(&self) -> Option<bool>
        ensures { result ≡ truth_in self.now }
    {
        if self.is_odd {
            return None;
        }
        if self.is_false {
            return Some(false);
        }
        truth_by(self.values.as_slice())
    }
}

/// Returns whether the condition that has `tokens` is true, where this is known by its values alone. By the directives before, `declared`
/// names were declared.
pub(crate) fn truth_of<B: Bounds>(
    alloc: Global,
    declared: usize,
    out: &Output<B>,
    tokens: &PackedTokens,
    steps: &mut Steps,
) -> Result<Option<bool>, AllocError>
    ensures { IfOk result (λ truth. IfSome truth (λ is_true. truth_of declared out.now tokens.now ≡ Some is_true)) }
{
    let mut rest = Rest::new(alloc);
    rest.start(PIECE)?;
    let mut truth = Truth::new(alloc, out.names.hashing());
    let mut last = None;
    let mut left = tokens.left();
    while let Some(token) = left.next() {
        if !steps.read(&mut rest, &token)? {
            return Ok(None);
        }
        truth.act_all(declared, out, last.as_ref(), steps.actions())?;
        last = Some(token);
    }
    Ok(truth.found())
}
