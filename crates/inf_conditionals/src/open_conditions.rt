//! The conditions of the conditional directives that are being read.
ghost use Rattle.std.specs.Prelude.{◌≡◌, ◌∷◌, ◌++◌, [], IfNone, IfOk, IfSome, MatchOption, OnErr, OnOk, drop, reverse, true};
ghost use Rattle.inf_conditionals.specs.{Condition.condition_begun, ReadAgain.all_fit, ReadAgain.all_taken};
ghost use Rattle.inf_conditionals.specs.Waiting.{CanWait, IsAdded, waiting_in};

use crate::condition::{Condition, Steps, spare_or_new};
use crate::packed::PackedTokens;
use inf_unit::unit_tokens::UnitTokens;
use std::alloc::{AllocError, Global};
use std::marker::Model;

/// A condition that waits for one inside of it.
#[derive(Drop)]
pub(crate) enum Waiting {
    /// One of this many tokens, which is read again.
    Short(usize),
    Long(Box<Condition>),
}

/// The conditions that are being read, one inside the other: in contracts a list, the innermost first.
///
/// Any number of them may be open, so one that waits is kept by its tokens, where these are few.
#[derive(Drop)]
pub(crate) struct OpenConditions {
    alloc: Global,
    /// The innermost condition, unless it waits to be read again.
    innermost: Option<Box<Condition>>,
    /// The conditions that wait for one inside of them, inner ones last.
    waiting: Vec<Waiting>,
    /// The tokens of those among them that are short.
    tokens: UnitTokens,
}

impl Model for OpenConditions {
    ghost use Rattle.std.specs.Prelude.{List, box_value, option_map, reverse};
    ghost use Rattle.inf_conditionals.specs.{Condition.Condition, Waiting.CanWait, Waiting.waiting_in, Waiting.with_innermost};

    ghost Value = { List Condition };

    ghost view = { λ o. with_innermost (option_map box_value o.innermost) (waiting_in (reverse o.waiting.items) o.tokens) };

    ghost invariant = { λ o. CanWait (reverse o.waiting.items) o.tokens };
}

impl OpenConditions {
    /// Returns no conditions.
    pub(crate) fn new(alloc: Global) -> OpenConditions
        ensures { result ≡ [] }
    {
        OpenConditions {
            alloc,
            innermost: None,
            waiting: Vec::new(alloc),
            tokens: UnitTokens::new(alloc),
        }
    }

    /// Gives all conditions up.
    pub(crate) fn clear(&mut self)
        ensures { self.new ≡ [] }
    {
        self.innermost = None;
        self.waiting.clear();
        self.tokens.clear();
    }

    /// Adds a condition inside the others. The memory of the one around it becomes spare where it is short.
    pub(crate) fn push(
        &mut self,
        condition: Box<Condition>,
        spare: &mut Option<Box<Condition>>,
    ) -> Result<(), AllocError>
        ensures { OnOk result (self.new ≡ condition.value ∷ self.old) }
    {
        let Some(outer) = self.innermost.take() else {
            self.innermost = Some(condition);
            return Ok(());
        };
        wait(outer, &mut self.waiting, &mut self.tokens, spare)?;
        self.innermost = Some(condition);
        Ok(())
    }

    /// Takes the innermost condition off, if there is one. One that waited is read again, by `spare`.
    pub(crate) fn pop(
        &mut self,
        spare: &mut Option<Box<Condition>>,
        steps: &mut Steps,
    ) -> Result<Option<Box<Condition>>, AllocError>
        ensures { IfOk result (λ innermost. MatchOption innermost (self.old ≡ []) (λ k. self.old ≡ k.value ∷ self.new)) }
    {
        if let Some(condition) = self.innermost.take() {
            return Ok(Some(condition));
        }
        match self.waiting.pop() {
            None => Ok(None),
            Some(Waiting::Long(condition)) => Ok(Some(condition)),
            Some(Waiting::Short(count)) => {
                let first = self.tokens.len() - count;
                let read = again(self.alloc, &self.tokens, first, spare, steps);
                self.tokens.truncate(first);
                Ok(Some(read?))
            }
        }
    }
}

/// Lets a condition wait inside the others, where `tokens` are those of the short ones.
fn wait(
    condition: Box<Condition>,
    waiting: &mut Vec<Waiting>,
    tokens: &mut UnitTokens,
    spare: &mut Option<Box<Condition>>,
) -> Result<(), AllocError>
    ensures waits { OnOk result (waiting_in (reverse waiting.new.items) tokens.new
        ≡ condition.value ∷ waiting_in (reverse waiting.old.items) tokens.old) }
    ensures can { CanWait (reverse waiting.old.items) tokens.old → CanWait (reverse waiting.new.items) tokens.new }
{
    waiting.reserve(1)?;
    match add_few(&condition, tokens)? {
        Some(count) => {
            waiting.push_reserved(Waiting::Short(count));
            *spare = Some(condition);
            Ok(())
        }
        None => {
            waiting.push_reserved(Waiting::Long(condition));
            Ok(())
        }
    }
}

/// Adds the tokens of a condition behind `tokens`, and returns their number, where they are few. Else nothing is added.
fn add_few(condition: &Condition, tokens: &mut UnitTokens) -> Result<Option<usize>, AllocError>
    ensures added { IfOk result (λ count. IfSome count (λ n. IsAdded n condition.now tokens.old tokens.new)) }
    ensures none { IfOk result (λ count. IfNone count (tokens.new ≡ tokens.old)) }
    ensures err { OnErr result (tokens.new ≡ tokens.old) }
{
    let Some(few) = condition.few_tokens() else {
        return Ok(None);
    };
    add_all(tokens, few)?;
    Ok(Some(few.len()))
}

/// Adds the tokens `others` behind `tokens`, which stay as they were where memory runs out.
fn add_all(tokens: &mut UnitTokens, others: &PackedTokens) -> Result<(), AllocError>
    ensures ok { OnOk result (tokens.new ≡ tokens.old ++ others.now) }
    ensures err { OnErr result (tokens.new ≡ tokens.old) }
{
    let before = tokens.len();
    let mut left = others.left();
    while let Some(token) = left.next() {
        if tokens.add(&token).is_err() {
            tokens.truncate(before);
            return Err(AllocError);
        }
    }
    Ok(())
}

/// Reads the condition again whose tokens are those of `tokens` from place `first` on.
fn again(
    alloc: Global,
    tokens: &UnitTokens,
    first: usize,
    spare: &mut Option<Box<Condition>>,
    steps: &mut Steps,
) -> Result<Box<Condition>, AllocError>
    requires { all_fit (drop first tokens.now) condition_begun ≡ true }
    ensures { IfOk result (λ k. k.value ≡ all_taken (drop first tokens.now) condition_begun) }
{
    let mut condition = spare_or_new(alloc, spare)?;
    condition.begin()?;
    condition.take_from(steps, tokens, first)?;
    Ok(condition)
}
