//! The openings that were met so far.
ghost use Rattle.std.specs.Prelude.{◌≡◌, ◌<◌, [], ℕ, List, IfOk, Some, length, slice_get, true, false};
ghost use Rattle.inf_machine.specs.{Grammar.has, Steps.Means};

use crate::opening::Opening;
use crate::steps::{Step, Steps};
use crate::table::Table;
use std::alloc::{AllocError, Global};
use std::marker::Model;

/// The steps of rules with atoms that were met so far. Contracts see the rule and the atom of each opening that was made.
#[derive(Drop)]
pub struct Openings<T: Table> {
    alloc: Global,
    steps: Steps,
    made: Vec<Opening<T>>,
}

impl<T: Table> Model for Openings<T> {
    ghost use Rattle.std.specs.Prelude.{List, ℕ};
    ghost use Rattle.inf_machine.specs.Steps.{AllMean};

    ghost Value = { List (ℕ × ℕ) };

    ghost view = { λ o. o.made.items };

    ghost invariant = { λ o. AllMean T.grammar T.known o.made.items o.steps };
}

impl<T: Table> Openings<T> {
    /// Returns the list of no openings, which takes no memory until one is met.
    pub fn new(alloc: Global) -> Openings<T>
        ensures { result ≡ [] }
    {
        Openings {
            alloc,
            steps: Steps::new(alloc),
            made: Vec::new(alloc),
        }
    }

    /// Returns the step of `rule` with `atom`, which is kept from then on.
    #[inline(always)]
    pub(crate) fn find(&mut self, rule: u8, atom: u8) -> Result<Step, AllocError>
        ensures { IfOk result (λ step. Means T.grammar T.known self.new rule atom step) }
    {
        let step = self.steps.at(rule, atom);
        if step.is_kept() {
            Ok(step)
        } else {
            self.learn(rule, atom)
        }
    }

    /// Returns the opening at a place.
    #[inline(always)]
    pub(crate) fn opening(&self, place: u16) -> &Opening<T>
        requires { place < length self.now }
        ensures { slice_get self.now place ≡ Some result.now }
    {
        &self.made[place as usize]
    }

    /// Finds the step of `rule` with `atom`, and keeps it.
    #[cold]
    #[inline(never)]
    fn learn(&mut self, rule: u8, atom: u8) -> Result<Step, AllocError>
        ensures { IfOk result (λ step. Means T.grammar T.known self.new rule atom step) }
    {
        let step = self.found(rule, atom)?;
        self.steps.put(rule, atom, step)?;
        Ok(step)
    }

    /// Returns the step of `rule` with `atom`. Where the atom begins the rule, its opening is made.
    fn found(&mut self, rule: u8, atom: u8) -> Result<Step, AllocError>
        ensures { IfOk result (λ step. Means T.grammar T.known self.new rule atom step) }
    {
        if T::begins(rule, atom) {
            self.open(rule, atom)
        } else {
            Ok(step_past::<T>(rule))
        }
    }

    /// Makes the opening of `rule` by `atom`, which begins it, and returns its step.
    fn open(&mut self, rule: u8, atom: u8) -> Result<Step, AllocError>
        requires { has (T.known.begins rule) atom ≡ true }
        ensures { IfOk result (λ step. Means T.grammar T.known self.new rule atom step) }
    {
        let place = self.made.len();
        // There are 65,536 pairs of a rule and an atom, each of which is opened once, so its place fits.
        if place > u16::MAX as usize {
            return Err(AllocError);
        }
        self.made.push(Opening::of(self.alloc, rule, atom)?)?;
        Ok(Step::Opened(place as u16))
    }
}

/// Returns the step of a rule with an atom that does not begin it.
fn step_past<T: Table>(rule: u8) -> Step
    ensures { (made : List (ℕ × ℕ)) (atom : ℕ) → has (T.known.begins rule) atom ≡ false → Means T.grammar T.known made rule atom result }
{
    if !T::can_be_empty(rule) {
        Step::Refused
    } else if T::passed(rule).is_empty() {
        Step::Silent
    } else {
        Step::Passed
    }
}
