//! The steps of rules with atoms, as far as they were met.
ghost use Rattle.std.specs.Prelude.{◌≡◌, ◌<◌, [], ℕ, ◌⊎◌, OnOk, vec_len};
ghost use Rattle.inf_machine.specs.Steps.{is_kept, step_at, step_of};

use std::alloc::{AllocError, Global};
use std::marker::Model;

/// The step of a rule with an atom.
#[derive(Clone, Copy)]
pub(crate) enum Step {
    /// The atom does not fit. In what is kept: this was not met yet.
    Refused,
    /// The atom does not begin the rule, which is passed over without an action.
    Silent,
    /// The atom does not begin the rule, which is passed over.
    Passed,
    /// The atom begins the rule: the place of the opening.
    Opened(u16),
}

impl Step {
    #[inline(always)]
    pub(crate) fn is_kept(self) -> bool
        ensures { result ≡ is_kept self }
    {
        match self {
            Step::Refused => false,
            Step::Silent | Step::Passed | Step::Opened(_) => true,
        }
    }
}

/// The steps of a rule by the atoms, in order. Those behind the end were not met.
#[derive(Drop)]
struct Row {
    steps: Vec<Step>,
}

impl Model for Row {
    ghost use Rattle.std.specs.Prelude.{List};
    ghost use Rattle.inf_machine.specs.declared.steps.Step.{Step};

    ghost Value = { List Step };

    ghost view = { λ r. r.steps.items };
}

impl Row {
    /// Returns a row of which no step was met.
    fn new(alloc: Global) -> Row
        ensures { result ≡ [] }
    {
        Row {
            steps: Vec::new(alloc),
        }
    }

    /// Returns the step at `atom`.
    #[inline(always)]
    fn at(&self, atom: u8) -> Step
        ensures { result ≡ step_at self.now atom }
    {
        match self.steps.get(atom as usize) {
            Some(step) => *step,
            None => Step::Refused,
        }
    }

    /// Puts `step` at `atom`. Where memory runs out all steps stay as they were.
    fn put(&mut self, atom: u8, step: Step) -> Result<(), AllocError>
        ensures { (a : ℕ) → (step_at self.new a ≡ step_at self.old a) ⊎ ((a ≡ atom) × (step_at self.new a ≡ step)) }
    {
        let place = atom as usize;
        if place >= self.steps.len() {
            self.steps.resize(place + 1, Step::Refused)?;
        }
        self.steps[place] = step;
        Ok(())
    }
}

/// The steps that were met, by the rules and then by the atoms.
#[derive(Drop)]
pub(crate) struct Steps {
    alloc: Global,
    rows: Vec<Row>,
}

impl Model for Steps {
    ghost use Rattle.std.specs.Prelude.{List};
    ghost use Rattle.inf_machine.specs.declared.steps.Step.{Step};

    ghost Value = { List (List Step) };

    ghost view = { λ s. s.rows.items };
}

impl Steps {
    /// Returns no steps, which take no memory until one is put.
    pub(crate) fn new(alloc: Global) -> Steps
        ensures { result ≡ [] }
    {
        Steps {
            alloc,
            rows: Vec::new(alloc),
        }
    }

    /// Returns the step of `rule` with `atom`.
    #[inline(always)]
    pub(crate) fn at(&self, rule: u8, atom: u8) -> Step
        ensures { result ≡ step_of self.now rule atom }
    {
        match self.rows.get(rule as usize) {
            Some(row) => row.at(atom),
            None => Step::Refused,
        }
    }

    /// Notes the `step` of `rule` with `atom`. Where memory runs out all steps stay as they were.
    pub(crate) fn put(&mut self, rule: u8, atom: u8, step: Step) -> Result<(), AllocError>
        ensures { (r a : ℕ) → (step_of self.new r a ≡ step_of self.old r a) ⊎ ((r ≡ rule) × (a ≡ atom) × (step_of self.new r a ≡ step)) }
    {
        add_rows(&mut self.rows, self.alloc, rule)?;
        self.rows[rule as usize].put(atom, step)
    }
}

/// Adds rows, of which no step was met, up to that of `rule`.
fn add_rows(rows: &mut Vec<Row>, alloc: Global, rule: u8) -> Result<(), AllocError>
    ensures there { OnOk result (rule < vec_len rows.new) }
    ensures same { (r a : ℕ) → step_of rows.new.items r a ≡ step_of rows.old.items r a }
{
    while rows.len() <= rule as usize {
        rows.push(Row::new(alloc))?;
    }
    Ok(())
}
