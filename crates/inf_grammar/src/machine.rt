//! The machine that reads tokens by the grammar of the language.
ghost use Rattle.std.specs.Prelude.{◌≡◌, [], ◌∷◌, ◌++◌, ◌↔◌, reverse, IsTrue, IfOk, OnOk, OnErr, true, false};
ghost use Rattle.inf_grammar.specs.{Language.grammar, Language.known, Routines.closings, Routines.is_in_routine};
ghost use Rattle.inf_machine.specs.Machine.{fits, can_end, taken};

use crate::grammar_table::Language;
use inf_machine::Symbol;
use inf_syntax::Action;
use std::alloc::{AllocError, Global};
use std::marker::Model;

/// The symbols that are still to be read: in contracts a list, the one at hand first.
#[derive(Drop)]
pub struct Machine {
    machine: inf_machine::Machine<Language>,
}

impl Model for Machine {
    ghost use Rattle.std.specs.Prelude.{List};
    ghost use Rattle.inf_machine.specs.declared.symbols.Symbol.{Symbol};
    ghost use Rattle.inf_syntax.specs.declared.actions.Action.{Action};

    ghost Value = { List (Symbol Action) };

    ghost view = { λ m. m.machine };
}

impl Machine {
    /// Returns a machine that has nothing to read. It takes no memory until `start`.
    pub fn new(alloc: Global) -> Machine
        ensures { result ≡ [] }
    {
        Machine {
            machine: inf_machine::Machine::new(alloc),
        }
    }

    /// Lets a text of `rule` be read next. Where memory runs out, returns an error, and the rest to be read is as it was.
    pub fn start(&mut self, rule: u8) -> Result<(), AllocError>
        ensures ok { OnOk result (self.new ≡ Symbol.Rule rule ∷ self.old) }
        ensures err { OnErr result (self.new ≡ self.old) }
    {
        self.machine.start(rule)
    }

    /// Returns whether nothing is left to be read.
    pub fn is_done(&self) -> bool
        ensures { IsTrue result ↔ (self.now ≡ []) }
    {
        self.machine.is_done()
    }

    /// Returns whether the rest to be read can be empty: whether the source may end here.
    pub fn can_end(&self) -> bool
        ensures { result ≡ can_end known self.now }
    {
        self.machine.can_end()
    }

    /// Returns whether the end of a routine is still to be read.
    pub fn is_in_routine(&self) -> bool
        ensures { result ≡ is_in_routine self.now }
    {
        is_in_routine(self.machine.symbols())
    }

    /// Returns the number of compound statements that are over, whatever the next token is.
    pub fn closings(&self) -> usize
        ensures { result ≡ closings self.now }
    {
        closings(self.machine.symbols())
    }

    /// Gives up all that is left to be read.
    pub fn clear(&mut self)
        ensures { self.new ≡ [] }
    {
        self.machine.clear();
    }

    /// Returns whether `atom` fits: whether it begins the rest to be read.
    pub fn fits(&self, atom: u8) -> bool
        ensures { result ≡ fits grammar known atom self.now }
    {
        self.machine.fits(atom)
    }

    /// Takes a token that fits. Appends the actions on the way to it to `actions`, in order; the token is taken behind them.
    ///
    /// Where memory runs out, returns an error, and the rest to be read and the actions are as they were.
    pub fn take(&mut self, atom: u8, actions: &mut Vec<Action>) -> Result<(), AllocError>
        requires { fits grammar known atom self.old ≡ true }
        ensures left { OnOk result (self.new ≡ (taken grammar known atom self.old).left) }
        ensures actions { OnOk result (actions.new.items ≡ actions.old.items ++ (taken grammar known atom self.old).actions) }
        ensures same { OnErr result (self.new ≡ self.old) }
        ensures same_actions { OnErr result (actions.new.items ≡ actions.old.items) }
    {
        self.machine.take(atom, actions)
    }

    /// Returns whether `atom` fits, and takes it as `take` does where it does.
    ///
    /// Where it does not fit and where memory runs out, the rest to be read and the actions are as they were.
    pub fn read(&mut self, atom: u8, actions: &mut Vec<Action>) -> Result<bool, AllocError>
        ensures fits { IfOk result (λ fits_now. fits_now ≡ fits grammar known atom self.old) }
        ensures left { IfOk result (λ fits_now. fits_now ≡ true → self.new ≡ (taken grammar known atom self.old).left) }
        ensures actions { IfOk result (λ fits_now. fits_now ≡ true → actions.new.items ≡ actions.old.items ++
            (taken grammar known atom self.old).actions) }
        ensures same { IfOk result (λ fits_now. fits_now ≡ false → self.new ≡ self.old) }
        ensures same_actions { IfOk result (λ fits_now. fits_now ≡ false → actions.new.items ≡ actions.old.items) }
        ensures err { OnErr result (self.new ≡ self.old) }
        ensures err_actions { OnErr result (actions.new.items ≡ actions.old.items) }
    {
        self.machine.read(atom, actions)
    }
}

/// Returns whether the end of a routine is on a stack, the top last.
fn is_in_routine(stack: &[Symbol<Action>]) -> bool
    ensures { result ≡ is_in_routine (reverse stack.now) }
{
    for symbol in stack.iter().rev() {
        match *symbol {
            Symbol::Act(Action::EndRoutine) => return true,
            _ => {}
        }
    }
    false
}

fn closings(stack: &[Symbol<Action>]) -> usize
    ensures { result ≡ closings (reverse stack.now) }
{
    let mut count = 0;
    for symbol in stack.iter().rev() {
        match *symbol {
            Symbol::Act(Action::Close) => count += 1,
            _ => return count,
        }
    }
    count
}
