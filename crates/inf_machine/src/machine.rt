//! The machine that reads tokens by a grammar.
ghost use Rattle.std.specs.Prelude.{◌≡◌, [], ◌∷◌, ◌++◌, ◌↔◌, IsTrue, IfOk, OnOk, OnErr, true, false, reverse};
ghost use Rattle.inf_machine.specs.Machine.{fits, can_end, taken};

use crate::openings::Openings;
use crate::reading;
use crate::rest::Rest;
use crate::symbols::Symbol;
use crate::table::Table;
use std::alloc::{AllocError, Global};
use std::marker::Model;

/// A machine with the symbols that are still to be read: in contracts a list, the symbol at hand first.
#[derive(Drop)]
pub struct Machine<T: Table> {
    rest: Rest<T>,
    openings: Openings<T>,
}

impl<T: Table> Model for Machine<T> {
    ghost use Rattle.std.specs.Prelude.{List};
    ghost use Rattle.inf_machine.specs.declared.symbols.Symbol.{Symbol};

    ghost Value = { List (Symbol T.Action) };

    ghost view = { λ m. m.rest };
}

impl<T: Table> Machine<T> {
    /// Returns a machine for which nothing is to be read. It takes no memory until `start`.
    pub fn new(alloc: Global) -> Machine<T>
        ensures { result ≡ [] }
    {
        Machine {
            rest: Rest::new(alloc),
            openings: Openings::new(alloc),
        }
    }

    /// Notes that a text of this rule is to be read next. Where memory runs out nothing changes.
    pub fn start(&mut self, rule: u8) -> Result<(), AllocError>
        ensures ok { OnOk result (self.new ≡ Symbol.Rule rule ∷ self.old) }
        ensures err { OnErr result (self.new ≡ self.old) }
    {
        self.rest.start(rule)
    }

    /// Returns whether nothing is to be read.
    pub fn is_done(&self) -> bool
        ensures { IsTrue result ↔ (self.now ≡ []) }
    {
        self.rest.is_done()
    }

    /// Returns whether the symbols that are to be read can be empty: whether the source may end here.
    pub fn can_end(&self) -> bool
        ensures { result ≡ can_end T.known self.now }
    {
        reading::can_end::<T>(self.symbols())
    }

    /// Returns the symbols that are to be read, the one at hand last.
    pub fn symbols(&self) -> &[Symbol<T::Action>]
        ensures { reverse result.now ≡ self.now }
    {
        self.rest.symbols()
    }

    /// Gives up the symbols that are to be read.
    pub fn clear(&mut self)
        ensures { self.new ≡ [] }
    {
        self.rest.clear();
    }

    /// Returns whether a token fits: whether it begins the symbols that are to be read.
    pub fn fits(&self, atom: u8) -> bool
        ensures { result ≡ fits T.grammar T.known atom self.now }
    {
        reading::fits::<T>(self.symbols(), atom)
    }

    /// Takes a token that fits. The actions on the way to it are appended to `actions`, in order; the token is taken behind them.
    ///
    /// Where memory runs out the symbols that are to be read and the actions stay as they were.
    pub fn take(&mut self, atom: u8, actions: &mut Vec<T::Action>) -> Result<(), AllocError>
        requires { fits T.grammar T.known atom self.old ≡ true }
        ensures left { OnOk result (self.new ≡ (taken T.grammar T.known atom self.old).left) }
        ensures actions { OnOk result (actions.new.items ≡ actions.old.items ++ (taken T.grammar T.known atom self.old).actions) }
        ensures same { OnErr result (self.new ≡ self.old) }
        ensures same_actions { OnErr result (actions.new.items ≡ actions.old.items) }
    {
        self.read(atom, actions)?;
        Ok(())
    }

    /// Takes a token if it fits, as `take` does, and returns whether it fits.
    ///
    /// Where it does not fit, and where memory runs out, the symbols that are to be read and the actions stay as they were.
    pub fn read(&mut self, atom: u8, actions: &mut Vec<T::Action>) -> Result<bool, AllocError>
        ensures fits { IfOk result (λ fits_now. fits_now ≡ fits T.grammar T.known atom self.old) }
        ensures left { IfOk result (λ fits_now. fits_now ≡ true → self.new ≡ (taken T.grammar T.known atom self.old).left) }
        ensures actions { IfOk result (λ fits_now. fits_now ≡ true → actions.new.items ≡ actions.old.items ++
            (taken T.grammar T.known atom self.old).actions) }
        ensures same { IfOk result (λ fits_now. fits_now ≡ false → self.new ≡ self.old) }
        ensures same_actions { IfOk result (λ fits_now. fits_now ≡ false → actions.new.items ≡ actions.old.items) }
        ensures err { OnErr result (self.new ≡ self.old) }
        ensures err_actions { OnErr result (actions.new.items ≡ actions.old.items) }
    {
        self.rest.read(&mut self.openings, atom, actions)
    }
}
