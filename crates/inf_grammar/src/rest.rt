//! The rest of a text of the language that is still to be read, for readers that share the steps of the rules.
ghost use Rattle.std.specs.Prelude.{◌≡◌, [], ◌∷◌, ◌++◌, ◌↔◌, IsTrue, IfOk, OnOk, OnErr, true, false};
ghost use Rattle.inf_grammar.specs.Language.{grammar, known};
ghost use Rattle.inf_machine.specs.Machine.{fits, taken};

use crate::grammar_table::Language;
use inf_machine::Symbol;
use inf_syntax::Action;
use std::alloc::{AllocError, Global};
use std::marker::Model;

/// The steps of the rules of the language with atoms, as far as they were met.
#[derive(Drop)]
pub struct Openings {
    openings: inf_machine::Openings<Language>,
}

impl Openings {
    /// Returns the list of no openings. It takes no memory until a token is read.
    pub fn new(alloc: Global) -> Openings {
        Openings {
            openings: inf_machine::Openings::new(alloc),
        }
    }
}

/// The symbols that are still to be read: in contracts a list, the one at hand first.
#[derive(Drop)]
pub struct Rest {
    rest: inf_machine::Rest<Language>,
}

impl Model for Rest {
    ghost use Rattle.std.specs.Prelude.{List};
    ghost use Rattle.inf_machine.specs.declared.symbols.Symbol.{Symbol};
    ghost use Rattle.inf_syntax.specs.declared.actions.Action.{Action};

    ghost Value = { List (Symbol Action) };

    ghost view = { λ r. r.rest };
}

impl Rest {
    /// Returns a rest in which nothing is to be read. It takes no memory until `start`.
    pub fn new(alloc: Global) -> Rest
        ensures { result ≡ [] }
    {
        Rest {
            rest: inf_machine::Rest::new(alloc),
        }
    }

    /// Lets a text of `rule` be read next. Where memory runs out, returns an error, and the rest to be read is as it was.
    pub fn start(&mut self, rule: u8) -> Result<(), AllocError>
        ensures ok { OnOk result (self.new ≡ Symbol.Rule rule ∷ self.old) }
        ensures err { OnErr result (self.new ≡ self.old) }
    {
        self.rest.start(rule)
    }

    /// Returns whether nothing is left to be read.
    pub fn is_done(&self) -> bool
        ensures { IsTrue result ↔ (self.now ≡ []) }
    {
        self.rest.is_done()
    }

    /// Gives up all that is left to be read.
    pub fn clear(&mut self)
        ensures { self.new ≡ [] }
    {
        self.rest.clear();
    }

    /// Returns whether `atom` fits, and takes it where it does: appends the actions on the way to it to `actions`, in order. Keeps
    /// in `openings` what was met on the way.
    ///
    /// Where it does not fit and where memory runs out, the rest to be read and the actions are as they were.
    pub fn read(
        &mut self,
        openings: &mut Openings,
        atom: u8,
        actions: &mut Vec<Action>,
    ) -> Result<bool, AllocError>
        ensures fits { IfOk result (λ fits_now. fits_now ≡ fits grammar known atom self.old) }
        ensures left { IfOk result (λ fits_now. fits_now ≡ true → self.new ≡ (taken grammar known atom self.old).left) }
        ensures actions { IfOk result (λ fits_now. fits_now ≡ true → actions.new.items ≡ actions.old.items ++
            (taken grammar known atom self.old).actions) }
        ensures same { IfOk result (λ fits_now. fits_now ≡ false → self.new ≡ self.old) }
        ensures same_actions { IfOk result (λ fits_now. fits_now ≡ false → actions.new.items ≡ actions.old.items) }
        ensures err { OnErr result (self.new ≡ self.old) }
        ensures err_actions { OnErr result (actions.new.items ≡ actions.old.items) }
    {
        self.rest.read(&mut openings.openings, atom, actions)
    }
}
