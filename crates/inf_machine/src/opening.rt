//! The openings of rules by the atoms that begin them.
ghost use Rattle.std.specs.Prelude.{◌≡◌, [], ◌∷◌, ◌++◌, IfOk, OnOk, reverse, true};
ghost use Rattle.inf_machine.specs.{Grammar.has, Machine.fits, Machine.opened, Machine.taken};

use crate::stack::Stack;
use crate::symbols::Symbol;
use crate::table::Table;
use std::alloc::{AllocError, Global};
use std::marker::Model;

/// The opening of a rule by an atom that begins it: the actions and the symbols that taking the atom gives. Contracts see the
/// rule and the atom.
#[derive(Drop)]
pub(crate) struct Opening<T: Table> {
    rule: u8,
    atom: u8,
    /// The actions on the way to the token.
    actions: Vec<T::Action>,
    /// The symbols of the rule that are still to be read behind the token, the one at hand last.
    left: Vec<Symbol<T::Action>>,
}

impl<T: Table> Model for Opening<T> {
    ghost use Rattle.std.specs.Prelude.{◌≡◌, ℕ, reverse};
    ghost use Rattle.inf_machine.specs.Machine.{opened};

    ghost Value = { ℕ × ℕ };

    ghost view = { λ o. (o.rule, o.atom) };

    ghost invariant = { λ o. opened T.grammar T.known o.rule o.atom ≡ record { actions = o.actions.items; left = reverse o.left.items } };
}

impl<T: Table> Opening<T> {
    /// Returns the opening of `rule` by `atom`, which begins it.
    pub(crate) fn of(alloc: Global, rule: u8, atom: u8) -> Result<Opening<T>, AllocError>
        requires { has (T.known.begins rule) atom ≡ true }
        ensures { IfOk result (λ opening. opening ≡ (rule, atom)) }
    {
        let mut stack = Stack::new(alloc);
        let mut actions = Vec::new(alloc);
        stack.push(Symbol::Rule(rule))?;
        reach::<T>(&mut stack, atom, &mut actions)?;
        Ok(Opening {
            rule,
            atom,
            actions,
            left: stack.into_symbols(),
        })
    }

    /// Returns the actions on the way to the token.
    pub(crate) fn actions(&self) -> &[T::Action]
        ensures { result.now ≡ (opened T.grammar T.known self.now.0 self.now.1).actions }
    {
        &self.actions
    }

    /// Returns the symbols of the rule that are still to be read behind the token, the one at hand last.
    pub(crate) fn left(&self) -> &[Symbol<T::Action>]
        ensures { reverse result.now ≡ (opened T.grammar T.known self.now.0 self.now.1).left }
    {
        &self.left
    }
}

/// Takes a token that fits from the stack, rule by rule, and appends the actions on the way to it.
fn reach<T: Table>(
    stack: &mut Stack<T::Action>,
    atom: u8,
    actions: &mut Vec<T::Action>,
) -> Result<(), AllocError>
    requires { fits T.grammar T.known atom stack.old ≡ true }
    ensures left { OnOk result (stack.new ≡ (taken T.grammar T.known atom stack.old).left) }
    ensures actions { OnOk result (actions.new.items ≡ actions.old.items ++ (taken T.grammar T.known atom stack.old).actions) }
{
    while let Some(symbol) = stack.pop() {
        match symbol {
            Symbol::Token(_) => return Ok(()),
            Symbol::Act(action) => actions.push(action)?,
            Symbol::Rule(rule) => stack.add_all(T::way(rule, atom))?,
        }
    }
    Ok(())
}
