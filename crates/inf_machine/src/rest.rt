//! The rest of a text that is still to be read, for machines that share the steps of the rules.
ghost use Rattle.std.specs.Prelude.{◌≡◌, [], ◌∷◌, ◌++◌, ◌↔◌, IsTrue, IfOk, OnOk, OnErr, take, vec_len, true, false, reverse};
ghost use Rattle.inf_machine.specs.Machine.{acts_of, fits, taken};

use crate::openings::Openings;
use crate::steps::Step;
use crate::symbols::Symbol;
use crate::table::Table;
use std::alloc::{AllocError, Global};
use std::marker::Model;

/// The symbols that are still to be read: in contracts a list, the symbol at hand first.
#[derive(Drop)]
pub struct Rest<T: Table> {
    /// The symbols, the one at hand last.
    symbols: Vec<Symbol<T::Action>>,
}

impl<T: Table> Model for Rest<T> {
    ghost use Rattle.std.specs.Prelude.{List, reverse};
    ghost use Rattle.inf_machine.specs.declared.symbols.Symbol.{Symbol};

    ghost Value = { List (Symbol T.Action) };

    ghost view = { λ r. reverse r.symbols.items };
}

impl<T: Table> Rest<T> {
    /// Returns a rest in which nothing is to be read. It takes no memory until `start`.
    pub fn new(alloc: Global) -> Rest<T>
        ensures { result ≡ [] }
    {
        Rest {
            symbols: Vec::new(alloc),
        }
    }

    /// Notes that a text of this rule is to be read next. Where memory runs out nothing changes.
    pub fn start(&mut self, rule: u8) -> Result<(), AllocError>
        ensures ok { OnOk result (self.new ≡ Symbol.Rule rule ∷ self.old) }
        ensures err { OnErr result (self.new ≡ self.old) }
    {
        self.symbols.push(Symbol::Rule(rule))?;
        Ok(())
    }

    /// Returns whether nothing is to be read.
    pub fn is_done(&self) -> bool
        ensures { IsTrue result ↔ (self.now ≡ []) }
    {
        self.symbols.is_empty()
    }

    /// Returns the symbols that are to be read, the one at hand last.
    pub(crate) fn symbols(&self) -> &[Symbol<T::Action>]
        ensures { reverse result.now ≡ self.now }
    {
        &self.symbols
    }

    /// Gives up the symbols that are to be read.
    pub fn clear(&mut self)
        ensures { self.new ≡ [] }
    {
        self.symbols.clear();
    }

    /// Takes a token if it fits, and returns whether it does. The actions on the way to it are appended to `actions`, in order; the
    /// token is taken behind them.
    ///
    /// Where it does not fit, and where memory runs out, the symbols that are to be read and the actions stay as they were.
    pub fn read(
        &mut self,
        openings: &mut Openings<T>,
        atom: u8,
        actions: &mut Vec<T::Action>,
    ) -> Result<bool, AllocError>
        ensures fits { IfOk result (λ fits_now. fits_now ≡ fits T.grammar T.known atom self.old) }
        ensures left { IfOk result (λ fits_now. fits_now ≡ true → self.new ≡ (taken T.grammar T.known atom self.old).left) }
        ensures actions { IfOk result (λ fits_now. fits_now ≡ true → actions.new.items ≡ actions.old.items ++
            (taken T.grammar T.known atom self.old).actions) }
        ensures same { IfOk result (λ fits_now. fits_now ≡ false → self.new ≡ self.old) }
        ensures same_actions { IfOk result (λ fits_now. fits_now ≡ false → actions.new.items ≡ actions.old.items) }
        ensures err { OnErr result (self.new ≡ self.old) }
        ensures err_actions { OnErr result (actions.new.items ≡ actions.old.items) }
    {
        let before = actions.len();
        let read = reach(&mut self.symbols, openings, atom, actions);
        if !matches!(read, Ok(true)) {
            actions.truncate(before);
        }
        read
    }
}

/// Walks down the stack to a token that fits and takes it, appending the actions on the way; returns whether it fits. Until that
/// is known no symbol is taken off. Where the token does not fit actions may have been appended.
fn reach<T: Table>(
    symbols: &mut Vec<Symbol<T::Action>>,
    openings: &mut Openings<T>,
    atom: u8,
    actions: &mut Vec<T::Action>,
) -> Result<bool, AllocError>
    ensures fits { IfOk result (λ fits_now. fits_now ≡ fits T.grammar T.known atom (reverse symbols.old.items)) }
    ensures left { IfOk result (λ fits_now. fits_now ≡ true → reverse symbols.new.items ≡
        (taken T.grammar T.known atom (reverse symbols.old.items)).left) }
    ensures actions { IfOk result (λ fits_now. fits_now ≡ true → actions.new.items ≡ actions.old.items ++
        (taken T.grammar T.known atom (reverse symbols.old.items)).actions) }
    ensures same { IfOk result (λ fits_now. fits_now ≡ false → symbols.new.items ≡ symbols.old.items) }
    ensures err { OnErr result (symbols.new.items ≡ symbols.old.items) }
    ensures before { take (vec_len actions.old) actions.new.items ≡ actions.old.items }
{
    let mut below = symbols.len();
    while below > 0 {
        below -= 1;
        match symbols[below] {
            Symbol::Token(class) => {
                let fits = T::is_of(class, atom);
                if fits {
                    symbols.truncate(below);
                }
                return Ok(fits);
            }
            Symbol::Act(action) => actions.push(action)?,
            Symbol::Rule(rule) => match openings.find(rule, atom)? {
                Step::Silent => {}
                Step::Opened(place) => {
                    let opening = openings.opening(place);
                    add_all(actions, opening.actions())?;
                    replace(symbols, below, opening.left())?;
                    return Ok(true);
                }
                Step::Passed => act(T::passed(rule), actions)?,
                Step::Refused => return Ok(false),
            },
        }
    }
    Ok(false)
}

/// Appends actions to others, one by one, since they are few.
fn add_all<A: Copy>(actions: &mut Vec<A>, others: &[A]) -> Result<(), AllocError>
    ensures ok { OnOk result (actions.new.items ≡ actions.old.items ++ others.now) }
    ensures before { take (vec_len actions.old) actions.new.items ≡ actions.old.items }
{
    if others.is_empty() {
        return Ok(());
    }
    actions.reserve(others.len())?;
    for other in others {
        actions.push_reserved(*other);
    }
    Ok(())
}

/// Replaces the symbols from place `below` on by others, which are put there one by one, since they are few.
fn replace<A: Copy>(
    symbols: &mut Vec<Symbol<A>>,
    below: usize,
    others: &[Symbol<A>],
) -> Result<(), AllocError>
    ensures ok { OnOk result (symbols.new.items ≡ take below symbols.old.items ++ others.now) }
    ensures err { OnErr result (symbols.new.items ≡ symbols.old.items) }
{
    symbols.reserve(others.len())?;
    symbols.truncate(below);
    for other in others {
        symbols.push_reserved(*other);
    }
    Ok(())
}

/// Appends the actions of a row to others. The row is given with its last part first.
fn act<A: Copy>(row: &[Symbol<A>], actions: &mut Vec<A>) -> Result<(), AllocError>
    ensures actions { OnOk result (actions.new.items ≡ actions.old.items ++ acts_of (reverse row.now)) }
    ensures before { take (vec_len actions.old) actions.new.items ≡ actions.old.items }
{
    let mut left = row;
    while let Some((part, before)) = left.split_last() {
        if let Symbol::Act(action) = *part {
            actions.push(action)?;
        }
        left = before;
    }
    Ok(())
}
