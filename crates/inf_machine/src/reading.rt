//! Questions about a stack of symbols, which the table of a grammar answers.
ghost use Rattle.std.specs.Prelude.{◌≡◌, ◌∷◌, ◌&&◌, List, reverse, unwrap_or};
ghost use Rattle.inf_machine.specs.{Machine.can_end, Machine.fits, declared.symbols.Symbol.Symbol};

use crate::symbols::Symbol;
use crate::table::Table;

/// Returns whether an atom fits a stack, which has its top last.
pub(crate) fn fits<T: Table>(stack: &[Symbol<T::Action>], atom: u8) -> bool
    ensures { result ≡ fits T.grammar T.known atom (reverse stack.now) }
{
    let mut left = stack;
    while let Some((symbol, below)) = left.split_last() {
        if let Some(fits) = fit::<T>(*symbol, atom) {
            return fits;
        }
        left = below;
    }
    false
}

/// Returns whether an atom fits a symbol, or `None` where the symbols behind it decide that.
fn fit<T: Table>(symbol: Symbol<T::Action>, atom: u8) -> Option<bool>
    ensures { (rest : List (Symbol T.Action)) →
        fits T.grammar T.known atom (symbol ∷ rest) ≡ unwrap_or result (fits T.grammar T.known atom rest) }
{
    match symbol {
        Symbol::Token(class) => Some(T::is_of(class, atom)),
        Symbol::Act(_) => None,
        Symbol::Rule(rule) if T::begins(rule, atom) => Some(true),
        Symbol::Rule(rule) if T::can_be_empty(rule) => None,
        Symbol::Rule(_) => Some(false),
    }
}

/// Returns whether a stack, which has its top last, can be empty.
pub(crate) fn can_end<T: Table>(stack: &[Symbol<T::Action>]) -> bool
    ensures { result ≡ can_end T.known (reverse stack.now) }
{
    let mut left = stack;
    while let Some((symbol, below)) = left.split_last() {
        if !can_be_empty::<T>(*symbol) {
            return false;
        }
        left = below;
    }
    true
}

/// Returns whether a symbol can be empty.
fn can_be_empty<T: Table>(symbol: Symbol<T::Action>) -> bool
    ensures { (rest : List (Symbol T.Action)) → can_end T.known (symbol ∷ rest) ≡ (result && can_end T.known rest) }
{
    match symbol {
        Symbol::Act(_) => true,
        Symbol::Rule(rule) => T::can_be_empty(rule),
        Symbol::Token(_) => false,
    }
}
