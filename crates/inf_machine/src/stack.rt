//! A stack of symbols.
ghost use Rattle.std.specs.Prelude.{◌≡◌, [], ◌∷◌, ◌++◌, reverse, MatchOption, OnOk, OnErr};

use crate::symbols::Symbol;
use std::alloc::{AllocError, Global};
use std::marker::Model;

/// A stack of symbols. In contracts it is the list of its symbols, the top first.
#[derive(Drop)]
pub(crate) struct Stack<A> {
    /// The symbols on the stack, the top last.
    symbols: Vec<Symbol<A>>,
}

impl<A> Model for Stack<A> {
    ghost use Rattle.std.specs.Prelude.{List, reverse};
    ghost use Rattle.inf_machine.specs.declared.symbols.Symbol.{Symbol};

    ghost Value = { List (Symbol A) };

    ghost view = { λ s. reverse s.symbols.items };
}

impl<A: Copy> Stack<A> {
    /// Returns an empty stack.
    pub(crate) fn new(alloc: Global) -> Stack<A>
        ensures { result ≡ [] }
    {
        Stack {
            symbols: Vec::new(alloc),
        }
    }

    /// Puts a symbol on the stack.
    pub(crate) fn push(&mut self, symbol: Symbol<A>) -> Result<(), AllocError>
        ensures ok { OnOk result (self.new ≡ symbol ∷ self.old) }
        ensures err { OnErr result (self.new ≡ self.old) }
    {
        self.symbols.push(symbol)?;
        Ok(())
    }

    /// Takes the top symbol off the stack, if there is one.
    pub(crate) fn pop(&mut self) -> Option<Symbol<A>>
        ensures { MatchOption result (self.old ≡ []) (λ symbol. self.old ≡ symbol ∷ self.new) }
    {
        self.symbols.pop()
    }

    /// Puts symbols on the stack, of which the last is the new top.
    pub(crate) fn add_all(&mut self, symbols: &[Symbol<A>]) -> Result<(), AllocError>
        ensures ok { OnOk result (self.new ≡ reverse symbols.now ++ self.old) }
        ensures err { OnErr result (self.new ≡ self.old) }
    {
        self.symbols.extend_from_slice(symbols)
    }

    /// Returns the symbols on the stack, the top last.
    pub(crate) fn into_symbols(self) -> Vec<Symbol<A>>
        ensures { reverse result.items ≡ self }
    {
        self.symbols
    }
}
