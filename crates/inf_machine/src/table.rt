//! Questions of a machine to the table of a grammar.
ghost use Rattle.std.specs.Prelude.{◌≡◌, reverse, true};
ghost use Rattle.inf_machine.specs.{Grammar.Grammar, Grammar.has, Laws.IsDecided};
ghost use Rattle.inf_machine.specs.Machine.{Known, are_acts, passed_row, way};

use crate::symbols::Symbol;

/// The table of a grammar, which is given as a type.
pub trait Table: 'static {
    /// An action that reading a text carries out.
    type Action: Copy + 'static;

    /// The grammar.
    ghost grammar: { Grammar Self.Action };

    /// The facts about the rules that the machine knows.
    ghost known: { Known };

    /// Returns whether an atom is of a class of tokens.
    fn is_of(class: u8, atom: u8) -> bool
        ensures { result ≡ has (grammar.atoms_of class) atom };

    /// Returns whether an atom begins a rule.
    fn begins(rule: u8, atom: u8) -> bool
        ensures { result ≡ has (known.begins rule) atom };

    /// Returns whether a rule can be empty.
    fn can_be_empty(rule: u8) -> bool
        ensures { result ≡ known.is_empty rule };

    /// Returns the symbols that take the place of a rule before an atom, the last first: the row that the atom begins; where it
    /// begins none the row that can be empty, or nothing where there is no action on the way through this row.
    fn way(rule: u8, atom: u8) -> &'static [Symbol<Self::Action>]
        ensures { reverse result.now ≡ way grammar known atom rule };

    /// Returns the symbols that take the place of a rule that can be empty before an atom that does not begin it, the last first:
    /// actions alone.
    fn passed(rule: u8) -> &'static [Symbol<Self::Action>]
        ensures row { reverse result.now ≡ passed_row grammar known (grammar.rows_of rule) }
        ensures acts { are_acts (passed_row grammar known (grammar.rows_of rule)) ≡ true };

    /// The property of the table by which one token decides.
    ghost decided: { IsDecided grammar known };
}
