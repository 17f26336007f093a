//! The grammar of a source as a table, and the machine that reads tokens by it.
//!
//! A token is seen as an atom (`atom_of`). A `Machine` starts with a rule, finds of an atom whether it fits, and takes one that fits, with
//! the actions on the way to it. It is the machine of `inf_machine`, where grammars, their texts and reading are defined; the atoms and the
//! rows of the grammar are in `inf_syntax`. Here `specs/` has the grammar of the language (`Language`) and the facts computed of each rule
//! (`Facts`). That one token decides, and that the program's tables hold this grammar, is proved by evaluation. The page `docs/grammar.txt`
//! has the grammar to be read; `tools/grammar.py` makes the tables of it.
#![tactic(auto)]

mod grammar_table;
mod laws;
mod machine;
mod rest;
mod rules;
mod starts;
mod table;

pub use inf_machine::{Symbol, bad_tokens, pieces, sources, texts};
pub use inf_syntax::{Action, Mark, Token, atom_of};
pub use laws::{language, routines_are_bracketed, source_pieces};
pub use machine::Machine;
pub use rest::{Openings, Rest};
pub use starts::{
    ALONE_CLOSE, ALONE_CONSTANT, ALONE_EXPRESSION, ALONE_HEADER, ALONE_LINE, ASSIGN, EXPRESSION,
    FILE, LOGIC, PIECE,
};
