//! The atoms and actions in which the grammar of a source is written, and its rows.
//!
//! A token is seen as an atom (`atom_of`); what reading is to do is an `Action`; `parts` names the parts of rows. `specs/` has the
//! numbers of atoms (`Atoms`), the classes of tokens as sets of atoms (`Classes`), and the rows, rule by rule (`Table`). The page `docs/grammar.txt` has the grammar to be read; `tools/grammar.py` makes the tables of it. The crate `inf_grammar`
//! has what is computed of these rows, and the machine that reads by them.
#![tactic(auto)]

mod actions;
mod atoms;
pub mod parts;
mod words;

pub use actions::Action;
pub use atoms::{OTHER_NAME, Token, atom_of, keyword_at};
pub use inf_scanner::Mark;
pub use words::Keyword;
