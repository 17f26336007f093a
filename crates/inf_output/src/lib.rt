//! Output of the units of a routine: the code of a story, its strings, the names that it uses, how texts are packed, and the number
//! of the next label.
//!
//! Code is defined as a change of an `Output`, and pieces of code are put together by a few words: one behind another, with a label
//! of its own, with a routine of the veneer. A limit that is passed is no error of the call that passes it: nothing more is laid,
//! but counted, so that at the end of the unit the first of all limits that it passed can be told.
//!
//! In `specs/`, `Output` has an output and the code that is laid into it, and `Veneer` the routines that templates call by name.
#![tactic(auto)]

mod actions;
mod items;
mod laying;
mod operands;
mod output;
mod past;
mod strings;
mod texts;
mod veneer;

pub use actions::key_of as action_key;
pub use items::{Item, Items, KeptInstruction};
pub use operands::Simple;
pub use output::{Contents, Output};
pub use past::Past;
pub use strings::Strings;
pub use texts::Texts;
pub use veneer::Veneer;
