//! The grammar of a story: its verbs with their lines, its actions, and the routines that parse (Inform Designer's
//! Manual, fourth edition, section 30; Inform Technical Manual, section 8.5).
//!
//! `Verbs` takes a directive piece by piece: `add` begins a verb, or `extend` says where further lines of one go, and
//! `add_line` adds them one by one. `Actions` numbers actions, and `ParsingRoutines` the routines that lines name.
//! Words are kept by the dictionary, to which each use of one has to be added, too.
#![tactic(auto)]

mod laws;
mod lines;
mod routines;
mod verb;
mod verbs;

pub use laws::{lines_as_told, verb_at_its_place};
pub use lines::{LineToken, Noun};
pub use routines::{ActionFault, Actions, ParsingRoutines};
pub use verbs::{LineFault, LinePlace, VerbFault, Verbs};
