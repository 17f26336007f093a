//! The arrays and the global variables of a story (Inform Designer's Manual, fourth edition, section 2; Z-Machine Standard 1.1,
//! section 6.2).
//!
//! `Arrays` takes a directive piece by piece: `open` begins an array, `entry` adds to it, `zeros` and `characters` are for a number or a
//! text alone. An array ends where another is opened or all are written. `Globals` takes the first value of each variable.
#![tactic(auto)]

mod arrays;
mod globals;
mod kinds;
mod laws;

pub use arrays::{ArrayFault, Arrays, Entries};
pub use globals::{GlobalFault, Globals};
pub use kinds::ArrayKind;
pub use laws::{written_arrays, written_globals};
