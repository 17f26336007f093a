//! The tables of a story, as far as they are filled: words, arrays and variables, the world, the grammar, and the low strings.
//!
//! Each table is a layer of its own, whose calls refuse an entry that does not fit. `Tables` has one of each, with the limits that
//! the settings give.
//!
//! `World` has the world of a story: attributes, properties, classes and objects (Inform Designer's Manual, fourth edition,
//! section 3), and the tables that these become (Z-Machine Standard 1.1, section 12). It takes a source entry by entry: a
//! declaration, or the header of an object or a class, then the entries of its body, then the end of its body. It counts at every
//! moment how large the tables would be, and writes each area by itself.
#![tactic(auto)]

mod areas;
mod faults;
mod kept;
mod kinds;
mod laws;
mod low_strings;
mod numbers;
mod parents;
mod tables;
mod totals;
mod world;
mod writing;

pub use faults::{Limit, Misfit, WorldFault, WorldSetting};
pub use inf_arrays::{ArrayFault, ArrayKind, Arrays, Entries, GlobalFault, Globals};
pub use inf_dictionary::{AddFault as WordFault, Dictionary, Places, Word, WordUse};
pub use inf_objects::ShortName;
pub use inf_verbs::{
    ActionFault, Actions, LineFault, LineToken, Noun, ParsingRoutines, VerbFault, Verbs,
};
pub use kinds::{DeclaredProperty, Limits, Parent, WorldArea};
pub use laws::{table_at_its_place, written_as_counted};
pub use low_strings::LowStrings;
pub use tables::Tables;
pub use world::World;
