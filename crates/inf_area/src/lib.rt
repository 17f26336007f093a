//! The areas of a story under construction, and the numbers in them that are known only when the story is laid out.
//!
//! An `Area` is a list of bytes. `FlatArea` has them in one piece, `PagedArea` in pages, which are never moved when it grows. `Refs` lists
//! the fixups: pairs of bytes in an area, each of which the number of a target replaces. The parts of a story's tables: cells, each a byte
//! or two bytes that are known when the story is laid out; and the numbers that packed addresses are multiplied by.
//!
//! A table makes the list of its cells and puts all of them behind an area with `append_cells`, or none.
#![tactic(auto)]

mod areas;
mod cells;
mod fixups;
mod pages;
mod scale;
mod targets;
mod words;

pub use areas::{Area, FlatArea};
pub use cells::{Cell, Cells, WriteFault, append_cells};
pub use fixups::{AddFault, Fixup, Refs};
pub use pages::PagedArea;
pub use scale::Scale;
pub use targets::{AreaName, SystemConstant, Target, Value};
pub use words::word_bytes;
