//! Objects and classes of a story, as they are read, and as they are written in the tables (Inform Designer's Manual, fourth
//! edition, section 3; Z-Machine Standard 1.1, section 12).
//!
//! A `Body` is the part of an object or a class that was read so far; where it ends it gives an `Object`. `links` makes the tree
//! of objects from their parents, and the other functions append the parts of the tables to cells.
#![tactic(auto)]

mod attributes;
mod body;
mod laws;
mod objects;
mod sizes;
mod tables;
mod tree;

pub use attributes::{ATTRIBUTES, add_attributes};
pub use body::Body;
pub use laws::{attributes_in_order, table_as_read, tree_as_walked};
pub use objects::{ClassNumbers, Object, ShortName};
pub use sizes::{Measure, Part, measured};
pub use tables::{add_individual_table, add_name, add_table};
pub use tree::{Link, links};
