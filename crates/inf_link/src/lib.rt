//! The story: areas that are laid out one behind the other, with the numbers in them that are then known, and its header
//! (Z-Machine Standard 1.1, sections 1 and 11).
#![tactic(auto)]

mod areas;
mod bytes;
mod filling;
mod header;
mod laws;
mod link;
mod memory_map;
mod targets;

pub use areas::Areas;
pub use header::HeaderFields;
pub use inf_area::Scale;
pub use laws::{
    areas_stand_at_their_bases, cells_come_out_as_numbers, fixups_are_filled_in_any_order,
    stories_tell_themselves,
};
pub use link::{Link, LinkFault, Sizes, Story};
pub use targets::Targets;
