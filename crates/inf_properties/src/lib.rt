//! Properties of objects: those that the body of an object or a class gives, and those that it takes from its classes.
//!
//! `OpenProperties` takes the properties of a body one after the other and counts at every moment how large the object's tables would
//! be if its body ended there. `Properties` are those of a whole object or class.
#![tactic(auto)]

mod index;
mod laws;
mod lists;
mod open;
mod places;
mod sizes;
mod values;

pub use index::PropertyIndex;
pub use laws::what_an_object_has;
pub use lists::Properties;
pub use open::{GiveFault, OpenProperties};
pub use sizes::{Owner, Room, Size};
pub use values::{Property, Values};
