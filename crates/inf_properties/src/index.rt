//! An index of properties by their numbers.
ghost use Rattle.std.specs.Prelude.{◌≡◌, ◌≤◌, [], length, option_map, IfSome, OnOk};
ghost use Rattle.inf_properties.specs.{Places.AreAt, Properties.AreFree, Properties.found};

use crate::lists::{Properties, cover_all, place_all};
use crate::places::find;
use crate::values::Property;
use std::alloc::{AllocError, Global};
use std::marker::Model;

/// The places of an object's properties in their list, by the numbers of the properties.
///
/// One index serves many objects: places that were noted for another object do no harm.
#[derive(Drop)]
pub struct PropertyIndex {
    places: Vec<usize>,
}

impl Model for PropertyIndex {
    ghost use Rattle.std.specs.Prelude.{List, ℕ};

    ghost Value = { List ℕ };

    ghost view = { λ index. index.places.items };
}

impl PropertyIndex {
    /// Returns an index of no properties. It takes no memory.
    pub fn new(alloc: Global) -> PropertyIndex
        ensures { result ≡ [] }
    {
        PropertyIndex {
            places: Vec::new(alloc),
        }
    }

    /// Notes the place of each of `properties`, none of which has the number 2 or 3. Fails where no memory is left.
    pub fn note(&mut self, properties: &Properties) -> Result<(), AllocError>
        ensures at { OnOk result (AreAt 0 self.new properties.now) }
        ensures free { AreFree properties.now }
    {
        let list = properties.as_slice();
        cover_all(&mut self.places, list)?;
        place_all(self.places.as_mut_slice(), list);
        Ok(())
    }

    /// Returns the property with the number `number` among `properties`, which were noted last; `None` where none has it.
    pub fn find<'a>(&self, properties: &'a Properties, number: usize) -> Option<&'a Property>
        requires { AreAt 0 self.now properties.now }
        ensures value { option_map (λ p. p.now) result ≡ found number properties.now }
        ensures number { IfSome result (λ p. p.now.number ≡ number) }
        ensures short { IfSome result (λ p. length p.now.values ≤ 32) }
    {
        find(&self.places, properties.as_slice(), number)
    }
}
