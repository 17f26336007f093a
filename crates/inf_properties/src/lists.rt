//! Lists of properties, and how an object takes from its classes.
ghost use Rattle.std.specs.Prelude.{◌≡◌, ◌+◌, ◌++◌, ◌<◌, ◌≤◌, [], true, length, IfOk, IfSome, IfNone, OnOk, OnErr};
ghost use Rattle.inf_properties.specs.{Places.AreAt, Places.AreCovered, Places.KeepsPlaces, Sizes.are_short, Sizes.total};
ghost use Rattle.inf_properties.specs.Properties.{AreFree, AreNew, found, inherited, joined, lacked, values_of, with_joined};

use crate::places::{cover, find};
use crate::sizes::{NO_SIZE, Owner, Size};
use crate::values::{Property, Values};
use inf_area::Value;
use std::alloc::{AllocError, Global};
use std::marker::Model;

/// The properties of an object or a class: no two have the same number, and each has at most 32 values.
///
/// No property has the number 2 or 3: the list of an object's classes and the address of its individual table are not among them.
#[derive(Drop)]
pub struct Properties {
    list: Vec<Property>,
}

impl Model for Properties {
    ghost use Rattle.std.specs.Prelude.{◌≡◌, List, [], true};
    ghost use Rattle.inf_properties.specs.Sizes.{are_short};
    ghost use Rattle.inf_properties.specs.contracts.values.Property as property;
    ghost use Rattle.inf_properties.specs.Properties.{AreFree, AreNew, PropertyList, list_code};

    ghost Value = { PropertyList };

    ghost coded = { list_code property.the_row.coded };

    ghost view = { λ properties. properties.list.items };

    ghost invariant = { λ properties. AreNew [] properties.list.items × (are_short properties.list.items ≡ true) × AreFree
        properties.list.items };
}

impl Properties {
    /// Returns an empty list of properties. It takes no memory.
    pub fn new(alloc: Global) -> Properties
        ensures { result ≡ [] }
    {
        Properties {
            list: Vec::new(alloc),
        }
    }

    /// Returns the properties of `list`, where no two have the same number, each has at most 32 values, and none is numbered 2 or 3.
    pub(crate) fn from_list(list: Vec<Property>) -> Properties
        requires once { AreNew [] list.items }
        requires short { are_short list.items ≡ true }
        requires free { AreFree list.items }
        ensures { result ≡ list.items }
    {
        Properties { list }
    }

    /// Returns the properties, in order.
    pub fn as_slice(&self) -> &[Property]
        ensures value { result.now ≡ self.now }
        ensures once { AreNew [] self.now }
        ensures short { are_short self.now ≡ true }
        ensures free { AreFree self.now }
    {
        self.list.as_slice()
    }
}

/// Returns the values of property `number` among `properties`; no values where there is no such property.
fn values_of(properties: &[Property], number: usize) -> &[Value]
    ensures { result.now ≡ values_of number properties.now }
{
    for property in properties {
        if property.number == number {
            return property.values.as_slice();
        }
    }
    &[]
}

/// Returns a copy of the property `own`, with the values of classes behind its own where it is additive.
fn joined(alloc: Global, own: &Property, above: &[Property]) -> Result<Property, AllocError>
    ensures { IfOk result (λ p. p ≡ joined above.now own.now) }
{
    let mut values = Values::from_slice(alloc, own.values.as_slice())?;
    if own.is_additive {
        values.append(values_of(above, own.number))?;
    }
    Ok(Property {
        number: own.number,
        is_additive: own.is_additive,
        values,
    })
}

/// Returns copies of all of an object's own properties, with the values of classes behind those of additive ones.
fn with_joined(
    alloc: Global,
    own: &[Property],
    above: &[Property],
) -> Result<Vec<Property>, AllocError>
    ensures { IfOk result (λ all. all.items ≡ with_joined above.now own.now) }
{
    let mut all = Vec::new(alloc);
    for property in own {
        all.push(joined(alloc, property, above)?)?;
    }
    Ok(all)
}

/// Returns a copy of a property.
fn copied(alloc: Global, property: &Property) -> Result<Property, AllocError>
    ensures { IfOk result (λ p. p ≡ property.now) }
{
    Ok(Property {
        number: property.number,
        is_additive: property.is_additive,
        values: Values::from_slice(alloc, property.values.as_slice())?,
    })
}

/// Appends to `all` copies of the properties `above` of classes that the object lacks; `places` are the places of its own properties.
fn add_lacked(
    alloc: Global,
    all: &mut Vec<Property>,
    own: &[Property],
    places: &[usize],
    above: &[Property],
) -> Result<(), AllocError>
    requires { AreAt 0 places.now own.now }
    ensures { OnOk result (all.new.items ≡ all.old.items ++ lacked own.now above.now) }
{
    for property in above {
        if find(places, own, property.number).is_none() {
            all.push(copied(alloc, property)?)?;
        }
    }
    Ok(())
}

/// Returns copies of an object's own properties, additive ones joined with those `above` it, then of those above it that it
/// lacks; `places` are the places of its own properties.
pub(crate) fn inherited(
    alloc: Global,
    own: &[Property],
    places: &[usize],
    above: &[Property],
) -> Result<Vec<Property>, AllocError>
    requires { AreAt 0 places.now own.now }
    ensures { IfOk result (λ all. all.items ≡ inherited own.now above.now) }
{
    let mut all = with_joined(alloc, own, above)?;
    add_lacked(alloc, &mut all, own, places, above)?;
    Ok(all)
}

/// Adds up the sizes of `properties`, which have at most 32 values each; `None` where they need more than `most` bytes.
pub(crate) fn total_within(owner: Owner, properties: &[Property], most: u32) -> Option<Size>
    requires { are_short properties.now ≡ true }
    ensures some { IfSome result (λ size. size ≡ total owner properties.now) }
    ensures within { IfSome result (λ size. size.bytes ≤ most) }
    ensures none { IfNone result (most < (total owner properties.now).bytes) }
{
    let mut size = NO_SIZE;
    for property in properties {
        size = size.changed(NO_SIZE, owner.size_of(property));
        if size.bytes > most as usize {
            return None;
        }
    }
    Some(size)
}

/// Makes places for the numbers of all `properties`, and keeps the places that were written.
pub(crate) fn cover_all(places: &mut Vec<usize>, properties: &[Property]) -> Result<(), AllocError>
    ensures covered { OnOk result (AreCovered places.new.items properties.now) }
    ensures kept { KeepsPlaces places.old.items places.new.items }
{
    for property in properties {
        cover(places, property.number)?;
    }
    Ok(())
}

/// Writes the place of each property under its number.
pub(crate) fn place_all(places: &mut [usize], properties: &[Property])
    requires covered { AreCovered places.old properties.now }
    requires once { AreNew [] properties.now }
    ensures { AreAt 0 places.new properties.now }
{
    for (place, property) in properties.iter().enumerate() {
        places[property.number] = place;
    }
}
