//! The places of properties in a list, by their numbers.
//!
//! A place that was written for another list does no harm: the list itself shows whether the property at a place has the number.
ghost use Rattle.std.specs.Prelude.{◌≡◌, ◌<◌, length, option_map, OnOk, slice_get};
ghost use Rattle.inf_properties.specs.{Places.AreAt, Places.KeepsPlaces, Places.checked, Properties.found};

use crate::values::Property;
use std::alloc::AllocError;

/// Returns the place that is kept under `number`.
fn place_under(places: &[usize], number: usize) -> Option<usize>
    ensures { result ≡ slice_get places.now number }
{
    places.get(number).copied()
}

/// Returns the property at `place`, if there is one.
fn property_at(properties: &[Property], place: usize) -> Option<&Property>
    ensures { option_map (λ p. p.now) result ≡ slice_get properties.now place }
{
    properties.get(place)
}

fn checked(properties: &[Property], place: usize, number: usize) -> Option<&Property>
    ensures { option_map (λ p. p.now) result ≡ checked number (slice_get properties.now place) }
{
    match property_at(properties, place) {
        Some(property) if property.number == number => Some(property),
        _ => None,
    }
}

/// Returns the property with the number `number`, if there is one.
pub(crate) fn find<'a>(
    places: &[usize],
    properties: &'a [Property],
    number: usize,
) -> Option<&'a Property>
    requires { AreAt 0 places.now properties.now }
    ensures { option_map (λ p. p.now) result ≡ found number properties.now }
{
    match place_under(places, number) {
        Some(place) => checked(properties, place, number),
        None => None,
    }
}

/// Makes a place for `number`, and keeps the places that were written.
pub(crate) fn cover(places: &mut Vec<usize>, number: usize) -> Result<(), AllocError>
    ensures covered { OnOk result (number < length places.new.items) }
    ensures kept { KeepsPlaces places.old.items places.new.items }
{
    if number < places.len() {
        return Ok(());
    }
    if number >= isize::MAX as usize {
        return Err(AllocError);
    }
    places.resize(number + 1, 0)
}
