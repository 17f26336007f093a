//! The properties of a body that is being read.
ghost use Rattle.std.specs.Prelude.{◌≡◌, ◌<◌, ◌≤◌, ◌^◌, ◌++◌, ◌∷◌, [], true, false, length, IfOk, IfSome, IfNone, IsSome, OnOk, OnErr};
ghost use Rattle.std.specs.Prelude.{MatchResult, None, option_to_list};
ghost use Rattle.inf_properties.specs.{Open.full_fault, Places.AreAt, Values.with_last_value, declared.open.GiveFault.TheVariants.Memory};
ghost use Rattle.inf_properties.specs.Properties.{has, joined_values};
ghost use Rattle.inf_properties.specs.Sizes.{joined_count, joined_size, later_count, size_by, size_option};

use crate::lists::{Properties, cover_all, inherited, place_all, total_within};
use crate::places::{cover, find};
use crate::sizes::{MOST_VALUES, NO_SIZE, Owner, Room, Size, are_short, later_count};
use crate::values::{Property, Values};
use inf_area::Value;
use std::alloc::{AllocError, AllocFailed, Global};
use std::marker::Model;

/// The reason why a property, a value or a class was not taken.
#[derive(Clone, Copy)]
pub enum GiveFault {
    /// The body gave the property already.
    Given,
    /// A property would have more than 32 values.
    TooLong,
    /// The tables would have more bytes than there is room for.
    Full,
    /// No memory was left.
    Memory,
}

impl From<AllocError> for GiveFault {
    ghost from_gives = { λ _ fault. fault ≡ Memory };

    fn from(_error: AllocError) -> GiveFault {
        GiveFault::Memory
    }
}

impl<T: Drop> From<AllocFailed<T>> for GiveFault {
    ghost from_gives = { λ _ fault. fault ≡ Memory };

    fn from(_error: AllocFailed<T>) -> GiveFault {
        GiveFault::Memory
    }
}

/// The properties of a body that is being read: those that the body gave, and those of the classes that it named.
///
/// Each call that adds something refuses it where the properties would need more bytes than there is room for, and then leaves all
/// as it was.
#[derive(Drop)]
pub struct OpenProperties {
    alloc: Global,
    owner: Owner,
    own: Vec<Property>,
    above: Vec<Property>,
    takes_values: bool,
    own_places: Vec<usize>,
    above_places: Vec<usize>,
    // The size of all properties if the body ended here.
    size: Size,
}

impl Model for OpenProperties {
    ghost use Rattle.inf_properties.specs.Open.{IsOpen, Open};

    ghost Value = { Open };

    ghost view = { λ o. record { owner = o.owner; own = o.own.items; above = o.above.items; takes_values = o.takes_values } };

    ghost invariant = { λ o. IsOpen o.owner o.own.items o.above.items o.own_places.items o.above_places.items o.size };
}

/// Returns the size of property `number` with `own.0` values of its own, `own.1` of which are known later, and with the values
/// `above` of classes behind them if it is additive; `None` where these would be more than 32 values.
fn joined_size(
    owner: Owner,
    number: usize,
    is_additive: bool,
    own: (usize, usize),
    above: &[Value],
) -> Option<Size>
    requires count { own.0 ≤ 33 }
    requires later { own.1 ≤ 33 }
    ensures some { IfSome result (λ size. size ≡ joined_size owner number is_additive own.0 own.1 above.now) }
    ensures short { IsSome result → joined_count is_additive own.0 above.now ≤ 32 }
    ensures little { IfSome result (λ size. (size.bytes ≤ 67) × (size.fixups ≤ 65) × (size.individuals ≤ 1)) }
    ensures long { IfNone result (32 < joined_count is_additive own.0 above.now) }
{
    let (more, more_later) = if is_additive {
        (above.len(), later_count(above))
    } else {
        (0, 0)
    };
    if own.0 + more > MOST_VALUES {
        return None;
    }
    Some(owner.size_by(number, own.0 + more, own.1 + more_later))
}

/// Returns the number of values in `first`, and the number of them that are known later.
fn counts(first: Option<Value>) -> (usize, usize)
    ensures count { result.0 ≡ length (option_to_list first) }
    ensures later { result.1 ≡ later_count (option_to_list first) }
{
    match first {
        None => (0, 0),
        Some(Value::Known(_)) => (1, 0),
        Some(Value::Later(_)) => (1, 1),
    }
}

/// Returns the size of `property` joined with the values `above` of classes, as it is and with `value` behind its own; `None` where
/// these would be more than 32 values.
fn value_sizes(
    owner: Owner,
    property: &Property,
    above: &[Value],
    value: Value,
) -> Option<(Size, Size)>
    requires { length property.now.values ≤ 32 }
    ensures before { let values = joined_values property.now.is_additive property.now.values above.now in
        IfSome result (λ sizes. sizes.0 ≡ size_by owner property.now.number (length values) (later_count values)) }
    ensures after { let values = joined_values property.now.is_additive (property.now.values ++ value ∷ []) above.now in
        IfSome result (λ sizes. sizes.1 ≡ size_by owner property.now.number (length values) (later_count values)) }
    ensures short { IsSome result → length (joined_values property.now.is_additive (property.now.values ++ value ∷ []) above.now) ≤ 32 }
    ensures long { IfNone result (32 < length (joined_values property.now.is_additive (property.now.values ++ value ∷ []) above.now)) }
    ensures little { IfSome result (λ sizes. (sizes.1.bytes ≤ 67) × (sizes.1.fixups ≤ 65) × (sizes.1.individuals ≤ 1)) }
{
    let (number, is_additive) = (property.number, property.is_additive);
    let values = property.values.as_slice();
    let (count, later) = (values.len(), later_count(values));
    let (more, more_later) = counts(Some(value));
    let own = (count + more, later + more_later);
    let after = joined_size(owner, number, is_additive, own, above)?;
    let before = joined_size(owner, number, is_additive, (count, later), above)?;
    Some((before, after))
}

/// Returns the values of a new property: its first value, if it has one.
fn first_values(alloc: Global, first: Option<Value>) -> Result<Values, AllocError>
    ensures { IfOk result (λ values. values ≡ option_to_list first) }
{
    let mut values = Values::new(alloc);
    if let Some(value) = first {
        values.push(value)?;
    }
    Ok(values)
}

/// Appends `property` to `properties`, none of which has its number. Where no memory is left `properties` stay as they were.
fn add_last(
    places: &mut Vec<usize>,
    properties: &mut Vec<Property>,
    property: Property,
) -> Result<(), AllocError>
    requires at { AreAt 0 places.old.items properties.old.items }
    requires absent { has property.number properties.old.items ≡ false }
    ensures ok { OnOk result (properties.new.items ≡ properties.old.items ++ property ∷ []) }
    ensures err { OnErr result (properties.new.items ≡ properties.old.items) }
    ensures at { AreAt 0 places.new.items properties.new.items }
{
    let (number, place) = (property.number, properties.len());
    cover(places, number)?;
    properties.push(property)?;
    places[number] = place;
    Ok(())
}

/// Appends `value` to the values of the last property, if there is one. Where no memory is left the properties stay as they were.
fn push_value(properties: &mut Vec<Property>, value: Value) -> Result<(), AllocError>
    ensures ok { OnOk result (properties.new.items ≡ with_last_value value properties.old.items) }
    ensures err { OnErr result (properties.new.items ≡ properties.old.items) }
{
    let count = properties.len();
    if count > 0 {
        let last = &mut properties[count - 1];
        last.values.push(value)?;
    }
    Ok(())
}

fn full_fault(size: Size, room: Room) -> Option<GiveFault>
    requires bytes { size.bytes < 2 ^ 33 }
    requires fixups { size.fixups < 2 ^ 33 }
    ensures { result ≡ full_fault size room }
{
    if room.lacks(size.with_table().bytes) {
        Some(GiveFault::Full)
    } else {
        None
    }
}

impl OpenProperties {
    ghost use Rattle.inf_properties.specs.Open.{all, class_fault, class_refused, give_fault, given_first, opened, is_last_short, refusal};
    ghost use Rattle.inf_properties.specs.Open.{value_fault, with_class, with_given, with_value};
    ghost use Rattle.inf_properties.specs.Properties.{found, has, inherited, is_reserved, joined, values_in, values_of};
    ghost use Rattle.inf_properties.specs.Sizes.{is_short, total, with_table};

    /// Returns the properties of no body. It takes no memory.
    pub fn new(alloc: Global) -> OpenProperties
        ensures { result ≡ opened Owner.Nothing }
    {
        OpenProperties {
            alloc,
            owner: Owner::Nothing,
            own: Vec::new(alloc),
            above: Vec::new(alloc),
            takes_values: false,
            own_places: Vec::new(alloc),
            above_places: Vec::new(alloc),
            size: NO_SIZE,
        }
    }

    /// Begins a body of an object, a class, or of neither.
    pub fn open(&mut self, owner: Owner)
        ensures { self.new ≡ opened owner }
    {
        self.owner = owner;
        self.own.clear();
        self.above.clear();
        self.takes_values = false;
        self.size = NO_SIZE;
    }

    /// Returns the owner of the body.
    pub fn owner(&self) -> Owner
        ensures { result ≡ self.now.owner }
    {
        self.owner
    }

    /// Returns whether the body gave property `number`.
    pub fn is_given(&self, number: usize) -> bool
        ensures { result ≡ has number self.now.own }
    {
        find(&self.own_places, &self.own, number).is_some()
    }

    /// Returns the size of the properties if the body ended here, with the end of an individual table, and the property that has
    /// its address, where there is such a table.
    pub fn size(&self) -> Size
        ensures value { result ≡ with_table (total self.now.owner (all self.now)) }
        ensures small { result.bytes < 2 ^ 33 }
        ensures few { result.fixups ≤ result.bytes }
    {
        self.size.with_table()
    }

    /// Returns the size and the values of property `number` as the classes give it; no size and no values where they do not.
    fn above_of(&self, number: usize) -> (Size, &[Value])
        requires { has number self.now.own ≡ false }
        ensures size { result.0 ≡ size_option self.now.owner (found number self.now.above) }
        ensures values { result.1.now ≡ values_in (found number self.now.above) }
    {
        match find(&self.above_places, &self.above, number) {
            Some(property) => (self.owner.size_of(property), property.values.as_slice()),
            None => (NO_SIZE, &[]),
        }
    }

    /// Returns the size of the properties with property `number` besides, which the body did not give; `None` where it would have
    /// more than 32 values.
    fn size_given(&self, number: usize, is_additive: bool, first: Option<Value>) -> Option<Size>
        requires { has number self.now.own ≡ false }
        ensures some { let p = given_first number is_additive first in
            IfSome result (λ size. size ≡ total self.now.owner (inherited (self.now.own ++ p ∷ []) self.now.above)) }
        ensures short { let p = given_first number is_additive first in IsSome result → is_short (joined self.now.above p) ≡ true }
        ensures long { let p = given_first number is_additive first in IfNone result (is_short (joined self.now.above p) ≡ false) }
        ensures small { IfSome result (λ size. (size.bytes < 2 ^ 33) × (size.fixups < 2 ^ 33)) }
    {
        let (lost, above) = self.above_of(number);
        let gained = joined_size(self.owner, number, is_additive, counts(first), above)?;
        Some(self.size.changed(lost, gained))
    }

    /// Gives the property `number` in the body, with its first value `first` if it has one. The property is additive wherever it is
    /// given or nowhere, and its number is neither 2 nor 3.
    ///
    /// Refuses it where the body gave it already, then where it would have more than 32 values with those of additive classes, then
    /// where there is no room, then where no memory is left.
    pub fn give(
        &mut self,
        number: usize,
        is_additive: bool,
        first: Option<Value>,
        room: Room,
    ) -> Result<(), GiveFault>
        requires { is_reserved number ≡ false }
        ensures ok { OnOk result (self.new ≡ with_given (given_first number is_additive first) self.old) }
        ensures err { OnErr result (self.new ≡ self.old) }
        ensures fault { let fault = give_fault (given_first number is_additive first) room self.old in
            MatchResult result (λ _. fault ≡ None) (λ refused. refused ≡ refusal fault) }
    {
        if self.is_given(number) {
            return Err(GiveFault::Given);
        }
        let Some(size) = self.size_given(number, is_additive, first) else {
            return Err(GiveFault::TooLong);
        };
        if room.lacks(size.with_table().bytes) {
            return Err(GiveFault::Full);
        }
        let values = first_values(self.alloc, first)?;
        let property = Property {
            number,
            is_additive,
            values,
        };
        add_last(&mut self.own_places, &mut self.own, property)?;
        self.takes_values = true;
        self.size = size;
        Ok(())
    }

    /// Adds `value` to the property that was given last. Behind a property that was lost it adds nothing, and refuses nothing.
    ///
    /// Refuses the value where the property would have more than 32 with those of additive classes, then where there is no room,
    /// then where no memory is left.
    pub fn add_value(&mut self, value: Value, room: Room) -> Result<(), GiveFault>
        ensures ok { OnOk result (self.new ≡ with_value value self.old) }
        ensures err { OnErr result (self.new ≡ self.old) }
        ensures fault { let fault = value_fault value room self.old in
            MatchResult result (λ _. fault ≡ None) (λ refused. refused ≡ refusal fault) }
        ensures takes { OnErr result (self.old.takes_values ≡ true) }
    {
        if !self.takes_values {
            return Ok(());
        }
        let Some(size) = self.size_with(value) else {
            return Err(GiveFault::TooLong);
        };
        if room.lacks(size.with_table().bytes) {
            return Err(GiveFault::Full);
        }
        push_value(&mut self.own, value)?;
        self.size = size;
        Ok(())
    }

    /// Returns the fault for which `give` would refuse the property, whatever memory there is.
    pub fn give_fault(
        &self,
        number: usize,
        is_additive: bool,
        first: Option<Value>,
        room: Room,
    ) -> Option<GiveFault>
        ensures { result ≡ give_fault (given_first number is_additive first) room self.now }
    {
        let is_given = self.is_given(number);
        if is_given {
            return Some(GiveFault::Given);
        }
        match self.size_given(number, is_additive, first) {
            None => Some(GiveFault::TooLong),
            Some(size) => full_fault(size, room),
        }
    }

    /// Returns the fault for which `add_value` would refuse the value, whatever memory there is.
    pub fn value_fault(&self, value: Value, room: Room) -> Option<GiveFault>
        ensures { result ≡ value_fault value room self.now }
    {
        if !self.takes_values {
            return None;
        }
        match self.size_with(value) {
            None => Some(GiveFault::TooLong),
            Some(size) => full_fault(size, room),
        }
    }

    /// Returns the size of the properties with `value` behind those of the property that was given last; `None` where it would have
    /// more than 32 values.
    fn size_with(&self, value: Value) -> Option<Size>
        ensures some { IfSome result (λ size. size ≡ total self.now.owner (inherited (with_last_value value self.now.own) self.now.above)) }
        ensures short { IsSome result → is_last_short self.now.above (with_last_value value self.now.own) ≡ true }
        ensures long { IfNone result (is_last_short self.now.above (with_last_value value self.now.own) ≡ false) }
        ensures small { IfSome result (λ size. (size.bytes < 2 ^ 33) × (size.fixups < 2 ^ 33)) }
    {
        let Some((last, _)) = self.own.as_slice().split_last() else {
            return Some(self.size);
        };
        let above = self.values_above(last.number);
        let (before, after) = value_sizes(self.owner, last, above, value)?;
        Some(self.size.changed(before, after))
    }

    /// Returns the values that the classes give of property `number`.
    fn values_above(&self, number: usize) -> &[Value]
        ensures { result.now ≡ values_of number self.now.above }
    {
        match find(&self.above_places, &self.above, number) {
            Some(property) => property.values.as_slice(),
            None => &[],
        }
    }

    /// Drops further values, up to the next property.
    pub fn lose(&mut self)
        ensures { self.new ≡ record self.old { takes_values = false } }
    {
        self.takes_values = false;
    }

    /// Takes the properties `class` of a class that the body names.
    ///
    /// Refuses the class where a property would have more than 32 values, then where there is no room. The lists are made before
    /// these faults are looked for, and memory may run out first.
    pub fn inherit(&mut self, class: &Properties, room: Room) -> Result<(), GiveFault>
        ensures ok { OnOk result (self.new ≡ with_class class.now self.old) }
        ensures err { OnErr result (self.new ≡ self.old) }
        ensures fault { let fault = class_fault class.now room self.old in MatchResult result (λ _. fault ≡ None) (class_refused fault) }
    {
        let above = inherited(
            self.alloc,
            &self.above,
            &self.above_places,
            class.as_slice(),
        )?;
        let all = inherited(self.alloc, &self.own, &self.own_places, &above)?;
        if !are_short(&all) {
            return Err(GiveFault::TooLong);
        }
        let Some(size) = total_within(self.owner, &all, room.limit) else {
            return Err(GiveFault::Full);
        };
        if room.lacks(size.with_table().bytes) {
            return Err(GiveFault::Full);
        }
        cover_all(&mut self.above_places, &above)?;
        place_all(self.above_places.as_mut_slice(), &above);
        self.above = above;
        self.size = size;
        Ok(())
    }

    /// Returns all properties as if the body ended here: its own, additive ones joined with those of its classes, then those of its
    /// classes that it lacks.
    pub fn complete(&self) -> Result<Properties, AllocError>
        ensures { IfOk result (λ properties. properties ≡ all self.now) }
    {
        let list = inherited(self.alloc, &self.own, &self.own_places, &self.above)?;
        Ok(Properties::from_list(list))
    }
}
