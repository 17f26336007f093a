//! The world of a story, as far as its source was read.
ghost use Rattle.std.specs.Prelude.{◌≡◌, ◌+◌, ◌<◌, ◌≤◌, ◌^◌, max, List, ℕ, [], ◌∷◌, None, Some, false, true, length, unwrap_or, option_map};
ghost use Rattle.std.specs.Prelude.{slice_get, sum_by, IfErr, IfOk, IsSome, OnOk, OnErr, MatchResult};
ghost use Rattle.inf_properties.specs.{Properties.has, Properties.is_reserved, declared.sizes.Owner.Owner};
ghost use Rattle.inf_properties.specs.Open.{give_fault, given_first, with_given};
ghost use Rattle.inf_objects.specs.Objects.{begun, is_lost, is_passed, object_bytes, object_fixups};
ghost use Rattle.inf_tables.specs.{Faults.given_fault, declared.faults.WorldFault.TheVariants.Memory};
ghost use Rattle.inf_tables.specs.Objects.{IsReached, class_at, is_object, latest_with};
ghost use Rattle.inf_tables.specs.World.{AreHung, IsRefused, attribute_fault, bytes_now, class_header_fault, class_of_fault, fixups_now};
ghost use Rattle.inf_tables.specs.World.{full_fault, further_value_fault, given_property_fault, individual_fault, kind_of, lost_given};
ghost use Rattle.inf_tables.specs.World.{lost_given_fault, lost_header_fault, no_body_fault, no_world, object_count, object_header_fault};
ghost use Rattle.inf_tables.specs.World.{property_fault, room_of, set_attribute_fault, with_attribute, with_body, with_class_header};
ghost use Rattle.inf_tables.specs.World.{with_class_of, with_end, with_further_value, with_given_property, with_individual};
ghost use Rattle.inf_tables.specs.World.{with_lost_header, with_lost_property, with_object_header, with_properties, with_property};
ghost use Rattle.inf_tables.specs.World.{with_set_attribute};
ghost use Rattle.inf_settings.specs.declared.setting.Setting.TheVariants as setting;

use crate::faults::{Limit, Misfit, WorldFault, WorldSetting, told_fault};
use crate::kept::{class_of, later_defaults, note_latest, push_object};
use crate::kinds::{DeclaredProperty, Limits, Parent};
use crate::numbers::{
    CLASS, FIRST_DECLARED, FIRST_INDIVIDUAL, MOST_PROPERTIES, NAME, SYSTEM_BYTES, SYSTEM_OBJECTS,
};
use inf_area::Value;
use inf_objects::{ATTRIBUTES, Body, Object, ShortName};
use inf_properties::{Owner, Room};
use inf_settings::bounds::Bounds;
use std::alloc::{AllocError, Global};
use std::marker::{Model, PhantomData};

/// The room for properties of a body that belongs to nothing, which need no bytes.
const LOST_ROOM: Room = Room {
    others: 0,
    limit: u32::MAX,
};

/// Attributes, properties, classes and objects, as far as they were read.
///
/// Attributes number from 0, properties from 4 (1 is `name`), individual properties from 64, objects and classes from 5. The number 0 is
/// used for names whose declaration was in error: as a parent or a class it gives nothing; as a property it is one like others.
#[derive(Drop)]
pub struct World<B: Bounds> {
    alloc: Global,
    limits: Limits,
    attributes: usize,
    declared: Vec<DeclaredProperty>,
    individuals: u32,
    objects: Vec<Object>,
    is_open: bool,
    body: Body,
    // For each number of arrows, the number of the latest object that has as many.
    latest: Vec<usize>,
    // The numbers of bytes and fixups of the tables of all objects whose bodies ended.
    bytes: usize,
    fixups: usize,
    of: PhantomData<B>,
}

impl<B: Bounds> Model for World<B> {
    ghost use Rattle.std.specs.Prelude.{◌≡◌};
    ghost use Rattle.inf_settings.specs.declared.setting.Setting.TheVariants as setting;
    ghost use Rattle.inf_tables.specs.World.{IsWorld, WorldOf};

    ghost Value = { WorldOf };

    ghost view = { λ w. record {
      attributes = w.attributes;
      declared = w.declared.items;
      individuals = w.individuals;
      objects = w.objects.items;
      is_open = w.is_open;
      body = w.body;
    } };

    ghost invariant = { λ w. IsWorld w.limits (record {
      attributes = w.attributes;
      declared = w.declared.items;
      individuals = w.individuals;
      objects = w.objects.items;
      is_open = w.is_open;
      body = w.body;
    }) w.latest.items w.bytes w.fixups
        × (w.limits.objects ≡ B.most setting.Objects) × (w.limits.property_bytes ≡ B.most setting.PropertyTables) };
}

impl<B: Bounds> World<B> {
    /// Returns a world with the first four objects. It takes no memory.
    pub fn new(alloc: Global, limits: Limits) -> World<B>
        requires objects { limits.objects ≡ B.most setting.Objects }
        requires bytes { limits.property_bytes ≡ B.most setting.PropertyTables }
        ensures { result ≡ no_world }
    {
        World {
            alloc,
            limits,
            attributes: 0,
            declared: Vec::new(alloc),
            individuals: 0,
            objects: Vec::new(alloc),
            is_open: false,
            body: Body::new(alloc),
            latest: Vec::new(alloc),
            bytes: SYSTEM_BYTES,
            fixups: SYSTEM_OBJECTS,
            of: PhantomData,
        }
    }

    // Functions for declarations

    /// Returns the number of attributes that were declared, which is also the number of the next one.
    pub fn attribute_count(&self) -> usize
        ensures { result ≡ self.now.attributes }
    {
        self.attributes
    }

    /// Returns the number of properties that were declared.
    pub fn property_count(&self) -> usize
        ensures { result ≡ length self.now.declared }
    {
        self.declared.len()
    }

    /// Declares an attribute and returns its number. Refuses the 49th.
    pub fn declare_attribute(&mut self) -> Result<usize, WorldFault>
        ensures ok { OnOk result (self.new ≡ with_attribute self.old) }
        ensures number { IfOk result (λ number. number ≡ self.old.attributes) }
        ensures err { OnErr result (self.new ≡ self.old) }
        ensures fault { let fault = attribute_fault self.old in MatchResult result (λ _. fault ≡ None) (λ refused. fault ≡ Some refused) }
    {
        if self.attributes >= ATTRIBUTES {
            return Err(WorldFault::Limit(Limit::Attributes));
        }
        self.attributes += 1;
        Ok(self.attributes - 1)
    }

    /// Declares a property with `default`, its value for objects that do not give it, and returns its number.
    ///
    /// Refuses the 61st, then where no memory is left.
    pub fn declare_property(
        &mut self,
        is_additive: bool,
        default: Value,
    ) -> Result<usize, WorldFault>
        ensures ok { OnOk result (self.new ≡ with_property is_additive default self.old) }
        ensures number { IfOk result (λ number. number ≡ 4 + length self.old.declared) }
        ensures err { OnErr result (self.new ≡ self.old) }
        ensures fault { let fault = property_fault self.old in
            MatchResult result (λ _. fault ≡ None) (λ refused. refused ≡ unwrap_or fault Memory) }
    {
        let count = self.declared.len();
        if count >= MOST_PROPERTIES {
            return Err(WorldFault::Limit(Limit::Properties));
        }
        self.declared.push(DeclaredProperty {
            is_additive,
            default,
        })?;
        Ok(FIRST_DECLARED + count)
    }

    /// Declares an individual property and returns its number. Refuses one more than numbers of 32 bits can count.
    pub fn declare_individual(&mut self) -> Result<usize, WorldFault>
        ensures ok { OnOk result (self.new ≡ with_individual self.old) }
        ensures number { IfOk result (λ number. number ≡ 64 + self.old.individuals) }
        ensures err { OnErr result (self.new ≡ self.old) }
        ensures fault { let fault = individual_fault self.old in MatchResult result (λ _. fault ≡ None) (λ refused. fault ≡ Some refused) }
    {
        let number = FIRST_INDIVIDUAL + self.individuals as usize;
        if self.individuals == u32::MAX {
            return Err(WorldFault::Limit(Limit::IndividualProperties));
        }
        self.individuals += 1;
        Ok(number)
    }

    // Functions for headers

    /// Begins a class with the short name `name`, whose body follows, and returns its number.
    ///
    /// Refuses it inside of a body, then where there would be more objects or bytes than there may be.
    pub fn begin_class(&mut self, name: ShortName) -> Result<usize, WorldFault>
        ensures ok { OnOk result (self.new ≡ with_class_header name self.old) }
        ensures number { IfOk result (λ number. number ≡ 5 + length self.old.objects) }
        ensures err { OnErr result (self.new ≡ self.old) }
        ensures fault { let fault = class_header_fault B.most name self.old in
            MatchResult result (λ _. fault ≡ None) (λ refused. fault ≡ Some refused) }
    {
        if self.is_open {
            return Err(WorldFault::Misfit(Misfit::BodyIsOpen));
        }
        self.begin(Owner::Class, CLASS, 0, name)
    }

    /// Begins an object with the short name `name`, whose body follows, and returns its number.
    ///
    /// Refuses it inside of a body, where its parent is no object or is a class, or where no object has one arrow less, then where
    /// there would be more objects or bytes than there may be.
    pub fn begin_object(&mut self, parent: Parent, name: ShortName) -> Result<usize, WorldFault>
        ensures ok { OnOk result (self.new ≡ with_object_header parent name self.old) }
        ensures number { IfOk result (λ number. number ≡ 5 + length self.old.objects) }
        ensures err { OnErr result (self.new ≡ self.old) }
        ensures fault { let fault = object_header_fault B.most parent name self.old in
            MatchResult result (λ _. fault ≡ None) (λ refused. fault ≡ Some refused) }
    {
        if self.is_open {
            return Err(WorldFault::Misfit(Misfit::BodyIsOpen));
        }
        match self.parent_number(parent) {
            Ok(number) => self.begin(Owner::Object, number, parent.arrows(), name),
            Err(misfit) => Err(WorldFault::Misfit(misfit)),
        }
    }

    /// Begins a body that belongs to nothing, since its header was in error. Of what it gives, only properties that it gave already
    /// are refused. Refuses the body inside of another.
    pub fn begin_lost(&mut self) -> Result<(), WorldFault>
        ensures ok { OnOk result (self.new ≡ with_lost_header self.old) }
        ensures err { OnErr result (self.new ≡ self.old) }
        ensures fault { let fault = lost_header_fault self.old in MatchResult result (λ _. fault ≡ None) (λ refused. fault ≡ Some refused) }
    {
        if self.is_open {
            return Err(WorldFault::Misfit(Misfit::BodyIsOpen));
        }
        let name = ShortName::empty(self.alloc);
        self.body.begin(self.alloc, Owner::Nothing, 0, 0, name);
        self.is_open = true;
        Ok(())
    }

    // Returns the number of the latest object that has `arrows` arrows, if there is one.
    pub(crate) fn latest_with(&self, arrows: usize) -> Option<usize>
        ensures { result ≡ latest_with arrows self.now.objects }
    {
        self.latest.get(arrows).copied()
    }

    // Returns whether a number is that of an object, one of the first four among them, or 0.
    pub(crate) fn is_object(&self, number: usize) -> bool
        ensures { result ≡ is_object number self.now.objects }
    {
        if number <= SYSTEM_OBJECTS {
            return true;
        }
        match self.objects.get(number - SYSTEM_OBJECTS - 1) {
            Some(object) => object.owner != Owner::Class,
            None => false,
        }
    }

    // Begins a body that belongs to an object or a class and returns its number. Refuses it where there would be more objects or
    // bytes than there may be.
    fn begin(
        &mut self,
        owner: Owner,
        parent: usize,
        arrows: usize,
        name: ShortName,
    ) -> Result<usize, WorldFault>
        requires closed { self.old.is_open ≡ false }
        requires owner { is_lost owner ≡ false }
        requires parent { parent ≤ 4 + length self.old.objects }
        requires arrows { IsReached arrows self.old.objects }
        ensures ok { OnOk result (self.new ≡ with_body (begun owner parent arrows name) self.old) }
        ensures number { IfOk result (λ number. number ≡ 5 + length self.old.objects) }
        ensures err { OnErr result (self.new ≡ self.old) }
        ensures fault { let fault = full_fault B.most (with_body (begun owner parent arrows name) self.old) in
            MatchResult result (λ _. fault ≡ None) (λ refused. fault ≡ Some refused) }
    {
        let number = SYSTEM_OBJECTS + self.objects.len() + 1;
        if number > self.limits.objects as usize {
            return Err(WorldFault::Full(WorldSetting::Objects));
        }
        if self.bytes + 2 + name.as_slice().len() > self.limits.property_bytes as usize {
            return Err(WorldFault::Full(WorldSetting::PropertyTables));
        }
        self.body.begin(self.alloc, owner, parent, arrows, name);
        self.is_open = true;
        Ok(number)
    }

    // Functions for bodies

    /// Returns whether the open body gave the property `number`.
    pub fn is_given(&self, number: usize) -> bool
        ensures { result ≡ has number self.now.body.properties.own }
    {
        self.body.properties.is_given(number)
    }

    /// Gives the property `number` in the open body, with its first value `first` if it has one.
    ///
    /// Refuses it outside of a body; a number that is no property's, and a property that the body gave already; one that would have
    /// more than 32 values with those of additive classes; then one for which there is no room, then where no memory is left.
    pub fn give_property(&mut self, number: usize, first: Option<Value>) -> Result<(), WorldFault>
        ensures ok { OnOk result (self.new ≡ with_given_property number first self.old) }
        ensures err { OnErr result (self.new ≡ self.old) }
        ensures fault { let fault = given_property_fault B.most number first self.old in
            MatchResult result (λ _. fault ≡ None) (λ refused. refused ≡ unwrap_or fault Memory) }
    {
        if !self.is_open {
            return Err(WorldFault::Misfit(Misfit::NoBody));
        }
        let Some(is_additive) = self.kind_of(number) else {
            return Err(WorldFault::Misfit(Misfit::NotAProperty));
        };
        if self.body.properties.owner() == Owner::Nothing {
            self.give_lost(number)
        } else {
            self.give(number, is_additive, first)
        }
    }

    /// Adds the value `value` to the property that was given last. Behind a property that was in error, and in a body that belongs
    /// to nothing, it adds nothing.
    ///
    /// Refuses the value outside of a body, where the property would have more than 32, where there is no room, and where no memory
    /// is left.
    pub fn add_value(&mut self, value: Value) -> Result<(), WorldFault>
        ensures ok { OnOk result (self.new ≡ with_further_value value self.old) }
        ensures err { OnErr result (self.new ≡ self.old) }
        ensures fault { let fault = further_value_fault B.most value self.old in
            MatchResult result (λ _. fault ≡ None) (λ refused. refused ≡ unwrap_or fault Memory) }
        ensures memory { IfErr result (λ refused. refused ≡ Memory → self.old.body.properties.takes_values ≡ true) }
    {
        if !self.is_open {
            return Err(WorldFault::Misfit(Misfit::NoBody));
        }
        let room = self.room();
        self.body.properties.add_value(value, room)?;
        Ok(())
    }

    /// Returns the fault for which `give_property` would refuse the property, whatever memory there is.
    pub fn give_fault(&self, number: usize, first: Option<Value>) -> Option<WorldFault>
        ensures { result ≡ given_property_fault B.most number first self.now }
    {
        if !self.is_open {
            return Some(WorldFault::Misfit(Misfit::NoBody));
        }
        let Some(is_additive) = self.kind_of(number) else {
            return Some(WorldFault::Misfit(Misfit::NotAProperty));
        };
        let properties = &self.body.properties;
        if properties.owner() == Owner::Nothing {
            told_fault(properties.give_fault(number, false, None, LOST_ROOM))
        } else {
            told_fault(properties.give_fault(number, is_additive, first, self.room()))
        }
    }

    /// Returns the fault for which `add_value` would refuse the value, whatever memory there is.
    pub fn value_fault(&self, value: Value) -> Option<WorldFault>
        ensures { result ≡ further_value_fault B.most value self.now }
    {
        if !self.is_open {
            return Some(WorldFault::Misfit(Misfit::NoBody));
        }
        told_fault(self.body.properties.value_fault(value, self.room()))
    }

    /// Notes that a property was in error: further values give nothing, up to the next property.
    pub fn lose_property(&mut self)
        ensures { self.new ≡ with_lost_property self.old }
    {
        self.body.properties.lose();
    }

    /// Gives the attribute `number` in the open body, or takes it away where `is_given` is false. Refuses it outside of a body, and
    /// a number over 47.
    pub fn set_attribute(&mut self, number: usize, is_given: bool) -> Result<(), WorldFault>
        ensures ok { OnOk result (self.new ≡ with_set_attribute number is_given self.old) }
        ensures err { OnErr result (self.new ≡ self.old) }
        ensures fault { let fault = set_attribute_fault number self.old in
            MatchResult result (λ _. fault ≡ None) (λ refused. fault ≡ Some refused) }
    {
        if !self.is_open {
            return Err(WorldFault::Misfit(Misfit::NoBody));
        }
        if number >= ATTRIBUTES {
            return Err(WorldFault::Misfit(Misfit::NotAnAttribute));
        }
        self.body.set_attribute(number, is_given);
        Ok(())
    }

    /// Gives the open body the class `number`. A class that the body has already, by name or by inheritance, is passed over, as
    /// is the number 0.
    ///
    /// Refuses it outside of a body, and where the number is no class's; then where a property or the list of classes would have more than
    /// 32 values, then where there is no room. The lists are made before these last two are looked for, and memory may run out first.
    pub fn join_class(&mut self, number: usize) -> Result<(), WorldFault>
        ensures ok { OnOk result (self.new ≡ with_class_of number self.old) }
        ensures err { OnErr result (self.new ≡ self.old) }
        ensures fault { let fault = class_of_fault B.most number self.old in MatchResult result (λ _. fault ≡ None) (IsRefused fault) }
        ensures memory { IfErr result (λ refused. refused ≡ Memory → (self.old.is_open ≡ true)
            × IsSome (class_at number self.old.objects) × (is_passed number self.old.body ≡ false)) }
    {
        if !self.is_open {
            return Err(WorldFault::Misfit(Misfit::NoBody));
        }
        if number == 0 {
            return Ok(());
        }
        let Some(class) = class_of(&self.objects, number) else {
            return Err(WorldFault::Misfit(Misfit::NotAClass));
        };
        let room = Room {
            others: self.bytes,
            limit: self.limits.property_bytes,
        };
        self.body.name_class(self.alloc, number, class, room)?;
        Ok(())
    }

    /// Ends the open body, whose object is there from now on. Refuses it outside of a body. Where no memory is left the body stays open.
    pub fn end_body(&mut self) -> Result<(), WorldFault>
        ensures ok { OnOk result (self.new ≡ with_end self.old) }
        ensures err { OnErr result (self.new ≡ self.old) }
        ensures fault { let fault = no_body_fault self.old in
            MatchResult result (λ _. fault ≡ None) (λ refused. refused ≡ unwrap_or fault Memory) }
        ensures memory { IfErr result (λ refused. refused ≡ Memory → is_lost self.old.body.properties.owner ≡ false) }
    {
        if !self.is_open {
            return Err(WorldFault::Misfit(Misfit::NoBody));
        }
        if self.body.properties.owner() == Owner::Nothing {
            self.end_lost();
            return Ok(());
        }
        self.end()?;
        Ok(())
    }

    // Entries of a body, case by case

    // Returns the room for the properties of the open body, beside all else.
    fn room(&self) -> Room
        ensures { result ≡ room_of B.most self.now }
    {
        Room {
            others: self.bytes + self.body.head_bytes(),
            limit: self.limits.property_bytes,
        }
    }

    // Returns whether the property `number` is additive; `None` where the number is no property's.
    fn kind_of(&self, number: usize) -> Option<bool>
        ensures value { result ≡ kind_of number self.now }
        ensures free { IsSome result → is_reserved number ≡ false }
    {
        match number {
            0 => Some(false),
            NAME => Some(true),
            2 | 3 => None,
            _ if number < FIRST_INDIVIDUAL => self.declared_kind(number - FIRST_DECLARED),
            _ if number - FIRST_INDIVIDUAL < self.individuals as usize => Some(false),
            _ => None,
        }
    }

    // Returns whether the property at `place` among those that were declared is additive; `None` where none is there.
    fn declared_kind(&self, place: usize) -> Option<bool>
        ensures { result ≡ option_map (λ d. d.is_additive) (slice_get self.now.declared place) }
    {
        match self.declared.get(place) {
            Some(declared) => Some(declared.is_additive),
            None => None,
        }
    }

    // Gives the property `number` in a body that belongs to nothing.
    fn give_lost(&mut self, number: usize) -> Result<(), WorldFault>
        requires free { is_reserved number ≡ false }
        requires owner { self.old.body.properties.owner ≡ Owner.Nothing }
        ensures ok { OnOk result (self.new ≡ with_properties (lost_given number self.old.body.properties) self.old) }
        ensures err { OnErr result (self.new ≡ self.old) }
        ensures fault { let fault = lost_given_fault number self.old.body.properties in
            MatchResult result (λ _. fault ≡ None) (λ refused. refused ≡ unwrap_or (option_map given_fault fault) Memory) }
    {
        self.body.properties.give(number, false, None, LOST_ROOM)?;
        self.body.properties.lose();
        Ok(())
    }

    // Gives the property `number` in a body that belongs to an object or a class.
    fn give(
        &mut self,
        number: usize,
        is_additive: bool,
        first: Option<Value>,
    ) -> Result<(), WorldFault>
        requires { is_reserved number ≡ false }
        ensures ok { let p = given_first number is_additive first in
            OnOk result (self.new ≡ with_properties (with_given p self.old.body.properties) self.old) }
        ensures err { OnErr result (self.new ≡ self.old) }
        ensures fault { let fault = give_fault (given_first number is_additive first) (room_of B.most self.old) self.old.body.properties in
            MatchResult result (λ _. fault ≡ None) (λ refused. refused ≡ unwrap_or (option_map given_fault fault) Memory) }
    {
        let room = self.room();
        self.body.properties.give(number, is_additive, first, room)?;
        Ok(())
    }

    // Ends a body that belongs to nothing.
    fn end_lost(&mut self)
        requires { self.old.body.properties.owner ≡ Owner.Nothing }
        ensures { self.new ≡ with_end self.old }
    {
        self.body = Body::new(self.alloc);
        self.is_open = false;
    }

    // Ends a body that belongs to an object or a class.
    fn end(&mut self) -> Result<(), AllocError>
        requires { is_lost self.old.body.properties.owner ≡ false }
        ensures ok { OnOk result (self.new ≡ with_end self.old) }
        ensures err { OnErr result (self.new ≡ self.old) }
    {
        let (bytes, fixups) = (self.body.bytes(), self.body.fixups());
        self.objects.reserve(1)?;
        self.latest.reserve(1)?;
        let object = self.body.end(self.alloc)?;
        let number = SYSTEM_OBJECTS + self.objects.len() + 1;
        note_latest(&mut self.latest, &object, number);
        push_object(&mut self.objects, object);
        self.is_open = false;
        self.bytes += bytes;
        self.fixups += fixups;
        Ok(())
    }

    // Functions for parts of the world

    // Returns the allocator from which memory comes.
    pub(crate) fn alloc(&self) -> Global {
        self.alloc
    }

    // Returns the properties that were declared, from number 4 on.
    pub(crate) fn declared(&self) -> &[DeclaredProperty]
        ensures value { result.now ≡ self.now.declared }
        ensures few { length result.now ≤ 60 }
    {
        self.declared.as_slice()
    }

    // Returns the objects and classes whose bodies ended, from number 5 on.
    pub(crate) fn objects(&self) -> &[Object]
        ensures value { result.now ≡ self.now.objects }
        ensures hung { AreHung (4 + length result.now) result.now }
        ensures bytes { sum_by object_bytes result.now < 2 ^ 33 }
        ensures fixups { sum_by object_fixups result.now < 2 ^ 33 }
    {
        self.objects.as_slice()
    }

    // Functions for counts

    /// Returns the number of objects, the first four, classes and the object of the open body counted in. It is also the number of
    /// the last object.
    pub fn object_count(&self) -> usize
        ensures value { result ≡ object_count self.now }
        ensures limited { result ≤ max 4 (B.most setting.Objects) }
    {
        let count = SYSTEM_OBJECTS + self.objects.len();
        match self.body.properties.owner() {
            Owner::Object | Owner::Class => count + 1,
            Owner::Nothing => count,
        }
    }

    /// Returns the number of bytes of the property tables and individual tables, with two for each value that a class holds, as if
    /// the open body ended here. Beyond the 30 of the first four objects there are never more than there may be.
    pub fn property_bytes(&self) -> usize
        ensures value { result ≡ bytes_now self.now }
        ensures limited { result ≤ max 30 (B.most setting.PropertyTables) }
    {
        self.bytes + self.body.bytes()
    }

    /// Counts the numbers in the areas of the world that are known later, as if the open body ended here.
    pub fn fixups(&self) -> usize
        ensures { result ≡ fixups_now self.now }
    {
        self.fixups + self.body.fixups() + later_defaults(&self.declared)
    }
}
