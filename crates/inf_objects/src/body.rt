//! The part of an object or a class that was read so far.
ghost use Rattle.std.specs.Prelude.{◌≡◌, ◌+◌, ◌<◌, ◌≤◌, ◌^◌, IfOk, OnOk, OnErr, MatchResult, None, Some, false, length};
ghost use Rattle.inf_objects.specs.Objects.{begun, ended, head_bytes, is_passed, join_fault, list_bytes, nothing_read, object_bytes};
ghost use Rattle.inf_objects.specs.Objects.{object_fixups, with_named_class, with_said};
ghost use Rattle.inf_properties.specs.Open.{class_refused};

use crate::attributes::{attributes_by, join};
use crate::objects::{ClassNumbers, Object, ShortName};
use inf_properties::{GiveFault, OpenProperties, Owner, Room};
use std::alloc::{AllocError, Global};
use std::mem;

/// The part of an object or a class that was read so far, from its header on. Its properties hold the owner, that is whether this
/// is an object, a class, or nothing because its header was in error.
#[derive(Drop)]
pub struct Body {
    /// The number of the parent; 0 where there is none.
    pub parent: usize,
    /// The number of arrows in the header, by which it says where the object hangs in the tree.
    pub arrows: usize,
    pub name: ShortName,
    /// For each attribute, whether `has` gave it or took it away last; `None` where `has` said nothing of it.
    pub said: [Option<bool>; 48],
    /// The attributes of all its classes together.
    pub above: [bool; 48],
    /// The classes that the body named, each followed by those of its classes that were not in the list yet.
    pub classes: ClassNumbers,
    pub properties: OpenProperties,
}

pub(crate) fn list_bytes(count: usize) -> usize
    requires { count ≤ 32 }
    ensures value { result ≡ list_bytes count }
    ensures small { result ≤ 66 }
{
    match count {
        0 => 0,
        1 => 3,
        _ => 2 + 2 * count,
    }
}

fn head_bytes(owner: Owner, name: usize, classes: usize) -> usize
    requires name { name < 2 ^ 63 }
    requires classes { classes ≤ 32 }
    ensures value { result ≡ head_bytes owner name classes }
    ensures small { result < 2 ^ 63 + 68 }
{
    match owner {
        Owner::Object => 2 + name + list_bytes(classes),
        Owner::Class => 2 + name,
        Owner::Nothing => 0,
    }
}

impl Body {
    /// Returns the body where none is open: nothing was read. It takes no memory.
    #[tactic(auto, unfolding(crate::specs::Attributes::nothing_said, crate::specs::Attributes::no_attributes))]
    pub fn new(alloc: Global) -> Body
        ensures { result ≡ nothing_read }
    {
        Body {
            parent: 0,
            arrows: 0,
            name: ShortName::empty(alloc),
            said: [None; 48],
            above: [false; 48],
            classes: ClassNumbers::new(alloc),
            properties: OpenProperties::new(alloc),
        }
    }

    /// Begins a body behind its header, which says the owner, the number of the parent, the arrows and the short name.
    #[tactic(auto, unfolding(crate::specs::Attributes::nothing_said, crate::specs::Attributes::no_attributes))]
    pub fn begin(
        &mut self,
        alloc: Global,
        owner: Owner,
        parent: usize,
        arrows: usize,
        name: ShortName,
    )
        ensures { self.new ≡ begun owner parent arrows name }
    {
        self.parent = parent;
        self.arrows = arrows;
        self.name = name;
        self.said = [None; 48];
        self.above = [false; 48];
        self.classes = ClassNumbers::new(alloc);
        self.properties.open(owner);
    }

    /// Returns the number of bytes that the object would take beside its properties if the body ended here.
    pub fn head_bytes(&self) -> usize
        ensures value { result ≡ head_bytes self.now.properties.owner (length self.now.name) (length self.now.classes) }
        ensures small { result < 2 ^ 63 + 68 }
    {
        let (name, classes) = (self.name.as_slice().len(), self.classes.as_slice().len());
        head_bytes(self.properties.owner(), name, classes)
    }

    /// Returns the number of bytes that the object would take if the body ended here.
    pub fn bytes(&self) -> usize
        ensures value { result ≡ object_bytes (ended self.now) }
        ensures small { result < 2 ^ 63 + 2 ^ 34 }
    {
        self.head_bytes() + self.properties.size().bytes
    }

    /// Returns the number of values of the object that would be known only later if the body ended here.
    pub fn fixups(&self) -> usize
        ensures value { result ≡ object_fixups (ended self.now) }
        ensures small { result < 2 ^ 34 }
    {
        let head = match self.properties.owner() {
            Owner::Object | Owner::Class => 1,
            Owner::Nothing => 0,
        };
        head + self.properties.size().fixups
    }

    /// Notes that `has` gives attribute `number`, one of the 48, or takes it away.
    pub fn set_attribute(&mut self, number: usize, is_given: bool)
        requires { number < 48 }
        ensures { self.new ≡ with_said number is_given self.old }
    {
        self.said[number] = Some(is_given);
    }

    /// Adds the class with this `number`, which the body names. A class that the body has already is passed over, and a body that
    /// belongs to nothing takes none. `room` says how many bytes there may be, and how many are used outside of the body.
    ///
    /// The new lists are made first. Then the class is refused where the list of classes or a property would have more than 32
    /// values, and then where there is no room for it. Where it is refused the body stays as it was.
    pub fn name_class(
        &mut self,
        alloc: Global,
        number: usize,
        class: &Object,
        room: Room,
    ) -> Result<(), GiveFault>
        requires { room.others < 2 ^ 62 }
        ensures ok { OnOk result (self.new ≡ with_named_class number class.now self.old) }
        ensures err { OnErr result (self.new ≡ self.old) }
        ensures fault { let fault = join_fault number class.now room self.old in
            MatchResult result (λ _. fault ≡ None) (class_refused fault) }
        ensures passed { OnErr result (is_passed number self.old ≡ false) }
    {
        if self.properties.owner() == Owner::Nothing || self.classes.has(number) {
            return Ok(());
        }
        let classes = self.classes.joined(alloc, number, &class.classes)?;
        let (name, count) = (self.name.as_slice().len(), classes.as_slice().len());
        let head = head_bytes(self.properties.owner(), name, count);
        let others = Room {
            others: room.others + head,
            limit: room.limit,
        };
        self.properties.inherit(&class.properties, others)?;
        self.classes = classes;
        join(&mut self.above, &class.attributes);
        Ok(())
    }

    /// Ends the body and returns its object; then nothing is read. Where no memory is left the body stays as it was.
    pub fn end(&mut self, alloc: Global) -> Result<Object, AllocError>
        ensures object { IfOk result (λ object. object ≡ ended self.old) }
        ensures ok { OnOk result (self.new ≡ nothing_read) }
        ensures err { OnErr result (self.new ≡ self.old) }
    {
        let properties = self.properties.complete()?;
        let object = Object {
            owner: self.properties.owner(),
            parent: self.parent,
            arrows: self.arrows,
            attributes: attributes_by(&self.above, &self.said),
            name: mem::replace(&mut self.name, ShortName::empty(alloc)),
            classes: mem::replace(&mut self.classes, ClassNumbers::new(alloc)),
            properties,
        };
        self.begin(alloc, Owner::Nothing, 0, 0, ShortName::empty(alloc));
        Ok(object)
    }
}
