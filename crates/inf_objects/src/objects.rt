//! Objects and classes.
ghost use Rattle.std.specs.Prelude.{◌≡◌, ◌≤◌, ◌<◌, ◌^◌, ◌⊎◌, [], IfOk, IfErr, length};
ghost use Rattle.inf_objects.specs.Objects.{has_number, joined_classes};
ghost use Rattle.inf_properties.specs.declared.open.GiveFault.TheVariants.{Memory, TooLong};

use inf_properties::{GiveFault, Owner, Properties};
use std::alloc::{AllocError, Global};
use std::marker::Model;

/// The most classes of an object: their list is a property like any other (Z-Machine Standard 1.1, section 12.4.2.1).
const MOST_CLASSES: usize = 32;

/// The short name of an object, as a text that is packed (Z-Machine Standard 1.1, section 3).
#[derive(Drop)]
pub struct ShortName {
    bytes: Vec<u8>,
}

impl Model for ShortName {
    ghost use Rattle.std.specs.Prelude.{List, ℕ};

    ghost Value = { List ℕ };

    ghost view = { λ name. name.bytes.items };
}

impl ShortName {
    /// Returns the short name with the bytes of a packed text.
    pub fn new(bytes: Vec<u8>) -> ShortName
        ensures { result ≡ bytes.items }
    {
        ShortName { bytes }
    }

    /// Returns the name of no bytes, which takes no memory.
    pub fn empty(alloc: Global) -> ShortName
        ensures { result ≡ [] }
    {
        ShortName {
            bytes: Vec::new(alloc),
        }
    }

    /// Returns the bytes of the name.
    pub fn as_slice(&self) -> &[u8]
        ensures value { result.now ≡ self.now }
        ensures small { length result.now < 2 ^ 63 }
    {
        self.bytes.as_slice()
    }
}

/// The numbers of the classes of an object, in order, at most 32.
#[derive(Drop)]
pub struct ClassNumbers {
    list: Vec<usize>,
}

impl Model for ClassNumbers {
    ghost use Rattle.std.specs.Prelude.{◌≤◌, List, ℕ, length};

    ghost Value = { List ℕ };

    ghost view = { λ numbers. numbers.list.items };

    ghost invariant = { λ numbers. length numbers.list.items ≤ 32 };
}

/// Returns whether `number` is among `numbers`.
fn has_number(numbers: &[usize], number: usize) -> bool
    ensures { result ≡ has_number number numbers.now }
{
    for other in numbers {
        if *other == number {
            return true;
        }
    }
    false
}

impl ClassNumbers {
    /// Returns the list of no classes, which takes no memory.
    pub fn new(alloc: Global) -> ClassNumbers
        ensures { result ≡ [] }
    {
        ClassNumbers {
            list: Vec::new(alloc),
        }
    }

    /// Returns the numbers of the classes, in order.
    pub fn as_slice(&self) -> &[usize]
        ensures value { result.now ≡ self.now }
        ensures few { length result.now ≤ 32 }
    {
        self.list.as_slice()
    }

    /// Returns whether class `number` is in the list.
    pub fn has(&self, number: usize) -> bool
        ensures { result ≡ has_number number self.now }
    {
        has_number(&self.list, number)
    }

    /// Returns these classes, then class `number`, then those of its `classes` that are not in the list yet. The list is made
    /// first, which may fail for want of memory; then it is refused as too long where it has more than 32 classes.
    pub(crate) fn joined(
        &self,
        alloc: Global,
        number: usize,
        classes: &ClassNumbers,
    ) -> Result<ClassNumbers, GiveFault>
        ensures ok { IfOk result (λ all. all ≡ joined_classes self.now number classes.now) }
        ensures fault { IfErr result (λ fault. (fault ≡ Memory) ⊎ ((fault ≡ TooLong) ×
            (32 < length (joined_classes self.now number classes.now)))) }
    {
        let mut list = Vec::from_slice(alloc, self.as_slice())?;
        list.push(number)?;
        for class in classes.as_slice() {
            if *class != number && !self.has(*class) {
                list.push(*class)?;
            }
        }
        if list.len() > MOST_CLASSES {
            return Err(GiveFault::TooLong);
        }
        Ok(ClassNumbers { list })
    }
}

/// An object or a class of the source, once its body has ended.
#[derive(Drop)]
pub struct Object {
    /// The kind of thing that it is: an object or a class.
    pub owner: Owner,
    /// The number of the parent; 0 where there is none.
    pub parent: usize,
    /// The number of arrows in the header, by which it says where the object hangs in the tree.
    pub arrows: usize,
    /// Whether the object has each of the 48 attributes.
    pub attributes: [bool; 48],
    pub name: ShortName,
    pub classes: ClassNumbers,
    pub properties: Properties,
}
