//! A property with its values.
ghost use Rattle.std.specs.Prelude.{◌≡◌, ◌+◌, ◌∷◌, ◌++◌, [], IfOk, OnOk, OnErr, length};

use inf_area::Value;
use std::alloc::{AllocError, Global};
use std::marker::Model;

/// The values of a property, in order.
#[derive(Drop)]
pub struct Values {
    list: Vec<Value>,
}

impl Model for Values {
    ghost use Rattle.std.specs.Prelude.{List};
    ghost use Rattle.inf_area.specs.declared.targets.Value as value;

    ghost Value = { List value.Value };

    ghost view = { λ values. values.list.items };
}

impl Values {
    /// Returns an empty list of values. It takes no memory until the first value comes.
    pub fn new(alloc: Global) -> Values
        ensures { result ≡ [] }
    {
        Values {
            list: Vec::new(alloc),
        }
    }

    /// Returns a copy of some values, or a refusal where no memory is left.
    pub fn from_slice(alloc: Global, values: &[Value]) -> Result<Values, AllocError>
        ensures { IfOk result (λ copy. copy ≡ values.now) }
    {
        Ok(Values {
            list: Vec::from_slice(alloc, values)?,
        })
    }

    /// Returns the values, in order.
    pub fn as_slice(&self) -> &[Value]
        ensures { result.now ≡ self.now }
    {
        self.list.as_slice()
    }

    /// Appends `value`. Where no memory is left the values stay as they were.
    pub fn push(&mut self, value: Value) -> Result<(), AllocError>
        ensures ok { OnOk result (self.new ≡ self.old ++ value ∷ []) }
        ensures err { OnErr result (self.new ≡ self.old) }
    {
        self.list.push(value)?;
        Ok(())
    }

    /// Appends `values`. Where no memory is left the values of this list stay as they were.
    pub fn append(&mut self, values: &[Value]) -> Result<(), AllocError>
        ensures ok { OnOk result (self.new ≡ self.old ++ values.now) }
        ensures err { OnErr result (self.new ≡ self.old) }
    {
        self.list.extend_from_slice(values)
    }
}

/// A property that an object or a class has, with its values there.
#[derive(Drop)]
pub struct Property {
    /// The property's number: 1 is `name`, 4 to 63 are declared, and individual properties number from 64.
    pub number: usize,
    /// Whether the values of classes come behind an object's own.
    pub is_additive: bool,
    pub values: Values,
}
