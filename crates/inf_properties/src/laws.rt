//! The property that an object has of each number.
ghost use Rattle.std.specs.Prelude.{◌≡◌, ℕ, List};
ghost use Rattle.inf_properties.specs.Properties.{found, found_or_above, inherited};
ghost use Rattle.inf_properties.specs.declared.values.Property.{Property};

/// Objects have of each number their own property, with the values of their classes behind its own if it is additive; where they
/// have none of their own, they have the property of their classes.
pub fn what_an_object_has()
    ensures { (own above : List Property) (number : ℕ)
        → found number (inherited own above) ≡ found_or_above number (found number own) above }
{}
