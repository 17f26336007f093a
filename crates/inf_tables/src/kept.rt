//! The objects that a world keeps, and how they are looked up.
ghost use Rattle.std.specs.Prelude.{◌≡◌, ◌<◌, ◌≤◌, ◌++◌, ◌∷◌, ℕ, [], None, Some, length, option_map, slice_get, vec_len, vec_capacity};
ghost use Rattle.std.specs.Prelude.{if◌then◌else◌};
ghost use Rattle.inf_tables.specs.{Objects.class_at, Objects.class_count, Objects.has_arrows, Objects.or_latest, World.later_defaults};

use crate::kinds::DeclaredProperty;
use crate::numbers::SYSTEM_OBJECTS;
use crate::world::World;
use inf_area::Value;
use inf_objects::Object;
use inf_properties::Owner;
use inf_settings::bounds::Bounds;

/// Returns the class with the number `number`; `None` where `number` is no class's.
pub(crate) fn class_of(objects: &[Object], number: usize) -> Option<&Object>
    ensures { option_map (λ o. o.now) result ≡ class_at number objects.now }
{
    if number <= SYSTEM_OBJECTS {
        return None;
    }
    match objects.get(number - SYSTEM_OBJECTS - 1) {
        Some(object) if object.owner == Owner::Class => Some(object),
        _ => None,
    }
}

/// Counts the properties whose defaults are known later.
pub(crate) fn later_defaults(declared: &[DeclaredProperty]) -> usize
    requires { length declared.now ≤ 60 }
    ensures value { result ≡ later_defaults declared.now }
    ensures few { result ≤ 60 }
{
    let mut count = 0;
    for property in declared {
        if matches!(property.default, Value::Later(_)) {
            count += 1;
        }
    }
    count
}

/// Appends `object` to `objects`, which have room for it.
pub(crate) fn push_object(objects: &mut Vec<Object>, object: Object)
    requires { vec_len objects.old < vec_capacity objects.old }
    ensures { objects.new.items ≡ objects.old.items ++ object ∷ [] }
{
    let _added = objects.push(object);
}

/// Notes in `latest` that `object`, whose number is `number`, is the latest object with its arrows; `latest` has room
/// for one more. A class is passed over.
pub(crate) fn note_latest(latest: &mut Vec<usize>, object: &Object, number: usize)
    requires room { vec_len latest.old < vec_capacity latest.old }
    requires arrows { object.now.arrows ≤ length latest.old.items }
    ensures latest { (arrows : ℕ) → slice_get latest.new.items arrows
        ≡ or_latest (if has_arrows arrows object.now then Some number else None) (slice_get latest.old.items arrows) }
    ensures longer { length latest.old.items ≤ length latest.new.items }
{
    if object.owner == Owner::Class {
        return;
    }
    if object.arrows < latest.len() {
        latest[object.arrows] = number;
    } else {
        let _added = latest.push(number);
    }
}

impl<B: Bounds> World<B> {
    /// Returns the number of classes that the class `number` has, by name or by inheritance: at most 32. The result is
    /// 0 where `number` is that of no class whose body ended.
    pub fn class_count(&self, number: usize) -> usize
        ensures { result ≡ class_count number self.now.objects }
    {
        match class_of(self.objects(), number) {
            Some(class) => class.classes.as_slice().len(),
            None => 0,
        }
    }
}
