//! Laws about tables, tree and attributes, on which an author and an interpreter may rely.
ghost use Rattle.std.specs.Prelude.{◌≡◌, ◌+◌, ◌-◌, ◌*◌, ◌<◌, ◌≤◌, ◌==◌, ℕ, List, Bool, ◌++◌, count_by, fold, length, map, slice_index_or};
ghost use Rattle.std.specs.Prelude.{slice_set, Some, if◌then◌else◌};
ghost use Rattle.inf_area.specs.declared.targets.Target.{Target};
ghost use Rattle.inf_properties.specs.Properties.{found};
ghost use Rattle.inf_objects.specs.{Attributes.attributes_by, Attributes.nothing_said, Reading.AreFallingBelow, Reading.filled};
ghost use Rattle.inf_objects.specs.{Reading.table_read, Reading.told, Tables.all_falling, Tables.rows_of, Tables.table_cells};
ghost use Rattle.inf_objects.specs.Tree.{AreRisingFrom, children_of, link_at, links_of, walked};

use crate::objects::Object;

/// Shows that an interpreter reads from the property table of an object, once each value that is known later is put in, the
/// object's properties with their values, in falling order of number: for each number the property that the object has of it. The
/// short name has an even number of bytes, and at most 255 words.
pub fn table_as_read(object: &Object, part: usize, words: usize)
    requires name { length object.now.name ≡ 2 * words }
    requires few { words < 256 }
    ensures read { (number_of : Target → ℕ) (rest : List ℕ) → table_read (filled number_of (table_cells part object.now) ++ rest)
        ≡ map (told number_of) (all_falling (rows_of part object.now)) }
    ensures falling { AreFallingBelow 64 (all_falling (rows_of part object.now)) }
    ensures same { (number : ℕ) → number < 64
        → found number (all_falling (rows_of part object.now)) ≡ found number (rows_of part object.now) }
{
    let _properties = object.properties.as_slice();
    let _classes = object.classes.as_slice();
}

/// Shows that an interpreter that goes by children and siblings finds below each object those objects whose parent it is, in
/// rising order of their numbers; and that an object is found once below its parent, and below no other.
pub fn tree_as_walked()
    ensures walked { (parents : List ℕ) (number : ℕ) → number < length parents
        → walked (length parents) (links_of parents) (link_at (links_of parents) number).child ≡ children_of (number + 1) parents }
    ensures rising { (parents : List ℕ) (parent : ℕ) → AreRisingFrom 1 (children_of parent parents) }
    ensures once { (parents : List ℕ) (number parent : ℕ) → number < length parents
        → count_by (λ child. child == number + 1) (children_of parent parents) ≡
        (if slice_index_or parents number 0 == parent then 1 else 0) }
{}

/// Shows that the attributes of an object are those of its classes together, changed by each `has` of its body, one after another.
pub fn attributes_in_order()
    ensures { (above : List Bool) (has : List (ℕ × Bool)) → length above ≡ 48
        → attributes_by above (fold (λ said h. slice_set said h.0 (Some h.1)) nothing_said has)
        ≡ fold (λ attributes h. slice_set attributes h.0 h.1) above has }
{}
