//! Property tables and individual tables, as cells.
ghost use Rattle.std.specs.Prelude.{◌≡◌, ◌+◌, ◌<◌, ◌≤◌, ◌++◌, OnOk, length, true};
ghost use Rattle.inf_area.specs.Cells.{values_cells};
ghost use Rattle.inf_properties.specs.{Places.AreAt, Properties.AreFree, Properties.found, Sizes.are_short};
ghost use Rattle.inf_objects.specs.Tables.{address_rows, all_falling, byte_cells, class_rows, class_values, falling, has_individual};
ghost use Rattle.inf_objects.specs.Tables.{individual_row_cells, individual_rows_cells, individual_table_cells, is_individual, name_cells};
ghost use Rattle.inf_objects.specs.Tables.{row_cells, rows_cells, rows_for, rows_of, shown, size_cells, table_cells};

use crate::objects::Object;
use inf_area::{AreaName, Cells, Target, Value};
use inf_properties::{Owner, Property, PropertyIndex};
use std::alloc::AllocError;

/// The first number of an individual property; declared properties have the numbers below it.
const FIRST_INDIVIDUAL: usize = 64;

/// The number of the property that lists an object's classes.
const CLASSES: usize = 2;

/// The number of the property that has the address of an object's individual table.
const ADDRESS: usize = 3;

/// Returns whether a property is individual.
pub(crate) fn is_individual(property: &Property) -> bool
    ensures { result ≡ is_individual property.now }
{
    property.number >= FIRST_INDIVIDUAL
}

/// Returns whether one of the properties is individual.
pub(crate) fn has_individual(properties: &[Property]) -> bool
    ensures { result ≡ has_individual properties.now }
{
    for property in properties {
        if is_individual(property) {
            return true;
        }
    }
    false
}

/// Appends bytes to `cells`.
fn add_bytes(cells: &mut Cells, bytes: &[u8]) -> Result<(), AllocError>
    ensures { OnOk result (cells.new ≡ cells.old ++ byte_cells bytes.now) }
{
    for byte in bytes {
        cells.byte(*byte)?;
    }
    Ok(())
}

/// Appends a short name to `cells`, with its length in words before it.
pub fn add_name(cells: &mut Cells, name: &[u8]) -> Result<(), AllocError>
    ensures { OnOk result (cells.new ≡ cells.old ++ name_cells name.now) }
{
    cells.byte((name.len() / 2 % 256) as u8)?;
    add_bytes(cells, name)
}

/// Appends the number of a property and the length of its `count` values to `cells`.
fn add_size(cells: &mut Cells, number: usize, count: usize) -> Result<(), AllocError>
    requires number { number < 64 }
    requires count { count ≤ 32 }
    ensures { OnOk result (cells.new ≡ cells.old ++ size_cells number count) }
{
    if count <= 1 {
        cells.byte((64 + number) as u8)
    } else {
        cells.byte((128 + number) as u8)?;
        cells.byte((128 + 2 * count % 64) as u8)
    }
}

/// Appends values to `cells`, or a single 0 where there are none.
fn add_values(cells: &mut Cells, values: &[Value]) -> Result<(), AllocError>
    ensures { OnOk result (cells.new ≡ cells.old ++ values_cells (shown values.now)) }
{
    if values.is_empty() {
        cells.value(Value::Known(0))
    } else {
        cells.values(values)
    }
}

/// Appends a declared property to `cells`.
fn add_property(cells: &mut Cells, property: &Property) -> Result<(), AllocError>
    requires number { property.now.number < 64 }
    requires count { length property.now.values ≤ 32 }
    ensures { OnOk result (cells.new ≡ cells.old ++ row_cells property.now) }
{
    let values = property.values.as_slice();
    add_size(cells, property.number, values.len())?;
    add_values(cells, values)
}

/// Appends numbers to `cells`, as values.
fn add_numbers(cells: &mut Cells, numbers: &[usize]) -> Result<(), AllocError>
    ensures { OnOk result (cells.new ≡ cells.old ++ values_cells (class_values numbers.now)) }
{
    for number in numbers {
        cells.word((*number % 65536) as u16)?;
    }
    Ok(())
}

/// Appends the list of classes to `cells`, if there are any.
fn add_classes(cells: &mut Cells, classes: &[usize]) -> Result<(), AllocError>
    requires { length classes.now ≤ 32 }
    ensures { OnOk result (cells.new ≡ cells.old ++ rows_cells (class_rows classes.now)) }
{
    if classes.is_empty() {
        return Ok(());
    }
    add_size(cells, CLASSES, classes.len())?;
    add_numbers(cells, classes)
}

/// Appends the address of an individual table to `cells`, if there are individual properties.
fn add_address(cells: &mut Cells, part: usize, properties: &[Property]) -> Result<(), AllocError>
    ensures { OnOk result (cells.new ≡ cells.old ++ rows_cells (address_rows part properties.now)) }
{
    if !has_individual(properties) {
        return Ok(());
    }
    add_size(cells, ADDRESS, 1)?;
    cells.later(Target::Part(AreaName::IndividualTables, part))
}

/// Appends to `cells` the property of `object` that has this `number`, if there is one.
fn add_row(
    cells: &mut Cells,
    index: &PropertyIndex,
    part: usize,
    object: &Object,
    number: usize,
) -> Result<(), AllocError>
    requires at { AreAt 0 index.now object.now.properties }
    requires number { number < 64 }
    ensures { OnOk result (cells.new ≡ cells.old ++ rows_cells (rows_for part object.now number)) }
{
    match number {
        CLASSES => add_classes(cells, object.classes.as_slice()),
        ADDRESS => add_address(cells, part, object.properties.as_slice()),
        _ => match index.find(&object.properties, number) {
            Some(property) => add_property(cells, property),
            None => Ok(()),
        },
    }
}

/// Appends to `cells` the properties of `object` with numbers below `count`, in falling order.
fn add_rows(
    cells: &mut Cells,
    index: &PropertyIndex,
    part: usize,
    object: &Object,
    count: usize,
) -> Result<(), AllocError>
    requires at { AreAt 0 index.now object.now.properties }
    requires count { count ≤ 64 }
    requires owner { object.now.owner ≡ Owner.Object }
    requires free { AreFree object.now.properties }
    ensures { OnOk result (cells.new ≡ cells.old ++ rows_cells (falling count (rows_of part object.now))) }
{
    let mut left = count;
    while left > 0 {
        left -= 1;
        add_row(cells, index, part, object, left)?;
    }
    Ok(())
}

/// Appends to `cells` all properties in the property table of an object; a class has none there.
#[tactic(auto, unfolding(crate::specs::Tables::all_falling))]
fn add_all_rows(
    cells: &mut Cells,
    index: &mut PropertyIndex,
    part: usize,
    object: &Object,
) -> Result<(), AllocError>
    ensures { OnOk result (cells.new ≡ cells.old ++ rows_cells (all_falling (rows_of part object.now))) }
{
    if object.owner != Owner::Object {
        return Ok(());
    }
    index.note(&object.properties)?;
    add_rows(cells, index, part, object, FIRST_INDIVIDUAL)
}

/// Appends to `cells` the property table of an object whose number is `part + 1`. For this `index` is made anew, for the object's
/// properties.
pub fn add_table(
    cells: &mut Cells,
    index: &mut PropertyIndex,
    part: usize,
    object: &Object,
) -> Result<(), AllocError>
    ensures { OnOk result (cells.new ≡ cells.old ++ table_cells part object.now) }
{
    add_name(cells, object.name.as_slice())?;
    add_all_rows(cells, index, part, object)?;
    cells.byte(0)
}

/// Appends an individual property to `cells`.
fn add_individual(cells: &mut Cells, property: &Property) -> Result<(), AllocError>
    ensures { OnOk result (cells.new ≡ cells.old ++ individual_row_cells property.now) }
{
    let values = property.values.as_slice();
    let count = if values.is_empty() { 1 } else { values.len() };
    cells.word((property.number % 65536) as u16)?;
    cells.byte((2 * count % 256) as u8)?;
    add_values(cells, values)
}

/// Appends those of `properties` to `cells` that are individual.
fn add_individuals(cells: &mut Cells, properties: &[Property]) -> Result<(), AllocError>
    ensures { OnOk result (cells.new ≡ cells.old ++ individual_rows_cells properties.now) }
{
    for property in properties {
        if is_individual(property) {
            add_individual(cells, property)?;
        }
    }
    Ok(())
}

/// Appends the individual table of an object to `cells`, if it has one.
pub fn add_individual_table(cells: &mut Cells, object: &Object) -> Result<(), AllocError>
    ensures { OnOk result (cells.new ≡ cells.old ++ individual_table_cells object.now) }
{
    let properties = object.properties.as_slice();
    if object.owner != Owner::Object || !has_individual(properties) {
        return Ok(());
    }
    add_individuals(cells, properties)?;
    cells.word(0)
}
