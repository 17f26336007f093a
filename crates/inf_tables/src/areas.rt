//! The areas of a world, as cells (Z-Machine Standard 1.1, section 12).
ghost use Rattle.std.specs.Prelude.{◌≡◌, ◌+◌, ◌<◌, ◌≤◌, ◌^◌, ◌++◌, ◌∷◌, [], IfOk, OnOk, length, map, replicate};
ghost use Rattle.inf_area.specs.{Cells.values_cells, Cells.word_cells, declared.targets.Value.TheVariants.Known};
ghost use Rattle.inf_objects.specs.{Tables.class_values, Tree.link_at};
ghost use Rattle.inf_tables.specs.Areas.{all_defaults, all_objects, bare_cells, class_numbers_by, class_numbers_from, entries_by};
ghost use Rattle.inf_tables.specs.Areas.{entry_cells, first_objects, individual_tables, object_by, objects_from, parents_of, tables_from};
ghost use Rattle.inf_tables.specs.World.{AreHung};

use crate::kinds::DeclaredProperty;
use crate::numbers::SYSTEM_OBJECTS;
use inf_area::{AreaName, Cells, Target, Value};
use inf_objects::{Link, Object, add_attributes, add_individual_table, add_name, add_table, links};
use inf_properties::{Owner, PropertyIndex};
use std::alloc::{AllocError, Global};

/// The most properties that can be declared.
const DECLARED: usize = 60;

/// Number of properties before those that can be declared.
const SYSTEM: usize = 3;

/// No attributes.
const NO_ATTRIBUTES: [bool; 48] = [false; 48];

// Functions for property defaults

/// Appends `count` zeros to `cells`.
fn add_zeros(alloc: Global, cells: &mut Cells, count: usize) -> Result<(), AllocError>
    ensures { OnOk result (cells.new ≡ cells.old ++ values_cells (replicate count (Known 0))) }
{
    let zeros = vec![in alloc; Value::Known(0); count]?;
    cells.values(&zeros)
}

/// Appends the defaults of the properties `declared` to `cells`.
fn add_defaults(cells: &mut Cells, declared: &[DeclaredProperty]) -> Result<(), AllocError>
    ensures { OnOk result (cells.new ≡ cells.old ++ values_cells (map (λ d. d.default) declared.now)) }
{
    for property in declared {
        cells.value(property.default)?;
    }
    Ok(())
}

/// Returns the cells of the property defaults: 63 words.
#[tactic(auto, using(crate::proofs::Joining::defaults_joined))]
pub(crate) fn default_cells(
    alloc: Global,
    declared: &[DeclaredProperty],
) -> Result<Cells, AllocError>
    requires { length declared.now ≤ 60 }
    ensures { IfOk result (λ cells. cells ≡ values_cells (all_defaults declared.now)) }
{
    let mut cells = Cells::new(alloc);
    add_zeros(alloc, &mut cells, SYSTEM)?;
    add_defaults(&mut cells, declared)?;
    add_zeros(alloc, &mut cells, DECLARED - declared.len())?;
    Ok(cells)
}

// Functions for objects

/// Returns the parents of all objects, the first four objects before those of the source.
#[tactic(auto, using(crate::proofs::Joining::first_parents))]
fn parents_of(alloc: Global, objects: &[Object]) -> Result<Vec<usize>, AllocError>
    ensures { IfOk result (λ parents. parents.items ≡ parents_of (all_objects objects.now)) }
{
    let mut parents = vec![in alloc; 0; SYSTEM_OBJECTS]?;
    for object in objects {
        parents.push(object.parent)?;
    }
    Ok(parents)
}

/// Appends an object's entry to `cells`. The object's number is one more than `part`.
fn add_entry(
    cells: &mut Cells,
    attributes: &[bool; 48],
    parent: usize,
    links: &[Link],
    part: usize,
) -> Result<(), AllocError>
    requires { part < length links.now }
    ensures { OnOk result (cells.new ≡ cells.old
        ++ entry_cells attributes.now parent (link_at links.now part).sibling (link_at links.now part).child part) }
{
    let link = links[part];
    add_attributes(cells, attributes)?;
    cells.word((parent % 65536) as u16)?;
    cells.word((link.sibling % 65536) as u16)?;
    cells.word((link.child % 65536) as u16)?;
    cells.later(Target::Part(AreaName::PropertyTables, part))
}

/// Appends the entries of the first four objects to `cells`.
fn add_first_entries(cells: &mut Cells, links: &[Link]) -> Result<(), AllocError>
    requires { 4 ≤ length links.now }
    ensures { OnOk result (cells.new ≡ cells.old ++ entries_by links.now 0 first_objects) }
{
    add_entry(cells, &NO_ATTRIBUTES, 0, links, 0)?;
    add_entry(cells, &NO_ATTRIBUTES, 0, links, 1)?;
    add_entry(cells, &NO_ATTRIBUTES, 0, links, 2)?;
    add_entry(cells, &NO_ATTRIBUTES, 0, links, 3)
}

/// Appends the entry of `object`, an object of the source, to `cells`. The object's number is one more than `part`.
#[tactic(auto, unfolding(inf_objects::specs::Attributes::no_attributes))]
fn add_object(
    cells: &mut Cells,
    links: &[Link],
    part: usize,
    object: &Object,
) -> Result<(), AllocError>
    requires { part < length links.now }
    ensures { OnOk result (cells.new ≡ cells.old ++ object_by links.now part object.now) }
{
    match object.owner {
        Owner::Object => add_entry(cells, &object.attributes, object.parent, links, part),
        Owner::Class | Owner::Nothing => {
            add_entry(cells, &NO_ATTRIBUTES, object.parent, links, part)
        }
    }
}

/// Appends the entries of the objects of the source to `cells`.
fn add_objects(cells: &mut Cells, links: &[Link], objects: &[Object]) -> Result<(), AllocError>
    requires { length links.now ≡ 4 + length objects.now }
    ensures { OnOk result (cells.new ≡ cells.old ++ entries_by links.now 4 objects.now) }
{
    for (place, object) in objects.iter().enumerate() {
        add_object(cells, links, SYSTEM_OBJECTS + place, object)?;
    }
    Ok(())
}

/// Returns the cells of the entries of all objects.
#[tactic(auto, using(crate::proofs::Joining::enough_links, crate::proofs::Joining::hung_links, crate::proofs::Joining::all_written))]
pub(crate) fn object_cells(alloc: Global, objects: &[Object]) -> Result<Cells, AllocError>
    requires { AreHung (4 + length objects.now) objects.now }
    ensures { IfOk result (λ cells. cells ≡ objects_from (parents_of (all_objects objects.now)) 0 (all_objects objects.now)) }
{
    let parents = parents_of(alloc, objects)?;
    let links = links(alloc, &parents)?;
    let mut cells = Cells::new(alloc);
    add_first_entries(&mut cells, &links)?;
    add_objects(&mut cells, &links, objects)?;
    Ok(cells)
}

// Functions for property tables

/// Appends a property table that has the short name `name` alone to `cells`.
fn add_bare_table(cells: &mut Cells, name: &[u8]) -> Result<(), AllocError>
    ensures { OnOk result (cells.new ≡ cells.old ++ bare_cells name.now) }
{
    add_name(cells, name)?;
    cells.byte(0)
}

/// Returns the cells of the property tables of the first four objects: `Class`, `Object`, `Routine` and `String`.
#[tactic(auto, using(crate::proofs::Joining::first_tables))]
fn first_table_cells(alloc: Global) -> Result<Cells, AllocError>
    ensures { IfOk result (λ cells. cells ≡ tables_from 0 first_objects) }
{
    let mut cells = Cells::new(alloc);
    add_bare_table(&mut cells, &[0x11, 0x11, 0x9B, 0x18])?;
    add_bare_table(&mut cells, &[0x12, 0x87, 0x3D, 0x48, 0xE4, 0xA5])?;
    add_bare_table(&mut cells, &[0x12, 0xF4, 0x6B, 0x2E, 0xCD, 0x45])?;
    add_bare_table(&mut cells, &[0x13, 0x19, 0x5D, 0xD3, 0xB0, 0xA5])?;
    Ok(cells)
}

/// Appends the property tables of the objects of the source to `cells`.
fn add_tables(alloc: Global, cells: &mut Cells, objects: &[Object]) -> Result<(), AllocError>
    ensures { OnOk result (cells.new ≡ cells.old ++ tables_from 4 objects.now) }
{
    let mut index = PropertyIndex::new(alloc);
    for (place, object) in objects.iter().enumerate() {
        add_table(cells, &mut index, SYSTEM_OBJECTS + place, object)?;
    }
    Ok(())
}

/// Returns the cells of the property tables of all objects.
#[tactic(auto, using(crate::proofs::Joining::all_tables))]
pub(crate) fn table_cells(alloc: Global, objects: &[Object]) -> Result<Cells, AllocError>
    ensures { IfOk result (λ cells. cells ≡ tables_from 0 (all_objects objects.now)) }
{
    let mut cells = first_table_cells(alloc)?;
    add_tables(alloc, &mut cells, objects)?;
    Ok(cells)
}

// Classes, and individual tables

/// Appends `number` to `cells` if `object`, whose number it is, is a class.
fn add_class(cells: &mut Cells, object: &Object, number: usize) -> Result<(), AllocError>
    ensures { OnOk result (cells.new ≡ cells.old ++ values_cells (class_values (class_numbers_by object.now.owner number))) }
{
    if object.owner != Owner::Class {
        return Ok(());
    }
    cells.word((number % 65536) as u16)
}

/// Returns the numbers of the classes, as cells.
fn class_number_cells(alloc: Global, objects: &[Object]) -> Result<Cells, AllocError>
    ensures { IfOk result (λ cells. cells ≡ values_cells (class_values (class_numbers_from 5 objects.now))) }
{
    let mut cells = Cells::new(alloc);
    for (place, object) in objects.iter().enumerate() {
        add_class(&mut cells, object, SYSTEM_OBJECTS + place + 1)?;
    }
    Ok(cells)
}

/// Returns the numbers of the classes and a 0, as cells.
#[tactic(auto, using(crate::proofs::Joining::all_classes))]
pub(crate) fn class_cells(alloc: Global, objects: &[Object]) -> Result<Cells, AllocError>
    ensures { IfOk result (λ cells. cells ≡ values_cells (class_values (class_numbers_from 1 (all_objects objects.now))) ++ word_cells 0) }
{
    let mut cells = class_number_cells(alloc, objects)?;
    cells.word(0)?;
    Ok(cells)
}

/// Returns the cells of the individual tables.
pub(crate) fn individual_cells(alloc: Global, objects: &[Object]) -> Result<Cells, AllocError>
    ensures { IfOk result (λ cells. cells ≡ individual_tables (all_objects objects.now)) }
{
    let mut cells = Cells::new(alloc);
    for object in objects {
        add_individual_table(&mut cells, object)?;
    }
    Ok(cells)
}
