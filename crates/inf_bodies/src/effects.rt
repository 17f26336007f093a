//! The effects of headers: classes and objects begin, with their names and classes.
ghost use Rattle.std.specs.Prelude.{IfOk, OnOk, option_map, ◌≡◌};
ghost use Rattle.inf_names.specs.Spellings.{as_name};
ghost use Rattle.inf_bodies.specs.Objects.{class_begun, class_declared, class_lost, class_refused, joined, joined_fault, joined_some};
ghost use Rattle.inf_bodies.specs.Objects.{lost_begun, noted, object_begun, object_declared, object_lost, object_named, object_refused};
ghost use Rattle.inf_bodies.specs.Objects.{setting_of};
ghost use Rattle.inf_tables.specs.World.{class_of_fault};

use inf_named_values::declarations::declare;
use inf_names::meanings::Meaning;
use inf_names::spellings::Name;
use inf_output::Output;
use inf_settings::bounds::Bounds;
use inf_settings::setting::Setting;
use inf_tables::{Parent, ShortName, WorldFault, WorldSetting};
use std::alloc::AllocError;

pub(crate) fn setting_of(setting: WorldSetting) -> Setting
    ensures { result ≡ setting_of setting }
{
    match setting {
        WorldSetting::Objects => Setting::Objects,
        WorldSetting::PropertyTables => Setting::PropertyTables,
    }
}

/// Opens a body that belongs to nothing, since something is wrong with its header.
fn begin_lost<B: Bounds>(out: &mut Output<B>) -> Result<(), AllocError>
    ensures { OnOk result (out.new ≡ lost_begun out.old) }
{
    match out.tables.world.begin_lost() {
        Ok(()) | Err(WorldFault::Limit(_) | WorldFault::Misfit(_) | WorldFault::Full(_)) => Ok(()),
        Err(WorldFault::Memory) => Err(AllocError),
    }
}

/// Passes the setting that `fault` would pass. The world's other refusals have no effect.
fn note<B: Bounds>(fault: WorldFault, out: &mut Output<B>) -> Result<(), AllocError>
    ensures { OnOk result (out.new ≡ noted B.most fault out.old) }
{
    match fault {
        WorldFault::Memory => Err(AllocError),
        WorldFault::Full(setting) => {
            out.pass_table(setting_of(setting));
            Ok(())
        }
        WorldFault::Limit(_) | WorldFault::Misfit(_) => Ok(()),
    }
}

/// Declares the name of class `number`.
fn declare_class<B: Bounds>(
    name: &Name,
    number: usize,
    out: &mut Output<B>,
) -> Result<(), AllocError>
    ensures { OnOk result (out.new ≡ class_declared B.most (as_name name.now) number out.old) }
{
    declare(name, Meaning::Class((number % 65536) as u16), out)
}

/// Declares the name of a class that there is not: it stands for none.
fn declare_no_class<B: Bounds>(name: &Name, out: &mut Output<B>) -> Result<(), AllocError>
    ensures { OnOk result (out.new ≡ class_declared B.most (as_name name.now) 0 out.old) }
{
    declare_class(name, 0, out)
}

/// Opens a body without a class, since something is wrong with its header: the name stands for no class.
pub(crate) fn lose_class<B: Bounds>(name: &Name, out: &mut Output<B>) -> Result<(), AllocError>
    ensures { OnOk result (out.new ≡ class_lost B.most (as_name name.now) out.old) }
{
    begin_lost(out)?;
    declare_no_class(name, out)
}

/// Declares the name of a class that the world refuses, and passes the setting that it would pass.
fn refuse_class<B: Bounds>(
    fault: WorldFault,
    name: &Name,
    out: &mut Output<B>,
) -> Result<(), AllocError>
    ensures { OnOk result (out.new ≡ class_refused B.most fault (as_name name.now) out.old) }
{
    note(fault, out)?;
    declare_no_class(name, out)
}

/// Opens a class with its name. Where it would pass a limit, its name stands for none.
pub(crate) fn begin_class<B: Bounds>(
    name: &Name,
    short: ShortName,
    out: &mut Output<B>,
) -> Result<(), AllocError>
    ensures { OnOk result (out.new ≡ class_begun B.most short (as_name name.now) out.old) }
{
    match out.tables.world.begin_class(short) {
        Ok(number) => declare_class(name, number, out),
        Err(fault) => refuse_class(fault, name, out),
    }
}

/// Declares the name of object `number`, if it has one.
fn declare_object<B: Bounds>(
    name: &Option<Name>,
    number: usize,
    out: &mut Output<B>,
) -> Result<(), AllocError>
    ensures { OnOk result (out.new ≡ object_declared B.most (option_map as_name name.now) number out.old) }
{
    match name {
        Some(name) => declare(name, Meaning::Object((number % 65536) as u16), out),
        None => Ok(()),
    }
}

/// Declares the name of an object that there is not, if it has one: it stands for none.
fn declare_no_object<B: Bounds>(name: &Option<Name>, out: &mut Output<B>) -> Result<(), AllocError>
    ensures { OnOk result (out.new ≡ object_declared B.most (option_map as_name name.now) 0 out.old) }
{
    declare_object(name, 0, out)
}

/// Opens a body without an object, since something is wrong with its header: the name stands for no object.
pub(crate) fn lose_object<B: Bounds>(
    name: &Option<Name>,
    out: &mut Output<B>,
) -> Result<(), AllocError>
    ensures { OnOk result (out.new ≡ object_lost B.most (option_map as_name name.now) out.old) }
{
    begin_lost(out)?;
    declare_no_object(name, out)
}

/// Makes the open body one of class `number`, and returns the fault by which the world refuses that, if it does.
fn join<B: Bounds>(number: usize, out: &mut Output<B>) -> Result<Option<WorldFault>, AllocError>
    ensures value { OnOk result (out.new ≡ joined B.most number out.old) }
    ensures fault { IfOk result (λ fault. fault ≡ class_of_fault B.most number out.old.tables.world) }
{
    match out.tables.world.join_class(number) {
        Ok(()) => Ok(None),
        Err(WorldFault::Memory) => Err(AllocError),
        Err(WorldFault::Full(setting)) => {
            out.pass_table(setting_of(setting));
            Ok(Some(WorldFault::Full(setting)))
        }
        Err(WorldFault::Limit(limit)) => Ok(Some(WorldFault::Limit(limit))),
        Err(WorldFault::Misfit(misfit)) => Ok(Some(WorldFault::Misfit(misfit))),
    }
}

/// Makes the open body one of class number `class`, and returns the fault by which the world refuses that, if it does.
/// Nothing happens where there is no such class.
pub(crate) fn join_some<B: Bounds>(
    class: Option<usize>,
    out: &mut Output<B>,
) -> Result<Option<WorldFault>, AllocError>
    ensures value { OnOk result (out.new ≡ joined_some B.most class out.old) }
    ensures fault { IfOk result (λ fault. fault ≡ joined_fault B.most class out.old) }
{
    match class {
        Some(number) => join(number, out),
        None => Ok(None),
    }
}

/// Finishes the header of object `number`: the object is of `class`, which its word names, and its `name` is declared.
fn name_object<B: Bounds>(
    class: Option<usize>,
    name: &Option<Name>,
    number: usize,
    out: &mut Output<B>,
) -> Result<(), AllocError>
    ensures { OnOk result (out.new ≡ object_named B.most class (option_map as_name name.now) number out.old) }
{
    join_some(class, out)?;
    declare_object(name, number, out)
}

/// Declares the name of an object that the world refuses, if it has one, and passes the setting that it would pass.
fn refuse_object<B: Bounds>(
    fault: WorldFault,
    name: &Option<Name>,
    out: &mut Output<B>,
) -> Result<(), AllocError>
    ensures { OnOk result (out.new ≡ object_refused B.most fault (option_map as_name name.now) out.old) }
{
    note(fault, out)?;
    declare_no_object(name, out)
}

/// Opens an object with its name. Where it would pass a limit, its name stands for none.
pub(crate) fn begin_object<B: Bounds>(
    parent: Parent,
    short: ShortName,
    class: Option<usize>,
    name: &Option<Name>,
    out: &mut Output<B>,
) -> Result<(), AllocError>
    ensures { OnOk result (out.new ≡ object_begun B.most parent short class (option_map as_name name.now) out.old) }
{
    match out.tables.world.begin_object(parent, short) {
        Ok(number) => name_object(class, name, number, out),
        Err(fault) => refuse_object(fault, name, out),
    }
}
