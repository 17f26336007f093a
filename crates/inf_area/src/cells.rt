//! Cells of a table, and the way they are put behind an area.
ghost use Rattle.std.specs.Prelude.{◌≡◌, ◌<◌, ◌≤◌, ◌+◌, ◌++◌, ◌∷◌, [], ◌^◌, IfOk, IfErr, OnErr, OnOk, length};
ghost use Rattle.inf_area.specs.Fixups.{with_fixups};
ghost use Rattle.inf_area.specs.Cells.{bytes_of, fixups_of, later_count, value_cells, values_cells, word_cells};
ghost use Rattle.inf_area.specs.declared.cells.WriteFault.TheVariants.{Full, Memory};

use crate::{Area, AreaName, Fixup, Refs, Target, Value, word_bytes};
use std::alloc::{AllocError, Global};
use std::marker::Model;

/// A part of a table.
#[derive(Clone, Copy)]
pub enum Cell {
    Byte(u8),
    /// Two bytes that are known when the story is laid out.
    Later(Target),
}

/// The reason why a table was not written.
#[derive(Clone, Copy)]
pub enum WriteFault {
    /// There would be more fixups than there may be.
    Full,
    /// No memory was left.
    Memory,
}

/// The cells of a table so far.
///
/// Each call adds cells at the end, or refuses where no memory was left.
#[derive(Drop)]
pub struct Cells {
    list: Vec<Cell>,
}

impl Model for Cells {
    ghost use Rattle.std.specs.Prelude.{List};
    ghost use Rattle.inf_area.specs.declared.cells.Cell.{Cell};

    ghost Value = { List Cell };

    ghost view = { λ cells. cells.list.items };
}

impl Cells {
    /// Makes an empty list of cells. It takes no memory until the first one comes.
    pub fn new(alloc: Global) -> Cells
        ensures { result ≡ [] }
    {
        Cells {
            list: Vec::new(alloc),
        }
    }

    /// Returns the cells, in order.
    pub fn as_slice(&self) -> &[Cell]
        ensures { result.now ≡ self.now }
    {
        self.list.as_slice()
    }

    /// Appends the cell of a byte.
    pub fn byte(&mut self, byte: u8) -> Result<(), AllocError>
        ensures { OnOk result (self.new ≡ self.old ++ Cell.Byte byte ∷ []) }
    {
        self.list.push(Cell::Byte(byte))?;
        Ok(())
    }

    /// Appends the cell of two bytes that are known when the story is laid out, from `target`.
    pub fn later(&mut self, target: Target) -> Result<(), AllocError>
        ensures { OnOk result (self.new ≡ self.old ++ Cell.Later target ∷ []) }
    {
        self.list.push(Cell::Later(target))?;
        Ok(())
    }

    /// Appends the cells of a number in two bytes, the high one first.
    pub fn word(&mut self, number: u16) -> Result<(), AllocError>
        ensures { OnOk result (self.new ≡ self.old ++ word_cells number) }
    {
        let [high, low] = word_bytes(number);
        self.byte(high)?;
        self.byte(low)
    }

    /// Appends the cells of a value in two bytes: known ones, or one that is known when the story is laid out.
    pub fn value(&mut self, value: Value) -> Result<(), AllocError>
        ensures { OnOk result (self.new ≡ self.old ++ value_cells value) }
    {
        match value {
            Value::Known(number) => self.word(number),
            Value::Later(target) => self.later(target),
        }
    }

    /// Appends the cells of values in two bytes each.
    pub fn values(&mut self, values: &[Value]) -> Result<(), AllocError>
        ensures { OnOk result (self.new ≡ self.old ++ values_cells values.now) }
    {
        for value in values {
            self.value(*value)?;
        }
        Ok(())
    }
}

/// The bytes and the fixups that some cells are laid out as.
#[derive(Drop)]
struct Laid {
    bytes: Vec<u8>,
    fixups: Vec<Fixup>,
}

impl Laid {
    /// Lays out one cell more, behind those that begin in `area` at the place `from`.
    fn add(&mut self, area: AreaName, from: usize, cell: Cell) -> Result<(), AllocError>
        requires from { from < 2 ^ 63 }
        ensures bytes { OnOk result (self.new.bytes.items ≡ self.old.bytes.items ++ bytes_of (cell ∷ [])) }
        ensures fixups { OnOk result (self.new.fixups.items
            ≡ self.old.fixups.items ++ fixups_of area (from + length self.old.bytes.items) (cell ∷ [])) }
    {
        match cell {
            Cell::Byte(byte) => {
                self.bytes.push(byte)?;
                Ok(())
            }
            Cell::Later(target) => {
                let place = from + self.bytes.len();
                self.fixups.push(Fixup {
                    area,
                    place,
                    target,
                })?;
                self.bytes.extend_from_slice(&[0, 0])?;
                Ok(())
            }
        }
    }
}

/// Lays out cells that begin in `area` at the place `from`.
fn lay(alloc: Global, area: AreaName, from: usize, cells: &[Cell]) -> Result<Laid, AllocError>
    requires from { from < 2 ^ 63 }
    ensures bytes { IfOk result (λ laid. laid.bytes.items ≡ bytes_of cells.now) }
    ensures fixups { IfOk result (λ laid. laid.fixups.items ≡ fixups_of area from cells.now) }
{
    let mut laid = Laid {
        bytes: Vec::new(alloc),
        fixups: Vec::new(alloc),
    };
    for cell in cells {
        laid.add(area, from, *cell)?;
    }
    Ok(laid)
}

fn later_count(cells: &[Cell]) -> usize
    ensures { result ≡ later_count cells.now }
{
    let mut count = 0;
    for cell in cells {
        if matches!(cell, Cell::Later(_)) {
            count += 1;
        }
    }
    count
}

/// Puts the cells of a table behind an area, which the story has under `name`, and their fixups behind others.
///
/// The first refusal is that there would be more fixups than there may be, the second that no memory is left; area and
/// fixups then stay as they were.
pub fn append_cells<A: Area>(
    alloc: Global,
    name: AreaName,
    area: &mut A,
    refs: &mut Refs,
    cells: &[Cell],
) -> Result<(), WriteFault>
    ensures bytes { OnOk result (A.bytes area.new ≡ A.bytes area.old ++ bytes_of cells.now) }
    ensures fixups { OnOk result (refs.new ≡ with_fixups (refs.old.list ++ fixups_of name (length (A.bytes area.old)) cells.now) refs.old) }
    ensures room { OnOk result (length refs.old.list + later_count cells.now ≤ refs.old.limit) }
    ensures bytes_stay { OnErr result (A.bytes area.new ≡ A.bytes area.old) }
    ensures fixups_stay { OnErr result (refs.new ≡ refs.old) }
    ensures full { IfErr result (λ fault. fault ≡ Full → refs.old.limit < length refs.old.list + later_count cells.now) }
    ensures memory { IfErr result (λ fault. fault ≡ Memory → length refs.old.list + later_count cells.now ≤ refs.old.limit) }
{
    if refs.limit() - refs.len() < later_count(cells) {
        return Err(WriteFault::Full);
    }
    if let Err(AllocError) = append_all(alloc, name, area, refs, cells) {
        return Err(WriteFault::Memory);
    }
    Ok(())
}

/// Puts cells behind an area and their fixups behind others, of which there is room for all. Refused, both stay as they were.
fn append_all<A: Area>(
    alloc: Global,
    name: AreaName,
    area: &mut A,
    refs: &mut Refs,
    cells: &[Cell],
) -> Result<(), AllocError>
    requires room { length refs.old.list + later_count cells.now ≤ refs.old.limit }
    ensures bytes { OnOk result (A.bytes area.new ≡ A.bytes area.old ++ bytes_of cells.now) }
    ensures fixups { OnOk result (refs.new ≡ with_fixups (refs.old.list ++ fixups_of name (length (A.bytes area.old)) cells.now) refs.old) }
    ensures bytes_stay { OnErr result (A.bytes area.new ≡ A.bytes area.old) }
    ensures fixups_stay { OnErr result (refs.new ≡ refs.old) }
{
    let laid = lay(alloc, name, area.len(), cells)?;
    let mark = refs.len();
    if refs.extend(&laid.fixups).is_err() {
        return Err(AllocError);
    }
    if let Err(fault) = area.append(&laid.bytes) {
        refs.keep(mark);
        return Err(fault);
    }
    Ok(())
}
