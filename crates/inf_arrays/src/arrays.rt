//! Arrays, entry by entry.
ghost use Rattle.std.specs.Prelude.{◌≡◌, ◌<◌, ◌≤◌, ◌+◌, ◌++◌, ◌∷◌, ◌^◌, [], None, Some, OnOk, OnErr, IfOk, IfErr, IfNone, IsSome};
ghost use Rattle.std.specs.Prelude.{MatchResult, is_some, length, map, option_map, option_to_list, replicate, unwrap_or};
ghost use Rattle.inf_area.specs.{Cells.bytes_of, Cells.fixups_of, Cells.later_count, Fixups.with_fixups};
ghost use Rattle.inf_area.specs.declared.{cells.WriteFault.WriteFault, targets.AreaName.AreaName, targets.Value.TheVariants.Known};
ghost use Rattle.inf_arrays.specs.{Adding.added, Listing.listed, declared.arrays.ArrayFault.TheVariants.Memory};
ghost use Rattle.inf_arrays.specs.Arrays.{HasRoom, added_fault, all_of, array_cells, arrays_cells, arrays_laters, arrays_size, characters};
ghost use Rattle.inf_arrays.specs.Arrays.{characters_fault, closed_one, entries_fault, fault_by, no_arrays, opened, open_fault, values_in};
ghost use Rattle.inf_arrays.specs.Arrays.{with_entries, zeros_fault};
ghost use Rattle.inf_arrays.specs.Kinds.{bytes_cells, count_cells, count_size, entries_cells, low_byte};
ghost use Rattle.inf_settings.specs.declared.setting.Setting.{Setting};

use crate::kinds::{ArrayKind, is_byte, misfit_by};
use inf_area::{Area, AreaName, Cells, Refs, Value, WriteFault, append_cells};
use inf_settings::bounds::Bounds;
use std::alloc::{AllocError, AllocFailed, Global};
use std::marker::{Model, PhantomData};

/// The reason why an array was not opened, or has no more entries.
#[derive(Clone, Copy, Debug)]
pub enum ArrayFault {
    /// A `string` array would have more than 255 entries.
    TooMany,
    /// An entry is to be a byte, and is not known or over 255.
    NotAByte,
    /// A size is 0.
    NoEntries,
    /// All arrays would have more bytes than there may be.
    Full,
    /// No memory was left.
    Memory,
}

impl From<AllocError> for ArrayFault {
    ghost from_gives = { λ _ fault. fault ≡ Memory };

    fn from(_error: AllocError) -> ArrayFault {
        ArrayFault::Memory
    }
}

/// The entries that one item of a source adds to its array.
#[derive(Clone, Copy)]
pub enum Entries<'a> {
    One(Value),
    /// The number of zeros that a number alone asks for.
    Zeros(u16),
    /// The characters of a text alone, in ZSCII.
    Characters(&'a [u8]),
}

/// An array, with the entries read so far.
#[derive(Drop)]
struct Array {
    kind: ArrayKind,
    entries: Vec<Value>,
}

/// The arrays of a story so far, of which the last may be open, and the most bytes of all.
#[derive(Drop)]
pub struct Arrays<B: Bounds> {
    alloc: Global,
    closed: Vec<Array>,
    growing: Option<Array>,
    // The bytes of all arrays, and the number of entries that are known later.
    size: usize,
    later: usize,
    limit: usize,
    of: PhantomData<B>,
    ghost is_most: { limit ≡ B.most Setting.Arrays },
}

impl<B: Bounds> Model for Arrays<B> {
    ghost use Rattle.std.specs.Prelude.{◌≡◌, ◌≤◌, map, option_map};
    ghost use Rattle.inf_arrays.specs.Arrays.{AllArrays, all_of, arrays_laters, arrays_size};

    ghost Value = { AllArrays };

    ghost use Rattle.inf_arrays.specs.Listing.{seen};

    ghost view = { λ a. seen a.closed.items a.growing };

    ghost invariant = { λ a. (a.size ≡ arrays_size (all_of (seen a.closed.items a.growing))) ×
        (a.later ≡ arrays_laters (all_of (seen a.closed.items a.growing))) × (a.later ≤ a.size) ×
        (a.size ≤ a.limit) };
}

/// Appends the cells of an array.
fn add_array(cells: &mut Cells, array: &Array) -> Result<(), AllocError>
    ensures { OnOk result (cells.new ≡ cells.old ++ array_cells (listed array.now)) }
{
    add_count(cells, array.kind, array.entries.len())?;
    add_entries(cells, array.kind, &array.entries)
}

/// Appends the cells of the count of an array's entries, where its kind has one. The count is written modulo the range of
/// its byte or two bytes.
fn add_count(cells: &mut Cells, kind: ArrayKind, count: usize) -> Result<(), AllocError>
    ensures { OnOk result (cells.new ≡ cells.old ++ count_cells kind count) }
{
    match kind {
        ArrayKind::Bytes | ArrayKind::Words => Ok(()),
        ArrayKind::String => cells.byte((count % 256) as u8),
        ArrayKind::Table => cells.word((count % 65536) as u16),
    }
}

/// Appends the cells of an array's entries.
fn add_entries(cells: &mut Cells, kind: ArrayKind, entries: &[Value]) -> Result<(), AllocError>
    ensures { OnOk result (cells.new ≡ cells.old ++ entries_cells kind entries.now) }
{
    match kind {
        ArrayKind::Bytes | ArrayKind::String => add_bytes(cells, entries),
        ArrayKind::Words | ArrayKind::Table => cells.values(entries),
    }
}

/// Appends values as bytes.
fn add_bytes(cells: &mut Cells, values: &[Value]) -> Result<(), AllocError>
    ensures { OnOk result (cells.new ≡ cells.old ++ bytes_cells values.now) }
{
    for value in values {
        cells.byte(low_byte(*value))?;
    }
    Ok(())
}

fn low_byte(value: Value) -> u8
    ensures { result ≡ low_byte value }
{
    match value {
        Value::Known(number) => (number % 256) as u8,
        Value::Later(_) => 0,
    }
}

impl<B: Bounds> Arrays<B> {
    /// Creates an empty list of arrays, of at most `limit` bytes together. It takes no memory until the second array is
    /// opened or the first entry comes.
    pub fn new(alloc: Global, limit: usize) -> Arrays<B>
        requires { limit ≡ B.most Setting.Arrays }
        ensures { result ≡ no_arrays }
    {
        Arrays {
            alloc,
            closed: Vec::new(alloc),
            growing: None,
            size: 0,
            later: 0,
            limit,
            of: PhantomData,
        }
    }

    /// Returns the number of bytes of all arrays, with the open one as if it ended here. It never passes the limit.
    pub fn size(&self) -> usize
        ensures value { result ≡ arrays_size (all_of self.now) }
        ensures limited { result ≤ B.most Setting.Arrays }
    {
        self.size
    }

    /// Returns the number of entries that are known later, which is the number of fixups that are written.
    pub fn later_count(&self) -> usize
        ensures { result ≡ arrays_laters (all_of self.now) }
    {
        self.later
    }

    /// Returns whether there is an open array.
    pub fn is_open(&self) -> bool
        ensures { result ≡ is_some self.now.open_one }
    {
        self.growing.is_some()
    }

    /// Opens an array behind the others. Returns the place where it begins: the number of bytes before it.
    ///
    /// The call is refused first where there would be more bytes than there may be, then, where an array is open, for want
    /// of memory; all arrays then stay unchanged.
    pub fn open(&mut self, kind: ArrayKind) -> Result<usize, ArrayFault>
        ensures ok { OnOk result (self.new ≡ opened kind self.old) }
        ensures place { IfOk result (λ place. place ≡ arrays_size (all_of self.old)) }
        ensures err { OnErr result (self.new ≡ self.old) }
        ensures fault { let fault = open_fault B.most kind self.old in
            MatchResult result (λ _. fault ≡ None) (λ refused. refused ≡ unwrap_or fault Memory) }
        ensures memory { IfErr result (λ refused. refused ≡ Memory → IsSome self.old.open_one) }
    {
        let place = self.size;
        if self.limit - place < kind.count_size() {
            return Err(ArrayFault::Full);
        }
        self.close()?;
        self.begin(kind);
        Ok(place)
    }

    // Begins an array, where none is open and there is room for it.
    fn begin(&mut self, kind: ArrayKind)
        requires none { self.old.open_one ≡ None }
        requires room { arrays_size (all_of self.old) + count_size kind ≤ B.most Setting.Arrays }
        ensures { self.new ≡ opened kind self.old }
    {
        let array = Array {
            kind,
            entries: Vec::new(self.alloc),
        };
        self.growing = Some(array);
        self.size += kind.count_size();
    }

    /// Puts the open array behind the ended ones. Where no memory is left it stays open.
    fn close(&mut self) -> Result<(), AllocError>
        ensures ok { OnOk result (self.new ≡ closed_one self.old) }
        ensures err { OnErr result (self.new ≡ self.old) }
        ensures memory { OnErr result (IsSome self.old.open_one) }
    {
        if let Some(array) = self.growing.take() {
            if let Err(refused) = self.closed.push(array) {
                self.growing = Some(refused.value);
                return Err(AllocError);
            }
        }
        Ok(())
    }

    /// Adds an entry to the open array. Where none is open nothing happens.
    ///
    /// The call is refused first where the value does not fit (`ArrayKind::misfit`), then where there would be more bytes
    /// than there may be, then for want of memory; all arrays then stay unchanged.
    pub fn entry(&mut self, value: Value) -> Result<(), ArrayFault>
        ensures ok { OnOk result (self.new ≡ with_entries (value ∷ []) self.old) }
        ensures err { OnErr result (self.new ≡ self.old) }
        ensures fault { let fault = entries_fault B.most (value ∷ []) self.old in
            MatchResult result (λ _. fault ≡ None) (λ refused. refused ≡ unwrap_or fault Memory) }
        ensures memory { IfErr result (λ refused. refused ≡ Memory → IsSome self.old.open_one) }
    {
        if self.growing.is_none() {
            return Ok(());
        }
        if let Some(fault) = self.fault(1, is_byte(value)) {
            return Err(fault);
        }
        self.append(&[value])?;
        Ok(())
    }

    /// Adds `count` zeros to the open array, as a number alone asks for. Where none is open nothing happens.
    ///
    /// The call is refused first where `count` is 0, then as `entry` is.
    pub fn zeros(&mut self, count: u16) -> Result<(), ArrayFault>
        ensures ok { OnOk result (self.new ≡ with_entries (replicate count (Known 0)) self.old) }
        ensures err { OnErr result (self.new ≡ self.old) }
        ensures fault { let fault = zeros_fault B.most count self.old in
            MatchResult result (λ _. fault ≡ None) (λ refused. refused ≡ unwrap_or fault Memory) }
        ensures memory { IfErr result (λ refused. refused ≡ Memory → IsSome self.old.open_one) }
    {
        if count == 0 {
            return Err(ArrayFault::NoEntries);
        }
        if self.growing.is_none() {
            return Ok(());
        }
        if let Some(fault) = self.fault(count as usize, true) {
            return Err(fault);
        }
        let zeros = vec![in self.alloc; Value::Known(0); count as usize]?;
        self.append(&zeros)?;
        Ok(())
    }

    /// Adds the characters of a text, in ZSCII, to the open array, as a text alone asks for. Where none is open nothing happens.
    ///
    /// The call is refused as `entry` is.
    pub fn characters(&mut self, text: &[u8]) -> Result<(), ArrayFault>
        ensures ok { OnOk result (self.new ≡ with_entries (characters text.now) self.old) }
        ensures err { OnErr result (self.new ≡ self.old) }
        ensures fault { let fault = characters_fault B.most text.now self.old in
            MatchResult result (λ _. fault ≡ None) (λ refused. refused ≡ unwrap_or fault Memory) }
        ensures memory { IfErr result (λ refused. refused ≡ Memory → IsSome self.old.open_one) }
    {
        if self.growing.is_none() {
            return Ok(());
        }
        if let Some(fault) = self.fault(text.len(), true) {
            return Err(fault);
        }
        let values = characters(self.alloc, text)?;
        self.append(&values)?;
        Ok(())
    }

    /// Adds the entries of one item of a source to the open array. Where none is open nothing happens.
    ///
    /// The call is refused as `entry`, `zeros` and `characters` are.
    pub fn add(&mut self, entries: Entries<'_>) -> Result<(), ArrayFault>
        ensures ok { OnOk result (self.new ≡ with_entries (values_in (added entries.entry)) self.old) }
        ensures err { OnErr result (self.new ≡ self.old) }
        ensures fault { let fault = added_fault B.most (added entries.entry) self.old in
            MatchResult result (λ _. fault ≡ None) (λ refused. refused ≡ unwrap_or fault Memory) }
        ensures memory { IfErr result (λ refused. refused ≡ Memory → IsSome self.old.open_one) }
    {
        match entries {
            Entries::One(value) => self.entry(value),
            Entries::Zeros(count) => self.zeros(count),
            Entries::Characters(text) => self.characters(text),
        }
    }

    /// Returns the fault for which `add` would refuse `entries`, without regard to memory; `None` where there is none.
    pub fn add_fault(&self, entries: Entries<'_>) -> Option<ArrayFault>
        ensures { result ≡ added_fault B.most (added entries.entry) self.now }
    {
        match entries {
            Entries::One(value) => self.fault_of(1, is_byte(value)),
            Entries::Zeros(0) => Some(ArrayFault::NoEntries),
            Entries::Zeros(count) => self.fault_of(count as usize, true),
            Entries::Characters(text) => self.fault_of(text.len(), true),
        }
    }

    // Returns the fault of `added` more entries, where `fit` says whether all of them are bytes; `None` where no array is open.
    fn fault_of(&self, added: usize, fit: bool) -> Option<ArrayFault>
        requires { added < 2 ^ 63 }
        ensures { result ≡ fault_by B.most added fit self.now }
    {
        if self.growing.is_none() {
            return None;
        }
        self.fault(added, fit)
    }

    // Returns the fault of `added` more entries of the open array, without regard to memory, where `fit` says whether all
    // of them are bytes.
    fn fault(&self, added: usize, fit: bool) -> Option<ArrayFault>
        requires small { added < 2 ^ 63 }
        requires there { IsSome self.now.open_one }
        ensures value { result ≡ fault_by B.most added fit self.now }
        ensures room { IfNone result (HasRoom B.most added self.now) }
    {
        let array = self.growing.as_ref()?;
        if let Some(fault) = misfit_by(array.kind, array.entries.len(), added, fit) {
            return Some(fault);
        }
        if (self.limit - self.size) / array.kind.entry_size() < added {
            return Some(ArrayFault::Full);
        }
        None
    }

    // Appends entries to the open array, for which there is room.
    fn append(&mut self, values: &[Value]) -> Result<(), AllocError>
        requires { HasRoom B.most (length values.now) self.old }
        ensures ok { OnOk result (self.new ≡ with_entries values.now self.old) }
        ensures err { OnErr result (self.new ≡ self.old) }
    {
        if let Some(array) = &mut self.growing {
            array.entries.extend_from_slice(values)?;
            self.size += array.kind.entry_size() * values.len();
            self.later += array.kind.laters(values);
        }
        Ok(())
    }

    /// Appends all arrays, one behind the other, to the area of arrays, and the fixups of the entries that are known later to `refs`.
    ///
    /// The call is refused first where there would be more fixups than there may be, then for want of memory; area and
    /// fixups then stay unchanged.
    #[tactic(auto, using(crate::proofs::Sizes::laters_written))]
    pub fn write<A: Area>(&self, area: &mut A, refs: &mut Refs) -> Result<(), WriteFault>
        ensures bytes { OnOk result (A.bytes area.new ≡ A.bytes area.old ++ bytes_of (arrays_cells (all_of self.now))) }
        ensures fixups { OnOk result (refs.new ≡ with_fixups
            (refs.old.list ++ fixups_of AreaName.Arrays (length (A.bytes area.old)) (arrays_cells (all_of self.now))) refs.old) }
        ensures room { OnOk result (length refs.old.list + arrays_laters (all_of self.now) ≤ refs.old.limit) }
        ensures bytes_stay { OnErr result (A.bytes area.new ≡ A.bytes area.old) }
        ensures fixups_stay { OnErr result (refs.new ≡ refs.old) }
        ensures full { IfErr result (λ fault. fault ≡ WriteFault.Full
            → refs.old.limit < length refs.old.list + arrays_laters (all_of self.now)) }
        ensures memory { IfErr result (λ fault. fault ≡ WriteFault.Memory
            → length refs.old.list + arrays_laters (all_of self.now) ≤ refs.old.limit) }
    {
        if refs.limit() - refs.len() < self.later {
            return Err(WriteFault::Full);
        }
        let Ok(cells) = self.cells() else {
            return Err(WriteFault::Memory);
        };
        append_cells(self.alloc, AreaName::Arrays, area, refs, cells.as_slice())
    }

    // Returns the cells of all arrays.
    #[tactic(auto, using(crate::proofs::Sizes::cells_joined))]
    fn cells(&self) -> Result<Cells, AllocError>
        ensures { IfOk result (λ cells. cells ≡ arrays_cells (all_of self.now)) }
    {
        let mut cells = cells_of(self.alloc, &self.closed)?;
        add_open(&mut cells, &self.growing)?;
        Ok(cells)
    }
}

/// Appends the cells of an array, if there is one.
fn add_open(cells: &mut Cells, last: &Option<Array>) -> Result<(), AllocError>
    ensures { OnOk result (cells.new ≡ cells.old ++ arrays_cells (option_to_list (option_map listed last.now))) }
{
    match last {
        Some(array) => add_array(cells, array),
        None => Ok(()),
    }
}

/// Returns the cells of some arrays.
fn cells_of(alloc: Global, arrays: &[Array]) -> Result<Cells, AllocError>
    ensures { IfOk result (λ cells. cells ≡ arrays_cells (map listed arrays.now)) }
{
    let mut cells = Cells::new(alloc);
    for array in arrays {
        add_array(&mut cells, array)?;
    }
    Ok(cells)
}

/// Returns the characters of a text as values.
fn characters(alloc: Global, text: &[u8]) -> Result<Vec<Value>, AllocError>
    ensures value { IfOk result (λ values. values.items ≡ characters text.now) }
    ensures count { IfOk result (λ values. length values.items ≡ length text.now) }
{
    let mut values = Vec::with_capacity(alloc, text.len())?;
    for character in text {
        values.push(Value::Known(*character as u16))?;
    }
    Ok(values)
}
