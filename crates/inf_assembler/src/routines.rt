//! Routines: opened, written item by item, and closed.
ghost use Rattle.std.specs.Prelude.{◌≡◌, ◌+◌, ◌^◌, ◌<◌, ◌≤◌, ℕ, List, [], ◌∷◌, ◌++◌, length, take, nat_lt, Some, None, Option, true, false};
ghost use Rattle.std.specs.Prelude.{◌⊎◌, if◌then◌else◌, IfOk, OnOk, OnErr, MatchResult, MatchOption};
ghost use Rattle.inf_area.specs.{Fixups.Fixups, Fixups.with_fixups, declared.fixups.Fixup.Fixup};
ghost use Rattle.inf_opcode.specs.{Cells.Of, Grown.Grew, Grown.Longer, Instructions.IsProper, Instructions.instruction_cells};
ghost use Rattle.inf_opcode.specs.{PartsOf.parts_of};

use crate::closing::{first_missing, first_twice, label_places, list_fixups, squeeze};
use inf_area::{AddFault, Area, Refs};
use inf_opcode::{
    Counts, Instruction, Kept, Label, Special, append_instruction, instruction_counts,
};
use std::alloc::{AllocError, AllocFailed, Global};
use std::marker::Model;

/// The value that a routine returns where control runs past its last item.
#[derive(Clone, Copy)]
pub enum RoutineKind {
    /// A routine that stands alone, which returns true.
    Plain,
    /// A routine that is embedded in an object, which returns false.
    Embedded,
}

/// The place and size of a closed routine.
#[derive(Clone, Copy, Debug, PartialEq, Eq)]
pub struct Closed {
    /// The place of the routine in the area.
    pub start: usize,
    /// Length of the routine in bytes, without padding.
    pub len: usize,
    /// Number of the routine's fixups, which are the last of the list.
    pub refs: usize,
}

/// Limits of a routine.
#[derive(Clone, Copy)]
pub struct Limits {
    /// The most labels, branches and jumps of the routine.
    pub labels: usize,
    /// The most bytes of the area, with those of the routine.
    pub code: usize,
}

/// A limit that an addition would pass.
#[derive(Clone, Copy, Debug)]
pub enum Limit {
    /// The limit of the labels, branches and jumps of a routine.
    Labels,
    /// The limit of the bytes of the area.
    Code,
    /// The limit of the references of the story.
    Refs,
}

/// The reason why a routine was not opened or did not grow.
#[derive(Clone, Copy, Debug)]
pub enum GrowFault {
    /// The routine would pass a limit.
    Full(Limit),
    /// No memory was left.
    Memory,
}

impl From<AllocError> for GrowFault {
    ghost use Rattle.std.specs.Prelude.{◌≡◌};
    ghost use Rattle.inf_assembler.specs.declared.routines.GrowFault.TheVariants.{Memory};

    ghost from_gives = { λ _ fault. fault ≡ Memory };

    fn from(_error: AllocError) -> GrowFault {
        GrowFault::Memory
    }
}

impl<T: Drop> From<AllocFailed<T>> for GrowFault {
    ghost use Rattle.std.specs.Prelude.{◌≡◌};
    ghost use Rattle.inf_assembler.specs.declared.routines.GrowFault.TheVariants.{Memory};

    ghost from_gives = { λ _ fault. fault ≡ Memory };

    fn from(_error: AllocFailed<T>) -> GrowFault {
        GrowFault::Memory
    }
}

/// The reason why a routine was not closed.
#[derive(Clone, Copy, Debug)]
pub enum CloseFault {
    /// A label that a branch or jump goes to, and that no place is marked with, the first by use.
    LabelMissing(Label),
    /// A label that two places are marked with, the first by its second mark.
    LabelTwice(Label),
    /// The offset of a branch or jump does not fit.
    TooFar,
    /// The routine would pass a limit.
    Full(Limit),
    /// No memory was left.
    Memory,
}

impl From<AllocError> for CloseFault {
    ghost use Rattle.std.specs.Prelude.{◌≡◌};
    ghost use Rattle.inf_assembler.specs.declared.routines.CloseFault.TheVariants.{Memory};

    ghost from_gives = { λ _ fault. fault ≡ Memory };

    fn from(_error: AllocError) -> CloseFault {
        CloseFault::Memory
    }
}

/// A moment of an open routine, to which `Routine::back` leads.
#[derive(Clone, Copy, Debug)]
pub struct Mark {
    len: usize,
    kept: usize,
    labels: usize,
    fixups: usize,
    is_final: bool,
}

impl Model for Mark {
    ghost use Rattle.inf_assembler.specs.Routines.{Moment};

    ghost Value = { Moment };

    ghost view = { λ mark. record {
      len = mark.len;
      kept = mark.kept;
      labels = mark.labels;
      fixups = mark.fixups;
      is_final =
          mark.is_final;
    } };

    ghost inverse = { λ moment. record {
      len = moment.len;
      kept = moment.kept;
      labels = moment.labels;
      fixups = moment.fixups;
      is_final =
          moment.is_final;
    } };
}

/// An open routine. Its bytes are at the end of the area, with every branch in two bytes, and zeros in place of offsets and
/// of numbers that are known later.
///
/// Each of its calls is given the area that `open` was given, which nothing else changes in between.
#[derive(Drop)]
pub struct Routine {
    alloc: Global,
    start: usize,
    // The labels, branches, jumps and references in the bytes, in order.
    kept: Vec<Kept>,
    labels: usize,
    fixups: usize,
    is_final: bool,
    limits: Limits,
}

impl Model for Routine {
    ghost use Rattle.std.specs.Prelude.{◌+◌, ◌^◌, ◌<◌};
    ghost use Rattle.inf_assembler.specs.Routines.{State};

    ghost Value = { State };

    ghost view = { λ routine. record {
      start = routine.start;
      kept = routine.kept.items;
      labels = routine.labels;
      fixups = routine.fixups;
      is_final = routine.is_final;
      limits = routine.limits;
    } };

    ghost invariant = { λ routine. routine.start + 1 < 2 ^ 64 };
}

// Returns whether `more` beside `held` passes `limit`.
fn exceeds(limit: usize, held: usize, more: usize) -> bool
    ensures { result ≡ nat_lt limit (held + more) }
{
    limit < held || limit - held < more
}

impl Routine {
    ghost use Rattle.inf_opcode.specs.{Opcodes.row_of, declared.cells.Special.TheVariants.Marks};
    ghost use Rattle.inf_assembler.specs.declared.routines.Limit.{Limit};
    ghost use Rattle.inf_assembler.specs.declared.routines.Limit.TheVariants.{Labels, Code};
    ghost use Rattle.inf_assembler.specs.declared.routines.CloseFault.TheVariants as close_fault;
    ghost use Rattle.inf_assembler.specs.Closing.{found, kept_fixups};
    ghost use Rattle.inf_assembler.specs.Routines.{State, Contents, Stands, IsOpen, Holds, Moment, Were, contents_of, with_cells};
    ghost use Rattle.inf_assembler.specs.Routines.{full_with, full_by, refusal, moment_of, fault_of, Closes, Finished, closing_bytes};
    ghost use Rattle.inf_assembler.specs.Routines.{is_full, end_fault, fresh};

    /// Opens a routine of `locals` local variables, at most 15, at the end of the area, and writes their number (Z-Machine
    /// Standard 1.1, section 5.2).
    ///
    /// The call is refused first where the area would have more bytes than the limit, then for want of memory; the area
    /// then stays unchanged.
    pub fn open<A: Area>(
        alloc: Global,
        area: &mut A,
        locals: u8,
        limits: Limits,
    ) -> Result<Routine, GrowFault>
        requires { locals ≤ 15 }
        ensures ok { IfOk result (λ routine. Stands routine (A.bytes area.new) (A.bytes area.old) (fresh locals) ×
            (routine.limits ≡ limits)) }
        ensures open_now { IfOk result (λ routine. (contents_of routine (A.bytes area.new) ≡ fresh locals) × IsOpen routine
            (A.bytes area.new)) }
        ensures err { OnErr result (A.bytes area.new ≡ A.bytes area.old) }
        ensures fault { let full = if nat_lt limits.code (length (A.bytes area.old) + 1) then Some Code else None in
            MatchResult result (λ _. full ≡ None) (λ fault. fault ≡ refusal full) }
    {
        let start = area.len();
        if limits.code <= start {
            return Err(GrowFault::Full(Limit::Code));
        }
        area.push(locals)?;
        Ok(Routine {
            alloc,
            start,
            kept: Vec::new(alloc),
            labels: 0,
            fixups: 0,
            is_final: false,
            limits,
        })
    }

    /// Writes an instruction, whose operands, store variable, branch and text are those that the instruction
    /// set gives its opcode (Z-Machine Standard 1.1, section 14).
    ///
    /// The call is refused first where a limit would be passed, of labels first, then of bytes, then of references; then
    /// for want of memory. The routine and the area then stay unchanged.
    pub fn emit<A: Area>(
        &mut self,
        area: &mut A,
        refs: &Refs,
        instruction: &Instruction<'_>,
    ) -> Result<(), GrowFault>
        requires open_still { IsOpen self.old (A.bytes area.old) }
        requires proper { IsProper (parts_of instruction.now) }
        ensures ok { let is_final = (row_of instruction.now.opcode).is_final in
            let items = with_cells (instruction_cells (parts_of instruction.now)) is_final (contents_of self.old (A.bytes area.old)) in
            OnOk result (Holds items self.old (A.bytes area.old) self.new (A.bytes area.new)) }
        ensures err { OnErr result ((self.new ≡ self.old) × (A.bytes area.new ≡ A.bytes area.old)) }
        ensures fault { let full = full_with (instruction_cells (parts_of instruction.now)) self.old (A.bytes area.old) refs.now in
            MatchResult result (λ _. full ≡ None) (λ fault. fault ≡ refusal full) }
    {
        let row = instruction.opcode.row();
        let more = instruction_counts(instruction);
        if let Some(setting) = self.full(area.len(), refs, more, instruction.text.len()) {
            return Err(GrowFault::Full(setting));
        }
        append_instruction(area, &mut self.kept, instruction)?;
        self.labels += more.labels;
        self.fixups += more.fixups;
        self.is_final = row.is_final;
        Ok(())
    }

    /// Marks the present place with a label.
    ///
    /// The call is refused first where there would be too many labels, branches and jumps, then for want of memory; the
    /// routine then stays unchanged.
    pub fn label<A: Area>(&mut self, area: &A, label: Label) -> Result<(), GrowFault>
        requires { IsOpen self.old (A.bytes area.now) }
        ensures ok { let items = with_cells (Of (Marks label) ∷ []) false (contents_of self.old (A.bytes area.now)) in
            OnOk result (Holds items self.old (A.bytes area.now) self.new (A.bytes area.now)) }
        ensures err { OnErr result (self.new ≡ self.old) }
        ensures fault { let full = if nat_lt self.old.limits.labels (self.old.labels + 1) then Some Labels else None in
            MatchResult result (λ _. full ≡ None) (λ fault. fault ≡ refusal full) }
    {
        if self.limits.labels <= self.labels {
            return Err(GrowFault::Full(Limit::Labels));
        }
        let kept = Kept {
            place: area.len(),
            what: Special::Marks(label),
        };
        self.kept.push(kept)?;
        self.labels += 1;
        self.is_final = false;
        Ok(())
    }

    // Returns the first limit that `more`, with `text` more bytes, would pass, where the area has `len` bytes.
    fn full(&self, len: usize, refs: &Refs, more: Counts, text: usize) -> Option<Limit>
        ensures value { result ≡ full_by more.labels (more.bytes + text) more.fixups self.now len refs.now }
        ensures labels { MatchOption result (self.now.labels + more.labels < 2 ^ 64) (λ _. Unit {0}) }
        ensures fixups { MatchOption result (self.now.fixups + more.fixups < 2 ^ 64) (λ _. Unit {0}) }
    {
        if exceeds(self.limits.labels, self.labels, more.labels) {
            return Some(Limit::Labels);
        }
        let code = self.limits.code;
        if exceeds(code, len, more.bytes) || code - len - more.bytes < text {
            return Some(Limit::Code);
        }
        let (listed, limit) = (refs.len(), refs.limit());
        if exceeds(limit, listed, self.fixups) || limit - listed - self.fixups < more.fixups {
            return Some(Limit::Refs);
        }
        None
    }

    /// Returns the number of labels, branches and jumps of the routine.
    pub fn labels(&self) -> usize
        ensures { result ≡ self.now.labels }
    {
        self.labels
    }

    /// Returns the number of references of the routine, whose numbers are known later.
    pub fn references(&self) -> usize
        ensures { result ≡ self.now.fixups }
    {
        self.fixups
    }

    /// Returns the present moment, to which `back` can lead.
    pub fn mark<A: Area>(&self, area: &A) -> Mark
        requires { IsOpen self.now (A.bytes area.now) }
        ensures { result ≡ moment_of (contents_of self.now (A.bytes area.now)) }
    {
        Mark {
            len: area.len() - self.start,
            kept: self.kept.len(),
            labels: self.labels,
            fixups: self.fixups,
            is_final: self.is_final,
        }
    }

    /// Keeps the items that the routine had when `mark` was taken, which are its first ones, and cuts off the others.
    pub fn back<A: Area>(&mut self, area: &mut A, mark: Mark)
        requires open_still { IsOpen self.old (A.bytes area.old) }
        requires were { (earlier : Contents) × Were earlier mark (contents_of self.old (A.bytes area.old)) }
        ensures { (earlier : Contents) → Were earlier mark (contents_of self.old (A.bytes area.old))
            → Holds earlier self.old (A.bytes area.old) self.new (A.bytes area.new) }
    {
        let end = area.len();
        let at = self.start + mark.len;
        area.cut(at, end - at);
        self.kept.truncate(mark.kept);
        self.labels = mark.labels;
        self.fixups = mark.fixups;
        self.is_final = mark.is_final;
    }

    /// Closes the routine: makes each branch short that fits, writes the offsets, and adds the fixups to the list, each with its place.
    ///
    /// Where control can run past the last item, `rtrue` follows it, or `rfalse` in an embedded routine. Returns the place
    /// and size of the routine. Refuses, in this order, a label that is missing, one that is marked twice, an offset that
    /// does not fit, and a limit that would be passed; want of memory may come in place of each of these. The area and the
    /// list of fixups are then as they were before `open`, and the routine is given up.
    pub fn close<A: Area>(
        self,
        area: &mut A,
        refs: &mut Refs,
        kind: RoutineKind,
    ) -> Result<Closed, CloseFault>
        requires { IsOpen self (A.bytes area.old) }
        ensures ok { let contents = contents_of self (A.bytes area.old) in
            IfOk result (λ closed. Closes kind self.start contents (A.bytes area.old) refs.old closed (A.bytes area.new) refs.new) }
        ensures err { OnErr result ((A.bytes area.new ≡ take self.start (A.bytes area.old)) × (refs.new ≡ refs.old)) }
        ensures fault { let fault = fault_of self.start kind (contents_of self (A.bytes area.old)) self.limits refs.old in
            MatchResult result (λ _. fault ≡ None) (λ refused. (refused ≡ close_fault.Memory) ⊎ (fault ≡ Some refused)) }
    {
        let start = self.start;
        let before = refs.len();
        if let Err(fault) = self.finish(area, refs, kind) {
            let end = area.len();
            area.cut(start, end - start);
            refs.keep(before);
            return Err(fault);
        }
        Ok(Closed {
            start,
            len: area.len() - start,
            refs: refs.len() - before,
        })
    }

    // Moves the bytes together, writes the offsets and the return at the end, and lists the fixups.
    fn finish<A: Area>(
        &self,
        area: &mut A,
        refs: &mut Refs,
        kind: RoutineKind,
    ) -> Result<(), CloseFault>
        requires open_still { IsOpen self.now (A.bytes area.old) }
        requires limited { length refs.old.list ≤ refs.old.limit }
        ensures ok { let contents = contents_of self.now (A.bytes area.old) in
            OnOk result (Finished kind self.now.start contents (A.bytes area.old) refs.old (A.bytes area.new) refs.new) }
        ensures before { take self.now.start (A.bytes area.new) ≡ take self.now.start (A.bytes area.old) }
        ensures within { self.now.start ≤ length (A.bytes area.new) }
        ensures refs { (added : List Fixup) × (refs.new ≡ with_fixups (refs.old.list ++ added) refs.old) }
        ensures fault { let fault = fault_of self.now.start kind (contents_of self.now (A.bytes area.old)) self.now.limits refs.old in
            MatchResult result (λ _. fault ≡ None) (λ refused. (refused ≡ close_fault.Memory) ⊎ (fault ≡ Some refused)) }
    {
        let kept = self.kept.as_slice();
        let long = label_places(self.alloc, kept, &[])?;
        if let Some(label) = first_missing(kept, long.as_slice()) {
            return Err(CloseFault::LabelMissing(label));
        }
        if let Some(label) = first_twice(self.alloc, kept)? {
            return Err(CloseFault::LabelTwice(label));
        }
        let places = label_places(self.alloc, kept, long.as_slice())?;
        match squeeze(
            area,
            kept,
            long.as_slice(),
            places.as_slice(),
            self.start + 1,
        ) {
            None => Err(CloseFault::TooFar),
            Some(()) => self.finish_end(area, refs, kind, long.as_slice()),
        }
    }

    // Writes the return at the end, and lists the fixups.
    fn finish_end<A: Area>(
        &self,
        area: &mut A,
        refs: &mut Refs,
        kind: RoutineKind,
        long: &[Option<usize>],
    ) -> Result<(), CloseFault>
        requires { length refs.old.list ≤ refs.old.limit }
        ensures bytes { OnOk result (A.bytes area.new ≡ A.bytes area.old ++ closing_bytes kind self.now.is_final) }
        ensures fixups { let fixups = kept_fixups (found long.now) 0 self.now.kept in
            OnOk result (refs.new ≡ with_fixups (refs.old.list ++ fixups) refs.old) }
        ensures grown { (added : List ℕ) × (A.bytes area.new ≡ A.bytes area.old ++ added) }
        ensures refs { (added : List Fixup) × (refs.new ≡ with_fixups (refs.old.list ++ added) refs.old) }
        ensures fault { let fixups = kept_fixups (found long.now) 0 self.now.kept in
            let fault = end_fault self.now.is_final self.now.limits (length (A.bytes area.old)) refs.old (length fixups) in
            MatchResult result (λ _. fault ≡ None) (λ refused. (refused ≡ close_fault.Memory) ⊎ (fault ≡ Some refused)) }
    {
        self.write_closing(area, kind)?;
        match list_fixups(refs, self.kept.as_slice(), long) {
            Ok(()) => Ok(()),
            Err(AddFault::Full) => Err(CloseFault::Full(Limit::Refs)),
            Err(AddFault::Memory) => Err(CloseFault::Memory),
        }
    }

    // Writes the return where control can run past the last item.
    fn write_closing<A: Area>(&self, area: &mut A, kind: RoutineKind) -> Result<(), CloseFault>
        ensures ok { OnOk result (A.bytes area.new ≡ A.bytes area.old ++ closing_bytes kind self.now.is_final) }
        ensures err { OnErr result (A.bytes area.new ≡ A.bytes area.old) }
        ensures fault { let full = is_full self.now.is_final self.now.limits.code (length (A.bytes area.old)) in
            MatchResult result (λ _. full ≡ false)
            (λ fault. (fault ≡ close_fault.Memory) ⊎ ((full ≡ true) × (fault ≡ close_fault.Full Code))) }
    {
        if self.is_final {
            return Ok(());
        }
        if self.limits.code <= area.len() {
            return Err(CloseFault::Full(Limit::Code));
        }
        area.push(kind.closing_byte())?;
        Ok(())
    }
}

impl RoutineKind {
    ghost use Rattle.inf_assembler.specs.Routines.{closing_byte};

    // Returns the instruction behind the last item where control runs past it: `rtrue` or `rfalse`.
    fn closing_byte(self) -> u8
        ensures { result ≡ closing_byte self }
    {
        match self {
            RoutineKind::Plain => 0xB0,
            RoutineKind::Embedded => 0xB1,
        }
    }
}
