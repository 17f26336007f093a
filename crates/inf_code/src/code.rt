//! The code of a story: its finished routines, and the open one.
ghost use Rattle.std.specs.Prelude.{◌≡◌, ◌≤◌, ◌⊎◌, ◌∷◌, ◌++◌, ◌+◌, [], None, Some, IfOk, MatchResult, OnOk, OnErr, false, if◌then◌else◌};
ghost use Rattle.std.specs.Prelude.{length, IsErr, IsSome, take, true};
ghost use Rattle.inf_area.specs.{Cells.bytes_of, Cells.fixups_of, Fixups.with_fixups};
ghost use Rattle.inf_opcode.specs.{Instructions.IsProper, PartsOf.parts_of};
ghost use Rattle.inf_assembler.specs.{declared.routines.CloseFault.CloseFault, declared.routines.Limit.Limit};
ghost use Rattle.inf_assembler.specs.Routines.{IsOpen, contents_of, refusal};
ghost use Rattle.inf_code.specs.Code.{IsSpare, are_too_many, begun, bytes_of_code, code_cells, code_count, code_left, code_limits};
ghost use Rattle.inf_code.specs.Code.{fault_behind, fault_closed, fault_of_full, reference_count, references_left, references_open};
ghost use Rattle.inf_code.specs.Code.{full_begun, full_behind_bytes, full_finished, full_first, full_label, full_opened, full_with};
ghost use Rattle.inf_code.specs.Code.{is_lost_in, labels, labels_left, place_behind, routine_bounds, routine_count, unlisted, with_closed};
ghost use Rattle.inf_code.specs.Code.{with_item, with_label, with_none_open, with_opened, zeros_behind};
ghost use Rattle.inf_settings.specs.declared.setting.Setting.{Setting};

use inf_area::{AddFault, Area, AreaName, Fixup, PagedArea, Refs, Scale, Target};
use inf_assembler::{CloseFault, GrowFault, Limit, Limits, Routine, RoutineKind};
use inf_opcode::{Instruction, Label};
use inf_settings::bounds::Bounds;
use std::alloc::{AllocError, Global};
use std::marker::{Model, PhantomData};

/// The bytes of the first routine of each story, with the zeros behind it: no locals, `call_1n` of a routine that is known
/// later, and `quit` (Z-Machine Standard 1.1, sections 5.2 and 14).
const FIRST_ROUTINE: [u8; 8] = [0x00, 0x8F, 0, 0, 0xBA, 0, 0, 0];

const FIRST_ROUTINE_BYTES: usize = 8;

/// The place, within the first routine, of the packed address that it calls.
const CALLED: usize = 2;

/// Number of references that each story has in tables: the addresses of the property tables of its first four objects.
const TABLE_REFERENCES: usize = 4;

/// Number of references in tables and in the first routine.
const FIRST_REFERENCES: usize = TABLE_REFERENCES + 1;

/// Bounds of an open routine: the numbers of the program alone.
const ROUTINE_BOUNDS: Limits = Limits {
    labels: usize::MAX,
    code: usize::MAX,
};

/// The most references that the routines of the source may have.
const MOST_REFERENCES: usize = usize::MAX - FIRST_REFERENCES;

/// Limits of the code of a story.
#[derive(Clone, Copy)]
pub struct CodeLimits {
    /// The most labels, branches and jumps of a routine. Their number is checked where a unit is finished.
    pub labels: usize,
    /// The most bytes of all routines: the first one, which has 8, the finished ones with the zeros behind them, and the open one with
    /// every branch long. The finished ones never have more; the number with the open one is checked where a unit is finished.
    pub code: usize,
    /// The most references whose numbers are known later: those of the routines, and four in tables. The finished ones never
    /// have more; the number with the open one is checked where a unit is finished.
    pub refs: usize,
}

impl CodeLimits {
    fn full_first(self) -> Option<Limit>
        ensures { result ≡ full_first self }
    {
        if self.code < FIRST_ROUTINE_BYTES {
            Some(Limit::Code)
        } else if self.refs < FIRST_REFERENCES {
            Some(Limit::Refs)
        } else {
            None
        }
    }

    /// Returns the first limit that another routine would pass, which begins at `place` and is lost where `is_lost` says it.
    fn full_opened(self, is_lost: bool, has_begun: bool, place: usize) -> Option<Limit>
        ensures { result ≡ full_behind_bytes self is_lost has_begun place }
    {
        if place == usize::MAX {
            return Some(Limit::Code);
        }
        if has_begun {
            return None;
        }
        if !is_lost && self.code <= FIRST_ROUTINE_BYTES {
            return Some(Limit::Code);
        }
        self.full_first()
    }
}

/// The routines of a story: the bytes of the finished ones, with zeros in place of each number that is known later, the
/// fixups for these numbers, and behind them the open routine, if any.
///
/// A first routine, which calls `Main`, precedes those of the source. A place in code counts from the front of the area.
#[derive(Drop)]
pub struct Code<B: Bounds> {
    limits: CodeLimits,
    scale: Scale,
    // Tells whether code has begun: the first routine is then counted.
    has_begun: bool,
    area: PagedArea,
    // The references of the source's routines; the first routine's own reference is known at the end.
    refs: Refs,
    // Number of bytes of the finished routines, with the first one.
    finished: usize,
    // Number of finished routines, without the first one.
    routines: usize,
    // The open routine, if any. Where none is open, the bytes behind the finished ones are no longer used.
    routine: Option<Routine>,
    // Tells whether the open routine is lost. The references of a lost routine go to the spare list, which is empty otherwise.
    is_lost: bool,
    spare: Refs,
    of: PhantomData<B>,
    ghost is_most: { limits ≡ code_limits B.most },
}

impl<B: Bounds> Model for Code<B> {
    ghost use Rattle.std.specs.Prelude.{◌+◌, ◌≤◌, length};
    ghost use Rattle.inf_code.specs.Code.{Routines, HasRoom, IsCode, IsSpare, open_in, source_cells};

    ghost Value = { Routines };

    ghost view = { λ code. record {
      scale = code.scale;
      has_begun = code.has_begun;
      finished = source_cells
          code.finished code.refs code.area;
      routines = code.routines;
      opened = open_in code.area code.is_lost code.routine;
    } };

    ghost invariant = { λ code. IsCode code.limits code.finished code.refs code.area code.routine ×
        (HasRoom code.has_begun code.limits (length code.refs.list) × (IsSpare code.spare × code.routines + 8 ≤ code.finished)) };
}

impl<B: Bounds> Code<B> {
    ghost use Rattle.inf_code.specs.Code.{Routines, no_routines};

    /// Creates code without routines, within `limits`, for a story whose packed addresses are multiplied by `scale`. It
    /// fails for want of memory alone.
    pub fn new(alloc: Global, limits: CodeLimits, scale: Scale) -> Result<Code<B>, AllocError>
        requires { limits ≡ code_limits B.most }
        ensures { IfOk result (λ code. code ≡ no_routines scale) }
    {
        let mut area = PagedArea::new(alloc);
        area.append(&FIRST_ROUTINE)?;
        Ok(Code {
            limits,
            scale,
            has_begun: false,
            area,
            refs: Refs::new(alloc, MOST_REFERENCES),
            finished: FIRST_ROUTINE_BYTES,
            routines: 0,
            routine: None,
            is_lost: false,
            spare: Refs::new(alloc, MOST_REFERENCES),
            of: PhantomData,
        })
    }

    /// Returns the scale: the number that packed addresses are multiplied by.
    pub fn scale(&self) -> Scale
        ensures { result ≡ self.now.scale }
    {
        self.scale
    }

    /// Multiplies packed addresses by `scale` from now on: the next routine that is closed is filled up to a multiple of it.
    pub fn set_scale(&mut self, scale: Scale)
        ensures { self.new ≡ record self.old { scale = scale } }
    {
        self.scale = scale;
    }

    /// Returns the place where the next routine of the source begins, in bytes from the front of the code.
    pub fn next_place(&self) -> usize
        ensures { result ≡ place_behind self.now.finished }
    {
        self.finished
    }

    /// Returns the number of bytes of code so far: those of the first routine, once code has begun, and of the finished ones.
    pub fn count(&self) -> usize
        ensures value { result ≡ code_count self.now }
        ensures few { result ≤ B.most Setting.Code }
    {
        if self.has_begun {
            self.finished
        } else {
            self.finished - FIRST_ROUTINE_BYTES
        }
    }

    /// Returns the number of routines so far: the first one, once code has begun, and the finished ones.
    pub fn routines(&self) -> usize
        ensures { result ≡ routine_count self.now }
    {
        if self.has_begun {
            1 + self.routines
        } else {
            self.routines
        }
    }

    /// Returns the number of references of the story so far: four in tables, that of the first routine, once code has
    /// begun, and those of the finished routines. There are at most as many as there may be, if that is four at least.
    pub fn references(&self) -> usize
        ensures value { result ≡ reference_count self.now }
        ensures few { 4 ≤ B.most Setting.References → result ≤ B.most Setting.References }
    {
        if self.has_begun {
            FIRST_REFERENCES + self.refs.len()
        } else {
            TABLE_REFERENCES + self.refs.len()
        }
    }

    /// Returns the number of labels, branches and jumps of the open routine, and 0 where none is open.
    pub fn labels(&self) -> usize
        ensures { result ≡ labels self.now }
    {
        match &self.routine {
            Some(routine) => routine.labels(),
            None => 0,
        }
    }

    /// Returns whether a routine is open and lost.
    pub fn is_lost(&self) -> bool
        ensures { result ≡ is_lost_in self.now.opened }
    {
        match &self.routine {
            Some(_) => self.is_lost,
            None => false,
        }
    }

    /// Returns the most bytes of code that there may be.
    pub fn most_bytes(&self) -> usize
        ensures { result ≡ B.most Setting.Code }
    {
        self.limits.code
    }

    /// Returns the number of labels, branches and jumps that the open routine may still have; `None` where it has too many.
    pub fn labels_left(&self) -> Option<usize>
        ensures { result ≡ labels_left B.most self.now }
    {
        self.limits.labels.checked_sub(self.labels())
    }

    /// Returns the number of bytes that there may still be, behind those of the finished routines and of the open one with
    /// every branch long; `None` where there are too many. A lost routine has no bytes.
    pub fn code_left(&self) -> Option<usize>
        ensures { result ≡ code_left B.most self.now }
    {
        self.limits.code.checked_sub(self.bytes())
    }

    /// Returns the number of bytes of code so far, with those of the open routine, unless it is lost.
    fn bytes(&self) -> usize
        ensures { result ≡ bytes_of_code self.now }
    {
        let Some(_) = &self.routine else {
            return self.count();
        };
        if self.is_lost {
            return self.count();
        }
        self.area.len()
    }

    /// Returns the number of references that there may still be, behind those of the finished routines and of the open one;
    /// `None` where there are too many. A lost routine has no references.
    pub fn references_left(&self) -> Option<usize>
        ensures { result ≡ references_left B.most self.now }
    {
        let left = self.limits.refs.checked_sub(self.references())?;
        left.checked_sub(self.open_references())
    }

    /// Returns the number of references of the open routine; 0 where none is open, or it is lost.
    fn open_references(&self) -> usize
        ensures { result ≡ references_open self.now.opened }
    {
        match &self.routine {
            Some(routine) if !self.is_lost => routine.references(),
            _ => 0,
        }
    }

    /// Begins code with its first routine, unless it has begun. Returns the limit that this would pass, that of bytes
    /// before that of references; then code does not begin.
    pub fn begin(&mut self) -> Option<Limit>
        ensures full { result ≡ full_begun B.most self.old }
        ensures begun { self.new ≡ begun B.most self.old }
    {
        if self.has_begun {
            return None;
        }
        let full = self.limits.full_first();
        self.has_begun = full.is_none();
        full
    }

    /// Opens a routine of `locals` local variables, at most 15, and gives up one that is open. Code begins with it, unless it has begun. A
    /// lost routine gives no code: only its labels are counted, and its faults of labels and offsets are answered when it is closed.
    ///
    /// A refused call leaves no routine open. It is refused where the beginning of code would pass a limit, or the byte for
    /// the number of locals would pass the numbers of the program, and otherwise only for want of memory.
    pub fn open(&mut self, alloc: Global, locals: u8, is_lost: bool) -> Result<(), GrowFault>
        requires { locals ≤ 15 }
        ensures ok { OnOk result (self.new ≡ with_opened locals is_lost self.old) }
        ensures err { OnErr result (self.new ≡ with_none_open self.old) }
        ensures fault { let full = full_opened B.most is_lost self.old in
            MatchResult result (λ _. full ≡ None) (λ fault. fault ≡ refusal full) }
    {
        self.routine = None;
        self.is_lost = is_lost;
        if let Some(setting) = self
            .limits
            .full_opened(is_lost, self.has_begun, self.finished)
        {
            return Err(GrowFault::Full(setting));
        }
        cut_back(&mut self.area, self.finished);
        let routine = Routine::open(alloc, &mut self.area, locals, ROUTINE_BOUNDS)?;
        self.routine = Some(routine);
        self.has_begun = true;
        Ok(())
    }

    /// Adds an instruction to the open routine, if there is one.
    ///
    /// A refused call leaves the routine unchanged. It is refused where the instruction would pass the numbers of the
    /// program, of labels first, then of bytes, then of references, and otherwise only for want of memory.
    pub fn emit(&mut self, instruction: &Instruction<'_>) -> Result<(), GrowFault>
        requires { IsProper (parts_of instruction.now) }
        ensures ok { let opened = with_item (parts_of instruction.now) self.old.opened in
            OnOk result (self.new ≡ record self.old { opened = opened }) }
        ensures err { OnErr result (self.new ≡ self.old) }
        ensures fault { let full = full_with (parts_of instruction.now) self.old in
            MatchResult result (λ _. full ≡ None) (λ fault. fault ≡ refusal full) }
        ensures is_open { IsErr result → IsSome self.old.opened }
    {
        let Some(routine) = &mut self.routine else {
            return Ok(());
        };
        let refs = listed(self.is_lost, &self.spare, &self.refs);
        routine.emit(&mut self.area, refs, instruction)
    }

    /// Marks the place of a label in the open routine, if there is one.
    ///
    /// A refused call leaves the routine unchanged. It is refused where the label would pass the numbers of the program,
    /// and otherwise only for want of memory.
    pub fn label(&mut self, label: Label) -> Result<(), GrowFault>
        ensures ok { OnOk result (self.new ≡ record self.old { opened = with_label label self.old.opened }) }
        ensures err { OnErr result (self.new ≡ self.old) }
        ensures fault { let full = full_label self.old in MatchResult result (λ _. full ≡ None) (λ fault. fault ≡ refusal full) }
        ensures is_open { IsErr result → IsSome self.old.opened }
    {
        let Some(opened) = &mut self.routine else {
            return Ok(());
        };
        opened.label(&self.area, label)
    }

    /// Closes the open routine, if there is one: it becomes the last of the finished ones, filled up with zeros to the next
    /// packed address. A lost routine is given up.
    ///
    /// A refused call leaves the finished routines unchanged, and gives the open one up. It is refused, in this order,
    /// where a label is missing or placed twice, where a branch or jump is too far, where the return at its end or all
    /// references would pass the numbers of the program, where the code with the zeros behind it would pass the limit of
    /// bytes, or where the story would have more references than it may. Want of memory may come in place of each of these.
    pub fn close(&mut self, kind: RoutineKind) -> Result<(), CloseFault>
        ensures ok { OnOk result (self.new ≡ with_closed kind self.old) }
        ensures err { OnErr result (self.new ≡ with_none_open self.old) }
        ensures fault { let wrong = fault_closed B.most kind self.old in
            MatchResult result (λ _. wrong ≡ None) (λ fault. (fault ≡ CloseFault.Memory) ⊎ (wrong ≡ Some fault)) }
        ensures is_open { IsErr result → IsSome self.old.opened }
    {
        let Some(routine) = self.routine.take() else {
            return Ok(());
        };
        if self.is_lost {
            return close_lost(&mut self.area, &mut self.spare, routine, kind);
        }
        let before = self.refs.len();
        let closed = match routine.close(&mut self.area, &mut self.refs, kind) {
            Ok(closed) => closed,
            Err(fault) => return Err(fault),
        };
        let listed = self.refs.len();
        if let Err(fault) = fill_up(&mut self.area, closed.len, self.scale, self.limits, listed) {
            self.refs.keep(before);
            return Err(fault);
        }
        self.finished = self.area.len();
        self.routines += 1;
        Ok(())
    }

    /// Gives the open routine up, if there is one.
    pub fn give_up(&mut self)
        ensures { self.new ≡ with_none_open self.old }
    {
        self.routine = None;
    }

    /// Returns the area of the code, whose first routine calls `called`, and appends its fixups to `refs`. An open routine is given up.
    ///
    /// The call is refused first where there would be more fixups than there may be, then for want of memory; `refs` then stays unchanged.
    pub fn into_area(self, called: Target, refs: &mut Refs) -> Result<PagedArea, AddFault>
        ensures bytes { IfOk result (λ area. area ≡ bytes_of (code_cells called self.finished)) }
        ensures fixups { OnOk result (refs.new
            ≡ with_fixups (refs.old.list ++ fixups_of AreaName.Code 0 (code_cells called self.finished)) refs.old) }
        ensures err { OnErr result (refs.new ≡ refs.old) }
        ensures fault { let full = are_too_many called self.finished refs.old in
            MatchResult result (λ _. full ≡ false) (λ fault. fault ≡ unlisted full) }
    {
        if refs.limit() - refs.len() <= self.refs.len() {
            return Err(AddFault::Full);
        }
        let mut area = self.area;
        cut_back(&mut area, self.finished);
        let first = Fixup {
            area: AreaName::Code,
            place: CALLED,
            target: called,
        };
        list_all(refs, first, self.refs.as_slice())?;
        Ok(area)
    }
}

/// Lists `first` and `others` behind it, for all of which there is room. Refused for want of memory, the call leaves the list unchanged.
fn list_all(refs: &mut Refs, first: Fixup, others: &[Fixup]) -> Result<(), AllocError>
    requires { length refs.old.list + (1 + length others.now) ≤ refs.old.limit }
    ensures ok { OnOk result (refs.new ≡ with_fixups (refs.old.list ++ first ∷ others.now) refs.old) }
    ensures err { OnErr result (refs.new ≡ refs.old) }
{
    let listed = refs.len();
    if refs.add(first).is_err() {
        return Err(AllocError);
    }
    if refs.extend(others).is_err() {
        refs.keep(listed);
        return Err(AllocError);
    }
    Ok(())
}

/// Returns the list for the references of the open routine: `spare` where it is lost, otherwise `refs`.
fn listed<'a>(is_lost: bool, spare: &'a Refs, refs: &'a Refs) -> &'a Refs
    ensures { result.now ≡ if is_lost then spare.now else refs.now }
{
    if is_lost { spare } else { refs }
}

/// Closes a lost routine, at the end of `area`, and gives it up. The fixups that were listed for it are removed.
fn close_lost(
    area: &mut PagedArea,
    spare: &mut Refs,
    routine: Routine,
    kind: RoutineKind,
) -> Result<(), CloseFault>
    requires open_still { IsOpen routine area.old }
    requires bounds { routine.limits ≡ routine_bounds }
    requires none { IsSpare spare.old }
    ensures front { take routine.start area.new ≡ take routine.start area.old }
    ensures within { routine.start ≤ length area.new }
    ensures none { IsSpare spare.new }
    ensures fault { let wrong = fault_behind routine.start 0 (contents_of routine area.old) in
        MatchResult result (λ _. wrong ≡ None) (λ fault. (fault ≡ CloseFault.Memory) ⊎ (wrong ≡ Some fault)) }
{
    routine.close(area, spare, kind)?;
    spare.keep(0);
    Ok(())
}

/// Appends the zeros behind a routine of `len` bytes that fill it up to a packed address, where finished routines have `listed`
/// references with those of this one.
///
/// A refused call leaves the area unchanged. It is refused where the area would have more bytes than the limit, then where the
/// story would have more references than it may, and otherwise only for want of memory.
fn fill_up(
    area: &mut PagedArea,
    len: usize,
    scale: Scale,
    limits: CodeLimits,
    listed: usize,
) -> Result<(), CloseFault>
    ensures ok { OnOk result (area.new ≡ area.old ++ zeros_behind scale len) }
    ensures room { OnOk result (length area.new ≤ limits.code) }
    ensures few { OnOk result (5 + listed ≤ limits.refs) }
    ensures err { OnErr result (area.new ≡ area.old) }
    ensures fault { let full = full_finished limits (length area.old + length (zeros_behind scale len)) (5 + listed) in
        MatchResult result (λ _. full ≡ None) (λ fault. (fault ≡ CloseFault.Memory) ⊎ (fault_of_full full ≡ Some fault)) }
{
    let zeros: &[u8] = &[0, 0, 0, 0, 0, 0, 0];
    let behind = &zeros[..scale.gap(len)];
    let end = area.len();
    if limits.code < end || limits.code - end < behind.len() {
        return Err(CloseFault::Full(Limit::Code));
    }
    if limits.refs < FIRST_REFERENCES || limits.refs - FIRST_REFERENCES < listed {
        return Err(CloseFault::Full(Limit::Refs));
    }
    if area.append(behind).is_err() {
        return Err(CloseFault::Memory);
    }
    Ok(())
}

/// Cuts an area to its first `len` bytes.
#[tactic(auto, using(crate::proofs::CodeLemmas::cut_is))]
fn cut_back(area: &mut PagedArea, len: usize)
    requires { len ≤ length area.old }
    ensures { area.new ≡ take len area.old }
{
    let end = area.len();
    area.cut(len, end - len);
}
