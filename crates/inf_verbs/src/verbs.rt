//! Verbs, line by line.
ghost use Rattle.std.specs.Prelude.{◌≡◌, ◌<◌, ◌≤◌, ◌+◌, ◌*◌, ◌++◌, ◌^◌, [], None, OnOk, OnErr, IfOk, IfErr, IfNone, MatchResult, length};
ghost use Rattle.std.specs.Prelude.{unwrap_or};
ghost use Rattle.inf_area.specs.{Fixups.with_fixups, declared.cells.WriteFault.WriteFault, declared.targets.AreaName.AreaName};
ghost use Rattle.inf_area.specs.Cells.{bytes_of, fixups_of};
ghost use Rattle.inf_verbs.specs.{declared.verbs.LineFault.LineFault, declared.verbs.VerbFault.VerbFault};
ghost use Rattle.inf_verbs.specs.Verbs.{add_fault, address_cells, grammar_cells, line_fault_of, parts_cells, places_of, verb_at};
ghost use Rattle.inf_verbs.specs.Verbs.{verbs_laters, verbs_size, with_extended, with_line_of, with_verb};
ghost use Rattle.inf_settings.specs.declared.setting.Setting.{Setting};

use crate::lines::{Line, LineToken, prepositions};
use crate::verb::Verb;
use inf_area::{Area, AreaName, Cells, Refs, Target, WriteFault, append_cells};
use inf_settings::bounds::Bounds;
use std::alloc::{AllocError, AllocFailed, Global};
use std::marker::{Model, PhantomData};

// The most verbs that a word can name.
const MOST: usize = 255;

/// The place for further lines of a verb.
#[derive(Clone, Copy)]
pub enum LinePlace {
    /// The further lines go in front of those that the verb has, in their own order.
    First,
    /// The further lines go behind those that the verb has.
    Last,
    /// The further lines replace those that the verb has.
    Replace,
}

/// The reason why a verb was not added.
#[derive(Clone, Copy, Debug)]
pub enum VerbFault {
    /// There are 255 verbs.
    TooMany,
    /// There are as many verbs as there may be.
    Full,
    /// The grammar would have more bytes than it may have.
    NoSpace,
    /// No memory was left.
    Memory,
}

impl<T: Drop> From<AllocFailed<T>> for VerbFault {
    ghost from_gives = { λ _ fault. fault ≡ VerbFault.Memory };

    fn from(_error: AllocFailed<T>) -> VerbFault {
        VerbFault::Memory
    }
}

/// The reason why a line was not added.
#[derive(Clone, Copy, Debug)]
pub enum LineFault {
    /// The grammar would have more bytes than it may have.
    NoSpace,
    /// No memory was left.
    Memory,
}

impl From<AllocError> for LineFault {
    ghost from_gives = { λ _ fault. fault ≡ LineFault.Memory };

    fn from(_error: AllocError) -> LineFault {
        LineFault::Memory
    }
}

/// The verbs of a story so far with their lines, and the most verbs and bytes that there may be.
#[derive(Drop)]
pub struct Verbs<B: Bounds> {
    alloc: Global,
    verbs: Vec<Verb>,
    // The bytes of all, and how many numbers in them are known later.
    size: usize,
    later: usize,
    limit: usize,
    space: usize,
    of: PhantomData<B>,
    ghost is_most: { limit ≡ B.most Setting.Verbs },
    ghost is_most_bytes: { space ≡ B.most Setting.GrammarLines },
}

impl<B: Bounds> Model for Verbs<B> {
    ghost use Rattle.std.specs.Prelude.{◌≡◌, ◌≤◌, length};
    ghost use Rattle.inf_verbs.specs.Verbs.{AllVerbs, verbs_laters, verbs_size};

    ghost Value = { AllVerbs };

    ghost view = { λ v. record { list = v.verbs.items } };

    ghost invariant = { λ v. (v.size ≡ verbs_size v.verbs.items) × (v.later ≡ verbs_laters v.verbs.items)
        × (length v.verbs.items ≤ 255) × (length v.verbs.items ≤ v.limit) × (v.size ≤ v.space) };
}

impl<B: Bounds> Verbs<B> {
    /// Returns a grammar without verbs, which takes at most `limit` verbs and `space` bytes. It takes no memory until the first verb comes.
    pub fn new(alloc: Global, limit: usize, space: usize) -> Verbs<B>
        requires verbs { limit ≡ B.most Setting.Verbs }
        requires bytes { space ≡ B.most Setting.GrammarLines }
        ensures { result ≡ record { list = [] } }
    {
        Verbs {
            alloc,
            verbs: Vec::new(alloc),
            size: 0,
            later: 0,
            limit,
            space,
            of: PhantomData,
        }
    }

    /// Returns the number of verbs, which is at most 255, and never more than there may be.
    pub fn len(&self) -> usize
        ensures value { result ≡ length self.now.list }
        ensures limited { result ≤ B.most Setting.Verbs }
        ensures byte { result ≤ 255 }
    {
        self.verbs.len()
    }

    /// Returns the number of bytes of the grammar, which is never more than there may be.
    pub fn size(&self) -> usize
        ensures value { result ≡ verbs_size self.now.list }
        ensures limited { result ≤ B.most Setting.GrammarLines }
    {
        self.size
    }

    /// Returns the number of values in the grammar that are known later; as many fixups are written.
    pub fn later_count(&self) -> usize
        ensures { result ≡ verbs_laters self.now.list }
    {
        self.later
    }

    /// Adds a verb without lines and returns its number, which counts the verbs before it.
    ///
    /// Returns an error, the first that applies: `TooMany` where there are 255 verbs, `Full` where there are as many as
    /// there may be, `NoSpace` where the grammar would have more bytes than it may have, `Memory` where no memory is
    /// left. All verbs then stay as they were.
    #[tactic(auto, using(inf_area::proofs::Sums::sum_of_push, crate::proofs::Sizes::few_laters))]
    pub fn add(&mut self) -> Result<u8, VerbFault>
        ensures ok { OnOk result (self.new ≡ with_verb self.old) }
        ensures number { IfOk result (λ number. number ≡ length self.old.list) }
        ensures err { OnErr result (self.new ≡ self.old) }
        ensures fault { let fault = add_fault B.most self.old in
            MatchResult result (λ _. fault ≡ None) (λ refused. refused ≡ unwrap_or fault VerbFault.Memory) }
    {
        let number = self.verbs.len();
        if let Some(fault) = self.add_fault() {
            return Err(fault);
        }
        self.verbs.push(Verb::new(self.alloc))?;
        self.size += 3;
        self.later += 1;
        Ok(number as u8)
    }

    // Returns the reason why another verb cannot be added, whatever memory there is.
    fn add_fault(&self) -> Option<VerbFault>
        ensures value { result ≡ add_fault B.most self.now }
        ensures few { IfNone result (length self.now.list < 255) }
        ensures room { IfNone result (length self.now.list < B.most Setting.Verbs) }
        ensures space { IfNone result (verbs_size self.now.list + 3 ≤ B.most Setting.GrammarLines) }
    {
        if self.verbs.len() >= MOST {
            return Some(VerbFault::TooMany);
        }
        if self.verbs.len() >= self.limit {
            return Some(VerbFault::Full);
        }
        if self.space - self.size < 3 {
            return Some(VerbFault::NoSpace);
        }
        None
    }

    /// Prepares the verb with this number for further lines at `place`. To replace the lines takes those away that
    /// there are. Where no memory is left, returns an error, and all verbs stay as they were.
    pub fn extend(&mut self, number: u8, place: LinePlace) -> Result<(), AllocError>
        requires { number < length self.old.list }
        ensures ok { OnOk result (self.new ≡ with_extended number place self.old) }
        ensures err { OnErr result (self.new ≡ self.old) }
    {
        let index = number as usize;
        let old = &self.verbs[index];
        let (size, later) = (old.size(), old.later_count());
        self.verbs[index].extend(place)?;
        let new = &self.verbs[index];
        self.size = self.size - size + new.size();
        self.later = self.later - later + new.later_count();
        Ok(())
    }

    /// Adds a line to the verb with this number, at the place that `extend` was given for it: the line means `action`,
    /// and its nouns may change places. The lines of a new verb go behind one another.
    ///
    /// Returns an error, the first that applies: `NoSpace` where the grammar would have more bytes than it may have,
    /// `Memory` where no memory is left. All verbs then stay as they were.
    pub fn add_line(
        &mut self,
        number: u8,
        place: LinePlace,
        action: u16,
        is_reverse: bool,
        tokens: &[LineToken],
    ) -> Result<(), LineFault>
        requires { number < length self.old.list }
        ensures ok { OnOk result (self.new
            ≡ with_line_of number place (record { action = action; is_reverse = is_reverse; tokens = tokens.now }) self.old) }
        ensures err { OnErr result (self.new ≡ self.old) }
        ensures fault { let fault = line_fault_of B.most (length tokens.now) self.old in
            MatchResult result (λ _. fault ≡ None) (λ refused. refused ≡ unwrap_or fault LineFault.Memory) }
    {
        if (self.space - self.size) / 3 <= tokens.len() {
            return Err(LineFault::NoSpace);
        }
        let line = Line::new(self.alloc, action, is_reverse, tokens)?;
        let size = 3 + 3 * tokens.len();
        let later = prepositions(tokens);
        self.verbs[number as usize].add(place, line, size, later)?;
        self.size += size;
        self.later += later;
        Ok(())
    }

    /// Appends the grammar to its area: a place for the address of each verb's lines, then for each verb the number of
    /// its lines, modulo 256, and these; and the fixups of addresses and prepositions to `refs`.
    ///
    /// Returns an error, the first that applies: `Full` where there would be more fixups than there may be, `Memory`
    /// where no memory is left. Area and fixups then stay as they were.
    #[tactic(auto, using(crate::proofs::Sizes::laters_written))]
    pub fn write<A: Area>(&self, area: &mut A, refs: &mut Refs) -> Result<(), WriteFault>
        ensures bytes { OnOk result (A.bytes area.new ≡ A.bytes area.old ++ bytes_of (grammar_cells self.now.list)) }
        ensures fixups { OnOk result (refs.new ≡ with_fixups
            (refs.old.list ++ fixups_of AreaName.Grammar (length (A.bytes area.old)) (grammar_cells self.now.list)) refs.old) }
        ensures room { OnOk result (length refs.old.list + verbs_laters self.now.list ≤ refs.old.limit) }
        ensures bytes_stay { OnErr result (A.bytes area.new ≡ A.bytes area.old) }
        ensures fixups_stay { OnErr result (refs.new ≡ refs.old) }
        ensures full { IfErr result (λ fault. fault ≡ WriteFault.Full
            → refs.old.limit < length refs.old.list + verbs_laters self.now.list) }
        ensures memory { IfErr result (λ fault. fault ≡ WriteFault.Memory
            → length refs.old.list + verbs_laters self.now.list ≤ refs.old.limit) }
    {
        if refs.limit() - refs.len() < self.later {
            return Err(WriteFault::Full);
        }
        let Ok(cells) = self.cells() else {
            return Err(WriteFault::Memory);
        };
        append_cells(self.alloc, AreaName::Grammar, area, refs, cells.as_slice())
    }

    // Returns the cells of the grammar.
    fn cells(&self) -> Result<Cells, AllocError>
        ensures { IfOk result (λ cells. cells ≡ grammar_cells self.now.list) }
    {
        let mut cells = addresses(self.alloc, &self.verbs)?;
        add_parts(&mut cells, &self.verbs)?;
        Ok(cells)
    }

    /// Returns the places where the lines of each verb begin in the written grammar, in bytes from its front.
    pub fn places(&self) -> Result<Vec<usize>, AllocError>
        ensures { IfOk result (λ places. places.items ≡ places_of self.now.list) }
    {
        places_of(self.alloc, &self.verbs, self.size)
    }
}

/// Returns the places where the lines of `verbs` begin, which have `size` bytes.
#[tactic(auto, using(crate::proofs::Sizes::size_parts))]
fn places_of(alloc: Global, verbs: &[Verb], size: usize) -> Result<Vec<usize>, AllocError>
    requires few { length verbs.now ≤ 255 }
    requires size { size ≡ verbs_size verbs.now }
    ensures { IfOk result (λ places. places.items ≡ places_of verbs.now) }
{
    let mut places = Vec::with_capacity(alloc, verbs.len())?;
    let mut at = 2 * verbs.len();
    for verb in verbs {
        places.push(at)?;
        at += 1 + verb.size();
    }
    Ok(places)
}

/// Returns places for the addresses of the lines of `verbs`.
fn addresses(alloc: Global, verbs: &[Verb]) -> Result<Cells, AllocError>
    ensures { IfOk result (λ cells. cells ≡ address_cells (length verbs.now)) }
{
    let mut cells = Cells::new(alloc);
    for number in 0..verbs.len() {
        cells.later(Target::Part(AreaName::Grammar, number))?;
    }
    Ok(cells)
}

/// Appends the lines of `verbs`.
fn add_parts(cells: &mut Cells, verbs: &[Verb]) -> Result<(), AllocError>
    ensures { OnOk result (cells.new ≡ cells.old ++ parts_cells verbs.now) }
{
    for verb in verbs {
        verb.add_to(cells)?;
    }
    Ok(())
}
