//! The files that are open, each with its lexer.
ghost use Rattle.std.specs.Prelude.{◌≡◌, ◌+◌, ◌-◌, ◌<◌, ◌⊎◌, ◌++◌, [], ◌∷◌, ℕ, false, true, is_err, is_ok, length, map, reverse, slice_get};
ghost use Rattle.std.specs.Prelude.{unwrap_or, None, IfErr, IfNone, IfOk, IfSome, OnOk, IsErrOf, IsTrue};
ghost use Rattle.inf_devices.specs.Files.{Openings, Rose, Sources};
ghost use Rattle.inf_lexer.specs.{Entering.AreOpened, Entering.Tries, Entering.tells_failure, Heads.is_behind, Names.can_name};
ghost use Rattle.inf_lexer.specs.{Names.innermost_name, Readers.Took, Readers.TookWord, Readers.at_front, Readers.place_after};
ghost use Rattle.inf_lexer.specs.{Reading.tells_read, Unread.unread};
ghost use Rattle.inf_sources.specs.{Cursors.RefusesToken, Heading.ReadsHead, Heading.UnfinishedHead, Quoted.KeepsFew};
ghost use Rattle.inf_sources.specs.Calls.{AskedTooMany, Honestly, Kept, ReadsFile, StaysFit, Went, given_each, has_entered, tells_device};
ghost use Rattle.inf_sources.specs.Choosing.{chosen, file_with, nesting_chosen, nesting_with, open_with};
ghost use Rattle.inf_sources.specs.Inclusions.{Includes, OpensTooMany, closed, inclusion};
ghost use Rattle.inf_sources.specs.Open.{AllGiven, IsNested, MainEntered, Moves, Reads, closed_to, nesting, opened_since, waits};

use crate::faults::IncludeFault;
use crate::open_file::{Conditional, OpenFile};
use arrayvec::ArrayVec;
use inf_devices::files::Files;
use inf_lexer::{EnterFault, HeadPlace, LexFault, Lexer, Stack, Token};
use inf_text::CharSet;
use std::alloc::Global;
use std::marker::Model;
use std::mem;

/// The result of an inclusion.
#[derive(Clone, Copy)]
pub enum Included {
    /// A file was entered.
    Entered,
    /// No file has one of the names that it may mean.
    NotThere,
    /// 16 files are open already.
    TooDeep,
}

/// Sets the character set by which some files that wait will be read.
fn set_all(files: &mut [OpenFile], set: CharSet)
    ensures { files.new ≡ map (file_with set) files.old }
{
    for at in 0..files.len() {
        files[at].lexer.set_characters(set);
    }
}

/// The files that are open: their names, the lexer of the innermost, and the others as they were left.
///
/// With an honest reader they have a `Nesting`: the rest of each file that is still to come.
#[derive(Drop)]
pub struct OpenFiles {
    alloc: Global,
    names: Stack,
    /// The lexer of the innermost file.
    lexer: Lexer,
    /// The files that wait for it, the main one first.
    outer: Vec<OpenFile>,
}

impl Model for OpenFiles {
    ghost use Rattle.std.specs.Prelude.{◌≡◌, ◌++◌, [], ◌∷◌};
    ghost use Rattle.inf_sources.specs.Open.{AllWait, Open, files_of, lexers_of};

    ghost Value = { Open };

    ghost view = { λ o. record { nest = o.names; lexer = o.lexer; outer = o.outer.items } };

    ghost invariant = { λ o. (o.names.open_files ≡ files_of (lexers_of o.outer.items) ++ o.lexer.file ∷ [])
        × ((o.lexer.set ≡ o.names.set) × ((o.lexer.limit ≡ o.names.limit) × AllWait o.names.set o.names.limit (lexers_of o.outer.items))) };
}

impl OpenFiles {
    /// Enters the main source, by its whole name. Files are read by the character set `set`; a quoted token of theirs
    /// may have `limit` bytes.
    ///
    /// The errors: `BadName` for an empty name; `Absent` and `Device` of the reader; `Memory` where there is no room,
    /// which is asked for before the source is opened.
    pub fn enter_main<F: Files>(
        alloc: Global,
        set: CharSet,
        limit: u32,
        files: &mut F,
        name: &str,
    ) -> Result<OpenFiles, EnterFault>
        ensures front { IfOk result (λ o. (o.lexer ≡ at_front set limit 0)
            × ((o.outer ≡ []) × AreOpened o.nest.names (F.opened files.new))) }
        ensures entered { IsTrue (F.is_honest files.old) → IfOk result
            (MainEntered (F.sources files.old) name.now set limit (F.openings files.old) (F.openings files.new)) }
        ensures refused { IsTrue (F.is_honest files.old) → IfErr result (λ fault. (F.openings files.new ≡ F.openings files.old)
            × (fault ≡ EnterFault.Absent → F.sources files.old name.now ≡ None)) }
        ensures empty { (IsErrOf result EnterFault.BadName → length name.now ≡ 0)
            × (length name.now ≡ 0 → IsErrOf result EnterFault.BadName × (files.new ≡ files.old)) }
        ensures cause { (IsErrOf result EnterFault.TooDeep → ⊥)
            × (IsErrOf result EnterFault.Device → Rose (F.faults files.old) (F.faults files.new)) }
        ensures tries { Tries F.Files (is_ok result) (tells_failure result) files.old files.new }
        ensures kept { Kept F.Files files.old files.new }
    {
        let mut names = Stack::new(alloc, set, limit);
        let lexer = names.enter_main(files, name)?;
        Ok(OpenFiles {
            alloc,
            names,
            lexer,
            outer: Vec::new(alloc),
        })
    }

    /// Returns the names of the files, by their numbers.
    pub fn names(&self) -> &Stack
        ensures { result.now ≡ self.now.nest }
    {
        &self.names
    }

    /// Returns the name of the innermost file.
    pub fn innermost(&self) -> &str
        ensures value { result.now ≡ innermost_name self.now.nest }
        ensures file { result.now ≡ unwrap_or (slice_get self.now.nest.names self.now.lexer.file) [] }
    {
        self.names.innermost()
    }

    /// Returns the bytes of the token that was read last, as `Lexer::spelling` gives them.
    pub fn spelling(&self) -> &[u8]
        ensures { result.now ≡ self.now.lexer.kept.bytes }
    {
        self.lexer.spelling()
    }

    /// Returns the character set by which all open files are read, and those that are entered later.
    pub fn characters(&self) -> CharSet
        ensures innermost { result ≡ self.now.lexer.set }
        ensures later { result ≡ self.now.nest.set }
    {
        self.lexer.characters()
    }

    /// Reads by the character set `set` from the next token on, in each file that is open, and in those that are entered later.
    pub fn set_characters(&mut self, set: CharSet)
        ensures value { self.new ≡ open_with set self.old }
        ensures nesting { (sources : Sources) (start now : Openings) →
            nesting sources start now self.new ≡ nesting_with set (nesting sources start now self.old) }
        ensures nested { (start now : Openings) → IsNested start now self.old → IsNested start now self.new }
        ensures given_all { (sources : Sources) (n : ℕ) (now : Openings) →
            AllGiven sources n now self.old → AllGiven sources n now self.new }
        ensures given { given_each self.new ≡ given_each self.old }
    {
        self.names.set_characters(set);
        self.lexer.set_characters(set);
        set_all(self.outer.as_mut_slice(), set);
    }

    /// Reads by the character set `set` from the next token on, and lets quoted tokens have `limit` bytes, in the main source, which is
    /// open alone, and in files that are entered later.
    pub fn choose(&mut self, set: CharSet, limit: u32)
        requires alone { self.old.outer ≡ [] }
        ensures value { self.new ≡ chosen set limit self.old }
        ensures nesting { (sources : Sources) (start now : Openings) →
            nesting sources start now self.new ≡ nesting_chosen set limit (nesting sources start now self.old) }
        ensures nested { (start now : Openings) → IsNested start now self.old → IsNested start now self.new }
        ensures given_all { (sources : Sources) (n : ℕ) (now : Openings) →
            AllGiven sources n now self.old → AllGiven sources n now self.new }
        ensures given { given_each self.new ≡ given_each self.old }
    {
        self.names.choose(set, limit);
        self.lexer.choose(set, limit);
    }

    /// Returns the next token of the innermost file; at its end that is the end, again and again.
    ///
    /// Returns an error: `Read` where the file could not be read, or has more than 16,777,216 bytes; `Memory` where
    /// there is no room for a quoted token.
    pub fn next<F: Files>(&mut self, files: &mut F) -> Result<Token, LexFault>
        requires is_open { length self.old.outer < F.depth files.old }
        requires goes { self.old.lexer.has_failed ≡ false }

        // With an honest reader the token is the next one of the file's rest, and nothing else changes.
        ensures token { Honestly F.Files files.old self.old (λ start. IfOk result (λ token. Reads token self.new.lexer.kept.bytes
            (nesting (F.sources files.old) start (F.openings files.old) self.old)
            (nesting (F.sources files.old) start (F.openings files.new) self.new))) }
        ensures reads { ReadsFile F.Files (tells_read result) files.old files.new self.old self.new }
        ensures took { IfOk result (λ token. Took token.kind self.old.lexer.window self.new.lexer.window self.new.lexer.kept
            × KeepsFew self.old.nest.limit token.kind self.new.lexer.kept) }
        ensures refused { IsTrue (F.is_honest files.old) → (start : Openings) → IfErr result
            (RefusesToken (nesting (F.sources files.old) start (F.openings files.old) self.old).cursor
            (self.new.lexer.window.given - 16777216) (unread (F.sources files.old) (F.openings files.new))) }
        ensures failed { self.new.lexer.has_failed ≡ is_err result }
    {
        let token = self.lexer.next(files)?;
        Ok(token)
    }

    /// Reads the next word of the head of the innermost file into `word`, as `Lexer::next_head_word` reads it, keeping at most 256 bytes,
    /// and returns whether there was one. `place` says where the head goes on: `HeadPlace::Line` before the first call.
    ///
    /// Returns the error `Read` where the file could not be read, or has more than 16,777,216 bytes.
    pub fn next_head_word<F: Files>(
        &mut self,
        files: &mut F,
        place: &mut HeadPlace,
        word: &mut ArrayVec<u8, 256>,
    ) -> Result<bool, LexFault>
        requires is_open { length self.old.outer < F.depth files.old }
        requires goes { self.old.lexer.has_failed ≡ false }
        ensures word { Honestly F.Files files.old self.old (λ start. IfOk result (λ is_word.
            ReadsHead is_word place.new word.new.items place.old (nesting (F.sources files.old) start (F.openings files.old) self.old)
            (nesting (F.sources files.old) start (F.openings files.new) self.new))) }
        ensures reads { ReadsFile F.Files (tells_read result) files.old files.new self.old self.new }
        ensures took { (place.new ≡ place_after result place.old)
            × IfOk result (λ is_word. TookWord is_word place.old self.old.lexer.window self.new.lexer.window) }
        ensures refused { IfErr result (λ fault. (fault ≡ LexFault.Read) × (IsTrue (F.is_honest files.old) → (start : Openings) →
            is_behind place.old ≡ false → UnfinishedHead place.old
            (nesting (F.sources files.old) start (F.openings files.old) self.old).cursor
            (self.new.lexer.window.given - 16777216) (unread (F.sources files.old) (F.openings files.new)))) }
        ensures failed { self.new.lexer.has_failed ≡ is_err result }
    {
        let is_word = self.lexer.next_head_word(files, place, word)?;
        Ok(is_word)
    }

    /// Enters the file that the text of an inclusion names, in these directories or beside the innermost file; that file is then the
    /// innermost. A name that no file has, one that is empty or has a byte over 127, and a seventeenth file open nothing.
    ///
    /// The conditionals and the mark are those of the innermost file. They wait with it where a file is entered, which
    /// has no conditional yet and no mark.
    ///
    /// Returns an error: `Device` where the reader failed, or 65,535 other names were opened before; `Memory` where
    /// there is no room, which is asked for before each attempt to open a source.
    pub fn include<F: Files>(
        &mut self,
        files: &mut F,
        directories: &[&str],
        text: &[u8],
        conditionals: &mut Vec<Conditional>,
        is_system: &mut bool,
    ) -> Result<Included, IncludeFault>
        requires goes { self.old.lexer.has_failed ≡ false }

        // With an honest reader the file is the first one that is there, and is read as the innermost one is.
        ensures included { Honestly F.Files files.old self.old (λ start.
            let was = nesting (F.sources files.old) start (F.openings files.old) self.old in
            Includes self.old.lexer.set self.old.nest.limit (F.sources files.old) (reverse conditionals.old.items) is_system.old
            (inclusion (F.sources files.old) (map (λ d. d.now) directories.now) text.now was) was
            (nesting (F.sources files.old) start (F.openings files.new) self.new) result) }
        ensures fits { StaysFit F.Files files.old files.new self.old }

        // The clauses below hold with any reader.
        ensures went { Went F.Files files.old files.new self.old self.new }
        ensures moves { Moves self.old self.new conditionals.old conditionals.new is_system.old is_system.new result }
        ensures goes { OnOk result (self.new.lexer.has_failed ≡ false) }
        ensures settings { (self.new.nest.set ≡ self.old.nest.set) × (self.new.nest.limit ≡ self.old.nest.limit) }
        ensures tries { Tries F.Files (has_entered result) (tells_device result) files.old files.new }
        ensures cause { IsErrOf result IncludeFault.Device → (can_name text.now ≡ true) × (Rose (F.faults files.old) (F.faults files.new)
            ⊎ (AskedTooMany F.Files files.new self.new × Honestly F.Files files.old self.old (λ start.
            let was = nesting (F.sources files.old) start (F.openings files.old) self.old in
            OpensTooMany (inclusion (F.sources files.old) (map (λ d. d.now) directories.now) text.now was) was
            (opened_since start (F.openings files.new))))) }
    {
        self.outer.reserve(1)?;
        match self.names.enter(files, directories, text) {
            Ok(lexer) => {
                let waits = OpenFile {
                    lexer: mem::replace(&mut self.lexer, lexer),
                    conditionals: mem::replace(conditionals, Vec::new(self.alloc)),
                    is_system: mem::replace(is_system, false),
                };
                self.outer.push_reserved(waits);
                Ok(Included::Entered)
            }
            Err(EnterFault::BadName) => Ok(Included::NotThere),
            Err(EnterFault::Absent) => Ok(Included::NotThere),
            Err(EnterFault::TooDeep) => Ok(Included::TooDeep),
            Err(EnterFault::Device) => Err(IncludeFault::Device),
            Err(EnterFault::Memory) => Err(IncludeFault::Memory),
        }
    }

    /// Closes the innermost file, goes on in the one that waits for it, and returns that file's conditionals and mark.
    /// Where none waits, closes nothing and returns `None`.
    pub fn leave<F: Files>(&mut self, files: &mut F) -> Option<(Vec<Conditional>, bool)>
        requires is_open { length self.old.outer < F.depth files.old }
        ensures left { IfSome result (λ back. (self.old.outer ≡ self.new.outer ++ waits self.new.lexer back.0 back.1 ∷ [])
            × (self.new.lexer.has_failed ≡ false)) }
        ensures last { IfNone result ((self.old.outer ≡ []) × ((self.new ≡ self.old) × (files.new ≡ files.old))) }
        ensures nesting { Honestly F.Files files.old self.old (λ start. nesting (F.sources files.old) start (F.openings files.new) self.new
            ≡ closed (nesting (F.sources files.old) start (F.openings files.old) self.old)) }
        ensures went { Went F.Files files.old files.new self.old self.new }
        ensures fits { StaysFit F.Files files.old files.new self.old }
        ensures untouched { (F.faults files.new ≡ F.faults files.old)
            × (((F.counts files.new).too_long ≡ (F.counts files.old).too_long) × (F.opened files.new ≡ F.opened files.old)) }
        ensures all { IsTrue (F.is_honest files.old) → (F.openings files.new).all ≡ (F.openings files.old).all }
        ensures settings { (self.new.nest.set ≡ self.old.nest.set) × (self.new.nest.limit ≡ self.old.nest.limit) }
    {
        let OpenFile {
            lexer,
            conditionals,
            is_system,
        } = self.outer.pop()?;
        self.names.leave(files);
        let left = mem::replace(&mut self.lexer, lexer);
        self.names.keep(left);
        Some((conditionals, is_system))
    }

    /// Closes all files that are open.
    #[tactic(auto, using(inf_lexer::proofs::Opened::stays_as))]
    pub fn close<F: Files>(mut self, files: &mut F)
        requires is_open { length self.outer < F.depth files.old }
        ensures closed { Honestly F.Files files.old self (λ start. F.openings files.new ≡ closed_to start (F.openings files.old)) }
        ensures kept { Kept F.Files files.old files.new }
        ensures untouched { (F.faults files.new ≡ F.faults files.old) × ((F.counts files.new).too_long ≡ (F.counts files.old).too_long) }
        ensures all { IsTrue (F.is_honest files.old) → (F.openings files.new).all ≡ (F.openings files.old).all }
        ensures depth { F.depth files.new + length self.outer + 1 ≡ F.depth files.old }
    {
        while self.leave(files).is_some() {}
        self.names.leave(files);
    }
}
