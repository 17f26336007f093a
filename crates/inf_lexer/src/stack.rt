//! The files that are open, one inside the other.
ghost use Rattle.std.specs.Prelude.{option_copied, string_bytes, ◌≡◌, ◌<◌, ◌≤◌, ◌∷◌, [], true, false, length, map, slice_get, nat_le};
ghost use Rattle.std.specs.Prelude.{IsErrOf, IfOk, Err};
ghost use Rattle.inf_lexer.specs.Names.{can_name, candidates, innermost_name, left, name_in, number_of};
ghost use Rattle.inf_lexer.specs.Entering.{Attempts, ClosesInnermost, Declines, is_absent, is_of_opening};
ghost use Rattle.inf_lexer.specs.Readers.{at_front};

use crate::enter_faults::EnterFault;
use crate::include_names::{fit_name, name_beside, name_in, without_sign};
use crate::lexer::Lexer;
use arrayvec::ArrayVec;
use indexmap::IndexSet;
use inf_devices::files::{Files, OpenFault};
use inf_text::CharSet;
use std::alloc::{AllocError, Global};
use std::marker::Model;

/// Number of files that may be open.
const MOST_OPEN: usize = 16;

/// Number of different names that may be opened.
const MOST_NAMES: usize = 65_535;

/// Returns whether `answer` is that no file had the name.
fn is_absent(answer: &Result<Lexer, EnterFault>) -> bool
    ensures { result ≡ is_absent answer.now }
{
    matches!(answer, Err(EnterFault::Absent))
}

/// Returns a lexer at the front of the source with the number `file`, as `Lexer::new` returns it. Where there is a spare lexer, its memory is
/// taken, and none is asked for.
fn lexer_of(
    spare: &mut Option<Lexer>,
    alloc: Global,
    set: CharSet,
    limit: u32,
    file: u16,
) -> Result<Lexer, AllocError>
    ensures { IfOk result (λ lexer. lexer ≡ at_front set limit file) }
{
    match spare.take() {
        Some(lexer) => Ok(lexer.over(set, limit, file)),
        None => Lexer::new(alloc, set, limit, file),
    }
}

/// The names of the files that were entered, each with its number, and which of them are open.
#[derive(Drop)]
pub struct Stack {
    alloc: Global,
    set: CharSet,
    limit: u32,
    names: IndexSet<String>,
    open_files: ArrayVec<u16, 16>,
    /// A lexer whose source is done with, and whose memory the next one takes.
    spare: Option<Lexer>,
}

impl Model for Stack {
    ghost use Rattle.std.specs.Prelude.{map};
    ghost use Rattle.std.specs.String.{string_bytes};
    ghost use Rattle.inf_lexer.specs.Names.{Nest};

    ghost Value = { Nest };

    ghost view = { λ s. record {
      set = s.set;
      limit = s.limit;
      names = map string_bytes s.names.keys;
      open_files = s.open_files.items;
    } };
}

impl Stack {
    /// Returns a stack of no open files. Files are read by the character set `set`; a quoted token of theirs may have `limit` bytes.
    pub fn new(alloc: Global, set: CharSet, limit: u32) -> Stack
        ensures { result ≡ record { set = set; limit = limit; names = []; open_files = [] } }
    {
        Stack {
            alloc,
            set,
            limit,
            names: IndexSet::new(alloc),
            open_files: ArrayVec::new(),
            spare: None,
        }
    }

    /// Has files that are entered from here on read by the character set `set`.
    pub fn set_characters(&mut self, set: CharSet)
        ensures { self.new ≡ record self.old { set = set } }
    {
        self.set = set;
    }

    /// Has files that are entered from here on read by the character set `set`, and a quoted token of theirs have at most `limit` bytes.
    pub fn choose(&mut self, set: CharSet, limit: u32)
        ensures { self.new ≡ record self.old { set = set; limit = limit } }
    {
        self.set_characters(set);
        self.limit = limit;
    }

    /// Enters the main source, by its whole name, and returns its lexer; it is then the innermost file.
    ///
    /// The faults, in the order of their checks: `BadName` for an empty name; `TooDeep` where 16 files are open, and then nothing is
    /// opened; `Absent` and `Device` of the reader, `Device` also where 65,535 other names were entered before; `Memory` where there is no
    /// room, which is asked for before the source is opened.
    pub fn enter_main<F: Files>(&mut self, files: &mut F, name: &str) -> Result<Lexer, EnterFault>
        ensures attempt { Attempts F.Files files.old files.new (name.now ∷ []) self.old self.new result }
        ensures bad_name { length name.now ≡ 0 → (result ≡ Err EnterFault.BadName) × (files.new ≡ files.old) }
        ensures too_deep { 0 < length name.now → 16 ≤ length self.old.open_files →
            (result ≡ Err EnterFault.TooDeep) × (files.new ≡ files.old) }
        ensures empty { IsErrOf result EnterFault.BadName → length name.now ≡ 0 }
        ensures full { IsErrOf result EnterFault.TooDeep → 16 ≤ length self.old.open_files }
    {
        if name.is_empty() {
            return Err(EnterFault::BadName);
        }
        if self.is_full() {
            return Err(EnterFault::TooDeep);
        }
        let name = String::from_str(self.alloc, name)?;
        self.open_named(files, name)
    }

    /// Enters the file that the text of an inclusion names, and returns its lexer; it is then the innermost file.
    ///
    /// Behind the sign `>` the text is a name in the directory of the innermost file. Without it the file is the first that
    /// is there in these directories, in their order; where there are none, or a directory is empty, it is looked for by
    /// its own name. A name whose last part has no `.` gets `.h`.
    ///
    /// The faults, in the order of their checks: `BadName` for an empty name and for one with a byte over 127; `TooDeep` where 16 files are
    /// open, and then nothing is opened; `Absent` and `Device` of the reader, `Device` also where 65,535 other names were entered before;
    /// `Memory` where there is no room, which is asked for before each attempt to open a source.
    pub fn enter<F: Files>(
        &mut self,
        files: &mut F,
        directories: &[&str],
        text: &[u8],
    ) -> Result<Lexer, EnterFault>
        ensures attempt { Attempts F.Files files.old files.new
            (candidates (map (λ d. d.now) directories.now) (innermost_name self.old) text.now) self.old self.new result }
        ensures declines { Declines (can_name text.now) (length self.old.open_files) (files.new ≡ files.old) result }
    {
        let (is_beside, file) = without_sign(text);
        let Some(file) = fit_name(file) else {
            return Err(EnterFault::BadName);
        };
        if self.is_full() {
            return Err(EnterFault::TooDeep);
        }
        if is_beside {
            let name = name_beside(self.alloc, self.innermost(), file)?;
            return self.open_named(files, name);
        }
        if directories.is_empty() {
            let name = name_in(self.alloc, "", file)?;
            return self.open_named(files, name);
        }
        self.open_first(files, directories, file)
    }

    /// Returns whether 16 files are open, the most that may be.
    fn is_full(&self) -> bool
        ensures { result ≡ nat_le 16 (length self.now.open_files) }
    {
        self.open_files.len() >= MOST_OPEN
    }

    /// Opens the file in the first of `directories` that has it. The faults are those of `enter` from `Absent` on.
    fn open_first<F: Files>(
        &mut self,
        files: &mut F,
        directories: &[&str],
        file: &str,
    ) -> Result<Lexer, EnterFault>
        requires { length self.old.open_files < 16 }
        ensures attempt { Attempts F.Files files.old files.new (map (λ d. name_in d.now file.now) directories.now) self.old self.new result }
        ensures named { is_of_opening result ≡ true }
    {
        for directory in directories {
            let name = name_in(self.alloc, directory, file)?;
            let answer = self.open_named(files, name);
            if !is_absent(&answer) {
                return answer;
            }
        }
        Err(EnterFault::Absent)
    }

    /// Opens the file with the name `name`. The faults are those of `enter` from `Absent` on.
    fn open_named<F: Files>(&mut self, files: &mut F, name: String) -> Result<Lexer, EnterFault>
        requires { length self.old.open_files < 16 }
        ensures attempt { Attempts F.Files files.old files.new (string_bytes name ∷ []) self.old self.new result }
        ensures named { is_of_opening result ≡ true }
    {
        let number = self.number_of(name.as_str());
        self.names.reserve(1)?;
        let file = number.min(MOST_NAMES) as u16;
        let lexer = lexer_of(&mut self.spare, self.alloc, self.set, self.limit, file)?;
        match files.open(name.as_str()) {
            Ok(()) => {}
            Err(OpenFault::Absent) => {
                self.keep(lexer);
                return Err(EnterFault::Absent);
            }
            Err(OpenFault::Device) => return Err(EnterFault::Device),
            Err(OpenFault::Memory) => return Err(EnterFault::Memory),
        }
        if number >= MOST_NAMES {
            files.close();
            return Err(EnterFault::Device);
        }
        let _ = self.names.insert(name);
        self.open_files.push(file);
        Ok(lexer)
    }

    /// Keeps a lexer whose source is done with. The next file that is entered is read in its memory.
    pub fn keep(&mut self, lexer: Lexer)
        ensures { self.new ≡ self.old }
    {
        self.spare = Some(lexer);
    }

    /// Returns the number of the name `name`: how many names came before it.
    fn number_of(&self, name: &str) -> usize
        ensures { result ≡ number_of name.now self.now.names }
    {
        self.names.get_index_of(name).unwrap_or(self.names.len())
    }

    /// Returns the name of the file with the number `file`, if there is one.
    pub fn name(&self, file: u16) -> Option<&str>
        ensures { option_copied result ≡ slice_get self.now.names file }
    {
        match self.names.get_index(usize::from(file)) {
            Some(name) => Some(name.as_str()),
            None => None,
        }
    }

    /// Returns the name of the innermost file; an empty one where no file is open.
    pub fn innermost(&self) -> &str
        ensures { result.now ≡ innermost_name self.now }
    {
        let Some(file) = self.open_files.as_slice().last() else {
            return "";
        };
        match self.name(*file) {
            Some(name) => name,
            None => "",
        }
    }

    /// Closes the innermost file.
    pub fn leave<F: Files>(&mut self, files: &mut F)
        requires is_open { 0 < F.depth files.old }
        ensures closes { ClosesInnermost F.Files files.old files.new }
        ensures left { self.new ≡ left self.old }
    {
        files.close();
        let _ = self.open_files.pop();
    }
}
