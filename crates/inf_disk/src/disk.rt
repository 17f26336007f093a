ghost use Rattle.std.specs.{Io.KnownBytes.ReadConsumes, Io.KnownBytes.WriteAppends, IoError.error_kind, IoError.raw_os_error};
ghost use Rattle.std.specs.String.{string_bytes};
ghost use Rattle.std.specs.Prelude.{◌≡◌, ◌==◌, ◌&&◌, IsTrue, ◌+◌, ◌<◌, ◌≤◌, [], ◌∷◌, ◌++◌, None, Some, Ok, Err, true, false, IsErr, IsOk};
ghost use Rattle.std.specs.Prelude.{IsSome, IsErrOf, IfOk, IfSome, OnOk, is_ok, length, min, if◌then◌else◌};
ghost use Rattle.inf_devices.specs.Files.{Rose, counts_closed, counts_opened, counts_read, last_count, nothing_given, tells_failure};
ghost use Rattle.inf_devices.specs.Files.{with_name};
ghost use Rattle.inf_disk.specs.{Disk.fault_of_kind, Disk.is_named_as_source, Disk.story_options, Disk.OpensFile, Disk.ReadsLast};
ghost use Rattle.inf_disk.specs.{Disk.WritesMade, Trouble.ReadTrouble, Trouble.WriteTrouble};

use inf_devices::failures::Failures;
use inf_devices::files::{Files, OpenFault, ReadFault};
use inf_devices::given_bytes::GivenBytes;
use inf_devices::opened_names::OpenedNames;
use inf_devices::sinks::{Sink, SinkFault};
use std::alloc::Global;
use std::cell::Cell;
use std::fs::{Metadata, OpenFile, OpenOptions};
use std::io::{self, ErrorKind, Read, Write};
use std::os::unix::fs::MetadataExt;
use std::{fs, rt};

/// The failures of a device of the system.
#[derive(Drop)]
pub struct Trouble {
    /// The number of failures.
    pub failures: Failures,
    /// The reason of its last call that failed, if one did. A file that is opened leaves none.
    pub reason: Option<ErrorKind>,
    /// The system's number for the reason of the last call that the system refused, where it gave one.
    pub number: Option<i32>,
}

impl Trouble {
    /// Returns the record of a device that has not failed.
    pub fn none() -> Trouble
        ensures failures { result.failures ≡ 0 }
        ensures reason { result.reason ≡ None }
        ensures number { result.number ≡ None }
    {
        Trouble {
            failures: Failures::none(),
            reason: None,
            number: None,
        }
    }

    /// Counts a failure, and keeps its reason.
    pub fn add(&mut self, reason: ErrorKind)
        ensures count { self.new.failures ≡ min (self.old.failures + 1) last_count }
        ensures rose { Rose self.old.failures self.new.failures }
        ensures later { self.old.failures ≤ self.new.failures }
        ensures reason { self.new.reason ≡ Some reason }
        ensures number { self.new.number ≡ self.old.number }
    {
        self.failures.add();
        self.reason = Some(reason);
    }

    /// Counts a failure of the system, and keeps its reason and number.
    fn add_error(&mut self, error: &io::Error)
        ensures rose { Rose self.old.failures self.new.failures }
        ensures later { self.old.failures ≤ self.new.failures }
        ensures reason { self.new.reason ≡ Some (error_kind error.now) }
        ensures number { self.new.number ≡ raw_os_error error.now }
    {
        self.add(error.kind());
        self.number = error.raw_os_error();
    }

    /// Keeps the reason of the system's error and its number, and counts no failure.
    fn keep(&mut self, error: &io::Error)
        ensures calm { self.new.failures ≡ self.old.failures }
        ensures reason { self.new.reason ≡ Some (error_kind error.now) }
        ensures number { self.new.number ≡ raw_os_error error.now }
    {
        self.reason = Some(error.kind());
        self.number = error.raw_os_error();
    }

    /// Keeps the reason and the number for which the system opened no file, and returns the fault. A file that is absent, and want of
    /// memory, are no failures.
    fn refused(&mut self, error: &io::Error) -> OpenFault
        ensures fault { result ≡ fault_of_kind (error_kind error.now) }
        ensures reason { self.new.reason ≡ Some (error_kind error.now) }
        ensures number { self.new.number ≡ raw_os_error error.now }
        ensures rose { result ≡ OpenFault.Device → Rose self.old.failures self.new.failures }
        ensures later { self.old.failures ≤ self.new.failures }
        ensures calm { tells_failure (Err result) ≡ false → self.new.failures ≡ self.old.failures }
    {
        match open_fault(error.kind()) {
            OpenFault::Device => {
                self.add_error(error);
                OpenFault::Device
            }
            OpenFault::Absent => {
                self.keep(error);
                OpenFault::Absent
            }
            OpenFault::Memory => {
                self.keep(error);
                OpenFault::Memory
            }
        }
    }
}

/// A file as the system tells it from others: by the number of its device, and by its own number there.
#[derive(Clone, Copy)]
struct FileNumbers {
    device: u64,
    file: u64,
}

impl FileNumbers {
    /// Returns the numbers of a file, as the system gives them.
    fn of(metadata: &Metadata) -> FileNumbers {
        FileNumbers {
            device: metadata.dev(),
            file: metadata.ino(),
        }
    }

    /// Returns whether both are of one file: both numbers are the same.
    fn is_one(self, other: FileNumbers) -> bool
        ensures { result ≡ (self.device == other.device && self.file == other.file) }
    {
        self.device == other.device && self.file == other.file
    }
}

/// The place where the story of a run is to be written: a name, and whether a source of the run is the file of this
/// name. The devices of a run share it, so that no source is overwritten.
#[derive(Drop)]
pub struct StoryPlace<'r> {
    name: &'r str,
    is_source: Cell<bool>,
    /// The outcome of the first look at the file of this name that had one.
    found: Cell<Look>,
}

/// The outcome of a look at the file that has the story's name.
#[derive(Clone, Copy)]
enum Look {
    /// No look told whether there is one.
    Unknown,
    /// The story's file is not there.
    Absent,
    /// The story's file is there, with these numbers.
    File(FileNumbers),
}

impl<'r> StoryPlace<'r> {
    /// Makes the place of the file with this name, which is no source yet.
    pub fn new(name: &'r str) -> StoryPlace<'r>
        ensures { result.name.now ≡ name.now }
    {
        StoryPlace {
            name,
            is_source: Cell::new(false),
            found: Cell::new(Look::Unknown),
        }
    }

    /// Looks at the file of this name, unless an earlier look told what it is, and returns the outcome. A look that the system refuses for
    /// another reason than that there is no such file tells nothing, and the next call looks again.
    fn look<R: rt::Files>(&self, system: &R) -> Look {
        if let Look::Unknown = self.found.get() {
            match fs::metadata(system, self.name) {
                Ok(story) => self.found.set(Look::File(FileNumbers::of(&story))),
                Err(error) => {
                    if let OpenFault::Absent = open_fault(error.kind()) {
                        self.found.set(Look::Absent);
                    }
                }
            }
        }
        self.found.get()
    }

    /// Returns whether a source that was opened is the file of this name. The contents of a cell are not stated.
    pub fn is_source(&self) -> bool {
        self.is_source.get()
    }

    /// Notes whether a file that was opened as a source is the file of this name, also where it was opened by another name.
    fn look_at<R: rt::Files>(&self, system: &R, source: &R::File) {
        let Look::File(story) = self.look(system) else {
            return;
        };
        let Ok(source) = source.metadata() else {
            return;
        };
        if FileNumbers::of(&source).is_one(story) {
            self.is_source.set(true);
        }
    }
}

fn is_named_as_source(name: &str) -> bool
    ensures { result ≡ is_named_as_source name.now }
{
    let name = name.as_bytes();
    name.ends_with(b".inf") || name.ends_with(b".h")
}

/// Returns the way in which the story's file with this `name` is opened: it is made where there is none, and no byte of an older one
/// stays; but one that is named as a source is only made, and none that is there is opened.
fn story_options(name: &str) -> OpenOptions
    ensures { result ≡ story_options name.now }
{
    let mut options = OpenOptions::new();
    options
        .write(true)
        .create(true)
        .truncate(true)
        .create_new(is_named_as_source(name));
    options
}

/// Files of the system, by their paths. Their contents are not stated.
#[derive(Drop)]
pub struct DiskFiles<'r, R: rt::Files> {
    alloc: Global,
    system: &'r R,
    story: &'r StoryPlace<'r>,
    open_files: Vec<R::File>,
    /// The failures so far.
    pub trouble: Trouble,
    given: GivenBytes,
    /// The different names under which files were opened so far.
    pub names: OpenedNames,
    /// The name of the file that the latest opening asked for, if the device did not open it: none without memory for the name.
    pub refused: Option<String>,
}

impl<'r, R: rt::Files> DiskFiles<'r, R> {
    /// Makes a reader of the files that `system` has, none of them open yet. Where one that is opened is the story's, its place notes it.
    pub fn new(alloc: Global, system: &'r R, story: &'r StoryPlace<'r>) -> DiskFiles<'r, R>
        ensures files { result.open_files.items ≡ [] }
        ensures faults { result.trouble.failures ≡ 0 }
        ensures reason { result.trouble.reason ≡ None }
        ensures number { result.trouble.number ≡ None }
        ensures given { result.given ≡ nothing_given }
        ensures opened { result.names ≡ [] }
        ensures refused { result.refused ≡ None }
    {
        DiskFiles {
            alloc,
            system,
            story,
            open_files: Vec::new(alloc),
            trouble: Trouble::none(),
            given: GivenBytes::none(alloc),
            names: OpenedNames::none(alloc),
            refused: None,
        }
    }
}

/// Returns a copy of the `name` of a file, if it was not opened by a `fault` of the device. Without memory for the copy there is none.
fn refused_name(alloc: Global, fault: OpenFault, name: &str) -> Option<String>
    ensures { IfSome result (λ kept. string_bytes kept ≡ name.now) }
{
    match fault {
        OpenFault::Device => String::from_str(alloc, name).ok(),
        OpenFault::Absent | OpenFault::Memory => None,
    }
}

/// Returns the fault of a file that cannot be opened, by the `kind` of the system's error. The file is absent where none has this name, or
/// none can have it.
fn open_fault(kind: ErrorKind) -> OpenFault
    ensures { result ≡ fault_of_kind kind }
{
    match kind {
        ErrorKind::NotFound
        | ErrorKind::NotADirectory
        | ErrorKind::InvalidInput
        | ErrorKind::InvalidFilename => OpenFault::Absent,
        ErrorKind::OutOfMemory => OpenFault::Memory,
        _ => OpenFault::Device,
    }
}

/// Reads once, and again for as long as a signal comes first. A failure is counted.
fn read_some<F: Read>(
    file: &mut F,
    to: &mut [u8],
    trouble: &mut Trouble,
) -> Result<usize, ReadFault>
    ensures bytes { ReadConsumes (F.remaining file.old) (F.remaining file.new) result to.new }
    ensures count { IfOk result (λ n. n ≤ length to.new) }
    ensures trouble { ReadTrouble result trouble.old trouble.new }
{
    for _ in 0..u64::MAX {
        let error = match file.read(to) {
            Ok(count) => return Ok(count),
            Err(error) => error,
        };
        match error.kind() {
            ErrorKind::Interrupted => {}
            _ => {
                trouble.add_error(&error);
                return Err(ReadFault::Device);
            }
        }
    }
    trouble.add(ErrorKind::TimedOut);
    Err(ReadFault::Device)
}

impl<R: rt::Files> Files for DiskFiles<'_, R> {
    ghost use Rattle.std.specs.Prelude.{length, false, None, []};

    ghost faults = { λ f. f.trouble.failures };

    ghost counts = { λ f. f.given };

    ghost is_honest = { λ _. false };

    ghost sources = { λ _ _. None };

    ghost openings = { λ _. record { all = []; open_places = [] } };

    ghost depth = { λ f. length f.open_files.items };

    ghost opened = { λ f. f.names };

    fn open(&mut self, name: &str) -> Result<(), OpenFault>
        ensures opens { OpensFile self.old.open_files.items self.new.open_files.items self.old.trouble.reason
            self.new.trouble.reason result }
        ensures depth { length self.new.open_files.items ≡ (if is_ok result
            then length self.old.open_files.items + 1 else length self.old.open_files.items) }
        ensures opened { self.new.names ≡ (if is_ok result then with_name name.now self.old.names else self.old.names) }
        ensures cause { IsErrOf result OpenFault.Device → Rose self.old.trouble.failures self.new.trouble.failures }
        ensures faults { (self.old.trouble.failures ≤ self.new.trouble.failures)
            × (tells_failure result ≡ false → self.new.trouble.failures ≡ self.old.trouble.failures) }
        ensures counts { self.new.given ≡ (if is_ok result then counts_opened self.old.given else self.old.given) }
        ensures refused { IfSome self.new.refused (λ kept. string_bytes kept ≡ name.now) }
    {
        self.refused = None;
        self.open_files.reserve(1)?;
        self.given.open()?;
        let is_new = !self.names.has(name);
        match fs::open(self.system, name) {
            Ok(file) => {
                if self.names.add(name).is_err() {
                    self.given.close();
                    return Err(OpenFault::Memory);
                }
                self.trouble.reason = None;
                if is_new {
                    self.story.look_at(self.system, &file);
                }
                self.open_files.push_reserved(file);
                Ok(())
            }
            Err(error) => {
                self.given.close();
                let fault = self.trouble.refused(&error);
                self.refused = refused_name(self.alloc, fault, name);
                Err(fault)
            }
        }
    }

    fn read(&mut self, to: &mut [u8]) -> Result<usize, ReadFault>
        requires is_open { 0 < length self.old.open_files.items }
        ensures bytes { ReadsLast (R.File.remaining) self.old.open_files.items self.new.open_files.items result to.new }
        ensures count { IfOk result (λ n. n ≤ length to.new) }
        ensures counts { self.new.given ≡ counts_read result self.old.given }
        ensures depth { length self.new.open_files.items ≡ length self.old.open_files.items }
        ensures opened { self.new.names ≡ self.old.names }
        ensures trouble { ReadTrouble result self.old.trouble self.new.trouble }
    {
        let last = self.open_files.len() - 1;
        let count = read_some(&mut self.open_files[last], to, &mut self.trouble)?;
        self.given.add(count);
        Ok(count)
    }

    fn close(&mut self)
        requires is_open { 0 < length self.old.open_files.items }
        ensures files { (file : _) × (self.old.open_files.items ≡ self.new.open_files.items ++ file ∷ []) }
        ensures depth { length self.new.open_files.items + 1 ≡ length self.old.open_files.items }
        ensures opened { self.new.names ≡ self.old.names }
        ensures faults { self.new.trouble.failures ≡ self.old.trouble.failures }
        ensures reason { self.new.trouble.reason ≡ self.old.trouble.reason }
        ensures counts { self.new.given ≡ counts_closed self.old.given }
    {
        let _ = self.open_files.pop();
        self.given.close();
    }
}

/// Writes once, and again for as long as a signal comes first. A failure, and a write of nothing, is counted.
fn write_some<W: Write>(to: &mut W, bytes: &[u8], trouble: &mut Trouble) -> Result<usize, SinkFault>
    requires { 0 < length bytes.now }
    ensures bytes { WriteAppends (W.contents to.old) (W.contents to.new) result bytes.now }
    ensures count { IfOk result (λ n. n ≤ length bytes.now) }
    ensures trouble { WriteTrouble result trouble.old trouble.new }
    ensures patient { IsErr result → ¬ (trouble.new.reason ≡ Some ErrorKind.Interrupted) }
{
    for _ in 0..u64::MAX {
        let error = match to.write(bytes) {
            Ok(0) => {
                trouble.add(ErrorKind::WriteZero);
                return Ok(0);
            }
            Ok(count) => return Ok(count),
            Err(error) => error,
        };
        match error.kind() {
            ErrorKind::Interrupted => continue,
            _ => {
                trouble.add_error(&error);
                return Err(SinkFault::Device);
            }
        }
    }
    trouble.add(ErrorKind::TimedOut);
    Err(SinkFault::Device)
}

/// An open output. The bytes that it took are not stated.
#[derive(Drop)]
pub struct OutputSink<W: Write> {
    output: W,
    /// The failures so far.
    pub trouble: Trouble,
}

impl<W: Write> OutputSink<W> {
    /// Makes a sink that writes to `output`.
    pub fn new(output: W) -> OutputSink<W>
        ensures output { result.output ≡ output }
        ensures failures { result.trouble.failures ≡ 0 }
        ensures reason { result.trouble.reason ≡ None }
        ensures number { result.trouble.number ≡ None }
    {
        OutputSink {
            output,
            trouble: Trouble::none(),
        }
    }
}

impl<W: Write> Sink for OutputSink<W> {
    ghost use Rattle.std.specs.Prelude.{None};

    ghost taken = { λ _. None };

    ghost failures = { λ s. s.trouble.failures };

    fn write(&mut self, bytes: &[u8]) -> Result<usize, SinkFault>
        requires { 0 < length bytes.now }
        ensures bytes { WriteAppends (W.contents self.old.output) (W.contents self.new.output) result bytes.now }
        ensures count { IfOk result (λ n. n ≤ length bytes.now) }
        ensures trouble { WriteTrouble result self.old.trouble self.new.trouble }
        ensures patient { IsErr result → ¬ (self.new.trouble.reason ≡ Some ErrorKind.Interrupted) }
    {
        write_some(&mut self.output, bytes, &mut self.trouble)
    }
}

/// A file for a story, which is made when its first byte comes: a file that was there before stays as it was until
/// then, and a source of the run for ever. The bytes that it took are not stated.
#[derive(Drop)]
pub struct StorySink<'r, R: rt::Files> {
    system: &'r R,
    place: &'r StoryPlace<'r>,
    file: Option<R::File>,
    /// The failures so far.
    pub trouble: Trouble,
}

impl<'r, R: rt::Files> StorySink<'r, R> {
    /// Makes a sink for the file at this place, which is not made yet.
    pub fn new(system: &'r R, place: &'r StoryPlace<'r>) -> StorySink<'r, R>
        ensures name { result.place.now.name.now ≡ place.now.name.now }
        ensures file { result.file ≡ None }
        ensures failures { result.trouble.failures ≡ 0 }
        ensures reason { result.trouble.reason ≡ None }
        ensures number { result.trouble.number ≡ None }
    {
        StorySink {
            system,
            place,
            file: None,
            trouble: Trouble::none(),
        }
    }

    /// Makes the file where there is none yet, unless it is a source of the run, which is neither opened nor made then.
    fn make(&mut self, is_source: bool) -> Result<(), SinkFault>
        ensures made { OnOk result (IsSome self.new.file) }
        ensures held { IsSome self.old.file → IsOk result × (self.new.file ≡ self.old.file) }
        ensures none { IsErr result → self.new.file ≡ None }
        ensures spared { IsTrue is_source → self.old.file ≡ None → IsErr result × (self.new.trouble.reason ≡ Some ErrorKind.ResourceBusy) }
        ensures kept { OnOk result (self.new.trouble ≡ self.old.trouble) }
        ensures failed { IsErr result → Rose self.old.trouble.failures self.new.trouble.failures }
        ensures reason { IsErr result → IsSome self.new.trouble.reason }
        ensures later { self.old.trouble.failures ≤ self.new.trouble.failures }
    {
        if self.file.is_some() {
            return Ok(());
        }
        if is_source {
            self.trouble.add(ErrorKind::ResourceBusy);
            return Err(SinkFault::Device);
        }
        match story_options(self.place.name).open(self.system, self.place.name) {
            Ok(file) => {
                self.file = Some(file);
                Ok(())
            }
            Err(error) => {
                self.trouble.add_error(&error);
                Err(SinkFault::Device)
            }
        }
    }
}

impl<R: rt::Files> StorySink<'_, R> {
    /// Returns whether the file is a regular one, as far as the system says so: a device that is no file can't be told to keep its bytes.
    fn is_regular(file: &R::File) -> bool {
        match file.metadata() {
            Ok(metadata) => metadata.is_file(),
            Err(_) => true,
        }
    }

    /// Has the system keep the bytes of the file, if one was made that is a regular one, and returns the failure of the device if it can't:
    /// a disk that is full or broken may say so only now. The failure is counted, and its reason kept.
    pub fn settle(&mut self) -> Result<(), SinkFault>
        ensures file { self.new.file ≡ self.old.file }
        ensures kept { OnOk result (self.new.trouble ≡ self.old.trouble) }
        ensures nothing { self.old.file ≡ None → IsOk result }
        ensures failed { IsErr result → Rose self.old.trouble.failures self.new.trouble.failures }
        ensures reason { IsErr result → IsSome self.new.trouble.reason }
    {
        let Some(file) = &self.file else {
            return Ok(());
        };
        if !StorySink::<R>::is_regular(file) {
            return Ok(());
        }
        match file.sync_all() {
            Ok(()) => Ok(()),
            Err(error) => {
                // the bytes may be lost
                self.trouble.add_error(&error);
                Err(SinkFault::Device)
            }
        }
    }
}

impl<R: rt::Files> Sink for StorySink<'_, R> {
    ghost use Rattle.std.specs.Prelude.{None};

    ghost taken = { λ _. None };

    ghost failures = { λ s. s.trouble.failures };

    fn write(&mut self, bytes: &[u8]) -> Result<usize, SinkFault>
        requires { 0 < length bytes.now }
        ensures bytes { WritesMade (R.File.contents) self.old.file self.new.file result bytes.now }
        ensures count { IfOk result (λ n. n ≤ length bytes.now) }
        ensures trouble { WriteTrouble result self.old.trouble self.new.trouble }
        ensures patient { IsErr result → self.new.trouble.reason ≡ Some ErrorKind.Interrupted → self.new.file ≡ None }
    {
        self.make(self.place.is_source())?;
        match &mut self.file {
            Some(file) => write_some(file, bytes, &mut self.trouble),
            None => unreachable!(),
        }
    }
}
