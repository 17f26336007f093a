//! Devices for tests: a sink that takes little, and a reader that gives little.
ghost use Rattle.std.specs.Prelude.{Some, [], true, length};
ghost use Rattle.inf_devices.specs.{Files.names_from, MemoryFiles.sources_of};

use inf_devices::failures::Failures;
use inf_devices::files::{Files, OpenFault, ReadFault};
use inf_devices::memory_files::MemoryFiles;
use inf_devices::memory_sink::MemorySink;
use inf_devices::sinks::{Sink, SinkFault};
use std::alloc::Global;
use std::collections::BTreeMap;
use std::test::Fail;

/// A sink that takes at most `most` bytes a write, states them, and fails once it took `room` bytes in all.
#[derive(Drop)]
pub struct Narrow {
    pub whole: MemorySink,
    most: usize,
    room: usize,
    failures: Failures,
}

impl Narrow {
    /// Makes a sink that took nothing yet.
    pub fn new(alloc: Global, most: usize, room: usize) -> Narrow {
        Narrow {
            whole: MemorySink::new(alloc),
            most,
            room,
            failures: Failures::none(),
        }
    }
}

impl Sink for Narrow {
    ghost taken = { λ s. Some s.whole.bytes };

    ghost failures = { λ s. s.failures };

    fn write(&mut self, bytes: &[u8]) -> Result<usize, SinkFault> {
        let count = bytes.len().min(self.most).min(self.room);
        if count == 0 {
            self.failures.add();
            return Err(SinkFault::Device);
        }
        match self.whole.write(&bytes[..count]) {
            Ok(taken) if taken > 0 => {
                self.room = self.room.saturating_sub(taken);
                Ok(taken)
            }
            _ => {
                self.failures.add();
                Err(SinkFault::Device)
            }
        }
    }
}

/// The files of a folder, of which one call of `open` or `read` fails, with the number of bytes that were given. They are honest: a failure
/// is no source that is absent, and no end of one.
#[derive(Drop)]
pub struct Fused {
    files: MemoryFiles,
    /// The greatest number of bytes that a read gives.
    most: usize,
    /// The number of calls that are still to come before the one that fails.
    calls: usize,
    failures: Failures,
    /// The number of open files.
    pub depth: usize,
    /// The number of bytes that were given of the first source.
    pub first: usize,
    /// The number of bytes that were given of the sources that it includes.
    pub included: usize,
}

impl Fused {
    /// Makes a reader of these files that gives at most `most` bytes a read, and of which the call behind `calls`
    /// others fails.
    pub fn new(files: MemoryFiles, calls: usize, most: usize) -> Fused {
        Fused {
            files,
            most,
            calls,
            failures: Failures::none(),
            depth: 0,
            first: 0,
            included: 0,
        }
    }
}

impl Files for Fused {
    ghost faults = { λ f. f.failures };

    ghost counts = { λ f. f.files.counts };

    ghost is_honest = { λ _. true };

    ghost sources = { λ f. sources_of f.files.kept };

    ghost openings = { λ f. f.files.openings };

    ghost depth = { λ f. length f.files.openings.open_places };

    ghost opened = { λ f. names_from [] f.files.openings.all };

    fn open(&mut self, name: &str) -> Result<(), OpenFault> {
        if self.calls == 0 {
            self.failures.add();
            return Err(OpenFault::Device);
        }
        self.calls -= 1;
        let opened = self.files.open(name);
        if opened.is_ok() {
            self.depth = self.depth.saturating_add(1);
        }
        opened
    }

    fn read(&mut self, to: &mut [u8]) -> Result<usize, ReadFault> {
        if self.calls == 0 {
            self.failures.add();
            return Err(ReadFault::Device);
        }
        self.calls -= 1;
        let most = to.len().min(self.most.max(1));
        let read = self.files.read(&mut to[..most]);
        if let Ok(count) = read {
            if self.depth > 1 {
                self.included = self.included.saturating_add(count);
            } else {
                self.first = self.first.saturating_add(count);
            }
        }
        read
    }

    fn close(&mut self) {
        self.depth = self.depth.saturating_sub(1);
        self.files.close();
    }
}

/// Makes a folder with these files.
pub fn folder_of(alloc: Global, files: &[(&str, &[u8])]) -> Result<MemoryFiles, Fail> {
    let mut sources = BTreeMap::new(alloc);
    for (name, source) in files {
        sources.insert(
            String::from_str(alloc, *name)?,
            Vec::from_slice(alloc, *source)?,
        )?;
    }
    Ok(MemoryFiles::new(alloc, sources))
}

/// Bytes, and how often they come one behind the other.
pub type Piece<'a> = (&'a [u8], usize);

/// Returns the bytes of some pieces.
pub fn joined(alloc: Global, pieces: &[Piece<'_>]) -> Result<Vec<u8>, Fail> {
    let mut bytes = Vec::new(alloc);
    for (piece, count) in pieces {
        bytes.extend_from_slice(piece.repeat(alloc, *count)?.as_slice())?;
    }
    Ok(bytes)
}
