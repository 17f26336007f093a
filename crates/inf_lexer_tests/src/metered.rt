//! A reader of files that gives few bytes, pauses, fails or does not end.
ghost use Rattle.std.specs.Prelude.{◌≡◌, ◌<◌, ◌≤◌, None, [], false, length, IfOk};
ghost use Rattle.inf_devices.specs.Files.{names_from};

use inf_devices::failures::Failures;
use inf_devices::files::{Files, OpenFault, ReadFault};
use inf_devices::given_bytes::GivenBytes;
use inf_devices::memory_files::MemoryFiles;
use std::alloc::Global;

/// The pace at which a reader gives its bytes.
#[derive(Clone, Copy)]
pub(crate) struct Pace {
    /// The most bytes of a read, by turns: where they are none, the read is an end.
    pub(crate) most: [usize; 2],
    /// The number of reads behind which each fails.
    pub(crate) reads: usize,
    /// Whether spaces follow a source, without end.
    pub(crate) is_endless: bool,
}

/// Files in memory whose bytes are given at a pace, with counts of the calls.
#[derive(Drop)]
pub(crate) struct Metered {
    whole: MemoryFiles,
    pace: Pace,
    failures: Failures,
    counted: GivenBytes,
    /// The number of open files.
    pub(crate) depth: usize,
    /// The number of files that were opened.
    pub(crate) opened: usize,
    /// The number of reads that were asked for.
    pub(crate) reads: usize,
    /// The number of bytes that were given.
    pub(crate) given: usize,
    ghost in_step: { depth ≡ length whole.openings.open_places },
}

impl Metered {
    /// Makes a reader of files of which none was opened yet.
    pub(crate) fn new(alloc: Global, whole: MemoryFiles, pace: Pace) -> Metered
        requires { whole.openings.open_places ≡ [] }
    {
        Metered {
            whole,
            pace,
            failures: Failures::none(),
            counted: GivenBytes::none(alloc),
            depth: 0,
            opened: 0,
            reads: 0,
            given: 0,
        }
    }

    /// Reads at most as many bytes as there is room for, of which there may be none, or gives spaces behind the end.
    fn read_some(&mut self, to: &mut [u8]) -> Result<usize, ReadFault>
        requires { 0 < self.old.depth }
        ensures count { IfOk result (λ n. n ≤ length to.new) }
        ensures depth { self.new.depth ≡ self.old.depth }
        ensures same { (self.new.failures ≡ self.old.failures) ×
            ((self.new.counted ≡ self.old.counted) ×
            (names_from [] self.new.whole.openings.all ≡ names_from [] self.old.whole.openings.all)) }
    {
        if to.is_empty() {
            return Ok(0);
        }
        let count = self.whole.read(to)?;
        if count == 0 && self.pace.is_endless {
            to.fill(b' ');
            return Ok(to.len());
        }
        Ok(count)
    }
}

impl Files for Metered {
    ghost faults = { λ f. f.failures };

    ghost counts = { λ f. f.counted };

    ghost is_honest = { λ _. false };

    ghost sources = { λ _ _. None };

    ghost openings = { λ _. record { all = []; open_places = [] } };

    ghost depth = { λ f. f.depth };

    ghost opened = { λ f. names_from [] f.whole.openings.all };

    fn open(&mut self, name: &str) -> Result<(), OpenFault> {
        if self.depth == usize::MAX {
            return Err(OpenFault::Memory);
        }
        self.counted.open()?;
        let opened = self.whole.open(name);
        if opened.is_err() {
            self.counted.close();
        }
        match opened {
            Ok(()) => {
                self.depth += 1;
                self.opened = self.opened.saturating_add(1);
                Ok(())
            }
            Err(OpenFault::Device) => {
                self.failures.add();
                Err(OpenFault::Device)
            }
            Err(OpenFault::Absent) => Err(OpenFault::Absent),
            Err(OpenFault::Memory) => Err(OpenFault::Memory),
        }
    }

    fn read(&mut self, to: &mut [u8]) -> Result<usize, ReadFault> {
        let turn = self.reads;
        self.reads = turn.saturating_add(1);
        if turn >= self.pace.reads {
            self.failures.add();
            return Err(ReadFault::Device);
        }
        let most = self.pace.most[turn % 2].min(to.len());
        let Ok(count) = self.read_some(&mut to[..most]) else {
            self.failures.add();
            return Err(ReadFault::Device);
        };
        self.counted.add(count);
        self.given = self.given.saturating_add(count);
        Ok(count)
    }

    fn close(&mut self) {
        self.whole.close();
        self.counted.close();
        self.depth -= 1;
    }
}
