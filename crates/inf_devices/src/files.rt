ghost use Rattle.std.specs.Prelude.{◌≡◌, ℕ, ◌+◌, ◌<◌, ◌≤◌, Bool, false, IsTrue, IsErr, IsOk, IfOk, IsErrOf};
ghost use Rattle.std.specs.Prelude.{is_ok, length, List, if◌then◌else◌};
ghost use Rattle.inf_devices.specs.Files.{Sources, Openings, Opens, Reads, Closes, Rose, tells_failure, with_name};
ghost use Rattle.inf_devices.specs.Files.{Counts, counts_closed, counts_opened, counts_read};
ghost use Rattle.inf_devices.specs.declared.files.OpenFault.TheVariants.{Memory};

use std::alloc::{AllocError, AllocFailed};

/// The reason why a source could not be opened.
#[derive(Clone, Copy, Debug, PartialEq, Eq)]
pub enum OpenFault {
    /// No source has the name.
    Absent,
    /// The device failed.
    Device,
    /// No memory was left.
    Memory,
}

impl From<AllocError> for OpenFault {
    ghost from_gives = { λ _ fault. fault ≡ Memory };

    fn from(_error: AllocError) -> OpenFault {
        OpenFault::Memory
    }
}

impl<T: Drop> From<AllocFailed<T>> for OpenFault {
    ghost from_gives = { λ _ fault. fault ≡ Memory };

    fn from(_error: AllocFailed<T>) -> OpenFault {
        OpenFault::Memory
    }
}

/// The reason why a source could not be read further.
#[derive(Clone, Copy, Debug, PartialEq, Eq)]
pub enum ReadFault {
    /// The device failed.
    Device,
}

/// A device with named sources of bytes, of which several may be open, one inside the other.
///
/// While it is honest, its sources are a fixed map from names to bytes, each opening reads its source from the front to the end, and only a
/// name outside the map is called absent. A device that claims none of this is not honest, and stays that way.
pub trait Files {
    /// The number of the device's failures: 64 bits, and it stays at the last value.
    ghost faults: { Self → ℕ };

    /// The number of bytes that the device gave of each open source, and the number of openings so far that are too long.
    ghost counts: { Self → Counts };

    /// Tells whether the statements on sources and openings hold.
    ghost is_honest: { Self → Bool };

    /// The sources by their names.
    ghost sources: { Self → Sources };

    /// The openings so far, and which of them are open.
    ghost openings: { Self → Openings };

    /// The number of open sources.
    ghost depth: { Self → ℕ };

    /// The different names under which sources were opened so far, in the order of their first openings.
    ghost opened: { Self → List (List ℕ) };

    /// Opens the source with this name, which is then the innermost.
    fn open(&mut self, name: &str) -> Result<(), OpenFault>
        ensures opens { IsTrue (is_honest self.old) → Opens (sources self.old) name.now (openings self.old) (openings self.new) result }
        ensures depth { depth self.new ≡ (if is_ok result then depth self.old + 1 else depth self.old) }
        ensures opened { opened self.new ≡ (if is_ok result then with_name name.now (opened self.old) else opened self.old) }
        ensures cause { IsErrOf result OpenFault.Device → Rose (faults self.old) (faults self.new) }
        ensures faults { (faults self.old ≤ faults self.new) × (tells_failure result ≡ false → faults self.new ≡ faults self.old) }
        ensures counts { counts self.new ≡ (if is_ok result then counts_opened (counts self.old) else counts self.old) }
        ensures kept { (sources self.new ≡ sources self.old) × (is_honest self.new ≡ is_honest self.old) };

    /// Reads the next bytes of the innermost source into the front of `to`, and returns their number: none at the source's end.
    fn read(&mut self, to: &mut [u8]) -> Result<usize, ReadFault>
        requires is_open { 0 < depth self.old }
        requires room { 0 < length to.old }
        ensures reads { IsTrue (is_honest self.old) → Reads (sources self.old) (openings self.old) (openings self.new) to.new result }
        ensures count { IfOk result (λ n. n ≤ length to.new) }
        ensures counts { counts self.new ≡ counts_read result (counts self.old) }
        ensures depth { depth self.new ≡ depth self.old }
        ensures opened { opened self.new ≡ opened self.old }
        ensures cause { IsErr result → Rose (faults self.old) (faults self.new) }
        ensures faults { (faults self.old ≤ faults self.new) × (IsOk result → faults self.new ≡ faults self.old) }
        ensures kept { (sources self.new ≡ sources self.old) × (is_honest self.new ≡ is_honest self.old) };

    /// Closes the innermost source.
    fn close(&mut self)
        requires { 0 < depth self.old }
        ensures closes { IsTrue (is_honest self.old) → Closes (openings self.old) (openings self.new) }
        ensures depth { depth self.new + 1 ≡ depth self.old }
        ensures opened { opened self.new ≡ opened self.old }
        ensures faults { faults self.new ≡ faults self.old }
        ensures counts { counts self.new ≡ counts_closed (counts self.old) }
        ensures kept { (sources self.new ≡ sources self.old) × (is_honest self.new ≡ is_honest self.old) };
}
