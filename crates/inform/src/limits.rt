//! The limits that the system sets a run: on its stack, and on the size of its files.
use crate::Failure;
use inf_devices::failures::Failures;
use inf_devices::sinks::{Sink, SinkFault};
use inf_program::NameHashing;
use std::fs;
use std::random::RandomSource;
use std::rt::Files;

/// The names by which the system knows the output and the place of reasons.
pub const OUTPUT: &str = "/dev/stdout";

pub const REASONS: &str = "/dev/stderr";

/// The file in which the system lists the limits of this run, line by line.
const TOLD: &str = "/proc/self/limits";

/// The greatest number of bytes of stack that a run takes.
const STACK_OF_A_RUN: usize = 212_992;

/// The least limit on the stack. The words of the command and the environment are in there, too, which have at most
/// 131,072 bytes where the limit is as low.
pub const LEAST_STACK: u64 = 393_216;

/// The number of the bytes that nobody knows and that choose how names are hashed.
const SECRET: usize = 16;

/// The system's limits of a run, in bytes. The greatest number is no limit.
#[derive(Clone, Copy)]
pub struct Limits {
    /// The greatest size of the stack.
    stack: u64,
    /// The greatest size of a file.
    file_size: u64,
}

/// Returns the limit of this run by the lines of `told`, in the one that begins with `name`; the greatest number where there is none.
fn limit_in(told: &str, name: &str) -> u64 {
    for line in told.lines() {
        if let Some(numbers) = line.strip_prefix(name) {
            let first = numbers.split_whitespace().next().unwrap_or("");
            return first.parse().unwrap_or(u64::MAX);
        }
    }
    u64::MAX
}

impl Limits {
    /// Returns the limits that the system lists for this run. Where it lists nothing there are none.
    pub fn of_run<R: Files + AllocGlobal>(rt: &R) -> Limits {
        let told = fs::read_to_string(rt, TOLD);
        let told = match &told {
            Ok(told) => told.as_str(),
            Err(_) => "",
        };
        Limits {
            stack: limit_in(told, "Max stack size"),
            file_size: limit_in(told, "Max file size"),
        }
    }

    /// Returns the number of bytes by which the file of this name may grow. No limit holds for one that is no regular file.
    pub fn room_behind<R: Files>(self, rt: &R, name: &str) -> u64 {
        match fs::metadata(rt, name) {
            Ok(metadata) if metadata.is_file() => self.file_size.saturating_sub(metadata.len()),
            _ => u64::MAX,
        }
    }

    /// Returns the number of bytes that a story of this name may have, whose file is made anew.
    pub fn room_of_story<R: Files>(self, rt: &R, name: &str) -> u64 {
        match fs::metadata(rt, name) {
            Ok(metadata) if !metadata.is_file() => u64::MAX,
            _ => self.file_size,
        }
    }
}

/// Lets the stack grow as far as a run needs, before other memory is asked for: where none is left later, the system ends a program whose
/// stack has to grow. Refused where the limit on the stack, or the memory that is left, does not suffice for it.
///
/// Returns how names are hashed: by bytes that no source can know, where the system gives some.
pub fn grow_stack<R: RandomSource + AllocGlobal>(
    rt: &R,
    limits: Limits,
) -> Result<NameHashing, Failure> {
    if limits.stack < LEAST_STACK {
        return Err(Failure::Stack);
    }
    let mut spare = Vec::with_capacity(rt.alloc(), STACK_OF_A_RUN)?;
    spare.extend_from_slice(&[0; SECRET])?;
    let _ = rt.fill_bytes(&mut spare);
    drop(spare);
    Ok(hashing_in_a_deep_frame(rt))
}

/// Chooses how names are hashed, by one of as many copies of some bytes as the stack of a run has room for, so that the system has to find
/// place for them all. The frame has to be gone when the run goes on, so this is never inlined.
#[inline(never)]
fn hashing_in_a_deep_frame(rt: &impl RandomSource) -> NameHashing {
    let mut secret = [0; SECRET];
    let _ = rt.fill_bytes(&mut secret);
    let copies = [secret; STACK_OF_A_RUN / SECRET];
    NameHashing::new(&copies[usize::from(secret[0])])
}

/// A device that is asked for no write behind the limit on the size of its file: the system would end the program there.
#[derive(Drop)]
pub struct Limited<S: Sink> {
    /// The device to which all is written.
    pub sink: S,
    room: u64,
    /// Tells whether a write was refused for the limit.
    pub is_full: bool,
    failures: Failures,
}

impl<S: Sink> Limited<S> {
    /// Makes a device of `sink`, whose file may get `room` bytes more.
    pub fn new(sink: S, room: u64) -> Limited<S> {
        Limited {
            sink,
            room,
            is_full: false,
            failures: Failures::none(),
        }
    }
}

impl<S: Sink> Sink for Limited<S> {
    ghost use Rattle.std.specs.Prelude.{None};

    ghost taken = { λ _. None };

    ghost failures = { λ s. s.failures };

    fn write(&mut self, bytes: &[u8]) -> Result<usize, SinkFault> {
        if self.room == 0 {
            self.is_full = true;
            self.failures.add();
            return Err(SinkFault::Device);
        }
        match self.sink.write(bytes) {
            Ok(0) => {
                self.failures.add();
                Ok(0)
            }
            Ok(count) => {
                self.room = self.room.saturating_sub(count as u64);
                Ok(count)
            }
            Err(fault) => {
                self.failures.add();
                Err(fault)
            }
        }
    }
}
