ghost use Rattle.std.specs.Prelude.{None};

use crate::expecting::expect;
use inf_devices::memory_sink::MemorySink;
use inf_devices::sinks::{Sink, SinkFault, write_whole};
use std::process::Abort;

/// A sink that takes one byte a write.
#[derive(Drop)]
struct Narrow {
    whole: MemorySink,
}

impl Sink for Narrow {
    ghost taken = { λ _. None };

    ghost failures = { λ s. s.whole.failures };

    fn write(&mut self, bytes: &[u8]) -> Result<usize, SinkFault> {
        self.whole.write(&bytes[..1])
    }
}

/// A sink that takes a few bytes, and then none.
#[derive(Drop)]
struct Small {
    whole: MemorySink,
    room: usize,
    failures: u64,
}

impl Sink for Small {
    ghost taken = { λ _. None };

    ghost failures = { λ s. s.failures };

    fn write(&mut self, bytes: &[u8]) -> Result<usize, SinkFault> {
        let count = bytes.len().min(self.room);
        if count == 0 || self.whole.write(&bytes[..count]).is_err() {
            self.failures = self.failures.saturating_add(1);
            return Ok(0);
        }
        self.room -= count;
        Ok(count)
    }
}

/// Bytes that are written, and the result of writing them.
type Written = (&'static [u8], Result<(), usize>);

/// Writes `parts`, one behind the other, and asserts their results.
fn write_all(rt: &impl Abort, sink: &mut impl Sink, parts: &[Written]) {
    for (bytes, wanted) in parts {
        expect(rt, bytes, &write_whole(sink, bytes), wanted);
    }
}

#[test]
fn short_writes_go_on_behind_what_was_taken(rt: HostRuntime) {
    let mut sink = Narrow {
        whole: MemorySink::new(rt.alloc()),
    };
    let parts: [Written; 3] = [(b"hello", Ok(())), (b"", Ok(())), (b"!", Ok(()))];
    write_all(&rt, &mut sink, &parts);
    expect(&rt, &"hello!", &sink.whole.bytes(), &b"hello!".as_slice());
}

#[test]
fn a_write_of_nothing_is_a_failure(rt: HostRuntime) {
    let mut sink = Small {
        whole: MemorySink::new(rt.alloc()),
        room: 3,
        failures: 0,
    };
    write_all(&rt, &mut sink, &[(b"hello", Err(3)), (b"hello", Err(0))]);
    expect(&rt, &"hel", &sink.whole.bytes(), &b"hel".as_slice());
    assert_eq!(rt; sink.failures, 2);
}
