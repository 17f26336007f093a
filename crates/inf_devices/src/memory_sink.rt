ghost use Rattle.std.specs.Prelude.{◌≡◌, [], Some};
ghost use Rattle.inf_devices.specs.MemorySink.{Written};

use crate::failures::Failures;
use crate::sinks::{Sink, SinkFault};
use std::alloc::Global;
use std::marker::Model;

/// A sink that keeps all its bytes in memory. It fails only where no memory was left.
#[derive(Drop)]
pub struct MemorySink {
    bytes: Vec<u8>,
    failures: Failures,
}

impl Model for MemorySink {
    ghost Value = { Written };

    ghost view = { λ s. record { bytes = s.bytes.items; failures = s.failures } };
}

impl MemorySink {
    /// Makes a sink that took nothing yet and never failed.
    pub fn new(alloc: Global) -> MemorySink
        ensures { result ≡ record { bytes = []; failures = 0 } }
    {
        MemorySink {
            bytes: Vec::new(alloc),
            failures: Failures::none(),
        }
    }

    /// Returns the bytes that the sink took, in their order.
    pub fn bytes(&self) -> &[u8]
        ensures { result.now ≡ self.now.bytes }
    {
        &self.bytes
    }

    /// Forgets its bytes.
    pub fn clear(&mut self)
        ensures { self.new ≡ record self.old { bytes = [] } }
    {
        self.bytes.clear();
    }

    /// Gives away the bytes that the sink took, in their order.
    pub fn into_bytes(self) -> Vec<u8>
        ensures { result.items ≡ self.bytes }
    {
        self.bytes
    }
}

impl Sink for MemorySink {
    ghost taken = { λ s. Some s.bytes };

    ghost failures = { λ s. s.failures };

    fn write(&mut self, bytes: &[u8]) -> Result<usize, SinkFault> {
        if self.bytes.extend_from_slice(bytes).is_err() {
            self.failures.add();
            return Err(SinkFault::Device);
        }
        Ok(bytes.len())
    }
}
