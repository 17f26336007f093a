ghost use Rattle.std.specs.Prelude.{◌≡◌, ℕ, ◌<◌, ◌≤◌, List, Option, IsErr, IfOk, OnOk, IfErr, length, take};
ghost use Rattle.inf_devices.specs.{Files.Rose, Sinks.Takes, Sinks.Writes};

/// The reason why a sink took nothing.
#[derive(Clone, Copy)]
pub enum SinkFault {
    /// The device failed.
    Device,
}

/// A device that takes bytes, as many at a time as it likes.
pub trait Sink {
    /// The bytes that the sink took, where it states them.
    ghost taken: { Self → Option (List ℕ) };

    /// The number of writes that failed, or took none of the bytes offered: 64 bits, and it stays at the last value.
    ghost failures: { Self → ℕ };

    /// Takes bytes from the front of `bytes`, and returns their number.
    fn write(&mut self, bytes: &[u8]) -> Result<usize, SinkFault>
        requires { 0 < length bytes.now }
        ensures writes { Writes (taken self.old) (taken self.new) bytes.now result }
        ensures count { IfOk result (λ n. n ≤ length bytes.now) }
        ensures failed { IsErr result → Rose (failures self.old) (failures self.new) }
        ensures nothing { result ≡ Ok 0 → Rose (failures self.old) (failures self.new) }
        ensures quiet { IfOk result (λ n. 0 < n → failures self.new ≡ failures self.old) }
        ensures failures { failures self.old ≤ failures self.new };
}

/// Writes all of `bytes`, in as many writes as the sink wants: each goes on behind the bytes that the earlier ones took.
///
/// The only error is the number of bytes that were taken before a write failed or took none.
pub fn write_whole<S: Sink>(sink: &mut S, bytes: &[u8]) -> Result<(), usize>
    ensures whole { OnOk result (Takes (S.taken sink.old) (S.taken sink.new) bytes.now) }
    ensures short { IfErr result (λ n. n < length bytes.now) }
    ensures part { IfErr result (λ n. Takes (S.taken sink.old) (S.taken sink.new) (take n bytes.now)) }
    ensures failed { IsErr result → Rose (S.failures sink.old) (S.failures sink.new) }
    ensures quiet { OnOk result (S.failures sink.new ≡ S.failures sink.old) }
    ensures failures { S.failures sink.old ≤ S.failures sink.new }
{
    let mut done = 0;
    while done < bytes.len() {
        match sink.write(&bytes[done..]) {
            Ok(count) if count > 0 => done += count,
            _ => return Err(done),
        }
    }
    Ok(())
}
