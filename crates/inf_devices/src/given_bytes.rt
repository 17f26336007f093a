ghost use Rattle.std.specs.Prelude.{◌≡◌, OnOk, OnErr};
ghost use Rattle.inf_devices.specs.Files.{counts_closed, counts_given, counts_opened, is_too_long, nothing_given};

use std::alloc::{AllocError, Global};
use std::marker::Model;

/// The most bytes that a source may have.
const MOST_SOURCE_BYTES: u64 = 16_777_216;

fn is_too_long(count: u64) -> bool
    ensures { result ≡ is_too_long count }
{
    count > MOST_SOURCE_BYTES
}

/// The number of bytes that a device gave of each source that is open, and the number of openings of which it gave more than a source
/// may have. Each count has 64 bits, and stays at its last value.
#[derive(Drop)]
pub struct GivenBytes {
    /// The count of the innermost source, where one is open.
    innermost: Option<u64>,
    /// The counts of the sources around it, the outermost first.
    outer: Vec<u64>,
    too_long: u64,
}

impl Model for GivenBytes {
    ghost use Rattle.std.specs.Prelude.{◌≡◌, [], None};
    ghost use Rattle.inf_devices.specs.{Files.Counts, Given.each_of};

    ghost Value = { Counts };

    ghost view = { λ g. record { each = each_of g.innermost g.outer.items; too_long = g.too_long } };

    ghost invariant = { λ g. g.innermost ≡ None → g.outer.items ≡ [] };
}

impl GivenBytes {
    /// Returns the counts of a device of which no source is open, and that gave nothing.
    pub fn none(alloc: Global) -> GivenBytes
        ensures { result ≡ nothing_given }
    {
        GivenBytes {
            innermost: None,
            outer: Vec::new(alloc),
            too_long: 0,
        }
    }

    /// Counts one more source as open, the innermost, of which nothing was given.
    pub fn open(&mut self) -> Result<(), AllocError>
        ensures ok { OnOk result (self.new ≡ counts_opened self.old) }
        ensures err { OnErr result (self.new ≡ self.old) }
    {
        if let Some(count) = self.innermost {
            self.outer.push(count)?;
        }
        self.innermost = Some(0);
        Ok(())
    }

    /// Counts `bytes` bytes more of the innermost source.
    pub fn add(&mut self, bytes: usize)
        ensures { self.new ≡ counts_given bytes self.old }
    {
        if let Some(count) = self.innermost {
            let given = count.saturating_add(bytes as u64);
            self.innermost = Some(given);
            if is_too_long(given) && !is_too_long(count) {
                self.too_long = self.too_long.saturating_add(1);
            }
        }
    }

    /// Counts the innermost source as closed.
    pub fn close(&mut self)
        ensures { self.new ≡ counts_closed self.old }
    {
        match self.outer.pop() {
            Some(count) => self.innermost = Some(count),
            None => self.innermost = None,
        }
    }
}
