ghost use Rattle.std.specs.Prelude.{◌≡◌, ◌≤◌, ◌+◌, min};
ghost use Rattle.inf_devices.specs.Files.{Rose, last_count};

use std::marker::Model;

/// The number of a device's failures: a count of 64 bits that stays at its last value.
#[derive(Drop)]
pub struct Failures {
    count: u64,
}

impl Model for Failures {
    ghost use Rattle.std.specs.Prelude.{ℕ};

    ghost Value = { ℕ };

    ghost view = { λ f. f.count };
}

impl Failures {
    /// Returns a count of no failure.
    pub fn none() -> Failures
        ensures { result ≡ 0 }
    {
        Failures { count: 0 }
    }

    /// Counts one more failure.
    pub fn add(&mut self)
        ensures count { self.new ≡ min (self.old + 1) last_count }
        ensures rose { Rose self.old self.new }
        ensures later { self.old ≤ self.new }
    {
        self.count = self.count.saturating_add(1);
    }
}
