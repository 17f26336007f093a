//! The numbers that a setting can have.
ghost use Rattle.std.specs.Prelude.{◌≡◌, ◌≤◌};
ghost use Rattle.inf_settings.specs.Settings.{fit};

use std::marker::Model;

/// The greatest number of a setting.
pub const GREATEST: u32 = 1_048_576;

/// A number that a setting can have: 1 to 1,048,576.
#[derive(Debug, Drop)]
pub struct Limit {
    number: u32,
}

impl Model for Limit {
    ghost use Rattle.std.specs.Prelude.{ℕ, ◌≤◌};

    ghost Value = { ℕ };

    ghost view = { λ l. l.number };

    ghost invariant = { λ l. (1 ≤ l.number) × (l.number ≤ 1048576) };
}

impl Limit {
    /// Returns the number as a limit, if a setting can have it.
    pub fn new(number: u32) -> Option<Limit>
        ensures { result ≡ fit number }
    {
        if number == 0 || number > GREATEST {
            return None;
        }
        Some(Limit { number })
    }

    /// Returns a number as a limit that is known to be one.
    pub(crate) fn known(number: u32) -> Limit
        requires positive { 1 ≤ number }
        requires small { number ≤ 1048576 }
        ensures { result ≡ number }
    {
        Limit { number }
    }

    /// Returns the number.
    pub fn number(&self) -> u32
        ensures value { result ≡ self.now }
        ensures positive { 1 ≤ result }
        ensures small { result ≤ 1048576 }
    {
        self.number
    }
}
