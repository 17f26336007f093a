//! The numbers that packed addresses are multiplied by.
ghost use Rattle.std.specs.Prelude.{◌≡◌, ◌<◌};
ghost use Rattle.inf_area.specs.Scales.{gap, most_bytes, scale_number, version};

/// A number that packed addresses are multiplied by (Z-Machine Standard 1.1, section 1.2.3), which belongs to a version of the Z-machine.
#[derive(Clone, Copy, Debug)]
pub enum Scale {
    /// Four, of version 5.
    Four,
    /// Eight, of version 8.
    Eight,
}

impl Scale {
    /// Returns the number itself.
    pub fn number(self) -> usize
        ensures value { result ≡ scale_number self }
        ensures positive { 0 < result }
    {
        match self {
            Scale::Four => 4,
            Scale::Eight => 8,
        }
    }

    /// Returns the version of the Z-machine that has this scale.
    pub fn version(self) -> u8
        ensures { result ≡ version self }
    {
        match self {
            Scale::Four => 5,
            Scale::Eight => 8,
        }
    }

    /// Returns the greatest number of bytes that a story may have (Z-Machine Standard 1.1, section 1.1.4).
    pub fn most_bytes(self) -> usize
        ensures { result ≡ most_bytes self }
    {
        match self {
            Scale::Four => 262_144,
            Scale::Eight => 524_288,
        }
    }

    /// Returns the number of bytes between the place `at` and the next that has a packed address: at most seven.
    pub fn gap(self, at: usize) -> usize
        ensures value { result ≡ gap self at }
        ensures few { result < 8 }
    {
        match self {
            Scale::Four => (4 - at % 4) % 4,
            Scale::Eight => (8 - at % 8) % 8,
        }
    }
}
