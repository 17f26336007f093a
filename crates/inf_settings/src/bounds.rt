//! The limits of a compilation, as a type.
ghost use Rattle.std.specs.Prelude.{◌≡◌, ℕ};
ghost use Rattle.inf_settings.specs.{Bounds.AreSet, Bounds.unbounded, Settings.number_of, declared.setting.Setting.Setting as Bounding};

use crate::setting::Setting;
use crate::settings::Settings;
use std::marker::Brand;

/// The limits of a compilation, as a type without values. A value that grows under a setting has the type as a parameter; thus no
/// call can change the limit.
pub trait Bounds {
    /// The limit of each setting.
    ghost most: { Bounding → ℕ };
}

/// The greatest limits that numbers of the program can hold.
pub struct Unbounded;

impl Bounds for Unbounded {
    ghost most = { unbounded };
}

/// The greatest limits, for calls that pick no other ones.
impl Bounds for Brand {
    ghost most = { unbounded };
}

impl Settings {
    /// Returns the number of a setting, for a type that has the numbers of all settings as its limits.
    pub fn bound<B: Bounds>(&self, setting: Setting) -> u32
        requires { AreSet B.most self.now }
        ensures number { result ≡ number_of setting self.now }
        ensures most { result ≡ B.most setting }
    {
        self.of(setting)
    }
}
