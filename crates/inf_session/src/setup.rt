//! The choices of the words of a command for a compilation.
ghost use Rattle.std.specs.Prelude.{◌≡◌, IfOk};
ghost use Rattle.inf_settings.specs.Bounds.{AreSet};
ghost use Rattle.inf_reader.specs.Standing.{standing};
ghost use Rattle.inf_session.specs.{Choices.chosen, Session.begun_with, Session.tables_full};

use inf_ending::ending::FIRST_LINE;
use inf_letters::Letters;
use inf_lexer::Stack;
use inf_names::hashing::NameHashing;
use inf_reader::progress::Progress;
use inf_settings::bounds::Bounds;
use inf_settings::setting::Setting;
use inf_settings::settings::Settings;
use std::alloc::{AllocError, Global};

/// Number of the objects that each story has, and of the references to the addresses of their property tables.
const FIRST_OBJECTS: u32 = 4;

/// Number of bytes of these property tables.
const FIRST_PROPERTY_BYTES: u32 = 30;

/// Number of bytes of the low string that each story has: three spaces.
const FIRST_LOW_STRING_BYTES: u32 = 2;

/// The choices of the words of a command for a compilation: their letters, the settings, and the directories in which included
/// files are looked for.
#[derive(Clone, Copy)]
pub struct Setup<'a> {
    pub letters: Letters,
    pub settings: &'a Settings,
    pub directories: &'a [&'a str],
    /// The hashing of names, which changes nothing but how long it takes.
    pub hashing: NameHashing,
}

impl Setup<'_> {
    /// Makes the progress before the first token of a main source, the first of `files`, for which the chosen letters hold. Where
    /// the first four objects or the first low string alone would pass a setting, this is told at the first line of the source, and
    /// ends the compilation.
    pub(crate) fn begin<B: Bounds>(
        &self,
        alloc: Global,
        files: &Stack,
    ) -> Result<Progress<B>, AllocError>
        requires { AreSet B.most self.now.settings.now }
        ensures { IfOk result (λ progress. standing progress ≡ begun_with (chosen self.now) files.now.names) }
    {
        let mut progress = Progress::new(alloc, self.settings, self.hashing)?;
        progress.work.choose(self.letters);
        let full = self.tables_full();
        progress.work.report.full(files, FIRST_LINE, full)?;
        Ok(progress)
    }

    /// Returns the first setting that the first four objects or the first low string alone would pass.
    fn tables_full(&self) -> Option<Setting>
        ensures { result ≡ tables_full self.now.settings.now }
    {
        if self.settings.of(Setting::Objects) < FIRST_OBJECTS {
            Some(Setting::Objects)
        } else if self.settings.of(Setting::PropertyTables) < FIRST_PROPERTY_BYTES {
            Some(Setting::PropertyTables)
        } else if self.settings.of(Setting::LowStrings) < FIRST_LOW_STRING_BYTES {
            Some(Setting::LowStrings)
        } else if self.settings.of(Setting::References) < FIRST_OBJECTS {
            Some(Setting::References)
        } else {
            None
        }
    }
}
