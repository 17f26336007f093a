//! The settings, each with its name.
ghost use Rattle.std.specs.Prelude.{◌≡◌, ◌<◌, Some};
ghost use Rattle.inf_settings.specs.Settings.{name_of, named, place_of};

use std::fmt;

/// A setting, by the things that it limits.
#[derive(Clone, Copy, Debug)]
pub enum Setting {
    /// The bytes of one quoted token.
    QuotedText,
    /// The tokens of one expression, or of one case before its `:`.
    ExpressionNodes,
    /// The names that are declared or used.
    Symbols,
    /// The labels, branches and jumps of one routine.
    Labels,
    /// The words of the dictionary.
    DictionaryEntries,
    /// The objects, with the first four.
    Objects,
    /// The verbs.
    Verbs,
    /// The actions, without fake ones.
    Actions,
    /// The bytes of the grammar.
    GrammarLines,
    /// The bytes of property tables, of individual tables and of the values of classes.
    PropertyTables,
    /// The bytes of the arrays.
    Arrays,
    /// The bytes of the low strings.
    LowStrings,
    /// The bytes of the routines.
    Code,
    /// The bytes of the strings.
    Strings,
    /// The references that are filled at the end.
    References,
}

/// All settings, in their order.
pub const SETTINGS: [Setting; 15] = [
    Setting::QuotedText,
    Setting::ExpressionNodes,
    Setting::Symbols,
    Setting::Labels,
    Setting::DictionaryEntries,
    Setting::Objects,
    Setting::Verbs,
    Setting::Actions,
    Setting::GrammarLines,
    Setting::PropertyTables,
    Setting::Arrays,
    Setting::LowStrings,
    Setting::Code,
    Setting::Strings,
    Setting::References,
];

impl Setting {
    /// Returns the name of the setting, as words of a command and messages spell it.
    pub fn name(self) -> &'static str
        ensures value { result.now ≡ name_of self }
        ensures own { named result.now ≡ Some self }
    {
        match self {
            Setting::QuotedText => "MAX_QTEXT_SIZE",
            Setting::ExpressionNodes => "MAX_EXPRESSION_NODES",
            Setting::Symbols => "MAX_SYMBOLS",
            Setting::Labels => "MAX_LABELS",
            Setting::DictionaryEntries => "MAX_DICT_ENTRIES",
            Setting::Objects => "MAX_OBJECTS",
            Setting::Verbs => "MAX_VERBS",
            Setting::Actions => "MAX_ACTIONS",
            Setting::GrammarLines => "MAX_LINESPACE",
            Setting::PropertyTables => "MAX_PROP_TABLE_SIZE",
            Setting::Arrays => "MAX_STATIC_DATA",
            Setting::LowStrings => "MAX_LOW_STRINGS",
            Setting::Code => "MAX_CODE",
            Setting::Strings => "MAX_STATIC_STRINGS",
            Setting::References => "MAX_REFS",
        }
    }

    /// Returns the place of the setting among all settings, counted from 0.
    pub fn place(self) -> usize
        ensures value { result ≡ place_of self }
        ensures few { result < 15 }
    {
        match self {
            Setting::QuotedText => 0,
            Setting::ExpressionNodes => 1,
            Setting::Symbols => 2,
            Setting::Labels => 3,
            Setting::DictionaryEntries => 4,
            Setting::Objects => 5,
            Setting::Verbs => 6,
            Setting::Actions => 7,
            Setting::GrammarLines => 8,
            Setting::PropertyTables => 9,
            Setting::Arrays => 10,
            Setting::LowStrings => 11,
            Setting::Code => 12,
            Setting::Strings => 13,
            Setting::References => 14,
        }
    }

    /// Returns the setting with this name, if there is one. Case counts.
    pub fn named(name: &[u8]) -> Option<Setting>
        ensures { result ≡ named name.now }
    {
        for setting in &SETTINGS {
            if name == setting.name().as_bytes() {
                return Some(*setting);
            }
        }
        None
    }
}

impl fmt::Display for Setting {
    fn fmt<W: fmt::Write>(&self, f: &mut fmt::Formatter<W>) -> fmt::Result {
        f.write_str(self.name())
    }
}
