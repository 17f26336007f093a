//! The numbers of all settings.
ghost use Rattle.std.specs.Prelude.{◌≡◌, ◌≤◌};
ghost use Rattle.inf_settings.specs.Settings.{answer_to, defaults, named, number_of, with_named, with_number};

use crate::limits::Limit;
use crate::setting::Setting;
use thiserror::Error;

/// The reason for which a setting was not set.
#[derive(Clone, Copy, Debug, PartialEq, Eq, Error)]
pub enum SetFault {
    /// No setting has the name.
    #[error("no setting has this name")]
    Unknown,
    /// The number is not 1 to 1,048,576.
    #[error("a setting is 1 to 1,048,576")]
    OutOfRange,
}

/// The numbers of all settings.
#[derive(Drop)]
pub struct Settings {
    quoted_text: Limit,
    expression_nodes: Limit,
    symbols: Limit,
    labels: Limit,
    dictionary_entries: Limit,
    objects: Limit,
    verbs: Limit,
    actions: Limit,
    grammar_lines: Limit,
    property_tables: Limit,
    arrays: Limit,
    low_strings: Limit,
    code: Limit,
    strings: Limit,
    references: Limit,
}

impl Settings {
    /// Returns the settings, each with its default number.
    pub fn new() -> Settings
        ensures { result ≡ defaults }
    {
        Settings {
            quoted_text: Limit::known(4000),
            expression_nodes: Limit::known(100),
            symbols: Limit::known(10_000),
            labels: Limit::known(1000),
            dictionary_entries: Limit::known(2000),
            objects: Limit::known(640),
            verbs: Limit::known(200),
            actions: Limit::known(200),
            grammar_lines: Limit::known(16_000),
            property_tables: Limit::known(30_000),
            arrays: Limit::known(10_000),
            low_strings: Limit::known(2048),
            code: Limit::known(262_144),
            strings: Limit::known(262_144),
            references: Limit::known(50_000),
        }
    }

    /// Sets the setting with this name, in which case counts.
    ///
    /// Refuses a name that no setting has, then a number that is not 1 to 1,048,576; the settings then stay as they were.
    pub fn set(&mut self, name: &[u8], number: u32) -> Result<(), SetFault>
        ensures answer { result ≡ answer_to (named name.now) number }
        ensures numbers { self.new ≡ with_named (named name.now) number self.old }
    {
        let Some(setting) = Setting::named(name) else {
            return Err(SetFault::Unknown);
        };
        let Some(limit) = Limit::new(number) else {
            return Err(SetFault::OutOfRange);
        };
        self.put(setting, limit);
        Ok(())
    }

    fn put(&mut self, setting: Setting, limit: Limit)
        ensures { self.new ≡ with_number setting limit self.old }
    {
        match setting {
            Setting::QuotedText => self.quoted_text = limit,
            Setting::ExpressionNodes => self.expression_nodes = limit,
            Setting::Symbols => self.symbols = limit,
            Setting::Labels => self.labels = limit,
            Setting::DictionaryEntries => self.dictionary_entries = limit,
            Setting::Objects => self.objects = limit,
            Setting::Verbs => self.verbs = limit,
            Setting::Actions => self.actions = limit,
            Setting::GrammarLines => self.grammar_lines = limit,
            Setting::PropertyTables => self.property_tables = limit,
            Setting::Arrays => self.arrays = limit,
            Setting::LowStrings => self.low_strings = limit,
            Setting::Code => self.code = limit,
            Setting::Strings => self.strings = limit,
            Setting::References => self.references = limit,
        }
    }

    /// Returns the number of a setting, 1 to 1,048,576.
    pub fn of(&self, setting: Setting) -> u32
        ensures value { result ≡ number_of setting self.now }
        ensures positive { 1 ≤ result }
        ensures small { result ≤ 1048576 }
    {
        match setting {
            Setting::QuotedText => self.quoted_text.number(),
            Setting::ExpressionNodes => self.expression_nodes.number(),
            Setting::Symbols => self.symbols.number(),
            Setting::Labels => self.labels.number(),
            Setting::DictionaryEntries => self.dictionary_entries.number(),
            Setting::Objects => self.objects.number(),
            Setting::Verbs => self.verbs.number(),
            Setting::Actions => self.actions.number(),
            Setting::GrammarLines => self.grammar_lines.number(),
            Setting::PropertyTables => self.property_tables.number(),
            Setting::Arrays => self.arrays.number(),
            Setting::LowStrings => self.low_strings.number(),
            Setting::Code => self.code.number(),
            Setting::Strings => self.strings.number(),
            Setting::References => self.references.number(),
        }
    }
}
