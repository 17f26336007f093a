//! The settings that words name.
ghost use Rattle.std.specs.Prelude.{◌≡◌};
ghost use Rattle.inf_settings.specs.Settings.{answer_to, named};
ghost use Rattle.inf_command.specs.Spoken.{none_named, number_named, numbers_over, settings_of, with_name, with_named, with_number_of};

use inf_settings::setting::{SETTINGS, Setting};
use inf_settings::settings::{SetFault, Settings};

/// The number of each setting that words named, which is that of the last word that names it.
#[derive(Drop)]
pub struct Spoken {
    quoted_text: Option<u32>,
    expression_nodes: Option<u32>,
    symbols: Option<u32>,
    labels: Option<u32>,
    dictionary_entries: Option<u32>,
    objects: Option<u32>,
    verbs: Option<u32>,
    actions: Option<u32>,
    grammar_lines: Option<u32>,
    property_tables: Option<u32>,
    arrays: Option<u32>,
    low_strings: Option<u32>,
    code: Option<u32>,
    strings: Option<u32>,
    references: Option<u32>,
}

impl Spoken {
    /// Returns the numbers where no setting was named.
    pub fn none() -> Spoken
        ensures { result ≡ none_named }
    {
        Spoken {
            quoted_text: None,
            expression_nodes: None,
            symbols: None,
            labels: None,
            dictionary_entries: None,
            objects: None,
            verbs: None,
            actions: None,
            grammar_lines: None,
            property_tables: None,
            arrays: None,
            low_strings: None,
            code: None,
            strings: None,
            references: None,
        }
    }

    /// Gives the setting `name`, spelled with case, its `number`.
    ///
    /// Returns an error, the first that applies, for a name that is no setting's, and for a number that is not 1 to
    /// 1,048,576: nothing is named then.
    pub fn set(&mut self, name: &[u8], number: u32) -> Result<(), SetFault>
        ensures answer { result ≡ answer_to (named name.now) number }
        ensures numbers { self.new ≡ with_name (named name.now) number self.old }
    {
        let Some(setting) = Setting::named(name) else {
            return Err(SetFault::Unknown);
        };
        let answer = Settings::new().set(name, number);
        if answer.is_ok() {
            self.put(setting, number);
        }
        answer
    }

    fn put(&mut self, setting: Setting, number: u32)
        ensures { self.new ≡ with_named setting number self.old }
    {
        match setting {
            Setting::QuotedText => self.quoted_text = Some(number),
            Setting::ExpressionNodes => self.expression_nodes = Some(number),
            Setting::Symbols => self.symbols = Some(number),
            Setting::Labels => self.labels = Some(number),
            Setting::DictionaryEntries => self.dictionary_entries = Some(number),
            Setting::Objects => self.objects = Some(number),
            Setting::Verbs => self.verbs = Some(number),
            Setting::Actions => self.actions = Some(number),
            Setting::GrammarLines => self.grammar_lines = Some(number),
            Setting::PropertyTables => self.property_tables = Some(number),
            Setting::Arrays => self.arrays = Some(number),
            Setting::LowStrings => self.low_strings = Some(number),
            Setting::Code => self.code = Some(number),
            Setting::Strings => self.strings = Some(number),
            Setting::References => self.references = Some(number),
        }
    }

    /// Returns the number that words gave `setting`, if they named it.
    pub fn of(&self, setting: Setting) -> Option<u32>
        ensures { result ≡ number_named setting self.now }
    {
        match setting {
            Setting::QuotedText => self.quoted_text,
            Setting::ExpressionNodes => self.expression_nodes,
            Setting::Symbols => self.symbols,
            Setting::Labels => self.labels,
            Setting::DictionaryEntries => self.dictionary_entries,
            Setting::Objects => self.objects,
            Setting::Verbs => self.verbs,
            Setting::Actions => self.actions,
            Setting::GrammarLines => self.grammar_lines,
            Setting::PropertyTables => self.property_tables,
            Setting::Arrays => self.arrays,
            Setting::LowStrings => self.low_strings,
            Setting::Code => self.code,
            Setting::Strings => self.strings,
            Setting::References => self.references,
        }
    }

    /// Returns the numbers that were named here, and for each setting that was not named here the number that `others` name.
    pub fn over(&self, others: &Spoken) -> Spoken
        ensures { result ≡ numbers_over self.now others.now }
    {
        Spoken {
            quoted_text: self.quoted_text.or(others.quoted_text),
            expression_nodes: self.expression_nodes.or(others.expression_nodes),
            symbols: self.symbols.or(others.symbols),
            labels: self.labels.or(others.labels),
            dictionary_entries: self.dictionary_entries.or(others.dictionary_entries),
            objects: self.objects.or(others.objects),
            verbs: self.verbs.or(others.verbs),
            actions: self.actions.or(others.actions),
            grammar_lines: self.grammar_lines.or(others.grammar_lines),
            property_tables: self.property_tables.or(others.property_tables),
            arrays: self.arrays.or(others.arrays),
            low_strings: self.low_strings.or(others.low_strings),
            code: self.code.or(others.code),
            strings: self.strings.or(others.strings),
            references: self.references.or(others.references),
        }
    }

    /// Returns the number of each setting: the one that words named, or its default.
    pub fn settings(&self) -> Settings
        ensures { result ≡ settings_of self.now }
    {
        let mut settings = Settings::new();
        for setting in &SETTINGS {
            set_named(&mut settings, *setting, self.of(*setting));
        }
        settings
    }
}

/// Sets `setting` to the number that words gave it, if they did.
fn set_named(settings: &mut Settings, setting: Setting, number: Option<u32>)
    ensures { settings.new ≡ with_number_of setting number settings.old }
{
    if let Some(number) = number {
        let _ = settings.set(setting.name().as_bytes(), number);
    }
}
