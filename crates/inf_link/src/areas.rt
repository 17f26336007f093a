//! A value for each area of a story.
ghost use Rattle.std.specs.Prelude.{◌≡◌};
ghost use Rattle.inf_link.specs.Areas.{area_of, contents, lengths};

use inf_area::{Area, AreaName};

/// A value for each area of a story, in the order of the areas in it: the area itself, its length, or the place where it begins.
#[derive(Clone, Copy, Drop)]
pub struct Areas<T> {
    pub low_strings: T,
    pub abbreviations: T,
    pub property_defaults: T,
    pub objects: T,
    pub property_tables: T,
    pub class_numbers: T,
    pub individual_tables: T,
    pub globals: T,
    pub arrays: T,
    pub grammar: T,
    pub actions: T,
    pub parsing_routines: T,
    pub dictionary: T,
    pub code: T,
    pub strings: T,
}

impl<T> Areas<T> {
    /// Returns the value of the area `name`.
    pub fn get(&self, name: AreaName) -> &T
        ensures { result.now ≡ area_of name self.now }
    {
        match name {
            AreaName::LowStrings => &self.low_strings,
            AreaName::Abbreviations => &self.abbreviations,
            AreaName::PropertyDefaults => &self.property_defaults,
            AreaName::Objects => &self.objects,
            AreaName::PropertyTables => &self.property_tables,
            AreaName::ClassNumbers => &self.class_numbers,
            AreaName::IndividualTables => &self.individual_tables,
            AreaName::Globals => &self.globals,
            AreaName::Arrays => &self.arrays,
            AreaName::Grammar => &self.grammar,
            AreaName::Actions => &self.actions,
            AreaName::ParsingRoutines => &self.parsing_routines,
            AreaName::Dictionary => &self.dictionary,
            AreaName::Code => &self.code,
            AreaName::Strings => &self.strings,
        }
    }
}

impl<A: Area> Areas<A> {
    /// Returns the number of bytes of each area.
    pub fn lengths(&self) -> Areas<usize>
        ensures { result ≡ lengths (contents A.bytes self.now) }
    {
        Areas {
            low_strings: self.low_strings.len(),
            abbreviations: self.abbreviations.len(),
            property_defaults: self.property_defaults.len(),
            objects: self.objects.len(),
            property_tables: self.property_tables.len(),
            class_numbers: self.class_numbers.len(),
            individual_tables: self.individual_tables.len(),
            globals: self.globals.len(),
            arrays: self.arrays.len(),
            grammar: self.grammar.len(),
            actions: self.actions.len(),
            parsing_routines: self.parsing_routines.len(),
            dictionary: self.dictionary.len(),
            code: self.code.len(),
            strings: self.strings.len(),
        }
    }
}
