//! All tables, one of each kind.
ghost use Rattle.std.specs.Prelude.{◌≡◌};
ghost use Rattle.inf_settings.specs.{Bounds.AreSet, declared.setting.Setting.Setting};
ghost use Rattle.inf_tables.specs.Tables.{more, no_tables, references, references_with};

use crate::low_strings::LowStrings;
use crate::{Limits, World};
use inf_arrays::{Arrays, Globals};
use inf_dictionary::Dictionary;
use inf_settings::bounds::Bounds;
use inf_settings::setting::Setting;
use inf_settings::settings::Settings;
use inf_verbs::{Actions, ParsingRoutines, Verbs};
use std::alloc::Global;
use std::marker::Model;

/// The references that each story has: the addresses of the property tables of its first four objects.
const FIRST_REFERENCES: usize = 4;

/// The tables of a story so far.
#[derive(Drop)]
pub struct Tables<B: Bounds> {
    pub dictionary: Dictionary<B>,
    pub arrays: Arrays<B>,
    pub globals: Globals,
    pub world: World<B>,
    pub verbs: Verbs<B>,
    pub actions: Actions<B>,
    pub parsing: ParsingRoutines,
    pub low_strings: LowStrings<B>,
}

impl<B: Bounds> Model for Tables<B> {
    ghost use Rattle.inf_tables.specs.Tables.{AllTables};

    ghost Value = { AllTables };

    ghost view = { λ t. record {
      dictionary = t.dictionary;
      arrays = t.arrays;
      globals = t.globals;
      world = t.world;
      verbs = t.verbs;
      actions = t.actions;
      parsing = t.parsing;
      low_strings = t.low_strings;
    } };
}

/// Returns the limits of the world by the settings: of its objects and of the bytes of property tables.
fn world_limits<B: Bounds>(settings: &Settings) -> Limits
    requires { AreSet B.most settings.now }
    ensures objects { result.objects ≡ B.most Setting.Objects }
    ensures bytes { result.property_bytes ≡ B.most Setting.PropertyTables }
{
    Limits {
        objects: settings.bound::<B>(Setting::Objects),
        property_bytes: settings.bound::<B>(Setting::PropertyTables),
    }
}

/// Returns the sum of `count` and `other`, or the greatest number of the program where that is less.
#[tactic(auto, unfolding(crate::specs::Tables::more))]
fn more(count: usize, other: usize) -> usize
    ensures { result ≡ more count other }
{
    count.saturating_add(other)
}

impl<B: Bounds> Tables<B> {
    /// Makes the tables of a source that filled none yet: the world has its first four objects. Each table may grow as
    /// far as the settings say. They take no memory.
    pub fn new(alloc: Global, settings: &Settings) -> Tables<B>
        requires { AreSet B.most settings.now }
        ensures { result ≡ no_tables }
    {
        Tables {
            dictionary: Dictionary::new(
                alloc,
                settings.bound::<B>(Setting::DictionaryEntries) as usize,
            ),
            arrays: Arrays::new(alloc, settings.bound::<B>(Setting::Arrays) as usize),
            globals: Globals::new(alloc),
            world: World::new(alloc, world_limits::<B>(settings)),
            verbs: Verbs::new(
                alloc,
                settings.bound::<B>(Setting::Verbs) as usize,
                settings.bound::<B>(Setting::GrammarLines) as usize,
            ),
            actions: Actions::new(alloc, settings.bound::<B>(Setting::Actions) as usize),
            parsing: ParsingRoutines::new(alloc),
            low_strings: LowStrings::new(alloc, settings.bound::<B>(Setting::LowStrings) as usize),
        }
    }

    /// Returns the number of references that the tables have so far, values that are known when the story is laid out,
    /// beside the four of the first objects.
    pub fn references(&self) -> usize
        ensures { result ≡ references self.now }
    {
        let objects = self.world.fixups().saturating_sub(FIRST_REFERENCES);
        let world = more(objects, self.globals.later_count());
        let grammar = more(
            self.verbs.later_count(),
            more(self.actions.len(), self.parsing.len()),
        );
        let abbreviations = self.low_strings.abbreviation_places().len();
        more(
            more(world, self.arrays.later_count()),
            more(grammar, abbreviations),
        )
    }

    /// Returns the number of references with `others` more.
    pub fn references_with(&self, others: usize) -> usize
        ensures { result ≡ references_with others self.now }
    {
        more(others, self.references())
    }
}
