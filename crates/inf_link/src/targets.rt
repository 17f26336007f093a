//! Numbers that are known once a story is laid out.
ghost use Rattle.std.specs.{Cmp.Lexicographic.slice_cmp, List.Sorted.IsSorted, Ordering.nat_cmp};
ghost use Rattle.std.specs.Prelude.{◌≡◌, ◌%◌, ◌<◌, ◌≤◌, IfSome, is_none, None, length, slice_get};
ghost use Rattle.inf_link.specs.Targets.{direct_number, divisor, is_below, lookup, number_of, part_of, place_number, rank_of};
ghost use Rattle.inf_link.specs.Targets.{system_number};

use crate::areas::Areas;
use inf_area::{AreaName, Scale, SystemConstant, Target, Value};

/// The place where the words of the dictionary begin in it, in bytes (Z-Machine Standard 1.1, section 13.2).
const FIRST_WORD: u128 = 7;

/// Number of bytes of a word's entry.
const WORD_SIZE: u128 = 9;

/// The table in which the targets of a story are looked up. A number that is not found is 0.
#[derive(Drop)]
pub struct Targets {
    /// The value of each name of the source, by its number. This value is itself no name.
    pub names: Vec<Value>,
    /// The places where the property tables of the objects begin, in bytes from the front of their area, in order.
    pub property_tables: Vec<usize>,
    /// The places where the individual tables begin, in bytes from the front of their area, in order.
    pub individual_tables: Vec<usize>,
    /// The places where the lines of the verbs begin, in bytes from the front of the grammar, in order.
    pub verbs: Vec<usize>,
    /// The texts of the words of the dictionary, in any order. A word is looked up by the number of texts below its own.
    pub words: Vec<[u8; 6]>,
    /// The number of the last object.
    pub last_object: u16,
}

fn is_below(a: &[u8; 6], b: &[u8; 6]) -> bool
    ensures { result ≡ is_below a.now b.now }
{
    a.cmp(b).is_lt()
}

/// Returns the number of texts below `text`, where `words` are in rising order.
fn rank(words: &[[u8; 6]], text: [u8; 6]) -> usize
    requires sorted { IsSorted (slice_cmp nat_cmp) words.now }
    ensures { result ≡ rank_of text words.now }
{
    words.partition_point(
        |word: &[u8; 6]| -> bool
            ensures { result ≡ is_below word.now text }
        { is_below(word, &text) },
    )
}

/// Returns the number that the address of a place in an area is divided by.
fn divisor(scale: Scale, area: AreaName) -> u128
    ensures value { result ≡ divisor scale area }
    ensures positive { 0 < result }
{
    match area {
        AreaName::LowStrings => 2,
        AreaName::Code | AreaName::Strings => scale.number() as u128,
        _ => 1,
    }
}

/// Returns the number of a place in an area, before it is taken modulo 65536.
fn place_number(scale: Scale, bases: &Areas<usize>, area: AreaName, place: usize) -> u128
    ensures { result ≡ place_number scale bases.now area place }
{
    let base = *bases.get(area);
    (base as u128 + place as u128) / divisor(scale, area)
}

impl Targets {
    /// Returns the places of the parts of an area.
    fn parts(&self, area: AreaName) -> &[usize]
        ensures { result.now ≡ part_of (lookup self.now) area }
    {
        match area {
            AreaName::PropertyTables => &self.property_tables,
            AreaName::IndividualTables => &self.individual_tables,
            AreaName::Grammar => &self.verbs,
            _ => &[],
        }
    }

    /// Returns a constant of the story as a whole.
    fn system_number(&self, scale: Scale, bases: &Areas<usize>, constant: SystemConstant) -> u128
        ensures { result ≡ system_number (lookup self.now) scale bases.now constant }
    {
        match constant {
            SystemConstant::GrammarTable => bases.grammar as u128,
            SystemConstant::ActionsTable => bases.actions as u128,
            SystemConstant::PreactionsTable => bases.parsing_routines as u128,
            SystemConstant::DictionaryTable => bases.dictionary as u128,
            SystemConstant::ClassesTable => bases.class_numbers as u128,
            SystemConstant::GlobalsArray => bases.globals as u128,
            SystemConstant::ReadableMemoryOffset => bases.code as u128,
            SystemConstant::CodeOffset => (bases.code / scale.number()) as u128,
            SystemConstant::StringsOffset => (bases.strings / scale.number()) as u128,
            SystemConstant::HighestObjectNumber => u128::from(self.last_object),
        }
    }

    /// Returns the number of a part of an area.
    fn part_number(&self, scale: Scale, bases: &Areas<usize>, area: AreaName, part: usize) -> u128
        ensures { result ≡ direct_number (lookup self.now) scale bases.now (Target.Part area part) }
    {
        match self.parts(area).get(part) {
            Some(place) => place_number(scale, bases, area, *place),
            None => 0,
        }
    }

    /// Returns the number of a target that is no name.
    fn direct_number(&self, scale: Scale, bases: &Areas<usize>, target: Target) -> u128
        requires sorted { IsSorted (slice_cmp nat_cmp) self.now.words.items }
        ensures { result ≡ direct_number (lookup self.now) scale bases.now target }
    {
        match target {
            Target::Name(_) => 0,
            Target::Place(area, place) => place_number(scale, bases, area, place),
            Target::Part(area, part) => self.part_number(scale, bases, area, part),
            Target::Word(text) => {
                let rank = rank(&self.words, text) as u128;
                bases.dictionary as u128 + FIRST_WORD + WORD_SIZE * rank
            }
            Target::System(constant) => self.system_number(scale, bases, constant),
        }
    }

    /// Returns the number of a target, where areas begin at `bases` and the words are in rising order.
    pub fn number(&self, scale: Scale, bases: &Areas<usize>, target: Target) -> u16
        requires sorted { IsSorted (slice_cmp nat_cmp) self.now.words.items }
        ensures { result ≡ number_of (lookup self.now) scale bases.now target }
    {
        let number = match target {
            Target::Name(name) => match self.names.get(name) {
                Some(Value::Known(number)) => u128::from(*number),
                Some(Value::Later(target)) => self.direct_number(scale, bases, *target),
                None => 0,
            },
            _ => self.direct_number(scale, bases, target),
        };
        (number % 65536) as u16
    }
}
