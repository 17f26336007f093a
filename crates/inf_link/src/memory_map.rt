//! The places where the areas of a story begin (Z-Machine Standard 1.1, section 1.1).
ghost use Rattle.std.specs.Prelude.{◌≡◌, ◌+◌, ◌<◌, ◌≤◌, ◌^◌, None, Some, MatchResult};
ghost use Rattle.inf_area.specs.Scales.{aligned, most_bytes};
ghost use Rattle.inf_link.specs.MemoryMaps.{map_of, too_long};

use crate::areas::Areas;
use crate::header::HEADER_SIZE;
use crate::link::LinkFault;
use inf_area::Scale;

/// The last address at which code may begin, since the bytes before it are read by addresses of two bytes.
const MOST_READABLE: u128 = 65_534;

/// The places where areas begin and where the story ends, in bytes from its front.
#[derive(Clone, Copy)]
pub struct MemoryMap {
    pub bases: Areas<usize>,
    pub end: usize,
}

/// Returns the next place that has a packed address.
fn aligned(scale: Scale, at: u128) -> u128
    requires { at < 2 ^ 100 }
    ensures value { result ≡ aligned scale at }
    ensures bound { result < at + 8 }
{
    let number = scale.number() as u128;
    at + (number - at % number) % number
}

impl MemoryMap {
    ghost use Rattle.inf_link.specs.MemoryMaps.{map_of, too_long};

    /// Lays areas of the given lengths out. The call is refused first where code would begin too far, then where the story
    /// would be longer than one of its version may be.
    pub fn of(lengths: Areas<usize>, scale: Scale) -> Result<MemoryMap, LinkFault>
        ensures map { let long = too_long lengths scale in
            MatchResult result (λ map. (map ≡ map_of lengths scale) × (long ≡ None)) (λ fault. long ≡ Some fault) }
        ensures small { MatchResult result (λ map. map.bases.code < 65536) (λ _. Unit {0}) }
    {
        let low_strings = HEADER_SIZE as u128;
        let abbreviations = low_strings + lengths.low_strings as u128;
        let property_defaults = abbreviations + lengths.abbreviations as u128;
        let objects = property_defaults + lengths.property_defaults as u128;
        let property_tables = objects + lengths.objects as u128;
        let class_numbers = property_tables + lengths.property_tables as u128;
        let individual_tables = class_numbers + lengths.class_numbers as u128;
        let globals = individual_tables + lengths.individual_tables as u128;
        let arrays = globals + lengths.globals as u128;
        let grammar = arrays + lengths.arrays as u128;
        let actions = grammar + lengths.grammar as u128;
        let parsing_routines = actions + lengths.actions as u128;
        let dictionary = parsing_routines + lengths.parsing_routines as u128;
        let code = aligned(scale, dictionary + lengths.dictionary as u128);
        let strings = aligned(scale, code + lengths.code as u128);
        let end = aligned(scale, strings + lengths.strings as u128);
        if code > MOST_READABLE {
            return Err(LinkFault::ReadableTooLong);
        }
        if end > scale.most_bytes() as u128 {
            return Err(LinkFault::StoryTooLong);
        }
        let bases = Areas {
            low_strings: low_strings as usize,
            abbreviations: abbreviations as usize,
            property_defaults: property_defaults as usize,
            objects: objects as usize,
            property_tables: property_tables as usize,
            class_numbers: class_numbers as usize,
            individual_tables: individual_tables as usize,
            globals: globals as usize,
            arrays: arrays as usize,
            grammar: grammar as usize,
            actions: actions as usize,
            parsing_routines: parsing_routines as usize,
            dictionary: dictionary as usize,
            code: code as usize,
            strings: strings as usize,
        };
        Ok(MemoryMap {
            bases,
            end: end as usize,
        })
    }
}
