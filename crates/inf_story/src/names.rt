//! The values of the names of a source in its story.
ghost use Rattle.std.specs.Prelude.{◌≡◌, IfOk, option_map};
ghost use Rattle.inf_names.specs.Symbols.{meaning_in, standing_at};
ghost use Rattle.inf_story.specs.Names.{value_by, value_of, values_of};

use inf_area::{AreaName, Target, Value};
use inf_names::meanings::Meaning;
use inf_names::symbols::Symbols;
use inf_scanner::Place;
use inf_settings::bounds::Bounds;
use std::alloc::{AllocError, Global};

fn value_of(meaning: Meaning) -> Option<Value>
    ensures { result ≡ value_of meaning }
{
    match meaning {
        Meaning::Number(number)
        | Meaning::IndividualProperty(number)
        | Meaning::Object(number)
        | Meaning::Class(number)
        | Meaning::FakeAction(number) => Some(Value::Known(number)),
        Meaning::Variable(number) | Meaning::Attribute(number) | Meaning::Property { number, .. } =>
            Some(Value::Known(u16::from(number))),
        Meaning::Text(place) => Some(Value::Later(Target::Place(AreaName::Strings, place))),
        Meaning::LowString(place) => Some(Value::Later(Target::Place(AreaName::LowStrings, place))),
        Meaning::Array(place) => Some(Value::Later(Target::Place(AreaName::Arrays, place))),
        Meaning::Routine(place) | Meaning::PackedAddress(place) => Some(Value::Later(Target::Place(
            AreaName::Code,
            place,
        ))),
        Meaning::Word(text) => Some(Value::Later(Target::Word(text))),
        Meaning::Function(_) => None,
    }
}

/// Returns the value in a story of name `number` of `names`, or `None` where it has none.
fn value_at<B: Bounds>(names: &Symbols<Place, B>, number: usize) -> Option<Value>
    ensures { result ≡ value_by (meaning_in (standing_at number names.now.names)) }
{
    value_of(names.meaning_at(number)?)
}

/// Returns the value of each of `names` in the story, in order; or `None` where one of them has no value, as one that was not declared.
pub fn values_of<B: Bounds>(
    alloc: Global,
    names: &Symbols<Place, B>,
) -> Result<Option<Vec<Value>>, AllocError>
    ensures { IfOk result (λ values. option_map (λ v. v.items) values ≡ values_of names.now.names) }
{
    let mut values = Vec::with_capacity(alloc, names.len())?;
    for number in 0..names.len() {
        let Some(value) = value_at(names, number) else {
            return Ok(None);
        };
        values.push(value)?;
    }
    Ok(Some(values))
}
