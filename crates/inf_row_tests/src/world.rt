//! Worlds: attributes, properties, objects and classes.
ghost use Rattle.std.specs.Prelude.{◌≡◌};
ghost use Rattle.inf_settings.specs.declared.setting.Setting.{Setting};

use crate::tables::{Table, answers, unknown};
use crate::values::value_of;
use inf_area::{Area, Refs, Value, WriteFault};
use inf_settings::bounds::Bounds;
use inf_tables::{Limits, Parent, ShortName, World, WorldArea, WorldFault};
use inf_test_lines::{
    Failing, bytes_of, debugged, done, number, number_at, outcome, shown, text_of, word,
};
use std::alloc::{AllocError, Global};
use std::marker::Brand;

/// A command for a world.
#[derive(Clone, Copy)]
enum Command {
    Declare(Declaration),
    Enter(Entry),
    Ask(Question),
}

/// A declaration or a header that gets a number.
#[derive(Clone, Copy)]
enum Declaration {
    Attribute,
    Property { is_additive: bool, value: Value },
    Individual,
    Class,
    Object(Parent),
}

/// An entry of a body, its end, or a header in error.
#[derive(Clone, Copy)]
enum Entry {
    Lost,
    Give(usize, Option<Value>),
    Value(Value),
    Lose,
    Attribute(usize, bool),
    Join(usize),
    End,
}

/// A question about a world.
#[derive(Clone, Copy)]
enum Question {
    IsGiven(usize),
    Objects,
    Bytes,
    Fixups,
    Later(WorldArea),
    Tables,
    Individuals,
}

/// Returns the limit at a place of a line, or the greatest one where there is none.
fn limit(text: &str, place: usize) -> u32 {
    u32::try_from(number_at(text, place)).unwrap_or(u32::MAX)
}

/// Returns the area with this name.
fn area_of(name: &str) -> Option<WorldArea> {
    Some(match name {
        "defaults" => WorldArea::PropertyDefaults,
        "objects" => WorldArea::Objects,
        "tables" => WorldArea::PropertyTables,
        "classes" => WorldArea::ClassNumbers,
        "individuals" => WorldArea::IndividualTables,
        _ => return None,
    })
}

/// Returns the parent that a word gives: its number behind `p`, or a number of arrows behind `a`.
fn parent_of(told: &str) -> Parent {
    if let Some(arrows) = told.strip_prefix("a") {
        return Parent::Arrows(number(arrows));
    }
    match told.strip_prefix("p") {
        Some(parent) => Parent::Object(number(parent)),
        None => Parent::Object(0),
    }
}

/// Returns the first value of a property, if the command gives one.
fn first_of(command: &str) -> Option<Value> {
    match word(command, 2) {
        "" => None,
        told => Some(value_of(told)),
    }
}

/// Returns the declaration that a text spells.
fn declaration_of(command: &str) -> Option<Declaration> {
    Some(match word(command, 0) {
        "attribute" => Declaration::Attribute,
        "property" => Declaration::Property {
            is_additive: word(command, 1) == "additive",
            value: value_of(word(command, 2)),
        },
        "individual" => Declaration::Individual,
        "class" => Declaration::Class,
        "object" => Declaration::Object(parent_of(word(command, 1))),
        _ => return None,
    })
}

/// Returns the entry that a text spells.
fn entry_of(command: &str) -> Option<Entry> {
    let number = number_at(command, 1);
    Some(match word(command, 0) {
        "lost" => Entry::Lost,
        "give" => Entry::Give(number, first_of(command)),
        "value" => Entry::Value(value_of(word(command, 1))),
        "lose" => Entry::Lose,
        "has" => Entry::Attribute(number, true),
        "hasnt" => Entry::Attribute(number, false),
        "of" => Entry::Join(number),
        "end" => Entry::End,
        _ => return None,
    })
}

/// Returns the question that a text spells.
fn question_of(command: &str) -> Option<Question> {
    Some(match word(command, 0) {
        "given" => Question::IsGiven(number_at(command, 1)),
        "count" => Question::Objects,
        "size" => Question::Bytes,
        "later" => Question::Fixups,
        "laters" => Question::Later(area_of(word(command, 1))?),
        "places" => Question::Tables,
        "individuals" => Question::Individuals,
        _ => return None,
    })
}

/// Returns the command that a text spells.
fn command_of(command: &str) -> Option<Command> {
    if let Some(declaration) = declaration_of(command) {
        return Some(Command::Declare(declaration));
    }
    match entry_of(command) {
        Some(entry) => Some(Command::Enter(entry)),
        None => Some(Command::Ask(question_of(command)?)),
    }
}

/// Returns the short name in the digits at a place of a command.
fn name_at(alloc: Global, command: &str, place: usize) -> Result<ShortName, AllocError> {
    Ok(ShortName::new(bytes_of(alloc, word(command, place))?))
}

/// Carries out a declaration or a header, and returns the answer.
fn declare<B: Bounds>(
    alloc: Global,
    world: &mut World<B>,
    declaration: Declaration,
    command: &str,
) -> Result<String, AllocError> {
    let number = match declaration {
        Declaration::Attribute => world.declare_attribute(),
        Declaration::Property { is_additive, value } => world.declare_property(is_additive, value),
        Declaration::Individual => world.declare_individual(),
        Declaration::Class => world.begin_class(name_at(alloc, command, 1)?),
        Declaration::Object(parent) => world.begin_object(parent, name_at(alloc, command, 2)?),
    };
    outcome(alloc, &number)
}

/// Carries out an entry of a body, its end, or a header in error.
fn enter<B: Bounds>(world: &mut World<B>, entry: Entry) -> Result<(), WorldFault> {
    match entry {
        Entry::Lost => world.begin_lost(),
        Entry::Give(number, first) => world.give_property(number, first),
        Entry::Value(value) => world.add_value(value),
        Entry::Lose => {
            world.lose_property();
            Ok(())
        }
        Entry::Attribute(number, is_set) => world.set_attribute(number, is_set),
        Entry::Join(class) => world.join_class(class),
        Entry::End => world.end_body(),
    }
}

/// Returns the answer to a question.
fn ask<B: Bounds>(
    alloc: Global,
    world: &World<B>,
    question: Question,
) -> Result<String, AllocError> {
    match question {
        Question::IsGiven(number) => shown(alloc, &world.is_given(number)),
        Question::Objects => shown(alloc, &world.object_count()),
        Question::Bytes => shown(alloc, &world.property_bytes()),
        Question::Fixups => shown(alloc, &world.fixups()),
        Question::Later(area) => shown(alloc, &world.later_count(area)),
        Question::Tables => debugged(alloc, &world.table_places()?.as_slice()),
        Question::Individuals => debugged(alloc, &world.individual_places()?.as_slice()),
    }
}

impl<B: Bounds> Table for World<B> {
    fn obey(&mut self, alloc: Global, command: &str) -> Result<String, AllocError> {
        match command_of(command) {
            Some(Command::Declare(declaration)) => declare(alloc, self, declaration, command),
            Some(Command::Enter(entry)) => done(alloc, &enter(self, entry)),
            Some(Command::Ask(question)) => ask(alloc, self, question),
            None => unknown(alloc),
        }
    }

    fn put<A: Area + Drop>(
        &self,
        _alloc: Global,
        command: &str,
        area: &mut Failing<A>,
        refs: &mut Refs,
    ) -> Result<(), WriteFault> {
        match area_of(word(command, 4)) {
            Some(which) => self.write(which, area, refs),
            None => Err(WriteFault::Full),
        }
    }
}

/// Returns the answer to a line of a world.
pub(crate) fn answer(alloc: Global, line: &str) -> Result<String, AllocError> {
    let limits = Limits {
        objects: limit(line, 1),
        property_bytes: limit(line, 2),
    };
    answer_under::<Brand>(alloc, limits, line.as_bytes())
}

/// Returns the answer to a line of a world under limits.
fn answer_under<B: Bounds>(alloc: Global, limits: Limits, line: &[u8]) -> Result<String, AllocError>
    requires objects { limits.objects ≡ B.most Setting.Objects }
    requires bytes { limits.property_bytes ≡ B.most Setting.PropertyTables }
{
    answers(alloc, &mut World::<B>::new(alloc, limits), text_of(line))
}
