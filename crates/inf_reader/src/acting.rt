//! The effects of the grammar's actions: they gather the parts of a unit, which acts at its end.
ghost use Rattle.inf_compilation.specs.{Actions.cut, Actions.is_deep, Context.handed, Works.work};
ghost use Rattle.std.specs.Prelude.{None, OnOk, ◌≡◌};
ghost use Rattle.inf_reader.specs.Acting.{act, acted, all_acted, cut_at, ended, is_crowded, is_long, is_tall, kind_of, noted, noted_of};
ghost use Rattle.inf_reader.specs.Acting.{is_wordy, operands_named, value_noted};
ghost use Rattle.inf_unit.specs.Directives.{Nothing};

use crate::directives::end_directive;
use crate::headers::end_directive_header;
use inf_bodies::bodies::{attribute_of_body, class_of_body, end_body, property_of_body};
use inf_bodies::values::{routine_of_body, value_of_body};
use inf_compilation::compilation::Compilation;
use inf_compilation::context::Context;
use inf_constructs::constructs::{Case, Kind, Over};
use inf_declarations::arrays::end_entry;
use inf_directives::abbreviations::abbreviation;
use inf_expressions::Wanted;
use inf_lexer::Place;
use inf_operands::operands::name_locals;
use inf_parts::parts::{Part, end_part, end_statement};
use inf_settings::bounds::Bounds;
use inf_settings::setting::Setting;
use inf_syntax::Action;
use inf_unit::roles::{
    Ending, Note, Opening, Role, ends_outer, ends_token, ends_value, is_arrow, is_text,
    is_verb_word, makes_sure, role_of,
};
use inf_unit::unit::order;
use inf_verb_lines::lines::{end_line, sift_token};
use inf_verb_lines::long_headers::sift_word;
use std::alloc::AllocError;

/// Returns the kind of construct that a statement opens.
fn kind_of(opening: Opening) -> Kind
    ensures { result ≡ kind_of opening }
{
    match opening {
        Opening::If => Kind::If,
        Opening::While => Kind::While,
        Opening::Do => Kind::Do,
        Opening::For => Kind::For,
        Opening::Objectloop => Kind::Objects(Over::Nothing, 0),
        Opening::Switch => Kind::Switch(Case::Nothing, false),
    }
}

/// Cuts the unit at hand before a bad token at `place`. An entry of an array that waited for the token behind it is
/// whole before the bad one.
pub fn cut<B: Bounds>(
    compilation: &mut Compilation<B>,
    context: &Context<'_>,
    place: Place,
) -> Result<(), AllocError>
    ensures { OnOk result (work compilation.new ≡ cut_at B.most (handed context.now) place (work compilation.old)) }
{
    if compilation.unit.held.is_some() {
        end_entry(compilation, context, place, false)?;
    }
    give_up(compilation, context)
}

/// Cuts the unit at hand at a bad token: its outermost expression surely was one, and the word before the token opened
/// its statement. The routine around it is given up.
fn give_up<B: Bounds>(
    compilation: &mut Compilation<B>,
    context: &Context<'_>,
) -> Result<(), AllocError>
    ensures { OnOk result (work compilation.new ≡ cut (handed context.now) (work compilation.old)) }
{
    compilation.unit.is_sure = true;
    end_body(compilation)?;
    compilation.output.code.give_up();
    compilation.size(context)?;
    compilation.check_opening(context)
}

/// Carries out the actions on the way to a token at a place.
pub fn act_all<B: Bounds>(
    compilation: &mut Compilation<B>,
    context: &Context<'_>,
    place: Place,
    actions: &[Action],
) -> Result<(), AllocError>
    ensures { OnOk result (work compilation.new ≡ all_acted B.most (handed context.now) place actions.now (work compilation.old)) }
{
    compilation.opening = None;
    act_each(compilation, context, place, actions)
}

/// Carries out some actions, before a token at a place. Only what most actions do is inlined into the loop: for more of it the addresses of
/// all parts of a compilation would be put aside before each loop.
fn act_each<B: Bounds>(
    compilation: &mut Compilation<B>,
    context: &Context<'_>,
    place: Place,
    actions: &[Action],
) -> Result<(), AllocError>
    ensures { OnOk result (work compilation.new ≡ acted B.most (handed context.now) place actions.now (work compilation.old)) }
{
    for action in actions {
        act(compilation, context, place, *action)?;
    }
    Ok(())
}

/// Carries out an action, before a token at a place.
#[inline(always)]
fn act<B: Bounds>(
    compilation: &mut Compilation<B>,
    context: &Context<'_>,
    place: Place,
    action: Action,
) -> Result<(), AllocError>
    ensures { OnOk result (work compilation.new ≡ act B.most (handed context.now) place action (work compilation.old)) }
{
    match role_of(action) {
        Role::Gather(step) => compilation.unit.step(step),
        Role::Note(noted) => note(compilation, context, noted),
        Role::End(ending) => end(compilation, context, place, ending),
        Role::Open(opening) => compilation.open_construct(context, place, kind_of(opening)),
        Role::Join => compilation.constructs.go_on(&mut compilation.output),
        Role::Close => compilation.close_construct(),
        Role::Deeper => {
            let is_deep = compilation.is_deep(1);
            compilation.nest(context, place, is_deep)
        }
        Role::MaybeDeeper => {
            compilation.opening = Some(place);
            Ok(())
        }
        Role::Nothing => Ok(()),
    }
}

fn is_crowded<B: Bounds>(compilation: &Compilation<B>) -> bool
    ensures { result ≡ is_crowded B.most (work compilation.now) }
{
    compilation.unit.code > compilation.output.code.most_bytes()
}

fn is_tall<B: Bounds>(compilation: &Compilation<B>, context: &Context<'_>) -> bool
    ensures { result ≡ is_tall (handed context.now) (work compilation.now) }
{
    compilation.unit.last() > context.settings.of(Setting::Objects) as usize
}

/// Makes `note` of the unit at hand, by which its outermost expression may be too long. Only some of the texts that are printed, and of the
/// arrows before an object's name, are kept, and no operands where these are too many; of the tokens of a line of grammar that is too long,
/// of the words of a verb that has too many, and of the values of a statement that has too many, those that matter.
fn note<B: Bounds>(
    compilation: &mut Compilation<B>,
    context: &Context<'_>,
    note: Note,
) -> Result<(), AllocError>
    ensures { OnOk result (work compilation.new ≡ noted B.most (handed context.now) note (work compilation.old)) }
{
    if is_text(note) && is_crowded(compilation) {
        compilation.unit.pass_text();
        return Ok(());
    }
    if is_arrow(note) && is_tall(compilation, context) {
        compilation.unit.pass_last();
        return Ok(());
    }
    if ends_outer(note) && compilation.unit.is_full() {
        return pass_operands(compilation);
    }
    if ends_token(note) && is_long(compilation, context) {
        return sift_token(compilation, context);
    }
    if ends_value(note) && is_crowded(compilation) {
        return end_value(compilation, context, note);
    }
    if is_verb_word(note) && is_wordy(compilation, context) {
        return sift_word(compilation);
    }
    keep_note(compilation, context, note)
}

fn is_long<B: Bounds>(compilation: &Compilation<B>, context: &Context<'_>) -> bool
    ensures { result ≡ is_long (handed context.now) (work compilation.now) }
{
    compilation.unit.last() > context.settings.of(Setting::GrammarLines) as usize
}

fn is_wordy<B: Bounds>(compilation: &Compilation<B>, context: &Context<'_>) -> bool
    ensures { result ≡ is_wordy (handed context.now) (work compilation.now) }
{
    compilation.unit.last() > context.settings.of(Setting::DictionaryEntries) as usize
}

/// Makes `note`, with which a value ends of a unit that has too many.
#[cold]
#[inline(never)]
fn end_value<B: Bounds>(
    compilation: &mut Compilation<B>,
    context: &Context<'_>,
    note: Note,
) -> Result<(), AllocError>
    ensures { OnOk result (work compilation.new ≡ value_noted (handed context.now) note (work compilation.old)) }
{
    keep_note(compilation, context, note)?;
    compilation.sift_value(context)
}

/// Passes the operands of the unit at hand, which are more than an instruction has: they name their locals, and the
/// finding about them is kept.
#[cold]
#[inline(never)]
fn pass_operands<B: Bounds>(compilation: &mut Compilation<B>) -> Result<(), AllocError>
    ensures { OnOk result (work compilation.new ≡ operands_named (work compilation.old)) }
{
    let operands = compilation.operands()?;
    let first = order(compilation.unit.begun);
    let finding = compilation.finding(first, Wanted::Operand, operands.as_slice())?;
    let unit = &compilation.unit;
    name_locals(
        &mut compilation.locals,
        &unit.tokens,
        unit.gathering.leaves(),
    );
    compilation.unit.pass_operands(finding)
}

/// Makes `note`, which is kept, of the unit at hand.
#[inline(always)]
fn keep_note<B: Bounds>(
    compilation: &mut Compilation<B>,
    context: &Context<'_>,
    note: Note,
) -> Result<(), AllocError>
    ensures { OnOk result (work compilation.new ≡ noted_of (handed context.now) note (work compilation.old)) }
{
    compilation.unit.note(note)?;
    if makes_sure(note) {
        return compilation.size(context);
    }
    Ok(())
}

/// Ends the unit at hand as `ending` says, before a token at `place`. It stands apart, since most actions end none.
#[inline(never)]
fn end<B: Bounds>(
    compilation: &mut Compilation<B>,
    context: &Context<'_>,
    place: Place,
    ending: Ending,
) -> Result<(), AllocError>
    ensures { OnOk result (work compilation.new ≡ ended B.most (handed context.now) place ending (work compilation.old)) }
{
    match ending {
        Ending::Locals => compilation.end_header(context, place),
        Ending::Embedded => routine_of_body(compilation, context, place),
        Ending::Routine => compilation.close(context, place),
        Ending::Directive => end_directive(compilation, context, place),
        Ending::Header => end_directive_header(compilation, context, place),
        Ending::Body => end_body(compilation),
        Ending::Class => class_of_body(compilation, context, place),
        Ending::Attribute => attribute_of_body(compilation, context, place),
        Ending::Property => property_of_body(compilation, context, place),
        Ending::Value => value_of_body(compilation, context, place),
        Ending::Line => end_line(compilation, context, place),
        Ending::Abbreviation => abbreviation(compilation, context, place),
        Ending::Entry => end_entry(compilation, context, place, false),
        Ending::Alone => end_entry(compilation, context, place, true),
        Ending::Statement => end_statement(compilation, context, place),
        Ending::Condition => end_part(compilation, context, place, Part::Condition),
        Ending::Start => end_part(compilation, context, place, Part::Start),
        Ending::Step => end_part(compilation, context, place, Part::Step),
        Ending::Loop => end_part(compilation, context, place, Part::Loop),
        Ending::Switched => end_part(compilation, context, place, Part::Switched),
        Ending::Case => end_part(compilation, context, place, Part::Case),
    }
}
