//! The values of properties: words of the dictionary, expressions, and routines.
ghost use Rattle.inf_compilation.specs.{Context.handed, Meant.found_as, Works.work};
ghost use Rattle.std.specs.Prelude.{IfOk, OnOk, option_map, ◌≡◌};
ghost use Rattle.inf_names.specs.LocalList.{headed as as_headed};
ghost use Rattle.inf_bodies.specs.Values.{bracket_in, bracket_step, char_text, embedded, embedded_begun, embedded_findings};
ghost use Rattle.inf_bodies.specs.Values.{embedded_opened, embedded_read, expression_finding, expression_placed, found_embedded, leaf_text};
ghost use Rattle.inf_bodies.specs.Values.{many_by, name_place, next_routine, only_leaf, place_before, routine_placed, settled_finding};
ghost use Rattle.inf_bodies.specs.Values.{settled_placed, takes_words, text_finding, text_placed, text_value, value_finding, value_placed};
ghost use Rattle.inf_bodies.specs.Values.{value_read, value_with, value_with_finding, word_leaf, word_text, word_used, wrong_if};
ghost use Rattle.inf_bodies.specs.Bodies.{place_finding};

use crate::bodies::{is_words, last_at, place_finding, placed, property_of};
use crate::objects::{found_at, tell_entry};
use crate::short_names::text_in;
use inf_area::{AreaName, Target, Value};
use inf_compilation::compilation::Compilation;
use inf_compilation::context::Context;
use inf_compilation::findings::{Findings, header_findings};
use inf_expressions::{Finding, Wanted, least_of_both};
use inf_gathering::gathering::Leaf;
use inf_lexer::Place;
use inf_named_values::values::{has_variables, looked_value, text_at, value, value_in};
use inf_names::locals::Headed;
use inf_report::messages::FixedLimit;
use inf_scanner::{Mark, TokenKind};
use inf_settings::bounds::Bounds;
use inf_tables::WordUse;
use inf_text::{Mode, Text, dict_word};
use inf_unit::kinds::is_mark;
use inf_unit::unit::order;
use inf_unit::unit_tokens::UnitTokens;
use std::alloc::AllocError;

/// Returns the place before another one, or `None` before the first.
fn place_before(at: usize) -> Option<usize>
    ensures { result ≡ place_before at }
{
    if at == 0 { None } else { Some(at - 1) }
}

/// Returns the place of the name of a property, which comes before its first value, where that begins at a place.
fn name_place(outer: Option<usize>) -> Option<usize>
    ensures { result ≡ name_place outer }
{
    match outer {
        Some(at) => place_before(at),
        None => None,
    }
}

/// Returns the finding that something is wrong with a value, where `is_wrong`.
fn wrong_if(is_wrong: bool) -> Option<Finding>
    ensures { result ≡ wrong_if is_wrong }
{
    if is_wrong {
        Some(Finding::out_of_range(0))
    } else {
        None
    }
}

// Functions for words of the dictionary

/// Returns the leaf of an expression that has no other, or `None`.
fn only_leaf(leaves: &[Leaf]) -> Option<Leaf>
    ensures { result ≡ only_leaf leaves.now }
{
    match leaves {
        [leaf] => Some(*leaf),
        _ => None,
    }
}

/// Returns the word of the dictionary with these characters as a value; 0 where a string variable is among them.
fn text_value(has_variables: bool, text: &Text) -> Value
    ensures { result ≡ text_value has_variables text.now }
{
    if has_variables {
        Value::Known(0)
    } else {
        Value::Later(Target::Word(dict_word(text)))
    }
}

// Functions for routines

fn bracket_step(bracket: usize, at: usize, kind: Option<TokenKind>) -> usize
    ensures { result ≡ bracket_step at kind bracket }
{
    match kind {
        Some(kind) if is_mark(kind, Mark::OpenBracket) => at,
        _ => bracket,
    }
}

/// Returns the place of the bracket that opens a routine, which is the last one of its unit.
#[tactic(auto, using(crate::proofs::KindSteps::bracket_goes))]
fn bracket_in(tokens: &UnitTokens) -> usize
    ensures { result ≡ bracket_in tokens.now }
{
    let mut bracket = 0;
    for at in 0..tokens.len() {
        bracket = bracket_step(bracket, at, tokens.kind(at));
    }
    bracket
}

fn many_by(are_locals: bool) -> FixedLimit
    ensures { result ≡ many_by are_locals }
{
    if are_locals {
        FixedLimit::Locals
    } else {
        FixedLimit::Values
    }
}

/// Returns the findings about a routine that is a value: `own`, that about the property to which it goes, that it has too many locals if
/// `are_locals`, or those of its `header`.
fn embedded_findings(own: Option<Finding>, are_locals: bool, header: Findings) -> Findings
    ensures { found_as result ≡ embedded_findings own are_locals (found_as header) }
{
    Findings {
        least: least_of_both(own, header.least),
        many: many_by(are_locals),
        again: header.again,
    }
}

// Functions for words of the dictionary

/// Returns whether a character or a text is a word of the dictionary, as a value of the property whose name is at a
/// place, or of the one that was given last.
fn takes_words<B: Bounds>(compilation: &Compilation<B>, name: Option<usize>) -> bool
    ensures { result ≡ takes_words name (work compilation.now) }
{
    match name {
        Some(at) => is_words(property_of(found_at(compilation, at))),
        None => compilation.is_name,
    }
}

/// Returns the leaf that may be a word of the dictionary: that of an expression which has no more.
fn word_leaf<B: Bounds>(compilation: &Compilation<B>, takes_words: bool) -> Option<Leaf>
    ensures { result ≡ word_leaf takes_words (work compilation.now) }
{
    let gathering = &compilation.unit.gathering;
    if takes_words && gathering.symbols().len() == 1 {
        only_leaf(gathering.leaves())
    } else {
        None
    }
}

/// Returns the character of the last token, as a text.
fn char_text<B: Bounds>(
    compilation: &Compilation<B>,
    context: &Context<'_>,
) -> Result<Option<Text>, AllocError>
    ensures { IfOk result (λ text. text ≡ char_text (handed context.now) (work compilation.now)) }
{
    match compilation
        .unit
        .tokens
        .get(last_at(&compilation.unit.tokens))
    {
        Some(token) => text_in(compilation.alloc, context.set, Mode::Quote, token.bytes),
        None => Ok(None),
    }
}

/// Returns the characters of a leaf that is a character or a text.
fn leaf_text<B: Bounds>(
    compilation: &Compilation<B>,
    context: &Context<'_>,
    leaf: Leaf,
) -> Result<Option<Text>, AllocError>
    ensures { IfOk result (λ text. text ≡ leaf_text (handed context.now) leaf (work compilation.now)) }
{
    match leaf {
        Leaf::Char(_) => char_text(compilation, context),
        Leaf::Text(at) => text_at(compilation, context, at),
        _ => Ok(None),
    }
}

/// Returns the characters of the value, where it is a word of the dictionary.
fn word_text<B: Bounds>(
    compilation: &Compilation<B>,
    context: &Context<'_>,
    takes_words: bool,
) -> Result<Option<Text>, AllocError>
    ensures { IfOk result (λ text. text ≡ word_text (handed context.now) takes_words (work compilation.now)) }
{
    match word_leaf(compilation, takes_words) {
        Some(leaf) => leaf_text(compilation, context, leaf),
        None => Ok(None),
    }
}

/// Uses a word as a value, unless there is a finding about it.
fn use_word<B: Bounds>(
    compilation: &mut Compilation<B>,
    found: Option<Finding>,
    text: &Text,
) -> Result<(), AllocError>
    ensures { OnOk result (work compilation.new ≡ word_used B.most found text.now (work compilation.old)) }
{
    match found {
        Some(_) => Ok(()),
        None => compilation
            .output
            .word(dict_word(text), WordUse::Other, false),
    }
}

/// Puts the word with these characters into a property, as a value, and returns the finding about it.
fn place_text<B: Bounds>(
    compilation: &mut Compilation<B>,
    name: Option<usize>,
    text: &Text,
) -> Result<Option<Finding>, AllocError>
    ensures value { OnOk result (work compilation.new ≡ text_placed B.most name text.now (work compilation.old)) }
    ensures finding { IfOk result (λ f. f ≡ text_finding B.most name text.now (work compilation.old)) }
{
    let is_wrong = has_variables(text.as_slice());
    let value = text_value(is_wrong, text);
    let found = placed(compilation, name, value, wrong_if(is_wrong))?;
    use_word(compilation, found, text)?;
    Ok(found)
}

// Functions for expressions

/// Puts the value of the unit's expression, with which nothing is wrong, into a property, and returns the finding about it.
fn place_settled<B: Bounds>(
    compilation: &mut Compilation<B>,
    context: &Context<'_>,
    name: Option<usize>,
) -> Result<Option<Finding>, AllocError>
    ensures value { OnOk result (work compilation.new ≡ settled_placed B.most (handed context.now) name (work compilation.old)) }
    ensures finding { IfOk result (λ f. f ≡ settled_finding B.most (handed context.now) name (work compilation.old)) }
{
    let value = value(compilation, context)?;
    placed(compilation, name, value, None)
}

/// Puts the value of the unit's expression into a property, where `judged` is the finding about the expression, and
/// `looked` the value where its names are only looked up. Returns the finding about it.
fn place_with<B: Bounds>(
    compilation: &mut Compilation<B>,
    context: &Context<'_>,
    name: Option<usize>,
    judged: Option<Finding>,
    looked: Value,
) -> Result<Option<Finding>, AllocError>
    ensures value { OnOk result (work compilation.new ≡ value_with B.most (handed context.now) name judged looked (work compilation.old)) }
    ensures finding { IfOk result (λ f. f ≡ value_with_finding B.most (handed context.now) name judged looked (work compilation.old)) }
{
    match least_of_both(judged, place_finding(compilation, name, looked)) {
        Some(_) => placed(compilation, name, looked, judged),
        None => place_settled(compilation, context, name),
    }
}

/// Puts the value of the unit's expression, which has several leaves, into a property, and returns the finding about it.
#[tactic(auto, using(crate::proofs::Placing::expression_stays, crate::proofs::Placing::expression_found))]
fn place_several<B: Bounds>(
    compilation: &mut Compilation<B>,
    context: &Context<'_>,
    name: Option<usize>,
) -> Result<Option<Finding>, AllocError>
    ensures value { OnOk result (work compilation.new ≡ expression_placed B.most (handed context.now) name (work compilation.old)) }
    ensures finding { IfOk result (λ f. f ≡ expression_finding B.most (handed context.now) name (work compilation.old)) }
{
    let looked = compilation.look_constant()?;
    let value = value_in(&looked.forest);
    let judged = looked.finding;
    compilation.keep_forest(looked.forest);
    if looked.stays && judged.is_none() {
        return placed(compilation, name, value, None);
    }
    place_with(compilation, context, name, judged, value)
}

/// Puts the value of the unit's expression into a property, and returns the finding about it.
fn place_expression<B: Bounds>(
    compilation: &mut Compilation<B>,
    context: &Context<'_>,
    name: Option<usize>,
) -> Result<Option<Finding>, AllocError>
    ensures value { OnOk result (work compilation.new ≡ expression_placed B.most (handed context.now) name (work compilation.old)) }
    ensures finding { IfOk result (λ f. f ≡ expression_finding B.most (handed context.now) name (work compilation.old)) }
{
    if compilation.unit.gathering.symbols().len() != 1 {
        return place_several(compilation, context, name);
    }
    let operands = compilation.operands()?;
    let judged = compilation.finding(0, Wanted::Constant, operands.as_slice())?;
    let looked = looked_value(compilation, operands.as_slice())?;
    place_with(compilation, context, name, judged, looked)
}

/// Puts a value into the property whose name comes before it, or into the one that was given last, and returns the finding about it.
fn place_value<B: Bounds>(
    compilation: &mut Compilation<B>,
    context: &Context<'_>,
    name: Option<usize>,
) -> Result<Option<Finding>, AllocError>
    ensures value { OnOk result (work compilation.new ≡ value_placed B.most (handed context.now) name (work compilation.old)) }
    ensures finding { IfOk result (λ f. f ≡ value_finding B.most (handed context.now) name (work compilation.old)) }
{
    match word_text(compilation, context, takes_words(compilation, name))? {
        Some(text) => place_text(compilation, name, &text),
        None => place_expression(compilation, context, name),
    }
}

/// Ends a value of a property, before a token at `place`: its first, with the property's name before it, or a further one.
pub fn value_of_body<B: Bounds>(
    compilation: &mut Compilation<B>,
    context: &Context<'_>,
    place: Place,
) -> Result<(), AllocError>
    ensures { OnOk result (work compilation.new ≡ value_read B.most (handed context.now) place (work compilation.old)) }
{
    let first = compilation.unit.first_place(place);
    let name = name_place(compilation.unit.outer);
    let found = place_value(compilation, context, name)?;
    tell_entry(compilation, context, first, found)
}

// Functions for routines

/// Returns the address of the next routine, as a value.
fn next_routine<B: Bounds>(compilation: &Compilation<B>) -> Value
    ensures { result ≡ next_routine (work compilation.now) }
{
    Value::Later(Target::Place(AreaName::Code, compilation.output.code.next_place()))
}

/// Puts the next routine into a property, as a value, unless something is wrong with it.
fn place_routine<B: Bounds>(
    compilation: &mut Compilation<B>,
    name: Option<usize>,
    is_lost: bool,
) -> Result<(), AllocError>
    ensures { OnOk result (work compilation.new ≡ routine_placed B.most name is_lost (work compilation.old)) }
{
    let routine = next_routine(compilation);
    placed(compilation, name, routine, wrong_if(is_lost))?;
    Ok(())
}

/// Opens the code of a routine that is a value.
fn open_embedded<B: Bounds>(
    compilation: &mut Compilation<B>,
    context: &Context<'_>,
    first: Place,
    headed: Headed,
    found: &Findings,
) -> Result<(), AllocError>
    ensures { OnOk result (work compilation.new
        ≡ embedded_opened B.most (handed context.now) first (as_headed headed) (found_as found.now) (work compilation.old)) }
{
    compilation.is_embedded = true;
    compilation.is_replaced = false;
    compilation.open_code(context, first, headed, found)
}

/// Puts the next routine into a property, as a value, unless something is wrong with it, and opens its code.
fn begin_embedded<B: Bounds>(
    compilation: &mut Compilation<B>,
    context: &Context<'_>,
    first: Place,
    name: Option<usize>,
    headed: Headed,
    found: &Findings,
) -> Result<(), AllocError>
    ensures { OnOk result (work compilation.new
        ≡ embedded_begun B.most (handed context.now) first name (as_headed headed) (found_as found.now) (work compilation.old)) }
{
    place_routine(compilation, name, found.least.is_some())?;
    open_embedded(compilation, context, first, headed, found)
}

/// Returns the findings about a routine as a value of the property whose `name` comes before it, if one does, with the locals of `headed`.
fn found_embedded<B: Bounds>(
    compilation: &Compilation<B>,
    name: Option<usize>,
    headed: &Headed,
) -> Findings
    ensures { found_as result ≡ found_embedded B.most name (as_headed headed.now) (work compilation.now) }
{
    let own = place_finding(compilation, name, next_routine(compilation));
    let behind = order(compilation.unit.tokens.len());
    let header = header_findings(behind, None, headed);
    embedded_findings(own, headed.are_too_many, header)
}

/// Begins a routine that is a value, with these locals: it goes into a property, and its code opens.
#[tactic(auto, unfolding(crate::specs::Values::embedded))]
fn embed<B: Bounds>(
    compilation: &mut Compilation<B>,
    context: &Context<'_>,
    first: Place,
    name: Option<usize>,
    headed: Headed,
) -> Result<(), AllocError>
    ensures { OnOk result (work compilation.new ≡ embedded B.most (handed context.now) first name (as_headed headed)
        (work compilation.old)) }
{
    let found = found_embedded(compilation, name, &headed);
    begin_embedded(compilation, context, first, name, headed, &found)
}

/// Ends the header of a routine that is a value, before a token at `place`: the first value, with the property's name before its bracket,
/// or a further one.
pub fn routine_of_body<B: Bounds>(
    compilation: &mut Compilation<B>,
    context: &Context<'_>,
    place: Place,
) -> Result<(), AllocError>
    ensures { OnOk result (work compilation.new ≡ embedded_read B.most (handed context.now) place (work compilation.old)) }
{
    let first = compilation.unit.first_place(place);
    let name = place_before(bracket_in(&compilation.unit.tokens));
    let headed = compilation.take_headed();
    embed(compilation, context, first, name, headed)
}
