//! The lines of grammar of the verb at hand, each of which is a unit.
ghost use Rattle.inf_compilation.specs.{Context.handed, Works.work};
ghost use Rattle.std.specs.Prelude.{IfOk, IfSome, OnOk, length, option_map, true, ◌<◌, ◌≡◌, ◌≤◌};
ghost use Rattle.inf_unit.specs.{AtHand.unit as unit_of, NameTokens.named as named_token};
ghost use Rattle.inf_verbs.specs.Lines.{LineOf};
ghost use Rattle.inf_verb_lines.specs.Verbs.{action_by, arrow_in, arrow_or, attribute_in, can_be_routine, has_verb, is_filter_word};
ghost use Rattle.inf_verb_lines.specs.Verbs.{is_lone_name, is_mark_at, is_noun, is_reverse, is_right, is_sign_word, last_brought};
ghost use Rattle.inf_verb_lines.specs.Verbs.{last_finding, line_added, line_behind, line_ended, line_found, line_judged, line_kept};
ghost use Rattle.inf_verb_lines.specs.Verbs.{line_laid, line_token, line_tokens, lone_by, lone_token, name_token, named_at, named_behind};
ghost use Rattle.inf_verb_lines.specs.Verbs.{new_finding, noun_named, one_line, parsing_routine, preposition, token_brought, token_finding};
ghost use Rattle.inf_verb_lines.specs.Verbs.{token_sifted, tokens_finding, with_next, with_token, wrong_unless};

use crate::verbs::{end_of_verb, has_verb, is_mark_at};
use inf_compilation::compilation::{Compilation, Extending};
use inf_compilation::context::Context;
use inf_expressions::{Finding, least_of_both};
use inf_lexer::Place;
use inf_names::meanings::Meaning;
use inf_names::spellings::Name;
use inf_names::symbols::{Found, Symbols};
use inf_output::Output;
use inf_scanner::{DictionaryWord, Mark, TokenKind};
use inf_settings::bounds::Bounds;
use inf_settings::setting::Setting;
use inf_settings::settings::Settings;
use inf_tables::{LineFault, LineToken, Noun, WordUse};
use inf_unit::long_lines::LongLine;
use inf_unit::unit::{Unit, next_place, order};
use inf_unit::unit_tokens::{NameToken, UnitTokens};
use inf_verbs::LinePlace;
use std::alloc::{AllocError, Global};

/// The part of a name in a line.
#[derive(Clone, Copy)]
pub enum Named {
    /// The word before the sign of a filter.
    Sign,
    /// The routine of a filter or a scope.
    Filter,
    Scope,
    /// A token by itself.
    Alone,
}

/// Returns the noun that a name is in a line, or `None`.
fn noun_named(name: &[u8]) -> Option<Noun>
    ensures { result ≡ noun_named name.now }
{
    if name.eq_ignore_ascii_case(b"noun") {
        Some(Noun::Noun)
    } else if name.eq_ignore_ascii_case(b"held") {
        Some(Noun::Held)
    } else if name.eq_ignore_ascii_case(b"multi") {
        Some(Noun::Multi)
    } else if name.eq_ignore_ascii_case(b"multiheld") {
        Some(Noun::MultiHeld)
    } else if name.eq_ignore_ascii_case(b"multiexcept") {
        Some(Noun::MultiExcept)
    } else if name.eq_ignore_ascii_case(b"multiinside") {
        Some(Noun::MultiInside)
    } else if name.eq_ignore_ascii_case(b"creature") {
        Some(Noun::Creature)
    } else if name.eq_ignore_ascii_case(b"special") {
        Some(Noun::Special)
    } else if name.eq_ignore_ascii_case(b"number") {
        Some(Noun::Number)
    } else if name.eq_ignore_ascii_case(b"topic") {
        Some(Noun::Topic)
    } else {
        None
    }
}

/// Returns whether a name may be that of a routine, by the answer of the look-up of it.
fn can_be_routine(found: Found<Place>) -> bool
    ensures { result ≡ can_be_routine found }
{
    match found {
        Found::Declared(Meaning::Routine(_), _) | Found::Used | Found::Unknown => true,
        Found::Declared(..) | Found::System(_) => false,
    }
}

/// Returns the attribute of a name, by the answer of the look-up of it, or `None`.
fn attribute_in(found: Found<Place>) -> Option<u8>
    ensures { result ≡ attribute_in found }
{
    match found {
        Found::Declared(Meaning::Attribute(number), _) => Some(number),
        _ => None,
    }
}

/// Returns whether a name is a word that comes before the sign of a filter.
fn is_filter_word(name: &[u8]) -> bool
    ensures { result ≡ is_filter_word name.now }
{
    name.eq_ignore_ascii_case(b"noun")
}

/// Returns whether a name is a word that comes before a sign.
fn is_sign_word(name: &[u8]) -> bool
    ensures { result ≡ is_sign_word name.now }
{
    is_filter_word(name) | name.eq_ignore_ascii_case(b"scope")
}

/// Returns the part of the name behind a sign, by the word before that sign.
fn named_behind(word: &[u8]) -> Named
    ensures { result ≡ named_behind word.now }
{
    if is_filter_word(word) {
        Named::Filter
    } else {
        Named::Scope
    }
}

/// Returns the part of the name at the place `at` of a line.
pub fn named_at(tokens: &UnitTokens, at: usize) -> Named
    ensures { result ≡ named_at tokens.now at }
{
    if is_mark_at(tokens, next_place(at), Mark::Assign) {
        Named::Sign
    } else if is_mark_at(tokens, at.saturating_sub(1), Mark::Assign) {
        named_behind(tokens.bytes_at(at.saturating_sub(2)))
    } else {
        Named::Alone
    }
}

/// Returns whether a name by itself can be a token of a line: as a noun, or by the answer of the look-up of it.
fn is_lone_name(noun: Option<Noun>, found: Found<Place>) -> bool
    ensures { result ≡ is_lone_name noun found }
{
    noun.is_some() | (attribute_in(found).is_some() | can_be_routine(found))
}

/// Returns whether a name is right in the part that it has in a line.
fn is_right<B: Bounds>(named: Named, name: &[u8], names: &Symbols<Place, B>) -> bool
    requires { length name.now ≤ 32 }
    ensures { result ≡ is_right named name.now names.now }
{
    match named {
        Named::Sign => is_sign_word(name),
        Named::Filter | Named::Scope => can_be_routine(names.look(name)),
        Named::Alone => is_lone_name(noun_named(name), names.look(name)),
    }
}

/// Returns the finding that the token at `at` is of another kind than it should be, unless it is right.
fn wrong_unless(is_right: bool, at: usize) -> Option<Finding>
    ensures { result ≡ wrong_unless is_right at }
{
    if is_right {
        None
    } else {
        Some(Finding::wrong_kind(order(at)))
    }
}

/// Returns the finding about the token at a place of a line.
fn token_finding<B: Bounds>(
    tokens: &UnitTokens,
    at: usize,
    names: &Symbols<Place, B>,
) -> Option<Finding>
    ensures { result ≡ token_finding tokens.now at names.now }
{
    match tokens.name_at(at) {
        Some(name) => wrong_unless(is_right(named_at(tokens, at), name.bytes, names), at),
        None => None,
    }
}

fn tokens_finding<B: Bounds>(
    end: usize,
    tokens: &UnitTokens,
    names: &Symbols<Place, B>,
) -> Option<Finding>
    ensures { result ≡ tokens_finding end tokens.now names.now }
{
    let mut found = None;
    for at in 0..end {
        found = least_of_both(found, token_finding(tokens, at, names));
    }
    found
}

/// Returns the word at a place of a line, as a preposition, which may be one of some alternatives.
fn preposition(tokens: &UnitTokens, at: usize, word: DictionaryWord) -> LineToken
    ensures { result ≡ preposition tokens.now at word }
{
    let text = word.text;
    LineToken::Preposition {
        text,
        is_first: !is_mark_at(tokens, at.saturating_sub(1), Mark::Divide),
        is_last: !is_mark_at(tokens, next_place(at), Mark::Divide),
    }
}

/// Uses the name of a routine that parses, and returns its number among those routines.
fn parsing_routine<B: Bounds>(
    name: Option<NameToken<'_>>,
    out: &mut Output<B>,
) -> Result<u16, AllocError>
    requires { IfSome name (λ n. length n.bytes.now ≤ 32) }
    ensures { IfOk result (λ number. (out.new, number) ≡ parsing_routine B.most (option_map named_token name.entry) out.old) }
{
    let Some(name) = name else {
        return Ok(0);
    };
    match out.refer_routine(name.bytes, name.place)? {
        Some(routine) => out.tables.parsing.add(routine),
        None => Ok(0),
    }
}

/// Returns the token of a name by itself: a noun, an attribute, or else a routine, which is used.
fn lone_by<B: Bounds>(
    noun: Option<Noun>,
    attribute: Option<u8>,
    name: Option<NameToken<'_>>,
    out: &mut Output<B>,
) -> Result<Option<LineToken>, AllocError>
    requires { IfSome name (λ n. length n.bytes.now ≤ 32) }
    ensures { IfOk result (λ token. (out.new, token) ≡ lone_by B.most noun attribute (option_map named_token name.entry) out.old) }
{
    match (noun, attribute) {
        (Some(noun), _) => Ok(Some(LineToken::Noun(noun))),
        (None, Some(number)) => Ok(Some(LineToken::Attribute(number))),
        (None, None) => Ok(Some(LineToken::Routine(parsing_routine(name, out)?))),
    }
}

/// Returns the token of the name at a place of a line, where it comes by itself.
fn lone_token<B: Bounds>(
    tokens: &UnitTokens,
    at: usize,
    out: &mut Output<B>,
) -> Result<Option<LineToken>, AllocError>
    ensures { IfOk result (λ token. (out.new, token) ≡ lone_token B.most tokens.now at out.old) }
{
    let name = tokens.bytes_at(at);
    let attribute = attribute_in(out.names.look(name));
    lone_by(noun_named(name), attribute, tokens.name_at(at), out)
}

/// Returns the token of the name at a place of a line, by its part there; a word before a sign has none.
fn name_token<B: Bounds>(
    named: Named,
    tokens: &UnitTokens,
    at: usize,
    out: &mut Output<B>,
) -> Result<Option<LineToken>, AllocError>
    ensures { IfOk result (λ token. (out.new, token) ≡ name_token B.most named tokens.now at out.old) }
{
    match named {
        Named::Sign => Ok(None),
        Named::Filter => {
            let number = parsing_routine(tokens.name_at(at), out)?;
            Ok(Some(LineToken::Filter(number)))
        }
        Named::Scope => {
            let number = parsing_routine(tokens.name_at(at), out)?;
            Ok(Some(LineToken::Scope(number)))
        }
        Named::Alone => lone_token(tokens, at, out),
    }
}

/// Uses the token at a place of a line, and returns it as one of the grammar; signs are none.
fn line_token<B: Bounds>(
    tokens: &UnitTokens,
    at: usize,
    out: &mut Output<B>,
) -> Result<Option<LineToken>, AllocError>
    ensures { IfOk result (λ token. (out.new, token) ≡ line_token B.most tokens.now at out.old) }
{
    match tokens.kind(at) {
        Some(TokenKind::Word(word)) => {
            out.word(word.text, WordUse::Preposition, word.is_plural)?;
            Ok(Some(preposition(tokens, at, word)))
        }
        Some(TokenKind::Name) => name_token(named_at(tokens, at), tokens, at, out),
        _ => Ok(None),
    }
}

/// Appends a token to a line, if there is one.
fn add_token(token: Option<LineToken>, line: &mut Vec<LineToken>) -> Result<(), AllocError>
    ensures { OnOk result (line.new.items ≡ with_token token line.old.items) }
{
    if let Some(token) = token {
        line.push(token)?;
    }
    Ok(())
}

/// Uses the token at a place of a line, and appends it to `line`.
fn add_next<B: Bounds>(
    tokens: &UnitTokens,
    at: usize,
    out: &mut Output<B>,
    line: &mut Vec<LineToken>,
) -> Result<(), AllocError>
    ensures { OnOk result ((out.new, line.new.items) ≡ with_next (line_token B.most tokens.now at out.old) line.old.items) }
{
    let token = line_token(tokens, at, out)?;
    add_token(token, line)
}

/// Uses the tokens of a line before the place `end`, and returns them as tokens of the grammar.
fn line_tokens<B: Bounds>(
    alloc: Global,
    end: usize,
    tokens: &UnitTokens,
    out: &mut Output<B>,
) -> Result<Vec<LineToken>, AllocError>
    ensures { IfOk result (λ line. (out.new, line.items) ≡ line_tokens B.most end tokens.now out.old) }
{
    let mut line = Vec::new(alloc);
    for at in 0..end {
        add_next(tokens, at, out, &mut line)?;
    }
    Ok(line)
}

/// Returns `at` where an arrow is there, or `other`.
fn arrow_or(tokens: &UnitTokens, at: usize, other: usize) -> usize
    ensures { result ≡ arrow_or tokens.now at other }
{
    if is_mark_at(tokens, at, Mark::Arrow) {
        at
    } else {
        other
    }
}

/// Returns the place of the arrow before the action of a line: the last one.
fn arrow_in(tokens: &UnitTokens) -> usize
    ensures { result ≡ arrow_in tokens.now }
{
    let mut arrow = 0;
    for at in 0..tokens.len() {
        arrow = arrow_or(tokens, at, arrow);
    }
    arrow
}

/// Returns the number of the action of a name, which appears there.
fn action_by<B: Bounds>(name: Option<NameToken<'_>>, out: &mut Output<B>) -> Result<u16, AllocError>
    requires { IfSome name (λ n. length n.bytes.now ≤ 32) }
    ensures { IfOk result (λ number. (out.new, number) ≡ action_by B.most (option_map named_token name.entry) out.old) }
{
    match name {
        Some(name) => out.action(name.bytes, name.place),
        None => Ok(0),
    }
}

/// Returns whether something follows the action behind an arrow.
fn is_reverse(tokens: &UnitTokens, arrow: usize) -> bool
    ensures { result ≡ is_reverse tokens.now arrow }
{
    tokens.len().saturating_sub(arrow) > 2
}

/// Adds a line to the verb of a number, if there is one. Where there would be too many lines, that limit is passed.
fn one_line<B: Bounds>(
    number: u8,
    place: LinePlace,
    action: u16,
    is_reverse: bool,
    line: &[LineToken],
    out: &mut Output<B>,
) -> Result<(), AllocError>
    ensures { let l : LineOf = record { action = action; is_reverse = is_reverse; tokens = line.now } in
        OnOk result (out.new ≡ one_line B.most number place l out.old) }
{
    if !has_verb(number, out) {
        return Ok(());
    }
    match out
        .tables
        .verbs
        .add_line(number, place, action, is_reverse, line)
    {
        Ok(()) => Ok(()),
        Err(LineFault::Memory) => Err(AllocError),
        Err(LineFault::NoSpace) => {
            out.pass_table(Setting::GrammarLines);
            Ok(())
        }
    }
}

/// Adds a line to the verb whose lines are read, if its header had no error.
fn keep_line<B: Bounds>(
    extending: Extending,
    action: u16,
    is_reverse: bool,
    line: &[LineToken],
    out: &mut Output<B>,
) -> Result<(), AllocError>
    ensures { let l : LineOf = record { action = action; is_reverse = is_reverse; tokens = line.now } in
        OnOk result (out.new ≡ line_kept B.most extending l out.old) }
{
    match extending.verb {
        Some(number) => one_line(number, extending.place, action, is_reverse, line, out),
        None => Ok(()),
    }
}

/// Adds the action behind the arrow, which appears there, to the tokens `line`, and keeps all as a line of the verb whose lines are read.
fn add_behind<B: Bounds>(
    extending: Extending,
    tokens: &UnitTokens,
    arrow: usize,
    line: &[LineToken],
    out: &mut Output<B>,
) -> Result<(), AllocError>
    ensures { OnOk result (out.new ≡ line_behind B.most extending tokens.now arrow (out.old, line.now)) }
{
    let action = action_by(tokens.name_at(next_place(arrow)), out)?;
    keep_line(extending, action, is_reverse(tokens, arrow), line, out)
}

/// Adds a line with which nothing is wrong: its names are used, and where the header of its verb had no error it is one
/// of the verb's lines.
fn add_line<B: Bounds>(
    alloc: Global,
    extending: Extending,
    tokens: &UnitTokens,
    arrow: usize,
    out: &mut Output<B>,
) -> Result<(), AllocError>
    ensures { OnOk result (out.new ≡ line_added B.most extending tokens.now arrow out.old) }
{
    let line = line_tokens(alloc, arrow, tokens, out)?;
    add_behind(extending, tokens, arrow, line.as_slice(), out)
}

/// Lays a line with which nothing is wrong, whose action follows an arrow.
fn lay_line<B: Bounds>(
    compilation: &mut Compilation<B>,
    found: Option<Finding>,
    arrow: usize,
) -> Result<(), AllocError>
    ensures { OnOk result (work compilation.new ≡ line_laid B.most found arrow (work compilation.old)) }
{
    match found {
        Some(_) => Ok(()),
        None => add_line(
            compilation.alloc,
            compilation.extending,
            &compilation.unit.tokens,
            arrow,
            &mut compilation.output,
        ),
    }
}

/// Ends a line that begins at `first`, with the finding `found` about it.
fn end_found<B: Bounds>(
    compilation: &mut Compilation<B>,
    context: &Context<'_>,
    first: Place,
    found: Option<Finding>,
    arrow: usize,
) -> Result<(), AllocError>
    ensures { OnOk result (work compilation.new ≡ line_found B.most (handed context.now) first found arrow (work compilation.old)) }
{
    lay_line(compilation, found, arrow)?;
    end_of_verb(compilation, context, first, found)
}

/// Returns the finding about the tokens of a line before the arrow of its action.
fn line_finding<B: Bounds>(compilation: &Compilation<B>, arrow: usize) -> Option<Finding>
    ensures { let w = work compilation.now in result ≡ tokens_finding arrow w.unit.tokens w.output.names }
{
    tokens_finding(arrow, &compilation.unit.tokens, &compilation.output.names)
}

/// Judges the line that begins at `first` and whose action comes behind `arrow`, and ends it.
fn judge_line<B: Bounds>(
    compilation: &mut Compilation<B>,
    context: &Context<'_>,
    first: Place,
    arrow: usize,
) -> Result<(), AllocError>
    ensures { OnOk result (work compilation.new ≡ line_judged B.most (handed context.now) first arrow (work compilation.old)) }
{
    let found = line_finding(compilation, arrow);
    end_found(compilation, context, first, found, arrow)
}

/// Ends a line, before a token at `place`: it is judged, and kept where nothing is wrong with it.
pub fn end_line<B: Bounds>(
    compilation: &mut Compilation<B>,
    context: &Context<'_>,
    place: Place,
) -> Result<(), AllocError>
    ensures { OnOk result (work compilation.new ≡ line_ended B.most (handed context.now) place (work compilation.old)) }
{
    let first = compilation.unit.first_place(place);
    let arrow = arrow_in(&compilation.unit.tokens);
    judge_line(compilation, context, first, arrow)
}

fn is_noun(named: Named, name: &[u8]) -> bool
    ensures { result ≡ is_noun named name.now }
{
    match named {
        Named::Alone => noun_named(name).is_some(),
        Named::Sign | Named::Filter | Named::Scope => false,
    }
}

/// Notes the token at a place of a long line, which ends a token of the grammar, and returns whether it is new.
fn bring_token(
    line: &mut LongLine,
    settings: &Settings,
    tokens: &UnitTokens,
    at: usize,
) -> Result<bool, AllocError>
    ensures { IfOk result (λ is_new. (line.new, is_new) ≡ token_brought settings.now tokens.now at line.old) }
{
    match tokens.kind(at) {
        Some(TokenKind::Word(word)) => {
            line.add_word(word.text, settings.of(Setting::DictionaryEntries))
        }
        Some(TokenKind::Name) if !is_noun(named_at(tokens, at), tokens.bytes_at(at)) => {
            line.add_name(tokens.bytes_at(at), settings.of(Setting::Symbols))
        }
        _ => Ok(false),
    }
}

/// Notes the last token of `unit`, if that is a line that has too many, and returns whether the token is new.
fn bring_last(unit: &mut Unit, settings: &Settings) -> Result<bool, AllocError>
    ensures { IfOk result (λ is_new. (unit_of unit.new, is_new) ≡ last_brought settings.now (unit_of unit.old)) }
{
    let at = unit.last();
    match &mut unit.long {
        Some(line) => bring_token(line, settings, &unit.tokens, at),
        None => Ok(false),
    }
}

fn last_finding<B: Bounds>(unit: &Unit, names: &Symbols<Place, B>) -> Option<Finding>
    ensures { result ≡ last_finding (unit_of unit.now) names.now }
{
    let at = unit.last();
    least_of_both(
        token_finding(&unit.tokens, at.saturating_sub(2), names),
        token_finding(&unit.tokens, at, names),
    )
}

/// Returns the finding about the last token of a line, and where it was not too long before, about all tokens so far.
fn new_finding<B: Bounds>(unit: &Unit, names: &Symbols<Place, B>) -> Option<Finding>
    ensures { result ≡ new_finding (unit_of unit.now) names.now }
{
    match unit.long {
        Some(_) => last_finding(unit, names),
        None => tokens_finding(unit.tokens.len(), &unit.tokens, names),
    }
}

/// Ends a token of a line that has more tokens than the grammar may have bytes. It is kept where it is wrong, or new.
#[cold]
#[inline(never)]
pub fn sift_token<B: Bounds>(
    compilation: &mut Compilation<B>,
    context: &Context<'_>,
) -> Result<(), AllocError>
    ensures { OnOk result (work compilation.new ≡ token_sifted (handed context.now) (work compilation.old)) }
{
    let is_bad = new_finding(&compilation.unit, &compilation.output.names).is_some();
    let is_new = bring_last(&mut compilation.unit, context.settings)?;
    let hashing = compilation.output.names.hashing();
    compilation
        .unit
        .sift(compilation.alloc, hashing, is_bad, is_new);
    Ok(())
}
