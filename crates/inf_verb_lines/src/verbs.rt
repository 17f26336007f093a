//! The directives `Verb`, `Extend` and `Fake_action`: their headers.
ghost use Rattle.inf_compilation.specs.{Context.handed, Meant.again_as, Meant.found_as, Works.work};
ghost use Rattle.std.specs.Prelude.{IfOk, OnOk, length, map, option_map, true, ◌<◌, ◌≡◌};
ghost use Rattle.inf_names.specs.Spellings.{as_name};
ghost use Rattle.inf_verb_lines.specs.Verbs.{extend_header, extend_with, fake_action, fake_findings, fake_with, has_most_verbs, has_verb};
ghost use Rattle.inf_verb_lines.specs.Verbs.{head_finding, header_opened, is_mark_at, is_name_in, like_at, like_finding, like_used};
ghost use Rattle.inf_verb_lines.specs.Verbs.{lines_extended, lines_of, misfit_finding, new_verb, no_verb_finding, place_behind};
ghost use Rattle.inf_verb_lines.specs.Verbs.{place_named, texts_before, verb_begun, verb_ended, verb_extended, verb_findings, verb_head};
ghost use Rattle.inf_verb_lines.specs.Verbs.{verb_header, verb_header_with, verb_named, verb_opened, verb_passed, verb_use, with_text};
ghost use Rattle.inf_verb_lines.specs.Verbs.{word_at, word_in, word_used, words_end, words_finding, words_from, words_given, words_used};
ghost use Rattle.inf_verb_lines.specs.Verbs.{wrong_verb};
ghost use Rattle.inf_output.specs.Actions.{faked};

use inf_compilation::compilation::{Compilation, Extending};
use inf_compilation::context::Context;
use inf_compilation::findings::{Again, Findings, again_by, again_finding, many_finding};
use inf_expressions::{Finding, UnitError, least_of_both};
use inf_lexer::Place;
use inf_names::spellings::Name;
use inf_output::Output;
use inf_report::messages::FixedLimit;
use inf_scanner::{DictionaryWord, Mark, TokenKind};
use inf_settings::bounds::Bounds;
use inf_settings::setting::Setting;
use inf_tables::{VerbFault, WordUse};
use inf_unit::kinds::is_mark;
use inf_unit::unit::order;
use inf_unit::unit_tokens::UnitTokens;
use inf_verbs::LinePlace;
use std::alloc::{AllocError, Global};

/// The greatest number of verbs (Inform Technical Manual, section 8.5).
const MOST_VERBS: usize = 255;

/// The parts of the header of `Verb`.
#[derive(Clone, Copy)]
pub struct VerbHead {
    pub is_meta: bool,
    /// The place of the first word of the verb among the tokens, and the place behind its last one.
    pub first: usize,
    pub end: usize,
    /// The place of the word behind `=`, whose verb gets more words.
    pub like: Option<usize>,
}

/// The verb that a header gives its words, and the one whose lines follow.
#[derive(Clone, Copy)]
pub struct Opened {
    pub words: Option<u8>,
    pub lines: Option<u8>,
}

/// Returns whether the token at a place is this mark.
pub(crate) fn is_mark_at(tokens: &UnitTokens, at: usize, mark: Mark) -> bool
    ensures { result ≡ is_mark_at tokens.now at mark }
{
    match tokens.kind(at) {
        Some(kind) => is_mark(kind, mark),
        None => false,
    }
}

/// Returns whether a token is a name, if there is one.
fn is_name_in(kind: Option<TokenKind>) -> bool
    ensures { result ≡ is_name_in kind }
{
    matches!(kind, Some(TokenKind::Name))
}

fn word_in(kind: Option<TokenKind>) -> Option<DictionaryWord>
    ensures { result ≡ word_in kind }
{
    match kind {
        Some(TokenKind::Word(word)) => Some(word),
        _ => None,
    }
}

/// Returns the word of the dictionary of the token at a place.
pub(crate) fn word_at(tokens: &UnitTokens, at: usize) -> Option<DictionaryWord>
    ensures { result ≡ word_at tokens.now at }
{
    word_in(tokens.kind(at))
}

fn verb_findings(found: Option<Finding>) -> Findings
    ensures { found_as result ≡ verb_findings found }
{
    Findings {
        least: found,
        many: FixedLimit::Verbs,
        again: None,
    }
}

/// Returns the findings about a fake action: those about its name.
fn fake_findings(again: Option<Again>) -> Findings
    ensures { found_as result ≡ fake_findings (option_map again_as again) }
{
    Findings {
        least: again_finding(1, &again),
        many: FixedLimit::Values,
        again,
    }
}

fn wrong_verb(at: usize) -> Finding
    ensures { result ≡ wrong_verb at }
{
    Finding {
        order: order(at),
        error: UnitError::WrongVerb,
    }
}

/// Returns the place of the first word of a verb, behind `meta` or not.
fn words_from(order: u32, is_meta: bool) -> usize
    ensures { result ≡ words_from order is_meta }
{
    if is_meta {
        order as usize + 1
    } else {
        order as usize
    }
}

/// Returns the place behind the words of a verb, before a sign or not.
fn words_end(has_sign: bool, count: usize) -> usize
    ensures { result ≡ words_end has_sign count }
{
    if has_sign {
        count.saturating_sub(2)
    } else {
        count
    }
}

/// Returns the place of the word behind a sign, if there is one.
fn like_at(has_sign: bool, count: usize) -> Option<usize>
    ensures { result ≡ like_at has_sign count }
{
    if has_sign {
        Some(count.saturating_sub(1))
    } else {
        None
    }
}

/// Returns the parts of the header of `Verb` that has these tokens.
fn verb_head(tokens: &UnitTokens) -> VerbHead
    ensures { result ≡ verb_head tokens.now }
{
    let order = tokens.name_order();
    let is_meta = is_name_in(tokens.kind(order as usize));
    let count = tokens.len();
    let has_sign = is_mark_at(tokens, count.saturating_sub(2), Mark::Assign);
    VerbHead {
        is_meta,
        first: words_from(order, is_meta),
        end: words_end(has_sign, count),
        like: like_at(has_sign, count),
    }
}

/// Returns the number of the verb that has the word at a place, if there is one.
fn verb_named<B: Bounds>(tokens: &UnitTokens, at: usize, out: &Output<B>) -> Option<u8>
    ensures { result ≡ verb_named tokens.now at out.now }
{
    match word_at(tokens, at) {
        Some(word) => out.tables.dictionary.verb_of(&word.text),
        None => None,
    }
}

/// Returns the finding that the word at `at` is no verb's, unless it has a verb.
fn no_verb_finding(at: usize, verb: Option<u8>) -> Option<Finding>
    ensures { result ≡ no_verb_finding at verb }
{
    match verb {
        Some(_) => None,
        None => Some(wrong_verb(at)),
    }
}

/// Returns whether there are as many verbs as there may be.
fn has_most_verbs<B: Bounds>(out: &Output<B>) -> bool
    ensures { result ≡ has_most_verbs out.now }
{
    out.tables.verbs.len() >= MOST_VERBS
}

/// Returns whether a verb has this number.
pub(crate) fn has_verb<B: Bounds>(number: u8, out: &Output<B>) -> bool
    ensures value { result ≡ has_verb number out.now }
    ensures there { result ≡ true → number < length out.now.tables.verbs.list }
{
    (number as usize) < out.tables.verbs.len()
}

/// Returns the finding about the verb that gets words: the word behind a sign is no verb's, or there are too many verbs for another one.
fn like_finding<B: Bounds>(
    like: Option<usize>,
    tokens: &UnitTokens,
    out: &Output<B>,
) -> Option<Finding>
    ensures { result ≡ like_finding like tokens.now out.now }
{
    match like {
        Some(at) => no_verb_finding(at, verb_named(tokens, at, out)),
        None => many_finding(has_most_verbs(out)),
    }
}

/// Appends the text of a word to `texts`, if there is a word.
pub fn add_text(word: Option<DictionaryWord>, texts: &mut Vec<[u8; 6]>) -> Result<(), AllocError>
    ensures { OnOk result (texts.new.items ≡ with_text word texts.old.items) }
{
    if let Some(word) = word {
        texts.push(word.text)?;
    }
    Ok(())
}

/// Returns the texts of the words before the place `end`.
fn texts_before(alloc: Global, tokens: &UnitTokens, end: usize) -> Result<Vec<[u8; 6]>, AllocError>
    ensures { IfOk result (λ texts. texts.items ≡ texts_before end tokens.now) }
{
    let mut texts = Vec::new(alloc);
    for at in 0..end {
        add_text(word_at(tokens, at), &mut texts)?;
    }
    Ok(texts)
}

/// Returns the place that is `place` behind `first`, or the greatest number of the program where that is less.
#[tactic(auto, unfolding(crate::specs::Verbs::place_behind))]
fn place_behind(first: usize, place: usize) -> usize
    ensures { result ≡ place_behind first place }
{
    first.saturating_add(place)
}

/// Returns the finding that a word is one of a verb's, by its `place` among words of which the first is at `first`.
fn misfit_finding(first: usize, place: Option<usize>) -> Option<Finding>
    ensures { result ≡ misfit_finding first place }
{
    match place {
        Some(place) => Some(wrong_verb(place_behind(first, place))),
        None => None,
    }
}

/// Returns the finding about the words of a header.
fn words_finding<B: Bounds>(
    alloc: Global,
    head: VerbHead,
    tokens: &UnitTokens,
    out: &Output<B>,
) -> Result<Option<Finding>, AllocError>
    ensures { IfOk result (λ f. f ≡ words_finding head tokens.now out.now) }
{
    let texts = texts_before(alloc, tokens, head.end)?;
    let misfit = out.tables.dictionary.first_misfit(alloc, texts.as_slice())?;
    Ok(misfit_finding(head.first, misfit))
}

/// Returns the finding about the header of `Verb`.
fn head_finding<B: Bounds>(
    alloc: Global,
    head: VerbHead,
    tokens: &UnitTokens,
    out: &Output<B>,
) -> Result<Option<Finding>, AllocError>
    ensures { IfOk result (λ f. f ≡ head_finding head tokens.now out.now) }
{
    let of_words = words_finding(alloc, head, tokens, out)?;
    Ok(least_of_both(like_finding(head.like, tokens, out), of_words))
}

/// Passes `limit`, where there would be more verbs or lines than it allows. Nobody asks any more which verb words are of.
fn pass_verb<B: Bounds>(limit: Setting, out: &mut Output<B>) -> Opened
    ensures { (out.new, result) ≡ verb_passed B.most limit out.old }
{
    out.pass_table(limit);
    Opened {
        words: Some(0),
        lines: None,
    }
}

/// Makes a new verb, whose lines follow. Where there would be too many, that limit is passed.
fn new_verb<B: Bounds>(out: &mut Output<B>) -> Result<Opened, AllocError>
    ensures { IfOk result (λ opened. (out.new, opened) ≡ new_verb B.most out.old) }
{
    match out.tables.verbs.add() {
        Ok(number) => Ok(Opened {
            words: Some(number),
            lines: Some(number),
        }),
        Err(VerbFault::Memory) => Err(AllocError),
        Err(VerbFault::TooMany) => Ok(Opened {
            words: None,
            lines: None,
        }),
        Err(VerbFault::Full) => Ok(pass_verb(Setting::Verbs, out)),
        Err(VerbFault::NoSpace) => Ok(pass_verb(Setting::GrammarLines, out)),
    }
}

/// Returns the verb that gets the words of a header: one whose word comes behind a sign, or a new one.
fn begin_verb<B: Bounds>(
    like: Option<usize>,
    tokens: &UnitTokens,
    out: &mut Output<B>,
) -> Result<Opened, AllocError>
    ensures { IfOk result (λ opened. (out.new, opened) ≡ verb_begun B.most like tokens.now out.old) }
{
    match like {
        Some(at) => Ok(Opened {
            words: verb_named(tokens, at, out),
            lines: None,
        }),
        None => new_verb(out),
    }
}

fn verb_use(number: u8, is_meta: bool) -> WordUse
    ensures { result ≡ verb_use number is_meta }
{
    if is_meta {
        WordUse::MetaVerb(number)
    } else {
        WordUse::Verb(number)
    }
}

/// Uses a word as `word_use`, if there is one.
pub fn use_word<B: Bounds>(
    word: Option<DictionaryWord>,
    word_use: WordUse,
    out: &mut Output<B>,
) -> Result<(), AllocError>
    ensures { OnOk result (out.new ≡ word_used B.most word word_use out.old) }
{
    match word {
        Some(word) => out.word(word.text, word_use, word.is_plural),
        None => Ok(()),
    }
}

/// Uses the words before the place `end` as `word_use`.
fn use_words<B: Bounds>(
    end: usize,
    tokens: &UnitTokens,
    word_use: WordUse,
    out: &mut Output<B>,
) -> Result<(), AllocError>
    ensures { OnOk result (out.new ≡ words_used B.most end tokens.now word_use out.old) }
{
    for at in 0..end {
        use_word(word_at(tokens, at), word_use, out)?;
    }
    Ok(())
}

/// Uses the word at a place as one of verb `number`, if there is a place.
fn use_like<B: Bounds>(
    like: Option<usize>,
    tokens: &UnitTokens,
    number: u8,
    out: &mut Output<B>,
) -> Result<(), AllocError>
    ensures { OnOk result (out.new ≡ like_used B.most like tokens.now number out.old) }
{
    match like {
        Some(at) => use_word(word_at(tokens, at), WordUse::Verb(number), out),
        None => Ok(()),
    }
}

/// Gives a verb the words of a header, if there is a verb.
fn give_words<B: Bounds>(
    verb: Option<u8>,
    head: VerbHead,
    tokens: &UnitTokens,
    out: &mut Output<B>,
) -> Result<(), AllocError>
    ensures { OnOk result (out.new ≡ words_given B.most verb head tokens.now out.old) }
{
    let Some(number) = verb else {
        return Ok(());
    };
    use_words(head.end, tokens, verb_use(number, head.is_meta), out)?;
    use_like(head.like, tokens, number, out)
}

/// Gives a verb the words of a header with which nothing is wrong, and returns the verb whose lines follow.
fn open_verb<B: Bounds>(
    head: VerbHead,
    tokens: &UnitTokens,
    out: &mut Output<B>,
) -> Result<Option<u8>, AllocError>
    ensures { IfOk result (λ lines. (out.new, lines) ≡ verb_opened B.most head tokens.now out.old) }
{
    let opened = begin_verb(head.like, tokens, out)?;
    give_words(opened.words, head, tokens, out)?;
    Ok(opened.lines)
}

fn place_named(name: &[u8]) -> LinePlace
    ensures { result ≡ place_named name.now }
{
    if name.eq_ignore_ascii_case(b"first") {
        LinePlace::First
    } else if name.eq_ignore_ascii_case(b"replace") {
        LinePlace::Replace
    } else {
        LinePlace::Last
    }
}

/// Sends further lines of verb `number` to `place`, if there is that verb.
fn extend_lines<B: Bounds>(
    number: u8,
    place: LinePlace,
    out: &mut Output<B>,
) -> Result<(), AllocError>
    ensures { OnOk result (out.new ≡ lines_extended number place out.old) }
{
    if has_verb(number, out) {
        out.tables.verbs.extend(number, place)
    } else {
        Ok(())
    }
}

/// Sends further lines of a verb to `place`, and uses the word by which it is named.
fn extend_verb<B: Bounds>(
    verb: Option<u8>,
    place: LinePlace,
    word: Option<DictionaryWord>,
    out: &mut Output<B>,
) -> Result<(), AllocError>
    ensures { OnOk result (out.new ≡ verb_extended B.most verb place word out.old) }
{
    let Some(number) = verb else {
        return Ok(());
    };
    use_word(word, WordUse::Verb(number), out)?;
    extend_lines(number, place, out)
}

/// Returns the state in which the lines of a verb are read, and go to `place`.
fn lines_of(verb: Option<u8>, place: LinePlace) -> Extending
    ensures { result ≡ lines_of verb place }
{
    Extending { verb, place }
}

/// Ends a unit of a verb that begins at `first`, with the finding `found` about it.
pub(crate) fn end_of_verb<B: Bounds>(
    compilation: &mut Compilation<B>,
    context: &Context<'_>,
    first: Place,
    found: Option<Finding>,
) -> Result<(), AllocError>
    ensures { OnOk result (work compilation.new ≡ verb_ended B.most (handed context.now) first found (work compilation.old)) }
{
    compilation.end_unit(context, first, false, &verb_findings(found))
}

/// Opens the verb of a header, unless something is wrong with it.
fn open_header<B: Bounds>(
    compilation: &mut Compilation<B>,
    found: Option<Finding>,
    head: VerbHead,
) -> Result<(), AllocError>
    ensures { OnOk result (work compilation.new ≡ header_opened B.most found head (work compilation.old)) }
{
    match found {
        Some(_) => compilation.extending = lines_of(None, LinePlace::Last),
        None => {
            let lines = open_verb(head, &compilation.unit.tokens, &mut compilation.output)?;
            compilation.extending = lines_of(lines, LinePlace::Last);
        }
    }
    Ok(())
}

/// Ends the header of `Verb`, which has the parts `head`: it is judged, and its verb opens.
fn verb_header_with<B: Bounds>(
    compilation: &mut Compilation<B>,
    context: &Context<'_>,
    first: Place,
    head: VerbHead,
) -> Result<(), AllocError>
    ensures { OnOk result (work compilation.new ≡ verb_header_with B.most (handed context.now) first head (work compilation.old)) }
{
    let found = head_finding(
        compilation.alloc,
        head,
        &compilation.unit.tokens,
        &compilation.output,
    )?;
    open_header(compilation, found, head)?;
    end_of_verb(compilation, context, first, found)
}

/// Ends the header of `Verb`, which begins at `first`: it is judged, and its verb opens.
pub fn verb_header<B: Bounds>(
    compilation: &mut Compilation<B>,
    context: &Context<'_>,
    first: Place,
) -> Result<(), AllocError>
    ensures { OnOk result (work compilation.new ≡ verb_header B.most (handed context.now) first (work compilation.old)) }
{
    let head = verb_head(&compilation.unit.tokens);
    verb_header_with(compilation, context, first, head)
}

/// Ends the header of `Extend`, which names `verb` by the word at `at`, or names none.
fn extend_with<B: Bounds>(
    compilation: &mut Compilation<B>,
    context: &Context<'_>,
    first: Place,
    at: usize,
    verb: Option<u8>,
    place: LinePlace,
) -> Result<(), AllocError>
    ensures { OnOk result (work compilation.new ≡ extend_with B.most (handed context.now) first at verb place (work compilation.old)) }
{
    compilation.extending = lines_of(verb, place);
    let word = word_at(&compilation.unit.tokens, at);
    extend_verb(verb, place, word, &mut compilation.output)?;
    end_of_verb(compilation, context, first, no_verb_finding(at, verb))
}

/// Ends the header of `Extend`, which begins at `first`: the lines that follow are those of the verb that it names.
pub fn extend_header<B: Bounds>(
    compilation: &mut Compilation<B>,
    context: &Context<'_>,
    first: Place,
) -> Result<(), AllocError>
    ensures { OnOk result (work compilation.new ≡ extend_header B.most (handed context.now) first (work compilation.old)) }
{
    let at = compilation.unit.tokens.name_order() as usize;
    let place = place_named(compilation.unit.tokens.bytes_at(at + 1));
    let verb = verb_named(&compilation.unit.tokens, at, &compilation.output);
    extend_with(compilation, context, first, at, verb, place)
}

/// Declares a name as a fake action.
fn one_fake<B: Bounds>(
    compilation: &mut Compilation<B>,
    context: &Context<'_>,
    first: Place,
    name: &Name,
) -> Result<(), AllocError>
    ensures { let before = work compilation.old in let n = as_name name.now in
        OnOk result (work compilation.new ≡ fake_with B.most (handed context.now) first n (faked B.most n.bytes n.place before.output)
        before) }
{
    let refused = compilation.output.fake_action(name.bytes(), name.place)?;
    let found = fake_findings(again_by(name, refused));
    compilation.end_unit(context, first, true, &found)
}

/// Declares the first of these names as a fake action.
pub fn fake_action<B: Bounds>(
    compilation: &mut Compilation<B>,
    context: &Context<'_>,
    first: Place,
    names: &[Name],
) -> Result<(), AllocError>
    ensures { OnOk result (work compilation.new ≡ fake_action B.most (handed context.now) first (map as_name names.now)
        (work compilation.old)) }
{
    match names.first() {
        Some(name) => one_fake(compilation, context, first, name),
        None => {
            compilation.pass(true);
            Ok(())
        }
    }
}
