//! The directive `Array`: its header, and its entries one by one.
ghost use Rattle.inf_compilation.specs.{Actions.operands_of, Context.Context as Standing, Context.handed, Works.work};
ghost use Rattle.std.specs.Prelude.{IfOk, IfSome, OnOk, false, length, map, ◌==◌, ◌≡◌};
ghost use Rattle.inf_arrays.specs.{Adding.added as adding_of, Arrays.Characters, Arrays.added_fault};
ghost use Rattle.inf_names.specs.Spellings.{as_name};
ghost use Rattle.inf_operands.specs.Texts.{text_at};
ghost use Rattle.inf_declarations.specs.Arrays.{added, added_finding, adding, apart, array_declared, array_header, array_kind, array_named};
ghost use Rattle.inf_declarations.specs.Arrays.{array_opened, array_refused, bare_leaf, bare_text, code_of, codes_of, entry_added};
ghost use Rattle.inf_declarations.specs.Arrays.{entry_ended, IsNumber, entry_finding, entry_judged, entry_with, header_with, is_alone};
ghost use Rattle.inf_declarations.specs.Arrays.{is_first_leaf, items_finding, number_leaf, kind_in, kind_named, listed, lost_added};
ghost use Rattle.inf_declarations.specs.Arrays.{own_finding, refused, story_added, text_added, text_finding, value_added};
ghost use Rattle.inf_named_values.specs.Values.{variables_from};

use inf_area::Value;
use inf_compilation::compilation::{Compilation, Listing};
use inf_compilation::context::Context;
use inf_expressions::{Finding, Operand, Symbol, Wanted, least_of_both};
use inf_gathering::gathering::Leaf;
use inf_lexer::Place;
use inf_named_values::declarations::{Declared, declare, end_declared, plainly_known};
use inf_named_values::values::{has_variables, looked_value, text_at, value, value_in};
use inf_names::meanings::Meaning;
use inf_names::spellings::Name;
use inf_output::Output;
use inf_report::messages::FixedLimit;
use inf_scanner::{Mark, TokenKind};
use inf_settings::bounds::{Bounds, Unbounded};
use inf_settings::setting::Setting;
use inf_tables::{ArrayFault, ArrayKind, Arrays, Entries};
use inf_text::TextItem;
use inf_unit::unit_tokens::UnitTokens;
use std::alloc::{AllocError, Global};

/// Returns the kind of an array by the word behind its name: `string`, or else `table`.
fn kind_named(bytes: &[u8]) -> ArrayKind
    ensures { result ≡ kind_named bytes.now }
{
    if bytes.eq_ignore_ascii_case(b"string") {
        ArrayKind::String
    } else {
        ArrayKind::Table
    }
}

/// Returns the kind of an array by the token behind its name.
fn array_kind(kind: Option<TokenKind>, bytes: &[u8]) -> ArrayKind
    ensures { result ≡ array_kind kind bytes.now }
{
    match kind {
        Some(TokenKind::Mark(Mark::Arrow)) => ArrayKind::Bytes,
        Some(TokenKind::Mark(_)) | None => ArrayKind::Words,
        Some(_) => kind_named(bytes),
    }
}

/// Returns the kind of the array whose header has these tokens.
fn kind_in(tokens: &UnitTokens) -> ArrayKind
    ensures { result ≡ kind_in tokens.now }
{
    let at = tokens.name_order() as usize + 1;
    array_kind(tokens.kind(at), tokens.bytes_at(at))
}

/// Returns the finding about an entry that its array refuses. It is no error of the unit that there are too many bytes.
pub fn refused(fault: Option<ArrayFault>) -> Option<Finding>
    ensures { result ≡ refused fault }
{
    match fault? {
        ArrayFault::TooMany | ArrayFault::NotAByte | ArrayFault::NoEntries => {
            Some(Finding::out_of_range(0))
        }
        ArrayFault::Full | ArrayFault::Memory => None,
    }
}

/// Returns the code of a character.
fn code_of(item: TextItem) -> u8
    ensures { result ≡ code_of item }
{
    match item {
        TextItem::Character(zscii) => zscii.code(),
        TextItem::Variable(_) => 0,
    }
}

/// Returns the codes of characters.
fn codes_of(alloc: Global, items: &[TextItem]) -> Result<Vec<u8>, AllocError>
    ensures { IfOk result (λ codes. codes.items ≡ codes_of items.now) }
{
    let mut codes = Vec::with_capacity(alloc, items.len())?;
    for item in items {
        codes.push(code_of(*item))?;
    }
    Ok(codes)
}

/// Returns the entries of one with `value`: a number that is alone asks for that many zeros.
fn adding(is_alone: bool, value: Value) -> Entries<'static>
    ensures { adding_of result ≡ adding is_alone value }
{
    match value {
        Value::Known(count) if is_alone => Entries::Zeros(count),
        _ => Entries::One(value),
    }
}

/// Returns the place of the text that an expression with these leaves is by itself, or `None` where it is more than a text.
fn bare_leaf(leaves: &[Leaf]) -> Option<usize>
    ensures { result ≡ bare_leaf leaves.now }
{
    match leaves {
        [Leaf::Text(at)] => Some(*at),
        _ => None,
    }
}

/// Makes a list of arrays with nothing but an open one, which is kept apart from those of the story.
fn apart(alloc: Global, kind: ArrayKind) -> Result<Arrays<Unbounded>, AllocError>
    ensures { IfOk result (λ arrays. arrays ≡ apart kind) }
{
    let mut arrays = Arrays::new(alloc, usize::MAX);
    match arrays.open(kind) {
        Ok(_) => Ok(arrays),
        Err(ArrayFault::Memory) => Err(AllocError),
        Err(
            ArrayFault::TooMany | ArrayFault::NotAByte | ArrayFault::NoEntries | ArrayFault::Full,
        ) => Ok(arrays),
    }
}

/// Declares the name of an array that begins at `place`.
fn declare_array<B: Bounds>(
    name: &Name,
    place: usize,
    out: &mut Output<B>,
) -> Result<(), AllocError>
    ensures { OnOk result (out.new ≡ array_declared B.most (as_name name.now) place out.old) }
{
    declare(name, Meaning::Array(place), out)
}

/// Passes the limit of arrays, and declares the name of the array all the same.
fn refuse_array<B: Bounds>(name: &Name, out: &mut Output<B>) -> Result<(), AllocError>
    ensures { OnOk result (out.new ≡ array_refused B.most (as_name name.now) out.old) }
{
    out.pass_table(Setting::Arrays);
    declare_array(name, 0, out)
}

/// Opens one more array of the story, with its name. Where it would pass the limit, only the name is declared.
fn open_array<B: Bounds>(
    kind: ArrayKind,
    name: &Name,
    out: &mut Output<B>,
) -> Result<(), AllocError>
    ensures { OnOk result (out.new ≡ array_opened B.most kind (as_name name.now) out.old) }
{
    match out.tables.arrays.open(kind) {
        Ok(place) => declare_array(name, place, out),
        Err(ArrayFault::Memory) => Err(AllocError),
        Err(
            ArrayFault::TooMany | ArrayFault::NotAByte | ArrayFault::NoEntries | ArrayFault::Full,
        ) => refuse_array(name, out),
    }
}

/// Adds entries to the open array of the story. Where they would pass the limit, that is noted.
fn add_to_story<B: Bounds>(entries: Entries<'_>, out: &mut Output<B>) -> Result<(), AllocError>
    ensures { let a = adding_of entries.entry in OnOk result
        (out.new ≡ story_added B.most (added_fault B.most a out.old.tables.arrays) a out.old) }
{
    match out.tables.arrays.add(entries) {
        Ok(()) => Ok(()),
        Err(ArrayFault::Memory) => Err(AllocError),
        Err(
            ArrayFault::TooMany | ArrayFault::NotAByte | ArrayFault::NoEntries | ArrayFault::Full,
        ) => {
            out.pass_table(Setting::Arrays);
            Ok(())
        }
    }
}

/// Adds entries to the array that is kept apart, unless it refuses them.
fn add_to_lost<B: Bounds>(entries: Entries<'_>, arrays: &mut Arrays<B>) -> Result<(), AllocError>
    ensures { let a = adding_of entries.entry in OnOk result (arrays.new ≡ lost_added (added_fault B.most a arrays.old) a arrays.old) }
{
    match arrays.add(entries) {
        Ok(()) => Ok(()),
        Err(ArrayFault::Memory) => Err(AllocError),
        Err(
            ArrayFault::TooMany | ArrayFault::NotAByte | ArrayFault::NoEntries | ArrayFault::Full,
        ) => Ok(()),
    }
}

/// Opens an array of the first of these names.
pub fn array_named<B: Bounds>(
    compilation: &mut Compilation<B>,
    context: &Context<'_>,
    first: Place,
    names: &[Name],
) -> Result<(), AllocError>
    ensures { OnOk result (work compilation.new ≡ array_named B.most (handed context.now) first (map as_name names.now)
        (work compilation.old)) }
{
    match names.first() {
        Some(name) => array_header(compilation, context, first, name),
        None => {
            compilation.pass(false);
            Ok(())
        }
    }
}

/// Opens an array of this name.
fn array_header<B: Bounds>(
    compilation: &mut Compilation<B>,
    context: &Context<'_>,
    first: Place,
    name: &Name,
) -> Result<(), AllocError>
    ensures { OnOk result (work compilation.new ≡ array_header B.most (handed context.now) first (as_name name.now)
        (work compilation.old)) }
{
    let order = compilation.unit.tokens.name_order();
    let declared = plainly_known(compilation, name, order);
    header_with(compilation, context, first, name, declared)
}

/// Opens the array of a header; `declared` is the declaration of its name, as far as it is known.
fn header_with<B: Bounds>(
    compilation: &mut Compilation<B>,
    context: &Context<'_>,
    first: Place,
    name: &Name,
    declared: Declared,
) -> Result<(), AllocError>
    ensures { OnOk result (work compilation.new
        ≡ header_with B.most (handed context.now) first (as_name name.now) declared (work compilation.old)) }
{
    let kind = kind_in(&compilation.unit.tokens);
    list(compilation, kind, name, declared.finding)?;
    end_declared(
        compilation,
        context,
        first,
        false,
        name,
        FixedLimit::Globals,
        declared,
    )
}

/// Opens the array whose entries follow: in the story, or, where its header has an error, apart from it.
fn list<B: Bounds>(
    compilation: &mut Compilation<B>,
    kind: ArrayKind,
    name: &Name,
    found: Option<Finding>,
) -> Result<(), AllocError>
    ensures { OnOk result (work compilation.new ≡ listed B.most found kind (as_name name.now) (work compilation.old)) }
{
    compilation.listing = Listing {
        is_lost: found.is_some(),
        has_entries: false,
    };
    match found {
        None => open_array(kind, name, &mut compilation.output),
        Some(_) => {
            compilation.lost = apart(compilation.alloc, kind)?;
            Ok(())
        }
    }
}

/// Returns the place of the text that an entry which is alone is by itself; `None` for any other entry.
fn bare_text<B: Bounds>(compilation: &Compilation<B>, is_alone: bool) -> Option<usize>
    ensures { result ≡ bare_text is_alone (work compilation.now) }
{
    let gathering = &compilation.unit.gathering;
    if is_alone && gathering.symbols().len() == 1 {
        bare_leaf(gathering.leaves())
    } else {
        None
    }
}

/// Returns the finding about the entries that are to be added to the array that is read.
fn added_finding<B: Bounds>(compilation: &Compilation<B>, entries: Entries<'_>) -> Option<Finding>
    ensures { result ≡ added_finding B.most (adding_of entries.entry) (work compilation.now) }
{
    refused(if compilation.listing.is_lost {
        compilation.lost.add_fault(entries)
    } else {
        compilation.output.tables.arrays.add_fault(entries)
    })
}

/// Returns the finding about the characters of an entry that is a text alone.
fn items_finding<B: Bounds>(
    compilation: &Compilation<B>,
    items: &[TextItem],
) -> Result<Option<Finding>, AllocError>
    ensures { IfOk result (λ f. f ≡ items_finding B.most (variables_from items.now false) items.now (work compilation.now)) }
{
    if has_variables(items) {
        return Ok(Some(Finding::out_of_range(0)));
    }
    let codes = codes_of(compilation.alloc, items)?;
    Ok(added_finding(compilation, Entries::Characters(codes.as_slice())))
}

/// Returns the finding about an entry that is the text at a place alone.
fn text_finding<B: Bounds>(
    compilation: &Compilation<B>,
    context: &Context<'_>,
    at: usize,
) -> Result<Option<Finding>, AllocError>
    ensures { let w = work compilation.now in IfOk result
        (λ f. f ≡ text_finding B.most (text_at (handed context.now).set w.unit.tokens at) w) }
{
    match text_at(compilation, context, at)? {
        Some(text) => items_finding(compilation, text.as_slice()),
        None => Ok(Some(Finding::out_of_range(0))),
    }
}

/// Returns the finding about an entry, beside that about its expression; `is_alone` is whether it is alone.
fn own_entry_finding<B: Bounds>(
    compilation: &Compilation<B>,
    context: &Context<'_>,
    is_alone: bool,
    operands: &[Operand],
) -> Result<Option<Finding>, AllocError>
    requires { operands.now ≡ operands_of (work compilation.now) }
    ensures { let w = work compilation.now in IfOk result
        (λ f. f ≡ own_finding B.most (handed context.now) (bare_text is_alone w) is_alone w) }
{
    match bare_text(compilation, is_alone) {
        Some(at) => text_finding(compilation, context, at),
        None => {
            let value = looked_value(compilation, operands)?;
            Ok(added_finding(compilation, adding(is_alone, value)))
        }
    }
}

/// Returns the finding about an entry; `is_alone` is whether it is alone.
fn entry_finding<B: Bounds>(
    compilation: &Compilation<B>,
    context: &Context<'_>,
    is_alone: bool,
) -> Result<Option<Finding>, AllocError>
    ensures { IfOk result (λ f. f ≡ entry_finding B.most (handed context.now) is_alone (work compilation.now)) }
{
    let operands = compilation.operands()?;
    let judged = compilation.finding(0, Wanted::Constant, operands.as_slice())?;
    let own = own_entry_finding(compilation, context, is_alone, operands.as_slice())?;
    Ok(least_of_both(judged, own))
}

/// Adds entries to the array that is read.
fn add<B: Bounds>(compilation: &mut Compilation<B>, entries: Entries<'_>) -> Result<(), AllocError>
    ensures { OnOk result (work compilation.new ≡ added B.most (adding_of entries.entry) (work compilation.old)) }
{
    if compilation.listing.is_lost {
        add_to_lost(entries, &mut compilation.lost)
    } else {
        add_to_story(entries, &mut compilation.output)
    }
}

/// Adds the characters of the text at a place.
fn add_text<B: Bounds>(
    compilation: &mut Compilation<B>,
    context: &Context<'_>,
    at: usize,
) -> Result<(), AllocError>
    ensures { let before = work compilation.old in
        OnOk result (work compilation.new ≡ text_added B.most (text_at (handed context.now).set before.unit.tokens at) before) }
{
    let Some(text) = text_at(compilation, context, at)? else {
        return Ok(());
    };
    let codes = codes_of(compilation.alloc, text.as_slice())?;
    add(compilation, Entries::Characters(codes.as_slice()))
}

/// Adds an entry with a value; `is_alone` is whether it is alone.
fn add_value<B: Bounds>(
    compilation: &mut Compilation<B>,
    context: &Context<'_>,
    is_alone: bool,
) -> Result<(), AllocError>
    ensures { OnOk result (work compilation.new ≡ value_added B.most (handed context.now) is_alone (work compilation.old)) }
{
    let value = value(compilation, context)?;
    add(compilation, adding(is_alone, value))
}

/// Adds an entry with which nothing is wrong; `is_alone` is whether it is alone.
fn add_entry<B: Bounds>(
    compilation: &mut Compilation<B>,
    context: &Context<'_>,
    is_alone: bool,
) -> Result<(), AllocError>
    ensures { OnOk result (work compilation.new ≡ entry_added B.most (handed context.now) is_alone (work compilation.old)) }
{
    match bare_text(compilation, is_alone) {
        Some(at) => add_text(compilation, context, at),
        None => add_value(compilation, context, is_alone),
    }
}

/// Ends the entry that begins at `first`, with the finding `found` about it: it is added where there is none.
fn entry_with<B: Bounds>(
    compilation: &mut Compilation<B>,
    context: &Context<'_>,
    first: Place,
    is_alone: bool,
    found: Option<Finding>,
) -> Result<(), AllocError>
    ensures { OnOk result (work compilation.new ≡ entry_with B.most (handed context.now) first is_alone found (work compilation.old)) }
{
    if found.is_none() {
        add_entry(compilation, context, is_alone)?;
    }
    compilation.end_alone(context, first, false, found)
}

/// Looks up the names of an entry of several leaves, and returns the finding about it, and its value, if the use of the names is known to
/// change nothing; `is_alone` is whether it is alone.
#[tactic(auto, using(crate::proofs::Staying::several_found, crate::proofs::Staying::entry_stays))]
fn look_several<B: Bounds>(
    compilation: &mut Compilation<B>,
    is_alone: bool,
) -> Result<(Option<Finding>, Option<Value>), AllocError>
    requires { (length (work compilation.now).unit.gathering.symbols == 1) ≡ false }
    ensures finding { (context : Standing) → IfOk result
        (λ looked. looked.0 ≡ entry_finding B.most context is_alone (work compilation.old)) }
    ensures value { (context : Standing) → let w = work compilation.old in IfOk result (λ looked. IfSome looked.1
        (λ v. added B.most (adding is_alone v) w ≡ entry_added B.most context is_alone w)) }
    ensures unchanged { OnOk result (work compilation.new ≡ work compilation.old) }
{
    let looked = compilation.look_constant()?;
    let value = value_in(&looked.forest);
    let own = added_finding(compilation, adding(is_alone, value));
    let finding = least_of_both(looked.finding, own);
    let known = if looked.stays { Some(value) } else { None };
    compilation.keep_forest(looked.forest);
    Ok((finding, known))
}

/// Adds an entry with which nothing is wrong, and which has the value `known`, if that is known; `is_alone` is whether it is alone.
fn add_known<B: Bounds>(
    compilation: &mut Compilation<B>,
    context: &Context<'_>,
    is_alone: bool,
    known: Option<Value>,
) -> Result<(), AllocError>
    requires { let w = work compilation.now in
        IfSome known (λ v. added B.most (adding is_alone v) w ≡ entry_added B.most (handed context.now) is_alone w) }
    ensures { OnOk result (work compilation.new ≡ entry_added B.most (handed context.now) is_alone (work compilation.old)) }
{
    match known {
        Some(value) => add(compilation, adding(is_alone, value)),
        None => add_entry(compilation, context, is_alone),
    }
}

/// Ends the entry that begins at `first`, with the finding `found` about it: it is added where there is none, with the value `known`, if
/// that is known.
fn end_several<B: Bounds>(
    compilation: &mut Compilation<B>,
    context: &Context<'_>,
    first: Place,
    is_alone: bool,
    found: Option<Finding>,
    known: Option<Value>,
) -> Result<(), AllocError>
    requires { let w = work compilation.now in
        IfSome known (λ v. added B.most (adding is_alone v) w ≡ entry_added B.most (handed context.now) is_alone w) }
    ensures { OnOk result (work compilation.new ≡ entry_with B.most (handed context.now) first is_alone found (work compilation.old)) }
{
    if found.is_none() {
        add_known(compilation, context, is_alone, known)?;
    }
    compilation.end_alone(context, first, false, found)
}

/// Judges the entry that begins at `first`, an expression of several leaves, and ends it; `is_alone` is whether it is alone.
fn judge_several<B: Bounds>(
    compilation: &mut Compilation<B>,
    context: &Context<'_>,
    first: Place,
    is_alone: bool,
) -> Result<(), AllocError>
    requires { (length (work compilation.now).unit.gathering.symbols == 1) ≡ false }
    ensures { OnOk result (work compilation.new ≡ entry_judged B.most (handed context.now) first is_alone (work compilation.old)) }
{
    compilation.listing.has_entries = true;
    let (found, known) = look_several(compilation, is_alone)?;
    end_several(compilation, context, first, is_alone, found, known)
}

fn number_leaf(leaves: &[Leaf]) -> Option<u16>
    ensures { result ≡ number_leaf leaves.now }
{
    match leaves {
        [Leaf::Number(number)] => Some(*number),
        [Leaf::Char(zscii)] => Some(u16::from(zscii.code())),
        _ => None,
    }
}

/// Returns whether an expression with these symbols is its first leaf and nothing else.
fn is_first_leaf(symbols: &[Symbol]) -> bool
    ensures { result ≡ is_first_leaf symbols.now }
{
    match symbols {
        [Symbol::Leaf { leaf, .. }] => *leaf == 0,
        _ => false,
    }
}

/// Returns the number that the entry at hand is by itself; `None` for any other entry.
#[tactic(auto, using(crate::proofs::Numbers::number_is))]
fn number_alone<B: Bounds>(compilation: &Compilation<B>) -> Option<u16>
    ensures { IfSome result (λ number. IsNumber number (work compilation.now)) }
{
    let gathering = &compilation.unit.gathering;
    if is_first_leaf(gathering.symbols()) {
        number_leaf(gathering.leaves())
    } else {
        None
    }
}

/// Judges the entry that begins at `first`, which is `number` by itself, and ends it; `is_alone` is whether it is alone. It has no name to look
/// up, and nothing is wrong with it but what its array refuses.
fn judge_number<B: Bounds>(
    compilation: &mut Compilation<B>,
    context: &Context<'_>,
    first: Place,
    is_alone: bool,
    number: u16,
) -> Result<(), AllocError>
    requires { IsNumber number (work compilation.now) }
    ensures { OnOk result (work compilation.new ≡ entry_judged B.most (handed context.now) first is_alone (work compilation.old)) }
{
    let value = Value::Known(number);
    let found = added_finding(compilation, adding(is_alone, value));
    compilation.listing.has_entries = true;
    end_several(compilation, context, first, is_alone, found, Some(value))
}

/// Judges the entry that begins at `first`, and ends it; `is_alone` is whether it is alone.
fn judge_entry<B: Bounds>(
    compilation: &mut Compilation<B>,
    context: &Context<'_>,
    first: Place,
    is_alone: bool,
) -> Result<(), AllocError>
    ensures { OnOk result (work compilation.new ≡ entry_judged B.most (handed context.now) first is_alone (work compilation.old)) }
{
    if compilation.unit.gathering.symbols().len() != 1 {
        return judge_several(compilation, context, first, is_alone);
    }
    if let Some(number) = number_alone(compilation) {
        return judge_number(compilation, context, first, is_alone, number);
    }
    let found = entry_finding(compilation, context, is_alone)?;
    compilation.listing.has_entries = true;
    entry_with(compilation, context, first, is_alone, found)
}

/// Ends an entry, before a token at `place`; `is_last` is whether no further one follows.
pub fn end_entry<B: Bounds>(
    compilation: &mut Compilation<B>,
    context: &Context<'_>,
    place: Place,
    is_last: bool,
) -> Result<(), AllocError>
    ensures { OnOk result (work compilation.new ≡ entry_ended B.most (handed context.now) place is_last (work compilation.old)) }
{
    let first = compilation.unit.first_place(place);
    let is_alone = is_last && !compilation.listing.has_entries;
    judge_entry(compilation, context, first, is_alone)
}
