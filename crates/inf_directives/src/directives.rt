//! The directives that are one unit.
ghost use Rattle.inf_compilation.specs.{Context.handed, Meant.again_as, Meant.found_as, Works.work};
ghost use Rattle.inf_compilation.specs.Actions.{as_constant, constant, constant_ended, constant_finding, constant_findings};
ghost use Rattle.inf_compilation.specs.Actions.{constant_meaning, constant_of, constant_with, declared_meaning, is_declared};
ghost use Rattle.inf_compilation.specs.Actions.{is_first_declared, leaf_meaning, named_leaf, new_stub, replace, stub, stub_locals, stubbed};
ghost use Rattle.inf_compilation.specs.Actions.{words_of};
ghost use Rattle.std.specs.Prelude.{IfOk, OnOk, length, map, option_map, ◌≡◌, ◌≤◌};
ghost use Rattle.inf_expressions.specs.Forests.{trees_in as rooted_in};
ghost use Rattle.inf_names.specs.{NameSets.with_name, Spellings.as_name, Symbols.found_in};
ghost use Rattle.inf_constructs.specs.Roots.{tree_in};
ghost use Rattle.inf_output.specs.Output.{referred};
ghost use Rattle.inf_unit.specs.{Messages.location, Messages.with_words, Units.quoted_in};
ghost use Rattle.inf_unit.specs.Directives.{Include, asked, weight_of};
ghost use Rattle.inf_directives.specs.Defaults.{default};

use inf_area::Value;
use inf_assembler::RoutineKind;
use inf_compilation::compilation::Compilation;
use inf_compilation::context::Context;
use inf_compilation::findings::{Again, Findings, again_by, again_finding};
use inf_expressions::{Finding, Forest, constant as constant_in, least_of_both};
use inf_gathering::gathering::Leaf;
use inf_lexer::Place;
use inf_named_values::values::add_leaf;
use inf_names::meanings::Meaning;
use inf_names::spellings::Name;
use inf_names::symbols::{DeclareFault, Found};
use inf_report::messages::FixedLimit;
use inf_report::own_words::OwnWords;
use inf_settings::bounds::Bounds;
use inf_unit::directives::{Request, weight_of};
use inf_unit::kinds::number_of;
use inf_unit::messages::location;
use inf_unit::unit_tokens::UnitTokens;
use std::alloc::AllocError;

/// The greatest number of locals of a routine that `Stub` makes (Designer's Manual, fourth edition, section 25).
const MOST_STUB_LOCALS: u16 = 4;

/// Keeps the first of `names` as that of a routine that is to be replaced, and uses it.
pub fn replace<B: Bounds>(
    compilation: &mut Compilation<B>,
    context: &Context<'_>,
    first: Place,
    names: &[Name],
) -> Result<(), AllocError>
    ensures { OnOk result (work compilation.new
        ≡ replace B.most (handed context.now) first (map as_name names.now) (work compilation.old)) }
{
    let Some(name) = names.first() else {
        compilation.pass(true);
        return Ok(());
    };
    keep_replaced(compilation, name)?;
    compilation.end_unit(context, first, true, &Findings::none())
}

/// Notes a name as that of a routine that is to be replaced, and uses it.
fn keep_replaced<B: Bounds>(compilation: &mut Compilation<B>, name: &Name) -> Result<(), AllocError>
    ensures { let before = work compilation.old in OnOk result (work compilation.new ≡ record before {
      output = referred B.most (as_name name.now).bytes name.now.place before.output;
      replaced = with_name (as_name name.now).bytes before.replaced;
    }) }
{
    compilation.output.refer(name.bytes(), name.place)?;
    compilation.replaced.add(name.bytes())
}

/// Declares the first of `names` as a routine that returns 0 and has as many locals as the number behind it says, unless the name is
/// declared.
pub fn stub<B: Bounds>(
    compilation: &mut Compilation<B>,
    context: &Context<'_>,
    first: Place,
    names: &[Name],
) -> Result<(), AllocError>
    ensures { OnOk result (work compilation.new ≡ stub B.most (handed context.now) first (map as_name names.now) (work compilation.old)) }
{
    if is_first_declared(compilation, names) {
        compilation.end_unit(context, first, true, &Findings::none())
    } else {
        new_stub(compilation, context, first, names)
    }
}

/// Declares the first of these names as that of the routine of a `Stub`.
fn new_stub<B: Bounds>(
    compilation: &mut Compilation<B>,
    context: &Context<'_>,
    first: Place,
    names: &[Name],
) -> Result<(), AllocError>
    ensures { OnOk result (work compilation.new ≡ new_stub B.most (handed context.now) first (map as_name names.now)
        (work compilation.old)) }
{
    let Some(name) = names.first() else {
        compilation.pass(true);
        return Ok(());
    };
    compilation.declare_routine(name)?;
    stub_routine(compilation, context, first)
}

/// Makes the routine of a `Stub`, whose name is declared, and ends the directive. It is an error that there are too many locals.
fn stub_routine<B: Bounds>(
    compilation: &mut Compilation<B>,
    context: &Context<'_>,
    first: Place,
) -> Result<(), AllocError>
    ensures { OnOk result (work compilation.new ≡ stubbed B.most (handed context.now) first (work compilation.old)) }
{
    let locals = stub_locals(&compilation.unit.tokens);
    if locals > MOST_STUB_LOCALS {
        let found = Findings::alone(Some(Finding::out_of_range(0)));
        return compilation.end_unit(context, first, true, &found);
    }
    compilation
        .output
        .open(compilation.alloc, locals as u8, false)?;
    compilation.output.close(RoutineKind::Embedded)?;
    compilation.end_unit(context, first, true, &Findings::none())
}

/// Declares the first of these names as a constant, as `Constant` does, unless it is declared.
pub fn default<B: Bounds>(
    compilation: &mut Compilation<B>,
    context: &Context<'_>,
    first: Place,
    names: &[Name],
) -> Result<(), AllocError>
    ensures { OnOk result (work compilation.new
        ≡ default B.most (handed context.now) first (map as_name names.now) (work compilation.old)) }
{
    if is_first_declared(compilation, names) {
        compilation.end_unit(context, first, true, &Findings::none())
    } else {
        constant(compilation, context, first, names)
    }
}

/// Returns whether the first of these names is declared.
fn is_first_declared<B: Bounds>(compilation: &Compilation<B>, names: &[Name]) -> bool
    ensures { result ≡ is_first_declared (map as_name names.now) (work compilation.now).output.names }
{
    match names.first() {
        Some(name) => is_declared(compilation.output.names.look(name.bytes())),
        None => false,
    }
}

/// Declares the first of these names as a constant, with the meaning of its expression, or as 0.
pub fn constant<B: Bounds>(
    compilation: &mut Compilation<B>,
    context: &Context<'_>,
    first: Place,
    names: &[Name],
) -> Result<(), AllocError>
    ensures { OnOk result (work compilation.new
        ≡ constant B.most (handed context.now) first (map as_name names.now) (work compilation.old)) }
{
    let Some(name) = names.first() else {
        compilation.pass(true);
        return Ok(());
    };
    let looked = compilation.look_constant()?;
    let meaning = constant_of(compilation, &looked.forest);
    let found = looked.finding;
    compilation.keep_forest(looked.forest);
    declare_constant(compilation, context, first, name, meaning, found)
}

/// Returns the request to read the file whose name is the text of the unit, for a directive that begins at `unit`.
pub fn inclusion<B: Bounds>(
    compilation: &Compilation<B>,
    unit: Place,
) -> Result<Request, AllocError>
    ensures { IfOk result (λ a. asked a ≡ Include (quoted_in (work compilation.now).unit.tokens) unit) }
{
    let mut text = Vec::new(compilation.alloc);
    text.extend_from_slice(compilation.unit.tokens.quoted())?;
    Ok(Request::Include { text, unit })
}

/// Tells the text of the unit, by the weight that its names say.
pub fn message<B: Bounds>(
    compilation: &mut Compilation<B>,
    context: &Context<'_>,
    first: Place,
    names: &[Name],
) -> Result<(), AllocError>
    ensures { let before = work compilation.old in OnOk result (work compilation.new ≡ record before {
      report = with_words (location (handed context.now).names first) (weight_of (map as_name names.now))
          (words_of (handed context.now).set before.unit) before.report;
    }) }
{
    let words = OwnWords {
        bytes: compilation.unit.tokens.quoted(),
        set: context.set,
    };
    compilation
        .report
        .words(location(context.files, first), weight_of(names), words)
}

/// Returns the meaning of a constant, by the tree of its expression in `forest`: a known number, 0 where it has none, a
/// string, a word, or the meaning of a name that was declared before.
fn constant_of<B: Bounds>(compilation: &Compilation<B>, forest: &Forest) -> Option<Meaning>
    ensures { result ≡ constant_of (map tree_in (rooted_in forest.now)) (work compilation.now) }
{
    let Some(root) = forest.roots.first() else {
        return Some(Meaning::Number(0));
    };
    match constant_in(&forest.nodes, root.place)? {
        Value::Known(number) => Some(Meaning::Number(number)),
        Value::Later(_) => leaf_constant(compilation),
    }
}

/// Returns the meaning of a constant whose expression is one leaf: a text is the next string, and a word of the dictionary is itself.
fn leaf_constant<B: Bounds>(compilation: &Compilation<B>) -> Option<Meaning>
    ensures { let w = work compilation.now in result ≡ leaf_meaning w.unit.gathering.leaves w }
{
    match compilation.unit.gathering.leaves().first() {
        Some(Leaf::Text(_)) => Some(Meaning::Text(compilation.output.strings.len())),
        Some(Leaf::Word(word)) => Some(Meaning::Word(word.text)),
        _ => named_constant(compilation),
    }
}

/// Returns the meaning of a constant whose expression is one name, where that was declared before.
fn named_constant<B: Bounds>(compilation: &Compilation<B>) -> Option<Meaning>
    ensures { let w = work compilation.now in
        result ≡ declared_meaning (found_in (named_leaf w.unit.tokens w.unit.gathering.leaves) w.output.names) }
{
    let name = named_leaf(
        &compilation.unit.tokens,
        compilation.unit.gathering.leaves(),
    );
    match compilation.output.names.look(name) {
        Found::Declared(meaning, _) => Some(as_constant(meaning)),
        Found::System(_) | Found::Used | Found::Unknown => None,
    }
}

/// Declares a name as a constant with its meaning, if that is known, and tells the first error of its directive.
fn declare_constant<B: Bounds>(
    compilation: &mut Compilation<B>,
    context: &Context<'_>,
    first: Place,
    name: &Name,
    meaning: Option<Meaning>,
    found: Option<Finding>,
) -> Result<(), AllocError>
    ensures { OnOk result (work compilation.new
        ≡ constant_with B.most (handed context.now) first (as_name name.now) meaning found (work compilation.old)) }
{
    let finding = constant_finding(meaning, found);
    let stands = constant_meaning(meaning, finding);
    let refused = compilation
        .output
        .declare(name.bytes(), name.place, stands)?;
    end_constant(compilation, context, first, name, refused, finding)
}

/// Ends the directive of a constant, whose name was refused or not. The text or the word of its expression is added where it has no error.
fn end_constant<B: Bounds>(
    compilation: &mut Compilation<B>,
    context: &Context<'_>,
    first: Place,
    name: &Name,
    refused: Option<DeclareFault<Place>>,
    finding: Option<Finding>,
) -> Result<(), AllocError>
    ensures { OnOk result (work compilation.new
        ≡ constant_ended B.most (handed context.now) first (as_name name.now) refused finding (work compilation.old)) }
{
    let order = compilation.unit.tokens.name_order();
    let found = constant_findings(order, again_by(name, refused), finding);
    if found.least.is_none() {
        add_leaf(compilation, context)?;
    }
    compilation.end_unit(context, first, true, &found)
}

/// Returns the findings about a constant: that its name, at `order`, is declared already by `again`, or `finding`, that
/// about its expression.
fn constant_findings(order: u32, again: Option<Again>, finding: Option<Finding>) -> Findings
    ensures { found_as result ≡ constant_findings order (option_map again_as again) finding }
{
    Findings {
        least: least_of_both(again_finding(order, &again), finding),
        many: FixedLimit::Values,
        again,
    }
}

/// Returns whether a name is declared, by the answer of its look-up.
fn is_declared(found: Found<Place>) -> bool
    ensures { result ≡ is_declared found }
{
    match found {
        Found::System(_) | Found::Declared(..) => true,
        Found::Used | Found::Unknown => false,
    }
}

/// Returns the name that is the first leaf of a unit with these tokens; an empty one where that leaf is no name.
fn named_leaf<'t>(tokens: &'t UnitTokens, leaves: &[Leaf]) -> &'t [u8]
    ensures value { result.now ≡ named_leaf tokens.now leaves.now }
    ensures few { length result.now ≤ 32 }
{
    match leaves.first() {
        Some(Leaf::Name(at)) => tokens.bytes_at(*at),
        _ => b"",
    }
}

/// Returns the meaning of a constant that has the value of a name with `meaning`: a constant with the address of a
/// routine is no routine itself.
fn as_constant(meaning: Meaning) -> Meaning
    ensures { result ≡ as_constant meaning }
{
    match meaning {
        Meaning::Routine(place) => Meaning::PackedAddress(place),
        _ => meaning,
    }
}

/// Returns the finding about a constant's expression: `found`, or else that it has no `meaning`.
fn constant_finding(meaning: Option<Meaning>, found: Option<Finding>) -> Option<Finding>
    ensures { result ≡ constant_finding meaning found }
{
    match (meaning, found) {
        (None, None) => Some(Finding::no_constant(0)),
        _ => found,
    }
}

/// Returns the meaning of a constant: `meaning`, or 0 where `found` is an error.
fn constant_meaning(meaning: Option<Meaning>, found: Option<Finding>) -> Meaning
    ensures { result ≡ constant_meaning meaning found }
{
    match (meaning, found) {
        (Some(meaning), None) => meaning,
        _ => Meaning::Number(0),
    }
}

/// Returns the number of locals that a `Stub` gives its routine: the last of `tokens`.
fn stub_locals(tokens: &UnitTokens) -> u16
    ensures { result ≡ stub_locals tokens.now }
{
    match tokens.kind(tokens.len().saturating_sub(1)) {
        Some(kind) => number_of(kind).unwrap_or(0),
        None => 0,
    }
}
