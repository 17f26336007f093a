//! Values of a statement that prints, or gives attributes, of which there are more than code may have bytes for.
ghost use Rattle.std.specs.Prelude.{IfOk, OnOk, false, length, true, ◌≡◌, ◌≤◌};
ghost use Rattle.inf_names.specs.LocalList.{listed};
ghost use Rattle.inf_unit.specs.{AtHand.unit as unit_of, Crowds.crowd as crowd_of};
ghost use Rattle.inf_operands.specs.Operands.{looked_leaf};
ghost use Rattle.inf_compilation.specs.{Context.handed, Works.work};
ghost use Rattle.inf_compilation.specs.Crowds.{are_in_memory, are_plain, is_entry, is_in_memory, is_loud, is_loud_function, is_new};
ghost use Rattle.inf_compilation.specs.Crowds.{is_new_by, is_plain, is_plain_one, is_plain_two, is_unknown, item_brought, items_brought};
ghost use Rattle.inf_compilation.specs.Crowds.{leaf_brought, leaf_told, leaves_brought, name_brought, operand_added, routine_brought};
ghost use Rattle.inf_compilation.specs.Crowds.{rule_routine, symbols_heard, value_brought, value_finding, value_heard, value_named};
ghost use Rattle.inf_compilation.specs.Crowds.{value_sifted, word_brought};

use crate::compilation::Compilation;
use crate::context::Context;
use inf_expressions::{
    Binary, Finding, Function, Operand, Operation, Symbol, Unary, Wanted, judge,
};
use inf_gathering::gathering::{Gathering, Leaf, behind};
use inf_names::locals::Locals;
use inf_names::symbols::{Found, Symbols};
use inf_operands::operands::{looked_leaf, name_locals};
use inf_output::{Output, Veneer};
use inf_scanner::Place;
use inf_settings::bounds::Bounds;
use inf_settings::setting::Setting;
use inf_settings::settings::Settings;
use inf_unit::crowds::Crowd;
use inf_unit::items::{Item, PrintRule};
use inf_unit::unit::{Unit, order};
use inf_unit::unit_tokens::UnitTokens;
use std::alloc::{AllocError, Global};

/// Returns whether a name is not known so far, by the answer of the look-up of it.
fn is_unknown(found: Found<Place>) -> bool
    ensures { result ≡ is_unknown found }
{
    match found {
        Found::Unknown => true,
        Found::System(_) | Found::Declared(_, _) | Found::Used => false,
    }
}

/// Returns whether a name may be one too many, where it is that of `local` or of none, and the look-up of it gave `found`.
fn is_new_by(local: Option<u8>, found: Found<Place>) -> bool
    ensures { result ≡ is_new_by local found }
{
    match local {
        Some(_) => false,
        None => is_unknown(found),
    }
}

/// Returns whether `name` may be one too many: it is no local, and not known so far.
fn is_new<B: Bounds>(locals: &Locals, names: &Symbols<Place, B>, name: &[u8]) -> bool
    requires { length name.now ≤ 35 }
    ensures { result ≡ is_new (listed locals.now) names.now name.now }
{
    is_new_by(locals.number(name), names.look(name))
}

/// Notes that `name` came, where it may be one too many.
fn bring_name(
    crowd: &mut Crowd,
    settings: &Settings,
    is_new: bool,
    name: &[u8],
) -> Result<(), AllocError>
    requires { length name.now ≤ 35 }
    ensures { OnOk result (crowd_of crowd.new ≡ name_brought settings.now is_new name.now (crowd_of crowd.old)) }
{
    if is_new {
        let is_first = crowd.line.add_name(name, settings.of(Setting::Symbols))?;
        crowd.tells = crowd.tells | is_first;
    }
    Ok(())
}

/// Notes that the word `text` came.
fn bring_word(crowd: &mut Crowd, settings: &Settings, text: [u8; 6]) -> Result<(), AllocError>
    ensures { OnOk result (crowd_of crowd.new ≡ word_brought settings.now text (crowd_of crowd.old)) }
{
    let is_first = crowd
        .line
        .add_word(text, settings.of(Setting::DictionaryEntries))?;
    crowd.tells = crowd.tells | is_first;
    Ok(())
}

/// Notes what `leaf`, a leaf of a unit with `tokens`, may pass: a text is a string of the story.
fn tell_leaf<B: Bounds>(
    crowd: &mut Crowd,
    settings: &Settings,
    locals: &Locals,
    names: &Symbols<Place, B>,
    tokens: &UnitTokens,
    leaf: Leaf,
) -> Result<(), AllocError>
    ensures { OnOk result (crowd_of crowd.new ≡ leaf_told settings.now (listed locals.now) names.now tokens.now leaf (crowd_of crowd.old)) }
{
    match leaf {
        Leaf::Name(at) | Leaf::Alone(at) => {
            let name = tokens.bytes_at(at);
            bring_name(crowd, settings, is_new(locals, names, name), name)
        }
        Leaf::Word(word) => bring_word(crowd, settings, word.text),
        Leaf::Text(_) => {
            crowd.tells = true;
            Ok(())
        }
        Leaf::Number(_) | Leaf::Char(_) | Leaf::Action(_) | Leaf::System(_) => Ok(()),
    }
}

fn is_loud_function(function: Function) -> bool
    ensures { result ≡ is_loud_function function }
{
    match function {
        Function::Child | Function::Sibling | Function::Children => true,
        Function::Parent | Function::Random | Function::Indirect => false,
    }
}

/// Returns whether `operand` is a function of the system whose code may have more than bytes and references.
fn is_loud(operand: Operand) -> bool
    ensures { result ≡ is_loud operand }
{
    match operand {
        Operand::Function(function) => is_loud_function(function),
        Operand::Known(_) | Operand::Variable(_) | Operand::Later(_) | Operand::Unknown => false,
    }
}

/// Adds the operand of `leaf`, a leaf of a unit with `tokens`, behind the new actions so far.
fn add_operand<B: Bounds>(
    crowd: &mut Crowd,
    locals: &Locals,
    out: &Output<B>,
    tokens: &UnitTokens,
    leaf: Leaf,
) -> Result<(), AllocError>
    ensures { let before = crowd_of crowd.old in OnOk result (crowd_of crowd.new
        ≡ operand_added (looked_leaf (listed locals.now) out.now tokens.now leaf before.actions) before) }
{
    let before = crowd.actions.len();
    let operand = looked_leaf(locals, out, tokens, leaf, &mut crowd.actions)?;
    crowd.tells = crowd.tells | is_loud(operand);
    crowd.acts = crowd.acts | (crowd.actions.len() > before);
    crowd.operands.push(operand)?;
    Ok(())
}

/// Notes that `leaf` came, a leaf of a unit with `tokens`.
fn bring_leaf<B: Bounds>(
    crowd: &mut Crowd,
    settings: &Settings,
    locals: &Locals,
    out: &Output<B>,
    tokens: &UnitTokens,
    leaf: &Leaf,
) -> Result<(), AllocError>
    ensures { OnOk result (crowd_of crowd.new ≡ leaf_brought settings.now (listed locals.now) out.now tokens.now leaf.now
        (crowd_of crowd.old)) }
{
    add_operand(crowd, locals, out, tokens, *leaf)?;
    tell_leaf(crowd, settings, locals, &out.names, tokens, *leaf)
}

/// Notes that `leaves` came, leaves of a unit with `tokens`.
fn bring_leaves<B: Bounds>(
    crowd: &mut Crowd,
    settings: &Settings,
    locals: &Locals,
    out: &Output<B>,
    tokens: &UnitTokens,
    leaves: &[Leaf],
) -> Result<(), AllocError>
    ensures { OnOk result (crowd_of crowd.new ≡ leaves_brought settings.now (listed locals.now) out.now tokens.now leaves.now
        (crowd_of crowd.old)) }
{
    for leaf in leaves {
        bring_leaf(crowd, settings, locals, out, tokens, leaf)?;
    }
    Ok(())
}

fn rule_routine(rule: PrintRule) -> Option<Veneer>
    ensures { result ≡ rule_routine rule }
{
    match rule {
        PrintRule::Character
        | PrintRule::String
        | PrintRule::Address
        | PrintRule::Object
        | PrintRule::Routine => None,
        PrintRule::ShortName => Some(Veneer::ShortName),
        PrintRule::DefiniteArticle => Some(Veneer::DefiniteArticle),
        PrintRule::CapitalArticle => Some(Veneer::CapitalArticle),
        PrintRule::IndefiniteArticle => Some(Veneer::IndefiniteArticle),
        PrintRule::EnglishNumber => Some(Veneer::EnglishNumber),
    }
}

/// Notes that the name of `routine` came, if there is a routine.
fn bring_routine<B: Bounds>(
    crowd: &mut Crowd,
    settings: &Settings,
    names: &Symbols<Place, B>,
    routine: Option<Veneer>,
) -> Result<(), AllocError>
    ensures { OnOk result (crowd_of crowd.new ≡ routine_brought settings.now names.now routine (crowd_of crowd.old)) }
{
    match routine {
        Some(routine) => {
            let name = routine.name().as_bytes();
            bring_name(crowd, settings, is_unknown(names.look(name)), name)
        }
        None => Ok(()),
    }
}

/// Notes that `item` came.
fn bring_item<B: Bounds>(
    crowd: &mut Crowd,
    settings: &Settings,
    names: &Symbols<Place, B>,
    item: Item,
) -> Result<(), AllocError>
    ensures { OnOk result (crowd_of crowd.new ≡ item_brought settings.now names.now item (crowd_of crowd.old)) }
{
    match item {
        Item::Ruled(rule) => bring_routine(crowd, settings, names, rule_routine(rule)),
        _ => Ok(()),
    }
}

/// Notes that `items` came.
fn bring_items<B: Bounds>(
    crowd: &mut Crowd,
    settings: &Settings,
    names: &Symbols<Place, B>,
    items: &[Item],
) -> Result<(), AllocError>
    ensures { OnOk result (crowd_of crowd.new ≡ items_brought settings.now names.now items.now (crowd_of crowd.old)) }
{
    for item in items {
        bring_item(crowd, settings, names, *item)?;
    }
    Ok(())
}

/// Returns whether `operation` is that of an entry of an array.
fn is_entry(operation: Operation) -> bool
    ensures { result ≡ is_entry operation }
{
    matches!(operation, Operation::Byte | Operation::Word)
}

/// Returns whether `symbol` is that of an entry of an array, or of a property.
fn is_in_memory(symbol: Symbol) -> bool
    ensures { result ≡ is_in_memory symbol }
{
    match symbol {
        Symbol::Two(Binary::Operation(operation)) => is_entry(operation),
        Symbol::Two(Binary::Property(_)) => true,
        _ => false,
    }
}

/// Returns whether one of `symbols` is that of an entry of an array, or of a property.
fn are_in_memory(symbols: &[Symbol]) -> bool
    ensures { result ≡ are_in_memory symbols.now false }
{
    let mut found = false;
    for symbol in symbols {
        found = found | is_in_memory(*symbol);
    }
    found
}

/// Returns whether the code of the operator `op` of one expression has bytes and references alone, where something is in memory or not.
fn is_plain_one(in_memory: bool, op: Unary) -> bool
    ensures { result ≡ is_plain_one in_memory op }
{
    match op {
        Unary::Negate | Unary::Single(_) | Unary::Call | Unary::Indirect => true,
        Unary::Before(_) | Unary::Behind(_) => !in_memory,
        Unary::Not | Unary::Relative(_) | Unary::Children => false,
    }
}

/// Returns whether the code of the operator `op` of two expressions has bytes and references alone, where something is in memory or not.
fn is_plain_two(in_memory: bool, op: Binary) -> bool
    ensures { result ≡ is_plain_two in_memory op }
{
    match op {
        Binary::Operation(_) | Binary::Comma | Binary::Call | Binary::Then | Binary::To => true,
        Binary::Assign => !in_memory,
        Binary::Property(_) | Binary::Test(_) | Binary::Fails(_) | Binary::And | Binary::Or =>
            false,
    }
}

/// Returns whether the code of `symbol` has bytes and references alone, where something is in memory or not: it has no label, and calls no
/// routine by its name.
fn is_plain(in_memory: bool, symbol: Symbol) -> bool
    ensures { result ≡ is_plain in_memory symbol }
{
    match symbol {
        Symbol::Prefix(_, op) | Symbol::Suffix(op) => is_plain_one(in_memory, op),
        Symbol::Two(op) => is_plain_two(in_memory, op),
        Symbol::Leaf { .. }
        | Symbol::Bracketed(_)
        | Symbol::Comma
        | Symbol::List(_)
        | Symbol::Call(_) => true,
    }
}

/// Returns whether the code of all `symbols` has bytes and references alone, where something is in memory or not.
fn are_plain(in_memory: bool, symbols: &[Symbol]) -> bool
    ensures { result ≡ are_plain in_memory symbols.now true }
{
    let mut plain = true;
    for symbol in symbols {
        plain = plain & is_plain(in_memory, *symbol);
    }
    plain
}

/// Notes what the code of `symbols` may pass.
fn hear_symbols(crowd: &mut Crowd, symbols: &[Symbol])
    ensures { crowd_of crowd.new ≡ symbols_heard symbols.now (crowd_of crowd.old) }
{
    let in_memory = are_in_memory(symbols);
    crowd.tells = crowd.tells | !are_plain(in_memory, symbols);
}

/// Notes what came behind the values that are kept, of a unit with `tokens` and `items` that has gathered `gathering`.
fn hear_value<B: Bounds>(
    crowd: &mut Crowd,
    settings: &Settings,
    locals: &Locals,
    out: &Output<B>,
    tokens: &UnitTokens,
    gathering: &Gathering,
    items: &[Item],
) -> Result<(), AllocError>
    ensures { OnOk result (crowd_of crowd.new ≡ value_heard settings.now (listed locals.now) out.now tokens.now gathering.now items.now
        (crowd_of crowd.old)) }
{
    let leaves = behind(gathering.leaves(), crowd.extent.leaves);
    bring_leaves(crowd, settings, locals, out, tokens, leaves)?;
    let items = behind(items, crowd.items);
    bring_items(crowd, settings, &out.names, items)?;
    let symbols = behind(gathering.symbols(), crowd.extent.symbols);
    hear_symbols(crowd, symbols);
    Ok(())
}

/// Notes what came behind the values of `unit` that are kept.
fn bring_value<B: Bounds>(
    unit: &mut Unit,
    settings: &Settings,
    locals: &Locals,
    out: &Output<B>,
) -> Result<(), AllocError>
    ensures { OnOk result (unit_of unit.new ≡ value_brought settings.now (listed locals.now) out.now (unit_of unit.old)) }
{
    match &mut unit.crowd {
        Some(crowd) => hear_value(
            crowd,
            settings,
            locals,
            out,
            &unit.tokens,
            &unit.gathering,
            unit.items.as_slice(),
        ),
        None => Ok(()),
    }
}

/// Returns the least finding about the value at hand of `unit`.
fn value_finding(alloc: Global, unit: &Unit) -> Result<Option<Finding>, AllocError>
    ensures { IfOk result (λ finding. finding ≡ value_finding (unit_of unit.now)) }
{
    match &unit.crowd {
        Some(crowd) => judge(
            alloc,
            Wanted::Value,
            order(unit.begun),
            behind(unit.gathering.symbols(), crowd.extent.symbols),
            crowd.operands.as_slice(),
        ),
        None => Ok(None),
    }
}

/// Notes in `locals` those that the value at hand of `unit` names.
fn name_value(locals: &mut Locals, unit: &Unit)
    ensures { listed locals.new ≡ value_named (unit_of unit.now) (listed locals.old) }
{
    match &unit.crowd {
        Some(crowd) => {
            let leaves = behind(unit.gathering.leaves(), crowd.extent.leaves);
            name_locals(locals, &unit.tokens, leaves);
        }
        None => {}
    }
}

impl<B: Bounds> Compilation<B> {
    /// Ends the value at hand of a unit that has more values than code may have bytes for. It is kept where it tells something.
    pub fn sift_value(&mut self, context: &Context<'_>) -> Result<(), AllocError>
        ensures { OnOk result (work self.new ≡ value_sifted (handed context.now) (work self.old)) }
    {
        let hashing = self.output.names.hashing();
        self.unit.begin_crowd(self.alloc, hashing);
        bring_value(&mut self.unit, context.settings, &self.locals, &self.output)?;
        name_value(&mut self.locals, &self.unit);
        let finding = value_finding(self.alloc, &self.unit)?;
        self.unit.sift_value(finding);
        Ok(())
    }
}
