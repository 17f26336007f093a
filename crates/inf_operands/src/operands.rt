//! The operands of a unit's leaves.
ghost use Rattle.std.specs.Prelude.{◌≡◌, ◌≤◌, [], ◌∷◌, ◌++◌, List, IfOk, IfSome, None, OnOk, length, option_map};
ghost use Rattle.inf_names.specs.LocalList.{listed};
ghost use Rattle.inf_unit.specs.NameTokens.{named};
ghost use Rattle.inf_operands.specs.{OperandLists.operands_in, Texts.text_at};
ghost use Rattle.inf_operands.specs.Operands.{Settled, found_operand, function_of, is_stack, leaf_added, leaf_named, leaves_named, looked};
ghost use Rattle.inf_operands.specs.Operands.{looked_action, looked_alone, looked_by, looked_leaf, looked_name, new_action, one_added};
ghost use Rattle.inf_operands.specs.Operands.{operand_by};
ghost use Rattle.inf_operands.specs.Operands.{referring, settled, settled_action, settled_alone, settled_as, settled_leaf, settled_name};
ghost use Rattle.inf_operands.specs.Operands.{settled_text, settled_word, standing, stores_named, system_constant, system_operand};
ghost use Rattle.inf_operands.specs.Operands.{word_operand, word_sum};

use crate::operand_lists::OperandList;
use inf_area::{AreaName, Scale, SystemConstant, Target};
use inf_expressions::{Function, Operand};
use inf_gathering::gathering::Leaf;
use inf_names::locals::Locals;
use inf_names::meanings::{Function as NamedFunction, Meaning};
use inf_names::symbols::{Found, Symbols};
use inf_output::{Output, action_key};
use inf_scanner::{DictionaryWord, Place};
use inf_settings::bounds::{Bounds, Unbounded};
use inf_tables::WordUse;
use inf_text::CharSet;
use inf_unit::items::Item;
use inf_unit::texts::text_of;
use inf_unit::unit_tokens::{NameToken, UnitTokens};
use std::alloc::{AllocError, Global};

fn function_of(function: NamedFunction) -> Function
    ensures { result ≡ function_of function }
{
    match function {
        NamedFunction::Child => Function::Child,
        NamedFunction::Parent => Function::Parent,
        NamedFunction::Sibling => Function::Sibling,
        NamedFunction::Children => Function::Children,
        NamedFunction::Random => Function::Random,
        NamedFunction::Indirect => Function::Indirect,
    }
}

fn standing(meaning: Meaning) -> Option<Operand>
    ensures { result ≡ standing meaning }
{
    match meaning {
        Meaning::Variable(number) => Some(Operand::Variable(number)),
        Meaning::Attribute(number) | Meaning::Property { number, .. } => {
            Some(Operand::Known(number as u16))
        }
        Meaning::Number(number)
        | Meaning::IndividualProperty(number)
        | Meaning::Object(number)
        | Meaning::Class(number)
        | Meaning::FakeAction(number) => Some(Operand::Known(number)),
        Meaning::Function(function) => Some(Operand::Function(function_of(function))),
        Meaning::Text(_)
        | Meaning::Word(_)
        | Meaning::LowString(_)
        | Meaning::Array(_)
        | Meaning::Routine(_)
        | Meaning::PackedAddress(_) => None,
    }
}

fn referring(number: Option<usize>) -> Operand
    ensures { result ≡ referring number }
{
    Operand::Later(Target::Name(number.unwrap_or(0)))
}

fn operand_by(known: Option<Operand>, number: Option<usize>) -> Operand
    ensures { result ≡ operand_by known number }
{
    match known {
        Some(operand) => operand,
        None => referring(number),
    }
}

/// Returns the operand of a name, by `found`, the result of looking for it, and `number`, its number among the names; without one the operand
/// of a name that is known later is any reference.
pub fn found_operand(found: Found<Place>, number: Option<usize>) -> Operand
    ensures { result ≡ found_operand found number }
{
    match found {
        Found::System(meaning) | Found::Declared(meaning, _) => {
            operand_by(standing(meaning), number)
        }
        Found::Used | Found::Unknown => referring(number),
    }
}

/// Returns the operand of `name`, which is no local and is only looked up in `names`.
#[inline(always)]
pub(crate) fn looked_outside<B: Bounds>(names: &Symbols<Place, B>, name: &[u8]) -> Operand
    requires { length name.now ≤ 35 }
    ensures { result ≡ looked_by None name.now names.now }
{
    let (found, number) = names.find(name);
    found_operand(found, number)
}

/// Returns the operand of `name`, which is only looked up in `names`. A local of `locals` hides it.
#[inline(always)]
pub fn looked_name<B: Bounds>(locals: &Locals, names: &Symbols<Place, B>, name: &[u8]) -> Operand
    requires { length name.now ≤ 35 }
    ensures { result ≡ looked_name (listed locals.now) names.now name.now }
{
    match locals.number(name) {
        Some(local) => Operand::Variable(local),
        None => looked_outside(names, name),
    }
}

/// Returns whether `name`, which is that of `local` or of none, is the stack in an assembly line.
pub fn is_stack(name: &[u8], local: Option<u8>) -> bool
    ensures { result ≡ is_stack name.now local }
{
    match local {
        Some(_) => false,
        None => name.eq_ignore_ascii_case(b"sp"),
    }
}

/// Returns the operand of `name`, an operand of an assembly line by itself, which is only looked up in `names`.
fn looked_alone<B: Bounds>(locals: &Locals, names: &Symbols<Place, B>, name: &[u8]) -> Operand
    requires { length name.now ≤ 35 }
    ensures { result ≡ looked_alone (listed locals.now) names.now name.now }
{
    match locals.number(name) {
        Some(local) => Operand::Variable(local),
        None if is_stack(name, None) => Operand::Variable(0),
        None => looked_outside(names, name),
    }
}

fn word_operand(word: DictionaryWord) -> Operand
    ensures { result ≡ word_operand word }
{
    Operand::Later(Target::Word(word.text))
}

/// Returns the constant of the story as a whole that `name` asks for, if it is that of such a constant.
fn system_constant(name: &[u8]) -> Option<SystemConstant>
    ensures { result ≡ system_constant name.now }
{
    if name.eq_ignore_ascii_case(b"grammar_table") {
        Some(SystemConstant::GrammarTable)
    } else if name.eq_ignore_ascii_case(b"actions_table") {
        Some(SystemConstant::ActionsTable)
    } else if name.eq_ignore_ascii_case(b"preactions_table") {
        Some(SystemConstant::PreactionsTable)
    } else if name.eq_ignore_ascii_case(b"dictionary_table") {
        Some(SystemConstant::DictionaryTable)
    } else if name.eq_ignore_ascii_case(b"classes_table") {
        Some(SystemConstant::ClassesTable)
    } else if name.eq_ignore_ascii_case(b"globals_array") {
        Some(SystemConstant::GlobalsArray)
    } else if name.eq_ignore_ascii_case(b"readable_memory_offset") {
        Some(SystemConstant::ReadableMemoryOffset)
    } else if name.eq_ignore_ascii_case(b"code_offset") {
        Some(SystemConstant::CodeOffset)
    } else if name.eq_ignore_ascii_case(b"strings_offset") {
        Some(SystemConstant::StringsOffset)
    } else if name.eq_ignore_ascii_case(b"highest_object_number") {
        Some(SystemConstant::HighestObjectNumber)
    } else {
        None
    }
}

/// Returns the operand of the system constant `name`, in a story whose packed addresses are multiplied by `scale`: the version of the story
/// is known, every other number when the story is laid out (Designer's Manual, fourth edition, section 39). A name of no system constant is
/// `Unknown`.
pub fn system_operand(name: &[u8], scale: Scale) -> Operand
    ensures { result ≡ system_operand name.now scale }
{
    if name.eq_ignore_ascii_case(b"version_number") {
        return Operand::Known(u16::from(scale.version()));
    }
    match system_constant(name) {
        Some(constant) => Operand::Later(Target::System(constant)),
        None => Operand::Unknown,
    }
}

#[inline(always)]
pub(crate) fn looked<B: Bounds>(
    locals: &Locals,
    names: &Symbols<Place, B>,
    scale: Scale,
    tokens: &UnitTokens,
    leaf: Leaf,
) -> Operand
    ensures { result ≡ looked (listed locals.now) names.now scale tokens.now leaf }
{
    match leaf {
        Leaf::Name(at) => looked_name(locals, names, tokens.bytes_at(at)),
        Leaf::Alone(at) => looked_alone(locals, names, tokens.bytes_at(at)),
        Leaf::Number(number) => Operand::Known(number),
        Leaf::Char(zscii) => Operand::Known(u16::from(zscii.code())),
        Leaf::Word(word) => word_operand(word),
        Leaf::Text(_) => Operand::Later(Target::Place(AreaName::Strings, 0)),
        Leaf::Action(_) => Operand::Unknown,
        Leaf::System(at) => system_operand(tokens.bytes_at(at), scale),
    }
}

/// Returns the sum of two numbers, modulo 65536.
fn word_sum(a: usize, b: usize) -> u16
    ensures { result ≡ word_sum a b }
{
    ((a % 65536 + b % 65536) % 65536) as u16
}

/// Returns the number of an action that did not appear and is only looked up, behind the new actions of `ahead`, and adds it to these.
fn new_action<B: Bounds>(
    name: NameToken<'_>,
    out: &Output<B>,
    ahead: &mut Symbols<Place, Unbounded>,
) -> Result<u16, AllocError>
    requires { length name.bytes.now ≤ 32 }
    ensures { IfOk result (λ number. (ahead.new, number) ≡ new_action (named name.entry) out.now ahead.old) }
{
    let key = action_key(name.bytes);
    match ahead.refer(key.as_slice(), name.place) {
        Ok(number) => Ok(word_sum(out.seen.len(), number.unwrap_or(0))),
        Err(_) => Err(AllocError),
    }
}

/// Looks up the number of the action `name` in `out`: its own, or, where the action did not appear, the next number behind those of
/// `ahead`, which were looked up before; it is then one of these. Without a name the number is 0.
pub fn looked_action<B: Bounds>(
    name: Option<NameToken<'_>>,
    out: &Output<B>,
    ahead: &mut Symbols<Place, Unbounded>,
) -> Result<Operand, AllocError>
    requires { IfSome name (λ n. length n.bytes.now ≤ 32) }
    ensures { IfOk result (λ operand. (ahead.new, operand) ≡ looked_action (option_map named name.entry) out.now ahead.old) }
{
    let Some(name) = name else {
        return Ok(Operand::Known(0));
    };
    match out.action_number(name.bytes) {
        Some(number) => Ok(Operand::Known(number)),
        None => Ok(Operand::Known(new_action(name, out, ahead)?)),
    }
}

fn settled_action<B: Bounds>(
    name: Option<NameToken<'_>>,
    out: &mut Output<B>,
) -> Result<Operand, AllocError>
    requires { IfSome name (λ n. length n.bytes.now ≤ 32) }
    ensures { IfOk result (λ operand. (out.new, operand) ≡ settled_action B.most (option_map named name.entry) out.old) }
{
    match name {
        Some(name) => Ok(Operand::Known(out.action(name.bytes, name.place)?)),
        None => Ok(Operand::Known(0)),
    }
}

/// Returns the operand of `leaf`, a leaf of a unit with `tokens`, where its name is only looked up, behind the new actions of `ahead`.
pub fn looked_leaf<B: Bounds>(
    locals: &Locals,
    out: &Output<B>,
    tokens: &UnitTokens,
    leaf: Leaf,
    ahead: &mut Symbols<Place, Unbounded>,
) -> Result<Operand, AllocError>
    ensures { IfOk result (λ operand. (ahead.new, operand) ≡ looked_leaf (listed locals.now) out.now tokens.now leaf ahead.old) }
{
    match leaf {
        Leaf::Action(at) => looked_action(tokens.name_at(at), out, ahead),
        _ => Ok(looked(locals, &out.names, out.code.scale(), tokens, leaf)),
    }
}

fn settled_as(found: Option<(Found<Place>, Option<usize>)>) -> Operand
    ensures { result ≡ settled_as found }
{
    match found {
        Some((found, number)) => found_operand(found, number),
        None => Operand::Known(0),
    }
}

/// Uses `name`, where it is no local of `locals`, and returns its operand.
#[inline(always)]
fn settled_name<B: Bounds>(
    locals: &Locals,
    name: Option<NameToken<'_>>,
    out: &mut Output<B>,
) -> Result<Operand, AllocError>
    requires { IfSome name (λ n. length n.bytes.now ≤ 32) }
    ensures { IfOk result (λ operand. (out.new, operand) ≡ settled_name B.most (listed locals.now) (option_map named name.entry) out.old) }
{
    let Some(name) = name else {
        return Ok(Operand::Known(0));
    };
    match locals.number(name.bytes) {
        Some(local) => Ok(Operand::Variable(local)),
        None => Ok(settled_as(out.refer(name.bytes, name.place)?)),
    }
}

/// Uses the name at `at` of `tokens`, an operand of an assembly line by itself, and returns its operand.
fn settled_alone<B: Bounds>(
    locals: &Locals,
    tokens: &UnitTokens,
    at: usize,
    out: &mut Output<B>,
) -> Result<Operand, AllocError>
    ensures { IfOk result (λ operand. (out.new, operand) ≡ settled_alone B.most (listed locals.now) tokens.now at out.old) }
{
    let name = tokens.bytes_at(at);
    if is_stack(name, locals.number(name)) {
        return Ok(Operand::Variable(0));
    }
    settled_name(locals, tokens.name_at(at), out)
}

/// Adds the text at `at` of `tokens`, read by `set`, to the strings of the story, and returns the string as an operand.
fn settled_text<B: Bounds>(
    alloc: Global,
    set: CharSet,
    tokens: &UnitTokens,
    at: usize,
    out: &mut Output<B>,
) -> Result<Operand, AllocError>
    ensures { IfOk result (λ operand. (out.new, operand) ≡ settled_text B.most (text_at set tokens.now at) out.old) }
{
    let Some(token) = tokens.get(at) else {
        return Ok(Operand::Unknown);
    };
    let Some(text) = text_of(alloc, set, &token)? else {
        return Ok(Operand::Unknown);
    };
    let packed = out.texts.pack(alloc, &text)?;
    let target = out.string(packed.as_slice())?;
    Ok(Operand::Later(target))
}

fn settled_word<B: Bounds>(word: DictionaryWord, out: &mut Output<B>) -> Result<Operand, AllocError>
    ensures { IfOk result (λ operand. (out.new, operand) ≡ settled_word B.most word out.old) }
{
    out.word(word.text, WordUse::Other, word.is_plural)?;
    Ok(word_operand(word))
}

/// Adds to `out` the texts, read by `set`, the words and the actions among `leaves`, the leaves of a unit with `tokens`.
pub fn add_leaf<B: Bounds>(
    alloc: Global,
    set: CharSet,
    tokens: &UnitTokens,
    leaves: &[Leaf],
    out: &mut Output<B>,
) -> Result<(), AllocError>
    ensures { OnOk result (out.new ≡ leaf_added B.most set tokens.now leaves.now out.old) }
{
    for leaf in leaves {
        add_one(alloc, set, tokens, *leaf, out)?;
    }
    Ok(())
}

/// Adds `leaf`, a leaf of a unit with `tokens`, to `out` where it is a text, read by `set`, a word or an action.
fn add_one<B: Bounds>(
    alloc: Global,
    set: CharSet,
    tokens: &UnitTokens,
    leaf: Leaf,
    out: &mut Output<B>,
) -> Result<(), AllocError>
    ensures { OnOk result (out.new ≡ one_added B.most set tokens.now leaf out.old) }
{
    match leaf {
        Leaf::Text(at) => {
            settled_text(alloc, set, tokens, at, out)?;
        }
        Leaf::Word(word) => {
            settled_word(word, out)?;
        }
        Leaf::Action(at) => {
            settled_action(tokens.name_at(at), out)?;
        }
        _ => {}
    }
    Ok(())
}

/// Returns the operand of `leaf`, a leaf of a unit with `tokens`, whose name or word is used, and whose text, read by `set`, is added.
#[inline(always)]
fn settled_leaf<B: Bounds>(
    alloc: Global,
    set: CharSet,
    locals: &Locals,
    tokens: &UnitTokens,
    leaf: Leaf,
    out: &mut Output<B>,
) -> Result<Operand, AllocError>
    ensures { IfOk result (λ operand. (out.new, operand) ≡ settled_leaf B.most set (listed locals.now) tokens.now leaf out.old) }
{
    match leaf {
        Leaf::Name(at) => settled_name(locals, tokens.name_at(at), out),
        Leaf::Alone(at) => settled_alone(locals, tokens, at, out),
        Leaf::Number(number) => Ok(Operand::Known(number)),
        Leaf::Char(zscii) => Ok(Operand::Known(u16::from(zscii.code()))),
        Leaf::Word(word) => settled_word(word, out),
        Leaf::Text(at) => settled_text(alloc, set, tokens, at, out),
        Leaf::Action(at) => settled_action(tokens.name_at(at), out),
        Leaf::System(at) => Ok(system_operand(tokens.bytes_at(at), out.code.scale())),
    }
}

/// Returns the operands of `leaves`, the leaves of a unit with `tokens`, from left to right, whose routine has `locals`. Their names and
/// words are used, and their texts, read by `set`, are added to `out`.
pub fn settled<B: Bounds>(
    alloc: Global,
    set: CharSet,
    locals: &Locals,
    tokens: &UnitTokens,
    leaves: &[Leaf],
    out: &mut Output<B>,
) -> Result<OperandList, AllocError>
    ensures { let before : Settled = record { out = out.old; operands = [] } in
        IfOk result (λ operands. record { out = out.new; operands = operands_in operands } ≡ settled B.most set (listed locals.now)
        tokens.now leaves.now before) }
{
    if let [leaf] = *leaves {
        let operand = settled_leaf(alloc, set, locals, tokens, leaf, out)?;
        return Ok(OperandList::One([operand]));
    }
    let mut operands = Vec::with_capacity(alloc, leaves.len())?;
    settle_all(alloc, set, locals, tokens, leaves, out, &mut operands)?;
    Ok(OperandList::Many(operands))
}

/// Puts the operands of `leaves` into `operands`, in place of what is there. The leaves are used and added to `out` as by `settled`.
pub fn settle_all<B: Bounds>(
    alloc: Global,
    set: CharSet,
    locals: &Locals,
    tokens: &UnitTokens,
    leaves: &[Leaf],
    out: &mut Output<B>,
    operands: &mut Vec<Operand>,
) -> Result<(), AllocError>
    ensures { let before : Settled = record { out = out.old; operands = [] } in
        OnOk result (record { out = out.new; operands = operands.new.items } ≡ settled B.most set (listed locals.now) tokens.now
        leaves.now before) }
{
    operands.clear();
    for leaf in leaves {
        operands.push(settled_leaf(alloc, set, locals, tokens, *leaf, out)?)?;
    }
    Ok(())
}

/// Notes the local that a leaf names, of a unit with `tokens`.
fn name_leaf(locals: &mut Locals, tokens: &UnitTokens, leaf: Leaf)
    ensures { listed locals.new ≡ leaf_named tokens.now leaf (listed locals.old) }
{
    match leaf {
        Leaf::Name(at) | Leaf::Alone(at) => locals.name(tokens.bytes_at(at)),
        _ => {}
    }
}

/// Notes in `locals` each local that a leaf of `leaves` names, of a unit with `tokens`.
pub fn name_locals(locals: &mut Locals, tokens: &UnitTokens, leaves: &[Leaf])
    ensures { listed locals.new ≡ leaves_named tokens.now leaves.now (listed locals.old) }
{
    for leaf in leaves {
        name_leaf(locals, tokens, *leaf);
    }
}

/// Notes in `locals` each local in which an item of `items` stores, of a unit with `tokens`.
pub fn name_stores(locals: &mut Locals, tokens: &UnitTokens, items: &[Item])
    ensures { listed locals.new ≡ stores_named tokens.now items.now (listed locals.old) }
{
    for item in items {
        if let Item::Store(at) = item {
            locals.name(tokens.bytes_at(*at));
        }
    }
}
