//! The operands of leaves whose names are only looked up: each local that a leaf names is noted as it is found.
ghost use Rattle.std.specs.Prelude.{◌≡◌, ◌≤◌, IfOk, IfSome, None, OnOk, false, length, true};
ghost use Rattle.inf_names.specs.{LocalList.listed, Locals.local_number, Locals.with_named, Symbols.Table, Symbols.no_names};
ghost use Rattle.inf_scanner.specs.declared.tokens.Place.{Place as SourcePlace};
ghost use Rattle.inf_operands.specs.Operands.{all_looked, leaf_named, leaves_named, looked, looked_alone, looked_from};
ghost use Rattle.inf_operands.specs.Operands.{looked_leaf, looked_name};
ghost use Rattle.inf_operands.specs.Uses.{LeavesStay};

use crate::looking::{look_ahead, stays};
use crate::operands::{is_stack, looked, looked_outside, name_locals};
use inf_expressions::Operand;
use inf_gathering::gathering::Leaf;
use inf_names::locals::Locals;
use inf_names::symbols::Symbols;
use inf_output::Output;
use inf_scanner::Place;
use inf_settings::bounds::Bounds;
use inf_unit::unit_tokens::UnitTokens;
use std::alloc::{AllocError, Global};

/// Notes that a statement names `name`, if it is one of `locals`, and returns its number then.
#[inline(always)]
fn note(locals: &mut Locals, name: &[u8]) -> Option<u8>
    ensures number { result ≡ local_number name.now (listed locals.old) }
    ensures named { listed locals.new ≡ with_named name.now (listed locals.old) }
{
    let number = locals.number(name)?;
    locals.list[usize::from(number) - 1].is_named = true;
    Some(number)
}

/// Returns the operand of `name`, which is only looked up in `names`. A local of `locals` hides it, and is noted as named.
#[inline(always)]
fn noted_name<B: Bounds>(locals: &mut Locals, names: &Symbols<Place, B>, name: &[u8]) -> Operand
    requires { length name.now ≤ 35 }
    ensures looked { result ≡ looked_name (listed locals.old) names.now name.now }
    ensures named { listed locals.new ≡ with_named name.now (listed locals.old) }
{
    match note(locals, name) {
        Some(local) => Operand::Variable(local),
        None => looked_outside(names, name),
    }
}

/// Returns the operand of `name`, an operand of an assembly line by itself, which is only looked up in `names`. A local of `locals` hides
/// it, and is noted as named.
fn noted_alone<B: Bounds>(locals: &mut Locals, names: &Symbols<Place, B>, name: &[u8]) -> Operand
    requires { length name.now ≤ 35 }
    ensures looked { result ≡ looked_alone (listed locals.old) names.now name.now }
    ensures named { listed locals.new ≡ with_named name.now (listed locals.old) }
{
    match note(locals, name) {
        Some(local) => Operand::Variable(local),
        None if is_stack(name, None) => Operand::Variable(0),
        None => looked_outside(names, name),
    }
}

/// Returns the operand of `leaf`, a leaf of a unit with `tokens`, where its name is only looked up, and notes the one of `locals` that it
/// names. Returns `None` where it is an action.
#[inline(always)]
fn noted<B: Bounds>(
    locals: &mut Locals,
    out: &Output<B>,
    tokens: &UnitTokens,
    leaf: Leaf,
) -> Option<Operand>
    ensures looked { IfSome result (λ operand. operand ≡ looked (listed locals.old) out.now.names out.now.code.scale tokens.now leaf) }
    ensures leaf { (ahead : Table SourcePlace) → IfSome result (λ operand.
        (ahead, operand) ≡ looked_leaf (listed locals.old) out.now tokens.now leaf ahead) }
    ensures named { listed locals.new ≡ leaf_named tokens.now leaf (listed locals.old) }
    ensures action { result ≡ None → listed locals.new ≡ listed locals.old }
{
    match leaf {
        Leaf::Action(_) => None,
        Leaf::Name(at) => Some(noted_name(locals, &out.names, tokens.bytes_at(at))),
        Leaf::Alone(at) => Some(noted_alone(locals, &out.names, tokens.bytes_at(at))),
        _ => Some(looked(locals, &out.names, out.code.scale(), tokens, leaf)),
    }
}

/// Looks up `leaves` as `look_ahead` does, and notes each local that they name.
#[inline(never)]
fn note_ahead<B: Bounds>(
    alloc: Global,
    locals: &mut Locals,
    out: &Output<B>,
    tokens: &UnitTokens,
    leaves: &[Leaf],
    operands: &mut Vec<Operand>,
) -> Result<(), AllocError>
    ensures looked { OnOk result (operands.new.items
        ≡ looked_from (listed locals.old) out.now tokens.now leaves.now (no_names false) operands.old.items) }
    ensures named { OnOk result (listed locals.new ≡ leaves_named tokens.now leaves.now (listed locals.old)) }
{
    look_ahead(alloc, locals, out, tokens, leaves, operands)?;
    name_locals(locals, tokens, leaves);
    Ok(())
}

/// Puts the operands of `leaves`, the leaves of a unit with `tokens`, whose routine has `locals`, into `operands`, in place of what is
/// there. Their names are only looked up in `out`, and each local that they name is noted. Returns whether the use of the names is known
/// to change nothing and to give the same operands.
///
/// Fails where no memory is left.
pub fn note_all<B: Bounds>(
    alloc: Global,
    locals: &mut Locals,
    out: &Output<B>,
    tokens: &UnitTokens,
    leaves: &[Leaf],
    operands: &mut Vec<Operand>,
) -> Result<bool, AllocError>
    ensures looked { OnOk result (operands.new.items ≡ all_looked (listed locals.old) out.now tokens.now leaves.now) }
    ensures stay { IfOk result (λ stay. stay ≡ true → LeavesStay (listed locals.old) out.now tokens.now leaves.now operands.new.items) }
    ensures named { OnOk result (listed locals.new ≡ leaves_named tokens.now leaves.now (listed locals.old)) }
{
    operands.clear();
    let mut stay = true;
    let mut left = leaves;
    while let Some((leaf, others)) = left.split_first() {
        let Some(operand) = noted(locals, out, tokens, *leaf) else {
            note_ahead(alloc, locals, out, tokens, left, operands)?;
            return Ok(false);
        };
        operands.push(operand)?;
        stay = stay & stays(out, tokens, *leaf, operand);
        left = others;
    }
    Ok(stay)
}
