//! The operands of a unit's leaves, where their names are only looked up.
ghost use Rattle.std.specs.Prelude.{◌≡◌, IfOk, IfSome, OnOk, false, true};
ghost use Rattle.inf_gathering.specs.declared.gathering.Leaf.{Leaf};
ghost use Rattle.inf_names.specs.{LocalList.listed, Symbols.Table, Symbols.no_names};
ghost use Rattle.inf_scanner.specs.declared.tokens.Place.{Place as SourcePlace};
ghost use Rattle.inf_operands.specs.{OperandLists.operands_in, Uses.LeafStays, Uses.LeavesStay, Uses.is_new};
ghost use Rattle.inf_operands.specs.Operands.{all_looked, looked, looked_from, looked_leaf};

use crate::operand_lists::OperandList;
use crate::operands::{looked, looked_leaf};
use inf_area::Target;
use inf_expressions::Operand;
use inf_gathering::gathering::Leaf;
use inf_names::locals::Locals;
use inf_names::symbols::Symbols;
use inf_output::Output;
use inf_scanner::Place;
use inf_settings::bounds::{Bounds, Unbounded};
use inf_unit::unit_tokens::UnitTokens;
use std::alloc::{AllocError, Global};

fn is_new(count: usize, operand: Operand) -> bool
    ensures { result ≡ is_new count operand }
{
    match operand {
        Operand::Later(Target::Name(number)) => count <= number,
        _ => false,
    }
}

/// Returns whether the use of the name at `at` of `tokens` is known to change nothing in `out` and to give `operand`, as looking it up
/// does: it is no new name.
#[tactic(auto, using(crate::proofs::Staying::named_stays, crate::proofs::Staying::alone_stays))]
fn name_stays<B: Bounds>(out: &Output<B>, tokens: &UnitTokens, at: usize, operand: Operand) -> bool
    ensures name { result ≡ true → LeafStays out.now tokens.now (Leaf.Name at) operand }
    ensures alone { result ≡ true → LeafStays out.now tokens.now (Leaf.Alone at) operand }
{
    if is_new(out.names.len(), operand) {
        return false;
    }
    tokens.name_at(at).is_some()
}

/// Returns whether the use of the name of `leaf`, a leaf of a unit with `tokens`, is known to change nothing in `out` and to give
/// `operand`, as looking it up does.
#[tactic(auto, using(crate::proofs::Staying::number_stays, crate::proofs::Staying::char_stays, crate::proofs::Staying::system_stays))]
pub(crate) fn stays<B: Bounds>(
    out: &Output<B>,
    tokens: &UnitTokens,
    leaf: Leaf,
    operand: Operand,
) -> bool
    ensures { result ≡ true → LeafStays out.now tokens.now leaf operand }
{
    match leaf {
        Leaf::Name(at) => name_stays(out, tokens, at, operand),
        Leaf::Alone(at) => name_stays(out, tokens, at, operand),
        Leaf::Number(_) | Leaf::Char(_) | Leaf::System(_) => true,
        Leaf::Word(_) | Leaf::Text(_) | Leaf::Action(_) => false,
    }
}

/// Returns the operand of `leaf`, a leaf of a unit with `tokens`, where its name is only looked up; `None` where it is an action.
#[inline(always)]
fn looked_plainly<B: Bounds>(
    locals: &Locals,
    out: &Output<B>,
    tokens: &UnitTokens,
    leaf: Leaf,
) -> Option<Operand>
    ensures looked { IfSome result (λ operand. operand ≡ looked (listed locals.now) out.now.names out.now.code.scale tokens.now leaf) }
    ensures leaf { (ahead : Table SourcePlace) → IfSome result (λ operand.
        (ahead, operand) ≡ looked_leaf (listed locals.now) out.now tokens.now leaf ahead) }
{
    match leaf {
        Leaf::Action(_) => None,
        _ => Some(looked(locals, &out.names, out.code.scale(), tokens, leaf)),
    }
}

/// Adds the operands of `leaves`, the leaves of a unit with `tokens`, whose routine has `locals`, to `operands`. Their names are only looked
/// up in `out`, each new action behind those before it.
#[inline(never)]
pub(crate) fn look_ahead<B: Bounds>(
    alloc: Global,
    locals: &Locals,
    out: &Output<B>,
    tokens: &UnitTokens,
    leaves: &[Leaf],
    operands: &mut Vec<Operand>,
) -> Result<(), AllocError>
    ensures { OnOk result (operands.new.items
        ≡ looked_from (listed locals.now) out.now tokens.now leaves.now (no_names false) operands.old.items) }
{
    let mut ahead = Symbols::<Place, Unbounded>::new(alloc, u32::MAX, false, out.names.hashing());
    for leaf in leaves {
        operands.push(looked_leaf(locals, out, tokens, *leaf, &mut ahead)?)?;
    }
    Ok(())
}

/// Puts the operands of `leaves`, the leaves of a unit with `tokens`, whose routine has `locals`, into `operands`, in place of what is
/// there. Their names are only looked up in `out`. Returns whether the use of the names is known to change nothing and to give the same
/// operands.
///
/// Fails where no memory is left.
pub fn look_all<B: Bounds>(
    alloc: Global,
    locals: &Locals,
    out: &Output<B>,
    tokens: &UnitTokens,
    leaves: &[Leaf],
    operands: &mut Vec<Operand>,
) -> Result<bool, AllocError>
    ensures looked { OnOk result (operands.new.items ≡ all_looked (listed locals.now) out.now tokens.now leaves.now) }
    ensures stay { IfOk result (λ stay. stay ≡ true → LeavesStay (listed locals.now) out.now tokens.now leaves.now operands.new.items) }
{
    operands.clear();
    let mut stay = true;
    let mut left = leaves;
    while let Some((leaf, others)) = left.split_first() {
        let Some(operand) = looked_plainly(locals, out, tokens, *leaf) else {
            look_ahead(alloc, locals, out, tokens, left, operands)?;
            return Ok(false);
        };
        operands.push(operand)?;
        stay = stay & stays(out, tokens, *leaf, operand);
        left = others;
    }
    Ok(stay)
}

/// Returns the operand of `leaf`, the only leaf of a unit with `tokens`, where its name is only looked up.
fn looked_only<B: Bounds>(
    alloc: Global,
    locals: &Locals,
    out: &Output<B>,
    tokens: &UnitTokens,
    leaf: Leaf,
) -> Result<Operand, AllocError>
    ensures { IfOk result (λ operand. operand ≡ (looked_leaf (listed locals.now) out.now tokens.now leaf (no_names false)).1) }
{
    match leaf {
        Leaf::Action(_) => {
            let mut ahead = Symbols::<Place, Unbounded>::new(
                alloc,
                u32::MAX,
                false,
                out.names.hashing(),
            );
            looked_leaf(locals, out, tokens, leaf, &mut ahead)
        }
        _ => Ok(looked(locals, &out.names, out.code.scale(), tokens, leaf)),
    }
}

/// Returns the operands of `leaves`, the leaves of a unit with `tokens`, whose routine has `locals`. Their names are only looked up in
/// `out`.
pub fn all_looked<B: Bounds>(
    alloc: Global,
    locals: &Locals,
    out: &Output<B>,
    tokens: &UnitTokens,
    leaves: &[Leaf],
) -> Result<OperandList, AllocError>
    ensures { IfOk result (λ operands. operands_in operands ≡ all_looked (listed locals.now) out.now tokens.now leaves.now) }
{
    if let [leaf] = *leaves {
        let operand = looked_only(alloc, locals, out, tokens, leaf)?;
        return Ok(OperandList::One([operand]));
    }
    let mut operands = Vec::with_capacity(alloc, leaves.len())?;
    look_all(alloc, locals, out, tokens, leaves, &mut operands)?;
    Ok(OperandList::Many(operands))
}
