//! The operands of the names of a condition.
ghost use Rattle.std.specs.Prelude.{◌≡◌, ◌≤◌, IfOk, IfSome, OnOk, length, option_map};
ghost use Rattle.inf_unit.specs.NameTokens.{named};
ghost use Rattle.inf_conditionals.specs.Operands.{action_added, actions_added, appeared_by, bytes_of, leaf_operand, name_operand};
ghost use Rattle.inf_conditionals.specs.Operands.{operand_behind, operands_of};

use inf_area::{Scale, Target};
use inf_expressions::Operand;
use inf_gathering::gathering::Leaf;
use inf_names::symbols::Symbols;
use inf_operands::operands::{found_operand, looked_action, system_operand};
use inf_output::Output;
use inf_scanner::Place;
use inf_settings::bounds::{Bounds, Unbounded};
use inf_unit::unit_tokens::{NameToken, UnitTokens};
use std::alloc::{AllocError, Global};

/// A name that is known later. No code asks for its number.
pub(crate) const LATER: Operand = Operand::Later(Target::Name(0));

/// Returns the operand in a condition of `name`, where `declared` names were declared by the directives before.
pub(crate) fn name_operand<B: Bounds>(
    declared: usize,
    names: &Symbols<Place, B>,
    name: &[u8],
) -> Operand
    requires { length name.now ≤ 35 }
    ensures { result ≡ name_operand declared names.now name.now }
{
    if names.declared_before(name, declared) {
        found_operand(names.look(name), None)
    } else {
        LATER
    }
}

/// Returns the bytes of a name, if there is one.
pub(crate) fn bytes_of<'t>(name: Option<NameToken<'t>>) -> &'t [u8]
    requires { IfSome name (λ n. length n.bytes.now ≤ 32) }
    ensures value { result.now ≡ bytes_of (option_map named name.entry) }
    ensures few { length result.now ≤ 32 }
{
    match name {
        Some(name) => name.bytes,
        None => b"",
    }
}

/// Returns the operand of `leaf`, a leaf of a condition with `tokens`, where `declared` names were declared by the directives before.
fn leaf_operand<B: Bounds>(
    declared: usize,
    names: &Symbols<Place, B>,
    scale: Scale,
    tokens: &UnitTokens,
    leaf: Leaf,
) -> Operand
    ensures { result ≡ leaf_operand declared names.now scale tokens.now leaf }
{
    match leaf {
        Leaf::Name(at) | Leaf::Alone(at) => {
            name_operand(declared, names, bytes_of(tokens.name_at(at)))
        }
        Leaf::Number(number) => Operand::Known(number),
        Leaf::Char(zscii) => Operand::Known(u16::from(zscii.code())),
        Leaf::Word(_) | Leaf::Text(_) => LATER,
        Leaf::Action(_) => Operand::Unknown,
        Leaf::System(at) => system_operand(tokens.bytes_at(at), scale),
    }
}

/// Returns the operand of `leaf`, a leaf of a condition with `tokens`, behind other leaves with the new actions of `ahead`.
fn operand_behind<B: Bounds>(
    declared: usize,
    out: &Output<B>,
    tokens: &UnitTokens,
    leaf: Leaf,
    ahead: &mut Symbols<Place, Unbounded>,
) -> Result<Operand, AllocError>
    ensures { IfOk result (λ operand. (ahead.new, operand) ≡ operand_behind declared out.now tokens.now leaf ahead.old) }
{
    match leaf {
        Leaf::Action(at) => looked_action(tokens.name_at(at), out, ahead),
        _ => Ok(leaf_operand(declared, &out.names, out.code.scale(), tokens, leaf)),
    }
}

/// Returns the operands of `leaves`, the leaves of a condition with `tokens`, where `declared` names were declared by the directives
/// before.
pub(crate) fn operands_of<B: Bounds>(
    alloc: Global,
    declared: usize,
    out: &Output<B>,
    tokens: &UnitTokens,
    leaves: &[Leaf],
) -> Result<Vec<Operand>, AllocError>
    ensures { IfOk result (λ operands. operands.items ≡ operands_of declared out.now tokens.now leaves.now) }
{
    let mut ahead = Symbols::<Place, Unbounded>::new(alloc, u32::MAX, false, out.names.hashing());
    let mut operands = Vec::with_capacity(alloc, leaves.len())?;
    for leaf in leaves {
        operands.push(operand_behind(declared, out, tokens, *leaf, &mut ahead)?)?;
    }
    Ok(operands)
}

/// Lets an action appear, if there is one.
fn add_action<B: Bounds>(name: Option<NameToken<'_>>, out: &mut Output<B>) -> Result<(), AllocError>
    requires { IfSome name (λ n. length n.bytes.now ≤ 32) }
    ensures { OnOk result (out.new ≡ appeared_by B.most (option_map named name.entry) out.old) }
{
    if let Some(name) = name {
        out.action(name.bytes, name.place)?;
    }
    Ok(())
}

/// Lets the action appear that a leaf of a condition with `tokens` is, if it is one.
fn add_leaf<B: Bounds>(
    tokens: &UnitTokens,
    leaf: Leaf,
    out: &mut Output<B>,
) -> Result<(), AllocError>
    ensures { OnOk result (out.new ≡ action_added B.most tokens.now leaf out.old) }
{
    match leaf {
        Leaf::Action(at) => add_action(tokens.name_at(at), out),
        _ => Ok(()),
    }
}

/// Lets the actions among the leaves of a condition with `tokens` appear.
pub(crate) fn add_actions<B: Bounds>(
    tokens: &UnitTokens,
    leaves: &[Leaf],
    out: &mut Output<B>,
) -> Result<(), AllocError>
    ensures { OnOk result (out.new ≡ actions_added B.most tokens.now leaves.now out.old) }
{
    for leaf in leaves {
        add_leaf(tokens, *leaf, out)?;
    }
    Ok(())
}
