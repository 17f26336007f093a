//! The expressions of a unit, made from their symbols.
ghost use Rattle.std.specs.Prelude.{◌≡◌, [], ◌∷◌, IfOk, OnOk, List, ℕ};
ghost use Rattle.inf_expressions.specs.{Forests.trees_in, declared.operators.Operand.Operand as Standing, declared.symbols.Symbol.Symbol};
ghost use Rattle.inf_expressions.specs.Units.{acted, gathered, judged, nothing_gathered, operand_at, roots_finding, trees_of};

use crate::findings::Finding;
use crate::forest::Forest;
use crate::judging::{leaf_finding, root_finding};
use crate::kinds::{Seen, kind_of_leaf};
use crate::operators::Operand;
use crate::origins::Origin;
use crate::symbols::Symbol;
use crate::trees::{Gathered, seen};
use std::alloc::{AllocError, Global};

/// The kind that a unit wants each of its expressions to be.
#[derive(Clone, Copy)]
pub enum Wanted {
    Value,
    /// A constant: a known number, or one that is known only when the story is laid out.
    Constant,
    /// A known number.
    Number,
    /// A constant or a variable.
    Operand,
    /// A constant, or a range of constants. A comma outside of brackets parts two of them.
    Case,
    /// The condition of a loop over objects, which begins with the loop's variable.
    Loop,
}

fn operand_at(operands: &[Operand], leaf: usize) -> Operand
    ensures { result ≡ operand_at operands.now leaf }
{
    match operands.get(leaf) {
        Some(operand) => *operand,
        None => Operand::Known(0),
    }
}

/// Reads one more symbol.
fn act(
    gathered: &mut Gathered,
    wanted: Wanted,
    unit: u32,
    operands: &[Operand],
    symbol: Symbol,
) -> Result<(), AllocError>
    ensures { OnOk result (gathered.new ≡ acted wanted unit operands.now symbol gathered.old) }
{
    match symbol {
        Symbol::Leaf { first, token, leaf } => gathered.leaf(
            first,
            token,
            operand_at(operands, leaf),
        ),
        Symbol::Bracketed(order) => gathered.bracketed(order),
        Symbol::Prefix(order, op) => gathered.unary(op, Some(order)),
        Symbol::Suffix(op) => gathered.unary(op, None),
        Symbol::Two(op) => gathered.two(unit, op),
        Symbol::Comma => gathered.comma(wanted, unit),
        Symbol::List(joints) => gathered.list(unit, joints),
        Symbol::Call(given) => gathered.call(unit, given),
    }
}

/// Reads all symbols, in the memory of `spare`, if there is some.
#[inline(always)]
fn gather(
    alloc: Global,
    wanted: Wanted,
    unit: u32,
    symbols: &[Symbol],
    operands: &[Operand],
    spare: Option<Forest>,
) -> Result<Gathered, AllocError>
    ensures { IfOk result (λ g. g ≡ gathered wanted unit operands.now symbols.now nothing_gathered) }
{
    let mut gathered = Gathered::begun(alloc, symbols.len(), spare)?;
    for symbol in symbols {
        act(&mut gathered, wanted, unit, operands, *symbol)?;
    }
    Ok(gathered)
}

/// Returns the least of `finding` and of the errors of whole expressions.
#[inline(always)]
fn found_of(wanted: Wanted, unit: u32, forest: &Forest, finding: Option<Finding>) -> Option<Finding>
    ensures { result ≡ roots_finding wanted unit (trees_in forest.now) finding }
{
    let mut found = finding;
    for root in &forest.roots {
        found = root_finding(wanted, unit, seen(&forest.nodes, *root), found);
    }
    found
}

/// Returns the least finding of a unit of a single leaf. Most units are of this kind, and no tree is made to judge them.
fn judge_leaf(
    wanted: Wanted,
    unit: u32,
    first: u32,
    token: u32,
    operand: Operand,
) -> Option<Finding>
    ensures { (operands : List Standing) (leaf : ℕ) → operand ≡ operand_at operands leaf →
        result ≡ judged wanted unit operands (Symbol.Leaf first token leaf ∷ []) }
{
    let seen = Seen {
        kind: kind_of_leaf(operand),
        origin: Origin::of_leaf(first, token, operand),
    };
    root_finding(wanted, unit, seen, leaf_finding(operand, token, None))
}

/// Returns the least finding of a unit whose first token has the order `unit`, or `None` where it has no error.
///
/// The operands are those that the look-up of names gave; judging changes nothing. A symbol whose place has no operand is the
/// number 0. Fails where no memory is left.
pub fn judge(
    alloc: Global,
    wanted: Wanted,
    unit: u32,
    symbols: &[Symbol],
    operands: &[Operand],
) -> Result<Option<Finding>, AllocError>
    ensures { IfOk result (λ found. found ≡ judged wanted unit operands.now symbols.now) }
{
    if symbols.is_empty() {
        return Ok(None);
    }
    if let [Symbol::Leaf { first, token, leaf }] = *symbols {
        let operand = operand_at(operands, leaf);
        return Ok(judge_leaf(wanted, unit, first, token, operand));
    }
    let (finding, _) = judge_whole(alloc, wanted, unit, symbols, operands, None)?;
    Ok(finding)
}

/// Returns the trees of a unit, in the order of their texts. The trees of a unit with an error are of no use.
///
/// Fails where no memory is left.
pub fn build(
    alloc: Global,
    wanted: Wanted,
    unit: u32,
    symbols: &[Symbol],
    operands: &[Operand],
) -> Result<Forest, AllocError>
    ensures { IfOk result (λ forest. trees_in forest ≡ trees_of wanted unit operands.now symbols.now) }
{
    let (_, forest) = judge_whole(alloc, wanted, unit, symbols, operands, None)?;
    Ok(forest)
}

/// Returns the least finding of a unit, as `judge` does, and its trees, as `build` does, from one walk over `symbols`. The trees are in
/// the memory of those of `spare`, if there are some.
///
/// Fails where no memory is left.
pub fn judge_whole(
    alloc: Global,
    wanted: Wanted,
    unit: u32,
    symbols: &[Symbol],
    operands: &[Operand],
    spare: Option<Forest>,
) -> Result<(Option<Finding>, Forest), AllocError>
    ensures finding { IfOk result (λ whole. whole.0 ≡ judged wanted unit operands.now symbols.now) }
    ensures trees { IfOk result (λ whole. trees_in whole.1 ≡ trees_of wanted unit operands.now symbols.now) }
{
    let gathered = gather(alloc, wanted, unit, symbols, operands, spare)?;
    let (forest, finding) = gathered.into_parts();
    let found = found_of(wanted, unit, &forest, finding);
    Ok((found, forest))
}
