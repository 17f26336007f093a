//! Expressions that have to be constants: each is judged and made into trees by one walk, in memory that is kept.
ghost use Rattle.std.specs.Prelude.{IfOk, OnOk, true, ◌≡◌};
ghost use Rattle.inf_expressions.specs.Forests.{trees_in as rooted_in};
ghost use Rattle.inf_operands.specs.Uses.{LeavesStay};

use crate::compilation::Compilation;
use inf_expressions::{Finding, Forest, Wanted, judge_whole};
use inf_operands::looking::look_all;
use inf_settings::bounds::Bounds;
use std::alloc::AllocError;

/// An expression that has to be a constant, whose names are only looked up.
#[derive(Drop)]
pub struct LookedConstant {
    /// The least finding about the expression, if there is one.
    pub finding: Option<Finding>,
    pub forest: Forest,
    /// Tells whether the use of the names is known to change nothing.
    pub stays: bool,
}

impl<B: Bounds> Compilation<B> {
    ghost use Rattle.inf_compilation.specs.{Actions.finding_at, Actions.operands_of, Actions.trees_at, Works.work};

    /// Looks up the names of the unit's expression, which has to be a constant, and returns the expression with the least finding about it.
    /// Its trees are in the memory that was kept, if there is some.
    ///
    /// Fails where no memory is left.
    pub fn look_constant(&mut self) -> Result<LookedConstant, AllocError>
        ensures finding { IfOk result (λ looked. looked.finding ≡ finding_at 0 Wanted.Constant (work self.old)) }
        ensures trees { let w = work self.old in IfOk result (λ looked.
            rooted_in looked.forest ≡ trees_at 0 Wanted.Constant (operands_of w) w) }
        ensures stays { let w = work self.old in IfOk result (λ looked. looked.stays ≡ true →
            LeavesStay w.locals w.output w.unit.tokens w.unit.gathering.leaves (operands_of w)) }
        ensures unchanged { OnOk result (work self.new ≡ work self.old) }
    {
        let stays = look_all(
            self.alloc,
            &self.locals,
            &self.output,
            &self.unit.tokens,
            self.unit.gathering.leaves(),
            &mut self.operands,
        )?;
        let spare = self.forest.take();
        let (finding, forest) = judge_whole(
            self.alloc,
            Wanted::Constant,
            0,
            self.unit.gathering.symbols(),
            self.operands.as_slice(),
            spare,
        )?;
        Ok(LookedConstant {
            finding,
            forest,
            stays,
        })
    }

    /// Keeps the memory of `forest` for the trees of the next unit.
    pub fn keep_forest(&mut self, forest: Forest)
        ensures { work self.new ≡ work self.old }
    {
        self.forest = Some(forest);
    }
}
