//! The operands of a unit, the findings about its expressions, and the opening of statements that hold others.
ghost use Rattle.inf_compilation.specs.Context.{handed};
ghost use Rattle.std.specs.Prelude.{IfOk, OnOk, ◌≡◌};
ghost use Rattle.inf_operands.specs.OperandLists.{operands_in};

use crate::compilation::Compilation;
use crate::context::Context;
use inf_constructs::constructs::Kind;
use inf_expressions::{Finding, Operand, Wanted, judge};
use inf_lexer::Place;
use inf_operands::looking::all_looked;
use inf_operands::operand_lists::OperandList;
use inf_settings::bounds::Bounds;
use std::alloc::AllocError;

impl<B: Bounds> Compilation<B> {
    ghost use Rattle.inf_compilation.specs.{Actions.finding_at, Actions.operands_of, Nesting.construct_opened, Works.work};

    /// Returns the operands of the leaves of the unit's expressions, whose names are only looked up.
    pub fn operands(&self) -> Result<OperandList, AllocError>
        ensures { IfOk result (λ operands. operands_in operands ≡ operands_of (work self.now)) }
    {
        all_looked(
            self.alloc,
            &self.locals,
            &self.output,
            &self.unit.tokens,
            self.unit.gathering.leaves(),
        )
    }

    /// Returns the least finding about the unit's expressions, which have `operands` and are to be `wanted`, where its first token has the
    /// order `first`.
    pub fn finding(
        &self,
        first: u32,
        wanted: Wanted,
        operands: &[Operand],
    ) -> Result<Option<Finding>, AllocError>
        requires { operands.now ≡ operands_of (work self.now) }
        ensures { IfOk result (λ finding. finding ≡ finding_at first wanted (work self.now)) }
    {
        judge(
            self.alloc,
            wanted,
            first,
            self.unit.gathering.symbols(),
            operands,
        )
    }

    /// Opens a statement of `kind`, which holds others, before a token at `place`.
    #[inline(never)]
    pub fn open_construct(
        &mut self,
        context: &Context<'_>,
        place: Place,
        kind: Kind,
    ) -> Result<(), AllocError>
        ensures { OnOk result (work self.new ≡ construct_opened B.most (handed context.now) place kind (work self.old)) }
    {
        let word = self.unit.tokens.last_place(place);
        let is_deep = self.is_deep(1);
        self.nest(context, word, is_deep)?;
        self.constructs.begin(kind, &mut self.output)
    }
}
