//! The code that is laid into an output: instructions, labels, and items that were kept apart.
ghost use Rattle.std.specs.Prelude.{◌≡◌, IsErr, IsNone, None, OnErr, OnOk, is_some, length};
ghost use Rattle.inf_code.specs.Code.{full_label, full_with};
ghost use Rattle.inf_opcode.specs.{Counts.counts_of, Instructions.IsProper, Instructions.front_cells, PartsOf.parts_of};
ghost use Rattle.inf_output.specs.declared.items.Item.{Item};
ghost use Rattle.inf_output.specs.Output.{Takes, TakesVariable, apart, behind, in_routine, instruction, items_of, jumped, laid, laid_all};
ghost use Rattle.inf_output.specs.Output.{marked, naming, next_label, passed, together};

use crate::items::{Item, Items, proper_operands};
use crate::operands::{Simple, add_written};
use crate::output::Output;
use arrayvec::ArrayVec;
use inf_assembler::GrowFault;
use inf_opcode::{Branch, Counts, Instruction, Label, Opcode, Operand, instruction_counts};
use inf_settings::bounds::Bounds;
use std::alloc::{AllocError, Global};

/// Returns the counts of `instruction` without its text.
fn proper_counts(instruction: &Instruction<'_>) -> Counts
    requires { IsProper (parts_of instruction.now) }
    ensures { result ≡ counts_of (front_cells (parts_of instruction.now)) }
{
    let operands = proper_operands(instruction);
    instruction_counts(&Instruction {
        operands,
        ..*instruction
    })
}

impl<B: Bounds> Output<B> {
    /// Counts `instruction`, which is not laid any more. In a routine that is lost only its labels count.
    fn pass(&mut self, instruction: &Instruction<'_>)
        requires { IsProper (parts_of instruction.now) }
        ensures { self.new ≡ passed B.most (Item.Instruction (parts_of instruction.now)) self.old }
    {
        let counts = proper_counts(instruction);
        let past = self.rest();
        self.past = Some(if self.code.is_lost() {
            past.labelled(counts.labels)
        } else {
            past.behind(counts, instruction.text.len())
        });
    }

    /// Counts the place of `label`, which is not laid any more.
    fn pass_mark(&mut self, label: Label)
        ensures { self.new ≡ passed B.most (Item.Mark label) self.old }
    {
        self.past = Some(
            self.rest().taken(Counts {
                bytes: 0,
                labels: 1,
                fixups: 0,
            }),
        );
    }

    /// Returns a label that was not handed out for the routine at hand.
    #[tactic(auto, unfolding(crate::specs::Output::behind))]
    pub fn label(&mut self) -> Label
        ensures label { result ≡ next_label self.old }
        ensures next { self.new ≡ record self.old { next = behind self.old.next } }
    {
        let label = Label { number: self.next };
        self.next = self.next.saturating_add(1);
        label
    }

    /// Lays `instruction`, whose parts are those that the instruction set gives its opcode (Z-Machine Standard 1.1, section 14).
    #[tactic(auto, unfolding(crate::specs::Output::laid))]
    pub fn emit(&mut self, instruction: &Instruction<'_>) -> Result<(), AllocError>
        requires { IsProper (parts_of instruction.now) }
        ensures ok { OnOk result (self.new ≡ laid B.most (Item.Instruction (parts_of instruction.now)) self.old) }
        ensures err { OnErr result (self.new ≡ self.old) }
        ensures memory { IsErr result → IsNone self.old.kept → IsNone self.old.past
            × (full_with (parts_of instruction.now) self.old.code ≡ None) }
    {
        match &mut self.kept {
            Some(kept) => kept.instruction(instruction),
            None => self.emit_in_routine(instruction),
        }
    }

    /// Lays `instruction` in the open routine; it is counted alone where a limit is or would be passed.
    #[tactic(auto, using(crate::proofs::Limits::is_passed, crate::proofs::Limits::none_where_memory))]
    fn emit_in_routine(&mut self, instruction: &Instruction<'_>) -> Result<(), AllocError>
        requires { IsProper (parts_of instruction.now) }
        ensures ok { OnOk result (self.new ≡ in_routine B.most self.old.past (Item.Instruction (parts_of instruction.now)) self.old) }
        ensures err { OnErr result (self.new ≡ self.old) }
        ensures memory { IsErr result → IsNone self.old.past × (full_with (parts_of instruction.now) self.old.code ≡ None) }
    {
        if self.past.is_some() {
            self.pass(instruction);
            return Ok(());
        }
        match self.code.emit(instruction) {
            Ok(()) => Ok(()),
            Err(GrowFault::Full(_)) => {
                self.pass(instruction);
                Ok(())
            }
            Err(GrowFault::Memory) => Err(AllocError),
        }
    }

    /// Lays the place of `label`.
    #[tactic(auto, unfolding(crate::specs::Output::laid, crate::specs::Output::marked))]
    pub fn mark(&mut self, label: Label) -> Result<(), AllocError>
        ensures ok { OnOk result (self.new ≡ marked B.most label self.old) }
        ensures err { OnErr result (self.new ≡ self.old) }
        ensures memory { IsErr result → IsNone self.old.kept → IsNone self.old.past × (full_label self.old.code ≡ None) }
    {
        match &mut self.kept {
            Some(kept) => kept.mark(label),
            None => self.mark_in_routine(label),
        }
    }

    /// Lays the place of `label` in the open routine; it is counted alone where a limit is or would be passed.
    #[tactic(auto, using(crate::proofs::Limits::is_passed, crate::proofs::Limits::none_where_memory))]
    fn mark_in_routine(&mut self, label: Label) -> Result<(), AllocError>
        ensures ok { OnOk result (self.new ≡ in_routine B.most self.old.past (Item.Mark label) self.old) }
        ensures err { OnErr result (self.new ≡ self.old) }
        ensures memory { IsErr result → IsNone self.old.past × (full_label self.old.code ≡ None) }
    {
        if self.past.is_some() {
            self.pass_mark(label);
            return Ok(());
        }
        match self.code.label(label) {
            Ok(()) => Ok(()),
            Err(GrowFault::Full(_)) => {
                self.pass_mark(label);
                Ok(())
            }
            Err(GrowFault::Memory) => Err(AllocError),
        }
    }

    /// Lays a jump to `label`.
    #[tactic(auto, unfolding(crate::specs::Output::jumped))]
    pub fn jump(&mut self, label: Label) -> Result<(), AllocError>
        ensures { OnOk result (self.new ≡ jumped B.most label self.old) }
    {
        self.emit(&Instruction::new(Opcode::Jump, &[Operand::Offset(label)], None))
    }

    /// Lays an instruction of `opcode` with simple operands, a store variable if `store` is one, and a branch if `branch` is one.
    #[tactic(auto, using(crate::proofs::Proper::is_proper), unfolding(crate::specs::Output::instruction))]
    pub fn instruct(
        &mut self,
        opcode: Opcode,
        operands: &[Simple],
        store: Option<u8>,
        branch: Option<Branch>,
    ) -> Result<(), AllocError>
        requires { Takes opcode (length operands.now) (is_some store) (is_some branch) }
        ensures { OnOk result (self.new ≡ instruction B.most opcode operands.now store branch self.old) }
    {
        let mut written = ArrayVec::new();
        add_written(&mut written, operands);
        self.emit(&Instruction {
            opcode,
            operands: &written,
            store,
            branch,
            text: &[],
        })
    }

    /// Lays an instruction of `opcode` whose first operand names `variable`, with `operands` behind it, a store variable if `store`
    /// is one, and a branch if `branch` is one.
    #[tactic(auto, using(crate::proofs::Proper::is_proper_naming), unfolding(crate::specs::Output::naming))]
    pub fn instruct_naming(
        &mut self,
        opcode: Opcode,
        variable: u8,
        operands: &[Simple],
        store: Option<u8>,
        branch: Option<Branch>,
    ) -> Result<(), AllocError>
        requires { TakesVariable opcode (length operands.now) (is_some store) (is_some branch) }
        ensures { OnOk result (self.new ≡ naming B.most opcode variable operands.now store branch self.old) }
    {
        let mut all = ArrayVec::new();
        all.push(Operand::Small(variable));
        add_written(&mut all, operands);
        self.emit(&Instruction {
            opcode,
            operands: &all,
            store,
            branch,
            text: &[],
        })
    }

    /// Keeps code apart from here on. Code that was kept so far is dropped.
    pub fn set_apart(&mut self, alloc: Global)
        ensures { self.new ≡ apart self.old }
    {
        self.kept = Some(Items::new(alloc));
    }

    /// Lays code into the routine again from here on, and returns the items that were kept apart.
    pub fn take_apart(&mut self, alloc: Global) -> Items
        ensures items { result ≡ items_of self.old.kept }
        ensures together { self.new ≡ together self.old }
    {
        match self.kept.take() {
            Some(items) => items,
            None => Items::new(alloc),
        }
    }

    /// Lays `items`, which were kept apart.
    pub fn append(&mut self, items: &Items) -> Result<(), AllocError>
        ensures { OnOk result (self.new ≡ laid_all B.most items.now self.old) }
    {
        for item in items.as_slice() {
            self.add(item)?;
        }
        Ok(())
    }

    /// Lays `item`, which was kept.
    #[tactic(auto, unfolding(crate::specs::Output::marked))]
    fn add(&mut self, item: &Item) -> Result<(), AllocError>
        ensures { OnOk result (self.new ≡ laid B.most item.now self.old) }
    {
        match item {
            Item::Instruction(kept) => self.emit(&kept.instruction()),
            Item::Mark(label) => self.mark(*label),
        }
    }
}
