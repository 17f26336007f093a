//! Items that are kept apart and come later.
ghost use Rattle.std.specs.Prelude.{◌≡◌, ◌≤◌, ◌++◌, ◌∷◌, [], IfOk, OnErr, OnOk, length};
ghost use Rattle.inf_opcode.specs.{Instructions.IsProper, PartsOf.parts_of};

use arrayvec::ArrayVec;
use inf_opcode::{Branch, Instruction, Label, MOST_OPERANDS, Opcode, Operand};
use std::alloc::{AllocError, Global};
use std::marker::Model;

/// An instruction, whose parts are those that the instruction set gives its opcode.
#[derive(Drop)]
pub struct KeptInstruction {
    opcode: Opcode,
    operands: ArrayVec<Operand, MOST_OPERANDS>,
    store: Option<u8>,
    branch: Option<Branch>,
    text: Vec<u8>,
}

impl Model for KeptInstruction {
    ghost use Rattle.inf_opcode.specs.Instructions.{Parts, IsProper};

    ghost Value = { Parts };

    ghost view = { λ k. record {
      opcode = k.opcode;
      operands = k.operands.items;
      store = k.store;
      branch = k.branch;
      text =
          k.text.items;
    } };

    ghost invariant = { λ k. IsProper (record {
      opcode = k.opcode;
      operands = k.operands.items;
      store = k.store;
      branch = k.branch;
      text =
          k.text.items;
    }) };
}

/// Item of code.
#[derive(Drop)]
pub enum Item {
    Instruction(KeptInstruction),
    /// The place of a label.
    Mark(Label),
}

/// Items in order.
#[derive(Drop)]
pub struct Items {
    alloc: Global,
    list: Vec<Item>,
}

impl Model for Items {
    ghost use Rattle.std.specs.Prelude.{List};
    ghost use Rattle.inf_output.specs.declared.items.Item.{Item};

    ghost Value = { List Item };

    ghost view = { λ i. i.list.items };
}

/// Returns the operands of `instruction`: no more than its opcode takes, and the instruction set has no opcode that takes more than eight.
pub(crate) fn proper_operands<'a>(instruction: &Instruction<'a>) -> &'a [Operand]
    requires { IsProper (parts_of instruction.now) }
    ensures value { result.now ≡ (parts_of instruction.now).operands }
    ensures few { length result.now ≤ 8 }
{
    let operands = instruction.operands;
    let most = usize::from(instruction.opcode.row().most);
    operands.get(..most).unwrap_or(operands)
}

impl KeptInstruction {
    /// Returns `instruction` as one that is kept.
    fn new(alloc: Global, instruction: &Instruction<'_>) -> Result<KeptInstruction, AllocError>
        requires { IsProper (parts_of instruction.now) }
        ensures { IfOk result (λ kept. kept ≡ parts_of instruction.now) }
    {
        let mut operands = ArrayVec::new();
        if operands
            .try_extend_from_slice(proper_operands(instruction))
            .is_err()
        {
            unreachable!()
        }
        Ok(KeptInstruction {
            opcode: instruction.opcode,
            operands,
            store: instruction.store,
            branch: instruction.branch,
            text: instruction.text.to_vec(alloc)?,
        })
    }

    /// Returns the kept instruction as an instruction.
    pub(crate) fn instruction(&self) -> Instruction<'_>
        ensures value { parts_of result ≡ self.now }
        ensures proper { IsProper self.now }
    {
        Instruction {
            opcode: self.opcode,
            operands: &self.operands,
            store: self.store,
            branch: self.branch,
            text: &self.text,
        }
    }
}

impl Items {
    ghost use Rattle.inf_output.specs.declared.items.Item.TheVariants as item;

    /// Returns no items. They take no memory until the first one comes.
    pub(crate) fn new(alloc: Global) -> Items
        ensures { result ≡ [] }
    {
        Items {
            alloc,
            list: Vec::new(alloc),
        }
    }

    /// Adds `instruction` behind the others. Where memory runs out they stay as they were.
    pub(crate) fn instruction(&mut self, instruction: &Instruction<'_>) -> Result<(), AllocError>
        requires { IsProper (parts_of instruction.now) }
        ensures ok { OnOk result (self.new ≡ self.old ++ item.Instruction (parts_of instruction.now) ∷ []) }
        ensures err { OnErr result (self.new ≡ self.old) }
    {
        let kept = KeptInstruction::new(self.alloc, instruction)?;
        self.list.push(Item::Instruction(kept))?;
        Ok(())
    }

    /// Adds the place of `label` behind the others. Where memory runs out they stay as they were.
    pub(crate) fn mark(&mut self, label: Label) -> Result<(), AllocError>
        ensures ok { OnOk result (self.new ≡ self.old ++ item.Mark label ∷ []) }
        ensures err { OnErr result (self.new ≡ self.old) }
    {
        self.list.push(Item::Mark(label))?;
        Ok(())
    }

    /// Returns the items, in order.
    pub(crate) fn as_slice(&self) -> &[Item]
        ensures { result.now ≡ self.now }
    {
        self.list.as_slice()
    }
}
