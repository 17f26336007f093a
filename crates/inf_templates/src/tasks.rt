//! The tasks that are left to be laid.
ghost use Rattle.std.specs.Prelude.{◌≡◌, [], ◌∷◌, ◌++◌, MatchOption, OnOk};

use inf_expressions::{Direction, Operation, Relative, Single, Test};
use inf_opcode::Label;
use inf_output::{Simple, Veneer};
use std::alloc::{AllocError, Global};
use std::marker::Model;

/// An operand of an instruction.
#[derive(Clone, Copy)]
pub enum Argument {
    /// The tree at a place: where it is not simple it is worked out into the stack before.
    Of(usize),
    /// A simple operand.
    Is(Simple),
}

/// One to three trees as operands, by their places.
#[derive(Clone, Copy)]
pub enum Few {
    One(usize),
    Two(usize, usize),
    Three(usize, usize, usize),
}

/// The kind of a goal in memory: the byte or word of an array at an index, or a property of an object.
#[derive(Clone, Copy)]
pub enum Memory {
    Byte,
    Word,
    Property,
}

/// A task: something to be laid. Trees are given by their places.
#[derive(Clone, Copy)]
pub enum Task {
    /// A tree with its value in a variable, or on the stack.
    Value(usize, u8),
    /// A tree without result.
    Alone(usize),
    /// A tree as a branch to a label where its truth is the given one.
    Branch(usize, bool, Label),
    /// A test for equality with any member of a list, in groups of three: the sense and the label of the last group, and
    /// the label of the others.
    Triples(Simple, usize, bool, Label, Label),
    /// Another test with any member of a list, one by one.
    Singles(Test, Simple, usize, bool, Label, Label),
    /// The end of a condition whose value goes to a variable, or to the stack: the label where it fails, and the one behind it.
    Truth(u8, Label, Label),
    Mark(Label),
    /// The value of a variable that goes to another one, or to the stack.
    Load(u8, u8),
    /// A branch where the truth of an operand is the given one.
    JumpZero(Simple, bool, Label),
    Instruct(Worked),
}

/// An instruction whose parts are worked out.
#[derive(Clone, Copy)]
pub enum Worked {
    Compute(Operation, usize, usize, u8),
    Negate(usize, u8),
    Single(Single, usize, u8),
    /// A search for an object, with a branch where there is one.
    Find(Relative, usize, u8, Label),
    /// A test for equality with three alternatives, which branches where it holds.
    Three(Simple, usize, usize, usize, Label),
    Compare(Test, Simple, usize, bool, Label),
    /// A test with any member of a list, which has no more members than one instruction takes.
    Any(Test, Argument, usize, bool, Label),
    /// The storing of a value in memory.
    Store(Memory, usize, usize, usize),
    /// A call of a routine of the veneer.
    Routine(Veneer, Few, Option<u8>),
    /// A step of a value in memory, and whether it comes before the value that it leaves.
    StepInMemory(bool, Direction, Memory, usize, usize, Option<u8>),
    /// A call without arguments, and one with a list of them.
    BareCall(usize, Option<u8>),
    Call(usize, usize, Option<u8>),
    /// A call of a property of an object.
    Message(usize, usize, usize, Option<u8>),
    /// A call of the first member of a list.
    Indirect(usize, Option<u8>),
}

/// Tasks: in contracts their list, the next one first. They are empty between the calls that lay code, and keep their memory.
#[derive(Drop)]
pub struct Tasks {
    tasks: Vec<Task>,
}

impl Model for Tasks {
    ghost use Rattle.std.specs.Prelude.{List, reverse};
    ghost use Rattle.inf_templates.specs.declared.tasks.Task.{Task};

    ghost Value = { List Task };

    ghost view = { λ t. reverse t.tasks.items };
}

impl Tasks {
    /// Creates an empty list of tasks. It takes no memory until the first task comes.
    pub fn new(alloc: Global) -> Tasks
        ensures { result ≡ [] }
    {
        Tasks {
            tasks: Vec::new(alloc),
        }
    }

    /// Removes all tasks.
    pub(crate) fn clear(&mut self)
        ensures { self.new ≡ [] }
    {
        self.tasks.clear();
    }

    /// Takes the next task; `None` where none is left.
    pub(crate) fn next(&mut self) -> Option<Task>
        ensures { MatchOption result ((self.old ≡ []) × (self.new ≡ [])) (λ t. self.old ≡ t ∷ self.new) }
    {
        self.tasks.pop()
    }

    /// Puts `task` before the others. It fails for want of memory alone.
    pub(crate) fn first(&mut self, task: Task) -> Result<(), AllocError>
        ensures { OnOk result (self.new ≡ task ∷ self.old) }
    {
        self.tasks.push(task)?;
        Ok(())
    }
}
