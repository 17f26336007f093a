//! The ways in which expressions are laid.
use inf_expressions::{Forest, Root};
use inf_opcode::Opcode;
use inf_output::{Output, Simple, Veneer};
use inf_settings::bounds::Bounds;
use inf_templates::{
    Argument, Tasks, lay_alone, lay_branch, lay_call, lay_instruction, lay_routine_call, lay_value,
};
use inf_test_lines::word;
use std::alloc::{AllocError, Global};

/// A way in which expressions are laid.
#[derive(Clone, Copy)]
pub(crate) enum Way {
    /// Lays each expression without result.
    Alone,
    /// Lays each expression with its value in a variable.
    Value(u8),
    /// Lays each expression as a branch over an instruction, which is taken where the expression has this truth.
    Branch(bool),
    /// Lays an instruction whose operands are the first two expressions.
    Insert,
    /// Lays a call of the first expression with the others, and the number 5, as arguments.
    Call(Option<u8>),
    /// Lays a call of a routine of the veneer with all expressions as arguments.
    Spaces,
    /// Lays the first expression behind the others.
    Apart,
}

/// Returns the way that a text names.
pub(crate) fn way_of(text: &str) -> Option<Way> {
    let variable = word(text, 1).parse();
    Some(match word(text, 0) {
        "alone" => Way::Alone,
        "value" => Way::Value(variable.unwrap_or(0)),
        "true" => Way::Branch(true),
        "false" => Way::Branch(false),
        "insert" => Way::Insert,
        "call" => Way::Call(variable.ok()),
        "spaces" => Way::Spaces,
        "apart" => Way::Apart,
        _ => return None,
    })
}

/// A state in which expressions are laid.
#[derive(Drop)]
pub(crate) struct Laying<B: Bounds> {
    pub(crate) tasks: Tasks,
    pub(crate) out: Output<B>,
}

impl<B: Bounds> Laying<B> {
    /// Lays expressions in a way, in a routine that begins.
    pub(crate) fn begin(
        &mut self,
        alloc: Global,
        way: Way,
        forest: &Forest,
    ) -> Result<(), AllocError> {
        self.out.open(alloc, 15, false)?;
        self.lay(alloc, way, forest)
    }

    /// Lays expressions in a way.
    fn lay(&mut self, alloc: Global, way: Way, forest: &Forest) -> Result<(), AllocError> {
        match way {
            Way::Alone => self.alone(forest, 0),
            Way::Value(variable) => self.value(forest, variable),
            Way::Branch(sense) => self.branch(forest, sense),
            Way::Insert => self.insert(forest),
            Way::Call(store) => self.call(alloc, forest, store),
            Way::Spaces => self.spaces(alloc, forest),
            Way::Apart => self.apart(alloc, forest),
        }
    }

    /// Lays each expression behind the first ones without result.
    fn alone(&mut self, forest: &Forest, first: usize) -> Result<(), AllocError> {
        for root in forest.roots.iter().skip(first) {
            lay_alone(&mut self.tasks, &forest.nodes, root.place, &mut self.out)?;
        }
        Ok(())
    }

    /// Lays each with its value in a variable.
    fn value(&mut self, forest: &Forest, variable: u8) -> Result<(), AllocError> {
        for root in &forest.roots {
            lay_value(
                &mut self.tasks,
                &forest.nodes,
                root.place,
                variable,
                &mut self.out,
            )?;
        }
        Ok(())
    }

    /// Lays each as a branch over an instruction, where its truth is `sense`.
    fn branch(&mut self, forest: &Forest, sense: bool) -> Result<(), AllocError> {
        let over = self.out.label();
        for root in &forest.roots {
            lay_branch(
                &mut self.tasks,
                &forest.nodes,
                root.place,
                sense,
                over,
                &mut self.out,
            )?;
        }
        self.out.instruct(Opcode::NewLine, &[], None, None)?;
        self.out.mark(over)
    }

    /// Lays an instruction of the first two.
    fn insert(&mut self, forest: &Forest) -> Result<(), AllocError> {
        let arguments = [argument(forest, 0), argument(forest, 1)];
        lay_instruction(
            &mut self.tasks,
            &forest.nodes,
            Opcode::InsertObj,
            &arguments,
            None,
            None,
            &mut self.out,
        )
    }

    /// Lays a call of the first with the others and the number 5.
    fn call(
        &mut self,
        alloc: Global,
        forest: &Forest,
        store: Option<u8>,
    ) -> Result<(), AllocError> {
        let mut arguments = arguments_of(alloc, forest, 1)?;
        arguments.push(Argument::Is(Simple::Known(5)))?;
        lay_call(
            &mut self.tasks,
            &forest.nodes,
            argument(forest, 0),
            &arguments,
            store,
            &mut self.out,
        )
    }

    /// Lays a call of a routine of the veneer with all.
    fn spaces(&mut self, alloc: Global, forest: &Forest) -> Result<(), AllocError> {
        lay_routine_call(
            &mut self.tasks,
            &forest.nodes,
            Veneer::Spaces,
            &arguments_of(alloc, forest, 0)?,
            None,
            &mut self.out,
        )
    }

    /// Lays the first behind the others.
    fn apart(&mut self, alloc: Global, forest: &Forest) -> Result<(), AllocError> {
        self.out.set_apart(alloc);
        lay_alone(
            &mut self.tasks,
            &forest.nodes,
            place(forest, 0),
            &mut self.out,
        )?;
        let items = self.out.take_apart(alloc);
        self.alone(forest, 1)?;
        self.out.append(&items)
    }
}

/// Returns the place of an expression.
fn place(forest: &Forest, number: usize) -> usize {
    match forest.root(number) {
        Some(Root { place, .. }) => place,
        None => 0,
    }
}

/// Returns an expression as an argument.
fn argument(forest: &Forest, number: usize) -> Argument {
    Argument::Of(place(forest, number))
}

/// Returns the expressions behind the first ones as arguments.
fn arguments_of(alloc: Global, forest: &Forest, first: usize) -> Result<Vec<Argument>, AllocError> {
    let mut arguments = Vec::new(alloc);
    for root in forest.roots.iter().skip(first) {
        arguments.push(Argument::Of(root.place))?;
    }
    Ok(arguments)
}
