//! The effects of the statements of a routine, and their faults beside those of their expressions.
ghost use Rattle.std.specs.Prelude.{◌≡◌, ◌≤◌, ◌+◌, IfOk, OnOk, length, map};
ghost use Rattle.inf_expressions.specs.{Findings.wrong_kind, Forests.trees_in};
ghost use Rattle.inf_unit.specs.{Opcodes.opcode_of, Units.next_place, Units.order};
ghost use Rattle.inf_statements.specs.{Assembly.ends_of, Sites.site};
ghost use Rattle.inf_statements.specs.Effects.{given_twice, jump_laid, last_text, name_behind, only_if, place_laid, site_finding};
ghost use Rattle.inf_statements.specs.Effects.{statement_code, statement_finding, statement_laid, unless_some, wanted_by};
ghost use Rattle.inf_statements.specs.Statements.{statement_in, string_changed, style_of};
ghost use Rattle.inf_constructs.specs.{Labels.is_given, Roots.tree_in, Roots.trees_from};

use crate::assembly::{Line, ends_of, labelled, lay_line, placed};
use crate::printing::{Printing, print_items};
use crate::statements::{
    Statement, lay_action, lay_expression, lay_give, lay_jump, lay_move, lay_one, lay_return,
    lay_spaces, lay_string, lay_style, plain, statement_in, style_of,
};
use inf_constructs::constructs::Constructs;
use inf_constructs::labels::Labels;
use inf_expressions::{Finding, Forest, Nodes, Root, UnitError, Wanted};
use inf_names::locals::Locals;
use inf_names::symbols::Symbols;
use inf_opcode::{Label, Opcode};
use inf_output::Output;
use inf_scanner::Place;
use inf_settings::bounds::Bounds;
use inf_templates::Tasks;
use inf_text::{CharSet, Text};
use inf_unit::items::Item;
use inf_unit::texts::text_of;
use inf_unit::unit::{next_place, order};
use inf_unit::unit_tokens::UnitTokens;
use std::alloc::{AllocError, Global};

/// The site of a statement: all that it goes by beside the trees of its expressions.
#[derive(Clone, Copy)]
pub struct Site<'a> {
    pub alloc: Global,
    /// The character set of the source.
    pub set: CharSet,
    pub tokens: &'a UnitTokens,
    /// The place among its tokens where the statement begins.
    pub begun: usize,
    /// The items that the statement has beside its expressions.
    pub items: &'a [Item],
    pub locals: &'a Locals,
    /// The statements that hold this one.
    pub constructs: &'a Constructs,
}

/// Returns the finding of `error` at `order`, unless something was found.
fn unless_some(found: Option<Label>, order: u32, error: UnitError) -> Option<Finding>
    ensures { result ≡ unless_some found (record { order = order; error = error }) }
{
    match found {
        Some(_) => None,
        None => Some(Finding { order, error }),
    }
}

impl Site<'_> {
    /// Returns the name behind the first token of the statement.
    fn name(&self) -> &[u8]
        ensures value { result.now ≡ name_behind (site self.now) }
        ensures few { length result.now ≤ 32 }
    {
        self.tokens.bytes_at(next_place(self.begun))
    }

    /// Returns the statement at this site.
    pub fn statement(&self) -> Statement
        ensures { result ≡ statement_in (site self.now).tokens (site self.now).begun (site self.now).items }
    {
        statement_in(self.tokens, self.begun, self.items)
    }

    /// Returns the assembly line at this site.
    fn line(&self) -> Line<'_>
        ensures { let s = self.now in result ≡ record {
          alloc = s.alloc;
          set = s.set;
          tokens = s.tokens;
          locals = s.locals;
          ends = ends_of
              s.items.now;
        } }
    {
        Line {
            alloc: self.alloc,
            set: self.set,
            tokens: self.tokens,
            locals: self.locals,
            ends: ends_of(self.items),
        }
    }

    /// Returns the finding that the place of the statement's label was given before, by `labels`.
    fn label_finding(&self, labels: &Labels) -> Option<Finding>
        ensures { let s = site self.now in
            result ≡ only_if (is_given (name_behind s) labels.now) (given_twice (order (next_place s.begun))) }
    {
        if !labels.is_given(self.name()) {
            return None;
        }
        Some(Finding {
            order: order(next_place(self.begun)),
            error: UnitError::LabelTwice,
        })
    }

    /// Returns the finding that the statement's style is unknown.
    fn style_finding(&self) -> Option<Finding>
        ensures { let s = site self.now in result ≡ unless_some (style_of (name_behind s)) (wrong_kind (order (next_place s.begun))) }
    {
        match style_of(self.name()) {
            Some(_) => None,
            None => Some(Finding::wrong_kind(order(next_place(self.begun)))),
        }
    }

    /// Returns the finding about `statement` beside its expressions, with the labels in `labels`. An assembly line has none here.
    #[tactic(auto, unfolding(crate::specs::Effects::statement_finding))]
    pub fn finding(&self, statement: Statement, labels: &Labels) -> Option<Finding>
        ensures { result ≡ statement_finding (site self.now) labels.now statement }
    {
        let first = order(self.begun);
        match statement {
            Statement::Break => unless_some(
                self.constructs.left_to(false),
                first,
                UnitError::NothingToLeave,
            ),
            Statement::Continue => unless_some(
                self.constructs.left_to(true),
                first,
                UnitError::NothingToLeave,
            ),
            Statement::Place => self.label_finding(labels),
            Statement::Style => self.style_finding(),
            _ => None,
        }
    }

    /// Returns the finding about an assembly line, which has `opcode`, beside its operands, whose trees are in `nodes` and begin at `roots`.
    /// Names are only looked up in `names`.
    pub fn line_finding<B: Bounds>(
        &self,
        names: &Symbols<Place, B>,
        opcode: Option<Opcode>,
        nodes: &Nodes,
        roots: &[Root],
    ) -> Option<Finding>
        requires { opcode ≡ opcode_of (name_behind (site self.now)) }
        ensures { result ≡ site_finding B.most (site self.now) names.now (trees_from nodes.now roots.now) }
    {
        self.line().finding(names, self.begun, opcode, nodes, roots)
    }

    /// Returns the settings of printing at this site, where the statement returns if `returns`.
    fn printing(&self, returns: bool) -> Printing<'_>
        ensures { result ≡ record { alloc = self.now.alloc; set = self.now.set; tokens = self.now.tokens; returns = returns } }
    {
        Printing {
            alloc: self.alloc,
            set: self.set,
            tokens: self.tokens,
            returns,
        }
    }

    /// Lays the code of a statement that has no named label.
    fn lay_code<B: Bounds>(
        &self,
        statement: Statement,
        forest: &Forest,
        tasks: &mut Tasks,
        out: &mut Output<B>,
    ) -> Result<(), AllocError>
        ensures { OnOk result (out.new ≡ statement_code B.most (site self.now) (map tree_in (trees_in forest.now)) statement out.old) }
    {
        match statement {
            Statement::Empty | Statement::Place | Statement::Jump | Statement::Assembly => Ok(()),
            Statement::Expression => lay_expression(forest, tasks, out),
            Statement::Print => print_items(self.printing(false), self.items, forest, tasks, out),
            Statement::PrintReturn => {
                print_items(self.printing(true), self.items, forest, tasks, out)
            }
            Statement::Return => lay_return(forest, tasks, out),
            Statement::NewLine => plain(Opcode::NewLine, out),
            Statement::Quit => plain(Opcode::Quit, out),
            Statement::ReturnTrue => plain(Opcode::Rtrue, out),
            Statement::ReturnFalse => plain(Opcode::Rfalse, out),
            Statement::Break => lay_jump(self.constructs.left_to(false), out),
            Statement::Continue => lay_jump(self.constructs.left_to(true), out),
            Statement::Give => lay_give(self.items, forest, tasks, out),
            Statement::Move => lay_move(forest, tasks, out),
            Statement::Action => lay_action(forest, tasks, out),
            Statement::ActionReturn => {
                lay_action(forest, tasks, out)?;
                plain(Opcode::Rtrue, out)
            }
            Statement::Remove => {
                lay_one(Opcode::RemoveObj, &forest.nodes, &forest.roots, tasks, out)
            }
            Statement::Spaces => lay_spaces(forest, tasks, out),
            Statement::String => self.lay_string(forest, tasks, out),
            Statement::Style => lay_style(self.name(), out),
        }
    }

    /// Lays the code of `string`, with the text of the statement.
    fn lay_string<B: Bounds>(
        &self,
        forest: &Forest,
        tasks: &mut Tasks,
        out: &mut Output<B>,
    ) -> Result<(), AllocError>
        ensures { OnOk result (out.new ≡ string_changed B.most (last_text (site self.now)) (map tree_in (trees_in forest.now)) out.old) }
    {
        let Some(text) = self.last_text()? else {
            return Ok(());
        };
        let packed = out.texts.pack_low(self.alloc, &text)?;
        lay_string(packed.as_slice(), forest, tasks, out)
    }

    /// Returns the text that the statement has beside its expressions.
    fn last_text(&self) -> Result<Option<Text>, AllocError>
        ensures { IfOk result (λ text. text ≡ last_text (site self.now)) }
    {
        let [Item::Text(at), ..] = self.items else {
            return Ok(None);
        };
        let Some(token) = self.tokens.get(*at) else {
            return Ok(None);
        };
        text_of(self.alloc, self.set, &token)
    }

    /// Lays a jump to the label of the statement's name.
    fn lay_jump<B: Bounds>(
        &self,
        labels: &mut Labels,
        out: &mut Output<B>,
    ) -> Result<(), AllocError>
        ensures { OnOk result ((labels.new, out.new) ≡ jump_laid B.most (name_behind (site self.now)) labels.old out.old) }
    {
        let label = labelled(self.name(), labels, out)?;
        out.jump(label)
    }

    /// Places the label of the statement's name.
    fn lay_place<B: Bounds>(
        &self,
        labels: &mut Labels,
        out: &mut Output<B>,
    ) -> Result<(), AllocError>
        ensures { OnOk result ((labels.new, out.new) ≡ place_laid B.most (name_behind (site self.now)) labels.old out.old) }
    {
        let label = placed(self.name(), labels, out)?;
        out.mark(label)
    }

    /// Lays the code of `statement`, which has no error and the trees of `forest`, in `out`; an assembly line has `opcode`. Labels that the
    /// statement names or places go to `labels`.
    #[tactic(auto, unfolding(crate::specs::Effects::statement_laid))]
    pub fn lay<B: Bounds>(
        &self,
        statement: Statement,
        opcode: Option<Opcode>,
        forest: &Forest,
        labels: &mut Labels,
        tasks: &mut Tasks,
        out: &mut Output<B>,
    ) -> Result<(), AllocError>
        requires { statement ≡ Statement.Assembly → opcode ≡ opcode_of (name_behind (site self.now)) }
        ensures { OnOk result ((labels.new, out.new)
            ≡ statement_laid B.most (site self.now) statement (map tree_in (trees_in forest.now)) labels.old out.old) }
    {
        match statement {
            Statement::Jump => self.lay_jump(labels, out),
            Statement::Place => self.lay_place(labels, out),
            Statement::Assembly => lay_line(
                self.line(),
                opcode,
                &forest.nodes,
                &forest.roots,
                labels,
                out,
            ),
            _ => self.lay_code(statement, forest, tasks, out),
        }
    }
}

/// Returns the kind of expressions that `statement` takes: operands in an assembly line, values in any other statement.
pub fn wanted_by(statement: Statement) -> Wanted
    ensures { result ≡ wanted_by statement }
{
    match statement {
        Statement::Assembly => Wanted::Operand,
        _ => Wanted::Value,
    }
}
