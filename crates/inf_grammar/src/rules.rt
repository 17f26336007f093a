//! The facts that the machine knows of a rule.
ghost use Rattle.std.specs.Prelude.{◌≡◌, reverse, true};
ghost use Rattle.inf_machine.specs.{Grammar.has, Machine.are_acts, Machine.passed_row, Machine.way};
ghost use Rattle.inf_grammar.specs.Language.{grammar, known};
ghost use Rattle.inf_grammar.specs.Tables.{all_classes, all_parts, all_rows, all_rules, cut, found, joined_words, span_for};

use crate::table::{CLASSES, PARTS, ROWS, RULES};
use inf_machine::Symbol;
use inf_syntax::Action;

/// A set of atoms, a bit for each, the lowest first.
#[derive(Clone, Copy)]
pub(crate) struct Set(pub(crate) [u64; 4]);

/// Some of the items of a table.
#[derive(Clone, Copy)]
pub(crate) struct Span {
    pub(crate) start: u16,
    pub(crate) end: u16,
}

/// A way to write a rule.
#[derive(Clone, Copy)]
pub(crate) struct Row {
    /// The atoms that begin the row.
    pub(crate) begins: Set,
    /// The parts of the row, the last first, as they go onto a stack.
    pub(crate) parts: Span,
}

/// A rule.
#[derive(Clone, Copy)]
pub(crate) struct Rule {
    /// The atoms that begin the rule.
    pub(crate) begins: Set,
    pub(crate) is_empty: bool,
    pub(crate) rows: Span,
    /// The parts that are put in place of the rule before any other atom: those of the row that can be empty, or none
    /// where that has no action.
    pub(crate) other: Span,
}

/// Returns the classes of tokens.
fn classes() -> &'static [Set]
    ensures { result.now ≡ all_classes }
{
    &CLASSES
}

/// Returns the parts of the rows.
fn parts() -> &'static [Symbol<Action>]
    ensures { result.now ≡ all_parts }
{
    &PARTS
}

/// Returns the rows.
fn rows() -> &'static [Row]
    ensures { result.now ≡ all_rows }
{
    &ROWS
}

/// Returns the rules.
fn rules() -> &'static [Rule]
    ensures { result.now ≡ all_rules }
{
    &RULES
}

/// Returns whether `atom` is in the set of these words.
fn is_in(words: &[u64], atom: u8) -> bool
    ensures { result ≡ has (joined_words words.now) atom }
{
    match words.get((atom / 64) as usize) {
        Some(word) => (*word >> (atom % 64)) & 1 == 1,
        None => false,
    }
}

/// Returns the rows of a span.
fn rows_at(span: Span) -> &'static [Row]
    ensures { result.now ≡ cut span all_rows }
{
    match rows().get(span.start as usize..span.end as usize) {
        Some(rows) => rows,
        None => &[],
    }
}

/// Returns the parts of `span`. Most rules that are passed over have none.
fn parts_at(span: Span) -> &'static [Symbol<Action>]
    ensures { result.now ≡ cut span all_parts }
{
    if span.end <= span.start {
        return &[];
    }
    match parts().get(span.start as usize..span.end as usize) {
        Some(parts) => parts,
        None => &[],
    }
}

fn found(rows: &[Row], other: Span, atom: u8) -> Span
    ensures { result ≡ found atom other rows.now }
{
    for row in rows {
        if is_in(&row.begins.0, atom) {
            return row.parts;
        }
    }
    other
}

/// Returns whether an atom is of a class of tokens.
pub(crate) fn is_of(class: u8, atom: u8) -> bool
    ensures { result ≡ has (grammar.atoms_of class) atom }
{
    match classes().get(class as usize) {
        Some(set) => is_in(&set.0, atom),
        None => false,
    }
}

/// Returns whether an atom begins a rule.
pub(crate) fn begins(rule: u8, atom: u8) -> bool
    ensures { result ≡ has (known.begins rule) atom }
{
    match rules().get(rule as usize) {
        Some(rule) => is_in(&rule.begins.0, atom),
        None => false,
    }
}

/// Returns whether a rule can be empty.
pub(crate) fn can_be_empty(rule: u8) -> bool
    ensures { result ≡ known.is_empty rule }
{
    match rules().get(rule as usize) {
        Some(rule) => rule.is_empty,
        None => false,
    }
}

fn span_for(rule: &Rule, atom: u8) -> Span
    ensures { result ≡ span_for rule.now atom }
{
    if is_in(&rule.begins.0, atom) {
        found(rows_at(rule.rows), rule.other, atom)
    } else {
        rule.other
    }
}

/// Returns the parts that are put in place of `rule` before `atom`, the last part first.
pub(crate) fn way(rule: u8, atom: u8) -> &'static [Symbol<Action>]
    ensures { reverse result.now ≡ way grammar known atom rule }
{
    match rules().get(rule as usize) {
        Some(rule) => parts_at(span_for(rule, atom)),
        None => &[],
    }
}

/// Returns the parts that are put in place of `rule`, which can be empty, before an atom that does not begin it, the
/// last part first: actions alone.
pub(crate) fn passed(rule: u8) -> &'static [Symbol<Action>]
    ensures row { reverse result.now ≡ passed_row grammar known (grammar.rows_of rule) }
    ensures acts { are_acts (passed_row grammar known (grammar.rows_of rule)) ≡ true }
{
    match rules().get(rule as usize) {
        Some(rule) => parts_at(rule.other),
        None => &[],
    }
}
