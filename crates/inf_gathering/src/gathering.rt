//! Gathering the expressions of a unit.
ghost use Rattle.std.specs.Prelude.{◌≡◌, OnOk, [], drop, length, map, reverse};
ghost use Rattle.inf_gathering.specs.Gatherings.{action_leaf, beginning, comma, counted, cut, extent, latest, nothing_gathered, numbers};
ghost use Rattle.inf_gathering.specs.Gatherings.{one_more, with_actions, with_bracket, with_call, with_closed_bracket, with_comma};
ghost use Rattle.inf_gathering.specs.Gatherings.{with_leaf, with_list, with_part, with_prefix, with_rule, with_suffix, with_test, with_two};

use inf_expressions::{Binary, Symbol, Unary};
use inf_scanner::DictionaryWord;
use inf_text::Zscii;
use std::alloc::{AllocError, Global};
use std::marker::Model;

/// A leaf of an expression as it was read. A name, a text, an action and a system constant are given by the place of their token
/// among those of the unit.
#[derive(Clone, Copy)]
pub enum Leaf {
    Name(usize),
    /// A name that is an operand of an assembly line by itself: the name of the stack is told apart there.
    Alone(usize),
    Number(u16),
    Char(Zscii),
    Word(DictionaryWord),
    Text(usize),
    Action(usize),
    System(usize),
}

/// The parts of a unit's expressions that were gathered so far: leaves, and symbols in the order of the grammar's actions, each
/// operator behind its parts.
///
/// Each call that takes memory fails only where none was left.
#[derive(Drop)]
pub struct Gathering {
    leaves: Vec<Leaf>,
    symbols: Vec<Symbol>,
    /// The order of the first token of each whole expression.
    firsts: Vec<u32>,
    /// Number of parts of each open list.
    counts: Vec<u32>,
    /// The orders of the tokens that open brackets which are not closed yet.
    brackets: Vec<u32>,
}

/// The extent of a gathering: the numbers of its leaves, of its symbols and of its whole expressions.
#[derive(Clone, Copy)]
pub struct Extent {
    pub leaves: usize,
    pub symbols: usize,
    pub wholes: usize,
}

/// Returns the items of `list` behind the first `count`: none, where it has no more.
pub fn behind<T>(list: &[T], count: usize) -> &[T]
    ensures { result.now ≡ drop count list.now }
{
    &list[count.min(list.len())..]
}

/// Returns the leaf of a name as that of an action; any other leaf stays.
fn action_leaf(leaf: Leaf) -> Leaf
    ensures { result ≡ action_leaf leaf }
{
    match leaf {
        Leaf::Name(at) => Leaf::Action(at),
        _ => leaf,
    }
}

/// Makes the names among `leaves` those of actions.
fn name_all(leaves: &mut [Leaf])
    ensures { leaves.new ≡ map action_leaf leaves.old }
{
    for at in 0..leaves.len() {
        leaves[at] = action_leaf(leaves[at]);
    }
}

impl Model for Gathering {
    ghost use Rattle.std.specs.Prelude.{reverse};
    ghost use Rattle.inf_gathering.specs.Gatherings.{Gathering as Gathered};

    ghost Value = { Gathered };

    ghost view = { λ g. record {
      leaves = g.leaves.items;
      symbols = g.symbols.items;
      firsts = reverse g.firsts.items;
      counts = reverse g.counts.items;
      brackets = reverse g.brackets.items;
    } };
}

impl Gathering {
    /// Returns a gathering of nothing. It takes no memory until something is gathered.
    pub fn new(alloc: Global) -> Gathering
        ensures { result ≡ nothing_gathered }
    {
        Gathering {
            leaves: Vec::new(alloc),
            symbols: Vec::new(alloc),
            firsts: Vec::new(alloc),
            counts: Vec::new(alloc),
            brackets: Vec::new(alloc),
        }
    }

    /// Forgets all that was gathered, since another unit begins.
    pub fn clear(&mut self)
        ensures { self.new ≡ nothing_gathered }
    {
        self.leaves.clear();
        self.symbols.clear();
        self.firsts.clear();
        self.counts.clear();
        self.brackets.clear();
    }

    /// Returns the leaves, in order.
    pub fn leaves(&self) -> &[Leaf]
        ensures { result.now ≡ self.now.leaves }
    {
        self.leaves.as_slice()
    }

    /// Returns the symbols, in order.
    pub fn symbols(&self) -> &[Symbol]
        ensures { result.now ≡ self.now.symbols }
    {
        self.symbols.as_slice()
    }

    /// Returns the number of whole expressions.
    pub fn wholes(&self) -> usize
        ensures { result ≡ length self.now.firsts }
    {
        self.firsts.len()
    }

    /// Returns the numbers of leaves, symbols and whole expressions that were gathered.
    pub fn extent(&self) -> Extent
        ensures { result ≡ extent self.now }
    {
        Extent {
            leaves: self.leaves.len(),
            symbols: self.symbols.len(),
            wholes: self.wholes(),
        }
    }

    /// Forgets what was gathered behind `extent`.
    pub fn cut(&mut self, extent: Extent)
        ensures { self.new ≡ cut extent self.old }
    {
        let more = self.wholes().saturating_sub(extent.wholes);
        self.leaves.truncate(extent.leaves);
        self.symbols.truncate(extent.symbols);
        drop_last(&mut self.firsts, more);
    }

    /// Gathers `count` numbers in place of all that was gathered.
    pub fn keep_numbers(&mut self, count: u32) -> Result<(), AllocError>
        ensures { OnOk result (self.new ≡ numbers count) }
    {
        self.clear();
        for order in 0..count {
            self.leaf(order, order, Leaf::Number(0))?;
        }
        Ok(())
    }

    /// Makes the names among the leaves those of actions.
    pub fn name_actions(&mut self)
        ensures { self.new ≡ with_actions self.old }
    {
        name_all(self.leaves.as_mut_slice());
    }

    /// Adds a leaf, where `first` is the order of its first token, and `token` that of the token that tells the leaf: another one
    /// or the same.
    #[inline(always)]
    pub fn leaf(&mut self, first: u32, token: u32, leaf: Leaf) -> Result<(), AllocError>
        ensures { OnOk result (self.new ≡ with_leaf first token leaf self.old) }
    {
        let place = self.leaves.len();
        self.leaves.push(leaf)?;
        self.symbols.push(Symbol::Leaf {
            first,
            token,
            leaf: place,
        })?;
        self.firsts.push(first)?;
        Ok(())
    }

    /// Adds the operator `op` in front of the latest expression.
    pub fn prefix(&mut self, op: Unary) -> Result<(), AllocError>
        ensures { OnOk result (self.new ≡ with_prefix op self.old) }
    {
        let order = latest(&self.firsts).saturating_sub(1);
        self.symbols.push(Symbol::Prefix(order, op))?;
        begin(&mut self.firsts, order);
        Ok(())
    }

    /// Adds the operator `op` behind the latest expression.
    pub fn suffix(&mut self, op: Unary) -> Result<(), AllocError>
        ensures { OnOk result (self.new ≡ with_suffix op self.old) }
    {
        self.symbols.push(Symbol::Suffix(op))?;
        Ok(())
    }

    /// Joins the latest two expressions by the operator `op`.
    pub fn two(&mut self, op: Binary) -> Result<(), AllocError>
        ensures { OnOk result (self.new ≡ with_two op self.old) }
    {
        self.symbols.push(Symbol::Two(op))?;
        self.firsts.pop();
        Ok(())
    }

    /// Joins the latest two expressions by a comma. In brackets it is the operator.
    pub fn comma(&mut self) -> Result<(), AllocError>
        ensures { OnOk result (self.new ≡ with_comma self.old) }
    {
        self.symbols.push(comma(&self.brackets))?;
        self.firsts.pop();
        Ok(())
    }

    /// Opens a list: the arguments of a call, or the values against which something is tested.
    pub fn open_list(&mut self) -> Result<(), AllocError>
        ensures { OnOk result (self.new ≡ with_list self.old) }
    {
        self.counts.push(0)?;
        Ok(())
    }

    /// Counts the latest expression as a part of the open list.
    pub fn part(&mut self)
        ensures { self.new ≡ with_part self.old }
    {
        count_part(&mut self.counts);
    }

    /// Makes a call with the parts of the open list as arguments, and closes the list.
    pub fn call(&mut self) -> Result<(), AllocError>
        ensures { OnOk result (self.new ≡ with_call self.old) }
    {
        let given = latest(&self.counts);
        self.symbols.push(Symbol::Call(given))?;
        cut_back(&mut self.firsts, given);
        self.counts.pop();
        Ok(())
    }

    /// Tests an expression by `op` against the parts of the open list, and closes the list.
    pub fn test(&mut self, op: Binary) -> Result<(), AllocError>
        ensures { OnOk result (self.new ≡ with_test op self.old) }
    {
        let parts = latest(&self.counts);
        let joined = Symbol::List(parts.saturating_sub(1));
        let tested = Symbol::Two(op);
        self.symbols.push(joined)?;
        self.symbols.push(tested)?;
        cut_back(&mut self.firsts, parts);
        self.counts.pop();
        Ok(())
    }

    /// Opens a bracket, whose token has the order `order`.
    pub fn open_bracket(&mut self, order: u32) -> Result<(), AllocError>
        ensures { OnOk result (self.new ≡ with_bracket order self.old) }
    {
        self.brackets.push(order)?;
        Ok(())
    }

    /// Takes the bracket that was opened last, with the latest leaf in it, for a print rule. A rule of the language, for which
    /// `is_own` holds, is no expression, and its leaf is taken away.
    pub fn rule(&mut self, is_own: bool)
        ensures { self.new ≡ with_rule is_own self.old }
    {
        self.brackets.pop();
        if is_own {
            self.leaves.truncate(self.leaves.len().saturating_sub(1));
            self.symbols.truncate(self.symbols.len().saturating_sub(1));
            self.firsts.pop();
        }
    }

    /// Closes the bracket that was opened last, in which the latest expression is.
    pub fn close_bracket(&mut self) -> Result<(), AllocError>
        ensures { OnOk result (self.new ≡ with_closed_bracket self.old) }
    {
        if let Some(order) = self.brackets.pop() {
            self.symbols.push(Symbol::Bracketed(order))?;
            begin(&mut self.firsts, order);
        }
        Ok(())
    }
}

/// Returns the last of some numbers, or 0.
fn latest(numbers: &Vec<u32>) -> u32
    ensures { result ≡ latest (reverse numbers.now.items) }
{
    match numbers.last() {
        Some(number) => *number,
        None => 0,
    }
}

/// Sets the last of `numbers` to `order`, if there is one.
fn begin(numbers: &mut Vec<u32>, order: u32)
    ensures { reverse numbers.new.items ≡ beginning order (reverse numbers.old.items) }
{
    if let Some(last) = numbers.last_mut() {
        *last = order;
    }
}

/// Adds one part to the last of `counts`, if there is one.
fn count_part(counts: &mut Vec<u32>)
    ensures { reverse counts.new.items ≡ one_more (reverse counts.old.items) }
{
    if let Some(count) = counts.last_mut() {
        *count = counted(*count);
    }
}

/// Returns one more than `count`, as far as numbers go.
fn counted(count: u32) -> u32
    ensures { result ≡ counted count }
{
    if count == u32::MAX { count } else { count + 1 }
}

/// Removes the last `count` of `numbers`, or all where there are fewer.
fn cut_back(numbers: &mut Vec<u32>, count: u32)
    ensures { reverse numbers.new.items ≡ drop count (reverse numbers.old.items) }
{
    drop_last(numbers, count as usize);
}

/// Removes the last `count` of `numbers`, or all where there are fewer.
fn drop_last(numbers: &mut Vec<u32>, count: usize)
    ensures { reverse numbers.new.items ≡ drop count (reverse numbers.old.items) }
{
    let len = numbers.len();
    numbers.truncate(len.saturating_sub(count));
}

/// Returns the symbol of a comma, by the brackets that are open.
fn comma(brackets: &Vec<u32>) -> Symbol
    ensures { result ≡ comma (reverse brackets.now.items) }
{
    match brackets.last() {
        Some(_) => Symbol::Two(Binary::Comma),
        None => Symbol::Comma,
    }
}
