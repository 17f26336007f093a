//! The unit at hand: its tokens, and the parts that the actions of the grammar gather of them.
ghost use Rattle.std.specs.Prelude.{◌≡◌, ◌≤◌, ◌++◌, ◌∷◌, [], None, IfOk, OnOk, Some, length};
ghost use Rattle.inf_unit.specs.{AtHand.unit, Spelled.spelled};
ghost use Rattle.inf_unit.specs.Units.{acted, begun, crowd_begun, depth_behind, first_place, forgotten, headed_more, is_again, is_alone};
ghost use Rattle.inf_unit.specs.Units.{is_assembly, marked_from, value_sifted, is_full, is_sign, jump_label, jump_of, last_leaf};
ghost use Rattle.inf_unit.specs.Units.{last_passed, leaf_of, line_opcode, long_at, next_place, no_unit, noted, opcode_text};
ghost use Rattle.inf_unit.specs.Units.{operands_passed, order, outer_tokens, over, own_place, prepared, printed, ruled, semicolon_taken};
ghost use Rattle.inf_unit.specs.Units.{sifted, stepped, taken, text_passed, told_leaf, with_item};

use crate::crowds::{Crowd, forget_crowd};
use crate::items::{Item, code_behind, rule_of};
use crate::kinds::is_mark;
use crate::long_lines::{LongLine, forget_line};
use crate::opcodes::{opcode_of, takes_text};
use crate::roles::{Note, Role, role_of};
use crate::steps::GatherStep;
use crate::tokens::SourceToken;
use crate::unit_tokens::UnitTokens;
use inf_expressions::{Finding, least_of_both};
use inf_gathering::gathering::{Gathering, Leaf};
use inf_names::hashing::NameHashing;
use inf_names::locals::Headed;
use inf_names::spellings::Name;
use inf_opcode::Opcode;
use inf_scanner::{Mark, Place, TokenKind};
use inf_syntax::Action;
use std::alloc::{AllocError, Global};

/// The most operands of an assembly line that are kept until they are judged.
const MOST_KEPT: usize = 64;

/// The unit at hand.
#[derive(Drop)]
pub struct Unit {
    /// The tokens of the unit, and before them the first of those between the unit before and its beginning, where there are such.
    pub tokens: UnitTokens,
    /// The place of the unit's first token among them.
    pub begun: usize,
    pub gathering: Gathering,
    /// The locals that the unit names, where it is the header of a routine.
    pub headed: Headed,
    /// The items that the unit has beside its expressions, in order.
    pub items: Vec<Item>,
    /// The least number of bytes of the code of the items.
    pub code: usize,
    /// The place among the tokens where the outermost expression begins, if one is open.
    pub outer: Option<usize>,
    /// Tells whether that surely is an expression.
    pub is_sure: bool,
    /// Tells whether the unit has ended, but for its last token.
    pub is_over: bool,
    /// The number of brackets and braces of the piece that are open.
    pub depth: u32,
    /// The number of tokens of the unit, where it is whole and waits for the token that follows it.
    pub held: Option<usize>,
    /// The least finding of operands that are not kept.
    pub passed: Option<Finding>,
    /// The tokens of the unit, where it is a line of grammar or the header of a verb that has too many.
    pub long: Option<LongLine>,
    /// The values of the unit, where it prints or gives too many.
    pub crowd: Option<Crowd>,
}

fn leaf_of(at: usize, kind: TokenKind) -> Leaf
    ensures { result ≡ leaf_of at kind }
{
    match kind {
        TokenKind::Number(number) => Leaf::Number(number),
        TokenKind::Char(character) => Leaf::Char(character),
        TokenKind::Word(word) => Leaf::Word(word),
        TokenKind::Text => Leaf::Text(at),
        _ => Leaf::Name(at),
    }
}

/// Returns `leaf`, as an operand of an assembly line by itself if `is_alone` and if it is a name.
fn told_leaf(is_alone: bool, leaf: Leaf) -> Leaf
    ensures { result ≡ told_leaf is_alone leaf }
{
    match leaf {
        Leaf::Name(at) if is_alone => Leaf::Alone(at),
        _ => leaf,
    }
}

/// Returns the place of the name of a label to which an instruction with the operands `leaves` jumps, if they are one name.
fn jump_label(leaves: &[Leaf]) -> Option<usize>
    ensures { result ≡ jump_label leaves.now }
{
    match leaves {
        [Leaf::Alone(at)] => Some(*at),
        _ => None,
    }
}

/// Returns the order of the token at place `at` of its unit. A unit has fewer tokens than there are orders, so no two tokens have one
/// order.
#[tactic(auto, unfolding(crate::specs::Units::order))]
pub fn order(at: usize) -> u32
    ensures { result ≡ order at }
{
    at.min(4294967295) as u32
}

/// Returns the place behind `at`.
#[tactic(auto, unfolding(crate::specs::Units::next_place))]
pub fn next_place(at: usize) -> usize
    ensures { result ≡ next_place at }
{
    at.saturating_add(1)
}

/// Returns the number of brackets and braces that are open behind a token of `kind`, where `depth` are open before it.
fn depth_behind(kind: TokenKind, depth: u32) -> u32
    ensures { result ≡ depth_behind kind depth }
{
    match kind {
        TokenKind::Mark(Mark::OpenParenthesis | Mark::OpenBrace) => depth.saturating_add(1),
        TokenKind::Mark(Mark::CloseParenthesis | Mark::CloseBrace) => depth.saturating_sub(1),
        _ => depth,
    }
}

fn is_sign(kind: Option<TokenKind>) -> bool
    ensures { result ≡ is_sign kind }
{
    matches!(kind, Some(TokenKind::Mark(Mark::DoubleHash | Mark::Hash)))
}

/// Returns the place where the name of an action or a system constant begins, which the token at `at` is: at the sign before it, if
/// one is there.
fn marked_from(tokens: &UnitTokens, at: usize) -> usize
    ensures { result ≡ marked_from tokens.now at }
{
    let before = at.saturating_sub(1);
    if is_sign(tokens.kind(before)) {
        before
    } else {
        at
    }
}

impl Unit {
    /// Makes a unit at the front of a piece. Memory is taken only when a token comes.
    pub fn new(alloc: Global) -> Unit
        ensures { unit result ≡ no_unit }
    {
        Unit {
            tokens: UnitTokens::new(alloc),
            begun: 0,
            gathering: Gathering::new(alloc),
            headed: Headed::new(),
            items: Vec::new(alloc),
            code: 0,
            outer: None,
            is_sure: false,
            is_over: false,
            depth: 0,
            held: None,
            passed: None,
            long: None,
            crowd: None,
        }
    }

    /// Forgets all of the unit, since another piece begins.
    pub fn clear(&mut self)
        ensures { unit self.new ≡ no_unit }
    {
        self.tokens.clear();
        self.begin();
        self.depth = 0;
    }

    /// Begins a unit of the same piece, whose first token is the next one. Of the tokens before it the first is kept, where there is one.
    fn begin(&mut self)
        ensures { unit self.new ≡ begun (unit self.old) }
    {
        self.tokens.keep_first();
        self.begun = self.tokens.len();
        self.forget();
    }

    /// Forgets all that was gathered.
    fn forget(&mut self)
        ensures { unit self.new ≡ forgotten (unit self.old) }
    {
        self.gathering.clear();
        self.headed.clear();
        self.items.clear();
        self.code = 0;
        self.outer = None;
        self.is_sure = false;
        self.is_over = false;
        self.held = None;
        self.passed = None;
        forget_line(&mut self.long);
        forget_crowd(&mut self.crowd);
    }

    /// Ends the unit, whose last token is still to come if `has_last`. Where the unit waited, the first of the tokens behind it stays.
    pub fn end(&mut self, has_last: bool)
        ensures { unit self.new ≡ over has_last (unit self.old) }
    {
        match self.held {
            Some(count) => self.tokens.keep_one(count),
            None => self.tokens.clear(),
        }
        self.begun = 0;
        self.forget();
        self.is_over = has_last;
    }

    /// Takes `token`, unless it is the last one of a unit that has ended.
    // It is inlined, as the other work for each token is: a call costs as much as half of it.
    #[inline(always)]
    pub fn take(&mut self, token: &SourceToken<'_>) -> Result<(), AllocError>
        ensures { OnOk result (unit self.new ≡ taken (spelled token.now) (unit self.old)) }
    {
        if self.is_over {
            self.is_over = false;
            return Ok(());
        }
        self.depth = depth_behind(token.kind, self.depth);
        self.tokens.add(token)
    }

    /// Gathers or notes the part of the unit that `action` stands for. An action that ends a unit, or has to do with the statements
    /// around it, does neither.
    pub fn act(&mut self, action: Action) -> Result<(), AllocError>
        ensures { OnOk result (unit self.new ≡ acted action (unit self.old)) }
    {
        match role_of(action) {
            Role::Gather(step) => self.step(step),
            Role::Note(note) => self.note(note),
            Role::End(_)
            | Role::Open(_)
            | Role::Join
            | Role::Close
            | Role::Deeper
            | Role::MaybeDeeper
            | Role::Nothing => Ok(()),
        }
    }

    /// Makes `note` of the unit, by the tokens that were taken so far.
    #[inline(always)]
    pub fn note(&mut self, note: Note) -> Result<(), AllocError>
        ensures { OnOk result (unit self.new ≡ noted note (unit self.old)) }
    {
        let last = self.last();
        match note {
            Note::Begin => self.begin(),
            Note::Local => self.local(),
            Note::Arrow => {}
            Note::Semicolon => self.semicolon(),
            Note::Outer(is_sure) => self.open_outer(is_sure),
            Note::OuterWord => {
                self.outer = Some(last);
                self.is_sure = true;
            }
            Note::OuterSure => self.is_sure = true,
            Note::OuterEnd => self.outer = None,
            Note::Hold => {
                self.held = Some(self.tokens.len());
                self.outer = None;
            }
            Note::PrintText => return self.print(Item::Text(last)),
            Note::PrintValue => return self.print(Item::Value),
            Note::PrintRuled => self.outer = None,
            Note::Rule => return self.rule(),
            Note::Set => return self.item(Item::Set),
            Note::Clear => return self.item(Item::Clear),
            Note::Default => return self.item(Item::Default),
            Note::AsmText => return self.opcode_text(),
            Note::Store => return self.item(Item::Store(last)),
            Note::Branch(sense) => return self.item(Item::Branch(last, sense)),
            Note::LineToken | Note::VerbWord => {}
        }
        Ok(())
    }

    /// Drops the last token, a text that is printed, and the comma before it.
    pub fn pass_text(&mut self)
        ensures { unit self.new ≡ text_passed (unit self.old) }
    {
        self.outer = None;
        self.tokens.truncate(self.tokens.len().saturating_sub(2));
    }

    /// Returns whether the unit is an assembly line with more operands than are kept.
    pub fn is_full(&self) -> bool
        ensures { result ≡ is_full (unit self.now) }
    {
        self.gathering.wholes() > MOST_KEPT && self.is_assembly()
    }

    /// Replaces the operands of an assembly line by as many numbers as are too many, and keeps `finding`, the least that was found
    /// of them, unless one before was less.
    pub fn pass_operands(&mut self, finding: Option<Finding>) -> Result<(), AllocError>
        ensures { OnOk result (unit self.new ≡ operands_passed finding (unit self.old)) }
    {
        self.passed = least_of_both(self.passed, finding);
        self.outer = None;
        let opcode = next_place(self.begun);
        self.tokens.truncate(next_place(opcode));
        self.gathering.keep_numbers(9)
    }

    /// Ends a token of a line or of the header of a verb that has too many. The first time, the tokens so far are kept, one of which is
    /// wrong if `is_bad`; later, the token is kept if it is wrong by `is_bad` or new by `is_new`, unless one before it is wrong.
    pub fn sift(&mut self, alloc: Global, hashing: NameHashing, is_bad: bool, is_new: bool)
        ensures { unit self.new ≡ sifted is_bad is_new (unit self.old) }
    {
        let count = self.tokens.len();
        match &mut self.long {
            None => self.long = Some(LongLine::new(alloc, hashing, count, is_bad)),
            Some(line) if (is_bad | is_new) & !line.is_bad => {
                line.count = count;
                line.is_bad = is_bad;
            }
            Some(line) => self.tokens.truncate(line.count),
        }
    }

    /// Has the values of the unit be sifted from the next one on. All that the unit has so far is the first of them.
    pub fn begin_crowd(&mut self, alloc: Global, hashing: NameHashing)
        ensures { unit self.new ≡ crowd_begun (unit self.old) }
    {
        match &self.crowd {
            Some(_) => {}
            None => self.crowd = Some(Crowd::new(alloc, hashing)),
        }
    }

    /// Ends the value at hand of a unit that has too many, about which `finding` is the least. It is kept where it tells something.
    pub fn sift_value(&mut self, finding: Option<Finding>)
        ensures { unit self.new ≡ value_sifted finding (unit self.old) }
    {
        let (count, items, code) = (self.tokens.len(), self.items.len(), self.code);
        let extent = self.gathering.extent();
        match &mut self.crowd {
            None => {}
            Some(crowd) if crowd.is_telling(finding) => {
                crowd.keep(count, items, code, extent, finding);
            }
            Some(crowd) => {
                self.tokens.truncate(crowd.line.count);
                self.items.truncate(crowd.items);
                self.code = crowd.code;
                self.gathering.cut(crowd.extent);
                crowd.pass();
            }
        }
    }

    /// Keeps the last token, which names a local, among the locals, and not among the tokens.
    fn local(&mut self)
        ensures { unit self.new ≡ headed_more (unit self.old) }
    {
        let last = self.last();
        if let Some(name) = self.tokens.name_at(last) {
            self.headed.add(&Name::new(name.bytes, name.place));
        }
        self.tokens.truncate(last);
    }

    /// Takes the last token, a semicolon beside the entries of an array: it is not kept right behind another one.
    fn semicolon(&mut self)
        ensures { unit self.new ≡ semicolon_taken (unit self.old) }
    {
        if self.is_again(self.last()) {
            self.pass_last();
        }
    }

    /// Returns whether a semicolon stands right before place `at` of the unit.
    fn is_again(&self, at: usize) -> bool
        ensures { result ≡ is_again at (unit self.now).tokens }
    {
        match self.tokens.kind(at.saturating_sub(1)) {
            Some(kind) => is_mark(kind, Mark::Semicolon) && at > 0,
            None => false,
        }
    }

    /// Drops the last token.
    pub fn pass_last(&mut self)
        ensures { unit self.new ≡ last_passed (unit self.old) }
    {
        let count = self.last();
        self.tokens.truncate(count);
    }

    /// Opens an outermost expression, which begins with the next token, and surely is one if `is_sure`.
    fn open_outer(&mut self, is_sure: bool)
        ensures { let before = unit self.old in unit self.new ≡ record before { outer = Some (length before.tokens); is_sure = is_sure } }
    {
        self.outer = Some(self.tokens.len());
        self.is_sure = is_sure;
    }

    /// Returns the place of the last token among those of the unit.
    pub fn last(&self) -> usize
        ensures { result ≡ last_leaf (unit self.now) }
    {
        self.tokens.len().saturating_sub(1)
    }

    /// Adds `item` beside the expressions.
    fn item(&mut self, item: Item) -> Result<(), AllocError>
        ensures { OnOk result (unit self.new ≡ with_item item (unit self.old)) }
    {
        self.items.push(item)?;
        self.code = code_behind(item, self.code);
        Ok(())
    }

    /// Adds `item`, which is printed and with which an outermost expression ends.
    fn print(&mut self, item: Item) -> Result<(), AllocError>
        ensures { let before = unit self.old in OnOk result (unit self.new ≡ printed item before) }
    {
        self.outer = None;
        self.item(item)
    }

    /// Adds the print rule that the name in the bracket that was closed last is.
    fn rule(&mut self) -> Result<(), AllocError>
        ensures { OnOk result (unit self.new ≡ ruled (unit self.old)) }
    {
        let rule = rule_of(self.tokens.bytes_at(self.tokens.len().saturating_sub(2)));
        self.gathering.rule(rule.is_own());
        self.item(Item::Ruled(rule))
    }

    fn opcode_text(&mut self) -> Result<(), AllocError>
        ensures { OnOk result (unit self.new ≡ opcode_text (unit self.old)) }
    {
        let opcode = next_place(self.begun);
        if takes_text(self.tokens.bytes_at(opcode)) {
            self.item(Item::Text(self.last()))
        } else {
            self.leaf()
        }
    }

    fn is_assembly(&self) -> bool
        ensures { result ≡ is_assembly (unit self.now) }
    {
        match self.tokens.kind(self.begun) {
            Some(kind) => is_mark(kind, Mark::At),
            None => false,
        }
    }

    /// Returns whether the token at place `at` is an operand of an assembly line by itself, if it is a name.
    fn is_alone(&self, at: usize) -> bool
        ensures { result ≡ is_alone at (unit self.now) }
    {
        match self.outer {
            Some(outer) => outer == at && self.is_assembly(),
            None => false,
        }
    }

    /// Returns the opcode that an assembly line has, by the name behind its first token, if that is the name of one.
    fn opcode(&self) -> Option<Opcode>
        ensures { result ≡ line_opcode (unit self.now) }
    {
        opcode_of(self.tokens.bytes_at(next_place(self.begun)))
    }

    /// Returns the place of the name of the label to which the unit jumps, where it is the assembly line of a jump with one name. The
    /// opcode of a line is `opcode`.
    fn jump_of(&self, opcode: Option<Opcode>) -> Option<usize>
        requires { opcode ≡ line_opcode (unit self.now) }
        ensures { result ≡ jump_of (unit self.now) }
    {
        if !self.is_assembly() {
            return None;
        }
        let opcode = opcode?;
        if opcode.row().jumps {
            jump_label(self.gathering.leaves())
        } else {
            None
        }
    }

    /// Prepares a whole unit: the name of the label to which an assembly line jumps is no expression. Returns the opcode of a line.
    pub fn prepare_line(&mut self) -> Result<Option<Opcode>, AllocError>
        ensures prepared { OnOk result (unit self.new ≡ prepared (unit self.old)) }
        ensures opcode { IfOk result (λ opcode. opcode ≡ line_opcode (unit self.new)) }
    {
        let opcode = self.opcode();
        let Some(label) = self.jump_of(opcode) else {
            return Ok(opcode);
        };
        self.gathering.clear();
        self.item(Item::Jump(label))?;
        Ok(opcode)
    }

    /// Prepares a whole unit: the name of the label to which an assembly line jumps is no expression.
    pub fn prepare(&mut self) -> Result<(), AllocError>
        ensures { OnOk result (unit self.new ≡ prepared (unit self.old)) }
    {
        if !self.is_assembly() {
            return Ok(());
        }
        self.prepare_line()?;
        Ok(())
    }

    /// Gathers the expression at hand by `step`, whose leaf or operator is the last token.
    #[inline(always)]
    pub fn step(&mut self, step: GatherStep) -> Result<(), AllocError>
        ensures { OnOk result (unit self.new ≡ stepped step (unit self.old)) }
    {
        let last = order(self.last());
        match step {
            GatherStep::Leaf => self.leaf(),
            GatherStep::Action => self.action(),
            GatherStep::System => self.system(),
            GatherStep::Prefix(op) => self.gathering.prefix(op),
            GatherStep::Suffix(op) => self.gathering.suffix(op),
            GatherStep::Two(op) => self.gathering.two(op),
            GatherStep::Comma => self.gathering.comma(),
            GatherStep::List => self.gathering.open_list(),
            GatherStep::Part => {
                self.gathering.part();
                Ok(())
            }
            GatherStep::Call => self.gathering.call(),
            GatherStep::Test(op) => self.gathering.test(op),
            GatherStep::Bracket => self.gathering.open_bracket(last),
            GatherStep::Bracketed => self.gathering.close_bracket(),
        }
    }

    /// Gathers the last token, which names an action.
    fn action(&mut self) -> Result<(), AllocError>
        ensures { OnOk result (unit self.new ≡ stepped GatherStep.Action (unit self.old)) }
    {
        let at = self.last();
        let first = marked_from(&self.tokens, at);
        self.gathering
            .leaf(order(first), order(at), Leaf::Action(at))
    }

    /// Gathers the last token, which names a system constant.
    fn system(&mut self) -> Result<(), AllocError>
        ensures { OnOk result (unit self.new ≡ stepped GatherStep.System (unit self.old)) }
    {
        let at = self.last();
        let first = marked_from(&self.tokens, at);
        self.gathering
            .leaf(order(first), order(at), Leaf::System(at))
    }

    /// Gathers the last token, which is a leaf.
    #[inline(always)]
    fn leaf(&mut self) -> Result<(), AllocError>
        ensures { OnOk result (unit self.new ≡ stepped GatherStep.Leaf (unit self.old)) }
    {
        let at = self.last();
        let is_alone = self.is_alone(at);
        match self.tokens.kind(at) {
            Some(kind) => self.gathering.leaf(
                order(at),
                order(at),
                told_leaf(is_alone, leaf_of(at, kind)),
            ),
            None => Ok(()),
        }
    }

    /// Returns the place in the source of the unit's first token, or `next`, that of the token to come, where it has none yet.
    pub fn own_place(&self, next: Place) -> Place
        ensures { result ≡ own_place (unit self.now) next }
    {
        self.tokens.place(self.begun).unwrap_or(next)
    }

    /// Returns the place in the source of the first token behind the unit before, or `next`, that of the token to come, where there is none
    /// yet.
    pub fn first_place(&self, next: Place) -> Place
        ensures { result ≡ first_place (unit self.now).tokens next }
    {
        self.tokens.place(0).unwrap_or(next)
    }

    /// Returns the place of the first token by which the outermost expression is too long, if it surely is an expression and has more than
    /// `most` tokens.
    pub fn long_at(&self, most: usize) -> Option<Place>
        ensures { result ≡ long_at most (unit self.now) }
    {
        let outer = self.outer?;
        if !self.is_sure || self.tokens.len().saturating_sub(outer) <= most {
            return None;
        }
        self.tokens.place(outer.saturating_add(most))
    }

    /// Returns the number of tokens that the outermost expression has so far: 0 where it may be no expression.
    pub fn outer_tokens(&self) -> usize
        ensures { result ≡ outer_tokens (unit self.now) }
    {
        match self.outer {
            Some(outer) if self.is_sure => self.tokens.len().saturating_sub(outer),
            _ => 0,
        }
    }
}
