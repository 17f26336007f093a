//! The roles of the actions of the grammar.
ghost use Rattle.std.specs.Prelude.{◌≡◌};
ghost use Rattle.inf_unit.specs.Roles.{ends_outer, ends_token, ends_value, failing, is_arrow, is_text, is_verb_word, makes_sure};
ghost use Rattle.inf_unit.specs.Roles.{operation, prefix, property, role_of, suffix, test, two};

use crate::steps::GatherStep;
use inf_expressions::{Binary, Direction, Operation, PropertyPart, Single, Test, Unary};
use inf_syntax::Action;

/// A note that an action makes of a unit, beside the steps by which it gathers expressions.
#[derive(Clone, Copy)]
pub enum Note {
    /// The next token is the first of a unit.
    Begin,
    /// The last token names a local in the header of a routine.
    Local,
    /// The last token is an arrow before the name of an object.
    Arrow,
    /// The last token is a semicolon beside the entries of an array.
    Semicolon,
    /// An outermost expression begins with the next token, and surely is one or not.
    Outer(bool),
    /// An outermost expression began with the last token.
    OuterWord,
    /// The outermost expression that is open surely is one.
    OuterSure,
    /// No outermost expression is open any more.
    OuterEnd,
    /// The unit is whole, and waits for what follows it.
    Hold,
    /// The last token is a text that is printed.
    PrintText,
    /// The latest expression is printed.
    PrintValue,
    /// The latest expression is printed by a rule.
    PrintRuled,
    /// The name in the bracket that was closed last is a print rule.
    Rule,
    /// The next expression is an attribute that is set, or one that is cleared.
    Set,
    Clear,
    /// The case is the default.
    Default,
    /// The last token is a text behind an opcode.
    AsmText,
    /// The last token names where an instruction stores.
    Store,
    /// The last token names a label to which an instruction branches, where its test holds or where it fails.
    Branch(bool),
    /// The last tokens are one of a line of grammar.
    LineToken,
    /// The last token is a further word of a verb.
    VerbWord,
}

/// The kind of a unit that ends.
#[derive(Clone, Copy)]
pub enum Ending {
    /// The header of a routine, and of one that is the value of a property.
    Locals,
    Embedded,
    /// A routine.
    Routine,
    /// A directive that is one unit.
    Directive,
    /// The header of a directive that is not one unit.
    Header,
    /// The body of an object or a class; its parts.
    Body,
    Class,
    Attribute,
    Property,
    Value,
    /// A line of grammar.
    Line,
    /// A text of `Abbreviate`.
    Abbreviation,
    /// An entry of an array, and one that is alone.
    Entry,
    Alone,
    Statement,
    /// The parts of statements that hold others: a condition; the three parts of a `for`; the objects that a loop goes over; the
    /// value of a `switch`; the values of a case.
    Condition,
    Start,
    Step,
    Loop,
    Switched,
    Case,
}

/// The kind of a statement that begins and holds others.
#[derive(Clone, Copy)]
pub enum Opening {
    If,
    While,
    Do,
    For,
    Objectloop,
    Switch,
}

/// The role of an action of the grammar.
#[derive(Clone, Copy)]
pub enum Role {
    /// A step of an expression is gathered.
    Gather(GatherStep),
    /// A note is made of the unit.
    Note(Note),
    /// A unit ends.
    End(Ending),
    /// A statement begins that holds others.
    Open(Opening),
    /// The innermost statement that holds others goes on with its next part.
    Join,
    /// The innermost statement that holds others is over.
    Close,
    /// A statement stands in another one, or may stand in one.
    Deeper,
    MaybeDeeper,
    /// Nothing is done: the front of a routine.
    Nothing,
}

/// Returns the role of the operator `op` of one expression, in front of it.
fn prefix(op: Unary) -> Role
    ensures { result ≡ prefix op }
{
    Role::Gather(GatherStep::Prefix(op))
}

/// Returns the role of the operator `op` of one expression, behind it.
fn suffix(op: Unary) -> Role
    ensures { result ≡ suffix op }
{
    Role::Gather(GatherStep::Suffix(op))
}

/// Returns the role of the operator `op` of two expressions.
fn two(op: Binary) -> Role
    ensures { result ≡ two op }
{
    Role::Gather(GatherStep::Two(op))
}

/// Returns the role of the operation `op` of two expressions.
fn operation(op: Operation) -> Role
    ensures { result ≡ operation op }
{
    two(Binary::Operation(op))
}

/// Returns the role of a reading of `part` of a property of an object.
fn property(part: PropertyPart) -> Role
    ensures { result ≡ property part }
{
    two(Binary::Property(part))
}

fn test(by: Test) -> Role
    ensures { result ≡ test by }
{
    Role::Gather(GatherStep::Test(Binary::Test(by)))
}

/// Returns the role of the test `by` that has to fail.
fn failing(by: Test) -> Role
    ensures { result ≡ failing by }
{
    Role::Gather(GatherStep::Test(Binary::Fails(by)))
}

/// Returns whether `note` makes sure that an expression is open, whose tokens then count.
pub fn makes_sure(note: Note) -> bool
    ensures { result ≡ makes_sure note }
{
    matches!(note, Note::OuterSure | Note::OuterWord)
}

/// Returns whether `note` is that of a text that is printed.
pub fn is_text(note: Note) -> bool
    ensures { result ≡ is_text note }
{
    matches!(note, Note::PrintText)
}

/// Returns whether `note` is that of an arrow before the name of an object.
pub fn is_arrow(note: Note) -> bool
    ensures { result ≡ is_arrow note }
{
    matches!(note, Note::Arrow)
}

/// Returns whether `note` is that of the end of an outermost expression.
pub fn ends_outer(note: Note) -> bool
    ensures { result ≡ ends_outer note }
{
    matches!(note, Note::OuterEnd)
}

/// Returns whether `note` is that of the end of a token of a line of grammar.
pub fn ends_token(note: Note) -> bool
    ensures { result ≡ ends_token note }
{
    matches!(note, Note::LineToken)
}

/// Returns whether `note` is that of a whole value of a statement that prints, or of an attribute that one gives or takes.
pub fn ends_value(note: Note) -> bool
    ensures { result ≡ ends_value note }
{
    matches!(
        note,
        Note::PrintValue | Note::PrintRuled | Note::Set | Note::Clear
    )
}

/// Returns whether `note` is that of a further word of a verb.
pub fn is_verb_word(note: Note) -> bool
    ensures { result ≡ is_verb_word note }
{
    matches!(note, Note::VerbWord)
}

/// Returns the role of `action`. It is inlined: a call would cost more than the look into the table.
#[inline(always)]
pub fn role_of(action: Action) -> Role
    ensures { result ≡ role_of action }
{
    match action {
        // Expressions
        Action::Name | Action::Number | Action::Char | Action::Word | Action::Text => Role::Gather(
            GatherStep::Leaf,
        ),
        Action::Action => Role::Gather(GatherStep::Action),
        Action::System => Role::Gather(GatherStep::System),
        Action::Negate => prefix(Unary::Negate),
        Action::BitNot => prefix(Unary::Single(Single::Complement)),
        Action::Not => prefix(Unary::Not),
        Action::IncrementBefore => prefix(Unary::Before(Direction::Up)),
        Action::DecrementBefore => prefix(Unary::Before(Direction::Down)),
        Action::IncrementAfter => suffix(Unary::Behind(Direction::Up)),
        Action::DecrementAfter => suffix(Unary::Behind(Direction::Down)),
        Action::Plus => operation(Operation::Add),
        Action::Minus => operation(Operation::Subtract),
        Action::Times => operation(Operation::Multiply),
        Action::Divide => operation(Operation::Divide),
        Action::Remainder => operation(Operation::Remainder),
        Action::BitAnd => operation(Operation::BitAnd),
        Action::BitOr => operation(Operation::BitOr),
        Action::ByteEntry => operation(Operation::Byte),
        Action::WordEntry => operation(Operation::Word),
        Action::Member => property(PropertyPart::Value),
        Action::MemberAddress => property(PropertyPart::Address),
        Action::MemberLength => property(PropertyPart::Length),
        Action::And => two(Binary::And),
        Action::Or => two(Binary::Or),
        Action::Assign => two(Binary::Assign),
        Action::To => two(Binary::To),
        Action::Comma => Role::Gather(GatherStep::Comma),
        Action::Count => Role::Gather(GatherStep::List),
        Action::Part => Role::Gather(GatherStep::Part),
        Action::Call => Role::Gather(GatherStep::Call),
        Action::Equal => test(Test::Equal),
        Action::Unequal => failing(Test::Equal),
        Action::Less => test(Test::Less),
        Action::Greater => test(Test::Greater),
        Action::LessOrEqual => test(Test::AtMost),
        Action::GreaterOrEqual => test(Test::AtLeast),
        Action::Has => test(Test::Has),
        Action::HasNot => failing(Test::Has),
        Action::In => test(Test::In),
        Action::NotIn => failing(Test::In),
        Action::OfClass => test(Test::OfClass),
        Action::Provides => test(Test::Provides),
        Action::Bracket => Role::Gather(GatherStep::Bracket),
        Action::Bracketed => Role::Gather(GatherStep::Bracketed),
        // Units
        Action::Begin => Role::Note(Note::Begin),
        Action::Local => Role::Note(Note::Local),
        Action::Arrow => Role::Note(Note::Arrow),
        Action::Semicolon => Role::Note(Note::Semicolon),
        Action::Outer => Role::Note(Note::Outer(true)),
        Action::OuterMaybe => Role::Note(Note::Outer(false)),
        Action::OuterWord => Role::Note(Note::OuterWord),
        Action::OuterSure => Role::Note(Note::OuterSure),
        Action::OuterEnd => Role::Note(Note::OuterEnd),
        Action::Hold => Role::Note(Note::Hold),
        Action::PrintText => Role::Note(Note::PrintText),
        Action::PrintValue => Role::Note(Note::PrintValue),
        Action::PrintRule => Role::Note(Note::PrintRuled),
        Action::Rule => Role::Note(Note::Rule),
        Action::Set => Role::Note(Note::Set),
        Action::Clear => Role::Note(Note::Clear),
        Action::Default => Role::Note(Note::Default),
        Action::AsmText => Role::Note(Note::AsmText),
        Action::Store => Role::Note(Note::Store),
        Action::Branch => Role::Note(Note::Branch(true)),
        Action::BranchNot => Role::Note(Note::Branch(false)),
        Action::Token => Role::Note(Note::LineToken),
        Action::VerbWord => Role::Note(Note::VerbWord),
        Action::EndLocals => Role::End(Ending::Locals),
        Action::EndEmbedded => Role::End(Ending::Embedded),
        Action::EndRoutine => Role::End(Ending::Routine),
        Action::EndDirective => Role::End(Ending::Directive),
        Action::EndHeader => Role::End(Ending::Header),
        Action::EndBody => Role::End(Ending::Body),
        Action::EndClass => Role::End(Ending::Class),
        Action::EndAttribute => Role::End(Ending::Attribute),
        Action::EndProperty => Role::End(Ending::Property),
        Action::EndValue => Role::End(Ending::Value),
        Action::EndLine => Role::End(Ending::Line),
        Action::EndText => Role::End(Ending::Abbreviation),
        Action::EndEntry => Role::End(Ending::Entry),
        Action::EndAlone => Role::End(Ending::Alone),
        Action::EndStatement => Role::End(Ending::Statement),
        Action::EndIf | Action::EndWhile | Action::EndUntil | Action::EndForTest => Role::End(
            Ending::Condition,
        ),
        Action::EndForStart => Role::End(Ending::Start),
        Action::EndForStep => Role::End(Ending::Step),
        Action::EndObjectloop => Role::End(Ending::Loop),
        Action::EndSwitch => Role::End(Ending::Switched),
        Action::EndCase => Role::End(Ending::Case),
        // Statements that hold others
        Action::OpenIf => Role::Open(Opening::If),
        Action::OpenWhile => Role::Open(Opening::While),
        Action::OpenDo => Role::Open(Opening::Do),
        Action::OpenFor => Role::Open(Opening::For),
        Action::OpenObjectloop => Role::Open(Opening::Objectloop),
        Action::OpenSwitch => Role::Open(Opening::Switch),
        Action::Else | Action::Until | Action::ForTop | Action::Loop => Role::Join,
        Action::Close => Role::Close,
        Action::Deeper => Role::Deeper,
        Action::MaybeDeeper => Role::MaybeDeeper,
        Action::Routine => Role::Nothing,
    }
}
