//! Items that the units of a routine have beside their expressions.
ghost use Rattle.std.specs.Prelude.{◌≡◌, bytes_eq};
ghost use Rattle.inf_unit.specs.Items.{code_behind, is_own, least_code, least_of_rule, rule_of};

/// A rule by which a value is printed (Designer's Manual, fourth edition, section 1.11).
#[derive(Clone, Copy)]
pub enum PrintRule {
    Character,
    String,
    Address,
    Object,
    ShortName,
    DefiniteArticle,
    CapitalArticle,
    IndefiniteArticle,
    EnglishNumber,
    /// The rule of a routine, which is the expression before the value.
    Routine,
}

/// An item that a unit has beside its expressions. Its tokens are told by their places among those of the unit.
#[derive(Clone, Copy)]
pub enum Item {
    /// A text that is printed, or the text of an instruction.
    Text(usize),
    /// The next expression is printed as a number.
    Value,
    /// The next expression is printed by a rule. Where this is a routine, it is the next expression, and the one behind it is printed.
    Ruled(PrintRule),
    /// The next expression is an attribute that an object is given.
    Set,
    /// The next expression is an attribute that is taken from an object.
    Clear,
    /// The case is the default.
    Default,
    /// The name of the variable in which an instruction stores.
    Store(usize),
    /// The name of the label to which an instruction branches where its test holds, or where it does not.
    Branch(usize, bool),
    /// The name of the label to which an instruction jumps.
    Jump(usize),
}

fn is_same(name: &[u8], word: &[u8]) -> bool
    ensures { result ≡ bytes_eq name.now word.now }
{
    name == word
}

/// Returns the rule by the name `name`: rules of the language are told with case, and every other name is that of a routine.
pub fn rule_of(name: &[u8]) -> PrintRule
    ensures { result ≡ rule_of name.now }
{
    if is_same(name, b"char") {
        PrintRule::Character
    } else if is_same(name, b"string") {
        PrintRule::String
    } else if is_same(name, b"address") {
        PrintRule::Address
    } else if is_same(name, b"object") {
        PrintRule::Object
    } else if is_same(name, b"name") {
        PrintRule::ShortName
    } else if is_same(name, b"the") {
        PrintRule::DefiniteArticle
    } else if is_same(name, b"The") {
        PrintRule::CapitalArticle
    } else if is_same(name, b"a") {
        PrintRule::IndefiniteArticle
    } else if is_same(name, b"an") {
        PrintRule::IndefiniteArticle
    } else if is_same(name, b"number") {
        PrintRule::EnglishNumber
    } else {
        PrintRule::Routine
    }
}

impl PrintRule {
    /// Returns whether this rule is one of the language.
    pub fn is_own(self) -> bool
        ensures { result ≡ is_own self }
    {
        !matches!(self, PrintRule::Routine)
    }
}

/// Returns the least number of bytes of the code by which `rule` prints a value.
fn least_of_rule(rule: PrintRule) -> usize
    ensures { result ≡ least_of_rule rule }
{
    match rule {
        PrintRule::String | PrintRule::Address | PrintRule::Object => 2,
        PrintRule::Character
        | PrintRule::ShortName
        | PrintRule::DefiniteArticle
        | PrintRule::CapitalArticle
        | PrintRule::IndefiniteArticle
        | PrintRule::EnglishNumber
        | PrintRule::Routine => 3,
    }
}

/// Returns the least number of bytes of the code of `item`, where it is one that is printed or given.
fn least_code(item: Item) -> usize
    ensures { result ≡ least_code item }
{
    match item {
        Item::Ruled(rule) => least_of_rule(rule),
        Item::Text(_) | Item::Value | Item::Set | Item::Clear => 3,
        Item::Default | Item::Store(_) | Item::Branch(_, _) | Item::Jump(_) => 0,
    }
}

#[tactic(auto, unfolding(crate::specs::Items::code_behind))]
pub(crate) fn code_behind(item: Item, code: usize) -> usize
    ensures { result ≡ code_behind item code }
{
    code.saturating_add(least_code(item))
}
