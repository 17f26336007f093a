//! Expressions as a line spells them.
use inf_area::Target;
use inf_expressions::{
    Binary, Direction, Forest, Function, Operand, Operation, PropertyPart, Single, Symbol, Test,
    Unary, Wanted, build,
};
use inf_names::symbols::Symbols;
use inf_scanner::Place;
use inf_settings::bounds::Bounds;
use std::alloc::{AllocError, Global};

/// The place of all tokens.
pub(crate) const HERE: Place = Place { file: 0, line: 1 };

/// Returns the function of the system with this name, which is no value, or `None`.
fn function(word: &str) -> Option<Function> {
    Some(match word {
        "child" => Function::Child,
        "sibling" => Function::Sibling,
        "parent" => Function::Parent,
        "random" => Function::Random,
        "children" => Function::Children,
        "indirect" => Function::Indirect,
        _ => return None,
    })
}

/// Returns the operator of one part with this spelling, or `None`.
fn unary(word: &str) -> Option<Symbol> {
    Some(match word {
        "neg" => Symbol::Prefix(0, Unary::Negate),
        "~" => Symbol::Prefix(0, Unary::Single(Single::Complement)),
        "~~" => Symbol::Prefix(0, Unary::Not),
        "++v" => Symbol::Prefix(0, Unary::Before(Direction::Up)),
        "--v" => Symbol::Prefix(0, Unary::Before(Direction::Down)),
        "v++" => Symbol::Suffix(Unary::Behind(Direction::Up)),
        "v--" => Symbol::Suffix(Unary::Behind(Direction::Down)),
        _ => return None,
    })
}

/// Returns the operator of two values with this spelling, or `None`.
fn operation(word: &str) -> Option<Binary> {
    Some(match word {
        "+" => Binary::Operation(Operation::Add),
        "-" => Binary::Operation(Operation::Subtract),
        "*" => Binary::Operation(Operation::Multiply),
        "/" => Binary::Operation(Operation::Divide),
        "%" => Binary::Operation(Operation::Remainder),
        "&" => Binary::Operation(Operation::BitAnd),
        "|" => Binary::Operation(Operation::BitOr),
        "->" => Binary::Operation(Operation::Byte),
        "-->" => Binary::Operation(Operation::Word),
        "." => Binary::Property(PropertyPart::Value),
        ".&" => Binary::Property(PropertyPart::Address),
        ".#" => Binary::Property(PropertyPart::Length),
        "=" => Binary::Assign,
        "," => Binary::Comma,
        "&&" => Binary::And,
        "||" => Binary::Or,
        _ => return None,
    })
}

/// Returns the test of a value against a list with this spelling, or `None`.
fn test(word: &str) -> Option<Binary> {
    Some(match word {
        "==" => Binary::Test(Test::Equal),
        "<" => Binary::Test(Test::Less),
        ">" => Binary::Test(Test::Greater),
        "<=" => Binary::Test(Test::AtMost),
        ">=" => Binary::Test(Test::AtLeast),
        "has" => Binary::Test(Test::Has),
        "in" => Binary::Test(Test::In),
        "ofclass" => Binary::Test(Test::OfClass),
        "provides" => Binary::Test(Test::Provides),
        "~=" => Binary::Fails(Test::Equal),
        "hasnt" => Binary::Fails(Test::Has),
        "notin" => Binary::Fails(Test::In),
        _ => return None,
    })
}

/// Returns the operator with this spelling, or `None`.
fn operator(word: &str) -> Option<Symbol> {
    if let Some(given) = word.strip_prefix("call:") {
        return Some(Symbol::Call(given.parse().unwrap_or(0)));
    }
    if let Some(joints) = word.strip_prefix("list:") {
        return Some(Symbol::List(joints.parse().unwrap_or(0)));
    }
    let binary = operation(word).or(test(word));
    match binary {
        Some(binary) => Some(Symbol::Two(binary)),
        None => unary(word),
    }
}

/// Uses a name, and returns it as an operand that is known later.
fn later<B: Bounds>(names: &mut Symbols<Place, B>, name: &str) -> Operand {
    if name.len() > 35 {
        return Operand::Unknown;
    }
    match names.refer(name.as_bytes(), HERE) {
        Ok(Some(number)) => Operand::Later(Target::Name(number)),
        Ok(None) | Err(_) => Operand::Unknown,
    }
}

/// Returns the operand of a leaf.
fn operand<B: Bounds>(names: &mut Symbols<Place, B>, word: &str) -> Operand {
    if let Some(function) = function(word) {
        return Operand::Function(function);
    }
    if let Ok(number) = word.parse() {
        return Operand::Known(number);
    }
    match word.strip_prefix('v') {
        Some(number) => Operand::Variable(number.parse().unwrap_or(0)),
        None => later(names, word),
    }
}

/// Returns the symbol of a word: an operator, or the leaf of an operand that is added.
fn symbol<B: Bounds>(
    names: &mut Symbols<Place, B>,
    operands: &mut Vec<Operand>,
    word: &str,
) -> Result<Symbol, AllocError> {
    if let Some(operator) = operator(word) {
        return Ok(operator);
    }
    let leaf = operands.len();
    operands.push(operand(names, word))?;
    Ok(Symbol::Leaf {
        first: 0,
        token: 0,
        leaf,
    })
}

/// Returns the trees of some words.
pub(crate) fn trees<B: Bounds>(
    alloc: Global,
    names: &mut Symbols<Place, B>,
    spelled: &str,
) -> Result<Forest, AllocError> {
    let mut symbols = Vec::new(alloc);
    let mut operands = Vec::new(alloc);
    for word in spelled.split(' ') {
        symbols.push(symbol(names, &mut operands, word)?)?;
    }
    build(alloc, Wanted::Value, 0, &symbols, &operands)
}
