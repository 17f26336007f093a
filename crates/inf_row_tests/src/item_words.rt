//! Items of routines as a line spells them.
use crate::items::{Item, Parsed};
use inf_area::Target;
use inf_opcode::{Branch, Destination, Label, Opcode, Operand};
use inf_test_lines::{number_or, repeated, word};
use std::alloc::{AllocError, Global};

/// Returns an operand, where `+` in place of a number is the turn.
fn operand(spelled: &str, turn: usize) -> Operand {
    if let Some(number) = spelled.strip_prefix('v') {
        return Operand::Variable(number.parse().unwrap_or(0));
    }
    if let Some(digits) = spelled.strip_prefix('#') {
        return Operand::Large(u16::from_str_radix(digits, 16).unwrap_or(0));
    }
    match spelled.strip_prefix('r') {
        Some(routine) => Operand::Later(Target::Name(number_or(routine, 0, turn))),
        None => Operand::Small(spelled.parse().unwrap_or(0)),
    }
}

/// Returns the destination of a branch.
fn destination(to: &str) -> Destination {
    match to {
        "rtrue" => Destination::ReturnTrue,
        "rfalse" => Destination::ReturnFalse,
        label => Destination::To(Label {
            number: label.parse().unwrap_or(0),
        }),
    }
}

/// Returns a branch, behind its mark.
fn branch(spelled: &str) -> Branch {
    let (sense, to) = match spelled.strip_prefix('~') {
        Some(to) => (false, to),
        None => (true, spelled),
    };
    Branch {
        sense,
        target: destination(to),
    }
}

/// Adds what a word gives to an instruction.
fn add_word(parsed: &mut Parsed, spelled: &str, turn: usize) -> Result<(), AllocError> {
    if let Some(variable) = spelled.strip_prefix('>') {
        parsed.store = Some(variable.parse().unwrap_or(0));
        return Ok(());
    }
    match spelled.strip_prefix('?') {
        Some(to) => {
            parsed.branch = Some(branch(to));
            Ok(())
        }
        None => {
            parsed.operands.push(operand(spelled, turn))?;
            Ok(())
        }
    }
}

/// Returns an instruction with neither label nor text.
fn parsed(alloc: Global, opcode: Opcode, item: &str, turn: usize) -> Result<Parsed, AllocError> {
    let mut parsed = Parsed {
        opcode,
        operands: Vec::new(alloc),
        store: None,
        branch: None,
    };
    for spelled in item.split(' ').skip(1) {
        add_word(&mut parsed, spelled, turn)?;
    }
    Ok(parsed)
}

/// Returns an item in a turn of its repetition: none where its name is unknown.
fn item(alloc: Global, spelled: &str, turn: usize) -> Result<Option<Item>, AllocError> {
    let number = word(spelled, 1).parse().unwrap_or(0);
    Ok(match word(spelled, 0) {
        "label" => Some(Item::Label(number)),
        "jump" => Some(Item::Jump(number)),
        "print_ret" => Some(Item::Text),
        "bytes" => Some(Item::Bytes),
        name => match Opcode::by_name(name) {
            Some(opcode) => Some(Item::Other(parsed(alloc, opcode, spelled, turn)?)),
            None => None,
        },
    })
}

/// Adds the items that a text spells, one or a number of them.
fn add_items(alloc: Global, items: &mut Vec<Item>, spelled: &str) -> Result<(), AllocError> {
    let (count, each) = repeated(spelled);
    for turn in 0..count {
        if let Some(item) = item(alloc, each, turn)? {
            items.push(item)?;
        }
    }
    Ok(())
}

/// Returns the items of a text, which stand behind its first part.
pub(crate) fn items_of(alloc: Global, text: &str) -> Result<Vec<Item>, AllocError> {
    let mut items = Vec::new(alloc);
    for spelled in text.split(" | ").skip(1) {
        add_items(alloc, &mut items, spelled)?;
    }
    Ok(items)
}
