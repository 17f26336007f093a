//! The rows of opcodes.
use inf_opcode::Opcode;
use std::alloc::{AllocError, Global};

/// Returns the name and the row of an opcode that a line names between quotes.
pub(crate) fn answer(alloc: Global, line: &str) -> Result<String, AllocError> {
    let quoted = line.strip_prefix("opcode ").unwrap_or("");
    match Opcode::by_name(quoted.trim_matches('"')) {
        Some(opcode) => format!(in alloc; "{} {:?}", opcode.name(), opcode.row()),
        None => String::from_str(alloc, "none"),
    }
}
