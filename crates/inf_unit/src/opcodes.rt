//! The opcodes of assembly lines.
ghost use Rattle.std.specs.Prelude.{◌≡◌};
ghost use Rattle.inf_unit.specs.Opcodes.{opcode_of, takes_text};

use inf_opcode::Opcode;

#[tactic(auto, unfolding(crate::specs::Opcodes::opcode_of))]
pub(crate) fn opcode_of(name: &[u8]) -> Option<Opcode>
    ensures { result ≡ opcode_of name.now }
{
    match str::from_utf8(name) {
        Ok(name) => Opcode::by_name(name),
        Err(_) => None,
    }
}

/// Returns whether the opcode whose name is `name` takes a text of its own.
pub(crate) fn takes_text(name: &[u8]) -> bool
    ensures { result ≡ takes_text name.now }
{
    match opcode_of(name) {
        Some(opcode) => opcode.row().has_text,
        None => false,
    }
}
