//! The names of the opcodes (Z-Machine Standard 1.1, section 14).
ghost use Rattle.std.specs.Prelude.{◌≡◌, slice_get};
ghost use Rattle.inf_opcode.specs.{Names.has_name, Names.name_of, Names.opcode_named, Names.opcodes, Slots.if_named};

use crate::opcodes::Opcode;
use crate::places::place_of;

// The opcodes, by their classes and numbers.
const OPCODES: [Opcode; 98] = [
    Opcode::Je,
    Opcode::Jl,
    Opcode::Jg,
    Opcode::DecChk,
    Opcode::IncChk,
    Opcode::Jin,
    Opcode::Test,
    Opcode::Or,
    Opcode::And,
    Opcode::TestAttr,
    Opcode::SetAttr,
    Opcode::ClearAttr,
    Opcode::Store,
    Opcode::InsertObj,
    Opcode::Loadw,
    Opcode::Loadb,
    Opcode::GetProp,
    Opcode::GetPropAddr,
    Opcode::GetNextProp,
    Opcode::Add,
    Opcode::Sub,
    Opcode::Mul,
    Opcode::Div,
    Opcode::Mod,
    Opcode::Call2s,
    Opcode::Call2n,
    Opcode::SetColour,
    Opcode::Throw,
    Opcode::Jz,
    Opcode::GetSibling,
    Opcode::GetChild,
    Opcode::GetParent,
    Opcode::GetPropLen,
    Opcode::Inc,
    Opcode::Dec,
    Opcode::PrintAddr,
    Opcode::Call1s,
    Opcode::RemoveObj,
    Opcode::PrintObj,
    Opcode::Ret,
    Opcode::Jump,
    Opcode::PrintPaddr,
    Opcode::Load,
    Opcode::Call1n,
    Opcode::Rtrue,
    Opcode::Rfalse,
    Opcode::Print,
    Opcode::PrintRet,
    Opcode::Nop,
    Opcode::Restart,
    Opcode::RetPopped,
    Opcode::Catch,
    Opcode::Quit,
    Opcode::NewLine,
    Opcode::Verify,
    Opcode::Piracy,
    Opcode::CallVs,
    Opcode::Storew,
    Opcode::Storeb,
    Opcode::PutProp,
    Opcode::Aread,
    Opcode::PrintChar,
    Opcode::PrintNum,
    Opcode::Random,
    Opcode::Push,
    Opcode::Pull,
    Opcode::SplitWindow,
    Opcode::SetWindow,
    Opcode::CallVs2,
    Opcode::EraseWindow,
    Opcode::EraseLine,
    Opcode::SetCursor,
    Opcode::GetCursor,
    Opcode::SetTextStyle,
    Opcode::BufferMode,
    Opcode::OutputStream,
    Opcode::InputStream,
    Opcode::SoundEffect,
    Opcode::ReadChar,
    Opcode::ScanTable,
    Opcode::Not,
    Opcode::CallVn,
    Opcode::CallVn2,
    Opcode::Tokenise,
    Opcode::EncodeText,
    Opcode::CopyTable,
    Opcode::PrintTable,
    Opcode::CheckArgCount,
    Opcode::Save,
    Opcode::Restore,
    Opcode::LogShift,
    Opcode::ArtShift,
    Opcode::SetFont,
    Opcode::SaveUndo,
    Opcode::RestoreUndo,
    Opcode::PrintUnicode,
    Opcode::CheckUnicode,
    Opcode::SetTrueColour,
];

fn all() -> &'static [Opcode]
    ensures { result.now ≡ opcodes }
{
    &OPCODES
}

/// Returns the opcode at `place` of the list, if there is one.
fn opcode_at(place: u8) -> Option<Opcode>
    ensures { result ≡ slice_get opcodes place }
{
    all().get(place as usize).copied()
}

fn if_named(name: &str, opcode: Option<Opcode>) -> Option<Opcode>
    ensures { result ≡ if_named name.now opcode }
{
    match opcode {
        Some(opcode) if opcode.has_name(name) => Some(opcode),
        _ => None,
    }
}

impl Opcode {
    /// Returns the opcode whose name is `name`, in any case; `None` where no opcode has that name. Only the opcode with the slot of
    /// `name` is compared.
    #[tactic(auto, using(crate::proofs::Named::by_slot))]
    pub fn by_name(name: &str) -> Option<Opcode>
        ensures { result ≡ opcode_named name.now }
    {
        if_named(name, opcode_at(place_of(name.as_bytes())))
    }

    // Returns whether `name` is the name of the opcode, in any case.
    fn has_name(self, name: &str) -> bool
        ensures { result ≡ has_name name.now self }
    {
        self.name().eq_ignore_ascii_case(name)
    }

    /// Returns the name of the opcode in the Z-Machine Standard 1.1, section 14.
    pub fn name(self) -> &'static str
        ensures { result.now ≡ name_of self }
    {
        match self {
            Opcode::Je => "je",
            Opcode::Jl => "jl",
            Opcode::Jg => "jg",
            Opcode::DecChk => "dec_chk",
            Opcode::IncChk => "inc_chk",
            Opcode::Jin => "jin",
            Opcode::Test => "test",
            Opcode::Or => "or",
            Opcode::And => "and",
            Opcode::TestAttr => "test_attr",
            Opcode::SetAttr => "set_attr",
            Opcode::ClearAttr => "clear_attr",
            Opcode::Store => "store",
            Opcode::InsertObj => "insert_obj",
            Opcode::Loadw => "loadw",
            Opcode::Loadb => "loadb",
            Opcode::GetProp => "get_prop",
            Opcode::GetPropAddr => "get_prop_addr",
            Opcode::GetNextProp => "get_next_prop",
            Opcode::Add => "add",
            Opcode::Sub => "sub",
            Opcode::Mul => "mul",
            Opcode::Div => "div",
            Opcode::Mod => "mod",
            Opcode::Call2s => "call_2s",
            Opcode::Call2n => "call_2n",
            Opcode::SetColour => "set_colour",
            Opcode::Throw => "throw",
            Opcode::Jz => "jz",
            Opcode::GetSibling => "get_sibling",
            Opcode::GetChild => "get_child",
            Opcode::GetParent => "get_parent",
            Opcode::GetPropLen => "get_prop_len",
            Opcode::Inc => "inc",
            Opcode::Dec => "dec",
            Opcode::PrintAddr => "print_addr",
            Opcode::Call1s => "call_1s",
            Opcode::RemoveObj => "remove_obj",
            Opcode::PrintObj => "print_obj",
            Opcode::Ret => "ret",
            Opcode::Jump => "jump",
            Opcode::PrintPaddr => "print_paddr",
            Opcode::Load => "load",
            Opcode::Call1n => "call_1n",
            Opcode::Rtrue => "rtrue",
            Opcode::Rfalse => "rfalse",
            Opcode::Print => "print",
            Opcode::PrintRet => "print_ret",
            Opcode::Nop => "nop",
            Opcode::Restart => "restart",
            Opcode::RetPopped => "ret_popped",
            Opcode::Catch => "catch",
            Opcode::Quit => "quit",
            Opcode::NewLine => "new_line",
            Opcode::Verify => "verify",
            Opcode::Piracy => "piracy",
            Opcode::CallVs => "call_vs",
            Opcode::Storew => "storew",
            Opcode::Storeb => "storeb",
            Opcode::PutProp => "put_prop",
            Opcode::Aread => "aread",
            Opcode::PrintChar => "print_char",
            Opcode::PrintNum => "print_num",
            Opcode::Random => "random",
            Opcode::Push => "push",
            Opcode::Pull => "pull",
            Opcode::SplitWindow => "split_window",
            Opcode::SetWindow => "set_window",
            Opcode::CallVs2 => "call_vs2",
            Opcode::EraseWindow => "erase_window",
            Opcode::EraseLine => "erase_line",
            Opcode::SetCursor => "set_cursor",
            Opcode::GetCursor => "get_cursor",
            Opcode::SetTextStyle => "set_text_style",
            Opcode::BufferMode => "buffer_mode",
            Opcode::OutputStream => "output_stream",
            Opcode::InputStream => "input_stream",
            Opcode::SoundEffect => "sound_effect",
            Opcode::ReadChar => "read_char",
            Opcode::ScanTable => "scan_table",
            Opcode::Not => "not",
            Opcode::CallVn => "call_vn",
            Opcode::CallVn2 => "call_vn2",
            Opcode::Tokenise => "tokenise",
            Opcode::EncodeText => "encode_text",
            Opcode::CopyTable => "copy_table",
            Opcode::PrintTable => "print_table",
            Opcode::CheckArgCount => "check_arg_count",
            Opcode::Save => "save",
            Opcode::Restore => "restore",
            Opcode::LogShift => "log_shift",
            Opcode::ArtShift => "art_shift",
            Opcode::SetFont => "set_font",
            Opcode::SaveUndo => "save_undo",
            Opcode::RestoreUndo => "restore_undo",
            Opcode::PrintUnicode => "print_unicode",
            Opcode::CheckUnicode => "check_unicode",
            Opcode::SetTrueColour => "set_true_colour",
        }
    }
}
