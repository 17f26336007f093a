//! The instruction set: each opcode with its number, its operands and the parts behind them.
ghost use Rattle.std.specs.Prelude.{◌≡◌, IsTrue};
ghost use Rattle.inf_opcode.specs.Opcodes.{row_of, is_encodable, plain_row, naming, jumping, storing, branching, with_most, with_text};
ghost use Rattle.inf_opcode.specs.Opcodes.{last};

/// Class of an opcode by its count of operands; opcodes are numbered within their class (Z-Machine Standard 1.1, section 4.3).
#[derive(Clone, Copy, Debug)]
pub enum OperandCount {
    Zero,
    One,
    Two,
    /// Up to four, for two opcodes up to eight.
    Several,
    /// Up to four, behind a byte 190.
    Extended,
}

/// Row of the instruction set for an opcode (Z-Machine Standard 1.1, section 14).
#[derive(Clone, Copy, Debug)]
pub struct OpcodeRow {
    pub count: OperandCount,
    /// Number of the opcode among those of its class.
    pub number: u8,
    /// Fewest operands.
    pub least: u8,
    /// Most operands. Where there may be more than four, their types take two bytes.
    pub most: u8,
    /// Tells whether the first operand names a variable, by its number as a small constant.
    pub names_variable: bool,
    /// Tells whether the only operand is the offset to a label.
    pub jumps: bool,
    /// Tells whether a store variable stands behind the operands.
    pub stores: bool,
    /// Tells whether a branch stands behind the operands and the store variable.
    pub branches: bool,
    /// Tells whether a text stands at the end.
    pub has_text: bool,
    /// Tells whether control never goes on to the next instruction.
    pub is_final: bool,
}

/// An opcode by its name in the Z-Machine Standard 1.1, section 14.
#[derive(Clone, Copy)]
pub enum Opcode {
    Je,
    Jl,
    Jg,
    DecChk,
    IncChk,
    Jin,
    Test,
    Or,
    And,
    TestAttr,
    SetAttr,
    ClearAttr,
    Store,
    InsertObj,
    Loadw,
    Loadb,
    GetProp,
    GetPropAddr,
    GetNextProp,
    Add,
    Sub,
    Mul,
    Div,
    Mod,
    Call2s,
    Call2n,
    SetColour,
    Throw,
    Jz,
    GetSibling,
    GetChild,
    GetParent,
    GetPropLen,
    Inc,
    Dec,
    PrintAddr,
    Call1s,
    RemoveObj,
    PrintObj,
    Ret,
    Jump,
    PrintPaddr,
    Load,
    Call1n,
    Rtrue,
    Rfalse,
    Print,
    PrintRet,
    Nop,
    Restart,
    RetPopped,
    Catch,
    Quit,
    NewLine,
    Verify,
    Piracy,
    CallVs,
    Storew,
    Storeb,
    PutProp,
    Aread,
    PrintChar,
    PrintNum,
    Random,
    Push,
    Pull,
    SplitWindow,
    SetWindow,
    CallVs2,
    EraseWindow,
    EraseLine,
    SetCursor,
    GetCursor,
    SetTextStyle,
    BufferMode,
    OutputStream,
    InputStream,
    SoundEffect,
    ReadChar,
    ScanTable,
    Not,
    CallVn,
    CallVn2,
    Tokenise,
    EncodeText,
    CopyTable,
    PrintTable,
    CheckArgCount,
    Save,
    Restore,
    LogShift,
    ArtShift,
    SetFont,
    SaveUndo,
    RestoreUndo,
    PrintUnicode,
    CheckUnicode,
    SetTrueColour,
}

impl Opcode {
    /// Returns the row of the instruction set for this opcode.
    #[inline(always)]
    pub const fn row(self) -> OpcodeRow
        ensures exact { result ≡ row_of self }
        ensures encodable { IsTrue (is_encodable result) }
    {
        match self {
            Opcode::Je => plain(OperandCount::Two, 1).with_most(4).branching(),
            Opcode::Jl => plain(OperandCount::Two, 2).branching(),
            Opcode::Jg => plain(OperandCount::Two, 3).branching(),
            Opcode::DecChk => plain(OperandCount::Two, 4).naming().branching(),
            Opcode::IncChk => plain(OperandCount::Two, 5).naming().branching(),
            Opcode::Jin => plain(OperandCount::Two, 6).branching(),
            Opcode::Test => plain(OperandCount::Two, 7).branching(),
            Opcode::Or => plain(OperandCount::Two, 8).storing(),
            Opcode::And => plain(OperandCount::Two, 9).storing(),
            Opcode::TestAttr => plain(OperandCount::Two, 10).branching(),
            Opcode::SetAttr => plain(OperandCount::Two, 11),
            Opcode::ClearAttr => plain(OperandCount::Two, 12),
            Opcode::Store => plain(OperandCount::Two, 13).naming(),
            Opcode::InsertObj => plain(OperandCount::Two, 14),
            Opcode::Loadw => plain(OperandCount::Two, 15).storing(),
            Opcode::Loadb => plain(OperandCount::Two, 16).storing(),
            Opcode::GetProp => plain(OperandCount::Two, 17).storing(),
            Opcode::GetPropAddr => plain(OperandCount::Two, 18).storing(),
            Opcode::GetNextProp => plain(OperandCount::Two, 19).storing(),
            Opcode::Add => plain(OperandCount::Two, 20).storing(),
            Opcode::Sub => plain(OperandCount::Two, 21).storing(),
            Opcode::Mul => plain(OperandCount::Two, 22).storing(),
            Opcode::Div => plain(OperandCount::Two, 23).storing(),
            Opcode::Mod => plain(OperandCount::Two, 24).storing(),
            Opcode::Call2s => plain(OperandCount::Two, 25).storing(),
            Opcode::Call2n => plain(OperandCount::Two, 26),
            Opcode::SetColour => plain(OperandCount::Two, 27),
            Opcode::Throw => plain(OperandCount::Two, 28).last(),
            Opcode::Jz => plain(OperandCount::One, 0).branching(),
            Opcode::GetSibling => plain(OperandCount::One, 1).storing().branching(),
            Opcode::GetChild => plain(OperandCount::One, 2).storing().branching(),
            Opcode::GetParent => plain(OperandCount::One, 3).storing(),
            Opcode::GetPropLen => plain(OperandCount::One, 4).storing(),
            Opcode::Inc => plain(OperandCount::One, 5).naming(),
            Opcode::Dec => plain(OperandCount::One, 6).naming(),
            Opcode::PrintAddr => plain(OperandCount::One, 7),
            Opcode::Call1s => plain(OperandCount::One, 8).storing(),
            Opcode::RemoveObj => plain(OperandCount::One, 9),
            Opcode::PrintObj => plain(OperandCount::One, 10),
            Opcode::Ret => plain(OperandCount::One, 11).last(),
            Opcode::Jump => plain(OperandCount::One, 12).jumping().last(),
            Opcode::PrintPaddr => plain(OperandCount::One, 13),
            Opcode::Load => plain(OperandCount::One, 14).naming().storing(),
            Opcode::Call1n => plain(OperandCount::One, 15),
            Opcode::Rtrue => plain(OperandCount::Zero, 0).last(),
            Opcode::Rfalse => plain(OperandCount::Zero, 1).last(),
            Opcode::Print => plain(OperandCount::Zero, 2).with_text(),
            Opcode::PrintRet => plain(OperandCount::Zero, 3).with_text().last(),
            Opcode::Nop => plain(OperandCount::Zero, 4),
            Opcode::Restart => plain(OperandCount::Zero, 7).last(),
            Opcode::RetPopped => plain(OperandCount::Zero, 8).last(),
            Opcode::Catch => plain(OperandCount::Zero, 9).storing(),
            Opcode::Quit => plain(OperandCount::Zero, 10).last(),
            Opcode::NewLine => plain(OperandCount::Zero, 11),
            Opcode::Verify => plain(OperandCount::Zero, 13).branching(),
            Opcode::Piracy => plain(OperandCount::Zero, 15).branching(),
            Opcode::CallVs => plain(OperandCount::Several, 0).storing(),
            Opcode::Storew => plain(OperandCount::Several, 1),
            Opcode::Storeb => plain(OperandCount::Several, 2),
            Opcode::PutProp => plain(OperandCount::Several, 3),
            Opcode::Aread => plain(OperandCount::Several, 4).storing(),
            Opcode::PrintChar => plain(OperandCount::Several, 5),
            Opcode::PrintNum => plain(OperandCount::Several, 6),
            Opcode::Random => plain(OperandCount::Several, 7).storing(),
            Opcode::Push => plain(OperandCount::Several, 8),
            Opcode::Pull => plain(OperandCount::Several, 9).naming(),
            Opcode::SplitWindow => plain(OperandCount::Several, 10),
            Opcode::SetWindow => plain(OperandCount::Several, 11),
            Opcode::CallVs2 => plain(OperandCount::Several, 12).with_most(8).storing(),
            Opcode::EraseWindow => plain(OperandCount::Several, 13),
            Opcode::EraseLine => plain(OperandCount::Several, 14),
            Opcode::SetCursor => plain(OperandCount::Several, 15),
            Opcode::GetCursor => plain(OperandCount::Several, 16),
            Opcode::SetTextStyle => plain(OperandCount::Several, 17),
            Opcode::BufferMode => plain(OperandCount::Several, 18),
            Opcode::OutputStream => plain(OperandCount::Several, 19),
            Opcode::InputStream => plain(OperandCount::Several, 20),
            Opcode::SoundEffect => plain(OperandCount::Several, 21),
            Opcode::ReadChar => plain(OperandCount::Several, 22).storing(),
            Opcode::ScanTable => plain(OperandCount::Several, 23).storing().branching(),
            Opcode::Not => plain(OperandCount::Several, 24).storing(),
            Opcode::CallVn => plain(OperandCount::Several, 25),
            Opcode::CallVn2 => plain(OperandCount::Several, 26).with_most(8),
            Opcode::Tokenise => plain(OperandCount::Several, 27),
            Opcode::EncodeText => plain(OperandCount::Several, 28),
            Opcode::CopyTable => plain(OperandCount::Several, 29),
            Opcode::PrintTable => plain(OperandCount::Several, 30),
            Opcode::CheckArgCount => plain(OperandCount::Several, 31).branching(),
            Opcode::Save => plain(OperandCount::Extended, 0).storing(),
            Opcode::Restore => plain(OperandCount::Extended, 1).storing(),
            Opcode::LogShift => plain(OperandCount::Extended, 2).storing(),
            Opcode::ArtShift => plain(OperandCount::Extended, 3).storing(),
            Opcode::SetFont => plain(OperandCount::Extended, 4).storing(),
            Opcode::SaveUndo => plain(OperandCount::Extended, 9).storing(),
            Opcode::RestoreUndo => plain(OperandCount::Extended, 10).storing(),
            Opcode::PrintUnicode => plain(OperandCount::Extended, 11),
            Opcode::CheckUnicode => plain(OperandCount::Extended, 12).storing(),
            Opcode::SetTrueColour => plain(OperandCount::Extended, 13),
        }
    }
}

// A row with the operands that its count allows, and nothing behind them.
const fn plain(count: OperandCount, number: u8) -> OpcodeRow
    ensures { result ≡ plain_row count number }
{
    let (least, most) = match count {
        OperandCount::Zero => (0, 0),
        OperandCount::One => (1, 1),
        OperandCount::Two => (2, 2),
        OperandCount::Several | OperandCount::Extended => (0, 4),
    };
    OpcodeRow {
        count,
        number,
        least,
        most,
        names_variable: false,
        jumps: false,
        stores: false,
        branches: false,
        has_text: false,
        is_final: false,
    }
}

impl OpcodeRow {
    const fn storing(self) -> Self
        ensures { result ≡ storing self }
    {
        OpcodeRow {
            stores: true,
            ..self
        }
    }

    const fn naming(self) -> Self
        ensures { result ≡ naming self }
    {
        OpcodeRow {
            names_variable: true,
            ..self
        }
    }

    const fn jumping(self) -> Self
        ensures { result ≡ jumping self }
    {
        OpcodeRow {
            jumps: true,
            ..self
        }
    }

    const fn branching(self) -> Self
        ensures { result ≡ branching self }
    {
        OpcodeRow {
            branches: true,
            ..self
        }
    }

    const fn with_most(self, most: u8) -> Self
        ensures { result ≡ with_most most self }
    {
        OpcodeRow { most, ..self }
    }

    const fn with_text(self) -> Self
        ensures { result ≡ with_text self }
    {
        OpcodeRow {
            has_text: true,
            ..self
        }
    }

    const fn last(self) -> Self
        ensures { result ≡ last self }
    {
        OpcodeRow {
            is_final: true,
            ..self
        }
    }
}
