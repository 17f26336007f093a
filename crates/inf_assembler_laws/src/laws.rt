//! Laws of the definitions of routines together.
ghost use Rattle.inf_assembler_laws.specs.Laws.{NamesAreFound, RoutinesAreReadBack, ReturnsAreReadBack, PlacesAreNoLater, OffsetsFit};
ghost use Rattle.inf_assembler_laws.specs.Laws.{FixupsTakeNumbers};

/// States that each opcode is found by its name.
pub fn names()
    ensures { NamesAreFound }
{}

/// States that the bytes of a closed routine, read by the instruction formats of the Z-Machine Standard 1.1, section
/// 4, are the instructions that were emitted, in order: each branch and jump goes to the place of its label, and
/// numbers that are known later are zero. The return at the end is read as `rtrue` or `rfalse`.
pub fn decoding()
    ensures routines { RoutinesAreReadBack }
    ensures returns { ReturnsAreReadBack }
{}

/// States that no label of a closed routine has a later place than it has while the routine is open.
pub fn places()
    ensures { PlacesAreNoLater }
{}

/// States that each offset that is written fits its field: 6 bits of a short branch, 14 of a long one, 16 of a jump.
pub fn offsets()
    ensures { OffsetsFit }
{}

/// States that where the fixups of a closed routine are filled with numbers, the bytes are those of the routine that
/// has these numbers in place of its references.
pub fn filling()
    ensures { FixupsTakeNumbers }
{}
