//! Laws of the table of encodings. The functions do nothing: their contracts are proved for both processors and every
//! list of bytes.

ghost use Rattle.dcc_machine.specs.Table.{AtMostOneRowMatches, InstructionIsThatOfItsRow, InstructionHasOneToSixBytes};
ghost use Rattle.dcc_machine.specs.Table.{InstructionDependsOnItsBytes, LaterProcessorHasEachInstruction};

/// At most one row of the table matches any bytes.
pub fn one_row_at_most()
    ensures { AtMostOneRowMatches }
{}

/// Bytes are an instruction exactly where a row matches them, and then it is that row's. Its length is that of the
/// opcode and ModRM bytes, the displacement, and a constant after them.
pub fn instruction_of_row()
    ensures { InstructionIsThatOfItsRow }
{}

/// An instruction has one to six bytes, which all lie within the code.
pub fn length_of_instruction()
    ensures { InstructionHasOneToSixBytes }
{}

/// An instruction depends on its own bytes alone.
pub fn bytes_of_instruction()
    ensures { InstructionDependsOnItsBytes }
{}

/// The 80186 has each instruction of the 8086.
pub fn later_processor()
    ensures { LaterProcessorHasEachInstruction }
{}
