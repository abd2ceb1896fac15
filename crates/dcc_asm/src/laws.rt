//! Laws of the assembler. The functions do nothing: their contracts are proved for every text, image and program.

ghost use Rattle.dcc_asm.specs.Laws.{BytesAreUnique, FaultIsUnique, AssembledHasNoFault, ListingIsAssembled};
ghost use Rattle.dcc_asm.specs.Laws.{ProgramHasOneInstruction, InstructionLinesAreOfProgram, InstructionLinesAreApart};
ghost use Rattle.dcc_asm.specs.Laws.{InstructionsHaveLines};

/// A text is a listing of one list of bytes at most.
pub fn bytes_are_unique()
    ensures { BytesAreUnique }
{}

/// One line at most is the first one that offends, and it offends in one way.
pub fn fault_is_unique()
    ensures { FaultIsUnique }
{}

/// No line offends in a text that is assembled.
pub fn assembled_has_no_fault()
    ensures { AssembledHasNoFault }
{}

/// The listing of a program's image is assembled to the image's bytes, unless it is too long.
pub fn listing_is_assembled()
    ensures { ListingIsAssembled }
{}

/// A program has one instruction at most at an offset.
pub fn program_has_one_instruction()
    ensures { ProgramHasOneInstruction }
{}

/// Each instruction line of a program's listing tells the program's instruction at its offset: that of the prelude or
/// of a procedure.
pub fn instruction_lines_are_of_program()
    ensures { InstructionLinesAreOfProgram }
{}

/// No instruction line of a listing begins inside another one's instruction.
pub fn instruction_lines_are_apart()
    ensures { InstructionLinesAreApart }
{}

/// Each instruction of a program has its line in the program's listing, unless it begins inside another line's
/// instruction.
pub fn instructions_have_lines()
    ensures { InstructionsHaveLines }
{}
