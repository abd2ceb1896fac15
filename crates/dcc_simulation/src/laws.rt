//! Laws of the machine in clean runs and the inner language's run beside it. The functions do nothing: their contracts
//! are proved for all.

ghost use Rattle.dcc_simulation.specs.Nodes.{CallNodesAgree, ExitsLead, NodesAgree, ReturnNodesAgree};
ghost use Rattle.dcc_simulation.specs.FoundPlaces.{FoundPlacesStand};
ghost use Rattle.dcc_simulation.specs.Operation.{OperationNodesAgree};
ghost use Rattle.dcc_simulation.specs.Special.{SpecialNodesAgree};
ghost use Rattle.dcc_simulation.specs.StackNodes.{StackNodesAgree};
ghost use Rattle.dcc_simulation.specs.Laws.{AddressesAreTold, CallsBegin, CallsReturn, FramesAreRead, FramesAreWritten};
ghost use Rattle.dcc_simulation.specs.Laws.{OperandsAreRead, OperandsAreWritten, OperationsAgree, PiecesHavePlaces};
ghost use Rattle.dcc_simulation.specs.Laws.{PointersAreSet, PointersMove, RunsAreCoupled, RunsBegin, StepsAgree};
ghost use Rattle.dcc_simulation.specs.Laws.{WordsArePushed};

/// The machine and the inner run, whose frames are cells and memory, are a coupling: anywhere within an instruction
/// temporaries, flags and general registers are taken alike.
pub fn runs_are_coupled()
    ensures { RunsAreCoupled }
{}

/// Where the entry procedure begins both runs agree, where registers, flags, the console and the memory outside the
/// stack do.
pub fn runs_begin()
    ensures { RunsBegin }
{}

/// A written byte or word of the newest frame is read at its place: in a cell's halves, or in memory.
pub fn frames_are_read()
    ensures { FramesAreRead }
{}

/// A byte or word of the newest frame takes a number at its place, as the machine's memory does.
pub fn frames_are_written()
    ensures { FramesAreWritten }
{}

/// Bytes that an instruction uses together, and those of an argument's word, have one place, and so has each part.
pub fn pieces_have_places()
    ensures { PiecesHavePlaces }
{}

/// A memory operand that a clean instruction reads is read at its place: in a cell's halves, or in memory.
pub fn operands_are_read()
    ensures { OperandsAreRead }
{}

/// A memory operand that a clean instruction writes is written at its place.
pub fn operands_are_written()
    ensures { OperandsAreWritten }
{}

/// SP, BP and the offsets of addresses are told from the base of the frame and from general registers.
pub fn addresses_are_told()
    ensures { AddressesAreTold }
{}

/// SP falls and rises and BP moves while the inner run stays as it is.
pub fn pointers_move()
    ensures { PointersMove }
{}

/// Where the runs agree after a clean step of an instruction other than CALL and RET, they agree at the next one.
pub fn steps_agree()
    ensures { StepsAgree }
{}

/// After a clean step, and the statements of an operation that leaves SP and whose operands stand at their places,
/// both runs agree.
pub fn operations_agree()
    ensures { OperationsAgree }
{}

/// After a PUSH of an operand other than SP and BP both runs agree, where the word of the frame below SP takes it.
pub fn words_are_pushed()
    ensures { WordsArePushed }
{}

/// After `mov bp,sp`, `mov sp,bp`, LEA of SP from BP, `pop bp` and LEAVE both runs agree, with the inner run as it
/// was.
pub fn pointers_are_set()
    ensures { PointersAreSet }
{}

/// After a CALL both runs agree, where the inner run has begun the procedure with what passes to it.
pub fn calls_begin()
    ensures { CallsBegin }
{}

/// After a RET both runs agree, where the inner run has returned to the procedure that waits.
pub fn calls_return()
    ensures { CallsReturn }
{}

/// The cells that are told of procedures that are found are theirs, and the places that are named for bytes of a frame
/// are its places in both runs.
pub fn found_places_stand()
    ensures { FoundPlacesStand }
{}

/// After the statements of an instruction that takes operands from the places that are named, puts its result there,
/// and leaves SP and BP, the runs agree.
pub fn operation_nodes_agree()
    ensures { OperationNodesAgree }
{}

/// The end of an instruction's block leads where the machine goes on, other than by CALL and RET.
pub fn exits_lead()
    ensures { ExitsLead }
{}

/// After the statements of a division, of a DOS call, of XLAT, of a jump through a table, and of LEA of another
/// register than SP the runs agree, or both have ended alike.
pub fn special_nodes_agree()
    ensures { SpecialNodesAgree }
{}

/// After the statements of a PUSH, of a POP, and of an instruction that moves SP or BP alone the runs agree.
pub fn stack_nodes_agree()
    ensures { StackNodesAgree }
{}

/// After the statements of each instruction but CALL and RET both runs agree, or both have ended alike.
pub fn nodes_agree()
    ensures { NodesAgree }
{}

/// At the block of a CALL the inner run begins the callee with what passes to it, and both runs agree.
pub fn call_nodes_agree()
    ensures { CallNodesAgree }
{}

/// At a RET the inner run returns to the caller that waits, which takes back what the callee may have changed, and
/// both runs agree.
pub fn return_nodes_agree()
    ensures { ReturnNodesAgree }
{}
