//! Values of the definitions, worked out by hand. The functions do nothing: their contracts are the
//! values, and the gate computes them.

ghost use Rattle.nor_loop.specs.Worked.{ClocksOfEnable, ClocksOfStatus, ClocksOfRead};
ghost use Rattle.nor_loop.specs.Worked.{RequestOfRead, BytesOfReads, ReadsOfPieces, Counting};
ghost use Rattle.nor_loop.specs.Worked.{OneByteExplained, OneByteLog, AnotherByte, BusyAtRest};
ghost use Rattle.nor_loop.specs.Worked.{AnotherOpcode, ClocksOfARow, ProgramAlone};

/// Operations, their clocks and requests, and what counts of their answers.
pub fn operations_worked()
    ensures enable { ClocksOfEnable }
    ensures status { ClocksOfStatus }
    ensures read { ClocksOfRead }
    ensures request { RequestOfRead }
    ensures bytes { BytesOfReads }
    ensures pieces { ReadsOfPieces }
    ensures counting { Counting }
{}

/// The log that programs one byte of the 8 KiB chip and reads it back, and three operations that
/// the erased chip doesn't explain: another byte, a status that says busy, and an opcode that it
/// doesn't know.
pub fn logs_worked()
    ensures explained { OneByteExplained }
    ensures those { OneByteLog }
    ensures byte { AnotherByte }
    ensures busy { BusyAtRest }
    ensures opcode { AnotherOpcode }
{}

/// What may have come of a row: the clocks of a program of one byte with its write enable and three
/// status reads, and that program where the write enable was passed over.
pub fn rows_worked()
    ensures clocks { ClocksOfARow }
    ensures alone { ProgramAlone }
{}
