//! Values of the definitions, worked out by hand. The function does nothing: its contract is the
//! values, and the gate computes them.

ghost use Rattle.nor_reader.specs.Worked.{Addresses, RightMode, ThreeForFour, FourForThree};
ghost use Rattle.nor_reader.specs.Worked.{NoOther, OneByteIsTooFew, PeriodOfTwo, SixCut};

/// What a chip of 16 bytes gives in either address mode to the address bytes of either, how bytes
/// are cut, and a period.
pub fn modes_worked()
    ensures addresses { Addresses }
    ensures right { RightMode }
    ensures three { ThreeForFour }
    ensures four { FourForThree }
    ensures other { NoOther }
    ensures few { OneByteIsTooFew }
{}

/// How bytes are cut, and what has a period.
pub fn pieces_worked()
    ensures cut { SixCut }
    ensures period { PeriodOfTwo }
{}
