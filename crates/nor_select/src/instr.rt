//! Instructions as they go out.

ghost use Rattle.std.specs.Prelude.{◌≡◌};
ghost use Rattle.nor_select.specs.Coded.{plain};
ghost use Rattle.nor_select.specs.View.{coded_of};

/// What the data clocks of an instruction carry.
#[derive(Clone, Copy)]
pub enum Body<'a> {
    /// There are none.
    Plain,
    /// The status, read again and again until it says idle with the latch clear.
    Poll,
    /// Bytes are sent on one lane.
    Write1(&'a [u8]),
    /// Bytes are sent on four lanes.
    Write4(&'a [u8]),
    /// As many bytes are read on one lane, and these are expected.
    Read1(&'a [u8]),
    /// As many bytes are read on four lanes, and these are expected.
    Read4(&'a [u8]),
}

/// An instruction as it goes out.
#[derive(Clone, Copy)]
pub struct Instr<'a> {
    /// The opcode.
    pub op: u8,
    /// The address; 0 where there is none.
    pub address: u32,
    /// Address bytes: 0, 3 or 4.
    pub width: u8,
    /// Dummy clocks between address and data.
    pub dummies: u8,
    /// What the data clocks carry.
    pub body: Body<'a>,
}

impl<'a> Instr<'a> {
    /// Only an opcode.
    pub(crate) fn bare(op: u8) -> Instr<'a>
        ensures { coded_of result
            ≡ record { op = op; address = 0; width = 0; dummies = 0; load = plain } }
    {
        Instr {
            op,
            address: 0,
            width: 0,
            dummies: 0,
            body: Body::Plain,
        }
    }
}
