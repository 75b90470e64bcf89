//! The lines of a plan's times.

ghost use Rattle.std.specs.Prelude.{◌≡◌};
ghost use Rattle.nor_base.specs.Device.{Writes, Counts};
ghost use Rattle.nor_times.specs.Text.{bus_line, busy_line, known_line, milliseconds, times_text};

use crate::busy::Busy;
use itoa::Buffer;
use nor_base::{ByteOut, Failed, put_all, put_parts};

/// Writes the two lines of times.
pub(crate) fn write_times<W: ByteOut>(
    busy: Option<Busy>,
    clocks: u128,
    out: &mut W,
) -> Result<(), Failed>
    ensures bytes { Writes (W.held out.old) (W.held out.new) result (times_text busy clocks) }
    ensures count { Counts (W.count out.old) (W.count out.new) result }
{
    put_busy(busy, out)?;
    put_bus(clocks, out)
}

/// Puts the line of the chip's busy time.
fn put_busy<W: ByteOut>(busy: Option<Busy>, out: &mut W) -> Result<(), Failed>
    ensures bytes { Writes (W.held out.old) (W.held out.new) result (busy_line busy) }
    ensures count { Counts (W.count out.old) (W.count out.new) result }
{
    match busy {
        None => put_all(out, b"busy unknown\n"),
        Some(busy) => put_known(busy, out),
    }
}

/// Puts the line of a busy time that is known.
fn put_known<W: ByteOut>(busy: Busy, out: &mut W) -> Result<(), Failed>
    ensures bytes { Writes (W.held out.old) (W.held out.new) result (known_line busy) }
    ensures count { Counts (W.count out.old) (W.count out.new) result }
{
    let mut typical = Buffer::new();
    let mut worst = Buffer::new();
    put_parts(
        out,
        &[
            b"busy ",
            typical.format(milliseconds(busy.typical)).as_bytes(),
            b" ms typical ",
            worst.format(milliseconds(busy.worst)).as_bytes(),
            b" ms worst\n",
        ],
    )
}

/// Puts the line of the clocks.
fn put_bus<W: ByteOut>(clocks: u128, out: &mut W) -> Result<(), Failed>
    ensures bytes { Writes (W.held out.old) (W.held out.new) result (bus_line clocks) }
    ensures count { Counts (W.count out.old) (W.count out.new) result }
{
    let mut digits = Buffer::new();
    put_parts(
        out,
        &[b"bus ", digits.format(clocks).as_bytes(), b" clocks\n"],
    )
}

/// Microseconds in whole milliseconds, rounded up.
fn milliseconds(microseconds: u128) -> u128
    ensures { result ≡ milliseconds microseconds }
{
    microseconds.div_ceil(1000)
}
