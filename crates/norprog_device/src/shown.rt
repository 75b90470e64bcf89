//! What lines show of a chip: what its registers hold, and bytes that differ.

ghost use Rattle.std.specs.Prelude.{◌≡◌};
ghost use Rattle.nor_base.specs.Device.{Counts, Writes};
ghost use Rattle.norprog_device.specs.Shown.{digits_line, other_line, registers, status_line};

use nor_base::{ByteOut, Failed, Part, put_parts};
use nor_reader::Difference;
use nor_script::{hex_number, hex_pair};

/// S23 to S16, S15 to S8 and S7 to S0.
pub fn registers(status: u32) -> [u8; 3]
    ensures { result ≡ registers status }
{
    let high = (status / 65536 % 256) as u8;
    let middle = (status / 256 % 256) as u8;
    let low = (status % 256) as u8;
    [high, middle, low]
}

/// Writes a text, three bytes in six hexadecimal digits, and LF. It takes no memory.
///
/// `Failed` comes only from the writer.
pub fn write_digits<W: ByteOut>(front: &[u8], bytes: &[u8; 3], writer: &mut W) -> Result<(), Failed>
    ensures bytes { Writes (W.held writer.old) (W.held writer.new) result
        (digits_line front.now bytes.now) }
    ensures count { Counts (W.count writer.old) (W.count writer.new) result }
{
    let [one, two, three] = *bytes;
    put_parts(
        writer,
        &[
            front,
            &hex_pair(one),
            &hex_pair(two),
            &hex_pair(three),
            b"\n",
        ],
    )
}

/// Writes a text, a status in hexadecimal digits, and LF: S7 to S0 in two, of a part whose
/// registers are known S23 to S0 in six. It takes no memory.
///
/// `Failed` comes only from the writer.
pub fn write_status<W: ByteOut>(
    front: &[u8],
    part: Part,
    status: u32,
    writer: &mut W,
) -> Result<(), Failed>
    ensures bytes { Writes (W.held writer.old) (W.held writer.new) result
        (status_line front.now part status) }
    ensures count { Counts (W.count writer.old) (W.count writer.new) result }
{
    match part {
        Part::Generic => put_parts(writer, &[front, &hex_pair((status % 256) as u8), b"\n"]),
        Part::W25q256jv => write_digits(front, &registers(status), writer),
    }
}

/// Writes a byte that is another, behind a text: its address in eight hexadecimal digits, the
/// chip's byte, and after a text the one that was wanted, each in two; and LF. It takes no memory.
///
/// `Failed` comes only from the writer.
pub fn write_difference<W: ByteOut>(
    front: &[u8],
    last: &[u8],
    d: Difference,
    writer: &mut W,
) -> Result<(), Failed>
    ensures bytes { Writes (W.held writer.old) (W.held writer.new) result
        (other_line front.now last.now d) }
    ensures count { Counts (W.count writer.old) (W.count writer.new) result }
{
    put_parts(
        writer,
        &[
            front,
            &hex_number(d.address),
            b" chip ",
            &hex_pair(d.chip),
            last,
            &hex_pair(d.want),
            b"\n",
        ],
    )
}
