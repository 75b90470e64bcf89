//! What a chip's tables mean, as lines of text.

ghost use Rattle.std.specs.Prelude.{◌≡◌, ◌<◌, flat_map};
ghost use Rattle.nor_base.specs.Device.{Writes, Counts};
ghost use Rattle.norprog.specs.ChipText.{hex_digit, hex_byte, page_end, width_text, front_text};
ghost use Rattle.norprog.specs.ChipText.{op4_text, erase_text, kind_text, erases_text, switch_text};
ghost use Rattle.norprog.specs.ChipText.{read_text, quad_read_text, offered_text, dedicated_text};
ghost use Rattle.norprog.specs.ChipText.{modes_text, region_text, meaning_text};

use itoa::Buffer;
use nor_base::{
    ByteOut, Erase, Failed, Meaning, QuadRead, Region, Switch, Width, put_all, put_parts,
};

/// Writes what a meaning says, a line each, closed by LF (docs/FORMATS.md, section 9). Opcodes are
/// in hexadecimal, all else in decimal. It takes no memory.
///
/// `Failed` comes only from the writer.
pub fn sfdp_text<W: ByteOut>(meaning: &Meaning, writer: &mut W) -> Result<(), Failed>
    ensures bytes { Writes (W.held writer.old) (W.held writer.new) result
        (meaning_text meaning.now) }
    ensures count { Counts (W.count writer.old) (W.count writer.new) result }
{
    put_front(meaning, writer)?;
    put_erases(meaning, writer)?;
    put_modes(meaning, writer)?;
    put_quad_read(meaning.quad_read, writer)?;
    put_dedicated(meaning, writer)?;
    put_regions(meaning.regions.as_slice(), writer)
}

/// Size, page and address bytes.
fn put_front<W: ByteOut>(meaning: &Meaning, writer: &mut W) -> Result<(), Failed>
    ensures bytes { Writes (W.held writer.old) (W.held writer.new) result (front_text meaning.now) }
    ensures count { Counts (W.count writer.old) (W.count writer.new) result }
{
    let mut size = Buffer::new();
    let mut page = Buffer::new();
    put_parts(
        writer,
        &[
            b"size ",
            size.format(meaning.size).as_bytes(),
            b"\npage ",
            page.format(meaning.page).as_bytes(),
            page_end(meaning.open_page),
            width_line(meaning.width),
        ],
    )
}

/// What follows a page's number.
fn page_end(open_page: bool) -> &'static [u8]
    ensures { result.now ≡ page_end open_page }
{
    if open_page { b" up\n" } else { b"\n" }
}

/// The line of the address bytes.
fn width_line(width: Width) -> &'static [u8]
    ensures { result.now ≡ width_text width }
{
    match width {
        Width::Three => b"address three\n",
        Width::Both => b"address both\n",
        Width::Four => b"address four\n",
    }
}

/// A digit of a hexadecimal number.
fn hex_digit(number: u8) -> u8
    requires { number < 16 }
    ensures { result ≡ hex_digit number }
{
    if number < 10 {
        number + 48
    } else {
        number + 87
    }
}

/// A byte in two hexadecimal digits.
fn hex_byte(byte: u8) -> [u8; 2]
    ensures { result ≡ hex_byte byte }
{
    [hex_digit(byte / 16), hex_digit(byte % 16)]
}

/// A dedicated opcode, or what stands for none.
fn op4_digits(op4: Option<u8>) -> [u8; 2]
    ensures { result ≡ op4_text op4 }
{
    match op4 {
        None => *b"--",
        Some(op4) => hex_byte(op4),
    }
}

/// The present kinds.
fn put_erases<W: ByteOut>(meaning: &Meaning, writer: &mut W) -> Result<(), Failed>
    ensures bytes { Writes (W.held writer.old) (W.held writer.new) result
        (erases_text meaning.now) }
    ensures count { Counts (W.count writer.old) (W.count writer.new) result }
{
    put_kind(meaning, 1, writer)?;
    put_kind(meaning, 2, writer)?;
    put_kind(meaning, 3, writer)?;
    put_kind(meaning, 4, writer)
}

/// The kind of a number, where it is present.
fn put_kind<W: ByteOut>(meaning: &Meaning, kind: u8, writer: &mut W) -> Result<(), Failed>
    ensures bytes { Writes (W.held writer.old) (W.held writer.new) result
        (kind_text meaning.now kind) }
    ensures count { Counts (W.count writer.old) (W.count writer.new) result }
{
    put_erase(kind, meaning.erase_kind(kind), writer)
}

/// A kind, where it is present.
fn put_erase<W: ByteOut>(kind: u8, slot: Option<Erase>, writer: &mut W) -> Result<(), Failed>
    ensures bytes { Writes (W.held writer.old) (W.held writer.new) result (erase_text kind slot) }
    ensures count { Counts (W.count writer.old) (W.count writer.new) result }
{
    let Some(erase) = slot else {
        return Ok(());
    };
    let mut number = Buffer::new();
    let mut size = Buffer::new();
    put_parts(
        writer,
        &[
            b"erase ",
            number.format(kind).as_bytes(),
            b" ",
            size.format(erase.size).as_bytes(),
            b" ",
            &hex_byte(erase.op),
            b" ",
            &op4_digits(erase.op4),
            b"\n",
        ],
    )
}

/// How four-byte address mode is entered and left.
fn put_modes<W: ByteOut>(meaning: &Meaning, writer: &mut W) -> Result<(), Failed>
    ensures bytes { Writes (W.held writer.old) (W.held writer.new) result (modes_text meaning.now) }
    ensures count { Counts (W.count writer.old) (W.count writer.new) result }
{
    put_parts(
        writer,
        &[
            b"enter",
            switch_end(meaning.enter),
            b"leave",
            switch_end(meaning.leave),
        ],
    )
}

/// How a mode is switched.
fn switch_end(switch: Switch) -> &'static [u8]
    ensures { result.now ≡ switch_text switch }
{
    match switch {
        Switch::Absent => b" absent\n",
        Switch::Plain => b" plain\n",
        Switch::Latched => b" latched\n",
    }
}

/// The 1-1-4 fast read, or that there is none.
fn put_quad_read<W: ByteOut>(read: Option<QuadRead>, writer: &mut W) -> Result<(), Failed>
    ensures bytes { Writes (W.held writer.old) (W.held writer.new) result (quad_read_text read) }
    ensures count { Counts (W.count writer.old) (W.count writer.new) result }
{
    match read {
        None => put_all(writer, b"quadread none\n"),
        Some(read) => put_read(read, writer),
    }
}

/// A 1-1-4 fast read that is there.
fn put_read<W: ByteOut>(read: QuadRead, writer: &mut W) -> Result<(), Failed>
    ensures bytes { Writes (W.held writer.old) (W.held writer.new) result (read_text read) }
    ensures count { Counts (W.count writer.old) (W.count writer.new) result }
{
    let mut dummies = Buffer::new();
    put_parts(
        writer,
        &[
            b"quadread ",
            &hex_byte(read.op),
            b" ",
            dummies.format(read.dummies).as_bytes(),
            b"\n",
        ],
    )
}

/// The four-byte address instructions that are offered.
fn put_dedicated<W: ByteOut>(meaning: &Meaning, writer: &mut W) -> Result<(), Failed>
    ensures bytes { Writes (W.held writer.old) (W.held writer.new) result
        (dedicated_text meaning.now) }
    ensures count { Counts (W.count writer.old) (W.count writer.new) result }
{
    put_parts(
        writer,
        &[
            b"dedicated",
            where_offered(meaning.read4, b" 13"),
            where_offered(meaning.quad_read4, b" 6c"),
            where_offered(meaning.program4, b" 12"),
            where_offered(meaning.quad4, b" 34"),
            b"\n",
        ],
    )
}

/// An opcode's text, where it is offered.
fn where_offered(offered: bool, opcode: &'static [u8]) -> &'static [u8]
    ensures { result.now ≡ offered_text offered opcode.now }
{
    if offered { opcode } else { b"" }
}

/// The regions of the sector map.
fn put_regions<W: ByteOut>(regions: &[Region], writer: &mut W) -> Result<(), Failed>
    ensures bytes { Writes (W.held writer.old) (W.held writer.new) result
        (flat_map region_text regions.now) }
    ensures count { Counts (W.count writer.old) (W.count writer.new) result }
{
    for region in regions {
        put_region(*region, writer)?;
    }
    Ok(())
}

/// The line of a region.
fn put_region<W: ByteOut>(region: Region, writer: &mut W) -> Result<(), Failed>
    ensures bytes { Writes (W.held writer.old) (W.held writer.new) result (region_text region) }
    ensures count { Counts (W.count writer.old) (W.count writer.new) result }
{
    let mut size = Buffer::new();
    let mut kinds = Buffer::new();
    put_parts(
        writer,
        &[
            b"region ",
            size.format(region.size).as_bytes(),
            b" ",
            kinds.format(region.kinds).as_bytes(),
            b"\n",
        ],
    )
}
