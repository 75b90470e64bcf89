//! The command that goes on with work that stopped, as a shell reads it.

ghost use Rattle.std.specs.Prelude.{◌≡◌, ◌++◌, [], Some, codes, flat_map, option_map};
ghost use Rattle.nor_base.specs.Device.{Counts, Writes};
ghost use Rattle.norprog_device.specs.Setting.{stty_command};
ghost use Rattle.norprog_device.specs.Shell.{shell_word};
ghost use Rattle.norprog_flash.specs.State.{command_word, first_name, flagged, given_text};
ghost use Rattle.norprog_flash.specs.State.{name_text};
ghost use Rattle.norprog_flash.specs.State.{named_text, next_command, next_options, option_front};
ghost use Rattle.norprog_flash.specs.State.{region_word, regions_text, set_text, valued, way_on};

use nor_base::{ByteOut, Bytes, Failed, put_all, put_parts};
use norprog_common::FlashArgs;
use norprog_device::{write_stty, write_word};

/// An option.
#[derive(Clone, Copy)]
pub(crate) enum Name {
    Sfdp,
    Uniform,
    Sheet,
    Bits,
    Part,
    Page,
    Mode4,
    Device,
    Limit,
    Hex,
    Bin,
    Layout,
    Base,
    All,
    ErasedOnly,
    Strict,
    Partial,
    Beyond,
    Near,
    Raw,
    Fresh,
    AnySize,
    Repeats,
    ExpectId,
    Resume,
    Before,
}

/// An option with what is given of it.
#[derive(Clone, Copy)]
pub(crate) enum Given<'a> {
    /// Its value, if it is there.
    Text(Name, Option<&'a str>),
    /// Its values, each with the name before it.
    Each(Name, &'a [&'a str]),
    /// Whether it is there.
    Flag(Name, bool),
    /// The value after which the next one is named.
    Next(Name, Option<&'a str>),
}

/// Writes how to go on with work that stopped: what sets the terminal of the device, and the
/// command.
pub(crate) fn write_way_on<W: ByteOut>(given: &FlashArgs<'_>, writer: &mut W) -> Result<(), Failed>
    ensures bytes { Writes (W.held writer.old) (W.held writer.new) result (way_on given.now) }
    ensures count { Counts (W.count writer.old) (W.count writer.new) result }
{
    write_set(given.device, writer)?;
    write_command(given, writer)
}

/// Writes what sets the terminal of the device, where one is named.
fn write_set<W: ByteOut>(device: Option<&str>, writer: &mut W) -> Result<(), Failed>
    ensures bytes { Writes (W.held writer.old) (W.held writer.new) result
        (set_text (option_map (λ t. t.now) device.entry)) }
    ensures count { Counts (W.count writer.old) (W.count writer.new) result }
{
    match device {
        Some(device) => write_setting(device, writer),
        None => Ok(()),
    }
}

/// Writes what sets the terminal of this device.
fn write_setting<W: ByteOut>(device: &str, writer: &mut W) -> Result<(), Failed>
    ensures bytes { Writes (W.held writer.old) (W.held writer.new) result
        (stty_command device.now ++ codes " && ") }
    ensures count { Counts (W.count writer.old) (W.count writer.new) result }
{
    write_stty(device, writer)?;
    put_all(writer, b" && ")
}

/// Writes the command that goes on with work that stopped.
fn write_command<W: ByteOut>(given: &FlashArgs<'_>, writer: &mut W) -> Result<(), Failed>
    ensures bytes { Writes (W.held writer.old) (W.held writer.new) result (next_command given.now) }
    ensures count { Counts (W.count writer.old) (W.count writer.new) result }
{
    put_all(writer, command_word(given.blank))?;
    write_options(&options(given), writer)?;
    write_regions(given.regions.as_slice(), writer)
}

/// Its name.
fn command_word(blank: bool) -> &'static [u8]
    ensures { result.now ≡ command_word blank }
{
    if blank {
        b"norprog erase"
    } else {
        b"norprog flash"
    }
}

/// Its options.
fn options<'a>(given: &'a FlashArgs<'a>) -> [Given<'a>; 26]
    ensures { flat_map given_text result ≡ next_options given.now }
{
    [
        Given::Text(Name::Sfdp, given.chip.sfdp),
        Given::Text(Name::Uniform, given.chip.uniform),
        Given::Text(Name::Sheet, given.chip.sheet),
        Given::Text(Name::Bits, given.chip.bits),
        Given::Text(Name::Part, given.chip.part),
        Given::Text(Name::Page, given.page),
        Given::Flag(Name::Mode4, given.mode4),
        Given::Text(Name::Device, given.device),
        Given::Text(Name::Limit, given.limit),
        Given::Each(Name::Hex, given.image.hex.as_slice()),
        Given::Each(Name::Bin, given.image.bin.as_slice()),
        Given::Text(Name::Layout, given.layout),
        Given::Text(Name::Base, given.base),
        Given::Flag(Name::All, given.all),
        Given::Flag(Name::ErasedOnly, given.erased_only),
        Given::Flag(Name::Strict, given.strict),
        Given::Flag(Name::Partial, given.partial),
        Given::Flag(Name::Beyond, given.beyond),
        Given::Flag(Name::Near, given.near),
        Given::Flag(Name::Raw, given.raw),
        Given::Flag(Name::Fresh, given.fresh),
        Given::Flag(Name::AnySize, given.any_size),
        Given::Flag(Name::Repeats, given.repeats),
        Given::Text(Name::ExpectId, given.expect_id),
        Given::Text(Name::Resume, Some(first_name(given))),
        Given::Next(Name::Before, given.before),
    ]
}

/// The name of the file that has what the chip held before the first try.
pub(crate) fn first_name<'a>(given: &FlashArgs<'a>) -> &'a str
    ensures { result.now ≡ first_name given.now }
{
    match given.resume {
        Some(name) => name,
        None => given.before.unwrap_or(""),
    }
}

/// Writes options.
fn write_options<W: ByteOut>(options: &[Given<'_>], writer: &mut W) -> Result<(), Failed>
    ensures bytes { Writes (W.held writer.old) (W.held writer.new) result
        (flat_map given_text options.now) }
    ensures count { Counts (W.count writer.old) (W.count writer.new) result }
{
    for option in options {
        write_given(*option, writer)?;
    }
    Ok(())
}

/// Writes an option, where it is given.
fn write_given<W: ByteOut>(option: Given<'_>, writer: &mut W) -> Result<(), Failed>
    ensures bytes { Writes (W.held writer.old) (W.held writer.new) result
        (given_text option.entry) }
    ensures count { Counts (W.count writer.old) (W.count writer.new) result }
{
    match option {
        Given::Text(name, value) => write_valued(name, value, b"", writer),
        Given::Each(name, values) => write_each(name, values, writer),
        Given::Flag(name, is) => write_flagged(name, is, writer),
        Given::Next(name, value) => write_valued(name, value, b".2", writer),
    }
}

/// Writes an option with each of its values.
fn write_each<W: ByteOut>(name: Name, values: &[&str], writer: &mut W) -> Result<(), Failed>
    ensures bytes { Writes (W.held writer.old) (W.held writer.new) result
        (flat_map (λ value. valued name (Some value.now) []) values.now) }
    ensures count { Counts (W.count writer.old) (W.count writer.new) result }
{
    for value in values {
        write_value(name, *value, b"", writer)?;
    }
    Ok(())
}

/// Writes a flag, where it is given.
fn write_flagged<W: ByteOut>(name: Name, is: bool, writer: &mut W) -> Result<(), Failed>
    ensures bytes { Writes (W.held writer.old) (W.held writer.new) result (flagged name is) }
    ensures count { Counts (W.count writer.old) (W.count writer.new) result }
{
    if is {
        put_parts(writer, &[b" --", name_text(name)])
    } else {
        Ok(())
    }
}

/// Writes an option with its value and something after that, where it is given.
fn write_valued<W: ByteOut>(
    name: Name,
    value: Option<&str>,
    after: &[u8],
    writer: &mut W,
) -> Result<(), Failed>
    ensures bytes { Writes (W.held writer.old) (W.held writer.new) result
        (valued name (option_map (λ t. t.now) value.entry) after.now) }
    ensures count { Counts (W.count writer.old) (W.count writer.new) result }
{
    match value {
        Some(value) => write_value(name, value, after, writer),
        None => Ok(()),
    }
}

/// Writes an option, its value, and something after that.
fn write_value<W: ByteOut>(
    name: Name,
    value: &str,
    after: &[u8],
    writer: &mut W,
) -> Result<(), Failed>
    ensures bytes { Writes (W.held writer.old) (W.held writer.new) result
        (option_front name ++ (shell_word value.now ++ after.now)) }
    ensures count { Counts (W.count writer.old) (W.count writer.new) result }
{
    write_front(name, writer)?;
    write_word(value.as_bytes(), writer)?;
    put_all(writer, after)
}

/// Writes what comes before the value of an option.
fn write_front<W: ByteOut>(name: Name, writer: &mut W) -> Result<(), Failed>
    ensures bytes { Writes (W.held writer.old) (W.held writer.new) result (option_front name) }
    ensures count { Counts (W.count writer.old) (W.count writer.new) result }
{
    put_parts(writer, &[b" --", name_text(name), b"="])
}

/// An option's name.
fn name_text(name: Name) -> &'static [u8]
    ensures { result.now ≡ name_text name }
{
    match name {
        Name::Sfdp => b"sfdp",
        Name::Uniform => b"uniform",
        Name::Sheet => b"sheet",
        Name::Bits => b"bits",
        Name::Part => b"part",
        Name::Page => b"page",
        Name::Mode4 => b"mode4",
        Name::Device => b"device",
        Name::Limit => b"limit",
        Name::Hex => b"hex",
        Name::Bin => b"bin",
        Name::Layout => b"layout",
        Name::Base => b"base",
        Name::All => b"all",
        Name::ErasedOnly => b"erased-only",
        Name::Strict => b"strict",
        Name::Partial => b"partial",
        Name::Beyond => b"beyond",
        Name::Near => b"near",
        Name::Raw => b"raw",
        Name::Fresh => b"fresh",
        Name::AnySize => b"any-size",
        Name::Repeats => b"repeats",
        Name::ExpectId => b"expect-id",
        Name::Resume => b"resume",
        Name::Before => b"before",
    }
}

/// Writes the names of regions after `--`, where there are some.
fn write_regions<W: ByteOut>(regions: &[Bytes], writer: &mut W) -> Result<(), Failed>
    ensures bytes { Writes (W.held writer.old) (W.held writer.new) result
        (regions_text regions.now) }
    ensures count { Counts (W.count writer.old) (W.count writer.new) result }
{
    match regions {
        [] => Ok(()),
        [..] => write_named(regions, writer),
    }
}

/// Writes `--` and the names of regions.
fn write_named<W: ByteOut>(regions: &[Bytes], writer: &mut W) -> Result<(), Failed>
    ensures bytes { Writes (W.held writer.old) (W.held writer.new) result (named_text regions.now) }
    ensures count { Counts (W.count writer.old) (W.count writer.new) result }
{
    put_all(writer, b" --")?;
    write_names(regions, writer)
}

/// Writes a blank and a name, of each region.
fn write_names<W: ByteOut>(regions: &[Bytes], writer: &mut W) -> Result<(), Failed>
    ensures bytes { Writes (W.held writer.old) (W.held writer.new) result
        (flat_map region_word regions.now) }
    ensures count { Counts (W.count writer.old) (W.count writer.new) result }
{
    for region in regions {
        write_name(region, writer)?;
    }
    Ok(())
}

/// Writes a blank and a word.
fn write_name<W: ByteOut>(name: &Bytes, writer: &mut W) -> Result<(), Failed>
    ensures bytes { Writes (W.held writer.old) (W.held writer.new) result (region_word name.now) }
    ensures count { Counts (W.count writer.old) (W.count writer.new) result }
{
    put_all(writer, b" ")?;
    write_word(name.as_slice(), writer)
}
