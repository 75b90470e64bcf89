//! What the values of a command line of `read` ask for.

ghost use Rattle.std.specs.Prelude.{◌≡◌, is_some, option_map, IfSome};
ghost use Rattle.norprog_common.specs.Chip.{origin_of};
ghost use Rattle.norprog_read.specs.Request.{are_apart, are_same, expected_id, is_well_formed};
ghost use Rattle.norprog_read.specs.Request.{named_chip, AsksFor, IsAskOf};

use crate::asked::{Ask, Known};
use nor_base::Part;
use norprog_common::{
    Chip, ChipArgs, ReadArgs, chip_of, limit, optional_number, optional_status, part,
};
use norprog_device::registers;

/// What `read` is asked for: each value is of its form.
#[derive(Clone, Copy)]
pub struct ReadRequest<'a> {
    /// The file of the tables, the size, or the file of the sheet, where one is given.
    pub chip: Option<Chip<'a>>,
    pub bits: &'a str,
    pub part: Part,
    /// Bytes of the chip's page, where its meaning only says the least that they may be.
    pub page: Option<u32>,
    pub mode4: bool,
    pub device: &'a str,
    /// Most status reads until the chip is idle, 1 or more.
    pub limit: u64,
    /// The name of the file that the tables are saved in.
    pub tables: Option<&'a str>,
    /// The name of the file that the content is saved in.
    pub out: Option<&'a str>,
    /// The terminal is said to hand on each byte as it comes.
    pub raw: bool,
    /// The chip's power was just switched on.
    pub fresh: bool,
    /// Its tables may say another size.
    pub any_size: bool,
    /// The halves of its content may be alike.
    pub repeats: bool,
    /// The identification that it has to have.
    pub expect_id: Option<[u8; 3]>,
}

/// The request that the values spell. None where one isn't of its form, where no device is named,
/// where tables are to be saved of a chip of a size or a sheet, and where both outputs have one
/// name.
pub fn request_of<'a>(given: ReadArgs<'a>) -> Option<ReadRequest<'a>>
    ensures forms { is_some result ≡ is_well_formed given.entry }
    ensures values { IfSome result (λ request. AsksFor given.entry request) }
{
    if !are_apart(given) {
        return None;
    }
    let expect_id = expected_id(given.expect_id)?;
    Some(ReadRequest {
        chip: named_chip(given.chip)?,
        bits: given.chip.bits.unwrap_or(""),
        part: part(given.chip.part.unwrap_or("generic"))?,
        page: optional_number(given.page)?,
        mode4: given.mode4,
        device: given.device?,
        limit: limit(given.limit.unwrap_or("1000000"))?,
        tables: given.tables,
        out: given.out,
        raw: given.raw,
        fresh: given.fresh,
        any_size: given.any_size,
        repeats: given.repeats,
        expect_id,
    })
}

/// The identification that is expected, if one is: exactly six hexadecimal digits of either case.
/// None where it isn't so.
fn expected_id(text: Option<&str>) -> Option<Option<[u8; 3]>>
    ensures { result ≡ expected_id (option_map (λ t. t.now) text.entry) }
{
    match optional_status(text)? {
        Some(value) => Some(Some(registers(value))),
        None => Some(None),
    }
}

/// Whether the outputs have different names, and no tables are saved of a chip of a size or a
/// sheet.
fn are_apart(given: ReadArgs<'_>) -> bool
    ensures { result ≡ are_apart given.entry }
{
    !are_same(given.tables, given.out)
        && !(given.tables.is_some() && (given.chip.uniform.is_some() || given.chip.sheet.is_some()))
}

/// The chip that is named, if one is. None where it isn't of its form.
fn named_chip<'a>(given: ChipArgs<'a>) -> Option<Option<Chip<'a>>>
    ensures { option_map (λ chip. option_map origin_of chip) result ≡ named_chip given.entry }
{
    if given.sfdp.is_none() && given.uniform.is_none() && given.sheet.is_none() {
        return Some(None);
    }
    Some(Some(chip_of(given.sfdp, given.uniform, given.sheet, given.bits)?))
}

/// Whether both are given, and are the same.
fn are_same(one: Option<&str>, other: Option<&str>) -> bool
    ensures { result ≡ are_same (option_map (λ t. t.now) one.entry)
        (option_map (λ t. t.now) other.entry) }
{
    match (one, other) {
        (Some(one), Some(other)) => one == other,
        _ => false,
    }
}

/// What is asked of the chip of a request, whose file has these bytes where it names one.
pub fn ask_of<'a>(request: ReadRequest<'a>, file: &'a [u8]) -> Ask<'a>
    ensures { IsAskOf request.entry file.entry.now result }
{
    Ask {
        known: match request.chip {
            None => Known::Own,
            Some(Chip::Sfdp { .. }) => Known::Tables(file),
            Some(Chip::Uniform(size)) => Known::Uniform(size),
            Some(Chip::Sheet { .. }) => Known::Sheet(file),
        },
        bits: request.bits,
        part: request.part,
        mode4: request.mode4,
        turns: request.limit,
        content: request.out.is_some(),
        near: None,
        erased_only: false,
        page: request.page,
        raw: request.raw,
        fresh: request.fresh,
        any_size: request.any_size,
        repeats: request.repeats,
        expect_id: request.expect_id,
    }
}
