//! Why a command isn't done, what is printed of it, and the status that it ends with.

ghost use Rattle.std.specs.Prelude.{◌≡◌, IfOk, IfErr};
ghost use Rattle.nor_base.specs.Device.{Writes, Counts};
ghost use Rattle.norprog_common.specs.Lines.{beyond_text, length_text, partial_text};
ghost use Rattle.norprog_common.specs.Lines.{spelled, hex_text, layout_text, sfdp_text, plan_text};
ghost use Rattle.norprog_common.specs.Lines.{script_text, fault_text, file_text, script_refusal};
ghost use Rattle.norprog_common.specs.Lines.{program_line, printed, status_after};
ghost use Rattle.norprog_common.specs.Lines.{lack_text, line_text, sheet_text};
ghost use Rattle.norprog_common.specs.Told.{Tells, cut_status, output};
ghost use Rattle.nor_job.specs.declared.fault.BuildFault.TheVariants.{Memory, Write};
ghost use Rattle.norprog_common.specs.declared.faults.Refusal.TheVariants.{Build};

use itoa::Buffer;
use nor_base::{ByteOut, Failed, put_all, put_parts};
use nor_geometry::PlanFault;
use nor_hex::HexFault;
use nor_job::BuildFault;
use nor_layout::LayoutFault;
use nor_script::{ScriptFault, hex_number};
use nor_sfdp::SfdpFault;
use nor_sheet::{Lack, LineFault, SheetFault};
use std::alloc::{AllocError, AllocFailed};

/// A file of the command line.
#[derive(Clone, Copy)]
pub enum FileName {
    Hex,
    Layout,
    Sfdp,
    Sheet,
    Content,
    Script,
    Out,
    Map,
    Device,
    Bin,
    Tables,
    Before,
    Resume,
    Log,
}

/// What a chosen region lacks of an image.
#[derive(Clone, Copy)]
pub struct Gap {
    /// The region's index among the chosen ones, from 0.
    pub index: u64,
    /// How many of its addresses have a byte.
    pub given: u64,
    /// How many addresses it has.
    pub size: u64,
    /// The lowest of them that has no byte.
    pub first: u32,
}

/// What of an image lies off a chip.
#[derive(Clone, Copy)]
pub struct Stray {
    /// How many of its addresses.
    pub count: u64,
    /// The lowest of them, as the image has it.
    pub first: u32,
}

/// How many bytes a raw image has, and how many it has to have.
#[derive(Clone, Copy)]
pub struct Length {
    pub given: u64,
    pub wanted: u64,
}

/// What comes after the words of a refusal.
#[derive(Clone, Copy)]
pub(crate) enum Behind {
    Nothing,
    /// A number in decimal.
    Number(u64),
    /// An address in eight hexadecimal digits.
    Address(u32),
}

/// Why a command isn't done.
#[derive(Drop)]
pub enum Refusal {
    /// The words are no command line, or ask for help: the text of the command line library.
    Text(String),
    /// A value isn't of its form, or options don't go together.
    Usage,
    /// A file can't be used.
    File(FileName),
    /// The build is refused. Out of memory and a failed output of the program itself count among
    /// these.
    Build(BuildFault),
    /// No chip of this meaning has that page.
    Page,
    /// The script's text is none. It is never the reader's `Memory`.
    Script(ScriptFault),
    /// A raw image reaches past the last address.
    BinSize,
    /// A raw image hasn't as many bytes as the chip, or the region.
    BinLength(Length),
    /// The layout has no region of the name in which a raw image has to lie.
    BinRegion,
    /// Two files of the image give this address different bytes.
    Conflict(u32),
    /// A script has only this many steps, and none of those asked for.
    Steps(u64),
    /// The image gives the chosen region of this index, from 0, no byte.
    EmptyRegion(u64),
    /// The image gives a chosen region only in part.
    Partial(Gap),
    /// Bytes of the image lie off the chip.
    Beyond(Stray),
    /// No byte of the image lies at a chosen address of the chip.
    Nowhere,
    /// The line of this number is none of a log.
    Log(u64),
}

impl Refusal {
    /// Out of memory.
    pub const MEMORY: Refusal = Refusal::Build(BuildFault::Memory);

    /// An output failed.
    pub const WRITE: Refusal = Refusal::Build(BuildFault::Write);
}

impl From<AllocError> for Refusal {
    ghost from_gives = { λ _ refusal. refusal ≡ Build Memory };

    fn from(_error: AllocError) -> Refusal {
        Refusal::MEMORY
    }
}

impl<T: Drop> From<AllocFailed<T>> for Refusal {
    ghost from_gives = { λ _ refusal. refusal ≡ Build Memory };

    fn from(_error: AllocFailed<T>) -> Refusal {
        Refusal::MEMORY
    }
}

impl From<ScriptFault> for Refusal {
    ghost from_gives = { λ fault refusal. refusal ≡ script_refusal fault };

    fn from(fault: ScriptFault) -> Refusal {
        match fault {
            ScriptFault::Memory => Refusal::MEMORY,
            other => Refusal::Script(other),
        }
    }
}

/// Writes a refusal, and returns the status that the program ends with. Where `err` fails a part of
/// the text is lost, and nothing more is reported.
pub fn refuse<E: ByteOut>(refusal: &Refusal, err: &mut E) -> u8
    ensures status { result ≡ status_after refusal.now }
    ensures told { Tells (output E.held E.count err.old err.new) (printed refusal.now) }
{
    let _ = write_refusal(refusal, err);
    exit_status(refusal)
}

/// Ends a command: answers the status of its work, or writes why there is none and returns that
/// status.
pub fn answered<E: ByteOut>(work: Result<u8, Refusal>, err: &mut E) -> u8
    ensures done { IfOk work (λ status. (result ≡ status) × (err.new ≡ err.old)) }
    ensures told { IfErr work (λ why. (result ≡ status_after why)
        × Tells (output E.held E.count err.old err.new) (printed why)) }
{
    match work {
        Ok(status) => status,
        Err(refusal) => refuse(&refusal, err),
    }
}

/// Tells that lines couldn't be printed, where what was told before them went out. Returns the
/// status: the command's own, 1 where that is 0.
pub fn refuse_lines<E: ByteOut>(told: Result<(), Failed>, own: u8, err: &mut E) -> u8
    ensures status { result ≡ cut_status own }
    ensures told { IfOk told
        (λ _. Tells (output E.held E.count err.old err.new) (printed (Build Write))) }
    ensures lost { IfErr told (λ _. err.new ≡ err.old) }
{
    if told.is_ok() {
        let _ = refuse(&Refusal::WRITE, err);
    }
    own.max(1)
}

/// 2 where the command line is at fault or asks for help, else 1.
fn exit_status(refusal: &Refusal) -> u8
    ensures { result ≡ status_after refusal.now }
{
    match refusal {
        Refusal::Text(_) | Refusal::Usage => 2,
        Refusal::File(_)
        | Refusal::Build(_)
        | Refusal::Page
        | Refusal::Script(_)
        | Refusal::BinSize
        | Refusal::BinLength(_)
        | Refusal::BinRegion
        | Refusal::Conflict(_)
        | Refusal::Steps(_)
        | Refusal::EmptyRegion(_)
        | Refusal::Partial(_)
        | Refusal::Beyond(_)
        | Refusal::Nowhere
        | Refusal::Log(_) => 1,
    }
}

/// Writes the line of a refusal, or the command line library's text. It takes no memory.
fn write_refusal<E: ByteOut>(refusal: &Refusal, err: &mut E) -> Result<(), Failed>
    ensures bytes { Writes (E.held err.old) (E.held err.new) result (printed refusal.now) }
    ensures count { Counts (E.count err.old) (E.count err.new) result }
{
    match refusal {
        Refusal::Text(text) => put_all(err, text.as_bytes()),
        Refusal::Usage => put_line(err, b"usage", Behind::Nothing),
        Refusal::File(name) => put_line(err, file_words(*name), Behind::Nothing),
        Refusal::Build(fault) => {
            let (words, behind) = fault_words(*fault);
            put_line(err, words, behind)
        }
        Refusal::Page => put_line(err, b"page", Behind::Nothing),
        Refusal::Script(fault) => {
            let (words, behind) = script_words(*fault);
            put_line(err, words, behind)
        }
        Refusal::BinSize => put_line(err, b"bin size", Behind::Nothing),
        Refusal::BinLength(length) => put_length(err, length),
        Refusal::BinRegion => put_line(err, b"bin region", Behind::Nothing),
        Refusal::Conflict(address) => { put_line(err, b"conflict at ", Behind::Address(*address)) }
        Refusal::Steps(number) => put_line(err, b"script steps ", Behind::Number(*number)),
        Refusal::EmptyRegion(index) => put_line(err, b"empty region ", Behind::Number(*index)),
        Refusal::Partial(gap) => put_partial(err, gap),
        Refusal::Beyond(stray) => put_beyond(err, stray),
        Refusal::Nowhere => put_line(err, b"image lands nowhere", Behind::Nothing),
        Refusal::Log(line) => put_line(err, b"log line ", Behind::Number(*line)),
    }
}

/// Writes `norprog: `, the words, what comes after them, and LF.
fn put_line<E: ByteOut>(err: &mut E, words: &[u8], behind: Behind) -> Result<(), Failed>
    ensures bytes { Writes (E.held err.old) (E.held err.new) result
        (program_line (spelled words.now behind)) }
    ensures count { Counts (E.count err.old) (E.count err.new) result }
{
    match behind {
        Behind::Nothing => put_parts(err, &[b"norprog: ", words, b"\n"]),
        Behind::Number(number) => {
            let mut digits = Buffer::new();
            put_parts(
                err,
                &[b"norprog: ", words, digits.format(number).as_bytes(), b"\n"],
            )
        }
        Behind::Address(address) => put_parts(
            err,
            &[b"norprog: ", words, &hex_number(address), b"\n"],
        ),
    }
}

/// Writes the line of a region that is given only in part.
fn put_partial<E: ByteOut>(err: &mut E, gap: &Gap) -> Result<(), Failed>
    ensures bytes { Writes (E.held err.old) (E.held err.new) result
        (program_line (partial_text gap.now)) }
    ensures count { Counts (E.count err.old) (E.count err.new) result }
{
    let (mut index, mut given, mut size) = (Buffer::new(), Buffer::new(), Buffer::new());
    put_parts(
        err,
        &[
            b"norprog: partial region ",
            index.format(gap.index).as_bytes(),
            b": ",
            given.format(gap.given).as_bytes(),
            b" of ",
            size.format(gap.size).as_bytes(),
            b" bytes, first missing ",
            &hex_number(gap.first),
            b"\n",
        ],
    )
}

/// Writes the line of bytes that lie off the chip.
fn put_beyond<E: ByteOut>(err: &mut E, stray: &Stray) -> Result<(), Failed>
    ensures bytes { Writes (E.held err.old) (E.held err.new) result
        (program_line (beyond_text stray.now)) }
    ensures count { Counts (E.count err.old) (E.count err.new) result }
{
    let mut count = Buffer::new();
    put_parts(
        err,
        &[
            b"norprog: beyond ",
            count.format(stray.count).as_bytes(),
            b" bytes, first ",
            &hex_number(stray.first),
            b"\n",
        ],
    )
}

/// Writes the line of a raw image of another size.
fn put_length<E: ByteOut>(err: &mut E, length: &Length) -> Result<(), Failed>
    ensures bytes { Writes (E.held err.old) (E.held err.new) result
        (program_line (length_text length.now)) }
    ensures count { Counts (E.count err.old) (E.count err.new) result }
{
    let (mut given, mut wanted) = (Buffer::new(), Buffer::new());
    put_parts(
        err,
        &[
            b"norprog: bin size: ",
            given.format(length.given).as_bytes(),
            b" bytes, ",
            wanted.format(length.wanted).as_bytes(),
            b" wanted\n",
        ],
    )
}

/// The words for a file.
fn file_words(name: FileName) -> &'static [u8]
    ensures { result.now ≡ file_text name }
{
    match name {
        FileName::Hex => b"file hex",
        FileName::Layout => b"file layout",
        FileName::Sfdp => b"file sfdp",
        FileName::Sheet => b"file sheet",
        FileName::Content => b"file content",
        FileName::Script => b"file script",
        FileName::Out => b"file out",
        FileName::Map => b"file map",
        FileName::Device => b"file device",
        FileName::Bin => b"file bin",
        FileName::Tables => b"file tables",
        FileName::Before => b"file before",
        FileName::Resume => b"file resume",
        FileName::Log => b"file log",
    }
}

/// The words for a fault, and what comes after them.
fn fault_words(fault: BuildFault) -> (&'static [u8], Behind)
    ensures { spelled result.0.now result.1 ≡ fault_text fault }
{
    match fault {
        BuildFault::Contradiction(number) => (b"contradiction ", Behind::Number(u64::from(number))),
        BuildFault::Hex(fault) => hex_words(fault),
        BuildFault::Layout(fault) => layout_words(fault),
        BuildFault::Sfdp(fault) => (sfdp_words(fault), Behind::Nothing),
        BuildFault::Sheet(fault) => sheet_words(fault),
        BuildFault::Status(number) => (b"status ", Behind::Number(u64::from(number))),
        BuildFault::ModeImpossible => (b"mode", Behind::Nothing),
        BuildFault::ContentSize => (b"content size", Behind::Nothing),
        BuildFault::Plan(fault) => plan_words(fault),
        BuildFault::ContentShort => (b"content short", Behind::Nothing),
        BuildFault::Read => (b"read", Behind::Nothing),
        BuildFault::Write => (b"write", Behind::Nothing),
        BuildFault::Memory => (b"memory", Behind::Nothing),
    }
}

/// The words for a fault of the plan, and its address.
fn plan_words(fault: PlanFault) -> (&'static [u8], Behind)
    ensures { spelled result.0.now result.1 ≡ plan_text fault }
{
    match fault {
        PlanFault::NoErase(address) => (b"plan 1 at ", Behind::Address(address)),
        PlanFault::Unreachable(address) => (b"plan 2 at ", Behind::Address(address)),
        PlanFault::Memory => (b"memory", Behind::Nothing),
    }
}

/// The words for a fault of the image, and its line.
fn hex_words(fault: HexFault) -> (&'static [u8], Behind)
    ensures { spelled result.0.now result.1 ≡ hex_text fault }
{
    match fault {
        HexFault::NoColon { line } => (b"hex 1 line ", Behind::Number(line)),
        HexFault::BadDigit { line } => (b"hex 2 line ", Behind::Number(line)),
        HexFault::BadLength { line } => (b"hex 3 line ", Behind::Number(line)),
        HexFault::BadSum { line } => (b"hex 4 line ", Behind::Number(line)),
        HexFault::BadType { line } => (b"hex 5 line ", Behind::Number(line)),
        HexFault::Conflict { line } => (b"hex 6 line ", Behind::Number(line)),
        HexFault::NoEnd { line } => (b"hex 7 line ", Behind::Number(line)),
        HexFault::AfterEnd { line } => (b"hex 8 line ", Behind::Number(line)),
        HexFault::Memory => (b"memory", Behind::Nothing),
    }
}

/// The words for a fault of the layout, and its line or the index of the chosen name.
fn layout_words(fault: LayoutFault) -> (&'static [u8], Behind)
    ensures { spelled result.0.now result.1 ≡ layout_text fault }
{
    match fault {
        LayoutFault::BadLine(line) => (b"layout 1 line ", Behind::Number(line)),
        LayoutFault::BadNumber(line) => (b"layout 2 line ", Behind::Number(line)),
        LayoutFault::EndBeforeStart(line) => (b"layout 3 line ", Behind::Number(line)),
        LayoutFault::RepeatedName(line) => (b"layout 4 line ", Behind::Number(line)),
        LayoutFault::TooMany(line) => (b"layout 5 line ", Behind::Number(line)),
        LayoutFault::UnknownRegion(index) => (b"layout 6 region ", Behind::Number(index)),
        LayoutFault::Memory => (b"memory", Behind::Nothing),
    }
}

/// The words for a fault of the script, and its line.
fn script_words(fault: ScriptFault) -> (&'static [u8], Behind)
    ensures { spelled result.0.now result.1 ≡ script_text fault }
{
    match fault {
        ScriptFault::Header(line) => (b"script 1 line ", Behind::Number(line)),
        ScriptFault::BadLine(line) => (b"script 2 line ", Behind::Number(line)),
        ScriptFault::BadSymbol(line) => (b"script 3 line ", Behind::Number(line)),
        ScriptFault::BadCount(line) => (b"script 4 line ", Behind::Number(line)),
        ScriptFault::NoEnd(line) => (b"script 5 line ", Behind::Number(line)),
        ScriptFault::AfterEnd(line) => (b"script 6 line ", Behind::Number(line)),
        ScriptFault::Memory => (b"memory", Behind::Nothing),
    }
}

/// The words for a fault of a sheet, and its line.
fn sheet_words(fault: SheetFault) -> (&'static [u8], Behind)
    ensures { spelled result.0.now result.1 ≡ sheet_text fault }
{
    match fault {
        SheetFault::Line(line, fault) => (line_words(fault), Behind::Number(line)),
        SheetFault::Whole(lack) => (lack_words(lack), Behind::Nothing),
    }
}

/// The words for a fault of a sheet's line.
fn line_words(fault: LineFault) -> &'static [u8]
    ensures { result.now ≡ line_text fault }
{
    match fault {
        LineFault::Word => b"sheet 1 line ",
        LineFault::Form => b"sheet 2 line ",
        LineFault::Limit => b"sheet 3 line ",
        LineFault::Twice => b"sheet 4 line ",
    }
}

/// The words for what the whole of a sheet lacks.
fn lack_words(lack: Lack) -> &'static [u8]
    ensures { result.now ≡ lack_text lack }
{
    match lack {
        Lack::Size => b"sheet 5",
        Lack::Page => b"sheet 6",
        Lack::Address => b"sheet 7",
        Lack::Kind => b"sheet 8",
        Lack::Regions => b"sheet 9",
        Lack::Mode => b"sheet 10",
        Lack::QuadRead => b"sheet 11",
        Lack::Opcode => b"sheet 12",
    }
}

/// The words for a fault of the SFDP bytes.
fn sfdp_words(fault: SfdpFault) -> &'static [u8]
    ensures { result.now ≡ sfdp_text fault }
{
    match fault {
        SfdpFault::Signature => b"sfdp 1",
        SfdpFault::Truncated => b"sfdp 2",
        SfdpFault::NoBasic => b"sfdp 3",
        SfdpFault::Major => b"sfdp 4",
        SfdpFault::ShortTable => b"sfdp 5",
        SfdpFault::Density => b"sfdp 6",
        SfdpFault::AddressBytes => b"sfdp 7",
        SfdpFault::PageSize => b"sfdp 8",
        SfdpFault::EraseSize => b"sfdp 9",
        SfdpFault::MapForm => b"sfdp 10",
        SfdpFault::ConfigBits => b"sfdp 11",
        SfdpFault::NoMap => b"sfdp 12",
        SfdpFault::MapSize => b"sfdp 13",
        SfdpFault::Opcode => b"sfdp 14",
    }
}
