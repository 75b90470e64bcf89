//! What the chip behind a device says and holds.

ghost use Rattle.std.specs.Prelude.{◌≡◌, ◌≢◌, ◌≤◌, ◌^◌, ◌∷◌, [], ◌++◌, true, false};
ghost use Rattle.std.specs.Prelude.{length, option_map, take, IfOk, IfErr, MatchResult, List, ℕ};
ghost use Rattle.std.specs.Prelude.{Ok};
ghost use Rattle.nor_job.specs.Chip.{HasChip};
ghost use Rattle.nor_job.specs.Status.{start_of};
ghost use Rattle.nor_reader.specs.AtOnce.{at_once};
ghost use Rattle.nor_reader.specs.Harmless.{HasSentHarmless, SendsHarmless};
ghost use Rattle.nor_base.specs.Wire.{wire};
ghost use Rattle.norprog_common.specs.Setup.{RefusesChipOf};
ghost use Rattle.norprog_common.specs.declared.faults.Refusal.{Refusal};
ghost use Rattle.norprog_read.specs.Asked.{AsksId, AsksStatus, IsDriven, IsExpected};
ghost use Rattle.norprog_read.specs.Asked.{IsUndriven, StopsId, StopsStatus};
ghost use Rattle.norprog_read.specs.declared.fault.Unlike.TheVariants as unlike;
ghost use Rattle.norprog_read.specs.declared.fault.Unread.TheVariants as unread;
ghost use Rattle.norprog_read.specs.Came.{HidesLine, ShowsLine};
ghost use Rattle.norprog_read.specs.Chip.{both_go, chip_task, lacks_tables, is_unsigned, AreAlike};
ghost use Rattle.norprog_read.specs.Chip.{GivesContent, GivesTables, HasMeaning, HasReadChip};
ghost use Rattle.norprog_read.specs.Chip.{file_of, IsFile};
ghost use Rattle.norprog_read.specs.Stops.{stop_of, told_of, DiffersFrom, RefusesFile};
ghost use Rattle.norprog_read.specs.Stops.{StopsAsked, StopsChip, StopsContent};
ghost use Rattle.norprog_read.specs.Span.{part_in};
ghost use Rattle.norprog_read.specs.Way.{way};

use crate::asked::{Ask, Known, Reading, Span};
use crate::came::shows_line;
use crate::content::{past_by, read_part};
use crate::end::see_end;
use crate::fault::{Unlike, Unread};
use crate::mode::{is_sure, make_mode, modes_of};
use crate::size::{asked_register, noted_size, said_size, see_register, see_size};
use crate::span::part_of;
use nor_base::{ByteIn, ByteOut, Meaning, Start};
use nor_job::{BuildFault, Inputs, Source};
use nor_reader::{
    Difference, Mismatch, TablesFault, chip_status, first_difference, for_reading, read_id,
    read_tables, tables_reach,
};
use nor_serprog::{Limits, Reason};
use nor_sfdp::SfdpFault;
use norprog_common::{Refusal, known_chip};
use std::alloc::Global;

/// Has a chip get idle, say what it is, give its tables and the part of its content that is asked
/// for, each byte twice, show how large it is, and say again what it is. How far a reading is goes
/// to `progress`.
///
/// `Unlike` where it doesn't do so; `Refused` where it has no meaning, and for `Memory`.
pub fn read_chip<R: ByteIn, W: ByteOut, P: ByteOut>(
    alloc: Global,
    from: &mut R,
    to: &mut W,
    limits: &Limits,
    ask: &Ask<'_>,
    progress: &mut P,
) -> Result<Reading, Unread>
    ensures read { IfOk result (λ reading. HasReadChip (at_once limits.now)
        (wire (W.held to.old) (R.ahead from.old)) (wire (W.held to.new) (R.ahead from.new)) ask.now
        reading) }
    ensures stops { IfErr result (StopsChip (at_once limits.now)
        (wire (W.held to.old) (R.ahead from.old)) (wire (W.held to.new) (R.ahead from.new))
        ask.now) }
    ensures harmless { MatchResult result (λ _. HasSentHarmless (W.held to.old) (W.held to.new))
        (λ _. SendsHarmless (W.held to.old) (W.held to.new)) }
{
    let limits = for_reading(limits);
    ask_chip(alloc, from, to, &limits, ask, progress)
}

/// The same, by what is asked.
fn ask_chip<R: ByteIn, W: ByteOut, P: ByteOut>(
    alloc: Global,
    from: &mut R,
    to: &mut W,
    limits: &Limits,
    ask: &Ask<'_>,
    progress: &mut P,
) -> Result<Reading, Unread>
    ensures read { IfOk result (λ reading. HasReadChip limits.now.asked
        (wire (W.held to.old) (R.ahead from.old)) (wire (W.held to.new) (R.ahead from.new)) ask.now
        reading) }
    ensures stops { IfErr result (StopsChip limits.now.asked
        (wire (W.held to.old) (R.ahead from.old)) (wire (W.held to.new) (R.ahead from.new))
        ask.now) }
{
    check_file(ask)?;
    let first = ask_status(from, to, ask)?;
    let id = ask_id(from, to)?;
    see_id(ask.expect_id, id)?;
    let tables = ask_tables(alloc, from, to, limits, ask, id)?;
    let (meaning, start) = known_meaning(ask, id, tables.as_slice())?;
    see_size(ask, &meaning, tables.as_slice())?;
    let said = meaning.begins4(&start);
    let modes = modes_of(ask.known, tables.as_slice(), &meaning);
    let status = make_mode(from, to, ask, said, modes, first)?;
    see_register(from, to, asked_register(ask.content, tables.as_slice()))?;
    let sure = is_sure(ask, said, modes);
    let span = part_of(ask, &meaning);
    let content = ask_content(
        alloc,
        from,
        to,
        limits,
        &meaning,
        start,
        sure,
        span,
        ask.content,
        progress,
    )?;
    let by = past_by(&meaning, start);
    see_end(from, to, limits, ask, by, content.as_slice(), span)?;
    let again = ask_id(from, to)?;
    if !is_same(again, id) {
        return Err(Unread::Unlike(Unlike::Id(again)));
    }
    if hides_line(ask, id, tables.as_slice(), content.as_slice(), span) {
        return Err(Unread::Unlike(Unlike::Line));
    }
    Ok(Reading {
        part: ask.part,
        whole: ask.content,
        id,
        note: noted_size(said_size(ask.known, &meaning), id),
        status,
        tables,
        meaning,
        span,
        content,
    })
}

/// Whether what came, of the content a part, has to show that the terminal changed nothing of what
/// was read, and doesn't.
fn hides_line(ask: &Ask<'_>, id: [u8; 3], tables: &[u8], content: &[u8], part: Span) -> bool
    requires part { (part.low ≤ part.high) × (part.high ≤ length content.now) }
    ensures shown { result ≡ false
        → ShowsLine ask.now id (tables.now ++ part_in part content.now) }
    ensures hidden { result ≡ true
        → HidesLine ask.now id (tables.now ++ part_in part content.now) }
{
    ask.content && !ask.raw && !shows_line(&id, tables, &content[part.low..part.high])
}

/// Whether two identifications are the same.
fn is_same(one: [u8; 3], other: [u8; 3]) -> bool
    ensures same { result ≡ true → one ≡ other }
    ensures other { result ≡ false → one ≢ other }
{
    one == other
}

/// Sees that an identification is the one that is expected, where one is.
fn see_id(expected: Option<[u8; 3]>, id: [u8; 3]) -> Result<(), Unread>
    ensures expected { IfOk result (λ _. IsExpected expected id) }
    ensures other { IfErr result (λ why. (why ≡ unread.Unlike (unlike.Id id))
        × (IsExpected expected id → ⊥)) }
{
    match expected {
        Some(wanted) => {
            if is_same(id, wanted) {
                Ok(())
            } else {
                Err(Unread::Unlike(Unlike::Id(id)))
            }
        }
        None => Ok(()),
    }
}

/// Whether an identification is what a line gives that no chip drives: only clear bits, or only set
/// ones.
fn is_undriven(id: [u8; 3]) -> bool
    ensures low { result ≡ false → id ≢ 0x00 ∷ 0x00 ∷ 0x00 ∷ [] }
    ensures high { result ≡ false → id ≢ 0xFF ∷ 0xFF ∷ 0xFF ∷ [] }
    ensures undriven { result ≡ true → IsUndriven id }
{
    id == [0x00, 0x00, 0x00] || id == [0xFF, 0xFF, 0xFF]
}

/// What the chip says that it is, where it says something.
fn ask_id<R: ByteIn, W: ByteOut>(from: &mut R, to: &mut W) -> Result<[u8; 3], Unread>
    ensures id { IfOk result (λ id. AsksId (wire (W.held to.old) (R.ahead from.old))
        (wire (W.held to.new) (R.ahead from.new)) (Ok id)) }
    ensures driven { IfOk result IsDriven }
    ensures stops { IfErr result (StopsId (wire (W.held to.old) (R.ahead from.old))
        (wire (W.held to.new) (R.ahead from.new))) }
{
    match read_id(from, to) {
        Ok(id) if is_undriven(id) => Err(Unread::Unlike(Unlike::Id(id))),
        Ok(id) => Ok(id),
        Err(why) => Err(Unread::Unlike(Unlike::Asking(why))),
    }
}

/// Its status, once it is idle.
pub(crate) fn ask_status<R: ByteIn, W: ByteOut>(
    from: &mut R,
    to: &mut W,
    ask: &Ask<'_>,
) -> Result<u32, Unread>
    ensures status { IfOk result (λ status. AsksStatus (wire (W.held to.old) (R.ahead from.old))
        (wire (W.held to.new) (R.ahead from.new)) ask.now (Ok status)) }
    ensures stops { IfErr result (StopsStatus (wire (W.held to.old) (R.ahead from.old))
        (wire (W.held to.new) (R.ahead from.new)) ask.now) }
{
    match chip_status(from, to, ask.part, ask.turns) {
        Ok(status) => Ok(status),
        Err(Reason::Exchange(why)) => Err(Unread::Unlike(Unlike::Asking(why))),
        Err(Reason::Busy) => Err(Unread::Unlike(Unlike::Busy)),
        Err(Reason::Differs { .. } | Reason::Carried) => unreachable!("any byte is a status"),
    }
}

/// Its tables, which came twice alike and, as far as a file's are given, are the same; none where a
/// chip of a size or a sheet has none.
fn ask_tables<R: ByteIn, W: ByteOut>(
    alloc: Global,
    from: &mut R,
    to: &mut W,
    limits: &Limits,
    ask: &Ask<'_>,
    id: [u8; 3],
) -> Result<Vec<u8>, Unread>
    ensures tables { IfOk result (λ tables. GivesTables limits.now.asked
        (wire (W.held to.old) (R.ahead from.old)) (wire (W.held to.new) (R.ahead from.new))
        ask.now.known tables.items) }
    ensures alike { IfOk result (λ tables. AreAlike ask.now.known tables.items) }
    ensures stops { IfErr result (StopsAsked limits.now.asked
        (wire (W.held to.old) (R.ahead from.old)) (wire (W.held to.new) (R.ahead from.new))
        ask.now.known id) }
{
    match read_tables(alloc, from, to, limits) {
        Ok(tables) => {
            compare_known(tables.as_slice(), ask.known)?;
            Ok(tables)
        }
        Err(why) => {
            if lacks_tables(ask.known) && is_unsigned(why) {
                Ok(Vec::new(alloc))
            } else {
                Err(stop_of(id, why))
            }
        }
    }
}

/// Whether there is no signature.
fn is_unsigned(why: TablesFault) -> bool
    ensures { result ≡ is_unsigned why }
{
    match why {
        TablesFault::NoSignature => true,
        TablesFault::Memory | TablesFault::Unread(_) => false,
    }
}

/// Whether a chip may have no tables, since it is known by its size or its sheet.
fn lacks_tables(known: Known<'_>) -> bool
    ensures { result ≡ lacks_tables known.entry }
{
    match known {
        Known::Uniform(_) | Known::Sheet(_) => true,
        Known::Own | Known::Tables(_) => false,
    }
}

/// Why a chip of this identification whose tables weren't read isn't.
fn stop_of(id: [u8; 3], why: TablesFault) -> Unread
    ensures { result ≡ stop_of id why }
{
    match why {
        TablesFault::Memory => Unread::Refused(Refusal::MEMORY),
        TablesFault::NoSignature => Unread::Unlike(Unlike::NoTables {
            id,
            fault: SfdpFault::Signature,
        }),
        TablesFault::Unread(Mismatch::Exchange(why)) => Unread::Unlike(Unlike::Asking(why)),
        TablesFault::Unread(Mismatch::Differs(d)) => Unread::Unlike(Unlike::At(d.address)),
    }
}

/// Compares the bytes of the chip's tables with those of a file, where one is given.
fn compare_known(chip: &[u8], known: Known<'_>) -> Result<(), Unread>
    requires { length chip.now ≤ 2 ^ 24 }
    ensures alike { IfOk result (λ _. AreAlike known.entry chip.now) }
    ensures stops { IfErr result (λ why. (file : List ℕ) × IsFile known.entry file
        × DiffersFrom chip.now file why) }
{
    match known {
        Known::Own | Known::Uniform(_) | Known::Sheet(_) => Ok(()),
        Known::Tables(file) => compare_file(chip, file),
    }
}

/// Compares the bytes of the chip's tables with those of a file's, as far as both go.
fn compare_file(chip: &[u8], file: &[u8]) -> Result<(), Unread>
    requires { length chip.now ≤ 2 ^ 24 }
    ensures alike { IfOk result (λ _. take (both_go chip.now file.now) chip.now
        ≡ take (both_go chip.now file.now) file.now) }
    ensures stops { IfErr result (DiffersFrom chip.now file.now) }
{
    let len = chip.len().min(tables_reach(file));
    match first_difference(&chip[..len], &file[..len]) {
        None => Ok(()),
        Some(place) => Err(Unread::Unlike(Unlike::Tables(Difference {
            address: place as u32,
            chip: chip[place],
            want: file[place],
        }))),
    }
}

/// Sees that a file of tables or a sheet, where one is given, has a meaning.
pub fn check_file(ask: &Ask<'_>) -> Result<(), Unread>
    ensures file { IfOk result (λ _. HasMeaning ask.now) }
    ensures stops { IfErr result (RefusesFile ask.now) }
{
    match file_of(ask.known) {
        None => Ok(()),
        Some(file) => match meaning_of(ask, file) {
            Ok(_) => Ok(()),
            Err(why) => Err(Unread::Refused(why)),
        },
    }
}

/// The file that a chip is known by: of tables, or of its sheet.
fn file_of<'a>(known: Known<'a>) -> Option<&'a [u8]>
    ensures { option_map (λ t. t.now) result ≡ file_of known.entry }
{
    match known {
        Known::Own | Known::Uniform(_) => None,
        Known::Tables(file) => Some(file),
        Known::Sheet(text) => Some(text),
    }
}

/// What the tables that came from a chip of this identification, its size or its sheet mean.
fn known_meaning(ask: &Ask<'_>, id: [u8; 3], tables: &[u8]) -> Result<(Meaning, Start), Unread>
    ensures means { IfOk result (λ chip. HasChip (chip_task ask.now tables.now) chip.0) }
    ensures start { IfOk result (λ chip. chip.1 ≡ start_of (chip_task ask.now tables.now)) }
    ensures refused { IfErr result (λ why. (refusal : Refusal)
        × RefusesChipOf (chip_task ask.now tables.now) refusal
        × (why ≡ told_of ask.now.known id refusal)) }
{
    match meaning_of(ask, tables) {
        Ok(chip) => Ok(chip),
        Err(why) => Err(told_of(ask.known, id, why)),
    }
}

/// How it is told that what came from a chip of this identification isn't accepted.
fn told_of(known: Known<'_>, id: [u8; 3], why: Refusal) -> Unread
    ensures { result ≡ told_of known.entry id why }
{
    match (known, why) {
        (Known::Own | Known::Tables(_), Refusal::Build(BuildFault::Sfdp(fault))) => {
            Unread::Unlike(Unlike::NoTables { id, fault })
        }
        (_, why) => Unread::Refused(why),
    }
}

/// What the tables, the size or the sheet mean, and how the chip begins.
fn meaning_of(ask: &Ask<'_>, tables: &[u8]) -> Result<(Meaning, Start), Refusal>
    ensures means { IfOk result (λ chip. HasChip (chip_task ask.now tables.now) chip.0) }
    ensures start { IfOk result (λ chip. chip.1 ≡ start_of (chip_task ask.now tables.now)) }
    ensures refused { IfErr result (RefusesChipOf (chip_task ask.now tables.now)) }
{
    let chip = match ask.known {
        Known::Uniform(size) => Source::Uniform(size),
        Known::Sheet(text) => Source::Sheet(text),
        Known::Own | Known::Tables(_) => Source::Sfdp {
            bytes: tables,
            bits: ask.bits,
        },
    };
    let inputs = Inputs {
        hex: &[],
        image: None,
        layout: None,
        regions: &[],
        chip,
        part: ask.part,
        status: None,
        mode4: ask.mode4,
        quad: false,
        base: 0,
        verify: false,
        erased_only: ask.erased_only,
        page: ask.page,
    };
    known_chip(&inputs)
}

/// A part of its content, where it is wanted; else none.
fn ask_content<R: ByteIn, W: ByteOut, P: ByteOut>(
    alloc: Global,
    from: &mut R,
    to: &mut W,
    limits: &Limits,
    meaning: &Meaning,
    start: Start,
    sure: bool,
    part: Span,
    wanted: bool,
    progress: &mut P,
) -> Result<Vec<u8>, Unread>
    requires part { (part.low ≤ part.high) × (part.high ≤ meaning.now.size) }
    ensures content { IfOk result (λ content. GivesContent
        (way limits.now.asked meaning.now start sure part) (wire (W.held to.old) (R.ahead from.old))
        (wire (W.held to.new) (R.ahead from.new)) wanted content.items) }
    ensures stops { IfErr result (StopsContent (way limits.now.asked meaning.now start sure part)
        (wire (W.held to.old) (R.ahead from.old)) (wire (W.held to.new) (R.ahead from.new))) }
    ensures wanted { IfErr result (λ _. wanted ≡ true) }
{
    if wanted {
        read_part(
            alloc, from, to, limits, meaning, start, sure, part, progress,
        )
    } else {
        Ok(Vec::new(alloc))
    }
}
