//! How long a chip is busy with a plan.

ghost use Rattle.std.specs.Prelude.{◌≡◌, ◌≤◌, ◌<◌, ◌+◌, ◌*◌, ◌-◌, ◌^◌, find, IfSome, count_by};
ghost use Rattle.nor_base.specs.Blocks.{kinds};
ghost use Rattle.nor_times.specs.Bus.{is_work};
ghost use Rattle.nor_times.specs.Busy.{busy_of, is_named, known_busy, program_time, time_of};
ghost use Rattle.nor_times.specs.Busy.{typical_of, worst_of};

use crate::times::Times;
use nor_base::Meaning;
use nor_outline::PlanLine;

/// How long a chip is busy, in microseconds.
#[derive(Clone, Copy)]
pub struct Busy {
    /// Where each erase and program takes its typical time.
    pub typical: u128,
    /// Where each takes its worst.
    pub worst: u128,
}

/// How long a chip is busy with the erases and programs of lines, where its times are known.
pub(crate) fn known_busy(times: Option<Times>, meaning: &Meaning, lines: &[PlanLine]) -> Busy
    ensures value { result ≡ known_busy times meaning.now lines.now }
    ensures typical { result.typical ≤ count_by is_work lines.now * 2 ^ 64 }
    ensures worst { result.worst ≤ count_by is_work lines.now * 2 ^ 64 }
{
    match times {
        None => Busy {
            typical: 0,
            worst: 0,
        },
        Some(times) => busy_time(&times, meaning, lines),
    }
}

/// How long a chip is busy with the erases and programs of lines: the exact sums. Polls and clocks
/// add nothing. An erase of an opcode that no live kind has takes no time.
#[tactic(auto, unfolding(crate::specs::Busy::busy_of))]
fn busy_time(times: &Times, meaning: &Meaning, lines: &[PlanLine]) -> Busy
    ensures value { result ≡ busy_of times.now meaning.now lines.now }
    ensures typical { result.typical ≤ count_by is_work lines.now * 2 ^ 64 }
    ensures worst { result.worst ≤ count_by is_work lines.now * 2 ^ 64 }
{
    let mut typical = 0;
    let mut worst = 0;
    for line in lines {
        typical += u128::from(typical_of(times, meaning, line));
        worst += u128::from(worst_of(times, meaning, line));
    }
    Busy { typical, worst }
}

/// The typical time of a line.
fn typical_of(times: &Times, meaning: &Meaning, line: &PlanLine) -> u32
    ensures { result ≡ typical_of times.now meaning.now line.now }
{
    match *line {
        PlanLine::Erase { opcode, .. } => time_of(times, meaning, opcode),
        PlanLine::Because { .. } => 0,
        PlanLine::Program { count, .. } => program_time(times, count),
    }
}

/// The worst time of a line.
fn worst_of(times: &Times, meaning: &Meaning, line: &PlanLine) -> u64
    ensures { result ≡ worst_of times.now meaning.now line.now }
{
    let typical = u64::from(typical_of(times, meaning, line));
    match *line {
        PlanLine::Erase { .. } => typical * u64::from(times.erase_factor),
        PlanLine::Because { .. } => 0,
        PlanLine::Program { .. } => typical * u64::from(times.program_factor),
    }
}

/// The typical time of an erase by an opcode.
fn time_of(times: &Times, meaning: &Meaning, opcode: u8) -> u32
    ensures { result ≡ time_of times.now meaning.now opcode }
{
    match named_kind(meaning, opcode) {
        None => 0,
        Some(kind) => times.erases[usize::from(kind - 1)],
    }
}

/// The live kind that an opcode names.
fn named_kind(meaning: &Meaning, opcode: u8) -> Option<u8>
    ensures value { result ≡ find (is_named meaning.now opcode) kinds }
    ensures low { IfSome result (λ kind. 1 ≤ kind) }
    ensures high { IfSome result (λ kind. kind ≤ 4) }
{
    for kind in 1..5 {
        if is_named(meaning, opcode, kind) {
            return Some(kind);
        }
    }
    None
}

/// Whether a live kind has the opcode.
fn is_named(meaning: &Meaning, opcode: u8, kind: u8) -> bool
    ensures { result ≡ is_named meaning.now opcode kind }
{
    match meaning.erase_kind(kind) {
        None => false,
        Some(erase) => {
            meaning.is_allowed(kind) && (opcode == erase.op || erase.op4 == Some(opcode))
        }
    }
}

/// The typical time of a program of so many bytes.
fn program_time(times: &Times, count: u32) -> u32
    ensures { result ≡ program_time times.now count }
{
    if count == 0 {
        return 0;
    }
    let bytes = u64::from(times.first_byte) + u64::from(count - 1) * u64::from(times.further_byte);
    bytes.min(u64::from(times.page)) as u32
}
