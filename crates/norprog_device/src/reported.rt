//! Why a step isn't done by a device.

ghost use Rattle.std.specs.Prelude.{◌≡◌, ◌<◌, get_or, length, option_map};
ghost use Rattle.nor_decode.specs.Seen.{transaction_of};
ghost use Rattle.norprog_device.specs.Reported.{FailsAs, address_of, read_address, other_byte};
ghost use Rattle.norprog_device.specs.Reported.{IsFailureAt, failure_by};

use crate::failure::Failure;
use nor_base::{Meaning, Step, What};
use nor_decode::{Seen, decode};
use nor_reader::{Difference, Mismatch};
use nor_serprog::{Halt, Reason};

/// Why the step isn't done at which a device halted. A byte that is another is reported with its
/// address where the step reads the chip's bytes.
pub fn failure_at(meaning: &Meaning, steps: &[Step], halt: Halt) -> Failure
    requires { halt.step < length steps.now }
    ensures { IsFailureAt meaning.now steps.now halt result }
{
    let step = &steps[halt.step as usize];
    failure_of(meaning, step.clocks(), step.expected(), halt.why)
}

/// Why a step of these clocks isn't done that was to give these bytes.
fn failure_of(meaning: &Meaning, clocks: &[u8], want: &[u8], why: Reason) -> Failure
    ensures { FailsAs meaning.now clocks.now want.now why result }
{
    match why {
        Reason::Exchange(fault) => Failure::Exchange(fault),
        Reason::Busy => Failure::Busy,
        Reason::Carried => Failure::Carried,
        Reason::Differs { place, byte } => other_byte(meaning, clocks, want, place, byte),
    }
}

/// How a byte that came at a place of a step's answer is another.
fn other_byte(meaning: &Meaning, clocks: &[u8], want: &[u8], place: u32, chip: u8) -> Failure
    ensures { result ≡ other_byte (read_address meaning.now clocks.now) place chip
        (get_or want.now place 0) }
{
    let want = byte_at(want, place);
    match read_address(meaning, clocks) {
        Some(start) => Failure::Differs(Difference {
            address: start.wrapping_add(place),
            chip,
            want,
        }),
        None => Failure::Gives { chip, want },
    }
}

/// The byte at a place, 0 where there is none.
fn byte_at(bytes: &[u8], place: u32) -> u8
    ensures { result ≡ get_or bytes.now place 0 }
{
    match bytes.get(place as usize) {
        Some(byte) => *byte,
        None => 0,
    }
}

/// The address that a read of these clocks has, in whichever address mode they are one.
fn read_address(meaning: &Meaning, clocks: &[u8]) -> Option<u32>
    ensures { result ≡ read_address meaning.now clocks.now }
{
    match address_of(decode(clocks, meaning, false)) {
        Some(address) => Some(address),
        None => address_of(decode(clocks, meaning, true)),
    }
}

/// The address of what is seen, where that is a read of the chip's bytes.
fn address_of(seen: Option<Seen<'_>>) -> Option<u32>
    ensures { result ≡ address_of (option_map transaction_of seen.entry) }
{
    match seen {
        Some(seen) => match seen.what {
            What::Read | What::QuadRead => Some(seen.address),
            _ => None,
        },
        None => None,
    }
}

/// Why a chip isn't known to hold what all steps leave, where reading it back ended so.
pub fn failure_by(why: Mismatch) -> Failure
    ensures { result ≡ failure_by why }
{
    match why {
        Mismatch::Exchange(fault) => Failure::Exchange(fault),
        Mismatch::Differs(difference) => Failure::Differs(difference),
    }
}
