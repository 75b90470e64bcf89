//! What a chip's status bits say of it (W25Q256JV datasheet, status registers 1 to 3).

ghost use Rattle.std.specs.Prelude.{◌≡◌, ◌<◌};
ghost use Rattle.nor_sfdp.specs.Bits.{is_set};
ghost use Rattle.nor_job.specs.Status.{start_of, status_fault, is_protected};

use crate::inputs::Inputs;
use nor_base::Start;

/// Bit S16, ADS: four-byte address mode.
const MODE4: u32 = 16;

/// Bit S9, QE: quad enable.
const QUAD: u32 = 9;

/// How the chip begins: by S16 and S9 of its status or, where there is none, as the inputs say.
pub(crate) fn start_of(inputs: &Inputs<'_>) -> Start
    ensures { result ≡ start_of inputs.now }
{
    match inputs.status {
        Some(status) => Start {
            mode4: is_set(status, MODE4),
            quad: is_set(status, QUAD),
        },
        None => Start {
            mode4: inputs.mode4,
            quad: inputs.quad,
        },
    }
}

/// Why a chip of this status isn't idle and unprotected, by its number: 1 busy, 2 latched, 3
/// suspended, 4 protected, the first of these.
#[tactic(auto, unfolding(crate::specs::Status::status_fault))]
pub(crate) fn status_fault(status: Option<u32>) -> Option<u8>
    ensures { result ≡ status_fault status }
{
    let status = status?;
    if is_set(status, 0) {
        return Some(1);
    }
    if is_set(status, 1) {
        return Some(2);
    }
    if is_set(status, 15) {
        return Some(3);
    }
    if is_protected(status) {
        return Some(4);
    }
    None
}

/// Some bit of block protection is set: BP0 to BP3, CMP or WPS.
fn is_protected(status: u32) -> bool
    ensures { result ≡ is_protected status }
{
    [2, 3, 4, 5, 14, 18].iter().any(|n| is_set(status, *n))
}

/// One bit.
fn is_set(status: u32, n: u32) -> bool
    requires { n < 32 }
    ensures { result ≡ is_set status n }
{
    (status >> n) % 2 == 1
}
