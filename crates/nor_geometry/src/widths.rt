//! How many address bytes an instruction has.

ghost use Rattle.std.specs.Prelude.{◌≡◌, ◌≤◌};
ghost use Rattle.nor_base.specs.Operations.{takes_dedicated, legacy_width};

use nor_base::Strategy;

/// The first address that three bytes can't say.
pub const FAR: u32 = 1 << 24;

/// Whether an address takes an opcode that has four address bytes in each mode (12h, 13h and their
/// like; FF84h): in `S3` from [`FAR`] on.
pub fn takes_dedicated(strategy: Strategy, address: u32) -> bool
    ensures { result ≡ takes_dedicated strategy address }
{
    strategy == Strategy::S3 && address >= FAR
}

/// The number of address bytes of the other opcodes, 3 or 4.
pub fn legacy_width(strategy: Strategy) -> u8
    ensures value { result ≡ legacy_width strategy }
    ensures small { result ≤ 4 }
{
    match strategy {
        Strategy::S1 | Strategy::S4 => 4,
        Strategy::S2 | Strategy::S3 | Strategy::S5 => 3,
    }
}
