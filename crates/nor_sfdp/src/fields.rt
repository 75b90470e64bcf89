//! Fields of a DWORD.

ghost use Rattle.std.specs.Prelude.{◌≡◌, ◌+◌, ◌-◌, ◌<◌, ◌≤◌, ◌^◌};
ghost use Rattle.nor_sfdp.specs.Bits.{bits, is_set};

/// Bits `high` to `low` of a DWORD, which JESD216 counts from 0: a number of `high` + 1 - `low`
/// bits.
pub fn bits(dword: u32, high: u32, low: u32) -> u32
    requires order { low ≤ high }
    requires width { high < low + 31 }
    requires within { high < 32 }
    ensures value { result ≡ bits dword high low }
    ensures small { result < 2 ^ (high + 1 - low) }
{
    (dword >> low) % (1 << (high + 1 - low))
}

/// Whether bit `n` of a DWORD, counted from 0, is 1.
pub fn is_set(dword: u32, n: u32) -> bool
    requires { n < 32 }
    ensures { result ≡ is_set dword n }
{
    (dword >> n) % 2 == 1
}
