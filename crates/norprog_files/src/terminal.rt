//! Whether a device is a terminal.

ghost use Rattle.std.specs.Bool.{OnTrue};
ghost use Rattle.std.specs.Prelude.{◌≡◌, ◌==◌, ◌<◌, MatchOption, true, ⊤};
ghost use Rattle.std.specs.List.{after_first, before_first};
ghost use Rattle.norprog_files.specs.Terminal.{HasMinor, IsDriverOf, IsListed, after_field};
ghost use Rattle.norprog_files.specs.Terminal.{first_field, has_byte, major_of, minor_of};

use norprog_common::decimal;

/// Whether the list of the system's drivers of terminals (Linux, proc_tty(5)) has the device of
/// this number.
pub(crate) fn is_listed(mut drivers: &str, device: u64) -> bool
    ensures { OnTrue result (IsListed device drivers.entry.now) }
{
    while let Some((driver, rest)) = cut(drivers, '\n') {
        if has_device(driver, major(device), minor(device)) {
            return true;
        }
        drivers = rest;
    }
    false
}

/// Whether a driver has the device of these numbers.
fn has_device(driver: &str, major: u64, minor: u64) -> bool
    ensures { OnTrue result (IsDriverOf major minor driver.now) }
{
    let Some((_name, nodes)) = field(driver) else {
        return false;
    };
    let Some((_nodes, numbers)) = field(nodes) else {
        return false;
    };
    let Some((number, more)) = field(numbers) else {
        return false;
    };
    let Some((minors, _kind)) = field(more) else {
        return false;
    };
    match decimal(number) {
        Some(number) if number as u64 == major => has_minor(minors, minor),
        _ => false,
    }
}

/// The first field of a line, and what comes after the blank that ends it.
fn field(line: &str) -> Option<(&str, &str)>
    ensures { MatchOption result ⊤ (λ found. (found.0.now ≡ first_field line.now)
        × (found.1.now ≡ after_field line.now)) }
{
    cut(line.trim_start(), ' ')
}

/// Whether a driver of these minor numbers has this one.
fn has_minor(minors: &str, minor: u64) -> bool
    ensures { OnTrue result (HasMinor minor minors.now) }
{
    match cut(minors, '-') {
        Some((first, last)) => match (decimal(first), decimal(last)) {
            (Some(first), Some(last)) if first as u64 <= minor => minor <= last as u64,
            _ => false,
        },
        None => match decimal(minors) {
            Some(only) => only as u64 == minor,
            None => false,
        },
    }
}

/// What is before this first byte of a text, and after it.
fn cut(text: &str, at: char) -> Option<(&str, &str)>
    requires { at < 128 }
    ensures { MatchOption result ⊤ (λ found. (has_byte at text.now ≡ true)
        × (found.0.now ≡ before_first (λ b. b == at) text.now)
        × (found.1.now ≡ after_first (λ b. b == at) text.now)) }
{
    text.split_once(at)
}

/// The major number of a device.
fn major(device: u64) -> u64
    ensures { result ≡ major_of device }
{
    device / (1 << 44) * 4096 + device / 256 % 4096
}

/// Its minor number.
fn minor(device: u64) -> u64
    ensures { result ≡ minor_of device }
{
    device / (1 << 20) % (1 << 24) * 256 + device % 256
}
