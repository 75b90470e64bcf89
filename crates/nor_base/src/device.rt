//! Devices that give and take bytes: the content of a chip comes through a [`ByteIn`], a script
//! goes out through a [`ByteOut`].

ghost use Rattle.std.specs.Prelude.{◌≡◌, ◌<◌, ℕ, Option, List, length};
ghost use Rattle.nor_base.specs.Device.{Ahead, Takes, Puts, Counts};

use thiserror::Error;

/// A device failed. It says nothing of how: the device's own count of failures has risen by one,
/// unless it stood at 2^64 - 1, where it stays.
#[derive(Clone, Copy, Debug, PartialEq, Eq, Drop, Error)]
#[error("the device failed")]
pub struct Failed;

/// A source of bytes.
pub trait ByteIn {
    /// The bytes that it will give from here on, as far as it reports them.
    ghost ahead: { Self → Ahead };

    /// How often it has failed.
    ghost count: { Self → ℕ };

    /// Takes the next bytes into the front of `out`, and returns how many. 0 in a buffer that isn't
    /// empty is the end.
    ///
    /// `Failed` took none, and the count of failures rose by one.
    fn take(&mut self, out: &mut [u8]) -> Result<usize, Failed>
        ensures bytes { Takes (ahead self.old) (ahead self.new) result out.new }
        ensures count { Counts (count self.old) (count self.new) result };

    /// How often it has failed.
    fn failures(&self) -> u64
        ensures { result ≡ count self.now };
}

/// A sink of bytes.
pub trait ByteOut {
    /// The bytes that it has taken so far, where it reports them.
    ghost held: { Self → Option (List ℕ) };

    /// How often it has failed.
    ghost count: { Self → ℕ };

    /// Puts bytes, of which there are some, at the end of what it holds. It takes the first so
    /// many, at least one, and returns how many.
    ///
    /// `Failed` took none, and the count of failures rose by one.
    fn put(&mut self, bytes: &[u8]) -> Result<usize, Failed>
        requires some { 0 < length bytes.now }
        ensures bytes { Puts (held self.old) (held self.new) result bytes.now }
        ensures count { Counts (count self.old) (count self.new) result };

    /// How often it has failed.
    fn failures(&self) -> u64
        ensures { result ≡ count self.now };
}
