//! A list of bytes that owns its memory.

ghost use Rattle.std.specs.Prelude.{◌≡◌};

use std::marker::Model;

/// A list of bytes that owns its memory.
#[derive(Drop)]
pub struct Bytes {
    held: Vec<u8>,
}

impl Model for Bytes {
    ghost use Rattle.std.specs.Prelude.{List, ℕ};

    ghost Value = { List ℕ };

    ghost view = { λ b. b.held.items };
}

impl PartialEq for Bytes {
    ghost use Rattle.std.specs.Str.{bytes_eq};
    ghost use Rattle.std.specs.Cmp.{partial_equiv_from_equiv};
    ghost use Rattle.std.proofs.lemmas.Cmp.{nat_list_eq_equiv};

    ghost eq = { bytes_eq };

    ghost laws = { partial_equiv_from_equiv nat_list_eq_equiv };

    fn eq(&self, other: &Self) -> bool {
        self.as_slice() == other.as_slice()
    }
}

impl Eq for Bytes {
    ghost use Rattle.std.proofs.lemmas.Cmp.{nat_list_eq_equiv};

    ghost laws = { nat_list_eq_equiv };
}

impl Bytes {
    /// Keeps the bytes of a vector, in their order.
    pub fn new(bytes: Vec<u8>) -> Bytes
        ensures { result ≡ bytes.items }
    {
        Bytes { held: bytes }
    }

    /// The bytes, in their order.
    pub fn as_slice(&self) -> &[u8]
        ensures { result.now ≡ self.now }
    {
        self.held.as_slice()
    }
}
