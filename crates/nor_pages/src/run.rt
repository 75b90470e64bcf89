//! A run of bytes.

/// So many bytes from an address on, which one program writes.
#[derive(Clone, Copy)]
pub struct Run {
    /// The address of the first byte.
    pub at: u32,
    /// Bytes, at least one.
    pub len: u32,
}
