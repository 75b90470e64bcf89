//! A text that grows.

use std::alloc::AllocError;

/// Adds these parts to a text.
pub(crate) fn add(text: &mut Vec<u8>, parts: &[&[u8]]) -> Result<(), AllocError> {
    for part in parts {
        text.extend_from_slice(part)?;
    }
    Ok(())
}
