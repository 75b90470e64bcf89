//! What a device is to do on which chip.

use crate::expected::Expected;
use nor_base::Meaning;
use nor_flasher::PackedSteps;

/// What a device is to do on which chip.
#[derive(Clone, Copy)]
pub struct Course<'a> {
    pub meaning: &'a Meaning,
    pub expected: Expected<'a>,
    /// What the chip holds before the steps, from address 0 on.
    pub content: &'a [u8],
    /// As a device does them.
    pub steps: &'a PackedSteps,
    /// What the chip holds after them, from address 0 on.
    pub left: &'a [u8],
    /// Most status reads of one poll.
    pub turns: u64,
}
