//! What a device can do in one operation, and ahead of its answers.

ghost use Rattle.std.specs.Prelude.{◌<◌, ◌^◌};

/// The most bytes of one SPI operation of a device, how many it takes before it answers, and
/// whether it drives the pins of its chip.
#[derive(Clone, Copy)]
pub struct Limits {
    /// That go out, from 1 to 2^24 - 1.
    pub sent: u32,
    /// That come in, likewise.
    pub asked: u32,
    /// Most bytes of requests that may go out before their answers are taken. 0: one request at a
    /// time.
    pub ahead: u16,
    /// Whether the device drives and releases the chip's pins (it offers 15h).
    pub pins: bool,
    ghost some_sent: { 0 < sent },
    ghost few_sent: { sent < 2 ^ 24 },
    ghost some_asked: { 0 < asked },
    ghost few_asked: { asked < 2 ^ 24 },
}
