//! Why an exchange with a device ends early.

ghost use Rattle.std.specs.Prelude.{◌≡◌};
ghost use Rattle.nor_serprog.specs.Greeting.{command_bytes};
ghost use Rattle.nor_serprog.specs.declared.fault.Reason.TheVariants.{Exchange};

use thiserror::Error;

/// Why an exchange with a device ends early.
#[derive(Clone, Copy, Debug, PartialEq, Eq, Error)]
pub enum Fault {
    /// The reader failed.
    #[error("the reader failed")]
    Read,
    /// The writer failed.
    #[error("the writer failed")]
    Write,
    /// The answer is missing or short.
    #[error("the device is silent")]
    Silent,
    /// The device answers NAK: it doesn't do the command.
    #[error("the device refuses")]
    Nak,
    /// Another byte came than one that was wanted.
    #[error("the device answers another byte")]
    Differs,
}

/// Why a port that has a device beside its chip failed.
#[derive(Clone, Copy, Debug, PartialEq, Eq, Error)]
pub enum Reason {
    /// The exchange with the device ended early.
    #[error("{0}")]
    Exchange(Fault),
    /// A byte of the answer is another than that of the chip in memory: the first such, counted
    /// from 0, and what came.
    #[error("byte {place} of the answer is another: {byte}")]
    Differs {
        /// Its place in the answer, after ACK.
        place: u32,
        /// The byte that came.
        byte: u8,
    },
    /// A poll's last status read said busy, too.
    #[error("the device stays busy")]
    Busy,
    /// The clocks are no operation of the device.
    #[error("the device can't do these clocks")]
    Carried,
}

impl From<Fault> for Reason {
    ghost from_gives = { λ fault reason. reason ≡ Exchange fault };

    fn from(fault: Fault) -> Reason {
        Reason::Exchange(fault)
    }
}

/// A command of the handshake.
#[derive(Clone, Copy, Debug, PartialEq, Eq)]
pub enum Command {
    /// 10h, answered by NAK and ACK.
    SyncNop,
    /// 01h: the version of the interface.
    QueryInterface,
    /// 02h: the commands that the device offers.
    QueryCommands,
    /// 12h: use the SPI bus.
    SetBus,
    /// 04h: the bytes that the device takes before it answers.
    QueryBuffer,
    /// 08h: the most bytes that an operation sends.
    QueryWriteMax,
    /// 11h: the most bytes that an operation gives.
    QueryReadMax,
    /// 15h: drive the pins of the chip.
    SetPins,
}

impl Command {
    /// Its bytes.
    pub(crate) fn bytes(self) -> &'static [u8]
        ensures { result.now ≡ command_bytes self }
    {
        match self {
            Command::SyncNop => b"\x10",
            Command::QueryInterface => b"\x01",
            Command::QueryCommands => b"\x02",
            Command::SetBus => b"\x12\x08",
            Command::QueryBuffer => b"\x04",
            Command::QueryWriteMax => b"\x08",
            Command::QueryReadMax => b"\x11",
            Command::SetPins => b"\x15\x01",
        }
    }
}

/// Why a handshake ends early.
#[derive(Clone, Copy, Debug, PartialEq, Eq, Error)]
pub enum GreetFault {
    /// The exchange of this command ended so.
    #[error("{at:?}: {why}")]
    Command {
        /// The command.
        at: Command,
        /// How its exchange ended.
        why: Fault,
    },
    /// The version of the device's interface isn't 1.
    #[error("the device speaks another version")]
    Version,
    /// The device doesn't offer SPI operations (13h).
    #[error("the device offers no SPI operation")]
    NoOperation,
}
