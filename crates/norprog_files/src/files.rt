//! Files by name.

ghost use Rattle.std.specs.Prelude.{◌≡◌, ◌<◌, [], ◌∷◌, List, IfErr, IfOk};
ghost use Rattle.norprog_common.specs.declared.faults.FileName.TheVariants.{Device};
ghost use Rattle.norprog_files.specs.Files.{Adds, Asked, Denied, Denies, Event, Given, Made, New};
ghost use Rattle.nor_base.specs.Wire.{wire};
ghost use Rattle.norprog_files.specs.Files.{Opened, Unwired, Wired, came, closing};
ghost use Rattle.norprog_files.specs.Replaced.{name_of};

use crate::replaced::OutKind;
use nor_base::{ByteIn, ByteOut, Failed};
use norprog_common::{FileName, OutFile, Refusal};
use std::alloc::Global;

/// What was done with files, in order. It notes which files were opened, so that none of them is
/// made or emptied.
pub trait Trail {
    /// All that was done may be this.
    ghost did: { Self → List Event → Type 0 };
}

/// Files by name. What a file gives, or takes, is left open: what is proved of all files holds of
/// the system's.
pub trait Files {
    /// A file that is read.
    type Input: ByteIn + Drop;

    /// A file that was made.
    type Output: ByteOut + Drop;

    /// What a terminal is read by.
    type FromDevice: ByteIn + Drop;

    /// What a terminal is written by.
    type ToDevice: ByteOut + Drop;

    /// What was done with them.
    type Trail: Trail;

    /// A reader of some file has failed.
    ghost unread: { Self → Type 0 };

    /// Opens a file that isn't a folder, and returns its length in bytes.
    ///
    /// Where it can't be opened or asked, and where it is a folder, `File` of `name`; `Memory`
    /// where a growth is refused.
    fn open(
        &self,
        trail: &mut Self::Trail,
        path: &str,
        name: FileName,
    ) -> Result<(Self::Input, u64), Refusal>
        ensures did { Adds (Self.Trail.did trail.old) (Self.Trail.did trail.new) (came result
            (λ file. Opened path.now (Self.Input.ahead file.0) file.1) (Denied path.now)) }
        ensures refused { IfErr result (Denies name) };

    /// Opens a file and reads it whole; returns its bytes, at most 2^36.
    ///
    /// Where it can't be opened, is a folder or has more bytes, and where a read fails, `File` of
    /// `name`; `Memory` where a growth is refused.
    fn read(
        &self,
        trail: &mut Self::Trail,
        alloc: Global,
        path: &str,
        name: FileName,
    ) -> Result<Vec<u8>, Refusal>
        ensures did { Adds (Self.Trail.did trail.old) (Self.Trail.did trail.new)
            (came result (λ bytes. Given path.now bytes.items) (Denied path.now)) }
        ensures refused { IfErr result (Denies name) };

    /// Makes a file, or empties the one that is there, unless it was opened, is that of standard
    /// output, or holds bytes of another kind. What is written to it goes out where it is closed,
    /// if not before.
    ///
    /// Where it is, and where it can't be made, `File` of the kind's name; `Memory` where a growth
    /// is refused.
    fn create(
        &self,
        trail: &mut Self::Trail,
        alloc: Global,
        out: OutFile<'_>,
        kind: OutKind,
    ) -> Result<Self::Output, Refusal>
        ensures did { Adds (Self.Trail.did trail.old) (Self.Trail.did trail.new) (came result
            (λ file. Made out.entry kind (Self.Output.held file)) (Denied out.entry.path.now)) }
        ensures refused { IfErr result (Denies (name_of kind)) };

    /// Makes a file where none of that name is there, not even a link to none. What is written to
    /// it goes out where it is closed, if not before.
    ///
    /// Where there is one, and where it can't be made, `File` of `name`; `Memory` where a growth is
    /// refused.
    fn create_new(
        &self,
        trail: &mut Self::Trail,
        alloc: Global,
        path: &str,
        name: FileName,
    ) -> Result<Self::Output, Refusal>
        ensures did { Adds (Self.Trail.did trail.old) (Self.Trail.did trail.new) (came result
            (λ file. New path.now (Self.Output.held file)) (Denied path.now)) }
        ensures refused { IfErr result (Denies name) };

    /// Has all go out that the file of this name took, and closes it. `Failed` where some of it may
    /// not have gone out, as where the file failed before.
    fn close(&self, trail: &mut Self::Trail, path: &str, file: Self::Output) -> Result<(), Failed>
        ensures did { Adds (Self.Trail.did trail.old) (Self.Trail.did trail.new)
            (closing result path.now (Self.Output.held file) ∷ []) }
        ensures unfailed { IfOk result (λ _. Self.Output.count file ≡ 0) };

    /// Opens a terminal twice, to read from it and to write to it. Nothing else is opened to write.
    ///
    /// Where it isn't one, and where it can't be opened or asked, `File` of `Device`; `Memory`
    /// where a growth is refused, before it is opened to be written to.
    fn open_device(
        &self,
        trail: &mut Self::Trail,
        alloc: Global,
        path: &str,
    ) -> Result<(Self::FromDevice, Self::ToDevice), Refusal>
        ensures did { Adds (Self.Trail.did trail.old) (Self.Trail.did trail.new) (came result
            (λ device. Wired path.now
            (wire (Self.ToDevice.held device.1) (Self.FromDevice.ahead device.0)))
            (Denied path.now)) }
        ensures refused { IfErr result (Denies Device) };

    /// Closes the terminal of this name, so that nothing more goes to it.
    fn close_device(
        &self,
        trail: &mut Self::Trail,
        path: &str,
        from: Self::FromDevice,
        to: Self::ToDevice,
    )
        ensures { Adds (Self.Trail.did trail.old) (Self.Trail.did trail.new) (Unwired path.now
            (wire (Self.ToDevice.held to) (Self.FromDevice.ahead from)) ∷ []) };

    /// Whether a regular file of this name is there. None is opened.
    fn is_regular(&self, trail: &mut Self::Trail, path: &str) -> bool
        ensures { Adds (Self.Trail.did trail.old) (Self.Trail.did trail.new)
            (Asked path.now ∷ []) };

    /// What the system says of a file that it doesn't open to be read. Only a regular file is
    /// opened for that, and closed. None where it is opened, or memory runs out.
    fn trouble(&self, trail: &mut Self::Trail, alloc: Global, path: &str) -> Option<String>
        ensures { Adds (Self.Trail.did trail.old) (Self.Trail.did trail.new)
            (Asked path.now ∷ []) };

    /// What it says of a terminal that it doesn't open to be read and written. Only a terminal is
    /// opened for that, and closed. None where it is opened, where the system has no list of
    /// terminals, or memory runs out.
    fn device_trouble(&self, trail: &mut Self::Trail, alloc: Global, path: &str) -> Option<String>
        ensures { Adds (Self.Trail.did trail.old) (Self.Trail.did trail.new)
            (Asked path.now ∷ []) };

    /// A reader that has failed is one of a file.
    ghost failing: { (files : Self) (reader : Self.Input) → 0 < Self.Input.count reader
        → unread files };
}
