//! The calls of the system on files, of which nothing is proved but that they are made.

ghost use Rattle.std.specs.Prelude.{◌≡◌, ◌∷◌, [], IfOk, List, MatchResult};
ghost use Rattle.std.specs.Fs.{metadata_len, metadata_mode};
ghost use Rattle.norprog_files.specs.Disk.{Asks, Call, HasKind, Looks, Opens, Syncs, options_of};
ghost use Rattle.norprog_files.specs.Files.{Adds};

use std::fs::{self, Files, Metadata, OpenFile, OpenOptions};
use std::io::{self, Read, Write};
use std::marker::PhantomData;
use std::os::unix::fs::MetadataExt;

/// What kind of file it is.
#[derive(Clone, Copy)]
pub enum Kind {
    Regular,
    Folder,
    /// A character device, of this number.
    Characters(u64),
    Other,
}

/// Which file of the system it is, by whatever name it was opened.
#[derive(Clone, Copy, PartialEq, Eq)]
pub struct FileId {
    /// The device that the file is on.
    pub device: u64,
    /// Its number there.
    pub inode: u64,
}

/// What the system says of a file.
#[derive(Clone, Copy)]
pub struct Stat {
    /// Which file it is.
    pub id: FileId,
    pub kind: Kind,
    /// Its bytes.
    pub len: u64,
}

/// How a file is opened.
#[derive(Clone, Copy)]
pub enum How {
    /// To be read.
    Read,
    /// To be written; it is made where none is there, and emptied where one is.
    Empty,
    /// To be written; it is made, and none may be there, not even a link.
    Anew,
    /// To be written; none is made, and nothing is emptied.
    Write,
}

/// The calls that were made, in order.
pub trait Calls {
    /// A file that is open.
    type File: Read + Write + Drop;

    /// They may be these.
    ghost did: { Self → List (Call Self.File) → Type 0 };
}

/// The calls of the system. What they give is left open.
pub trait Disk {
    /// A file that is open.
    type File: Read + Write + Drop;

    /// The calls that were made.
    type Calls: Calls<File = Self::File> + Drop;

    /// Asks about the file of a name.
    fn stat(&self, calls: &mut Self::Calls, path: &str) -> io::Result<Stat>
        ensures { Adds (Self.Calls.did calls.old) (Self.Calls.did calls.new)
            (Asks path.now result ∷ []) };

    /// Opens the file of a name.
    fn open(&self, calls: &mut Self::Calls, path: &str, how: How) -> io::Result<Self::File>
        ensures { Adds (Self.Calls.did calls.old) (Self.Calls.did calls.new)
            (Opens path.now how result ∷ []) };

    /// Asks about a file that is open.
    fn stat_of(&self, calls: &mut Self::Calls, file: &Self::File) -> io::Result<Stat>
        ensures { Adds (Self.Calls.did calls.old) (Self.Calls.did calls.new)
            (Looks file.now result ∷ []) };

    /// Has all that a file holds go to its storage.
    fn sync(&self, calls: &mut Self::Calls, file: &Self::File) -> io::Result<()>
        ensures { Adds (Self.Calls.did calls.old) (Self.Calls.did calls.new)
            (Syncs file.now result ∷ []) };
}

/// Calls that nothing is kept of.
#[derive(Drop)]
pub struct Unkept<F> {
    of: PhantomData<F>,
}

impl<F: Read + Write + Drop> Unkept<F> {
    pub(crate) fn new() -> Unkept<F> {
        Unkept { of: PhantomData }
    }
}

impl<F: Read + Write + Drop> Calls for Unkept<F> {
    type File = F;

    ghost did = { λ _ _. Unit {0} };
}

/// The calls of this runtime.
#[derive(Clone, Copy)]
pub struct Host<'a, R> {
    pub(crate) files: &'a R,
}

impl<'a, R: Files> Disk for Host<'a, R> {
    type File = R::File;

    type Calls = Unkept<R::File>;

    fn stat(&self, _calls: &mut Unkept<R::File>, path: &str) -> io::Result<Stat> {
        stat_in(fs::metadata(self.files, path))
    }

    fn open(&self, _calls: &mut Unkept<R::File>, path: &str, how: How) -> io::Result<R::File> {
        options(how).open(self.files, path)
    }

    fn stat_of(&self, _calls: &mut Unkept<R::File>, file: &R::File) -> io::Result<Stat> {
        stat_in(file.metadata())
    }

    fn sync(&self, _calls: &mut Unkept<R::File>, file: &R::File) -> io::Result<()> {
        file.sync_all()
    }
}

/// The options that open a file so.
fn options(how: How) -> OpenOptions
    ensures { result ≡ options_of how }
{
    let mut options = OpenOptions::new();
    match how {
        How::Read => options.read(true),
        How::Empty => options.write(true).create(true).truncate(true),
        How::Anew => options.write(true).create_new(true),
        How::Write => options.write(true),
    };
    options
}

/// What the system's metadata of a file say.
fn stat_in(metadata: io::Result<Metadata>) -> io::Result<Stat>
    ensures { MatchResult metadata (λ m. IfOk result
        (λ stat. HasKind (metadata_mode m) stat.kind × (stat.len ≡ metadata_len m)))
        (λ error. result ≡ Err error) }
{
    let metadata = metadata?;
    Ok(Stat {
        id: FileId {
            device: metadata.dev(),
            inode: metadata.ino(),
        },
        kind: kind_of(metadata.mode(), metadata.rdev()),
        len: metadata.len(),
    })
}

/// The kind of a file of this mode; its device number, where it is a device.
fn kind_of(mode: u32, device: u64) -> Kind
    ensures { HasKind mode result }
{
    match mode / 4096 % 16 {
        8 => Kind::Regular,
        4 => Kind::Folder,
        2 => Kind::Characters(device),
        _ => Kind::Other,
    }
}
