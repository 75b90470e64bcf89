//! The files of the system.

ghost use Rattle.std.specs.Prelude.{◌≡◌, [], IfErr, IfOk};
ghost use Rattle.std.specs.Io.Buffered.{writer_buffer, writer_inner};
ghost use Rattle.nor_job.specs.declared.fault.BuildFault.TheVariants.{Memory};
ghost use Rattle.norprog_common.specs.declared.faults.Refusal.TheVariants.{Build};

use crate::disk::{Calls, Disk, FileId, Host, How, Kind, Unkept};
use crate::files::{Files, Trail};
use crate::guards::{
    MOST_BYTES, gone_out, open_as, open_input, open_output, open_terminal, read_opened, write_out,
};
use crate::replaced::OutKind;
use crate::trouble::{device_error, open_error};
use nor_base::{Failed, FromRead, IntoWrite};
use norprog_common::{FileName, OutFile, Refusal};
use std::alloc::Global;
use std::fs;
use std::io::{self, BufReader, BufWriter, Read, Write};

/// Bytes that are gathered before they are written to a file.
const BUFFER: usize = 65536;

/// Which files were opened, and the calls that were made.
#[derive(Drop)]
pub struct Places<C: Drop> {
    opened: Vec<FileId>,
    calls: C,
}

impl<F: Read + Write + Drop> Places<Unkept<F>> {
    /// None.
    pub fn new(alloc: Global) -> Places<Unkept<F>> {
        Places::of(alloc, Unkept::new())
    }
}

impl<C: Calls + Drop> Places<C> {
    /// None, where no call was made.
    pub fn of(alloc: Global, calls: C) -> Places<C>
        ensures { C.did calls [] → ⟦<Places<C> as Trail>⟧.did result [] }
    {
        Places {
            opened: Vec::new(alloc),
            calls,
        }
    }
}

impl<C: Calls + Drop> Trail for Places<C> {
    ghost use Rattle.norprog_files.specs.Trace.{Told, reports};

    ghost did = { λ s. Told (reports C.File.remaining C.File.contents) (C.did s.calls)
        s.opened.items };
}

/// The files of the system, by its calls. Nothing is known of what they give.
#[derive(Clone, Copy)]
pub struct System<D> {
    disk: D,
}

impl<'a, R: fs::Files> System<Host<'a, R>> {
    /// The files that this runtime opens.
    pub fn new(files: &'a R) -> System<Host<'a, R>> {
        System::of(Host { files })
    }
}

impl<D: Disk> System<D> {
    /// The files that these calls open.
    pub fn of(disk: D) -> System<D> {
        System { disk }
    }
}

impl<D: Disk> Files for System<D> {
    type Input = FromRead<D::File>;

    type Output = IntoWrite<BufWriter<D::File>>;

    type FromDevice = FromRead<BufReader<D::File>>;

    type ToDevice = IntoWrite<D::File>;

    type Trail = Places<D::Calls>;

    ghost unread = { λ _. Unit {0} };

    fn open(
        &self,
        trail: &mut Places<D::Calls>,
        path: &str,
        name: FileName,
    ) -> Result<(FromRead<D::File>, u64), Refusal> {
        let (file, len) = open_input(&self.disk, &mut trail.calls, &mut trail.opened, path, name)?;
        Ok((FromRead::new(file), len))
    }

    fn read(
        &self,
        trail: &mut Places<D::Calls>,
        alloc: Global,
        path: &str,
        name: FileName,
    ) -> Result<Vec<u8>, Refusal> {
        let (file, len) = open_input(&self.disk, &mut trail.calls, &mut trail.opened, path, name)?;
        if len > MOST_BYTES {
            return Err(Refusal::File(name));
        }
        read_opened(alloc, file, name)
    }

    fn create(
        &self,
        trail: &mut Places<D::Calls>,
        alloc: Global,
        out: OutFile<'_>,
        kind: OutKind,
    ) -> Result<IntoWrite<BufWriter<D::File>>, Refusal> {
        let opened = trail.opened.as_slice();
        let file = open_output(&self.disk, &mut trail.calls, alloc, out, kind, opened)?;
        buffered(alloc, file)
    }

    fn create_new(
        &self,
        trail: &mut Places<D::Calls>,
        alloc: Global,
        path: &str,
        name: FileName,
    ) -> Result<IntoWrite<BufWriter<D::File>>, Refusal> {
        let file = open_as(&self.disk, &mut trail.calls, path, How::Anew, name)?;
        buffered(alloc, file)
    }

    fn close(
        &self,
        trail: &mut Places<D::Calls>,
        _path: &str,
        mut file: IntoWrite<BufWriter<D::File>>,
    ) -> Result<(), Failed> {
        let flushed = write_out(&self.disk, &mut trail.calls, &mut file.inner);
        gone_out(flushed, file.failed)
    }

    fn open_device(
        &self,
        trail: &mut Places<D::Calls>,
        alloc: Global,
        path: &str,
    ) -> Result<(FromRead<BufReader<D::File>>, IntoWrite<D::File>), Refusal> {
        let (from, to) = open_terminal(&self.disk, &mut trail.calls, alloc, path)?;
        Ok((FromRead::new(from), IntoWrite::new(to)))
    }

    fn close_device(
        &self,
        _trail: &mut Places<D::Calls>,
        _path: &str,
        _from: FromRead<BufReader<D::File>>,
        _to: IntoWrite<D::File>,
    ) {}

    fn is_regular(&self, trail: &mut Places<D::Calls>, path: &str) -> bool {
        match self.disk.stat(&mut trail.calls, path) {
            Ok(stat) => matches!(stat.kind, Kind::Regular),
            Err(_) => false,
        }
    }

    fn trouble(&self, trail: &mut Places<D::Calls>, alloc: Global, path: &str) -> Option<String> {
        said(alloc, open_error(&self.disk, &mut trail.calls, path))
    }

    fn device_trouble(
        &self,
        trail: &mut Places<D::Calls>,
        alloc: Global,
        path: &str,
    ) -> Option<String> {
        said(
            alloc,
            device_error(&self.disk, &mut trail.calls, alloc, path),
        )
    }

    ghost failing = { λ files reader failed. tt };
}

/// An error in the system's words.
fn said(alloc: Global, error: Option<io::Error>) -> Option<String> {
    let error = error?;
    format!(in alloc; "{error}").ok()
}

/// A file that gathers what it is to take.
fn buffered<F: Write + Drop>(alloc: Global, file: F) -> Result<IntoWrite<BufWriter<F>>, Refusal>
    ensures made { IfOk result (λ writer. (writer_inner writer.inner ≡ file)
        × (writer_buffer writer.inner ≡ []) × (writer.failed ≡ 0)) }
    ensures memory { IfErr result (λ why. why ≡ Build Memory) }
{
    match BufWriter::with_capacity(alloc, BUFFER, file) {
        Ok(writer) => Ok(IntoWrite::new(writer)),
        Err(_) => Err(Refusal::MEMORY),
    }
}
