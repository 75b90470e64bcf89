//! Files in memory, and the device that a play opens beside them.

ghost use Rattle.std.specs.Prelude.{IfErr};
ghost use Rattle.norprog_files.specs.Files.{Denies};

use nor_base::{Failed, FromRead, IntoWrite};
use norprog_common::{FileName, OutFile, Refusal};
use norprog_files::{Files, OutKind, Trail};
use std::alloc::Global;
use std::cell::Cell;
use std::io;
use test_samples::{Canned, End};

/// The files `content`, `script` and `tables`, and a device that gives these answers, whose writer
/// fails once, after so many bytes. What it took, and how many bytes of its answers are left. Where
/// there is a place for it, what a file that is made anew had taken when it was flushed; else none
/// is made.
#[derive(Drop)]
pub(crate) struct Store<'a> {
    pub(crate) alloc: Global,
    pub(crate) content: &'a [u8],
    pub(crate) script: &'static str,
    pub(crate) tables: &'static [u8],
    pub(crate) answers: &'a [u8],
    pub(crate) end: End,
    pub(crate) cut: Option<usize>,
    pub(crate) put: &'a Cell<Vec<u8>>,
    pub(crate) left: &'a Cell<usize>,
    pub(crate) saved: Option<&'a Cell<Vec<u8>>>,
}

/// What comes from the device.
#[derive(Drop)]
pub(crate) struct FromLine<'a> {
    canned: Canned<'a>,
    left: &'a Cell<usize>,
}

impl<'a> io::Read for FromLine<'a> {
    fn read(&mut self, buf: &mut [u8]) -> io::Result<usize> {
        let given = self.canned.read(buf);
        let _ = self.left.replace(self.canned.answers.len());
        given
    }
}

/// What goes to it.
#[derive(Drop)]
pub(crate) struct ToLine<'a> {
    alloc: Global,
    cut: Option<usize>,
    put: &'a Cell<Vec<u8>>,
}

impl<'a> io::Write for ToLine<'a> {
    fn write(&mut self, buf: &[u8]) -> io::Result<usize> {
        let Some(byte) = buf.first() else {
            return Ok(0);
        };
        let mut all = self.put.replace(Vec::new(self.alloc));
        let fails = self.cut == Some(all.len());
        if fails {
            self.cut = None;
        } else {
            all.push(*byte)?;
        }
        let _ = self.put.replace(all);
        if fails {
            return Err(io::ErrorKind::TimedOut.into());
        }
        Ok(1)
    }

    fn flush(&mut self) -> io::Result<()> {
        Ok(())
    }
}

impl<'a> Store<'a> {
    /// The file of this name.
    fn file(&self, path: &str, name: FileName) -> Result<&'a [u8], Refusal>
        ensures { IfErr result (Denies name) }
    {
        match path {
            "content" => Ok(self.content),
            "script" => Ok(self.script.as_bytes()),
            "tables" => Ok(self.tables),
            _ => Err(Refusal::File(name)),
        }
    }
}

/// Notes nothing of what is done with files.
#[derive(Drop)]
pub(crate) struct Untold;

impl Trail for Untold {
    ghost use Rattle.std.specs.Prelude.{⊤};

    ghost did = { λ _ _. ⊤ };
}

impl<'a> Files for Store<'a> {
    ghost use Rattle.std.specs.Prelude.{⊤};

    type Input = FromRead<&'a [u8]>;

    type Output = IntoWrite<Vec<u8>>;

    type FromDevice = FromRead<FromLine<'a>>;

    type ToDevice = IntoWrite<ToLine<'a>>;

    type Trail = Untold;

    ghost unread = { λ _. ⊤ };

    ghost failing = { λ _ _ _. tt };

    fn open(
        &self,
        _trail: &mut Untold,
        path: &str,
        name: FileName,
    ) -> Result<(FromRead<&'a [u8]>, u64), Refusal> {
        let bytes = self.file(path, name)?;
        Ok((FromRead::new(bytes), bytes.len() as u64))
    }

    fn read(
        &self,
        _trail: &mut Untold,
        alloc: Global,
        path: &str,
        name: FileName,
    ) -> Result<Vec<u8>, Refusal> {
        match Vec::from_slice(alloc, self.file(path, name)?) {
            Ok(bytes) => Ok(bytes),
            Err(_) => Err(Refusal::MEMORY),
        }
    }

    fn create(
        &self,
        _trail: &mut Untold,
        _alloc: Global,
        _out: OutFile<'_>,
        kind: OutKind,
    ) -> Result<IntoWrite<Vec<u8>>, Refusal> {
        Err(Refusal::File(kind.name()))
    }

    fn create_new(
        &self,
        _trail: &mut Untold,
        alloc: Global,
        _path: &str,
        name: FileName,
    ) -> Result<IntoWrite<Vec<u8>>, Refusal> {
        match self.saved {
            Some(_) => Ok(IntoWrite::new(Vec::new(alloc))),
            None => Err(Refusal::File(name)),
        }
    }

    fn close(
        &self,
        _trail: &mut Untold,
        _path: &str,
        file: IntoWrite<Vec<u8>>,
    ) -> Result<(), Failed> {
        let Some(saved) = self.saved else {
            return Err(Failed);
        };
        if file.failed > 0 {
            return Err(Failed);
        }
        let _ = saved.replace(file.inner);
        Ok(())
    }

    fn open_device(
        &self,
        _trail: &mut Untold,
        _alloc: Global,
        _path: &str,
    ) -> Result<(FromRead<FromLine<'a>>, IntoWrite<ToLine<'a>>), Refusal> {
        let canned = Canned {
            answers: self.answers,
            silent: 0,
            end: self.end,
        };
        let from = FromLine {
            canned,
            left: self.left,
        };
        let to = ToLine {
            alloc: self.alloc,
            cut: self.cut,
            put: self.put,
        };
        Ok((FromRead::new(from), IntoWrite::new(to)))
    }

    fn close_device(
        &self,
        _trail: &mut Untold,
        _path: &str,
        _from: FromRead<FromLine<'a>>,
        _to: IntoWrite<ToLine<'a>>,
    ) {}

    fn is_regular(&self, _trail: &mut Untold, path: &str) -> bool {
        self.file(path, FileName::Script).is_ok()
    }

    fn trouble(&self, _trail: &mut Untold, _alloc: Global, _path: &str) -> Option<String> {
        None
    }

    fn device_trouble(&self, _trail: &mut Untold, _alloc: Global, _path: &str) -> Option<String> {
        None
    }
}
