//! OUT, the file into which a trace that was replayed is written in the newest version.
use crate::trace_file::takes_report;
use job_ends::Failure;
use phase_modes::Refusal;
use std::alloc::AllocError;
use std::fs::{File, Permissions, canonicalize, metadata, remove_file, rename};
use std::io;
use std::io::{ErrorKind, Write};
use std::path::PathBuf;

/// OUT, of which nothing is opened before the first write. If OUT is a file, or isn't there,
/// what is written goes into a new file beside it, and a flush puts that in the place of OUT. So
/// OUT is whole at any time, and may be FILE itself. A device or a pipe is written to as it is.
pub(crate) struct Upgraded<'a> {
    rt: &'a HostRuntime,
    /// OUT, links followed.
    out: PathBuf,
    /// The name of the new file; none of a device, and none once the new file is in its place.
    beside: Option<PathBuf>,
    /// Those of OUT, if it is there; the new file gets them.
    permissions: Option<Permissions>,
    /// What is open to be written to.
    file: Option<File>,
}

impl<'a> Upgraded<'a> {
    /// OUT of this name. Nothing is made or opened yet. A fault if OUT is the file that the report
    /// goes to.
    pub(crate) fn named(rt: &'a HostRuntime, name: &str) -> Result<Upgraded<'a>, Failure> {
        if takes_report(rt, name)? {
            return Err(Failure::Write);
        }
        let out = match whole_path(rt, name)? {
            Some(path) => path,
            None => PathBuf::from_str(rt.alloc(), name).map_err(memory)?,
        };
        let found = metadata(rt, &out).ok();
        let is_device = found.as_ref().is_some_and(|it| !it.is_file());
        let beside = if is_device {
            None
        } else {
            Some(name_beside(rt, &out).map_err(memory)?)
        };
        Ok(Upgraded {
            rt,
            out,
            beside,
            permissions: found.map(|it| it.permissions()),
            file: None,
        })
    }

    /// Opens what is written to first. OUT that may not be written isn't replaced either.
    fn open(&mut self) -> io::Result<()> {
        let Some(beside) = &self.beside else {
            self.file = Some(File::create(self.rt, &self.out)?);
            return Ok(());
        };
        if self.permissions.is_some() {
            let _writable = File::options().write(true).open(self.rt, &self.out)?;
        }
        self.file = Some(File::create_new(self.rt, beside)?);
        match (&self.file, self.permissions.take()) {
            (Some(file), Some(permissions)) => file.set_permissions(permissions),
            _ => Ok(()),
        }
    }
}

/// The whole path of what is there under this name, links followed; none if nothing is, or if
/// it can't be told.
fn whole_path(rt: &HostRuntime, name: &str) -> Result<Option<PathBuf>, Failure> {
    match canonicalize(rt, name) {
        Ok(path) => Ok(Some(path)),
        Err(error) if error.kind() == ErrorKind::OutOfMemory => {
            Err(Failure::Refused(Refusal::Memory))
        }
        Err(_) => Ok(None),
    }
}

/// The failure for want of memory.
fn memory(_error: AllocError) -> Failure {
    Failure::Refused(Refusal::Memory)
}

/// The name of a new file in the folder of OUT.
fn name_beside(rt: &HostRuntime, out: &PathBuf) -> Result<PathBuf, AllocError> {
    let name = format!(in rt.alloc(); "{}.new", out.display())?;
    PathBuf::from_str(rt.alloc(), name.as_str())
}

impl Write for Upgraded<'_> {
    fn write(&mut self, buf: &[u8]) -> io::Result<usize> {
        if self.file.is_none() {
            self.open()?;
        }
        match &mut self.file {
            Some(file) => file.write(buf),
            None => Ok(0),
        }
    }

    fn flush(&mut self) -> io::Result<()> {
        if let (Some(file), Some(beside)) = (&self.file, &self.beside) {
            file.sync_all()?;
            rename(self.rt, beside, &self.out)?;
            self.beside = None;
        }
        Ok(())
    }
}

impl Drop for Upgraded<'_> {
    /// A new file that isn't in its place is removed.
    fn drop(self) {
        let Upgraded {
            rt,
            out: _,
            beside,
            permissions: _,
            file,
        } = self;
        if let (Some(_), Some(beside)) = (file, beside) {
            let _ = remove_file(rt, &beside);
        }
    }
}
