//! Where a capture goes: what may be there, and what may not.

use crate::held_file::HeldFile;
use crate::ring_files::RingFiles;
use std::alloc::{AllocError, AllocFailed};
use std::fs::{File, Metadata, OpenOptions};
use std::io::{ErrorKind, IsTerminal};
use std::os::unix::fs::{FileTypeExt, MetadataExt, OpenOptionsExt};
use std::{fs, io};

/// The permissions of a new file: its owner alone may read and write it.
const OWNER_ALONE: u32 = 0o600;

/// Why a capture can't go where it is to go.
#[derive(Clone, Copy, Debug, PartialEq, Eq)]
pub enum CaptureFault {
    /// A symbolic link is there.
    Link,
    /// A pipe (fifo) is there: to open it would wait for its reader.
    Pipe,
    /// A folder is there.
    Folder,
    /// A socket, a disk or a terminal is there.
    Other,
    /// The file of the settings is there, or is one of the ring.
    Settings,
    /// The system makes no file there, or doesn't remove one whose turn it is.
    Unmade,
    /// Memory ran out.
    NoMemory,
}

impl From<AllocError> for CaptureFault {
    fn from(_error: AllocError) -> CaptureFault {
        CaptureFault::NoMemory
    }
}

impl<T: Drop> From<AllocFailed<T>> for CaptureFault {
    fn from(_error: AllocFailed<T>) -> CaptureFault {
        CaptureFault::NoMemory
    }
}

/// Which file something is, whatever its name.
#[derive(Clone, Copy, PartialEq, Eq)]
pub(crate) struct FileId {
    device: u64,
    inode: u64,
}

impl FileId {
    pub(crate) fn of(found: &Metadata) -> FileId {
        FileId {
            device: found.dev(),
            inode: found.ino(),
        }
    }
}

/// Where a capture goes.
#[derive(Clone, Copy)]
pub struct CapturePlace<'a> {
    /// The name of its file; of a ring, what the names of its files begin with.
    pub file: &'a str,
    /// If it goes into a ring, how many octets a file has at most, and how many files there are at most.
    pub ring: Option<(u64, u32)>,
    /// The file of the settings, into which no capture goes.
    pub settings: &'a str,
}

impl CapturePlace<'_> {
    /// The file that a capture is written to. A single one is new, or emptied. Of a ring, files of an earlier run stay
    /// until their turn.
    pub fn open(&self, rt: &HostRuntime) -> Result<HeldFile, CaptureFault> {
        let settings = match fs::metadata(rt, self.settings) {
            Ok(found) => Some(FileId::of(&found)),
            Err(_) => None,
        };
        let found = there(rt, self.file, settings)?;
        match self.ring {
            Some((size, files)) => {
                let ring = RingFiles::open(rt, self.file, size, files, settings)?;
                Ok(HeldFile::ring(rt.alloc(), ring)?)
            }
            None => match single_file(rt, self.file, found) {
                Ok(file) if file.is_terminal() => Err(CaptureFault::Other),
                Ok(file) => Ok(HeldFile::new(rt.alloc(), file)?),
                Err(_) => Err(CaptureFault::Unmade),
            },
        }
    }
}

/// What is there, if a capture may go into it: a file other than that of the settings, or a device such as /dev/null.
fn there(
    rt: &HostRuntime,
    path: &str,
    settings: Option<FileId>,
) -> Result<Option<Metadata>, CaptureFault> {
    match fs::symlink_metadata(rt, path) {
        Ok(found) => match fault_of(&found, settings) {
            Some(fault) => Err(fault),
            None => Ok(Some(found)),
        },
        Err(error) if error.kind() == ErrorKind::NotFound => Ok(None),
        Err(_) => Err(CaptureFault::Unmade),
    }
}

/// Why a capture may not go into what is there, if so.
fn fault_of(found: &Metadata, settings: Option<FileId>) -> Option<CaptureFault> {
    let kind = found.file_type();
    if kind.is_symlink() {
        Some(CaptureFault::Link)
    } else if kind.is_fifo() {
        Some(CaptureFault::Pipe)
    } else if kind.is_dir() {
        Some(CaptureFault::Folder)
    } else if !kind.is_file() && !kind.is_char_device() {
        Some(CaptureFault::Other)
    } else if settings == Some(FileId::of(found)) {
        Some(CaptureFault::Settings)
    } else {
        None
    }
}

/// A new file, which its owner alone may read and write. Whatever is there stays, and is an error.
pub(crate) fn new_file(rt: &HostRuntime, path: &str) -> io::Result<File> {
    OpenOptions::new()
        .write(true)
        .create_new(true)
        .mode(OWNER_ALONE)
        .open(rt, path)
}

/// The one file of a capture: what was found there, emptied, or else a new one.
fn single_file(rt: &HostRuntime, path: &str, found: Option<Metadata>) -> io::Result<File> {
    let Some(found) = found else {
        return new_file(rt, path);
    };
    let file = OpenOptions::new().write(true).open(rt, path)?;
    // Another file may be there by now, by a link too. That one isn't emptied.
    if FileId::of(&file.metadata()?) != FileId::of(&found) {
        return Err(io::Error::from(ErrorKind::AlreadyExists));
    }
    if found.is_file() {
        file.set_len(0)?;
    }
    Ok(file)
}
