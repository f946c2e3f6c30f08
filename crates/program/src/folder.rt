//! Where settings files are read from.

ghost use Rattle.std.specs.Prelude.{◌≡◌, ◌≤◌, ◌⊎◌, ℕ, List, length, Result, Ok, Err, IfOk, IfSome, if◌then◌else◌, bytes_eq};
ghost use Rattle.program.specs.declared.folder.FileFault.{FileFault};
ghost use Rattle.program.specs.declared.folder.FileFault.TheVariants as file_fault;
ghost use Rattle.program.specs.declared.folder.Unread.TheVariants.{Missing};
ghost use Rattle.program.specs.Folders.{octets_read};

use std::alloc::Global;
use std::io::{ErrorKind, Read};
use std::rt::Files;
use std::{fs, io};

/// Octets of a settings file, at most: 16 MB.
pub const MOST_OCTETS: usize = 16_000_000;

/// Octets that are read at once, at most.
const PIECE_OCTETS: usize = 65_536;

/// Why a file can't be read.
#[derive(Clone, Copy, Debug, PartialEq, Eq)]
pub enum Unread {
    /// There is no such file.
    Missing,
    /// Reading it isn't permitted.
    Forbidden,
    /// It is a directory.
    Directory,
    /// It has more octets than a settings file may have.
    TooLarge,
    /// A read of it failed.
    Failed,
}

/// Why a file wasn't read.
#[derive(Clone, Copy, Debug, PartialEq, Eq)]
pub enum FileFault {
    /// It can't be read.
    Unread(Unread),
    /// Memory ran out.
    NoMemory,
}

/// Where settings files are read from.
pub trait Folder {
    // What a read of the file of this name may come to: its octets, or a fault.
    ghost reads: { Self → List ℕ → Result (List ℕ) FileFault → Type 0 };

    /// Reads the whole file of this name.
    fn read(&self, alloc: Global, name: &str) -> Result<Vec<u8>, FileFault>
        ensures { reads self.now name.now (octets_read result) };
}

/// What an error of this kind says of a file.
fn file_fault(kind: ErrorKind) -> FileFault {
    match kind {
        ErrorKind::OutOfMemory => FileFault::NoMemory,
        ErrorKind::NotFound => FileFault::Unread(Unread::Missing),
        ErrorKind::PermissionDenied => FileFault::Unread(Unread::Forbidden),
        ErrorKind::IsADirectory => FileFault::Unread(Unread::Directory),
        _ => FileFault::Unread(Unread::Failed),
    }
}

/// The machine's files, about which nothing is known in advance.
#[derive(Clone, Copy)]
pub struct Disk<'a, R> {
    rt: &'a R,
}

impl<'a, R: Files + AllocGlobal> Disk<'a, R> {
    /// The files that this runtime reads.
    pub fn new(rt: &'a R) -> Disk<'a, R>
        ensures { result.rt ≡ rt.entry }
    {
        Disk { rt }
    }
}

impl<'a, R: Files + AllocGlobal> Folder for Disk<'a, R> {
    ghost reads = { λ _ _ _. Unit {0} };

    fn read(&self, alloc: Global, name: &str) -> Result<Vec<u8>, FileFault> {
        match small_file(self.rt, alloc, name) {
            Ok(Some(octets)) => Ok(octets),
            Ok(None) => Err(FileFault::Unread(Unread::TooLarge)),
            Err(error) => Err(file_fault(error.kind())),
        }
    }
}

/// What is in the file of this name; none if that is more than a settings file may have.
fn small_file<R: Files>(rt: &R, alloc: Global, name: &str) -> io::Result<Option<Vec<u8>>>
    ensures { IfOk result (λ read. IfSome read (λ octets. length octets.items ≤ MOST_OCTETS)) }
{
    let mut file = fs::open(rt, name)?;
    let mut octets = Vec::new(alloc);
    // Each read but the last has an octet at least.
    for _ in 0..=MOST_OCTETS {
        let goes_on = read_piece(&mut file, &mut octets)?;
        if octets.len() > MOST_OCTETS {
            return Ok(None);
        }
        if !goes_on {
            return Ok(Some(octets));
        }
    }
    Ok(None)
}

/// Reads once, and puts what came behind these octets. Returns whether something came.
fn read_piece<F: Read>(file: &mut F, octets: &mut Vec<u8>) -> io::Result<bool> {
    let mut piece = [0; PIECE_OCTETS];
    let count = file.read(&mut piece)?;
    octets.extend_from_slice(&piece[..count])?;
    Ok(count > 0)
}

/// One file in memory, and no other.
#[derive(Clone, Copy)]
pub struct OneFile<'a> {
    /// The file's name.
    pub name: &'a str,
    /// What is in it.
    pub octets: &'a [u8],
}

impl Folder for OneFile<'_> {
    ghost reads = { λ f name read.
        (read ≡ (if bytes_eq name f.name.now then Ok f.octets.now else Err (file_fault.Unread Missing)))
        ⊎ (read ≡ Err file_fault.NoMemory) };

    fn read(&self, alloc: Global, name: &str) -> Result<Vec<u8>, FileFault> {
        if name != self.name {
            return Err(FileFault::Unread(Unread::Missing));
        }
        match Vec::from_slice(alloc, self.octets) {
            Ok(octets) => Ok(octets),
            Err(_) => Err(FileFault::NoMemory),
        }
    }
}
