//! The files of a ring that a capture goes into.

use crate::capture_place::{CaptureFault, FileId, new_file};
use std::alloc::Global;
use std::fs::{File, ReadDir};
use std::io::{ErrorKind, Write};
use std::{fs, io};
use trace::{
    CaptureRing, FILE_HEADER_OCTETS, LAST_NUMBER, Placing, file_header, file_name, number_of,
};

/// A ring of files, in the folder of the capture. Each has the capture's name, a dot and a number.
#[derive(Drop)]
pub struct RingFiles {
    rt: HostRuntime,
    alloc: Global,
    capture: String,
    ring: CaptureRing,
    number: u32,
}

impl RingFiles {
    /// The ring of a capture of this name, of at most this many files, each of at most this many octets. Files of an
    /// earlier run belong to it, and those whose turn it is are removed. No new file is there yet.
    ///
    /// Settings if one of its files is that of the settings; Unmade if the folder can't be read, or a file not removed;
    /// NoMemory.
    pub(crate) fn open(
        rt: &HostRuntime,
        capture: &str,
        size: u64,
        files: u32,
        settings: Option<FileId>,
    ) -> Result<RingFiles, CaptureFault> {
        let alloc = rt.alloc();
        let numbers = numbers(rt, alloc, capture, settings)?;
        let mut ring = CaptureRing::new(size, files);
        for number in numbers.iter() {
            ring.found(*number);
        }
        for number in numbers.iter() {
            if ring.is_due(*number) && remove(rt, alloc, capture, *number).is_err() {
                return Err(CaptureFault::Unmade);
            }
        }
        Ok(RingFiles {
            rt: *rt,
            alloc,
            capture: String::from_str(alloc, capture)?,
            ring,
            number: 0,
        })
    }

    /// The name of the capture.
    pub(crate) fn capture(&self) -> &str {
        self.capture.as_str()
    }

    /// The number of the file that is written; 0 if none was begun.
    pub(crate) fn number(&self) -> u32 {
        self.number
    }

    /// The new file that these octets go into, if they have no room in the one that is written. It begins with the
    /// header of a capture; the first has that in the octets themselves.
    pub(crate) fn next_file(&mut self, octets: usize) -> io::Result<Option<File>> {
        let front = if self.number == 0 {
            0
        } else {
            FILE_HEADER_OCTETS
        };
        match self.ring.put(octets as u64, front as u64) {
            Placing::Here => Ok(None),
            Placing::Next { number, removed } => Ok(Some(self.begin(number, removed)?)),
            Placing::Nowhere => Err(io::Error::from(ErrorKind::StorageFull)),
        }
    }

    /// Begins the file of this number, for which another one is removed.
    fn begin(&mut self, number: u32, removed: Option<u32>) -> io::Result<File> {
        if let Some(removed) = removed {
            remove(&self.rt, self.alloc, self.capture.as_str(), removed)?;
        }
        let name = file_name(self.alloc, self.capture.as_str(), number.min(LAST_NUMBER))?;
        let mut file = new_file(&self.rt, name.as_str())?;
        if self.number > 0 {
            file.write_all(&file_header())?;
        }
        self.number = number;
        Ok(file)
    }
}

/// Removes a file of a ring, if it is there.
fn remove(rt: &HostRuntime, alloc: Global, capture: &str, number: u32) -> io::Result<()> {
    let name = file_name(alloc, capture, number.min(LAST_NUMBER))?;
    match fs::remove_file(rt, name.as_str()) {
        Err(error) if error.kind() != ErrorKind::NotFound => Err(error),
        _ => Ok(()),
    }
}

/// The numbers of the files of a ring that are there, of which none may be that of the settings.
fn numbers(
    rt: &HostRuntime,
    alloc: Global,
    capture: &str,
    settings: Option<FileId>,
) -> Result<Vec<u32>, CaptureFault> {
    let (folder, name) = parted(capture);
    match fs::read_dir(rt, folder) {
        Ok(entries) => numbers_among(alloc, entries, name, settings),
        Err(_) => Err(CaptureFault::Unmade),
    }
}

/// The numbers of the files of a ring among these.
fn numbers_among(
    alloc: Global,
    entries: ReadDir,
    name: &str,
    settings: Option<FileId>,
) -> Result<Vec<u32>, CaptureFault> {
    let mut numbers = Vec::new(alloc);
    for entry in entries {
        // A name that isn't UTF-8 is none of theirs.
        let Ok(entry) = entry else {
            continue;
        };
        let Some(number) = number_of(name, entry.file_name()) else {
            continue;
        };
        if let Ok(found) = entry.metadata()
            && settings == Some(FileId::of(&found))
        {
            return Err(CaptureFault::Settings);
        }
        numbers.push(number)?;
    }
    Ok(numbers)
}

/// The folder of a file, and its name there.
fn parted(path: &str) -> (&str, &str) {
    match path.rsplit_once('/') {
        Some(("", name)) => ("/", name),
        Some((folder, name)) => (folder, name),
        None => (".", path),
    }
}
