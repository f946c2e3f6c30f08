//! The file of a capture, or its ring of files.

ghost use Rattle.std.specs.Prelude.{◌≡◌, ◌-◌, ◌&&◌, [], length, nat_le, IfOk};

use crate::ring_files::RingFiles;
use std::alloc::{AllocError, Global};
use std::fs::File;
use std::io;
use std::io::Write;
use std::marker::Model;

/// Octets that wait to be written to the file, at most.
const HELD_OCTETS: usize = 1 << 20;

/// Writes in one flush, at most.
const WRITES: usize = 512;

/// A file, or a ring of files, and the octets that wait to be written to it. A write holds them, and a flush writes
/// them. What is held at a flush goes into one file of a ring: the next one, if it has no room in this one.
#[derive(Drop)]
pub struct HeldFile {
    file: Option<File>,
    held: Vec<u8>,
    /// How many of them are to go into this file, whatever comes after them.
    placed: usize,
    ring: Option<RingFiles>,
}

// The octets that wait.
impl Model for HeldFile {
    ghost use Rattle.std.specs.Prelude.{ℕ, List};

    ghost Value = { List ℕ };

    ghost view = { λ f. f.held.items };
}

impl HeldFile {
    /// A file to which nothing waits to be written. The error means that memory ran out.
    pub fn new(alloc: Global, file: File) -> Result<HeldFile, AllocError>
        ensures { IfOk result (λ file. file ≡ []) }
    {
        let held = Vec::with_capacity(alloc, HELD_OCTETS)?;
        Ok(HeldFile {
            file: Some(file),
            held,
            placed: 0,
            ring: None,
        })
    }

    /// A ring of files to which nothing waits to be written. The error means that memory ran out.
    pub fn ring(alloc: Global, files: RingFiles) -> Result<HeldFile, AllocError>
        ensures { IfOk result (λ file. file ≡ []) }
    {
        let held = Vec::with_capacity(alloc, HELD_OCTETS)?;
        Ok(HeldFile {
            file: None,
            held,
            placed: 0,
            ring: Some(files),
        })
    }

    /// The ring of its files, if they are one.
    pub(crate) fn files(&self) -> Option<&RingFiles> {
        self.ring.as_ref()
    }

    /// Whether this many octets more find room.
    pub(crate) fn has_room(&self, octets: usize) -> bool
        ensures { result ≡ (nat_le octets HELD_OCTETS && nat_le (length self.now) (HELD_OCTETS - octets)) }
    {
        octets <= HELD_OCTETS && self.held.len() <= HELD_OCTETS - octets
    }

    /// Places what waits, all in one file: the next one of a ring, if it has no room in this one.
    fn place(&mut self) -> io::Result<()> {
        if let Some(ring) = &mut self.ring
            && let Some(file) = ring.next_file(self.held.len())?
        {
            self.file = Some(file);
        }
        self.placed = self.held.len();
        Ok(())
    }

    /// Writes some octets, the first ones that wait.
    fn write_first(&mut self) -> io::Result<()> {
        let first = self.held.len().min(self.placed);
        let Some(file) = &mut self.file else {
            return Ok(());
        };
        let count = file.write(&self.held[..first])?;
        let count = count.min(first);
        self.held.drain(..count);
        self.placed = self.placed.saturating_sub(count);
        Ok(())
    }
}

impl Write for HeldFile {
    fn write(&mut self, octets: &[u8]) -> io::Result<usize> {
        match self.held.extend_from_slice(octets) {
            Ok(()) => Ok(octets.len()),
            Err(_) => Ok(0),
        }
    }

    fn flush(&mut self) -> io::Result<()> {
        if self.placed == 0 && !self.held.is_empty() {
            self.place()?;
        }
        for _ in 0..WRITES {
            if self.placed == 0 {
                return Ok(());
            }
            self.write_first()?;
        }
        Ok(())
    }
}
