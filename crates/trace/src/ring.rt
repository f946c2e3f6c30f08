//! Which file of a ring octets go into.

ghost use Rattle.std.specs.Prelude.{◌≡◌, ◌≤◌};
ghost use Rattle.trace.specs.Ring.{empty_ring, found_in, is_due, placing_of, removed_by, ring_after};

use std::marker::Model;

/// The number of the last file that a ring can have. The first is 1.
pub const LAST_NUMBER: u32 = 99_999_999;

/// Where octets go.
#[derive(Clone, Copy, Debug, PartialEq, Eq)]
pub enum Placing {
    /// Into the file that is written.
    Here,
    /// Into a new file.
    Next {
        /// Its number.
        number: u32,
        /// The number of the file whose turn it is to be removed, if the ring has as many files as it may have.
        removed: Option<u32>,
    },
    /// Nowhere: the numbers of files have come to their end.
    Nowhere,
}

/// A ring of files, each of at most so many octets: of the files there are only the newest. It has no files itself; it
/// says which there are.
#[derive(Drop)]
pub struct CaptureRing {
    size: u64,
    files: u32,
    number: u32,
    room: u64,
}

impl Model for CaptureRing {
    ghost use Rattle.trace.specs.Ring.{Ring};
    ghost use Rattle.trace.specs.declared.ring.TheConstants.{LAST_NUMBER};
    ghost use Rattle.std.specs.Prelude.{◌≤◌};

    ghost Value = { Ring };

    ghost view = { λ r. record { size = r.size; files = r.files; number = r.number; room = r.room } };

    ghost invariant = { λ r. r.number ≤ LAST_NUMBER };
}

impl CaptureRing {
    /// A ring of at most this many files, each of at most this many octets, of which none is there yet.
    pub fn new(size: u64, files: u32) -> CaptureRing
        ensures { result ≡ empty_ring size files }
    {
        CaptureRing {
            size,
            files,
            number: 0,
            room: 0,
        }
    }

    /// The file of this number is there, from an earlier run: the next file comes after it.
    pub fn found(&mut self, number: u32)
        ensures { self.new ≡ found_in number self.old }
    {
        self.number = self.number.max(number.min(LAST_NUMBER));
    }

    /// Whether it is the turn of the file of this number to be removed, before the next file begins.
    pub fn is_due(&self, number: u32) -> bool
        ensures { result ≡ is_due self.now number }
    {
        u64::from(number) + u64::from(self.files) <= u64::from(self.number) + 1
    }

    /// Where octets go, which aren't parted. They go there; a new file begins with this many other octets before them.
    pub fn put(&mut self, octets: u64, front: u64) -> Placing
        ensures placing { result ≡ placing_of octets self.old }
        ensures ring { self.new ≡ ring_after octets front self.old }
    {
        if octets <= self.room {
            self.room -= octets;
            return Placing::Here;
        }
        if self.number >= LAST_NUMBER {
            return Placing::Nowhere;
        }
        self.number += 1;
        self.room = self.size.saturating_sub(front).saturating_sub(octets);
        Placing::Next {
            number: self.number,
            removed: removed_by(self.files, self.number),
        }
    }
}

/// The number of the file that is removed when the one of this number begins, if there are this many at most.
fn removed_by(files: u32, number: u32) -> Option<u32>
    ensures { result ≡ removed_by files number }
{
    if files < number {
        Some(number - files)
    } else {
        None
    }
}
