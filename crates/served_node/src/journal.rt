//! Whether standard output leads to systemd's journal.

use arrayvec::ArrayString;
use std::fmt::Write;
use std::os::unix::fs::MetadataExt;
use std::{env, fs};

/// The path at which standard output is.
const STANDARD_OUTPUT_PATH: &str = "/proc/self/fd/1";

/// What systemd sets to the device and the number of the file of its journal, if it gave that to the service.
const JOURNAL_STREAM: &str = "JOURNAL_STREAM";

/// Octets of two numbers of 64 bits with a colon between them.
const NUMBERS_OCTETS: usize = 41;

/// Whether systemd says that standard output is the file that leads to its journal.
pub(crate) fn is_journal(rt: &HostRuntime) -> bool {
    let Ok(journal) = env::var(rt, JOURNAL_STREAM) else {
        return false;
    };
    let Ok(found) = fs::metadata(rt, STANDARD_OUTPUT_PATH) else {
        return false;
    };
    let (device, file) = (found.dev(), found.ino());
    let mut numbers = ArrayString::<NUMBERS_OCTETS>::new();
    let _fits = write!(numbers, "{device}:{file}");
    journal.as_str() == numbers.as_str()
}
