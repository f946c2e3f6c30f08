//! The files 0 to 2 of the process.

use std::fs::OpenOptions;
use std::os::fd::{AsRawFd, IntoRawFd};

/// Where a file comes from that takes the number of one that is closed.
const NOTHING: &str = "/dev/null";

/// The number of standard error, the last of the three.
const LAST: i32 = 2;

/// Opens a file in place of each standard one that is closed, for good. So no socket and no other file ever has its
/// number, and is written to as if it were the standard one. As before, a read of standard input fails then, and a
/// write to the others.
pub(crate) fn hold_standard_files(rt: &HostRuntime) {
    hold_next(rt, true, 0);
    for _ in 0..LAST {
        hold_next(rt, false, LAST);
    }
}

/// Opens a file, to write to it or to read from it, and keeps it if its number, the least that was free, is at most
/// `most`.
fn hold_next(rt: &HostRuntime, is_written: bool, most: i32) {
    let opened = OpenOptions::new()
        .read(!is_written)
        .write(is_written)
        .open(rt, NOTHING);
    if let Ok(file) = opened
        && file.as_raw_fd() <= most
    {
        let _for_good = file.into_raw_fd();
    }
}
