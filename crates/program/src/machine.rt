//! The program on the machine that it runs on.

use crate::ending::refuse_words;
use crate::folder::Disk;
use crate::program::run_program;
use crate::standard_files::hold_standard_files;
use lab::Loopback;
use script::{ReaderSource, WriterSink};
use std::process::ExitCode;
use std::{env, io};

/// The program `stp` with the machine's arguments, files and standard streams. Its lab joins links by TCP on this
/// machine; on the network it serves a node, and calls the console of one. `main` is this call.
pub fn run_on_machine(rt: &HostRuntime) -> ExitCode {
    hold_standard_files(rt);
    let mut reader = ReaderSource::new(rt.stdin());
    let mut writer = WriterSink::new(io::writer(rt));
    let mut errors = WriterSink::new(rt.stderr());
    let status = match words(rt) {
        Ok(words) => run_program(
            rt,
            words.as_slice(),
            &Disk::new(rt),
            &mut Loopback::new(rt),
            &mut reader,
            &mut writer,
            &mut errors,
        ),
        Err(error) => refuse_words(&error, &mut writer, &mut errors),
    };
    ExitCode::from(status.number())
}

/// The program's arguments.
fn words(rt: &HostRuntime) -> io::Result<Vec<String>> {
    let words = env::args(rt)?.skip(1).collect(rt.alloc())?;
    Ok(words)
}
