//! A log that holds nobody up: lines for which there is no room are dropped, and counted.

use crate::journal::is_journal;
use crate::line_kind::{kind_of, text_of, time_of};
use crate::line_limits::LineLimits;
use crate::log_output::{LogOutput, SlowTerminal};
use crate::socket::Progress;
use arrayvec::ArrayString;
use script::{Sink, WriteFailed};
use served_link::times::millis;
use served_link::{LineForm, seconds_text};
use std::alloc::AllocError;
use std::fmt::Write;
use std::time::Duration;

/// Octets of lines that wait to be written, at most.
const WAITING_OCTETS: usize = 65_536;

/// Writes in which the last lines go out, at most.
const LAST_WRITES: usize = 32;

/// Octets of the line that tells how many were missed, at most.
const LINE_OCTETS: usize = 64;

/// What ends a line.
const LINE_FEED: u8 = b'\n';

/// Why a log can't be opened.
#[derive(Clone, Copy, Debug, PartialEq, Eq)]
pub enum LogFault {
    /// It would go to a terminal that can't be opened anew.
    Terminal,
    /// Memory ran out.
    NoMemory,
}

impl From<AllocError> for LogFault {
    fn from(_error: AllocError) -> LogFault {
        LogFault::NoMemory
    }
}

impl From<SlowTerminal> for LogFault {
    fn from(_terminal: SlowTerminal) -> LogFault {
        LogFault::Terminal
    }
}

/// A log over standard output. It takes lines with the seconds since the start, and writes those that are severe enough
/// in its form. They wait until the next flush, which makes one write of them. A line is dropped if too many wait, since
/// the reader is slow, if the second has had enough lines of its kind, or if its write fails. How many were missed is
/// told as the next second begins, or before the next line that is taken.
pub struct DroppingLog<'a, W> {
    output: LogOutput<'a, W>,
    waiting: Vec<u8>,
    /// How its lines are written.
    pub form: LineForm,
    limits: LineLimits,
    second: u64,
    missed: u64,
}

// By hand, so that no proof above has what the log owns.
impl<W> Drop for DroppingLog<'_, W> {
    fn drop(self) {
        let DroppingLog {
            output: _,
            waiting: _,
            form: _,
            limits: _,
            second: _,
            missed: _,
        } = self;
    }
}

impl<'a, W: Sink> DroppingLog<'a, W> {
    /// The log over standard output, to which this sink writes lines of this form. Nothing waits yet, and nothing was
    /// dropped. If systemd says that standard output leads to its journal, lines begin with their priority.
    pub fn open(
        rt: &HostRuntime,
        sink: &'a mut W,
        form: LineForm,
    ) -> Result<DroppingLog<'a, W>, LogFault> {
        let waiting = Vec::with_capacity(rt.alloc(), WAITING_OCTETS)?;
        let output = LogOutput::of(rt, sink)?;
        Ok(DroppingLog {
            output,
            waiting,
            form: LineForm {
                has_priority: is_journal(rt),
                ..form
            },
            limits: LineLimits::new(),
            second: 0,
            missed: 0,
        })
    }

    /// Makes one write of the lines that wait, as far as they are taken at once. It is `now` since the start, and each
    /// second may have as many lines as the one before. As one begins, the lines that were missed are told.
    pub fn flush(&mut self, now: Duration) {
        if now.as_secs() != self.second {
            self.second = now.as_secs();
            self.limits.begin_second();
            self.tell_missed(seconds_text(millis(now)).as_str());
        }
        self.write_waiting();
    }

    /// Writes the last lines, as far as they are taken at once.
    pub fn finish(&mut self) {
        for _ in 0..LAST_WRITES {
            self.write_waiting();
        }
    }

    /// Makes one write of the lines that wait, if some do. If it fails, they are missed.
    fn write_waiting(&mut self) {
        if self.waiting.is_empty() {
            return;
        }
        match self.output.write(self.waiting.as_slice()) {
            Progress::Octets(count) => self.let_go(count),
            Progress::Later | Progress::Again => {}
            Progress::End | Progress::Failed => {
                let missed = lines_in(self.waiting.as_slice());
                self.missed = self.missed.saturating_add(missed);
                self.waiting.clear();
            }
        }
    }

    /// The first so many octets no longer wait.
    fn let_go(&mut self, count: usize) {
        let count = count.min(self.waiting.len());
        self.waiting.drain(..count);
    }

    /// A line waits from now on. False if there is no room for it.
    fn hold(&mut self, line: &[u8]) -> bool {
        let formed = self.form.line(time_of(line), text_of(line));
        let octets = self.waiting.len().saturating_add(formed.len());
        octets <= WAITING_OCTETS && self.waiting.extend_from_slice(formed.as_slice()).is_ok()
    }

    /// Tells how many lines were missed by this time, if some were. False if there is no room.
    fn tell_missed(&mut self, time: &str) -> bool {
        if self.missed == 0 {
            return true;
        }
        let missed = self.missed;
        let mut line = ArrayString::<LINE_OCTETS>::new();
        let _fits = writeln!(line, "{time} missed {missed} lines");
        let is_held = self.hold(line.as_bytes());
        if is_held {
            self.missed = 0;
        }
        is_held
    }
}

// No contract can say what a slow reader takes.
impl<W: Sink> Sink for DroppingLog<'_, W> {
    ghost use Rattle.std.specs.Prelude.{None};

    ghost output = { λ _. record { written = None; failures = 0 } };

    fn write(&mut self, octets: &[u8]) -> Result<(), WriteFailed> {
        if !self.form.writes(text_of(octets)) {
            return Ok(());
        }
        let is_told = self.limits.admits(kind_of(octets))
            && self.tell_missed(str::from_utf8(time_of(octets)).unwrap_or(""))
            && self.hold(octets);
        if !is_told {
            self.missed = self.missed.saturating_add(1);
        }
        Ok(())
    }
}

/// How many lines end in these octets.
fn lines_in(octets: &[u8]) -> u64 {
    let mut lines: u64 = 0;
    for octet in octets {
        if *octet == LINE_FEED {
            lines = lines.saturating_add(1);
        }
    }
    lines
}
