//! Serving a node by the clock and the files of this machine.

ghost use Rattle.std.specs.Prelude.{◌≤◌};

use crate::failure::ServeFailure;
use crate::server::{Places, Server};
use script::Sink;
use served_link::times::millis;
use served_link::{LineForm, MOST_TICKS, Severity, TickClock, Unwatched};
use served_node::{CaptureFault, CapturePlace, DroppingLog, FileCapture, Log};
use settings::Settings;
use settings_file::serve::{LogLeast, LogSettings, ServeSettings};
use std::time::{Duration, Instant, SystemTime};
use std::{fmt, io};
use trace::{Capture, UntilFailure};

/// Serves a node with these settings, which are those of this file, until a client stops it. The log writes to standard
/// output; lines for which it has no room are dropped.
pub fn serve<W: Sink>(
    rt: &HostRuntime,
    settings: Settings,
    serve: &ServeSettings,
    file: &str,
    log: &mut W,
) -> Result<(), ServeFailure> {
    let form = match line_form(rt, serve.log()) {
        Ok(form) => form,
        Err(failure) => {
            drop(settings);
            return Err(failure);
        }
    };
    match DroppingLog::open(rt, log, form) {
        Ok(mut log) => {
            let served = serve_logged(rt, settings, serve, file, &mut log);
            log.finish();
            served
        }
        Err(fault) => {
            drop(settings);
            Err(ServeFailure::Log(fault))
        }
    }
}

/// How the lines of a log with these settings are written, at a node that starts now.
fn line_form(rt: &HostRuntime, log: LogSettings) -> Result<LineForm, ServeFailure> {
    let start_ms = if log.is_utc {
        Some(millis(since_1970(rt)?))
    } else {
        None
    };
    Ok(LineForm {
        has_priority: false,
        is_json: log.is_json,
        least: severity_of(log.least),
        start_ms,
    })
}

/// The least severity that the settings ask for.
fn severity_of(least: LogLeast) -> Severity {
    match least {
        LogLeast::Warning => Severity::Warning,
        LogLeast::Notice => Severity::Notice,
        LogLeast::Info => Severity::Info,
        LogLeast::Debug => Severity::Debug,
    }
}

/// How long ago the year 1970 began, by the system's clock.
fn since_1970(rt: &HostRuntime) -> io::Result<Duration> {
    let since = SystemTime::now(rt)?.duration_since(SystemTime::UNIX_EPOCH);
    Ok(since.unwrap_or(Duration::ZERO))
}

/// Serves a node with these settings of a file, with this log.
fn serve_logged<W: Sink>(
    rt: &HostRuntime,
    settings: Settings,
    serve: &ServeSettings,
    file: &str,
    log: &mut DroppingLog<'_, W>,
) -> Result<(), ServeFailure> {
    let (links, tick_ms) = (settings.link_count(), serve.tick_ms());
    tell(
        &format_args!("start {links} links, tick {tick_ms} ms"),
        Duration::ZERO,
        log,
    );
    let places = Places {
        links: serve.links(),
        udp: serve.udp(),
        sctp: serve.sctp(),
        console: serve.console(),
        page: serve.page(),
        is_page_open: serve.is_page_open(),
        points: serve.points(),
        tick_ms,
    };
    match Server::open(rt, rt.alloc(), settings, places, log) {
        Ok(mut server) => {
            let served = serve_opened(rt, &mut server, serve, file, log);
            server.close(rt);
            served
        }
        Err(fault) => Err(ServeFailure::Open(fault)),
    }
}

/// Writes a line of the log.
fn tell<T: fmt::Display, W: Sink>(text: &T, now: Duration, log: &mut W) {
    Log { sink: log, now }.tell(text);
}

/// Serves a node whose server is open. Its capture begins only now: if another process serves the same settings, its
/// addresses are in use, and the capture of that process stays as it is.
fn serve_opened<W: Sink>(
    rt: &HostRuntime,
    server: &mut Server,
    serve: &ServeSettings,
    file: &str,
    log: &mut DroppingLog<'_, W>,
) -> Result<(), ServeFailure> {
    if let Some(place) = capture_place(serve, file) {
        server.capture_to(capture(rt, place)?);
        // The files of a ring are told of as they begin.
        if place.ring.is_none() {
            tell(&format_args!("capture {}", place.file), Duration::ZERO, log);
        }
    }
    let started = Instant::now(rt)?;
    run(rt, server, serve.tick_ms(), started, log)
}

/// Where the capture goes, if there is one, in the settings of this file.
fn capture_place<'a>(serve: &'a ServeSettings, file: &'a str) -> Option<CapturePlace<'a>> {
    Some(CapturePlace {
        file: serve.capture()?,
        ring: serve
            .capture_limits()
            .map(|limits| (limits.size, limits.files)),
        settings: file,
    })
}

/// A capture that goes there.
fn capture(rt: &HostRuntime, place: CapturePlace<'_>) -> Result<FileCapture, ServeFailure> {
    let since_1970 = since_1970(rt)?;
    let file = match place.open(rt) {
        Ok(file) => file,
        Err(fault) => return Err(ServeFailure::Capture(fault)),
    };
    let capture = Capture::begin(UntilFailure::new(file), since_1970);
    if place.ring.is_some() && capture.has_failed() {
        return Err(ServeFailure::Capture(CaptureFault::Unmade));
    }
    Ok(capture)
}

/// Makes round after round. What came is handed in before a tick that is due passes: after a pause, the confirmations
/// that came meanwhile stop their timers first. The log is written once a round.
fn run<W: Sink>(
    rt: &HostRuntime,
    server: &mut Server,
    tick_ms: u16,
    started: Instant,
    log: &mut DroppingLog<'_, W>,
) -> Result<(), ServeFailure>
    requires { 1 ≤ tick_ms }
{
    let mut clock = TickClock::new(tick_ms);
    let mut was_behind = false;
    let mut now = since(rt, started)?;
    for _ in 0..u64::MAX {
        let before = since(rt, started)?;
        server.note_turn(before.saturating_sub(now));
        let rest = Duration::from_millis(clock.until_next(millis(before)));
        server.wait(before, rest)?;
        now = since(rt, started)?;
        follow_clock(rt, now, log);
        server.turn(rt, now, log, &mut Unwatched);
        was_behind = tell_if_behind(&clock, was_behind, now, log);
        server.note_behind(was_behind, now, log);
        if clock.is_due(millis(now)) {
            server.tick(now, log);
        }
        log.flush(now);
        if server.is_stopping() {
            server.stop(now, log);
            tell(&"stop", now, log);
            // The log is whole before its clients see the end.
            log.finish();
            return Ok(());
        }
    }
    Ok(())
}

/// Lines that tell their time in UTC follow the system's clock, which may be set. It is `now` since the start.
fn follow_clock<W: Sink>(rt: &HostRuntime, now: Duration, log: &mut DroppingLog<'_, W>) {
    if log.form.start_ms.is_some()
        && let Ok(clock) = since_1970(rt)
    {
        log.form.start_ms = Some(millis(clock).saturating_sub(millis(now)));
    }
}

/// How long after the start it is.
fn since(rt: &HostRuntime, started: Instant) -> Result<Duration, ServeFailure> {
    Ok(Instant::now(rt)?.duration_since(started))
}

/// Returns whether the clock is late; the log is told when that begins.
fn tell_if_behind<W: Sink>(
    clock: &TickClock,
    was_behind: bool,
    now: Duration,
    log: &mut W,
) -> bool {
    let is_behind = clock.is_behind(millis(now));
    if is_behind && !was_behind {
        let text = format_args!("behind: more than {MOST_TICKS} ticks are due");
        tell(&text, now, log);
    }
    is_behind
}
