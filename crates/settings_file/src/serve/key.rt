//! The keys of a server's settings, and how they are written.

ghost use Rattle.std.specs.Prelude.{Some};
ghost use Rattle.settings_file.specs.ServeKeys.{key_path};

use crate::key_rows::KeyRow;
use crate::serve::key_rows::key_row;
use std::fmt;

/// The keys of a server's settings, with the index of a link from 0. A key prints as its path, as
/// `serve.tick_ms` or `link[2].listen`.
#[derive(Clone, Copy)]
pub enum ServeKey {
    /// `serve`, the table itself.
    Serve,
    /// `serve.tick_ms`.
    TickMs,
    /// `serve.console`.
    Console,
    /// `serve.capture`.
    Capture,
    /// `serve.capture_size`.
    CaptureSize,
    /// `serve.capture_files`.
    CaptureFiles,
    /// `serve.console_open`.
    ConsoleOpen,
    /// `serve.points`.
    Points,
    /// `serve.udp`.
    Udp,
    /// `serve.sctp`, the table itself.
    Sctp,
    /// `serve.sctp.rto_initial_ms`.
    RtoInitialMs,
    /// `serve.sctp.rto_min_ms`.
    RtoMinMs,
    /// `serve.sctp.rto_max_ms`.
    RtoMaxMs,
    /// `serve.sctp.init_tries`.
    InitTries,
    /// `serve.sctp.retransmissions`.
    Retransmissions,
    /// `serve.sctp.heartbeat_ms`.
    HeartbeatMs,
    /// `serve.page_open`.
    PageOpen,
    /// `serve.page`.
    Page,
    /// `serve.log_times`.
    LogTimes,
    /// `serve.log_least`.
    LogLeast,
    /// `serve.log_form`.
    LogForm,
    /// `link[i].listen`.
    LinkListen(usize),
    /// `link[i].from`.
    LinkFrom(usize),
    /// `link[i].connect`.
    LinkConnect(usize),
    /// `link[i].remote`.
    LinkRemote(usize),
    /// `link[i].sctp_port`.
    LinkSctpPort(usize),
    /// `link[i].remote_sctp_port`.
    LinkRemoteSctpPort(usize),
    /// `link[i].tries`.
    LinkTries(usize),
    /// `link[i].remote_port_fixed`.
    LinkRemotePortFixed(usize),
    /// `link[i].addresses`.
    LinkAddresses(usize),
}

impl fmt::Display for ServeKey {
    ghost output = { λ key. Some (key_path key) };

    fn fmt<W: fmt::Write>(&self, f: &mut fmt::Formatter<W>) -> fmt::Result {
        let KeyRow {
            front,
            entry,
            name,
            ..
        } = key_row(*self);
        match (entry, name) {
            (None, _) => f.write_str(front),
            (Some(i), "") => write!(f, "{front}[{i}]"),
            (Some(i), name) => write!(f, "{front}[{i}].{name}"),
        }
    }
}
