//! The keys of a server: where each is, and what its value must be.

ghost use Rattle.std.specs.Prelude.{◌≡◌};
ghost use Rattle.settings_file.specs.Places.{row_place};
ghost use Rattle.settings_file.specs.ServeKeys.{key_place, key_name};

use crate::key_rows::{INTEGER, KeyRow, TABLE, TEXT, TEXTS, TRUTH, entry_key, lone_key};
use crate::serve::key::ServeKey;

const TICK: &str = "10 to 10000";

const CONSOLE: &str =
    "an address and a port from 1 on, as \"127.0.0.1:2900\", or the path of a socket, as \"/run/stp/console\"";

const INTEGER_OR_TEXT: &str = "an integer or a text";

const SIZE: &str = "2000000 to 1000000000000, or as \"100MB\"";

const FILES: &str = "2 to 1000";

const ADDRESS: &str = "an address and a port from 1 on, as \"127.0.0.1:2904\"";

const PAGE: &str = "an address and a port from 1 on, as \"127.0.0.1:8080\"";

const LOG_TIMES: &str = "\"seconds\" or \"utc\"";

const LOG_LEAST: &str = "\"debug\", \"info\", \"notice\" or \"warning\"";

const LOG_FORM: &str = "\"text\" or \"json\"";

const UDP: &str = "an address and a port from 1 on, as \"127.0.0.1:9899\"";

const ADDRESSES: &str = "at most eight addresses without a port, as \"192.0.2.1\", \
    none unspecified, multicast, broadcast, link-local or IPv4-mapped";

const HOST: &str = "an address without a port, as \"192.0.2.1\"";

const TIMEOUT: &str = "10 to 60000";

const INITIAL_TIMEOUT: &str = "10 to 60000, and from rto_min_ms to rto_max_ms";

const TRIES: &str = "1 to 100";

const SCTP_PORT: &str = "1 to 65535";

/// How a key is written in its table, or in its link.
#[tactic(auto, unfolding(crate::specs::ServeKeys::key_name))]
pub(crate) fn key_name(key: ServeKey) -> &'static str
    ensures { result.now ≡ key_name key }
{
    key_row(key).written()
}

pub(crate) fn key_row(key: ServeKey) -> KeyRow
    ensures { row_place result ≡ key_place key }
{
    match key {
        ServeKey::Serve => lone_key("serve", TABLE, ""),
        ServeKey::TickMs => lone_key("serve.tick_ms", INTEGER, TICK),
        ServeKey::Console => lone_key("serve.console", TEXT, CONSOLE),
        ServeKey::Capture => lone_key("serve.capture", TEXT, "the name of a file"),
        ServeKey::CaptureSize => lone_key("serve.capture_size", INTEGER_OR_TEXT, SIZE),
        ServeKey::CaptureFiles => lone_key("serve.capture_files", INTEGER, FILES),
        ServeKey::ConsoleOpen => lone_key("serve.console_open", TRUTH, ""),
        ServeKey::Points => lone_key("serve.points", TEXT, "\"3-8-3\""),
        ServeKey::Udp => lone_key("serve.udp", TEXT, UDP),
        ServeKey::Sctp => lone_key("serve.sctp", TABLE, ""),
        ServeKey::RtoInitialMs => lone_key("serve.sctp.rto_initial_ms", INTEGER, INITIAL_TIMEOUT),
        ServeKey::RtoMinMs => lone_key("serve.sctp.rto_min_ms", INTEGER, TIMEOUT),
        ServeKey::RtoMaxMs => lone_key("serve.sctp.rto_max_ms", INTEGER, TIMEOUT),
        ServeKey::InitTries => lone_key("serve.sctp.init_tries", INTEGER, TRIES),
        ServeKey::Retransmissions => lone_key("serve.sctp.retransmissions", INTEGER, TRIES),
        ServeKey::HeartbeatMs => lone_key("serve.sctp.heartbeat_ms", INTEGER, "100 to 600000"),
        ServeKey::PageOpen => lone_key("serve.page_open", TRUTH, ""),
        ServeKey::Page => lone_key("serve.page", TEXT, PAGE),
        ServeKey::LogTimes => lone_key("serve.log_times", TEXT, LOG_TIMES),
        ServeKey::LogLeast => lone_key("serve.log_least", TEXT, LOG_LEAST),
        ServeKey::LogForm => lone_key("serve.log_form", TEXT, LOG_FORM),
        ServeKey::LinkListen(i) => entry_key("link", i, "listen", TEXT, ADDRESS),
        ServeKey::LinkFrom(i) => entry_key("link", i, "from", TEXT, HOST),
        ServeKey::LinkConnect(i) => entry_key("link", i, "connect", TEXT, ADDRESS),
        ServeKey::LinkRemote(i) => entry_key("link", i, "remote", TEXT, UDP),
        ServeKey::LinkSctpPort(i) => entry_key("link", i, "sctp_port", INTEGER, SCTP_PORT),
        ServeKey::LinkRemoteSctpPort(i) => {
            entry_key("link", i, "remote_sctp_port", INTEGER, SCTP_PORT)
        }
        ServeKey::LinkTries(i) => entry_key("link", i, "tries", TRUTH, ""),
        ServeKey::LinkRemotePortFixed(i) => entry_key("link", i, "remote_port_fixed", TRUTH, ""),
        ServeKey::LinkAddresses(i) => entry_key("link", i, "addresses", TEXTS, ADDRESSES),
    }
}
