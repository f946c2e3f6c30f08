//! The settings of a server.

ghost use Rattle.std.specs.Prelude.{◌≡◌, ◌≤◌, true};
ghost use Rattle.std.specs.Option.{option_map};
ghost use Rattle.settings_file.specs.Consoles.{place_of};
ghost use Rattle.settings_file.specs.Endpoints.{listens_on, has_same_peer, have_source};

use crate::serve::capture::CaptureLimits;
use crate::serve::console_place::{ConsolePlace, KeptPlace};
use crate::serve::log_keys::LogSettings;
use crate::serve::sctp::{Remote, SctpTimes};
use settings::PointFormat;
use std::marker::Model;
use std::net::{IpAddr, SocketAddr};

/// How the association of a link comes about.
#[derive(Clone, Copy)]
pub enum Endpoint {
    /// The server takes connections at this address; if a host is named, only from there.
    Listen(SocketAddr, Option<IpAddr>),
    /// The server connects to this address.
    Connect(SocketAddr),
    /// The association is one of SCTP in UDP.
    Remote(Remote),
}

impl Endpoint {
    /// Whether the server listens on this address for the link.
    pub fn listens_on(self, address: SocketAddr) -> bool
        ensures { result ≡ listens_on address self }
    {
        match self {
            Endpoint::Listen(own, _) => own == address,
            Endpoint::Connect(_) | Endpoint::Remote(_) => false,
        }
    }

    /// Whether datagrams of this peer would be taken for those of the link: they may come from the same
    /// host, between the same SCTP ports.
    pub(crate) fn has_peer(self, remote: &Remote) -> bool
        ensures { result ≡ has_same_peer remote.now self }
    {
        match self {
            Endpoint::Remote(other) => {
                remote.shares_host(&other)
                    && remote.own_port == other.own_port
                    && remote.far_port == other.far_port
            }
            Endpoint::Listen(_, _) | Endpoint::Connect(_) => false,
        }
    }
}

/// The addresses that a server has itself, besides those at which its links listen.
#[derive(Clone, Copy)]
pub(crate) struct OwnAddresses {
    /// Where the console listens, if there is one over TCP.
    pub(crate) console: Option<SocketAddr>,
    /// Where the status page is, if there is one.
    pub(crate) page: Option<SocketAddr>,
    /// Where datagrams go out, if they do.
    pub(crate) udp: Option<SocketAddr>,
}

/// The settings of a server: the length of a tick, where its console is, the capture and the limits of its files, how it
/// shows point codes, where its datagrams go out and with which times, where its status page is, how its log is written,
/// and how the association of each link comes about.
#[derive(Drop)]
pub struct ServeSettings {
    pub(crate) tick_ms: u16,
    pub(crate) console: Option<KeptPlace>,
    pub(crate) capture: Option<String>,
    pub(crate) capture_limits: Option<CaptureLimits>,
    pub(crate) points: PointFormat,
    pub(crate) udp: Option<SocketAddr>,
    pub(crate) sctp: SctpTimes,
    pub(crate) is_page_open: bool,
    pub(crate) page: Option<SocketAddr>,
    pub(crate) log: LogSettings,
    pub(crate) links: Vec<Endpoint>,
}

impl Model for ServeSettings {
    ghost use Rattle.settings_file.specs.Served.{Served};

    ghost Value = { Served };

    ghost use Rattle.settings_file.specs.ServedInside.{served_of, IsSound};

    ghost view = { served_of };

    ghost invariant = { IsSound };
}

impl ServeSettings {
    /// How long a tick is, in milliseconds: 10 to 10,000.
    pub fn tick_ms(&self) -> u16
        ensures value { result ≡ self.now.tick_ms }
        ensures above { 10 ≤ result }
        ensures below { result ≤ 10000 }
    {
        self.tick_ms
    }

    /// Where the console is, if one is set.
    pub fn console(&self) -> Option<ConsolePlace<'_>>
        ensures { option_map place_of result ≡ self.now.console }
    {
        match &self.console {
            Some(KeptPlace::Tcp(address)) => Some(ConsolePlace::Tcp(*address)),
            Some(KeptPlace::Unix(path)) => Some(ConsolePlace::Unix(path.as_str())),
            None => None,
        }
    }

    /// The file that frames are captured to, if one is set.
    pub fn capture(&self) -> Option<&str>
        ensures { option_map (λ file. file.now) result ≡ self.now.capture }
    {
        self.capture.as_deref()
    }

    /// The limits of the files that the capture goes into, if they are a ring.
    pub fn capture_limits(&self) -> Option<CaptureLimits>
        ensures { result ≡ self.now.capture_limits }
    {
        self.capture_limits
    }

    /// How point codes are read and shown.
    pub fn points(&self) -> PointFormat
        ensures { result ≡ self.now.points }
    {
        self.points
    }

    /// The address and the UDP port of the node, for its links over SCTP. If there are any, it has one.
    pub fn udp(&self) -> Option<SocketAddr>
        ensures value { result ≡ self.now.udp }
        ensures source { have_source result self.now.links ≡ true }
    {
        self.udp
    }

    /// The times and tries of the associations of SCTP. Times are in milliseconds.
    pub fn sctp(&self) -> SctpTimes
        ensures value { result ≡ self.now.sctp }
        ensures least { 10 ≤ result.rto_min_ms }
        ensures initial_above { result.rto_min_ms ≤ result.rto_initial_ms }
        ensures initial_below { result.rto_initial_ms ≤ result.rto_max_ms }
        ensures most { result.rto_max_ms ≤ 60000 }
        ensures init_tries_above { 1 ≤ result.init_tries }
        ensures init_tries_below { result.init_tries ≤ 100 }
        ensures retransmissions_above { 1 ≤ result.retransmissions }
        ensures retransmissions_below { result.retransmissions ≤ 100 }
        ensures heartbeat_above { 100 ≤ result.heartbeat_ms }
        ensures heartbeat_below { result.heartbeat_ms ≤ 600000 }
    {
        self.sctp
    }

    /// The address of the status page, if one is set.
    pub fn page(&self) -> Option<SocketAddr>
        ensures { result ≡ self.now.page }
    {
        self.page
    }

    /// Whether the status page may be at an address that other machines reach.
    pub fn is_page_open(&self) -> bool
        ensures { result ≡ self.now.is_page_open }
    {
        self.is_page_open
    }

    /// How the log is written.
    pub fn log(&self) -> LogSettings
        ensures { result ≡ self.now.log }
    {
        self.log
    }

    /// How the association of each link comes about, in the order of the settings.
    pub fn links(&self) -> &[Endpoint]
        ensures { result.now ≡ self.now.links }
    {
        &self.links
    }
}
