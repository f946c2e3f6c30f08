//! The endpoint.

ghost use Rattle.std.specs.Prelude.{◌≡◌, ◌≤◌, ◌^◌, IfOk};
ghost use Rattle.sctp_rules.specs.State.{first_state, no_association, with_association};
ghost use Rattle.sctp_bundling.specs.Settings.{settings_of};

mod aborts;
mod answering;
mod beating;
mod bundling;
mod cookies;
mod data;
mod echoing;
mod ending;
mod flushing;
mod giving;
mod giving_up;
mod handling;
mod hearing;
mod heartbeats;
mod init_acks;
mod lasting;
mod opening;
mod out_of_the_blue;
mod refusing;
mod replying;
mod retrying;
mod sacking;
mod sacks;
mod sending;
mod shutting;
mod status;
mod ticking;
mod ties;
mod timing;
mod unknown;

use crate::beginnings::Beginnings;
use crate::peer::{Attempt, Beat, Peer};
use sctp_bundling::{Address, Chunks, Draft, Settings, Way};
use sctp_codec::Header;
use sctp_receiving::Receiver;
use sctp_receiving::limits::MESSAGE_OCTETS;
use sctp_rules::Phase;
use sctp_sending::Sender;
use std::alloc::{AllocError, Global};
use std::marker::Model;

/// Nothing is known of a peer.
const NO_PEER: Peer = Peer {
    first: 0,
    window: 0,
};

/// A packet that isn't written yet goes nowhere.
const NO_WAY: Way = Way {
    source: 0,
    destination: 0,
    tag: 0,
    to: Address {
        host: [0; 16],
        port: 0,
    },
};

/// Without an association there are no streams.
const NO_STREAMS: u16 = 0;

/// Octets of the keys of an endpoint.
pub const KEY_OCTETS: usize = 32;

/// One end of an association (RFC 9260): it has no socket, no clock and no thread. What comes and what the time is is
/// handed in; what goes out and what the user is told is handed to a `Watch`. `new` allocates all memory.
pub struct Endpoint {
    settings: Settings,
    beginnings: Beginnings,
    cookie_key: [u8; KEY_OCTETS],
    is_wanted: bool,
    generation: u64,
    nonces: u64,
    phase: Phase,
    is_up: bool,
    own_tag: u32,
    far_tag: u32,
    own_first: u32,
    peer: Peer,
    address: Address,
    control: Chunks,
    /// The packet that `flush` writes; it is out of its place meanwhile.
    draft: Option<Box<Draft>>,
    sender: Sender,
    receiver: Receiver,
    /// The octets of a message that was put together of several chunks.
    message: [u8; MESSAGE_OCTETS],
    is_sack_due: bool,
    tried: Chunks,
    attempt: Option<Attempt>,
    t2: Option<u64>,
    t5: Option<u64>,
    beat_due: Option<u64>,
    beat: Option<Beat>,
    failures: u32,
    /// That of the last packet that came.
    header: Header,
}

// By hand, so that no proof above has what an endpoint owns.
impl Drop for Endpoint {
    fn drop(self) {
        let Endpoint {
            settings: _,
            beginnings: _,
            cookie_key: _,
            is_wanted: _,
            generation: _,
            nonces: _,
            phase: _,
            is_up: _,
            own_tag: _,
            far_tag: _,
            own_first: _,
            peer: _,
            address: _,
            control: _,
            draft: _,
            sender: _,
            receiver: _,
            message: _,
            is_sack_due: _,
            tried: _,
            attempt: _,
            t2: _,
            t5: _,
            beat_due: _,
            beat: _,
            failures: _,
            header: _,
        } = self;
    }
}

impl Model for Endpoint {
    ghost use Rattle.sctp_endpoint.specs.Endpoints.{Endpoint};

    ghost Value = { Endpoint };

    ghost use Rattle.sctp_endpoint.specs.Inside.{endpoint_in, IsEndpoint};

    ghost view = { endpoint_in };

    ghost invariant = { IsEndpoint };
}

impl Endpoint {
    /// A new endpoint, without an association. Draw the keys for tags and cookies at random, no two of them the same.
    /// The error means that memory ran out.
    pub fn new(
        alloc: Global,
        settings: Settings,
        tag_key: [u8; KEY_OCTETS],
        cookie_key: [u8; KEY_OCTETS],
    ) -> Result<Endpoint, AllocError>
        requires initial { settings.bounds.initial ≤ settings.bounds.most }
        requires least { settings.bounds.least ≤ settings.bounds.most }
        requires most { settings.bounds.most ≤ 2 ^ 24 }
        ensures { IfOk result (λ e. e ≡ record {
          settings = settings_of settings;
          tag_key = tag_key;
          cookie_key = cookie_key;
          state = first_state (settings_of settings);
        }) }
    {
        Ok(Endpoint {
            settings,
            beginnings: Beginnings::new(tag_key),
            cookie_key,
            is_wanted: false,
            generation: 0,
            nonces: 0,
            phase: Phase::Closed,
            is_up: false,
            own_tag: 0,
            far_tag: 0,
            own_first: 0,
            peer: NO_PEER,
            address: settings.address,
            control: Chunks::new(),
            draft: Some(Box::new(alloc, Draft::new(NO_WAY))?),
            sender: Sender::new(alloc, settings.bounds)?,
            receiver: Receiver::new(alloc, NO_STREAMS, 0)?,
            message: [0; MESSAGE_OCTETS],
            is_sack_due: false,
            tried: Chunks::new(),
            attempt: None,
            t2: None,
            t5: None,
            beat_due: None,
            beat: None,
            failures: 0,
            header: Header::zeros(),
        })
    }

    /// There is no longer an association, nor the try of one.
    fn forget(&mut self)
        ensures { self.new ≡ record self.old {
          state = with_association self.old.state (no_association self.old.settings);
        } }
    {
        self.phase = Phase::Closed;
        self.is_up = false;
        self.own_tag = 0;
        self.far_tag = 0;
        self.own_first = 0;
        self.peer = NO_PEER;
        self.address = self.settings.address;
        self.control.clear();
        self.sender.begin(self.settings.bounds, 0, 0);
        self.receiver.begin(NO_STREAMS, 0);
        self.is_sack_due = false;
        self.attempt = None;
        self.t2 = None;
        self.t5 = None;
        self.beat_due = None;
        self.beat = None;
        self.failures = 0;
    }
}
