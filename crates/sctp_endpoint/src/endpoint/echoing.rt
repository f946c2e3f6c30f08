//! COOKIE ACK that comes, and how an association opens (RFC 9260 §5.1).

ghost use Rattle.std.specs.Prelude.{◌≡◌, ◌<◌, ◌≤◌, ◌^◌, ◌-◌};
ghost use Rattle.sctp_rules.specs.Opening.{opened, heard_cookie_ack};
ghost use Rattle.sctp_bundling.specs.Settings.{address_of};
ghost use Rattle.sctp_endpoint.specs.Inside.{peer_of};
ghost use Rattle.sctp_endpoint.specs.Endpoints.{Does};

use crate::endpoint::Endpoint;
use crate::peer::{Names, Peer};
use sctp_bundling::{Address, Event, Watch};
use sctp_rules::Phase;
use sctp_rules::limits::STREAMS;

impl Endpoint {
    /// COOKIE ACK came: if it is waited for, the association is there.
    pub(super) fn hear_cookie_ack<W: Watch>(&mut self, now: u64, watch: &mut W)
        requires generation { self.old.state.generation < 2 ^ 64 - 1 }
        requires now { now ≤ 2 ^ 63 }
        ensures { Does W.has watch.old watch.new self.old self.new
            (heard_cookie_ack self.old.settings now self.old.state) }
    {
        if let Phase::CookieEchoed = self.phase {
            let names = Names {
                own_tag: self.own_tag,
                far_tag: self.far_tag,
                own_first: self.own_first,
            };
            let peer = self.peer;
            let address = self.address;
            self.open_with(names, peer, &address, now, watch);
        }
    }

    /// The association is there: all but its names is new, and the user is told.
    pub(super) fn open_with<W: Watch>(
        &mut self,
        names: Names,
        peer: Peer,
        address: &Address,
        now: u64,
        watch: &mut W,
    )
        requires generation { self.old.state.generation < 2 ^ 64 - 1 }
        requires now { now ≤ 2 ^ 63 }
        ensures { Does W.has watch.old watch.new self.old self.new
            (opened self.old.settings now names.own_tag names.far_tag names.own_first (peer_of peer)
            (address_of address.now) self.old.state) }
    {
        self.forget();
        self.generation += 1;
        self.phase = Phase::Established;
        self.is_up = true;
        self.own_tag = names.own_tag;
        self.far_tag = names.far_tag;
        self.own_first = names.own_first;
        self.peer = peer;
        self.address = *address;
        self.sender
            .begin(self.settings.bounds, names.own_first, peer.window);
        self.receiver.begin(STREAMS, peer.first);
        let first_wait = u64::from(self.settings.heartbeat)
            + u64::from(self.settings.bounds.initial);
        self.beat_due = Some(now + first_wait);
        watch.tell(&Event::Up);
    }
}
