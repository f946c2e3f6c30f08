//! All links over SCTP.

ghost use Rattle.std.specs.Prelude.{◌≡◌, ◌<◌, ◌≤◌, ℕ, IfSome, None, OnErr, OnOk, Some, length, true};
ghost use Rattle.std.specs.Prelude.{slice_get, slice_set};
ghost use Rattle.exchange.specs.KeptQueues.{kept};
ghost use Rattle.served_link.specs.Counting.{DatagramCame, StrangerCame, counted_datagram};
ghost use Rattle.sctp_links.specs.Counting.{counted_hearing};
ghost use Rattle.sctp_links.specs.Hosts.{address_of};
ghost use Rattle.sctp_links.specs.Links.{Link, no_links, with_link};
ghost use Rattle.sctp_links.specs.Peers.{link_of};
ghost use Rattle.sctp_links.specs.Screening.{did_at, heard_link, is_left_out, screened};
ghost use Rattle.served_link.specs.Times.{millis_of};

use crate::calling::{GateCall, SctpLink};
use crate::endpoint_settings::{peer_of, settings_of};
use crate::hosts::address_of;
use crate::keys::Keys;
use crate::observer::Datagrams;
use crate::peers::{Peer, link_of};
use script::Sink;
use sctp_gate::Gate;
use served_link::Watch;
use served_link::times::millis;
use served_node::{Log, Node};
use settings::LinkId;
use settings_file::serve::{Remote, SctpTimes};
use std::alloc::{AllocError, Global};
use std::marker::Model;
use std::net::SocketAddr;
use std::time::Duration;

/// The links of a node over SCTP, without a socket.
#[derive(Drop)]
pub struct SctpLinks {
    peers: Vec<Peer>,
    pub(crate) links: Vec<SctpLink>,
}

impl Model for SctpLinks {
    ghost use Rattle.std.specs.Prelude.{◌≡◌, length};
    ghost use Rattle.sctp_links.specs.Links.{Links};

    ghost Value = { Links };

    ghost view = { λ l. record { peers = l.peers.items; links = l.links.items } };

    ghost invariant = { λ l. length l.peers.items ≡ length l.links.items };
}

impl SctpLinks {
    /// No link yet.
    pub fn new(alloc: Global) -> SctpLinks
        ensures { result ≡ no_links }
    {
        SctpLinks {
            peers: Vec::new(alloc),
            links: Vec::new(alloc),
        }
    }

    /// Adds a link. The error means that memory ran out; then nothing has changed.
    pub fn add(
        &mut self,
        alloc: Global,
        link: LinkId,
        remote: &Remote,
        times: &SctpTimes,
        keys: &Keys,
    ) -> Result<(), AllocError>
        requires initial { times.now.rto_initial_ms ≤ times.now.rto_max_ms }
        requires least { times.now.rto_min_ms ≤ times.now.rto_max_ms }
        requires most { times.now.rto_max_ms ≤ 60000 }
        ensures added { OnOk result (self.new ≡ with_link link remote.now times.now keys.now self.old) }
        ensures unchanged { OnErr result (self.new ≡ self.old) }
    {
        self.peers.reserve(1)?;
        self.links.reserve(1)?;
        let settings = settings_of(remote, times);
        let gate = Gate::new(alloc, link, remote.tries, settings, keys.tags, keys.cookies)?;
        self.peers.push_reserved(peer_of(remote));
        self.links.push_reserved(SctpLink::new(remote, gate));
        Ok(())
    }

    /// A datagram came. The gate of its link hears it; one that belongs to no link changes nothing, and is counted.
    /// Call the node's `look` after it, to tell what is new in the node.
    pub fn hear<D: Datagrams, W: Sink, U: Watch>(
        &mut self,
        octets: &[u8],
        source: SocketAddr,
        node: &mut Node,
        datagrams: &mut D,
        log: &mut Log<'_, W>,
        user: &mut U,
    )
        // A stranger's datagram changes nothing, and nothing goes out for it.
        ensures stranger { link_of self.old.peers (address_of source).host octets.now ≡ None
            → (self.new ≡ self.old) × (node.new.exchange ≡ node.old.exchange) × (datagrams.new ≡ datagrams.old)
            × (node.new.observers.counters ≡ counted_datagram StrangerCame node.old.observers.counters) }
        // Each place that it is for is that of a link.
        ensures place { IfSome (link_of self.old.peers (address_of source).host octets.now)
            (λ place. place < length self.old.links) }
        // Of the links its own alone changes, by what it is: what is left out changes no gate, and nothing goes out.
        ensures link { (place : ℕ) (l : Link) →
            link_of self.old.peers (address_of source).host octets.now ≡ Some place
            → slice_get self.old.links place ≡ Some l
            → (self.new ≡ record self.old {
              links = slice_set self.old.links place
                  (heard_link kept (millis_of log.old.now) octets.now source l node.old.exchange);
            })
            × (node.new.exchange ≡ (did_at kept (millis_of log.old.now) octets.now source l node.old.exchange).exchange)
            × (is_left_out (screened (millis_of log.old.now) octets.now source l) ≡ true
            → datagrams.new ≡ datagrams.old) }
        // It is counted, and so is what is refused or left out, and what passes the gate.
        ensures counters { (place : ℕ) (l : Link) →
            link_of self.old.peers (address_of source).host octets.now ≡ Some place
            → slice_get self.old.links place ≡ Some l
            → node.new.observers.counters ≡ counted_hearing kept (millis_of log.old.now) octets.now source l
            node.old.exchange (counted_datagram DatagramCame node.old.observers.counters) }
    {
        let Some(place) = link_of(&self.peers, &address_of(source), octets) else {
            node.observers.stranger_came();
            return;
        };
        if let Some(link) = self.links.get_mut(place) {
            node.observers.datagram_came(link.gate.link(), octets);
            link.hear(octets, source, node, datagrams, log, user);
        }
    }

    /// The timers that are due run out, and each endpoint does what its link wants.
    pub fn settle<D: Datagrams, W: Sink, U: Watch>(
        &mut self,
        node: &mut Node,
        datagrams: &mut D,
        log: &mut Log<'_, W>,
        user: &mut U,
    ) {
        let now = millis(log.now);
        for link in self.links.iter_mut() {
            let call = if is_due(link, now) {
                GateCall::Tick
            } else {
                GateCall::Settle
            };
            link.call(call, node, datagrams, log, user);
            link.tell_refusals(node, log);
        }
    }

    /// Takes frames of each link, and puts them out.
    pub fn fill<D: Datagrams, W: Sink, U: Watch>(
        &mut self,
        node: &mut Node,
        datagrams: &mut D,
        log: &mut Log<'_, W>,
        user: &mut U,
    ) {
        for link in self.links.iter_mut() {
            link.call(GateCall::Fill, node, datagrams, log, user);
        }
    }

    /// Each association ends by ABORT.
    pub fn close<D: Datagrams, W: Sink, U: Watch>(
        &mut self,
        node: &mut Node,
        datagrams: &mut D,
        log: &mut Log<'_, W>,
        user: &mut U,
    ) {
        for link in self.links.iter_mut() {
            link.call(GateCall::Close, node, datagrams, log, user);
        }
    }

    /// How long it takes until a timer is due, or a try may begin.
    pub fn until_due(&self, now: Duration) -> Duration {
        let mut least = Duration::MAX;
        for link in self.links.iter() {
            if let Some(moment) = link.deadline() {
                least = least.min(Duration::from_millis(moment).saturating_sub(now));
            }
        }
        least
    }
}

/// Whether a timer of a link is due.
fn is_due(link: &SctpLink, now: u64) -> bool {
    match link.deadline() {
        Some(moment) => moment <= now,
        None => false,
    }
}
