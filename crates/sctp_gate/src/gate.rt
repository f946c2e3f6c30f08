//! The gate.

ghost use Rattle.std.specs.Prelude.{◌≡◌, ◌≤◌, ◌<◌, ◌^◌, IfOk};
ghost use Rattle.sctp_codec.specs.Reading.{read_packet};
ghost use Rattle.sctp_bundling.specs.Settings.{settings_of, address_of};
ghost use Rattle.sctp_endpoint.specs.Endpoints.{secrets_of};
ghost use Rattle.sctp_endpoint.specs.Refusing.{refusal};
ghost use Rattle.exchange.specs.KeptQueues.{kept};
ghost use Rattle.exchange.specs.Calls.{StandsFor};
ghost use Rattle.exchange_rules.specs.Queues.{whole};
ghost use Rattle.exchange_rules.specs.First.{Abstract};
ghost use Rattle.sctp_gate.specs.Gates.{new_gate, settled, settled_by, aborted, wanted, heard, timed, due};
ghost use Rattle.sctp_gate.specs.Gates.{is_lasting, does, does_as, handed};
ghost use Rattle.exchange_rules.specs.declared.wants.Wants.TheVariants.{Nothing};
ghost use Rattle.sctp_gate.specs.Doing.{done_by};
ghost use Rattle.sctp_gate.specs.Making.{Makes, MakesWhole};

mod filling;
mod status;

use crate::bridge::do_and_hand_in;
use crate::doing::Doing;
use crate::standing::Standing;
use crate::watch::Watch;
use exchange::{Exchange, Wants};
use sctp_endpoint::endpoint::KEY_OCTETS;
use sctp_endpoint::{Address, Endpoint, Refusal, Settings};
use settings::LinkId;
use std::alloc::{AllocError, Global};
use std::marker::Model;

/// The latest time, in milliseconds.
const LATEST: u64 = 1 << 63;

/// The gate of a link: the SCTP endpoint of its association, whose events are handed in to the exchange, and through
/// which the link's frames go out. It has no socket and no clock. `new` allocates all memory.
///
/// The exchange is lent to each call, and what goes out is handed to a `Watch` as it is made. An association that is up
/// is that of the link; and the endpoint wants one, or tries to open one, only while the link wants Open.
pub struct Gate {
    link: LinkId,
    tries: bool,
    standing: Standing,
    endpoint: Endpoint,
}

// By hand, so that no proof above has what a gate owns.
impl Drop for Gate {
    fn drop(self) {
        let Gate {
            link: _,
            tries: _,
            standing: _,
            endpoint: _,
        } = self;
    }
}

impl Model for Gate {
    ghost use Rattle.sctp_gate.specs.Gates.{Gate};

    ghost Value = { Gate };

    ghost view = { λ g. record { link = g.link; tries = g.tries; standing = g.standing; endpoint = g.endpoint } };
}

impl Gate {
    /// A gate without an association. It tries to open one, or waits for its peer to do so. Draw the keys for tags and
    /// cookies at random, no two of them the same. The error means that memory ran out.
    pub fn new(
        alloc: Global,
        link: LinkId,
        tries: bool,
        settings: Settings,
        tag_key: [u8; KEY_OCTETS],
        cookie_key: [u8; KEY_OCTETS],
    ) -> Result<Gate, AllocError>
        requires initial { settings.bounds.initial ≤ settings.bounds.most }
        requires least { settings.bounds.least ≤ settings.bounds.most }
        requires most { settings.bounds.most ≤ 2 ^ 24 }
        ensures { IfOk result (λ g. g ≡ new_gate link tries (settings_of settings) tag_key cookie_key) }
    {
        let endpoint = Endpoint::new(alloc, settings, tag_key, cookie_key)?;
        Ok(Gate {
            link,
            tries,
            standing: Standing::new(),
            endpoint,
        })
    }

    /// A datagram came from an address: what the endpoint tells is handed in. An association that came up is
    /// AssociationUp, a message is a frame, and one that went down is AssociationDown, each once and in order. A
    /// message that isn't M2PA's by its payload protocol identifier is dropped, and the watch sees it.
    pub fn hear<W: Watch>(
        &mut self,
        exchange: &mut Exchange,
        octets: &[u8],
        source: &Address,
        now: u64,
        watch: &mut W,
    )
        ensures kept { Makes W.has watch.old watch.new self.new exchange.new
            (heard kept now (read_packet octets.now) (address_of source.now) self.old exchange.old) }
        ensures whole { (a : Abstract) → StandsFor exchange.old a → MakesWhole W.has watch.old watch.new self.new
            exchange.new (heard whole now (read_packet octets.now) (address_of source.now) self.old a) }
    {
        self.settle(exchange, now, watch);
        self.act(Doing::Hear(octets, *source), exchange, now, watch);
        self.settle(exchange, now, watch);
    }

    /// Time went by: the endpoint's timers that are due run out, and what it tells is handed in. Call it when
    /// `deadline` says so.
    pub fn tick<W: Watch>(&mut self, exchange: &mut Exchange, now: u64, watch: &mut W)
        ensures kept { Makes W.has watch.old watch.new self.new exchange.new (timed kept now self.old exchange.old) }
        ensures whole { (a : Abstract) → StandsFor exchange.old a → MakesWhole W.has watch.old watch.new self.new
            exchange.new (timed whole now self.old a) }
    {
        self.settle(exchange, now, watch);
        self.act(Doing::Tick, exchange, now, watch);
        self.settle(exchange, now, watch);
    }

    /// The endpoint is set to what the link wants. Close ends the association. Open wants one: this end waits for its
    /// peer and, if it is an end that tries and the wait after the last failed try is over, tries to open one. Nothing
    /// ends the try of one, and the wish for one. Call it after each event of the exchange.
    pub fn settle<W: Watch>(&mut self, exchange: &mut Exchange, now: u64, watch: &mut W)
        ensures kept { Makes W.has watch.old watch.new self.new exchange.new (settled kept now self.old exchange.old) }
        ensures whole { (a : Abstract) → StandsFor exchange.old a → MakesWhole W.has watch.old watch.new self.new
            exchange.new (settled whole now self.old a) }
    {
        self.do_as_link_wants(exchange, now, watch);
    }

    /// This end ends the association by ABORT, or the try of one, or the wish for one. A later call begins again, if
    /// the link wants that.
    pub fn close<W: Watch>(&mut self, exchange: &mut Exchange, now: u64, watch: &mut W)
        ensures kept { Makes W.has watch.old watch.new self.new exchange.new (aborted kept now self.old exchange.old) }
        ensures whole { (a : Abstract) → StandsFor exchange.old a → MakesWhole W.has watch.old watch.new self.new
            exchange.new (aborted whole now self.old a) }
    {
        self.abort(exchange, now, watch);
    }

    /// The same on what is kept.
    fn do_as_link_wants<W: Watch>(&mut self, exchange: &mut Exchange, now: u64, watch: &mut W)
        ensures { Makes W.has watch.old watch.new self.new exchange.new (settled kept now self.old exchange.old) }
    {
        match exchange.wants(self.link) {
            Wants::Close => self.abort(exchange, now, watch),
            Wants::Open => self.want(exchange, now, watch),
            Wants::Nothing => self.give_up(exchange, now, watch),
        }
    }

    /// The link wants an association, so it has none: one that is up isn't the link's, and ends.
    fn want<W: Watch>(&mut self, exchange: &mut Exchange, now: u64, watch: &mut W)
        ensures { Makes W.has watch.old watch.new self.new exchange.new (wanted kept now self.old exchange.old) }
    {
        if self.standing.is_up {
            self.abort(exchange, now, watch);
        } else {
            let is_active = self.tries && self.standing.due <= now;
            let standing = self.standing.seeking();
            self.act_as(standing, Doing::Open(is_active), exchange, now, watch);
        }
    }

    /// The link wants no association: the try of one, and the wish for one, end.
    fn give_up<W: Watch>(&mut self, exchange: &mut Exchange, now: u64, watch: &mut W)
        ensures { Makes W.has watch.old watch.new self.new exchange.new
            (settled_by kept now Nothing self.old exchange.old) }
    {
        if self.standing.is_seeking {
            self.abort(exchange, now, watch);
        }
    }

    /// The association, the try of one or the wish for one ends.
    fn abort<W: Watch>(&mut self, exchange: &mut Exchange, now: u64, watch: &mut W)
        ensures { Makes W.has watch.old watch.new self.new exchange.new (aborted kept now self.old exchange.old) }
    {
        self.act_as(self.standing.idle(), Doing::Abort, exchange, now, watch);
    }

    /// When to call `tick` or `settle` next, in milliseconds: when the endpoint's next timer runs out; or, while it
    /// waits for its peer, when a try may begin. None if there is nothing to wait for.
    pub fn deadline(&self) -> Option<u64>
        ensures { result ≡ due self.now }
    {
        match self.endpoint.deadline() {
            Some(moment) => Some(moment),
            None if self.tries && self.standing.is_seeking => Some(self.standing.due),
            None => None,
        }
    }

    /// The link.
    pub fn link(&self) -> LinkId
        ensures { result ≡ self.now.link }
    {
        self.link
    }

    /// The UDP port to which the packets of the association go.
    pub fn peer_port(&self) -> u16
        ensures { result ≡ self.now.endpoint.state.association.address.port }
    {
        self.endpoint.peer_port()
    }

    /// Why an INIT, or an INIT ACK for the try of this end, would be refused: `Endpoint::refusal`. Nothing changes.
    pub fn refusal(&self, octets: &[u8]) -> Option<Refusal>
        ensures { result ≡ refusal (read_packet octets.now) self.now.endpoint.settings (secrets_of self.now.endpoint)
            self.now.endpoint.state }
    {
        self.endpoint.refusal(octets)
    }

    /// Where the link stands with its association.
    pub fn standing(&self) -> Standing
        ensures { result ≡ self.now.standing }
    {
        self.standing
    }

    /// Does something at the endpoint, and hands in what it tells. Nothing is done later than 2^63 ms, nor at an
    /// endpoint that counted that far (`Endpoint::lasts`).
    fn act<W: Watch>(&mut self, what: Doing<'_>, exchange: &mut Exchange, now: u64, watch: &mut W)
        ensures { Makes W.has watch.old watch.new self.new exchange.new
            (does kept now (λ e. done_by what.entry now e) self.old exchange.old) }
    {
        if self.is_lasting(now) {
            self.act_through(what, exchange, now, watch);
        }
    }

    /// The same, and the link stands like this from then on.
    fn act_as<W: Watch>(
        &mut self,
        standing: Standing,
        what: Doing<'_>,
        exchange: &mut Exchange,
        now: u64,
        watch: &mut W,
    )
        ensures { Makes W.has watch.old watch.new self.new exchange.new
            (does_as kept now standing (λ e. done_by what.entry now e) self.old exchange.old) }
    {
        if self.is_lasting(now) {
            self.standing = standing;
            self.act_through(what, exchange, now, watch);
        }
    }

    /// Whether the endpoint still does something.
    fn is_lasting(&self, now: u64) -> bool
        ensures { result ≡ is_lasting now self.now.endpoint }
    {
        now <= LATEST && self.endpoint.lasts()
    }

    /// The same at one that lasts.
    fn act_through<W: Watch>(
        &mut self,
        what: Doing<'_>,
        exchange: &mut Exchange,
        now: u64,
        watch: &mut W,
    )
        requires generation { self.old.endpoint.state.generation < 2 ^ 63 }
        requires nonces { self.old.endpoint.state.nonces < 2 ^ 63 }
        requires now { now ≤ 2 ^ 63 }
        ensures { Makes W.has watch.old watch.new self.new exchange.new
            (handed kept now (done_by what.entry now self.old.endpoint) self.old exchange.old) }
    {
        do_and_hand_in(
            &mut self.endpoint,
            what,
            self.link,
            &mut self.standing,
            exchange,
            now,
            watch,
        );
    }
}
