//! What hands in what an endpoint tells, while the endpoint does something.

ghost use Rattle.std.specs.Prelude.{◌≡◌, ◌<◌, ◌≤◌, ◌^◌, ℕ, List, map};
ghost use Rattle.sctp_bundling.specs.Watching.{Sent, sent_as};
ghost use Rattle.sctp_gate.specs.Doing.{done_by};
ghost use Rattle.exchange.specs.KeptQueues.{kept};
ghost use Rattle.sctp_gate.specs.Handing.{after_told, sights_of};
ghost use Rattle.sctp_gate.specs.Making.{Beginning, HasHanded};
ghost use Rattle.sctp_gate.specs.Standing.{stands_after};
ghost use Rattle.sctp_gate.specs.Watching.{Sight, Gives};

use crate::doing::{Doing, perform};
use crate::handing::hand_in;
use crate::standing::Standing;
use crate::watch::Watch;
use exchange::Exchange;
use sctp_endpoint::{Address, Endpoint, Event, Watch as EndpointWatch};
use settings::LinkId;
use std::marker::{Brand, PhantomData};

/// What a bridge began with, only for proofs: a call picks it.
pub(crate) trait Origin {
    ghost is_from: { Beginning → Type 0 };

    ghost had: { List Sent → List Sight → Type 0 };

    ghost exchange_name: { ℕ };

    ghost watch_name: { ℕ };
}

impl Origin for Brand {
    ghost is_from = { λ _. Unit {0} };

    ghost had = { λ _ _. Unit {0} };

    ghost exchange_name = { 0 };

    ghost watch_name = { 0 };
}

/// An exchange and a watch, lent to an endpoint: each event that it tells is handed in at once.
#[derive(Drop)]
pub(crate) struct Bridge<'a, W, K> {
    pub(crate) link: LinkId,
    pub(crate) time: u64,
    pub(crate) standing: Standing,
    pub(crate) exchange: &'a mut Exchange,
    pub(crate) watch: &'a mut W,
    pub(crate) origin: PhantomData<K>,
}

impl<W: Watch, K: Origin> EndpointWatch for Bridge<'_, W, K> {
    // It is still what was lent, and all that was told was handed in.
    ghost has = { λ bridge sent told. (bridge.exchange.ghost_name ≡ K.exchange_name)
        × (bridge.watch.ghost_name ≡ K.watch_name)
        × ((b : Beginning) → K.is_from b → HasHanded W.has K.had b sent told
        (record { link = bridge.link; time = bridge.time; standing = bridge.standing; exchange = bridge.exchange.now })
        bridge.watch.now) };

    fn send(&mut self, octets: &[u8], to: &Address) {
        self.watch.send(octets, to);
    }

    fn tell(&mut self, event: &Event<'_>) {
        hand_in(self.link, event, self.exchange, self.watch);
        self.standing = self.standing.told(event, self.time);
    }
}

/// An endpoint does something, and what it tells is handed in. Where a link stands is kept up to date.
pub(crate) fn do_and_hand_in<W: Watch>(
    endpoint: &mut Endpoint,
    what: Doing<'_>,
    link: LinkId,
    standing: &mut Standing,
    exchange: &mut Exchange,
    now: u64,
    watch: &mut W,
)
    requires generation { endpoint.old.state.generation < 2 ^ 63 }
    requires nonces { endpoint.old.state.nonces < 2 ^ 63 }
    requires now { now ≤ 2 ^ 63 }
    ensures endpoint { endpoint.new ≡ record endpoint.old { state = (done_by what.entry now endpoint.old).left } }
    ensures standing { standing.new ≡ stands_after now (done_by what.entry now endpoint.old).told standing.old }
    ensures exchange { exchange.new ≡ after_told kept link (done_by what.entry now endpoint.old).told exchange.old }
    ensures seen { Gives W.has watch.old watch.new (map sent_as (done_by what.entry now endpoint.old).sent)
        (sights_of kept link (done_by what.entry now endpoint.old).told exchange.old) }
{
    let mut bridge: Bridge<'_, W, Brand> = Bridge {
        link,
        time: now,
        standing: *standing,
        exchange,
        watch,
        origin: PhantomData,
    };
    hand::<W, Brand>(endpoint, what, &mut bridge);
    *standing = bridge.standing;
}

/// The same through a bridge.
fn hand<W: Watch, K: Origin>(
    endpoint: &mut Endpoint,
    what: Doing<'_>,
    bridge: &mut Bridge<'_, W, K>,
)
    requires generation { endpoint.old.state.generation < 2 ^ 63 }
    requires nonces { endpoint.old.state.nonces < 2 ^ 63 }
    requires time { bridge.old.time ≤ 2 ^ 63 }
    requires exchange_name { bridge.old.exchange.ghost_name ≡ K.exchange_name }
    requires watch_name { bridge.old.watch.ghost_name ≡ K.watch_name }
    requires is_from { (b : Beginning) → K.is_from b → b ≡ record {
      link = bridge.old.link;
      time = bridge.old.time;
      standing = bridge.old.standing;
      exchange = bridge.old.exchange.now;
    } }
    requires began { K.is_from (record {
      link = bridge.old.link;
      time = bridge.old.time;
      standing = bridge.old.standing;
      exchange = bridge.old.exchange.now;
    }) }
    requires had { (sent : List Sent) (seen : List Sight) → K.had sent seen → W.has bridge.old.watch.now sent seen }
    requires has { (sent : List Sent) (seen : List Sight) → W.has bridge.old.watch.now sent seen → K.had sent seen }
    ensures same_exchange { bridge.new.exchange.ghost_name ≡ bridge.old.exchange.ghost_name }
    ensures same_watch { bridge.new.watch.ghost_name ≡ bridge.old.watch.ghost_name }
    ensures endpoint { endpoint.new ≡ record endpoint.old {
      state = (done_by what.entry bridge.old.time endpoint.old).left;
    } }
    ensures standing { bridge.new.standing
        ≡ stands_after bridge.old.time (done_by what.entry bridge.old.time endpoint.old).told bridge.old.standing }
    ensures exchange { bridge.new.exchange.now ≡ after_told kept bridge.old.link
        (done_by what.entry bridge.old.time endpoint.old).told bridge.old.exchange.now }
    ensures seen { Gives W.has bridge.old.watch.now bridge.new.watch.now
        (map sent_as (done_by what.entry bridge.old.time endpoint.old).sent) (sights_of kept bridge.old.link
        (done_by what.entry bridge.old.time endpoint.old).told bridge.old.exchange.now) }
{
    perform(endpoint, what, bridge.time, bridge);
}
