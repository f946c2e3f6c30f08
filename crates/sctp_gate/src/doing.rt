//! What is done at an endpoint.

ghost use Rattle.std.specs.Prelude.{◌≡◌, ◌<◌, ◌≤◌, ◌^◌};
ghost use Rattle.sctp_endpoint.specs.Endpoints.{Does};
ghost use Rattle.sctp_gate.specs.Doing.{done_by};

use sctp_endpoint::{Address, Endpoint, Watch};

/// What is done at an endpoint.
#[derive(Clone, Copy)]
pub(crate) enum Doing<'a> {
    /// A datagram came from an address.
    Hear(&'a [u8], Address),
    /// Time went by.
    Tick,
    /// An association is wanted, and whether this end tries to open it.
    Open(bool),
    /// The association, the try of one or the wish for one ends.
    Abort,
    /// Packets are asked for.
    Flush,
}

/// Does it, at a time in milliseconds.
pub(crate) fn perform<W: Watch>(endpoint: &mut Endpoint, what: Doing<'_>, now: u64, watch: &mut W)
    requires generation { endpoint.old.state.generation < 2 ^ 63 }
    requires nonces { endpoint.old.state.nonces < 2 ^ 63 }
    requires now { now ≤ 2 ^ 63 }
    ensures { Does W.has watch.old watch.new endpoint.old endpoint.new (done_by what.entry now endpoint.old) }
{
    match what {
        Doing::Hear(octets, source) => endpoint.hear(octets, &source, now, watch),
        Doing::Tick => endpoint.tick(now, watch),
        Doing::Open(is_active) => endpoint.open(is_active, now, watch),
        Doing::Abort => endpoint.abort(watch),
        Doing::Flush => endpoint.flush(now, watch),
    }
}
