//! What an alignment is told, and what it does.

ghost use Rattle.std.specs.Prelude.{◌≡◌, true};

use crate::alignment::Alignment;
use crate::period::Period;
use m2pa_codec::LinkStatus;

/// The timers of one link (Q.703 §12.3).
#[derive(Clone, Copy, Debug, PartialEq, Eq)]
pub enum LinkTimer {
    /// The link waits, aligned and ready, for its peer.
    L1,
    /// The link waits for its peer to align.
    L2,
    /// The aligned link waits for its peer to prove.
    L3,
    /// The link is proved.
    L4,
    /// The peer is busy.
    L6,
    /// A sent message waits for its confirmation.
    L7,
}

/// What happens to a link.
#[derive(Clone, Copy, Debug, PartialEq, Eq)]
pub enum Input {
    /// A Link Status came, with any numbers.
    Status(LinkStatus),
    /// User Data came.
    UserData,
    /// A timer of the link ran out.
    Expiry(LinkTimer),
}

/// What a link does about an input.
#[derive(Clone, Copy, Debug, PartialEq, Eq)]
pub enum Action {
    /// Nothing: the input changes nothing.
    Ignored,
    /// The link fails.
    Fail,
    /// The link goes on, in the state that the transition names.
    Go(Transition),
}

/// A step of a link, to be carried out in the order of the fields.
#[derive(Clone, Copy, Debug, PartialEq, Eq)]
pub struct Transition {
    /// The state afterwards.
    pub state: Alignment,
    /// How long the link is proved from then on.
    pub period: Period,
    /// The timer that stops, if one does: that of the state before, if the link enters another.
    pub stop: Option<LinkTimer>,
    /// Whether the statuses that wait to go out are dropped.
    pub anew: bool,
    /// The status that is sent, if one is.
    pub send: Option<LinkStatus>,
    /// The timer that starts, if one does.
    pub start: Option<LinkTimer>,
    /// Whether the rules of a link in service then handle the input.
    pub serve: bool,
}

impl Transition {
    /// The same step, with the rules of a link in service handling the input after it.
    pub(crate) fn then_serve(self) -> Transition
        ensures { result ≡ record self { serve = true } }
    {
        Transition {
            serve: true,
            ..self
        }
    }

    /// The same step, with the statuses that wait dropped before it.
    pub(crate) fn begin_anew(self) -> Transition
        ensures { result ≡ record self { anew = true } }
    {
        Transition { anew: true, ..self }
    }
}
