//! What is done at one node, and what came of it.

use super::joining::Place;
use exchange::{Msu, Outcome, TitleDigits, TitleKey, TitleRow};

/// What is done about a link at one of its ends.
#[derive(Clone, Copy, PartialEq, Eq)]
pub(crate) enum Deed {
    /// The next frame is fetched. It is then in flight to the other end of the link, on the stream of link statuses or
    /// on that of User Data (RFC 4165 §4.1.2). Ignored where there is none.
    Take,
    /// The next User Data in flight to this end is handed in. Ignored where there is none.
    Deliver,
    /// The next link status in flight to this end is handed in, is lost on its way, or comes twice. Ignored where there
    /// is none.
    DeliverStatus,
    LoseStatus,
    DoubleStatus,
    /// The node loses the association of the link; what is in flight stays so.
    Lose,
    /// So it does, and the link may not follow its other end any more.
    Fall,
    /// The operator lets the link open, and asks for no emergency proving.
    Activate,
    /// The operator keeps the link from opening; it fails if it isn't down.
    Deactivate,
    /// The link opens, before it opens at its other end: nothing is in flight on it then, and from now on the other end
    /// may follow. Ignored unless the node wants the link to open, and it may open at the other end: it is down there,
    /// its changeover is complete, and no answer is awaited. It may be deactivated there, or still have its
    /// association.
    OpenFirst,
    /// The link opens, where it may follow its other end. The other may have failed since it opened; but if it opened
    /// first again, this is about that. Ignored unless the link may follow, and the node wants it to open.
    OpenSecond,
}

/// What is done at one node of a network.
#[derive(Drop)]
pub(crate) enum Doing {
    /// A user part hands a message over.
    Submit(Msu),
    /// A tick passes.
    Tick,
    /// The operator adds a translation row.
    AddTitle(TitleRow),
    /// The operator removes the translation row of this key and these digits.
    RemoveTitle(TitleKey, TitleDigits),
    /// Something is done about a link.
    Link(Deed, Place),
}

/// Whether something was done.
pub(super) fn done(is_done: bool) -> Outcome {
    if is_done {
        Outcome::Handled
    } else {
        Outcome::Ignored
    }
}

/// Whether an outcome says that a message was queued or is held.
pub(super) fn is_accepted(outcome: &Outcome) -> bool {
    matches!(outcome, Outcome::Queued(_) | Outcome::Held)
}
