//! What is done at one node.

use exchange::{TitleDigits, TitleKey};
use settings::{LinkId, Msu, TitleRow};

/// What is done at one node of a network.
#[derive(Drop)]
pub enum Doing {
    /// A user part hands a message over.
    Submit(Msu),
    /// The next frame of a link is fetched. It is then in flight to the other end of the link, on the stream of link
    /// statuses or on that of User Data (RFC 4165 §4.1.2). Ignored where there is none. One of a link that leads out of
    /// the network is gone: `Network::send_outside` gives it to the caller.
    Take(LinkId),
    /// The next User Data in flight on a link to the node is handed in. Ignored where there is none.
    Deliver(LinkId),
    /// The next link status in flight on a link to the node is handed in. Ignored where there is none.
    DeliverStatus(LinkId),
    /// The next link status in flight on a link to the node is lost on its way. Ignored where there is none.
    LoseStatus(LinkId),
    /// The next link status in flight on a link to the node comes twice. Ignored where there is none.
    DoubleStatus(LinkId),
    /// The node loses the association of a link; what is in flight stays so.
    Lose(LinkId),
    /// A tick passes.
    Tick,
    /// The operator lets a link open.
    Activate {
        /// The link.
        link: LinkId,
        /// Whether emergency proving is asked for.
        emergency: bool,
    },
    /// The operator keeps a link from opening; it fails if it isn't down.
    Deactivate(LinkId),
    /// The operator lets a link open, though the answer to its changeover order is awaited. Ignored if none is awaited,
    /// or if the changeover isn't complete yet.
    Release(LinkId),
    /// The operator adds a translation row. Refused DuplicateRow where there is one with its key and digits, else
    /// TableFull, else NoMemory where memory for it is refused.
    AddTitle(TitleRow),
    /// The operator sets a translation row: it replaces the one with its key and digits, or is added where there is none.
    /// Refused then TableFull, else NoMemory where memory for it is refused.
    SetTitle(TitleRow),
    /// The operator removes the translation row of this key and these digits.
    RemoveTitle(TitleKey, TitleDigits),
    /// A link opens, before it opens at its other end: nothing is in flight on it then, and from now on the other end
    /// may follow. Ignored unless the node wants the link to open, and it may open at the other end: it is down there,
    /// its changeover is complete, and no answer is awaited. It may be deactivated there, or still have its
    /// association.
    OpenFirst(LinkId),
    /// A link opens that may follow its other end. The other may have failed since it opened; but if it opened first
    /// again, this is about that. Ignored unless the link may follow, and the node wants it to open.
    OpenSecond(LinkId),
}

/// What is done at one node of a network, and reaches the other end of a link.
#[derive(Clone, Copy)]
pub(crate) enum Reach {
    /// The next frame of the link is fetched.
    Fetch,
    /// The link opens first.
    Open,
}
