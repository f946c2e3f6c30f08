//! Events, calls and answers of an exchange.

use crate::frame_text::FrameText;
use arrayvec::ArrayVec;
use exchange_rules::Wants;
use sccp_relay::TitleKey;
use settings::{Limits, LinkId, MsuRef, Outcome, TitleRow};

/// Digits of a translation row, 0 to 15 each.
pub type TitleDigits = ArrayVec<u8, { Limits::TITLE_DIGITS }>;

/// An operator's order.
#[derive(Drop)]
pub enum Order {
    /// The link may open. With `emergency` it is proved for the emergency period each time that it opens, until the
    /// next order about it; that has no effect if the settings have no such period (`l4e`).
    Activate {
        /// The link.
        link: LinkId,
        /// Whether emergency proving is asked for.
        emergency: bool,
    },
    /// The link fails unless it is down, and can't open until it is activated.
    Deactivate(LinkId),
    /// The link may open, though the acknowledgement of its changeover order is awaited: it is awaited no more, and T2
    /// stops. Ignored if none is awaited, or if the changeover isn't complete yet.
    Release(LinkId),
    /// The translation row is added.
    AddTitle(TitleRow),
    /// The translation row replaces the one of its key and digits, or is added if there is none.
    SetTitle(TitleRow),
    /// The translation row of this key and these digits is removed.
    RemoveTitle(TitleKey, TitleDigits),
}

/// What happens to an exchange.
#[derive(Drop)]
pub enum Event<'a> {
    /// The association of a link is up. Refused LinkNotReady or ChangeoverPending if the link doesn't want Open.
    AssociationUp(LinkId),
    /// The association of a link is gone, whoever ended it. Ignored if the link has none.
    AssociationDown(LinkId),
    /// One whole frame, of any length, arrived on a link. Ignored while the link is down.
    Frame(LinkId, &'a [u8]),
    /// One tick passed: the unit of time in which the settings give their timers.
    Tick,
    /// A user part of this node submits a message, with its label; the octets are lent. Management and link tests are
    /// refused, and a field of more than 272 octets is refused TooLong.
    Submit(MsuRef<'a>),
    /// An operator gives an order.
    Order(Order),
}

/// One call of an exchange, in a list of calls.
#[derive(Drop)]
pub enum Call<'a> {
    /// Something happens.
    Step(Event<'a>),
    /// Fetch the next frame to go out on a link.
    Take(LinkId),
    /// Ask what a link wants.
    Wants(LinkId),
}

/// What an exchange answers to a call.
#[derive(Drop)]
pub enum Answer {
    /// The outcome of an event.
    Stepped(Outcome),
    /// The frame to go out, if there is one.
    Taken(Option<FrameText>),
    /// What the link wants.
    Wanted(Wants),
}
