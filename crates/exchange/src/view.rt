//! What an exchange shows of its links and its routes.

ghost use Rattle.std.specs.Prelude.{◌≡◌};
ghost use Rattle.exchange.specs.Views.{standing_name, standing_of, status_shown};

use arrayvec::ArrayVec;
use link::Alignment;
use routes::{Route, RouteStatus};
use settings::{PointCode, SetId};
use signalling_types::Number24;

/// How far a link is on its way into service (Q.703 §7, RFC 4165 §4.1.3), without what it remembers there.
#[derive(Clone, Copy, PartialEq, Eq)]
pub enum LinkStanding {
    /// The link is out of use.
    Down,
    /// An association is there, and the peer isn't aligned yet.
    NotAligned,
    /// The peer is aligned too; proving comes next.
    Aligned,
    /// The link is proving.
    Proving,
    /// The link is proved, and the peer isn't ready yet.
    AlignedReady,
    /// The link is in service. It carries user messages, unless it waits for its first test.
    InService,
}

impl LinkStanding {
    /// Where a link of this alignment stands.
    pub(crate) fn of(alignment: Alignment) -> LinkStanding
        ensures { result ≡ standing_of alignment }
    {
        match alignment {
            Alignment::Down => LinkStanding::Down,
            Alignment::NotAligned => LinkStanding::NotAligned,
            Alignment::Aligned => LinkStanding::Aligned,
            Alignment::Proving { .. } => LinkStanding::Proving,
            Alignment::AlignedReady => LinkStanding::AlignedReady,
            Alignment::InService => LinkStanding::InService,
        }
    }

    /// The standing's name, as texts print it.
    pub fn name(self) -> &'static str
        ensures { result.now ≡ standing_name self }
    {
        match self {
            LinkStanding::Down => "Down",
            LinkStanding::NotAligned => "NotAligned",
            LinkStanding::Aligned => "Aligned",
            LinkStanding::Proving => "Proving",
            LinkStanding::AlignedReady => "AlignedReady",
            LinkStanding::InService => "InService",
        }
    }
}

/// What keeps a link that is in service from carrying user messages.
#[derive(Clone, Copy, Debug, PartialEq, Eq)]
pub enum Obstacle {
    /// It hasn't passed its first test (Q.707 §2.2).
    Untested,
    /// The peer's processor is out (RFC 4165 §4.1.4).
    PeerOutage,
    /// The peer is busy (RFC 4165 §4.1.5).
    PeerBusy,
}

/// A link as it is shown.
#[derive(Clone, Copy, PartialEq, Eq)]
pub struct LinkView {
    /// Where it stands on its way into service.
    pub standing: LinkStanding,
    /// How many messages of its queue aren't confirmed, sent or not.
    pub waiting: usize,
    /// The number of the last message that was sent; 16,777,215 before the first.
    pub last_sent: Number24,
    /// The number of the last message that was accepted; 16,777,215 before the first.
    pub last_accepted: Number24,
}

/// The notices that a reader hasn't seen.
#[derive(Clone, Copy, PartialEq, Eq)]
pub struct NewNotices {
    /// How many of them are kept: the last ones of all that are.
    pub kept: usize,
    /// How many are no longer kept.
    pub missed: u64,
}

/// A destination as it is shown, with the sets that messages take to it (Q.704 §3.4).
#[derive(Drop)]
pub struct RouteView {
    /// Its point code.
    pub point: PointCode,
    /// The sets that messages take, in the order of the settings; none if no route is open, two if two joined sets are.
    pub sets: ArrayVec<SetId, 2>,
    /// Allowed or restricted, as the routes over these sets are; Prohibited if no route is open.
    pub status: RouteStatus,
}

/// The status of the routes that messages take.
pub(crate) fn status_shown(routes: &[Route]) -> RouteStatus
    ensures { result ≡ status_shown routes.now }
{
    match routes.first() {
        Some(first) => first.status,
        None => RouteStatus::Prohibited,
    }
}
