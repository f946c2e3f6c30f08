//! Which notices are new, which flags rose, and which links failed.

ghost use Rattle.std.specs.Prelude.{◌≡◌, ◌==◌, if◌then◌else◌, None, Some};

use exchange::{Exchange, LinkStanding, NewNotices};
use settings::{Limits, LinkId};

/// What was last seen of a node: how many notices there were, how often its flags were raised, and which links weren't
/// down.
#[derive(Drop)]
pub(crate) struct Seen {
    notices: u64,
    pub(crate) times_lost: u64,
    pub(crate) times_late: u64,
    links: [SeenLink; Limits::LINKS],
}

/// What was last seen of a link: whether it wasn't down, and whether it failed between the last look and the one
/// before.
#[derive(Clone, Copy)]
struct SeenLink {
    is_up: bool,
    fell: bool,
}

impl Seen {
    /// Nothing was seen yet: a node has no notice at first, no flag is raised, and its links are down.
    pub(crate) fn new() -> Seen {
        Seen {
            notices: 0,
            times_lost: 0,
            times_late: 0,
            links: [SeenLink {
                is_up: false,
                fell: false,
            }; Limits::LINKS],
        }
    }

    /// Whether no notice is new since the last look.
    pub(crate) fn has_all(&self, exchange: &Exchange) -> bool {
        exchange.notice_count() == self.notices
    }

    /// A link is up now; the next look counts it as failed if it is down by then.
    pub(crate) fn note_up(&mut self, exchange: &Exchange) {
        for (k, link) in self.links.iter_mut().enumerate() {
            link.is_up = link.is_up || is_up(exchange, LinkId::new(k as u8));
        }
    }

    /// The notices that are new since the last look.
    pub(crate) fn look(&mut self, exchange: &Exchange) -> NewNotices {
        let new = exchange.notices_since(self.notices);
        self.notices = exchange.notice_count();
        for (k, link) in self.links.iter_mut().enumerate() {
            let is_up = is_up(exchange, LinkId::new(k as u8));
            link.fell = link.is_up && !is_up;
            link.is_up = is_up;
        }
        new
    }

    /// Whether a link failed between the last look and the one before.
    pub(crate) fn fell(&self, link: LinkId) -> bool {
        match self.links.get(link.index()) {
            Some(link) => link.fell,
            None => false,
        }
    }
}

/// Whether a link is on its way into service, or in it.
fn is_up(exchange: &Exchange, link: LinkId) -> bool {
    match exchange.link(link) {
        Some(view) => view.standing != LinkStanding::Down,
        None => false,
    }
}

/// How often a flag was raised, if that is more than when this was last asked.
pub(crate) fn newly_raised(last: &mut u64, times: u64) -> Option<u64>
    ensures last { last.new ≡ times }
    ensures newly { result ≡ (if last.old == times then None else Some times) }
{
    let is_more = times != *last;
    *last = times;
    is_more.then_some(times)
}
