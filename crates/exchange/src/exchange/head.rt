//! What is read of a message in a list.

ghost use Rattle.std.specs.Prelude.{◌≡◌, ◌<◌, length, slice_get};
ghost use Rattle.std.specs.Option.{option_map};
ghost use Rattle.cell_pool.specs.Lanes.{lane_at};
ghost use Rattle.exchange.specs.KeptQueues.{kept, link_lane};
ghost use Rattle.exchange.specs.Head.{head_of};

use super::Exchange;
use super::lanes::{HELD, lane_of};
use cell_pool::{CellPool, Lanes};
use mtp3_codec::Label;
use settings::{LinkId, Msu};

/// What is read of a message that is in a list: its label, and whether it is a management message.
#[derive(Clone, Copy)]
pub(super) struct Head {
    /// Where it goes, where it comes from, and how it chooses its link.
    pub(super) label: Label,
    /// Whether it is a management or test message.
    pub(super) is_management: bool,
}

impl Head {
    /// What is read of this message.
    fn of(message: &Msu) -> Head
        ensures { result ≡ head_of message.now }
    {
        Head {
            label: Label::at(message.sif()),
            is_management: message.is_management(),
        }
    }
}

impl Exchange {
    /// What is read of the first message of Held, if there is one.
    pub(super) fn held_head(&self) -> Option<Head>
        ensures { result ≡ option_map head_of (slice_get (kept.held self.now.node.queues) 0) }
    {
        head_in(&self.lanes, HELD, 0)
    }

    /// What is read of the message at an index of a link's list, if there is one.
    pub(super) fn head_at(&self, link: LinkId, place: usize) -> Option<Head>
        requires { link < length self.now.settings.links }
        ensures { result ≡ option_map head_of (slice_get (link_lane self.now.node.queues link) place) }
    {
        head_in(&self.lanes, lane_of(link), place)
    }
}

/// What is read of the message at an index of a list, if there is one.
#[inline(always)]
fn head_in(lanes: &CellPool, lane: usize, place: usize) -> Option<Head>
    requires { lane < length lanes.now.lists }
    ensures { result ≡ option_map head_of (slice_get (lane_at lanes.now.lists lane) place) }
{
    match lanes.get(lane, place) {
        Some(message) => Some(Head::of(message)),
        None => None,
    }
}
