//! One end of a link, and what is in flight to it.

use exchange::{FrameText, LinkId};
use std::alloc::Global;
use std::collections::VecDeque;
use std::marker::Model;

/// The place of the message type in a frame (RFC 4165 §2.1).
const MESSAGE_TYPE_PLACE: usize = 3;

/// The message type of Link Status (RFC 4165 §2.1.4).
const LINK_STATUS: u8 = 2;

/// One end of a link, and the link statuses and the User Data in flight to it, each in the order in which they went
/// out.
pub(crate) struct LinkEnd {
    /// The link.
    pub link: LinkId,
    statuses: VecDeque<FrameText>,
    user_data: VecDeque<FrameText>,
    /// Whether it may follow the other end.
    pub may_follow: bool,
    /// Whether it failed while no route led to its point, and no order went out since.
    pub unasked: bool,
}

impl Model for LinkEnd {
    ghost Value = { Unit {0} };

    ghost view = { λ _. tt };
}

// By hand, so that no proof above has what an end owns.
impl Drop for LinkEnd {
    fn drop(self) {
        let LinkEnd {
            link: _,
            statuses: _,
            user_data: _,
            may_follow: _,
            unasked: _,
        } = self;
    }
}

impl LinkEnd {
    /// An end of a link, with nothing in flight to it.
    pub(crate) fn new(alloc: Global, link: LinkId) -> LinkEnd {
        LinkEnd {
            link,
            statuses: VecDeque::new(alloc),
            user_data: VecDeque::new(alloc),
            may_follow: false,
            unasked: false,
        }
    }

    /// A frame is in flight to it, behind the others of its stream. Says whether there was memory for it.
    pub(crate) fn push(&mut self, text: FrameText) -> bool {
        if text.octets().get(MESSAGE_TYPE_PLACE) == Some(&LINK_STATUS) {
            self.statuses.push_back(text).is_ok()
        } else {
            self.user_data.push_back(text).is_ok()
        }
    }

    /// The first link status in flight to it, or else the first User Data.
    pub(crate) fn pop(&mut self, is_status: bool) -> Option<FrameText> {
        if is_status {
            self.statuses.pop_front()
        } else {
            self.user_data.pop_front()
        }
    }

    /// The first link status in flight to it is so twice. Says whether there is one, and memory for another.
    pub(crate) fn double_status(&mut self) -> bool {
        let Some(first) = self.statuses.front() else {
            return false;
        };
        let again = FrameText::new(first.octets());
        self.statuses.push_front(again).is_ok()
    }

    /// Nothing is in flight to it any more, and it may follow the other end, or not.
    pub(crate) fn clear(&mut self, may_follow: bool) {
        self.statuses.clear();
        self.user_data.clear();
        self.may_follow = may_follow;
        self.unasked = false;
    }
}
