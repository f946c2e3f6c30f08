//! What the peer answers: the declarations that the return of a link brings.

use super::Peer;
use crate::bench::incoming::{EMPTY_OCTETS, Incoming, LENGTH_AT};
use mtp3_codec::Management;
use settings::LinkId;

/// Where the heading of a management message is in its frame, after the label (Q.704 §15.1).
const HEADING_AT: usize = 22;

/// The heading of a changeback declaration (Q.704 §15.5).
const DECLARATION: u8 = 0x51;

/// Where its changeback code is, at the end of its frame.
const CODE_AT: usize = 23;

/// Octets of its frame.
const DECLARATION_OCTETS: u8 = 24;

impl Peer {
    /// Sends an answer on a link, and takes what acknowledges it: the next message, or else a frame without one.
    pub(crate) fn answer(&mut self, link: LinkId, message: &mut Incoming) {
        self.send(link, message);
        if self.take_frame(link) && self.buffer[LENGTH_AT] != EMPTY_OCTETS {
            self.count_message(link);
        }
    }

    /// Answers the declarations that the return of a link brings, on the first links, this many. At most one is on each
    /// other link of its set.
    pub(crate) fn answer_each(&mut self, links: u8, returned: LinkId) {
        for number in 0..links {
            let link = LinkId::new(number);
            if link != returned && self.take(link) {
                self.answer_declaration(link);
            }
        }
    }

    /// Answers the message that was taken last, which came by this link, if it is a declaration (Q.704 §15.5).
    fn answer_declaration(&mut self, link: LinkId) {
        let fits = self.buffer[LENGTH_AT] == DECLARATION_OCTETS;
        if fits && self.buffer[HEADING_AT] == DECLARATION {
            let code = self.buffer[CODE_AT];
            let answer = Management::ChangebackAcknowledgement(self.selection(), code);
            let mut answer = Incoming::with_management(answer);
            self.answer(link, &mut answer);
        }
    }
}
