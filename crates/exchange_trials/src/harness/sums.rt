//! What goes from one node of two to the other: what was accepted, what came, and what waits. Between any two steps, as
//! long as neither says that a message may be lost, as many were accepted at one as the other received, together with
//! those that wait: of all, of one flow, and of one message.

ghost use Rattle.std.specs.Prelude.{true, ◌&&◌, nat_eq};
ghost use Rattle.std.specs.Str.{bytes_eq};
ghost use Rattle.signalling_types.specs.Message.{dpc_of, sls_of};

use super::joining::Link;
use super::network::Network;
use super::site::Arrival;
use crate::harness::count;
use crate::shape::code_of;
use exchange::{Exchange, Label, Msu, Pick, PointCode, Sls};

/// Before one of this many steps the sums are compared.
const COMPARED_EVERY: u64 = 16;

/// The service information octet of SCCP in the international network (Q.704 §14.2).
pub(crate) const SCCP_SIO: u8 = 0x83;

/// The choice of all messages.
#[derive(Clone, Copy)]
pub(crate) struct AllMessages;

impl Pick for AllMessages {
    ghost picks = { λ choice message. true };

    fn picks(&self, _message: &Msu) -> bool {
        true
    }
}

/// The choice of the messages on a flow.
#[derive(Clone, Copy)]
pub(crate) struct OnFlow {
    pub sls: Sls,
}

impl Pick for OnFlow {
    ghost picks = { λ choice message. nat_eq (sls_of message) choice.sls };

    fn picks(&self, message: &Msu) -> bool {
        Label::at(message.sif()).sls == self.sls
    }
}

/// The choice of the messages with the same octets as this one.
#[derive(Clone, Copy)]
struct SameMessage {
    message: Msu,
}

impl Pick for SameMessage {
    ghost picks = { λ choice message. bytes_eq message.sif choice.message.sif };

    fn picks(&self, message: &Msu) -> bool {
        message.sif() == self.message.sif()
    }
}

/// Of the messages that a choice takes, those for a point.
#[derive(Drop)]
struct PickedTo<'a, P> {
    point: PointCode,
    pick: &'a P,
}

impl<'a, P: Pick> Pick for PickedTo<'a, P> {
    ghost picks = { λ choice message. nat_eq (dpc_of message) choice.point && P.picks choice.pick.now message };

    fn picks(&self, message: &Msu) -> bool {
        Label::at(message.sif()).dpc == self.point && self.pick.picks(message)
    }
}

/// Whether a message goes to a point: a user message for it, or one of SCCP, which a translation row leads there.
pub(crate) fn goes_to(point: u16, message: &Msu) -> bool {
    let is_for_point = Label::at(message.sif()).dpc == code_of(point);
    !message.is_management() && (is_for_point || message.sio() == SCCP_SIO)
}

impl Network {
    /// Before one of so many steps the sums between points 1 and 2 are compared, if these are two ends (`pairs`), and
    /// while each message is promised to come once.
    pub(super) fn compare_now_and_then(&mut self) {
        let number = usize::try_from(self.steps / COMPARED_EVERY).unwrap_or(0);
        if self.steps % COMPARED_EVERY == 0 && self.shape.has_ends() && !self.may_have_lost() {
            self.compare(1, 2, number);
            self.compare(2, 1, number);
        }
    }

    /// Whether one of the two ends says that a message may be lost.
    pub(crate) fn may_have_lost(&self) -> bool {
        self.sites.iter().take(2).any(|site| site.seen.lost_any)
    }

    /// Compares the sums of the messages from an end to the other: of all of them, of one flow, and of one message, if
    /// there is one and it goes as it was handed in. The number of this comparison chooses these.
    fn compare(&mut self, from: u16, to: u16, number: usize) {
        let sls = Sls::of_low_bits((number % 16) as u32);
        self.compare_picked(from, to, &AllMessages);
        self.compare_picked(from, to, &OnFlow { sls });
        if let Some(message) = self.accepted_message(from, to, number) {
            self.compare_picked(from, to, &SameMessage { message });
        }
    }

    /// One sum: of the messages that a choice takes.
    fn compare_picked<P: Pick>(&mut self, from: u16, to: u16, pick: &P) {
        let accepted = self.count_accepted(from, to, pick);
        let received = self.count_received(from, to, pick);
        let waiting = self.count_waiting(from, to, pick);
        count(&mut self.compared, 1);
        count(
            &mut self.wrong,
            (accepted != received.wrapping_add(waiting)) as u64,
        );
    }

    /// One of the messages that an end accepted for the other, by a number. None if they are relayed.
    fn accepted_message(&self, from: u16, to: u16, number: usize) -> Option<Msu> {
        let left = number % self.count_accepted(from, to, &AllMessages).max(1);
        let accepted = self.site(from)?.accepted.as_slice();
        if self.relays {
            return None;
        }
        accepted
            .iter()
            .filter(|message| goes_to(to, message))
            .nth(left)
            .copied()
    }

    /// How many of the messages that a choice takes an end accepted for the other. One that returns all that comes
    /// accepts as many.
    pub(crate) fn count_accepted<P: Pick>(&self, from: u16, to: u16, pick: &P) -> usize {
        if self.relays && from == 2 {
            return self.count_received(to, from, pick);
        }
        let Some(site) = self.site(from) else {
            return 0;
        };
        let mut all = 0usize;
        for message in site.accepted.as_slice() {
            all = all.wrapping_add((goes_to(to, message) && pick.picks(message)) as usize);
        }
        all
    }

    /// How many of the messages that a choice takes came to an end from the other, by a link between the two.
    pub(crate) fn count_received<P: Pick>(&self, from: u16, to: u16, pick: &P) -> usize {
        let Some(site) = self.site(to) else {
            return 0;
        };
        let mut all = 0usize;
        for arrival in site.arrived.as_slice() {
            let came = self.has_come(from, to, arrival) && pick.picks(&arrival.message);
            all = all.wrapping_add(came as usize);
        }
        all
    }

    /// Whether a message came to an end for it, and by a link between the two.
    pub(crate) fn has_come(&self, from: u16, to: u16, arrival: &Arrival) -> bool {
        goes_to(to, &arrival.message) && self.shape.leads_to(to, arrival.link, from)
    }

    /// How many of the messages for one node that a choice takes wait at another: in Held, and on the links between
    /// the two.
    fn count_waiting<P: Pick>(&self, from: u16, to: u16, pick: &P) -> usize {
        let Some(near) = self.site(from) else {
            return 0;
        };
        let Some(far) = self.site(to) else {
            return 0;
        };
        let (near, far) = (near.node.shown(), far.node.shown());
        let pick = PickedTo {
            point: code_of(to),
            pick,
        };
        let mut all = near.count_held_picked(&pick);
        for code in 0..self.shape.links_between(from, to) {
            let link = self.shape.link_between(from, to, code);
            all = all.saturating_add(count_on_link(near, far, link, &pick));
        }
        all
    }
}

/// How many of them wait on a link, behind the last message that its other end accepted.
fn count_on_link<P: Pick>(near: &Exchange, far: &Exchange, link: Link, pick: &P) -> usize {
    match far.link(link.there.link()) {
        Some(view) => near.count_behind(link.here.link(), view.last_accepted, pick),
        None => 0,
    }
}
