//! What goes out on a link (RFC 4165 §4.2.1).

ghost use Rattle.std.specs.Prelude.{◌≡◌, ◌<◌, ◌≤◌, Some, false, length, is_some, IfSome};
ghost use Rattle.cell_pool.specs.Lanes.{lane_at};
ghost use Rattle.link.specs.Counts.{kept_last_accepted, kept_last_sent, kept_to_send, kept_sent_one};
ghost use Rattle.m2pa_codec.specs.Frames.{sif_of};
ghost use Rattle.m2pa_codec.specs.Values.{value_of};
ghost use Rattle.exchange_rules.specs.State.{with_node, with_parts};
ghost use Rattle.exchange.specs.KeptQueues.{kept};
ghost use Rattle.exchange_rules.specs.Exchange.{frame_to_take, taken};
ghost use Rattle.exchange_rules.specs.Sending as rule;
ghost use Rattle.exchange.specs.Taking.{Writes, frame_of, message_out, owed_out, data_out, sent};

use super::Exchange;
use super::lanes::lane_of;
use crate::frame_text::LONGEST_FRAME;
use cell_pool::CellPool;
use link::{LinkTimer, Sequence};
use m2pa_codec::{BUFFER_OCTETS, Frame, LinkStatus, encode};
use settings::{Limits, LinkId};

impl Exchange {
    /// The next frame that goes out on a link, written to the front of `buffer`.
    pub(super) fn write_next_frame(
        &mut self,
        link: LinkId,
        buffer: &mut [u8; BUFFER_OCTETS],
    ) -> Option<usize>
        ensures frame { Writes (frame_to_take kept self.old link) result buffer.old buffer.new }
        ensures state { self.new ≡ taken kept self.old link }
        ensures fits { IfSome result (λ count. count ≤ LONGEST_FRAME) }
    {
        if !self.links.has(link) {
            return None;
        }
        match self.links.state(link).next_status() {
            Some(status) => Some(self.write_status(link, status, buffer)),
            None => self.write_data(link, buffer),
        }
    }
}

impl Exchange {
    /// The status that waited longest goes out.
    fn write_status(
        &mut self,
        link: LinkId,
        status: LinkStatus,
        buffer: &mut [u8; BUFFER_OCTETS],
    ) -> usize
        requires { link < length self.old.settings.links }
        ensures frame { Writes (frame_of self.old link (rule.SendsStatus status)) (Some result) buffer.old buffer.new }
        ensures state { self.new ≡
            with_node self.old (with_parts self.old.node (rule.without_status link self.old.node.parts)) }
        ensures fits { result ≤ LONGEST_FRAME }
    {
        let index = link.index();
        self.drop_status(link);
        let sequence = &self.sequences[index];
        let bsn = sequence.last_accepted();
        let fsn = sequence.last_sent();
        encode(&Frame::Status { bsn, fsn, status }, buffer)
    }

    /// The next message goes out, or else the acknowledgement that is due.
    fn write_data(&mut self, link: LinkId, buffer: &mut [u8; BUFFER_OCTETS]) -> Option<usize>
        requires { link < length self.old.settings.links }
        ensures frame { Writes (frame_of self.old link (data_out self.old link)) result buffer.old buffer.new }
        ensures state { self.new ≡ sent self.old link (data_out self.old link) }
        ensures fits { IfSome result (λ count. count ≤ LONGEST_FRAME) }
    {
        match self.write_next_message(link, buffer) {
            Some(count) => Some(count),
            None => self.write_acknowledgement(link, buffer),
        }
    }

    /// The next message goes out, if the window allows and the peer isn't busy.
    fn write_next_message(
        &mut self,
        link: LinkId,
        buffer: &mut [u8; BUFFER_OCTETS],
    ) -> Option<usize>
        requires { link < length self.old.settings.links }
        ensures frame { Writes (frame_of self.old link (message_out self.old link)) result buffer.old buffer.new }
        ensures state { self.new ≡ sent self.old link (message_out self.old link) }
        ensures fits { IfSome result (λ count. count ≤ LONGEST_FRAME) }
    {
        let index = link.index();
        let state = self.links.state(link);
        if !state.is_in_service() || state.is_peer_busy() {
            return None;
        }
        let window = self.settings.window();
        let outstanding = self.sequences[index].outstanding();
        self.note_place(link, outstanding);
        let sequence = &mut self.sequences[index];
        let count = write_message(sequence, &self.lanes, lane_of(link), window, buffer)?;
        self.set_owed(link, false);
        self.start_unless_running(link, LinkTimer::L7);
        Some(count)
    }

    /// An empty User Data goes out, if an acknowledgement is owed.
    fn write_acknowledgement(
        &mut self,
        link: LinkId,
        buffer: &mut [u8; BUFFER_OCTETS],
    ) -> Option<usize>
        requires { link < length self.old.settings.links }
        ensures frame { Writes (frame_of self.old link (owed_out self.old link)) result buffer.old buffer.new }
        ensures state { self.new ≡ sent self.old link (owed_out self.old link) }
        ensures fits { IfSome result (λ count. count ≤ LONGEST_FRAME) }
    {
        let index = link.index();
        if !self.links.state(link).owes_acknowledgement() {
            return None;
        }
        self.set_owed(link, false);
        let sequence = &self.sequences[index];
        let bsn = sequence.last_accepted();
        let fsn = sequence.last_sent();
        Some(encode(&Frame::Empty { bsn, fsn }, buffer))
    }
}

/// Writes the next message of a link to the front of `buffer`, if one may go out; it counts as sent from now on.
fn write_message(
    sequence: &mut Sequence,
    lanes: &CellPool,
    lane: usize,
    window: usize,
    buffer: &mut [u8; BUFFER_OCTETS],
) -> Option<usize>
    requires { lane < length lanes.now.lists }
    ensures frame { Writes (rule.frame_from (kept_last_accepted sequence.old) (kept_last_sent sequence.old)
        (rule.message_first (kept_to_send sequence.old (lane_at lanes.now.lists lane) window) false))
        result buffer.old buffer.new }
    ensures sent { is_some result ≡ is_some (kept_to_send sequence.old (lane_at lanes.now.lists lane) window) }
    ensures counts { sequence.new ≡ kept_sent_one sequence.old (lane_at lanes.now.lists lane) window }
    ensures fits { IfSome result (λ count. count ≤ LONGEST_FRAME) }
{
    let bsn = sequence.last_accepted();
    match sequence.next_to_send(lanes, lane, window) {
        Some((fsn, message)) => Some(encode(
            &Frame::Message {
                bsn,
                fsn,
                sio: message.sio(),
                sif: message.sif(),
            },
            buffer,
        )),
        None => None,
    }
}
