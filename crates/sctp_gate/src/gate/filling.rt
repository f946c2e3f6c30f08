//! Frames that go out.

ghost use Rattle.std.specs.Prelude.{◌≡◌, ◌≤◌, [], ◌∷◌, length};
ghost use Rattle.sctp_sending.specs.Sending.{most_octets};
ghost use Rattle.exchange.specs.KeptQueues.{kept};
ghost use Rattle.exchange.specs.Calls.{StandsFor};
ghost use Rattle.exchange_rules.specs.Queues.{whole};
ghost use Rattle.exchange_rules.specs.First.{Abstract};
ghost use Rattle.sctp_gate.specs.Gates.{filled, taken_if, taken_all, with_given, stream_of};
ghost use Rattle.sctp_gate.specs.Making.{Makes, MakesWhole};
ghost use Rattle.sctp_gate.specs.Watching.{WentOut, Gives};

use crate::doing::Doing;
use crate::gate::Gate;
use crate::handing::PROTOCOL;
use crate::watch::Watch;
use exchange::{BUFFER_OCTETS, Exchange};
use sctp_sending::Message;

/// Where the type of a frame is (RFC 4165 §2.1).
const TYPE_PLACE: usize = 3;

/// The type of a Link Status (RFC 4165 §2.1.4).
const LINK_STATUS: u8 = 2;

/// The stream of Link Status (RFC 4165 §4.1.2).
const STATUS_STREAM: u16 = 0;

/// The stream of User Data (RFC 4165 §4.1.2).
const DATA_STREAM: u16 = 1;

/// How many frames a call of `fill` takes, at most: as many as may wait for their confirmation.
const MOST_FRAMES: usize = 256;

impl Gate {
    /// Takes frames of the link, one after another, each only while it can go out at once, after those before it. They
    /// go out together, as many in a datagram as fit: Link Status on stream 0, and User Data on stream 1 (RFC 4165
    /// §4.1.2). So does what else is due, such as SACK. The other frames stay in the node, for a changeover. The watch
    /// sees each frame that is taken.
    pub fn fill<W: Watch>(&mut self, exchange: &mut Exchange, now: u64, watch: &mut W)
        ensures kept { Makes W.has watch.old watch.new self.new exchange.new (filled kept now self.old exchange.old) }
        ensures whole { (a : Abstract) → StandsFor exchange.old a → MakesWhole W.has watch.old watch.new self.new
            exchange.new (filled whole now self.old a) }
    {
        self.take_if_room(exchange, now, watch);
        self.act(Doing::Flush, exchange, now, watch);
    }

    /// Takes frames if nothing else waits to go out.
    fn take_if_room<W: Watch>(&mut self, exchange: &mut Exchange, now: u64, watch: &mut W)
        ensures { Makes W.has watch.old watch.new self.new exchange.new (taken_if kept now self.old exchange.old) }
    {
        if self.is_lasting(now) && self.endpoint.has_room() {
            self.take_all(exchange, watch);
        }
    }

    /// Takes frames while each can go out after those before it.
    fn take_all<W: Watch>(&mut self, exchange: &mut Exchange, watch: &mut W)
        ensures { Makes W.has watch.old watch.new self.new exchange.new
            (taken_all kept MOST_FRAMES 0 self.old exchange.old) }
    {
        let mut frame = [0; BUFFER_OCTETS];
        let mut octets = 0;
        'each_frame: for _ in 0..MOST_FRAMES {
            if !self.endpoint.has_room_behind(octets) {
                return;
            }
            match exchange.take(self.link, &mut frame) {
                Some(count) => octets += self.give(&frame[..count], watch),
                None => return,
            }
        }
    }

    /// A frame that was taken is given to the endpoint. Returns how many octets it has.
    fn give<W: Watch>(&mut self, frame: &[u8], watch: &mut W) -> u32
        requires { length frame.now ≤ most_octets }
        ensures octets { result ≡ length frame.now }
        ensures gate { self.new ≡ with_given frame.now self.old }
        ensures seen { Gives W.has watch.old watch.new [] (WentOut frame.now ∷ []) }
    {
        self.endpoint.send(Message {
            stream: stream_of(frame),
            protocol: PROTOCOL,
            octets: frame,
        });
        watch.went_out(frame);
        frame.len() as u32
    }
}

/// The stream of a frame, by its type: its fourth octet.
fn stream_of(frame: &[u8]) -> u16
    ensures { result ≡ stream_of frame.now }
{
    match frame.get(TYPE_PLACE) {
        Some(&LINK_STATUS) => STATUS_STREAM,
        _ => DATA_STREAM,
    }
}
