//! What a datagram may do, by its tag.

use crate::harmed::octets::{TAG_AT, number, octet};
use crate::harmed::recorder::{Datagram, KIND_AT, Recorder};
use sctp_codec::{Chunk, Packet};

/// The types of ABORT and SHUTDOWN COMPLETE, and the T bit (RFC 9260 §3.3.7, §3.3.13).
pub const ABORT: u8 = 6;

const SHUTDOWN_COMPLETE: u8 = 14;

const REFLECTED: u8 = 1;

/// Where a cookie has the tag of the end that signed it: after the code, the time and the generation.
const COOKIE_TAG_AT: usize = 48;

/// The ports of both ends.
const PORT: u16 = 3_565;

/// What a datagram is to an end.
#[derive(Clone, Copy, Debug, PartialEq, Eq)]
pub enum Kind {
    /// No packet: it may do nothing at all.
    NoPacket,
    /// A packet to other ports, or with another tag than its first chunk needs: it may be answered, and no more.
    Foreign,
    /// INIT, which has no tag: it opens and ends nothing.
    Init,
    /// A packet with the right tag, which for COOKIE ECHO is the one in the cookie.
    Other,
}

/// What a datagram is to the end that put out and told this.
pub fn kind_of(octets: &[u8], log: &Recorder) -> Kind {
    let Some(packet) = Packet::read(octets) else {
        return Kind::NoPacket;
    };
    let mut chunks = packet.chunks();
    let Some(first) = chunks.next() else {
        return Kind::NoPacket;
    };
    if packet.source != PORT || packet.destination != PORT {
        return Kind::Foreign;
    }
    match first {
        Chunk::Init(_) => Kind::Init,
        Chunk::CookieEcho(cookie) => right_or_foreign(number(cookie, COOKIE_TAG_AT) == packet.tag),
        Chunk::Abort { is_reflected, .. } => by_tag(is_reflected, packet.tag, log),
        Chunk::ShutdownComplete { is_reflected } => by_tag(is_reflected, packet.tag, log),
        _ => by_tag(false, packet.tag, log),
    }
}

/// What a packet is by its tag: that of the end, or that of its peer if the tag is reflected.
fn by_tag(is_reflected: bool, tag: u32, log: &Recorder) -> Kind {
    let Some(own_tag) = log.own_tag else {
        return Kind::Foreign;
    };
    right_or_foreign(if is_reflected {
        was_put_out(tag, log.sent.as_slice())
    } else {
        tag == own_tag
    })
}

/// What a packet is whose tag is right, or not.
fn right_or_foreign(is_right: bool) -> Kind {
    if is_right { Kind::Other } else { Kind::Foreign }
}

/// Whether one of the datagrams went to a peer with this tag: no INIT, which has none, and no answer out of the blue.
fn was_put_out(tag: u32, sent: &[Datagram]) -> bool {
    for datagram in sent {
        let octets = datagram.octets();
        if tag != 0 && number(octets, TAG_AT) == tag && !is_out_of_the_blue(octets) {
            return true;
        }
    }
    false
}

/// Whether an answer is one out of the blue with the tag that came.
pub fn is_reflection(octets: &[u8], answer: Option<&Datagram>) -> bool {
    match answer {
        Some(datagram) => {
            let text = datagram.octets();
            is_out_of_the_blue(text) && number(text, TAG_AT) == number(octets, TAG_AT)
        }
        None => false,
    }
}

/// Whether a datagram is an answer out of the blue: ABORT or SHUTDOWN COMPLETE that says that its tag is reflected.
fn is_out_of_the_blue(octets: &[u8]) -> bool {
    let kind = octet(octets, KIND_AT);
    (kind == ABORT || kind == SHUTDOWN_COMPLETE) && octet(octets, KIND_AT + 1) == REFLECTED
}
