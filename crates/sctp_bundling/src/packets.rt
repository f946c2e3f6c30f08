//! Packets that go out at once.

ghost use Rattle.std.specs.Prelude.{◌≡◌, ◌+◌, ◌≤◌, ◌∷◌, ◌++◌, [], List, length, take};
ghost use Rattle.sctp_codec.specs.Packets.{ChunkValue, InitAckChunk};
ghost use Rattle.sctp_codec.specs.Parameters.{answering};
ghost use Rattle.sctp_codec.specs.Values.{items_of, offer_with};
ghost use Rattle.sctp_bundling.specs.Addresses.{listed};
ghost use Rattle.sctp_bundling.specs.Replies.{last_of, size_of_last};
ghost use Rattle.sctp_bundling.specs.ChunkRows.{row_of};
ghost use Rattle.sctp_bundling.specs.Ways.{way_of, packet_on};
ghost use Rattle.sctp_bundling.specs.Watching.{Puts};

use crate::addresses::Addresses;
use crate::reply::Reply;
use crate::watch::Watch;
use crate::way::Way;
use sctp_codec::{Items, Offer, PACKET_OCTETS, PacketBuffer, begin, finish, write_init_ack};
use sctp_cookie::COOKIE_OCTETS;

/// A packet with chunks of these octets, and a last one after them, goes out.
pub fn put_packet<W: Watch>(way: &Way, front: &[u8], last: Option<&Reply<'_>>, watch: &mut W)
    requires { length front.now + size_of_last last ≤ 1188 }
    ensures { (chunks : List ChunkValue) → front.now ≡ row_of chunks
        → Puts W.has watch.old watch.new (packet_on (way_of way.now) (chunks ++ last_of last.entry) ∷ []) }
{
    let mut out = blank();
    let at = begin(&mut out, way.source, way.destination, way.tag);
    let at = write_at(&mut out, at, front);
    let end = write_last(&mut out, at, last);
    finish(&mut out, end);
    watch.send(&out[..end], &way.to);
}

/// A packet with INIT ACK goes out: what is offered, the addresses of its sender, the cookie, and the parameters of the
/// INIT that are reported.
pub fn put_init_answer<W: Watch>(
    way: &Way,
    offer: &Offer,
    addresses: &Addresses,
    cookie: &[u8; COOKIE_OCTETS],
    parameters: Items<'_>,
    watch: &mut W,
)
    ensures { Puts W.has watch.old watch.new (packet_on (way_of way.now)
        (InitAckChunk (offer_with offer.now (answering (listed addresses.now) cookie.now (items_of parameters.entry))) ∷ [])
        ∷ []) }
{
    let mut out = blank();
    let at = begin(&mut out, way.source, way.destination, way.tag);
    let end = write_init_ack(&mut out, at, offer, addresses.listed(), cookie, parameters);
    finish(&mut out, end);
    watch.send(&out[..end], &way.to);
}

/// Writes the last chunk, if there is one, and returns the offset after it.
fn write_last(out: &mut PacketBuffer, at: usize, last: Option<&Reply<'_>>) -> usize
    requires { at + size_of_last last ≤ 1200 }
    ensures count { result ≡ at + size_of_last last.entry }
    ensures text { take result out.new ≡ take at out.old ++ row_of (last_of last.entry) }
{
    match last {
        Some(chunk) => chunk.write(out, at),
        None => at,
    }
}

/// Writes octets at an offset, and returns the offset after them. Usually there are none.
pub(crate) fn write_at(out: &mut PacketBuffer, at: usize, octets: &[u8]) -> usize
    requires { at + length octets.now ≤ 1200 }
    ensures count { result ≡ at + length octets.now }
    ensures text { take result out.new ≡ take at out.old ++ octets.now }
{
    if octets.is_empty() {
        return at;
    }
    let end = at + octets.len();
    out[at..end].copy_from_slice(octets);
    end
}

/// A buffer with zeros.
#[inline(always)]
pub(crate) fn blank() -> PacketBuffer {
    [0; PACKET_OCTETS]
}
