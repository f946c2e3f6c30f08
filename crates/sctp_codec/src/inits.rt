//! INIT and INIT ACK, written.

ghost use Rattle.std.specs.Prelude.{◌≡◌, ◌+◌, ◌≤◌, ◌++◌, All, [], length, take};
ghost use Rattle.sctp_codec.specs.Items.{padded_item, padded_items};
ghost use Rattle.sctp_codec.specs.Packets as value;
ghost use Rattle.sctp_codec.specs.Parameters.{address_item, listing, answering};
ghost use Rattle.sctp_codec.specs.Addresses.{IsAddress};
ghost use Rattle.sctp_codec.specs.Writing.{chunk_octets, init_front};
ghost use Rattle.sctp_codec.specs.Values.{items_of, offer_with};

use crate::chunk::Offer;
use crate::item::{numbered, padding_behind};
use crate::items::Items;
use crate::layout::{INIT, INIT_ACK, IPV4_ADDRESS, IPV6_ADDRESS, STATE_COOKIE};
use crate::reports::{Reports, write_reports};
use crate::writing::{PACKET_OCTETS, PacketBuffer, write_at, write_front, write_item};
use std::net::IpAddr;

/// How many addresses an end lists at most: a packet has room for them beside a cookie and what is reported.
pub const MOST_ADDRESSES: usize = 8;

/// Writes an INIT chunk at an offset, and returns the offset after it: what is offered, and the addresses of its sender
/// (RFC 9260 §3.3.2).
pub fn write_init(out: &mut PacketBuffer, at: usize, offer: &Offer, addresses: &[IpAddr]) -> usize
    requires few { length addresses.now ≤ 8 }
    requires space { at + length (chunk_octets (value.InitChunk (offer_with offer.now (listing addresses.now)))) ≤ 1200 }
    ensures count { result
        ≡ at + length (chunk_octets (value.InitChunk (offer_with offer.now (listing addresses.now)))) }
    ensures text { take result out.new
        ≡ take at out.old ++ chunk_octets (value.InitChunk (offer_with offer.now (listing addresses.now))) }
{
    let mut value: PacketBuffer = [0; PACKET_OCTETS];
    let end = write_offer(&mut value, 0, offer);
    let end = write_addresses(&mut value, end, addresses);
    write_item(out, at, numbered(INIT, 0), &value[..end])
}

/// Writes an INIT ACK chunk at an offset, and returns the offset after it: what is offered, the addresses of its sender,
/// the cookie, and the parameters of the INIT that are to be reported, as many of the first as 512 octets hold (RFC 9260
/// §3.3.3).
pub fn write_init_ack(
    out: &mut PacketBuffer,
    at: usize,
    offer: &Offer,
    addresses: &[IpAddr],
    cookie: &[u8],
    parameters: Items<'_>,
) -> usize
    requires few { length addresses.now ≤ 8 }
    requires space { at + 700 + length cookie.now ≤ 1200 }
    ensures room { result ≤ at + 700 + length cookie.now }
    ensures count { result ≡ at + length (chunk_octets (value.InitAckChunk
        (offer_with offer.now (answering addresses.now cookie.now (items_of parameters.entry))))) }
    ensures text { take result out.new ≡ take at out.old ++ chunk_octets (value.InitAckChunk
        (offer_with offer.now (answering addresses.now cookie.now (items_of parameters.entry)))) }
{
    let mut value: PacketBuffer = [0; PACKET_OCTETS];
    let end = write_offer(&mut value, 0, offer);
    let end = write_addresses(&mut value, end, addresses);
    let end = write_front(&mut value, end, STATE_COOKIE, cookie.len());
    let end = write_at(&mut value, end, cookie);
    let padding = padding_behind(cookie.len());
    let end = write_reports(&mut value, end, padding, Reports::of(parameters), true);
    write_item(out, at, numbered(INIT_ACK, 0), &value[..end])
}

/// Writes the fields of an INIT or an INIT ACK chunk at an offset, and returns the offset after them.
fn write_offer(out: &mut PacketBuffer, at: usize, offer: &Offer) -> usize
    requires { at + 16 ≤ 1200 }
    ensures count { result ≡ at + 16 }
    ensures text { take result out.new ≡ take at out.old ++ init_front (offer_with offer.now []) }
{
    let at = write_at(out, at, &offer.tag.to_be_bytes());
    let at = write_at(out, at, &offer.window.to_be_bytes());
    let at = write_at(out, at, &offer.outgoing.to_be_bytes());
    let at = write_at(out, at, &offer.incoming.to_be_bytes());
    write_at(out, at, &offer.first_tsn.to_be_bytes())
}

/// Writes the addresses of an end at an offset, each as a parameter, and returns the offset after them.
fn write_addresses(out: &mut PacketBuffer, at: usize, addresses: &[IpAddr]) -> usize
    requires few { length addresses.now ≤ 8 }
    requires space { at + 160 ≤ 1200 }
    ensures room { result ≤ at + 160 }
    ensures whole { All IsAddress addresses.now }
    ensures text { take result out.new ≡ take at out.old ++ padded_items (listing addresses.now) }
{
    let mut end = at;
    'each_address: for address in addresses {
        end = write_address(out, end, address);
    }
    end
}

/// Writes an address as a parameter at an offset, and returns the offset after it (RFC 9260 §3.3.2.1.1, §3.3.2.1.2).
fn write_address(out: &mut PacketBuffer, at: usize, address: &IpAddr) -> usize
    requires { at + 20 ≤ 1200 }
    ensures room { result ≤ at + 20 }
    ensures whole { IsAddress address.now }
    ensures text { take result out.new ≡ take at out.old ++ padded_item (address_item address.now) }
{
    match address {
        IpAddr::V4(address) => write_item(out, at, IPV4_ADDRESS, &address.octets()),
        IpAddr::V6(address) => write_item(out, at, IPV6_ADDRESS, &address.octets()),
    }
}
