//! Codes, tags and cookies.

use crate::said::Said;
use crate::words::{OCTETS, number, octets, word};
use sctp_cookie::hmac::hmac_sha256;
use sctp_cookie::{Cookie, Tags};

/// The key of 32 octets of a row.
fn key(row: &str) -> Option<[u8; 32]> {
    let mut buffer = [0; OCTETS];
    octets(word(row, 1), &mut buffer).as_array().copied()
}

/// Says the code of a message under the key of the row.
pub(crate) fn mac(said: &mut Said, row: &str, message: &[u8]) {
    let mut buffer = [0; OCTETS];
    let key = octets(word(row, 1), &mut buffer);
    if key.len() <= 64 {
        said.octets(&hmac_sha256(key, message));
    }
}

/// Says the first tags under the key of the row.
pub(crate) fn tags(said: &mut Said, row: &str) {
    let Some(key) = key(row) else {
        return;
    };
    let mut tags = Tags::new(key);
    for _ in 0..number::<u32>(row, 2) {
        said.or_none(tags.draw());
    }
}

/// Says the octets of the cookie of the row.
pub(crate) fn sign(said: &mut Said, row: &str) {
    let cookie = Cookie {
        made: number(row, 2),
        generation: number(row, 3),
        own_tag: number(row, 4),
        peer_tag: number(row, 5),
        own_first_tsn: number(row, 6),
        peer_first_tsn: number(row, 7),
        peer_window: number(row, 8),
        peer_outgoing_streams: number(row, 9),
        peer_incoming_streams: number(row, 10),
        tie_own_tag: number(row, 11),
        tie_peer_tag: number(row, 12),
        life: number(row, 13),
        peer_port: number(row, 14),
    };
    if let Some(key) = key(row) {
        said.octets(&cookie.sign(&key));
    }
}

/// Says the fields of the cookie of these octets under the key of the row.
pub(crate) fn open(said: &mut Said, row: &str, octets: &[u8]) {
    let Some(key) = key(row) else {
        return;
    };
    let Some(cookie) = Cookie::open(octets, &key) else {
        return said.say("none");
    };
    said.say(format_args!(
        "{} {} {} {} {} {} {} {} {} {} {} {} {}",
        cookie.made,
        cookie.generation,
        cookie.own_tag,
        cookie.peer_tag,
        cookie.own_first_tsn,
        cookie.peer_first_tsn,
        cookie.peer_window,
        cookie.peer_outgoing_streams,
        cookie.peer_incoming_streams,
        cookie.tie_own_tag,
        cookie.tie_peer_tag,
        cookie.life,
        cookie.peer_port
    ));
}
