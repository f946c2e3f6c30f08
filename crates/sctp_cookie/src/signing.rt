//! Cookies signed, and opened again.

ghost use Rattle.std.specs.Prelude.{◌≡◌, ◌↔◌, ◌+◌, ◌≤◌, ◌++◌, length, take, Some, IfSome, IsTrue};
ghost use Rattle.sctp_cookie.specs.Cookies.{Fits, body_of, signed, IsSigned, number64, number32, number16, cookie_in, opened};
ghost use Rattle.sctp_cookie.specs.declared.cookie.Cookie.{Cookie};

use crate::cookie::{BODY_OCTETS, COOKIE_KEY_OCTETS, COOKIE_OCTETS, Cookie};
use crate::hmac::hmac_sha256;
use crate::layout::{
    GENERATION_AT, LIFE_AT, MADE_AT, OWN_FIRST_TSN_AT, OWN_TAG_AT, PEER_FIRST_TSN_AT,
    PEER_INCOMING_STREAMS_AT, PEER_OUTGOING_STREAMS_AT, PEER_PORT_AT, PEER_TAG_AT, PEER_WINDOW_AT,
    TIE_OWN_TAG_AT, TIE_PEER_TAG_AT,
};

impl Cookie {
    /// The octets of the cookie under a key: the code that authenticates its body, and the body (RFC 9260 §5.1.3).
    pub fn sign(self, key: &[u8; COOKIE_KEY_OCTETS]) -> [u8; COOKIE_OCTETS]
        ensures signed { IsSigned key.now result self }
    {
        signed(self, key)
    }

    /// The cookie of which these are the octets under this key. None if there is no such cookie: if there are more or
    /// fewer octets than 88, if the code isn't that of the body, or if the body doesn't end in two zeros.
    pub fn open(octets: &[u8], key: &[u8; COOKIE_KEY_OCTETS]) -> Option<Cookie>
        // What opens was signed.
        ensures signed { IfSome result (λ cookie. IsSigned key.now octets.now cookie) }
        // What was signed opens.
        ensures only { (cookie : Cookie) → IsSigned key.now octets.now cookie → result ≡ Some cookie }
        ensures exact { result ≡ opened key.now octets.now }
    {
        let octets = octets.as_array::<COOKIE_OCTETS>()?;
        let cookie = read(octets);
        if is_same(octets, &signed(cookie, key)) {
            Some(cookie)
        } else {
            None
        }
    }
}

/// The octets of a cookie under a key.
fn signed(cookie: Cookie, key: &[u8; COOKIE_KEY_OCTETS]) -> [u8; COOKIE_OCTETS]
    ensures fits { Fits cookie }
    ensures octets { result ≡ signed key.now cookie }
{
    fits(cookie);
    let body = body(cookie);
    let mac = hmac_sha256(key, &body);
    let mut octets = [0; COOKIE_OCTETS];
    let at = write_at(&mut octets, 0, &mac);
    write_at(&mut octets, at, &body);
    octets
}

/// Each field of a cookie has as many bits as its octets.
fn fits(cookie: Cookie)
    ensures { Fits cookie }
{
    let _ = cookie;
}

fn body(cookie: Cookie) -> [u8; BODY_OCTETS]
    ensures { result ≡ body_of cookie }
{
    let mut out = [0; BODY_OCTETS];
    let at = write_at(&mut out, 0, &cookie.made.to_be_bytes());
    let at = write_at(&mut out, at, &cookie.generation.to_be_bytes());
    let at = write_at(&mut out, at, &cookie.own_tag.to_be_bytes());
    let at = write_at(&mut out, at, &cookie.peer_tag.to_be_bytes());
    let at = write_at(&mut out, at, &cookie.own_first_tsn.to_be_bytes());
    let at = write_at(&mut out, at, &cookie.peer_first_tsn.to_be_bytes());
    let at = write_at(&mut out, at, &cookie.peer_window.to_be_bytes());
    let at = write_at(&mut out, at, &cookie.peer_outgoing_streams.to_be_bytes());
    let at = write_at(&mut out, at, &cookie.peer_incoming_streams.to_be_bytes());
    let at = write_at(&mut out, at, &cookie.tie_own_tag.to_be_bytes());
    let at = write_at(&mut out, at, &cookie.tie_peer_tag.to_be_bytes());
    let at = write_at(&mut out, at, &cookie.life.to_be_bytes());
    let at = write_at(&mut out, at, &cookie.peer_port.to_be_bytes());
    write_at(&mut out, at, &[0, 0]);
    out
}

/// Writes the octets at an offset, and returns the offset after them.
fn write_at<const N: usize>(out: &mut [u8; N], at: usize, octets: &[u8]) -> usize
    requires { at + length octets.now ≤ N }
    ensures count { result ≡ at + length octets.now }
    ensures text { take result out.new ≡ take at out.old ++ octets.now }
{
    let out = &mut out[..];
    let end = at + octets.len();
    out[at..end].copy_from_slice(octets);
    end
}

/// What octets say as a cookie, whatever their code.
#[tactic(auto, unfolding(crate::specs::Cookies::cookie_in))]
fn read(octets: &[u8; COOKIE_OCTETS]) -> Cookie
    ensures { result ≡ cookie_in octets.now }
{
    Cookie {
        made: number64(octets, MADE_AT),
        generation: number64(octets, GENERATION_AT),
        own_tag: number32(octets, OWN_TAG_AT),
        peer_tag: number32(octets, PEER_TAG_AT),
        own_first_tsn: number32(octets, OWN_FIRST_TSN_AT),
        peer_first_tsn: number32(octets, PEER_FIRST_TSN_AT),
        peer_window: number32(octets, PEER_WINDOW_AT),
        peer_outgoing_streams: number16(octets, PEER_OUTGOING_STREAMS_AT),
        peer_incoming_streams: number16(octets, PEER_INCOMING_STREAMS_AT),
        tie_own_tag: number32(octets, TIE_OWN_TAG_AT),
        tie_peer_tag: number32(octets, TIE_PEER_TAG_AT),
        life: number32(octets, LIFE_AT),
        peer_port: number16(octets, PEER_PORT_AT),
    }
}

/// The number in the eight octets at an offset.
fn number64(octets: &[u8; COOKIE_OCTETS], at: usize) -> u64
    requires { at + 8 ≤ 88 }
    ensures { result ≡ number64 octets.now at }
{
    let Some(eight) = octets[at..].first_chunk::<8>() else {
        unreachable!()
    };
    u64::from_be_bytes(*eight)
}

/// The number in the four octets at an offset.
fn number32(octets: &[u8; COOKIE_OCTETS], at: usize) -> u32
    requires { at + 4 ≤ 88 }
    ensures { result ≡ number32 octets.now at }
{
    let Some(four) = octets[at..].first_chunk::<4>() else {
        unreachable!()
    };
    u32::from_be_bytes(*four)
}

/// The number in the two octets at an offset.
fn number16(octets: &[u8; COOKIE_OCTETS], at: usize) -> u16
    requires { at + 2 ≤ 88 }
    ensures { result ≡ number16 octets.now at }
{
    let Some(two) = octets[at..].first_chunk::<2>() else {
        unreachable!()
    };
    u16::from_be_bytes(*two)
}

/// Whether octets are the same. It looks at all of them, so that the time says nothing of the first that differs.
fn is_same(octets: &[u8; COOKIE_OCTETS], others: &[u8; COOKIE_OCTETS]) -> bool
    ensures { IsTrue result ↔ (octets.now ≡ others.now) }
{
    let mut differing = 0;
    for place in 0..COOKIE_OCTETS {
        differing |= octets[place] ^ others[place];
    }
    differing == 0
}
