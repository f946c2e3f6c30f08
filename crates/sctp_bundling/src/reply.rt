//! A chunk that an endpoint sends.

ghost use Rattle.std.specs.Prelude.{◌≡◌, ◌+◌, ◌≤◌, ◌++◌, take};
ghost use Rattle.sctp_codec.specs.Writing.{chunk_octets, IsChunk};
ghost use Rattle.sctp_bundling.specs.Replies.{chunk_of, size_of};

use crate::addresses::Addresses;
use sctp_codec::{
    Cause, Offer, PacketBuffer, Tsn, write_abort, write_cookie_ack, write_cookie_echo, write_error,
    write_heartbeat, write_heartbeat_ack, write_init, write_reflected_abort, write_shutdown,
    write_shutdown_ack, write_shutdown_complete,
};

/// A chunk that an endpoint sends, apart from INIT ACK, DATA and SACK.
#[derive(Clone, Copy)]
pub enum Reply<'a> {
    /// INIT with what is offered, and the addresses of its sender.
    Init(Offer, &'a Addresses),
    /// ERROR with a cause.
    Error(Cause<'a>),
    /// ABORT with a cause.
    Abort(Cause<'a>),
    /// ABORT with the tag of its receiver's peer.
    ReflectedAbort,
    /// SHUTDOWN with a cumulative TSN.
    Shutdown(Tsn),
    /// SHUTDOWN ACK.
    ShutdownAck,
    /// SHUTDOWN COMPLETE, and whether its tag is that of its receiver's peer.
    ShutdownComplete(bool),
    /// COOKIE ECHO with a cookie.
    CookieEcho(&'a [u8]),
    /// COOKIE ACK.
    CookieAck,
    /// HEARTBEAT with its information.
    Heartbeat(&'a [u8]),
    /// HEARTBEAT ACK with the information that came.
    HeartbeatAck(&'a [u8]),
}

impl Reply<'_> {
    /// Writes it at an offset, and returns the offset after it.
    pub fn write(&self, out: &mut PacketBuffer, at: usize) -> usize
        requires { at + size_of (chunk_of self.now) ≤ 1200 }
        ensures count { result ≡ at + size_of (chunk_of self.now) }
        ensures text { take result out.new ≡ take at out.old ++ chunk_octets (chunk_of self.now) }
    {
        match self {
            Reply::Init(offer, addresses) => write_init(out, at, offer, addresses.listed()),
            Reply::Error(cause) => write_error(out, at, cause),
            Reply::Abort(cause) => write_abort(out, at, cause),
            Reply::ReflectedAbort => write_reflected_abort(out, at),
            Reply::Shutdown(cumulative) => write_shutdown(out, at, *cumulative),
            Reply::ShutdownAck => write_shutdown_ack(out, at),
            Reply::ShutdownComplete(is_reflected) => write_shutdown_complete(
                out,
                at,
                *is_reflected,
            ),
            Reply::CookieEcho(cookie) => write_cookie_echo(out, at, cookie),
            Reply::CookieAck => write_cookie_ack(out, at),
            Reply::Heartbeat(information) => write_heartbeat(out, at, information),
            Reply::HeartbeatAck(information) => write_heartbeat_ack(out, at, information),
        }
    }
}
