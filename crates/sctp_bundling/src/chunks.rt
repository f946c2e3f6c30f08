//! Chunks that wait for a packet.

ghost use Rattle.std.specs.Prelude.{◌≡◌, ◌+◌, ◌≤◌, [], ◌∷◌, ◌++◌, length, sum_by};
ghost use Rattle.sctp_codec.specs.Packets.{CookieAckChunk};
ghost use Rattle.sctp_codec.specs.Writing.{IsChunk};
ghost use Rattle.sctp_codec.specs.Parameters.{complained_of};
ghost use Rattle.sctp_codec.specs.Values.{items_of};
ghost use Rattle.sctp_rules.specs.Opening.{echo_of};
ghost use Rattle.sctp_bundling.specs.Replies.{chunk_of, size_of, complaint_of};
ghost use Rattle.sctp_bundling.specs.ChunkRows.{row_of};

use crate::packets::{blank, write_at};
use crate::reply::Reply;
use sctp_codec::{Items, PacketBuffer, write_cookie_ack, write_unrecognized_parameters};
use sctp_rules::limits::SHORT_COOKIE_OCTETS;
use std::marker::Model;

/// Octets of an ERROR whose cause has no parameters.
const EMPTY_ERROR_OCTETS: usize = 8;

/// Chunks in the order in which they go out, 1,188 octets at most: those of a packet after its header.
#[derive(Drop)]
pub struct Chunks {
    octets: PacketBuffer,
    end: usize,
}

impl Model for Chunks {
    ghost use Rattle.std.specs.Prelude.{List};
    ghost use Rattle.sctp_codec.specs.Packets.{ChunkValue};

    ghost Value = { List ChunkValue };

    ghost use Rattle.sctp_bundling.specs.Written.{chunks_in, IsWritten};

    ghost view = { chunks_in };

    ghost invariant = { IsWritten };
}

impl Chunks {
    /// No chunks.
    pub fn new() -> Chunks
        ensures { result ≡ [] }
    {
        Chunks {
            octets: blank(),
            end: 0,
        }
    }

    /// Drops all chunks.
    pub fn clear(&mut self)
        ensures { self.new ≡ [] }
    {
        self.end = 0;
    }

    /// How many octets they have, each padded.
    pub fn size(&self) -> usize
        ensures size { result ≡ sum_by size_of self.now }
        ensures most { result ≤ 1188 }
    {
        self.end
    }

    /// Their octets, each padded.
    pub fn octets(&self) -> &[u8]
        ensures octets { result.now ≡ row_of self.now }
        ensures size { length result.now ≡ sum_by size_of self.now }
        ensures most { length result.now ≤ 1188 }
    {
        &self.octets[..self.end]
    }

    /// Appends a chunk.
    pub fn add(&mut self, chunk: &Reply<'_>)
        requires room { sum_by size_of self.old + size_of (chunk_of chunk.now) ≤ 1188 }
        requires chunk { IsChunk (chunk_of chunk.now) }
        ensures { self.new ≡ self.old ++ chunk_of chunk.now ∷ [] }
    {
        self.end = chunk.write(&mut self.octets, self.end);
    }

    /// Puts COOKIE ACK before them.
    pub fn add_cookie_ack_first(&mut self)
        requires { sum_by size_of self.old + 4 ≤ 1188 }
        ensures { self.new ≡ CookieAckChunk ∷ self.old }
    {
        let mut octets = blank();
        let at = write_cookie_ack(&mut octets, 0);
        self.end = write_at(&mut octets, at, &self.octets[..self.end]);
        self.octets = octets;
    }

    /// Appends an ERROR with the parameters of an INIT ACK that are to be reported, if there are any.
    pub fn complain(&mut self, parameters: Items<'_>)
        requires { sum_by size_of self.old + 520 ≤ 1188 }
        ensures { self.new ≡ self.old ++ complaint_of (complained_of (items_of parameters.entry)) }
    {
        let mut error = blank();
        let end = write_unrecognized_parameters(&mut error, 0, parameters);
        if EMPTY_ERROR_OCTETS < end {
            self.end = write_at(&mut self.octets, self.end, &error[..end]);
        }
    }

    /// The echo of a cookie, and after it, if the cookie leaves room for that, what INIT ACK had that isn't known.
    pub fn echoing(cookie: &[u8], parameters: Items<'_>) -> Chunks
        requires { length cookie.now ≤ 1184 }
        ensures { result ≡ echo_of cookie.now (complained_of (items_of parameters.entry)) }
    {
        let mut chunks = Chunks::new();
        chunks.add(&Reply::CookieEcho(cookie));
        if cookie.len() <= SHORT_COOKIE_OCTETS {
            chunks.complain(parameters);
        }
        chunks
    }
}
