//! Packets out of the blue, for which there is no association (RFC 9260 §8.4).

ghost use Rattle.std.specs.Prelude.{◌≡◌, [], ◌∷◌, ◌||◌};
ghost use Rattle.std.specs.List.{list_any};
ghost use Rattle.sctp_codec.specs.Values.{chunk_value, chunks_of};
ghost use Rattle.sctp_rules.specs.State.{put};
ghost use Rattle.sctp_rules.specs.Packets.{is_quiet, is_quiet_first, answer_to};
ghost use Rattle.sctp_bundling.specs.Settings.{address_of};
ghost use Rattle.sctp_bundling.specs.Watching.{Gives};

use crate::endpoint::Endpoint;
use sctp_bundling::{Address, Reply, Watch};
use sctp_codec::{Chunk, Chunks};

/// The type of INIT.
pub(super) const INIT: u8 = 1;

/// The type of INIT ACK.
const INIT_ACK: u8 = 2;

/// The type of ERROR.
const ERROR: u8 = 9;

impl Endpoint {
    /// A packet out of the blue is answered by its first chunk: SHUTDOWN ACK by SHUTDOWN COMPLETE, any other by ABORT.
    pub(super) fn answer_out_of_the_blue<W: Watch>(
        &self,
        source: &Address,
        tag: u32,
        first: &Chunk<'_>,
        watch: &mut W,
    )
        ensures { Gives W.has watch.old watch.new
            (put self.now.settings (address_of source.now) tag (answer_to (chunk_value first.now) ∷ []) self.now.state) }
    {
        match first {
            Chunk::ShutdownAck => self.put(source, tag, &Reply::ShutdownComplete(true), watch),
            _ => self.put(source, tag, &Reply::ReflectedAbort, watch),
        }
    }
}

/// Whether a packet out of the blue isn't answered: by its first chunk, or by any.
pub(super) fn is_unanswered(first: &Chunk<'_>, more: Chunks<'_>) -> bool
    ensures { result ≡ (is_quiet_first (chunk_value first.now)
        || list_any is_quiet (chunk_value first.now ∷ chunks_of more.entry)) }
{
    is_quiet_first(first) || is_quiet(first) || is_any_quiet(more)
}

/// Whether a packet with one of these chunks isn't answered.
fn is_any_quiet(chunks: Chunks<'_>) -> bool
    ensures { result ≡ list_any is_quiet (chunks_of chunks.entry) }
{
    'each_chunk: for chunk in chunks {
        if is_quiet(&chunk) {
            return true;
        }
    }
    false
}

/// Whether a packet that begins with this chunk isn't answered.
fn is_quiet_first(chunk: &Chunk<'_>) -> bool
    ensures { result ≡ is_quiet_first (chunk_value chunk.now) }
{
    matches!(chunk, Chunk::CookieAck | Chunk::ShutdownComplete { .. })
}

/// Whether a packet with this chunk isn't answered.
fn is_quiet(chunk: &Chunk<'_>) -> bool
    ensures { result ≡ is_quiet (chunk_value chunk.now) }
{
    match chunk {
        Chunk::Abort { .. } | Chunk::InitAck(_) | Chunk::Error(_) => true,
        Chunk::Malformed { kind } => *kind == INIT || *kind == INIT_ACK || *kind == ERROR,
        _ => false,
    }
}
