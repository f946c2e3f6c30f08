//! Chunks that come, each by its type (RFC 9260 §3.2).

ghost use Rattle.std.specs.Prelude.{◌≡◌, ◌<◌, ◌≤◌, ◌^◌, ◌-◌, ◌&&◌, ◌||◌};
ghost use Rattle.sctp_codec.specs.Values.{chunk_value};
ghost use Rattle.sctp_rules.specs.Opening.{is_closed};
ghost use Rattle.sctp_rules.specs.Packets.{has_peer_tag, has_tag, heard_chunk};
ghost use Rattle.sctp_endpoint.specs.Endpoints.{Does, secrets_of};
ghost use Rattle.sctp_endpoint.specs.Dispatching.{counts_behind};

use crate::endpoint::Endpoint;
use crate::endpoint::unknown::is_skipped;
use sctp_bundling::Watch;
use sctp_codec::Chunk;
use sctp_rules::Phase;

impl Endpoint {
    /// A chunk came in a packet with a tag; returns whether the chunks after it count.
    pub(super) fn hear_chunk<W: Watch>(
        &mut self,
        tag: u32,
        chunk: &Chunk<'_>,
        now: u64,
        watch: &mut W,
    ) -> bool
        requires generation { self.old.state.generation < 2 ^ 64 - 1 }
        requires now { now ≤ 2 ^ 63 }
        ensures does { Does W.has watch.old watch.new self.old self.new
            (heard_chunk self.old.settings (secrets_of self.old) now tag (chunk_value chunk.now) self.old.state).does }
        ensures goes_on { result
            ≡ (heard_chunk self.old.settings (secrets_of self.old) now tag (chunk_value chunk.now)
            self.old.state).goes_on }
    {
        self.handle(tag, chunk, now, watch);
        self.counts_behind(tag, chunk)
    }

    /// A chunk does what it does by its type. One that is too short for its fields is skipped, and so is an INIT, or a
    /// COOKIE ECHO, after another chunk.
    fn handle<W: Watch>(&mut self, tag: u32, chunk: &Chunk<'_>, now: u64, watch: &mut W)
        requires generation { self.old.state.generation < 2 ^ 64 - 1 }
        requires now { now ≤ 2 ^ 63 }
        ensures { Does W.has watch.old watch.new self.old self.new
            (heard_chunk self.old.settings (secrets_of self.old) now tag (chunk_value chunk.now) self.old.state).does }
    {
        match chunk {
            Chunk::Data(carried) => self.hear_data(carried, watch),
            Chunk::InitAck(init) => self.hear_init_ack(init, now, watch),
            Chunk::Sack(sack) => self.hear_sack(sack, now, watch),
            Chunk::Heartbeat(information) => self.hear_heartbeat(information),
            Chunk::HeartbeatAck(information) => self.hear_heartbeat_ack(information, now),
            Chunk::Abort { is_reflected, .. } => self.hear_abort(tag, *is_reflected, watch),
            Chunk::Shutdown { cumulative } => self.hear_shutdown(*cumulative, now, watch),
            Chunk::ShutdownAck => self.hear_shutdown_ack(watch),
            Chunk::Error(causes) => self.hear_error(*causes, now, watch),
            Chunk::CookieAck => self.hear_cookie_ack(now, watch),
            Chunk::ShutdownComplete { is_reflected } => {
                if self.has_tag(tag, *is_reflected) {
                    self.hear_shutdown_complete(watch);
                }
            }
            Chunk::Unknown { kind, flags, value } => self.hear_unknown(*kind, *flags, value),
            Chunk::Init(_) | Chunk::CookieEcho(_) | Chunk::Malformed { .. } => {}
        }
    }

    /// Whether the chunks after this one count, by what it left: unless it ended the association, or its try restarted.
    fn counts_behind(&self, tag: u32, chunk: &Chunk<'_>) -> bool
        ensures { result ≡ counts_behind (chunk_value chunk.now) tag self.now.state }
    {
        match chunk {
            Chunk::Abort { .. } => false,
            Chunk::Unknown { kind, .. } => is_skipped(*kind),
            _ => !is_closed(self.phase) && self.own_tag == tag,
        }
    }

    /// Whether a packet that begins with this chunk has the right tag.
    pub(super) fn has_tag_of(&self, tag: u32, chunk: &Chunk<'_>) -> bool
        ensures { result ≡ has_tag self.now.state.association tag (chunk_value chunk.now) }
    {
        self.has_tag(tag, has_peer_tag(chunk))
    }
}

/// Whether a packet that begins with this chunk has the tag that the peer takes packets by.
pub(super) fn has_peer_tag(chunk: &Chunk<'_>) -> bool
    ensures { result ≡ has_peer_tag (chunk_value chunk.now) }
{
    match chunk {
        Chunk::Abort { is_reflected, .. } | Chunk::ShutdownComplete { is_reflected } =>
            *is_reflected,
        _ => false,
    }
}

/// Whether there is no association, nor the try of one.
pub(super) fn is_closed(phase: Phase) -> bool
    ensures { result ≡ is_closed phase }
{
    matches!(phase, Phase::Closed)
}
