//! Why an INIT or an INIT ACK would be refused.

ghost use Rattle.std.specs.Prelude.{◌≡◌};
ghost use Rattle.sctp_codec.specs.Parameters.{host_name_in};
ghost use Rattle.sctp_codec.specs.Reading.{read_packet};
ghost use Rattle.sctp_codec.specs.Values.{chunk_value, init_of, packet_of};
ghost use Rattle.sctp_endpoint.specs.Endpoints.{secrets_of};
ghost use Rattle.sctp_endpoint.specs.Refusing.{
  chunk_refusal,
  init_ack_refusal,
  init_refusal,
  packet_refusal,
  refusal,
  refused_by_tag,
  refused_in,
  unusable,
};

use crate::endpoint::Endpoint;
use crate::endpoint::answering::has_few_streams;
use crate::refusal::Refusal;
use sctp_codec::{Chunk, Init, Packet, cookie, host_name};
use sctp_rules::Phase;
use sctp_rules::limits::COOKIE_OCTETS;

impl Endpoint {
    /// Why a datagram would be refused that has an INIT, or an INIT ACK for the try of this end. None if it has none of
    /// them, or if an INIT would be answered by INIT ACK, and the cookie of an INIT ACK echoed.
    #[tactic(auto, unfolding(crate::specs::Refusing::refusal))]
    pub fn refusal(&self, octets: &[u8]) -> Option<Refusal>
        ensures { result ≡ refusal (read_packet octets.now) self.now.settings (secrets_of self.now) self.now.state }
    {
        match Packet::read(octets) {
            Some(packet) => self.packet_refusal(&packet),
            None => None,
        }
    }

    /// The UDP port to which the packets of the association go.
    pub fn peer_port(&self) -> u16
        ensures { result ≡ self.now.state.association.address.port }
    {
        self.address.port
    }

    /// The same of a packet.
    fn packet_refusal(&self, packet: &Packet<'_>) -> Option<Refusal>
        ensures { result ≡ packet_refusal self.now.settings (secrets_of self.now) (packet_of packet.now) self.now.state }
    {
        if packet.destination != self.settings.own_port || packet.source != self.settings.far_port {
            return None;
        }
        let mut chunks = packet.chunks();
        match chunks.next() {
            Some(chunk) => self.chunk_refusal(packet.tag, &chunk),
            None => None,
        }
    }

    /// The same of the first chunk of a packet with a tag.
    fn chunk_refusal(&self, tag: u32, chunk: &Chunk<'_>) -> Option<Refusal>
        ensures { result ≡ chunk_refusal (secrets_of self.now) tag (chunk_value chunk.now) self.now.state }
    {
        match chunk {
            Chunk::Init(init) => self.init_refusal(init),
            Chunk::InitAck(init) if tag == self.own_tag => self.init_ack_refusal(init),
            _ => None,
        }
    }

    /// Why an INIT would not be answered by INIT ACK.
    fn init_refusal(&self, init: &Init<'_>) -> Option<Refusal>
        ensures { result ≡ init_refusal (secrets_of self.now) (init_of init.now) self.now.state }
    {
        if init.offer.tag == 0 {
            return Some(Refusal::WithoutTag);
        }
        match host_name(init.parameters) {
            Some(_) => Some(Refusal::HostName),
            None if has_few_streams(init) => Some(Refusal::FewStreams),
            None => self.refused_in(init),
        }
    }

    /// Why an INIT would not be answered by INIT ACK, by the state.
    fn refused_in(&self, init: &Init<'_>) -> Option<Refusal>
        ensures { result ≡ refused_in self.now.state.association.phase (secrets_of self.now) (init_of init.now)
            self.now.state }
    {
        match self.phase {
            Phase::Closed if !self.is_wanted => Some(Refusal::Unwanted),
            Phase::CookieWait => None,
            Phase::CookieEchoed if init.offer.tag == self.far_tag => None,
            Phase::ShutdownAckSent => Some(Refusal::ShuttingDown),
            Phase::Closed
            | Phase::CookieEchoed
            | Phase::Established
            | Phase::ShutdownPending
            | Phase::ShutdownSent
            | Phase::ShutdownReceived => self.refused_by_tag(),
        }
    }

    /// An answer needs a tag.
    fn refused_by_tag(&self) -> Option<Refusal>
        ensures { result ≡ refused_by_tag ((secrets_of self.now).beginning self.now.state.beginnings) }
    {
        if self.beginnings.is_spent() {
            Some(Refusal::NoTagLeft)
        } else {
            None
        }
    }

    /// Why an INIT ACK with the tag of the try would end it: it counts in COOKIE-WAIT alone.
    fn init_ack_refusal(&self, init: &Init<'_>) -> Option<Refusal>
        ensures { result ≡ init_ack_refusal (init_of init.now) self.now.state }
    {
        if !matches!(self.phase, Phase::CookieWait) || self.attempt.is_none() {
            return None;
        }
        if init.offer.tag == 0 {
            return Some(Refusal::WithoutTag);
        }
        unusable(init)
    }
}

/// Why an INIT ACK with a tag can't be used.
fn unusable(init: &Init<'_>) -> Option<Refusal>
    ensures { result ≡ unusable (host_name_in (init_of init.now).parameters) (init_of init.now) }
{
    match host_name(init.parameters) {
        Some(_) => Some(Refusal::HostName),
        None if has_few_streams(init) => Some(Refusal::FewStreams),
        None => match cookie(init.parameters) {
            None => Some(Refusal::WithoutCookie),
            Some(cookie) if cookie.len() > COOKIE_OCTETS => Some(Refusal::LongCookie),
            Some(_) => None,
        },
    }
}
