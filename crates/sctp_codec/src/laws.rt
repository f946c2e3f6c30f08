//! Laws of packets, for whoever reads and writes them. Each function states its law in its contract, and does nothing.

ghost use Rattle.std.specs.Prelude.{◌≡◌, ◌↔◌, ℕ, List, Some, All};
ghost use Rattle.sctp_codec.specs.Items.{ItemValue, IsItem, AreItems, AreOctets, read_items};
ghost use Rattle.sctp_codec.specs.Items.{padded_items, joined_items};
ghost use Rattle.sctp_codec.specs.Packets.{PacketValue, ChunkValue};
ghost use Rattle.sctp_codec.specs.Reading.{chunk_in, read_packet};
ghost use Rattle.sctp_codec.specs.Addresses.{all_are_listed, init_lists, init_ack_lists, cookie_is_found};
ghost use Rattle.sctp_codec.specs.Writing.{IsChunk, IsPacket, chunk_item, packet_octets};

/// What is written for a packet reads back as it, whatever chunks it has.
pub fn packets_read_back()
    ensures { (p : PacketValue) → IsPacket p → read_packet (packet_octets p) ≡ Some p }
{}

/// What is written for a chunk reads back as it, whatever is around it.
pub fn chunks_read_back()
    ensures { (chunk : ChunkValue) → IsChunk chunk → chunk_in (chunk_item chunk) ≡ chunk }
{}

/// Items that are written read back, whether the last is padded or not.
pub fn items_read_back()
    ensures padded { (items : List ItemValue) → All IsItem items → read_items (padded_items items) ≡ Some items }
    ensures joined { (items : List ItemValue) → All IsItem items → read_items (joined_items items) ≡ Some items }
{}

/// Octets are items exactly when reading them gives these.
pub fn items_are_what_is_read()
    ensures { (octets : List ℕ) (items : List ItemValue) → AreOctets octets
        → AreItems octets items ↔ (read_items octets ≡ Some items) }
{}

/// The addresses that an end lists are those that its peer finds: of eight or fewer all, in INIT and in INIT ACK, where
/// it also finds the cookie.
pub fn listed_addresses_are_found()
    ensures all { all_are_listed }
    ensures init { init_lists }
    ensures init_ack { init_ack_lists }
    ensures cookie { cookie_is_found }
{}
