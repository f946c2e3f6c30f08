//! What a SACK says of a receiver (RFC 9260 §3.3.4).

ghost use Rattle.std.specs.Prelude.{◌≡◌, ◌≤◌, length, map, take};
ghost use Rattle.sctp_codec.specs.Values as value;
ghost use Rattle.sctp_receiving.specs.Sack.{blocks};
ghost use Rattle.sctp_receiving.specs.Receiver.{window};
ghost use Rattle.sctp_rules.specs.Data.{block_of};

use sctp_codec::Block;
use sctp_receiving::Receiver;
use sctp_receiving::limits::BLOCKS;

/// What is where no gap block was written.
pub(crate) const NO_BLOCK: Block = Block { start: 0, end: 0 };

/// Writes the gap blocks of a SACK, and returns how many there are.
pub(crate) fn write_gaps(out: &mut [Block; BLOCKS], receiver: &Receiver) -> usize
    ensures most { result ≤ BLOCKS }
    ensures blocks { map value.block_of (take result out.new) ≡ map block_of (blocks receiver.now) }
{
    write_blocks(out, &receiver.blocks())
}

/// Writes gap blocks as those of a chunk, and returns how many there are.
fn write_blocks(out: &mut [Block; BLOCKS], blocks: &[sctp_receiving::Block]) -> usize
    requires { length blocks.now ≤ BLOCKS }
    ensures count { result ≡ length blocks.now }
    ensures blocks { map value.block_of (take result out.new) ≡ map block_of blocks.now }
{
    for i in 0..blocks.len() {
        out[i] = Block {
            start: blocks[i].start,
            end: blocks[i].end,
        };
    }
    blocks.len()
}

/// The window that the peer is told, in octets.
pub(crate) fn window_of(receiver: &Receiver) -> u32
    ensures { result ≡ window receiver.now }
{
    receiver.window() as u32
}
