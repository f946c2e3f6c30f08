//! What the gap blocks of a SACK name, message by message.

ghost use Rattle.std.specs.Prelude.{◌≡◌, ℕ, ◌<◌, ◌≤◌, ◌==◌, ◌||◌, false, length, replicate};
ghost use Rattle.sctp_codec.specs.Values.{block_of, blocks_of};
ghost use Rattle.sctp_sending.specs.Gaps.{is_block, is_between, block_names, names_in, marked};
ghost use Rattle.sctp_sending.specs.Sending.{is_named};

use crate::ring::CELLS;
use sctp_codec::{Block, Blocks};

/// A mark for each distance from the cumulative TSN.
const DISTANCES: usize = CELLS + 1;

/// Which messages are named, by how far each is ahead of the cumulative TSN.
pub type Marks = [bool; DISTANCES];

/// The least distance that a block names: the message after the cumulative TSN isn't there (RFC 9260 §3.3.4).
const LEAST_DISTANCE: u16 = 2;

/// What blocks name of this many messages.
pub fn marks_of(blocks: Blocks<'_>, many: usize) -> Marks
    requires { many ≤ 256 }
    ensures { (ahead : ℕ) → marked result ahead ≡ names_in (blocks_of blocks.entry) many ahead }
{
    let mut marks = no_marks();
    'each_block: for block in blocks {
        mark(&mut marks, block, many);
    }
    marks
}

/// No message is named.
fn no_marks() -> Marks
    ensures { result ≡ replicate 257 false }
{
    [false; DISTANCES]
}

/// Whether there are no blocks.
pub fn are_none(blocks: Blocks<'_>) -> bool
    ensures { result ≡ (length (blocks_of blocks.entry) == 0) }
{
    let mut rest = blocks;
    rest.next().is_none()
}

/// Marks what a block names of this many messages.
fn mark(marks: &mut Marks, block: Block, many: usize)
    requires { many ≤ 256 }
    ensures { (ahead : ℕ) → marked marks.new ahead
        ≡ (marked marks.old ahead || block_names many ahead (block_of block)) }
{
    if counts(block, many) {
        mark_between(marks, usize::from(block.start), usize::from(block.end));
    }
}

/// Whether a block counts, of this many messages.
fn counts(block: Block, many: usize) -> bool
    ensures { result ≡ is_block many (block_of block) }
{
    LEAST_DISTANCE <= block.start && block.start <= block.end && usize::from(block.end) <= many
}

/// Marks the distances from one to another.
fn mark_between(marks: &mut Marks, start: usize, end: usize)
    requires order { start ≤ end }
    requires most { end ≤ 256 }
    ensures { (ahead : ℕ) → marked marks.new ahead ≡ (marked marks.old ahead || is_between start end ahead) }
{
    for ahead in start..end + 1 {
        marks[ahead] = true;
    }
}

/// Whether the message at an index is named.
pub fn is_named(marks: &Marks, place: usize) -> bool
    requires { place < 256 }
    ensures { result ≡ is_named (marked marks.now) place }
{
    place > 0 && marks[place + 1]
}
