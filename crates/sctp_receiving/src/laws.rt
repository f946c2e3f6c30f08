//! Laws of the receiving half, with any peer.

ghost use Rattle.sctp_receiving.specs.Courses.{consumed_in_order, nothing_held_is_dropped, next_is_taken};

/// Whatever chunks come, in whatever order: those that are consumed have TSNs one after another from the peer's first
/// TSN on, each once; each of them came; and what is told is those chunks put together.
pub fn chunks_are_consumed_in_order()
    ensures { consumed_in_order }
{}

/// A chunk that is held stays so until it is consumed.
pub fn what_is_held_is_never_dropped()
    ensures { nothing_held_is_dropped }
{}

/// The next chunk in the order of TSNs is always taken, whatever the window.
pub fn the_next_chunk_is_always_taken()
    ensures { next_is_taken }
{}
