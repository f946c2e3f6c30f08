//! Completing a changeover.

ghost use Rattle.std.specs.Prelude.{◌≡◌, ◌≢◌, ℕ, ◌<◌, List, length};
ghost use Rattle.signalling_types.specs.Message.{Message};
ghost use Rattle.cell_pool.specs.Lanes.{lane_at};
ghost use Rattle.link.specs.Queue.{Queue};
ghost use Rattle.link.specs.Counts.{kept_emptied};
ghost use Rattle.link.specs.Keeps.{Keeps};
ghost use Rattle.changeover.specs.Changeover.{accepted_count, doubted, held_after, queued_anew};
ghost use Rattle.changeover.specs.Kept.{kept_accepted_count, kept_done_with, kept_doubted};
ghost use Rattle.changeover.specs.Lanes.{spliced};

use cell_pool::{Lanes, UserMessages};
use link::Sequence;
use signalling_types::Number24;

/// How many messages of a failed link may be lost, since it isn't known whether the peer accepted them: those that were
/// sent and aren't confirmed. They come first in its list. None if the peer's number is reasonable, that is, names how
/// many the peer accepted (Q.704 §5.4).
pub fn count_in_doubt(sequence: &Sequence, confirmed: Option<Number24>) -> Option<usize>
    ensures count { result ≡ kept_doubted sequence.now (kept_accepted_count sequence.now confirmed) }
    ensures queue { (w : ℕ) (lane : List Message) (q : Queue) →
        Keeps w sequence.now lane q → result ≡ doubted q (accepted_count q confirmed) }
{
    sent_in_doubt(sequence, accepted(sequence, confirmed))
}

// The same, if it is known how many the peer accepted, or not.
fn sent_in_doubt(sequence: &Sequence, accepted: Option<usize>) -> Option<usize>
    ensures { result ≡ kept_doubted sequence.now accepted }
{
    match accepted {
        Some(_) => None,
        None => Some(sequence.outstanding()),
    }
}

/// Completes the changeover of a failed link with the peer's number, if it gave one (Q.704 §5.4).
///
/// Messages that the number says the peer accepted are dropped from the link's list; without a reasonable number, those
/// that were sent. The user messages left, sent or unsent, go in order before all held messages; the management
/// messages left stay in the link's list, in order. Then the link's numbers start over. No message is copied.
pub fn complete<L: Lanes>(
    lanes: &mut L,
    lane: usize,
    held: usize,
    sequence: &mut Sequence,
    confirmed: Option<Number24>,
)
    requires lane { lane < length (L.lists lanes.old) }
    requires held { held < length (L.lists lanes.old) }
    requires apart { lane ≢ held }
    ensures lists { L.lists lanes.new
        ≡ spliced (L.lists lanes.old) lane (kept_done_with sequence.old confirmed) held }
    ensures pool { L.pool lanes.new ≡ L.pool lanes.old }
    ensures counts { sequence.new ≡ kept_emptied sequence.old }
    ensures queue_held { (w : ℕ) (q : Queue) →
        Keeps w sequence.old (lane_at (L.lists lanes.old) lane) q →
        lane_at (L.lists lanes.new) held ≡ held_after q confirmed (lane_at (L.lists lanes.old) held) }
    ensures queue_anew { (w : ℕ) (q : Queue) →
        Keeps w sequence.old (lane_at (L.lists lanes.old) lane) q →
        lane_at (L.lists lanes.new) lane ≡ queued_anew q confirmed }
{
    let done = done_with(sequence, confirmed);
    move_left(lanes, lane, held, done);
    sequence.empty();
}

// Drops the first messages of a list, and puts the user messages left before all of another.
fn move_left<L: Lanes>(lanes: &mut L, lane: usize, held: usize, done: usize)
    requires lane { lane < length (L.lists lanes.old) }
    requires held { held < length (L.lists lanes.old) }
    requires apart { lane ≢ held }
    ensures lists { L.lists lanes.new ≡ spliced (L.lists lanes.old) lane done held }
    ensures pool { L.pool lanes.new ≡ L.pool lanes.old }
{
    lanes.drop_front(lane, done);
    lanes.splice_where(lane, held, &UserMessages);
}

// How many messages the changeover is done with: those that the peer accepted, or without a reasonable number those
// that were sent.
fn done_with(sequence: &Sequence, confirmed: Option<Number24>) -> usize
    ensures { result ≡ kept_done_with sequence.now confirmed }
{
    match accepted(sequence, confirmed) {
        Some(count) => count,
        None => sequence.outstanding(),
    }
}

// How many messages the peer accepted beyond those that are confirmed, if its number says so.
fn accepted(sequence: &Sequence, confirmed: Option<Number24>) -> Option<usize>
    ensures { result ≡ kept_accepted_count sequence.now confirmed }
{
    match confirmed {
        Some(number) => sequence.retrieve(number),
        None => None,
    }
}
