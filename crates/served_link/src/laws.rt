//! Laws of associations and of counters. Each function states its law in its contract, and does nothing.

ghost use Rattle.std.specs.Prelude.{◌≡◌, List, true};
ghost use Rattle.m2pa_codec.specs.Frames.{FrameValue, spelled};
ghost use Rattle.exchange.specs.KeptQueues.{kept};
ghost use Rattle.exchange_rules.specs.Queues.{whole};
ghost use Rattle.served_link.specs.Connections.{is_pending};
ghost use Rattle.served_link.specs.ManyReads.{broken_stays_broken, cuts_do_not_matter, last_reads_are_one};
ghost use Rattle.served_link.specs.ManyReads.{reads_are_one};
ghost use Rattle.served_link.specs.Sending.{Call, GoesOutInOrder, sent_by, taken_frames_go_behind};
ghost use Rattle.served_link.specs.Laws.{counters_are_sums, counters_of_links_are_sums};
ghost use Rattle.served_link.specs.NamedTimers.{failing_timers_are_named};

use crate::watch::Watch;

/// Whatever frames are taken, and however many octets are written at a time, what goes out is the frames that were
/// taken, in order, up to the octets that aren't written yet.
pub fn frames_go_out_in_order()
    ensures { (calls : List Call) → GoesOutInOrder (sent_by calls) }
{}

/// Frames that are taken come, in order, after the octets that aren't written yet.
pub fn taken_frames_go_behind<W: Watch>()
    ensures whole { taken_frames_go_behind W.sees whole }
    // The same on what is kept.
    ensures kept { taken_frames_go_behind W.sees kept }
{}

/// A frame that was just taken leaves octets to write.
pub fn every_frame_has_octets()
    ensures { (frame : FrameValue) → is_pending (spelled frame) ≡ true }
{}

/// However octets are cut into pieces, reads of these by a new association, one after another, are together one read of
/// all the octets. These are the texts that were handed in, each once and in order, and a rest, which is held.
pub fn reads_are_one<W: Watch>()
    ensures whole { reads_are_one W.sees whole }
    // The same on what is kept.
    ensures kept { reads_are_one W.sees kept }
{}

/// They are so if the last of them is Broken.
pub fn last_reads_are_one<W: Watch>()
    ensures whole { last_reads_are_one W.sees whole }
    ensures kept { last_reads_are_one W.sees kept }
{}

/// It doesn't matter how octets were cut: the exchange is left in the same state, and the same octets are held.
pub fn cuts_do_not_matter<W: Watch>()
    ensures whole { cuts_do_not_matter W.sees whole }
    ensures kept { cuts_do_not_matter W.sees kept }
{}

/// Once a stream is broken, each read is Broken, and hands in nothing.
pub fn broken_stays_broken<W: Watch>()
    ensures whole { broken_stays_broken W.sees whole }
    ensures kept { broken_stays_broken W.sees kept }
{}

/// Each counter is the sum of what the frames, failures, retries and retransmissions of its link add to it; 2^64 - 1 if
/// the sum is above that.
pub fn counters_are_sums_of_what_was_counted()
    ensures row { counters_are_sums }
    ensures rows { counters_of_links_are_sums }
{}

/// Where a timer runs out by which a link may fail, that is the one that was named for the link before the tick: in
/// each state that an exchange reaches.
pub fn failing_timers_are_named()
    ensures { failing_timers_are_named }
{}
