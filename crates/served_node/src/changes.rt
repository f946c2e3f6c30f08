//! What the log is told of a link and of a destination that changed.

ghost use Rattle.std.specs.Prelude.{◌≡◌, ℕ, List};
ghost use Rattle.script.specs.Streams.{Output};
ghost use Rattle.served_link.specs.Times.{millis_of};
ghost use Rattle.served_node.specs.NodeChanges.{TellsEach, destination_texts_by, link_texts_by};

use crate::log::Log;
use script::Sink;
use served_link::times::millis;
use served_link::{DestinationState, StateChange, destination_change_line, link_change_line};
use settings::{LinkId, PointFormat, Settings};

/// Tells the log how a link changed, if it did, of whose messages so many aren't confirmed.
pub(crate) fn tell_link<W: Sink>(
    settings: &Settings,
    link: LinkId,
    change: Option<StateChange>,
    waiting: usize,
    log: &mut Log<'_, W>,
)
    // What is told then comes behind it.
    ensures told { (behind : List (List ℕ)) (after : Output) →
        TellsEach log.old.now behind (W.output log.new.sink.now) after →
        TellsEach log.old.now (link_texts_by change settings.now link waiting (millis_of log.old.now) behind)
        (W.output log.old.sink.now) after }
    ensures time { log.new.now ≡ log.old.now }
{
    let Some(change) = change else {
        return;
    };
    let now_ms = millis(log.now);
    log.tell_change(&link_change_line(settings, link, change, waiting, now_ms));
}

/// Tells the log in which state a destination is, if that changed.
pub(crate) fn tell_destination<W: Sink>(
    settings: &Settings,
    points: PointFormat,
    number: u16,
    found: &DestinationState,
    is_changed: bool,
    log: &mut Log<'_, W>,
)
    // What is told then comes behind it.
    ensures told { (behind : List (List ℕ)) (after : Output) →
        TellsEach log.old.now behind (W.output log.new.sink.now) after →
        TellsEach log.old.now (destination_texts_by is_changed points settings.now number found.now behind)
        (W.output log.old.sink.now) after }
    ensures time { log.new.now ≡ log.old.now }
{
    if is_changed {
        log.tell_change(&destination_change_line(settings, points, number, *found));
    }
}
