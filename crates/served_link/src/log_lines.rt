//! The lines of the log that tell what changed at a node, without their time.

ghost use Rattle.std.specs.Prelude.{◌≡◌, ◌+◌, ◌≤◌, ◌++◌, length};
ghost use Rattle.served_link.specs.LogLines.{alarm_change_text, changeover_text, destination_change_text, link_change_text, second_set};
ghost use Rattle.served_link.specs.LogLines.{set_change_text, sets_text};

use crate::alarm::Alarm;
use crate::alarm_text::{alarm_name, destination_name, seconds_text};
use crate::alarms::AlarmChange;
use crate::destination_states::DestinationState;
use crate::service_states::{ServiceState, StateChange};
use arrayvec::ArrayString;
use console::{link_name, set_name};
use itoa::Buffer;
use settings::{PointFormat, Settings};
use signalling_types::{LinkId, SetId};

/// Octets of a line that tells a change, at most.
pub const CHANGE_OCTETS: usize = 160;

/// Octets of the words on a changeover, at most.
const CHANGEOVER_OCTETS: usize = 34;

/// Octets of the names of two sets that are joined, with the words before them, at most.
const SETS_OCTETS: usize = 80;

/// A line that tells a change.
pub type ChangeLine = ArrayString<CHANGE_OCTETS>;

/// The line of a link that is in another state than before, so many milliseconds after the start. In ChangingOver it
/// also has how many of the link's messages aren't confirmed; in another state out of service that they have changed
/// over, if the link was in service before.
pub fn link_change_line(
    settings: &Settings,
    link: LinkId,
    change: StateChange,
    waiting: usize,
    now_ms: u64,
) -> ChangeLine
    ensures { result.bytes ≡ link_change_text settings.now link change waiting now_ms }
{
    let mut line = ChangeLine::new();
    let former = change.former;
    line.push_str("link ");
    line.push_str(link_name(settings, link));
    line.push_str(" ");
    line.push_str(change.state.words());
    line.push_str(" after ");
    line.push_str(seconds_text(now_ms.saturating_sub(former.since_ms)).as_str());
    line.push_str(" s ");
    line.push_str(former.state.words());
    line.push_str(changeover(former.state.is_in_service(), change.state, waiting).as_str());
    line
}

/// What becomes of the messages of a link that was in service or wasn't, and is in this state by now, in words.
fn changeover(
    was_in_service: bool,
    state: ServiceState,
    waiting: usize,
) -> ArrayString<CHANGEOVER_OCTETS>
    ensures { result.bytes ≡ changeover_text was_in_service state waiting }
{
    let mut text = ArrayString::new();
    if matches!(state, ServiceState::ChangingOver) {
        let mut digits = Buffer::new();
        text.push_str(", ");
        text.push_str(digits.format(waiting));
        text.push_str(" unconfirmed");
    } else if was_in_service && !state.is_in_service() {
        text.push_str(", changed over");
    }
    text
}

/// The line of a set of which a link is in service now, or none is any more.
pub fn set_change_line(settings: &Settings, set: SetId, is_available: bool) -> ChangeLine
    ensures { result.bytes ≡ set_change_text settings.now set is_available }
{
    let mut line = ChangeLine::new();
    line.push_str("set ");
    line.push_str(set_name(settings, set));
    line.push_str(if is_available {
        " available"
    } else {
        " unavailable"
    });
    line
}

/// The line of the destination of this number that is in another state than before.
pub fn destination_change_line(
    settings: &Settings,
    points: PointFormat,
    destination: u16,
    found: DestinationState,
) -> ChangeLine
    ensures { result.bytes ≡ destination_change_text points settings.now destination found }
{
    let mut line = ChangeLine::new();
    line.push_str("destination ");
    line.push_str(destination_name(settings, points, destination).as_str());
    line.push_str(" ");
    line.push_str(found.access.words());
    line.push_str(sets_taken(settings, found).as_str());
    line
}

/// The sets that messages to a destination take: ` by NAME`, ` by NAME+NAME`, or nothing.
fn sets_taken(settings: &Settings, found: DestinationState) -> ArrayString<SETS_OCTETS>
    ensures { result.bytes ≡ sets_text settings.now found }
{
    let mut text = ArrayString::new();
    if let Some(first) = found.first {
        text.push_str(" by ");
        text.push_str(set_name(settings, first));
        push_second(settings, found.second, &mut text);
    }
    text
}

/// Appends the second of two joined sets, if there is one.
fn push_second(settings: &Settings, second: Option<SetId>, text: &mut ArrayString<SETS_OCTETS>)
    requires { length text.old.bytes + 33 ≤ SETS_OCTETS }
    ensures { text.new.bytes ≡ text.old.bytes ++ second_set settings.now second }
{
    if let Some(second) = second {
        text.push_str("+");
        text.push_str(set_name(settings, second));
    }
}

/// The line of an alarm that is raised or cleared, so many milliseconds after the start.
pub fn alarm_change_line(
    settings: &Settings,
    points: PointFormat,
    alarm: &Alarm,
    change: &AlarmChange,
    now_ms: u64,
) -> ChangeLine
    ensures { result.bytes ≡ alarm_change_text points settings.now alarm.now change.now now_ms }
{
    let mut line = ChangeLine::new();
    let name = alarm_name(settings, points, alarm);
    match *change {
        AlarmChange::Raised => {
            line.push_str("alarm ");
            line.push_str(name.as_str());
        }
        AlarmChange::Cleared(since_ms) => {
            line.push_str("clear ");
            line.push_str(name.as_str());
            line.push_str(" after ");
            line.push_str(seconds_text(now_ms.saturating_sub(since_ms)).as_str());
            line.push_str(" s");
        }
    }
    line
}
