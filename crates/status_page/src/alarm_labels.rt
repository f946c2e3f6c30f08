//! The labels of alarms.

ghost use Rattle.std.specs.Prelude.{◌≡◌, ◌+◌, ◌≤◌, ◌++◌, length};
ghost use Rattle.status_page.specs.AlarmSamples.{alarm_labels, alarm_subject, alarm_word};

use crate::labels::LABELS_OCTETS;
use crate::places::{destination_text, set_name};
use arrayvec::ArrayString;
use console::link_name;
use served_link::Alarm;
use settings::{PointFormat, Settings};
use signalling_types::{LinkId, SetId};

/// The labels of an alarm: what it is about, and the name of that. An alarm about the node as a whole has no name.
pub(crate) fn alarm_labels(
    settings: &Settings,
    points: PointFormat,
    alarm: &Alarm,
) -> ArrayString<LABELS_OCTETS>
    ensures { result.bytes ≡ alarm_labels points settings.now alarm.now }
{
    let mut labels = ArrayString::new();
    labels.push_str("{alarm=\"");
    labels.push_str(alarm_word(alarm));
    labels.push_str("\",name=\"");
    push_subject(settings, points, alarm, &mut labels);
    labels.push_str("\"}");
    labels
}

/// What an alarm is about.
fn alarm_word(alarm: &Alarm) -> &'static str
    ensures word { result.now ≡ alarm_word alarm.now }
    ensures fits { length result.now ≤ 11 }
{
    match *alarm {
        Alarm::LostAny | Alarm::LateAny => "flag",
        Alarm::Pool => "pool",
        Alarm::Capture => "capture",
        Alarm::Behind => "behind",
        Alarm::Link(_) => "link",
        Alarm::Set(_) => "set",
        Alarm::Destination(_) => "destination",
    }
}

/// Appends the name of what an alarm is about.
fn push_subject(
    settings: &Settings,
    points: PointFormat,
    alarm: &Alarm,
    labels: &mut ArrayString<LABELS_OCTETS>,
)
    requires { length labels.old.bytes ≤ 40 }
    ensures name { labels.new.bytes ≡ labels.old.bytes ++ alarm_subject points settings.now alarm.now }
    ensures short { length labels.new.bytes ≤ length labels.old.bytes + 32 }
{
    match *alarm {
        Alarm::LostAny => labels.push_str("lost_any"),
        Alarm::LateAny => labels.push_str("late_any"),
        Alarm::Pool | Alarm::Capture | Alarm::Behind => {}
        Alarm::Link(link) => labels.push_str(link_name(settings, link)),
        Alarm::Set(set) => labels.push_str(set_name(settings, set)),
        Alarm::Destination(destination) => {
            labels.push_str(destination_text(settings, destination as usize, points).as_str());
        }
    }
}
