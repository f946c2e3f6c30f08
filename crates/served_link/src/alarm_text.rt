//! The names of alarms, and seconds as texts.

ghost use Rattle.std.specs.Prelude.{◌≡◌, ◌+◌, ◌<◌, ◌≤◌, ◌++◌, decimal, length};
ghost use Rattle.served_link.specs.AlarmTexts.{alarm_name, destination_name_in, seconds_text};

use crate::alarm::Alarm;
use arrayvec::ArrayString;
use console::{link_name, set_name};
use itoa::Buffer;
use settings::{POINT_OCTETS, PointFormat, Settings, point_text};

/// Octets of seconds with three digits behind the point, at most.
pub const SECONDS_OCTETS: usize = 32;

/// Octets of the name of an alarm, at most.
pub const NAME_OCTETS: usize = 44;

/// The name of an alarm: `link NAME`, `set NAME`, `destination POINT`, `flag lost_any`, `flag late_any`, `pool`,
/// `capture` or `behind`.
pub fn alarm_name(
    settings: &Settings,
    points: PointFormat,
    alarm: &Alarm,
) -> ArrayString<NAME_OCTETS>
    ensures { result.bytes ≡ alarm_name points settings.now alarm.now }
{
    let mut name = ArrayString::new();
    match *alarm {
        Alarm::LostAny => name.push_str("flag lost_any"),
        Alarm::LateAny => name.push_str("flag late_any"),
        Alarm::Pool => name.push_str("pool"),
        Alarm::Capture => name.push_str("capture"),
        Alarm::Behind => name.push_str("behind"),
        Alarm::Link(link) => {
            name.push_str("link ");
            name.push_str(link_name(settings, link));
        }
        Alarm::Set(set) => {
            name.push_str("set ");
            name.push_str(set_name(settings, set));
        }
        Alarm::Destination(destination) => {
            name.push_str("destination ");
            name.push_str(destination_name(settings, points, destination).as_str());
        }
    }
    name
}

/// The point of a destination; nothing if no destination has this number.
pub(crate) fn destination_name(
    settings: &Settings,
    points: PointFormat,
    destination: u16,
) -> ArrayString<POINT_OCTETS>
    ensures { result.bytes ≡ destination_name_in points settings.now destination }
{
    match settings.destinations().get(destination as usize) {
        Some(row) => point_text(row.point(), points),
        None => ArrayString::new(),
    }
}

/// Milliseconds as seconds, with three digits behind the point.
pub fn seconds_text(ms: u64) -> ArrayString<SECONDS_OCTETS>
    ensures { result.bytes ≡ seconds_text ms }
{
    let mut text = ArrayString::new();
    let mut buffer = Buffer::new();
    text.push_str(buffer.format(ms / 1000));
    text.push_str(".");
    push_digit(&mut text, (ms / 100 % 10) as u8);
    push_digit(&mut text, (ms / 10 % 10) as u8);
    push_digit(&mut text, (ms % 10) as u8);
    text
}

/// Puts a digit at the end of a text.
fn push_digit(text: &mut ArrayString<SECONDS_OCTETS>, digit: u8)
    requires small { digit < 10 }
    requires room { length text.old.bytes + 3 ≤ SECONDS_OCTETS }
    ensures text { text.new.bytes ≡ text.old.bytes ++ decimal digit }
    ensures short { length text.new.bytes ≤ length text.old.bytes + 3 }
{
    let mut buffer = Buffer::new();
    text.push_str(buffer.format(digit));
}
