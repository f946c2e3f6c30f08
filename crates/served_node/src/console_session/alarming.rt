//! The table of the alarms that are raised.

ghost use Rattle.std.specs.Prelude.{◌≡◌, OnOk, OnErr};
ghost use Rattle.std.specs.Io.KnownBytes.{Appends};
ghost use Rattle.script.specs.Streams.{AppendsFirst, failures_after};
ghost use Rattle.served_node.specs.Alarmed.{alarm_row, alarms_text, raised_text, row_at};

use super::table::{Row, push_cell, push_last};
use exchange::Exchange;
use script::{Sink, WriteFailed};
use served_link::{Alarm, Alarms, alarm_name, seconds_text};
use settings::{PointFormat, Settings};

/// The head line of the alarms.
const ALARMS_HEAD: &[u8] = b"  ALARM                     SINCE\n";

/// The width of the column of names.
const NAME: usize = 24;

/// Prints a head line, and a row for each alarm that is raised: those of the node, then those of links, of sets and of
/// destinations, in the order of the settings.
pub(crate) fn print_alarms<W: Sink>(
    exchange: &Exchange,
    alarms: &Alarms,
    points: PointFormat,
    writer: &mut W,
) -> Result<(), WriteFailed>
    ensures all { OnOk result (Appends (W.output writer.old).written (W.output writer.new).written
        (alarms_text points exchange.now.settings alarms.now)) }
    ensures first { OnErr result (AppendsFirst (W.output writer.old).written (W.output writer.new).written
        (alarms_text points exchange.now.settings alarms.now)) }
    ensures counted { (W.output writer.new).failures ≡ failures_after (W.output writer.old).failures result }
{
    writer.write(ALARMS_HEAD)?;
    print_raised(exchange, alarms, points, writer)
}

/// Prints a row for each alarm that is raised.
#[tactic(auto, using(crate::proofs::Counted::text_steps))]
fn print_raised<W: Sink>(
    exchange: &Exchange,
    alarms: &Alarms,
    points: PointFormat,
    writer: &mut W,
) -> Result<(), WriteFailed>
    ensures all { OnOk result (Appends (W.output writer.old).written (W.output writer.new).written
        (raised_text points exchange.now.settings alarms.now)) }
    ensures first { OnErr result (AppendsFirst (W.output writer.old).written (W.output writer.new).written
        (raised_text points exchange.now.settings alarms.now)) }
    ensures counted { (W.output writer.new).failures ≡ failures_after (W.output writer.old).failures result }
{
    let settings = exchange.settings();
    for place in 0..alarms.places() {
        print_alarm(settings, alarms, place, points, writer)?;
    }
    Ok(())
}

/// Prints the row of the alarm at a place of the table, if it is raised.
fn print_alarm<W: Sink>(
    settings: &Settings,
    alarms: &Alarms,
    place: usize,
    points: PointFormat,
    writer: &mut W,
) -> Result<(), WriteFailed>
    ensures all { OnOk result (Appends (W.output writer.old).written (W.output writer.new).written
        (row_at points settings.now alarms.now place)) }
    ensures first { OnErr result (AppendsFirst (W.output writer.old).written (W.output writer.new).written
        (row_at points settings.now alarms.now place)) }
    ensures counted { (W.output writer.new).failures ≡ failures_after (W.output writer.old).failures result }
{
    writer.write(alarm_row_at(settings, alarms, place, points).as_bytes())
}

/// The row of the alarm at a place of the table; nothing if it isn't raised, or if there is none.
fn alarm_row_at(settings: &Settings, alarms: &Alarms, place: usize, points: PointFormat) -> Row
    ensures { result.bytes ≡ row_at points settings.now alarms.now place }
{
    let Some(since_ms) = alarms.since_at(place) else {
        return Row::new();
    };
    match Alarm::at(place) {
        Some(alarm) => alarm_row(settings, points, alarm, since_ms),
        None => Row::new(),
    }
}

/// The row of an alarm that is raised since then.
fn alarm_row(settings: &Settings, points: PointFormat, alarm: Alarm, since_ms: u64) -> Row
    ensures { result.bytes ≡ alarm_row points settings.now alarm since_ms }
{
    let mut row = Row::new();
    push_cell(
        &mut row,
        NAME,
        alarm_name(settings, points, &alarm).as_str(),
    );
    push_last(&mut row, seconds_text(since_ms).as_str());
    row
}
