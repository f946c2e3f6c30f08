//! The settings of a node as they are now, as a settings file.

ghost use Rattle.std.specs.Prelude.{◌≡◌, OnOk, OnErr, slice_get};
ghost use Rattle.std.specs.Io.KnownBytes.{Appends};
ghost use Rattle.console.specs.SettingsTexts.{rows_of};
ghost use Rattle.script.specs.Streams.{AppendsFirst, failures_after};
ghost use Rattle.served_node.specs.Listings.{part_text, rows_text, settings_text};

use console::{SETTINGS_PARTS, SettingsPart, settings_entries, settings_rows};
use exchange::Exchange;
use script::{Sink, WriteFailed};
use settings::PointFormat;

/// Prints the settings as they are now, as a settings file of version 4 that has no keys of a server.
#[tactic(auto, using(crate::proofs::Counted::text_steps))]
pub(crate) fn print_settings<W: Sink>(
    exchange: &Exchange,
    points: PointFormat,
    writer: &mut W,
) -> Result<(), WriteFailed>
    ensures all { OnOk result (Appends (W.output writer.old).written (W.output writer.new).written
        (settings_text points exchange.now)) }
    ensures first { OnErr result (AppendsFirst (W.output writer.old).written (W.output writer.new).written
        (settings_text points exchange.now)) }
    ensures counted { (W.output writer.new).failures ≡ failures_after (W.output writer.old).failures result }
{
    for k in 0..SETTINGS_PARTS.len() {
        print_part(exchange, k, points, writer)?;
    }
    Ok(())
}

/// Prints part `k` of the settings, if there is one.
#[tactic(auto, using(crate::proofs::Counted::text_steps))]
fn print_part<W: Sink>(
    exchange: &Exchange,
    k: usize,
    points: PointFormat,
    writer: &mut W,
) -> Result<(), WriteFailed>
    ensures all { OnOk result (Appends (W.output writer.old).written (W.output writer.new).written
        (part_text points exchange.now (slice_get SETTINGS_PARTS.now k))) }
    ensures first { OnErr result (AppendsFirst (W.output writer.old).written (W.output writer.new).written
        (part_text points exchange.now (slice_get SETTINGS_PARTS.now k))) }
    ensures counted { (W.output writer.new).failures ≡ failures_after (W.output writer.old).failures result }
{
    match SETTINGS_PARTS.get(k) {
        Some(part) => print_rows(exchange, *part, points, writer),
        None => Ok(()),
    }
}

/// Prints the rows of a part.
#[tactic(auto, using(crate::proofs::Counted::text_steps))]
fn print_rows<W: Sink>(
    exchange: &Exchange,
    part: SettingsPart,
    points: PointFormat,
    writer: &mut W,
) -> Result<(), WriteFailed>
    ensures all { OnOk result (Appends (W.output writer.old).written (W.output writer.new).written
        (rows_text points exchange.now part)) }
    ensures first { OnErr result (AppendsFirst (W.output writer.old).written (W.output writer.new).written
        (rows_text points exchange.now part)) }
    ensures counted { (W.output writer.new).failures ≡ failures_after (W.output writer.old).failures result }
{
    for k in 0..settings_entries(exchange, part) {
        print_entry(exchange, part, k, points, writer)?;
    }
    Ok(())
}

/// Prints the rows of entry `k` of a part.
fn print_entry<W: Sink>(
    exchange: &Exchange,
    part: SettingsPart,
    k: usize,
    points: PointFormat,
    writer: &mut W,
) -> Result<(), WriteFailed>
    ensures all { OnOk result (Appends (W.output writer.old).written (W.output writer.new).written
        (rows_of points exchange.now part k)) }
    ensures first { OnErr result (AppendsFirst (W.output writer.old).written (W.output writer.new).written
        (rows_of points exchange.now part k)) }
    ensures counted { (W.output writer.new).failures ≡ failures_after (W.output writer.old).failures result }
{
    writer.write(settings_rows(exchange, part, k, points).as_bytes())
}
