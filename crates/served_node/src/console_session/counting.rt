//! The text of the counters.

ghost use Rattle.std.specs.Prelude.{◌++◌, ◌≤◌, ◌≡◌, codes, length, OnOk, OnErr};
ghost use Rattle.std.specs.Io.KnownBytes.{Appends};
ghost use Rattle.script.specs.Streams.{AppendsFirst, failures_after};
ghost use Rattle.served_node.specs.Counters.{counters_text, each_counter, link_text, row_text, rows_text};
ghost use Rattle.std.specs.Option.{option_copied};
ghost use Rattle.served_link.specs.Lines.{counter_line, datagrams_text};

use arrayvec::ArrayString;
use console::link_name;
use exchange::Exchange;
use script::{Sink, WriteFailed};
use served_link::{
    Counter, Counters, DATAGRAMS_OCTETS, DatagramCounters, LINE_OCTETS, LinkCounters, write_counter,
};
use settings::{Limits, LinkId};

/// Prints the counters of each link, in the order of the settings, and then those of datagrams: a line for each
/// counter.
pub fn print_counters<W: Sink>(
    exchange: &Exchange,
    counters: &Counters,
    writer: &mut W,
) -> Result<(), WriteFailed>
    ensures all { OnOk result (Appends (W.output writer.old).written (W.output writer.new).written
        (counters_text exchange.now counters.now)) }
    ensures first { OnErr result (AppendsFirst (W.output writer.old).written (W.output writer.new).written
        (counters_text exchange.now counters.now)) }
    ensures counted { (W.output writer.new).failures ≡ failures_after (W.output writer.old).failures result }
{
    print_rows(exchange, counters, writer)?;
    print_datagrams(counters.datagrams(), writer)
}

fn print_datagrams<W: Sink>(datagrams: &DatagramCounters, writer: &mut W) -> Result<(), WriteFailed>
    ensures all { OnOk result (Appends (W.output writer.old).written (W.output writer.new).written
        (datagrams_text datagrams.now)) }
    ensures first { OnErr result (AppendsFirst (W.output writer.old).written (W.output writer.new).written
        (datagrams_text datagrams.now)) }
    ensures counted { (W.output writer.new).failures ≡ failures_after (W.output writer.old).failures result }
{
    let mut lines = ArrayString::<DATAGRAMS_OCTETS>::new();
    datagrams.write(&mut lines);
    writer.write(lines.as_bytes())
}

/// Prints the counters of each link, in the order of the settings.
fn print_rows<W: Sink>(
    exchange: &Exchange,
    counters: &Counters,
    writer: &mut W,
) -> Result<(), WriteFailed>
    ensures all { OnOk result (Appends (W.output writer.old).written (W.output writer.new).written
        (rows_text exchange.now counters.now.links)) }
    ensures first { OnErr result (AppendsFirst (W.output writer.old).written (W.output writer.new).written
        (rows_text exchange.now counters.now.links)) }
    ensures counted { (W.output writer.new).failures ≡ failures_after (W.output writer.old).failures result }
{
    let settings = exchange.settings();
    for k in 0..settings.link_count() {
        let link = LinkId::new(k as u8);
        print_row(link_name(settings, link), counters.row(link), writer)?;
    }
    Ok(())
}

/// Prints the counters of the link of this name, if it has some.
#[tactic(auto, using(crate::proofs::Counted::text_steps))]
fn print_row<W: Sink>(
    name: &str,
    row: Option<&LinkCounters>,
    writer: &mut W,
) -> Result<(), WriteFailed>
    requires { length name.now ≤ Limits.NAME_OCTETS }
    ensures all { OnOk result (Appends (W.output writer.old).written (W.output writer.new).written
        (row_text name.now (option_copied row.entry))) }
    ensures first { OnErr result (AppendsFirst (W.output writer.old).written (W.output writer.new).written
        (row_text name.now (option_copied row.entry))) }
    ensures counted { (W.output writer.new).failures ≡ failures_after (W.output writer.old).failures result }
{
    match row {
        Some(row) => print_link(name, row, writer),
        None => Ok(()),
    }
}

fn print_link<W: Sink>(name: &str, row: &LinkCounters, writer: &mut W) -> Result<(), WriteFailed>
    requires { length name.now ≤ Limits.NAME_OCTETS }
    ensures all { OnOk result (Appends (W.output writer.old).written (W.output writer.new).written
        (link_text name.now row.now)) }
    ensures first { OnErr result (AppendsFirst (W.output writer.old).written (W.output writer.new).written
        (link_text name.now row.now)) }
    ensures counted { (W.output writer.new).failures ≡ failures_after (W.output writer.old).failures result }
{
    print_each(&Counter::ALL, name, row, writer)
}

/// Prints some counters of the link of this name.
fn print_each<W: Sink>(
    counters: &[Counter],
    name: &str,
    row: &LinkCounters,
    writer: &mut W,
) -> Result<(), WriteFailed>
    requires { length name.now ≤ Limits.NAME_OCTETS }
    ensures all { OnOk result (Appends (W.output writer.old).written (W.output writer.new).written
        (each_counter name.now row.now counters.now)) }
    ensures first { OnErr result (AppendsFirst (W.output writer.old).written (W.output writer.new).written
        (each_counter name.now row.now counters.now)) }
    ensures counted { (W.output writer.new).failures ≡ failures_after (W.output writer.old).failures result }
{
    for (k, counter) in counters.iter().enumerate() {
        print_counter(*counter, name, row.get(*counter), writer)?;
    }
    Ok(())
}

/// Prints the line of a counter.
fn print_counter<W: Sink>(
    counter: Counter,
    name: &str,
    value: u64,
    writer: &mut W,
) -> Result<(), WriteFailed>
    requires { length name.now ≤ Limits.NAME_OCTETS }
    ensures all { OnOk result (Appends (W.output writer.old).written (W.output writer.new).written
        (counter_line counter name.now value ++ codes "\n")) }
    ensures first { OnErr result (AppendsFirst (W.output writer.old).written (W.output writer.new).written
        (counter_line counter name.now value ++ codes "\n")) }
    ensures counted { (W.output writer.new).failures ≡ failures_after (W.output writer.old).failures result }
{
    let mut line = ArrayString::<LINE_OCTETS>::new();
    write_counter(counter, name, value, &mut line);
    writer.write(line.as_bytes())?;
    writer.write(b"\n")
}
