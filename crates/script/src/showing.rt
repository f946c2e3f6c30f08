//! The texts of the console, printed line by line.

ghost use Rattle.std.specs.Prelude.{◌≡◌, OnOk, OnErr};
ghost use Rattle.std.specs.Io.KnownBytes.{Appends};
ghost use Rattle.exchange.specs.KeptQueues.{kept};
ghost use Rattle.console.specs.Texts.{Shows};
ghost use Rattle.script.specs.Replies.{reply_text};
ghost use Rattle.script.specs.Showing.{line_of, most_lines, ended, shown_text};
ghost use Rattle.script.specs.Streams.{AppendsFirst, failures_after};

use crate::line::Show;
use crate::performing::{Reply, report};
use crate::sink::{Sink, WriteFailed};
use crate::text::console_line;
use arrayvec::ArrayString;
use console::{
    FLAGS, LINE_OCTETS, LOSSES, REROUTINGS, show_flags, show_links, show_losses, show_notices,
    show_reroutings, show_routes, show_subsystems, show_titles,
};
use exchange::Exchange;

/// Prints the outcome of a line. It allocates no memory.
pub fn print<W: Sink>(exchange: &Exchange, reply: &Reply, writer: &mut W) -> Result<(), WriteFailed>
    ensures all { OnOk result (Appends (W.output writer.old).written (W.output writer.new).written
        (reply_text kept reply.now exchange.now)) }
    ensures first { OnErr result (AppendsFirst (W.output writer.old).written (W.output writer.new).written
        (reply_text kept reply.now exchange.now)) }
    ensures counted { (W.output writer.new).failures ≡ failures_after (W.output writer.old).failures result }
{
    match reply {
        Reply::Became(outcome) => writer.write(report(exchange, *outcome).as_slice()),
        Reply::Line(text) => writer.write(text.as_slice()),
        Reply::Lines(what) => show_text(exchange, *what, writer),
    }
}

/// Prints the lines of a text.
fn show_text<W: Sink>(exchange: &Exchange, what: Show, writer: &mut W) -> Result<(), WriteFailed>
    ensures all { OnOk result (Appends (W.output writer.old).written (W.output writer.new).written
        (shown_text kept what exchange.now)) }
    ensures first { OnErr result (AppendsFirst (W.output writer.old).written (W.output writer.new).written
        (shown_text kept what exchange.now)) }
    ensures counted { (W.output writer.new).failures ≡ failures_after (W.output writer.old).failures result }
{
    for k in 0..most_lines(exchange, what) {
        show_line(exchange, what, k, writer)?;
    }
    Ok(())
}

/// Prints a line of a text, if there is one.
#[tactic(auto, using(crate::proofs::Shown::line_steps))]
fn show_line<W: Sink>(
    exchange: &Exchange,
    what: Show,
    k: usize,
    writer: &mut W,
) -> Result<(), WriteFailed>
    ensures all { OnOk result (Appends (W.output writer.old).written (W.output writer.new).written
        (ended (line_of kept what exchange.now k))) }
    ensures first { OnErr result (AppendsFirst (W.output writer.old).written (W.output writer.new).written
        (ended (line_of kept what exchange.now k))) }
    ensures counted { (W.output writer.new).failures ≡ failures_after (W.output writer.old).failures result }
{
    let mut line = ArrayString::new();
    if !write_line(exchange, what, k, &mut line) {
        return Ok(());
    }
    writer.write(console_line(line.as_str()).as_slice())
}

/// Writes a line of a text to the buffer, if there is one.
fn write_line(
    exchange: &Exchange,
    what: Show,
    k: usize,
    line: &mut ArrayString<LINE_OCTETS>,
) -> bool
    ensures { Shows (line_of kept what exchange.now k) result line.old.bytes line.new.bytes }
{
    match what {
        Show::Links => show_links(exchange, k, line),
        Show::Routes(points) => show_routes(exchange, k, points, line),
        Show::Titles(points) => show_titles(exchange, k, points, line),
        Show::Subsystems(points) => show_subsystems(exchange, k, points, line),
        Show::Notices(points) => show_notices(exchange, k, points, line),
        Show::Flags => show_flags(exchange, k, line),
        Show::Losses => show_losses(exchange, k, line),
        Show::Reroutings => show_reroutings(exchange, k, line),
    }
}

/// How many lines a text has, at most.
fn most_lines(exchange: &Exchange, what: Show) -> usize
    ensures { result ≡ most_lines what exchange.now }
{
    match what {
        Show::Links => exchange.settings().links().len(),
        Show::Routes(_) => exchange.settings().destinations().len(),
        Show::Titles(_) => exchange.title_count(),
        Show::Subsystems(_) => exchange.titles().prohibited_len(),
        Show::Notices(_) => exchange.notices().len(),
        Show::Flags => FLAGS,
        Show::Losses => LOSSES,
        Show::Reroutings => REROUTINGS,
    }
}
