//! Orders about the capture, and the text that shows what is captured.

ghost use Rattle.std.specs.Prelude.{◌≡◌, ◌≤◌, length, OnOk, OnErr};
ghost use Rattle.std.specs.Option.{option_map};
ghost use Rattle.std.specs.Io.KnownBytes.{Appends};
ghost use Rattle.script.specs.Streams.{AppendsFirst, failures_after};
ghost use Rattle.served_node.specs.Captured.{after_order, answer_to, captured_line, captured_text, links_text, order_of};

use crate::captured_links::{CaptureOrder, CapturedLinks};
use arrayvec::ArrayString;
use console::link_name;
use exchange::Exchange;
use script::{Sink, WriteFailed};
use settings::{Limits, LinkId, Settings};

/// Octets of the line of a link, at most.
const LINE_OCTETS: usize = 48;

/// The answer to an order that was done.
const HANDLED: &[u8] = b"handled\n";

/// The answer to one if there is no capture.
const IGNORED: &[u8] = b"ignored\n";

/// The answer to one about a link that isn't there.
const NO_SUCH_NAME: &[u8] = b"refused 22 NoSuchName\n";

/// Does an order about the link of this name, or about all, and returns the answer.
pub(crate) fn order_capture(
    settings: &Settings,
    captured: &mut CapturedLinks,
    is_on: bool,
    name: Option<&[u8]>,
) -> &'static [u8]
    ensures answer { result.now
        ≡ answer_to (order_of settings.now is_on (option_map (λ name. name.now) name.entry)) captured.old }
    ensures captured { captured.new
        ≡ after_order (order_of settings.now is_on (option_map (λ name. name.now) name.entry)) captured.old }
{
    match order_of(settings, is_on, name) {
        Some(order) => obey(captured, order),
        None => NO_SUCH_NAME,
    }
}

/// The order about the link of this name, if there is one, or about all.
fn order_of(settings: &Settings, is_on: bool, name: Option<&[u8]>) -> Option<CaptureOrder>
    ensures { result ≡ order_of settings.now is_on (option_map (λ name. name.now) name.entry) }
{
    let Some(name) = name else {
        return Some(CaptureOrder { is_on, link: None });
    };
    let link = settings.link_named(name)?;
    Some(CaptureOrder {
        is_on,
        link: Some(link),
    })
}

/// Does an order, if there is a capture, and returns the answer.
fn obey(captured: &mut CapturedLinks, order: CaptureOrder) -> &'static [u8]
    ensures answer { result.now ≡ answer_to (Some order) captured.old }
    ensures captured { captured.new ≡ after_order (Some order) captured.old }
{
    captured.obey(order);
    if captured.is_there() {
        HANDLED
    } else {
        IGNORED
    }
}

/// Prints whether each link is captured, in the order of the settings, if there is a capture.
#[tactic(auto, using(crate::proofs::Counted::text_steps))]
pub(crate) fn print_captured<W: Sink>(
    exchange: &Exchange,
    captured: &CapturedLinks,
    writer: &mut W,
) -> Result<(), WriteFailed>
    ensures all { OnOk result (Appends (W.output writer.old).written (W.output writer.new).written
        (captured_text exchange.now captured.now)) }
    ensures first { OnErr result (AppendsFirst (W.output writer.old).written (W.output writer.new).written
        (captured_text exchange.now captured.now)) }
    ensures counted { (W.output writer.new).failures ≡ failures_after (W.output writer.old).failures result }
{
    if captured.is_there() {
        print_links(exchange, captured, writer)
    } else {
        Ok(())
    }
}

/// Prints whether each link is captured, in the order of the settings.
fn print_links<W: Sink>(
    exchange: &Exchange,
    captured: &CapturedLinks,
    writer: &mut W,
) -> Result<(), WriteFailed>
    ensures all { OnOk result (Appends (W.output writer.old).written (W.output writer.new).written
        (links_text exchange.now captured.now)) }
    ensures first { OnErr result (AppendsFirst (W.output writer.old).written (W.output writer.new).written
        (links_text exchange.now captured.now)) }
    ensures counted { (W.output writer.new).failures ≡ failures_after (W.output writer.old).failures result }
{
    let settings = exchange.settings();
    for k in 0..settings.link_count() {
        let link = LinkId::new(k as u8);
        print_link(link_name(settings, link), captured.has(link), writer)?;
    }
    Ok(())
}

/// Prints whether the link of this name is captured.
fn print_link<W: Sink>(name: &str, is_on: bool, writer: &mut W) -> Result<(), WriteFailed>
    requires { length name.now ≤ Limits.NAME_OCTETS }
    ensures all { OnOk result (Appends (W.output writer.old).written (W.output writer.new).written
        (captured_line name.now is_on)) }
    ensures first { OnErr result (AppendsFirst (W.output writer.old).written (W.output writer.new).written
        (captured_line name.now is_on)) }
    ensures counted { (W.output writer.new).failures ≡ failures_after (W.output writer.old).failures result }
{
    let line = captured_line(name, is_on);
    writer.write(line.as_bytes())
}

/// The line of the link of this name.
fn captured_line(name: &str, is_on: bool) -> ArrayString<LINE_OCTETS>
    requires { length name.now ≤ Limits.NAME_OCTETS }
    ensures { result.bytes ≡ captured_line name.now is_on }
{
    let mut line = ArrayString::new();
    line.push_str("capture ");
    line.push_str(name);
    line.push_str(if is_on { " on\n" } else { " off\n" });
    line
}
