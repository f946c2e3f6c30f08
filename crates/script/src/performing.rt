//! What the lines of a script do.

ghost use Rattle.std.specs.Prelude.{◌≡◌, ◌≤◌, false, length};
ghost use Rattle.exchange.specs.Calls.{is_memory_refused};
ghost use Rattle.exchange.specs.KeptQueues.{kept};
ghost use Rattle.console.specs.Names.{name_in};
ghost use Rattle.console.specs.Orders.{instruction};
ghost use Rattle.script.specs.Asking.{AskTake, AskWants, AskOrder, asked_line};
ghost use Rattle.script.specs.Doing.{report, printed, done, after_ticks};
ghost use Rattle.script.specs.Replies.{reply_text, lacks_memory};

use crate::line::{Line, Show};
use crate::text::{Text, frame_line, none_line, outcome_line, wants_line};
use console::{OrderText, link_name};
use exchange::{BUFFER_OCTETS, Event, Exchange};
use settings::{Cause, Limits, LinkId, Msu, Outcome};

/// What is printed for a line that was done.
#[derive(Drop)]
pub enum Reply {
    /// The line of this outcome.
    Became(Outcome),
    /// This line.
    Line(Text),
    /// The lines of a text of the console.
    Lines(Show),
}

/// Does what a line asks for, and returns what to print for it.
///
/// A link name that isn't in the settings is refused NoSuchName, and a message whose signalling information field is
/// too long is refused TooLong; neither reaches the exchange.
pub fn perform(exchange: &mut Exchange, line: Line<'_>) -> Reply
    ensures text { reply_text kept result exchange.new
        ≡ printed kept (lacks_memory result) (asked_line line.entry) exchange.old }
    ensures state { exchange.new ≡ done kept (lacks_memory result) (asked_line line.entry) exchange.old }
{
    let mut buffer = [0; Limits::FRAME_OCTETS];
    let outcome = match line {
        Line::Up { link } => match exchange.settings().link_named(link) {
            Some(link) => exchange.step(&Event::AssociationUp(link)),
            None => Outcome::Refused(Cause::NoSuchName),
        },
        Line::Down { link } => match exchange.settings().link_named(link) {
            Some(link) => exchange.step(&Event::AssociationDown(link)),
            None => Outcome::Refused(Cause::NoSuchName),
        },
        Line::Tick { ticks } => pass(exchange, ticks),
        Line::Frame { link, octets } => match exchange.settings().link_named(link) {
            Some(link) => {
                let count = octets.decode(&mut buffer);
                exchange.step(&Event::Frame(link, &buffer[..count]))
            }
            None => Outcome::Refused(Cause::NoSuchName),
        },
        Line::Submit { octets } => {
            let count = octets.decode(&mut buffer);
            match Msu::new(buffer[0], &buffer[1..count]) {
                Ok(message) => exchange.step(&Event::Submit(message.lend())),
                Err(cause) => Outcome::Refused(cause),
            }
        }
        Line::Order { order } => obey(exchange, order),
        Line::Take { link } => return Reply::Line(take(exchange, link)),
        Line::Wants { link } => return Reply::Line(wants(exchange, link)),
        Line::Show { what } => return Reply::Lines(what),
    };
    Reply::Became(outcome)
}

/// Gives an order, about the link of a name if it is about one.
fn obey(exchange: &mut Exchange, order: OrderText<'_>) -> Outcome
    ensures text { report exchange.new.settings result
        ≡ printed kept (is_memory_refused result) (AskOrder (instruction order.entry)) exchange.old }
    ensures state { exchange.new
        ≡ done kept (is_memory_refused result) (AskOrder (instruction order.entry)) exchange.old }
{
    match order.named(exchange.settings()) {
        Some(order) => exchange.step(&Event::Order(order)),
        None => Outcome::Refused(Cause::NoSuchName),
    }
}

/// Lets this many ticks pass. After each the tests of subsystems that are due are submitted.
fn pass(exchange: &mut Exchange, ticks: u16) -> Outcome
    ensures outcome { result ≡ Outcome.Handled }
    ensures state { exchange.new ≡ after_ticks kept ticks exchange.old }
{
    for _ in 0..ticks {
        exchange.step(&Event::Tick);
        exchange.test_subsystems();
    }
    Outcome::Handled
}

/// What the link of this name asks of its caller.
fn wants(exchange: &Exchange, name: &[u8]) -> Text
    ensures { result ≡ printed kept false (AskWants name.now) exchange.now }
{
    match exchange.settings().link_named(name) {
        Some(link) => wants_line(exchange.wants(link)),
        None => report(exchange, Outcome::Refused(Cause::NoSuchName)),
    }
}

/// Takes the next frame that goes out by the link of this name.
fn take(exchange: &mut Exchange, name: &[u8]) -> Text
    ensures text { result ≡ printed kept false (AskTake name.now) exchange.old }
    ensures state { exchange.new ≡ done kept false (AskTake name.now) exchange.old }
{
    let Some(link) = exchange.settings().link_named(name) else {
        return report(exchange, Outcome::Refused(Cause::NoSuchName));
    };
    let mut buffer = [0; BUFFER_OCTETS];
    match exchange.take(link, &mut buffer) {
        Some(count) => frame_line(name_of(exchange, link), &buffer[..count]),
        None => none_line(),
    }
}

/// The line of an outcome.
pub(crate) fn report(exchange: &Exchange, outcome: Outcome) -> Text
    ensures { result ≡ report exchange.now.settings outcome }
{
    match outcome {
        Outcome::Queued(link) => outcome_line(outcome, name_of(exchange, link)),
        _ => outcome_line(outcome, b""),
    }
}

/// The name of a link; nothing if no link has this number.
fn name_of(exchange: &Exchange, link: LinkId) -> &[u8]
    ensures name { result.now ≡ name_in exchange.now.settings link }
    ensures fits { length result.now ≤ Limits.NAME_OCTETS }
{
    link_name(exchange.settings(), link).as_bytes()
}
