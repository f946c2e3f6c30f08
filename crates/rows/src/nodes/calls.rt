//! Calls that no script makes: in a row, about numbers that name nothing, and with a frame of no octets; and what no
//! script sees: when a node says that messages may be lost, or late.

use super::drafts::{facing, with_two_links};
use super::node::Node;
use super::{after_words, script_of, text_of};
use crate::said::Said;
use crate::words::number;
use exchange::{Answer, Call, Event, Exchange, Order, Wants};
use script::{MemorySink, MemorySource, built_in};
use settings::{LinkId, Msu, Notice, Outcome};
use std::alloc::Global;

/// A Link Status before any message: the peer proves.
const PROVING: &[u8] = b"\x01\0\x0b\x02\0\0\0\x14\0\xff\xff\xff\0\xff\xff\xff\0\0\0\x02";

/// The same: the peer is ready.
const READY: &[u8] = b"\x01\0\x0b\x02\0\0\0\x14\0\xff\xff\xff\0\xff\xff\xff\0\0\0\x04";

/// A frame with a message from point 2 to point 300, the first of its link. It confirms the first that went out.
const COMES: &[u8] = b"\x01\0\x0b\x01\0\0\0\x18\0\0\0\0\0\0\0\0\0\x85\x2c\x81\0\x50\xaa\xbb";

/// A frame of another version.
const OTHER_VERSION: &[u8] = b"\x02\0\x0b\x02\0\0\0\x08";

/// The call of a word about link 0.
fn call<'a>(word: &str, message: &'a Msu) -> Call<'a> {
    let link = LinkId::new(0);
    match word {
        "up" => Call::Step(Event::AssociationUp(link)),
        "proving" => Call::Step(Event::Frame(link, PROVING)),
        "ready" => Call::Step(Event::Frame(link, READY)),
        "tick" => Call::Step(Event::Tick),
        "comes" => Call::Step(Event::Frame(link, COMES)),
        "version" => Call::Step(Event::Frame(link, OTHER_VERSION)),
        "empty" => Call::Step(Event::Frame(link, b"")),
        "submit" => Call::Step(Event::Submit(message.lend())),
        "take" => Call::Take(link),
        _ => Call::Wants(link),
    }
}

/// Makes the calls of a row in a row, and says the answers, and the first notice then.
pub(crate) fn calls(said: &mut Said, alloc: Global, row: &str) {
    // a message of point 2 to this point
    let Ok(message) = Msu::new(0x85, &[0x01, 0x80, 0x00, 0x50]) else {
        return;
    };
    let Some(mut node) = Node::new(alloc, built_in(alloc)) else {
        return;
    };
    if let Some(answers) = answers_of(alloc, &mut node, &message, row) {
        for answer in &answers {
            say_answer(said, answer);
        }
    }
    say_first_notice(said, node.shown());
}

/// The answers of a node to the calls of a row. None if memory runs out.
fn answers_of(alloc: Global, node: &mut Node, message: &Msu, row: &str) -> Option<Vec<Answer>> {
    let mut calls = Vec::new(alloc);
    for word in after_words(row, 1).split("; ") {
        calls.push(call(word, message)).ok()?;
    }
    node.run(alloc, calls.as_slice())
}

fn say_answer(said: &mut Said, answer: &Answer) {
    match answer {
        Answer::Stepped(outcome) => said.say(name_of(outcome)),
        Answer::Taken(Some(text)) => said.octets(text.octets()),
        Answer::Taken(None) => said.say("none"),
        Answer::Wanted(wants) => said.show(wants),
    }
}

fn name_of(outcome: &Outcome) -> &'static str {
    match outcome {
        Outcome::Queued(_) => "queued",
        Outcome::Held => "held",
        Outcome::Local => "local",
        Outcome::Handled => "handled",
        Outcome::Ignored => "ignored",
        Outcome::Refused(cause) => cause.name(),
    }
}

/// Says the fault of the frame that a node noted first, and its link.
fn say_first_notice(said: &mut Said, shown: &Exchange) {
    match shown.notices().front() {
        Some(Notice::Frame(fault, link)) => {
            said.say(format_args!("{fault:?} {}", link.index()));
        }
        _ => said.say("other"),
    }
}

/// Says what becomes of events about a link, and what a node with one link and one destination shows of it, and of a
/// row of its number.
pub(crate) fn absent(said: &mut Said, alloc: Global, row: &str) {
    if let Some(mut node) = Node::new(alloc, facing(alloc, 1, 2)) {
        say_absent(said, &mut node, LinkId::new(number(row, 1)));
    }
}

/// The same of a node.
fn say_absent(said: &mut Said, node: &mut Node, link: LinkId) {
    say_events(said, node, link);
    said.say(format_args!("taken {}", node.take(link).is_some()));
    say_shown(said, node.shown(), link);
}

/// Says what becomes of events about a link.
fn say_events(said: &mut Said, node: &mut Node, link: LinkId) {
    let activate = Order::Activate {
        link,
        emergency: false,
    };
    for event in &[
        Event::AssociationUp(link),
        Event::AssociationDown(link),
        Event::Frame(link, b""),
        Event::Order(activate),
        Event::Order(Order::Deactivate(link)),
    ] {
        said.say(name_of(&node.step(event)));
    }
}

/// Says what a node shows of a link, and of a row of its number.
fn say_shown(said: &mut Said, shown: &Exchange, link: LinkId) {
    let row = link.index();
    said.say(format_args!(
        "wanted {} link {} route {} title {}",
        shown.wants(link) != Wants::Nothing,
        shown.link(link).is_some(),
        shown.route(row).is_some(),
        shown.title(row).is_some()
    ));
}

/// Plays what a row names on a node, in order: a script of the text, or a line. Says which isn't done, and at each
/// `doubts` whether messages may be lost, and whether they may be late.
pub(crate) fn plays(said: &mut Said, alloc: Global, text: &str, row: &str) {
    let Some(mut node) = Node::new(alloc, with_two_links(alloc)) else {
        return;
    };
    for part in after_words(row, 1).split("; ") {
        play(said, alloc, &mut node, part, script_of(text, part));
    }
}

/// Plays a script on a node, and says its name if it isn't done; `doubts` says whether messages may be lost, and
/// whether they may be late.
fn play(said: &mut Said, alloc: Global, node: &mut Node, name: &str, script: &str) {
    if name == "doubts" {
        say_doubts(said, node.shown());
    } else if !does(alloc, node, script) {
        said.say(format_args!("undone {name}"));
    }
}

/// Does a script. Whether all its lines are done: none is malformed, refused or ignored.
fn does(alloc: Global, node: &mut Node, script: &str) -> bool {
    match text_of(alloc, script) {
        Ok(text) => does_lines(alloc, node, text.as_str().as_bytes()),
        Err(_) => false,
    }
}

/// The same of its text.
fn does_lines(alloc: Global, node: &mut Node, text: &[u8]) -> bool {
    let mut writer = MemorySink::new(alloc);
    let run = node.play(&mut MemorySource::new(text), &mut writer);
    run.is_ok() && are_done(writer.written())
}

/// Whether what was printed says that no line was refused or ignored.
fn are_done(printed: &[u8]) -> bool {
    match str::from_utf8(printed) {
        Ok(text) => !text.contains("refused") && !text.contains("ignored"),
        Err(_) => false,
    }
}

/// Says whether a node says that messages may be lost, and whether they may be late: no script sees it.
fn say_doubts(said: &mut Said, shown: &Exchange) {
    let (lost, late) = (shown.lost_any(), shown.late_any());
    said.say(format_args!("lost {lost} late {late}"));
}
