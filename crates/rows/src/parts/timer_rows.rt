//! Timers of one link, one set and two destinations, by ticks and name.
//!
//! `set TICKS NAME`, `start TICKS NAME` unless it runs, `clear 0 NAME`, `tick COUNT`; `due`: the next that is due;
//! `absent TICKS NAME`: whether it runs once it was set and started, and is then stopped.

use super::PARTING;
use crate::said::Said;
use crate::words::{number, word};
use crate::{Rows, print_rows};
use signalling_types::{LinkId, SetId};
use std::io;
use timers::{NodeCounts, TimerName, Timers};

const COUNTS: NodeCounts = NodeCounts {
    links: 1,
    sets: 1,
    destinations: 2,
};

/// Prints the rows, each with what it says.
pub(crate) fn print<R: Print + AllocGlobal>(rt: &R, text: &str) -> io::Result<()> {
    let mut timers = Timers::new(rt.alloc(), COUNTS)?;
    print_rows(rt, &mut timers, text)
}

impl Rows for Timers {
    const PARTING: &'static str = PARTING;

    fn say(&mut self, said: &mut Said, call: &str) {
        match word(call, 0) {
            "tick" => pass(self, number(call, 1)),
            "due" => say_due(said, self.next_due()),
            "absent" => {
                for verb in ["set", "start", "runs", "clear"] {
                    make(self, said, verb, call);
                }
            }
            verb => make(self, said, verb, call),
        }
    }
}

/// Lets this many ticks pass.
fn pass(timers: &mut Timers, ticks: u16) {
    for _ in 0..ticks {
        timers.tick();
    }
}

/// Makes the call of a verb with the timer that a call names.
fn make(timers: &mut Timers, said: &mut Said, verb: &str, call: &str) {
    let Some(name) = named(call) else {
        return said.say("no timer");
    };
    match verb {
        "set" => timers.set(name, number(call, 1)),
        "start" => timers.start_unless_running(name, number(call, 1)),
        "clear" => timers.clear(name),
        _ => said.say(format_args!("runs {}", timers.is_running(name))),
    }
}

/// The timer of a call, if it names one.
fn named(call: &str) -> Option<TimerName> {
    let (link, set) = (LinkId::new(number(call, 3)), SetId::new(number(call, 3)));
    let (destination, code) = (number(call, 4), number(call, 4));
    Some(match word(call, 2) {
        "L1" => TimerName::L1(link),
        "L2" => TimerName::L2(link),
        "L3" => TimerName::L3(link),
        "L4" => TimerName::L4(link),
        "L6" => TimerName::L6(link),
        "L7" => TimerName::L7(link),
        "T1" => TimerName::T1(link),
        "T2" => TimerName::T2(link),
        "T3" => TimerName::T3(link),
        "T4" => TimerName::T4(set, code),
        "T6" => TimerName::T6(number(call, 3)),
        "T8" => TimerName::T8(set, destination),
        "T10" => TimerName::T10(set, destination),
        "Slt1" => TimerName::Slt1(link),
        "Slt2" => TimerName::Slt2(link),
        _ => return None,
    })
}

/// Says the name of the timer that is due, if one is.
fn say_due(said: &mut Said, due: Option<TimerName>) {
    let Some(name) = due else {
        return said.say("none");
    };
    let (kind, first, second) = words_of(&name);
    said.say(format_args!("{kind} {first}"));
    if let Some(second) = second {
        said.say(second);
    }
}

/// The words of a timer's name: its kind, and the numbers of what it is about.
fn words_of(name: &TimerName) -> (&'static str, usize, Option<u16>) {
    match name {
        TimerName::L1(link) => ("L1", link.index(), None),
        TimerName::L2(link) => ("L2", link.index(), None),
        TimerName::L3(link) => ("L3", link.index(), None),
        TimerName::L4(link) => ("L4", link.index(), None),
        TimerName::L6(link) => ("L6", link.index(), None),
        TimerName::L7(link) => ("L7", link.index(), None),
        TimerName::T1(link) => ("T1", link.index(), None),
        TimerName::T2(link) => ("T2", link.index(), None),
        TimerName::T3(link) => ("T3", link.index(), None),
        TimerName::T4(set, code) => ("T4", set.index(), Some(u16::from(*code))),
        TimerName::T6(destination) => ("T6", usize::from(*destination), None),
        TimerName::T8(set, destination) => ("T8", set.index(), Some(*destination)),
        TimerName::T10(set, destination) => ("T10", set.index(), Some(*destination)),
        TimerName::Slt1(link) => ("Slt1", link.index(), None),
        TimerName::Slt2(link) => ("Slt2", link.index(), None),
    }
}
