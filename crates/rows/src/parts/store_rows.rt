//! Stores of messages, and the numbers of a link's messages over one.
//!
//! A store has two lists. Digits are messages; even digits are management. `put LIST DIGITS` and `fill LIST DIGIT
//! TIMES` say for what cause a message is refused, if it is; `lists`: the messages of both; `count LIST`;
//! `managements`; `drop LIST COUNT`; `append`, `splice_front`, `move_where` and `splice_where FROM TO`; `turn LIST`:
//! its first message goes to its end.
//!
//! The messages of a link are in the first list, and those that it holds in the second. `start NUMBER`: a new link,
//! whose last number is this one; `send COUNT WINDOW`; `goes WINDOW`: whether the window lets a message go; `numbers`:
//! the last sent, the last accepted, and how many aren't confirmed; `retrieve NUMBER`: how many messages the number
//! confirms; `complete NUMBER`: how many messages a changeover with the number leaves in doubt, and how many aren't
//! confirmed then; `empty`.

ghost use Rattle.std.specs.Prelude.{◌≤◌};
ghost use Rattle.signalling_types.specs.declared.limits.TheConstants.Limits;

use super::PARTING;
use crate::said::Said;
use crate::words::{number, word};
use crate::{Rows, print_rows};
use cell_pool::{CellPool, Lanes, UserMessages};
use changeover::{complete, count_in_doubt};
use link::Sequence;
use signalling_types::{Msu, Number24};
use std::io;

/// Room for few user messages.
pub(crate) const FEW: usize = 3;

/// Room for the messages of the largest window, and one more.
pub(crate) const MANY: usize = 16_385;

/// A store of two lists, and the numbers of the messages of the first.
#[derive(Drop)]
struct Link<L> {
    lanes: L,
    sequence: Sequence,
}

/// Prints the rows of a store with room for this many user messages, each with what it says.
pub(crate) fn print<R: Print + AllocGlobal>(rt: &R, text: &str, pool: usize) -> io::Result<()>
    requires { pool ≤ Limits.POOL }
{
    let lanes = CellPool::new(rt.alloc(), 2, pool)?;
    let sequence = Sequence::start();
    let mut link = Link { lanes, sequence };
    print_rows(rt, &mut link, text)
}

impl<L: Lanes> Rows for Link<L> {
    const PARTING: &'static str = PARTING;

    fn say(&mut self, said: &mut Said, call: &str) {
        let Link { lanes, sequence } = self;
        if lanes.lanes() != 2 {
            return;
        }
        match word(call, 0) {
            "start" => *sequence = Sequence::starting_at(number_24(call)),
            "empty" => sequence.empty(),
            "send" => send(lanes, sequence, said, call),
            "goes" => {
                let goes = sequence.next_to_send(lanes, 0, number(call, 1)).is_some();
                said.say(format_args!("goes {goes}"));
            }
            "numbers" => said.say(format_args!(
                "sent {} accepted {} unconfirmed {}",
                sequence.last_sent().value(),
                sequence.last_accepted().value(),
                sequence.outstanding()
            )),
            "retrieve" => {
                said.say("retrieved");
                said.or_none(sequence.retrieve(number_24(call)));
            }
            "complete" => {
                said.say("doubt");
                said.or_none(count_in_doubt(sequence, Some(number_24(call))));
                complete(lanes, 0, 1, sequence, Some(number_24(call)));
                said.say(format_args!("unconfirmed {}", sequence.outstanding()));
            }
            _ => make_of_store(lanes, said, call),
        }
    }
}

/// The number of a call; 0 if it says none.
fn number_24(call: &str) -> Number24 {
    Number24::new(number(call, 1)).unwrap_or(Number24::zero())
}

/// Sends as many messages as the call says, and notes the place of each, so that the next one is found at once. Says
/// which isn't sent, if one isn't.
fn send<L: Lanes>(lanes: &mut L, sequence: &mut Sequence, said: &mut Said, call: &str) {
    for sent in 0..number::<usize>(call, 1) {
        let is_there = lanes.lanes() > 0;
        if !is_there || sequence.next_to_send(lanes, 0, number(call, 2)).is_none() {
            return said.say(format_args!("unsent {sent}"));
        }
        lanes.note(0, sequence.outstanding());
    }
}

/// Makes a call of a store, and says the answer.
fn make_of_store<L: Lanes>(lanes: &mut L, said: &mut Said, call: &str) {
    let list = number(call, 1);
    match word(call, 0) {
        "lists" => say_lists(lanes, said),
        "managements" => said.say(format_args!("managements {}", lanes.managements())),
        _ if list >= lanes.lanes() => said.say("no list"),
        "put" => put(lanes, list, word(call, 2), 1, said),
        "fill" => put(lanes, list, word(call, 2), number(call, 3), said),
        "count" => said.say(format_args!("count {}", lanes.count(list))),
        "drop" => lanes.drop_front(list, number(call, 2)),
        "turn" => lanes.move_first(list, list),
        way => move_lists(lanes, way, list, number(call, 2), said),
    }
}

/// Puts the messages of digits at the end of a list, this many times. Says for what cause each is refused, if it is.
fn put<L: Lanes>(lanes: &mut L, list: usize, digits: &str, times: usize, said: &mut Said) {
    for _ in 0..times {
        for digit in digits.bytes() {
            let cause = push(lanes, list, digit);
            if !cause.is_empty() {
                said.say(cause);
            }
        }
    }
}

/// Puts the message of a digit at the end of a list, and returns why it is refused, if it is.
fn push<L: Lanes>(lanes: &mut L, list: usize, digit: u8) -> &'static str {
    let sio = if digit % 2 == 0 { 0x80 } else { 0x85 };
    match Msu::new(sio, &[0x2c, 0x41, 0x00, 0x50, digit]) {
        Ok(message) if list < lanes.lanes() => match lanes.push_back(list, message.lend()) {
            Ok(()) => "",
            Err(cause) => cause.name(),
        },
        _ => "no message",
    }
}

/// Says the digits of the messages of both lists; `-` is none.
fn say_lists<L: Lanes>(lanes: &L, said: &mut Said) {
    for list in 0..lanes.lanes() {
        let count = lanes.count(list);
        said.say(if count == 0 { "-" } else { "" });
        for place in 0..count {
            said.push(digit_of(lanes, list, place));
        }
    }
}

/// The digit of the message at an index of a list.
fn digit_of<L: Lanes>(lanes: &L, list: usize, place: usize) -> char {
    if list >= lanes.lanes() {
        return '?';
    }
    match lanes.get(list, place) {
        Some(message) => char::from(message.sif().last().copied().unwrap_or(b'?')),
        None => '?',
    }
}

/// Moves messages from a list to another.
fn move_lists<L: Lanes>(lanes: &mut L, way: &str, from: usize, to: usize, said: &mut Said) {
    if from >= lanes.lanes() || to >= lanes.lanes() || from == to {
        return said.say("no list");
    }
    match way {
        "append" => lanes.append(from, to),
        "splice_front" => lanes.splice_front(from, to),
        "move_where" => lanes.move_where(from, to, &UserMessages),
        "splice_where" => lanes.splice_where(from, to, &UserMessages),
        _ => said.say("no call"),
    }
}
