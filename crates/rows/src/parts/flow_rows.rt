//! What holds flows, and changeback codes.
//!
//! A node has three links, two sets, two destinations, and 16 codes for each set. `changeover LINK`, `time LINK`,
//! `reroute DESTINATION` and `code SET CODE`, then a destination and a selection: whether that procedure holds this
//! flow, and whether it still does once it is lifted. `next SET`: the next code; `take SET COUNT`: as many, which are
//! declared; `declare SET CODE`; `lift SET CODE`; `acknowledge SET CODE`: whether the code was awaited.

use super::PARTING;
use crate::said::Said;
use crate::words::{number, word};
use crate::{Rows, print_rows};
use changeback::Changeback;
use flow_hold::{Holds, Procedure};
use signalling_types::{LinkId, SetId, Sls};
use std::io;

/// Links, sets and destinations of the node.
const LINKS: usize = 3;

const SETS: usize = 2;

const DESTINATIONS: usize = 2;

#[derive(Drop)]
struct Flows {
    holds: Holds,
    codes: Changeback,
}

/// Prints the rows, each with what it says.
pub(crate) fn print<R: Print + AllocGlobal>(rt: &R, text: &str) -> io::Result<()> {
    let holds = Holds::new(rt.alloc(), LINKS, SETS, DESTINATIONS)?;
    let codes = Changeback::new(rt.alloc(), SETS)?;
    let mut flows = Flows { holds, codes };
    print_rows(rt, &mut flows, text)
}

impl Rows for Flows {
    const PARTING: &'static str = PARTING;

    fn say(&mut self, said: &mut Said, call: &str) {
        let (set, code) = (SetId::new(number(call, 1)), number(call, 2));
        match word(call, 0) {
            "take" => take(said, &mut self.codes, set, code),
            "next" => said.or_none(self.codes.free_code(set)),
            "declare" => self.codes.declared(set, code),
            "lift" => self.holds.lift(Procedure::Code(set, code)),
            "acknowledge" => {
                let is_awaited = self.codes.acknowledge(set, code, &mut self.holds);
                said.say(if is_awaited { "awaited" } else { "unknown" });
            }
            _ => hold(said, &mut self.holds, call),
        }
    }
}

/// Says this many next codes of a set, and declares them if they come in order.
fn take(said: &mut Said, codes: &mut Changeback, set: SetId, count: u8) {
    for code in 0..count {
        said.or_none(codes.free_code(set));
        codes.declared(set, code);
    }
}

/// Says whether a procedure holds a flow, and whether it does once it is lifted.
fn hold(said: &mut Said, holds: &mut Holds, call: &str) {
    let (destination, sls) = (number(call, 3), Sls::of_low_bits(number(call, 4)));
    holds.hold(procedure(call), destination, sls);
    said.say(state_of(holds.is_held(destination, sls)));
    holds.lift(procedure(call));
    said.say(state_of(holds.is_held(destination, sls)));
}

fn state_of(is_held: bool) -> &'static str {
    if is_held { "held" } else { "free" }
}

fn procedure(call: &str) -> Procedure {
    match word(call, 0) {
        "changeover" => Procedure::Changeover(LinkId::new(number(call, 1))),
        "time" => Procedure::Time(LinkId::new(number(call, 1))),
        "reroute" => Procedure::Reroute(number(call, 1)),
        _ => Procedure::Code(SetId::new(number(call, 1)), number(call, 2)),
    }
}
