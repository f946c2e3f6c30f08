//! Which links flows take, and what adjacent points are told, with the most links that lead to a destination.
//!
//! Two sets of 16 links lead to destinations 0 and 1, to 1 joined. `rise COUNT` and `set LINK up|down`: links come into
//! service or leave it; `prohibit DESTINATION SET`; `reset SET`; `status DESTINATION SET`; `sets DESTINATION`: how many
//! lead there; `fail DESTINATION SELECTION`: how many links fail, each the one that the flow takes then, until it has
//! none; `untold SET DESTINATION`: what becomes of telling and hearing that it is prohibited, what is owed then, and
//! whether it is the set's adjacent point.

ghost use Rattle.std.specs.Prelude.{◌≤◌, length};
ghost use Rattle.signalling_types.specs.declared.limits.TheConstants.Limits;

use super::PARTING;
use crate::said::Said;
use crate::words::{number, word};
use crate::{Rows, print_rows};
use arrayvec::ArrayVec;
use node_links::NodeLinks;
use route_management::{Heard, Told};
use routes::{RouteStatus, Routes};
use settings::{DestinationRow, LinkRow, SetRow};
use signalling_types::{LinkId, PointCode, SetId, Sls};
use std::alloc::{AllocError, Global};
use std::io;

/// Links of the node: as many as two sets may have.
const LINKS: u8 = 32;

#[derive(Drop)]
struct Network {
    routes: Routes,
    links: NodeLinks,
    told: Told,
}

/// Prints the rows, each with what it says.
pub(crate) fn print<R: Print + AllocGlobal>(rt: &R, text: &str) -> io::Result<()> {
    let links = links(rt.alloc())?;
    if links.len() > usize::from(LINKS) {
        return Ok(());
    }
    let mut network = network_of(rt.alloc(), links.as_slice())?;
    print_rows(rt, &mut network, text)
}

/// The links of two sets.
fn links(alloc: Global) -> Result<Vec<LinkRow>, AllocError> {
    let mut links = Vec::new(alloc);
    for code in 0..LINKS {
        links.push(LinkRow::new("l", SetId::new(code / 16), code % 16, None))?;
    }
    Ok(links)
}

/// A node with these links.
fn network_of(alloc: Global, links: &[LinkRow]) -> Result<Network, AllocError>
    requires { length links.now ≤ Limits.LINKS }
{
    let sets = [
        SetRow::new("east", PointCode::of_low_bits(2)),
        SetRow::new("west", PointCode::of_low_bits(3)),
    ];
    let destinations = [destination(300, false), destination(301, true)];
    Ok(Network {
        routes: Routes::new(alloc, 2, links, &destinations)?,
        links: NodeLinks::new(alloc, 2, links, &destinations)?,
        told: Told::new(alloc, &sets, &destinations)?,
    })
}

/// A destination that both sets lead to.
fn destination(code: u32, joined: bool) -> DestinationRow {
    let mut sets = ArrayVec::new();
    sets.push(SetId::new(0));
    sets.push(SetId::new(1));
    DestinationRow::new(PointCode::of_low_bits(code), sets, joined)
}

impl Rows for Network {
    const PARTING: &'static str = PARTING;

    fn say(&mut self, said: &mut Said, call: &str) {
        let Network {
            routes,
            links,
            told,
        } = self;
        let destination = number(call, 1);
        let (first, second) = (SetId::new(number(call, 1)), SetId::new(number(call, 2)));
        match word(call, 0) {
            "set" => routes.set_link(LinkId::new(number(call, 1)), word(call, 2) == "up"),
            "rise" => rise(routes, number(call, 1)),
            "reset" => routes.reset_statuses(first),
            "prohibit" => routes.set_status(destination, second, RouteStatus::Prohibited),
            "status" => {
                let status = name_of(routes.facts().status_of(destination, second));
                said.say(format_args!("status {status}"));
            }
            "sets" => {
                let count = routes.facts().sets_of(destination).len();
                said.say(format_args!("sets {count}"));
            }
            "fail" => {
                let count = fail(routes, destination, Sls::of_low_bits(number(call, 2)));
                said.say(format_args!("failed {count}"));
            }
            _ => untold(said, told, links, first, number(call, 2)),
        }
    }
}

/// This many links come into service.
fn rise(routes: &mut Routes, count: u8) {
    for link in 0..count {
        routes.set_link(LinkId::new(link), true);
    }
}

/// Fails the link that a flow takes, until it has none: how many failed.
fn fail(routes: &mut Routes, destination: usize, sls: Sls) -> usize {
    for count in 0..100usize {
        match routes.link_of(destination, sls) {
            Some(link) => routes.set_link(link, false),
            None => return count,
        }
    }
    100
}

/// Tells and hears that a destination is prohibited, and says what becomes of it.
fn untold(said: &mut Said, told: &mut Told, links: &NodeLinks, set: SetId, destination: usize) {
    told.tell(set, destination, RouteStatus::Prohibited);
    told.reset(set);
    let heard = match told.received(links, set, destination, RouteStatus::Prohibited) {
        Heard::Ignored => "ignored",
        Heard::Unchanged => "unchanged",
        Heard::Changed => "changed",
    };
    let owed = name_of(told.owed(links, set, destination));
    let is_own = told.is_own_point(set, destination);
    said.say(format_args!("{heard} owed {owed} own {is_own}"));
}

/// The name of a status, if there is one.
fn name_of(status: Option<RouteStatus>) -> &'static str {
    match status {
        Some(status) => status.name(),
        None => "none",
    }
}
