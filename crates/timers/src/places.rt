//! The places of timers. They rise in name order.

ghost use Rattle.std.specs.Prelude.{◌≡◌, ◌≤◌, ◌<◌, ◌+◌, ◌*◌, ◌^◌, ◌/◌, ◌%◌, ◌&&◌, nat_lt, if◌then◌else◌, Some, None};
ghost use Rattle.timers.specs.declared.name.TimerName.TheVariants.{T8, T10, Slt1, Slt2};
ghost use Rattle.timers.specs.Timers.{has_name, count_of};
ghost use Rattle.timers.specs.Places.{named_sets, codes_from, destinations_from, t8_from, t10_from, slt1_from, slt2_from, place_of, link_name, code_name, route_name, test_name, name_at};

use crate::name::{NodeCounts, TimerName};
use signalling_types::{Limits, LinkId, SetId};

/// Kinds of timers that a link has in front of all others: L1, L2, L3, L4, L6, L7, T1, T2, T3.
const KINDS: usize = 9;

/// A link set is named by an octet.
const SETS: u16 = 256;

/// The counts of a node, with no more sets than can be named.
pub(crate) fn named_sets(counts: NodeCounts) -> NodeCounts
    ensures value { result ≡ named_sets counts }
    ensures few { result.sets ≤ 256 }
{
    NodeCounts {
        sets: counts.sets.min(SETS),
        ..counts
    }
}

/// The place of a timer; none if the node doesn't have it.
#[inline(always)]
pub(crate) fn place_of(counts: NodeCounts, name: TimerName) -> Option<usize>
    ensures place { result ≡ place_of (named_sets counts) name }
    ensures named { has_name (named_sets counts) name ≡ has_name counts name }
{
    let counts = named_sets(counts);
    match name {
        TimerName::L1(link) => link_place(counts, 0, link),
        TimerName::L2(link) => link_place(counts, 1, link),
        TimerName::L3(link) => link_place(counts, 2, link),
        TimerName::L4(link) => link_place(counts, 3, link),
        TimerName::L6(link) => link_place(counts, 4, link),
        TimerName::L7(link) => link_place(counts, 5, link),
        TimerName::T1(link) => link_place(counts, 6, link),
        TimerName::T2(link) => link_place(counts, 7, link),
        TimerName::T3(link) => link_place(counts, 8, link),
        TimerName::T4(set, code) => code_place(counts, set, code),
        TimerName::T6(destination) => destination_place(counts, destination),
        TimerName::T8(set, destination) => {
            route_place(counts, t8_from(counts), set, destination)
        }
        TimerName::T10(set, destination) => {
            route_place(counts, t10_from(counts), set, destination)
        }
        TimerName::Slt1(link) => test_place(counts, slt1_from(counts), link),
        TimerName::Slt2(link) => test_place(counts, slt2_from(counts), link),
    }
}

/// The place of a link's timer of this kind.
fn link_place(counts: NodeCounts, kind: u8, link: LinkId) -> Option<usize>
    ensures { result
        ≡ if nat_lt link counts.links then Some (kind * counts.links + link) else None }
{
    let links = usize::from(counts.links);
    let link = link.index();
    (link < links).then_some(usize::from(kind) * links + link)
}

/// The place of the T4 of a changeback code.
fn code_place(counts: NodeCounts, set: SetId, code: u8) -> Option<usize>
    ensures place { result
        ≡ if nat_lt set counts.sets && nat_lt code Limits.CHANGEBACK_CODES
        then Some (codes_from counts + (set * Limits.CHANGEBACK_CODES + code)) else None }
    ensures named { set < 256 }
{
    let set = set.index();
    let code = usize::from(code);
    (set < usize::from(counts.sets) && code < Limits::CHANGEBACK_CODES).then_some(
        codes_from(counts) + (set * Limits::CHANGEBACK_CODES + code),
    )
}

/// The place of a destination's T6.
fn destination_place(counts: NodeCounts, destination: u16) -> Option<usize>
    ensures { result
        ≡ if nat_lt destination counts.destinations
        then Some (destinations_from counts + destination) else None }
{
    (destination < counts.destinations).then_some(
        destinations_from(counts) + usize::from(destination),
    )
}

/// The place of a timer of a set and a destination, where those of its kind begin here.
fn route_place(counts: NodeCounts, from: usize, set: SetId, destination: u16) -> Option<usize>
    requires { from < 2 ^ 48 }
    ensures place { result
        ≡ if nat_lt set counts.sets && nat_lt destination counts.destinations
        then Some (from + (set * counts.destinations + destination)) else None }
    ensures named { set < 256 }
{
    let set = set.index();
    (set < usize::from(counts.sets) && destination < counts.destinations).then_some(
        from + (set * usize::from(counts.destinations) + usize::from(destination)),
    )
}

/// The place of a timer of a link's test, where those of its kind begin here.
fn test_place(counts: NodeCounts, from: usize, link: LinkId) -> Option<usize>
    requires { from < 2 ^ 48 }
    ensures { result ≡ if nat_lt link counts.links then Some (from + link) else None }
{
    let links = usize::from(counts.links);
    let link = link.index();
    (link < links).then_some(from + link)
}

/// Where the places of T4 begin.
fn codes_from(counts: NodeCounts) -> usize
    ensures value { result ≡ codes_from counts }
    ensures fits { result < 2 ^ 12 }
{
    KINDS * usize::from(counts.links)
}

/// Where those of T6 begin.
fn destinations_from(counts: NodeCounts) -> usize
    ensures value { result ≡ destinations_from counts }
    ensures fits { result < 2 ^ 21 }
{
    codes_from(counts) + usize::from(counts.sets) * Limits::CHANGEBACK_CODES
}

/// Where those of T8 begin.
fn t8_from(counts: NodeCounts) -> usize
    ensures value { result ≡ t8_from counts }
    ensures fits { result < 2 ^ 22 }
{
    destinations_from(counts) + usize::from(counts.destinations)
}

/// Where those of T10 begin.
fn t10_from(counts: NodeCounts) -> usize
    ensures value { result ≡ t10_from counts }
    ensures fits { result < 2 ^ 33 }
{
    t8_from(counts) + routes(counts)
}

/// How many timers of each kind that a set has for a destination there are.
fn routes(counts: NodeCounts) -> usize
    ensures value { result ≡ counts.sets * counts.destinations }
    ensures fits { result < 2 ^ 32 }
{
    usize::from(counts.sets) * usize::from(counts.destinations)
}

/// Where those of T1 of link tests begin.
fn slt1_from(counts: NodeCounts) -> usize
    ensures value { result ≡ slt1_from counts }
    ensures fits { result < 2 ^ 34 }
{
    t10_from(counts) + routes(counts)
}

/// Where those of T2 of link tests begin.
fn slt2_from(counts: NodeCounts) -> usize
    ensures value { result ≡ slt2_from counts }
    ensures fits { result < 2 ^ 35 }
{
    slt1_from(counts) + usize::from(counts.links)
}

/// How many places there are.
pub(crate) fn count_of(counts: NodeCounts) -> usize
    ensures count { result ≡ count_of counts }
    ensures fits { result < 2 ^ 48 }
{
    slt2_from(counts) + usize::from(counts.links)
}

pub(crate) fn name_at(counts: NodeCounts, place: usize) -> TimerName
    requires sets { counts.sets ≤ 256 }
    requires place { place < count_of counts }
    ensures { result ≡ name_at counts place }
{
    if place < codes_from(counts) {
        link_name(counts.links, place)
    } else if place < destinations_from(counts) {
        code_name(counts.sets, place - codes_from(counts))
    } else if place < t8_from(counts) {
        TimerName::T6((place - destinations_from(counts)) as u16)
    } else if place < t10_from(counts) {
        let (set, destination) = route_at(counts, place - t8_from(counts));
        TimerName::T8(set, destination)
    } else if place < slt1_from(counts) {
        let (set, destination) = route_at(counts, place - t10_from(counts));
        TimerName::T10(set, destination)
    } else {
        test_name(counts, place)
    }
}

/// The name of the timer at a place behind those of T10.
fn test_name(counts: NodeCounts, place: usize) -> TimerName
    requires from { slt1_from counts ≤ place }
    requires place { place < count_of counts }
    ensures { result ≡ test_name counts place }
{
    if place < slt2_from(counts) {
        TimerName::Slt1(LinkId::new((place - slt1_from(counts)) as u8))
    } else {
        TimerName::Slt2(LinkId::new((place - slt2_from(counts)) as u8))
    }
}

fn link_name(links: u8, place: usize) -> TimerName
    requires { place < 9 * links }
    ensures { result ≡ link_name (place / links) (place % links) }
{
    let links = usize::from(links);
    let link = LinkId::new((place % links) as u8);
    match place / links {
        0 => TimerName::L1(link),
        1 => TimerName::L2(link),
        2 => TimerName::L3(link),
        3 => TimerName::L4(link),
        4 => TimerName::L6(link),
        5 => TimerName::L7(link),
        6 => TimerName::T1(link),
        7 => TimerName::T2(link),
        _ => TimerName::T3(link),
    }
}

/// The name of the T4 of a changeback code.
fn code_name(sets: u16, place: usize) -> TimerName
    requires sets { sets ≤ 256 }
    requires place { place < sets * Limits.CHANGEBACK_CODES }
    ensures { result ≡ code_name place }
{
    let set = SetId::new((place / Limits::CHANGEBACK_CODES) as u8);
    TimerName::T4(set, (place % Limits::CHANGEBACK_CODES) as u8)
}

/// The set and the destination of a place among those of one kind.
fn route_at(counts: NodeCounts, place: usize) -> (SetId, u16)
    requires sets { counts.sets ≤ 256 }
    requires place { place < counts.sets * counts.destinations }
    ensures set { result.0 ≡ place / counts.destinations }
    ensures destination { result.1 ≡ place % counts.destinations }
{
    let destinations = usize::from(counts.destinations);
    let set = SetId::new((place / destinations) as u8);
    (set, (place % destinations) as u16)
}
