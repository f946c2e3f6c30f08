//! A tree of moments, in one list: the node `i` has the nodes `2 * i` and `2 * i + 1` below it, and holds a bound, such
//! that no moment below it is less. The node 1 is the top, and the leaves are in the second half of the list.

ghost use Rattle.std.specs.Prelude.{◌≡◌, ◌≤◌, ◌<◌, ◌+◌, ◌*◌, ◌^◌, IfOk, length, map, drop, replicate, slice_set};
ghost use Rattle.timers.specs.Tree.{never, rebased, least, first_below, count_below, IsBounded, AreBounded};

use std::alloc::{AllocError, Global};

/// The moment of a timer that doesn't run.
pub(crate) const NEVER: u32 = u32::MAX;

/// This many nodes, below which no moment comes.
pub(crate) fn new_nodes(alloc: Global, count: usize) -> Result<Vec<u32>, AllocError>
    ensures { IfOk result (λ nodes. nodes.items ≡ replicate count never) }
{
    Ok(vec![in alloc; NEVER; count]?)
}

/// The leaf of a place holds another moment, and no node above it a later one.
///
/// It stops at the first node that holds no later one, which usually is the first.
#[inline]
pub(crate) fn set_leaf(nodes: &mut [u32], leaves: usize, place: usize, moment: u32)
    requires size { length nodes.old ≡ 2 * leaves }
    requires place { place < leaves }
    requires bounded { IsBounded leaves nodes.old }
    ensures bounded { IsBounded leaves nodes.new }
    ensures leaves { drop leaves nodes.new ≡ slice_set (drop leaves nodes.old) place moment }
    ensures size { length nodes.new ≡ length nodes.old }
{
    nodes[leaves + place] = moment;
    let mut node = (leaves + place) / 2;
    while node > 0 && nodes[node] > moment {
        nodes[node] = moment;
        node /= 2;
    }
}

/// The leaf of a place holds no moment. The nodes above it stay: they may hold less than they need.
#[inline]
pub(crate) fn clear_leaf(nodes: &mut [u32], leaves: usize, place: usize)
    requires size { length nodes.old ≡ 2 * leaves }
    requires place { place < leaves }
    requires bounded { IsBounded leaves nodes.old }
    ensures bounded { IsBounded leaves nodes.new }
    ensures leaves { drop leaves nodes.new ≡ slice_set (drop leaves nodes.old) place never }
    ensures size { length nodes.new ≡ length nodes.old }
{
    nodes[leaves + place] = NEVER;
}

/// As `clear_leaf`, and the nodes above rise to the lesser of the two below them. It stops if
/// nothing changes.
pub(crate) fn take_leaf(nodes: &mut [u32], leaves: usize, place: usize)
    requires size { length nodes.old ≡ 2 * leaves }
    requires place { place < leaves }
    requires bounded { IsBounded leaves nodes.old }
    ensures bounded { IsBounded leaves nodes.new }
    ensures leaves { drop leaves nodes.new ≡ slice_set (drop leaves nodes.old) place never }
    ensures size { length nodes.new ≡ length nodes.old }
{
    clear_leaf(nodes, leaves, place);
    let mut node = (leaves + place) / 2;
    while node > 0 {
        let least = least(nodes, node);
        if nodes[node] == least {
            return;
        }
        nodes[node] = least;
        node /= 2;
    }
}

/// The nodes from this one down that hold a moment that has come rise to the lesser of the two
/// below them, from the leaves up. Then they have come only if a leaf below them has.
#[inline(never)]
pub(crate) fn refresh(nodes: &mut [u32], clock: u32, leaves: usize, node: usize)
    requires size { length nodes.old ≡ 2 * leaves }
    requires some { 1 ≤ node }
    requires node { node < 2 * leaves }
    requires bounded { IsBounded leaves nodes.old }
    ensures bounded { IsBounded leaves nodes.new }
    ensures leaves { drop leaves nodes.new ≡ drop leaves nodes.old }
    ensures size { length nodes.new ≡ length nodes.old }
{
    if node >= leaves || nodes[node] > clock {
        return;
    }
    refresh(nodes, clock, leaves, 2 * node);
    refresh(nodes, clock, leaves, 2 * node + 1);
    nodes[node] = least(nodes, node);
}

/// The lesser moment of the two nodes below a node.
fn least(nodes: &[u32], node: usize) -> u32
    requires { 2 * node + 1 < length nodes.now }
    ensures { result ≡ least nodes.now node }
{
    nodes[2 * node].min(nodes[2 * node + 1])
}

/// The first leaf that has come, this many levels below a node.
#[tactic(auto, using(crate::proofs::Beneath::below))]
pub(crate) fn first_below(nodes: &[u32], clock: u32, levels: u32, node: usize) -> Option<usize>
    requires size { (node + 1) * 2 ^ levels ≤ length nodes.now }
    requires bounded { AreBounded levels node nodes.now }
    ensures { result ≡ first_below clock nodes.now levels node }
{
    if nodes[node] > clock {
        None
    } else if levels == 0 {
        Some(node)
    } else {
        match first_below(nodes, clock, levels - 1, 2 * node) {
            Some(leaf) => Some(leaf),
            None => first_below(nodes, clock, levels - 1, 2 * node + 1),
        }
    }
}

/// How many leaves have come, this many levels below a node.
pub(crate) fn count_below(nodes: &[u32], clock: u32, levels: u32, node: usize) -> usize
    requires size { (node + 1) * 2 ^ levels ≤ length nodes.now }
    requires few { levels ≤ 48 }
    requires bounded { AreBounded levels node nodes.now }
    ensures count { result ≡ count_below clock nodes.now levels node }
    ensures fits { result ≤ 2 ^ levels }
{
    if nodes[node] > clock {
        0
    } else if levels == 0 {
        1
    } else {
        count_below(nodes, clock, levels - 1, 2 * node)
            + count_below(nodes, clock, levels - 1, 2 * node + 1)
    }
}

/// Counts each moment from now on.
pub(crate) fn rebase(nodes: &mut [u32], clock: u32)
    ensures { nodes.new ≡ map (rebased clock) nodes.old }
{
    for moment in nodes.iter_mut() {
        *moment = rebased(*moment, clock);
    }
}

/// A moment, counted from now on.
fn rebased(moment: u32, clock: u32) -> u32
    ensures { result ≡ rebased clock moment }
{
    if moment < NEVER {
        moment.saturating_sub(clock)
    } else {
        moment
    }
}
