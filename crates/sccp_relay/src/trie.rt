//! Values by lists of digits.

ghost use Rattle.std.specs.Prelude.{◌≡◌, ◌+◌, ◌^◌, ◌<◌, ◌≤◌, All, length, Some, None, Err, IsSome, OnOk, OnErr, IfSome, IsOkUnless, if◌then◌else◌, is_some};
ghost use Rattle.std.specs.Vec.{vec_len, vec_capacity};
ghost use Rattle.sccp_relay.specs.Digits.{nothing, with_value, without, behind, longest, found_at};
ghost use Rattle.sccp_relay.specs.Nodes.{IsTree, KeepsWays, child, node_of, reached, root, stored, stored_from};

use crate::fault::TrieFault;
use crate::node::{Node, add_child, child_of, put, value_at};
use std::alloc::Global;
use std::marker::Model;

/// The number of the root.
const ROOT: usize = 0;

/// How many nodes have numbers.
const NODES: usize = 1 << 32;

/// Values by lists of digits, each 0 to 15: at most one at each list.
///
/// It is stored as nodes in one vector: a node for each list that begins one that was ever stored. So each call takes a
/// step for each digit, however many lists are stored, and what is removed leaves its nodes for later values.
#[derive(Drop)]
pub struct Trie {
    nodes: Vec<Node>,
}

impl Model for Trie {
    ghost use Rattle.std.specs.Prelude.{List};
    ghost use Rattle.sccp_relay.specs.declared.node.Node.{Node};

    ghost Value = { List Node };

    ghost view = { λ t. t.nodes.items };

    ghost use Rattle.sccp_relay.specs.Inside.{HasTree};

    ghost invariant = { HasTree };
}

impl Trie {
    /// Nothing is stored. It allocates from this allocator as values are stored.
    pub fn new(alloc: Global) -> Trie
        ensures { stored result ≡ nothing }
    {
        Trie {
            nodes: Vec::new(alloc),
        }
    }

    /// Stores a value at digits.
    ///
    /// Refused Present if a value is stored there; otherwise NoMemory if room for its nodes is refused. There are at
    /// most 2^32 nodes. A refusal leaves all as it was.
    pub fn insert(&mut self, digits: &[u8], value: u32) -> Result<(), TrieFault>
        requires { All (λ digit. digit < 16) digits.now }
        ensures added { OnOk result (stored self.new ≡ with_value (stored self.old) digits.now value) }
        ensures unchanged { OnErr result (self.new ≡ self.old) }
        ensures present { IsSome (stored self.old digits.now) → result ≡ Err TrieFault.Present }
        ensures memory { stored self.old digits.now ≡ None → IsOkUnless result TrieFault.NoMemory }
    {
        if value_of(&self.nodes, digits).is_some() {
            return Err(TrieFault::Present);
        }
        if self.nodes.len() >= NODES.saturating_sub(digits.len()) {
            return Err(TrieFault::NoMemory);
        }
        if self.nodes.try_reserve(digits.len() + 1).is_err() {
            return Err(TrieFault::NoMemory);
        }
        let at = way_to(&mut self.nodes, digits);
        put(&mut self.nodes, at, Some(value));
        Ok(())
    }

    /// Stores this value at digits at which one is stored, and returns the old one. None, and nothing changed, if there
    /// is none. It needs no memory.
    pub fn replace(&mut self, digits: &[u8], value: u32) -> Option<u32>
        ensures value { result ≡ stored self.old digits.now }
        ensures replaced { stored self.new ≡ (if is_some (stored self.old digits.now)
            then with_value (stored self.old) digits.now value else stored self.old) }
    {
        let at = node_of(&self.nodes, digits)?;
        let old = value_at(&self.nodes, at)?;
        put(&mut self.nodes, at, Some(value));
        Some(old)
    }

    /// Removes the value at digits, and returns it. None, and nothing changed, if there is none.
    pub fn remove(&mut self, digits: &[u8]) -> Option<u32>
        ensures value { result ≡ stored self.old digits.now }
        ensures removed { stored self.new ≡ without (stored self.old) digits.now }
    {
        let at = node_of(&self.nodes, digits)?;
        let value = value_at(&self.nodes, at);
        put(&mut self.nodes, at, None);
        value
    }

    /// The most digits that begin these and at which a value is stored, how many they are, and the value. It takes a
    /// step for each digit.
    pub fn longest(&self, digits: &[u8]) -> Option<(usize, u32)>
        ensures { result ≡ longest (stored self.now) digits.now }
    {
        self.longest_behind(&[], digits)
    }

    /// The same, among the digits that are stored after these first ones, which are not counted.
    pub fn longest_behind(&self, front: &[u8], digits: &[u8]) -> Option<(usize, u32)>
        ensures { result ≡ longest (behind (stored self.now) front.now) digits.now }
    {
        let at = node_of(&self.nodes, front)?;
        longest_from(&self.nodes, at, digits)
    }
}

/// The node that these digits lead to from the root, if all of them lead on.
fn node_of(nodes: &[Node], digits: &[u8]) -> Option<usize>
    requires { IsTree nodes.now }
    ensures node { result ≡ node_of nodes.now digits.now }
    ensures within { IfSome result (λ at. at < length nodes.now) }
{
    if nodes.is_empty() {
        return None;
    }
    let mut at = ROOT;
    for digit in digits {
        at = child_of(nodes, at, *digit)?;
    }
    Some(at)
}

/// What is stored at these digits.
fn value_of(nodes: &[Node], digits: &[u8]) -> Option<u32>
    requires { IsTree nodes.now }
    ensures { result ≡ stored nodes.now digits.now }
{
    value_at(nodes, node_of(nodes, digits)?)
}

/// The node that these digits lead to from the root. Nodes are put after the others if they lead nowhere.
fn way_to(nodes: &mut Vec<Node>, digits: &[u8]) -> usize
    requires tree { IsTree nodes.old.items }
    requires digits { All (λ digit. digit < 16) digits.now }
    requires numbers { vec_len nodes.old + length digits.now < 2 ^ 32 }
    requires room { vec_len nodes.old + length digits.now < vec_capacity nodes.old }
    ensures tree { IsTree nodes.new.items }
    ensures within { result < length nodes.new.items }
    ensures way { reached (child nodes.new.items) root digits.now ≡ Some result }
    ensures same { stored nodes.new.items ≡ stored nodes.old.items }
{
    plant(nodes);
    let mut at = ROOT;
    for digit in digits {
        at = next(nodes, at, *digit);
    }
    at
}

/// Makes the root, if there are no nodes.
fn plant(nodes: &mut Vec<Node>)
    requires tree { IsTree nodes.old.items }
    requires room { vec_len nodes.old < vec_capacity nodes.old }
    ensures tree { IsTree nodes.new.items }
    ensures some { 0 < length nodes.new.items }
    ensures grown { vec_len nodes.new ≤ vec_len nodes.old + 1 }
    ensures room { vec_capacity nodes.new ≡ vec_capacity nodes.old }
    ensures same { stored nodes.new.items ≡ stored nodes.old.items }
{
    if nodes.is_empty() {
        nodes.push_reserved(Node::bare());
    }
}

/// The node that a digit leads to from a node; if it leads nowhere, a new one that is put after the others.
fn next(nodes: &mut Vec<Node>, at: usize, digit: u8) -> usize
    requires tree { IsTree nodes.old.items }
    requires at { at < length nodes.old.items }
    requires digit { digit < 16 }
    requires numbers { vec_len nodes.old < 2 ^ 32 }
    requires room { vec_len nodes.old < vec_capacity nodes.old }
    ensures tree { IsTree nodes.new.items }
    ensures grown { vec_len nodes.new ≤ vec_len nodes.old + 1 }
    ensures kept { vec_len nodes.old ≤ vec_len nodes.new }
    ensures room { vec_capacity nodes.new ≡ vec_capacity nodes.old }
    ensures child { child nodes.new.items at digit ≡ result }
    ensures there { 0 < result }
    ensures ways { KeepsWays nodes.old.items nodes.new.items }
    ensures same { stored nodes.new.items ≡ stored nodes.old.items }
{
    if let Some(child) = child_of(nodes, at, digit) {
        return child;
    }
    add_child(nodes, at, digit)
}

/// The most digits, after those that lead to a node, at which something is stored.
fn longest_from(nodes: &[Node], start: usize, digits: &[u8]) -> Option<(usize, u32)>
    requires tree { IsTree nodes.now }
    requires start { start < length nodes.now }
    ensures { result ≡ longest (stored_from nodes.now start) digits.now }
{
    let mut at = start;
    let mut best = found_at(0, value_at(nodes, at), None);
    for (count, digit) in digits.iter().enumerate() {
        let Some(child) = child_of(nodes, at, *digit) else {
            return best;
        };
        at = child;
        best = found_at(count + 1, value_at(nodes, at), best);
    }
    best
}

/// This many digits and what is stored there; or what was found at fewer.
fn found_at(count: usize, value: Option<u32>, fewer: Option<(usize, u32)>) -> Option<(usize, u32)>
    ensures { result ≡ found_at count value fewer }
{
    match value {
        Some(value) => Some((count, value)),
        None => fewer,
    }
}
