//! Three nodes in a row, and what is done at them.

use crate::gates::gate_end::GateEnd;
use crate::gates::node::Node;
use crate::gates::node_settings::{FIRST, SECOND, THIRD};
use exchange::{Event, Msu};
use std::alloc::Global;

/// How long a tick takes, in milliseconds.
const TICK_MS: u64 = 100;

/// How often all gates are called in a tick: all that was put out comes in that time, and all answers to it.
const PASSES: usize = 8;

/// So many ticks at most are waited for links.
const MOST_TICKS: usize = 100;

/// A link by its two ends. The near one, nearer to point 1, tries to open it.
#[derive(Drop)]
pub struct GateLink {
    pub name: &'static str,
    pub near: GateEnd,
    pub far: GateEnd,
}

impl GateLink {
    /// Each end puts out what there is, and the other hears it.
    fn carry(&mut self, nodes: &mut [Node], now: u64) {
        let GateLink { near, far, .. } = self;
        near.put_out(nodes, now);
        far.hear(&mut near.outbox, nodes, now);
        far.put_out(nodes, now);
        near.hear(&mut far.outbox, nodes, now);
    }

    /// The near end ends the association, and the far one hears that.
    fn close(&mut self, nodes: &mut [Node], now: u64) {
        self.near.close(nodes, now);
        self.far.hear(&mut self.near.outbox, nodes, now);
    }
}

/// The nodes, the links between them, and the time in milliseconds.
#[derive(Drop)]
pub struct Network {
    pub nodes: Vec<Node>,
    pub links: Vec<GateLink>,
    pub now: u64,
}

impl Network {
    /// New nodes, and links without associations. None if memory ran out.
    pub fn new(alloc: Global) -> Option<Network> {
        Some(Network {
            nodes: new_nodes(alloc)?,
            links: new_links(alloc)?,
            now: 0,
        })
    }

    /// Node 1 submits a message.
    pub fn submit(&mut self, message: &Msu) {
        if let Some(node) = self.nodes.first_mut() {
            node.step(&Event::Submit(message.lend()));
        }
    }

    /// Ticks pass until all links are in service at both ends, but not for ever.
    pub fn open(&mut self) {
        for _ in 0..MOST_TICKS {
            if !self.serves() {
                self.tick();
            }
        }
    }

    /// Whether all links are in service at both ends.
    fn serves(&self) -> bool {
        let mut ends = self.links.iter();
        ends.all(|link| link.near.serves(&self.nodes) && link.far.serves(&self.nodes))
    }

    /// A tick passes at each node, and then its time at all gates.
    pub fn tick(&mut self) {
        self.now = self.now.saturating_add(TICK_MS);
        for node in &mut self.nodes {
            node.step(&Event::Tick);
        }
        self.carry();
    }

    /// All that is put out comes, and all answers to it.
    pub fn carry(&mut self) {
        for _ in 0..PASSES {
            for link in &mut self.links {
                link.carry(&mut self.nodes, self.now);
            }
        }
    }

    /// The near end of a link ends its association, and the far one hears that.
    pub fn close(&mut self, link: usize) {
        if let Some(link) = self.links.get_mut(link) {
            link.close(&mut self.nodes, self.now);
        }
    }
}

/// The nodes at points 1, 2 and 3. None if memory ran out.
fn new_nodes(alloc: Global) -> Option<Vec<Node>> {
    let mut nodes = Vec::new(alloc);
    for text in [FIRST, SECOND, THIRD] {
        nodes.push(Node::new(alloc, text)?).ok()?;
    }
    Some(nodes)
}

/// Two links between points 1 and 2, and one between 2 and 3. None if memory ran out.
fn new_links(alloc: Global) -> Option<Vec<GateLink>> {
    let mut links = Vec::new(alloc);
    for (name, near, near_link, far, far_link) in [
        ("1-2 code 0", 1, 0, 2, 0),
        ("1-2 code 1", 1, 1, 2, 1),
        ("2-3 code 0", 2, 2, 3, 0),
    ] {
        let near = GateEnd::new(alloc, near, near_link, true)?;
        let far = GateEnd::new(alloc, far, far_link, false)?;
        links.push(GateLink { name, near, far }).ok()?;
    }
    Some(links)
}
