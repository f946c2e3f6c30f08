//! The gates of a link over datagrams.

use crate::datagrams::gate_end::{GateEnd, Heard, Keys};
use crate::datagrams::plugs::connected;
use crate::line::End;
use crate::nodes::TwoNodes;
use settings::LinkId;
use std::alloc::{AllocError, Global};
use std::net::Net;
use std::random::RandomSource;

/// The times of both nodes, in milliseconds since the start.
#[derive(Clone, Copy)]
pub(crate) struct Times {
    near: u64,
    far: u64,
}

impl Times {
    pub(crate) const START: Times = Times { near: 0, far: 0 };

    /// The time of an end.
    pub(crate) fn at(self, end: End) -> u64 {
        match end {
            End::Near => self.near,
            End::Far => self.far,
        }
    }

    /// This many milliseconds pass at an end.
    pub(crate) fn pass(&mut self, end: End, millis: u64) {
        match end {
            End::Near => self.near = self.near.saturating_add(millis),
            End::Far => self.far = self.far.saturating_add(millis),
        }
    }
}

/// The two ends of a link, each with its gate.
#[derive(Drop)]
pub(crate) struct GatePair {
    near: GateEnd,
    far: GateEnd,
}

impl GatePair {
    /// A link without an association, whose near end tries to open one. None if a socket, a key or memory can't be had.
    pub(crate) fn open<N: Net + RandomSource>(
        net: &N,
        alloc: Global,
        link: LinkId,
    ) -> Option<GatePair> {
        let (near, far) = connected(net).ok()?;
        let near_keys = Keys::draw(net)?;
        let far_keys = Keys::draw(net)?;
        let near = GateEnd::new(alloc, link, true, near, &near_keys).ok()?;
        let far = GateEnd::new(alloc, link, false, far, &far_keys).ok()?;
        Some(GatePair { near, far })
    }

    /// The gate of an end ends its association by ABORT.
    pub(crate) fn close_at(&mut self, end: End, nodes: &mut TwoNodes<'_>, times: Times) {
        match end {
            End::Near => self.near.close(nodes.near, times.at(End::Near)),
            End::Far => self.far.close(nodes.far, times.at(End::Far)),
        }
    }

    /// Time went by at an end.
    pub(crate) fn tick_at(&mut self, end: End, nodes: &mut TwoNodes<'_>, times: Times) {
        match end {
            End::Near => self.near.tick(nodes.near, times.at(End::Near)),
            End::Far => self.far.tick(nodes.far, times.at(End::Far)),
        }
    }

    /// Both gates are set to what their links want.
    pub(crate) fn settle(&mut self, nodes: &mut TwoNodes<'_>, times: Times) {
        self.far.settle(nodes.far, times.at(End::Far));
        self.near.settle(nodes.near, times.at(End::Near));
    }

    /// What there is goes out at an end, and comes to the other.
    pub(crate) fn carry_from(&mut self, end: End, nodes: &mut TwoNodes<'_>, times: Times) -> Heard {
        match end {
            End::Near => {
                self.near.put_out(nodes.near, times.at(End::Near));
                self.far.hear(&self.near, nodes.far, times.at(End::Far))
            }
            End::Far => {
                self.far.put_out(nodes.far, times.at(End::Far));
                self.near.hear(&self.far, nodes.near, times.at(End::Near))
            }
        }
    }

    /// What there is goes out at an end, and is lost. Returns how many datagrams that were.
    pub(crate) fn drop_from(&mut self, end: End, nodes: &mut TwoNodes<'_>, times: Times) -> usize {
        match end {
            End::Near => {
                self.near.put_out(nodes.near, times.at(End::Near));
                self.far.drop_all(&self.near)
            }
            End::Far => {
                self.far.put_out(nodes.far, times.at(End::Far));
                self.near.drop_all(&self.far)
            }
        }
    }
}

/// Time went by at an end of all links that have their ends.
pub(crate) fn tick_all(
    pairs: &mut [Option<GatePair>],
    end: End,
    nodes: &mut TwoNodes<'_>,
    times: Times,
) {
    for pair in &mut *pairs {
        if let Some(pair) = pair {
            pair.tick_at(end, nodes, times);
        }
    }
}

/// The link at an index, if it has its ends.
pub(crate) fn pair_at(pairs: &mut [Option<GatePair>], place: usize) -> Option<&mut GatePair> {
    match pairs.get_mut(place) {
        Some(Some(pair)) => Some(pair),
        _ => None,
    }
}

/// Room for this many links, none of which has its ends yet.
pub(crate) fn no_pairs(alloc: Global, count: usize) -> Result<Vec<Option<GatePair>>, AllocError> {
    let mut pairs = Vec::with_capacity(alloc, count)?;
    for _ in 0..count {
        pairs.push(None)?;
    }
    Ok(pairs)
}
