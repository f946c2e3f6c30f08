//! Why there is no world.

/// Why there is no world of some nodes.
#[derive(Clone, Copy, Debug, PartialEq, Eq)]
pub enum WorldFault {
    /// Two of them are at the same point.
    SamePoint,
    /// A link leads to no node with which its own shares a link set.
    NotJoined,
    /// A node has another number of gates than of links, or the bounds of a gate's timeouts are out of order.
    BadGates,
    /// Memory ran out.
    NoMemory,
}

/// Why there is no node of some settings and gates.
#[derive(Clone, Copy, Debug, PartialEq, Eq)]
pub(crate) enum NodeFault {
    /// There are more or fewer gates than links, or the bounds of a gate's timeouts are out of order.
    BadGates,
    /// Memory ran out.
    NoMemory,
}
