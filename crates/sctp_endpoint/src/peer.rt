//! What is known of the peer, and of what it doesn't answer.

/// What the peer said of itself.
#[derive(Clone, Copy)]
pub struct Peer {
    /// The TSN of the first DATA that it sends.
    pub first: u32,
    /// How many octets it takes.
    pub window: u32,
}

/// How a try goes.
#[derive(Clone, Copy)]
pub struct Attempt {
    /// How often it wasn't answered.
    pub failures: u32,
    /// When T1 runs out, in milliseconds.
    pub t1: u64,
}

/// A heartbeat that isn't answered.
#[derive(Clone, Copy)]
pub struct Beat {
    /// Its number.
    pub nonce: u64,
    /// When it went out, in milliseconds.
    pub sent: u64,
}

/// What both ends of an association go by: the tags of both, and the first TSN of this one.
#[derive(Clone, Copy)]
pub struct Names {
    /// The tag of this end.
    pub own_tag: u32,
    /// The tag of the peer.
    pub far_tag: u32,
    /// The TSN of the first DATA that this end sends.
    pub own_first: u32,
}
