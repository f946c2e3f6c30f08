//! Where the fields of a cookie are in its octets.

/// When it was made.
pub(crate) const MADE_AT: usize = 32;

pub(crate) const GENERATION_AT: usize = 40;

pub(crate) const OWN_TAG_AT: usize = 48;

pub(crate) const PEER_TAG_AT: usize = 52;

pub(crate) const OWN_FIRST_TSN_AT: usize = 56;

pub(crate) const PEER_FIRST_TSN_AT: usize = 60;

pub(crate) const PEER_WINDOW_AT: usize = 64;

pub(crate) const PEER_OUTGOING_STREAMS_AT: usize = 68;

pub(crate) const PEER_INCOMING_STREAMS_AT: usize = 70;

/// The own tag of the association that existed.
pub(crate) const TIE_OWN_TAG_AT: usize = 72;

/// The peer's tag of the association that existed.
pub(crate) const TIE_PEER_TAG_AT: usize = 76;

/// How long it is good.
pub(crate) const LIFE_AT: usize = 80;

pub(crate) const PEER_PORT_AT: usize = 84;
