//! A plain network: exchanges, the frames in flight between them, and what came of what was done. No contract says
//! anything of it but that it is safe, so trials judge by marks and outcomes, from outside.

mod doing;
mod joining;
mod link_end;
mod network;
mod seen;
mod site;
mod sums;
mod words;

pub(crate) use doing::{Deed, Doing};
pub(crate) use joining::{Link, Place};
pub(crate) use network::{Network, place_of};
pub(crate) use site::Site;
pub(crate) use sums::{AllMessages, OnFlow, SCCP_SIO, goes_to};
pub(crate) use words::Words;

/// So many more.
pub(crate) fn count(counted: &mut u64, more: u64) {
    *counted = counted.wrapping_add(more);
}
