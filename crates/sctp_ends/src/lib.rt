//! Two abstract endpoints of SCTP, and the network between them. Each step of an endpoint is a list of moves of
//! `sctp_moves`, so the laws of moves hold for two of them. The crate has no code; docs/SCTP.md explains it.
#![tactic(auto)]

pub mod laws;
