//! SCTP between two ends over a network that loses, doubles, reorders and delays datagrams: theorems over the moves of
//! both ends. The crate has no code; docs/SCTP.md explains it.
#![tactic(auto)]

pub mod laws;
