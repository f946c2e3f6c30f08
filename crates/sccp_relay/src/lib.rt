//! SCRC and SCLC, SCCP routing and connectionless control (Q.714 §2.3, §4.2): unitdata for this point is delivered,
//! sent on by the global title of its called address, or refused, and a refused message may be returned. Translation
//! rows lead global titles to a point by their first digits (Q.714 §2.4), and a trie finds the row. Extended unitdata
//! is relayed, tests of the subsystems here are answered (Q.714 §5.3.4), and what other points say of theirs is heard
//! (§5.3.2, §5.3.3), if the node is to.
#![tactic(auto)]

mod answering;
mod changing;
pub mod fault;
mod hearing;
pub mod laws;
mod message;
mod node;
pub mod own;
mod places;
mod prohibited;
pub mod relayed;
mod relaying;
mod returning;
pub mod subsystem;
mod subsystem_tests;
pub mod titles;
pub mod translations;
pub mod trie;
mod ways;
mod writing;

pub use fault::TrieFault;
pub use own::{Own, Ways};
pub use relayed::Relayed;
pub use relaying::relay;
pub use returning::returned;
pub use sccp_codec::{Field, TitleKey};
pub use subsystem::{PROHIBITED_SUBSYSTEMS, ProhibitedSubsystem, Subsystem, SubsystemNews};
pub use subsystem_tests::write_test;
pub use titles::Titles;
pub use translations::Translations;
pub use trie::Trie;
