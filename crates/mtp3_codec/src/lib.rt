//! MTP level 3 messages as octets: the routing label (Q.704 §2.2), management messages (Q.704 §15) and link
//! tests (Q.707 §5).
#![tactic(auto)]

pub mod discrimination;
pub mod fault;
mod fields;
pub mod label;
pub mod link_test;
pub mod management;
pub mod unavailability;
pub mod user_part;
mod writing;

pub use discrimination::{Discrimination, discriminate};
pub use fault::MgmtFault;
pub use label::Label;
pub use link_test::{LinkTest, TEST_OCTETS, TestKind};
pub use management::{MANAGEMENT_OCTETS, Management};
pub use unavailability::UnavailabilityCause;
pub use user_part::UserPart;
