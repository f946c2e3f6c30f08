//! SCCP messages (Q.713), read and written: UDT and UDTS, XUDT and XUDTS, their addresses and their global titles; and
//! the management of subsystems: SSA, SSP and SST.
#![tactic(auto)]

pub mod address;
pub mod extended;
pub mod extended_reading;
pub mod extended_writing;
pub mod fault;
pub mod laws;
mod layout;
pub mod management;
pub mod optional;
pub mod reading;
pub mod title;
pub mod title_indicator;
pub mod unitdata;
pub mod writing;

pub use address::{Address, Routing};
pub use extended::{ExtendedKind, ExtendedUnitdata};
pub use fault::SccpFault;
pub use management::{ManagementKind, SubsystemManagement};
pub use optional::OptionalPart;
pub use title::{EncodingScheme, GlobalTitle, TitleKey};
pub use title_indicator::TitleIndicator;
pub use unitdata::{Parts, Udt, Udts, Unitdata};
pub use writing::Field;
