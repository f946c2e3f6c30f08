//! A client of the console without its socket, octet by octet: the lines that it writes, and what it is answered and
//! told.

mod alarming;
mod answering;
mod capturing;
mod client;
mod command;
mod counting;
mod help;
mod link_facts;
mod link_rows;
mod listing;
mod outbox;
mod route_rows;
mod set_rows;
mod settings_text;
mod table;
mod timer_rows;

pub use answering::do_script_line;
pub use client::{ConsoleClient, ConsoleContext, Ending, LINE_OCTETS, News};
pub use command::{ConsoleLine, parse_console_line};
pub use counting::print_counters;
pub use help::HELP;
pub use link_facts::LinkFact;
pub use listing::Listing;
pub use outbox::{OUTBOX_OCTETS, Outbox};
