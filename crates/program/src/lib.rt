//! The program: what its arguments ask for, the files of settings, the client of a console, what is written to standard
//! error, and the exit statuses.
#![tactic(auto)]

pub mod command_line;
pub mod console_client;
mod ending;
mod explaining;
pub mod folder;
mod machine;
mod network;
pub mod program;
mod sentences;
mod serving;
mod settings_files;
mod standard_files;
mod telling;
mod two_nodes;

pub use ending::refuse_words;
pub use folder::{Disk, FileFault, Folder, OneFile, Unread};
pub use machine::run_on_machine;
pub use program::{Status, run_program};
