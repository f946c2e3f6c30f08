//! A client of the console of a served node: it writes lines there, and prints the answers as they come.

pub mod answers;
mod calling;
mod conversation;
pub mod fault;
pub mod laws;
mod outgoing;
mod written;

pub use answers::Verdict;
pub use calling::call;
pub use fault::CallFault;
