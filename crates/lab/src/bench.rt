//! What the lines of a lab script are done on.

use exchange::Exchange;
use script::{Malformed, Reply};

/// The nodes of a lab, each in its place (0, 1 and so on), and what joins their links.
pub trait Bench {
    /// Does what a line without its end asks for. Answers what is printed of it, and the place of the node whose names
    /// and texts that tells; nothing where the line asks for nothing.
    fn perform(&mut self, line: &[u8]) -> Result<Option<(usize, Reply)>, Malformed>;

    /// The node in a place, if there is one.
    fn node(&self, place: usize) -> Option<&Exchange>;
}
