//! Why a node is no longer served.

use served_node::{CaptureFault, LogFault, OpenFault};
use std::io;

/// Why a node is no longer served, although nobody stopped it.
pub enum ServeFailure {
    /// The server couldn't be opened.
    Open(OpenFault),
    /// The log can't go to standard output.
    Log(LogFault),
    /// The capture can't go where it is to go.
    Capture(CaptureFault),
    /// The clock or the poll failed.
    System,
}

impl From<io::Error> for ServeFailure {
    fn from(_error: io::Error) -> ServeFailure {
        ServeFailure::System
    }
}
