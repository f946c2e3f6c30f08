//! Scripts: lines in, lines out. Also the streams that they are read from and that their output goes to, and the
//! settings of a node that is given none.
#![tactic(auto)]

pub mod defaults;
pub mod fault;
pub mod hex_octets;
pub mod line;
mod performing;
mod run;
mod showing;
pub mod sink;
pub mod source;
mod text;

pub use defaults::built_in;
pub use fault::{LineFault, READS, ScriptFault};
pub use hex_octets::HexOctets;
pub use line::{Line, Malformed, Show, is_skipped, line_with_one_word, parse_line};
pub use performing::{Reply, perform};
pub use run::{Grown, OpenLine, run_pieces, run_script};
pub use showing::print;
pub use sink::{MemorySink, Sink, WriteFailed, WriterSink, write_whole};
pub use source::{MemorySource, ReadFailed, ReaderSource, Source};
pub use text::{Text, console_line, none_line};
