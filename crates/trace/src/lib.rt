//! Frames that passed, for an operator: in words, and as the packets of a capture file; and into which file of a ring
//! they go.
#![tactic(auto)]

pub mod capture;
pub mod capture_file;
pub mod capture_output;
pub mod direction;
pub mod names;
pub mod observed_frame;
mod packet_numbers;
pub mod ring;
pub mod words;
mod writing;

pub use capture::{
    FILE_HEADER_OCTETS, PACKET_OCTETS, RECORD_HEADER_OCTETS, WIRE_OCTETS, file_header, packet,
};
pub use capture_file::Capture;
pub use capture_output::{CaptureOutput, UntilFailure};
pub use direction::Direction;
pub use names::{file_name, number_of};
pub use observed_frame::ObservedFrame;
pub use ring::{CaptureRing, LAST_NUMBER, Placing};
pub use settings::PointFormat;
pub use words::{FrameWords, WORDS_OCTETS, frame_words};
