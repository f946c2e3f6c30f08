//! The octets of a frame that went out.

ghost use Rattle.std.specs.Prelude.{◌≡◌, ℕ, ◌≤◌, List, length};

use arrayvec::ArrayVec;
use settings::Limits;
use std::marker::Model;

/// Octets before a message's field in its frame: both headers, the priority octet and the service information octet
/// (RFC 4165 §2).
const IN_FRONT_OF_FIELD: usize = 18;

/// Octets of the longest frame that goes out: that of a message with the longest field.
pub const LONGEST_FRAME: usize = IN_FRONT_OF_FIELD + Limits::SIF_OCTETS;

/// The octets of a frame that went out.
#[derive(Drop)]
pub struct FrameText {
    octets: ArrayVec<u8, LONGEST_FRAME>,
}

impl Model for FrameText {
    ghost Value = { List ℕ };

    ghost view = { λ text. text.octets.items };
}

impl FrameText {
    /// These octets.
    pub fn new(octets: &[u8]) -> FrameText
        requires { length octets.now ≤ LONGEST_FRAME }
        ensures { result ≡ octets.now }
    {
        let mut text = ArrayVec::new();
        text.try_extend_from_slice(octets).unwrap();
        FrameText { octets: text }
    }

    /// The octets, in the order in which they go out.
    pub fn octets(&self) -> &[u8]
        ensures octets { result.now ≡ self.now }
        ensures fits { length self.now ≤ LONGEST_FRAME }
    {
        self.octets.as_slice()
    }
}
