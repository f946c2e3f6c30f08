//! Chunks of a type that isn't known (RFC 9260 §3.2).

ghost use Rattle.std.specs.Prelude.{◌≡◌, ◌+◌, ◌*◌, ◌/◌, [], ◌∷◌, length};
ghost use Rattle.sctp_codec.specs.Packets.{ErrorChunk};
ghost use Rattle.sctp_codec.specs.Parameters.{UnrecognizedChunk, cause_item};
ghost use Rattle.sctp_rules.specs.Ending.{answered};
ghost use Rattle.sctp_rules.specs.Packets.{is_reported, is_skipped, heard_unknown};
ghost use Rattle.sctp_bundling.specs.Replies.{size_of};

use crate::endpoint::Endpoint;
use sctp_bundling::Reply;
use sctp_codec::Cause;
use sctp_rules::limits::CONTROL_OCTETS;

/// Octets of an ERROR that reports a chunk without a value.
const REPORT_OCTETS: usize = 12;

impl Endpoint {
    /// A chunk of an unknown type came: it is reported with the next packet, if its type asks for that.
    pub(super) fn hear_unknown(&mut self, kind: u8, flags: u8, value: &[u8])
        ensures { self.new ≡ record self.old {
          state = (heard_unknown kind flags value.now self.old.state).does.left;
        } }
    {
        if is_reported(kind) {
            self.report_unknown(kind, flags, value);
        }
    }

    /// ERROR with the chunk goes out with the next packet, if there is room for it.
    fn report_unknown(&mut self, kind: u8, flags: u8, value: &[u8])
        ensures { self.new ≡ record self.old {
          state = answered (ErrorChunk (cause_item (UnrecognizedChunk kind flags value.now) ∷ [])) self.old.state;
        } }
    {
        if self.control.size() + octets_of_report(kind, flags, value) <= CONTROL_OCTETS {
            self.control.add(&Reply::Error(Cause::UnrecognizedChunk { kind, flags, value }));
        }
    }
}

/// Octets of ERROR with an unknown chunk, padded.
fn octets_of_report(kind: u8, flags: u8, value: &[u8]) -> usize
    ensures value { result ≡ size_of (ErrorChunk (cause_item (UnrecognizedChunk kind flags value.now) ∷ [])) }
    ensures long { result ≡ 12 + (length value.now + 3) / 4 * 4 }
{
    REPORT_OCTETS + (value.len() + 3) / 4 * 4
}

/// Whether an unknown chunk of a type is reported: the second highest bit.
fn is_reported(kind: u8) -> bool
    ensures { result ≡ is_reported kind }
{
    (kind >> 6) % 2 == 1
}

/// Whether the chunks after an unknown one of a type count: the highest bit.
pub(super) fn is_skipped(kind: u8) -> bool
    ensures { result ≡ is_skipped kind }
{
    (kind >> 7) % 2 == 1
}
