//! Laws of frames, for whoever reads a stream of them. Each function states its law in its contract, and does nothing.

ghost use Rattle.std.specs.Prelude.{◌≡◌, ℕ, ◌++◌, ◌↔◌, List, [], Ok};
ghost use Rattle.m2pa_codec.specs.Frames.{FrameValue, IsFrame, IsSayable, AreOctets, spelled, read_frame};
ghost use Rattle.m2pa_codec.specs.Streams.{IsStream, Call, passed, GetsThrough, ComesToTheSame};

/// No frame is a proper prefix of another.
pub fn no_frame_begins_another()
    ensures { (x y rest : List ℕ) (v w : FrameValue) → IsFrame x v → IsFrame y w → x ++ rest ≡ y
        → rest ≡ [] }
{}

/// Octets are a frame that says a value exactly when reading gives that value.
#[tactic(auto, using(crate::proofs::FrameTexts::is_frame_read_frame, crate::proofs::FrameTexts::read_frame_is_frame))]
pub fn frames_are_what_is_read()
    ensures { (text : List ℕ) (v : FrameValue) → AreOctets text
        → IsFrame text v ↔ (read_frame text ≡ Ok v) }
{}

/// A text says one value at most.
pub fn one_value()
    ensures { (text : List ℕ) (v w : FrameValue) → IsFrame text v → IsFrame text w → v ≡ w }
{}

/// What is written for a value is a frame that says it, and reads back as it.
pub fn what_is_written_reads_back()
    ensures frame { (v : FrameValue) → IsSayable v → IsFrame (spelled v) v }
    ensures back { (v : FrameValue) → IsSayable v → read_frame (spelled v) ≡ Ok v }
{}

/// A stream is one list of texts and one rest.
pub fn one_stream()
    ensures { (octets : List ℕ) (texts others : List (List ℕ)) (rest other : List ℕ)
        → IsStream octets texts rest → IsStream octets others other
        → (texts ≡ others) × (rest ≡ other) }
{}

/// Whoever feeds octets to a framer and asks until there is no text gets the texts of the stream.
pub fn calls_give_the_stream()
    ensures { (octets : List ℕ) (calls : List Call) (through : GetsThrough octets (passed calls))
        → IsStream octets (passed calls).given ((passed calls).held ++ through.left) }
{}

/// It doesn't matter how the octets were cut into pieces, nor when the texts were asked for.
pub fn cuts_do_not_matter()
    ensures { (octets : List ℕ) (calls others : List Call)
        → GetsThrough octets (passed calls) → GetsThrough octets (passed others)
        → ComesToTheSame (passed calls) (passed others) }
{}
