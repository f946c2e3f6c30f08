//! What a capture is written to.

ghost use Rattle.std.specs.Prelude.{◌≡◌, true, false, Option, List, ℕ, Bool, OnOk, OnErr};
ghost use Rattle.std.specs.Io.KnownBytes.{Appends, Keeps};
ghost use Rattle.trace.specs.Captures.{AppendsPart};

use std::io::Write;

/// What a capture is written to, until a write or a flush fails.
pub trait CaptureOutput {
    // The octets that were written, if they are known.
    ghost written: { Self → Option (List ℕ) };

    // Whether a write or a flush failed.
    ghost failed: { Self → Bool };

    /// Writes all the octets. If that fails, the first of them may be written, but not all.
    fn write(&mut self, octets: &[u8])
        ensures all { failed self.new ≡ false → Appends (written self.old) (written self.new) octets.now }
        ensures part { failed self.old ≡ false → failed self.new ≡ true
            → AppendsPart (written self.old) (written self.new) octets.now }
        ensures ended { failed self.old ≡ true → self.new ≡ self.old };

    /// Hands on what was written.
    fn flush(&mut self)
        ensures octets { Keeps (written self.old) (written self.new) }
        ensures ended { failed self.old ≡ true → self.new ≡ self.old };

    /// Whether a write or a flush failed.
    fn has_failed(&self) -> bool
        ensures { result ≡ failed self.now };
}

/// An output to a writer of the standard library, such as a file behind a buffer.
///
/// A write of the writer that fails, or that takes nothing, is a failed write, and the last one.
#[derive(Drop)]
pub struct UntilFailure<W> {
    writer: W,
    has_failed: bool,
}

impl<W: Write> UntilFailure<W> {
    /// The output to this writer, of which no write failed yet.
    pub fn new(writer: W) -> UntilFailure<W>
        ensures written { ⟦<UntilFailure<W> as CaptureOutput>⟧.written result ≡ W.contents writer }
        ensures failed { ⟦<UntilFailure<W> as CaptureOutput>⟧.failed result ≡ false }
    {
        UntilFailure {
            writer,
            has_failed: false,
        }
    }

    /// The writer, as it is now.
    pub fn writer(&self) -> &W
        ensures { W.contents result.now ≡ ⟦<UntilFailure<W> as CaptureOutput>⟧.written self.now }
    {
        &self.writer
    }

    /// The writer, with what was written.
    pub fn into_writer(self) -> W
        ensures { W.contents result ≡ ⟦<UntilFailure<W> as CaptureOutput>⟧.written self }
    {
        let UntilFailure { writer, .. } = self;
        writer
    }
}

impl<W: Write> CaptureOutput for UntilFailure<W> {
    ghost written = { λ o. W.contents o.writer };

    ghost failed = { λ o. o.has_failed };

    fn write(&mut self, octets: &[u8]) {
        self.has_failed = self.has_failed || write_whole(&mut self.writer, octets).is_err();
    }

    fn flush(&mut self) {
        self.has_failed = self.has_failed || self.writer.flush().is_err();
    }

    fn has_failed(&self) -> bool {
        self.has_failed
    }
}

#[derive(Clone, Copy)]
struct WriteFailed;

/// Writes octets until all are written, or one write fails or takes nothing.
fn write_whole<W: Write>(writer: &mut W, octets: &[u8]) -> Result<(), WriteFailed>
    ensures all { OnOk result (Appends (W.contents writer.old) (W.contents writer.new) octets.now) }
    ensures part { OnErr result (AppendsPart (W.contents writer.old) (W.contents writer.new) octets.now) }
{
    let mut start = 0;
    while start < octets.len() {
        match writer.write(&octets[start..]) {
            Ok(0) | Err(_) => return Err(WriteFailed),
            Ok(count) => start += count,
        }
    }
    Ok(())
}
