//! Octets in a buffer of fixed size, from the first that is held to the last.

ghost use Rattle.std.specs.Prelude.{◌≡◌, ◌+◌, ◌≤◌, [], ◌++◌, length, drop};

use signalling_types::Limits;

/// The octets from `start` to `end` of a buffer that any frame fits into.
#[derive(Drop)]
pub(crate) struct Window {
    octets: [u8; Limits::FRAME_OCTETS],
    start: usize,
    end: usize,
    ghost ordered: { start ≤ end },
    ghost within: { end ≤ 4096 },
}

impl Window {
    ghost use Rattle.m2pa_codec.specs.Held.{items, room};

    /// A window without octets.
    pub(crate) fn new() -> Window
        ensures { items result ≡ [] }
    {
        Window {
            octets: [0; Limits::FRAME_OCTETS],
            start: 0,
            end: 0,
        }
    }

    /// The octets that it holds.
    pub(crate) fn as_slice(&self) -> &[u8]
        ensures octets { result.now ≡ items self.now }
        ensures fits { length result.now ≤ Limits.FRAME_OCTETS }
    {
        &self.octets[self.start..self.end]
    }

    /// Adds octets after those that it holds. If the room after those is too little, they move to the front of the
    /// buffer first.
    pub(crate) fn append(&mut self, more: &[u8])
        requires { length (items self.old) + length more.now ≤ Limits.FRAME_OCTETS }
        ensures { items self.new ≡ items self.old ++ more.now }
    {
        if Limits::FRAME_OCTETS - self.end < more.len() {
            self.move_to_front();
        }
        self.write_behind(more);
    }

    /// Lets go of the first octets.
    pub(crate) fn consume(&mut self, count: usize)
        requires { count ≤ length (items self.old) }
        ensures { items self.new ≡ drop count (items self.old) }
    {
        self.start += count;
    }

    // Moves what is held to the front of the buffer.
    fn move_to_front(&mut self)
        ensures octets { items self.new ≡ items self.old }
        ensures room { room self.new + length (items self.new) ≡ Limits.FRAME_OCTETS }
    {
        let (start, end) = (self.start, self.end);
        self.octets.copy_within(start..end, 0);
        self.start = 0;
        self.end = end - start;
    }

    // Writes octets into the room after those that are held.
    fn write_behind(&mut self, more: &[u8])
        requires { length more.now ≤ room self.old }
        ensures { items self.new ≡ items self.old ++ more.now }
    {
        let end = self.end;
        self.octets[end..end + more.len()].copy_from_slice(more);
        self.end = end + more.len();
    }
}
