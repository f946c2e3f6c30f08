//! The octets that go out.

ghost use Rattle.std.specs.Prelude.{◌≡◌, ◌+◌, ◌≤◌, [], ◌++◌, length, drop};
ghost use Rattle.served_link.specs.Connections.{has_room, is_pending};

use exchange::LONGEST_FRAME;

/// Octets of frames that are taken and aren't written yet, at most.
pub const OUTPUT_OCTETS: usize = 65_536;

/// The octets of the frames that were taken, one after another, without those that are written. They lie from `start`
/// to `end` of the buffer.
#[derive(Drop)]
pub(crate) struct Outgoing {
    buffer: [u8; OUTPUT_OCTETS],
    start: usize,
    end: usize,
    ghost ordered: { start ≤ end },
    ghost within: { end ≤ 65536 },
}

impl Outgoing {
    ghost use Rattle.served_link.specs.Room.{pending_in, room_behind};

    /// Nothing goes out.
    pub(crate) fn new() -> Outgoing
        ensures { pending_in result ≡ [] }
    {
        Outgoing {
            buffer: [0; OUTPUT_OCTETS],
            start: 0,
            end: 0,
        }
    }

    /// The octets that are left to write.
    pub(crate) fn pending(&self) -> &[u8]
        ensures { result.now ≡ pending_in self.now }
    {
        &self.buffer[self.start..self.end]
    }

    /// Whether octets are left to write.
    pub(crate) fn is_pending(&self) -> bool
        ensures { result ≡ is_pending (pending_in self.now) }
    {
        !self.pending().is_empty()
    }

    /// Whether the longest frame finds room.
    pub(crate) fn has_room(&self) -> bool
        ensures { result ≡ has_room (pending_in self.now) }
    {
        self.pending().len() <= OUTPUT_OCTETS - LONGEST_FRAME
    }

    /// Adds a frame after those before it. If the room after what is left is too little, that moves to the front of the
    /// buffer first.
    pub(crate) fn push(&mut self, frame: &[u8])
        requires { length (pending_in self.old) + length frame.now ≤ OUTPUT_OCTETS }
        ensures { pending_in self.new ≡ pending_in self.old ++ frame.now }
    {
        if OUTPUT_OCTETS - self.end < frame.len() {
            self.move_to_front();
        }
        self.write_behind(frame);
    }

    /// This many more octets are written.
    pub(crate) fn advance(&mut self, count: usize)
        requires { count ≤ length (pending_in self.old) }
        ensures { pending_in self.new ≡ drop count (pending_in self.old) }
    {
        self.start += count;
    }

    /// Moves what is left to the front of the buffer.
    fn move_to_front(&mut self)
        ensures octets { pending_in self.new ≡ pending_in self.old }
        ensures room { room_behind self.new + length (pending_in self.new) ≡ OUTPUT_OCTETS }
    {
        let (start, end) = (self.start, self.end);
        self.buffer.copy_within(start..end, 0);
        self.start = 0;
        self.end = end - start;
    }

    /// Writes octets into the room after those that are left.
    fn write_behind(&mut self, more: &[u8])
        requires { length more.now ≤ room_behind self.old }
        ensures { pending_in self.new ≡ pending_in self.old ++ more.now }
    {
        let end = self.end;
        self.buffer[end..end + more.len()].copy_from_slice(more);
        self.end = end + more.len();
    }
}
