//! What the datagrams of a gate come from.

ghost use Rattle.std.specs.Prelude.{Option, List, IfNone};
ghost use Rattle.lab.specs.Hearing.{Came, Receives, IsDry};

use sctp_endpoint::Address;

/// What the datagrams of a gate come from, one at a time: a socket, or a list in memory.
pub trait Incoming {
    // The datagrams that are still to come, if they are known.
    ghost coming: { Self → Option (List Came) };

    /// The next datagram, whose octets lie at the front of the buffer then: how many they are, and where they are from.
    /// None if none comes.
    fn receive(&mut self, buffer: &mut [u8]) -> Option<(usize, Address)>
        ensures received { Receives result buffer.new (coming self.old) (coming self.new) }
        ensures dry { IfNone result (IsDry (coming self.new)) };
}
