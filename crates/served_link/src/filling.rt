//! Frames that are taken, as long as there is room.

ghost use Rattle.std.specs.Prelude.{◌≡◌, ◌+◌, ◌≤◌, ◌++◌, length};
ghost use Rattle.exchange.specs.KeptQueues.{kept};
ghost use Rattle.served_link.specs.Connections.{Fills};
ghost use Rattle.served_link.specs.Room.{pending_in};
ghost use Rattle.served_link.specs.Watching.{WentOut};

use crate::outgoing::{OUTPUT_OCTETS, Outgoing};
use crate::watch::Watch;
use exchange::{BUFFER_OCTETS, Exchange};
use settings::LinkId;

/// Takes the frames of a link, one after another, while the longest would find room.
pub(crate) fn fill_all<W: Watch>(
    link: LinkId,
    outgoing: &mut Outgoing,
    exchange: &mut Exchange,
    watch: &mut W,
)
    ensures { Fills W.sees kept link (pending_in outgoing.old) (pending_in outgoing.new)
        exchange.old exchange.new watch.old watch.new }
{
    let mut frame = [0; BUFFER_OCTETS];
    while outgoing.has_room() {
        match exchange.take(link, &mut frame) {
            Some(count) => put(link, &frame[..count], outgoing, watch),
            None => return,
        }
    }
}

/// Puts a frame after those before it, and tells the watch of it.
fn put<W: Watch>(link: LinkId, frame: &[u8], outgoing: &mut Outgoing, watch: &mut W)
    requires { length (pending_in outgoing.old) + length frame.now ≤ OUTPUT_OCTETS }
    ensures behind { pending_in outgoing.new ≡ pending_in outgoing.old ++ frame.now }
    ensures seen { W.sees watch.old (WentOut link frame.now) watch.new }
{
    outgoing.push(frame);
    watch.went_out(link, frame);
}
