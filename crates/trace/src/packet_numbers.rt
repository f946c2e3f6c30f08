//! The numbers of the packets of a capture.

ghost use Rattle.std.specs.Prelude.{◌≡◌, ◌+◌, ◌%◌, ◌^◌, ◌<◌, [], ◌∷◌, ◌++◌, List, slice_index, slice_set};
ghost use Rattle.trace.specs.Captures.{IsBehind, Passed, FramePassed, Seen, next_number};

use crate::direction::Direction;
use signalling_types::LinkId;

/// How many links a number of a link tells apart.
const LINK_NUMBERS: usize = 256;

/// The numbers of the next packets of each link, in each direction.
#[derive(Drop)]
pub struct PacketNumbers {
    incoming: [u32; LINK_NUMBERS],
    outgoing: [u32; LINK_NUMBERS],
}

impl PacketNumbers {
    /// All are 0: no frame passed yet.
    pub(crate) fn new() -> PacketNumbers
        ensures { IsBehind result [] }
    {
        PacketNumbers {
            incoming: [0; LINK_NUMBERS],
            outgoing: [0; LINK_NUMBERS],
        }
    }

    /// Counts a frame that passes on a link, and returns the number of its packet.
    pub(crate) fn take(&mut self, link: LinkId, direction: Direction) -> u32
        ensures number { (passed : List Passed) → IsBehind self.old passed
            → result ≡ next_number link direction passed }
        ensures behind { (passed : List Passed) (seen : Seen) → IsBehind self.old passed → seen.link ≡ link
            → seen.direction ≡ direction → IsBehind self.new (passed ++ FramePassed seen ∷ []) }
    {
        let place = link.index();
        match direction {
            Direction::In => take_number(&mut self.incoming, place),
            Direction::Out => take_number(&mut self.outgoing, place),
        }
    }
}

/// Counts a packet of the link at this index, and returns its number.
fn take_number(numbers: &mut [u32; LINK_NUMBERS], place: usize) -> u32
    requires { place < LINK_NUMBERS }
    ensures number { result ≡ slice_index numbers.old place }
    ensures next { numbers.new ≡ slice_set numbers.old place ((slice_index numbers.old place + 1) % 2 ^ 32) }
{
    let number = numbers[place];
    numbers[place] = number.wrapping_add(1);
    number
}
