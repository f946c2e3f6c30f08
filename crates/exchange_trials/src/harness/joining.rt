//! Links and their ends.

use exchange::LinkId;

/// One end of a link. It has plain numbers, since only these are copied wherever they are used again.
#[derive(Clone, Copy)]
pub(crate) struct Place {
    /// The code of its node's point.
    pub point: u16,
    /// The link's number there.
    pub number: u8,
}

impl Place {
    /// The link.
    pub(crate) fn link(self) -> LinkId {
        LinkId::new(self.number)
    }
}

/// A link, as seen from one end.
#[derive(Clone, Copy)]
pub(crate) struct Link {
    /// This end.
    pub here: Place,
    /// The other end.
    pub there: Place,
}

impl Link {
    /// The same link from the other end.
    pub(crate) fn reversed(self) -> Link {
        Link {
            here: self.there,
            there: self.here,
        }
    }

    /// Whether this is the end at the lower point.
    pub(crate) fn is_lower(self) -> bool {
        self.here.point < self.there.point
    }

    /// Whether it joins points 1 and 2.
    pub(crate) fn is_between_ends(self) -> bool {
        self.here.point <= 2 && self.there.point <= 2
    }

    /// Whether this and another link of a node are in one set.
    pub(crate) fn is_beside(self, other: Link) -> bool {
        self.here.point == other.here.point
            && self.there.point == other.there.point
            && self.here.number != other.here.number
    }
}
