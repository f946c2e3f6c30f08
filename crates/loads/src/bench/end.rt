//! The peer's end of a link.

ghost use Rattle.std.specs.Prelude.{◌<◌};

use settings::{Limits, LinkId};
use signalling_types::Number24;

/// The peer's end of a link, in an epoch of that link.
#[derive(Clone, Copy)]
pub(crate) struct End {
    /// The number of the last message that the peer took.
    pub taken: Number24,
    /// The number of the next message that it sends.
    pub next: Number24,
}

impl End {
    /// Nothing was taken, and nothing sent.
    pub(crate) fn first() -> End {
        End {
            taken: Number24::zero().previous(),
            next: Number24::zero(),
        }
    }
}

/// Where the end of a link is.
pub(crate) fn place(link: LinkId) -> usize
    ensures { result < Limits.LINKS }
{
    link.index() % Limits::LINKS
}

pub(crate) fn first() -> LinkId {
    LinkId::new(0)
}
