//! What a packet has after its header.

ghost use Rattle.sctp_codec.specs.Alone.{IsAlone};

use crate::item::Item;
use crate::items::Items;

/// The chunks of a packet as items, and the one that they are by themselves. Most packets have one chunk: then it is
/// looked for once.
#[derive(Clone, Copy)]
pub(crate) struct Body<'a> {
    pub items: Items<'a>,
    /// None if there are several, or none.
    pub alone: Option<Item<'a>>,
    ghost is_alone: { IsAlone alone items },
}

impl<'a> Body<'a> {
    ghost use Rattle.std.specs.Prelude.{◌≡◌};

    #[inline(always)]
    pub(crate) fn of(items: Items<'a>) -> Body<'a>
        ensures { result.items ≡ items.entry }
    {
        Body {
            items,
            alone: items.alone(),
        }
    }
}
