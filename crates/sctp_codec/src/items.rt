//! Items, one after another.

ghost use Rattle.std.specs.Prelude.{◌≡◌, [], ◌∷◌, Some, IsSome, IsTrue};
ghost use Rattle.sctp_codec.specs.Items.{read_items, first_item};

use crate::item::{Item, first};

/// Whole items, one after another.
#[derive(Clone, Copy)]
pub struct Items<'a> {
    octets: &'a [u8],
    ghost whole: { IsSome (read_items octets.now) },
}

impl<'a> Items<'a> {
    ghost use Rattle.sctp_codec.specs.Packets.{lone};
    ghost use Rattle.sctp_codec.specs.Values.{item_of, items_of, Gives};

    /// No items.
    pub(crate) fn none() -> Items<'a>
        ensures { items_of result ≡ [] }
    {
        Items { octets: &[] }
    }

    /// The items that the octets are. None if they aren't whole items to their end; the padding after the last may be
    /// missing.
    #[inline]
    pub fn read(octets: &'a [u8]) -> Option<Items<'a>>
        ensures { Gives items_of result (read_items octets.now) }
    {
        if is_one(octets) {
            return Some(Items { octets });
        }
        let mut rest = octets;
        'each_item: while !rest.is_empty() {
            let Some((_, behind)) = first(rest) else {
                return None;
            };
            rest = behind;
        }
        Some(Items { octets })
    }

    /// The item that they are by themselves. None if there are several, or none.
    #[inline(always)]
    pub(crate) fn alone(self) -> Option<Item<'a>>
        ensures { Gives item_of result (lone (items_of self.entry)) }
    {
        let Some((item, behind)) = first(self.octets) else {
            return None;
        };
        if behind.is_empty() {
            return Some(item);
        }
        None
    }
}

impl<'a> Iterator for Items<'a> {
    type Item = Item<'a>;

    ghost use Rattle.std.specs.Iterator.{YieldsFirstBy, item_count};
    ghost use Rattle.sctp_codec.specs.Values.{item_of, items_of};

    ghost next_gives = { YieldsFirstBy item_of items_of };

    ghost remaining = { item_count items_of };

    #[inline(always)]
    fn next(&mut self) -> Option<Item<'a>> {
        let Some((item, behind)) = first(self.octets) else {
            return None;
        };
        self.octets = behind;
        Some(item)
    }
}

/// Whether the octets are one item. Most are: then no other is looked for.
#[inline(always)]
fn is_one(octets: &[u8]) -> bool
    ensures { IsTrue result → read_items octets.now ≡ Some (first_item octets.now ∷ []) }
{
    match first(octets) {
        Some((_, behind)) => behind.is_empty(),
        None => false,
    }
}
