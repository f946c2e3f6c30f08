//! Running counts of the messages that went out.

ghost use Rattle.std.specs.Prelude.{◌≡◌, ◌≤◌, ◌^◌, false};
ghost use Rattle.sctp_sending.specs.Outgoing.{under_way_of, gone_out};
ghost use Rattle.sctp_sending.specs.Tallies.{lost_of, named_of, tally_with, tally_without};

use crate::cell::Cell;

/// Running counts of the messages that went out.
#[derive(Clone, Copy)]
pub struct Tally {
    /// The octets under way.
    pub under_way: u32,
    /// How many are lost.
    pub lost: u32,
    /// How many the peer named.
    pub named: u32,
}

/// Nothing is counted.
pub const NOTHING: Tally = Tally {
    under_way: 0,
    lost: 0,
    named: 0,
};

impl Tally {
    /// With one message more.
    pub fn with(self, cell: &Cell) -> Tally
        requires under_way { self.under_way ≤ 2 ^ 24 }
        requires lost { self.lost ≤ 2 ^ 24 }
        requires named { self.named ≤ 2 ^ 24 }
        ensures { result ≡ tally_with self cell.now }
    {
        Tally {
            under_way: self.under_way + cell.under_way(),
            lost: self.lost + u32::from(cell.is_lost()),
            named: self.named + u32::from(cell.is_named()),
        }
    }

    /// With one message more, which goes out for the first time.
    #[inline(always)]
    pub fn with_new(self, cell: &Cell) -> Tally
        requires under_way { self.under_way ≤ 2 ^ 24 }
        requires named { self.named ≤ 2 ^ 24 }
        ensures { result ≡ tally_with self (gone_out false cell.now) }
    {
        Tally {
            under_way: self.under_way + cell.newly_confirmed(),
            lost: self.lost,
            named: self.named + u32::from(cell.is_named()),
        }
    }

    /// Without one message.
    pub fn without(self, cell: &Cell) -> Tally
        requires under_way { under_way_of cell.now ≤ self.under_way }
        requires lost { lost_of cell.now ≤ self.lost }
        requires named { named_of cell.now ≤ self.named }
        ensures { result ≡ tally_without self cell.now }
    {
        Tally {
            under_way: self.under_way - cell.under_way(),
            lost: self.lost - u32::from(cell.is_lost()),
            named: self.named - u32::from(cell.is_named()),
        }
    }
}
