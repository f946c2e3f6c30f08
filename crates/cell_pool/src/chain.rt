//! One list of linked cells.

ghost use Rattle.std.specs.Prelude.{◌≡◌, ℕ, ◌+◌, ◌<◌, ◌^◌};
ghost use Rattle.cell_pool.specs.Chains.{no_cells, one_cell, joined, end_of, shortened, turned_round};

use crate::cell_number::CellNumber;
use std::marker::Model;

/// The ends of a list of cells, how many it has, and one of them whose index is noted.
#[derive(Clone, Copy)]
pub(crate) struct Chain {
    first: CellNumber,
    last: CellNumber,
    count: usize,
    place: usize,
    noted: CellNumber,
}

impl Model for Chain {
    ghost use Rattle.cell_pool.specs.Chains.{Chained};

    ghost Value = { Chained };

    ghost view = { λ c. record {
      first = c.first;
      last = c.last;
      count = c.count;
      place = c.place;
      noted = c.noted;
    } };

    ghost inverse = { λ v. record {
      first = v.first;
      last = v.last;
      count = v.count;
      place = v.place;
      noted = v.noted;
    } };
}

impl Chain {
    /// A list without cells.
    pub(crate) fn empty() -> Chain
        ensures { result ≡ no_cells }
    {
        let none = CellNumber::new(0);
        Chain {
            first: none,
            last: none,
            count: 0,
            place: 0,
            noted: none,
        }
    }

    /// A list of one cell.
    pub(crate) fn of(cell: CellNumber) -> Chain
        ensures { result ≡ one_cell cell }
    {
        Chain {
            first: cell,
            last: cell,
            count: 1,
            place: 0,
            noted: cell,
        }
    }

    /// Its first cell, if it has one.
    pub(crate) fn first(&self) -> CellNumber
        ensures { result ≡ self.now.first }
    {
        self.first
    }

    /// Its last cell, if it has one.
    pub(crate) fn last(&self) -> CellNumber
        ensures { result ≡ self.now.last }
    {
        self.last
    }

    /// How many cells it has.
    pub(crate) fn count(&self) -> usize
        ensures { result ≡ self.now.count }
    {
        self.count
    }

    /// The index of the noted cell, if it has cells.
    pub(crate) fn place(&self) -> usize
        ensures { result ≡ self.now.place }
    {
        self.place
    }

    /// The noted cell, if it has cells.
    pub(crate) fn noted(&self) -> CellNumber
        ensures { result ≡ self.now.noted }
    {
        self.noted
    }

    /// The cell that must name the first one of a list that comes after. Without cells before it, it is the last one of
    /// that list, whose next one is never asked for.
    pub(crate) fn end(&self, back: &Chain) -> CellNumber
        ensures { result ≡ end_of self.now back.now }
    {
        let chain = if self.count == 0 { back } else { self };
        chain.last
    }

    /// Both lists, the other one after this one.
    pub(crate) fn joined(&self, back: &Chain) -> Chain
        requires { self.now.count + back.now.count < 2 ^ 64 }
        ensures { result ≡ joined self.now back.now }
    {
        if self.count == 0 {
            *back
        } else {
            Chain {
                last: back.last,
                count: self.count + back.count,
                ..*self
            }
        }
    }

    /// The list without its first cell, if the second one is known. A note of the first cell passes to the second.
    pub(crate) fn without_first(&self, second: CellNumber) -> Chain
        ensures { result ≡ shortened self.now second }
    {
        Chain {
            first: second,
            last: self.last,
            count: self.count.saturating_sub(1),
            place: self.place.saturating_sub(1),
            noted: if self.place == 0 { second } else { self.noted },
        }
    }

    /// The same cells, beginning after another one, which then comes last.
    pub(crate) fn turned_round(&self, first: CellNumber, last: CellNumber) -> Chain
        ensures { result ≡ turned_round self.now first last }
    {
        Chain {
            first,
            last,
            count: self.count,
            place: 0,
            noted: first,
        }
    }

    /// The same list, with another cell noted.
    pub(crate) fn noting(&self, place: usize, cell: CellNumber) -> Chain
        ensures { result ≡ record self.now { place = place; noted = cell } }
    {
        Chain {
            place,
            noted: cell,
            ..*self
        }
    }
}
