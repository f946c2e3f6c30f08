//! Cells by number.

ghost use Rattle.std.specs.Prelude.{◌≡◌, ℕ, ◌^◌, ◌<◌};

use std::marker::Model;

/// A cell of a row, by its number from 0.
#[derive(Clone, Copy)]
pub(crate) struct CellNumber {
    number: u32,
}

impl Model for CellNumber {
    ghost Value = { ℕ };

    ghost view = { λ c. c.number };

    ghost inverse = { λ n. record { number = n } };
}

impl CellNumber {
    /// The cell at this index of the row.
    pub(crate) fn new(index: usize) -> CellNumber
        requires { index < 2 ^ 32 }
        ensures { result ≡ index }
    {
        CellNumber {
            number: index as u32,
        }
    }

    /// Its index in the row.
    pub(crate) fn index(self) -> usize
        ensures { result ≡ self }
    {
        self.number as usize
    }
}
