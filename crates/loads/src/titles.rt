//! The translation rows of the exchange.

use settings::{ChangeDraft, Limits, TitleDraft};
use std::alloc::{AllocError, Global};

/// Rows of a table that is short.
const FEW_ROWS: u16 = 2;

/// The translation type of all rows.
pub(crate) const TRANSLATION: u8 = 0;

/// Their numbering plan: that of telephony (Q.713 §3.4.2.3.3).
pub(crate) const PLAN: u8 = 1;

/// Their nature of address: an international number (Q.713 §3.4.2.3.1).
pub(crate) const NATURE: u8 = 4;

/// The subsystem that they lead to: the home location register (Q.713 §3.4.2.2).
pub(crate) const SUBSYSTEM: u8 = 6;

/// What is after the number of a row that has as many digits as may be.
const LONG_END: &str = "4917200000000000000000000000";

/// Which translation rows there are.
#[derive(Clone, Copy)]
pub(crate) enum Table {
    /// None.
    Empty,
    /// Two, of four digits.
    Short,
    /// As many as may be, of four digits.
    Full,
    /// As many as may be, of as many digits as may be.
    Longest,
}

impl Table {
    /// How many rows, and what is after the number in the digits of each.
    fn rows(self) -> (u16, &'static str) {
        match self {
            Table::Empty => (0, ""),
            Table::Short => (FEW_ROWS, ""),
            Table::Full => (Limits::TITLES as u16, ""),
            Table::Longest => (Limits::TITLES as u16, LONG_END),
        }
    }
}

/// These translation rows, whose addresses lead to a point. All have the same key. Their first four digits are the
/// numbers from 0 on in hexadecimal, so no row leads an address that begins with `ffff`, and no two rows share more
/// than three digits.
pub(crate) fn title_drafts(
    alloc: Global,
    table: Table,
    point: i64,
) -> Result<Vec<TitleDraft>, AllocError> {
    let (count, end) = table.rows();
    let mut titles = Vec::new(alloc);
    for row in 0..count {
        let digits = format!(in alloc; "{row:04x}{end}")?;
        titles.push(title(alloc, digits, point)?)?;
    }
    Ok(titles)
}

/// A row of these digits.
fn title(alloc: Global, digits: String, point: i64) -> Result<TitleDraft, AllocError> {
    Ok(TitleDraft {
        translation: i64::from(TRANSLATION),
        plan: i64::from(PLAN),
        nature: i64::from(NATURE),
        digits,
        point,
        backup: None,
        route: String::from_str(alloc, "ssn")?,
        ssn: Some(i64::from(SUBSYSTEM)),
        change: ChangeDraft::none(alloc),
    })
}
