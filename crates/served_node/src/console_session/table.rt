//! Rows of tables.

ghost use Rattle.std.specs.Prelude.{◌≡◌, ◌+◌, ◌≤◌, ◌++◌, decimal, length, replicate};
ghost use Rattle.settings.specs.Points.{point_text};
ghost use Rattle.served_node.specs.Tables.{cell, last_cell, message_text, some_number};

use arrayvec::ArrayString;
use console::{LINE_OCTETS, push_number};
use settings::{PointCode, PointFormat, point_text};

/// Octets of a row, at most.
pub const ROW_OCTETS: usize = 640;

/// Octets of a cell, at most, with the two blanks before it.
pub const CELL_OCTETS: usize = 72;

/// The number of the last message before the first.
pub const NO_NUMBER: u32 = 16_777_215;

/// A row.
pub(crate) type Row = ArrayString<ROW_OCTETS>;

/// Appends a cell: two blanks, a text, and blanks up to the width of its column.
pub(crate) fn push_cell(row: &mut Row, width: usize, text: &str)
    requires width { width + 2 ≤ CELL_OCTETS }
    requires text { length text.now + 2 ≤ CELL_OCTETS }
    requires room { length row.old.bytes + CELL_OCTETS ≤ ROW_OCTETS }
    ensures text { row.new.bytes ≡ row.old.bytes ++ cell width text.now }
    ensures short { length row.new.bytes ≤ length row.old.bytes + CELL_OCTETS }
{
    row.push_str("  ");
    row.push_str(text);
    push_blanks(row, width.saturating_sub(text.len()));
}

/// Appends so many blanks.
fn push_blanks(row: &mut Row, count: usize)
    requires { length row.old.bytes + count ≤ ROW_OCTETS }
    ensures text { row.new.bytes ≡ row.old.bytes ++ replicate count 32 }
    ensures short { length row.new.bytes ≡ length row.old.bytes + count }
{
    for _ in 0..count {
        row.push_str(" ");
    }
}

/// Appends the cell of a number.
pub(crate) fn push_number_cell(row: &mut Row, width: usize, number: u64)
    requires width { width + 2 ≤ CELL_OCTETS }
    requires room { length row.old.bytes + CELL_OCTETS ≤ ROW_OCTETS }
    ensures text { row.new.bytes ≡ row.old.bytes ++ cell width (decimal number) }
    ensures short { length row.new.bytes ≤ length row.old.bytes + CELL_OCTETS }
{
    push_cell(row, width, number_text(number).as_str());
}

/// Appends the cell of a point in this format.
pub(crate) fn push_point_cell(row: &mut Row, width: usize, point: PointCode, points: PointFormat)
    requires width { width + 2 ≤ CELL_OCTETS }
    requires room { length row.old.bytes + CELL_OCTETS ≤ ROW_OCTETS }
    ensures text { row.new.bytes ≡ row.old.bytes ++ cell width (point_text points point) }
    ensures short { length row.new.bytes ≤ length row.old.bytes + CELL_OCTETS }
{
    push_cell(row, width, point_text(point, points).as_str());
}

/// Appends the cell of the last column, and ends the row.
pub(crate) fn push_last(row: &mut Row, text: &str)
    requires text { length text.now + 3 ≤ CELL_OCTETS }
    requires room { length row.old.bytes + CELL_OCTETS ≤ ROW_OCTETS }
    ensures { row.new.bytes ≡ row.old.bytes ++ last_cell text.now }
{
    row.push_str("  ");
    row.push_str(text);
    row.push_str("\n");
}

/// A number in decimal digits.
pub(crate) fn number_text(number: u64) -> ArrayString<LINE_OCTETS>
    ensures text { result.bytes ≡ decimal number }
    ensures short { length result.bytes ≤ 20 }
{
    let mut text = ArrayString::new();
    push_number(&mut text, "", number);
    text
}

/// The number of the last message, `-` before the first.
pub(crate) fn message_text(number: u32) -> ArrayString<LINE_OCTETS>
    ensures text { result.bytes ≡ message_text number }
    ensures short { length result.bytes ≤ 20 }
{
    let Some(number) = some_number(number) else {
        let mut none = ArrayString::new();
        none.push_str("-");
        return none;
    };
    number_text(u64::from(number))
}

/// The number of a message; before the first there is none.
pub(crate) fn some_number(number: u32) -> Option<u32>
    ensures { result ≡ some_number number }
{
    if number == NO_NUMBER {
        None
    } else {
        Some(number)
    }
}
