//! The text of the translation rows.

ghost use Rattle.std.specs.Prelude.{◌≡◌, ◌+◌, ◌≤◌, ◌<◌, ◌^◌, ◌++◌, [], ◌∷◌, length, map, All};
ghost use Rattle.exchange_rules.specs.First.{Abstract};
ghost use Rattle.exchange.specs.Calls.{StandsFor};
ghost use Rattle.console.specs.Texts.{Shows, title_line, title_text, digit_octet, way_text, title_way_text};
ghost use Rattle.console.specs.Texts.{backup_text, given_text, added_text, is_change, change_text};

use crate::line::{LINE_OCTETS, push_octet, push_point};
use arrayvec::ArrayString;
use exchange::Exchange;
use settings::{Limits, PointCode, PointFormat, Ssn, TitleChange, TitleRoute, TitleRow};

/// Writes line `k`, from 0, of the text of the translation rows: `title T P N DIGITS POINT ROUTE SSN`, one line for
/// each row, by translation type, plan, nature, then digits, a prefix before the longer ones. ROUTE is `title` or
/// `ssn`, and SSN `-` if the row has none. If the row has a backup, ` backup POINT` comes after, and if it changes
/// titles, ` changed PLAN NATURE REMOVE ADD`, with `-` for each but REMOVE that it lacks. Points are shown in this
/// format.
///
/// False past the last line, and then nothing is written.
pub fn show_titles(
    exchange: &Exchange,
    k: usize,
    points: PointFormat,
    out: &mut ArrayString<LINE_OCTETS>,
) -> bool
    // For every abstract state that the exchange stands for, the line is that of the abstract state.
    ensures line { (a : Abstract) → StandsFor exchange.now a →
        Shows (title_line points a k) result out.old.bytes out.new.bytes }

    // The same on what is kept.
    ensures kept_line { Shows (title_line points exchange.now k) result out.old.bytes out.new.bytes }
{
    let Some(row) = exchange.title(k) else {
        return false;
    };
    write_title(&row, points, out);
    true
}

pub(crate) fn write_title(row: &TitleRow, points: PointFormat, out: &mut ArrayString<LINE_OCTETS>)
    ensures { out.new.bytes ≡ title_text points row.now }
{
    out.clear();
    push_octet(out, "title ", row.translation());
    push_octet(out, " ", row.plan());
    push_octet(out, " ", row.nature());
    out.push_str(" ");
    push_digits(out, row.digits());
    push_point(out, " ", row.point(), points);
    push_way(out, row.route());
    push_backup(out, row.backup(), points);
    push_change(out, row.change());
}

/// Appends digits, `0` to `9` and `a` to `f`.
pub(crate) fn push_digits(line: &mut ArrayString<LINE_OCTETS>, digits: &[u8])
    requires digits { All (λ digit. digit < 2 ^ 4) digits.now }
    requires few { length digits.now ≤ Limits.TITLE_DIGITS }
    requires room { length line.old.bytes + Limits.TITLE_DIGITS ≤ LINE_OCTETS }
    ensures text { line.new.bytes ≡ line.old.bytes ++ map digit_octet digits.now }
    ensures short { length line.new.bytes ≤ length line.old.bytes + Limits.TITLE_DIGITS }
{
    for digit in digits {
        push_digit(line, *digit);
    }
}

/// Appends a digit.
fn push_digit(line: &mut ArrayString<LINE_OCTETS>, digit: u8)
    requires digit { digit < 2 ^ 4 }
    requires room { length line.old.bytes + 1 ≤ LINE_OCTETS }
    ensures { line.new.bytes ≡ line.old.bytes ++ digit_octet digit ∷ [] }
{
    line.push(digit_char(digit));
}

/// A digit, 0 to 15, as it is written.
fn digit_char(digit: u8) -> char
    requires { digit < 2 ^ 4 }
    ensures value { result ≡ digit_octet digit }
    ensures ascii { result < 128 }
{
    char::from(match digit {
        0..=9 => b'0' + digit,
        _ => b'a' + (digit - 10),
    })
}

/// Appends how addresses are routed: ` title SSN` or ` ssn SSN`.
fn push_way(line: &mut ArrayString<LINE_OCTETS>, route: TitleRoute)
    requires { length line.old.bytes + 10 ≤ LINE_OCTETS }
    ensures text { line.new.bytes ≡ line.old.bytes ++ way_text route }
    ensures short { length line.new.bytes ≤ length line.old.bytes + 10 }
{
    match route {
        TitleRoute::Title(ssn) => push_ssn(line, ssn),
        TitleRoute::Ssn(ssn) => push_octet(line, " ssn ", ssn.number()),
    }
}

/// Appends ` title `, and a subsystem number, or `-` if there is none.
fn push_ssn(line: &mut ArrayString<LINE_OCTETS>, ssn: Option<Ssn>)
    requires { length line.old.bytes + 10 ≤ LINE_OCTETS }
    ensures text { line.new.bytes ≡ line.old.bytes ++ title_way_text ssn }
    ensures short { length line.new.bytes ≤ length line.old.bytes + 10 }
{
    match ssn {
        Some(ssn) => push_octet(line, " title ", ssn.number()),
        None => line.push_str(" title -"),
    }
}

/// Appends a backup point, if there is one: ` backup POINT`.
fn push_backup(line: &mut ArrayString<LINE_OCTETS>, backup: Option<PointCode>, points: PointFormat)
    requires { length line.old.bytes + 15 ≤ LINE_OCTETS }
    ensures text { line.new.bytes ≡ line.old.bytes ++ backup_text points backup }
    ensures short { length line.new.bytes ≤ length line.old.bytes + 15 }
{
    if let Some(backup) = backup {
        push_point(line, " backup ", backup, points);
    }
}

/// Whether a row changes titles.
fn is_change(change: &TitleChange) -> bool
    ensures { result ≡ is_change change.now }
{
    change.plan().is_some()
        || change.nature().is_some()
        || change.removed() != 0
        || !change.added().is_empty()
}

/// Appends how a row changes titles, if it does: ` changed PLAN NATURE REMOVE ADD`.
fn push_change(line: &mut ArrayString<LINE_OCTETS>, change: &TitleChange)
    requires { length line.old.bytes + 53 ≤ LINE_OCTETS }
    ensures { line.new.bytes ≡ line.old.bytes ++ change_text change.now }
{
    if !is_change(change) {
        return;
    }
    push_given(line, " changed ", change.plan());
    push_given(line, " ", change.nature());
    push_octet(line, " ", change.removed() as u8);
    line.push_str(" ");
    push_added(line, change.added());
}

/// Appends a word and a number, or `-` if there is none.
fn push_given(line: &mut ArrayString<LINE_OCTETS>, word: &str, number: Option<u8>)
    requires { length line.old.bytes + length word.now + 3 ≤ LINE_OCTETS }
    ensures text { line.new.bytes ≡ line.old.bytes ++ word.now ++ given_text number }
    ensures short { length line.new.bytes ≤ length line.old.bytes + length word.now + 3 }
{
    match number {
        Some(number) => push_octet(line, word, number),
        None => {
            line.push_str(word);
            line.push_str("-");
        }
    }
}

/// Appends digits, or `-` if there are none.
fn push_added(line: &mut ArrayString<LINE_OCTETS>, digits: &[u8])
    requires digits { All (λ digit. digit < 2 ^ 4) digits.now }
    requires few { length digits.now ≤ Limits.TITLE_DIGITS }
    requires room { length line.old.bytes + Limits.TITLE_DIGITS ≤ LINE_OCTETS }
    ensures { line.new.bytes ≡ line.old.bytes ++ added_text digits.now }
{
    if digits.is_empty() {
        line.push_str("-");
    } else {
        push_digits(line, digits);
    }
}
