//! Tries of digits, tables of translation rows, and messages that are relayed and returned by these.

ghost use Rattle.std.specs.Prelude.{◌<◌, ◌↔◌, All, IsTrue};

use crate::said::Said;
use crate::words::{digits, number, number_of, word};
use sccp_relay::{Own, Relayed, TitleKey, Titles, Trie, Ways, relay, returned};
use settings::{TitleChange, TitleRoute, TitleRow};
use signalling_types::{Cause, Limits, PointCode, Sls, Ssn};

/// The points that links lead to.
#[derive(Clone, Copy)]
struct Reached<'a> {
    points: &'a [u16],
}

impl Ways for Reached<'_> {
    ghost use Rattle.std.specs.Prelude.{nat_eq};
    ghost use Rattle.std.specs.List.{list_any};

    ghost leads = { λ reached point sls. list_any (λ other. nat_eq other point) reached.points.now };

    fn lead_to(&self, point: PointCode, _sls: Sls) -> bool {
        self.points.contains(&point.code())
    }
}

/// Makes the call of a row of a trie, and says the answer.
pub(crate) fn digits_of(said: &mut Said, trie: &mut Trie, row: &str) {
    let mut buffer = [0; 64];
    let digits = digits(word(row, 2), &mut buffer);
    match (word(row, 1), number_of(row, 3)) {
        ("longest", _) => said.show(&trie.longest(digits)),
        ("remove", _) => said.show(&trie.remove(digits)),
        ("replace", Some(value)) => said.show(&trie.replace(digits, value)),
        (_, Some(value)) if are_digits(digits) => said.show(&trie.insert(digits, value)),
        _ => said.say("no value at digits"),
    }
}

/// Whether each is the value of a digit, 0 to 15.
fn are_digits(digits: &[u8]) -> bool
    ensures { IsTrue result ↔ All (λ digit. digit < 16) digits.now }
{
    digits.iter().all(|digit| *digit < 16)
}

/// Makes the call of a row of a table, and says the answer.
pub(crate) fn titles(said: &mut Said, table: &mut Titles, row: &str) {
    let mut buffer = [0; 64];
    let digits = digits(word(row, 5), &mut buffer);
    match (word(row, 1), key(row)) {
        ("entry", _) => say_row(said, table.row(number(row, 2)).ok_or(Cause::NoSuchName)),
        ("fill", Some(key)) => fill(said, table, key),
        ("add", Some(key)) => match changed_row(key, digits, row) {
            Some(new) => said.show(&table.add(new)),
            None => said.say("no row"),
        },
        ("set", Some(key)) => match changed_row(key, digits, row) {
            Some(new) => said.show(&table.set(new)),
            None => said.say("no row"),
        },
        ("backup", Some(key)) => match new_row(key, digits, row) {
            Some(new) => said.show(&table.add(backed_up(new, row))),
            None => said.say("no row"),
        },
        ("remove", Some(key)) => said.show(&table.remove(key, digits)),
        (_, Some(key)) => say_row(said, table.translate(key, digits)),
        _ => said.say("no key"),
    }
}

/// The key of a row: translation type, plan and nature.
fn key(row: &str) -> Option<TitleKey> {
    Some(TitleKey {
        translation: number_of(row, 2)?,
        plan: number_of(row, 3)?,
        nature: number_of(row, 4)?,
    })
}

/// The new row of a row.
fn new_row(key: TitleKey, digits: &[u8], row: &str) -> Option<TitleRow> {
    row_to(key, digits, number_of(row, 6)?, number_of(row, 7))
}

/// The new row of a row, with its change of titles.
fn changed_row(key: TitleKey, digits: &[u8], row: &str) -> Option<TitleRow> {
    Some(new_row(key, digits, row)?.with_change(change(row)?))
}

/// A row that leads to a point, routed there by a subsystem, if one is named, or else by its title.
fn row_to(key: TitleKey, digits: &[u8], point: u16, ssn: Option<u8>) -> Option<TitleRow> {
    let point = PointCode::new(point)?;
    let route = match ssn {
        Some(number) => TitleRoute::Ssn(Ssn::new(number)?),
        None => TitleRoute::Title(None),
    };
    TitleRow::new(key.translation, key.plan, key.nature, digits, point, route)
}

/// The change of titles of a row: the plan, the nature, how many digits are taken off, and those that are put on.
fn change(row: &str) -> Option<TitleChange> {
    if word(row, 8).is_empty() {
        return Some(TitleChange::none());
    }
    let mut buffer = [0; 64];
    let added = digits(word(row, 11), &mut buffer);
    TitleChange::new(
        number_of(row, 8),
        number_of(row, 9),
        number_of(row, 10)?,
        added,
    )
}

/// The row with a point as its backup, if it has one.
fn backed_up(new: TitleRow, row: &str) -> TitleRow {
    match number_of(row, 8).and_then(PointCode::new) {
        Some(point) => new.with_backup(point),
        None => new,
    }
}

/// Adds rows of all translation types and of all two digits until one is refused, and says how many were added.
fn fill(said: &mut Said, table: &mut Titles, key: TitleKey) {
    for number in 0..=u16::MAX {
        let [translation, last] = number.to_be_bytes();
        let key = TitleKey { translation, ..key };
        match row_to(key, &[last / 16, last % 16], 1, None) {
            Some(row) if table.add(row).is_ok() => {}
            _ => return said.say(number),
        }
    }
}

/// Says a translation row, or the cause for which there is none.
fn say_row(said: &mut Said, row: Result<TitleRow, Cause>) {
    let row = match row {
        Ok(row) => row,
        Err(cause) => return said.fault(cause.number(), &cause),
    };
    said.say(format_args!(
        "translation {} plan {} nature {} {:?} point {}",
        row.translation(),
        row.plan(),
        row.nature(),
        row.digits(),
        row.point().code()
    ));
    match row.route() {
        TitleRoute::Title(_) => said.say("title"),
        TitleRoute::Ssn(ssn) => said.say(format_args!("ssn {}", ssn.number())),
    }
}

/// Relays a field at point 1, which has subsystem 8 and whose links lead to these points, and says what goes on, or is
/// returned. It relays extended messages and answers tests, or does neither.
pub(crate) fn relayed(said: &mut Said, table: &Titles, points: &[u16], sif: &[u8], extended: bool) {
    let mut field = [0xee; Limits::SIF_OCTETS];
    let own = Own {
        point: PointCode::of_low_bits(1),
        subsystems: &[8],
        extended,
        answers_tests: extended,
        hears_statuses: false,
        ways: Reached { points },
    };
    if sif.len() < 4 {
        return;
    }
    match relay(sif, table, &own, &mut field) {
        Relayed::Delivered => said.say("delivered"),
        Relayed::Onward(count) => said.octets(field.get(..count).unwrap_or(&[])),
        Relayed::Heard(_) => said.say("heard"),
        Relayed::Refused(cause) => {
            said.fault(cause.number(), &cause);
            let returned = returned(sif, cause, table, &own, &mut field);
            said.octets(field.get(..returned.unwrap_or(0)).unwrap_or(&[]));
        }
    }
}
