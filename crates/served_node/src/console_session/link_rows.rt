//! The table of links.

ghost use Rattle.std.specs.Prelude.{◌≡◌, ◌+◌, ◌≤◌, ◌++◌, length, slice_get};
ghost use Rattle.std.specs.Option.{option_copied};
ghost use Rattle.exchange.specs.KeptQueues.{kept};
ghost use Rattle.exchange.specs.Views.{link_view, standing_name};
ghost use Rattle.served_node.specs.Listings.{link_row, row_of_link, seen_since, seen_state};
ghost use Rattle.served_node.specs.Tables.{cell};

use super::table::{
    CELL_OCTETS, ROW_OCTETS, Row, message_text, push_cell, push_last, push_number_cell,
};
use console::set_name;
use exchange::{Exchange, LinkStanding, LinkView};
use served_link::{ServiceStates, StateSince, seconds_text};
use settings::{LinkId, LinkRow, Settings};

/// The head line of the links.
pub(crate) const LINKS_HEAD: &str =
    "  LINK          SET           STATE               SINCE       ALIGNMENT     WAITING  FSN       BSN\n";

/// The width of the columns of names.
const NAME: usize = 12;

/// The width of the column of states.
const STATE: usize = 18;

/// The width of the column of times.
const SINCE: usize = 10;

/// The width of the column of alignments.
const ALIGNMENT: usize = 12;

/// The width of the column that counts messages.
const WAITING: usize = 7;

/// The width of the column of the last numbers that were sent.
const FSN: usize = 8;

/// The row of link `k`, from 0: its name and its set; the state in which it was last seen, and since when; how far it is
/// on its way into service; how many messages wait; and the last numbers. Nothing past the last.
pub(crate) fn link_row(exchange: &Exchange, links: &ServiceStates, k: usize) -> Row
    ensures { result.bytes ≡ row_of_link links.now exchange.now k (slice_get exchange.now.settings.links k)
        (link_view kept exchange.now k) }
{
    let settings = exchange.settings();
    let Some(row) = settings.links().get(k) else {
        return Row::new();
    };
    let link = LinkId::new(k as u8);
    match exchange.link(link) {
        Some(view) => row_of(settings, links.link(link), row, view),
        None => Row::new(),
    }
}

/// The row of a link that was last seen so.
fn row_of(settings: &Settings, seen: Option<&StateSince>, link: &LinkRow, view: LinkView) -> Row
    ensures { result.bytes ≡ link_row settings.now (option_copied seen.entry) link.now view }
{
    let mut row = Row::new();
    push_cell(&mut row, NAME, link.name());
    push_cell(&mut row, NAME, set_name(settings, link.set()));
    push_cell(&mut row, STATE, state_of(seen));
    push_since(&mut row, seen);
    push_cell(&mut row, ALIGNMENT, alignment_of(view.standing));
    push_number_cell(&mut row, WAITING, view.waiting as u64);
    push_cell(&mut row, FSN, message_text(view.last_sent.value()).as_str());
    push_last(&mut row, message_text(view.last_accepted.value()).as_str());
    row
}

/// The state in which a link was last seen.
fn state_of(seen: Option<&StateSince>) -> &'static str
    ensures text { result.now ≡ seen_state (option_copied seen.entry) }
    ensures short { length result.now ≤ STATE }
{
    match seen {
        Some(seen) => seen.state.words(),
        None => "-",
    }
}

/// Appends the cell that says since when a link is in the state in which it was last seen, in seconds after the start.
fn push_since(row: &mut Row, seen: Option<&StateSince>)
    requires { length row.old.bytes + CELL_OCTETS ≤ ROW_OCTETS }
    ensures text { row.new.bytes ≡ row.old.bytes ++ cell SINCE (seen_since (option_copied seen.entry)) }
    ensures short { length row.new.bytes ≤ length row.old.bytes + CELL_OCTETS }
{
    match seen {
        Some(seen) => push_cell(row, SINCE, seconds_text(seen.since_ms).as_str()),
        None => push_cell(row, SINCE, "-"),
    }
}

/// How far a link is on its way into service.
fn alignment_of(standing: LinkStanding) -> &'static str
    ensures text { result.now ≡ standing_name standing }
    ensures short { length result.now ≤ ALIGNMENT }
{
    standing.name()
}
