//! What is known of a link, a fact a line.

ghost use Rattle.std.specs.Prelude.{◌≡◌, ◌≤◌, length, slice_get};
ghost use Rattle.std.specs.Option.{option_copied};
ghost use Rattle.served_node.specs.Listings as text;

use super::table::some_number;
use arrayvec::ArrayString;
use console::{LINE_OCTETS, push_number, push_point, set_name};
use exchange::{Exchange, LinkView};
use served_link::{Counters, LinkCounters, ServiceStates, StateSince, failure_text, seconds_text};
use settings::{Limits, LinkId, LinkRow, PointFormat, SetRow};

/// Something that is known of a link.
#[derive(Clone, Copy)]
pub enum LinkFact {
    /// `link NAME`
    Name,
    /// `set NAME`
    Set,
    /// `code N`: its signalling link code.
    Code,
    /// `adjacent POINT`: where it leads.
    Adjacent,
    /// `state WORDS since S`: its state as it was last seen, and since when it is in that, in seconds after the start.
    State,
    /// `waiting N`: how many messages of its queue aren't confirmed.
    Waiting,
    /// `last sent N`: the number of the last message that was sent, or `-`.
    LastSent,
    /// `last accepted N`: the number of the last message that was accepted, or `-`.
    LastAccepted,
    /// `barred yes` or `barred no`: whether it is barred from opening.
    Barred,
    /// `share N`: its share of the pool, or `-`.
    Share,
    /// `last failure REASON at S`, with the timer that ran out behind the reason, if one did, and S in seconds after
    /// the start; or `last failure -`.
    LastFailure,
    /// `retransmissions N`: how many chunks its associations over SCTP sent again since the start.
    Retransmissions,
}

/// All that is known of a link, in the order in which it is shown.
pub const LINK_FACTS: &[LinkFact] = &[
    LinkFact::Name,
    LinkFact::Set,
    LinkFact::Code,
    LinkFact::Adjacent,
    LinkFact::State,
    LinkFact::Waiting,
    LinkFact::LastSent,
    LinkFact::LastAccepted,
    LinkFact::Barred,
    LinkFact::Share,
    LinkFact::LastFailure,
    LinkFact::Retransmissions,
];

/// A line.
type FactLine = ArrayString<LINE_OCTETS>;

/// What line `k` about a link is about; None past the last.
pub(crate) fn fact_at(k: usize) -> Option<LinkFact>
    ensures { result ≡ slice_get LINK_FACTS.now k }
{
    LINK_FACTS.get(k).copied()
}

/// The line of something that is known of a link; nothing if there is no such link. The links are those that were last
/// seen.
pub(crate) fn link_fact(
    exchange: &Exchange,
    links: &ServiceStates,
    counters: &Counters,
    link: LinkId,
    fact: Option<LinkFact>,
    points: PointFormat,
) -> FactLine
    ensures { result.bytes ≡ text.link_fact points links.now counters.now.links exchange.now link fact }
{
    let Some(fact) = fact else {
        return FactLine::new();
    };
    let Some(row) = exchange.settings().links().get(link.index()) else {
        return FactLine::new();
    };
    match exchange.link(link) {
        Some(view) => fact_line(exchange, links, counters, link, row, view, fact, points),
        None => FactLine::new(),
    }
}

/// The line of something that is known of a link that is there.
fn fact_line(
    exchange: &Exchange,
    links: &ServiceStates,
    counters: &Counters,
    link: LinkId,
    row: &LinkRow,
    view: LinkView,
    fact: LinkFact,
    points: PointFormat,
) -> FactLine
    ensures { result.bytes ≡ text.fact_text points links.now counters.now.links exchange.now link row.now view fact }
{
    let settings = exchange.settings();
    match fact {
        LinkFact::Name => name_fact("link ", row.name()),
        LinkFact::Set => name_fact("set ", set_name(settings, row.set())),
        LinkFact::Code => number_fact("code ", u64::from(row.slc())),
        LinkFact::Adjacent => adjacent_fact(settings.sets().get(row.set().index()), points),
        LinkFact::State => state_fact(links.link(link)),
        LinkFact::Waiting => number_fact("waiting ", view.waiting as u64),
        LinkFact::LastSent => given_fact("last sent ", some_number(view.last_sent.value())),
        LinkFact::LastAccepted => {
            given_fact("last accepted ", some_number(view.last_accepted.value()))
        }
        LinkFact::Barred => barred_fact(exchange.is_barred(link)),
        LinkFact::Share => given_fact("share ", share_of(row)),
        LinkFact::LastFailure => failure_fact(links.link(link)),
        LinkFact::Retransmissions => retransmissions_fact(counters.row(link)),
    }
}

/// A name.
fn name_fact(word: &str, name: &str) -> FactLine
    requires word { length word.now ≤ 16 }
    requires name { length name.now ≤ Limits.NAME_OCTETS }
    ensures { result.bytes ≡ text.name_fact word.now name.now }
{
    let mut line = FactLine::new();
    line.push_str(word);
    line.push_str(name);
    line.push_str("\n");
    line
}

/// A number.
fn number_fact(word: &str, number: u64) -> FactLine
    requires { length word.now ≤ 16 }
    ensures { result.bytes ≡ text.number_fact word.now number }
{
    let mut line = FactLine::new();
    push_number(&mut line, word, number);
    line.push_str("\n");
    line
}

/// A number, or `-` if there is none.
fn given_fact(word: &str, given: Option<u32>) -> FactLine
    requires { length word.now ≤ 16 }
    ensures { result.bytes ≡ text.given_fact word.now given }
{
    let Some(number) = given else {
        return name_fact(word, "-");
    };
    number_fact(word, u64::from(number))
}

/// The share of the pool that a link has, if it has one.
fn share_of(row: &LinkRow) -> Option<u32>
    ensures { result ≡ row.now.share }
{
    let share = row.share()?;
    Some(u32::from(share))
}

/// Where a link of this set leads.
fn adjacent_fact(set: Option<&SetRow>, points: PointFormat) -> FactLine
    ensures { result.bytes ≡ text.adjacent_fact points (option_copied set.entry) }
{
    let mut line = FactLine::new();
    if let Some(set) = set {
        push_point(&mut line, "adjacent ", set.adjacent(), points);
        line.push_str("\n");
    }
    line
}

/// The state in which a link was last seen, and since when.
fn state_fact(seen: Option<&StateSince>) -> FactLine
    ensures { result.bytes ≡ text.state_fact (option_copied seen.entry) }
{
    let mut line = FactLine::new();
    if let Some(seen) = seen {
        line.push_str("state ");
        line.push_str(seen.state.words());
        line.push_str(" since ");
        line.push_str(seconds_text(seen.since_ms).as_str());
        line.push_str("\n");
    }
    line
}

/// Whether a link is barred from opening.
fn barred_fact(is_barred: bool) -> FactLine
    ensures { result.bytes ≡ text.barred_fact is_barred }
{
    let mut line = FactLine::new();
    line.push_str(if is_barred {
        "barred yes\n"
    } else {
        "barred no\n"
    });
    line
}

/// Why and when a link failed last.
fn failure_fact(seen: Option<&StateSince>) -> FactLine
    ensures { result.bytes ≡ text.failure_fact (option_copied seen.entry) }
{
    let mut line = FactLine::new();
    if let Some(seen) = seen {
        line.push_str("last failure ");
        line.push_str(failure_text(seen.failure).as_str());
        line.push_str("\n");
    }
    line
}

/// How many chunks the associations of a link sent again.
fn retransmissions_fact(row: Option<&LinkCounters>) -> FactLine
    ensures { result.bytes ≡ text.retransmissions_fact (option_copied row.entry) }
{
    match row {
        Some(row) => number_fact("retransmissions ", row.retransmissions),
        None => FactLine::new(),
    }
}
