//! Tables of a node, and the facts about a link, which are printed entry by entry.

ghost use Rattle.std.specs.Prelude.{◌≡◌, OnOk, OnErr, slice_get};
ghost use Rattle.std.specs.Io.KnownBytes.{Appends};
ghost use Rattle.script.specs.Streams.{AppendsFirst, failures_after};
ghost use Rattle.served_node.specs.Listings.{entries_text, entry_of, head_of, length_of, link_fact, listing_text};

use super::link_facts::{LINK_FACTS, fact_at, link_fact};
use super::link_rows::{LINKS_HEAD, link_row};
use super::route_rows::{ROUTES_HEAD, route_row};
use super::set_rows::{SETS_HEAD, set_row};
use super::table::Row;
use super::timer_rows::{TIMERS_HEAD, timer_row};
use console::TIMERS;
use exchange::Exchange;
use script::{Sink, WriteFailed};
use served_link::{Counters, ServiceStates};
use settings::{LinkId, PointFormat};

/// A table, or the facts about a link.
#[derive(Clone, Copy)]
pub enum Listing {
    /// The timers.
    Timers,
    /// The link sets.
    Sets,
    /// The links.
    Links,
    /// The destinations.
    Routes,
    /// What is known of this link.
    Link(LinkId),
}

/// Prints a listing: the head line of a table, and then each entry. The links are those that were last seen, with what
/// is counted for each, and a tick takes so many milliseconds.
pub(crate) fn print_listing<W: Sink>(
    exchange: &Exchange,
    listing: &Listing,
    links: &ServiceStates,
    counters: &Counters,
    points: PointFormat,
    tick_ms: u16,
    writer: &mut W,
) -> Result<(), WriteFailed>
    ensures all { OnOk result (Appends (W.output writer.old).written (W.output writer.new).written
        (listing_text points tick_ms links.now counters.now.links exchange.now listing.now)) }
    ensures first { OnErr result (AppendsFirst (W.output writer.old).written (W.output writer.new).written
        (listing_text points tick_ms links.now counters.now.links exchange.now listing.now)) }
    ensures counted { (W.output writer.new).failures ≡ failures_after (W.output writer.old).failures result }
{
    writer.write(head_of(listing).as_bytes())?;
    print_entries(exchange, listing, links, counters, points, tick_ms, writer)
}

/// The head line of a table.
fn head_of(listing: &Listing) -> &'static str
    ensures { result.now ≡ head_of listing.now }
{
    match listing {
        Listing::Timers => TIMERS_HEAD,
        Listing::Sets => SETS_HEAD,
        Listing::Links => LINKS_HEAD,
        Listing::Routes => ROUTES_HEAD,
        Listing::Link(_) => "",
    }
}

/// Prints each entry of a listing.
#[tactic(auto, using(crate::proofs::Counted::text_steps))]
fn print_entries<W: Sink>(
    exchange: &Exchange,
    listing: &Listing,
    links: &ServiceStates,
    counters: &Counters,
    points: PointFormat,
    tick_ms: u16,
    writer: &mut W,
) -> Result<(), WriteFailed>
    ensures all { OnOk result (Appends (W.output writer.old).written (W.output writer.new).written
        (entries_text points tick_ms links.now counters.now.links exchange.now listing.now)) }
    ensures first { OnErr result (AppendsFirst (W.output writer.old).written (W.output writer.new).written
        (entries_text points tick_ms links.now counters.now.links exchange.now listing.now)) }
    ensures counted { (W.output writer.new).failures ≡ failures_after (W.output writer.old).failures result }
{
    for k in 0..length_of(exchange, listing) {
        print_entry(
            exchange, listing, k, links, counters, points, tick_ms, writer,
        )?;
    }
    Ok(())
}

/// Prints entry `k` of a listing.
fn print_entry<W: Sink>(
    exchange: &Exchange,
    listing: &Listing,
    k: usize,
    links: &ServiceStates,
    counters: &Counters,
    points: PointFormat,
    tick_ms: u16,
    writer: &mut W,
) -> Result<(), WriteFailed>
    ensures all { OnOk result (Appends (W.output writer.old).written (W.output writer.new).written
        (entry_of points tick_ms links.now counters.now.links exchange.now listing.now k)) }
    ensures first { OnErr result (AppendsFirst (W.output writer.old).written (W.output writer.new).written
        (entry_of points tick_ms links.now counters.now.links exchange.now listing.now k)) }
    ensures counted { (W.output writer.new).failures ≡ failures_after (W.output writer.old).failures result }
{
    writer.write(entry_of(exchange, listing, k, links, counters, points, tick_ms).as_bytes())
}

/// The row of entry `k` of a table, or line `k` about a link; nothing past the last.
fn entry_of(
    exchange: &Exchange,
    listing: &Listing,
    k: usize,
    links: &ServiceStates,
    counters: &Counters,
    points: PointFormat,
    tick_ms: u16,
) -> Row
    ensures { result.bytes ≡ entry_of points tick_ms links.now counters.now.links exchange.now listing.now k }
{
    match listing {
        Listing::Timers => timer_row(exchange.settings().timers(), k, tick_ms),
        Listing::Sets => set_row(exchange, k, points),
        Listing::Links => link_row(exchange, links, k),
        Listing::Routes => route_row(exchange, k, points),
        Listing::Link(link) => fact_row(exchange, links, counters, *link, k, points),
    }
}

/// Line `k` about a link.
fn fact_row(
    exchange: &Exchange,
    links: &ServiceStates,
    counters: &Counters,
    link: LinkId,
    k: usize,
    points: PointFormat,
) -> Row
    ensures { result.bytes ≡ link_fact points links.now counters.now.links exchange.now link
        (slice_get LINK_FACTS.now k) }
{
    let mut row = Row::new();
    row.push_str(link_fact(exchange, links, counters, link, fact_at(k), points).as_str());
    row
}

/// How many entries a listing has.
fn length_of(exchange: &Exchange, listing: &Listing) -> usize
    ensures { result ≡ length_of exchange.now listing.now }
{
    match listing {
        Listing::Timers => TIMERS,
        Listing::Sets => exchange.settings().sets().len(),
        Listing::Links => exchange.settings().link_count(),
        Listing::Routes => exchange.settings().destinations().len(),
        Listing::Link(_) => LINK_FACTS.len(),
    }
}
