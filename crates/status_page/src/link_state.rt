//! A link in the state of a node.

ghost use Rattle.std.specs.Prelude.{◌≡◌};
ghost use Rattle.exchange.specs.KeptQueues.{kept};
ghost use Rattle.status_page.specs.Facts.{facts_of};
ghost use Rattle.status_page.specs.Members.{Adds, object_member};
ghost use Rattle.status_page.specs.States.{all_counters, counter_key, counter_members, link_object, link_tokens};
ghost use Rattle.status_page.specs.States.{name_members, seen_members, view_members};

use crate::counted::counters_of;
use crate::facts::Facts;
use crate::link_values::{is_changing_over, seen_of};
use crate::members::{put_bool, put_number, put_text};
use crate::places::set_name_of;
use console::link_name;
use exchange::{Exchange, LinkView};
use json::Writer;
use served_link::{Counter, LinkCounters, Setback, StateSince};
use settings::Settings;
use signalling_types::{Cause, FailureReason, LinkId};
use std::alloc::AllocError;

/// What is counted for a link as a whole.
const TOTALS: [Counter; 8] = [
    Counter::FramesIn,
    Counter::OctetsIn,
    Counter::FramesOut,
    Counter::OctetsOut,
    Counter::Forwarded,
    Counter::Delivered,
    Counter::Retries,
    Counter::Retransmissions,
];

/// Refusals, by each cause.
const REFUSALS: [Counter; 25] = [
    Counter::Refused(Cause::WrongNetwork),
    Counter::Refused(Cause::NoLabel),
    Counter::Refused(Cause::UnknownDestination),
    Counter::Refused(Cause::NoRoute),
    Counter::Refused(Cause::PoolFull),
    Counter::Refused(Cause::NoUserPart),
    Counter::Refused(Cause::NotInProfile),
    Counter::Refused(Cause::BadManagement),
    Counter::Refused(Cause::BadSccp),
    Counter::Refused(Cause::NoNature),
    Counter::Refused(Cause::NoDigits),
    Counter::Refused(Cause::Unequipped),
    Counter::Refused(Cause::TooLong),
    Counter::Refused(Cause::LostUnconfirmed),
    Counter::Refused(Cause::ManagementFull),
    Counter::Refused(Cause::NotFromAdjacent),
    Counter::Refused(Cause::LinkNotReady),
    Counter::Refused(Cause::ChangeoverPending),
    Counter::Refused(Cause::NoMemory),
    Counter::Refused(Cause::TableFull),
    Counter::Refused(Cause::DuplicateRow),
    Counter::Refused(Cause::NoSuchName),
    Counter::Refused(Cause::HopCounter),
    Counter::Refused(Cause::ShareFull),
    Counter::Refused(Cause::SubsystemProhibited),
];

/// Failures, by each reason.
const FAILURES: [Counter; 8] = [
    Counter::Failed(FailureReason::Association),
    Counter::Failed(FailureReason::Timer),
    Counter::Failed(FailureReason::Sequence),
    Counter::Failed(FailureReason::Status),
    Counter::Failed(FailureReason::Length),
    Counter::Failed(FailureReason::Changeover),
    Counter::Failed(FailureReason::Operator),
    Counter::Failed(FailureReason::Test),
];

/// INITs that were refused, by each reason.
const INITS: [Counter; 10] = [
    Counter::Setbacks(Setback::OtherPort),
    Counter::Setbacks(Setback::TooMany),
    Counter::Setbacks(Setback::WithoutTag),
    Counter::Setbacks(Setback::HostName),
    Counter::Setbacks(Setback::FewStreams),
    Counter::Setbacks(Setback::Unwanted),
    Counter::Setbacks(Setback::NoTagLeft),
    Counter::Setbacks(Setback::ShuttingDown),
    Counter::Setbacks(Setback::WithoutCookie),
    Counter::Setbacks(Setback::LongCookie),
];

/// Tries that failed, by each reason.
const TRIES: [Counter; 4] = [
    Counter::Setbacks(Setback::EndedByPeer),
    Counter::Setbacks(Setback::Unanswered),
    Counter::Setbacks(Setback::BadAnswer),
    Counter::Setbacks(Setback::EndedByNode),
];

/// Appends the object of a link; nothing if there is no such link.
#[tactic(auto, unfolding(crate::specs::States::link_tokens))]
pub(crate) fn put_link(
    exchange: &Exchange,
    facts: &Facts<'_>,
    link: LinkId,
    out: &mut Writer,
) -> Result<(), AllocError>
    ensures { Adds result out.old out.new (link_tokens kept exchange.now (facts_of facts.now) link) }
{
    match exchange.link(link) {
        Some(view) => put_shown(exchange, facts, link, view, out),
        None => Ok(()),
    }
}

/// Appends the object of a link that is shown like this.
fn put_shown(
    exchange: &Exchange,
    facts: &Facts<'_>,
    link: LinkId,
    view: LinkView,
    out: &mut Writer,
) -> Result<(), AllocError>
    ensures { Adds result out.old out.new (link_object kept exchange.now (facts_of facts.now) link view) }
{
    out.begin_object()?;
    put_names(exchange.settings(), link, out)?;
    put_view(view, out)?;
    put_bool(out, "changing_over", is_changing_over(exchange, link))?;
    put_bool(out, "barred", exchange.is_barred(link))?;
    put_seen(seen_of(facts.states, link), out)?;
    put_counters(&counters_of(facts.counters, link), out)?;
    out.end_object()
}

/// Appends the names of a link and of its set.
fn put_names(settings: &Settings, link: LinkId, out: &mut Writer) -> Result<(), AllocError>
    ensures { Adds result out.old out.new (name_members settings.now link) }
{
    put_text(out, "name", link_name(settings, link))?;
    put_text(out, "set", set_name_of(settings, link))
}

/// Appends the state of a link.
fn put_view(view: LinkView, out: &mut Writer) -> Result<(), AllocError>
    ensures { Adds result out.old out.new (view_members view) }
{
    put_text(out, "state", view.standing.name())?;
    put_number(out, "waiting", view.waiting as u64)?;
    put_number(out, "fsn", u64::from(view.last_sent.value()))?;
    put_number(out, "bsn", u64::from(view.last_accepted.value()))
}

/// Appends a link as it was last seen: its state in words, since when, and how many of its changeovers ended.
fn put_seen(seen: StateSince, out: &mut Writer) -> Result<(), AllocError>
    ensures { Adds result out.old out.new (seen_members seen) }
{
    put_text(out, "service", seen.state.words())?;
    put_number(out, "since_ms", seen.since_ms)?;
    put_number(out, "changeovers", seen.changeovers)
}

/// Appends all counters of a link.
fn put_counters(row: &LinkCounters, out: &mut Writer) -> Result<(), AllocError>
    ensures { Adds result out.old out.new (all_counters row.now) }
{
    put_each(&TOTALS, row, out)?;
    put_object("refused", &REFUSALS, row, out)?;
    put_object("failed", &FAILURES, row, out)?;
    put_object("inits", &INITS, row, out)?;
    put_object("tries", &TRIES, row, out)
}

/// Appends an object of these counters.
fn put_object(
    name: &str,
    counters: &[Counter],
    row: &LinkCounters,
    out: &mut Writer,
) -> Result<(), AllocError>
    ensures { Adds result out.old out.new
        (object_member name.now (counter_members row.now counters.now)) }
{
    out.key(name)?;
    out.begin_object()?;
    put_each(counters, row, out)?;
    out.end_object()
}

/// Appends these counters.
fn put_each(counters: &[Counter], row: &LinkCounters, out: &mut Writer) -> Result<(), AllocError>
    ensures { Adds result out.old out.new (counter_members row.now counters.now) }
{
    for counter in counters {
        put_number(out, key(*counter), row.get(*counter))?;
    }
    Ok(())
}

/// The member that shows a counter.
fn key(counter: Counter) -> &'static str
    ensures { result.now ≡ counter_key counter }
{
    match counter {
        Counter::FramesIn => "frames_in",
        Counter::OctetsIn => "octets_in",
        Counter::FramesOut => "frames_out",
        Counter::OctetsOut => "octets_out",
        Counter::Forwarded => "forwarded",
        Counter::Delivered => "delivered",
        Counter::Refused(cause) => cause.name(),
        Counter::Failed(reason) => reason.name(),
        Counter::Retries => "retries",
        Counter::Setbacks(reason) => reason.name(),
        Counter::Retransmissions => "retransmissions",
    }
}
