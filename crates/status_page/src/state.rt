//! The state of a node, as JSON.

ghost use Rattle.std.specs.Prelude.{◌≡◌, IfOk};
ghost use Rattle.json.specs.Print.{print};
ghost use Rattle.exchange.specs.KeptQueues.{kept};
ghost use Rattle.status_page.specs.Facts.{facts_of};
ghost use Rattle.status_page.specs.Members.{Adds};
ghost use Rattle.status_page.specs.States.{count_members, node_members, place_members, program_members};
ghost use Rattle.status_page.specs.States.{state_members, state_tokens};

mod alarms;
mod destinations;
mod links;
mod notices;
mod sets;

use crate::facts::Facts;
use crate::labels::VERSION;
use crate::measuring::{held_users, kept_messages};
use crate::members::{put_number, put_text};
use crate::state::alarms::put_alarms;
use crate::state::destinations::put_routes;
use crate::state::links::put_links;
use crate::state::notices::{put_kinds, put_notices};
use crate::state::sets::put_sets;
use crate::times::Times;
use exchange::Exchange;
use json::Writer;
use settings::{PointFormat, Settings, point_text};
use std::alloc::{AllocError, Global};

/// The state of a node. The error means that memory ran out.
pub(crate) fn state_text(
    alloc: Global,
    exchange: &Exchange,
    facts: &Facts<'_>,
) -> Result<Vec<u8>, AllocError>
    ensures { IfOk result (λ text. text.items
        ≡ print (state_tokens kept exchange.now (facts_of facts.now))) }
{
    let mut out = Writer::new(Vec::new(alloc));
    put_state(exchange, facts, &mut out)?;
    Ok(out.into_inner())
}

/// Appends the object of the state.
fn put_state(exchange: &Exchange, facts: &Facts<'_>, out: &mut Writer) -> Result<(), AllocError>
    ensures { Adds result out.old out.new
        (state_tokens kept exchange.now (facts_of facts.now)) }
{
    out.begin_object()?;
    put_members(exchange, facts, out)?;
    out.end_object()
}

/// Appends the members of that object.
fn put_members(exchange: &Exchange, facts: &Facts<'_>, out: &mut Writer) -> Result<(), AllocError>
    ensures { Adds result out.old out.new (state_members kept exchange.now (facts_of facts.now)) }
{
    put_node(exchange, facts.points, facts.times, out)?;
    put_alarms(exchange, facts, out)?;
    put_sets(exchange, facts.points, out)?;
    put_links(exchange, facts, out)?;
    put_routes(exchange, facts.points, out)?;
    put_kinds(facts.notices, out)?;
    put_notices(exchange, facts.notices, facts.points, out)
}

/// Appends what is shown of the node as a whole.
fn put_node(
    exchange: &Exchange,
    points: PointFormat,
    times: Times,
    out: &mut Writer,
) -> Result<(), AllocError>
    ensures { Adds result out.old out.new (node_members kept points exchange.now times) }
{
    put_program(times, out)?;
    put_place(exchange.settings(), points, out)?;
    put_counts(exchange, out)
}

/// Appends the version, the time since the start, and the longest turn.
fn put_program(times: Times, out: &mut Writer) -> Result<(), AllocError>
    ensures { Adds result out.old out.new (program_members times) }
{
    put_text(out, "version", VERSION)?;
    put_number(out, "uptime_ms", times.uptime_ms)?;
    put_number(out, "longest_turn_us", times.longest_turn_us)
}

/// Appends the node's own point, its network and its limit of user messages.
fn put_place(settings: &Settings, points: PointFormat, out: &mut Writer) -> Result<(), AllocError>
    ensures { Adds result out.old out.new (place_members points settings.now) }
{
    put_text(out, "point", point_text(settings.own(), points).as_str())?;
    put_number(out, "network", u64::from(settings.network()))?;
    put_number(out, "pool", settings.pool() as u64)
}

/// Appends how many user messages the node keeps and how many of them are held, how often each flag was raised, the
/// counts of losses, and how many notices there were.
fn put_counts(exchange: &Exchange, out: &mut Writer) -> Result<(), AllocError>
    ensures { Adds result out.old out.new (count_members kept exchange.now) }
{
    put_number(out, "kept", kept_messages(exchange))?;
    put_number(out, "held", held_users(exchange))?;
    put_number(out, "times_lost", exchange.times_lost())?;
    put_number(out, "times_late", exchange.times_late())?;
    put_number(out, "messages_lost", exchange.messages_lost())?;
    put_number(out, "times_broken", exchange.times_broken())?;
    put_number(out, "times_rerouted", exchange.times_rerouted())?;
    put_number(out, "notice_count", exchange.notice_count())
}
