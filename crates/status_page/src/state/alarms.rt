//! The alarms that are raised, in the state of a node.

ghost use Rattle.std.specs.Prelude.{◌≡◌, None, codes, length, slice_index_or};
ghost use Rattle.status_page.specs.Each.{each};
ghost use Rattle.status_page.specs.Facts.{facts_of};
ghost use Rattle.status_page.specs.Members.{Adds, array_member};
ghost use Rattle.status_page.specs.States.{alarm_object, alarm_tokens, raised_tokens};

use crate::facts::Facts;
use crate::members::{put_number, put_text};
use exchange::Exchange;
use json::Writer;
use served_link::{Alarm, alarm_name};
use settings::{PointFormat, Settings};
use std::alloc::AllocError;

/// Appends the array of the alarms that are raised.
pub(crate) fn put_alarms(
    exchange: &Exchange,
    facts: &Facts<'_>,
    out: &mut Writer,
) -> Result<(), AllocError>
    ensures { Adds result out.old out.new (array_member (codes "alarms")
        (each (alarm_tokens exchange.now (facts_of facts.now)) (length (facts_of facts.now).alarms))) }
{
    out.key("alarms")?;
    out.begin_array()?;
    put_each_alarm(exchange, facts, out)?;
    out.end_array()
}

/// Appends the objects of the alarms that are raised.
fn put_each_alarm(
    exchange: &Exchange,
    facts: &Facts<'_>,
    out: &mut Writer,
) -> Result<(), AllocError>
    ensures { Adds result out.old out.new
        (each (alarm_tokens exchange.now (facts_of facts.now)) (length (facts_of facts.now).alarms)) }
{
    for place in 0..facts.alarms.places() {
        put_alarm_at(exchange, facts, place, out)?;
    }
    Ok(())
}

/// Appends the object of the alarm at a place of the table, if it is raised.
#[tactic(auto, unfolding(crate::specs::States::alarm_tokens))]
fn put_alarm_at(
    exchange: &Exchange,
    facts: &Facts<'_>,
    place: usize,
    out: &mut Writer,
) -> Result<(), AllocError>
    ensures { Adds result out.old out.new (alarm_tokens exchange.now (facts_of facts.now) place) }
{
    put_if_raised(
        exchange.settings(),
        facts.points,
        Alarm::at(place),
        facts.alarms.since_at(place),
        out,
    )
}

/// Appends the object of an alarm that is raised since then; nothing if it isn't, or if there is none.
fn put_if_raised(
    settings: &Settings,
    points: PointFormat,
    alarm: Option<Alarm>,
    since_ms: Option<u64>,
    out: &mut Writer,
) -> Result<(), AllocError>
    ensures { Adds result out.old out.new (raised_tokens points settings.now alarm since_ms) }
{
    let Some(alarm) = alarm else {
        return Ok(());
    };
    match since_ms {
        Some(since_ms) => put_alarm(settings, points, &alarm, since_ms, out),
        None => Ok(()),
    }
}

/// Appends the object of an alarm that is raised since then.
fn put_alarm(
    settings: &Settings,
    points: PointFormat,
    alarm: &Alarm,
    since_ms: u64,
    out: &mut Writer,
) -> Result<(), AllocError>
    ensures { Adds result out.old out.new (alarm_object points settings.now alarm.now since_ms) }
{
    out.begin_object()?;
    put_text(out, "name", alarm_name(settings, points, alarm).as_str())?;
    put_number(out, "since_ms", since_ms)?;
    out.end_object()
}
