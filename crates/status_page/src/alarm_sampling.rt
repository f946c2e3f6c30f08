//! The samples of alarms.

ghost use Rattle.std.specs.Prelude.{◌≡◌, ◌++◌, OnOk, slice_index_or, None};
ghost use Rattle.status_page.specs.AlarmSamples.{alarm_sample, alarm_samples, alarm_text, alarm_value, is_shown_clear};
ghost use Rattle.status_page.specs.Facts.{facts_of};

use crate::alarm_labels::alarm_labels;
use crate::facts::Facts;
use crate::family::Family;
use crate::sample::put_if;
use exchange::Exchange;
use http_server::Rope;
use served_link::Alarm;
use settings::{PointFormat, Settings};
use signalling_types::{LinkId, SetId};
use std::alloc::AllocError;

/// Appends the samples of all alarms.
pub(crate) fn put_alarm_samples(
    family: Family,
    exchange: &Exchange,
    facts: &Facts<'_>,
    body: &mut Rope,
) -> Result<(), AllocError>
    ensures { OnOk result (body.new.items
        ≡ body.old.items ++ alarm_samples exchange.now (facts_of facts.now) family) }
{
    for place in 0..facts.alarms.places() {
        put_alarm_sample(family, exchange, facts, place, body)?;
    }
    Ok(())
}

/// Appends the sample of the alarm at a place of the table.
#[tactic(auto, unfolding(crate::specs::AlarmSamples::alarm_sample))]
fn put_alarm_sample(
    family: Family,
    exchange: &Exchange,
    facts: &Facts<'_>,
    place: usize,
    body: &mut Rope,
) -> Result<(), AllocError>
    ensures { OnOk result (body.new.items
        ≡ body.old.items ++ alarm_sample exchange.now (facts_of facts.now) family place) }
{
    put_alarm(
        exchange.settings(),
        facts.points,
        family,
        Alarm::at(place),
        facts.alarms.since_at(place),
        body,
    )
}

/// Appends the sample of an alarm that is raised since then, or isn't, if there is one.
fn put_alarm(
    settings: &Settings,
    points: PointFormat,
    family: Family,
    alarm: Option<Alarm>,
    since_ms: Option<u64>,
    body: &mut Rope,
) -> Result<(), AllocError>
    ensures { OnOk result (body.new.items
        ≡ body.old.items ++ alarm_text settings.now points family alarm since_ms) }
{
    let Some(alarm) = alarm else {
        return Ok(());
    };
    put_if(
        alarm_value(settings, &alarm, since_ms),
        family,
        alarm_labels(settings, points, &alarm).as_str(),
        body,
    )
}

/// 1 for an alarm that is raised since then, 0 for another one that is shown.
fn alarm_value(settings: &Settings, alarm: &Alarm, since_ms: Option<u64>) -> Option<u64>
    ensures { result ≡ alarm_value settings.now alarm.now since_ms }
{
    match since_ms {
        Some(_) => Some(1),
        None => is_shown_clear(settings, alarm).then_some(0),
    }
}

/// Whether an alarm is shown while it isn't raised: not those of destinations, of which there may be thousands, nor
/// those of links and sets that aren't there.
fn is_shown_clear(settings: &Settings, alarm: &Alarm) -> bool
    ensures { result ≡ is_shown_clear settings.now alarm.now }
{
    match *alarm {
        Alarm::LostAny | Alarm::LateAny | Alarm::Pool | Alarm::Capture | Alarm::Behind => true,
        Alarm::Link(link) => link.index() < settings.link_count(),
        Alarm::Set(set) => set.index() < settings.sets().len(),
        Alarm::Destination(_) => false,
    }
}
