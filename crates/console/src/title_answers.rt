//! What becomes of a title that is tested.

ghost use Rattle.std.specs.Prelude.{◌≡◌, ◌≤◌, length, Some};
ghost use Rattle.exchange.specs.Relaying.{leads_by};
ghost use Rattle.exchange_rules.specs.Messages.{own_of};
ghost use Rattle.sccp_relay.specs.Points.{is_out, is_reached};
ghost use Rattle.sccp_relay.specs.Relay.{is_equipped};
ghost use Rattle.sccp_relay.specs.Values.{own_value};
ghost use Rattle.console.specs.TitleAnswers as rule;

use crate::line::{LINE_OCTETS, push_cause, push_point};
use crate::title_words::RowName;
use crate::titles::write_title;
use arrayvec::ArrayString;
use exchange::{Exchange, LinkWays, Subsystem, Titles};
use sccp_relay::{Own, Ways};
use settings::{Cause, PointCode, PointFormat, Settings, Sls, Ssn, TitleRoute, TitleRow};

/// Octets of an answer, at most.
pub const TITLE_ANSWER_OCTETS: usize = 320;

/// The number of SCCP management (Q.713 §3.4.2.2).
const MANAGEMENT: u8 = 1;

/// What becomes of a title.
pub type TitleAnswer = ArrayString<TITLE_ANSWER_OCTETS>;

/// How a point stands for messages that a row leads there.
#[derive(Clone, Copy)]
pub enum Standing {
    /// They can go there.
    Open,
    /// It is reached, and the subsystem there is prohibited.
    Prohibited,
    /// No link leads there.
    Unreached,
}

/// Where messages of link selection 0 to a title would go, from wherever but a backup: the line of the row that
/// translates it, as `show_titles` writes it, and `leads to POINT`, behind a backup why that is taken; or
/// `refused NUMBER NAME`, if they would be refused by what is known without a message. It changes nothing.
pub fn title_answer(exchange: &Exchange, name: &RowName, points: PointFormat) -> TitleAnswer
    ensures { result.bytes ≡ rule.title_answer points (own_of exchange.now.settings exchange.now.node.parts)
        exchange.now.node.parts.titles exchange.now.settings name.now }
{
    let titles = exchange.titles();
    let own = exchange.own();
    match titles.translate(name.key, name.digits.as_slice()) {
        Ok(row) => row_lines(&row, &own, titles, exchange.settings(), points),
        Err(cause) => refusal_line(cause),
    }
}

/// The line of a row, and what becomes of messages by it.
fn row_lines(
    row: &TitleRow,
    own: &Own<'_, LinkWays<'_>>,
    titles: &Titles,
    settings: &Settings,
    points: PointFormat,
) -> TitleAnswer
    ensures { result.bytes
        ≡ rule.row_lines points (own_value leads_by own.now) titles.now.prohibited settings.now row.now }
{
    let mut line = ArrayString::<LINE_OCTETS>::new();
    write_title(row, points, &mut line);
    let mut answer = TitleAnswer::new();
    answer.push_str(line.as_str());
    answer.push_str("\n");
    answer.push_str(line_led(row, own, titles, settings, points).as_str());
    answer
}

/// What becomes of messages by a row.
fn line_led(
    row: &TitleRow,
    own: &Own<'_, LinkWays<'_>>,
    titles: &Titles,
    settings: &Settings,
    points: PointFormat,
) -> ArrayString<LINE_OCTETS>
    ensures { result.bytes ≡ rule.line_led points (own_value leads_by own.now) titles.now.prohibited settings.now
        row.now (rule.point_led (own_value leads_by own.now) titles.now.prohibited row.now) }
{
    match point_led(row, own, titles) {
        Some(point) => line_to(point, row, own, titles, settings, points),
        None => refused(Cause::SubsystemProhibited),
    }
}

/// What becomes of messages that a row leads to this point.
fn line_to(
    point: PointCode,
    row: &TitleRow,
    own: &Own<'_, LinkWays<'_>>,
    titles: &Titles,
    settings: &Settings,
    points: PointFormat,
) -> ArrayString<LINE_OCTETS>
    ensures { result.bytes ≡ rule.line_led points (own_value leads_by own.now) titles.now.prohibited settings.now
        row.now (Some point) }
{
    let first = stands(own, titles, row.route(), row.point());
    let refusal = refusal_at(own, settings, row.route(), point);
    led_line(first, row.point(), point, refusal, points)
}

/// The point that a row leads to; none while the subsystem is prohibited wherever it is reached.
#[tactic(auto, unfolding(sccp_relay::specs::Points::is_barred, sccp_relay::specs::Points::point_by))]
fn point_led(row: &TitleRow, own: &Own<'_, LinkWays<'_>>, titles: &Titles) -> Option<PointCode>
    ensures { result ≡ rule.point_led (own_value leads_by own.now) titles.now.prohibited row.now }
{
    let first = stands(own, titles, row.route(), row.point());
    let Some(backup) = row.backup() else {
        return unless_prohibited(first, row.point());
    };
    match (first, stands(own, titles, row.route(), backup)) {
        (Standing::Open, _) => Some(row.point()),
        (_, Standing::Open) => Some(backup),
        (_, Standing::Prohibited) => None,
        (_, Standing::Unreached) => unless_prohibited(first, row.point()),
    }
}

/// A point, unless its subsystem is prohibited.
fn unless_prohibited(stands: Standing, point: PointCode) -> Option<PointCode>
    ensures { result ≡ rule.unless_prohibited stands point }
{
    match stands {
        Standing::Prohibited => None,
        Standing::Open | Standing::Unreached => Some(point),
    }
}

/// How a point stands for messages that a row leads there.
fn stands(
    own: &Own<'_, LinkWays<'_>>,
    titles: &Titles,
    route: TitleRoute,
    point: PointCode,
) -> Standing
    ensures { result ≡ rule.standing_of (own_value leads_by own.now) titles.now.prohibited route point }
{
    if !is_reached(own, point) {
        Standing::Unreached
    } else if is_out(titles, route, point) {
        Standing::Prohibited
    } else {
        Standing::Open
    }
}

/// Whether a point is this one, or a link leads to it.
fn is_reached(own: &Own<'_, LinkWays<'_>>, point: PointCode) -> bool
    ensures { result ≡ is_reached (own_value leads_by own.now) 0 point }
{
    point == own.point || own.ways.lead_to(point, Sls::of_low_bits(0))
}

/// Whether the subsystem that a row leads to, by its number, is prohibited at this point.
fn is_out(titles: &Titles, route: TitleRoute, point: PointCode) -> bool
    ensures { result ≡ is_out titles.now.prohibited route point }
{
    match route {
        TitleRoute::Title(_) => false,
        TitleRoute::Ssn(number) => titles.is_prohibited(&Subsystem {
            point,
            ssn: number.number(),
        }),
    }
}

/// Why messages that a row leads to this point are refused there, if they are.
fn refusal_at(
    own: &Own<'_, LinkWays<'_>>,
    settings: &Settings,
    route: TitleRoute,
    point: PointCode,
) -> Option<Cause>
    ensures { result ≡ rule.refusal_at (own_value leads_by own.now) settings.now route point }
{
    if point == own.point {
        if is_missing(own, number_of(route)) {
            return Some(Cause::Unequipped);
        }
        return None;
    }
    if own.ways.lead_to(point, Sls::of_low_bits(0)) {
        None
    } else if settings.destination(point).is_some() {
        Some(Cause::NoRoute)
    } else {
        Some(Cause::UnknownDestination)
    }
}

/// The number of the subsystem that a row leads to, if it says one.
fn number_of(route: TitleRoute) -> Option<Ssn>
    ensures { result ≡ rule.number_of route }
{
    match route {
        TitleRoute::Title(ssn) => ssn,
        TitleRoute::Ssn(ssn) => Some(ssn),
    }
}

/// Whether a subsystem isn't here. Without a number it isn't known.
fn is_missing(own: &Own<'_, LinkWays<'_>>, ssn: Option<Ssn>) -> bool
    ensures { result ≡ rule.is_missing (own_value leads_by own.now) ssn }
{
    match ssn {
        Some(ssn) => !is_equipped(own, ssn.number()),
        None => false,
    }
}

/// Whether a subsystem is here.
fn is_equipped(own: &Own<'_, LinkWays<'_>>, ssn: u8) -> bool
    ensures { result ≡ is_equipped (own_value leads_by own.now) (Some ssn) }
{
    own.answers_tests && ssn == MANAGEMENT || own.subsystems.contains(&ssn)
}

/// The line of the point that a row leads to, and, if that is the backup, why; or of why messages are refused there.
fn led_line(
    stands: Standing,
    first: PointCode,
    point: PointCode,
    refusal: Option<Cause>,
    points: PointFormat,
) -> ArrayString<LINE_OCTETS>
    ensures { result.bytes ≡ rule.led_line points stands first point refusal }
{
    if let Some(cause) = refusal {
        return refused(cause);
    }
    let mut line = ArrayString::new();
    push_point(&mut line, "leads to ", point, points);
    if point != first {
        push_point(&mut line, why_not(stands), first, points);
    }
    line.push_str("\n");
    line
}

/// Why the row's own point isn't taken.
fn why_not(stands: Standing) -> &'static str
    ensures words { result.now ≡ rule.why_not stands }
    ensures short { length result.now ≤ 48 }
{
    match stands {
        Standing::Open => ", the backup of ",
        Standing::Prohibited => ", the backup: the subsystem is prohibited at ",
        Standing::Unreached => ", the backup: no link leads to ",
    }
}

/// The line of a refusal.
fn refused(cause: Cause) -> ArrayString<LINE_OCTETS>
    ensures { result.bytes ≡ rule.refusal_line cause }
{
    let mut line = ArrayString::new();
    push_cause(&mut line, "refused ", cause);
    line.push_str("\n");
    line
}

/// The line of a refusal alone.
fn refusal_line(cause: Cause) -> TitleAnswer
    ensures { result.bytes ≡ rule.refusal_line cause }
{
    let mut answer = TitleAnswer::new();
    answer.push_str(refused(cause).as_str());
    answer
}
