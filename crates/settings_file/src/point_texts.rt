//! Point codes as a text says them.

ghost use Rattle.std.specs.Prelude.{◌≡◌, ◌≤◌, ◌<◌, ◌^◌, IfSome};
ghost use Rattle.settings_file.specs.PointTexts.{number_up_to, three_parts, behind_zone, point_in, point_said};

use crate::durations::number_in;

/// A number that no point has.
const NO_POINT: i64 = -1;

/// The largest number of a point.
const LAST_POINT: u64 = 16_383;

/// The largest number of a zone, and of a point in its area.
const LAST_OF_THREE_BITS: u64 = 7;

/// The largest number of an area.
const LAST_AREA: u64 = 255;

/// How many points a zone has.
const POINTS_OF_ZONE: u64 = 2_048;

/// How many points an area has.
const POINTS_OF_AREA: u64 = 8;

/// The number of the point that a text says, or a number that no point has.
pub(crate) fn point_said(text: &str) -> i64
    ensures { result ≡ point_said text.now }
{
    match point_in(text) {
        Some(point) => point as i64,
        None => NO_POINT,
    }
}

/// The point that a text says: in three parts of 3, 8 and 3 bits with hyphens between them (Q.708), or as one number.
/// Each may have leading zeros. None for any other text.
#[tactic(auto, unfolding(crate::specs::PointTexts::point_in))]
fn point_in(text: &str) -> Option<u64>
    ensures value { result ≡ point_in text.now }
    ensures fits { IfSome result (λ point. point < 2 ^ 14) }
{
    match text.split_once('-') {
        Some((zone, behind)) => behind_zone(zone, behind),
        None => number_up_to(LAST_POINT, text),
    }
}

/// The point of a zone, and of the parts behind it.
fn behind_zone(zone: &str, behind: &str) -> Option<u64>
    ensures value { result ≡ behind_zone zone.now behind.now }
    ensures fits { IfSome result (λ point. point < 2 ^ 14) }
{
    match behind.split_once('-') {
        Some((area, point)) => three_parts(zone, area, point),
        None => None,
    }
}

/// The point of three parts.
fn three_parts(zone: &str, area: &str, point: &str) -> Option<u64>
    ensures value { result ≡ three_parts zone.now area.now point.now }
    ensures fits { IfSome result (λ point. point < 2 ^ 14) }
{
    let zone = number_up_to(LAST_OF_THREE_BITS, zone)?;
    let area = number_up_to(LAST_AREA, area)?;
    let point = number_up_to(LAST_OF_THREE_BITS, point)?;
    Some(POINTS_OF_ZONE * zone + (POINTS_OF_AREA * area + point))
}

/// The number of these digits, up to the most.
fn number_up_to(most: u64, digits: &str) -> Option<u64>
    ensures value { result ≡ number_up_to most digits.now }
    ensures below { IfSome result (λ number. number ≤ most) }
{
    let number = number_in(digits.as_bytes())?;
    if number > most {
        return None;
    }
    Some(number)
}
