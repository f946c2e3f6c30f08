//! Times in UTC, as RFC 3339 writes them.

ghost use Rattle.std.specs.Prelude.{◌≡◌, ◌≤◌};
ghost use Rattle.served_link.specs.Utc.{date_in_year, date_of, digit, month_days, time_text, utc_text, year_days};

/// Octets of a time in UTC: `2026-12-01T05:17:03.120Z`.
pub const UTC_OCTETS: usize = 24;

/// The year in which days are counted from.
const FIRST_YEAR: u32 = 1970;

/// The last year that has four digits.
const LAST_YEAR: u32 = 9999;

/// The last month of a year.
const DECEMBER: u32 = 12;

/// Milliseconds of a day.
const DAY_MS: u64 = 86_400_000;

/// The last millisecond of the last year, since the first one began.
const LAST_MS: u64 = 253_402_300_799_999;

/// A date of the Gregorian calendar.
#[derive(Clone, Copy)]
pub struct Date {
    /// The year.
    pub year: u32,
    /// The month, from 1.
    pub month: u32,
    /// The day of the month, from 1.
    pub day: u32,
}

/// The time in UTC so many milliseconds after the year 1970 began: `2026-12-01T05:17:03.120Z` (RFC 3339 §5.6). After the
/// year 9999 it is the last millisecond of that year.
pub fn utc_text(ms: u64) -> [u8; UTC_OCTETS]
    ensures { result ≡ utc_text ms }
{
    let ms = ms.min(LAST_MS);
    time_text(date_of((ms / DAY_MS) as u32), (ms % DAY_MS) as u32)
}

/// A date, and the time so many milliseconds after its day began.
fn time_text(date: Date, ms: u32) -> [u8; UTC_OCTETS]
    ensures { result ≡ time_text date ms }
{
    let Date { year, month, day } = date;
    let (hour, minute, second) = (ms / 3_600_000, ms / 60_000 % 60, ms / 1_000 % 60);
    [
        digit(year / 1000),
        digit(year / 100),
        digit(year / 10),
        digit(year),
        b'-',
        digit(month / 10),
        digit(month),
        b'-',
        digit(day / 10),
        digit(day),
        b'T',
        digit(hour / 10),
        digit(hour),
        b':',
        digit(minute / 10),
        digit(minute),
        b':',
        digit(second / 10),
        digit(second),
        b'.',
        digit(ms / 100),
        digit(ms / 10),
        digit(ms),
        b'Z',
    ]
}

/// The last digit of a number.
fn digit(number: u32) -> u8
    ensures { result ≡ digit number }
{
    b'0' + (number % 10) as u8
}

/// The date so many days after 1 January 1970.
fn date_of(days: u32) -> Date
    requires { days ≤ 2932896 }
    ensures { result ≡ date_of days }
{
    let mut left = days;
    for year in FIRST_YEAR..LAST_YEAR {
        let length = year_days(year);
        if left < length {
            return date_in_year(year, left);
        }
        left -= length;
    }
    date_in_year(LAST_YEAR, left)
}

/// The date so many days after the first of a year.
fn date_in_year(year: u32, days: u32) -> Date
    requires { days ≤ 2932896 }
    ensures { result ≡ date_in_year year days }
{
    let mut left = days;
    for month in 1..DECEMBER {
        let length = month_days(year, month);
        if left < length {
            return Date {
                year,
                month,
                day: left + 1,
            };
        }
        left -= length;
    }
    Date {
        year,
        month: DECEMBER,
        day: left + 1,
    }
}

/// The days of a year.
fn year_days(year: u32) -> u32
    ensures { result ≡ year_days year }
{
    337 + month_days(year, 2)
}

/// The days of a month.
fn month_days(year: u32, month: u32) -> u32
    ensures days { result ≡ month_days year month }
    ensures most { result ≤ 31 }
{
    let is_leap = year % 4 == 0 && (year % 100 != 0 || year % 400 == 0);
    match month {
        2 if is_leap => 29,
        2 => 28,
        4 | 6 | 9 | 11 => 30,
        _ => 31,
    }
}
