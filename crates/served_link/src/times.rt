//! Times in whole milliseconds and microseconds.

ghost use Rattle.std.specs.Prelude.{◌≡◌};
ghost use Rattle.served_link.specs.Times.{micros_of, millis_of};

use std::time::Duration;

/// The whole milliseconds of a time.
pub fn millis(time: Duration) -> u64
    ensures { result ≡ millis_of time }
{
    u64::try_from(time.as_millis()).unwrap_or(u64::MAX)
}

/// The whole microseconds of a time.
pub fn micros(time: Duration) -> u64
    ensures { result ≡ micros_of time }
{
    u64::try_from(time.as_micros()).unwrap_or(u64::MAX)
}
