//! When the pool of user messages is nearly full.

ghost use Rattle.std.specs.Prelude.{◌≡◌, ◌<◌, ◌^◌};
ghost use Rattle.served_link.specs.PoolLevel.{is_high};

/// Whether the pool is nearly full: from four fifths on, and then until less than half of it is.
pub fn is_pool_high(was_high: bool, messages: u32, pool: u32) -> bool
    ensures { result ≡ is_high was_high messages pool }
{
    let (messages, pool) = (u64::from(messages), u64::from(pool));
    if was_high {
        pool <= 2 * messages
    } else {
        4 * pool <= 5 * messages
    }
}
