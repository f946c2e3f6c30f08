//! The clock of a node: when a tick is due.

ghost use Rattle.std.specs.Prelude.{◌≡◌, ◌+◌, ◌-◌, ◌*◌, ◌/◌, ◌≤◌, ◌<◌, ◌^◌, min, max, ◌↔◌, IsTrue};
ghost use Rattle.served_link.specs.Ticking.{after_call, is_due, ticks_left};

use std::marker::Model;

/// While more ticks than these are left, the clock is behind.
pub const MOST_TICKS: u64 = 100;

/// Hands out the ticks of a node, by the time since its start in milliseconds: each once.
///
/// Ticks that couldn't be handed out in time, since the node had no processor for a while, are left over. They come one
/// at a time and at most twice as fast as others. So each timer of the node lasts at least half of its length, in which
/// its peers can answer.
#[derive(Drop)]
pub struct TickClock {
    tick_ms: u64,
    handed: u64,
    last: u64,
}

impl Model for TickClock {
    ghost use Rattle.std.specs.Prelude.{◌≤◌};
    ghost use Rattle.served_link.specs.Ticking.{ClockState};

    ghost Value = { ClockState };

    ghost view = { λ c. record { tick_ms = c.tick_ms; handed = c.handed; last = c.last } };

    ghost invariant = { λ c. 1 ≤ c.tick_ms };
}

impl TickClock {
    /// A clock before its first tick. A tick takes `tick_ms` milliseconds, at least one.
    pub fn new(tick_ms: u16) -> TickClock
        requires { 1 ≤ tick_ms }
        ensures { result ≡ record { tick_ms = tick_ms; handed = 0; last = 0 } }
    {
        TickClock {
            tick_ms: u64::from(tick_ms),
            handed: 0,
            last: 0,
        }
    }

    /// Hands out a tick, and returns true, if one is due: its time has passed, and half a tick's time is over since the
    /// last one.
    pub fn is_due(&mut self, elapsed_ms: u64) -> bool
        ensures tick { result ≡ is_due self.old elapsed_ms }
        ensures state { self.new ≡ after_call self.old elapsed_ms }
    {
        let is_due = self.left(elapsed_ms) > 0
            && elapsed_ms.saturating_sub(self.last) >= self.tick_ms / 2;
        if is_due {
            self.handed += 1;
            self.last = elapsed_ms;
        }
        is_due
    }

    /// How many ticks passed by now and weren't handed out.
    fn left(&self, elapsed_ms: u64) -> u64
        ensures { result ≡ ticks_left self.now elapsed_ms }
    {
        (elapsed_ms / self.tick_ms).saturating_sub(self.handed)
    }

    /// Whether more than `MOST_TICKS` are left.
    pub fn is_behind(&self, elapsed_ms: u64) -> bool
        ensures { IsTrue result ↔ (MOST_TICKS < ticks_left self.now elapsed_ms) }
    {
        self.left(elapsed_ms) > MOST_TICKS
    }

    /// How many milliseconds there are until the next tick is due.
    pub fn until_next(&self, elapsed_ms: u64) -> u64
        ensures { result ≡ min (2 ^ 64 - 1) (max ((self.now.handed + 1) * self.now.tick_ms)
            (self.now.last + self.now.tick_ms / 2)) - elapsed_ms }
    {
        let passes = self.handed.saturating_add(1).saturating_mul(self.tick_ms);
        let may_come = self.last.saturating_add(self.tick_ms / 2);
        passes.max(may_come).saturating_sub(elapsed_ms)
    }
}
