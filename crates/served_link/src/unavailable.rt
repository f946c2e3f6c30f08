//! For how long links and sets were unavailable.

ghost use Rattle.std.specs.Prelude.{◌≡◌, IfOk, slice_get};
ghost use Rattle.std.specs.Option.{option_copied};
ghost use Rattle.served_link.specs.Unavailable.{all_unavailable, began, first_unavailable, lasted, looked_at};
ghost use Rattle.served_link.specs.Unavailable.{unavailable_after, unavailable_by};

use std::alloc::{AllocError, Global};
use std::marker::Model;

/// For how long something was unavailable since the start of the node, and how often it became so (Q.752).
#[derive(Clone, Copy)]
pub struct Unavailable {
    /// Since when it is unavailable, in milliseconds after the start; None while it is available.
    pub since_ms: Option<u64>,
    /// For how many milliseconds it was unavailable before that, all in all.
    pub before_ms: u64,
    /// How often it was available, and then wasn't any more.
    pub times: u64,
}

impl Unavailable {
    /// As a node starts nothing is available, and hasn't been.
    fn at_start() -> Unavailable
        ensures { result ≡ first_unavailable }
    {
        Unavailable {
            since_ms: Some(0),
            before_ms: 0,
            times: 0,
        }
    }

    /// For how many milliseconds it was unavailable by now, all in all.
    pub fn by_ms(self, now_ms: u64) -> u64
        ensures { result ≡ unavailable_by now_ms self }
    {
        self.before_ms.saturating_add(lasted(now_ms, self.since_ms))
    }

    /// The same after a look that finds it available or not.
    fn after(self, is_available: bool, now_ms: u64) -> Unavailable
        ensures { result ≡ unavailable_after is_available now_ms self }
    {
        if is_available {
            Unavailable {
                since_ms: None,
                before_ms: self.by_ms(now_ms),
                times: self.times,
            }
        } else {
            self.began(now_ms)
        }
    }

    /// The same after a look that finds it unavailable.
    fn began(self, now_ms: u64) -> Unavailable
        ensures { result ≡ began now_ms self.since_ms self }
    {
        match self.since_ms {
            Some(_) => self,
            None => Unavailable {
                since_ms: Some(now_ms),
                before_ms: self.before_ms,
                times: self.times.saturating_add(1),
            },
        }
    }
}

/// For how many milliseconds something lasts that is there since then.
fn lasted(now_ms: u64, since_ms: Option<u64>) -> u64
    ensures { result ≡ lasted now_ms since_ms }
{
    match since_ms {
        Some(since_ms) => now_ms.saturating_sub(since_ms),
        None => 0,
    }
}

/// For how long each link, or each set, was unavailable.
#[derive(Drop)]
pub struct UnavailableTimes {
    rows: Vec<Unavailable>,
}

impl Model for UnavailableTimes {
    ghost use Rattle.std.specs.Prelude.{List};
    ghost use Rattle.served_link.specs.declared.unavailable.Unavailable.{Unavailable};

    ghost Value = { List Unavailable };

    ghost view = { λ t. t.rows.items };
}

impl UnavailableTimes {
    /// Of so many, as a node starts. The error means that memory ran out.
    pub fn new(alloc: Global, count: usize) -> Result<UnavailableTimes, AllocError>
        ensures { IfOk result (λ times. times ≡ all_unavailable count) }
    {
        Ok(UnavailableTimes {
            rows: vec![in alloc; Unavailable::at_start(); count]?,
        })
    }

    /// That of one, if there is one of this number.
    pub fn get(&self, number: usize) -> Option<&Unavailable>
        ensures { option_copied result ≡ slice_get self.now number }
    {
        self.rows.get(number)
    }

    /// The one of this number was found available, or not, so many milliseconds after the start.
    pub fn note(&mut self, number: usize, is_available: bool, now_ms: u64)
        ensures { self.new ≡ looked_at number is_available now_ms self.old }
    {
        if let Some(row) = self.rows.get_mut(number) {
            *row = row.after(is_available, now_ms);
        }
    }
}
