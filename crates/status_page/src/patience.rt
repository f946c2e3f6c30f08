//! Bounds for the clients of a page: how much they send, how long they take, and how much they are answered.

ghost use Rattle.std.specs.Prelude.{◌≡◌};
ghost use Rattle.status_page.specs.Bounds.{answered, begun, counted, connection_bounds, is_over, may_answer, none_answered};

use http_server::Config;
use http1::Limits;

/// Clients at once, at most.
pub const PAGE_CLIENTS: usize = 32;

/// How long a client may take for its first request and the answer, in milliseconds.
pub const REQUEST_MS: u64 = 5_000;

/// How long a client may take, once an answer went out, for the next request and its answer, in milliseconds.
pub const IDLE_MS: u64 = 15_000;

/// Requests that are answered in a second, at most, of all clients together.
pub const ANSWERS_A_SECOND: u32 = 64;

/// Octets of a request's head, at most. A browser's has a few hundred.
const HEAD_OCTETS: usize = 8_192;

/// Octets that one read asks for, at least.
const READ_OCTETS: usize = 1_024;

/// The bounds of a connection: a head of 8,192 octets, no body, and no further request before an answer went out.
pub fn limits() -> Config
    ensures { result ≡ connection_bounds }
{
    Config {
        limits: Limits {
            max_head_len: HEAD_OCTETS,
            max_extensions_len: 0,
            max_trailers_len: 0,
        },
        max_body_len: 0,
        max_pending: 0,
        read_size: READ_OCTETS,
    }
}

/// Until when a client may stay.
#[derive(Clone, Copy)]
pub struct Patience {
    /// Milliseconds since the start of the node.
    pub until_ms: u64,
}

impl Patience {
    /// That with a client that comes now.
    pub fn begun(now_ms: u64) -> Patience
        ensures { result ≡ begun now_ms }
    {
        Patience {
            until_ms: now_ms.saturating_add(REQUEST_MS),
        }
    }

    /// That with a client whose answer went out now.
    pub fn answered(now_ms: u64) -> Patience
        ensures { result ≡ answered now_ms }
    {
        Patience {
            until_ms: now_ms.saturating_add(IDLE_MS),
        }
    }

    /// Whether it is over.
    pub fn is_over(self, now_ms: u64) -> bool
        ensures { result ≡ is_over now_ms self }
    {
        now_ms >= self.until_ms
    }
}

/// How many requests were answered in the last second in which one was.
#[derive(Clone, Copy)]
pub struct Allowance {
    /// That second since the start of the node.
    pub second: u64,
    /// The answers in it.
    pub answers: u32,
}

impl Allowance {
    /// Nothing was answered yet.
    pub fn new() -> Allowance
        ensures { result ≡ none_answered }
    {
        Allowance {
            second: 0,
            answers: 0,
        }
    }

    /// Whether one more request may be answered now.
    pub fn may_answer(self, now_ms: u64) -> bool
        ensures { result ≡ may_answer now_ms self }
    {
        self.second != now_ms / 1000 || self.answers < ANSWERS_A_SECOND
    }

    /// A request is answered now.
    pub fn count(&mut self, now_ms: u64)
        ensures { self.new ≡ counted now_ms self.old }
    {
        let second = now_ms / 1000;
        if self.second == second {
            self.answers = self.answers.saturating_add(1);
        } else {
            self.second = second;
            self.answers = 1;
        }
    }
}
