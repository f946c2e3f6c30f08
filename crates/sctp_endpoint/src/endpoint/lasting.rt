//! How long an endpoint lasts.

ghost use Rattle.std.specs.Prelude.{◌≡◌, ◌^◌, ◌&&◌, nat_lt};

use crate::endpoint::Endpoint;

/// What an endpoint counts to.
const MOST: u64 = 1 << 63;

impl Endpoint {
    /// Whether the generation, which counts how often an association opened or ended and a try of one restarted or
    /// ended, is below 2^63, and fewer heartbeats than that went out. Its calls require that. With a million a second
    /// it lasts for 292,000 years.
    pub fn lasts(&self) -> bool
        ensures { result ≡ (nat_lt self.now.state.generation (2 ^ 63) && nat_lt self.now.state.nonces (2 ^ 63)) }
    {
        self.generation < MOST && self.nonces < MOST
    }
}
