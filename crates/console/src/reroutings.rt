//! The text of the reroutings.

ghost use Rattle.std.specs.Prelude.{◌≡◌, nat_lt};
ghost use Rattle.exchange_rules.specs.First.{Abstract};
ghost use Rattle.exchange.specs.Calls.{StandsFor};
ghost use Rattle.console.specs.Texts.{Shows, rerouting_line};
ghost use Rattle.console.specs.declared.reroutings.TheConstants.{REROUTINGS};

use crate::line::{LINE_OCTETS, write_count};
use arrayvec::ArrayString;
use exchange::Exchange;

/// Lines of the text of the reroutings.
pub const REROUTINGS: usize = 1;

/// Writes line `k`, from 0, of the text of the reroutings: `rerouting times_rerouted N`, how often a flow changed its
/// link set since the node was booted, but away from its destination's own.
///
/// False past the last line, and then nothing is written.
pub fn show_reroutings(exchange: &Exchange, k: usize, out: &mut ArrayString<LINE_OCTETS>) -> bool
    // For every abstract state that the exchange stands for, the line is that of the abstract state.
    ensures line { (a : Abstract) → StandsFor exchange.now a →
        Shows (rerouting_line a k) result out.old.bytes out.new.bytes }

    // The same on what is kept.
    ensures kept_line { Shows (rerouting_line exchange.now k) result out.old.bytes out.new.bytes }

    // Each of its lines is written, and no other.
    ensures count { result ≡ nat_lt k REROUTINGS }
{
    match k {
        0 => write_count("rerouting times_rerouted ", exchange.times_rerouted(), out),
        _ => return false,
    }
    true
}
