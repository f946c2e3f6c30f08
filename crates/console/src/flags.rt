//! The text of the flags.

ghost use Rattle.std.specs.Prelude.{◌≡◌, nat_lt};
ghost use Rattle.exchange_rules.specs.First.{Abstract};
ghost use Rattle.exchange.specs.Calls.{StandsFor};
ghost use Rattle.console.specs.Texts.{Shows, flag_line};
ghost use Rattle.console.specs.declared.flags.TheConstants.{FLAGS};

use crate::line::{LINE_OCTETS, write_count};
use arrayvec::ArrayString;
use exchange::Exchange;

/// Lines of the text of the flags.
pub const FLAGS: usize = 2;

/// Writes line `k`, from 0, of the text of the flags: `flag lost_any TIMES`, then `flag late_any TIMES`. TIMES is how
/// often the flag was raised since the node was booted; a flag whose number is 0 isn't raised.
///
/// False past the last line, and then nothing is written.
pub fn show_flags(exchange: &Exchange, k: usize, out: &mut ArrayString<LINE_OCTETS>) -> bool
    // For every abstract state that the exchange stands for, the line is that of the abstract state.
    ensures line { (a : Abstract) → StandsFor exchange.now a →
        Shows (flag_line a k) result out.old.bytes out.new.bytes }

    // The same on what is kept.
    ensures kept_line { Shows (flag_line exchange.now k) result out.old.bytes out.new.bytes }

    // Each of its lines is written, and no other.
    ensures count { result ≡ nat_lt k FLAGS }
{
    match k {
        0 => write_count("flag lost_any ", exchange.times_lost(), out),
        1 => write_count("flag late_any ", exchange.times_late(), out),
        _ => return false,
    }
    true
}
