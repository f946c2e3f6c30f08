//! The text of the losses.

ghost use Rattle.std.specs.Prelude.{◌≡◌, nat_lt};
ghost use Rattle.exchange_rules.specs.First.{Abstract};
ghost use Rattle.exchange.specs.Calls.{StandsFor};
ghost use Rattle.console.specs.Texts.{Shows, loss_line};
ghost use Rattle.console.specs.declared.losses.TheConstants.{LOSSES};

use crate::line::{LINE_OCTETS, write_count};
use arrayvec::ArrayString;
use exchange::Exchange;

/// Lines of the text of the losses.
pub const LOSSES: usize = 2;

/// Writes line `k`, from 0, of the text of the losses: `loss messages_lost N`, the messages that notices named as lost
/// since the node was booted; then `loss times_broken N`, how often it wasn't known for sure what the other end has of a
/// link.
///
/// False past the last line, and then nothing is written.
pub fn show_losses(exchange: &Exchange, k: usize, out: &mut ArrayString<LINE_OCTETS>) -> bool
    // For every abstract state that the exchange stands for, the line is that of the abstract state.
    ensures line { (a : Abstract) → StandsFor exchange.now a →
        Shows (loss_line a k) result out.old.bytes out.new.bytes }

    // The same on what is kept.
    ensures kept_line { Shows (loss_line exchange.now k) result out.old.bytes out.new.bytes }

    // Each of its lines is written, and no other.
    ensures count { result ≡ nat_lt k LOSSES }
{
    match k {
        0 => write_count("loss messages_lost ", exchange.messages_lost(), out),
        1 => write_count("loss times_broken ", exchange.times_broken(), out),
        _ => return false,
    }
    true
}
