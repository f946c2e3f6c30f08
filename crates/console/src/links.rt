//! The text of the links.

ghost use Rattle.std.specs.Prelude.{◌≡◌, ◌≤◌, length};
ghost use Rattle.exchange_rules.specs.First.{Abstract};
ghost use Rattle.exchange.specs.Calls.{StandsFor};
ghost use Rattle.exchange.specs.KeptQueues.{kept};
ghost use Rattle.exchange_rules.specs.Queues.{whole};
ghost use Rattle.console.specs.Texts.{Shows, link_line, link_text};

use crate::line::{LINE_OCTETS, push_number};
use arrayvec::ArrayString;
use exchange::{Exchange, LinkView};
use settings::{Limits, LinkId};

/// Writes line `k`, from 0, of the text of the links: `link NAME STATE waiting Q fsn F bsn B`, one line for each link
/// in the order of the settings, with `barred` behind it if the link is barred from opening. Q counts the messages that
/// aren't confirmed; F and B are the numbers of the last message sent and of the last accepted.
///
/// Returns false, and writes nothing, past the last line.
pub fn show_links(exchange: &Exchange, k: usize, out: &mut ArrayString<LINE_OCTETS>) -> bool
    // For every abstract state that the exchange stands for, the line is that of the abstract state.
    ensures line { (a : Abstract) → StandsFor exchange.now a →
        Shows (link_line whole a k) result out.old.bytes out.new.bytes }

    // The same on what is kept.
    ensures kept_line { Shows (link_line kept exchange.now k) result out.old.bytes out.new.bytes }
{
    let Some(row) = exchange.settings().links().get(k) else {
        return false;
    };
    let link = LinkId::new(k as u8);
    let Some(view) = exchange.link(link) else {
        return false;
    };
    write_link(row.name(), view, exchange.is_barred(link), out);
    true
}

fn write_link(name: &str, view: LinkView, is_barred: bool, out: &mut ArrayString<LINE_OCTETS>)
    requires { length name.now ≤ Limits.NAME_OCTETS }
    ensures { out.new.bytes ≡ link_text name.now view is_barred }
{
    out.clear();
    out.push_str("link ");
    out.push_str(name);
    out.push_str(" ");
    out.push_str(view.standing.name());
    push_number(out, " waiting ", view.waiting as u64);
    push_number(out, " fsn ", u64::from(view.last_sent.value()));
    push_number(out, " bsn ", u64::from(view.last_accepted.value()));
    if is_barred {
        out.push_str(" barred");
    }
}
