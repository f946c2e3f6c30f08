//! Counters as text.

ghost use Rattle.std.specs.Prelude.{◌≡◌, ◌+◌, ◌≤◌, ◌++◌, length};
ghost use Rattle.served_link.specs.Lines.{counter_name, counter_line};

use crate::counter::Counter;
use arrayvec::ArrayString;
use itoa::Buffer;
use signalling_types::Limits;

/// Octets of the line of a counter, at most.
pub const LINE_OCTETS: usize = 96;

/// Writes the line of a counter: `counter NAME LINK VALUE`, without a line feed. NAME is `frames_in`, `octets_in`,
/// `frames_out`, `octets_out`, `forwarded`, `delivered`, `refused_` and the cause's name, `failed_` and the reason's
/// name, `retries`, `inits_` or `tries_` and the name of a setback, or `retransmissions`.
pub fn write_counter(counter: Counter, link: &str, value: u64, out: &mut ArrayString<LINE_OCTETS>)
    requires { length link.now ≤ Limits.NAME_OCTETS }
    ensures { out.new.bytes ≡ counter_line counter link.now value }
{
    let mut digits = Buffer::new();
    out.clear();
    out.push_str("counter ");
    push_name(counter, out);
    out.push_str(" ");
    out.push_str(link);
    out.push_str(" ");
    out.push_str(digits.format(value));
}

/// Appends the name of a counter.
fn push_name(counter: Counter, out: &mut ArrayString<LINE_OCTETS>)
    requires { length out.old.bytes ≤ 8 }
    ensures name { out.new.bytes ≡ out.old.bytes ++ counter_name counter }
    ensures short { length out.new.bytes ≤ length out.old.bytes + 32 }
{
    match counter {
        Counter::FramesIn => out.push_str("frames_in"),
        Counter::OctetsIn => out.push_str("octets_in"),
        Counter::FramesOut => out.push_str("frames_out"),
        Counter::OctetsOut => out.push_str("octets_out"),
        Counter::Forwarded => out.push_str("forwarded"),
        Counter::Delivered => out.push_str("delivered"),
        Counter::Refused(cause) => {
            out.push_str("refused_");
            out.push_str(cause.name());
        }
        Counter::Failed(reason) => {
            out.push_str("failed_");
            out.push_str(reason.name());
        }
        Counter::Retries => out.push_str("retries"),
        Counter::Setbacks(setback) => {
            out.push_str(setback.kind());
            out.push_str(setback.name());
        }
        Counter::Retransmissions => out.push_str("retransmissions"),
    }
}
