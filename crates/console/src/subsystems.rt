//! The text of the prohibited subsystems.

ghost use Rattle.std.specs.Prelude.{◌≡◌};
ghost use Rattle.exchange_rules.specs.First.{Abstract};
ghost use Rattle.exchange.specs.Calls.{StandsFor};
ghost use Rattle.console.specs.Texts.{Shows, subsystem_line, subsystem_text};

use crate::line::{LINE_OCTETS, push_octet, push_point};
use arrayvec::ArrayString;
use exchange::{Exchange, Subsystem};
use settings::PointFormat;

/// Writes line `k`, from 0, of the text of the prohibited subsystems: `subsystem POINT SSN prohibited`, one line for
/// each, in the order in which they were heard of. Points are shown in this format.
///
/// False past the last line, and then nothing is written.
pub fn show_subsystems(
    exchange: &Exchange,
    k: usize,
    points: PointFormat,
    out: &mut ArrayString<LINE_OCTETS>,
) -> bool
    // For every abstract state that the exchange stands for, the line is that of the abstract state.
    ensures line { (a : Abstract) → StandsFor exchange.now a →
        Shows (subsystem_line points a k) result out.old.bytes out.new.bytes }

    // The same on what is kept.
    ensures kept_line { Shows (subsystem_line points exchange.now k) result out.old.bytes out.new.bytes }
{
    let Some(prohibited) = exchange.titles().prohibited(k) else {
        return false;
    };
    write_subsystem(&prohibited.subsystem, points, out);
    true
}

fn write_subsystem(subsystem: &Subsystem, points: PointFormat, out: &mut ArrayString<LINE_OCTETS>)
    ensures { out.new.bytes ≡ subsystem_text points subsystem.now }
{
    out.clear();
    push_point(out, "subsystem ", subsystem.point, points);
    push_octet(out, " ", subsystem.ssn);
    out.push_str(" prohibited");
}
