//! The text of the routes.

ghost use Rattle.std.specs.Prelude.{◌≡◌, ◌+◌, ◌≤◌, ◌++◌, length};
ghost use Rattle.exchange_rules.specs.First.{Abstract};
ghost use Rattle.exchange.specs.Calls.{StandsFor};
ghost use Rattle.console.specs.Texts.{Shows, route_line, route_text, sets_text};

use crate::line::{LINE_OCTETS, push_point};
use crate::names::set_name;
use arrayvec::ArrayString;
use exchange::{Exchange, RouteView};
use settings::{PointFormat, SetId, Settings};

/// Writes line `k`, from 0, of the text of the routes: `route POINT SET STATUS`, one line for each destination in the
/// order of the settings. SET is the name of the set that messages take, or those of two joined sets, as `east+west`;
/// STATUS is `allowed` or `restricted`. If messages take no set, these are `none` and `prohibited`. Points are shown in
/// this format.
///
/// False past the last line, and then nothing is written.
pub fn show_routes(
    exchange: &Exchange,
    k: usize,
    points: PointFormat,
    out: &mut ArrayString<LINE_OCTETS>,
) -> bool
    // For every abstract state that the exchange stands for, the line is that of the abstract state.
    ensures line { (a : Abstract) → StandsFor exchange.now a →
        Shows (route_line points a k) result out.old.bytes out.new.bytes }

    // The same on what is kept.
    ensures kept_line { Shows (route_line points exchange.now k) result out.old.bytes out.new.bytes }
{
    let Some(view) = exchange.route(k) else {
        return false;
    };
    write_route(exchange.settings(), &view, points, out);
    true
}

/// The line of a destination.
fn write_route(
    settings: &Settings,
    view: &RouteView,
    points: PointFormat,
    out: &mut ArrayString<LINE_OCTETS>,
)
    ensures { out.new.bytes ≡ route_text points settings.now view.now }
{
    out.clear();
    push_point(out, "route ", view.point, points);
    out.push_str(" ");
    push_sets(out, settings, &view.sets);
    out.push_str(" ");
    out.push_str(view.status.name());
}

/// Appends the names of the sets that messages take: `east`, `east+west` or `none`.
pub fn push_sets(line: &mut ArrayString<LINE_OCTETS>, settings: &Settings, sets: &[SetId])
    requires { length line.old.bytes + 65 ≤ LINE_OCTETS }
    ensures text { line.new.bytes ≡ line.old.bytes ++ sets_text settings.now sets.now }
    ensures short { length line.new.bytes ≤ length line.old.bytes + 65 }
{
    let Some(first) = sets.first() else {
        line.push_str("none");
        return;
    };
    line.push_str(set_name(settings, *first));
    let Some(second) = sets.get(1) else {
        return;
    };
    line.push_str("+");
    line.push_str(set_name(settings, *second));
}
