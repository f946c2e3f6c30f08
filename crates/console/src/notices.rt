//! The text of the notices.

ghost use Rattle.std.specs.Prelude.{◌≡◌, ◌≤◌, length};
ghost use Rattle.exchange_rules.specs.First.{Abstract};
ghost use Rattle.exchange.specs.Calls.{StandsFor};
ghost use Rattle.console.specs.Texts.{Shows, notice_line, notice_text, refused_text, frame_text, failed_text, lost_text, unsent_text, expired_text, unbarred_text, late_link_text, late_code_text};

use crate::line::{LINE_OCTETS, push_cause, push_number, push_point};
use crate::names::link_name;
use arrayvec::ArrayString;
use exchange::Exchange;
use settings::{
    Cause, ChangeoverTimer, FailureReason, FrameFault, LateTimer, Limits, LinkId, Notice,
    PointCode, PointFormat, Settings, Sls, Unbarring,
};

/// Writes line `k`, from 0, of the text of the notices, the oldest that is kept first, with points in this format.
///
/// False past the last line, and then nothing is written.
pub fn show_notices(
    exchange: &Exchange,
    k: usize,
    points: PointFormat,
    out: &mut ArrayString<LINE_OCTETS>,
) -> bool
    // For every abstract state that the exchange stands for, the line is that of the abstract state.
    ensures line { (a : Abstract) → StandsFor exchange.now a →
        Shows (notice_line points a k) result out.old.bytes out.new.bytes }

    // The same on what is kept.
    ensures kept_line { Shows (notice_line points exchange.now k) result out.old.bytes out.new.bytes }
{
    match exchange.notices().get(k) {
        Some(notice) => {
            write_notice(exchange.settings(), notice, points, out);
            true
        }
        None => false,
    }
}

/// The line of a notice.
fn write_notice(
    settings: &Settings,
    notice: &Notice,
    points: PointFormat,
    out: &mut ArrayString<LINE_OCTETS>,
)
    ensures { out.new.bytes ≡ notice_text points settings.now notice.now }
{
    match notice {
        Notice::Refused(cause, link) => write_refused(link_name(settings, *link), *cause, out),
        Notice::Frame(fault, link) => write_frame(link_name(settings, *link), *fault, out),
        Notice::Failed(link, reason) => write_failed(link_name(settings, *link), *reason, out),
        Notice::Lost(cause, point, sls) => write_lost(*cause, *point, *sls, points, out),
        Notice::Unsent(cause, point) => write_unsent(*cause, *point, points, out),
        Notice::Expired(timer, link) => write_expired(link_name(settings, *link), *timer, out),
        Notice::Unbarred(by, link) => write_unbarred(link_name(settings, *link), *by, out),
        Notice::Late(LateTimer::T3, number) => {
            write_late_link(link_name(settings, LinkId::new(*number)), out);
        }
        Notice::Late(LateTimer::T4, code) => write_late_code(*code, out),
    }
}

/// A message in a frame of the link of this name was refused.
fn write_refused(name: &str, cause: Cause, out: &mut ArrayString<LINE_OCTETS>)
    requires { length name.now ≤ Limits.NAME_OCTETS }
    ensures { out.new.bytes ≡ refused_text name.now cause }
{
    out.clear();
    push_cause(out, "refused ", cause);
    out.push_str(" ");
    out.push_str(name);
}

/// A frame on the link of this name couldn't be read, and was discarded.
fn write_frame(name: &str, fault: FrameFault, out: &mut ArrayString<LINE_OCTETS>)
    requires { length name.now ≤ Limits.NAME_OCTETS }
    ensures { out.new.bytes ≡ frame_text name.now fault }
{
    out.clear();
    push_number(out, "frame ", u64::from(fault.number()));
    out.push_str(" ");
    out.push_str(fault.name());
    out.push_str(" ");
    out.push_str(name);
}

/// The link of this name failed.
fn write_failed(name: &str, reason: FailureReason, out: &mut ArrayString<LINE_OCTETS>)
    requires { length name.now ≤ Limits.NAME_OCTETS }
    ensures { out.new.bytes ≡ failed_text name.now reason }
{
    out.clear();
    out.push_str("failed ");
    out.push_str(name);
    out.push_str(" ");
    out.push_str(reason.name());
}

/// A message to this point with this signalling link selection was lost.
fn write_lost(
    cause: Cause,
    point: PointCode,
    sls: Sls,
    points: PointFormat,
    out: &mut ArrayString<LINE_OCTETS>,
)
    ensures { out.new.bytes ≡ lost_text points cause point sls }
{
    out.clear();
    push_cause(out, "lost ", cause);
    push_point(out, " ", point, points);
    push_number(out, " ", u64::from(sls.number()));
}

/// A management message to this point could not go out.
fn write_unsent(
    cause: Cause,
    point: PointCode,
    points: PointFormat,
    out: &mut ArrayString<LINE_OCTETS>,
)
    ensures { out.new.bytes ≡ unsent_text points cause point }
{
    out.clear();
    push_cause(out, "unsent ", cause);
    push_point(out, " ", point, points);
}

/// T1 or T2 of the changeover of the link of this name ran out.
fn write_expired(name: &str, timer: ChangeoverTimer, out: &mut ArrayString<LINE_OCTETS>)
    requires { length name.now ≤ Limits.NAME_OCTETS }
    ensures { out.new.bytes ≡ expired_text name.now timer }
{
    out.clear();
    out.push_str(match timer {
        ChangeoverTimer::T1 => "expired T1 ",
        ChangeoverTimer::T2 => "expired T2 ",
    });
    out.push_str(name);
}

/// The link of this name isn't barred any more though its answer didn't come.
fn write_unbarred(name: &str, by: Unbarring, out: &mut ArrayString<LINE_OCTETS>)
    requires { length name.now ≤ Limits.NAME_OCTETS }
    ensures { out.new.bytes ≡ unbarred_text name.now by }
{
    out.clear();
    out.push_str(match by {
        Unbarring::T2 => "unbarred T2 ",
        Unbarring::Operator => "unbarred operator ",
    });
    out.push_str(name);
}

/// T3 of the link of this name ran out.
fn write_late_link(name: &str, out: &mut ArrayString<LINE_OCTETS>)
    requires { length name.now ≤ Limits.NAME_OCTETS }
    ensures { out.new.bytes ≡ late_link_text name.now }
{
    out.clear();
    out.push_str("late T3 ");
    out.push_str(name);
}

/// T4 of this code ran out.
fn write_late_code(code: u8, out: &mut ArrayString<LINE_OCTETS>)
    ensures { out.new.bytes ≡ late_code_text code }
{
    out.clear();
    push_number(out, "late T4 ", u64::from(code));
}
