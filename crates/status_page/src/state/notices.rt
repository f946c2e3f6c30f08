//! The notices in the state of a node.

ghost use Rattle.std.specs.Prelude.{◌≡◌, ◌<◌, codes, length};
ghost use Rattle.status_page.specs.Each.{each};
ghost use Rattle.status_page.specs.Members.{Adds, array_member, object_member};
ghost use Rattle.status_page.specs.Reasons.{notice_kinds};
ghost use Rattle.status_page.specs.States.{kind_key, kind_members, notice_number, notice_object, notice_tokens};

use crate::members::{put_number, put_text};
use crate::noticed::{NoticeKind, NoticeLog};
use arrayvec::ArrayString;
use console::{LINE_OCTETS, show_notices};
use exchange::Exchange;
use json::Writer;
use settings::PointFormat;
use std::alloc::AllocError;

/// Appends the object with how many notices of each kind there were.
pub(crate) fn put_kinds(notices: &NoticeLog, out: &mut Writer) -> Result<(), AllocError>
    ensures { Adds result out.old out.new
        (object_member (codes "notice_kinds") (kind_members notices.now notice_kinds)) }
{
    out.key("notice_kinds")?;
    out.begin_object()?;
    put_each_kind(&NoticeKind::ALL, notices, out)?;
    out.end_object()
}

/// Appends how many notices of these kinds there were.
fn put_each_kind(
    kinds: &[NoticeKind],
    notices: &NoticeLog,
    out: &mut Writer,
) -> Result<(), AllocError>
    ensures { Adds result out.old out.new (kind_members notices.now kinds.now) }
{
    for kind in kinds {
        put_number(out, kind_key(*kind), notices.count_of(*kind))?;
    }
    Ok(())
}

/// The member that shows how many notices of a kind there were.
fn kind_key(kind: NoticeKind) -> &'static str
    ensures { result.now ≡ kind_key kind }
{
    match kind {
        NoticeKind::Refused => "refused",
        NoticeKind::Frame => "frame",
        NoticeKind::Failed => "failed",
        NoticeKind::Lost => "lost",
        NoticeKind::Unsent => "unsent",
        NoticeKind::Expired => "expired",
        NoticeKind::Unbarred => "unbarred",
        NoticeKind::Late => "late",
        NoticeKind::Missed => "missed",
    }
}

/// Appends the array of the notices that are kept, the oldest first.
pub(crate) fn put_notices(
    exchange: &Exchange,
    notices: &NoticeLog,
    points: PointFormat,
    out: &mut Writer,
) -> Result<(), AllocError>
    ensures { Adds result out.old out.new (array_member (codes "notices")
        (each (notice_tokens points exchange.now notices.now) (length exchange.now.node.parts.notices.last))) }
{
    out.key("notices")?;
    out.begin_array()?;
    put_each_notice(exchange, notices, points, out)?;
    out.end_array()
}

/// Appends the objects of the notices that are kept.
fn put_each_notice(
    exchange: &Exchange,
    notices: &NoticeLog,
    points: PointFormat,
    out: &mut Writer,
) -> Result<(), AllocError>
    ensures { Adds result out.old out.new
        (each (notice_tokens points exchange.now notices.now) (length exchange.now.node.parts.notices.last)) }
{
    for k in 0..exchange.notices().len() {
        put_notice(exchange, notices, k, points, out)?;
    }
    Ok(())
}

/// Appends the object of a notice.
fn put_notice(
    exchange: &Exchange,
    notices: &NoticeLog,
    k: usize,
    points: PointFormat,
    out: &mut Writer,
) -> Result<(), AllocError>
    requires { k < length exchange.now.node.parts.notices.last }
    ensures { Adds result out.old out.new (notice_tokens points exchange.now notices.now k) }
{
    let mut line = ArrayString::<LINE_OCTETS>::new();
    if show_notices(exchange, k, points, &mut line) {
        let number = notice_number(exchange, k);
        return put_shown_notice(number, notices.time_ms(number), line.as_str(), out);
    }
    Ok(())
}

/// Appends the object of a notice of this number, time and text.
fn put_shown_notice(
    number: u64,
    time_ms: u64,
    text: &str,
    out: &mut Writer,
) -> Result<(), AllocError>
    ensures { Adds result out.old out.new (notice_object number time_ms text.now) }
{
    out.begin_object()?;
    put_number(out, "number", number)?;
    put_number(out, "time_ms", time_ms)?;
    put_text(out, "text", text)?;
    out.end_object()
}

/// The number of a notice that is kept, by its index from the oldest.
fn notice_number(exchange: &Exchange, k: usize) -> u64
    requires { k < length exchange.now.node.parts.notices.last }
    ensures { result ≡ notice_number exchange.now k }
{
    let behind = exchange.notices().len() - (k + 1);
    exchange.notice_count().wrapping_sub(behind as u64)
}
