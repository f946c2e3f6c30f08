//! Why a link failed last, and by which timer.

ghost use Rattle.std.specs.Prelude.{◌≡◌, ◌≤◌, None, Some, length};
ghost use Rattle.served_link.specs.LinkFailures.{failure_text, failure_words, ran_out, timer_suffix};
ghost use Rattle.signalling_types.specs.Notices.{failure_name};

use crate::alarm_text::seconds_text;
use arrayvec::ArrayString;
use signalling_types::FailureReason;

/// Octets of a timer's name with the blank before it, at most.
const TIMER_OCTETS: usize = 9;

/// Octets of a reason's name, at most.
const REASON_OCTETS: usize = 11;

/// Octets of the words on a failure, at most.
pub const FAILURE_OCTETS: usize = 64;

/// A timer whose end fails a link (Q.703 §12.3), by its key in the settings.
#[derive(Clone, Copy, PartialEq, Eq)]
pub enum FailingTimer {
    /// The link waits, aligned and ready, for its peer: T1 of Q.703.
    L1,
    /// It waits for its peer to align: T2.
    L2,
    /// It is aligned, and waits for its peer to prove: T3.
    L3,
    /// Its peer is busy, or its peer's processor is out: T6.
    L6,
    /// A message that was sent waits for its confirmation: T7.
    L7,
    /// L6 or L7: of a link under test it can't be seen whether its peer is busy.
    L6OrL7,
}

impl FailingTimer {
    /// Its name, behind a blank.
    fn suffix(self) -> &'static str
        ensures words { result.now ≡ timer_suffix (Some self) }
        ensures fits { length result.now ≤ TIMER_OCTETS }
    {
        match self {
            FailingTimer::L1 => " L1",
            FailingTimer::L2 => " L2",
            FailingTimer::L3 => " L3",
            FailingTimer::L6 => " L6",
            FailingTimer::L7 => " L7",
            FailingTimer::L6OrL7 => " L6 or L7",
        }
    }
}

/// A failure of a link.
#[derive(Clone, Copy)]
pub struct LinkFailure {
    /// Why the link failed.
    pub reason: FailureReason,
    /// The timer that ran out, if one did.
    pub timer: Option<FailingTimer>,
    /// When its notice was seen, in milliseconds after the start.
    pub at_ms: u64,
}

/// What tells, behind the notice of a failure, which timer ran out: a blank and its name; nothing if none did.
pub fn timer_suffix(timer: Option<FailingTimer>) -> &'static str
    ensures words { result.now ≡ timer_suffix timer }
    ensures fits { length result.now ≤ TIMER_OCTETS }
{
    match timer {
        Some(timer) => timer.suffix(),
        None => "",
    }
}

/// The timer that ran out as a link failed for this reason, of which this one could fail it.
pub(crate) fn ran_out(reason: FailureReason, timer: Option<FailingTimer>) -> Option<FailingTimer>
    ensures { result ≡ ran_out reason timer }
{
    match reason {
        FailureReason::Timer => timer,
        FailureReason::Association
        | FailureReason::Sequence
        | FailureReason::Status
        | FailureReason::Length
        | FailureReason::Changeover
        | FailureReason::Operator
        | FailureReason::Test => None,
    }
}

/// The last failure of a link in words: `REASON at S`, with the timer's name behind the reason, if one ran out, and S
/// in seconds after the start; `-` if it hasn't failed.
pub fn failure_text(failure: Option<LinkFailure>) -> ArrayString<FAILURE_OCTETS>
    ensures { result.bytes ≡ failure_text failure }
{
    match failure {
        Some(failure) => failure_words(failure),
        None => none_text(),
    }
}

/// A failure in words.
fn failure_words(failure: LinkFailure) -> ArrayString<FAILURE_OCTETS>
    ensures { result.bytes ≡ failure_words failure }
{
    let mut text = ArrayString::new();
    text.push_str(reason_name(failure.reason));
    text.push_str(timer_suffix(failure.timer));
    text.push_str(" at ");
    text.push_str(seconds_text(failure.at_ms).as_str());
    text
}

/// What stands for no failure.
fn none_text() -> ArrayString<FAILURE_OCTETS>
    ensures { result.bytes ≡ failure_text None }
{
    let mut text = ArrayString::new();
    text.push_str("-");
    text
}

/// The name of a reason.
fn reason_name(reason: FailureReason) -> &'static str
    ensures words { result.now ≡ failure_name reason }
    ensures fits { length result.now ≤ REASON_OCTETS }
{
    reason.name()
}
