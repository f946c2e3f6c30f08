//! The notices of a node as its page has seen them: how many of each kind there were, and when the last ones came.

ghost use Rattle.std.specs.Prelude.{◌≡◌, ◌<◌, ◌≤◌, drop, length};
ghost use Rattle.status_page.specs.Noticed.{kind_place, kind_seen, looked, missed, no_notices, notice_kind, seen_all, seen_one, time_of};

use circular_buffer::HeapCircularBuffer;
use exchange::Exchange;
use signalling_types::{Limits, Notice};

/// What a notice tells of.
#[derive(Clone, Copy)]
pub enum NoticeKind {
    /// A message in a frame was refused.
    Refused,
    /// A frame was discarded.
    Frame,
    /// A link failed.
    Failed,
    /// A message was lost.
    Lost,
    /// A management message couldn't go out.
    Unsent,
    /// A changeover ended by its timer.
    Expired,
    /// A link was barred no more, though its answer didn't come.
    Unbarred,
    /// A changeback ended by its timer.
    Late,
    /// It was dropped for later ones before it was seen.
    Missed,
}

/// Kinds of notices.
pub const NOTICE_KINDS: usize = 9;

impl NoticeKind {
    /// All kinds, in the order in which they are shown.
    pub const ALL: [NoticeKind; NOTICE_KINDS] = [
        NoticeKind::Refused,
        NoticeKind::Frame,
        NoticeKind::Failed,
        NoticeKind::Lost,
        NoticeKind::Unsent,
        NoticeKind::Expired,
        NoticeKind::Unbarred,
        NoticeKind::Late,
        NoticeKind::Missed,
    ];

    /// The kind of a notice.
    pub fn of(notice: &Notice) -> NoticeKind
        ensures { result ≡ notice_kind notice.now }
    {
        match notice {
            Notice::Refused(_, _) => NoticeKind::Refused,
            Notice::Frame(_, _) => NoticeKind::Frame,
            Notice::Failed(_, _) => NoticeKind::Failed,
            Notice::Lost(_, _, _) => NoticeKind::Lost,
            Notice::Unsent(_, _) => NoticeKind::Unsent,
            Notice::Expired(_, _) => NoticeKind::Expired,
            Notice::Unbarred(_, _) => NoticeKind::Unbarred,
            Notice::Late(_, _) => NoticeKind::Late,
        }
    }

    /// The kind's place among all.
    fn place(self) -> usize
        ensures place { result ≡ kind_place self }
        ensures fits { result < NOTICE_KINDS }
    {
        match self {
            NoticeKind::Refused => 0,
            NoticeKind::Frame => 1,
            NoticeKind::Failed => 2,
            NoticeKind::Lost => 3,
            NoticeKind::Unsent => 4,
            NoticeKind::Expired => 5,
            NoticeKind::Unbarred => 6,
            NoticeKind::Late => 7,
            NoticeKind::Missed => 8,
        }
    }
}

/// How many notices of each kind there were, and when the last ones came.
///
/// A node keeps its last 64 notices, and doesn't say when they came: who looks often sees each, and when.
#[derive(Clone, Copy)]
pub struct NoticeLog {
    /// How many notices there were at the last look, modulo 2^64.
    pub count: u64,
    /// How many of each kind, in the order of `NoticeKind::ALL`. Each stays at 2^64 - 1 once it is there.
    pub kinds: [u64; NOTICE_KINDS],
    /// When the last ones came, in milliseconds since the start: the one of number n at place n modulo 64.
    pub times_ms: [u64; Limits::NOTICES],
}

impl NoticeLog {
    /// There was no notice yet.
    pub fn new() -> NoticeLog
        ensures { result ≡ no_notices }
    {
        NoticeLog {
            count: 0,
            kinds: [0; NOTICE_KINDS],
            times_ms: [0; Limits::NOTICES],
        }
    }

    /// How many notices of a kind there were.
    pub fn count_of(&self, kind: NoticeKind) -> u64
        ensures { result ≡ kind_seen kind self.now }
    {
        self.kinds[kind.place()]
    }

    /// When the notice of this number was seen, in milliseconds since the start, if it is one of the last 64.
    pub fn time_ms(&self, number: u64) -> u64
        ensures { result ≡ time_of number self.now }
    {
        self.times_ms[(number % Limits::NOTICES as u64) as usize]
    }

    /// Looks at the notices that came since the last look: those that are kept came now, and the others were missed.
    pub fn look(&mut self, exchange: &Exchange, now_ms: u64)
        ensures { self.new ≡ looked now_ms exchange.now.node.parts.notices self.old }
    {
        let new = exchange.notice_count().wrapping_sub(self.count);
        let notices = exchange.notices();
        let fresh = new.min(notices.len() as u64);
        self.miss(new - fresh);
        self.see_from(notices.len() - fresh as usize, notices, now_ms);
    }

    /// This many notices were dropped before they were seen.
    fn miss(&mut self, dropped: u64)
        ensures { self.new ≡ missed dropped self.old }
    {
        let place = NoticeKind::Missed.place();
        self.count = self.count.wrapping_add(dropped);
        self.kinds[place] = self.kinds[place].saturating_add(dropped);
    }

    /// These notices, from this index on, came now.
    fn see_from(&mut self, first: usize, notices: &HeapCircularBuffer<Notice>, now_ms: u64)
        ensures { self.new ≡ seen_all now_ms (drop first notices.now.items) self.old }
    {
        for k in first..notices.len() {
            if let Some(notice) = notices.get(k) {
                self.see(notice, now_ms);
            }
        }
    }

    /// A notice came now.
    fn see(&mut self, notice: &Notice, now_ms: u64)
        ensures { self.new ≡ seen_one now_ms notice.now self.old }
    {
        let place = NoticeKind::of(notice).place();
        self.count = self.count.wrapping_add(1);
        self.kinds[place] = self.kinds[place].saturating_add(1);
        self.times_ms[(self.count % Limits::NOTICES as u64) as usize] = now_ms;
    }
}
