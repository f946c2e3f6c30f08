//! What keeps an association over SCTP from opening.

ghost use Rattle.std.specs.Prelude.{◌≡◌, ◌<◌, ◌≤◌, length};
ghost use Rattle.served_link.specs.Counting.{setback_number};
ghost use Rattle.served_link.specs.Lines.{setback_kind, setback_name};

/// What keeps an association over SCTP from opening: an INIT or an INIT ACK was refused, or a try of this end failed.
#[derive(Clone, Copy)]
pub enum Setback {
    /// An INIT came from another UDP port than its peer's, and was left out.
    OtherPort,
    /// An INIT came after as many as a link may have in that time, and was left out.
    TooMany,
    /// An INIT or an INIT ACK has no tag.
    WithoutTag,
    /// It has a host name.
    HostName,
    /// It has fewer than two streams each way.
    FewStreams,
    /// An INIT came while the link wants no association.
    Unwanted,
    /// An INIT came, but no tag is left for its answer.
    NoTagLeft,
    /// An INIT came while an association is shut down.
    ShuttingDown,
    /// An INIT ACK has no cookie.
    WithoutCookie,
    /// An INIT ACK has a cookie that fits no packet.
    LongCookie,
    /// A try was ended by the peer.
    EndedByPeer,
    /// A try wasn't answered, or each cookie was stale.
    Unanswered,
    /// A try had an answer that can't be used.
    BadAnswer,
    /// A try was ended by this node.
    EndedByNode,
}

/// How many there are.
pub(crate) const SETBACKS: usize = 14;

impl Setback {
    /// Its name: that of a reason why INITs are refused, or why tries fail.
    pub fn name(self) -> &'static str
        ensures name { result.now ≡ setback_name self }
        ensures fits { length result.now ≤ 16 }
    {
        match self {
            Setback::OtherPort => "other_port",
            Setback::TooMany => "too_many",
            Setback::WithoutTag => "without_tag",
            Setback::HostName => "host_name",
            Setback::FewStreams => "few_streams",
            Setback::Unwanted => "unwanted",
            Setback::NoTagLeft => "no_tag_left",
            Setback::ShuttingDown => "shutting_down",
            Setback::WithoutCookie => "without_cookie",
            Setback::LongCookie => "long_cookie",
            Setback::EndedByPeer => "peer",
            Setback::Unanswered => "silence",
            Setback::BadAnswer => "framing",
            Setback::EndedByNode => "node",
        }
    }

    /// What it is counted with: `inits_`, or `tries_`.
    pub(crate) fn kind(self) -> &'static str
        ensures kind { result.now ≡ setback_kind self }
        ensures fits { length result.now ≤ 6 }
    {
        match self {
            Setback::OtherPort
            | Setback::TooMany
            | Setback::WithoutTag
            | Setback::HostName
            | Setback::FewStreams
            | Setback::Unwanted
            | Setback::NoTagLeft
            | Setback::ShuttingDown
            | Setback::WithoutCookie
            | Setback::LongCookie => "inits_",
            Setback::EndedByPeer
            | Setback::Unanswered
            | Setback::BadAnswer
            | Setback::EndedByNode => "tries_",
        }
    }

    /// Its index among all.
    pub(crate) fn place(self) -> usize
        ensures place { result ≡ setback_number self }
        ensures fits { result < SETBACKS }
    {
        match self {
            Setback::OtherPort => 0,
            Setback::TooMany => 1,
            Setback::WithoutTag => 2,
            Setback::HostName => 3,
            Setback::FewStreams => 4,
            Setback::Unwanted => 5,
            Setback::NoTagLeft => 6,
            Setback::ShuttingDown => 7,
            Setback::WithoutCookie => 8,
            Setback::LongCookie => 9,
            Setback::EndedByPeer => 10,
            Setback::Unanswered => 11,
            Setback::BadAnswer => 12,
            Setback::EndedByNode => 13,
        }
    }
}
