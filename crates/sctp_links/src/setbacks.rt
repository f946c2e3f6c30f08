//! What keeps an association from opening, as it is counted.

ghost use Rattle.std.specs.Prelude.{◌≡◌};
ghost use Rattle.std.specs.Option.{option_map};
ghost use Rattle.sctp_links.specs.Setbacks.{failed_by, setback_by};

use sctp_endpoint::Refusal;
use sctp_rules::Loss;
use served_link::Setback;

/// Why an INIT or an INIT ACK is refused, if it is.
pub fn setback_for(refusal: Option<Refusal>) -> Option<Setback>
    ensures { result ≡ option_map setback_by refusal }
{
    match refusal {
        Some(refusal) => Some(setback_by(refusal)),
        None => None,
    }
}

/// Why an INIT or an INIT ACK was refused.
pub fn setback_by(refusal: Refusal) -> Setback
    ensures { result ≡ setback_by refusal }
{
    match refusal {
        Refusal::WithoutTag => Setback::WithoutTag,
        Refusal::HostName => Setback::HostName,
        Refusal::FewStreams => Setback::FewStreams,
        Refusal::Unwanted => Setback::Unwanted,
        Refusal::NoTagLeft => Setback::NoTagLeft,
        Refusal::ShuttingDown => Setback::ShuttingDown,
        Refusal::WithoutCookie => Setback::WithoutCookie,
        Refusal::LongCookie => Setback::LongCookie,
    }
}

/// Why a try failed. None if its link no longer wanted it.
pub fn failed_by(why: Loss) -> Option<Setback>
    ensures { result ≡ failed_by why }
{
    match why {
        Loss::Local => None,
        Loss::Aborted | Loss::Shutdown | Loss::Refused => Some(Setback::EndedByPeer),
        Loss::Restart | Loss::NoAnswer | Loss::StaleCookie => Some(Setback::Unanswered),
        Loss::Protocol | Loss::BadInitAck => Some(Setback::BadAnswer),
        Loss::NoTag => Some(Setback::EndedByNode),
    }
}
