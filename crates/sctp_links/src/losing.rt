//! Why an association went down, in the words of the log.

ghost use Rattle.std.specs.Prelude.{◌≡◌};
ghost use Rattle.sctp_links.specs.Losses.{word_of};

use sctp_rules::Loss;

/// The word of the log for why an association went down.
pub fn word_of(why: Loss) -> &'static str
    ensures { result.now ≡ word_of why }
{
    match why {
        Loss::Aborted | Loss::Shutdown | Loss::Refused => "peer",
        Loss::Restart => "restart",
        Loss::NoAnswer | Loss::StaleCookie => "silence",
        Loss::Protocol | Loss::BadInitAck => "framing",
        Loss::Local | Loss::NoTag => "node",
    }
}
