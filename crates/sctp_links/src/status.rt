//! How the associations of links do.

ghost use Rattle.std.specs.Prelude.{◌≡◌};
ghost use Rattle.sctp_links.specs.Links.{status_among, status_at};

use crate::calling::SctpLink;
use crate::links::SctpLinks;
use sctp_gate::Gate;
use served_link::AssociationStatus;
use settings::LinkId;

impl SctpLinks {
    /// How the association of a link does. None if the link isn't over SCTP, or if its association isn't up.
    pub fn status(&self, link: LinkId) -> Option<AssociationStatus>
        ensures { result ≡ status_among link self.now.links }
    {
        status_among(&self.links, link)
    }
}

/// How the association of the link does that is this one of these.
fn status_among(links: &[SctpLink], link: LinkId) -> Option<AssociationStatus>
    ensures { result ≡ status_among link links.now }
{
    for one in links {
        if one.gate.link().index() == link.index() {
            return status_at(&one.gate);
        }
    }
    None
}

/// How the association of a gate does, while it is up.
fn status_at(gate: &Gate) -> Option<AssociationStatus>
    ensures { result ≡ status_at gate.now }
{
    if !gate.standing().is_up {
        return None;
    }
    Some(AssociationStatus {
        round_trip_ms: gate.smoothed_round_trip(),
        timeout_ms: gate.retransmission_timeout(),
        congestion_window: gate.congestion_window(),
    })
}
