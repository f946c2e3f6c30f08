//! What other points say of their subsystems.

ghost use Rattle.std.specs.Prelude.{◌≡◌};
ghost use Rattle.sccp_codec.specs.Management.{management_of, read_management};
ghost use Rattle.sccp_relay.specs.Relay as rule;
ghost use Rattle.sccp_relay.specs.Values.{own_value, sccp_of};

use crate::answering::is_management;
use crate::message::Message;
use crate::own::{Own, Ways};
use crate::subsystem::{Subsystem, SubsystemNews};
use sccp_codec::{ManagementKind, SubsystemManagement, Unitdata};
use signalling_types::PointCode;

/// What a message for this subsystem here says of a subsystem at another point, if it says that: a UDT for SCCP
/// management with an SSP or an SSA, from another point, where these are heard (Q.714 §5.3.2, §5.3.3).
pub(crate) fn news<W: Ways>(
    message: &Message<'_>,
    ssn: Option<u8>,
    sender: PointCode,
    own: &Own<'_, W>,
) -> Option<SubsystemNews>
    ensures { result ≡ rule.news (own_value W.leads own.now) sender (sccp_of message.now) ssn }
{
    let Message::Plain(Unitdata::Udt(udt)) = message else {
        return None;
    };
    if own.hears_statuses && is_management(ssn) {
        news_in(udt.parts.data, sender, own)
    } else {
        None
    }
}

/// What these data of a UDT for SCCP management say.
fn news_in<W: Ways>(carried: &[u8], sender: PointCode, own: &Own<'_, W>) -> Option<SubsystemNews>
    ensures { result ≡ rule.news_in (own_value W.leads own.now) sender (read_management carried.now) }
{
    match SubsystemManagement::read(carried) {
        Ok(about) if is_status(about.kind) && sender != own.point => Some(news_from(
            sender, &about,
        )),
        _ => None,
    }
}

fn is_status(kind: ManagementKind) -> bool
    ensures { result ≡ rule.is_status kind }
{
    match kind {
        ManagementKind::SubsystemAllowed | ManagementKind::SubsystemProhibited => true,
        ManagementKind::SubsystemStatusTest => false,
    }
}

fn prohibits(kind: ManagementKind) -> bool
    ensures { result ≡ rule.prohibits kind }
{
    match kind {
        ManagementKind::SubsystemAllowed | ManagementKind::SubsystemStatusTest => false,
        ManagementKind::SubsystemProhibited => true,
    }
}

/// What an SSP or an SSA says, and who says it.
fn news_from(sender: PointCode, about: &SubsystemManagement) -> SubsystemNews
    ensures { result ≡ rule.news_from sender (management_of about.now) }
{
    SubsystemNews {
        sender,
        subsystem: Subsystem {
            point: about.point,
            ssn: about.ssn,
        },
        is_prohibited: prohibits(about.kind),
    }
}
