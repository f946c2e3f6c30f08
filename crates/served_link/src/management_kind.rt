//! The kinds of management messages and link tests.

ghost use Rattle.std.specs.Prelude.{◌≡◌, ◌<◌, ◌≤◌, length};
ghost use Rattle.signalling_types.specs.Message.{lent};
ghost use Rattle.served_link.specs.Kinds.{kind_name, kind_number, kind_of_heading, management_kind, test_of_heading};

use signalling_types::MsuRef;

/// Where the heading of a message is, H0 and H1: behind its label (Q.704 §15.3).
const HEADING_PLACE: usize = 4;

/// How many kinds there are.
pub const MANAGEMENT_KINDS: usize = 18;

/// A kind of management message or link test that is counted by itself (Q.704 §15, Q.707 §5).
#[derive(Clone, Copy)]
pub enum ManagementKind {
    /// A changeover order: COO.
    ChangeoverOrder,
    /// A changeover acknowledgement: COA.
    ChangeoverAcknowledgement,
    /// An extended changeover order: XCO.
    ExtendedChangeoverOrder,
    /// An extended changeover acknowledgement: XCA.
    ExtendedChangeoverAcknowledgement,
    /// A changeback declaration: CBD.
    ChangebackDeclaration,
    /// A changeback acknowledgement: CBA.
    ChangebackAcknowledgement,
    /// An emergency changeover order: ECO.
    EmergencyChangeoverOrder,
    /// An emergency changeover acknowledgement: ECA.
    EmergencyChangeoverAcknowledgement,
    /// Transfer controlled: TFC.
    TransferControlled,
    /// Transfer prohibited: TFP.
    TransferProhibited,
    /// Transfer restricted: TFR.
    TransferRestricted,
    /// Transfer allowed: TFA.
    TransferAllowed,
    /// A test of a prohibited route set: RST.
    RouteSetTestProhibited,
    /// A test of a restricted route set: RSR.
    RouteSetTestRestricted,
    /// Traffic restart allowed: TRA.
    TrafficRestartAllowed,
    /// User part unavailable: UPU.
    UserPartUnavailable,
    /// A link test: SLTM.
    LinkTest,
    /// The acknowledgement of a link test: SLTA.
    LinkTestAcknowledgement,
}

impl ManagementKind {
    /// The kind of a message. None if it is a user's, or of none of these kinds.
    pub fn of(message: MsuRef<'_>) -> Option<ManagementKind>
        ensures { result ≡ management_kind (lent message.entry) }
    {
        let heading = *message.sif.get(HEADING_PLACE)?;
        match message.service_indicator() {
            0 => ManagementKind::of_heading(heading),
            1 => ManagementKind::of_test(heading),
            _ => None,
        }
    }

    /// The kind of a management message with this heading.
    fn of_heading(heading: u8) -> Option<ManagementKind>
        ensures { result ≡ kind_of_heading heading }
    {
        match heading {
            0x11 => Some(ManagementKind::ChangeoverOrder),
            0x21 => Some(ManagementKind::ChangeoverAcknowledgement),
            0x31 => Some(ManagementKind::ExtendedChangeoverOrder),
            0x41 => Some(ManagementKind::ExtendedChangeoverAcknowledgement),
            0x51 => Some(ManagementKind::ChangebackDeclaration),
            0x61 => Some(ManagementKind::ChangebackAcknowledgement),
            0x12 => Some(ManagementKind::EmergencyChangeoverOrder),
            0x22 => Some(ManagementKind::EmergencyChangeoverAcknowledgement),
            0x23 => Some(ManagementKind::TransferControlled),
            0x14 => Some(ManagementKind::TransferProhibited),
            0x34 => Some(ManagementKind::TransferRestricted),
            0x54 => Some(ManagementKind::TransferAllowed),
            0x15 => Some(ManagementKind::RouteSetTestProhibited),
            0x25 => Some(ManagementKind::RouteSetTestRestricted),
            0x17 => Some(ManagementKind::TrafficRestartAllowed),
            0x1a => Some(ManagementKind::UserPartUnavailable),
            _ => None,
        }
    }

    /// The kind of a link test with this heading.
    fn of_test(heading: u8) -> Option<ManagementKind>
        ensures { result ≡ test_of_heading heading }
    {
        match heading {
            0x11 => Some(ManagementKind::LinkTest),
            0x21 => Some(ManagementKind::LinkTestAcknowledgement),
            _ => None,
        }
    }

    /// What the standards call it in short.
    pub fn name(self) -> &'static str
        ensures name { result.now ≡ kind_name self }
        ensures fits { length result.now ≤ 4 }
    {
        match self {
            ManagementKind::ChangeoverOrder => "COO",
            ManagementKind::ChangeoverAcknowledgement => "COA",
            ManagementKind::ExtendedChangeoverOrder => "XCO",
            ManagementKind::ExtendedChangeoverAcknowledgement => "XCA",
            ManagementKind::ChangebackDeclaration => "CBD",
            ManagementKind::ChangebackAcknowledgement => "CBA",
            ManagementKind::EmergencyChangeoverOrder => "ECO",
            ManagementKind::EmergencyChangeoverAcknowledgement => "ECA",
            ManagementKind::TransferControlled => "TFC",
            ManagementKind::TransferProhibited => "TFP",
            ManagementKind::TransferRestricted => "TFR",
            ManagementKind::TransferAllowed => "TFA",
            ManagementKind::RouteSetTestProhibited => "RST",
            ManagementKind::RouteSetTestRestricted => "RSR",
            ManagementKind::TrafficRestartAllowed => "TRA",
            ManagementKind::UserPartUnavailable => "UPU",
            ManagementKind::LinkTest => "SLTM",
            ManagementKind::LinkTestAcknowledgement => "SLTA",
        }
    }

    /// Its index among all.
    pub(crate) fn place(self) -> usize
        ensures place { result ≡ kind_number self }
        ensures fits { result < MANAGEMENT_KINDS }
    {
        match self {
            ManagementKind::ChangeoverOrder => 0,
            ManagementKind::ChangeoverAcknowledgement => 1,
            ManagementKind::ExtendedChangeoverOrder => 2,
            ManagementKind::ExtendedChangeoverAcknowledgement => 3,
            ManagementKind::ChangebackDeclaration => 4,
            ManagementKind::ChangebackAcknowledgement => 5,
            ManagementKind::EmergencyChangeoverOrder => 6,
            ManagementKind::EmergencyChangeoverAcknowledgement => 7,
            ManagementKind::TransferControlled => 8,
            ManagementKind::TransferProhibited => 9,
            ManagementKind::TransferRestricted => 10,
            ManagementKind::TransferAllowed => 11,
            ManagementKind::RouteSetTestProhibited => 12,
            ManagementKind::RouteSetTestRestricted => 13,
            ManagementKind::TrafficRestartAllowed => 14,
            ManagementKind::UserPartUnavailable => 15,
            ManagementKind::LinkTest => 16,
            ManagementKind::LinkTestAcknowledgement => 17,
        }
    }
}
