//! Management messages.

ghost use Rattle.std.specs.Prelude.{◌≡◌, ◌≤◌, ◌<◌, ◌^◌, ℕ, Ok, Some, length, take};
ghost use Rattle.mtp3_codec.specs.Headings.{label_in, management_heading};
ghost use Rattle.mtp3_codec.specs.Management.{link_code_of, management_octets, message_of, read_management, unavailable_in, IsManagement};
ghost use Rattle.mtp3_codec.specs.declared.management.Management.{Management};

use crate::fault::MgmtFault;
use crate::fields::{changeback_code_in, number_in, number_octets, point_in, point_octets};
use crate::unavailability::{UnavailabilityCause, part_octet, part_of_octet};
use crate::writing::write_at;
use crate::{Label, UserPart};
use signalling_types::{Number24, PointCode, Sls};

/// Octets of a management message, at most: label, heading, and the longest fields.
pub const MANAGEMENT_OCTETS: usize = 8;

/// Headings: the group H0 in the low half, the message H1 in the high half (Q.704 §15.3, Q.2210 §10).
const EXTENDED_CHANGEOVER_ORDER: u8 = 0x31;

const EXTENDED_CHANGEOVER_ACKNOWLEDGEMENT: u8 = 0x41;

const CHANGEBACK_DECLARATION: u8 = 0x51;

const CHANGEBACK_ACKNOWLEDGEMENT: u8 = 0x61;

const EMERGENCY_CHANGEOVER_ORDER: u8 = 0x12;

const EMERGENCY_CHANGEOVER_ACKNOWLEDGEMENT: u8 = 0x22;

const TRANSFER_PROHIBITED: u8 = 0x14;

const TRANSFER_RESTRICTED: u8 = 0x34;

const TRANSFER_ALLOWED: u8 = 0x54;

const ROUTE_SET_TEST_PROHIBITED: u8 = 0x15;

const ROUTE_SET_TEST_RESTRICTED: u8 = 0x25;

const TRAFFIC_RESTART_ALLOWED: u8 = 0x17;

const USER_PART_UNAVAILABLE: u8 = 0x1a;

/// A management message: a message of service indicator 0 (Q.704 §15). A signalling link code names a link of the set
/// between the two points; a point code names the destination that the message is about.
#[derive(Clone, Copy, Debug, PartialEq, Eq)]
pub enum Management {
    /// XCO: the link of this code has failed, and this is the number of the last message that the sender accepted on it
    /// (Q.2210 §9.8).
    ExtendedChangeoverOrder(Sls, Number24),
    /// XCA: answers XCO or ECO, with the number of the last message that the sender accepted on the link (Q.2210 §9.8).
    ExtendedChangeoverAcknowledgement(Sls, Number24),
    /// CBD: the flows that return to the link of this code go by it once this message is answered. The changeback code
    /// tells its answer from others (Q.704 §6.3, §15.5).
    ChangebackDeclaration(Sls, u8),
    /// CBA: answers CBD, with its link code and its changeback code (Q.704 §6.3, §15.5).
    ChangebackAcknowledgement(Sls, u8),
    /// ECO: the link of this code has failed, and the sender can't tell what it accepted (Q.704 §5.6, §15.6).
    EmergencyChangeoverOrder(Sls),
    /// ECA: answers XCO or ECO; the sender can't tell what it accepted (Q.704 §5.6, §15.6).
    EmergencyChangeoverAcknowledgement(Sls),
    /// TFP: the receiver must send nothing more for this point by way of the sender (Q.704 §13.2, §15.7).
    TransferProhibited(PointCode),
    /// TFR: the receiver should send for this point by another way, if it has one (Q.704 §13.4, §15.9).
    TransferRestricted(PointCode),
    /// TFA: the receiver may send for this point by way of the sender again (Q.704 §13.3, §15.8).
    TransferAllowed(PointCode),
    /// RST: asks whether this point is still prohibited by way of the receiver (Q.704 §13.5, §15.10).
    RouteSetTestProhibited(PointCode),
    /// RSR: asks whether this point is still restricted by way of the receiver (Q.704 §13.5, §15.10).
    RouteSetTestRestricted(PointCode),
    /// TRA: the adjacent point has restarted (Q.704 §9, §15.12).
    TrafficRestartAllowed,
    /// UPU: this point has no such user part for the receiver's messages, and why (Q.704 §11.2.7, §15.17).
    UserPartUnavailable(PointCode, UserPart, UnavailabilityCause),
}

impl Management {
    /// The message of a signalling information field.
    ///
    /// Short if there is no heading after the label; otherwise NotInProfile if the node leaves out messages of this
    /// heading; otherwise Short if too few octets follow: a number has three, a point code two, a changeback code one,
    /// and a user part with its cause one. What follows the fields of a message is ignored, and so are the two top bits
    /// of a point code and the label's selection in a message without a link code. A spare cause is unknown.
    pub fn read(sif: &[u8]) -> Result<Management, MgmtFault>
        ensures { result ≡ read_management sif.now }
    {
        let Some(label) = Label::read(sif) else {
            return Err(MgmtFault::Short);
        };
        let [_, _, _, _, heading, ref fields @ ..] = *sif else {
            return Err(MgmtFault::Short);
        };
        Management::of_heading(heading, label.sls, fields)
    }

    /// The message of a heading, of the link code in the label, and of the fields after the heading.
    fn of_heading(heading: u8, slc: Sls, fields: &[u8]) -> Result<Management, MgmtFault>
        ensures { result ≡ message_of heading slc fields.now }
    {
        match heading {
            EXTENDED_CHANGEOVER_ORDER => {
                Ok(Management::ExtendedChangeoverOrder(slc, number_in(fields)?))
            }
            EXTENDED_CHANGEOVER_ACKNOWLEDGEMENT => {
                Ok(Management::ExtendedChangeoverAcknowledgement(slc, number_in(fields)?))
            }
            CHANGEBACK_DECLARATION => {
                Ok(Management::ChangebackDeclaration(slc, changeback_code_in(fields)?))
            }
            CHANGEBACK_ACKNOWLEDGEMENT => {
                Ok(Management::ChangebackAcknowledgement(slc, changeback_code_in(fields)?))
            }
            EMERGENCY_CHANGEOVER_ORDER => Ok(Management::EmergencyChangeoverOrder(slc)),
            EMERGENCY_CHANGEOVER_ACKNOWLEDGEMENT => {
                Ok(Management::EmergencyChangeoverAcknowledgement(slc))
            }
            TRANSFER_PROHIBITED => Ok(Management::TransferProhibited(point_in(fields)?)),
            TRANSFER_RESTRICTED => Ok(Management::TransferRestricted(point_in(fields)?)),
            TRANSFER_ALLOWED => Ok(Management::TransferAllowed(point_in(fields)?)),
            ROUTE_SET_TEST_PROHIBITED => Ok(Management::RouteSetTestProhibited(point_in(fields)?)),
            ROUTE_SET_TEST_RESTRICTED => Ok(Management::RouteSetTestRestricted(point_in(fields)?)),
            TRAFFIC_RESTART_ALLOWED => Ok(Management::TrafficRestartAllowed),
            USER_PART_UNAVAILABLE => unavailable_in(fields),
            _ => Err(MgmtFault::NotInProfile),
        }
    }

    /// Writes this message at the front of a buffer, from the point `opc` to the point `dpc`, and returns how many
    /// octets it has. What is written is read back.
    pub fn write(&self, dpc: PointCode, opc: PointCode, out: &mut [u8; MANAGEMENT_OCTETS]) -> usize
        ensures count { result ≡ length (management_octets dpc opc self.now) }
        ensures text { take result out.new ≡ management_octets dpc opc self.now }
        ensures read_back { read_management (take result out.new) ≡ Ok self.now }
    {
        let label = Label {
            dpc,
            opc,
            sls: self.link_code(),
        };
        let at = write_at(out, 0, &label.write());
        let at = write_at(out, at, &[self.heading()]);
        match self {
            Management::ExtendedChangeoverOrder(_, number)
            | Management::ExtendedChangeoverAcknowledgement(_, number) => {
                write_at(out, at, &number_octets(*number))
            }
            Management::ChangebackDeclaration(_, code)
            | Management::ChangebackAcknowledgement(_, code) => write_at(out, at, &[*code]),
            Management::TransferProhibited(point)
            | Management::TransferRestricted(point)
            | Management::TransferAllowed(point)
            | Management::RouteSetTestProhibited(point)
            | Management::RouteSetTestRestricted(point) => write_at(out, at, &point_octets(*point)),
            Management::UserPartUnavailable(point, part, cause) => {
                let at = write_at(out, at, &point_octets(*point));
                write_at(out, at, &[part_octet(*part, *cause)])
            }
            Management::EmergencyChangeoverOrder(_)
            | Management::EmergencyChangeoverAcknowledgement(_)
            | Management::TrafficRestartAllowed => at,
        }
    }

    /// The heading of this message.
    fn heading(&self) -> u8
        ensures { result ≡ management_heading self.now }
    {
        match self {
            Management::ExtendedChangeoverOrder(_, _) => EXTENDED_CHANGEOVER_ORDER,
            Management::ExtendedChangeoverAcknowledgement(_, _) => {
                EXTENDED_CHANGEOVER_ACKNOWLEDGEMENT
            }
            Management::ChangebackDeclaration(_, _) => CHANGEBACK_DECLARATION,
            Management::ChangebackAcknowledgement(_, _) => CHANGEBACK_ACKNOWLEDGEMENT,
            Management::EmergencyChangeoverOrder(_) => EMERGENCY_CHANGEOVER_ORDER,
            Management::EmergencyChangeoverAcknowledgement(_) => {
                EMERGENCY_CHANGEOVER_ACKNOWLEDGEMENT
            }
            Management::TransferProhibited(_) => TRANSFER_PROHIBITED,
            Management::TransferRestricted(_) => TRANSFER_RESTRICTED,
            Management::TransferAllowed(_) => TRANSFER_ALLOWED,
            Management::RouteSetTestProhibited(_) => ROUTE_SET_TEST_PROHIBITED,
            Management::RouteSetTestRestricted(_) => ROUTE_SET_TEST_RESTRICTED,
            Management::TrafficRestartAllowed => TRAFFIC_RESTART_ALLOWED,
            Management::UserPartUnavailable(_, _, _) => USER_PART_UNAVAILABLE,
        }
    }

    /// What is in the label's place of the selection: the link code of a message that has one, else 0.
    fn link_code(&self) -> Sls
        ensures { result ≡ link_code_of self.now }
    {
        match self {
            Management::ExtendedChangeoverOrder(slc, _)
            | Management::ExtendedChangeoverAcknowledgement(slc, _)
            | Management::ChangebackDeclaration(slc, _)
            | Management::ChangebackAcknowledgement(slc, _)
            | Management::EmergencyChangeoverOrder(slc)
            | Management::EmergencyChangeoverAcknowledgement(slc) => *slc,
            Management::TransferProhibited(_)
            | Management::TransferRestricted(_)
            | Management::TransferAllowed(_)
            | Management::RouteSetTestProhibited(_)
            | Management::RouteSetTestRestricted(_)
            | Management::TrafficRestartAllowed
            | Management::UserPartUnavailable(_, _, _) => no_link_code(),
        }
    }
}

/// The user part unavailable of the fields after its heading.
fn unavailable_in(fields: &[u8]) -> Result<Management, MgmtFault>
    ensures { result ≡ unavailable_in fields.now }
{
    let [low, high, octet, ..] = *fields else {
        return Err(MgmtFault::Short);
    };
    let (part, cause) = part_of_octet(octet);
    let point = point_in(&[low, high])?;
    Ok(Management::UserPartUnavailable(point, part, cause))
}

/// What is in the place of a link code in a message that has none.
fn no_link_code() -> Sls
    ensures { result ≡ 0 }
{
    Sls::of_low_bits(0)
}

/// Every message within its ranges, written from one point to another, is read back, and so is its label. It has eight
/// octets at most.
pub fn every_message_reads_back()
    ensures label { (dpc opc : ℕ) (message : Management) → dpc < 2 ^ 14 → opc < 2 ^ 14 → IsManagement message →
        label_in (management_octets dpc opc message)
        ≡ Some (record { dpc = dpc; opc = opc; sls = link_code_of message }) }
    ensures message { (dpc opc : ℕ) (message : Management) → dpc < 2 ^ 14 → opc < 2 ^ 14 → IsManagement message →
        read_management (management_octets dpc opc message) ≡ Ok message }
    ensures fits { (dpc opc : ℕ) (message : Management) →
        length (management_octets dpc opc message) ≤ MANAGEMENT_OCTETS }
{}
