//! SCCP management messages about a subsystem: what two points tell each other in the data of a UDT
//! between their subsystems 1.

ghost use Rattle.std.specs.Prelude.{◌≡◌, ◌<◌, ◌^◌, ◌≤◌, length, take, IfOk, IfErr, IsOkAnd, Some, Ok};
ghost use Rattle.sccp_codec.specs.Management.{ManagementValue, IsManagement, management_fault, kind_with, management_octets, management_of, read_management, format_of};
ghost use Rattle.sccp_codec.specs.Values.{Gives};

use crate::fault::SccpFault;
use signalling_types::PointCode;

/// The format identifiers (Q.713 §5).
const SUBSYSTEM_ALLOWED: u8 = 1;

const SUBSYSTEM_PROHIBITED: u8 = 2;

const SUBSYSTEM_STATUS_TEST: u8 = 3;

/// Octets of such a message (Q.713 §5).
const MANAGEMENT_OCTETS: usize = 5;

/// What a management message says about a subsystem (Q.713 §5).
#[derive(Clone, Copy, PartialEq, Eq)]
pub enum ManagementKind {
    /// SSA: the subsystem may be sent to again.
    SubsystemAllowed,
    /// SSP: the subsystem can't be sent to.
    SubsystemProhibited,
    /// SST: asks whether the subsystem may be sent to again.
    SubsystemStatusTest,
}

/// A management message about a subsystem (Q.713 §5).
#[derive(Clone, Copy, PartialEq, Eq)]
pub struct SubsystemManagement {
    /// What it says.
    pub kind: ManagementKind,
    /// The affected subsystem (Q.713 §5).
    pub ssn: u8,
    /// The affected point (Q.713 §5).
    pub point: PointCode,
    /// The octet of the subsystem multiplicity indicator, as it came: the indicator in its two low
    /// bits, spare bits above them (Q.713 §5).
    pub multiplicity: u8,
}

impl SubsystemManagement {
    /// The message that the data of a UDT are, or its first fault.
    ///
    /// In this order: Short if there is no octet; Kind if the format identifier is neither of SSA, of
    /// SSP nor of SST; Short under five octets. The two top bits of the point code, and octets after
    /// the fifth, are ignored (Q.713 §5).
    pub fn read(octets: &[u8]) -> Result<SubsystemManagement, SccpFault>
        // What reading gives.
        ensures exact { Gives management_of result (read_management octets.now) }
        // What is read, the octets say.
        ensures value { IfOk result (λ message. IsManagement octets.now (management_of message)) }
        // What the octets say is read.
        ensures only { (v : ManagementValue) → IsManagement octets.now v
            → IsOkAnd result (λ message. management_of message ≡ v) }
        // An error is the first fault.
        ensures fault { IfErr result (λ fault. management_fault octets.now ≡ Some fault) }
    {
        read(octets)
    }

    /// The octets of the message; the two top bits of the point code are 0 (Q.713 §5).
    pub fn write(&self) -> [u8; MANAGEMENT_OCTETS]
        ensures text { result ≡ management_octets 0 (management_of self.now) }
        ensures back { read_management result ≡ Ok (management_of self.now) }
    {
        octets_of(*self)
    }
}

/// The message, or the first fault.
fn read(octets: &[u8]) -> Result<SubsystemManagement, SccpFault>
    ensures { Gives management_of result (read_management octets.now) }
{
    let [format, ..] = *octets else {
        return Err(SccpFault::Short);
    };
    let Some(kind) = kind_of(format) else {
        return Err(SccpFault::Kind);
    };
    let [_, ssn, low, high, multiplicity, ..] = *octets else {
        return Err(SccpFault::Short);
    };
    Ok(SubsystemManagement {
        kind,
        ssn,
        point: PointCode::of_low_bits(u32::from(u16::from_le_bytes([low, high]))),
        multiplicity,
    })
}

/// The kind of this format identifier, if it is one of the three.
fn kind_of(format: u8) -> Option<ManagementKind>
    ensures { result ≡ kind_with format }
{
    match format {
        SUBSYSTEM_ALLOWED => Some(ManagementKind::SubsystemAllowed),
        SUBSYSTEM_PROHIBITED => Some(ManagementKind::SubsystemProhibited),
        SUBSYSTEM_STATUS_TEST => Some(ManagementKind::SubsystemStatusTest),
        _ => None,
    }
}

/// The format identifier of a kind.
fn format_of(kind: ManagementKind) -> u8
    ensures { result ≡ format_of kind }
{
    match kind {
        ManagementKind::SubsystemAllowed => SUBSYSTEM_ALLOWED,
        ManagementKind::SubsystemProhibited => SUBSYSTEM_PROHIBITED,
        ManagementKind::SubsystemStatusTest => SUBSYSTEM_STATUS_TEST,
    }
}

/// The octets of the message.
fn octets_of(message: SubsystemManagement) -> [u8; MANAGEMENT_OCTETS]
    ensures text { result ≡ management_octets 0 (management_of message) }
    ensures point { (management_of message).point < 2 ^ 14 }
{
    let [low, high] = message.point.code().to_le_bytes();
    [
        format_of(message.kind),
        message.ssn,
        low,
        high,
        message.multiplicity,
    ]
}
