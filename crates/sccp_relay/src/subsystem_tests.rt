//! Tests of the subsystems at other points that are prohibited.

ghost use Rattle.std.specs.Prelude.{◌≡◌, ◌≤◌, take};
ghost use Rattle.sccp_relay.specs.SubsystemTests.{test_field, test_selection};

use crate::answering::write_said;
use crate::subsystem::Subsystem;
use mtp3_codec::Label;
use sccp_codec::{Field, ManagementKind, SubsystemManagement};
use signalling_types::{Limits, PointCode, Sls};

/// The link selection of a test.
pub(crate) fn test_selection() -> Sls
    ensures { result ≡ test_selection }
{
    Sls::of_low_bits(0)
}

/// Writes the signalling information field of a test of a subsystem at the front of the field that is lent, and returns
/// how many octets it has: an SST about the subsystem in a UDT of class 0, from SCCP management of this point to that
/// of its own (Q.713 §5, Q.714 §5.3.4).
pub fn write_test(own: PointCode, subsystem: &Subsystem, field: &mut Field) -> usize
    ensures text { take result field.new ≡ test_field own subsystem.now }
    ensures label { 4 ≤ result }
    ensures fits { result ≤ Limits.SIF_OCTETS }
{
    let test = SubsystemManagement {
        kind: ManagementKind::SubsystemStatusTest,
        ssn: subsystem.ssn,
        point: subsystem.point,
        multiplicity: 0,
    };
    let label = Label {
        dpc: subsystem.point,
        opc: own,
        sls: test_selection(),
    };
    let Some(count) = write_said(subsystem.point, own, label, &test, field) else {
        unreachable!()
    };
    count
}
