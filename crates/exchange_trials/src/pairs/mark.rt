//! How messages carry their marks.

use crate::harness::SCCP_SIO;
use crate::shape::code_of;
use exchange::{Label, Msu, Sls};

/// The service information octet of the ISDN user part in the international network (Q.704 §14.2).
const SIO: u8 = 0x85;

/// Octets of a number, which is at the end of each message.
const NUMBER_OCTETS: usize = 2;

/// What no two messages that a node accepted have in common: their flow, and their number in it. The accepted messages
/// of a flow have the numbers 1, 2, 3 and so on.
#[derive(Clone, Copy, PartialEq, Eq)]
pub(crate) struct Mark {
    /// The flow: the signalling link selection (Q.704 §2.2.4).
    pub flow: u8,
    /// The number.
    pub number: u16,
}

impl Mark {
    /// The mark of a message: its last two octets have the number.
    pub(crate) fn of(message: &Msu) -> Option<Mark> {
        let label = Label::read(message.sif())?;
        let place = message.sif().len().checked_sub(NUMBER_OCTETS)?;
        let number = message.sif().get(place..)?;
        Some(Mark {
            flow: label.sls.number(),
            number: u16::from_be_bytes(*number.first_chunk::<NUMBER_OCTETS>()?),
        })
    }

    /// Its message, from a point to another: two octets after the label have the number.
    pub(crate) fn message(self, from: u16, to: u16) -> Option<Msu> {
        // The point that a message says it comes from isn't checked; on every other flow it is the far one.
        let origin = if self.flow % 2 == 0 { from } else { to };
        let [a, b, c, d] = self.label(origin, to).write();
        let [high, low] = self.number.to_be_bytes();
        Msu::new(SIO, &[a, b, c, d, high, low]).ok()
    }

    /// Its UDT, which a user part hands over for its own point. The called address is by a title whose first digit is
    /// 7, the calling one by subsystem number. It asks for a return on error, and its data is the number (Q.713
    /// §4.10).
    pub(crate) fn unitdata(self, own: u16) -> Option<Msu> {
        let [a, b, c, d] = self.label(own, own).write();
        let [high, low] = self.number.to_be_bytes();
        let sif = [
            a, b, c, d, 0x09, 0x80, 0x03, 0x09, 0x0b, // label, UDT, class 0 with return on error, pointers
            0x06, 0x12, 0x06, 0x00, 0x12, 0x04, 0x07, // called: by the title 70
            0x02, 0x42, 0x08, // calling: subsystem 8
            0x02, high, low, // data
        ];
        Msu::new(SCCP_SIO, &sif).ok()
    }

    fn label(self, from: u16, to: u16) -> Label {
        Label {
            dpc: code_of(to),
            opc: code_of(from),
            sls: Sls::of_low_bits(self.flow as u32),
        }
    }
}
