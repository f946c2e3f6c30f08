//! The routing label of a message.

ghost use Rattle.std.specs.Prelude.{◌≡◌, ℕ, ◌<◌, ◌++◌, List, All};
ghost use Rattle.signalling_types.specs.Message.{label_number};
ghost use Rattle.mtp3_codec.specs.Headings.{IsLabel, label_at, label_in, label_octets, number_of_label};
ghost use Rattle.mtp3_codec.specs.declared.label.Label.{Label};

use signalling_types::{PointCode, Sls};

/// The first four octets of a message's signalling information field (Q.704 §2.2).
#[derive(Clone, Copy, Debug, PartialEq, Eq, Hash)]
pub struct Label {
    /// Where the message goes.
    pub dpc: PointCode,
    /// Where the message comes from.
    pub opc: PointCode,
    /// How it chooses its link.
    pub sls: Sls,
}

impl Label {
    /// The label of a signalling information field. None if the field has fewer than four octets.
    pub fn read(sif: &[u8]) -> Option<Label>
        ensures { result ≡ label_in sif.now }
    {
        Some(Label::of_octets(*sif.first_chunk::<4>()?))
    }

    /// The label at the front of a signalling information field; octets that are missing count as 0.
    pub fn at(sif: &[u8]) -> Label
        ensures { result ≡ label_at sif.now }
    {
        Label::of_octets(first_octets(sif))
    }

    /// The label of its four octets, low octet first.
    pub fn of_octets(octets: [u8; 4]) -> Label
        ensures { result ≡ label_at octets }
    {
        let number = u32::from_le_bytes(octets);
        Label {
            dpc: PointCode::of_low_bits(number),
            opc: PointCode::of_low_bits(number >> 14),
            sls: Sls::of_low_bits(number >> 28),
        }
    }

    /// The label's four octets, low octet first.
    pub fn write(self) -> [u8; 4]
        ensures octets { result ≡ label_octets self }
        ensures number { label_number result ≡ number_of_label self }
        ensures read_back { label_in result ≡ Some self }
    {
        let number = self.dpc.code() as u32
            + ((self.opc.code() as u32) << 14)
            + ((self.sls.number() as u32) << 28);
        number.to_le_bytes()
    }
}

/// The first four octets of a field; those that are missing are 0.
fn first_octets(sif: &[u8]) -> [u8; 4]
    ensures { label_number result ≡ label_number sif.now }
{
    match *sif {
        [first, second, third, fourth, ..] => [first, second, third, fourth],
        [first, second, third] => [first, second, third, 0],
        [first, second] => [first, second, 0, 0],
        [first] => [first, 0, 0, 0],
        [] => [0; 4],
    }
}

/// Every label, written, is one number low octet first, and is read back whatever octets follow it.
pub fn every_label_reads_back()
    ensures octets { (label : Label) → All (λ octet. octet < 256) (label_octets label) }
    ensures number { (label : Label) → IsLabel label → label_number (label_octets label) ≡ number_of_label label }
    ensures read_back { (label : Label) (rest : List ℕ) →
        IsLabel label → label_in (label_octets label ++ rest) ≡ Some label }
{}
