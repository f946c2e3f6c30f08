//! The fields after the heading of a management message.

ghost use Rattle.std.specs.Prelude.{◌≡◌, Ok};
ghost use Rattle.mtp3_codec.specs.Headings.{changeback_code_in, number_in, number_octets, point_in, point_octets};

use crate::fault::MgmtFault;
use signalling_types::{Number24, PointCode};

/// The number before the fields, low octet first.
pub(crate) fn number_in(fields: &[u8]) -> Result<Number24, MgmtFault>
    ensures { result ≡ number_in fields.now }
{
    let [low, middle, high, ..] = *fields else {
        return Err(MgmtFault::Short);
    };
    Ok(Number24::from_be_bytes([high, middle, low]))
}

/// The three octets of a number, low octet first.
pub(crate) fn number_octets(number: Number24) -> [u8; 3]
    ensures octets { result ≡ number_octets number }
    ensures read_back { number_in result ≡ Ok number }
{
    let [high, middle, low] = number.to_be_bytes();
    [low, middle, high]
}

/// The changeback code before the fields.
pub(crate) fn changeback_code_in(fields: &[u8]) -> Result<u8, MgmtFault>
    ensures { result ≡ changeback_code_in fields.now }
{
    let [code, ..] = *fields else {
        return Err(MgmtFault::Short);
    };
    Ok(code)
}

/// The point code before the fields, low octet first. The two top bits are spare.
pub(crate) fn point_in(fields: &[u8]) -> Result<PointCode, MgmtFault>
    ensures { result ≡ point_in fields.now }
{
    let [low, high, ..] = *fields else {
        return Err(MgmtFault::Short);
    };
    let number = u16::from_le_bytes([low, high]);
    Ok(PointCode::of_low_bits(number.into()))
}

/// The two octets of a point code, low octet first.
pub(crate) fn point_octets(point: PointCode) -> [u8; 2]
    ensures octets { result ≡ point_octets point }
    ensures read_back { point_in result ≡ Ok point }
{
    point.code().to_le_bytes()
}
