//! Why a user part is unavailable.

ghost use Rattle.std.specs.Prelude.{◌≡◌, ◌%◌, ◌/◌, ◌<◌};
ghost use Rattle.mtp3_codec.specs.Headings.{cause_code, cause_of_code, part_octet};

use crate::UserPart;

/// Why a user part is unavailable at a point (Q.704 §15.17.5).
#[derive(Clone, Copy, Debug, PartialEq, Eq)]
pub enum UnavailabilityCause {
    /// It isn't said, or by a code that has no meaning yet.
    Unknown,
    /// The point doesn't have this user part.
    Unequipped,
    /// The point has it, but can't reach it.
    Inaccessible,
}

impl UnavailabilityCause {
    /// The cause of a code.
    fn of_code(code: u8) -> UnavailabilityCause
        ensures { result ≡ cause_of_code code }
    {
        match code {
            1 => UnavailabilityCause::Unequipped,
            2 => UnavailabilityCause::Inaccessible,
            _ => UnavailabilityCause::Unknown,
        }
    }

    /// The code of this cause.
    fn code(self) -> u8
        ensures code { result ≡ cause_code self }
        ensures fits { result < 3 }
    {
        match self {
            UnavailabilityCause::Unknown => 0,
            UnavailabilityCause::Unequipped => 1,
            UnavailabilityCause::Inaccessible => 2,
        }
    }
}

/// The user part and the cause of an octet.
pub(crate) fn part_of_octet(octet: u8) -> (UserPart, UnavailabilityCause)
    ensures part { result.0 ≡ octet % 16 }
    ensures cause { result.1 ≡ cause_of_code (octet / 16) }
{
    (
        UserPart::of_low_half(octet),
        UnavailabilityCause::of_code(octet / 16),
    )
}

/// The octet of a user part and a cause.
pub(crate) fn part_octet(part: UserPart, cause: UnavailabilityCause) -> u8
    ensures octet { result ≡ part_octet part cause }
    ensures part_back { result % 16 ≡ part }
    ensures cause_back { cause_of_code (result / 16) ≡ cause }
{
    part.number() + cause.code() * 16
}
