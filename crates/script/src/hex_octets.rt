//! Octets as a script writes them: in hexadecimal digits.

ghost use Rattle.std.specs.Prelude.{◌≡◌, ◌<◌, ◌≤◌, ◌/◌, ◌*◌, ◌↔◌, length, take, true, IsTrue, IsSome, IfSome};
ghost use Rattle.hex.specs.Hex.{is_hex_digit};
ghost use Rattle.std.specs.List.{AllPass};
ghost use Rattle.script.specs.Lines.{is_octets, octets_of};

use settings::Limits;

/// The text of one to 4,096 octets: two digits for each, in either case.
#[derive(Clone, Copy)]
pub struct HexOctets<'a> {
    /// The digits.
    pub digits: &'a [u8],
    pub ghost whole: { is_octets digits.now ≡ true },
}

impl<'a> HexOctets<'a> {
    /// The text, if it is one of octets.
    pub fn read(text: &'a [u8]) -> Option<HexOctets<'a>>
        ensures found { IsSome result ↔ IsTrue (is_octets text.now) }
        ensures value { IfSome result (λ hex. hex.digits.now ≡ text.now) }
    {
        if is_octets(text) {
            Some(HexOctets { digits: text })
        } else {
            None
        }
    }

    /// Writes the octets to the front of the buffer, and returns how many.
    pub fn decode(self, buffer: &mut [u8; Limits::FRAME_OCTETS]) -> usize
        ensures above { 1 ≤ result }
        ensures below { result ≤ Limits.FRAME_OCTETS }
        ensures octets { take result buffer.new ≡ octets_of self.entry.digits.now }
    {
        let count = self.digits.len() / 2;
        decode_whole(self.digits, &mut buffer[..count]);
        count
    }
}

/// Writes the octets over the slice, which has exactly their length.
#[tactic(auto, using(crate::proofs::Octets::octets_steps))]
fn decode_whole(digits: &[u8], octets: &mut [u8])
    requires whole { is_octets digits.now ≡ true }
    requires room { length digits.now ≡ 2 * length octets.old }
    ensures { octets.new ≡ octets_of digits.now }
{
    let _whole = hex::decode_to_slice(digits, octets);
}

fn is_octets(text: &[u8]) -> bool
    ensures { result ≡ is_octets text.now }
{
    let length = text.len();
    if length % 2 != 0 || length < 2 || length > 2 * Limits::FRAME_OCTETS {
        return false;
    }
    are_hex_digits(text)
}

/// Whether all octets of the text are hexadecimal digits.
fn are_hex_digits(text: &[u8]) -> bool
    ensures { IsTrue result ↔ AllPass is_hex_digit text.now }
{
    text.iter().all(|digit| digit.is_ascii_hexdigit())
}
