//! The optional part of an extended message.

ghost use Rattle.std.specs.Prelude.{◌≡◌, ◌≤◌, ◌<◌, ◌==◌, ◌^◌, ◌++◌, ◌+◌, [], ◌∷◌, length, slice_index, IsTrue, MatchOption, true, false};
ghost use Rattle.sccp_codec.specs.Extended.{AreParameters, is_there, first_parameter, after_first, begins_whole, has_its_length, read_parameters, read_optional, first_named, parameters_octets, optional_octets, is_parameter};
ghost use Rattle.std.specs.List.{list_all};
ghost use Rattle.sccp_codec.specs.Optional.{OptionallyGives, extent};

/// The name that ends the optional part (Q.713 §3.1).
pub(crate) const END: u8 = 0;

/// The name of segmentation, and its octets (Q.713 §3.17).
const SEGMENTATION: u8 = 0x10;

const SEGMENTATION_OCTETS: u8 = 4;

/// The name of importance, and its octets (Q.713 §3.19).
const IMPORTANCE: u8 = 0x12;

const IMPORTANCE_OCTETS: u8 = 1;

/// Optional parameters, one after another, as they came: each is a name, a length and as many octets
/// (Q.713 §1.6). None is named 0, segmentation has four octets, and importance has one.
#[derive(Clone, Copy)]
pub struct OptionalPart<'a> {
    octets: &'a [u8],
    ghost whole: { AreParameters octets.now },
}

impl<'a> OptionalPart<'a> {
    ghost use Rattle.sccp_codec.specs.ExtendedValues.{parameters_of};

    /// No parameters.
    pub fn none() -> OptionalPart<'a>
        ensures { parameters_of result ≡ [] }
    {
        OptionalPart { octets: &[] }
    }

    /// The octets of the parameters, one after another, without the octet 0 after them.
    pub fn octets(&self) -> &'a [u8]
        ensures octets { result.now ≡ parameters_octets (parameters_of self.now) }
        ensures legal { list_all is_parameter (parameters_of self.now) ≡ true }
    {
        self.octets
    }

    /// Whether there are no parameters.
    pub fn is_empty(&self) -> bool
        ensures { result ≡ (length (parameters_of self.now) == 0) }
    {
        self.octets.is_empty()
    }

    /// The octets of the first parameter of this name. None if there is none. It takes a step for each
    /// parameter before it.
    pub fn parameter(&self, name: u8) -> Option<&'a [u8]>
        ensures { OptionallyGives (λ octets. octets.now) result (first_named name (parameters_of self.now)) }
    {
        let mut rest = self.octets;
        'each_parameter: while let Some((this, own, after)) = first(rest) {
            if this == name {
                return Some(own);
            }
            rest = after;
        }
        None
    }

    /// Octets of the optional part: those of the parameters, and the octet 0 after them, if there are
    /// any.
    pub(crate) fn octets_with_end(&self) -> usize
        ensures value { result ≡ length (optional_octets (parameters_of self.now)) }
        ensures fits { result ≤ 2 ^ 63 }
    {
        if self.is_empty() {
            0
        } else {
            self.octets.len() + 1
        }
    }

    /// The parameters at the front of these octets, before the octet 0 that ends them. None if they
    /// don't end, or one of them isn't whole, or has another length than its name.
    pub fn read(octets: &'a [u8]) -> Option<OptionalPart<'a>>
        ensures { OptionallyGives parameters_of result (read_parameters octets.now) }
    {
        let end = end_of_parameters(octets)?;
        Some(OptionalPart {
            octets: &octets[..end],
        })
    }

    /// The optional part of a message that the pointer at this octet names: nothing if the pointer is 0.
    /// None if it names no optional part.
    pub(crate) fn named(octets: &'a [u8], pointer: usize) -> Option<OptionalPart<'a>>
        requires { pointer < length octets.now }
        ensures { OptionallyGives parameters_of result (read_optional octets.now pointer) }
    {
        let away = usize::from(octets[pointer]);
        if away == 0 {
            return Some(OptionalPart::none());
        }
        if octets.len() <= pointer + away {
            return None;
        }
        OptionalPart::read(&octets[pointer + away..])
    }
}

/// The name and the octets of the first parameter, and what comes after it. None if it isn't there
/// whole.
fn first(octets: &[u8]) -> Option<(u8, &[u8], &[u8])>
    ensures { MatchOption result (is_there octets.now ≡ false) (λ found.
        (is_there octets.now ≡ true) × (found.0 ≡ slice_index octets.now 0)
        × (found.1.now ≡ (first_parameter octets.now).octets) × (found.2.now ≡ after_first octets.now)) }
{
    let [name, count, ..] = *octets else {
        return None;
    };
    let end = 2 + usize::from(count);
    if octets.len() < end {
        return None;
    }
    Some((name, &octets[2..end], &octets[end..]))
}

/// The place of the octet 0 that ends the parameters at the front of these octets.
fn end_of_parameters(octets: &[u8]) -> Option<usize>
    ensures { result ≡ extent 0 (read_parameters octets.now) }
{
    let mut at = 0;
    'each_parameter: while at < octets.len() {
        if octets[at] == END {
            return Some(at);
        }
        if !begins_whole(&octets[at..]) {
            return None;
        }
        at += 2 + usize::from(octets[at + 1]);
    }
    None
}

/// Whether the first parameter is there whole, and has the length of its name.
fn begins_whole(octets: &[u8]) -> bool
    requires { 0 < length octets.now }
    ensures { result ≡ begins_whole octets.now }
{
    if octets.len() < 2 {
        return false;
    }
    octets.len() >= 2 + usize::from(octets[1]) && has_its_length(octets[0], octets[1])
}

/// Whether a parameter of this name may have so many octets.
fn has_its_length(name: u8, count: u8) -> bool
    ensures { result ≡ has_its_length name count }
{
    match name {
        SEGMENTATION => count == SEGMENTATION_OCTETS,
        IMPORTANCE => count == IMPORTANCE_OCTETS,
        _ => true,
    }
}
