//! The titles of addresses, as the rows that lead them on leave them.

ghost use Rattle.std.specs.Prelude.{◌≡◌, ◌+◌, ◌*◌, ◌^◌, ◌<◌, ◌≤◌, length, slice_index, Ok};
ghost use Rattle.settings.specs.TitleRanges.{HasChangeRanges};
ghost use Rattle.sccp_codec.specs.Titles.{digits_in, scheme_number, title_of, title_octets};
ghost use Rattle.sccp_codec.specs.Values.{address_of};
ghost use Rattle.sccp_relay.specs.Changing as rule;
ghost use Rattle.sccp_relay.specs.Values.{GivesAs, made_or};

use arrayvec::ArrayVec;
use sccp_codec::{Address, GlobalTitle};
use settings::{TitleChange, TitleRow};
use signalling_types::Cause;

/// The most octets of a title: those of an address, 255, less the first (Q.713 §3.4).
const TITLE_OCTETS: usize = 254;

/// Octets of a title before its digits (Q.713 §3.4.2.3.4).
const KEY_OCTETS: usize = 3;

/// The most digits of a title, two in each octet.
const MOST_DIGITS: usize = 2 * (TITLE_OCTETS - KEY_OCTETS);

/// The octets of a title.
pub(crate) type TitleOctets = ArrayVec<u8, TITLE_OCTETS>;

/// Whether a title stays as it came.
pub(crate) fn is_unchanged(change: &TitleChange) -> bool
    ensures value { result ≡ rule.is_unchanged change.now }
    ensures ranges { HasChangeRanges change.now }
{
    let (plan, nature) = (change.plan(), change.nature());
    let (removed, added) = (change.removed(), change.added());
    plan.is_none() && nature.is_none() && removed == 0 && added.is_empty()
}

/// The octets of the title of an address as a row leaves it, each made once; none if they stay as they came. It takes a
/// step for each octet of the digits that are left, and allocates nothing.
///
/// Refused NoDigits if no digit is left, and TooLong if an address can't hold the title.
pub(crate) fn changed_title(
    row: &TitleRow,
    address: &Address<'_>,
) -> Result<Option<TitleOctets>, Cause>
    ensures { GivesAs result (made_or address.now.title.now (λ octets. octets.items))
        (rule.title_after row.now.change (address_of address.now)) }
{
    if is_unchanged(row.change()) {
        return Ok(None);
    }
    match address.global_title() {
        Ok(title) => match changed_octets(row.change(), &title) {
            Ok(octets) => Ok(Some(octets)),
            Err(cause) => Err(cause),
        },
        Err(cause) => Err(cause),
    }
}

/// The octets of a title after a change.
fn changed_octets(change: &TitleChange, title: &GlobalTitle<'_>) -> Result<TitleOctets, Cause>
    requires plan { title.now.key.plan < 2 ^ 4 }
    ensures { GivesAs result (λ octets. octets.items) (rule.changed_octets change.now (Ok (title_of title.now))) }
{
    let kept = title.count().saturating_sub(change.removed());
    if kept > MOST_DIGITS {
        return Err(Cause::TooLong);
    }
    let count = change.added().len() + kept;
    if count == 0 {
        return Err(Cause::NoDigits);
    }
    if count > MOST_DIGITS {
        return Err(Cause::TooLong);
    }
    Ok(written(change, title, count))
}

/// The octets of a title of so many digits after a change.
fn written(change: &TitleChange, title: &GlobalTitle<'_>, count: usize) -> TitleOctets
    requires plan { title.now.key.plan < 2 ^ 4 }
    requires count { count ≡ length (rule.changed_digits change.now
        (digits_in title.now.scheme title.now.digit_octets.now)) }
    requires fits { count ≤ 502 }
    ensures { result.items ≡ title_octets (rule.changed_key change.now title.now.key)
        (rule.changed_digits change.now (digits_in title.now.scheme title.now.digit_octets.now)) }
{
    let plan = change.plan().unwrap_or(title.key.plan);
    let mut octets = ArrayVec::new();
    octets.push(title.key.translation);
    octets.push(plan * 16 + scheme_number(count));
    octets.push(change.nature().unwrap_or(title.key.nature));
    for index in 0..count.div_ceil(2) {
        octets.push(digit(change, title, 2 * index) + digit(change, title, 2 * index + 1) * 16);
    }
    octets
}

/// The encoding scheme of so many digits: 1 says odd, 2 even (Q.713 §3.4.2.3.4).
fn scheme_number(count: usize) -> u8
    ensures value { result ≡ scheme_number count }
    ensures fits { result ≤ 2 }
{
    if count % 2 == 1 { 1 } else { 2 }
}

/// The digit of this index after a change; past the last the filler, 0.
fn digit(change: &TitleChange, title: &GlobalTitle<'_>, index: usize) -> u8
    requires { index < 2 ^ 10 }
    ensures value { result ≡ slice_index (rule.changed_digits change.now
        (digits_in title.now.scheme title.now.digit_octets.now)) index }
    ensures fits { result < 2 ^ 4 }
{
    let added = change.added();
    if index < added.len() {
        return added[index];
    }
    title
        .digit(index - added.len() + change.removed())
        .unwrap_or(0)
}
