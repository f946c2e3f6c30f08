//! The names of sets and links that a file's version has.

ghost use Rattle.std.specs.Prelude.{◌≡◌};
ghost use Rattle.std.specs.List.{list_all};
ghost use Rattle.settings_file.specs.NodeKeys.{is_short_name, is_short_name_octet, name_said};

use crate::limits::SHORT_NAME_OCTETS;

/// The name that a text says, in a file whose version has longer names or doesn't have them: there others than short
/// names are read as the empty text, which is no name.
pub(crate) fn name_said(has_longer: bool, text: &str) -> &str
    ensures { result.now ≡ name_said has_longer text.now }
{
    if has_longer || is_short_name(text) {
        text
    } else {
        ""
    }
}

/// Whether a name is no longer than those of the first versions, and made of what they were made of.
fn is_short_name(text: &str) -> bool
    ensures { result ≡ is_short_name text.now }
{
    text.len() <= SHORT_NAME_OCTETS && are_short_name_octets(text.as_bytes())
}

/// Whether all octets may be in a short name.
fn are_short_name_octets(text: &[u8]) -> bool
    ensures { result ≡ list_all is_short_name_octet text.now }
{
    text.iter().all(|octet| is_short_name_octet(*octet))
}

/// Whether an octet may be in a short name.
fn is_short_name_octet(octet: u8) -> bool
    ensures { result ≡ is_short_name_octet octet }
{
    matches!(octet, b'a'..=b'z' | b'0'..=b'9' | b'-')
}
