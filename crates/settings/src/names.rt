//! Names of links and link sets.

ghost use Rattle.std.specs.Prelude.{◌≡◌, None, Some, IsTrue, OnOk, IfErr};
ghost use Rattle.std.specs.List.{list_all};
ghost use Rattle.settings.specs.Names.{is_name, is_name_octet};
ghost use Rattle.settings.specs.Checks.{name_fault};

use crate::numbers::ensure;
use crate::{DraftFault, FaultKind, Key};
use signalling_types::Limits;

/// Whether an octet may be in a name.
fn is_name_octet(octet: u8) -> bool
    ensures { result ≡ is_name_octet octet }
{
    matches!(octet, b'a'..=b'z' | b'A'..=b'Z' | b'0'..=b'9' | b'-' | b'_' | b'.')
}

/// Whether all octets may be in a name.
fn are_name_octets(text: &[u8]) -> bool
    ensures { result ≡ list_all is_name_octet text.now }
{
    text.iter().all(|octet| is_name_octet(*octet))
}

/// Whether a text is a name of a link or a link set.
pub(crate) fn is_name(text: &str) -> bool
    ensures { result ≡ is_name text.now }
{
    0 < text.len() && text.len() <= Limits::NAME_OCTETS && are_name_octets(text.as_bytes())
}

/// Checks that a text is a name, and that it doesn't occur twice.
pub(crate) fn ensure_name(text: &str, is_repeat: bool, key: Key) -> Result<(), DraftFault>
    ensures form { OnOk result (IsTrue (is_name text.now)) }
    ensures well { OnOk result (name_fault key text.now is_repeat ≡ None) }
    ensures fault { IfErr result (λ fault. name_fault key text.now is_repeat ≡ Some fault) }
{
    ensure(is_name(text), FaultKind::Range, key)?;
    ensure(!is_repeat, FaultKind::Duplicate, key)
}
