//! Names in place.

ghost use Rattle.std.specs.Prelude.{◌≡◌, IsTrue};
ghost use Rattle.settings.specs.Names.{is_name};

use arrayvec::ArrayString;
use signalling_types::Limits;

/// The name, kept in place.
pub(crate) fn kept_name(name: &str) -> ArrayString<{ Limits::NAME_OCTETS }>
    requires { IsTrue (is_name name.now) }
    ensures { result.bytes ≡ name.now }
{
    let mut kept = ArrayString::new();
    kept.push_str(name);
    kept
}
