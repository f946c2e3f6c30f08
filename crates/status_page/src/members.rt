//! Members of JSON objects.

ghost use Rattle.std.specs.Prelude.{◌≡◌};
ghost use Rattle.status_page.specs.Members.{Adds, bool_member, number_member, text_member};

use json::Writer;
use std::alloc::AllocError;

/// Appends a member whose value is a text.
pub(crate) fn put_text(out: &mut Writer, name: &str, text: &str) -> Result<(), AllocError>
    ensures { Adds result out.old out.new (text_member name.now text.now) }
{
    out.key(name)?;
    out.string(text)
}

/// Appends a member whose value is a number.
pub(crate) fn put_number(out: &mut Writer, name: &str, n: u64) -> Result<(), AllocError>
    ensures { Adds result out.old out.new (number_member name.now n) }
{
    out.key(name)?;
    out.u64(n)
}

/// Appends a member whose value is true or false.
pub(crate) fn put_bool(out: &mut Writer, name: &str, b: bool) -> Result<(), AllocError>
    ensures { Adds result out.old out.new (bool_member name.now b) }
{
    out.key(name)?;
    out.boolean(b)
}
