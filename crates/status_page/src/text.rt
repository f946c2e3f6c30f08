//! The page that a person reads, as HTML. It needs nothing from anywhere else, and asks for `/state.json` each second.

ghost use Rattle.std.specs.Prelude.{◌≡◌, ◌++◌, OnOk};
ghost use Rattle.status_page.specs.Contents.{status_text};

pub mod asking;
pub mod drawing;
pub mod measures;
pub mod outline;
pub mod style;

use crate::text::asking::ASKING;
use crate::text::drawing::DRAWING;
use crate::text::measures::MEASURES;
use crate::text::outline::OUTLINE;
use crate::text::style::STYLE;
use bytes::BufMut;
use http_server::Rope;
use std::alloc::AllocError;

/// Appends the page.
pub(crate) fn put_status(body: &mut Rope) -> Result<(), AllocError>
    ensures { OnOk result (body.new.items ≡ body.old.items ++ status_text) }
{
    put_piece(STYLE, body)?;
    put_piece(OUTLINE, body)?;
    put_piece(MEASURES, body)?;
    put_piece(DRAWING, body)?;
    put_piece(ASKING, body)
}

/// Appends a piece of the page.
fn put_piece(text: &str, body: &mut Rope) -> Result<(), AllocError>
    ensures { OnOk result (body.new.items ≡ body.old.items ++ text.now) }
{
    body.put_slice(text.as_bytes())
}
