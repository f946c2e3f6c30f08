//! The sets in the state of a node.

ghost use Rattle.std.specs.Prelude.{◌≡◌, codes, flat_map};
ghost use Rattle.status_page.specs.Members.{Adds, array_member};
ghost use Rattle.status_page.specs.States.{set_tokens};

use crate::members::put_text;
use exchange::Exchange;
use json::Writer;
use settings::{PointFormat, SetRow, point_text};
use std::alloc::AllocError;

/// Appends the array of the sets.
pub(crate) fn put_sets(
    exchange: &Exchange,
    points: PointFormat,
    out: &mut Writer,
) -> Result<(), AllocError>
    ensures { Adds result out.old out.new
        (array_member (codes "sets") (flat_map (set_tokens points) exchange.now.settings.sets)) }
{
    out.key("sets")?;
    out.begin_array()?;
    put_each_set(exchange.settings().sets(), points, out)?;
    out.end_array()
}

/// Appends the objects of these sets.
fn put_each_set(sets: &[SetRow], points: PointFormat, out: &mut Writer) -> Result<(), AllocError>
    ensures { Adds result out.old out.new (flat_map (set_tokens points) sets.now) }
{
    for set in sets {
        put_set(set, points, out)?;
    }
    Ok(())
}

/// Appends the object of a set.
fn put_set(set: &SetRow, points: PointFormat, out: &mut Writer) -> Result<(), AllocError>
    ensures { Adds result out.old out.new (set_tokens points set.now) }
{
    out.begin_object()?;
    put_text(out, "name", set.name())?;
    put_text(out, "adjacent", point_text(set.adjacent(), points).as_str())?;
    out.end_object()
}
