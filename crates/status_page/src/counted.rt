//! The counters of a link, by its number.

ghost use Rattle.std.specs.Prelude.{◌≡◌};
ghost use Rattle.status_page.specs.Measuring.{counters_at};

use served_link::{Counters, LinkCounters};
use signalling_types::LinkId;

/// The counters of a link; all 0 for a link that isn't there.
pub(crate) fn counters_of(counters: &Counters, link: LinkId) -> LinkCounters
    ensures { result ≡ counters_at counters.now.links link }
{
    counters.row(link).copied().unwrap_or(LinkCounters::new())
}
