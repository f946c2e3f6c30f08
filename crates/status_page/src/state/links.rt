//! The links in the state of a node.

ghost use Rattle.std.specs.Prelude.{◌≡◌, codes, length};
ghost use Rattle.exchange.specs.KeptQueues.{kept};
ghost use Rattle.status_page.specs.Each.{each};
ghost use Rattle.status_page.specs.Facts.{facts_of};
ghost use Rattle.status_page.specs.Members.{Adds, array_member};
ghost use Rattle.status_page.specs.States.{link_tokens};

use crate::facts::Facts;
use crate::link_state::put_link;
use exchange::Exchange;
use json::Writer;
use signalling_types::LinkId;
use std::alloc::AllocError;

/// Appends the array of the links.
pub(crate) fn put_links(
    exchange: &Exchange,
    facts: &Facts<'_>,
    out: &mut Writer,
) -> Result<(), AllocError>
    ensures { Adds result out.old out.new (array_member (codes "links")
        (each (link_tokens kept exchange.now (facts_of facts.now)) (length exchange.now.settings.links))) }
{
    out.key("links")?;
    out.begin_array()?;
    put_each_link(exchange, facts, out)?;
    out.end_array()
}

/// Appends the objects of the links.
fn put_each_link(exchange: &Exchange, facts: &Facts<'_>, out: &mut Writer) -> Result<(), AllocError>
    ensures { Adds result out.old out.new
        (each (link_tokens kept exchange.now (facts_of facts.now)) (length exchange.now.settings.links)) }
{
    for k in 0..exchange.settings().link_count() {
        put_link(exchange, facts, LinkId::new(k as u8), out)?;
    }
    Ok(())
}
