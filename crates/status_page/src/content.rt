//! The pages of a node.

ghost use Rattle.std.specs.Prelude.{◌≡◌, ◌++◌, OnOk};
ghost use Rattle.json.specs.Print.{print};
ghost use Rattle.exchange.specs.KeptQueues.{kept};
ghost use Rattle.status_page.specs.Contents.{page_text};
ghost use Rattle.status_page.specs.Facts.{facts_of};
ghost use Rattle.status_page.specs.States.{state_tokens};

use crate::facts::Facts;
use crate::metrics::put_metrics;
use crate::page::{Content, Page};
use crate::state::state_text;
use crate::text::put_status;
use bytes::BufMut;
use exchange::Exchange;
use http_server::Rope;
use std::alloc::{AllocError, Global};

/// What the pages of a node are made of. They only read it.
#[derive(Drop)]
pub struct StatusPage<'a> {
    /// Where the memory of a page comes from.
    pub alloc: Global,
    /// The node.
    pub exchange: &'a Exchange,
    /// What else is known of it.
    pub facts: &'a Facts<'a>,
}

impl Content for StatusPage<'_> {
    ghost content = { λ shown page. page_text kept shown.exchange.now (facts_of shown.facts.now) page };

    fn write(&self, page: Page, body: &mut Rope) -> Result<(), AllocError> {
        match page {
            Page::Status => put_status(body),
            Page::State => self.write_state(body),
            Page::Metrics => put_metrics(self.exchange, self.facts, body),
        }
    }
}

impl StatusPage<'_> {
    /// Appends the state of the node to a body.
    fn write_state(&self, body: &mut Rope) -> Result<(), AllocError>
        ensures { OnOk result (body.new.items ≡ body.old.items
            ++ print (state_tokens kept self.now.exchange.now (facts_of self.now.facts.now))) }
    {
        let text = state_text(self.alloc, self.exchange, self.facts)?;
        body.put_slice(text.as_slice())
    }
}
