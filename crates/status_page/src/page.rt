//! The pages: where they are, and what they hold.

ghost use Rattle.std.specs.Prelude.{◌≡◌, ◌++◌, ℕ, List, OnOk};
ghost use Rattle.status_page.specs.Pages.{page_at};
ghost use Rattle.status_page.specs.declared.page.Page.{Page};

use http_server::Rope;
use std::alloc::AllocError;

/// A page that is shown.
#[derive(Clone, Copy, PartialEq, Eq)]
pub enum Page {
    /// `/`: the page that a person reads.
    Status,
    /// `/state.json`: the state of the node.
    State,
    /// `/metrics`: the counters and gauges of the node.
    Metrics,
}

impl Page {
    /// The page at a path, if there is one.
    pub fn at(path: &str) -> Option<Page>
        ensures { result ≡ page_at path.now }
    {
        match path {
            "/" => Some(Page::Status),
            "/state.json" => Some(Page::State),
            "/metrics" => Some(Page::Metrics),
            _ => None,
        }
    }
}

/// What each page holds.
pub trait Content {
    /// The octets of each page.
    ghost content: { Self → Page → List ℕ };

    /// Appends the octets of a page to a body. The error means that memory ran out.
    fn write(&self, page: Page, body: &mut Rope) -> Result<(), AllocError>
        ensures { OnOk result (body.new.items ≡ body.old.items ++ content self.now page) };
}
