//! The status page of a server.

use crate::served_page::ServedPage;
use crate::server::links::ServerLinks;
use mio::Registry;
use mio::event::Event;
use script::Sink;
use served_link::times::{micros, millis};
use served_node::{Log, Node, OpenFault};
use status_page::{Facts, NoticeLog, StatusPage, Times};
use std::alloc::Global;
use std::marker::Model;
use std::net::{Net, SocketAddr};
use std::random::RandomSource;
use std::time::Duration;
use trace::PointFormat;

/// The status page of a node, if it has one, and what it shows of notices and points.
pub(crate) struct NodePage {
    page: Option<ServedPage>,
    notices: NoticeLog,
    points: PointFormat,
}

// By hand, so that no proof above has what the page owns.
impl Drop for NodePage {
    fn drop(self) {
        let NodePage {
            page: _,
            notices: _,
            points: _,
        } = self;
    }
}

// No contract can say what sockets give, so nothing is said of its state.
impl Model for NodePage {
    ghost Value = { Unit {0} };

    ghost view = { λ _. tt };
}

impl NodePage {
    /// No page yet.
    pub(crate) fn none(points: PointFormat) -> NodePage {
        NodePage {
            page: None,
            notices: NoticeLog::new(),
            points,
        }
    }

    /// Opens the page, if it has an address.
    pub(crate) fn open<N: Net + RandomSource, W: Sink>(
        &mut self,
        net: &N,
        alloc: Global,
        registry: &Registry,
        address: Option<SocketAddr>,
        is_open: bool,
        log: &mut Log<'_, W>,
    ) -> Result<(), OpenFault> {
        if let Some(address) = address {
            self.page = Some(ServedPage::open(net, alloc, registry, address, is_open, log)?);
        }
        Ok(())
    }

    /// A client may have come.
    pub(crate) fn mark_listener(&mut self) {
        if let Some(page) = &mut self.page {
            page.mark_listener();
        }
    }

    /// The socket of the client in a place may be ready.
    pub(crate) fn mark(&mut self, place: u8, event: &Event) {
        if let Some(page) = &mut self.page {
            page.mark(place, event);
        }
    }

    /// Shows the page to those who look at it. Notices that are new came now. The longest turn so far took so long.
    /// Returns whether there is more to do at once. How associations do is asked for only then.
    pub(crate) fn show(
        &mut self,
        alloc: Global,
        registry: &Registry,
        node: &Node,
        links: &ServerLinks,
        now: Duration,
        longest_turn: Duration,
    ) -> bool {
        let Some(page) = &mut self.page else {
            return false;
        };
        let now_ms = millis(now);
        let exchange = &node.exchange;
        if exchange.notice_count() != self.notices.count {
            self.notices.look(exchange, now_ms);
        }
        if !page.is_busy(now_ms) {
            return false;
        }
        let associations = links.associations();
        let facts = Facts {
            counters: &node.observers.counters,
            notices: &self.notices,
            alarms: node.observers.watch.alarms(),
            states: node.observers.watch.links(),
            link_times: node.observers.watch.link_times(),
            set_times: node.observers.watch.set_times(),
            associations: &associations,
            points: self.points,
            times: Times {
                uptime_ms: now_ms,
                longest_turn_us: micros(longest_turn),
            },
        };
        let content = StatusPage {
            alloc,
            exchange,
            facts: &facts,
        };
        page.turn(registry, &content, now_ms);
        page.is_busy(now_ms)
    }

    /// How long it takes until something is due at the page, if there is one.
    pub(crate) fn until_due(&self, now: Duration) -> Duration {
        match &self.page {
            Some(page) => Duration::from_millis(page.until_due_ms(millis(now))),
            None => Duration::MAX,
        }
    }
}
