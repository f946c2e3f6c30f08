//! What a node shows that a frame which is refused or ignored may not change.

use exchange::{Exchange, LinkId, LinkView, RouteStatus};
use signalling_types::Number24;

/// How many links the node has.
pub(crate) const LINKS: u8 = 4;

/// The links, the statuses of the routes, and the flags.
#[derive(Clone, Copy, PartialEq)]
pub(crate) struct Shown {
    links: [Option<LinkView>; 4],
    routes: [Option<RouteStatus>; 4],
    lost_any: bool,
    late_any: bool,
}

impl Shown {
    /// What a node shows, with the queues and the numbers of its links or without.
    pub(crate) fn of(node: &Exchange, queues: bool) -> Shown {
        Shown {
            links: [
                view(node, 0, queues),
                view(node, 1, queues),
                view(node, 2, queues),
                view(node, 3, queues),
            ],
            routes: [
                status(node, 0),
                status(node, 1),
                status(node, 2),
                status(node, 3),
            ],
            lost_any: node.lost_any(),
            late_any: node.late_any(),
        }
    }
}

/// A link as it is shown, with its queue and its numbers or without.
fn view(node: &Exchange, link: u8, queue: bool) -> Option<LinkView> {
    let view = node.link(LinkId::new(link))?;
    if queue {
        return Some(view);
    }
    Some(LinkView {
        standing: view.standing,
        waiting: 0,
        last_sent: Number24::zero(),
        last_accepted: Number24::zero(),
    })
}

fn status(node: &Exchange, destination: usize) -> Option<RouteStatus> {
    Some(node.route(destination)?.status)
}
