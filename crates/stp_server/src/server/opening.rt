//! Opening a server: its sockets that listen, and the one of its datagrams.

ghost use Rattle.std.specs.Prelude.{◌≤◌};

use super::links::ServerLinks;
use super::showing::NodePage;
use super::{Places, Server};
use mio::{Events, Poll, Registry};
use script::Sink;
use served_node::{ConsoleListener, Listener, Log, Node, OpenFault, SocketFile, SocketName};
use settings::{LinkId, Settings};
use settings_file::serve::ConsolePlace;
use std::alloc::Global;
use std::fs::Files;
use std::net::{Net, SocketAddr};
use std::random::RandomSource;
use std::time::Duration;
use trace::PointFormat;

/// Sockets that one wait tells of, at most. Further ones are told of by the next.
const EVENTS: usize = 128;

impl Server {
    /// A server of a node with these settings. It listens from now on, and no connection is there yet.
    pub fn open<N: Net + Files + RandomSource, W: Sink>(
        net: &N,
        alloc: Global,
        settings: Settings,
        places: Places<'_>,
        log: &mut W,
    ) -> Result<Server, OpenFault>
        requires initial { places.sctp.rto_initial_ms ≤ places.sctp.rto_max_ms }
        requires least { places.sctp.rto_min_ms ≤ places.sctp.rto_max_ms }
        requires most { places.sctp.rto_max_ms ≤ 60000 }
    {
        let mut log = Log {
            sink: log,
            now: Duration::ZERO,
        };
        let mut server = Server::boot(net, alloc, settings, places.points, places.tick_ms)?;
        let added = add_sockets(
            net,
            alloc,
            server.poll.registry(),
            places,
            &mut server.node,
            &mut server.links,
            &mut server.page,
            &mut log,
        );
        match added {
            Ok(()) => Ok(server),
            Err(fault) => {
                server.close(net);
                Err(fault)
            }
        }
    }

    /// A server of a node with these settings that has no sockets of links, and no console.
    fn boot<N: Net>(
        net: &N,
        alloc: Global,
        settings: Settings,
        points: PointFormat,
        tick_ms: u16,
    ) -> Result<Server, OpenFault> {
        match polled(net, alloc) {
            Ok((poll, events, links)) => {
                let node = Node::boot(alloc, settings, points, tick_ms)?;
                Ok(Server {
                    alloc,
                    node,
                    links,
                    page: NodePage::none(points),
                    poll,
                    events,
                    is_busy: true,
                    is_stopping: false,
                    longest_turn: Duration::ZERO,
                })
            }
            Err(fault) => {
                drop(settings);
                Err(fault)
            }
        }
    }
}

/// Adds the sockets of all links, the console and the status page.
fn add_sockets<N: Net + Files + RandomSource, W: Sink>(
    net: &N,
    alloc: Global,
    registry: &Registry,
    places: Places<'_>,
    node: &mut Node,
    links: &mut ServerLinks,
    page: &mut NodePage,
    log: &mut Log<'_, W>,
) -> Result<(), OpenFault>
    requires initial { places.sctp.rto_initial_ms ≤ places.sctp.rto_max_ms }
    requires least { places.sctp.rto_min_ms ≤ places.sctp.rto_max_ms }
    requires most { places.sctp.rto_max_ms ≤ 60000 }
{
    links.open_datagrams(net, alloc, registry, places.udp, log)?;
    for (k, endpoint) in places.links.iter().enumerate() {
        let link = LinkId::new(u8::try_from(k).unwrap_or(u8::MAX));
        links.add(
            net,
            alloc,
            registry,
            link,
            *endpoint,
            &places.sctp,
            node,
            log,
        )?;
    }
    if let Some(place) = places.console {
        node.observers.clients.listener = console(net, alloc, registry, place, log)?;
    }
    page.open(net, alloc, registry, places.page, places.is_page_open, log)
}

/// The console at its place.
fn console<N: Net + Files, W: Sink>(
    net: &N,
    alloc: Global,
    registry: &Registry,
    place: ConsolePlace<'_>,
    log: &mut Log<'_, W>,
) -> Result<ConsoleListener, OpenFault> {
    match place {
        ConsolePlace::Tcp(address) => console_at(net, registry, address, log),
        ConsolePlace::Unix(path) => console_socket(net, alloc, registry, path, log),
    }
}

/// A console at an address.
fn console_at<N: Net, W: Sink>(
    net: &N,
    registry: &Registry,
    address: SocketAddr,
    log: &mut Log<'_, W>,
) -> Result<ConsoleListener, OpenFault> {
    let (listener, address) = Listener::open(net, registry, address, SocketName::Console)?;
    log.tell(&format_args!("console {address}"));
    Ok(ConsoleListener::Tcp(listener))
}

/// A console at the path of a Unix socket.
fn console_socket<N: Net + Files, W: Sink>(
    net: &N,
    alloc: Global,
    registry: &Registry,
    path: &str,
    log: &mut Log<'_, W>,
) -> Result<ConsoleListener, OpenFault> {
    let socket = SocketFile::open(net, alloc, registry, path, SocketName::Console)?;
    log.tell(&format_args!("console {path}"));
    Ok(ConsoleListener::Unix(socket))
}

/// A poll, room for what it tells, and no links yet.
fn polled<N: Net>(net: &N, alloc: Global) -> Result<(Poll, Events, ServerLinks), OpenFault> {
    let events = Events::with_capacity(alloc, EVENTS)?;
    let links = ServerLinks::new(alloc)?;
    match Poll::new(net) {
        Ok(poll) => Ok((poll, events, links)),
        Err(_) => Err(OpenFault::Poll),
    }
}
