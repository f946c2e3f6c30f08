//! The links of a server: those over TCP, and those over SCTP.

ghost use Rattle.std.specs.Prelude.{◌≤◌};

use crate::tcp_links::TcpLinks;
use mio::Registry;
use script::Sink;
use sctp_links::{Keys, SctpSockets};
use served_link::{AssociationStatus, Watch};
use served_node::{Log, Node, OpenFault};
use settings::{Limits, LinkId};
use settings_file::serve::{Endpoint, Remote, SctpTimes};
use std::alloc::{AllocError, Global};
use std::marker::Model;
use std::net::{Net, SocketAddr};
use std::random::RandomSource;
use std::time::Duration;

/// The links of a node, over TCP and over SCTP.
pub(crate) struct ServerLinks {
    /// Those over TCP.
    pub(crate) tcp: TcpLinks,
    /// Those over SCTP, if there is a socket for their datagrams.
    pub(crate) sctp: Option<SctpSockets>,
}

// By hand, so that no proof above has what the links own.
impl Drop for ServerLinks {
    fn drop(self) {
        let ServerLinks { tcp: _, sctp: _ } = self;
    }
}

// No contract can say what sockets give, so nothing is said of their state.
impl Model for ServerLinks {
    ghost Value = { Unit {0} };

    ghost view = { λ _. tt };
}

impl ServerLinks {
    /// No link yet, and no socket for datagrams. The error means that memory ran out.
    pub(crate) fn new(alloc: Global) -> Result<ServerLinks, AllocError> {
        Ok(ServerLinks {
            tcp: TcpLinks::new(alloc)?,
            sctp: None,
        })
    }

    /// Opens the socket for datagrams, if it has an address.
    pub(crate) fn open_datagrams<N: Net, W: Sink>(
        &mut self,
        net: &N,
        alloc: Global,
        registry: &Registry,
        address: Option<SocketAddr>,
        log: &mut Log<'_, W>,
    ) -> Result<(), OpenFault> {
        if let Some(address) = address {
            self.sctp = Some(SctpSockets::open(net, alloc, registry, address, log)?);
        }
        Ok(())
    }

    /// Adds the next link.
    pub(crate) fn add<N: Net + RandomSource, W: Sink>(
        &mut self,
        net: &N,
        alloc: Global,
        registry: &Registry,
        link: LinkId,
        endpoint: Endpoint,
        times: &SctpTimes,
        node: &Node,
        log: &mut Log<'_, W>,
    ) -> Result<(), OpenFault>
        requires initial { times.now.rto_initial_ms ≤ times.now.rto_max_ms }
        requires least { times.now.rto_min_ms ≤ times.now.rto_max_ms }
        requires most { times.now.rto_max_ms ≤ 60000 }
    {
        match endpoint {
            Endpoint::Remote(remote) => match &mut self.sctp {
                Some(sctp) => add_association(net, alloc, sctp, link, &remote, times, node, log),
                // There is no socket for its datagrams.
                None => Ok(()),
            },
            Endpoint::Listen(_, _) | Endpoint::Connect(_) => {
                self.tcp.add(net, registry, link, endpoint, node, log)
            }
        }
    }

    /// Reads what came on the links.
    pub(crate) fn read<W: Sink, U: Watch>(
        &mut self,
        node: &mut Node,
        log: &mut Log<'_, W>,
        user: &mut U,
    ) {
        self.tcp.read(node, log, user);
        if let Some(sctp) = &mut self.sctp {
            sctp.read(node, log, user);
        }
    }

    /// Opens and closes connections and associations as the links want. Timers of SCTP that are due run out.
    pub(crate) fn settle<N: Net, W: Sink, U: Watch>(
        &mut self,
        net: &N,
        node: &mut Node,
        registry: &Registry,
        log: &mut Log<'_, W>,
        user: &mut U,
    ) {
        self.tcp.settle(net, node, registry, log);
        if let Some(sctp) = &mut self.sctp {
            sctp.settle(node, log, user);
        }
    }

    /// Writes to the links. Returns whether there is more to do at once.
    pub(crate) fn write<W: Sink, U: Watch>(
        &mut self,
        node: &mut Node,
        log: &mut Log<'_, W>,
        user: &mut U,
    ) -> bool {
        let is_busy = self.tcp.write(node, log, user);
        match &mut self.sctp {
            Some(sctp) => {
                sctp.write(node, log, user);
                is_busy || sctp.is_busy()
            }
            None => is_busy,
        }
    }

    /// How the association of each link does, by the number of the link. None unless it is over SCTP, and up.
    pub(crate) fn associations(&self) -> [Option<AssociationStatus>; Limits::LINKS] {
        let mut associations = [None; Limits::LINKS];
        if let Some(sctp) = &self.sctp {
            for (k, status) in associations.iter_mut().enumerate() {
                *status = sctp.status(LinkId::new(u8::try_from(k).unwrap_or(u8::MAX)));
            }
        }
        associations
    }

    /// Associations over SCTP end by ABORT. Returns whether there may be some.
    pub(crate) fn close<W: Sink>(&mut self, node: &mut Node, log: &mut Log<'_, W>) -> bool {
        match &mut self.sctp {
            Some(sctp) => {
                sctp.close(node, log);
                true
            }
            None => false,
        }
    }

    /// How long it takes until something is due that no socket tells of.
    pub(crate) fn until_due(&self, node: &Node, now: Duration) -> Duration {
        let least = self.tcp.until_due(node, now);
        match &self.sctp {
            Some(sctp) => least.min(sctp.until_due(now)),
            None => least,
        }
    }
}

/// Adds a link over SCTP, whose keys are drawn at random.
fn add_association<N: RandomSource, W: Sink>(
    net: &N,
    alloc: Global,
    sctp: &mut SctpSockets,
    link: LinkId,
    remote: &Remote,
    times: &SctpTimes,
    node: &Node,
    log: &mut Log<'_, W>,
) -> Result<(), OpenFault>
    requires initial { times.now.rto_initial_ms ≤ times.now.rto_max_ms }
    requires least { times.now.rto_min_ms ≤ times.now.rto_max_ms }
    requires most { times.now.rto_max_ms ≤ 60000 }
{
    let Ok(keys) = Keys::draw(net) else {
        return Err(OpenFault::Random);
    };
    sctp.add(alloc, link, remote, times, &keys, node, log)
}
