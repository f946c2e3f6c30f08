//! A peer: what came to it, and what it submits to the other.

ghost use Rattle.std.specs.Prelude.{◌<◌, length};

use super::FRONT_OCTETS;
use super::arrivals::Arrivals;
use super::nodes::{RECEIVER, SENDER};
use exchange::{Draft, Event, Exchange, Label, LinkStanding, Wants};
use served_link::Association;
use settings::{Limits, LinkId, MsuRef, Outcome, PointCode, Settings, Sls};
use std::alloc::{AllocError, Global};
use std::io;
use std::io::{ErrorKind, Read, Write};
use std::marker::Model;
use std::net::{Ipv4Addr, TcpStream};

/// The service information octet of the ISDN user part in the international network (Q.704 §14.2).
const ISUP: u8 = 0x85;

/// Octets of a read, at most.
const READ_OCTETS: usize = 65_536;

/// Reads of a round, at most, and writes.
const READS: usize = 16;

const WRITES: usize = 64;

/// A peer, and how many messages it submitted. Its state is hidden from proofs: nothing is said of it.
pub(crate) struct Station {
    exchange: Exchange,
    port: u16,
    connection: Option<Connection>,
    /// Where octets lie that came.
    buffer: Vec<u8>,
    field: [u8; Limits::SIF_OCTETS],
    octets: usize,
    /// What came.
    pub(crate) arrivals: Arrivals,
    /// How many messages its node took.
    pub(crate) taken: u32,
}

// By hand, so that no proof above has what a station owns.
impl Drop for Station {
    fn drop(self) {
        let Station {
            exchange: _,
            port: _,
            connection: _,
            buffer: _,
            field: _,
            octets: _,
            arrivals: _,
            taken: _,
        } = self;
    }
}

impl Model for Station {
    ghost Value = { Unit {0} };

    ghost view = { λ _. tt };
}

impl Station {
    /// A node with these settings, whose link is to connect to a port of this machine, and whose messages have this
    /// many octets. None if memory can't be had.
    pub(crate) fn new(
        alloc: Global,
        draft: Result<Draft, AllocError>,
        port: u16,
        octets: usize,
    ) -> Option<Station> {
        let settings = Settings::check(alloc, draft.ok()?).ok()?;
        let exchange = Exchange::boot(alloc, settings).ok()?;
        Some(Station {
            exchange,
            port,
            connection: None,
            buffer: vec![in alloc; 0; READ_OCTETS].ok()?,
            field: [0; Limits::SIF_OCTETS],
            octets,
            arrivals: Arrivals::new(),
            taken: 0,
        })
    }

    /// Submits messages, at most this many, until the node doesn't take one.
    pub(crate) fn submit(&mut self, most: u32) {
        for _ in 0..most {
            if !self.submit_next() {
                return;
            }
        }
    }

    /// Submits the next message. False if the node doesn't take it.
    fn submit_next(&mut self) -> bool {
        let front = front_of(self.taken);
        self.field[..FRONT_OCTETS].copy_from_slice(&front);
        let Some(sif) = self.field.get(..self.octets) else {
            return false;
        };
        let outcome = self
            .exchange
            .step(&Event::Submit(MsuRef { sio: ISUP, sif }));
        let is_taken = matches!(outcome, Outcome::Queued(_) | Outcome::Held);
        self.taken = self.taken.saturating_add(u32::from(is_taken));
        is_taken
    }

    /// Lets a tick pass, if one is due, and does what there is to do on the connection.
    pub(crate) fn turn(&mut self, rt: &HostRuntime, is_due: bool) {
        if is_due {
            self.exchange.step(&Event::Tick);
            self.settle(rt);
        }
        let goes_on = match &mut self.connection {
            Some(connection) => {
                let buffer = self.buffer.as_mut_slice();
                connection.read(&mut self.exchange, &mut self.arrivals, buffer)
                    && connection.write(&mut self.exchange, &mut self.arrivals)
            }
            None => true,
        };
        if !goes_on {
            self.end();
        }
    }

    /// Makes the connection or ends it, as the link wants.
    fn settle(&mut self, rt: &HostRuntime) {
        match self.exchange.wants(LinkId::new(0)) {
            Wants::Open if self.connection.is_none() => {
                self.connection = Connection::make(rt, self.port).ok();
            }
            Wants::Close => self.end(),
            _ => {}
        }
    }

    /// The connection ends.
    fn end(&mut self) {
        if let Some(connection) = &mut self.connection {
            connection.association.fall(&mut self.exchange);
        }
        self.connection = None;
    }

    /// Whether its link is in service, and no message waits on it.
    pub(crate) fn is_at_rest(&self) -> bool {
        match self.exchange.link(LinkId::new(0)) {
            Some(view) => view.standing == LinkStanding::InService && view.waiting == 0,
            None => false,
        }
    }
}

/// The connection of a peer's link.
#[derive(Drop)]
struct Connection {
    stream: TcpStream,
    association: Association,
}

impl Connection {
    /// A new connection to a port of this machine.
    fn make(rt: &HostRuntime, port: u16) -> io::Result<Connection> {
        let stream = TcpStream::connect(rt, (Ipv4Addr::LOCALHOST, port))?;
        stream.set_nonblocking(true)?;
        stream.set_nodelay(true)?;
        Ok(Connection {
            stream,
            association: Association::connected(LinkId::new(0)),
        })
    }

    /// Reads what came, and hands it in. False if the connection is over.
    fn read(
        &mut self,
        exchange: &mut Exchange,
        arrivals: &mut Arrivals,
        buffer: &mut [u8],
    ) -> bool {
        for _ in 0..READS {
            let count = match self.stream.read(buffer) {
                Ok(0) => return false,
                Ok(count) => count,
                Err(error) => return error.kind() == ErrorKind::WouldBlock,
            };
            if !hand_in(&mut self.association, exchange, &buffer[..count], arrivals) {
                return false;
            }
        }
        true
    }

    /// Takes frames and writes them, as far as the socket takes them. False if the connection is over.
    fn write(&mut self, exchange: &mut Exchange, arrivals: &mut Arrivals) -> bool {
        for _ in 0..WRITES {
            if !self.association.is_up() || !self.association.fill(exchange, arrivals) {
                return true;
            }
            match self.stream.write(self.association.pending()) {
                Ok(count) => self.association.written(count),
                Err(error) => return error.kind() == ErrorKind::WouldBlock,
            }
        }
        true
    }
}

/// Hands in octets that came. The association comes up with the first. False if the connection is to end.
fn hand_in(
    association: &mut Association,
    exchange: &mut Exchange,
    octets: &[u8],
    arrivals: &mut Arrivals,
) -> bool
    requires { 0 < length octets.now }
{
    association.hear(octets, exchange) && association.read(exchange, octets, arrivals).is_ok()
}

/// The front of the signalling information field of the message after this many others. The flows take turns, and each
/// message has its number in the flow.
fn front_of(others: u32) -> [u8; FRONT_OCTETS] {
    let label = Label {
        dpc: PointCode::of_low_bits(u32::from(RECEIVER)),
        opc: PointCode::of_low_bits(u32::from(SENDER)),
        sls: Sls::of_low_bits(others),
    };
    let [l0, l1, l2, l3] = label.write();
    let [n3, n2, n1, n0] = (others / 16).to_be_bytes();
    [l0, l1, l2, l3, n3, n2, n1, n0]
}
