//! The status page on sockets: where its clients come, and the clients, as sockets of a poll, each in a place of its
//! own. What they are answered is `status_page`'s.

ghost use Rattle.std.specs.Prelude.{◌≡◌};
ghost use Rattle.stp_server.specs.Turns.{AnswersOneAtMost};

mod client;
mod places;

use client::PageClient;
use mio::Registry;
use mio::event::Event;
use mio::net::TcpStream;
use places::{
    answer_next, are_busy, first_due_ms, free_places, place_for_one, put, read_each, write_each,
};
use script::Sink;
use served_node::{Listener, Log, OpenFault, SocketName};
use status_page::{Allowance, Content, PAGE_CLIENTS, PageNames, PageService};
use std::alloc::Global;
use std::hash::RandomState;
use std::marker::Model;
use std::net::{Net, SocketAddr};
use std::random::RandomSource;

/// Connections that are taken in one turn, at most.
const ACCEPTS: usize = 64;

/// The status page of a node: its names, where its clients come, and its clients, each in a place of its own.
///
/// It has no clock: each call is told the milliseconds since the start of the node.
#[derive(Drop)]
pub struct ServedPage {
    alloc: Global,
    names: PageNames,
    keys: RandomState,
    listener: Listener,
    places: Vec<Option<PageClient>>,
    allowance: Allowance,
    /// The place that is looked at next for a request to answer.
    next: usize,
    /// Until when there is nothing to do, unless a socket gets ready; 0 if there may be something now. In milliseconds
    /// since the start.
    rests_until_ms: u64,
}

// No contract can say what sockets give. Of a page only this is known: how much was answered of late.
impl Model for ServedPage {
    ghost use Rattle.status_page.specs.declared.patience.Allowance.{Allowance};

    ghost Value = { Allowance };

    ghost view = { λ page. page.allowance };
}

impl ServedPage {
    /// A page at this address, registered with the poll from now on; the log has the address. If the page is open it
    /// may be asked for by any name. No client is there yet.
    ///
    /// Listen if the system refuses the address, Poll if the poll takes no further socket or the system gives no random
    /// octets, NoMemory.
    pub fn open<N: Net + RandomSource, W: Sink>(
        net: &N,
        alloc: Global,
        registry: &Registry,
        address: SocketAddr,
        is_open: bool,
        log: &mut Log<'_, W>,
    ) -> Result<ServedPage, OpenFault> {
        let keys = drawn_keys(net)?;
        let places = free_places(alloc)?;
        let (listener, address) = Listener::open(net, registry, address, SocketName::Page)?;
        log.tell(&format_args!("page {address}"));
        Ok(ServedPage {
            alloc,
            names: PageNames::new(alloc, address, is_open)?,
            keys,
            listener,
            places,
            allowance: Allowance::new(),
            next: 0,
            rests_until_ms: 0,
        })
    }

    /// A client may have come.
    pub fn mark_listener(&mut self)
        ensures { self.new ≡ self.old }
    {
        self.listener.mark();
        self.rests_until_ms = 0;
    }

    /// The socket of the client in a place may be ready.
    pub fn mark(&mut self, place: u8, event: &Event)
        ensures { self.new ≡ self.old }
    {
        if let Some(Some(client)) = self.places.get_mut(usize::from(place)) {
            client.mark(event);
        }
        self.rests_until_ms = 0;
    }

    /// Does what there is to do on each socket, once, and returns: takes clients, reads, answers at most one request,
    /// writes, and closes the connections that are over. While no socket is ready and nothing is due, it is one
    /// comparison, however many clients there are.
    pub fn turn<C: Content>(&mut self, registry: &Registry, content: &C, now_ms: u64)
        ensures { AnswersOneAtMost now_ms self.old self.new }
    {
        if !self.is_busy(now_ms) {
            return;
        }
        self.accept(registry, now_ms);
        read_each(&mut self.places);
        self.answer(content, now_ms);
        write_each(&mut self.places, now_ms);
        self.rest(now_ms);
    }

    /// Notes until when there is nothing to do.
    fn rest(&mut self, now_ms: u64)
        ensures { self.new ≡ self.old }
    {
        let may_answer = self.allowance.may_answer(now_ms);
        self.rests_until_ms = if self.listener.may_accept() || are_busy(&self.places, may_answer) {
            0
        } else {
            let next_second_ms = (now_ms / 1000).saturating_add(1).saturating_mul(1000);
            first_due_ms(&self.places, next_second_ms)
        };
    }

    /// Takes the clients that came.
    fn accept(&mut self, registry: &Registry, now_ms: u64)
        ensures { self.new ≡ self.old }
    {
        for _ in 0..ACCEPTS {
            match self.listener.accept() {
                Some((stream, _)) => self.seat(stream, registry, now_ms),
                None => return,
            }
        }
    }

    /// Gives a client a place. If none is free, an idle one makes way, and its connection is closed; if none is idle,
    /// the new one's is.
    fn seat(&mut self, mut stream: TcpStream, registry: &Registry, now_ms: u64)
        ensures { self.new ≡ self.old }
    {
        let place = place_for_one(&self.places);
        if is_seated(place, registry, &mut stream) {
            let client = PageClient::new(self.alloc, stream, self.keys, now_ms);
            put(&mut self.places, place, client);
        }
    }

    /// Answers one request at most, if the second has an answer left. Each client has its turn.
    fn answer<C: Content>(&mut self, content: &C, now_ms: u64)
        ensures { AnswersOneAtMost now_ms self.old self.new }
    {
        if !self.allowance.may_answer(now_ms) {
            return;
        }
        let mut service = PageService {
            names: &self.names,
            content,
        };
        if answer_next(&mut self.places, &mut self.next, &mut service) {
            self.allowance.count(now_ms);
        }
    }

    /// Whether there may be something to accept, to read, to answer or to write now, or a client's time is over.
    pub fn is_busy(&self, now_ms: u64) -> bool {
        self.rests_until_ms <= now_ms
    }

    /// How many milliseconds there are until something is due that no socket tells of.
    pub fn until_due_ms(&self, now_ms: u64) -> u64 {
        self.rests_until_ms.saturating_sub(now_ms)
    }
}

/// Keys for the names of fields, which clients choose.
fn drawn_keys<N: RandomSource>(net: &N) -> Result<RandomState, OpenFault> {
    match RandomState::new(net) {
        Ok(keys) => Ok(keys),
        Err(_) => Err(OpenFault::Poll),
    }
}

/// Registers a client's socket with the poll, if there is this place for it. False if it has no place.
fn is_seated(place: usize, registry: &Registry, stream: &mut TcpStream) -> bool {
    place < PAGE_CLIENTS && SocketName::PageClient(place as u8).is_registered(registry, stream)
}
