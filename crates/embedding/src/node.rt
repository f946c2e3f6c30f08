//! One node, driven from one loop. Copy this file, and write a network and user parts of your own.

use exchange::{
    BUFFER_OCTETS, Event, Exchange, Frame, Limits, LinkId, MsuRef, Outcome, Wants, decode,
};

/// Statuses that wait on a link, at most: Out of Service, Alignment, Proving and Ready (docs/ALIGNMENT.md).
const WAITING_STATUSES: usize = 4;

/// What comes next to a node.
pub(crate) enum Received {
    /// A frame of this many octets came on a link. It is at the front of the buffer; one that is longer fills the
    /// buffer, and its length then fails the link.
    Frame(LinkId, usize),
    /// A user part hands over a message: its SIO, and a SIF of this many octets at the front of the buffer.
    Submit(u8, usize),
    /// A tick of the clock passed.
    Tick,
    /// The association of a link is lost. Nothing of it comes after this.
    Gone(LinkId),
    /// The program is to end.
    End,
}

/// The associations of a node's links, and its clock: sockets and a timer, or fakes in a test.
pub(crate) trait Network {
    /// Brings up the association of a link. At the end that accepts it returns true if the peer's was accepted, so it
    /// is up. At the end that connects it begins to connect, unless it has begun, and returns false even if the system
    /// is already connected: the association comes up with its first frame. If this is false it is called again.
    fn open(&mut self, link: LinkId) -> bool;

    /// Closes the association of a link. Nothing of it comes after this.
    fn close(&mut self, link: LinkId);

    /// Sends a frame on a link, after those sent before.
    fn send(&mut self, link: LinkId, frame: &[u8]);

    /// Waits for what comes next.
    fn receive(&mut self, buffer: &mut [u8]) -> Received;
}

/// The user parts of this point.
pub(crate) trait UserParts {
    /// A message came for this point.
    fn deliver(&mut self, sio: u8, sif: &[u8]);

    /// This became of a message that a user part handed over.
    fn answer(&mut self, outcome: Outcome);
}

/// Serves these links of a node until its network ends.
pub(crate) fn serve<N: Network, U: UserParts>(
    exchange: &mut Exchange,
    links: &[LinkId],
    network: &mut N,
    users: &mut U,
) {
    let mut buffer = [0; Limits::FRAME_OCTETS];
    for _ in 0..u64::MAX {
        tend(exchange, links, network);
        match network.receive(&mut buffer) {
            Received::Frame(link, count) => {
                receive_frame(exchange, link, front(&buffer, count), users);
            }
            Received::Submit(sio, count) => submit(exchange, sio, front(&buffer, count), users),
            Received::Tick => {
                let _ticked = exchange.step(&Event::Tick);
                exchange.test_subsystems();
            }
            Received::Gone(link) => {
                let _down = exchange.step(&Event::AssociationDown(link));
            }
            Received::End => return,
        }
    }
}

/// This many octets at the front of the buffer, or all of it if they are more.
fn front(buffer: &[u8], count: usize) -> &[u8] {
    &buffer[..count.min(buffer.len())]
}

/// Does what each link wants, and then sends what goes out on each: an event on one may have queued messages on others.
fn tend<N: Network>(exchange: &mut Exchange, links: &[LinkId], network: &mut N) {
    for link in links {
        do_wanted(exchange, *link, network);
    }
    for link in links {
        send_all(exchange, *link, network);
    }
}

/// Does what a link wants.
fn do_wanted<N: Network>(exchange: &mut Exchange, link: LinkId, network: &mut N) {
    match exchange.wants(link) {
        Wants::Open => {
            if network.open(link) {
                let _up = exchange.step(&Event::AssociationUp(link));
            }
        }
        Wants::Close => {
            network.close(link);
            let _down = exchange.step(&Event::AssociationDown(link));
        }
        Wants::Nothing => {}
    }
}

/// Sends what goes out on a link: the statuses that wait, and then a window of messages or an acknowledgement.
fn send_all<N: Network>(exchange: &mut Exchange, link: LinkId, network: &mut N) {
    let mut frame = [0; BUFFER_OCTETS];
    for _ in 0..exchange.settings().window() + WAITING_STATUSES {
        let Some(count) = exchange.take(link, &mut frame) else {
            return;
        };
        network.send(link, &frame[..count]);
    }
}

/// Takes a frame of a link. A message for this point goes to its user parts.
///
/// A link that still wants to open is one whose association this end began. The other end opened first, since it sent
/// the frame, so this end follows (docs/EXACTLY_ONCE.md says why it must).
fn receive_frame<U: UserParts>(exchange: &mut Exchange, link: LinkId, frame: &[u8], users: &mut U) {
    if exchange.wants(link) == Wants::Open {
        let _up = exchange.step(&Event::AssociationUp(link));
    }
    if exchange.step(&Event::Frame(link, frame)) != Outcome::Local {
        return;
    }
    if let Ok(Frame::Message { sio, sif, .. }) = decode(frame) {
        users.deliver(sio, sif);
    }
}

/// Takes a message of a user part, and tells it what became of it. A message for this point goes to its user parts.
fn submit<U: UserParts>(exchange: &mut Exchange, sio: u8, sif: &[u8], users: &mut U) {
    let outcome = exchange.step(&Event::Submit(MsuRef { sio, sif }));
    if outcome == Outcome::Local {
        users.deliver(sio, sif);
    }
    users.answer(outcome);
}
