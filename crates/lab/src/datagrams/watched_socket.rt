//! What the datagrams of a gate go out by, and what is counted of what it sees.

use sctp_endpoint::Address;
use sctp_gate::Watch;
use sctp_rules::Loss;
use sctp_sending::Message;
use settings::Outcome;
use std::net::UdpSocket;

/// A socket that is connected to that of the other end, and counts.
#[derive(Drop)]
pub(crate) struct WatchedSocket {
    socket: UdpSocket,
    /// How many datagrams went out.
    pub(crate) sent: u64,
    /// How many frames came in.
    pub(crate) frames: u64,
    /// How many of them had a message for this node.
    pub(crate) local: u64,
}

impl WatchedSocket {
    /// Nothing went out or came in.
    pub(crate) fn new(socket: UdpSocket) -> WatchedSocket {
        WatchedSocket {
            socket,
            sent: 0,
            frames: 0,
            local: 0,
        }
    }
}

impl Watch for WatchedSocket {
    // No contract can say what a socket takes.
    ghost has = { λ _ _ _. Unit {0} };

    fn send(&mut self, octets: &[u8], _to: &Address) {
        if self.socket.send(octets).is_ok() {
            self.sent = self.sent.saturating_add(1);
        }
    }

    fn came_up(&mut self) {}

    fn came_in(&mut self, _frame: &[u8], outcome: &Outcome) {
        self.frames = self.frames.saturating_add(1);
        if matches!(outcome, Outcome::Local) {
            self.local = self.local.saturating_add(1);
        }
    }

    fn dropped(&mut self, _message: &Message<'_>) {}

    fn went_down(&mut self, _why: Loss) {}

    fn failed(&mut self, _why: Loss) {}

    fn went_out(&mut self, _frame: &[u8]) {}
}
