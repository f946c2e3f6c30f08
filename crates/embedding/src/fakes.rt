//! A network of two links that are played from a list, and user parts that print what comes.

use crate::node::{Network, Received, UserParts};
use crate::node_settings::LINKS;
use exchange::{LinkId, Outcome};

/// What the network gives, one at a time.
#[derive(Clone, Copy)]
enum Played {
    /// Link Status of this state, on the link of this place.
    Status(usize, u8),
    /// A message of a user part from point 2, on the link of this place: its number, and the label of its destination.
    Message(usize, u8, [u8; 4]),
    /// A message of a user part of this point, with this label.
    Submit([u8; 4]),
    /// A tick.
    Tick,
    /// The association of the link of this place is lost.
    Gone(usize),
}

/// The SIO of ISUP in a network of indicator 2.
const ISUP: u8 = 0x85;

/// The first link opens at once, and the other one as its first frame comes. Both prove themselves and enter service. A
/// message for point 300 is forwarded, and one for this point delivered; one association is lost; and a message is
/// submitted for point 300, which lies behind that link.
const PLAYED: [Played; 11] = [
    Played::Status(0, 2),
    Played::Status(1, 2),
    Played::Tick,
    Played::Tick,
    Played::Tick,
    Played::Status(0, 4),
    Played::Status(1, 4),
    Played::Message(0, 0, [0x2c, 0x81, 0x00, 0x50]),
    Played::Message(0, 1, [0x01, 0x80, 0x00, 0x50]),
    Played::Gone(1),
    Played::Submit([0x2c, 0x41, 0x00, 0x50]),
];

/// The network.
#[derive(Drop)]
pub(crate) struct PlayedNetwork<'a, R> {
    rt: &'a R,
    links: [LinkId; 2],
    has_begun: bool,
    at: usize,
}

impl<'a, R: Print> PlayedNetwork<'a, R> {
    pub(crate) fn new(rt: &'a R, links: [LinkId; 2]) -> PlayedNetwork<'a, R> {
        PlayedNetwork {
            rt,
            links,
            has_begun: false,
            at: 0,
        }
    }

    fn link(&self, place: usize) -> LinkId {
        self.links.get(place).copied().unwrap_or(LinkId::new(0))
    }

    /// What is received if this is played.
    fn received(&self, played: Played, buffer: &mut [u8]) -> Received {
        match played {
            Played::Status(place, state) => {
                Received::Frame(self.link(place), put(&status(state), buffer))
            }
            Played::Message(place, number, label) => {
                Received::Frame(self.link(place), put(&message(number, label), buffer))
            }
            Played::Submit(label) => Received::Submit(ISUP, put(&label, buffer)),
            Played::Tick => Received::Tick,
            Played::Gone(place) => Received::Gone(self.link(place)),
        }
    }
}

impl<R: Print> Network for PlayedNetwork<'_, R> {
    // The first link accepts, and the other one connects.
    fn open(&mut self, link: LinkId) -> bool {
        let name = name_of(link);
        if link == self.link(0) {
            let _printed = println!(self.rt; "{name} opens");
            return true;
        }
        if !self.has_begun {
            let _printed = println!(self.rt; "{name} connects");
        }
        self.has_begun = true;
        false
    }

    fn close(&mut self, link: LinkId) {
        let name = name_of(link);
        let _printed = println!(self.rt; "{name} closes");
    }

    fn send(&mut self, link: LinkId, frame: &[u8]) {
        let name = name_of(link);
        let _printed = print!(self.rt; "{name} sends ");
        print_octets(self.rt, frame);
    }

    fn receive(&mut self, buffer: &mut [u8]) -> Received {
        let Some(played) = PLAYED.get(self.at).copied() else {
            return Received::End;
        };
        self.at += 1;
        self.received(played, buffer)
    }
}

/// User parts that print what comes.
#[derive(Drop)]
pub(crate) struct PrintingUsers<'a, R> {
    rt: &'a R,
}

impl<'a, R: Print> PrintingUsers<'a, R> {
    /// The user parts.
    pub(crate) fn new(rt: &'a R) -> PrintingUsers<'a, R> {
        PrintingUsers { rt }
    }
}

impl<R: Print> UserParts for PrintingUsers<'_, R> {
    fn deliver(&mut self, sio: u8, sif: &[u8]) {
        let _printed = print!(self.rt; "a user part is given {sio:02x} ");
        print_octets(self.rt, sif);
    }

    fn answer(&mut self, outcome: Outcome) {
        let what = match outcome {
            Outcome::Queued(_) => "is queued",
            Outcome::Held => "waits",
            Outcome::Refused(cause) => cause.name(),
            Outcome::Local | Outcome::Handled | Outcome::Ignored => "is done with",
        };
        let _printed = println!(self.rt; "a message that is submitted: {what}");
    }
}

fn name_of(link: LinkId) -> &'static str {
    match LINKS.get(link.index()) {
        Some((name, _, _)) => name,
        None => "",
    }
}

/// Prints octets to the end of a line.
fn print_octets<R: Print>(rt: &R, octets: &[u8]) {
    for octet in octets {
        let _printed = print!(rt; "{octet:02x}");
    }
    let _printed = println!(rt; "");
}

/// Link Status of this state, before the first message (docs/ALIGNMENT.md has such frames).
fn status(state: u8) -> [u8; 20] {
    [
        1, 0, 11, 2, 0, 0, 0, 20, 0, 255, 255, 255, 0, 255, 255, 255, 0, 0, 0, state,
    ]
}

/// User Data of this number, with a message of ISUP and two octets after its label.
fn message(number: u8, label: [u8; 4]) -> [u8; 24] {
    let [a, b, c, d] = label;
    [
        1, 0, 11, 1, 0, 0, 0, 24, 0, 255, 255, 255, 0, 0, 0, number, 0, ISUP, a, b, c, d, 0xaa,
        0xbb,
    ]
}

/// Puts octets at the front of the buffer, as many as there is room for, and returns how many.
fn put(octets: &[u8], buffer: &mut [u8]) -> usize {
    let count = octets.len().min(buffer.len());
    buffer[..count].copy_from_slice(&octets[..count]);
    count
}
