//! A session: an endpoint, to which happens what happened to the recorded end.

ghost use Rattle.std.specs.Prelude.{◌≡◌, ◌≤◌, ◌^◌};

use crate::sessions::fitting::fit;
use crate::sessions::names::{Name, add};
use crate::sessions::recorder::{Recorder, kind_of};
use crate::sessions::rows::{OCTETS, hexadecimal, number, octets, word};
use sctp_codec::Packet;
use sctp_endpoint::endpoint::KEY_OCTETS;
use sctp_endpoint::{Address, Addresses, Endpoint, Settings};
use sctp_sending::{Bounds, Message};
use std::alloc::{AllocError, Global};
use std::fmt::Write;

/// The latest time, in milliseconds.
const LATEST: u64 = 1 << 63;

/// Octets of a message, at most.
const MESSAGE_OCTETS: usize = 290;

/// Where usrsctp is.
const PEER: Address = Address {
    host: [0; 16],
    port: 9_899,
};

/// The settings of the recorded end.
fn settings() -> Settings
    ensures initial { result.bounds.initial ≡ 300 }
    ensures least { result.bounds.least ≡ 100 }
    ensures most { result.bounds.most ≡ 60000 }
{
    Settings {
        own_port: 3_565,
        far_port: 3_565,
        address: PEER,
        addresses: Addresses::none(),
        bounds: Bounds {
            initial: 300,
            least: 100,
            most: 60_000,
        },
        init_retransmissions: 8,
        retransmissions: 30,
        heartbeat: 30_000,
        cookie_life: 60_000,
    }
}

/// Under these keys the endpoint draws tags and signs cookies.
const TAG_KEY: [u8; KEY_OCTETS] = [1; KEY_OCTETS];

const COOKIE_KEY: [u8; KEY_OCTETS] = [2; KEY_OCTETS];

/// An endpoint in a session.
#[derive(Drop)]
pub struct Session {
    endpoint: Endpoint,
    recorder: Recorder,
    names: Vec<Name>,
    recorded: String,
    now: u64,
    heard: u32,
    /// What was put out by each row, except by messages that came or were sent and by what confirms them: a line each.
    answers: String,
    /// The same of the recorded end.
    recorded_answers: String,
    /// How many messages came, and how many of them SACK answered at once.
    messages: u32,
    confirmed: u32,
}

impl Session {
    /// A session that begins. The error means that memory ran out.
    pub fn new(alloc: Global) -> Result<Session, AllocError> {
        Ok(Session {
            endpoint: Endpoint::new(alloc, settings(), TAG_KEY, COOKIE_KEY)?,
            recorder: Recorder::new(alloc),
            names: Vec::new(alloc),
            recorded: String::new(alloc),
            now: 0,
            heard: 0,
            answers: String::new(alloc),
            recorded_answers: String::new(alloc),
            messages: 0,
            confirmed: 0,
        })
    }

    /// What a row says happens.
    pub fn play(&mut self, row: &str) {
        self.recorder.answer.clear();
        match word(row, 0) {
            "drew" => self.note_name(row),
            "told" => self.note_told(row),
            "answered" => self.note_recorded_answer(row),
            "send" => self.send(row),
            "open" | "hear" | "tick" | "shutdown" => {
                self.now = number::<u64>(row, 1).min(LATEST);
                self.happen(row);
            }
            _ => return,
        }
        if self.now <= LATEST {
            self.endpoint.flush(self.now, &mut self.recorder);
        }
        match word(row, 0) {
            "hear" => self.note_answer(kind_in(row)),
            "open" | "tick" | "shutdown" => self.note_answer(word(row, 0)),
            _ => {}
        }
    }

    /// Notes what was put out by what happened.
    fn note_answer(&mut self, what: &str) {
        let answer = self.recorder.answer.as_str();
        match what {
            "DATA" => {
                self.messages = self.messages.saturating_add(1);
                if answer.starts_with(" SACK") {
                    self.confirmed = self.confirmed.saturating_add(1);
                }
            }
            "SACK" => {}
            _ => {
                let _ = write!(self.answers, " {what}:{answer}\n");
            }
        }
    }

    /// What happens at a time.
    fn happen(&mut self, row: &str) {
        if self.now > LATEST || !self.endpoint.lasts() {
            return;
        }
        let now = self.now;
        match word(row, 0) {
            "open" => {
                let is_active = word(row, 2) == "active";
                self.endpoint.open(is_active, now, &mut self.recorder);
            }
            "tick" => self.endpoint.tick(now, &mut self.recorder),
            "shutdown" => self.endpoint.shutdown(now, &mut self.recorder),
            _ => self.hear(row, now),
        }
    }

    /// A datagram comes.
    fn hear(&mut self, row: &str, now: u64) {
        let mut buffer = [0; OCTETS];
        let datagram = octets(row, 2, &mut buffer);
        self.recorder.learn_peer_cookie(datagram);
        let own = &self.recorder;
        fit(
            datagram,
            self.names.as_slice(),
            own.names.as_slice(),
            &own.cookie,
        );
        self.heard = self.heard.saturating_add(1);
        if now <= LATEST && self.endpoint.lasts() {
            self.endpoint.hear(datagram, &PEER, now, &mut self.recorder);
        }
    }

    /// The user gives a message, or as much of it as an `Endpoint` takes.
    fn send(&mut self, row: &str) {
        let mut buffer = [0; OCTETS];
        let whole: &[u8] = octets(row, 3, &mut buffer);
        let message = Message {
            stream: number(row, 1),
            protocol: number(row, 2),
            octets: whole.get(..MESSAGE_OCTETS).unwrap_or(whole),
        };
        let _ = self.endpoint.send(message);
    }

    /// The recorded end drew a name.
    fn note_name(&mut self, row: &str) {
        let name = Name {
            tag: hexadecimal(row, 1),
            first: hexadecimal(row, 2),
        };
        add(&mut self.names, name);
    }

    /// The user of the recorded end was told something.
    fn note_told(&mut self, row: &str) {
        let told = row.strip_prefix("told").unwrap_or("");
        let _ = write!(self.recorded, "{told}\n");
    }

    /// The recorded end put something out.
    fn note_recorded_answer(&mut self, row: &str) {
        let answer = row.strip_prefix("answered").unwrap_or("");
        let _ = write!(self.recorded_answers, "{answer}\n");
    }

    /// What the user was told, a line each.
    pub fn told(&self) -> &str {
        self.recorder.told.as_str()
    }

    /// How many datagrams were heard.
    pub fn heard(&self) -> u32 {
        self.heard
    }

    /// How many datagrams were put out.
    pub fn put_out(&self) -> u32 {
        self.recorder.put_out
    }

    /// What was put out by each row, except by messages and by SACK, and what the recorded end put out: a line each.
    pub fn answers(&self) -> (&str, &str) {
        (self.answers.as_str(), self.recorded_answers.as_str())
    }

    /// How many messages came, and how many of them SACK answered at once.
    pub fn confirmed(&self) -> (u32, u32) {
        (self.messages, self.confirmed)
    }

    /// How many cookies were echoed, and how many of them as they had come.
    pub fn echoed(&self) -> (u32, u32) {
        (self.recorder.echoed, self.recorder.as_it_came)
    }

    /// Whether the user was told what was recorded.
    pub fn verdict(&self) -> &'static str {
        if self.told() == self.recorded.as_str() {
            "as recorded"
        } else {
            "not as recorded"
        }
    }
}

/// The type of the first chunk of the datagram in a row.
fn kind_in(row: &str) -> &'static str {
    let mut buffer = [0; OCTETS];
    let datagram: &[u8] = octets(row, 2, &mut buffer);
    let Some(packet) = Packet::read(datagram) else {
        return "no packet";
    };
    match packet.chunks().next() {
        Some(chunk) => kind_of(chunk),
        None => "no packet",
    }
}
