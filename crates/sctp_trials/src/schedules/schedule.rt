//! One schedule.

ghost use Rattle.std.specs.Prelude.{◌≡◌};

use crate::dice::Dice;
use crate::schedules::counts::{Counts, count};
use crate::schedules::judging::judge;
use crate::schedules::octets::{
    COOKIE_ACK, COOKIE_ECHO, DATA, ERROR, STALE_COOKIE, cause, kind, tag, tsn,
};
use sctp_endpoint::{Address, Addresses, Settings};
use sctp_sending::{Bounds, Message};
use sctp_world::{Doing, End, Entry, Making, World};
use std::alloc::{AllocError, Global};

/// Steps of a schedule.
const STEPS: usize = 4_000;

/// The last four octets of a key whose first tag is 33 less than 2^32: so are the first TSNs of an end with it.
const WRAPPING_KEY: u32 = 20_731_166;

/// A datagram that comes is one of the latest this many, or any.
const LATEST: usize = 12;

/// Where datagrams come from.
const PLACE: Address = Address {
    host: [0; 16],
    port: 9_899,
};

/// What is known of an end while a schedule goes on.
#[derive(Clone, Copy)]
struct Known {
    is_up: bool,
    /// The tag of the latest DATA that it put out.
    tag: u32,
    /// The serial number of its next message.
    serial: u32,
}

/// An end of which nothing is known.
const UNKNOWN: Known = Known {
    is_up: false,
    tag: 0,
    serial: 0,
};

/// Plays the schedule of a seed, and counts what comes of it.
pub fn play(alloc: Global, seed: u32, counts: &mut Counts) -> Result<(), AllocError> {
    let mut dice = Dice::new(u64::from(seed));
    let first = if seed % 4 == 0 { WRAPPING_KEY } else { seed };
    let mut world = World::new(alloc, making(first, 0), making(seed, 2))?;
    let mut near = UNKNOWN;
    let mut far = UNKNOWN;
    let mut now = 0u64;
    for _ in 0..STEPS {
        now = now.saturating_add(dice.below(40) as u64);
        if dice.below(2) == 0 {
            step(
                &mut world,
                &mut dice,
                End::Near,
                End::Far,
                now,
                &mut near,
                &mut far,
                counts,
            );
        } else {
            step(
                &mut world,
                &mut dice,
                End::Far,
                End::Near,
                now,
                &mut far,
                &mut near,
                counts,
            );
        }
    }
    if world.is_whole() {
        count(&mut counts.whole);
    }
    judge(&world, End::Near, End::Far, counts);
    judge(&world, End::Far, End::Near, counts);
    Ok(())
}

/// An endpoint, under keys that end in this number. The key of its tags begins with an octet, that of its cookies with
/// the next one.
fn making(number: u32, begin: u8) -> Making
    ensures initial { result.settings.bounds.initial ≡ 300 }
    ensures least { result.settings.bounds.least ≡ 100 }
    ensures most { result.settings.bounds.most ≡ 1000 }
{
    Making {
        settings: Settings {
            own_port: 3_565,
            far_port: 3_565,
            address: PLACE,
            addresses: Addresses::none(),
            bounds: Bounds {
                initial: 300,
                least: 100,
                most: 1_000,
            },
            init_retransmissions: 8,
            retransmissions: 10,
            heartbeat: 5_000,
            cookie_life: 60_000,
        },
        tag_key: key(number, begin),
        cookie_key: key(number, begin.saturating_add(1)),
    }
}

/// A key that begins with an octet, and ends in a number.
fn key(number: u32, first: u8) -> [u8; 32] {
    let mut key = [0u8; 32];
    key[0] = first;
    let [a, b, c, d] = number.to_be_bytes();
    key[28] = a;
    key[29] = b;
    key[30] = c;
    key[31] = d;
    key
}

/// Something is done at an end.
fn step(
    world: &mut World,
    dice: &mut Dice,
    end: End,
    other: End,
    now: u64,
    here: &mut Known,
    there: &mut Known,
    counts: &mut Counts,
) {
    let told = world.told(end).len();
    let sent = world.sent(end).len();
    let mut opening = u8::MAX;
    match dice.below(64) {
        0 | 1 => act(world, end, Doing::Open(dice.below(2) == 0), now),
        2..=17 => send(world, dice, end, now, here),
        18..=29 => act(world, end, Doing::Flush, now),
        30..=35 => act(world, end, Doing::Tick, now),
        36 if dice.below(8) == 0 => act(world, end, Doing::Abort, now),
        37 if dice.below(12) == 0 => act(world, end, Doing::ShutDown, now),
        _ => opening = hear(world, dice, end, other, now, there, counts),
    }
    note_told(world, end, told, opening, here, there, counts);
    note_sent(world, end, sent, here, counts);
}

/// Does something; it doesn't matter if it can't be done.
fn act(world: &mut World, end: End, what: Doing<'_>, now: u64) {
    let _done = world.act(end, what, now);
}

/// A message with the next serial number is sent.
fn send(world: &mut World, dice: &mut Dice, end: End, now: u64, here: &mut Known) {
    let mut octets = [7u8; 280];
    let [a, b, c, d] = here.serial.to_be_bytes();
    octets[0] = a;
    octets[1] = b;
    octets[2] = c;
    octets[3] = d;
    here.serial = here.serial.saturating_add(1);
    let count = dice.below(276).min(276) + 4;
    let stream = dice.below(2).min(1) as u16;
    let message = Message {
        stream,
        protocol: 5,
        octets: &octets[..count],
    };
    act(world, end, Doing::Send(message), now);
}

/// A datagram of the other end comes, mostly one of the latest. Returns the type of its first chunk.
fn hear(
    world: &mut World,
    dice: &mut Dice,
    end: End,
    other: End,
    now: u64,
    there: &Known,
    counts: &mut Counts,
) -> u8 {
    let count_sent = world.sent(other).len();
    let back = if dice.below(10) == 0 {
        dice.below(count_sent)
    } else {
        dice.below(LATEST)
    };
    let place = count_sent.saturating_sub(back.saturating_add(1));
    let mut first = u8::MAX;
    if let Some(datagram) = world.sent(other).get(place) {
        first = kind(datagram.octets());
        if first == DATA && tag(datagram.octets()) != there.tag {
            count(&mut counts.former);
        }
    }
    act(world, end, Doing::Hear(place, PLACE), now);
    first
}

/// Notes what was told from an index on.
fn note_told(
    world: &World,
    end: End,
    from: usize,
    opening: u8,
    here: &mut Known,
    there: &Known,
    counts: &mut Counts,
) {
    let told = world.told(end);
    for i in from..told.len() {
        match told[i].what() {
            Entry::Up => {
                here.is_up = true;
                if opening == COOKIE_ECHO {
                    count(&mut counts.firsts);
                }
                if opening == COOKIE_ACK {
                    count(&mut counts.seconds);
                    if !there.is_up {
                        count(&mut counts.late_seconds);
                    }
                }
            }
            Entry::Down(_) => here.is_up = false,
            Entry::Heard(_) | Entry::Failed(_) => {}
        }
    }
}

/// Notes what was put out from an index on.
fn note_sent(world: &World, end: End, from: usize, here: &mut Known, counts: &mut Counts) {
    let sent = world.sent(end);
    for i in from..sent.len() {
        let octets = sent[i].octets();
        if kind(octets) == ERROR && cause(octets) == STALE_COOKIE {
            count(&mut counts.stale);
        }
        if kind(octets) == DATA {
            here.tag = tag(octets);
            if tsn(octets) < 256 {
                count(&mut counts.wraps);
            }
        }
    }
}
