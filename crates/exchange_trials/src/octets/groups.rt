//! Frames and streams that are tried, on links in service or on links that align.

use crate::dice::Dice;
use crate::octets::buffer::Octets;
use crate::octets::cutting::{Cutter, piece_of};
use crate::octets::good::{FarEnd, add_good, add_status};
use crate::octets::harm::harm;
use crate::octets::shown::LINKS;
use crate::octets::target::Target;
use exchange::{Limits, LinkId, LinkStanding};

/// Which links frames come on.
#[derive(Clone, Copy)]
pub(crate) struct Links {
    /// As it is printed.
    pub name: &'static str,
    /// Whether they are in service; one that is down is brought up first. If not, they align, or are in any state.
    in_service: bool,
    /// How many of sixteen frames are a Link Status, before they are harmed.
    statuses: u8,
}

pub(crate) const IN_SERVICE: Links = Links {
    name: "in service",
    in_service: true,
    statuses: 2,
};

pub(crate) const ALIGNING: Links = Links {
    name: "that align",
    in_service: false,
    statuses: 13,
};

/// A random link. It is brought into service, or goes on as it may; sometimes a tick passes before that.
fn random_link(target: &mut Target, dice: &mut Dice, links: Links) -> LinkId {
    let link = LinkId::new(dice.octet() % LINKS);
    if !links.in_service {
        go_on(target, dice, link);
        return link;
    }
    if dice.one_in(8) {
        target.tend_and_tick(1);
    }
    target.restore(link);
    link
}

/// At random a tick passes, the association of a link is lost, or a link that is down opens.
fn go_on(target: &mut Target, dice: &mut Dice, link: LinkId) {
    match dice.octet() % 32 {
        0..=4 => target.tick(),
        5..=6 => target.tend_and_tick(1),
        7 => target.lose(link),
        8..=29 if target.node.standing(link) == LinkStanding::Down => {
            target.lose(link);
            target.serve(link);
        }
        _ => {}
    }
}

/// Tries this many frames.
pub(crate) fn try_frames(target: &mut Target, dice: &mut Dice, links: Links, count: u64) {
    let mut frame = Octets::new();
    for _ in 0..count {
        let link = random_link(target, dice, links);
        let far = target.far_end(link);
        frame.cut(0);
        if !links.in_service && dice.one_in(2) {
            add_leading(dice, &far, target.node.standing(link), &mut frame);
        } else {
            add_good(dice, &far, links.statuses, &mut frame);
            harm(dice, &far, 0, &mut frame);
            frame.cut(Limits::FRAME_OCTETS);
        }
        target.try_frame(link, frame.as_slice());
        if links.in_service && dice.one_in(4) {
            target.tend(link);
        }
    }
}

/// Adds a good frame that leads a link on from where it stands.
fn add_leading(dice: &mut Dice, far: &FarEnd, standing: LinkStanding, frame: &mut Octets) {
    if standing == LinkStanding::InService {
        add_good(dice, far, 0, frame);
    } else {
        // Proving Normal or Ready (RFC 4165 §2.3.2), which lead the link on or are ignored.
        add_status(far, dice.one_of(&[2, 4]), frame);
    }
}

/// Tries this many streams. Returns how many were cut into the same frames in other pieces.
pub(crate) fn try_streams(target: &mut Target, dice: &mut Dice, links: Links, count: u64) -> u64 {
    let mut alike = 0u64;
    let mut stream = Octets::new();
    for _ in 0..count {
        let link = random_link(target, dice, links);
        let far = target.far_end(link);
        stream.cut(0);
        add_stream(dice, far, links, &mut stream);
        if try_stream(target, dice, link, stream.as_slice()) {
            alike = alike.wrapping_add(1);
        }
    }
    alike
}

/// Adds one to seven good frames with numbers one after another, of which some are harmed.
fn add_stream(dice: &mut Dice, far: FarEnd, links: Links, stream: &mut Octets) {
    let mut far = far;
    for _ in 0..=dice.octet() % 7 {
        let start = stream.len();
        far.sent = add_good(dice, &far, links.statuses, stream);
        if dice.one_in(2) {
            harm(dice, &far, start, stream);
        }
    }
}

/// Cuts a stream twice, and tries its frames on a link. If it breaks, the association is lost. Returns whether it was
/// cut alike.
fn try_stream(target: &mut Target, dice: &mut Dice, link: LinkId, octets: &[u8]) -> bool {
    let cutter = Cutter::of(dice, octets);
    try_pieces(target, link, octets, cutter.lengths.as_slice());
    if cutter.broken {
        target.lose(link);
    } else {
        target.tend(link);
    }
    cutter.agrees_with(&Cutter::of(dice, octets))
}

/// Tries the frames of a stream, which have this many octets each, one after another.
fn try_pieces(target: &mut Target, link: LinkId, octets: &[u8], lengths: &[usize]) {
    let mut from = 0usize;
    for length in lengths {
        target.try_frame(link, piece_of(octets, from, *length));
        from = from.saturating_add(*length);
    }
}
