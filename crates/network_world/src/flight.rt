//! The frames in flight on one stream of one link, in one direction.

ghost use Rattle.std.specs.Prelude.{◌≡◌, ℕ, List, [], false, ◌++◌, drop, take, slice_get, slice_index_or, slice_set};
ghost use Rattle.std.specs.Prelude.{replicate, IfOk, OnOk, OnErr};
ghost use Rattle.exchange.specs.KeptQueues.{kept};
ghost use Rattle.exchange_rules.specs.Exchange.{taken};
ghost use Rattle.pair_rules.specs.Pairs.{in_flight};
ghost use Rattle.network_world.specs.KeptSites.{text_to_take, behind, is_link_status, status_in, data_in};
ghost use Rattle.network_world.specs.KeptSites.{take_outcome, without_first, with_first_twice};

use exchange::{BUFFER_OCTETS, Exchange, FrameText, NoMemory};
use settings::{LinkId, Outcome};
use std::alloc::{AllocError, Global};
use std::collections::VecDeque;
use std::marker::Model;

/// The place of the message type in a frame (RFC 4165 §2.1).
const MESSAGE_TYPE_PLACE: usize = 3;

/// The message type of Link Status (RFC 4165 §2.1.4).
const LINK_STATUS: u8 = 2;

/// The frames in flight on one stream of one link, in one direction: the first that went out is the first to come.
#[derive(Drop)]
pub(crate) struct Flight {
    frames: VecDeque<FrameText>,
}

impl Model for Flight {
    ghost Value = { List (List ℕ) };

    ghost view = { λ flight. flight.frames.items };
}

impl Flight {
    /// Nothing is in flight.
    pub(crate) fn new(alloc: Global) -> Flight
        ensures { result ≡ [] }
    {
        Flight {
            frames: VecDeque::new(alloc),
        }
    }

    /// The first frame comes, where there is one.
    pub(crate) fn pop(&mut self) -> Option<FrameText>
        ensures first { result ≡ slice_get self.old 0 }
        ensures rest { self.new ≡ drop 1 self.old }
    {
        self.frames.pop_front()
    }

    /// All that is in flight is gone.
    pub(crate) fn clear(&mut self)
        ensures { self.new ≡ [] }
    {
        self.frames.clear();
    }

    /// The first frame is in flight twice, where there is one. After NoMemory nothing has changed.
    pub(crate) fn double(&mut self) -> Result<Outcome, NoMemory>
        ensures outcome { IfOk result (λ outcome. outcome ≡ take_outcome (slice_get self.old 0)) }
        ensures frames { OnOk result (self.new ≡ take 1 self.old ++ self.old) }
        ensures unchanged { OnErr result (self.new ≡ self.old) }
    {
        self.frames.reserve(1)?;
        let Some(first) = self.frames.front() else {
            return Ok(Outcome::Ignored);
        };
        let again = FrameText::new(first.octets());
        self.frames.push_front_reserved(again);
        Ok(Outcome::Handled)
    }
}

/// The next frame of a link of an exchange goes out behind the others of its stream, where there is one. After NoMemory
/// nothing has changed.
pub(crate) fn take_behind(
    statuses: &mut Flight,
    user_data: &mut Flight,
    exchange: &mut Exchange,
    link: LinkId,
) -> Result<Outcome, NoMemory>
    ensures outcome { IfOk result (λ outcome. outcome ≡ take_outcome (text_to_take exchange.old link)) }
    ensures statuses { OnOk result (statuses.new ≡ behind statuses.old (status_in (text_to_take exchange.old link))) }
    ensures data { OnOk result (user_data.new ≡ behind user_data.old (data_in (text_to_take exchange.old link))) }
    ensures exchange { OnOk result (exchange.new ≡ taken kept exchange.old link) }
    ensures same_statuses { OnErr result (statuses.new ≡ statuses.old) }
    ensures same_data { OnErr result (user_data.new ≡ user_data.old) }
    ensures same_exchange { OnErr result (exchange.new ≡ exchange.old) }
{
    statuses.frames.reserve(1)?;
    user_data.frames.reserve(1)?;
    let Some(text) = next_text(exchange, link) else {
        return Ok(Outcome::Ignored);
    };
    if is_link_status(&text) {
        statuses.frames.push_back_reserved(text);
    } else {
        user_data.frames.push_back_reserved(text);
    }
    Ok(Outcome::Handled)
}

/// Whether a frame is a link status.
fn is_link_status(text: &FrameText) -> bool
    ensures { result ≡ is_link_status text.now }
{
    match text.octets().get(MESSAGE_TYPE_PLACE) {
        Some(kind) => *kind == LINK_STATUS,
        None => false,
    }
}

/// The octets of the next frame that goes out on a link.
pub(crate) fn next_text(exchange: &mut Exchange, link: LinkId) -> Option<FrameText>
    ensures text { result ≡ text_to_take exchange.old link }
    ensures state { exchange.new ≡ taken kept exchange.old link }
{
    let mut buffer = [0; BUFFER_OCTETS];
    let count = exchange.take(link, &mut buffer)?;
    Some(FrameText::new(&buffer[..count]))
}

/// The first frame in flight on a link of a stream comes, where there is one.
pub(crate) fn next_in_flight(incoming: &mut Vec<Flight>, link: LinkId) -> Option<FrameText>
    ensures first { result ≡ slice_get (in_flight incoming.old.items link) 0 }
    ensures rest { incoming.new.items ≡ without_first result link incoming.old.items }
{
    if link.index() >= incoming.len() {
        return None;
    }
    incoming[link.index()].pop()
}

/// The first frame in flight on a link of a stream comes twice, where there is one. After NoMemory nothing has changed.
pub(crate) fn double_in_flight(frames: &mut Vec<Flight>, link: LinkId) -> Result<Outcome, NoMemory>
    ensures outcome { IfOk result (λ outcome.
        outcome ≡ take_outcome (slice_get (in_flight frames.old.items link) 0)) }
    ensures frames { OnOk result (frames.new.items ≡
        with_first_twice (slice_get (in_flight frames.old.items link) 0) link frames.old.items) }
    ensures unchanged { OnErr result (frames.new.items ≡ frames.old.items) }
{
    if link.index() >= frames.len() {
        return Ok(Outcome::Ignored);
    }
    frames[link.index()].double()
}

/// Nothing is in flight on a link any more.
pub(crate) fn clear_flight(incoming: &mut Vec<Flight>, link: LinkId)
    ensures { incoming.new.items ≡ slice_set incoming.old.items link [] }
{
    if link.index() < incoming.len() {
        incoming[link.index()].clear();
    }
}

/// Whether an end may follow the other on a link, by what is noted of each link.
pub(crate) fn is_noted(following: &Vec<bool>, link: LinkId) -> bool
    ensures { result ≡ slice_index_or following.now.items link false }
{
    link.index() < following.len() && following[link.index()]
}

/// Notes whether an end may follow on a link.
pub(crate) fn note(following: &mut Vec<bool>, link: LinkId, follows: bool)
    ensures { following.new.items ≡ slice_set following.old.items link follows }
{
    if link.index() < following.len() {
        following[link.index()] = follows;
    }
}

/// Nothing is in flight on so many links.
pub(crate) fn nothing_in_flight(alloc: Global, links: usize) -> Result<Vec<Flight>, AllocError>
    ensures { IfOk result (λ incoming. incoming.items ≡ replicate links []) }
{
    let mut incoming = Vec::with_capacity(alloc, links)?;
    for _ in 0..links {
        incoming.push(Flight::new(alloc))?;
    }
    Ok(incoming)
}

/// No end follows on so many links.
pub(crate) fn none_follows(alloc: Global, links: usize) -> Result<Vec<bool>, AllocError>
    ensures { IfOk result (λ following. following.items ≡ replicate links false) }
{
    let mut following = Vec::with_capacity(alloc, links)?;
    for _ in 0..links {
        following.push(false)?;
    }
    Ok(following)
}
