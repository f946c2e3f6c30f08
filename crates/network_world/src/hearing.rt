//! What comes to an exchange: a message that a user part hands over, and a frame.

ghost use Rattle.std.specs.Prelude.{◌≡◌, ◌≤◌, ◌∷◌, [], Ok, length, option_to_list};
ghost use Rattle.m2pa_codec.specs.Frames.{read_frame};
ghost use Rattle.m2pa_codec.specs.Values.{value_of};
ghost use Rattle.exchange_rules.specs.State.{FrameCame, Submitted};
ghost use Rattle.exchange_rules.specs.Exchange.{outcome_of, after};
ghost use Rattle.exchange.specs.KeptQueues.{kept};
ghost use Rattle.network_world.specs.Bringing.{number_in};
ghost use Rattle.network_world.specs.KeptSites.{accepted_number, handed_in, newly_brought, newly_carried, new_if_other, message_in};

use crate::bringing::{count_standing, is_sccp, told_in};
use exchange::{Event, Exchange, Frame, FrameText, LONGEST_FRAME, decode};
use sccp_relay::Titles;
use settings::{Limits, LinkId, Msu, Outcome};
use signalling_types::Number24;

/// What became of a message or a frame that came.
#[derive(Drop)]
pub(crate) struct Heard {
    /// Its outcome.
    pub outcome: Outcome,
    /// The message that a frame newly carried.
    pub carried: Option<Msu>,
    /// What it brought into a queue or Held.
    pub brought: Option<Msu>,
}

/// A user part hands a message over.
pub(crate) fn hand_over(exchange: &mut Exchange, rows: &Titles, message: &Msu) -> Heard
    requires rows { rows.now ≡ exchange.old.node.parts.titles }
    ensures outcome { result.outcome ≡ outcome_of kept (Submitted message.now) exchange.old }
    ensures state { exchange.new ≡ after kept (Submitted message.now) exchange.old }
    ensures brought { option_to_list result.brought ≡ handed_in message.now exchange.old }
{
    let counts = is_sccp(message);
    let before = count_standing(exchange, counts, Number24::zero());
    let outcome = exchange.step(&Event::Submit(message.lend()));
    let after = count_standing(exchange, counts, Number24::zero());
    let brought = told_in(&outcome, before != after, exchange, rows, message);
    Heard {
        outcome,
        carried: None,
        brought,
    }
}

/// A frame is handed in.
pub(crate) fn hand_in(
    exchange: &mut Exchange,
    rows: &Titles,
    link: LinkId,
    text: &FrameText,
) -> Heard
    requires rows { rows.now ≡ exchange.old.node.parts.titles }
    ensures outcome { result.outcome ≡ outcome_of kept (FrameCame link text.now) exchange.old }
    ensures state { exchange.new ≡ after kept (FrameCame link text.now) exchange.old }
    ensures carried { option_to_list result.carried ≡ newly_carried link text.now exchange.old }
    ensures brought { option_to_list result.brought ≡ newly_brought link text.now exchange.old }
{
    match message_in(text.octets()) {
        Some(message) => hand_in_message(exchange, rows, link, text, message),
        None => Heard {
            outcome: exchange.step(&Event::Frame(link, text.octets())),
            carried: None,
            brought: None,
        },
    }
}

/// The same, of a frame with a message.
fn hand_in_message(
    exchange: &mut Exchange,
    rows: &Titles,
    link: LinkId,
    text: &FrameText,
    message: Msu,
) -> Heard
    requires rows { rows.now ≡ exchange.old.node.parts.titles }
    requires message { message_in text.now ≡ message ∷ [] }
    ensures outcome { result.outcome ≡ outcome_of kept (FrameCame link text.now) exchange.old }
    ensures state { exchange.new ≡ after kept (FrameCame link text.now) exchange.old }
    ensures carried { option_to_list result.carried ≡ newly_carried link text.now exchange.old }
    ensures brought { option_to_list result.brought ≡ newly_brought link text.now exchange.old }
{
    let number = number_in(text.octets());
    let counts = is_sccp(&message);
    let before = count_standing(exchange, counts, number);
    let last = last_accepted(exchange, link);
    let outcome = exchange.step(&Event::Frame(link, text.octets()));
    let after = count_standing(exchange, counts, number);
    if last == last_accepted(exchange, link) {
        return Heard {
            outcome,
            carried: None,
            brought: None,
        };
    }
    let brought = told_in(&outcome, before != after, exchange, rows, &message);
    Heard {
        outcome,
        carried: Some(message),
        brought,
    }
}

/// The number with which a frame confirms; 0 where it can't be read.
fn number_in(octets: &[u8]) -> Number24
    requires { length octets.now ≤ LONGEST_FRAME }
    ensures { result ≡ number_in (read_frame octets.now) }
{
    match decode(octets) {
        Ok(frame) => number_of(frame),
        Err(_) => Number24::zero(),
    }
}

/// The number with which a frame confirms.
fn number_of(frame: Frame<'_>) -> Number24
    ensures { result ≡ number_in (Ok (value_of frame.entry)) }
{
    match frame {
        Frame::Message { bsn, .. } => bsn,
        Frame::Empty { bsn, .. } => bsn,
        Frame::Status { bsn, .. } => bsn,
    }
}

/// The number of the last message that was accepted on a link; 0 where the link isn't there.
pub(crate) fn last_accepted(exchange: &Exchange, link: LinkId) -> Number24
    ensures { result ≡ accepted_number exchange.now link }
{
    match exchange.link(link) {
        Some(view) => view.last_accepted,
        None => Number24::zero(),
    }
}

/// The message of a frame.
fn message_in(octets: &[u8]) -> Option<Msu>
    requires { length octets.now ≤ LONGEST_FRAME }
    ensures { option_to_list result ≡ message_in octets.now }
{
    match decode(octets) {
        Ok(Frame::Message { sio, sif, .. }) => Some(message_of(sio, sif)),
        Ok(Frame::Empty { .. }) => None,
        Ok(Frame::Status { .. }) => None,
        Err(_) => None,
    }
}

/// The message of a service information octet and a field.
fn message_of(sio: u8, sif: &[u8]) -> Msu
    requires { length sif.now ≤ Limits.SIF_OCTETS }
    ensures { result ≡ record { sio = sio; sif = sif.now } }
{
    let Ok(message) = Msu::new(sio, sif) else {
        unreachable!()
    };
    message
}
