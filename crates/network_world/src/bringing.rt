//! What an event brings into a queue or Held at a node.

ghost use Rattle.std.specs.Prelude.{◌≡◌, ◌≤◌, ◌*◌, ◌^◌, true, Some, length, option_to_list, IfOk};
ghost use Rattle.pair_moves.specs.Laws.{sum_to};
ghost use Rattle.mtp3_codec.specs.declared.label.Label.{Label};
ghost use Rattle.exchange_rules.specs.Messages.{whither_goes, in_place_of, own_of};
ghost use Rattle.sccp_relay.specs.Relay as rule;
ghost use Rattle.sccp_relay.specs.Returning.{returned};
ghost use Rattle.network_world.specs.Bringing.{is_sccp, kept_behind, kept_standing, kept_standing_if, goes_on, comes_back, told_in, written_as, udts_as};

use exchange::{Exchange, NoMemory, Pick};
use mtp3_codec::{Discrimination, discriminate};
use sccp_relay::{Relayed, Titles, relay, returned};
use settings::{Cause, Limits, LinkId, Msu, Outcome, Settings};
use signalling_types::Number24;
use std::alloc::Global;

/// The user part that is SCCP (Q.704 §14.2.1).
const SCCP: u8 = 3;

/// The choice of all messages.
pub(crate) struct Every;

impl Pick for Every {
    ghost picks = { λ choice message. true };

    fn picks(&self, _message: &Msu) -> bool {
        true
    }
}

/// Whether a message is one of SCCP.
pub(crate) fn is_sccp(message: &Msu) -> bool
    ensures { result ≡ is_sccp message.now }
{
    message.service_indicator() == SCCP
}

/// A copy of the translation rows of an exchange, and of which of the subsystems that they lead to are prohibited.
pub(crate) fn rows_of(alloc: Global, exchange: &Exchange) -> Result<Titles, NoMemory>
    ensures { IfOk result (λ rows. rows ≡ exchange.now.node.parts.titles) }
{
    match exchange.titles().copy(alloc) {
        Ok(titles) => Ok(titles),
        Err(_) => Err(NoMemory),
    }
}

/// How many user messages stand at an exchange, behind a number on each link and in Held; 0 unless they are counted.
pub(crate) fn count_standing(exchange: &mut Exchange, counts: bool, number: Number24) -> u128
    ensures count { result ≡ kept_standing_if counts number exchange.old }
    ensures unchanged { exchange.new ≡ exchange.old }
{
    if !counts {
        return 0;
    }
    let links = exchange.settings().link_count() as u8;
    let on_links = count_behind(exchange, links, number);
    on_links + exchange.count_held_picked(&Every) as u128
}

/// The same, on the first so many links. Each link's count has 64 bits, so the sum has room in 128.
fn count_behind(exchange: &mut Exchange, links: u8, number: Number24) -> u128
    ensures count { result ≡ sum_to (kept_behind number exchange.old) links }
    ensures few { result ≤ links * 2 ^ 64 }
    ensures unchanged { exchange.new ≡ exchange.old }
{
    let mut count = 0u128;
    for link in 0..links {
        count += exchange.count_behind(LinkId::new(link), number, &Every) as u128;
    }
    count
}

/// What a message brings in, by what became of it, by whether more user messages stand then, and by where the links of
/// the exchange lead then.
pub(crate) fn told_in(
    outcome: &Outcome,
    is_more: bool,
    exchange: &Exchange,
    rows: &Titles,
    message: &Msu,
) -> Option<Msu>
    ensures { option_to_list result ≡ told_in outcome.now is_more
        (own_of exchange.now.settings exchange.now.node.parts) exchange.now.settings rows.now message.now }
{
    match outcome {
        Outcome::Queued(_) | Outcome::Held => goes_on(exchange, rows, message),
        Outcome::Refused(cause) if is_more => comes_back(*cause, exchange, rows, message),
        Outcome::Refused(_) | Outcome::Local | Outcome::Handled | Outcome::Ignored => None,
    }
}

/// What a message brings in that is queued or held.
fn goes_on(exchange: &Exchange, rows: &Titles, message: &Msu) -> Option<Msu>
    ensures { option_to_list result ≡ goes_on (whither_goes exchange.now.settings message.now)
        (own_of exchange.now.settings exchange.now.node.parts) rows.now message.now }
{
    match whither_goes(exchange.settings(), message) {
        Discrimination::Here(_) if is_sccp(message) => written(exchange, rows, message),
        Discrimination::Here(_) | Discrimination::Refused(_) => None,
        Discrimination::Transfer(_) => Some(*message),
    }
}

/// What returns a message that is refused, if anything does.
fn comes_back(cause: Cause, exchange: &Exchange, rows: &Titles, message: &Msu) -> Option<Msu>
    ensures { option_to_list result ≡ comes_back (whither_goes exchange.now.settings message.now) cause
        (own_of exchange.now.settings exchange.now.node.parts) rows.now message.now }
{
    match whither_goes(exchange.settings(), message) {
        Discrimination::Here(_) if is_sccp(message) => udts(cause, exchange, rows, message),
        Discrimination::Here(_) | Discrimination::Refused(_) | Discrimination::Transfer(_) => None,
    }
}

/// Where a message goes.
pub(crate) fn whither_goes(settings: &Settings, message: &Msu) -> Discrimination
    ensures whither { result ≡ whither_goes settings.now message.now }
    ensures whole { (label : Label) → result ≡ Discrimination.Here label → 4 ≤ length message.now.sif }
{
    let lent = message.lend();
    if lent.sif.len() > Limits::SIF_OCTETS {
        return Discrimination::Refused(Cause::TooLong);
    }
    discriminate(lent, settings.own(), settings.network())
}

/// An SCCP message as its relay writes it, where it goes on.
fn written(exchange: &Exchange, rows: &Titles, message: &Msu) -> Option<Msu>
    requires { 4 ≤ length message.now.sif }
    ensures { option_to_list result ≡
        written_as (rule.relay (own_of exchange.now.settings exchange.now.node.parts) rows.now message.now.sif)
        message.now }
{
    let mut field = [0; Limits::SIF_OCTETS];
    match relay(message.sif(), rows, &exchange.own(), &mut field) {
        Relayed::Onward(count) => in_place_of(message, &field[..count]),
        Relayed::Delivered | Relayed::Heard(_) | Relayed::Refused(_) => None,
    }
}

/// The UDTS or XUDTS that returns an SCCP message, if one does.
fn udts(cause: Cause, exchange: &Exchange, rows: &Titles, message: &Msu) -> Option<Msu>
    requires { 4 ≤ length message.now.sif }
    ensures { option_to_list result ≡
        udts_as (returned (own_of exchange.now.settings exchange.now.node.parts) rows.now message.now.sif cause)
        message.now }
{
    let mut field = [0; Limits::SIF_OCTETS];
    let count = returned(message.sif(), cause, rows, &exchange.own(), &mut field)?;
    in_place_of(message, &field[..count])
}

/// A message with another field, and the same service information octet.
fn in_place_of(message: &Msu, sif: &[u8]) -> Option<Msu>
    requires { length sif.now ≤ Limits.SIF_OCTETS }
    ensures { result ≡ Some (in_place_of message.now sif.now) }
{
    let Ok(other) = Msu::new(message.sio(), sif) else {
        unreachable!()
    };
    Some(other)
}
