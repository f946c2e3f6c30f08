//! What an endpoint tells, handed in to an exchange.

ghost use Rattle.std.specs.Prelude.{◌≡◌, [], ◌∷◌};
ghost use Rattle.exchange.specs.KeptQueues.{kept};
ghost use Rattle.sctp_rules.specs.State.{Heard};
ghost use Rattle.sctp_bundling.specs.Watching.{told_of, message_of};
ghost use Rattle.sctp_gate.specs.Watching.{Gives};
ghost use Rattle.sctp_gate.specs.Handing.{after_one, sight_of};

use crate::watch::Watch;
use exchange::{Event, Exchange};
use sctp_endpoint::Event as Told;
use sctp_sending::Message;
use settings::LinkId;

/// The payload protocol identifier of M2PA (RFC 4165 §7.1).
pub const PROTOCOL: u32 = 5;

/// Hands in one of the events that an endpoint tells.
pub(crate) fn hand_in<W: Watch>(
    link: LinkId,
    told: &Told<'_>,
    exchange: &mut Exchange,
    watch: &mut W,
)
    ensures exchange { exchange.new ≡ after_one kept link (told_of told.now) exchange.old }
    ensures seen { Gives W.has watch.old watch.new [] (sight_of kept link (told_of told.now) exchange.old ∷ []) }
{
    match told {
        Told::Up => {
            exchange.step(&Event::AssociationUp(link));
            watch.came_up();
        }
        Told::Heard(message) => hand_in_message(link, message, exchange, watch),
        Told::Down(why) => {
            exchange.step(&Event::AssociationDown(link));
            watch.went_down(*why);
        }
        Told::Failed(why) => watch.failed(*why),
    }
}

/// Hands in a message, if it is a frame.
fn hand_in_message<W: Watch>(
    link: LinkId,
    message: &Message<'_>,
    exchange: &mut Exchange,
    watch: &mut W,
)
    ensures exchange { exchange.new ≡ after_one kept link (Heard (message_of message.now)) exchange.old }
    ensures seen { Gives W.has watch.old watch.new []
        (sight_of kept link (Heard (message_of message.now)) exchange.old ∷ []) }
{
    if message.protocol != PROTOCOL {
        watch.dropped(message);
        return;
    }
    let outcome = exchange.step(&Event::Frame(link, message.octets));
    watch.came_in(message.octets, &outcome);
}
