//! Octets that come, handed in frame by frame.

ghost use Rattle.std.specs.Prelude.{◌≡◌, ◌<◌, length};
ghost use Rattle.m2pa_codec.specs.Streams.{next_in};
ghost use Rattle.exchange.specs.KeptQueues.{kept};
ghost use Rattle.exchange_rules.specs.Exchange.{after, outcome_of};
ghost use Rattle.exchange_rules.specs.State.{FrameCame};
ghost use Rattle.served_link.specs.Watching.{CameIn};
ghost use Rattle.served_link.specs.Reading.{Reads, Feeds, HandsIn, Stops};

use crate::association::Broken;
use crate::watch::Watch;
use exchange::{Event, Exchange, Framer, Next};
use settings::{Limits, LinkId};
use trace::ObservedFrame;

/// Takes octets that came, and hands in each frame that is whole. It lies in `text` meanwhile.
pub(crate) fn read_all<W: Watch>(
    link: LinkId,
    framer: &mut Framer,
    exchange: &mut Exchange,
    octets: &[u8],
    text: &mut [u8; Limits::FRAME_OCTETS],
    watch: &mut W,
) -> Result<(), Broken>
    ensures { Reads W.sees kept link octets.now result
        framer.old framer.new exchange.old exchange.new watch.old watch.new }
{
    let mut rest = octets;
    hand_in_held(link, framer, exchange, text, watch)?;
    while !rest.is_empty() {
        rest = feed(framer, rest);
        hand_in_held(link, framer, exchange, text, watch)?;
    }
    Ok(())
}

/// Feeds a framer from the front of the octets, and returns those that are left.
fn feed<'a>(framer: &mut Framer, octets: &'a [u8]) -> &'a [u8]
    requires waits { next_in framer.old ≡ Next.Wait }
    requires room { length framer.old < Limits.FRAME_OCTETS }
    requires some { 0 < length octets.now }
    ensures { Feeds octets.now result.now framer.old framer.new }
{
    let count = framer.feed(octets);
    &octets[count..]
}

/// Hands in each frame that the framer holds whole, in order.
fn hand_in_held<W: Watch>(
    link: LinkId,
    framer: &mut Framer,
    exchange: &mut Exchange,
    text: &mut [u8; Limits::FRAME_OCTETS],
    watch: &mut W,
) -> Result<(), Broken>
    ensures handed_in { HandsIn W.sees kept link framer.old framer.new exchange.old exchange.new watch.old watch.new }
    ensures answer { Stops result framer.new }
{
    loop {
        match framer.next(text) {
            Next::Whole(count) => hand_in(link, &text[..count], exchange, watch),
            Next::Wait => return Ok(()),
            Next::Broken => return Err(Broken),
        }
    }
}

/// Hands in a frame, and tells the watch of it.
fn hand_in<W: Watch>(link: LinkId, frame: &[u8], exchange: &mut Exchange, watch: &mut W)
    ensures state { exchange.new ≡ after kept (FrameCame link frame.now) exchange.old }
    ensures seen { W.sees watch.old (CameIn link frame.now (outcome_of kept (FrameCame link frame.now) exchange.old))
        watch.new }
{
    let outcome = exchange.step(&Event::Frame(link, frame));
    watch.came_in(link, &ObservedFrame::new(frame), &outcome);
}
