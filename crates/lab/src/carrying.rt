//! A frame that is carried from one node to the other by streams.

ghost use Rattle.std.specs.Prelude.{◌≡◌, ◌≤◌, ◌<◌, ◌+◌, length};
ghost use Rattle.exchange.specs.KeptQueues.{kept};
ghost use Rattle.exchange.specs.Calls.{StandsFor};
ghost use Rattle.exchange_rules.specs.Exchange.{taken};
ghost use Rattle.exchange_rules.specs.Queues.{whole};
ghost use Rattle.exchange_rules.specs.First.{Abstract};
ghost use Rattle.m2pa_codec.specs.Streams.{next_in};
ghost use Rattle.script.specs.Streams.{counted};
ghost use Rattle.lab.specs.Carrying.{text_to_take, carriage, Carries, Brings, FindsText, Holds};

use exchange::{BUFFER_OCTETS, Event, Exchange, FrameText, Framer, Next};
use script::{Sink, Source};
use settings::{Limits, LinkId, Outcome};

/// Reads of a stream for one frame, at most: no frame has more octets. Each read asks for one octet, and only while no
/// whole frame is held, so no octet behind the frame is read.
pub const MOVE_READS: usize = 4096;

/// What became of a frame that was to be carried.
#[derive(Drop)]
pub enum Carried {
    /// There was no frame.
    Nothing,
    /// What came at the other end was handed in, with this outcome.
    Got(Outcome),
    /// The streams didn't carry it: both ends lost the association.
    Lost,
}

/// Carries the next frame of the near exchange's link `from` to the far exchange's link `to`: its octets are written to
/// the sink, and what the source then gives is cut by the framer and handed in.
///
/// Returns `Lost` if the write failed, or if no whole frame came: what the framer holds can't be cut into frames, or
/// more was waited for, and a read failed or found the end. Then both exchanges lost the association. If it returns
/// `Got`, no write and no read failed, and no octet behind the frame was read. It allocates no memory.
pub fn carry<W: Sink, R: Source>(
    near: &mut Exchange,
    far: &mut Exchange,
    from: LinkId,
    to: LinkId,
    sink: &mut W,
    source: &mut R,
    framer: &mut Framer,
) -> Carried
    // For all abstract states that the exchanges stood for, what is carried is that of the abstract exchanges.
    ensures carried { (a : Abstract) → StandsFor near.old a → (b : Abstract) → StandsFor far.old b
        → (after_near : Abstract) × (after_far : Abstract) × StandsFor near.new after_near × StandsFor far.new after_far
        × Carries whole from to result a after_near b after_far
        (carriage (W.output sink.old) (R.input source.old) framer.old)
        (carriage (W.output sink.new) (R.input source.new) framer.new) }

    // The same on what is kept.
    ensures kept_carried { Carries kept from to result near.old near.new far.old far.new
        (carriage (W.output sink.old) (R.input source.old) framer.old)
        (carriage (W.output sink.new) (R.input source.new) framer.new) }
    ensures few { (R.input source.new).reads ≤ (R.input source.old).reads + MOVE_READS }
{
    carry_frame(near, far, from, to, sink, source, framer)
}

/// The same, on what is kept.
fn carry_frame<W: Sink, R: Source>(
    near: &mut Exchange,
    far: &mut Exchange,
    from: LinkId,
    to: LinkId,
    sink: &mut W,
    source: &mut R,
    framer: &mut Framer,
) -> Carried
    ensures carried { Carries kept from to result near.old near.new far.old far.new
        (carriage (W.output sink.old) (R.input source.old) framer.old)
        (carriage (W.output sink.new) (R.input source.new) framer.new) }
    ensures few { (R.input source.new).reads ≤ (R.input source.old).reads + MOVE_READS }
{
    let Some(frame) = next_frame(near, from) else {
        return Carried::Nothing;
    };
    match bring(frame.octets(), far, to, sink, source, framer) {
        Some(outcome) => Carried::Got(outcome),
        None => {
            near.step(&Event::AssociationDown(from));
            far.step(&Event::AssociationDown(to));
            Carried::Lost
        }
    }
}

/// The next frame that goes out on a link.
fn next_frame(exchange: &mut Exchange, link: LinkId) -> Option<FrameText>
    ensures text { result ≡ text_to_take kept exchange.old link }
    ensures state { exchange.new ≡ taken kept exchange.old link }
{
    let mut buffer = [0; BUFFER_OCTETS];
    let count = exchange.take(link, &mut buffer)?;
    Some(FrameText::new(&buffer[..count]))
}

/// Sends the octets of a frame, and hands in what comes. `None` where the streams fail: then nothing was handed in.
fn bring<W: Sink, R: Source>(
    frame: &[u8],
    far: &mut Exchange,
    to: LinkId,
    sink: &mut W,
    source: &mut R,
    framer: &mut Framer,
) -> Option<Outcome>
    ensures brought { Brings kept to result frame.now far.old far.new
        (carriage (W.output sink.old) (R.input source.old) framer.old)
        (carriage (W.output sink.new) (R.input source.new) framer.new) }
    ensures few { (R.input source.new).reads ≤ (R.input source.old).reads + MOVE_READS }
{
    let Ok(()) = sink.write(frame) else {
        return None;
    };
    let mut text = [0; Limits::FRAME_OCTETS];
    let Some(count) = next_text(source, framer, &mut text) else {
        return None;
    };
    Some(far.step(&Event::Frame(to, &text[..count])))
}

/// Reads until a whole text is held, which then lies at the front of the buffer; its length in octets. `None` where
/// none comes.
fn next_text<R: Source>(
    source: &mut R,
    framer: &mut Framer,
    text: &mut [u8; Limits::FRAME_OCTETS],
) -> Option<usize>
    ensures found { FindsText result text.new (R.input source.old) (R.input source.new) framer.old framer.new }
    ensures few { (R.input source.new).reads ≤ (R.input source.old).reads + MOVE_READS }
{
    for _ in 0..MOVE_READS {
        match framer.next(text) {
            Next::Whole(count) => return Some(count),
            Next::Broken => return None,
            Next::Wait => {}
        }
        if !read_octet(source, framer) {
            return None;
        }
    }
    match framer.next(text) {
        Next::Whole(count) => Some(count),
        Next::Wait | Next::Broken => None,
    }
}

/// Reads an octet into the framer, which waits for one. False where the read fails or finds the end.
fn read_octet<R: Source>(source: &mut R, framer: &mut Framer) -> bool
    requires waits { next_in framer.old ≡ Next.Wait }
    requires room { length framer.old < Limits.FRAME_OCTETS }
    ensures held { Holds result (R.input source.old) (R.input source.new) framer.old framer.new }
    ensures made { (R.input source.new).reads ≡ counted (R.input source.old).reads }
{
    let mut octet = [0];
    match source.read(&mut octet) {
        Ok(0) | Err(_) => false,
        Ok(count) => {
            framer.feed(&octet[..count]);
            true
        }
    }
}
