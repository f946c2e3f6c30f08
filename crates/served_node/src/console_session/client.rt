//! One client.

ghost use Rattle.std.specs.Prelude.{◌≡◌, ◌≢◌, ℕ, ◌+◌, ◌<◌, ◌≤◌, true, false, List, [], ◌∷◌, ◌++◌};
ghost use Rattle.std.specs.Prelude.{length, take, drop};
ghost use Rattle.script.specs.Asking.{asked_line};
ghost use Rattle.served_node.specs.Answers.{IsAnswered};
ghost use Rattle.std.specs.Option.{option_map};
ghost use Rattle.served_node.specs.Captured.{after_order, answer_to, order_of};
ghost use Rattle.served_node.specs.Clients.{just_came, sees_of, told_of, untold, OnlyOutboxChanges};
ghost use Rattle.served_node.specs.Clients.{line_feed, without_return, EndsNoLine, IsOneLine};
ghost use Rattle.served_node.specs.WholeLines.{DoesLine, DoesLineAt, IsAnsweredBy, IsRefusedBy};
ghost use Rattle.served_node.specs.WholeLines.{IsLinkShown, IsShown, ending_by, ending_of, output_of, shown};
ghost use Rattle.served_node.specs.Alarmed.{alarms_text};
ghost use Rattle.served_node.specs.Listings.{listing_text, settings_text};
ghost use Rattle.settings.specs.Readings.{link_place};
ghost use Rattle.served_node.specs.declared.console_session.outbox.TheConstants.{OUTBOX_OCTETS};

use super::alarming::print_alarms;
use super::answering::do_script_line;
use super::capturing::{order_capture, print_captured};
use super::command::{ConsoleLine, parse_console_line, without_return};
use super::counting::print_counters;
use super::help::HELP;
use super::listing::{Listing, print_listing};
use super::outbox::Outbox;
use super::settings_text::print_settings;
use crate::captured_links::CapturedLinks;
use console::{MalformedAnswer, SpacedLine, no_link_answer, title_answer};
use exchange::Exchange;
use script::{Grown, Line, Malformed, OpenLine, Sink, WriteFailed};
use served_link::{Alarms, Counters, ServiceStates};
use settings::PointFormat;
use std::alloc::Global;
use std::marker::Model;
use std::mem;

/// Octets of a line of a client, at most, without the line feed that ends it: as many as in a script.
pub const LINE_OCTETS: usize = 8300;

/// The answer to a line that asks to be told something from now on, and to `quit`.
const WATCHING: &[u8] = b"handled\n";

/// The answer to `stop`.
const STOPPING: &[u8] = b"stopping\n";

/// What `show version` shows.
const VERSION: &[u8] = b"stp 0.1.0\n";

/// What a client is told from when it asks for it.
#[derive(Clone, Copy, Debug, PartialEq, Eq)]
pub enum News {
    /// A message for this point.
    Message,
    /// A notice.
    Notice,
    /// A frame.
    Frame,
}

/// What becomes of a client.
#[derive(Clone, Copy, Debug, PartialEq, Eq)]
pub enum Ending {
    /// Its connection stays open.
    Stays,
    /// Its connection must be closed: a line was too long or its first line malformed, or what it is told had no room.
    /// Empty lines and remarks do nothing, so none of them is its first line.
    Closes,
    /// It asked to be closed, once all that waits for it is written. Nothing more is read of it.
    Leaves,
    /// It asked the node to stop.
    Stops,
}

/// What the lines of clients act on.
#[derive(Drop)]
pub struct ConsoleContext<'a> {
    /// The node.
    pub exchange: &'a mut Exchange,
    /// The counters of its links.
    pub counters: &'a Counters,
    /// Which alarms are raised.
    pub alarms: &'a Alarms,
    /// Its links as they were last seen.
    pub links: &'a ServiceStates,
    /// How point codes are read and shown.
    pub points: PointFormat,
    /// How many milliseconds a tick takes.
    pub tick_ms: u16,
    /// Which of its links are captured.
    pub captured: &'a mut CapturedLinks,
}

/// A client of the console: the line that it is writing, what waits to be written to it, and what it is told.
///
/// One whose first line is malformed is closed, so a web page that posts to the console's port does nothing.
#[derive(Drop)]
pub struct ConsoleClient {
    alloc: Global,
    line: OpenLine,
    is_first: bool,
    outbox: Outbox,
    sees_messages: bool,
    sees_notices: bool,
    sees_frames: bool,
}

impl Model for ConsoleClient {
    ghost use Rattle.served_node.specs.Clients.{ClientState};

    ghost Value = { ClientState };

    ghost view = { λ c. record {
      line = c.line.octets;
      is_first = c.is_first;
      outbox = c.outbox;
      sees_messages = c.sees_messages;
      sees_notices = c.sees_notices;
      sees_frames = c.sees_frames;
    } };
}

impl ConsoleClient {
    /// A client that just came.
    pub fn new(alloc: Global) -> ConsoleClient
        ensures { result ≡ just_came }
    {
        ConsoleClient {
            alloc,
            line: OpenLine::first(),
            is_first: true,
            outbox: Outbox::new(alloc),
            sees_messages: false,
            sees_notices: false,
            sees_frames: false,
        }
    }

    /// Takes octets that came, up to the end of the first line in them, and does that line. If no line ends in them, it
    /// takes them all except those after the octet that makes the line too long. Returns how many it took, and what
    /// becomes of the client.
    pub fn read(&mut self, octets: &[u8], context: &mut ConsoleContext<'_>) -> (usize, Ending)
        ensures within { result.0 ≤ length octets.now }
        ensures one_line { IsOneLine (take result.0 octets.now) }
        // So whoever calls it again with the octets that are left comes to their end.
        ensures some { 0 < length octets.now → 0 < result.0 }
        // Octets that end no line, and for which the line has room, only make it longer.
        ensures longer { EndsNoLine octets.now → length self.old.line + length octets.now ≤ LINE_OCTETS
            → self.new ≡ record self.old { line = self.old.line ++ octets.now } }
        ensures stays { EndsNoLine octets.now → length self.old.line + length octets.now ≤ LINE_OCTETS
            → result ≡ (length octets.now, Ending.Stays) }
        ensures too_long { (front behind : List ℕ) → octets.now ≡ front ++ behind → EndsNoLine front → 0 < length front
            → LINE_OCTETS < length self.old.line + length front → result.1 ≡ Ending.Closes }
        // They do nothing to the node, and don't stop it.
        ensures still { EndsNoLine octets.now → context.new.exchange.now ≡ context.old.exchange.now }
        ensures captured_still { EndsNoLine octets.now → context.new.captured.now ≡ context.old.captured.now }
        ensures goes_on { EndsNoLine octets.now → result.1 ≢ Ending.Stops }
        // How points are read, and the counters, stay whatever comes.
        ensures points { context.new.points ≡ context.old.points }
        ensures counters { context.new.counters.now ≡ context.old.counters.now }
        ensures alarms { context.new.alarms.now ≡ context.old.alarms.now }
        ensures links { context.new.links.now ≡ context.old.links.now }
        ensures tick { context.new.tick_ms ≡ context.old.tick_ms }
        // A line that comes to its end, and isn't too long, is done.
        ensures done { (front behind : List ℕ) → octets.now ≡ front ++ line_feed ∷ behind → EndsNoLine front
            → length self.old.line + length front ≤ LINE_OCTETS
            → (result.0 ≡ length front + 1)
            × DoesLine (without_return (self.old.line ++ front))
            (shown context.old.points context.old.counters.now context.old.alarms.now
            context.old.links.now context.old.tick_ms)
            context.old.captured.now context.new.captured.now result.1 context.old.exchange.now context.new.exchange.now
            (record self.old { line = [] }) self.new }
    {
        for (k, octet) in octets.iter().enumerate() {
            match self.line.add(*octet) {
                Grown::Open => {}
                Grown::TooLong => return (k + 1, Ending::Closes),
                Grown::Whole => return (k + 1, self.end_line(context)),
            }
        }
        (octets.len(), Ending::Stays)
    }

    /// Does the line that just ended, and begins the next one.
    fn end_line(&mut self, context: &mut ConsoleContext<'_>) -> Ending
        ensures points { context.new.points ≡ context.old.points }
        ensures counters { context.new.counters.now ≡ context.old.counters.now }
        ensures alarms { context.new.alarms.now ≡ context.old.alarms.now }
        ensures links { context.new.links.now ≡ context.old.links.now }
        ensures tick { context.new.tick_ms ≡ context.old.tick_ms }
        ensures done { DoesLine (without_return self.old.line)
            (shown context.old.points context.old.counters.now context.old.alarms.now
            context.old.links.now context.old.tick_ms)
            context.old.captured.now context.new.captured.now result
            context.old.exchange.now context.new.exchange.now
            (record self.old { line = [] }) self.new }
    {
        let line = mem::replace(&mut self.line, OpenLine::first());
        let is_first = mem::replace(&mut self.is_first, false);
        let spaced = SpacedLine::of(without_return(line.octets()));
        match self.do_line(spaced.trimmed(), is_first, context) {
            Ok(ending) => ending,
            Err(WriteFailed) => Ending::Closes,
        }
    }

    /// Does a whole line without needless spaces, the client's first one or a later one. The error means that there is
    /// no room for its answer. Behind an empty line or a remark the next one is still the first.
    fn do_line(
        &mut self,
        line: &[u8],
        is_first: bool,
        context: &mut ConsoleContext<'_>,
    ) -> Result<Ending, WriteFailed>
        ensures points { context.new.points ≡ context.old.points }
        ensures counters { context.new.counters.now ≡ context.old.counters.now }
        ensures alarms { context.new.alarms.now ≡ context.old.alarms.now }
        ensures links { context.new.links.now ≡ context.old.links.now }
        ensures tick { context.new.tick_ms ≡ context.old.tick_ms }
        ensures done { DoesLineAt is_first line.now
            (shown context.old.points context.old.counters.now context.old.alarms.now
            context.old.links.now context.old.tick_ms)
            context.old.captured.now context.new.captured.now
            (ending_of result) context.old.exchange.now context.new.exchange.now self.old self.new }
    {
        match parse_console_line(line, context.points) {
            Ok(ConsoleLine::Skipped) => self.is_first = is_first,
            Ok(ConsoleLine::Script(line)) => self.do_script(line, context)?,
            Ok(ConsoleLine::Counters) => {
                print_counters(context.exchange, context.counters, &mut self.outbox)?;
            }
            Ok(ConsoleLine::Capture { is_on, link }) => self.order_capture(is_on, link, context)?,
            Ok(ConsoleLine::Captured) => {
                print_captured(context.exchange, context.captured, &mut self.outbox)?;
            }
            Ok(ConsoleLine::Version) => self.answer(VERSION)?,
            Ok(ConsoleLine::Alarms) => self.show_alarms(context)?,
            Ok(ConsoleLine::Listing(listing)) => self.list(listing, context)?,
            Ok(ConsoleLine::Link(name)) => self.show_link(name, context)?,
            Ok(ConsoleLine::Settings) => self.show_settings(context)?,
            Ok(ConsoleLine::Title(name)) => {
                let answer = title_answer(context.exchange, &name, context.points);
                self.answer(answer.as_bytes())?;
            }
            Ok(ConsoleLine::Help) => self.answer(HELP)?,
            Ok(ConsoleLine::Users) => self.begin(News::Message)?,
            Ok(ConsoleLine::Notices) => self.begin(News::Notice)?,
            Ok(ConsoleLine::Frames) => self.begin(News::Frame)?,
            Ok(ConsoleLine::Quit) => {
                self.leave()?;
                return Ok(Ending::Leaves);
            }
            Ok(ConsoleLine::Stop) => {
                self.answer(STOPPING)?;
                return Ok(Ending::Stops);
            }
            Err(Malformed) => {
                self.refuse(line, context.points)?;
                if is_first {
                    return Ok(Ending::Closes);
                }
            }
        }
        Ok(Ending::Stays)
    }

    /// Does a line of a script, and returns what a script prints for it.
    fn do_script(
        &mut self,
        line: Line<'_>,
        context: &mut ConsoleContext<'_>,
    ) -> Result<(), WriteFailed>
        ensures points { context.new.points ≡ context.old.points }
        ensures counters { context.new.counters.now ≡ context.old.counters.now }
        ensures alarms { context.new.alarms.now ≡ context.old.alarms.now }
        ensures links { context.new.links.now ≡ context.old.links.now }
        ensures tick { context.new.tick_ms ≡ context.old.tick_ms }
        ensures captured { context.new.captured.now ≡ context.old.captured.now }
        ensures same { OnlyOutboxChanges self.old self.new }
        ensures answer { IsAnswered (asked_line line.entry) context.old.exchange.now result context.new.exchange.now
            (output_of self.old.outbox) (output_of self.new.outbox) }
    {
        do_script_line(context.exchange, line, &mut self.outbox)
    }

    /// Does an order about the capture of the link of this name, or of all, and answers it.
    fn order_capture(
        &mut self,
        is_on: bool,
        name: Option<&[u8]>,
        context: &mut ConsoleContext<'_>,
    ) -> Result<(), WriteFailed>
        ensures points { context.new.points ≡ context.old.points }
        ensures counters { context.new.counters.now ≡ context.old.counters.now }
        ensures alarms { context.new.alarms.now ≡ context.old.alarms.now }
        ensures links { context.new.links.now ≡ context.old.links.now }
        ensures tick { context.new.tick_ms ≡ context.old.tick_ms }
        ensures exchange { context.new.exchange.now ≡ context.old.exchange.now }
        ensures captured { context.new.captured.now
            ≡ after_order (order_of context.old.exchange.now.settings is_on (option_map (λ name. name.now) name.entry))
            context.old.captured.now }
        ensures answer { IsAnsweredBy
            (answer_to (order_of context.old.exchange.now.settings is_on (option_map (λ name. name.now) name.entry))
            context.old.captured.now) result self.old self.new }
    {
        let answer = order_capture(context.exchange.settings(), context.captured, is_on, name);
        self.answer(answer)
    }

    /// Shows a listing.
    fn list(&mut self, listing: Listing, context: &ConsoleContext<'_>) -> Result<(), WriteFailed>
        ensures { IsShown (listing_text context.now.points context.now.tick_ms context.now.links.now
            context.now.counters.now.links context.now.exchange.now listing) (ending_by result) self.old self.new }
    {
        print_listing(
            context.exchange,
            &listing,
            context.links,
            context.counters,
            context.points,
            context.tick_ms,
            &mut self.outbox,
        )
    }

    /// Shows the alarms that are raised.
    fn show_alarms(&mut self, context: &ConsoleContext<'_>) -> Result<(), WriteFailed>
        ensures { IsShown (alarms_text context.now.points context.now.exchange.now.settings context.now.alarms.now)
            (ending_by result) self.old self.new }
    {
        print_alarms(
            context.exchange,
            context.alarms,
            context.points,
            &mut self.outbox,
        )
    }

    /// Shows the settings as they are now.
    fn show_settings(&mut self, context: &ConsoleContext<'_>) -> Result<(), WriteFailed>
        ensures { IsShown (settings_text context.now.points context.now.exchange.now) (ending_by result)
            self.old self.new }
    {
        print_settings(context.exchange, context.points, &mut self.outbox)
    }

    /// Shows what is known of the link of this name. If there is none, says so, and which name is nearest.
    fn show_link(&mut self, name: &[u8], context: &ConsoleContext<'_>) -> Result<(), WriteFailed>
        ensures { IsLinkShown (link_place context.now.exchange.now.settings name.now) name.now
            context.now.points context.now.tick_ms context.now.links.now context.now.counters.now.links
            (ending_by result) context.now.exchange.now self.old self.new }
    {
        let settings = context.exchange.settings();
        match settings.link_named(name) {
            Some(link) => self.list(Listing::Link(link), context),
            None => {
                let answer = no_link_answer(self.alloc, settings, name);
                self.answer(answer.as_bytes())
            }
        }
    }

    /// Answers a line that a client may not write by what is wrong with it.
    fn refuse(&mut self, line: &[u8], points: PointFormat) -> Result<(), WriteFailed>
        ensures { IsRefusedBy points line.now result self.old self.new }
    {
        let answer = MalformedAnswer::to(self.alloc, line, points);
        self.answer(answer.as_slice())
    }

    /// The client is told no news from now on.
    fn leave(&mut self) -> Result<(), WriteFailed>
        ensures { IsAnsweredBy WATCHING.now result (untold self.old) self.new }
    {
        self.sees_messages = false;
        self.sees_notices = false;
        self.sees_frames = false;
        self.answer(WATCHING)
    }

    fn answer(&mut self, text: &[u8]) -> Result<(), WriteFailed>
        ensures { IsAnsweredBy text.now result self.old self.new }
    {
        self.outbox.write(text)
    }

    /// The client is told such news from now on.
    fn begin(&mut self, news: News) -> Result<(), WriteFailed>
        ensures { IsAnsweredBy WATCHING.now result (told_of self.old news) self.new }
    {
        match news {
            News::Message => self.sees_messages = true,
            News::Notice => self.sees_notices = true,
            News::Frame => self.sees_frames = true,
        }
        self.answer(WATCHING)
    }

    /// What was read of the line that the client is writing.
    pub fn line(&self) -> &[u8]
        ensures { result.now ≡ self.now.line }
    {
        self.line.octets()
    }

    /// Whether the client asked for such news.
    pub fn sees(&self, news: News) -> bool
        ensures { result ≡ sees_of self.now news }
    {
        match news {
            News::Message => self.sees_messages,
            News::Notice => self.sees_notices,
            News::Frame => self.sees_frames,
        }
    }

    /// Tells the client news, if it asked for such. It must be closed if there is no room for them.
    pub fn tell(&mut self, news: News, line: &[u8]) -> Ending
        ensures unasked { sees_of self.old news ≡ false → self.new ≡ self.old }
        ensures stays { sees_of self.old news ≡ false → result ≡ Ending.Stays }
        ensures told { sees_of self.old news ≡ true → result ≡ Ending.Stays
            → self.new.outbox.octets ≡ self.old.outbox.octets ++ line.now }
        ensures full { sees_of self.old news ≡ true
            → OUTBOX_OCTETS < length self.old.outbox.octets + length line.now → result ≡ Ending.Closes }
        ensures refused { result ≡ Ending.Closes → self.new.outbox.octets ≡ self.old.outbox.octets }
        ensures goes_on { result ≢ Ending.Stops }
        ensures same { OnlyOutboxChanges self.old self.new }
    {
        if !self.sees(news) {
            return Ending::Stays;
        }
        match self.outbox.write(line) {
            Ok(()) => Ending::Stays,
            Err(WriteFailed) => Ending::Closes,
        }
    }

    /// What waits to be written to the client.
    pub fn pending(&self) -> &[u8]
        ensures { result.now ≡ self.now.outbox.octets }
    {
        self.outbox.pending()
    }

    /// This many of the octets that wait were written, from the first; no more can have been than wait.
    pub fn written(&mut self, count: usize)
        ensures { self.new ≡ record self.old {
          outbox = record self.old.outbox { octets = drop count self.old.outbox.octets };
        } }
    {
        let waiting = self.outbox.pending().len();
        self.outbox.written(count.min(waiting));
    }
}
