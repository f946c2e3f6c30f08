//! Who is told of what passes: the counters, the capture, and the clients of the console.

ghost use Rattle.std.specs.Prelude.{◌≡◌, ◌≤◌, length, IfOk};
ghost use Rattle.served_link.specs.Counting.{first_counters};
ghost use Rattle.served_node.specs.Observers.{counted_sight};

use crate::captured_links::CapturedLinks;
use crate::clients::ConsoleClients;
use crate::console_session::News;
use crate::held_file::HeldFile;
use crate::log::Log;
use crate::missed_notices::MissedNotices;
use crate::node_watch::NodeWatch;
use crate::noticing::Seen;
use arrayvec::ArrayString;
use script::Sink;
use served_link::{Counters, Watch};
use settings::{Limits, LinkId, MsuRef, Outcome, Settings};
use std::alloc::{AllocError, Global};
use std::fmt::Write;
use std::time::Duration;
use trace::{
    Capture, Direction, ObservedFrame, PACKET_OCTETS, PointFormat, RECORD_HEADER_OCTETS,
    UntilFailure, WIRE_OCTETS, frame_words,
};

/// Octets of the line of a message for this point, at most: its link, two digits for each octet of the longest message,
/// and the word before it.
const MESSAGE_OCTETS: usize = 656;

/// Octets of a packet in the capture with its header, at most.
const LONGEST_PACKET: usize = RECORD_HEADER_OCTETS + WIRE_OCTETS;

/// A capture into a file.
pub type FileCapture = Capture<UntilFailure<HeldFile>>;

/// Who is told what happens in a node, and which notices they were told.
#[derive(Drop)]
pub struct Observers {
    /// What passed on each link.
    pub counters: Counters,
    /// The clients of the console.
    pub clients: ConsoleClients,
    /// What the log says of the node's links, sets and destinations, and its alarms.
    pub watch: NodeWatch,
    /// How long after the start it is.
    pub now: Duration,
    pub(crate) points: PointFormat,
    /// How many milliseconds a tick takes.
    pub(crate) tick_ms: u16,
    pub(crate) seen: Seen,
    pub(crate) missed_notices: MissedNotices,
    names: Vec<String>,
    pub(crate) capture: Option<FileCapture>,
    /// Which links the capture has.
    pub captured: CapturedLinks,
    /// The number of the last file of a ring that the log was told of.
    told_file: u32,
    pub(crate) missed_frames: u64,
    /// Whether a capture has failed.
    pub(crate) has_capture_failed: bool,
}

impl Observers {
    /// Nobody is there yet but the counters.
    pub(crate) fn new(
        alloc: Global,
        settings: &Settings,
        points: PointFormat,
        tick_ms: u16,
    ) -> Result<Observers, AllocError>
        ensures { IfOk result (λ observers. observers.counters ≡ first_counters (length settings.now.links)) }
    {
        let names = names_of(alloc, settings)?;
        let counters = Counters::new(alloc, settings.link_count())?;
        let watch = NodeWatch::new(alloc, settings, points)?;
        Ok(Observers {
            counters,
            clients: ConsoleClients::new(alloc)?,
            watch,
            now: Duration::ZERO,
            points,
            tick_ms,
            seen: Seen::new(),
            missed_notices: MissedNotices::none(),
            names,
            capture: None,
            captured: CapturedLinks::none(),
            told_file: 0,
            missed_frames: 0,
            has_capture_failed: false,
        })
    }

    /// The name of a link; nothing if no link has this number.
    pub fn name(&self, link: LinkId) -> &str
        ensures { length result.now ≤ Limits.NAME_OCTETS }
    {
        match self.names.get(link.index()) {
            Some(name) if name.len() <= Limits::NAME_OCTETS => name.as_str(),
            _ => "",
        }
    }

    /// Whether there is a capture, or a client that watches frames.
    fn is_watched(&self) -> bool {
        self.capture.is_some() || self.clients.asked.frames
    }

    /// A frame came in: whoever watches is told.
    #[inline(always)]
    fn frame_came_in(&mut self, link: LinkId, frame: &ObservedFrame<'_>)
        ensures { self.new.counters ≡ self.old.counters }
    {
        if self.is_watched() {
            self.frame_passed(link, Direction::In, frame);
        }
    }

    /// A frame of these octets went out: they are read only if someone watches, who is told.
    #[inline(always)]
    fn frame_went_out(&mut self, link: LinkId, octets: &[u8])
        ensures { self.new.counters ≡ self.old.counters }
    {
        if self.is_watched() {
            self.frame_passed(link, Direction::Out, &ObservedFrame::new(octets));
        }
    }

    /// A frame passed: the capture has it, and clients that watch frames are told.
    #[inline(never)]
    fn frame_passed(&mut self, link: LinkId, direction: Direction, frame: &ObservedFrame<'_>)
        ensures { self.new.counters ≡ self.old.counters }
    {
        self.capture_frame(link, direction, frame);
        self.show_frame(link, direction, frame);
    }

    /// Clients that watch frames are told of one.
    pub(crate) fn show_frame(
        &mut self,
        link: LinkId,
        direction: Direction,
        frame: &ObservedFrame<'_>,
    )
        ensures { self.new.counters ≡ self.old.counters }
    {
        if self.clients.asked.frames {
            self.tell_frame(link, direction, frame);
        }
    }

    /// The capture has a frame of a link that it has, if it has room for it. Otherwise the frame is counted as missed.
    fn capture_frame(&mut self, link: LinkId, direction: Direction, frame: &ObservedFrame<'_>)
        ensures { self.new.counters ≡ self.old.counters }
    {
        let Some(capture) = &mut self.capture else {
            return;
        };
        if !self.captured.has(link) {
            return;
        }
        make_room(capture, PACKET_OCTETS);
        if capture.output().writer().has_room(PACKET_OCTETS) {
            capture.write(self.now, link, direction, frame);
        } else {
            self.missed_frames = self.missed_frames.saturating_add(1);
        }
    }

    /// What was captured goes out, as far as its file takes it. The log is told which file of a ring was begun; if that
    /// fails, which ends the capture; and how many frames were missed once there is room for others.
    pub fn flush_capture<W: Sink>(&mut self, log: &mut Log<'_, W>)
        ensures { self.new.counters ≡ self.old.counters }
    {
        let Some(capture) = &mut self.capture else {
            return;
        };
        capture.flush();
        let has_failed = capture.has_failed();
        let has_room = capture.output().writer().has_room(LONGEST_PACKET);
        self.told_file = tell_begun(capture.output().writer(), self.told_file, log);
        if has_failed {
            log.tell(&"capture failed");
            self.has_capture_failed = true;
            self.capture_to(None);
        } else if has_room && self.missed_frames > 0 {
            let missed = self.missed_frames;
            log.tell(&format_args!("capture missed {missed} frames"));
            self.missed_frames = 0;
        }
    }

    /// Each frame of each link goes into this capture from now on; into none, if there is none.
    pub fn capture_to(&mut self, capture: Option<FileCapture>)
        ensures { self.new.counters ≡ self.old.counters }
    {
        self.captured = match &capture {
            Some(_) => CapturedLinks::all(),
            None => CapturedLinks::none(),
        };
        self.capture = capture;
    }

    /// Tells clients of a frame in words.
    #[inline(never)]
    fn tell_frame(&mut self, link: LinkId, direction: Direction, frame: &ObservedFrame<'_>)
        ensures { self.new.counters ≡ self.old.counters }
    {
        if frame.octets().len() > Limits::FRAME_OCTETS {
            return;
        }
        let words = frame_words(self.name(link), direction, frame, self.points);
        self.clients.tell_line(News::Frame, words.as_slice());
    }

    /// A message for this point came: clients that asked for such are told.
    pub(crate) fn delivered(&mut self, link: LinkId, frame: &ObservedFrame<'_>)
        ensures { self.new.counters ≡ self.old.counters }
    {
        if self.clients.asked.messages {
            self.tell_message(link, frame);
        }
    }

    /// Tells clients of a message for this point.
    #[inline(never)]
    fn tell_message(&mut self, link: LinkId, frame: &ObservedFrame<'_>)
        ensures { self.new.counters ≡ self.old.counters }
    {
        if let Some(message) = frame.message() {
            let line = message_line(self.name(link), message);
            self.clients.tell_line(News::Message, line.as_bytes());
        }
    }
}

/// Writes what was captured, if there is no room for so many octets more.
pub(crate) fn make_room(capture: &mut FileCapture, octets: usize) {
    if !capture.output().writer().has_room(octets) {
        capture.flush();
    }
}

/// Tells which file of a ring is written, unless that was told. Returns its number.
fn tell_begun<W: Sink>(file: &HeldFile, told: u32, log: &mut Log<'_, W>) -> u32 {
    let Some(files) = file.files() else {
        return told;
    };
    let (capture, number) = (files.capture(), files.number());
    if number != told {
        log.tell(&format_args!("capture {capture}.{number:08}"));
    }
    number
}

/// The names of the links, in the order of the settings.
fn names_of(alloc: Global, settings: &Settings) -> Result<Vec<String>, AllocError> {
    let mut names = Vec::new(alloc);
    for row in settings.links() {
        names.push(String::from_str(alloc, row.name())?)?;
    }
    Ok(names)
}

/// The line of a message for this point, without its line feed: `local LINK HEX`.
fn message_line(name: &str, message: MsuRef<'_>) -> ArrayString<MESSAGE_OCTETS> {
    let sio = message.sio;
    let mut line = ArrayString::new();
    let _fits = write!(line, "local {name} {sio:02x}");
    for octet in message.sif {
        let _fits = write!(line, "{octet:02x}");
    }
    line
}

/// The observers, and what else watches the frames.
#[derive(Drop)]
pub struct FrameObserver<'a, U> {
    /// Those who are told what happens in the node.
    pub observers: &'a mut Observers,
    /// What else watches.
    pub user: &'a mut U,
}

impl<U: Watch> Watch for FrameObserver<'_, U> {
    // It is still what was lent, and what was seen is counted.
    ghost sees = { λ before sight after. (after.observers.ghost_name ≡ before.observers.ghost_name)
        × (after.user.ghost_name ≡ before.user.ghost_name)
        × (after.observers.now.counters ≡ counted_sight sight before.observers.now.counters) };

    fn came_in(&mut self, link: LinkId, frame: &ObservedFrame<'_>, outcome: &Outcome) {
        self.observers.counters.count_in(link, frame, outcome);
        self.observers.frame_came_in(link, frame);
        if *outcome == Outcome::Local {
            self.observers.delivered(link, frame);
        }
        self.user.came_in(link, frame, outcome);
    }

    fn went_out(&mut self, link: LinkId, frame: &[u8]) {
        self.observers.counters.count_out(link, frame);
        self.observers.frame_went_out(link, frame);
        self.user.went_out(link, frame);
    }
}
