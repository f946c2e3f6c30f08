//! The log of a server.

ghost use Rattle.std.specs.Prelude.{◌≡◌, ◌≤◌, length};
ghost use Rattle.served_node.specs.Logging.{TellsALine, Writes, line_of, shown_octet, timed};

use arrayvec::{ArrayString, ArrayVec};
use script::Sink;
use served_link::times::millis;
use served_link::{ChangeLine, seconds_text};
use std::fmt;
use std::fmt::Write;
use std::net::SocketAddr;
use std::time::Duration;

/// Octets of a line of the log without its line feed, at most.
const TEXT_OCTETS: usize = 255;

/// Octets of a line of the log with its line feed, at most.
const LINE_OCTETS: usize = TEXT_OCTETS + 1;

/// What ends a line.
const LINE_FEED: u8 = b'\n';

/// The one control character behind those that are printed.
const DELETE: u8 = 0x7f;

/// The log: each line begins with the seconds since start.
#[derive(Drop)]
pub struct Log<'a, W> {
    /// Where the lines go.
    pub sink: &'a mut W,
    /// How long after the start it is.
    pub now: Duration,
}

impl<W: Sink> Log<'_, W> {
    /// Writes a line of what becomes of an address of a link.
    pub fn tell_at(&mut self, word: &str, link: &str, address: SocketAddr)
        ensures line { TellsALine (W.output self.old.sink.now) (W.output self.new.sink.now) }
        ensures time { self.new.now ≡ self.old.now }
    {
        self.tell(&format_args!("{word} {link} {address}"));
    }

    /// Writes the line of a change, in one write. If the write fails, the line is lost, and the node goes on.
    pub fn tell_change(&mut self, change: &ChangeLine)
        ensures line { Writes (line_of (timed self.old.now change.now.bytes))
            (W.output self.old.sink.now) (W.output self.new.sink.now) }
        ensures time { self.new.now ≡ self.old.now }
    {
        let mut told = ArrayString::<TEXT_OCTETS>::new();
        told.push_str(seconds_text(millis(self.now)).as_str());
        told.push_str(" ");
        told.push_str(change.as_str());
        let line = line_of(told.as_str().as_bytes());
        let _told = self.sink.write(line.as_slice());
    }

    /// Writes a line, cut to 255 octets, in one write. Its control characters are question marks. If the write fails,
    /// the line is lost, and the node goes on.
    pub fn tell<T: fmt::Display>(&mut self, text: &T)
        ensures line { TellsALine (W.output self.old.sink.now) (W.output self.new.sink.now) }
        ensures time { self.new.now ≡ self.old.now }
    {
        let seconds = self.now.as_secs();
        let millis = self.now.subsec_millis();
        let mut told = ArrayString::<TEXT_OCTETS>::new();
        let _fits = write!(told, "{seconds}.{millis:03} {text}");
        let line = line_of(told.as_str().as_bytes());
        let _told = self.sink.write(line.as_slice());
    }
}

/// A text that is shown without the end of a line: each control character is a question mark.
#[derive(Clone, Copy)]
pub struct OneLine<'a>(pub &'a str);

impl fmt::Display for OneLine<'_> {
    fn fmt<W: Write>(&self, f: &mut fmt::Formatter<W>) -> fmt::Result {
        for shown in self.0.chars() {
            f.write_char(if shown.is_control() { '?' } else { shown })?;
        }
        Ok(())
    }
}

/// The line of a text. Each control character of it is a question mark there, so that no name forges a line.
fn line_of(text: &[u8]) -> ArrayVec<u8, LINE_OCTETS>
    requires { length text.now ≤ TEXT_OCTETS }
    ensures { result.items ≡ line_of text.now }
{
    let mut line = ArrayVec::new();
    for octet in text {
        line.push(shown_octet(*octet));
    }
    line.push(LINE_FEED);
    line
}

/// How an octet of a text is shown.
fn shown_octet(octet: u8) -> u8
    ensures { result ≡ shown_octet octet }
{
    if octet < b' ' || octet == DELETE {
        b'?'
    } else {
        octet
    }
}
