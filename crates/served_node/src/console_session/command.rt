//! The lines of a client.

ghost use Rattle.std.specs.Prelude.{◌≡◌, ◌≤◌, length};
ghost use Rattle.std.specs.Option.{option_map};
ghost use Rattle.served_node.specs.Lines.{heard, heard_line, heard_of, own_line, own_line_of, is_for_clients};
ghost use Rattle.served_node.specs.Lines.{HearsCapture, behind, capture_line, capture_of_link, either_heard};
ghost use Rattle.served_node.specs.Lines.{shows_link, test_line, text_line};
ghost use Rattle.served_node.specs.Clients.{without_return};
ghost use Rattle.script.specs.Asking.{asked_line};

use super::listing::Listing;
use console::words::cut;
use console::{RowName, title_tested};
use script::{Line, Malformed, parse_line};
use settings::PointFormat;

/// What may come before the line feed.
const CARRIAGE_RETURN: u8 = b'\r';

/// What a line of a client asks for.
#[derive(Drop)]
pub enum ConsoleLine<'a> {
    /// Nothing: an empty line, or one that begins with `#`.
    Skipped,
    /// `show ..`, `submit HEX`, `activate LINK`, `deactivate LINK`, `release LINK` or `title ..`, as in a script.
    Script(Line<'a>),
    /// `show counters`: the counters of each link.
    Counters,
    /// `capture start` or `capture stop`: all links are captured from now on, or none is; with a link's name behind it,
    /// that link alone.
    Capture {
        /// Whether it is `start`.
        is_on: bool,
        /// The link's name; no link need have it.
        link: Option<&'a [u8]>,
    },
    /// `show capture`: whether each link is captured.
    Captured,
    /// `show version`: the program's version.
    Version,
    /// `show alarms`: the alarms that are raised.
    Alarms,
    /// `show timers`, `show sets`, `show links`, `show routes`.
    Listing(Listing),
    /// `show link LINK`: what is known of the link of this name; no link need have it.
    Link(&'a [u8]),
    /// `show settings`: the settings as they are now.
    Settings,
    /// `test title T P N DIGITS`: what becomes of this title.
    Title(RowName),
    /// `help`, or `?`: what a client may write.
    Help,
    /// `users`: from now on the messages for this point.
    Users,
    /// `watch`: from now on the notices.
    Notices,
    /// `watch frames`: from now on the frames.
    Frames,
    /// `quit`: the client is closed once its answers are written.
    Quit,
    /// `stop`: the node closes its connections and ends.
    Stop,
}

/// What a line without its end asks for. What only a script can do, as `up`, `down`, `frame`, `tick`, `take` and
/// `wants`, is malformed: here the connections and the clock do it. Points are read and shown in this format.
pub fn parse_console_line(line: &[u8], points: PointFormat) -> Result<ConsoleLine<'_>, Malformed>
    ensures { heard_of points line.now result ≡ heard points line.now }
{
    if let Some(own) = own_line(line) {
        return Ok(own);
    }
    match parse_line(line, points) {
        Ok(Some(line)) if is_for_clients(&line) => Ok(ConsoleLine::Script(line)),
        Ok(None) => Ok(ConsoleLine::Skipped),
        Ok(Some(_)) | Err(Malformed) => Err(Malformed),
    }
}

/// What a line asks for that only a client writes.
fn own_line(line: &[u8]) -> Option<ConsoleLine<'_>>
    ensures { own_line_of result ≡ own_line line.now }
{
    if line == b"help".as_slice() || line == b"?".as_slice() {
        Some(ConsoleLine::Help)
    } else if line == b"users".as_slice() {
        Some(ConsoleLine::Users)
    } else if line == b"watch".as_slice() {
        Some(ConsoleLine::Notices)
    } else if line == b"watch frames".as_slice() {
        Some(ConsoleLine::Frames)
    } else if line == b"show counters".as_slice() {
        Some(ConsoleLine::Counters)
    } else if line == b"quit".as_slice() {
        Some(ConsoleLine::Quit)
    } else if line == b"stop".as_slice() {
        Some(ConsoleLine::Stop)
    } else if line == b"show version".as_slice() {
        Some(ConsoleLine::Version)
    } else if line == b"show capture".as_slice() {
        Some(ConsoleLine::Captured)
    } else if line == b"show alarms".as_slice() {
        Some(ConsoleLine::Alarms)
    } else {
        longer_line(line)
    }
}

/// What a line about a text, a test or the capture asks for.
fn longer_line(line: &[u8]) -> Option<ConsoleLine<'_>>
    ensures { own_line_of result
        ≡ either_heard (text_line line.now) (either_heard (test_line line.now) (capture_line line.now)) }
{
    if let Some(own) = text_line(line) {
        return Some(own);
    }
    match test_line(line) {
        Some(own) => Some(own),
        None => capture_line(line),
    }
}

/// What a line asks for that tests a title.
fn test_line(line: &[u8]) -> Option<ConsoleLine<'_>>
    ensures { own_line_of result ≡ test_line line.now }
{
    let (word, behind) = cut(line);
    if word != b"test".as_slice() {
        return None;
    }
    match title_tested(behind) {
        Ok(name) => Some(ConsoleLine::Title(name)),
        Err(_) => None,
    }
}

/// What a line asks for that shows the timers, the sets, the links, the destinations, the settings or a link.
fn text_line(line: &[u8]) -> Option<ConsoleLine<'_>>
    ensures { own_line_of result ≡ text_line line.now }
{
    if line == b"show timers".as_slice() {
        Some(ConsoleLine::Listing(Listing::Timers))
    } else if line == b"show sets".as_slice() {
        Some(ConsoleLine::Listing(Listing::Sets))
    } else if line == b"show links".as_slice() {
        Some(ConsoleLine::Listing(Listing::Links))
    } else if line == b"show routes".as_slice() {
        Some(ConsoleLine::Listing(Listing::Routes))
    } else if line == b"show settings".as_slice() {
        Some(ConsoleLine::Settings)
    } else {
        shows_link(behind(b"show link ", line))
    }
}

/// What a line asks for that shows the link of this name, which is one word.
fn shows_link(name: Option<&[u8]>) -> Option<ConsoleLine<'_>>
    ensures { own_line_of result ≡ shows_link (option_map (λ name. name.now) name.entry) }
{
    let name = name?;
    if name.contains(&b' ') {
        None
    } else {
        Some(ConsoleLine::Link(name))
    }
}

/// What a line about the capture asks for.
fn capture_line(line: &[u8]) -> Option<ConsoleLine<'_>>
    ensures { own_line_of result ≡ capture_line line.now }
{
    if line == b"capture start".as_slice() {
        Some(captures(true, None))
    } else if line == b"capture stop".as_slice() {
        Some(captures(false, None))
    } else {
        capture_of_link(line)
    }
}

/// What a line about the capture of one link asks for.
fn capture_of_link(line: &[u8]) -> Option<ConsoleLine<'_>>
    ensures { own_line_of result ≡ capture_of_link line.now }
{
    if let Some(name) = behind(b"capture start ", line) {
        return Some(captures(true, Some(name)));
    }
    let name = behind(b"capture stop ", line)?;
    Some(captures(false, Some(name)))
}

fn captures(is_on: bool, link: Option<&[u8]>) -> ConsoleLine<'_>
    ensures { heard_line result ≡ HearsCapture is_on (option_map (λ name. name.now) link.entry) }
{
    ConsoleLine::Capture { is_on, link }
}

/// What is behind a front, if a line begins with that.
fn behind<'a>(front: &[u8], line: &'a [u8]) -> Option<&'a [u8]>
    ensures { option_map (λ rest. rest.now) result ≡ behind front.now line.now }
{
    line.strip_prefix(front)
}

/// Whether a line of a script may come from a client.
fn is_for_clients(line: &Line<'_>) -> bool
    ensures { result ≡ is_for_clients (asked_line line.now) }
{
    match line {
        Line::Submit { .. } | Line::Order { .. } | Line::Show { .. } => true,
        Line::Up { .. }
        | Line::Down { .. }
        | Line::Frame { .. }
        | Line::Tick { .. }
        | Line::Take { .. }
        | Line::Wants { .. } => false,
    }
}

/// A line without the carriage return at its end, if it has one.
pub(crate) fn without_return(line: &[u8]) -> &[u8]
    ensures line { result.now ≡ without_return line.now }
    ensures short { length result.now ≤ length line.now }
{
    match line {
        [front @ .., CARRIAGE_RETURN] => front,
        _ => line,
    }
}
