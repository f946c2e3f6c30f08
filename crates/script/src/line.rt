//! The lines of a script.

ghost use Rattle.std.specs.Prelude.{◌≡◌};
ghost use Rattle.console.specs.Words.{words};
ghost use Rattle.script.specs.Asking.{parsed_line, asked_by, asked_with_one, asked_with_two, is_skipped};
ghost use Rattle.script.specs.Asking.{show_named, asked_of, reading_of};

use crate::hex_octets::HexOctets;
use console::words::cut;
use console::{Command, OrderText, order_by, read_number};
use settings::PointFormat;

/// What a skipped line begins with.
const REMARK: u8 = b'#';

/// The most ticks that one line lets pass.
const MOST_TICKS: u16 = 65_535;

/// A malformed line.
#[derive(Clone, Copy, Debug, PartialEq, Eq)]
pub struct Malformed;

/// What a line of a script shows.
#[derive(Clone, Copy, PartialEq, Eq)]
pub enum Show {
    /// The links.
    Links,
    /// The routes, with points in this format.
    Routes(PointFormat),
    /// The translation rows, with points in this format.
    Titles(PointFormat),
    /// The prohibited subsystems, with points in this format.
    Subsystems(PointFormat),
    /// The notices, with points in this format.
    Notices(PointFormat),
    /// The flags.
    Flags,
    /// The counts of losses.
    Losses,
    /// How often a flow changed its link set, but away from its destination's own.
    Reroutings,
}

/// What a line of a script asks for.
#[derive(Drop)]
pub enum Line<'a> {
    /// `up LINK`: the link's association is there.
    Up {
        /// The link's name; no link need have it.
        link: &'a [u8],
    },
    /// `down LINK`: the link's association is gone.
    Down {
        /// The link's name; no link need have it.
        link: &'a [u8],
    },
    /// `frame LINK HEX`: these octets arrived on the link.
    Frame {
        /// The link's name; no link need have it.
        link: &'a [u8],
        /// The frame.
        octets: HexOctets<'a>,
    },
    /// `tick N`: this many ticks of the clock pass.
    Tick {
        /// How many, 1 to 65,535.
        ticks: u16,
    },
    /// `take LINK`: the next frame that goes out by the link.
    Take {
        /// The link's name; no link need have it.
        link: &'a [u8],
    },
    /// `wants LINK`: what the link wants from its caller.
    Wants {
        /// The link's name; no link need have it.
        link: &'a [u8],
    },
    /// `submit HEX`: a user part hands over a message.
    Submit {
        /// The service information octet, and the signalling information field after it.
        octets: HexOctets<'a>,
    },
    /// `activate LINK`, then perhaps `emergency`; `deactivate LINK`, `release LINK`, `title add ..`, `title set ..` or
    /// `title remove ..`: an order of the operator.
    Order {
        /// The order.
        order: OrderText<'a>,
    },
    /// `show links`, `show routes`, `show titles`, `show subsystems`, `show notices`, `show flags`, `show losses` or
    /// `show reroutings`: a text of the console.
    Show {
        /// Which.
        what: Show,
    },
}

/// Whether a line asks for nothing: an empty one, and one that begins with `#`.
pub fn is_skipped(line: &[u8]) -> bool
    ensures { result ≡ is_skipped line.now }
{
    match line {
        [] | [REMARK, ..] => true,
        _ => false,
    }
}

/// What a line without its end asks for: nothing if it is empty or begins with `#`. Points are read and shown in this
/// format.
pub fn parse_line(line: &[u8], points: PointFormat) -> Result<Option<Line<'_>>, Malformed>
    ensures { reading_of result ≡ parsed_line points line.now }
{
    if is_skipped(line) {
        return Ok(None);
    }
    match asked(line, points) {
        Some(line) => Ok(Some(line)),
        None => Err(Malformed),
    }
}

/// What the words of a line ask for.
#[tactic(auto, using(crate::proofs::Asking::asking_steps))]
fn asked(line: &[u8], points: PointFormat) -> Option<Line<'_>>
    ensures { asked_of result ≡ asked_by points (words line.now) }
{
    let (word, rest) = cut(line);
    let command = Command::named(word)?;
    let behind = rest?;
    let (first, rest) = cut(behind);
    let Some(rest) = rest else {
        return line_with_one_word(command, first, points);
    };
    match cut(rest) {
        (second, None) => asked_with_two(command, first, second),
        (_, Some(_)) => {
            let order = order_by(command, behind, points)?;
            Some(Line::Order { order })
        }
    }
}

/// What a command with one word after it asks for. Points are shown in this format.
pub fn line_with_one_word(command: Command, word: &[u8], points: PointFormat) -> Option<Line<'_>>
    ensures { asked_of result ≡ asked_with_one points command word.now }
{
    match command {
        Command::Up if !word.is_empty() => Some(Line::Up { link: word }),
        Command::Down if !word.is_empty() => Some(Line::Down { link: word }),
        Command::Take if !word.is_empty() => Some(Line::Take { link: word }),
        Command::Wants if !word.is_empty() => Some(Line::Wants { link: word }),
        Command::Activate if !word.is_empty() => {
            let order = OrderText::Activate {
                link: word,
                emergency: false,
            };
            Some(Line::Order { order })
        }
        Command::Deactivate if !word.is_empty() => {
            let order = OrderText::Deactivate { link: word };
            Some(Line::Order { order })
        }
        Command::Release if !word.is_empty() => {
            let order = OrderText::Release { link: word };
            Some(Line::Order { order })
        }
        Command::Tick => {
            let ticks = read_number(word, 1, MOST_TICKS)?;
            Some(Line::Tick { ticks })
        }
        Command::Submit => {
            let octets = HexOctets::read(word)?;
            Some(Line::Submit { octets })
        }
        Command::Show => {
            let what = show_named(word, points)?;
            Some(Line::Show { what })
        }
        _ => None,
    }
}

/// What a command with two words after it asks for.
fn asked_with_two<'a>(command: Command, first: &'a [u8], second: &'a [u8]) -> Option<Line<'a>>
    ensures { asked_of result ≡ asked_with_two command first.now second.now }
{
    match command {
        Command::Frame if !first.is_empty() => {
            let octets = HexOctets::read(second)?;
            Some(Line::Frame {
                link: first,
                octets,
            })
        }
        Command::Activate if !first.is_empty() && second == b"emergency".as_slice() => {
            let order = OrderText::Activate {
                link: first,
                emergency: true,
            };
            Some(Line::Order { order })
        }
        _ => None,
    }
}

/// The text of this name, with points in this format.
fn show_named(word: &[u8], points: PointFormat) -> Option<Show>
    ensures { result ≡ show_named points word.now }
{
    if word == b"links".as_slice() {
        Some(Show::Links)
    } else if word == b"routes".as_slice() {
        Some(Show::Routes(points))
    } else if word == b"titles".as_slice() {
        Some(Show::Titles(points))
    } else if word == b"subsystems".as_slice() {
        Some(Show::Subsystems(points))
    } else if word == b"notices".as_slice() {
        Some(Show::Notices(points))
    } else if word == b"flags".as_slice() {
        Some(Show::Flags)
    } else if word == b"losses".as_slice() {
        Some(Show::Losses)
    } else if word == b"reroutings".as_slice() {
        Some(Show::Reroutings)
    } else {
        None
    }
}
