//! What the program's arguments ask for.

ghost use Rattle.std.specs.Prelude.{◌≤◌, IfSome};
ghost use Rattle.signalling_types.specs.declared.limits.TheConstants.Limits;
ghost use Rattle.loads.specs.declared.bench.arguments.TheConstants.{LABEL_OCTETS};

use super::failure::Stage;
use super::making::Making;
use super::over_sctp::Datagrams;
use super::unitdata::bare_octets;
use crate::draft::{Routes, Sets, Shape};
use crate::titles::Table;
use settings::Limits;

/// Octets of a routing label, which each message has (Q.704 §2.2).
pub(crate) const LABEL_OCTETS: usize = 4;

/// Destinations at least: the adjacent point of a link set, and one behind it.
const FEWEST_DESTINATIONS: usize = 2;

/// How many messages may be unconfirmed, if the settings aren't larger than usual.
const WINDOW: u16 = 128;

/// How large the settings are apart from their destinations and links.
#[derive(Clone, Copy)]
pub(crate) enum Size {
    /// One set leads to each destination, the window is 128, and the kind says how many links a set has, how many
    /// translation rows there are, and whether links are in service.
    Usual,
    /// Two links make a set, eight sets lead to each destination, and the window is the largest. All links are in
    /// service.
    Wide,
    /// The same, with as many translation rows as may be, of as many digits as may be.
    Largest,
}

/// What a message meets.
#[derive(Clone, Copy)]
pub(crate) enum Kind {
    /// It comes in a frame and goes out in one, and the next frame that comes confirms it.
    Forward,
    /// The same, a window of messages at a time.
    Burst,
    /// It comes in a frame, and the one that it goes out in goes over SCTP.
    OverSctp(Datagrams),
    /// A user part hands it over, and it goes out in a frame.
    Submit,
    /// It comes in a frame for a user part here, and an acknowledgement goes out.
    Local,
    /// There is none: an empty frame comes.
    Acknowledgement,
    /// It is a UDT for this point, and goes on by its title, rewritten.
    Relay(Table),
    /// It is a UDT for this point that no translation row leads on, and goes back as a UDTS.
    Udts(Table),
    /// It is on a link, which may fail then and be changed over.
    Standing(Stage),
    /// It is held, since the link that it takes comes back; that link fails and returns for each.
    Return,
    /// There is none: a tick of the clock passes.
    Tick,
    /// There is none: the route to the last destination by its set is prohibited, and then allowed.
    Status,
    /// There is none: the only link in service of the first set fails and returns.
    Entry,
    /// There is none: T10 runs out for each route by the first set, in one tick.
    Expiry,
    /// There is none: nodes are made, and no link opens.
    Make(Making),
}

impl Kind {
    /// How the links make sets. Unless the settings are larger than usual, each link is a set of its own if it matters
    /// how many adjacent points are told.
    fn sets(self, size: Size) -> Sets {
        match (size, self) {
            (Size::Wide | Size::Largest, _) => Sets::Pairs,
            (Size::Usual, Kind::Tick | Kind::Status | Kind::Entry | Kind::Expiry) => Sets::Single,
            (Size::Usual, _) => Sets::Full,
        }
    }

    /// Which translation rows there are.
    fn table(self, size: Size) -> Table {
        match (size, self) {
            (Size::Largest, _) => Table::Longest,
            (_, Kind::Relay(table) | Kind::Udts(table)) => table,
            _ => Table::Empty,
        }
    }

    /// The fewest octets that its message may have.
    fn fewest_octets(self, size: Size) -> usize
        ensures { LABEL_OCTETS ≤ result }
    {
        match self {
            Kind::Relay(_) | Kind::Udts(_) => bare_octets(self.table(size)),
            _ => LABEL_OCTETS,
        }
    }
}

/// What the program's arguments ask for.
#[derive(Clone, Copy)]
pub(crate) struct Arguments {
    pub kind: Kind,
    /// Octets of the signalling information field of each message.
    pub octets: usize,
    ghost label: { LABEL_OCTETS ≤ octets },
    ghost fits: { octets ≤ Limits.SIF_OCTETS },
    /// What the settings are made of. One of the links carries the messages. Unless the settings are larger than usual,
    /// the others are down, except those of its set before a changeover or a return, and those that are each a set of
    /// their own.
    pub shape: Shape,
    pub count: u32,
    pub size: Size,
}

impl Arguments {
    /// Reads the five words, and a sixth if the settings are larger than usual. None if one of them is missing, unknown
    /// or out of range, if each destination is the adjacent point of a link set, or if there are too many sets.
    pub(crate) fn read(words: &[String]) -> Option<Arguments> {
        let (kind, octets, destinations, links, count, size) = match words {
            [kind, octets, destinations, links, count] => {
                (kind, octets, destinations, links, count, Size::Usual)
            }
            [kind, octets, destinations, links, count, size] => {
                (
                    kind,
                    octets,
                    destinations,
                    links,
                    count,
                    size_of(size.as_str())?,
                )
            }
            _ => return None,
        };
        let kind = kind_of(kind.as_str())?;
        Some(Arguments {
            kind,
            octets: within(
                octets.as_str(),
                kind.fewest_octets(size),
                Limits::SIF_OCTETS,
            )?,
            shape: shape_of(kind, size, destinations.as_str(), links.as_str())?,
            count: count.as_str().parse().ok()?,
            size,
        })
    }
}

/// What settings of this size are made of for messages of a kind, with as many destinations and links as the words say.
fn shape_of(kind: Kind, size: Size, destinations: &str, links: &str) -> Option<Shape> {
    let (routes, window) = match size {
        Size::Usual => (Routes::One, WINDOW),
        Size::Wide | Size::Largest => (Routes::Most, Limits::WINDOW as u16),
    };
    let shape = Shape {
        destinations: within(destinations, FEWEST_DESTINATIONS, Limits::DESTINATIONS)? as u16,
        links: within(links, 1, Limits::LINKS)? as u8,
        sets: kind.sets(size),
        routes,
        window,
        table: kind.table(size),
    };
    let sets = shape.set_count();
    (sets < shape.destinations && usize::from(sets) <= Limits::SETS).then_some(shape)
}

fn size_of(name: &str) -> Option<Size> {
    match name {
        "wide" => Some(Size::Wide),
        "largest" => Some(Size::Largest),
        _ => None,
    }
}

fn kind_of(name: &str) -> Option<Kind> {
    match name {
        "forward" => Some(Kind::Forward),
        "burst" => Some(Kind::Burst),
        "sctp" => Some(Kind::OverSctp(Datagrams::Single)),
        "sctp-full" => Some(Kind::OverSctp(Datagrams::Full)),
        "submit" => Some(Kind::Submit),
        "local" => Some(Kind::Local),
        "acknowledgement" => Some(Kind::Acknowledgement),
        "relay" => Some(Kind::Relay(Table::Short)),
        "relay-full" => Some(Kind::Relay(Table::Full)),
        "udts" => Some(Kind::Udts(Table::Short)),
        "udts-full" => Some(Kind::Udts(Table::Full)),
        "queue" => Some(Kind::Standing(Stage::Queue)),
        "failure" => Some(Kind::Standing(Stage::Failure)),
        "changeover" => Some(Kind::Standing(Stage::Completion)),
        "return" => Some(Kind::Return),
        "tick" => Some(Kind::Tick),
        "status" => Some(Kind::Status),
        "entry" => Some(Kind::Entry),
        "expiry" => Some(Kind::Expiry),
        "draft" => Some(Kind::Make(Making::Draft)),
        "check" => Some(Kind::Make(Making::Check)),
        "boot" => Some(Kind::Make(Making::Boot)),
        _ => None,
    }
}

/// A number in decimal digits, if it is from `least` to `most`.
fn within(word: &str, least: usize, most: usize) -> Option<usize>
    ensures above { IfSome result (λ number. least ≤ number) }
    ensures fits { IfSome result (λ number. number ≤ most) }
{
    let number = word.parse().ok()?;
    (least <= number && number <= most).then_some(number)
}
