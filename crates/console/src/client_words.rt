//! The words that a client of the console writes first in a line, and those behind `show`.

ghost use Rattle.std.specs.Prelude.{◌≡◌, ◌≤◌, length};
ghost use Rattle.console.specs.ClientWords.{client_word, first_client_word, form};

/// A word that a client writes.
#[derive(Clone, Copy)]
pub enum ClientWord {
    /// `help`
    Help,
    /// `show`
    Show,
    /// `submit`
    Submit,
    /// `activate`
    Activate,
    /// `deactivate`
    Deactivate,
    /// `release`
    Release,
    /// `title`
    Title,
    /// `test`
    Test,
    /// `users`
    Users,
    /// `watch`
    Watch,
    /// `capture`, also behind `show`
    Capture,
    /// `quit`
    Quit,
    /// `stop`
    Stop,
    /// `links`
    Links,
    /// `routes`
    Routes,
    /// `titles`
    Titles,
    /// `subsystems`
    Subsystems,
    /// `notices`
    Notices,
    /// `flags`
    Flags,
    /// `losses`
    Losses,
    /// `reroutings`
    Reroutings,
    /// `counters`
    Counters,
    /// `version`
    Version,
    /// `alarms`
    Alarms,
    /// `timers`
    Timers,
    /// `sets`
    Sets,
    /// `link`
    Link,
    /// `settings`
    Settings,
}

/// The words that a line begins with.
pub(crate) const COMMANDS: &[ClientWord] = &[
    ClientWord::Help,
    ClientWord::Show,
    ClientWord::Submit,
    ClientWord::Activate,
    ClientWord::Deactivate,
    ClientWord::Release,
    ClientWord::Title,
    ClientWord::Test,
    ClientWord::Users,
    ClientWord::Watch,
    ClientWord::Capture,
    ClientWord::Quit,
    ClientWord::Stop,
];

/// The words behind `show`.
pub(crate) const TEXTS: &[ClientWord] = &[
    ClientWord::Links,
    ClientWord::Routes,
    ClientWord::Titles,
    ClientWord::Subsystems,
    ClientWord::Notices,
    ClientWord::Flags,
    ClientWord::Losses,
    ClientWord::Reroutings,
    ClientWord::Counters,
    ClientWord::Capture,
    ClientWord::Version,
    ClientWord::Alarms,
    ClientWord::Timers,
    ClientWord::Sets,
    ClientWord::Link,
    ClientWord::Settings,
];

impl ClientWord {
    /// The word itself.
    pub(crate) fn word(self) -> &'static str
        ensures word { result.now ≡ client_word self }
        ensures short { length result.now ≤ 10 }
    {
        match self {
            ClientWord::Help => "help",
            ClientWord::Show => "show",
            ClientWord::Submit => "submit",
            ClientWord::Activate => "activate",
            ClientWord::Deactivate => "deactivate",
            ClientWord::Release => "release",
            ClientWord::Title => "title",
            ClientWord::Test => "test",
            ClientWord::Users => "users",
            ClientWord::Watch => "watch",
            ClientWord::Capture => "capture",
            ClientWord::Quit => "quit",
            ClientWord::Stop => "stop",
            ClientWord::Links => "links",
            ClientWord::Routes => "routes",
            ClientWord::Titles => "titles",
            ClientWord::Subsystems => "subsystems",
            ClientWord::Notices => "notices",
            ClientWord::Flags => "flags",
            ClientWord::Losses => "losses",
            ClientWord::Reroutings => "reroutings",
            ClientWord::Counters => "counters",
            ClientWord::Version => "version",
            ClientWord::Alarms => "alarms",
            ClientWord::Timers => "timers",
            ClientWord::Sets => "sets",
            ClientWord::Link => "link",
            ClientWord::Settings => "settings",
        }
    }

    /// What a line of this command, or with this word behind `show`, must be.
    pub(crate) fn form(self) -> &'static str
        ensures form { result.now ≡ form self }
        ensures short { length result.now ≤ 96 }
    {
        match self {
            ClientWord::Help => "help",
            ClientWord::Submit => "submit HEX, of two hexadecimal digits for each octet",
            ClientWord::Activate => "activate LINK, or activate LINK emergency",
            ClientWord::Deactivate => "deactivate LINK",
            ClientWord::Release => "release LINK",
            ClientWord::Title =>
                "title add .., title set .. or title remove ..; help has their words",
            ClientWord::Users => "users",
            ClientWord::Watch => "watch, or watch frames",
            ClientWord::Capture => {
                "capture start or capture stop, for all links; or with LINK behind it, for that one"
            }
            ClientWord::Quit => "quit",
            ClientWord::Stop => "stop",
            ClientWord::Test => "test title T P N DIGITS",
            ClientWord::Link => "show link LINK",
            _ => "show and what help lists behind it",
        }
    }
}

/// The first of these that is this word.
pub(crate) fn first_client_word(word: &[u8], known: &[ClientWord]) -> Option<ClientWord>
    ensures { result ≡ first_client_word word.now known.now }
{
    for candidate in known {
        if word == candidate.word().as_bytes() {
            return Some(*candidate);
        }
    }
    None
}
