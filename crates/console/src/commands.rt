//! The commands of scripts and of the console.

ghost use Rattle.std.specs.Prelude.{◌≡◌};
ghost use Rattle.console.specs.Commands.{command_named, command_word};

/// What a line begins with.
#[derive(Clone, Copy, Debug, PartialEq, Eq)]
pub enum Command {
    /// `up LINK`: the link's association comes up.
    Up,
    /// `down LINK`: the link's association is lost.
    Down,
    /// `frame LINK HEX`: these octets arrive on the link.
    Frame,
    /// `tick N`: this many ticks pass.
    Tick,
    /// `submit HEX`: a user part submits a message.
    Submit,
    /// `take LINK`: the next frame that goes out on the link.
    Take,
    /// `wants LINK`: what the link wants from its caller.
    Wants,
    /// `activate LINK`, then perhaps `emergency`: the link may open, with emergency proving if that is asked for.
    Activate,
    /// `deactivate LINK`: the link goes out of service, and can't open.
    Deactivate,
    /// `release LINK`: the link may open though the answer to its changeover order is awaited.
    Release,
    /// `title add T P N DIGITS POINT ROUTE SSN`, then `backup POINT` if there is a backup, and
    /// `changed PLAN NATURE REMOVE ADD` if titles change, `title set` with the same words, or
    /// `title remove T P N DIGITS`: a translation row is added, set or removed.
    Title,
    /// `show links`, `show routes`, `show titles`, `show subsystems`, `show notices`, `show flags`, `show losses` or
    /// `show reroutings`.
    Show,
}

impl Command {
    /// All commands.
    pub const ALL: [Command; 12] = [
        Command::Up,
        Command::Down,
        Command::Frame,
        Command::Tick,
        Command::Submit,
        Command::Take,
        Command::Wants,
        Command::Activate,
        Command::Deactivate,
        Command::Release,
        Command::Title,
        Command::Show,
    ];

    /// The word of the command.
    pub fn word(self) -> &'static str
        ensures { result.now ≡ command_word self }
    {
        match self {
            Command::Up => "up",
            Command::Down => "down",
            Command::Frame => "frame",
            Command::Tick => "tick",
            Command::Submit => "submit",
            Command::Take => "take",
            Command::Wants => "wants",
            Command::Activate => "activate",
            Command::Deactivate => "deactivate",
            Command::Release => "release",
            Command::Title => "title",
            Command::Show => "show",
        }
    }

    /// The command of this word.
    pub fn named(word: &[u8]) -> Option<Command>
        ensures { result ≡ command_named word.now }
    {
        for command in Command::ALL {
            if word == command.word().as_bytes() {
                return Some(command);
            }
        }
        None
    }
}
