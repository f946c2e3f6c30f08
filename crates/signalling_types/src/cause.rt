//! Why something is refused.

ghost use Rattle.std.specs.Prelude.{◌≡◌};
ghost use Rattle.signalling_types.specs.Causes.{cause_number, cause_name};

/// Why a message, an event or an order is refused. The numbers are part of the interface.
#[derive(Clone, Copy, Debug, PartialEq, Eq)]
pub enum Cause {
    /// The network indicator isn't the node's.
    WrongNetwork = 1,
    /// The signalling information field has no whole label.
    NoLabel = 2,
    /// The destination point code is neither the node's own nor a destination of the settings.
    UnknownDestination = 3,
    /// No link leads to the destination.
    NoRoute = 4,
    /// The node keeps as many user messages as it may.
    PoolFull = 5,
    /// No user part takes messages of this service indicator.
    NoUserPart = 6,
    /// A part of the protocol that the node leaves out.
    NotInProfile = 7,
    /// A management or test message that can't be read.
    BadManagement = 8,
    /// An SCCP message that can't be read.
    BadSccp = 9,
    /// No translation for an address of this nature (Q.714 §2.8).
    NoNature = 10,
    /// No translation for this address (Q.714 §2.8).
    NoDigits = 11,
    /// No such subsystem here.
    Unequipped = 12,
    /// The signalling information field is longer than a message may have.
    TooLong = 13,
    /// A sent message whose confirmation never came, lost with its link.
    LostUnconfirmed = 14,
    /// The node keeps as many management messages as it may.
    ManagementFull = 15,
    /// A management message whose originating point isn't adjacent.
    NotFromAdjacent = 16,
    /// The link has an association already, or was deactivated.
    LinkNotReady = 17,
    /// The changeover of the link isn't over.
    ChangeoverPending = 18,
    /// Memory ran out.
    NoMemory = 19,
    /// The node keeps as many translation rows as it may.
    TableFull = 20,
    /// The translation row is there already.
    DuplicateRow = 21,
    /// No link, set or row of this name or number.
    NoSuchName = 22,
    /// The hop counter of an SCCP message is out of its range, or has run out (Q.714 §2.3.1).
    HopCounter = 23,
    /// The link of the message keeps as many messages as its share allows.
    ShareFull = 24,
    /// The subsystem of an SCCP message is known to be prohibited at the point that the message is led to, and so is
    /// the backup's (Q.714 §5.3.2).
    SubsystemProhibited = 25,
}

impl Cause {
    /// The cause's number, 1 to 25.
    pub fn number(self) -> u8
        ensures { result ≡ cause_number self }
    {
        self as u8
    }

    /// The cause's name, as texts print it.
    pub fn name(self) -> &'static str
        ensures { result.now ≡ cause_name self }
    {
        match self {
            Cause::WrongNetwork => "WrongNetwork",
            Cause::NoLabel => "NoLabel",
            Cause::UnknownDestination => "UnknownDestination",
            Cause::NoRoute => "NoRoute",
            Cause::PoolFull => "PoolFull",
            Cause::NoUserPart => "NoUserPart",
            Cause::NotInProfile => "NotInProfile",
            Cause::BadManagement => "BadManagement",
            Cause::BadSccp => "BadSccp",
            Cause::NoNature => "NoNature",
            Cause::NoDigits => "NoDigits",
            Cause::Unequipped => "Unequipped",
            Cause::TooLong => "TooLong",
            Cause::LostUnconfirmed => "LostUnconfirmed",
            Cause::ManagementFull => "ManagementFull",
            Cause::NotFromAdjacent => "NotFromAdjacent",
            Cause::LinkNotReady => "LinkNotReady",
            Cause::ChangeoverPending => "ChangeoverPending",
            Cause::NoMemory => "NoMemory",
            Cause::TableFull => "TableFull",
            Cause::DuplicateRow => "DuplicateRow",
            Cause::NoSuchName => "NoSuchName",
            Cause::HopCounter => "HopCounter",
            Cause::ShareFull => "ShareFull",
            Cause::SubsystemProhibited => "SubsystemProhibited",
        }
    }
}
