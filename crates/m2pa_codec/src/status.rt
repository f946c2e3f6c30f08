//! What a link status says.

ghost use Rattle.std.specs.Prelude.{◌≡◌};
ghost use Rattle.m2pa_codec.specs.Frames.{status_number, status_of};

/// The state that a Link Status message tells (RFC 4165 §2.3.2). The numbers are those of its state field.
#[derive(Clone, Copy, Debug, Default, PartialEq, Eq)]
pub enum LinkStatus {
    /// The sender waits for the link to be aligned.
    Alignment = 1,
    /// The sender proves the link at length.
    ProvingNormal = 2,
    /// The sender proves the link in a short time.
    ProvingEmergency = 3,
    /// The sender has proved the link.
    Ready = 4,
    /// The sender's level 3 can't be reached.
    ProcessorOutage = 5,
    /// The sender's level 3 is back.
    ProcessorRecovered = 6,
    /// The sender takes no messages for now.
    Busy = 7,
    /// The sender takes messages again.
    BusyEnded = 8,
    /// The sender doesn't carry messages on this link.
    #[default]
    OutOfService = 9,
}

impl LinkStatus {
    /// The number of the state, 1 to 9.
    pub fn number(self) -> u32
        ensures { result ≡ status_number self }
    {
        self as u32
    }

    /// The state of this number. None for 0 and above 9.
    #[tactic(auto, unfolding(crate::specs::Frames::status_of))]
    pub fn from_number(number: u32) -> Option<LinkStatus>
        ensures { result ≡ status_of number }
    {
        match number {
            1 => Some(LinkStatus::Alignment),
            2 => Some(LinkStatus::ProvingNormal),
            3 => Some(LinkStatus::ProvingEmergency),
            4 => Some(LinkStatus::Ready),
            5 => Some(LinkStatus::ProcessorOutage),
            6 => Some(LinkStatus::ProcessorRecovered),
            7 => Some(LinkStatus::Busy),
            8 => Some(LinkStatus::BusyEnded),
            9 => Some(LinkStatus::OutOfService),
            _ => None,
        }
    }
}
