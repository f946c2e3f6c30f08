//! How long a link is proved.

ghost use Rattle.std.specs.Prelude.{◌≡◌};
ghost use Rattle.link.specs.Table.{period_after, proving_status};

use crate::action::Input;
use m2pa_codec::LinkStatus;

/// How long a link is proved (Q.703 §7.3).
#[derive(Clone, Copy, Debug, PartialEq, Eq)]
pub enum Period {
    /// Always equally long, whatever the peer asks for.
    Fixed,
    /// The normal period, unless the peer asks for emergency proving.
    Normal,
    /// The emergency period, because the peer asked for it. This node's own is the normal one.
    Hurried,
    /// The emergency period, because this node asks for it.
    Emergency,
}

impl Period {
    /// The status by which a link asks to be proved, by its own period (Q.703 §7.2).
    pub(crate) fn status(self) -> LinkStatus
        ensures { result ≡ proving_status self }
    {
        match self {
            Period::Fixed | Period::Normal | Period::Hurried => LinkStatus::ProvingNormal,
            Period::Emergency => LinkStatus::ProvingEmergency,
        }
    }

    /// The period after an input: a peer that asks for emergency proving brings it about, until it aligns anew.
    pub(crate) fn after(self, input: Input) -> Period
        ensures { result ≡ period_after self input }
    {
        match (self, input) {
            (Period::Normal, Input::Status(LinkStatus::ProvingEmergency)) => Period::Hurried,
            (Period::Hurried, Input::Status(LinkStatus::Alignment)) => Period::Normal,
            _ => self,
        }
    }
}
