//! A message that is lent.

ghost use Rattle.std.specs.Prelude.{◌≡◌, ◌^◌, ◌<◌};
ghost use Rattle.signalling_types.specs.Message.{is_management, network_indicator, service_indicator, lent};

/// A message signal unit that is lent: its octets lie in a frame, in an `Msu` or wherever else its
/// owner keeps them (Q.703 §2.3). Its signalling information field may have any length.
#[derive(Clone, Copy)]
pub struct MsuRef<'a> {
    /// The service information octet.
    pub sio: u8,
    /// The octets of the signalling information field.
    pub sif: &'a [u8],
}

impl MsuRef<'_> {
    /// The service indicator: 0 management, 1 testing, 3 SCCP, 4 TUP, 5 ISUP (Q.704 §14.2.1).
    #[inline(always)]
    pub fn service_indicator(self) -> u8
        ensures value { result ≡ service_indicator (lent self.entry) }
        ensures fits { service_indicator (lent self.entry) < 2 ^ 4 }
    {
        self.sio % 16
    }

    /// The network indicator, 0 to 3 (Q.704 §14.2.2).
    #[inline(always)]
    pub fn network_indicator(self) -> u8
        ensures value { result ≡ network_indicator (lent self.entry) }
        ensures fits { network_indicator (lent self.entry) < 2 ^ 2 }
    {
        self.sio / 64
    }

    /// Whether it is a management or a test message; any other is a user message (Q.704 §14.2.1).
    #[inline(always)]
    pub fn is_management(self) -> bool
        ensures { result ≡ is_management (lent self.entry) }
    {
        self.service_indicator() < 2
    }
}
