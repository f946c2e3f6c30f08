//! Subsystems at other points, and what is said of them.

ghost use Rattle.std.specs.Prelude.{◌≡◌};
ghost use Rattle.sccp_relay.specs.Statuses as rule;

use signalling_types::PointCode;

/// The most subsystems that are known to be prohibited. What is heard of others then has no effect.
pub const PROHIBITED_SUBSYSTEMS: usize = 256;

/// A subsystem at a point.
#[derive(Clone, Copy, Debug, PartialEq, Eq)]
pub struct Subsystem {
    /// The point.
    pub point: PointCode,
    /// Its subsystem number there (Q.713 §3.4.2.2).
    pub ssn: u8,
}

/// Fills the room of a list that isn't taken.
impl Default for Subsystem {
    fn default() -> Subsystem {
        Subsystem {
            point: PointCode::of_low_bits(0),
            ssn: 0,
        }
    }
}

impl Subsystem {
    /// Whether it is this one: at the same point, with the same number.
    pub(crate) fn is(&self, other: &Subsystem) -> bool
        ensures { result ≡ rule.is_same self.now other.now }
    {
        self.point == other.point && self.ssn == other.ssn
    }
}

/// A subsystem that is prohibited.
#[derive(Clone, Copy)]
pub struct ProhibitedSubsystem {
    /// The subsystem.
    pub subsystem: Subsystem,
    /// The ticks that are left until its next test; if none is left, a test is due (Q.714 §5.3.4).
    pub ticks: u16,
}

impl ProhibitedSubsystem {
    /// Whether a test of it is due.
    pub fn is_due(&self) -> bool
        ensures { result ≡ rule.is_due self.now }
    {
        self.ticks == 0
    }

    /// A tick passes. If a test was due, the next one is due `sst` ticks after it.
    pub(crate) fn count(&mut self, sst: u16)
        ensures { self.new ≡ rule.counted sst self.old }
    {
        let left = if self.is_due() { sst } else { self.ticks };
        self.ticks = left.saturating_sub(1);
    }
}

/// What an SSP or an SSA says of a subsystem (Q.714 §5.3.2, §5.3.3).
#[derive(Clone, Copy, Debug, PartialEq, Eq)]
pub struct SubsystemNews {
    /// The point that says it.
    pub sender: PointCode,
    /// The affected subsystem.
    pub subsystem: Subsystem,
    /// Whether it is prohibited, by an SSP; by an SSA it is allowed.
    pub is_prohibited: bool,
}
