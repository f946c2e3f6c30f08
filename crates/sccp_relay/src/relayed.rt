//! What becomes of a message.

use crate::subsystem::SubsystemNews;
use signalling_types::Cause;

/// What becomes of an SCCP message for this point (Q.714 §2.3).
#[derive(Clone, Copy, Debug, PartialEq, Eq)]
pub enum Relayed {
    /// It is for a subsystem that is here.
    Delivered,
    /// It goes on, rewritten: this many octets of the field that was lent, from its front.
    Onward(usize),
    /// It is heard what it says of a subsystem at another point (Q.714 §5.3.2, §5.3.3).
    Heard(SubsystemNews),
    /// It is refused for this cause.
    Refused(Cause),
}
