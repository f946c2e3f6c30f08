//! Whose message a frame has.

ghost use Rattle.std.specs.Prelude.{◌≡◌};
ghost use Rattle.served_link.specs.Counting.{has_user_message};

use trace::ObservedFrame;

/// Whether a frame has a message of a user, and none of the network's management or of link tests.
#[inline(always)]
pub(crate) fn has_user_message(frame: &ObservedFrame<'_>) -> bool
    ensures { result ≡ has_user_message frame.now }
{
    match frame.message() {
        Some(message) => !message.is_management(),
        None => false,
    }
}
