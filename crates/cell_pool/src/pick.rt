//! Choices among messages.

ghost use Rattle.std.specs.Prelude.{◌≡◌, Bool, not};
ghost use Rattle.signalling_types.specs.Message.{Message, is_management};

use signalling_types::Msu;

/// A choice among messages.
pub trait Pick {
    /// Which messages it takes.
    ghost picks: { Self → Message → Bool };

    /// Whether it takes this message.
    fn picks(&self, message: &Msu) -> bool
        ensures { result ≡ picks self.now message.now };
}

/// The choice of the user messages: those that are neither management nor test messages.
#[derive(Clone, Copy)]
pub struct UserMessages;

impl Pick for UserMessages {
    ghost picks = { λ choice message. not (is_management message) };

    fn picks(&self, message: &Msu) -> bool {
        !message.is_management()
    }
}
