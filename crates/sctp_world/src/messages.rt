//! The messages of an association.

ghost use Rattle.std.specs.Prelude.{◌≡◌, [], ◌∷◌, ◌++◌, OnOk};

use crate::text::Text;
use std::alloc::{AllocError, Global};
use std::marker::Model;

/// The messages that the user gave in an association, in order.
#[derive(Drop)]
pub struct Messages {
    texts: Vec<Text>,
}

impl Model for Messages {
    ghost use Rattle.std.specs.Prelude.{List};
    ghost use Rattle.sctp_moves.specs.Ends.{Message};

    ghost Value = { List Message };

    ghost view = { λ messages. messages.texts.items };
}

impl Messages {
    /// There are none.
    pub fn new(alloc: Global) -> Messages
        ensures { result ≡ [] }
    {
        Messages {
            texts: Vec::new(alloc),
        }
    }

    /// One more. The error means that memory ran out.
    pub fn push(&mut self, text: Text) -> Result<(), AllocError>
        ensures { OnOk result (self.new ≡ self.old ++ text ∷ []) }
    {
        self.texts.push(text)?;
        Ok(())
    }

    /// All of them.
    pub fn texts(&self) -> &[Text]
        ensures { result.now ≡ self.now }
    {
        self.texts.as_slice()
    }
}
