//! A message that came to a node of a network.

ghost use Rattle.std.specs.Prelude.{◌≡◌};

use settings::{LinkId, Msu};
use std::marker::Model;

/// A message that a frame newly carried to a node, and the link by which it came.
#[derive(Drop)]
pub struct Arrival {
    link: LinkId,
    message: Msu,
}

impl Model for Arrival {
    ghost use Rattle.network_rules.specs.Networks as networks;

    ghost Value = { networks.Arrival };

    ghost view = { λ arrival. record { link = arrival.link; message = arrival.message } };
}

impl Arrival {
    /// A message that came by a link.
    pub(crate) fn new(link: LinkId, message: Msu) -> Arrival
        ensures { result ≡ record { link = link; message = message } }
    {
        Arrival { link, message }
    }

    /// The link.
    pub fn link(&self) -> LinkId
        ensures { result ≡ self.now.link }
    {
        self.link
    }

    /// The message.
    pub fn message(&self) -> &Msu
        ensures { result.now ≡ self.now.message }
    {
        &self.message
    }
}
