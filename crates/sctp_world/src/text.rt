//! Messages that are kept.

use std::alloc::{AllocError, Global};
use std::marker::Model;

/// A message, with octets of its own.
#[derive(Drop)]
pub struct Text {
    stream: u16,
    protocol: u32,
    octets: Vec<u8>,
}

impl Model for Text {
    ghost use Rattle.sctp_moves.specs.Ends.{Message};

    ghost Value = { Message };

    ghost view = { λ text. record { stream = text.stream; protocol = text.protocol; octets = text.octets.items } };
}

impl Text {
    ghost use Rattle.std.specs.Prelude.{◌≡◌, IfOk};

    /// A message of these octets.
    pub fn new(alloc: Global, stream: u16, protocol: u32, octets: &[u8]) -> Result<Text, AllocError>
        ensures { IfOk result (λ text.
            text ≡ record { stream = stream; protocol = protocol; octets = octets.now }) }
    {
        let mut copy = Vec::new(alloc);
        copy.extend_from_slice(octets)?;
        Ok(Text {
            stream,
            protocol,
            octets: copy,
        })
    }

    /// Its stream.
    pub fn stream(&self) -> u16
        ensures { result ≡ self.now.stream }
    {
        self.stream
    }

    /// Its payload protocol identifier.
    pub fn protocol(&self) -> u32
        ensures { result ≡ self.now.protocol }
    {
        self.protocol
    }

    /// Its octets.
    pub fn octets(&self) -> &[u8]
        ensures { result.now ≡ self.now.octets }
    {
        self.octets.as_slice()
    }
}
