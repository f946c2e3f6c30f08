//! The keys of an endpoint.

use sctp_endpoint::endpoint::KEY_OCTETS;
use std::io;
use std::random::RandomSource;

/// The keys of an endpoint: under one it draws tags, and under the other it signs cookies.
#[derive(Clone, Copy)]
pub struct Keys {
    /// The key of the tags.
    pub tags: [u8; KEY_OCTETS],
    /// The key of the cookies.
    pub cookies: [u8; KEY_OCTETS],
}

impl Keys {
    /// Draws both at random. The error is that of the system.
    pub fn draw<R: RandomSource>(random: &R) -> io::Result<Keys> {
        let mut keys = Keys {
            tags: [0; KEY_OCTETS],
            cookies: [0; KEY_OCTETS],
        };
        random.fill_bytes(&mut keys.tags)?;
        random.fill_bytes(&mut keys.cookies)?;
        Ok(keys)
    }
}
