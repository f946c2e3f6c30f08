//! The numbers of heartbeats.

ghost use Rattle.std.specs.Prelude.{◌≡◌};
ghost use Rattle.sctp_cookie.specs.Nonces.{nonce_of};

use crate::hmac::hmac_sha256;
use crate::tags::KEY_OCTETS;

/// The number of the next heartbeat after so many: the first eight octets of the code of this count. Whoever doesn't know
/// the key can't guess it (RFC 9260 §5.4).
#[tactic(auto, unfolding(crate::specs::Nonces::nonce_of))]
pub fn nonce(key: &[u8; KEY_OCTETS], count: u64) -> u64
    ensures { result ≡ nonce_of key.now count }
{
    let code = hmac_sha256(key, &count.to_be_bytes());
    let Some(eight) = code.first_chunk::<8>() else {
        unreachable!()
    };
    u64::from_be_bytes(*eight)
}
