//! What went out.

/// What went out.
#[derive(Clone, Copy)]
pub(crate) struct Total {
    /// How many frames.
    pub frames: u64,
    /// The sum of their words.
    pub checksum: u64,
}

impl Total {
    pub(crate) const NOTHING: Total = Total {
        frames: 0,
        checksum: 0,
    };

    /// This, and a frame of these octets.
    #[inline(always)]
    pub(crate) fn with(self, octets: &[u8]) -> Total {
        Total {
            frames: self.frames.wrapping_add(1),
            checksum: self.checksum.wrapping_add(sum_of(octets)),
        }
    }
}

/// The sum of a frame's words of eight octets, and of its last eight octets.
fn sum_of(octets: &[u8]) -> u64 {
    let (words, _rest) = octets.as_chunks::<8>();
    let mut sum = 0u64;
    for word in words {
        sum = sum.wrapping_add(u64::from_le_bytes(*word));
    }
    match octets.last_chunk::<8>() {
        Some(last) => sum.wrapping_add(u64::from_le_bytes(*last)),
        None => sum,
    }
}
