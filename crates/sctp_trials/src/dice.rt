//! Random numbers.

/// What seeds are spread by: odd, and near the golden ratio.
const SPREAD: u64 = 0x9e37_79b9_7f4a_7c15;

/// A generator of random numbers: xorshift of 64 bits, with the shifts 13, 7 and 17. A seed always gives the same ones.
#[derive(Clone, Copy)]
pub struct Dice {
    state: u64,
}

impl Dice {
    /// The generator of a seed.
    pub fn new(seed: u64) -> Dice {
        Dice {
            state: seed.wrapping_add(1).wrapping_mul(SPREAD) | 1,
        }
    }

    /// The next number below a count; 0 if the count is 0.
    pub fn below(&mut self, count: usize) -> usize {
        self.state ^= self.state << 13;
        self.state ^= self.state >> 7;
        self.state ^= self.state << 17;
        let [a, b, c, d, ..] = self.state.to_be_bytes();
        u32::from_be_bytes([a, b, c, d]) as usize % count.max(1)
    }

    /// An octet.
    pub fn octet(&mut self) -> u8 {
        u8::try_from(self.below(256)).unwrap_or(0)
    }
}
