//! Random numbers.

ghost use Rattle.std.specs.Prelude.{◌<◌};

/// A generator of random numbers: xorshift of 64 bits, with the shifts 13, 7 and 17. A seed always gives the same ones.
#[derive(Clone, Copy)]
pub(crate) struct Dice {
    state: u64,
}

/// What seeds are spread by: odd, and near the golden ratio.
const SPREAD: u64 = 0x9e37_79b9_7f4a_7c15;

impl Dice {
    /// The generator of a seed.
    pub(crate) fn new(seed: u64) -> Dice {
        Dice {
            state: seed.wrapping_add(1).wrapping_mul(SPREAD) | 1,
        }
    }

    /// The next eight octets.
    fn next(&mut self) -> [u8; 8] {
        self.state ^= self.state << 13;
        self.state ^= self.state >> 7;
        self.state ^= self.state << 17;
        self.state.to_be_bytes()
    }

    /// The next octet.
    pub(crate) fn octet(&mut self) -> u8 {
        self.next()[0]
    }

    /// The next number below a count; 0 if the count is 0.
    pub(crate) fn below(&mut self, count: usize) -> usize
        ensures { 0 < count → result < count }
    {
        let [a, b, c, d, ..] = self.next();
        u32::from_be_bytes([a, b, c, d]) as usize % count.max(1)
    }

    /// True once in n times.
    pub(crate) fn one_in(&mut self, count: usize) -> bool {
        self.below(count) == 0
    }

    /// One of these.
    pub(crate) fn one_of<T: Copy + Default>(&mut self, items: &[T]) -> T {
        items
            .get(self.below(items.len()))
            .copied()
            .unwrap_or_default()
    }
}
