//! What a run's number chooses.

/// What a run's number chooses, one thing after another: so that each combination of choices has a number.
#[derive(Clone, Copy)]
pub(crate) struct Choices(pub u16);

impl Choices {
    /// A choice below a count.
    pub(crate) fn below(&mut self, count: u8) -> u8 {
        let count = count.max(1) as u16;
        let choice = self.0 % count;
        self.0 /= count;
        choice as u8
    }
}
