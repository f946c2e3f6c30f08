//! The tags that an endpoint draws.

ghost use Rattle.std.specs.Prelude.{◌≡◌, ◌+◌, is_none, is_some, if◌then◌else◌};
ghost use Rattle.sctp_cookie.specs.Tags.{next_tag};
ghost use Rattle.sctp_ends.specs.Keyed.{drawing_after};

use sctp_cookie::Tags;
use std::marker::Model;

/// While fewer tags than this were drawn, one is left, and what it is needn't be computed to know that: each used two
/// of 2^32 numbers at most.
const SURELY_LEFT: u64 = 1 << 30;

/// The tags that an endpoint draws, and how many it drew.
#[derive(Drop)]
pub struct Beginnings {
    tags: Tags,
    count: u64,
}

impl Model for Beginnings {
    ghost use Rattle.sctp_endpoint.specs.Drawn.{Drawn};

    ghost Value = { Drawn };

    ghost use Rattle.sctp_endpoint.specs.Drawn.{drawn_in, IsDrawn};

    ghost view = { drawn_in };

    ghost invariant = { IsDrawn };
}

impl Beginnings {
    /// None is drawn yet. Draw the key at random.
    #[tactic(auto, unfolding(sctp_ends::specs::Keyed::drawing_after))]
    pub fn new(key: [u8; 32]) -> Beginnings
        ensures { result ≡ record { key = key; count = 0 } }
    {
        Beginnings {
            tags: Tags::new(key),
            count: 0,
        }
    }

    /// Draws the next tag, if one is left.
    pub fn draw(&mut self) -> Option<u32>
        ensures tag { result ≡ next_tag (drawing_after self.old.key self.old.count) }
        ensures drawn { self.new ≡ record {
          key = self.old.key;
          count = if is_some result then self.old.count + 1 else self.old.count;
        } }
    {
        let tag = self.tags.peek()?;
        self.tags.draw();
        self.count += 1;
        Some(tag)
    }

    /// The next tag, if one is left; it isn't drawn by this.
    pub fn peek(&self) -> Option<u32>
        ensures { result ≡ next_tag (drawing_after self.now.key self.now.count) }
    {
        self.tags.peek()
    }

    /// Whether no tag is left.
    pub fn is_spent(&self) -> bool
        ensures { result ≡ is_none (next_tag (drawing_after self.now.key self.now.count)) }
    {
        self.count >= SURELY_LEFT && self.tags.peek().is_none()
    }
}
