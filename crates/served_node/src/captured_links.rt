//! Which links are captured.

ghost use Rattle.std.specs.Prelude.{◌≡◌};
ghost use Rattle.served_node.specs.Captured.{all_captured, captured_by, is_captured, none_captured};

use settings::LinkId;
use std::marker::Model;

/// How many links a number of a link tells apart.
const LINK_NUMBERS: usize = 256;

/// An order that links are captured from now on, or aren't.
#[derive(Clone, Copy)]
pub struct CaptureOrder {
    /// Whether they are.
    pub is_on: bool,
    /// Which link; all, if none is named.
    pub link: Option<LinkId>,
}

/// Which links of a node are captured, if it has a capture.
#[derive(Drop)]
pub struct CapturedLinks {
    is_there: bool,
    links: [bool; LINK_NUMBERS],
}

impl Model for CapturedLinks {
    ghost use Rattle.served_node.specs.Captured.{Captured};
    ghost use Rattle.std.specs.Prelude.{◌≡◌, length};
    ghost use Rattle.served_node.specs.declared.captured_links.TheConstants.{LINK_NUMBERS};

    ghost Value = { Captured };

    ghost view = { λ c. record { is_there = c.is_there; links = c.links } };

    ghost invariant = { λ c. length c.links ≡ LINK_NUMBERS };
}

impl CapturedLinks {
    /// There is no capture.
    pub fn none() -> CapturedLinks
        ensures { result ≡ none_captured }
    {
        CapturedLinks {
            is_there: false,
            links: [false; LINK_NUMBERS],
        }
    }

    /// There is a capture, of all links.
    pub fn all() -> CapturedLinks
        ensures { result ≡ all_captured }
    {
        CapturedLinks {
            is_there: true,
            links: [true; LINK_NUMBERS],
        }
    }

    /// Whether there is a capture.
    pub fn is_there(&self) -> bool
        ensures { result ≡ self.now.is_there }
    {
        self.is_there
    }

    /// Whether a link is captured.
    pub fn has(&self, link: LinkId) -> bool
        ensures { result ≡ is_captured link self.now }
    {
        self.links[link.index()]
    }

    /// Does an order, if there is a capture.
    pub fn obey(&mut self, order: CaptureOrder)
        ensures { self.new ≡ captured_by order self.old }
    {
        if !self.is_there {
            return;
        }
        match order.link {
            Some(link) => self.links[link.index()] = order.is_on,
            None => self.links = [order.is_on; LINK_NUMBERS],
        }
    }
}
