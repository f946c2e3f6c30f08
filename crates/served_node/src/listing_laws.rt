//! Laws of what the console lists.

ghost use Rattle.served_node.specs.ListingLaws.{ListingsAreWhole};

/// What the console lists of a link, of settings and of timers is all that there is, in this order.
pub fn listings_are_whole()
    ensures { ListingsAreWhole }
{}
