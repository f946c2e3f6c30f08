//! What holds of the definitions themselves.

ghost use Rattle.link.specs.Naming.{search_finds_named};
ghost use Rattle.link.specs.Periods.{both_ends_are_proved_alike, emergency_proving_begins_when_the_peer_asks};
ghost use Rattle.link.specs.Periods.{links_align_again_with_their_peers, links_tell_their_own_period, periods_stay};

/// The count that a backward number names is found, and there is at most one: what is unconfirmed is less
/// than all numbers.
pub fn search_finds_the_named_count()
    ensures { search_finds_named }
{}

/// Emergency proving (Q.703 §7.3), of a link whose period isn't fixed: a peer that asks for it gets it until it aligns
/// anew, and nothing else changes the period. What the link itself sends is by its own period, whatever the peer asks
/// for (§7.2). If all that is so of both ends, they are proved for the same period. A peer that aligns anew while such a
/// link is proved finds it aligned.
pub fn links_are_proved_as_either_end_asks()
    ensures alike { both_ends_are_proved_alike }
    ensures asks { emergency_proving_begins_when_the_peer_asks }
    ensures stays { periods_stay }
    ensures own { links_tell_their_own_period }
    ensures again { links_align_again_with_their_peers }
{}
