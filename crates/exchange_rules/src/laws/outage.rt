//! Laws of the abstract exchange: outages of the peer's processor.

ghost use Rattle.exchange_rules.specs.LawsOfOutage.{outages_begin, outages_end, outages_are_told_once};
ghost use Rattle.exchange_rules.specs.LawsOfOutage.{others_know_no_outage, outages_are_watched, no_outage_unasked, ready_goes_last};

/// Where the settings ask for it, a link in service stays there while its peer's processor is out (Q.703 §8,
/// RFC 4165 §4.1.4). By Processor Outage its flows are held as by a failure, L6 is set, and L7 stops; by Processor
/// Recovered that hold is lifted, L6 stops, L7 is set if messages are unconfirmed, and Ready answers it, unless a
/// status waits still: the last one that waits is Ready then. In the outage a second Processor Outage, Busy and Busy
/// Ended change nothing, no message goes out, and as L6 runs out the link fails, as any other does. Elsewhere Processor
/// Recovered is ignored. Where the settings don't ask for it no link is ever in an outage, and a link in service fails
/// by Processor Outage; so does one that is proved, or waits for its peer to be ready, in any case.
pub fn outages_are_a_state_where_asked_for()
    ensures begins { outages_begin }
    ensures ends { outages_end }
    ensures through { outages_are_told_once }
    ensures elsewhere { others_know_no_outage }
    ensures watched { outages_are_watched }
    ensures unasked { no_outage_unasked }
    ensures ready { ready_goes_last }
{}
