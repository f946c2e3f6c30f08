//! Laws of the abstract endpoint, with any peer.

ghost use Rattle.sctp_rules.specs.GivenMessages.{given_messages_go_out};
ghost use Rattle.sctp_rules.specs.Lively.{halves_are_lively, idle_halves_put_out, messages_go_out_as_data};
ghost use Rattle.sctp_rules.specs.Openings.{generations_grow, cookies_open_in_their_generation, other_tags_are_dropped};
ghost use Rattle.sctp_rules.specs.Openings.{answers_come_from_anywhere, inits_change_nothing};
ghost use Rattle.sctp_rules.specs.ReceivedMessages.{messages_are_received};
ghost use Rattle.sctp_rules.specs.SentMessages.{given_messages_are_sent, given_messages_are_kept};
ghost use Rattle.sctp_rules.specs.Telling.{told_in_turn};
ghost use Rattle.sctp_rules.specs.Wishing.{told_as_wished};
ghost use Rattle.sctp_rules.specs.WrittenPackets.{packets_are_written, packets_are_read};

/// Whatever happens, the user is told in turn: Up, then messages, then Down; and Failed only while none is up.
pub fn users_are_told_in_turn()
    ensures { told_in_turn }
{}

/// Whatever happens, Up is told only if the user wants an association: it called for one since the last Down, Failed or
/// Up. And while it wants none and has none, the endpoint neither tries to open one nor waits for its peer to do so.
pub fn associations_come_up_where_wanted()
    ensures { told_as_wished }
{}

/// Whatever happens: what the user is told in an association, from Up to Down, is what a receiver tells. That receiver
/// got the DATA that came, in the packet that opened the association or later, with that packet's tag, counted from
/// some TSN. While DATA counts that receiver is the endpoint's, the tag is the association's own, and the TSN is the
/// peer's first.
pub fn what_is_told_was_received()
    ensures { messages_are_received }
{}

/// Whatever happens: each DATA chunk in a packet that goes out carries a whole message that the user gave in that
/// association. Its TSN is the first one plus the index of the message, its stream is the one that the message was
/// given for, and its number there is the message's. It goes to the association's peer. What isn't confirmed is what
/// was given without its beginning. The peer said how much that is, in the packet that opened the association or in one
/// with its tag since. A sending half alone does so under any list of calls.
pub fn what_goes_out_was_given()
    ensures sent { given_messages_are_sent }
    ensures kept { given_messages_are_kept }
    ensures half { given_messages_go_out }
{}

/// From any moment on, the generation grows at least by as many as associations open, and a cookie of any generation
/// but the present one opens nothing. So a cookie opens once at most.
pub fn a_cookie_opens_once()
    ensures generations { generations_grow }
    ensures cookies { cookies_open_in_their_generation }
{}

/// An INIT changes nothing, whoever sent it, and whatever it says: it is answered at most. So nobody who doesn't hear the
/// answers opens an association, ends one or the try of one, or uses up a tag.
pub fn an_init_changes_nothing()
    ensures { inits_change_nothing }
{}

/// While there is an association, a packet with another tag changes nothing, if it is no INIT, no COOKIE ECHO and no
/// ABORT or SHUTDOWN COMPLETE with the peer's tag.
pub fn packets_with_other_tags_are_dropped()
    ensures { other_tags_are_dropped }
{}

/// Whatever comes, each packet that goes out can be written in full, and reads back as it was, if the ports, and the
/// tags that are drawn and signed, have as many bits as on the wire.
pub fn what_goes_out_reads_back()
    ensures written { packets_are_written }
    ensures read { packets_are_read }
{}

/// In COOKIE-WAIT the peer may answer from any address: an INIT ACK does the same wherever it comes from.
pub fn answers_may_come_from_anywhere()
    ensures { answers_come_from_anywhere }
{}

/// A sending half under any list of calls: while nothing is under way and a message waits, one goes out, however small
/// the peer's window is (RFC 9260 §6.1 A); in the states in which DATA may go, as DATA in the next packets. T3 runs
/// while something is outstanding (§6.3.2 R1). A message that went out twice is never timed (Karn's rule, §6.3.1 C5).
/// The congestion window is a packet at least.
pub fn something_may_always_go()
    ensures halves { halves_are_lively }
    ensures idle { idle_halves_put_out }
    ensures data { messages_go_out_as_data }
{}
