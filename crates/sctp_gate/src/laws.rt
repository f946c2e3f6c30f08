//! Laws of gates. Each function states its law in its contract, and does nothing.

ghost use Rattle.exchange.specs.KeptQueues.{kept};
ghost use Rattle.exchange_rules.specs.Queues.{whole};
ghost use Rattle.sctp_gate.specs.Laws.{frames_have_their_streams, settling_agrees};
ghost use Rattle.sctp_gate.specs.Laws.{taken_frames_are_given, taken_frames_go_out};
ghost use Rattle.sctp_gate.specs.Laws.{WaitsDouble, waits_double_from_up};
ghost use Rattle.sctp_gate.specs.Standing.{first_standing};
ghost use Rattle.sctp_gate.specs.Rising.{associations_come_up, calls_are_seen};

/// After each settling, with which each datagram and each tick ends: if an association is up, the link asks for
/// nothing; and one is wanted, or a try goes on, only if the link wants to open. This holds whatever happened to the
/// exchange before.
pub fn settled_gates_do_what_their_links_want()
    ensures whole { settling_agrees whole }
    // The same on what is kept.
    ensures kept { settling_agrees kept }
{}

/// AssociationUp is never refused. Take a gate that was new, whatever was called at it since, and whatever happened to
/// the exchange between the calls. Each time that its association is seen to come up, the link wants to open at that
/// very moment, AssociationUp is handled, and after it the link has an association and isn't down.
pub fn associations_come_up_at_their_links()
    ensures whole { associations_come_up whole }
    // The same on what is kept.
    ensures kept { associations_come_up kept }
{}

/// What a call does to an exchange is what is seen of it, event by event and frame by frame, and no more.
pub fn calls_do_what_is_seen_of_them()
    ensures whole { calls_are_seen whole }
    // The same on what is kept.
    ensures kept { calls_are_seen kept }
{}

/// A frame is taken only if it goes out at once. After a fill that took one, all that was ever given and isn't
/// confirmed has gone out; and a frame of 1 to 290 octets that finds room is given, after all others.
pub fn frames_that_are_taken_go_out()
    ensures whole { taken_frames_go_out whole }
    // The same on what is kept.
    ensures kept { taken_frames_go_out kept }
    ensures given { taken_frames_are_given }
{}

/// Link Status goes out on stream 0, and User Data on stream 1 (RFC 4165 §4.1.2).
pub fn frames_go_out_on_their_streams()
    ensures { frames_have_their_streams }
{}

/// After the first try that fails the next one may begin a second later, and after each further one in a row twice as
/// late, up to 30 seconds. Once an association was up the waits start over.
pub fn waits_double()
    ensures first { WaitsDouble first_standing }
    ensures again { waits_double_from_up }
{}
