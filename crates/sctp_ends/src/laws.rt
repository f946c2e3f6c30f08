//! Laws of the abstract endpoint over moves, and of two such endpoints, whatever the network does with their packets.
//! The statements are those of `specs/Theorems.antt`.

ghost use Rattle.sctp_ends.specs.Example.{Happens, given_twice_told_thrice};
ghost use Rattle.sctp_ends.specs.Keyed.{keyed_secrets_are_good, keyed_secrets_fit};
ghost use Rattle.sctp_ends.specs.Theorems.{associations_have_the_laws, steps_are_moves, steps_go_on};
ghost use Rattle.sctp_ends.specs.Theorems.{told_messages_were_given, worlds_are_shown};

/// Each step of an endpoint is a list of moves of `sctp_moves`, if its secrets are good, moves lead to the end that it
/// shows and to the other one, and what comes was put out by the other one and isn't too old.
pub fn steps_of_an_endpoint_are_moves()
    ensures { steps_are_moves }
{}

/// Each run of two endpoints is a list of moves of two ends. They show both states and all that was put out, and their
/// epochs are what the users gave and were told.
pub fn runs_of_two_endpoints_are_moves()
    ensures { worlds_are_shown }
{}

/// And a step of a run goes on from where it was: the moves after it are those of the one end.
pub fn steps_of_two_endpoints_go_on()
    ensures { steps_go_on }
{}

/// Each association in which one user was told something is matched with one of the other user, no two with the same
/// one, and in the same order. What was told in it is the beginning of what the other gave in that one. So each message
/// is told once, in order, whole.
pub fn told_messages_come_in_order()
    ensures { told_messages_were_given }
{}

/// The associations of two endpoints have the laws of `sctp_moves`: "prefix" and "confirmed", "one", "order". If a step
/// opens an association at one of them, which is there after it, the other one has the same or none; and if that one
/// tries with its tag of this one, it waits for COOKIE ACK of it, and its user wants it.
pub fn associations_of_two_endpoints_have_the_laws()
    ensures { associations_have_the_laws }
{}

/// What is drawn and signed under keys, by `sctp_cookie`, is as these laws assume: no tag comes twice, and a cookie
/// that was signed opens as itself. Nor is it longer than on the wire.
pub fn secrets_under_keys_are_good()
    ensures good { keyed_secrets_are_good }
    ensures fit { keyed_secrets_fit }
{}

/// These laws aren't empty. In a run of 14 steps an association opens at both endpoints, the packet of a second message
/// overtakes that of the first, which comes twice, and both messages are told in order. Nor do they allow too much: a
/// message that was given in two associations isn't told in three.
pub fn two_messages_are_told_in_order()
    ensures run { Happens }
    ensures once { given_twice_told_thrice }
{}
