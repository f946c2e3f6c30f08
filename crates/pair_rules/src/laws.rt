//! What two exchanges say to each other about a link that fails, and a run of two that have only each other. The steps
//! are those of `specs/Pairs.antt`; what holds of them is in `neighbour_rules`, of which such a pair is the special
//! case. Each function states its law in its contract, and does nothing.

ghost use Rattle.pair_rules.specs.Laws.{words_are_read};
ghost use Rattle.pair_rules.specs.OneEndFirst.{ComesOnce};
ghost use Rattle.pair_rules.specs.Sharing.{links_are_told_by_their_codes};

/// A word, as laws (ii) to (iv) of `neighbour_rules` call it, is what an order to change over or its answer says to the
/// node that it comes to: which link it is about, and a number. An order or answer that a node makes says, to the node
/// that it faces, the link and the number that it was made with (Q.704 §15.4).
pub fn orders_and_answers_say_their_word()
    ensures { words_are_read }
{}

/// Between two nodes that share a link set, whatever other neighbours each has, a link has one code at both ends: by
/// the other's point and that code each node finds its own end. An order to change over that a node makes about a link
/// of the set, and its answer to one, say to the node there the far end of that link and the number that they were made
/// with (Q.704 §15.2, §15.4).
pub fn links_are_told_by_their_codes()
    ensures { links_are_told_by_their_codes }
{}

/// The promises aren't empty. In a run of 49 steps of two exchanges a message is accepted, and the link on which it
/// waits fails at both ends. That link opens again at one end, and falls there before the other follows. The message
/// comes by the other link, once. No flag is raised.
pub fn a_message_crosses_while_one_end_opens()
    ensures { ComesOnce }
{}
