//! Laws of what is left out before an endpoint hears it.

ghost use Rattle.sctp_links.specs.Allowances.{answers_are_bounded, few_are_answered};

/// Whenever INITs of a link come: no more are answered in a time than were left at its start and grew in it, by
/// `INITS_A_MILLISECOND` each millisecond. If no more come than were left, all are answered.
pub fn inits_are_limited()
    ensures bounded { answers_are_bounded }
    ensures few { few_are_answered }
{}
