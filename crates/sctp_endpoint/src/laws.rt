//! Laws of what an endpoint refuses.

ghost use Rattle.sctp_endpoint.specs.Refusing.{inits_are_answered_or_refused, refused_init_acks_end_tries};

/// `Endpoint::refusal` says of each INIT whether it is answered by INIT ACK, and of each INIT ACK with the tag of the
/// try whether it ends that.
pub fn refusals_are_told_apart()
    ensures inits { inits_are_answered_or_refused }
    ensures init_acks { refused_init_acks_end_tries }
{}
