//! Laws of what an end sends. Each function states its law in its contract, and does nothing.

ghost use Rattle.std.specs.Prelude.{◌≡◌, ◌<◌, ◌≤◌, ◌+◌, ◌*◌, ◌^◌, ℕ, List, ◌∷◌, ◌++◌, [], drop, length, min};
ghost use Rattle.std.specs.Prelude.{Bool, true, Option, Some, None};
ghost use Rattle.sctp_sending.specs.declared.confirmation.Confirmation.{Confirmation};
ghost use Rattle.sctp_sending.specs.Outgoing.{Message};
ghost use Rattle.sctp_sending.specs.Sending.{
  Sending,
  given,
  gone,
  gone_next,
  after_cumulative,
  after_sack,
  after_t3,
  after_each_t3,
  acknowledged,
  gone_again,
  messages_of,
  count_of,
  most_octets,
  has_room,
  next_place,
  one_retransmission_more,
};
ghost use Rattle.sctp_sending.specs.Waiting.{waiting_octets, has_room_behind, after_going};

/// A message that is given goes after the others, and only a cumulative TSN takes messages away: from the front, as
/// many as it confirms. Nothing else changes which messages there are.
pub fn messages_leave_from_the_front()
    ensures given { (s : Sending) (m : Message) → messages_of (given s m) ≡ messages_of s ++ m ∷ [] }
    ensures gone { (s : Sending) (now : ℕ) (place : Option ℕ) → messages_of (gone_next s now place) ≡ messages_of s }
    ensures t3 { (s : Sending) (now : ℕ) → messages_of (after_t3 s now) ≡ messages_of s }
    ensures cumulative { (s : Sending) (now : ℕ) (c : Confirmation)
        → messages_of (after_cumulative s now c) ≡ drop (count_of c) (messages_of s) }
    ensures sack { (s : Sending) (now window : ℕ) (names : ℕ → Bool) (c : Confirmation)
        → messages_of (after_sack s now window names c) ≡ drop (count_of c) (messages_of s) }
{}

/// If there is room, a message of at most 290 octets that is given is the one that goes out next.
pub fn a_message_that_finds_room_goes_out_next()
    ensures { (s : Sending) (m : Message) → has_room s ≡ true → length m.octets ≤ most_octets
        → next_place (given s m) ≡ Some (length s.out) }
{}

/// If there is room after what didn't go out yet, a message of at most 290 octets that is given goes out after it, and
/// nothing holds any of it up. When packets are next asked for, all goes out in order, one message after another.
pub fn messages_that_find_room_behind_others_go_out_with_them()
    ensures { (s : Sending) (m : Message) (octets now place : ℕ) → waiting_octets s ≤ octets
        → has_room_behind s octets ≡ true → length m.octets ≤ most_octets → s.went + place ≤ length s.out
        → next_place (after_going place now (given s m)) ≡ Some (s.went + place) }
{}

/// Each time that T3 runs out the timeout doubles, up to RTO.Max, and T3 runs for that long (RFC 9260 §6.3.3 E2).
pub fn timeouts_double()
    ensures doubles { (s : Sending) (moments : List ℕ) → s.round_trips.timeout ≤ s.round_trips.bounds.most
        → (after_each_t3 moments s).round_trips.timeout
        ≡ min (2 ^ length moments * s.round_trips.timeout) s.round_trips.bounds.most }
    ensures runs { (s : Sending) (now : ℕ) → (after_t3 s now).t3 ≡ Some (now + (after_t3 s now).round_trips.timeout) }
{}

/// T3 starts anew when the earliest outstanding message is confirmed (RFC 9260 §6.3.2 R3), and when that one goes out
/// again (§7.2.4, 5). It stops when nothing is outstanding (§6.3.2 R2). A SACK that confirms nothing leaves it.
pub fn t3_waits_for_the_earliest()
    ensures confirmed { (s : Sending) (now window count : ℕ) (names : ℕ → Bool) → 0 < count → count < s.went
        → (acknowledged s now window count names).t3
        ≡ Some (now + (acknowledged s now window count names).round_trips.timeout) }
    ensures again { (s : Sending) (now : ℕ) → (gone_again s 0 now).t3 ≡ Some (now + s.round_trips.timeout) }
    ensures none { (s : Sending) (now window count : ℕ) (names : ℕ → Bool) → s.went ≤ count
        → (acknowledged s now window count names).t3 ≡ None }
    ensures other { (s : Sending) (now window : ℕ) (names : ℕ → Bool) → 0 < s.went
        → (acknowledged s now window 0 names).t3 ≡ s.t3 }
{}

/// A message that went out before counts as a retransmission each time that it goes out (RFC 9260 §6.3.3, §7.2.4). One
/// that goes out for the first time doesn't, and nothing else that happens changes the count.
pub fn retransmissions_count_what_goes_out_again()
    ensures again { (s : Sending) (place now : ℕ) → place < s.went
        → (gone s place now).retransmissions ≡ one_retransmission_more s.retransmissions }
    ensures first { (s : Sending) (place now : ℕ) → s.went ≤ place
        → (gone s place now).retransmissions ≡ s.retransmissions }
    ensures given { (s : Sending) (m : Message) → (given s m).retransmissions ≡ s.retransmissions }
    ensures t3 { (s : Sending) (now : ℕ) → (after_t3 s now).retransmissions ≡ s.retransmissions }
    ensures cumulative { (s : Sending) (now : ℕ) (c : Confirmation)
        → (after_cumulative s now c).retransmissions ≡ s.retransmissions }
    ensures sack { (s : Sending) (now window : ℕ) (names : ℕ → Bool) (c : Confirmation)
        → (after_sack s now window names c).retransmissions ≡ s.retransmissions }
{}
