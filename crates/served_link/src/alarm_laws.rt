//! Laws of alarms. Each is the contract of a function that does nothing.

ghost use Rattle.std.specs.Prelude.{◌≡◌, ℕ, List, Option, Some, is_some};
ghost use Rattle.served_link.specs.Alarms.{IsAlarm, after_look, alarm_at, place_of};
ghost use Rattle.served_link.specs.Alternating.{Look, Alternates, after_looks, raised_by, changes};
ghost use Rattle.served_link.specs.declared.alarm.Alarm.{Alarm};

/// Whatever is seen, look after look, an alarm that is raised is cleared once before it is raised again, and none is
/// cleared that isn't raised; and what the changes say is what the table has.
pub fn alarms_alternate()
    ensures alternate { (looks : List Look) (since : Option ℕ) → Alternates (is_some since) (changes looks since) }
    ensures told { (looks : List Look) (since : Option ℕ) →
        raised_by (is_some since) (changes looks since) ≡ is_some (after_looks looks since) }
{}

/// What is raised after a look is what was seen by it.
pub fn what_is_seen_is_raised()
    ensures { (look : Look) (since : Option ℕ) → is_some (after_look look.is_on look.now since) ≡ look.is_on }
{}

/// Each alarm has a place of its own in the table.
pub fn alarms_have_their_places()
    ensures { (alarm : Alarm) → IsAlarm alarm → alarm_at (place_of alarm) ≡ Some alarm }
{}
