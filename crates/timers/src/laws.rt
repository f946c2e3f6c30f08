//! What holds of the definitions themselves: the timers of a node are a finite map from names to the ticks that are
//! left.

ghost use Rattle.std.specs.Prelude.{◌≡◌, ◌≢◌, ◌+◌, ◌≤◌, ℕ, true, false, max, Some, None};
ghost use Rattle.std.specs.List.{list_any};
ghost use Rattle.timers.specs.declared.name.TimerName.{TimerName};
ghost use Rattle.timers.specs.declared.name.TimerName.TheVariants as name;
ghost use Rattle.timers.specs.declared.name.RouteTimer.{RouteTimer};
ghost use Rattle.timers.specs.declared.name.RouteTimer.TheVariants as route;
ghost use Rattle.timers.specs.declared.name.NodeCounts.{NodeCounts};
ghost use Rattle.timers.specs.Timers.{key_of, has_name, names_of, is_of_set, is_same, is_before, AreInOrder, Running, none_running, is_running, set_timer, start_unless_running, clear_timer, clear_set, one_less, ticked, due_name, after_due, due_count};

/// Two timers with one place in the order are one.
pub fn keys_tell_names_apart()
    ensures { (x y : TimerName) → key_of x ≡ key_of y → x ≡ y }
{}

/// The names of a node rise, so that each occurs once, and they are those that it has.
pub fn names_stand_in_order()
    ensures rise { (n : NodeCounts) → AreInOrder (names_of n) }
    ensures all { (n : NodeCounts) (name : TimerName)
        → list_any (λ other. is_same other name) (names_of n) ≡ has_name n name }
{}

/// At first no timer runs.
pub fn none_runs_at_first()
    ensures none { (name : TimerName) (n : NodeCounts) → (none_running n).left name ≡ None }
    ensures counts { (n : NodeCounts) → (none_running n).counts ≡ n }
{}

/// A timer that is set has those ticks left, at least one, and no other timer changes. A name that the node doesn't
/// have is ignored: such a timer never runs.
pub fn setting_changes_one_timer()
    ensures set { (name : TimerName) (ticks : ℕ) (r : Running) → has_name r.counts name ≡ true
        → (set_timer name ticks r).left name ≡ Some (max 1 ticks) }
    ensures others { (name other : TimerName) (ticks : ℕ) (r : Running) → name ≢ other
        → (set_timer name ticks r).left other ≡ r.left other }
    ensures absent { (name : TimerName) (ticks : ℕ) (r : Running) → has_name r.counts name ≡ false
        → set_timer name ticks r ≡ r }
    ensures never { (name : TimerName) (r : Running) → has_name r.counts name ≡ false → r.left name ≡ None }
{}

/// A timer that is started unless it runs goes on if it runs, and is set if it doesn't.
pub fn starting_leaves_what_runs()
    ensures runs { (name : TimerName) (ticks : ℕ) (r : Running) → is_running name r ≡ true
        → start_unless_running name ticks r ≡ r }
    ensures idle { (name : TimerName) (ticks : ℕ) (r : Running) → is_running name r ≡ false
        → start_unless_running name ticks r ≡ set_timer name ticks r }
{}

/// A timer that is stopped doesn't run, and no other timer changes.
pub fn clearing_changes_one_timer()
    ensures cleared { (name : TimerName) (r : Running) → (clear_timer name r).left name ≡ None }
    ensures others { (name other : TimerName) (r : Running) → name ≢ other
        → (clear_timer name r).left other ≡ r.left other }
{}

/// A timer of a set that is stopped runs for no destination, and no other timer changes.
pub fn clearing_a_set_changes_its_timers()
    ensures t8 { (set destination : ℕ) (r : Running)
        → (clear_set route.T8 set r).left (name.T8 set destination) ≡ None }
    ensures t10 { (set destination : ℕ) (r : Running)
        → (clear_set route.T10 set r).left (name.T10 set destination) ≡ None }
    ensures others { (timer : RouteTimer) (set : ℕ) (other : TimerName) (r : Running)
        → is_of_set timer set other ≡ false → (clear_set timer set r).left other ≡ r.left other }
{}

/// A tick lowers each timer by one.
pub fn a_tick_lowers_each_timer()
    ensures { (name : TimerName) (r : Running) → (ticked r).left name ≡ one_less (r.left name) }
{}

/// What is handed out is due, and comes before every other name that is due. None is handed out only if none is due.
pub fn the_first_due_is_handed_out()
    ensures due { (name : TimerName) (r : Running) → due_name r ≡ Some name → r.left name ≡ Some 0 }
    ensures first { (name other : TimerName) (r : Running) → due_name r ≡ Some name
        → r.left other ≡ Some 0 → name ≢ other → is_before name other ≡ true }
    ensures none { (name : TimerName) (r : Running) → due_name r ≡ None → r.left name ≢ Some 0 }
{}

/// What is handed out is stopped; if nothing is due, nothing changes.
pub fn what_is_handed_out_is_stopped()
    ensures stopped { (name : TimerName) (r : Running) → due_name r ≡ Some name
        → after_due r ≡ clear_timer name r }
    ensures none { (r : Running) → due_name r ≡ None → after_due r ≡ r }
{}

/// Taking what is due ends after as many calls as there are timers due: each call leaves one less, setting or stopping
/// a timer adds none, and if nothing is handed out none is left.
pub fn what_is_due_runs_out()
    ensures taken { (name : TimerName) (r : Running) → due_name r ≡ Some name
        → due_count (after_due r) + 1 ≡ due_count r }
    ensures none { (r : Running) → due_name r ≡ None → due_count r ≡ 0 }
    ensures set { (name : TimerName) (ticks : ℕ) (r : Running) → due_count (set_timer name ticks r) ≤ due_count r }
    ensures cleared { (name : TimerName) (r : Running) → due_count (clear_timer name r) ≤ due_count r }
    ensures set_cleared { (timer : RouteTimer) (set : ℕ) (r : Running)
        → due_count (clear_set timer set r) ≤ due_count r }
{}

/// No call changes what names there are.
pub fn names_stay()
    ensures set { (name : TimerName) (ticks : ℕ) (r : Running) → (set_timer name ticks r).counts ≡ r.counts }
    ensures cleared { (name : TimerName) (r : Running) → (clear_timer name r).counts ≡ r.counts }
    ensures set_cleared { (timer : RouteTimer) (set : ℕ) (r : Running) → (clear_set timer set r).counts ≡ r.counts }
    ensures ticked { (r : Running) → (ticked r).counts ≡ r.counts }
    ensures taken { (r : Running) → (after_due r).counts ≡ r.counts }
{}

/// What is left to each name says all: two nodes with the same names, each with the same ticks left, have the same
/// timers.
pub fn what_is_left_says_all()
    ensures { (r s : Running) → r.counts ≡ s.counts → ((name : TimerName) → r.left name ≡ s.left name) → r ≡ s }
{}
