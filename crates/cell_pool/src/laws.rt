//! What holds of moves between lists.

ghost use Rattle.std.specs.Prelude.{ℕ, ◌<◌, Bool, List, length};
ghost use Rattle.signalling_types.specs.Message.{Message};
ghost use Rattle.cell_pool.specs.Lanes.{HasAsMany};
ghost use Rattle.cell_pool.specs.Moves.{first_behind, all_behind, all_before, picked_behind, picked_before};

/// A move leaves as many user messages and as many management messages in all lists together as there were.
pub fn moves_keep_the_counts()
    ensures first { (lists : List (List Message)) (from to : ℕ) → from < length lists → to < length lists
        → HasAsMany lists (first_behind lists from to) }
    ensures append { (lists : List (List Message)) (from to : ℕ) → from < length lists → to < length lists
        → HasAsMany lists (all_behind lists from to) }
    ensures splice_front { (lists : List (List Message)) (from to : ℕ) → from < length lists → to < length lists
        → HasAsMany lists (all_before lists from to) }
    ensures move_where { (picks : Message → Bool) (lists : List (List Message)) (from to : ℕ)
        → from < length lists → to < length lists → HasAsMany lists (picked_behind picks lists from to) }
    ensures splice_where { (picks : Message → Bool) (lists : List (List Message)) (from to : ℕ)
        → from < length lists → to < length lists → HasAsMany lists (picked_before picks lists from to) }
{}
