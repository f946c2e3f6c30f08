//! What every store of messages does.

ghost use Rattle.std.specs.Prelude.{◌≡◌, ◌≢◌, ℕ, ◌<◌, ◌≤◌, List, None, Some, length, drop, count_by, IfErr, OnOk, is_ok, slice_get, if◌then◌else◌};
ghost use Rattle.std.specs.Option.{option_copied};
ghost use Rattle.signalling_types.specs.Message.{Message, lent};
ghost use Rattle.signalling_types.specs.declared.limits.TheConstants.Limits;
ghost use Rattle.cell_pool.specs.Lanes.{lane_at, is_user_picked, managements, push_refusal, pushed, dropped};
ghost use Rattle.cell_pool.specs.Moves.{first_behind, all_behind, all_before, picked_behind, picked_before};

use crate::pick::Pick;
use signalling_types::{Cause, Msu, MsuRef};

/// Numbered lists of messages. All lists together keep at most a stated number of user messages, and
/// at most 256 management messages.
pub trait Lanes {
    /// The lists, in the order of their numbers.
    ghost lists: { Self → List (List Message) };

    /// How many user messages may be in all lists together.
    ghost pool: { Self → ℕ };

    /// How many lists there are.
    fn lanes(&self) -> usize
        ensures { result ≡ length (lists self.now) };

    /// How many management messages are in all lists together.
    fn managements(&self) -> usize
        ensures { result ≡ managements (lists self.now) };

    /// Why this message would be refused now: PoolFull for a user message, ManagementFull for a management message,
    /// exactly when there are already as many of its kind as there may be.
    fn refusal(&self, message: MsuRef<'_>) -> Option<Cause>
        ensures { result ≡ push_refusal (pool self.now) (lists self.now) (lent message.entry) };

    /// Puts a copy of a message at the end of a list. Refused as `refusal` says, and then nothing changes.
    fn push_back(&mut self, lane: usize, message: MsuRef<'_>) -> Result<(), Cause>
        requires lane { lane < length (lists self.old) }
        requires fits { length message.sif.now ≤ Limits.SIF_OCTETS }
        ensures refused { IfErr result (λ cause.
            push_refusal (pool self.old) (lists self.old) (lent message.entry) ≡ Some cause) }
        ensures taken { OnOk result (push_refusal (pool self.old) (lists self.old) (lent message.entry) ≡ None) }
        ensures lists { lists self.new
            ≡ (if is_ok result then pushed (lists self.old) lane (lent message.entry) else lists self.old) }
        ensures pool { pool self.new ≡ pool self.old };

    /// Puts a copy of a message, which wouldn't be refused, at the end of a list.
    fn push_within_room(&mut self, lane: usize, message: MsuRef<'_>)
        requires lane { lane < length (lists self.old) }
        requires fits { length message.sif.now ≤ Limits.SIF_OCTETS }
        requires room { push_refusal (pool self.old) (lists self.old) (lent message) ≡ None }
        ensures lists { lists self.new ≡ pushed (lists self.old) lane (lent message.entry) }
        ensures pool { pool self.new ≡ pool self.old };

    /// Takes the first message of a list, if there is one.
    fn pop_front(&mut self, lane: usize) -> Option<Msu>
        requires { lane < length (lists self.old) }
        ensures first { result ≡ slice_get (lane_at (lists self.old) lane) 0 }
        ensures lists { lists self.new ≡ dropped (lists self.old) lane 1 }
        ensures pool { pool self.new ≡ pool self.old };

    /// Drops the first `count` messages of a list, or all if it has fewer.
    fn drop_front(&mut self, lane: usize, count: usize)
        requires { lane < length (lists self.old) }
        ensures lists { lists self.new ≡ dropped (lists self.old) lane count }
        ensures pool { pool self.new ≡ pool self.old };

    /// Moves the first message of a list, if there is one, to the end of a list, which may be its own.
    fn move_first(&mut self, from: usize, to: usize)
        requires from { from < length (lists self.old) }
        requires to { to < length (lists self.old) }
        ensures lists { lists self.new ≡ first_behind (lists self.old) from to }
        ensures pool { pool self.new ≡ pool self.old };

    /// Moves all messages of a list, in order, to the end of another. The first list is empty then.
    fn append(&mut self, from: usize, to: usize)
        requires from { from < length (lists self.old) }
        requires to { to < length (lists self.old) }
        requires apart { from ≢ to }
        ensures lists { lists self.new ≡ all_behind (lists self.old) from to }
        ensures pool { pool self.new ≡ pool self.old };

    /// Moves all messages of a list, in order, before all messages of another. The first list is empty then.
    fn splice_front(&mut self, from: usize, to: usize)
        requires from { from < length (lists self.old) }
        requires to { to < length (lists self.old) }
        requires apart { from ≢ to }
        ensures lists { lists self.new ≡ all_before (lists self.old) from to }
        ensures pool { pool self.new ≡ pool self.old };

    /// Moves the messages of a list that a choice takes, in order, to the end of another. The others stay in order.
    fn move_where<P: Pick>(&mut self, from: usize, to: usize, pick: &P)
        requires from { from < length (lists self.old) }
        requires to { to < length (lists self.old) }
        requires apart { from ≢ to }
        ensures lists { lists self.new ≡ picked_behind (P.picks pick.now) (lists self.old) from to }
        ensures pool { pool self.new ≡ pool self.old };

    /// Moves the messages of a list that a choice takes, in order, before all messages of another. The others stay in
    /// order.
    fn splice_where<P: Pick>(&mut self, from: usize, to: usize, pick: &P)
        requires from { from < length (lists self.old) }
        requires to { to < length (lists self.old) }
        requires apart { from ≢ to }
        ensures lists { lists self.new ≡ picked_before (P.picks pick.now) (lists self.old) from to }
        ensures pool { pool self.new ≡ pool self.old };

    /// Notes an index of a list, so that `get` at that index and at the next one takes a fixed number of steps, even
    /// after messages were added to the list or dropped before that index. No message moves.
    fn note(&mut self, lane: usize, index: usize)
        requires { lane < length (lists self.old) }
        ensures lists { lists self.new ≡ lists self.old }
        ensures pool { pool self.new ≡ pool self.old };

    /// The message at an index of a list, from 0, if there is one.
    fn get(&self, lane: usize, index: usize) -> Option<&Msu>
        requires { lane < length (lists self.now) }
        ensures { option_copied result ≡ slice_get (lane_at (lists self.now) lane) index };

    /// How many user messages of a list a choice takes, from an index on. Each message is looked at once, with a step
    /// for each before that index.
    fn count_users<P: Pick>(&self, lane: usize, first: usize, pick: &P) -> usize
        requires { lane < length (lists self.now) }
        ensures { result ≡
            count_by (is_user_picked (P.picks pick.now)) (drop first (lane_at (lists self.now) lane)) };

    /// How many messages a list has.
    fn count(&self, lane: usize) -> usize
        requires { lane < length (lists self.now) }
        ensures { result ≡ length (lane_at (lists self.now) lane) };
}
