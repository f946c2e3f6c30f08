//! Lanes as linked cells of one row.

ghost use Rattle.std.specs.Prelude.{◌≡◌, ◌≢◌, ℕ, ◌+◌, ◌<◌, ◌≤◌, List, [], length, replicate, IfOk};
ghost use Rattle.std.specs.Prelude.{Bool, if◌then◌else◌};
ghost use Rattle.cell_pool.specs.Lanes.{lane_at, dropped};
ghost use Rattle.cell_pool.specs.Moves.{first_behind};
ghost use Rattle.cell_pool.specs.Turns.{turned, cut_at};

use crate::lanes::Lanes;
use crate::linked_lists::LinkedLists;
use crate::pick::Pick;
use signalling_types::{Cause, Limits, Msu, MsuRef};
use std::alloc::{AllocError, Global};
use std::marker::Model;

/// Numbered lists of messages over one row of cells, with a cell for each user message of the pool and for each of 256
/// management messages. A message is copied into its cell once and stays there. Each cell names the next one of its
/// list.
///
/// All room is made by `new`: no other call allocates memory, and a cell's memory isn't touched before the cell is
/// first used. The cell freed last is taken first, so lists that stay short stay in the same few cells. `drop_front`
/// takes a step for each message that it drops; `move_where` and `splice_where` one for each message of the list. `get`
/// walks from the noted message or from the first; the last one, the noted one and the one after that are there at
/// once. `note` walks as `get` does. Every other call takes a fixed number of steps, however many lists and messages
/// there are. A move relinks cells, and copies no message.
#[derive(Drop)]
pub struct CellPool {
    lists: LinkedLists,
    users: usize,
    managements: usize,
    pool: usize,
}

impl Model for CellPool {
    ghost use Rattle.cell_pool.specs.Stored.{Stored};

    ghost Value = { Stored };

    ghost use Rattle.cell_pool.specs.Counted.{stored_in, IsCounted};

    ghost view = { stored_in };

    ghost invariant = { IsCounted };
}

impl CellPool {
    /// This many empty lists, at most one more than a node has links, with room for a pool of user messages, at most
    /// 65,535, and for 256 management messages.
    ///
    /// Each message has a cell of 276 octets and a link of four, whose memory isn't used before they are, if the system
    /// gives pages at their first use. Each list takes 32 octets. The error means that memory ran out.
    pub fn new(alloc: Global, lanes: usize, pool: usize) -> Result<CellPool, AllocError>
        requires lanes { lanes ≤ Limits.LINKS + 1 }
        requires pool { pool ≤ Limits.POOL }
        ensures { IfOk result (λ stored. stored ≡ record { lists = replicate lanes []; pool = pool }) }
    {
        Ok(CellPool {
            lists: LinkedLists::new(alloc, lanes, pool + Limits::MANAGEMENT_MESSAGES)?,
            users: 0,
            managements: 0,
            pool,
        })
    }

    /// Drops the first message of a list, if there is one.
    fn drop_first(&mut self, lane: usize)
        requires { lane < length self.old.lists }
        ensures { self.new ≡ record self.old { lists = dropped self.old.lists lane 1 } }
    {
        if let Some(message) = self.lists.first(lane) {
            if message.is_management() {
                self.managements -= 1;
            } else {
                self.users -= 1;
            }
            self.lists.drop_first(lane);
        }
    }

    /// Puts what comes after this many first messages of a list before these.
    fn turn_round(&mut self, lane: usize, count: usize)
        requires { lane < length self.old.lists }
        ensures { self.new ≡ record self.old { lists = cut_at count self.old.lists lane } }
    {
        self.lists.turn_round(lane, count);
    }

    /// Moves the first message of a list, if there is one, to the end of another if a choice takes it, else to the end
    /// of its own.
    fn turn<P: Pick>(&mut self, from: usize, to: usize, pick: &P)
        requires from { from < length self.old.lists }
        requires to { to < length self.old.lists }
        ensures { self.new ≡ record self.old { lists = turned (P.picks pick.now) self.old.lists from to } }
    {
        let picked = match self.lists.first(from) {
            Some(message) => pick.picks(message),
            None => false,
        };
        self.move_first(from, if picked { to } else { from });
    }
}

impl Lanes for CellPool {
    ghost lists = { λ stored. stored.lists };

    ghost pool = { λ stored. stored.pool };

    fn lanes(&self) -> usize {
        self.lists.lists()
    }

    fn managements(&self) -> usize {
        self.managements
    }

    fn refusal(&self, message: MsuRef<'_>) -> Option<Cause> {
        if message.is_management() {
            (self.managements >= Limits::MANAGEMENT_MESSAGES).then_some(Cause::ManagementFull)
        } else {
            (self.users >= self.pool).then_some(Cause::PoolFull)
        }
    }

    #[inline(always)]
    fn push_back(&mut self, lane: usize, message: MsuRef<'_>) -> Result<(), Cause> {
        if let Some(cause) = self.refusal(message) {
            return Err(cause);
        }
        self.push_within_room(lane, message);
        Ok(())
    }

    #[inline(always)]
    fn push_within_room(&mut self, lane: usize, message: MsuRef<'_>) {
        self.lists.push_back(lane, message);
        if message.is_management() {
            self.managements += 1;
        } else {
            self.users += 1;
        }
    }

    fn pop_front(&mut self, lane: usize) -> Option<Msu> {
        let first = self.lists.first(lane).copied();
        self.drop_first(lane);
        first
    }

    fn drop_front(&mut self, lane: usize, count: usize) {
        for _ in 0..count.min(self.lists.count(lane)) {
            self.drop_first(lane);
        }
    }

    fn move_first(&mut self, from: usize, to: usize) {
        self.lists.move_first(from, to);
    }

    fn append(&mut self, from: usize, to: usize) {
        self.lists.append(from, to);
    }

    fn splice_front(&mut self, from: usize, to: usize) {
        let count = self.count(to);
        self.note(to, count.saturating_sub(1));
        self.append(from, to);
        self.turn_round(to, count);
    }

    fn move_where<P: Pick>(&mut self, from: usize, to: usize, pick: &P) {
        for _ in 0..self.lists.count(from) {
            self.turn(from, to, pick);
        }
    }

    fn splice_where<P: Pick>(&mut self, from: usize, to: usize, pick: &P) {
        let count = self.count(to);
        self.note(to, count.saturating_sub(1));
        self.move_where(from, to, pick);
        self.turn_round(to, count);
    }

    fn note(&mut self, lane: usize, index: usize) {
        self.lists.note(lane, index);
    }

    fn get(&self, lane: usize, index: usize) -> Option<&Msu> {
        self.lists.get(lane, index)
    }

    fn count_users<P: Pick>(&self, lane: usize, first: usize, pick: &P) -> usize {
        self.lists.count_users(lane, first, pick)
    }

    fn count(&self, lane: usize) -> usize {
        self.lists.count(lane)
    }
}
