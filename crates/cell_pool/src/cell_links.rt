//! Which cells each list has, in order: each cell names the next one of its list.

ghost use Rattle.std.specs.Prelude.{◌≡◌, ◌≢◌, ◌+◌, ◌^◌, ◌<◌, ◌≤◌, [], ◌∷◌, ◌++◌, length, take, drop, replicate, sum_by};
ghost use Rattle.std.specs.Prelude.{slice_set, IfOk};
ghost use Rattle.cell_pool.specs.Moves.{first_behind, all_behind};
ghost use Rattle.cell_pool.specs.Numbering.{ring_at, uses};
ghost use Rattle.cell_pool.specs.Chains.{no_cells};
ghost use Rattle.cell_pool.specs.Links.{reserved, IsReached};

mod walks;

use crate::cell_number::CellNumber;
use crate::chain::Chain;
use std::alloc::{AllocError, Global};
use std::marker::Model;

/// Lists of cell numbers, each cell naming the next one, and the free cells, of which the last one freed is taken
/// first. No memory is written for a number that was never taken.
#[derive(Drop)]
pub(crate) struct CellLinks {
    next: Vec<CellNumber>,
    chains: Vec<Chain>,
    free: CellNumber,
    spare: usize,
    total: usize,
}

impl Model for CellLinks {
    ghost use Rattle.cell_pool.specs.Links.{Linked};

    ghost Value = { Linked };

    ghost use Rattle.cell_pool.specs.Linked.{linked_in, IsLinked};

    ghost view = { linked_in };

    ghost invariant = { IsLinked };
}

impl CellLinks {
    /// Lists without cells; no cell was ever used.
    pub(crate) fn new(alloc: Global, rings: usize, total: usize) -> Result<CellLinks, AllocError>
        requires { total < 2 ^ 32 }
        ensures { IfOk result (λ n. n ≡ record { free = []; rings = replicate rings []; used = 0; total = total }) }
    {
        Ok(CellLinks {
            next: Vec::with_capacity(alloc, total)?,
            chains: empty_chains(alloc, rings)?,
            free: CellNumber::new(0),
            spare: 0,
            total,
        })
    }

    /// How many lists there are.
    pub(crate) fn rings(&self) -> usize
        ensures { result ≡ length self.now.rings }
    {
        self.chains.len()
    }

    /// How many cells a list has.
    pub(crate) fn count(&self, ring: usize) -> usize
        requires { ring < length self.now.rings }
        ensures { result ≡ length (ring_at self.now.rings ring) }
    {
        self.chains[ring].count()
    }

    /// Frees a cell that was never used, if no other is free.
    fn grow(&mut self)
        requires none { self.old.free ≡ [] }
        requires room { self.old.used < self.old.total }
        ensures { self.new ≡ record self.old { free = self.old.used ∷ []; used = self.old.used + 1 } }
    {
        let cell = CellNumber::new(self.next.len());
        self.next.push_reserved(cell);
        self.free = cell;
        self.spare = 1;
    }

    /// Puts the first free cell at the end of a list.
    #[inline(always)]
    fn take_free(&mut self, ring: usize)
        requires ring { ring < length self.old.rings }
        requires some { 1 ≤ length self.old.free }
        ensures { self.new ≡ record self.old {
          free = drop 1 self.old.free;
          rings = slice_set self.old.rings ring (ring_at self.old.rings ring ++ take 1 self.old.free);
        } }
    {
        let cell = Chain::of(self.free);
        let chain = self.chains[ring];
        self.free = self.next[self.free.index()];
        self.spare -= 1;
        self.next[chain.end(&cell).index()] = cell.first();
        self.chains[ring] = chain.joined(&cell);
    }

    /// Frees the first cell of a list.
    pub(crate) fn free_first(&mut self, ring: usize)
        requires ring { ring < length self.old.rings }
        requires some { 1 ≤ length (ring_at self.old.rings ring) }
        ensures { self.new ≡ record self.old {
          free = take 1 (ring_at self.old.rings ring) ++ self.old.free;
          rings = slice_set self.old.rings ring (drop 1 (ring_at self.old.rings ring));
        } }
    {
        let chain = self.chains[ring];
        let cell = chain.first();
        self.chains[ring] = chain.without_first(self.next[cell.index()]);
        self.next[cell.index()] = self.free;
        self.free = cell;
        self.spare += 1;
    }

    /// Provides a free cell: one that was never used, if no cell is free again.
    fn reserve(&mut self)
        requires room { sum_by length self.old.rings < self.old.total }
        ensures cells { self.new ≡ reserved self.old }
        ensures some { 1 ≤ length self.new.free }
        ensures room { self.new.used ≤ self.new.total }
    {
        if self.spare == 0 {
            self.grow();
        }
    }

    fn first_free(&self) -> CellNumber
        requires { 1 ≤ length self.now.free }
        ensures cell { take 1 self.now.free ≡ result ∷ [] }
        ensures within { result < self.now.used }
        ensures fresh { sum_by (uses result) self.now.rings ≡ 0 }
    {
        self.free
    }

    /// Puts a free cell at the end of a list: the one that was freed last, else one that was never used.
    #[inline(always)]
    pub(crate) fn claim(&mut self, ring: usize) -> CellNumber
        requires ring { ring < length self.old.rings }
        requires room { sum_by length self.old.rings < self.old.total }
        ensures rings { self.new.rings
            ≡ slice_set self.old.rings ring (ring_at self.old.rings ring ++ result ∷ []) }
        ensures total { self.new.total ≡ self.old.total }
        ensures used { IsReached self.old.used result self.new.used }
        ensures room { self.new.used ≤ self.new.total }
        ensures fresh { sum_by (uses result) self.old.rings ≡ 0 }
    {
        self.reserve();
        let cell = self.first_free();
        self.take_free(ring);
        cell
    }

    /// Moves the first cell of a list, if there is one, to the end of a list, which may be its own. It is freed, and
    /// taken at once.
    pub(crate) fn move_first(&mut self, from: usize, to: usize)
        requires from { from < length self.old.rings }
        requires to { to < length self.old.rings }
        ensures { self.new ≡ record self.old { rings = first_behind self.old.rings from to } }
    {
        if self.count(from) > 0 {
            self.free_first(from);
            self.take_free(to);
        }
    }

    /// Moves all cells of a list to the end of another.
    pub(crate) fn append(&mut self, from: usize, to: usize)
        requires from { from < length self.old.rings }
        requires to { to < length self.old.rings }
        requires apart { from ≢ to }
        ensures { self.new ≡ record self.old { rings = all_behind self.old.rings from to } }
    {
        let back = self.chains[from];
        if back.count() > 0 {
            let front = self.chains[to];
            self.next[front.end(&back).index()] = back.first();
            self.chains[from] = Chain::empty();
            self.chains[to] = front.joined(&back);
        }
    }

    /// Puts what comes after this many first cells of a list before these.
    pub(crate) fn turn_round(&mut self, ring: usize, count: usize)
        requires { ring < length self.old.rings }
        ensures { self.new ≡ record self.old {
          rings = slice_set self.old.rings ring
              (drop count (ring_at self.old.rings ring) ++ take count (ring_at self.old.rings ring));
        } }
    {
        let chain = self.chains[ring];
        if 0 < count && count < chain.count() {
            let last = self.cell_at(ring, count - 1);
            let first = self.next[last.index()];
            self.next[chain.last().index()] = chain.first();
            self.chains[ring] = chain.turned_round(first, last);
        }
    }
}

/// This many lists without cells.
fn empty_chains(alloc: Global, count: usize) -> Result<Vec<Chain>, AllocError>
    ensures { IfOk result (λ chains. chains.items ≡ replicate count no_cells) }
{
    let mut chains = Vec::with_capacity(alloc, count)?;
    for _ in 0..count {
        chains.push_reserved(Chain::empty());
    }
    Ok(chains)
}
