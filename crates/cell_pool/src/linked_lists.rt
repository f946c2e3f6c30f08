//! Numbered lists of messages, each message in a cell that names the next one of its list.

ghost use Rattle.std.specs.Prelude.{◌≡◌, ◌≢◌, ◌^◌, ◌<◌, ◌≤◌, [], ◌∷◌, ◌++◌, length, replicate, sum_by, slice_get, IfOk, vec_capacity, count_by, drop, if◌then◌else◌};
ghost use Rattle.std.specs.Option.{option_copied};
ghost use Rattle.signalling_types.specs.Message.{lent};
ghost use Rattle.cell_pool.specs.Lanes.{lane_at, is_user_picked, pushed, dropped};
ghost use Rattle.cell_pool.specs.Moves.{first_behind, all_behind};
ghost use Rattle.cell_pool.specs.Turns.{cut_at};
ghost use Rattle.cell_pool.specs.Row.{written};
ghost use Rattle.cell_pool.specs.Cells.{messages_at};
ghost use Rattle.cell_pool.specs.Numbering.{ring_at};

use crate::cell_links::CellLinks;
use crate::pick::Pick;
use signalling_types::{Limits, Msu, MsuRef};
use std::alloc::{AllocError, Global};
use std::marker::Model;

/// Numbered lists of messages in a row of cells. A message is copied into its cell once, and stays there; the cells of
/// a list are linked. The row grows as cells are first used, within the room that `new` makes.
#[derive(Drop)]
pub(crate) struct LinkedLists {
    cells: Vec<Msu>,
    links: CellLinks,
}

impl Model for LinkedLists {
    ghost use Rattle.cell_pool.specs.Cells.{Occupied};

    ghost Value = { Occupied };

    ghost use Rattle.cell_pool.specs.Row.{occupied_in, HasRow};

    ghost view = { occupied_in };

    ghost invariant = { HasRow };
}

impl LinkedLists {
    /// Empty lists, and room for this many cells.
    pub(crate) fn new(alloc: Global, lists: usize, cells: usize) -> Result<LinkedLists, AllocError>
        requires { cells < 2 ^ 32 }
        ensures { IfOk result (λ s. s ≡ record { lists = replicate lists []; cells = cells }) }
    {
        Ok(LinkedLists {
            cells: Vec::with_capacity(alloc, cells)?,
            links: CellLinks::new(alloc, lists, cells)?,
        })
    }

    /// How many lists there are.
    pub(crate) fn lists(&self) -> usize
        ensures { result ≡ length self.now.lists }
    {
        self.links.rings()
    }

    /// How many messages a list has.
    pub(crate) fn count(&self, list: usize) -> usize
        requires { list < length self.now.lists }
        ensures { result ≡ length (lane_at self.now.lists list) }
    {
        self.links.count(list)
    }

    /// The first message of a list, if there is one.
    pub(crate) fn first(&self, list: usize) -> Option<&Msu>
        requires { list < length self.now.lists }
        ensures { option_copied result ≡ slice_get (lane_at self.now.lists list) 0 }
    {
        let cell = self.links.first(list)?;
        Some(&self.cells[cell.index()])
    }

    /// The message at an index of a list, if there is one.
    pub(crate) fn get(&self, list: usize, index: usize) -> Option<&Msu>
        requires { list < length self.now.lists }
        ensures { option_copied result ≡ slice_get (lane_at self.now.lists list) index }
    {
        let cell = self.links.get(list, index)?;
        Some(&self.cells[cell.index()])
    }

    /// How many user messages of a list a choice takes, from an index on.
    pub(crate) fn count_users<P: Pick>(&self, list: usize, first: usize, pick: &P) -> usize
        requires { list < length self.now.lists }
        ensures { result ≡
            count_by (is_user_picked (P.picks pick.now)) (drop first (lane_at self.now.lists list)) }
    {
        count_users(&self.links, &self.cells, list, first, pick)
    }

    /// Copies a message into a free cell, at the end of a list.
    #[inline(always)]
    pub(crate) fn push_back(&mut self, list: usize, message: MsuRef<'_>)
        requires list { list < length self.old.lists }
        requires room { sum_by length self.old.lists < self.old.cells }
        requires fits { length message.sif.now ≤ Limits.SIF_OCTETS }
        ensures { self.new ≡ record self.old { lists = pushed self.old.lists list (lent message.entry) } }
    {
        let cell = self.links.claim(list);
        write(&mut self.cells, cell.index(), message);
    }

    /// Drops the first message of a list.
    pub(crate) fn drop_first(&mut self, list: usize)
        requires list { list < length self.old.lists }
        requires some { 1 ≤ length (lane_at self.old.lists list) }
        ensures { self.new ≡ record self.old { lists = dropped self.old.lists list 1 } }
    {
        self.links.free_first(list);
    }

    /// Moves the first message of a list, if there is one, to the end of a list, which may be its own: its cell stays.
    pub(crate) fn move_first(&mut self, from: usize, to: usize)
        requires from { from < length self.old.lists }
        requires to { to < length self.old.lists }
        ensures { self.new ≡ record self.old { lists = first_behind self.old.lists from to } }
    {
        self.links.move_first(from, to);
    }

    /// Moves all messages of a list to the end of another: their cells stay.
    pub(crate) fn append(&mut self, from: usize, to: usize)
        requires from { from < length self.old.lists }
        requires to { to < length self.old.lists }
        requires apart { from ≢ to }
        ensures { self.new ≡ record self.old { lists = all_behind self.old.lists from to } }
    {
        self.links.append(from, to);
    }

    /// Puts what comes after this many first messages of a list before these: their cells stay.
    pub(crate) fn turn_round(&mut self, list: usize, count: usize)
        requires { list < length self.old.lists }
        ensures { self.new ≡ record self.old { lists = cut_at count self.old.lists list } }
    {
        self.links.turn_round(list, count);
    }

    /// Notes an index of a list: the way to it, and to the next one, is short from then on.
    pub(crate) fn note(&mut self, list: usize, index: usize)
        requires { list < length self.old.lists }
        ensures { self.new ≡ self.old }
    {
        self.links.note(list, index);
    }
}

/// How many user messages a choice takes in the cells of a list, from an index on.
fn count_users<P: Pick>(
    links: &CellLinks,
    cells: &[Msu],
    list: usize,
    first: usize,
    pick: &P,
) -> usize
    requires list { list < length links.now.rings }
    requires cells { length cells.now ≡ links.now.used }
    ensures { result ≡ count_by (is_user_picked (P.picks pick.now))
        (messages_at cells.now (drop first (ring_at links.now.rings list))) }
{
    let mut count = 0usize;
    let mut next = links.get(list, first);
    for place in first..links.count(list) {
        let Some(cell) = next else { unreachable!() };
        count += one_if_picked(&cells[cell.index()], pick);
        next = links.next(list, place, cell);
    }
    count
}

/// 1 for a user message that a choice takes, 0 for any other message.
fn one_if_picked<P: Pick>(message: &Msu, pick: &P) -> usize
    ensures { result ≡ (if is_user_picked (P.picks pick.now) message.now then 1 else 0) }
{
    if !message.is_management() && pick.picks(message) {
        1
    } else {
        0
    }
}

/// Copies a message into a cell of a row, or into the next one after it.
#[inline(always)]
fn write(cells: &mut Vec<Msu>, index: usize, message: MsuRef<'_>)
    requires index { index ≤ length cells.old.items }
    requires room { index < vec_capacity cells.old }
    requires fits { length message.sif.now ≤ Limits.SIF_OCTETS }
    ensures cells { cells.new.items ≡ written cells.old.items index (lent message.entry) }
    ensures room { vec_capacity cells.old ≤ vec_capacity cells.new }
{
    if index == cells.len() {
        add_blank(cells);
    }
    cells[index].refill(message);
}

/// Adds an empty message to a row.
#[inline(never)]
fn add_blank(cells: &mut Vec<Msu>)
    requires room { length cells.old.items < vec_capacity cells.old }
    ensures cells { cells.new.items ≡ cells.old.items ++ record { sio = 0; sif = [] } ∷ [] }
    ensures room { vec_capacity cells.old ≤ vec_capacity cells.new }
{
    let Ok(blank) = Msu::new(0, &[]) else {
        unreachable!()
    };
    cells.push_reserved(blank);
}
