//! The cell at an index of a list, and the way to it from cell to cell.

ghost use Rattle.std.specs.Prelude.{◌≡◌, ◌+◌, ◌<◌, ◌≤◌, length, slice_get, slice_index_or, IfSome};
ghost use Rattle.cell_pool.specs.Numbering.{ring_at};

use super::CellLinks;
use crate::cell_number::CellNumber;

impl CellLinks {
    /// Notes the cell at an index of a list, if there is one. From then on the way to it, and to the one after it, is
    /// short.
    pub(crate) fn note(&mut self, ring: usize, index: usize)
        requires { ring < length self.old.rings }
        ensures { self.new ≡ self.old }
    {
        let chain = self.chains[ring];
        if index < chain.count() && index != chain.place() {
            let cell = self.cell_at(ring, index);
            self.chains[ring] = chain.noting(index, cell);
        }
    }

    /// The cell at an index of a list, if there is one.
    pub(crate) fn get(&self, ring: usize, index: usize) -> Option<CellNumber>
        requires { ring < length self.now.rings }
        ensures number { result ≡ slice_get (ring_at self.now.rings ring) index }
        ensures within { IfSome result (λ number. number < self.now.used) }
    {
        if index < self.count(ring) {
            Some(self.cell_at(ring, index))
        } else {
            None
        }
    }

    /// The cell after one at an index of a list, if there is one.
    pub(crate) fn next(&self, ring: usize, place: usize, cell: CellNumber) -> Option<CellNumber>
        requires ring { ring < length self.now.rings }
        requires place { place < length (ring_at self.now.rings ring) }
        requires cell { cell ≡ slice_index_or (ring_at self.now.rings ring) place 0 }
        ensures number { result ≡ slice_get (ring_at self.now.rings ring) (place + 1) }
        ensures within { IfSome result (λ number. number < self.now.used) }
    {
        if self.count(ring) - place > 1 {
            Some(self.behind(ring, place, cell))
        } else {
            None
        }
    }

    /// The first cell of a list, if there is one.
    pub(crate) fn first(&self, ring: usize) -> Option<CellNumber>
        requires { ring < length self.now.rings }
        ensures number { result ≡ slice_get (ring_at self.now.rings ring) 0 }
        ensures within { IfSome result (λ number. number < self.now.used) }
    {
        if self.count(ring) > 0 {
            Some(self.first_of(ring))
        } else {
            None
        }
    }

    /// The first cell of a list that has one.
    fn first_of(&self, ring: usize) -> CellNumber
        requires ring { ring < length self.now.rings }
        requires some { 0 < length (ring_at self.now.rings ring) }
        ensures cell { result ≡ slice_index_or (ring_at self.now.rings ring) 0 0 }
        ensures within { result < self.now.used }
    {
        self.chains[ring].first()
    }

    /// The cell at an index of a list. The noted one and the last one are known; the way to others begins at the noted
    /// one or at the first.
    pub(super) fn cell_at(&self, ring: usize, index: usize) -> CellNumber
        requires ring { ring < length self.now.rings }
        requires index { index < length (ring_at self.now.rings ring) }
        ensures cell { result ≡ slice_index_or (ring_at self.now.rings ring) index 0 }
        ensures within { result < self.now.used }
    {
        let chain = &self.chains[ring];
        if index == chain.place() {
            chain.noted()
        } else if index + 1 == chain.count() {
            chain.last()
        } else if chain.place() < index {
            self.onward(ring, chain.place(), chain.noted(), index)
        } else {
            self.walked(ring, 0, chain.first(), index)
        }
    }

    /// The cell at an index of a list, by way of one before that index, which usually is the one just before.
    #[inline(always)]
    fn onward(&self, ring: usize, place: usize, cell: CellNumber, index: usize) -> CellNumber
        requires ring { ring < length self.now.rings }
        requires index { index < length (ring_at self.now.rings ring) }
        requires place { place < index }
        requires cell { cell ≡ slice_index_or (ring_at self.now.rings ring) place 0 }
        ensures cell { result ≡ slice_index_or (ring_at self.now.rings ring) index 0 }
        ensures within { result < self.now.used }
    {
        let next = self.behind(ring, place, cell);
        if index == place + 1 {
            next
        } else {
            self.walked(ring, place + 1, next, index)
        }
    }

    /// The cell after one at an index of a list.
    fn behind(&self, ring: usize, place: usize, cell: CellNumber) -> CellNumber
        requires ring { ring < length self.now.rings }
        requires place { place + 1 < length (ring_at self.now.rings ring) }
        requires cell { cell ≡ slice_index_or (ring_at self.now.rings ring) place 0 }
        ensures cell { result ≡ slice_index_or (ring_at self.now.rings ring) (place + 1) 0 }
        ensures within { result < self.now.used }
    {
        self.next[cell.index()]
    }

    /// The cell at an index of a list, by way of one at or before that index.
    #[inline(never)]
    fn walked(&self, ring: usize, place: usize, cell: CellNumber, index: usize) -> CellNumber
        requires ring { ring < length self.now.rings }
        requires index { index < length (ring_at self.now.rings ring) }
        requires place { place ≤ index }
        requires cell { cell ≡ slice_index_or (ring_at self.now.rings ring) place 0 }
        ensures cell { result ≡ slice_index_or (ring_at self.now.rings ring) index 0 }
        ensures within { result < self.now.used }
    {
        let mut cell = cell;
        for _ in place..index {
            cell = self.next[cell.index()];
        }
        cell
    }
}
