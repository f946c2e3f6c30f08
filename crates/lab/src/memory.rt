//! Links over streams in memory, which can be set to give few octets a read, and to fail at one call.

ghost use Rattle.std.specs.Prelude.{◌≡◌, max, IfOk, IfErr};

use crate::joining::{JoinFault, Joiner};
use std::alloc::{AllocError, AllocFailed, Global};
use std::cell::{Cell, RefCell};
use std::collections::VecDeque;
use std::io;
use std::io::{ErrorKind, Read, Write};
use std::marker::Model;
use std::rc::Rc;

/// Octets on their way in one direction.
type Pipe = Rc<RefCell<VecDeque<u8>>>;

/// How many calls are made before the one that fails, if one does; it is shared by all streams of a joiner.
type Plan = Rc<Cell<Option<u64>>>;

/// Joins the ends of links by streams in memory.
///
/// A join or a write also fails if memory for it is refused.
#[derive(Drop)]
pub struct MemoryJoiner {
    alloc: Global,
    most: usize,
    fault: JoinFault,
    plan: Plan,
}

impl Model for MemoryJoiner {
    ghost use Rattle.lab.specs.Memory.{MemoryLinks};

    ghost Value = { MemoryLinks };

    ghost view = { λ j. record { most = j.most; fault = j.fault } };
}

impl MemoryJoiner {
    /// The joiner whose streams give as many octets a read as the buffer holds.
    pub fn new(alloc: Global) -> Result<MemoryJoiner, AllocFailed<Cell<Option<u64>>>>
        ensures { IfOk result (λ joiner. joiner ≡ record { most = usize.MAX; fault = JoinFault.Connect }) }
    {
        let plan = Rc::new(alloc, Cell::new(None))?;
        Ok(MemoryJoiner {
            alloc,
            most: usize::MAX,
            fault: JoinFault::Connect,
            plan,
        })
    }

    /// The same, but with at most so many octets a read, and at least one.
    pub fn in_pieces_of(self, most: usize) -> MemoryJoiner
        ensures { result ≡ record self { most = max most 1 } }
    {
        MemoryJoiner {
            alloc: self.alloc,
            most: most.max(1),
            fault: self.fault,
            plan: self.plan,
        }
    }

    /// The same, but a join that fails fails by this fault.
    pub fn with_fault(self, fault: JoinFault) -> MemoryJoiner
        ensures { result ≡ record self { fault = fault } }
    {
        MemoryJoiner {
            alloc: self.alloc,
            most: self.most,
            fault,
            plan: self.plan,
        }
    }

    /// The same, but the call after so many more fails, whether it joins, reads or writes.
    pub fn failing_after(self, calls: u64) -> MemoryJoiner
        ensures { result ≡ self }
    {
        self.plan.set(Some(calls));
        self
    }

    /// A stream that reads from one pipe and writes to another.
    fn stream(&self, incoming: &Pipe, outgoing: &Pipe) -> Result<MemoryStream, AllocError> {
        Ok(MemoryStream {
            incoming: incoming.clone()?,
            outgoing: outgoing.clone()?,
            most: self.most,
            plan: self.plan.clone()?,
        })
    }

    /// Two streams that are joined.
    fn streams(&self) -> Result<(MemoryStream, MemoryStream), AllocError> {
        let there = pipe(self.alloc)?;
        let back = pipe(self.alloc)?;
        Ok((self.stream(&back, &there)?, self.stream(&there, &back)?))
    }
}

impl Joiner for MemoryJoiner {
    type Stream = MemoryStream;

    fn join(&mut self) -> Result<(MemoryStream, MemoryStream), JoinFault>
        ensures fault { IfErr result (λ fault. fault ≡ self.old.fault) }
        ensures state { self.new ≡ self.old }
    {
        if is_planned(&self.plan) {
            return Err(self.fault);
        }
        match self.streams() {
            Ok(streams) => Ok(streams),
            Err(_) => Err(self.fault),
        }
    }
}

/// An empty pipe.
fn pipe(alloc: Global) -> Result<Pipe, AllocError> {
    match Rc::new(alloc, RefCell::new(VecDeque::new(alloc))) {
        Ok(pipe) => Ok(pipe),
        Err(_) => Err(AllocError),
    }
}

/// Whether the call that is made now is the one to fail.
fn is_planned(plan: &Plan) -> bool {
    let calls = plan.get();
    plan.set(match calls {
        Some(0) | None => None,
        Some(calls) => Some(calls - 1),
    });
    calls == Some(0)
}

/// One end of two streams in memory. A read finds the end whenever nothing is under way: the other end may still write
/// later.
#[derive(Drop)]
pub struct MemoryStream {
    incoming: Pipe,
    outgoing: Pipe,
    most: usize,
    plan: Plan,
}

impl Read for MemoryStream {
    fn read(&mut self, buffer: &mut [u8]) -> io::Result<usize> {
        if is_planned(&self.plan) {
            return Err(io::Error::from(ErrorKind::ConnectionReset));
        }
        let Ok(mut octets) = self.incoming.try_borrow_mut() else {
            return Err(io::Error::from(ErrorKind::ConnectionReset));
        };
        let count = octets.len().min(buffer.len()).min(self.most);
        for place in buffer[..count].iter_mut() {
            if let Some(octet) = octets.pop_front() {
                *place = octet;
            }
        }
        Ok(count)
    }
}

impl Write for MemoryStream {
    fn write(&mut self, octets: &[u8]) -> io::Result<usize> {
        if is_planned(&self.plan) {
            return Err(io::Error::from(ErrorKind::ConnectionReset));
        }
        let Ok(mut outgoing) = self.outgoing.try_borrow_mut() else {
            return Err(io::Error::from(ErrorKind::ConnectionReset));
        };
        for octet in octets {
            if outgoing.push_back(*octet).is_err() {
                return Err(io::Error::from(ErrorKind::OutOfMemory));
            }
        }
        Ok(octets.len())
    }

    fn flush(&mut self) -> io::Result<()> {
        Ok(())
    }
}
