//! The seats of the processors and of the clock, with their receipts.
ghost use Rattle.std.specs.Prelude.{◌≡◌, ◌++◌, [], ◌∷◌, ◌<◌, ◌==◌, length, IfOk, nat_lt};
ghost use Rattle.fmp_world.specs.Views.{Seat, ClockSeat};

use arrayvec::ArrayVec;
use fmp_codes::{Answer, Event, Proc};
use std::alloc::{AllocError, Global};
use std::default::MadeWith;
use std::marker::Model;

/// What a turn or a tick tells its seat: the event, and the answer to it.
#[derive(Clone, Copy)]
pub struct Receipt {
    /// The place of its record in the history, from 1.
    pub number: u32,
    pub event: Event,
    pub answer: Answer,
}

/// How a turn or a tick went.
#[derive(Clone, Copy)]
pub enum Turn {
    /// The history has one more record, and the seat this receipt.
    Made(Receipt),
    /// The processor has nothing to do: no handler is due, no task runs, and there is no request that it can take.
    Nothing,
    /// The history or the seat has no room left.
    Full,
}

/// The seat of a processor: it keeps the receipts of its calls and interrupts.
#[derive(Drop)]
pub struct Cpu {
    processor: Proc,
    room: u32,
    receipts: Vec<Receipt>,
}

impl Model for Cpu {
    ghost use Rattle.std.specs.Prelude.{◌≤◌, length};
    ghost use Rattle.std.specs.Vec.{vec_capacity};
    ghost use Rattle.fmp_world.specs.Views.{Seat};

    ghost Value = { Seat };

    ghost view = { λ s. record { processor = s.processor; room = s.room; receipts = s.receipts.items } };

    ghost invariant = { λ s. s.room ≤ vec_capacity s.receipts };
}

/// The seat of the clock: it keeps the receipts of all ticks.
#[derive(Drop)]
pub struct Clock {
    room: u32,
    receipts: Vec<Receipt>,
}

impl Model for Clock {
    ghost use Rattle.std.specs.Prelude.{◌≤◌, length};
    ghost use Rattle.std.specs.Vec.{vec_capacity};
    ghost use Rattle.fmp_world.specs.Views.{ClockSeat};

    ghost Value = { ClockSeat };

    ghost view = { λ s. record { room = s.room; receipts = s.receipts.items } };

    ghost invariant = { λ s. s.room ≤ vec_capacity s.receipts };
}

/// One seat for each processor, in order, and the clock's.
#[derive(Drop)]
pub struct Seats {
    pub cpus: ArrayVec<Cpu, 8, Global>,
    pub clock: Clock,
}

impl Cpu {
    /// The seat of a processor, without receipts, and with room for so many. The error is want of memory.
    pub(crate) fn new(alloc: Global, processor: Proc, room: u32) -> Result<Cpu, AllocError>
        ensures { IfOk result (λ s. s ≡ record { processor = processor; room = room; receipts = [] }) }
    {
        Ok(Cpu {
            processor,
            room,
            receipts: Vec::with_capacity(alloc, room as usize)?,
        })
    }

    /// The processor whose seat it is.
    pub fn processor(&self) -> Proc
        ensures { result ≡ self.now.processor }
    {
        self.processor
    }

    /// What its turns told, in their order.
    pub fn receipts(&self) -> &[Receipt]
        ensures { result.now ≡ self.now.receipts }
    {
        &self.receipts
    }

    /// What its turns told, in their order.
    pub(crate) fn into_receipts(self) -> Vec<Receipt>
        ensures { result.items ≡ self.receipts }
    {
        self.receipts
    }

    /// Whether there is room for another receipt.
    pub(crate) fn has_room(&self) -> bool
        ensures { result ≡ nat_lt (length self.now.receipts) self.now.room }
    {
        self.receipts.len() < self.room as usize
    }

    /// Keeps one more receipt, after the others.
    pub(crate) fn keep(&mut self, receipt: Receipt)
        requires { length self.old.receipts < self.old.room }
        ensures { self.new ≡ record self.old { receipts = self.old.receipts ++ receipt ∷ [] } }
    {
        self.receipts.push_reserved(receipt);
    }
}

impl MadeWith<Global> for Cpu {
    fn made_with(alloc: Global) -> Cpu {
        Cpu {
            processor: Proc::new(1),
            room: 0,
            receipts: Vec::new(alloc),
        }
    }
}

impl Clock {
    /// The seat of the clock, without receipts, and with room for so many. The error is want of memory.
    pub(crate) fn new(alloc: Global, room: u32) -> Result<Clock, AllocError>
        ensures { IfOk result (λ s. s ≡ record { room = room; receipts = [] }) }
    {
        Ok(Clock {
            room,
            receipts: Vec::with_capacity(alloc, room as usize)?,
        })
    }

    /// What its ticks told, in their order.
    pub fn receipts(&self) -> &[Receipt]
        ensures { result.now ≡ self.now.receipts }
    {
        &self.receipts
    }

    /// What its ticks told, in their order.
    pub(crate) fn into_receipts(self) -> Vec<Receipt>
        ensures { result.items ≡ self.receipts }
    {
        self.receipts
    }

    /// Whether there is room for another receipt.
    pub(crate) fn has_room(&self) -> bool
        ensures { result ≡ nat_lt (length self.now.receipts) self.now.room }
    {
        self.receipts.len() < self.room as usize
    }

    /// Keeps one more receipt, after the others.
    pub(crate) fn keep(&mut self, receipt: Receipt)
        requires { length self.old.receipts < self.old.room }
        ensures { self.new ≡ record self.old { receipts = self.old.receipts ++ receipt ∷ [] } }
    {
        self.receipts.push_reserved(receipt);
    }
}
