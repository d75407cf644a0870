//! What the judge finds in the records of a history, in one walk over them: the receipts of all seats, and the ticks of all
//! processors.
ghost use Rattle.std.specs.Prelude.{◌≡◌, ◌+◌, ◌≤◌, ◌<◌, ◌^◌, ◌↔◌, ◌∷◌, [], ℕ, List, length, map, IsTrue, Some, slice_get, slice_index};
ghost use Rattle.fmp_codes.specs.Records.{AreOn};
ghost use Rattle.fmp_codes.specs.declared.records.Record.{Record};
ghost use Rattle.fmp_world.specs.Views.{Seat, ClockSeat};
ghost use Rattle.fmp_smp_histories.specs.Histories.{events_of};
ghost use Rattle.fmp_world.specs.Ends.{AreSeats};
ghost use Rattle.fmp_world.specs.Findings as spec;

use crate::equality::is_same;
use crate::replay::Replay;
use crate::seats::{Cpu, Receipt, Seats};
use fmp_codes::{Answer, Event, Proc, Record};
use fmp_smp_histories::is_taken;

/// What was found in the records so far.
#[derive(Drop)]
pub struct Findings {
    /// How many receipts each processor was told, and the clock, which comes last.
    passed: [u32; 9],
    /// How many ticks each processor took.
    pub taken: [u32; 8],
    /// Whether the seats begin with these receipts.
    fits: bool,
}

/// The place of the seat that is told an event.
fn seat_of(event: &Event) -> usize
    ensures is { result ≡ spec.seat_of event.now }
    ensures small { result ≤ 8 }
{
    match event {
        Event::Call(p, _) => p.index(),
        Event::Ipi(p) => p.index(),
        Event::Tick(_) => 8,
    }
}

/// The receipts of the seat of a place; the clock's is after those of the processors.
fn receipts_at(seats: &Seats, place: usize) -> &[Receipt]
    ensures { result.now ≡ spec.receipts_at seats.entry.now.cpus.items seats.entry.now.clock place }
{
    match seats.cpus.get(place) {
        Some(cpu) => cpu.receipts(),
        None => seats.clock.receipts(),
    }
}

/// The receipt of a record of this number.
fn receipt_of(number: u32, made: &Record) -> Receipt
    ensures { result ≡ spec.receipt number made.now }
{
    Receipt {
        number,
        event: made.event,
        answer: made.answer,
    }
}

/// Whether this receipt stands at this place.
fn stands(receipts: &[Receipt], at: u32, receipt: &Receipt) -> bool
    ensures { IsTrue result ↔ (slice_get receipts.now at ≡ Some receipt.now) }
{
    match receipts.get(at as usize) {
        Some(report) => is_same(report, receipt),
        None => false,
    }
}

/// Whether a record is that of a tick which its processor took.
fn is_taken_tick(made: &Record) -> bool
    ensures { result ≡ spec.is_taken_tick made.now }
{
    match made.event {
        Event::Tick(_) => is_taken(made.answer),
        Event::Call(_, _) => false,
        Event::Ipi(_) => false,
    }
}

/// Counts a record, if it is that of a tick which its processor took.
fn count(taken: &mut [u32; 8], made: &Record)
    requires { (i : ℕ) → i < 8 → slice_index taken.old i + 1 < 2 ^ 32 }
    ensures { taken.new ≡ spec.counted taken.old made.now }
{
    if is_taken_tick(made) {
        let at = made.event.processor().index();
        taken[at] += 1;
    }
}

impl Findings {
    /// What is found before the first record.
    fn none() -> Findings
        ensures { (cpus : List Seat) (clock : ClockSeat) → spec.Finds result cpus clock [] }
    {
        Findings {
            passed: [0; 9],
            taken: [0; 8],
            fits: true,
        }
    }

    /// Adds what is found in one record more.
    fn take(&mut self, seats: &Seats, number: u32, made: &Record)
        requires passed { (i : ℕ) → i < 9 → slice_index self.old.passed i + 1 < 2 ^ 32 }
        requires taken { (i : ℕ) → i < 8 → slice_index self.old.taken i + 1 < 2 ^ 32 }
        ensures { spec.Takes self.old seats.now.cpus.items seats.now.clock number made.now self.new }
    {
        let place = seat_of(&made.event);
        let at = self.passed[place];
        let here = stands(receipts_at(seats, place), at, &receipt_of(number, made));
        self.fits = self.fits && here;
        self.passed[place] = at + 1;
        count(&mut self.taken, made);
    }

    /// Walks once over all records of a history.
    pub fn of(mut replay: Replay<'_, '_>, seats: &Seats) -> Findings
        requires { length replay < 2 ^ 32 }
        ensures { spec.Finds result seats.now.cpus.items seats.now.clock replay.entry }
    {
        let mut found = Findings::none();
        let mut report = Record::answer(Event::Tick(Proc::new(1)), None, Answer::Nothing);
        let mut number: u32 = 0;
        while replay.next(&mut report) {
            number += 1;
            found.take(seats, number, &report);
        }
        found
    }

    /// Whether the seats are those of so many processors in order, with exactly the receipts that they were told.
    pub fn fit(&self, seats: &Seats, processors: u8) -> bool
        requires { processors ≤ 8 }
        ensures { (h : List Record) → spec.Finds self.now seats.now.cpus.items seats.now.clock h → AreOn processors (events_of h)
            → (IsTrue result ↔ AreSeats processors seats.now.cpus.items seats.now.clock h) }
    {
        if !self.fits || seats.cpus.len() != usize::from(processors) {
            return false;
        }
        if !self.all_passed(&seats.cpus) {
            return false;
        }
        seats.clock.receipts().len() == self.passed[8] as usize
    }

    /// Whether each seat is that of the processor of its place, with as many receipts as it was told.
    fn all_passed(&self, cpus: &[Cpu]) -> bool
        requires { length cpus.now ≤ 8 }
        ensures { IsTrue result ↔ spec.AllPassed cpus.now self.now.passed }
    {
        for (at, cpu) in cpus.iter().enumerate() {
            let number = at as u8 + 1;
            let report = self.passed[at] as usize;
            if cpu.processor().number != number || cpu.receipts().len() != report {
                return false;
            }
        }
        true
    }
}
