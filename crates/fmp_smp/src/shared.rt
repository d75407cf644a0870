//! What the threads of a run share.
use crate::clocked::Clocked;
use crate::gate::Gate;
use crossbeam_utils::sync::Unparker;
use fmp_codes::{Proc, Record};
use fmp_world::{Clock, Cpu, Turn};
use std::sync::atomic::{AtomicBool, Ordering};
use std::sync::{Mutex, Wait};

/// For each place, whether the record lists a request to the processor there.
fn requested(made: Option<&Record>) -> [bool; 8] {
    let mut requested = [false; 8];
    if let Some(made) = made {
        for p in made.requests.as_slice() {
            requested[p.index()] = true;
        }
    }
    requested
}

/// The world and the clock's ticks under one lock, what wakes each processor, and whether the run is over.
#[derive(Drop)]
pub struct Shared<'a, 'g, G> {
    pub world: Mutex<Clocked<'a>>,
    pub unparkers: Vec<Unparker>,
    pub over: AtomicBool,
    pub gate: &'g G,
}

impl<'a, 'g, G: Gate> Shared<'a, 'g, G> {
    /// Whether the run has ended, and each thread has to return.
    pub fn is_over(&self) -> bool {
        self.over.load(Ordering::SeqCst)
    }

    /// Ends the run: all threads wake, and see that it is over.
    pub fn end(&self) {
        self.over.store(true, Ordering::SeqCst);
        self.wake_all();
    }

    /// Wakes all threads, whatever they wait for.
    pub fn wake_all(&self) {
        for unparker in &self.unparkers {
            unparker.unpark();
        }
    }

    /// Wakes a processor as often as the gate says.
    fn wake(&self, from: Proc, to: Proc) {
        if let Some(unparker) = self.unparkers.get(to.index()) {
            for _ in 0..self.gate.wakes(from, to) {
                unparker.unpark();
            }
        }
    }

    /// Wakes the processors of these places.
    pub fn wake_requested(&self, from: Proc, requested: &[bool; 8]) {
        for at in 0..8 {
            if requested[at] {
                self.wake(from, Proc::from_index(at));
            }
        }
    }

    /// One turn in one hold of the lock, and the places of the processors to which its record lists a request.
    pub fn turn<T: Wait>(&self, rt: &T, cpu: &mut Cpu) -> (Turn, [bool; 8]) {
        let mut guard = self.world.lock(rt);
        let clocked = &mut *guard;
        let turn = clocked.turn(cpu);
        let requested = match turn {
            Turn::Made(_) => requested(clocked.world().last()),
            Turn::Nothing | Turn::Full => [false; 8],
        };
        (turn, requested)
    }

    /// The next tick in one hold of the lock.
    pub fn tick<T: Wait>(&self, rt: &T, clock: &mut Clock) -> Turn {
        self.world.lock(rt).tick(clock)
    }

    /// Whether on no processor a handler is due, a task runs or a request is pending.
    pub fn is_quiet<T: Wait>(&self, rt: &T) -> bool {
        self.world.lock(rt).world().quiet()
    }
}
