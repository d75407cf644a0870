//! The walker as one who goes through a graph: its places are those of all orders.
ghost use Rattle.std.specs.Prelude.{◌≡◌, ◌≤◌, ◌<◌, ◌+◌, ◌^◌, ℕ, Some, IfOk};
ghost use Rattle.std.specs.Int.{bit_at};
ghost use Rattle.fmp_codes.specs.Records.{processor_of};
ghost use Rattle.fmp_search.specs.Runs.{Closes, Goes};
ghost use Rattle.fmp_search_orders.specs.Laws.{is_seen};
ghost use Rattle.fmp_search_orders.specs.Made.{number_at};
ghost use Rattle.fmp_search_orders.specs.Places as places;
ghost use Rattle.fmp_search_kernel.specs.Keys.{IsPlaceKey};
ghost use Rattle.fmp_search_kernel.specs.Walked.{origin_of, ClosesMark};

use crate::keys::{MOST_WORDS, PlaceTables};
use crate::walker::{MOST, Walker, is_marked};
use fmp_codes::Event;
use fmp_kernel_packed::{pack, unpack};
use fmp_search::{Noted, Space, joined};
use std::alloc::AllocError;

/// Adds the bit of the step that makes the event of another with a mark.
fn close_marked(closed: &mut u64, step: u8)
    ensures { (s : ℕ) → bit_at closed.old s ≡ 0 → bit_at closed.new s ≡ 1 → s ≡ step + 3 }
{
    if step < 48 {
        *closed |= 1 << (step + 3);
    }
}

impl<'a> Walker<'a> {
    /// Goes back to where all runs begin, and has room for 2^31 steps from there. The error comes where the kernel has not the memory to become as it was at
    /// boot: kernels of one configuration have it, but no clause says so.
    pub fn start_over(&mut self) -> Result<(), AllocError>
        ensures there { IfOk result (λ done. self.new.place ≡ origin_of self.old.place) }
        ensures room { IfOk result (λ done. 2 ^ 31 ≤ self.new.left) }
        ensures origin { origin_of self.new.place ≡ origin_of self.old.place }
    {
        if !self.kernel.copy_from(&self.start) {
            return Err(AllocError);
        }
        self.tasks = [0; 64];
        self.handlers = [0; 8];
        self.taken = [0; 8];
        self.idled = [0; 8];
        self.seen = 0;
        self.left = MOST;
        Ok(())
    }

    /// Where the last event was that of a step without a mark, and may not have one, the step that gives it one is closed: it need not be
    /// played. So many steps of the question were seen before the event. The place stays as it is, and the error is want of memory.
    fn close(&mut self, seen: u32, step: u8, closed: &mut u64) -> Result<(), AllocError>
        ensures closed { ClosesMark self.old.place self.old.made seen step closed.old closed.new }
        ensures same { self.new ≡ self.old }
    {
        if !is_marked(step) && !self.is_allowed(seen, true)? {
            close_marked(closed, step);
        }
        Ok(())
    }

    /// Makes the event of a step happen as `go` does. After one without a mark it looks, too, whether the event may have one, and closes the step that gives
    /// it one where it may not.
    fn go_closing(&mut self, event: Event, step: u8, closed: &mut u64) -> Result<bool, AllocError>
        requires room { 0 < self.old.left }
        requires is { places.event_of self.old.place step ≡ Some event }
        requires on { (processor_of event).number ≤ self.old.place.config.processors }
        ensures goes { IfOk result (λ made. Goes (places.after self.old.place step) made self.new.place) }
        ensures closed { Closes places.after self.old.place closed.old closed.new }
        ensures origin { origin_of self.new.place ≡ origin_of self.old.place }
    {
        let seen = self.seen;
        let marked = is_marked(step);
        self.play(event, marked);
        self.close(seen, step, closed)?;
        self.is_allowed(seen, marked)
    }
}

impl<'a> Space for Walker<'a> {
    type Tables = PlaceTables;

    ghost Place = { places.Place };

    ghost place = { λ w. w.place };

    ghost origin = { λ w. origin_of w.place };

    ghost after = { places.after };

    ghost wanted = { is_seen };

    ghost passes = { λ w s. 0 };

    ghost tells = { number_at };

    ghost IsKey = { IsPlaceKey };

    ghost room = { λ w. w.left };

    fn tables(&self) -> Result<PlaceTables, AllocError> {
        Ok(PlaceTables::new(self.config.allocator()))
    }

    /// The error comes, too, where a position or a count is 2^31 or more, and where the kernel is not of the configuration of that at boot: kernels that have
    /// come from it are, but no clause says so.
    fn pack(&self, tables: &mut PlaceTables) -> Result<u64, AllocError> {
        if !self.is_packable() {
            return Err(AllocError);
        }
        let packed = pack(&mut tables.parts, &self.kernel, &self.start)?;
        let words = self.number_of_words(tables, packed.counting)?;
        tables.validity();
        Ok(joined(packed.machine, words))
    }

    /// There is room for one step then. The error is that of the kernel's `unpack`.
    fn unpack(&mut self, tables: &mut PlaceTables, key: u64) -> Result<(), AllocError> {
        let mut room = [0; MOST_WORDS];
        let count = self.word_count();
        let numbers = &mut room[..count];
        let packed = self.put_words(tables, key, numbers);
        unpack(
            &mut tables.parts,
            packed,
            &mut self.machine,
            &mut self.kernel,
            &self.start,
        )?;
        self.become_words(numbers);
        Ok(())
    }

    fn restart(&mut self) -> Result<(), AllocError> {
        self.start_over()
    }

    #[tactic(auto, unfolding(fmp_search_orders::specs::Places::after))]
    fn may_go(&self, step: u8) -> bool {
        self.may_mark(is_marked(step)) && self.has_event(step)
    }

    /// The error is want of memory for the lines of an event.
    fn go(&mut self, step: u8) -> Result<bool, AllocError> {
        let Some(event) = self.event_of(step) else {
            return Ok(false);
        };
        let seen = self.seen;
        let marked = is_marked(step);
        self.play(event, marked);
        self.is_allowed(seen, marked)
    }

    fn watch(&mut self, step: u8, closed: &mut u64) -> Result<Option<Noted>, AllocError> {
        let Some(event) = self.event_of(step) else {
            return Ok(None);
        };
        let number = self.number_of(event);
        if self.go_closing(event, step, closed)? {
            Ok(Some(Noted { passes: 0, number }))
        } else {
            Ok(None)
        }
    }

    /// The error is as at `start_over`.
    fn copy_from(&mut self, other: &Self) -> Result<(), AllocError> {
        if !self.kernel.copy_from(&other.kernel) {
            return Err(AllocError);
        }
        self.tasks = other.tasks;
        self.handlers = other.handlers;
        self.taken = other.taken;
        self.idled = other.idled;
        self.seen = other.seen;
        self.left = other.left;
        Ok(())
    }

    #[tactic(auto, unfolding(fmp_search_orders::specs::Places::after))]
    fn steps(&self) -> u8 {
        6 * self.config.processors()
    }

    /// Whether all steps of the question were seen.
    fn is_wanted(&self) -> bool {
        self.seen as usize == self.question.steps().len()
    }
}
