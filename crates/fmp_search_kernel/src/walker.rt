//! One who stands at a place of all orders, and makes steps.
ghost use Rattle.std.specs.Prelude.{◌≡◌, ◌≤◌, ◌<◌, ◌+◌, ◌^◌, ℕ, List, [], ◌∷◌, true, false, Some, is_some, length, map, IfOk, IfSome, IfNone, IsTrue, ◌↔◌, if◌then◌else◌};
ghost use Rattle.fmp_codes.specs.Records.{processor_of};
ghost use Rattle.fmp_rules.specs.Boot.{boot};
ghost use Rattle.fmp_rules.specs.Step as machine;
ghost use Rattle.fmp_kernel_order.specs.Queues.{listed, no_queues};
ghost use Rattle.fmp_search_orders.specs.Places as places;
ghost use Rattle.fmp_search.specs.Runs.{Watches};
ghost use Rattle.fmp_search_orders.specs.Lasting.{step_test};
ghost use Rattle.fmp_search_orders.specs.Made.{number_at};
ghost use Rattle.fmp_search_orders.specs.Watched.{bits_of};
ghost use Rattle.fmp_search_pattern.specs.Lasting.{is_so};
ghost use Rattle.fmp_search_pattern.specs.Questions.{allows};
ghost use Rattle.fmp_search_pattern.specs.Sights.{Sight as AnySight};
ghost use Rattle.fmp_search_kernel.specs.Walked.{origin_of};

use crate::sights::{Seen, bits_at, has_to_look, is_over, put_read_line};
use crate::ticks::{advance_idled, advance_taken, keeps_pace, lower_taken, may_tick};
use fmp_codes::{Answer, Event, Proc, Record, Runner};
use fmp_kernel::Kernel;
use fmp_kernel_machine::KernelMachine;
use fmp_kernel_packed::room_for;
use fmp_rules::Config;
use fmp_search::Noted;
use fmp_search_orders::Rules;
use fmp_search_pattern::{Moment, Question, allows, some_read, step_reads};
use fmp_smp_histories::{advance_handler, advance_task, asked_at};
use fmp_text_scripts::Scripts;
use std::alloc::AllocError;
use std::marker::Model;

// For how many steps there is room from where all runs begin.
pub(crate) const MOST: u32 = 2_147_483_648;

/// One who stands at a place, with room for so many steps more.
#[derive(Drop)]
pub struct Walker<'a> {
    pub(crate) config: &'a Config,
    pub(crate) scripts: &'a Scripts,
    pub(crate) question: &'a Question,
    rules: Rules,
    /// The kernel at boot.
    pub(crate) start: Kernel,
    pub(crate) kernel: Kernel,
    /// Room for a kernel that is unpacked.
    pub(crate) machine: Box<KernelMachine>,
    /// Where the scripts of the tasks, and of the handlers on each processor, have come to.
    pub(crate) tasks: [u32; 64],
    pub(crate) handlers: [u32; 8],
    /// The ticks that each processor has taken, where they are counted, or without a limit how many more than another.
    pub(crate) taken: [u32; 8],
    /// The ticks that each has taken in a row while it was busy, where they are counted.
    pub(crate) idled: [u32; 8],
    /// How many steps of the question were seen.
    pub(crate) seen: u32,
    pub(crate) left: u32,
    /// What the last event was told to have done.
    made: Record,
    /// Room for the line of an event.
    text: Vec<u8>,
}

impl<'a> Model for Walker<'a> {
    ghost use Rattle.std.specs.Prelude.{◌≡◌, length};
    ghost use Rattle.fmp_search_kernel.specs.Walked.{Walked, IsRoomy};
    ghost use Rattle.fmp_rules.specs.Boot.{boot};
    ghost use Rattle.fmp_kernel_order.specs.Queues.{listed, no_queues};

    ghost Value = { Walked };

    ghost view = { λ w. record {
      place = record {
        config = w.config.now;
        scripts = w.scripts.now;
        rules = w.rules;
        question = w.question.now;
        machine = w.kernel;
        tasks = w.tasks;
        handlers = w.handlers;
        taken = w.taken;
        idled = w.idled;
        seen = w.seen;
      };
      left = w.left;
      made = w.made;
    } };

    ghost invariant = { λ w. (length w.kernel.processors ≡ w.config.now.processors) × (w.start ≡ boot listed (no_queues w.config.now) w.config.now)
        × (length w.start.processors ≡ w.config.now.processors) × IsRoomy w.tasks w.handlers w.taken w.idled w.seen w.left };
}

/// How many steps were seen after one more event, which is marked or not.
fn counted(seen: u32, marked: bool) -> u32
    requires { seen + 1 < 2 ^ 32 }
    ensures { result ≡ (if marked then seen + 1 else seen) }
{
    if marked { seen + 1 } else { seen }
}

/// Whether a step marks its event as a moment of the question.
pub(crate) fn is_marked(step: u8) -> bool
    ensures { result ≡ places.is_marked step }
{
    3 <= step % 6
}

impl<'a> Walker<'a> {
    /// Where the script of a task, or of the handlers on a processor, has come to.
    pub(crate) fn position(&self, p: Proc, runner: Runner) -> u32
        ensures { result ≡ places.position_at self.now.place p runner }
    {
        match runner {
            Runner::Task(t) => self.tasks[t.index()],
            Runner::Alarm(_) => self.handlers[p.index()],
            Runner::Cyclic(_) => self.handlers[p.index()],
        }
    }

    /// Whether a request to a processor is pending and nothing holds it back.
    fn is_asked(&self, p: Proc) -> bool
        ensures { result ≡ places.is_asked_at self.now.place p }
    {
        self.kernel.pending(p) && !self.kernel.held(p)
    }

    /// Whether a processor has something to do: a call of who runs there, or the interrupt of such a request.
    fn is_busy(&self, p: Proc) -> bool
        ensures { result ≡ places.is_busy_at self.now.place p }
    {
        self.kernel.runner(p).is_some() || self.is_asked(p)
    }

    /// The call that comes next in the script of a runner. None without one, and where the rules want a pending request to be taken first.
    fn call_of(&self, p: Proc, runner: Option<Runner>) -> Option<Event>
        ensures is { result ≡ places.call_of self.now.place p runner }
        ensures on { IfSome result (λ e. processor_of e ≡ p) }
    {
        let runner = runner?;
        if self.rules.prompt && self.is_asked(p) {
            return None;
        }
        let position = self.position(p, runner);
        Some(Event::Call(p, asked_at(self.config, self.scripts, runner, position)))
    }

    /// The interrupt by which a processor takes a request. None where no request is pending, or where it is held back, unless interrupts may be
    /// spurious.
    fn ipi_of(&self, p: Proc) -> Option<Event>
        ensures is { result ≡ places.ipi_of self.now.place p }
        ensures on { IfSome result (λ e. processor_of e ≡ p) }
    {
        if self.rules.spurious || self.is_asked(p) {
            Some(Event::Ipi(p))
        } else {
            None
        }
    }

    /// A tick of a processor. None where its ticks do not count, or where the rules allow it no more, or none before a
    /// busy processor does something.
    fn tick_of(&self, p: Proc) -> Option<Event>
        ensures is { result ≡ places.tick_of self.now.place p }
        ensures on { IfSome result (λ e. processor_of e ≡ p) }
    {
        let idled = self.idled[p.index()];
        if may_tick(self.config, self.rules, &self.taken, p)
            && keeps_pace(self.rules.pace, self.is_busy(p), idled)
        {
            Some(Event::Tick(p))
        } else {
            None
        }
    }

    /// The next call of who runs on a processor for 0, the interrupt of a request for 1 and a tick for 2. None where it cannot happen here.
    fn event_at(&self, p: Proc, kind: u8) -> Option<Event>
        requires { kind < 3 }
        ensures is { result ≡ places.event_at self.now.place p kind }
        ensures on { IfSome result (λ e. processor_of e ≡ p) }
    {
        match kind {
            0 => self.call_of(p, self.kernel.runner(p)),
            1 => self.ipi_of(p),
            _ => self.tick_of(p),
        }
    }

    /// The event of a step. Each processor has six in a row: its three events without a mark, then the same with one. None where there is no
    /// such processor or its event cannot happen here.
    pub fn event_of(&self, step: u8) -> Option<Event>
        ensures is { result ≡ places.event_of self.now.place step }
        ensures on { IfSome result (λ e. (processor_of e).number ≤ self.now.place.config.processors) }
    {
        let at = step / 6;
        if at < self.config.processors() {
            self.event_at(Proc::new(at + 1), step % 6 % 3)
        } else {
            None
        }
    }

    /// Whether a processor has an event of this kind here, as `event_at` gives it. No call is looked up for that.
    #[tactic(auto, using(crate::proofs::Going::call_some))]
    fn has_event_at(&self, p: Proc, kind: u8) -> bool
        requires { kind < 3 }
        ensures { result ≡ is_some (places.event_at self.now.place p kind) }
    {
        match kind {
            0 => self.kernel.runner(p).is_some() && !(self.rules.prompt && self.is_asked(p)),
            1 => self.ipi_of(p).is_some(),
            _ => self.tick_of(p).is_some(),
        }
    }

    /// Whether a step has an event here, as `event_of` gives it.
    pub(crate) fn has_event(&self, step: u8) -> bool
        ensures { result ≡ is_some (places.event_of self.now.place step) }
    {
        let at = step / 6;
        if at < self.config.processors() {
            self.has_event_at(Proc::new(at + 1), step % 6 % 3)
        } else {
            false
        }
    }

    /// Whether an event may be marked so here: where all steps of the question were seen none may have a mark.
    pub(crate) fn may_mark(&self, marked: bool) -> bool
        ensures { result ≡ false → (sight : AnySight) → allows self.now.place.question self.now.place.seen marked sight ≡ false }
    {
        !marked || has_to_look(self.question, self.seen, marked)
    }

    /// A walker where all runs begin.
    pub fn new(
        config: &'a Config,
        scripts: &'a Scripts,
        rules: Rules,
        question: &'a Question,
    ) -> Result<Walker<'a>, AllocError>
        ensures { IfOk result (λ w. w.place ≡ places.origin config.entry.now scripts.entry.now rules question.entry.now) }
    {
        Ok(Walker {
            config,
            scripts,
            question,
            rules,
            start: Kernel::boot(config)?,
            kernel: Kernel::boot(config)?,
            machine: room_for(config)?,
            tasks: [0; 64],
            handlers: [0; 8],
            taken: [0; 8],
            idled: [0; 8],
            seen: 0,
            left: MOST,
            made: Record::answer(Event::Tick(Proc::new(1)), None, Answer::Nothing),
            text: Vec::new(config.allocator()),
        })
    }

    /// Goes on by an event: the machine, the positions, the ticks and the steps seen change, and `made` tells what was done. It takes the room
    /// of one step.
    pub(crate) fn play(&mut self, event: Event, marked: bool)
        requires on { (processor_of event).number ≤ self.old.place.config.processors }
        requires room { 0 < self.old.left }
        ensures place { self.new.place ≡ places.went self.old.place marked (machine.step listed self.old.place.machine event) }
        ensures made { self.new.made ≡ (machine.step listed self.old.place.machine event).1 }
        ensures left { self.new.left + 1 ≡ self.old.left }
    {
        let busy = self.is_busy(event.processor());
        self.kernel.step_into(event, &mut self.made);
        advance_task(self.config, self.scripts, &mut self.tasks, &self.made);
        advance_handler(self.config, self.scripts, &mut self.handlers, &self.made);
        advance_taken(self.rules, &mut self.taken, &self.made);
        lower_taken(self.config, self.rules, &mut self.taken);
        advance_idled(self.rules, busy, &mut self.idled, &self.made);
        self.seen = counted(self.seen, marked);
        self.left -= 1;
    }

    /// Makes the step of a number again, of which it is known that it can be made.
    #[tactic(auto, unfolding(fmp_search_orders::specs::Places::after, fmp_search_orders::specs::Places::report))]
    pub fn retrace(&mut self, step: u8)
        requires room { 0 < self.old.left }
        requires made { is_some (places.after self.old.place step) ≡ true }
        ensures again { places.after self.old.place step ≡ Some self.new.place }
        ensures report { places.report self.old.place step ≡ self.new.made ∷ [] }
        ensures room { self.old.left ≤ self.new.left + 1 }
        ensures origin { origin_of self.new.place ≡ origin_of self.old.place }
    {
        if let Some(event) = self.event_of(step) {
            self.play(event, is_marked(step));
        }
    }

    /// Makes the event of a step happen, without a mark and without a look at the question, and gives it. None where the step has none here, and
    /// then the place stays.
    pub fn follow(&mut self, step: u8) -> Option<Event>
        requires room { 0 < self.old.left }
        ensures event { result ≡ places.event_of self.old.place step }
        ensures went { IfSome result (λ event. self.new.place ≡ places.went self.old.place false (machine.step listed self.old.place.machine event)) }
        ensures made { IfSome result (λ event. self.new.made ≡ (machine.step listed self.old.place.machine event).1) }
        ensures same { IfNone result (self.new ≡ self.old) }
        ensures room { self.old.left ≤ self.new.left + 1 }
    {
        let event = self.event_of(step)?;
        self.play(event, false);
        Some(event)
    }

    /// The kernel where it stands.
    pub fn kernel(&self) -> &Kernel
        ensures { result.now ≡ self.now.place.machine }
    {
        &self.kernel
    }

    /// What the last event was told to have done.
    pub fn made(&self) -> &Record
        ensures { result.now ≡ self.now.made }
    {
        &self.made
    }

    /// Makes the step of a number where no question is asked, and tells which of these are so of its event, bit k for the one of index k, and the number of
    /// the call that it makes. None where it cannot be made. The error is want of memory for the lines of the event.
    pub(crate) fn watch_for(
        &mut self,
        step: u8,
        lasting: &[Moment],
    ) -> Result<Option<Noted>, AllocError>
        requires room { 0 < self.old.left }
        requires none { self.old.place.question ≡ [] }
        requires few { length lasting.now ≤ 64 }
        ensures goes { IfOk result (λ report. Watches (places.after self.old.place step)
            (record { passes = bits_of (map (λ l. step_test (is_so l) self.old.place step) lasting.now); number = number_at self.old.place step })
            report self.new.place) }
        ensures origin { origin_of self.new.place ≡ origin_of self.old.place }
        ensures question { self.new.place.question ≡ self.old.place.question }
    {
        if is_marked(step) {
            return Ok(None);
        }
        let Some(event) = self.event_of(step) else {
            return Ok(None);
        };
        let number = self.number_of(event);
        self.play(event, false);
        let passes = self.bits(lasting)?;
        Ok(Some(Noted { passes, number }))
    }

    /// Which of these are so of the last event, likewise. The place stays as it is.
    fn bits(&mut self, lasting: &[Moment]) -> Result<u64, AllocError>
        requires { length lasting.now ≤ 64 }
        ensures bits { IfOk result (λ n. n ≡ bits_of (map (λ l. is_so l (places.sight_at self.old.place self.old.made)) lasting.now)) }
        ensures same { self.new ≡ self.old }
    {
        let over = is_over(self.config, self.rules, &self.taken, &self.kernel);
        let names = self.config.names();
        put_read_line(&mut self.text, names, &self.made, some_read(lasting))?;
        let seen = Seen::new(&self.text, &self.kernel, over);
        Ok(bits_at(&seen, lasting))
    }

    /// Whether the last event may be marked so, for a question of which so many steps were seen before it. The place stays as it is, and the
    /// error is want of memory for the lines of the event.
    pub(crate) fn is_allowed(&mut self, seen: u32, marked: bool) -> Result<bool, AllocError>
        ensures allowed { IfOk result (λ r. r ≡ allows self.old.place.question seen marked (places.sight_at self.old.place self.old.made)) }
        ensures same { self.new ≡ self.old }
    {
        if !has_to_look(self.question, seen, marked) {
            return Ok(!marked);
        }
        let over = is_over(self.config, self.rules, &self.taken, &self.kernel);
        let names = self.config.names();
        let is_read = step_reads(self.question, seen, marked);
        put_read_line(&mut self.text, names, &self.made, is_read)?;
        let event = Seen::new(&self.text, &self.kernel, over);
        Ok(allows(&event, self.question, seen, marked))
    }
}
