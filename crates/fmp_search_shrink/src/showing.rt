//! Whether what a machine answers to events shows what a question asks. At each event a step of the question may be marked or not, so all
//! numbers of steps are kept that may have been seen.
ghost use Rattle.std.specs.Prelude.{◌≡◌, ◌≤◌, ◌<◌, ◌+◌, ◌^◌, ◌↔◌, ◌∷◌, ◌++◌, [], ℕ, List, false, true, drop, length, replicate, slice_index, IfOk, OnOk, IsTrue};
ghost use Rattle.fmp_codes.specs.Records.{AreOn, processor_of};
ghost use Rattle.fmp_rules.specs.Arrivals.{State, numbered};
ghost use Rattle.fmp_rules.specs.Boot.{booted};
ghost use Rattle.fmp_rules.specs.Step.{answers, step};
ghost use Rattle.fmp_law_lists.specs.Stands.{Stands};
ghost use Rattle.fmp_search_orders.specs.Orders as orders;
ghost use Rattle.fmp_search_orders.specs.Places.{moved_taken};
ghost use Rattle.fmp_search_orders.specs.Shown.{Shows};
ghost use Rattle.fmp_search_orders.specs.Sights.{sight};
ghost use Rattle.fmp_search_kernel.specs.Seen.{seen_of};
ghost use Rattle.fmp_search_kernel.specs.Walked.{count_in};
ghost use Rattle.fmp_search_shrink.specs.Seen as spec;
ghost use Rattle.fmp_search_shrink.specs.Seen.{AreNext, IsSettled, IsShownAt, Watches};
ghost use Rattle.fmp_codes.specs.declared.records.Event.{Event as AnyEvent};

use fmp_codes::{Answer, Event, Proc, Record};
use fmp_kernel::Kernel;
use fmp_rules::Config;
use fmp_search_kernel::{Seen, advance_taken, is_over, put_line};
use fmp_search_orders::Rules;
use fmp_search_pattern::{Question, allows};
use std::alloc::AllocError;

/// Whether so many steps may have been seen before an event, and it may be marked so.
fn goes_on(
    event: &Seen<'_>,
    question: &Question,
    numbers: &[bool; 256],
    at: u8,
    marked: bool,
) -> bool
    ensures { result ≡ spec.goes_on question.now (seen_of event.now) numbers.now at marked }
{
    numbers[usize::from(at)] && allows(event, question, u32::from(at), marked)
}

/// Whether so many steps may have been seen after an event.
fn is_seen(event: &Seen<'_>, question: &Question, numbers: &[bool; 256], at: u8) -> bool
    ensures { result ≡ spec.is_seen question.now (seen_of event.now) numbers.now at }
{
    if goes_on(event, question, numbers, at, false) {
        return true;
    }
    if at == 0 {
        return false;
    }
    goes_on(event, question, numbers, at - 1, true)
}

/// The numbers of steps that may have been seen after an event, where these may have been seen before.
fn all_seen(event: &Seen<'_>, question: &Question, numbers: &[bool; 256]) -> [bool; 256]
    requires { length question.now ≤ 255 }
    ensures { AreNext question.now (seen_of event.now) numbers.now result }
{
    let mut next = [false; 256];
    for at in 0..question.steps().len() + 1 {
        next[at] = is_seen(event, question, numbers, at as u8);
    }
    next
}

/// Whether no event changes any more how many steps may have been seen.
fn is_settled(question: &Question, numbers: &[bool; 256]) -> bool
    requires { length question.now ≤ 255 }
    ensures { IsTrue result → IsSettled question.now numbers.now }
{
    for at in 0..question.steps().len() {
        if numbers[at] {
            return false;
        }
    }
    true
}

/// A machine that answers events, and the numbers of steps of a question that may have been seen in its answers.
#[derive(Drop)]
struct Watch {
    kernel: Kernel,
    made: Record,
    /// The ticks that each processor has taken, where they are counted.
    taken: [u32; 8],
    numbers: [bool; 256],
    /// Room for the line of an event.
    text: Vec<u8>,
}

impl Watch {
    /// A machine at boot, which answered nothing yet.
    fn new(config: &Config) -> Result<Watch, AllocError>
        ensures stands { IfOk result (λ w. Stands w.kernel (booted config.now)) }
        ensures processors { IfOk result (λ w. length w.kernel.processors ≡ config.now.processors) }
        ensures taken { IfOk result (λ w. w.taken ≡ replicate 8 0) }
        ensures numbers { IfOk result (λ w. w.numbers ≡ true ∷ replicate 255 false) }
    {
        let mut numbers = [false; 256];
        numbers[0] = true;
        Ok(Watch {
            kernel: Kernel::boot(config)?,
            made: Record::answer(Event::Tick(Proc::new(1)), None, Answer::Nothing),
            taken: [0; 8],
            numbers,
            text: Vec::new(config.allocator()),
        })
    }

    /// Sees how many steps may have been seen after the last answer. Its line is printed only where that depends on it.
    fn see(&mut self, config: &Config, rules: Rules, question: &Question) -> Result<(), AllocError>
        requires { length question.now ≤ 255 }
        ensures next { OnOk result (AreNext question.now
            (sight config.now rules (count_in self.old.taken) self.old.kernel self.old.made) self.old.numbers self.new.numbers) }
        ensures same { (self.new.kernel ≡ self.old.kernel) × (self.new.made ≡ self.old.made) × (self.new.taken ≡ self.old.taken) }
    {
        if is_settled(question, &self.numbers) {
            return Ok(());
        }
        let over = is_over(config, rules, &self.taken, &self.kernel);
        put_line(&mut self.text, config.names(), &self.made)?;
        let event = Seen::new(self.text.as_slice(), &self.kernel, over);
        self.numbers = all_seen(&event, question, &self.numbers);
        Ok(())
    }

    /// Answers one event more.
    fn answer(&mut self, rules: Rules, event: Event)
        requires on { (processor_of event).number ≤ length self.old.kernel.processors }
        requires room { (i : ℕ) → i < 8 → slice_index self.old.taken i + 1 < 2 ^ 32 }
        ensures stands { (m : State) → Stands self.old.kernel m → Stands self.new.kernel (step numbered m event).0 }
        ensures made { (m : State) → Stands self.old.kernel m → self.new.made ≡ (step numbered m event).1 }
        ensures processors { length self.new.kernel.processors ≡ length self.old.kernel.processors }
        ensures taken { self.new.taken ≡ moved_taken rules self.old.taken self.new.made.event self.new.made.answer }
        ensures numbers { self.new.numbers ≡ self.old.numbers }
    {
        self.kernel.step_into(event, &mut self.made);
        advance_taken(rules, &mut self.taken, &self.made);
    }

    /// Answers one event more, and sees how many steps may have been seen after it.
    fn go_on(
        &mut self,
        config: &Config,
        rules: Rules,
        question: &Question,
        event: Event,
    ) -> Result<(), AllocError>
        requires short { length question.now ≤ 255 }
        requires on { (processor_of event).number ≤ length self.old.kernel.processors }
        requires room { (i : ℕ) → i < 8 → slice_index self.old.taken i + 1 < 2 ^ 32 }
        ensures { (given : List AnyEvent) → Watches config.now rules question.now given self.old
            → OnOk result (Watches config.now rules question.now (given ++ event ∷ []) self.new) }
    {
        self.answer(rules, event);
        self.see(config, rules, question)?;
        Ok(())
    }
}

/// After how many of these events what the machine answers shows what a question asks for the first time, by these rules, if it ever does. Of
/// the rules only the number of ticks matters, on which the line `end` depends. The error is want of memory.
pub fn shown_at(
    config: &Config,
    rules: Rules,
    question: &Question,
    events: &[Event],
) -> Result<Option<usize>, AllocError>
    requires short { length question.now ≤ 255 }
    requires on { AreOn config.now.processors events.now }
    requires few { orders.counts_ticks rules ≡ true → length events.now < 2 ^ 32 }
    ensures { IfOk result (IsShownAt config.now rules question.now events.now) }
{
    let most = question.steps().len();
    let mut watch = Watch::new(config)?;
    if watch.numbers[most] {
        return Ok(Some(0));
    }
    let mut count = 0usize;
    for event in events {
        watch.go_on(config, rules, question, *event)?;
        count += 1;
        if watch.numbers[most] {
            return Ok(Some(count));
        }
    }
    Ok(None)
}

/// Whether what the machine answers to these events shows what a question asks, by these rules. The error is want of memory.
pub fn shows(
    config: &Config,
    rules: Rules,
    question: &Question,
    events: &[Event],
) -> Result<bool, AllocError>
    requires short { length question.now ≤ 255 }
    requires on { AreOn config.now.processors events.now }
    requires few { orders.counts_ticks rules ≡ true → length events.now < 2 ^ 32 }
    ensures { IfOk result (λ r. IsTrue r ↔ Shows config.now rules question.now (answers numbered (booted config.now) events.now)) }
{
    let at = shown_at(config, rules, question, events)?;
    Ok(at.is_some())
}
