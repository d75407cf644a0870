//! What a question sees of an event.
ghost use Rattle.std.specs.Prelude.{◌≡◌, ◌≤◌, ◌<◌, ◌+◌, ◌*◌, ◌^◌, false, true, not, drop, length, map, IfOk, OnOk, if◌then◌else◌};
ghost use Rattle.fmp_search_orders.specs.Orders.{each};
ghost use Rattle.fmp_search_orders.specs.Sights as sights;
ghost use Rattle.fmp_search_orders.specs.Watched.{bits_of};
ghost use Rattle.fmp_search_pattern.specs.Lasting.{is_so};
ghost use Rattle.fmp_search_pattern.specs.Questions as spec;
ghost use Rattle.fmp_search_pattern.specs.Sights.{Sight as AnySight};
ghost use Rattle.fmp_show_facts.specs.Facts.{is_so as is_asked};
ghost use Rattle.fmp_trace.specs.Lines.{core_text};
ghost use Rattle.fmp_search_kernel.specs.Seen.{seen_of, so_at_boot};
ghost use Rattle.fmp_search_kernel.specs.Walked.{count_in, is_idle_on};

use crate::ticks::is_out_of_time;
use fmp_codes::{Proc, Record};
use fmp_facts::Asked;
use fmp_kernel::Kernel;
use fmp_names::Names;
use fmp_rules::Config;
use fmp_search_orders::Rules;
use fmp_search_pattern::{Moment, Question, Sight, Wanted, has_fact, has_moment};
use fmp_show_facts::is_so;
use fmp_trace::put_core;
use std::alloc::AllocError;

/// Whether on a processor no handler is due, no task runs and no request is pending.
fn is_idle(kernel: &Kernel, p: Proc) -> bool
    ensures { result ≡ is_idle_on kernel.now p }
{
    kernel.runner(p).is_none() && !kernel.pending(p)
}

/// Whether it is so on each processor of a configuration.
fn are_idle(config: &Config, kernel: &Kernel) -> bool
    ensures { result ≡ each (is_idle_on kernel.now) config.now.processors }
{
    for at in 0..config.processors() {
        if !is_idle(kernel, Proc::new(at + 1)) {
            return false;
        }
    }
    true
}

/// Whether nothing can change any more.
#[tactic(auto, unfolding(fmp_search_orders::specs::Sights::is_over))]
pub fn is_over(config: &Config, rules: Rules, taken: &[u32; 8], kernel: &Kernel) -> bool
    ensures { result ≡ sights.is_over config.now rules (count_in taken.now) kernel.now }
{
    are_idle(config, kernel) && (kernel.is_untimed() || is_out_of_time(config, rules, taken))
}

/// Replaces a text by the line of an event without its number, with two blanks before and after it.
#[tactic(auto, using(crate::proofs::Sighted::line_is, crate::proofs::Sighted::line_long))]
pub fn put_line(text: &mut Vec<u8>, names: &Names, made: &Record) -> Result<(), AllocError>
    ensures { OnOk result (text.new.items ≡ sights.padded (drop 2 (core_text names.now 1 made.now))) }
{
    text.clear();
    put_core(text, names, 1, made)?;
    text.extend_from_slice(b"  ")?;
    text[0] = b' ';
    Ok(())
}

/// The same where the line is read. Else what the text has is not looked at, and may be another's.
pub(crate) fn put_read_line(
    text: &mut Vec<u8>,
    names: &Names,
    made: &Record,
    is_read: bool,
) -> Result<(), AllocError>
    ensures { OnOk result (is_read ≡ true → text.new.items ≡ sights.padded (drop 2 (core_text names.now 1 made.now))) }
{
    if is_read {
        put_line(text, names, made)?;
    }
    Ok(())
}

/// An event that a kernel answered: its line between blanks, the kernel after it, and whether nothing can change any more.
#[derive(Clone, Copy)]
pub struct Seen<'a> {
    line: &'a [u8],
    kernel: &'a Kernel,
    over: bool,
}

impl<'a> Seen<'a> {
    /// The event of this line, after which the kernel is so.
    pub fn new(line: &'a [u8], kernel: &'a Kernel, over: bool) -> Seen<'a>
        ensures { seen_of result ≡ record { line = line.now; is_so = is_asked kernel.now; over = over } }
    {
        Seen { line, kernel, over }
    }
}

impl<'a> Sight for Seen<'a> {
    ghost use Rattle.fmp_search_kernel.specs.Seen.{seen_of};

    ghost sight = { seen_of };

    fn line(&self) -> &[u8] {
        self.line
    }

    fn is_so(&self, asked: &Asked) -> bool {
        is_so(self.kernel.machine(), asked)
    }

    fn is_over(&self) -> bool {
        self.over
    }
}

/// Whether what is asked for is a fact that is so at boot, before any event. The error is want of memory.
pub fn is_so_at_boot(config: &Config, wanted: &Wanted) -> Result<bool, AllocError>
    ensures { IfOk result (λ so. so ≡ so_at_boot config.now wanted.now) }
{
    match wanted {
        Wanted::State(_, choice) => {
            let kernel = Kernel::boot(config)?;
            Ok(has_fact(&Seen::new(b"", &kernel, false), choice.asked()))
        }
        _ => Ok(false),
    }
}

/// Whether it may depend on an event whether it may be marked so, where so many steps of the question were seen.
#[tactic(auto, unfolding(fmp_search_pattern::specs::Questions::allows))]
pub fn has_to_look(question: &Question, seen: u32, marked: bool) -> bool
    ensures { result ≡ false → (sight : AnySight) → spec.allows question.now seen marked sight ≡ not marked }
{
    match question.steps().get(seen as usize) {
        None => false,
        Some(step) => marked || step.without.is_some(),
    }
}

/// Which of these are so of an event, as bits: the first is the lowest.
pub fn bits_at(event: &Seen<'_>, lasting: &[Moment]) -> u64
    requires { length lasting.now ≤ 64 }
    ensures { result ≡ bits_of (map (λ l. is_so l (seen_of event.now)) lasting.now) }
{
    let mut bits: u64 = 0;
    let mut at = lasting.len();
    while 0 < at {
        at -= 1;
        let so = has_moment(event, &lasting[at]);
        bits = with_bit(bits, so);
    }
    bits
}

/// A number with one bit more, which is the lowest.
fn with_bit(bits: u64, so: bool) -> u64
    requires { bits < 2 ^ 63 }
    ensures { result ≡ (if so then 1 else 0) + 2 * bits }
{
    if so { 1 + 2 * bits } else { 2 * bits }
}
