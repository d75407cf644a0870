//! A kernel that plays the lines of a text.
ghost use Rattle.std.specs.Prelude.{◌≡◌, ◌≤◌, ◌<◌, ◌+◌, ◌^◌, false, slice_get, length, IfOk, IfSome};
ghost use Rattle.std.specs.Option.{option_copied};
ghost use Rattle.fmp_codes.specs.Records.{processor_of};
ghost use Rattle.fmp_kernel_order.specs.Queues.{listed, no_queues};
ghost use Rattle.fmp_rules.specs.Boot.{boot};
ghost use Rattle.fmp_rules.specs.Step.{step};
ghost use Rattle.fmp_search.specs.Runs.{Goes};
ghost use Rattle.fmp_text.specs.Events.{IsMemory};
ghost use Rattle.fmp_text.specs.Limits.{most_events};
ghost use Rattle.fmp_trace_orders.specs.Standing.{begun};
ghost use Rattle.fmp_trace_orders.specs.Playing as spec;

use crate::lines::Lines;
use fmp_bytes::cut;
use fmp_codes::{Answer, Event, Proc, Record};
use fmp_kernel::Kernel;
use fmp_kernel_machine::KernelMachine;
use fmp_kernel_packed::room_for;
use fmp_out::Text;
use fmp_rules::Config;
use fmp_text::{Names, TextFault, TextKind};
use fmp_trace_partial::{Said, put_said};
use std::alloc::AllocError;
use std::marker::Model;

// For how many lines there is room from boot, and from where a kernel was unpacked.
pub(crate) const MOST: u32 = 2_147_483_648;

/// A kernel that plays lines of a text, with room for so many more. It reads a line each time that it plays it.
#[derive(Drop)]
pub struct LinePlayer<'a> {
    pub(crate) config: &'a Config,
    text: &'a [u8],
    lines: &'a Lines,
    /// The kernel at boot, which others that begin alike share.
    pub(crate) start: &'a Kernel,
    pub(crate) kernel: Kernel,
    /// Memory for a kernel that is unpacked.
    pub(crate) room: Box<KernelMachine>,
    pub(crate) left: u32,
    /// What the last event was told to have done.
    made: Record,
    /// Room for what is printed of that.
    pub(crate) own: Text,
}

impl<'a> Model for LinePlayer<'a> {
    ghost use Rattle.std.specs.Prelude.{◌≡◌, ◌≤◌, length};
    ghost use Rattle.fmp_kernel_order.specs.Queues.{listed, no_queues};
    ghost use Rattle.fmp_rules.specs.Boot.{boot};
    ghost use Rattle.fmp_text.specs.Limits.{most_events};
    ghost use Rattle.fmp_trace_orders.specs.Standing.{Standing};
    ghost use Rattle.fmp_trace_orders.specs.Playing.{lines_from};

    ghost Value = { Standing };

    ghost view = { λ w. record {
      state = record { config = w.config.now; lines = lines_from w.text.now w.lines.now.starts.items; machine = w.kernel };
      left = w.left;
      made = w.made;
    } };

    ghost invariant = { λ w. (length w.lines.now.starts.items ≤ most_events) × (length w.kernel.processors ≡ w.config.now.processors)
        × (w.start.now ≡ boot listed (no_queues w.config.now) w.config.now) × (length w.start.now.processors ≡ w.config.now.processors) };
}

/// The line that begins at a place of a text, without its line feed. Past its end there is an empty one.
pub fn line_from(text: &[u8], start: u32) -> &[u8]
    ensures { result.now ≡ spec.line_from text.now start }
{
    let start = start as usize;
    if text.len() < start {
        return &[];
    }
    cut(b'\n', &text[start..]).0
}

/// Whether line n, which says this, is what is printed of the record where as much is left out, with the same bound. The room is written over.
#[tactic(auto, unfolding(crate::specs::Playing::is_right))]
fn is_right(
    own: &mut Text,
    names: &Names,
    n: u32,
    said: &Said,
    made: &Record,
    line: &[u8],
) -> Result<bool, AllocError>
    ensures { IfOk result (λ right. right ≡ spec.is_right names.now n said.now made.now line.now) }
{
    own.clear();
    put_said(own, names, n, said, made);
    Ok(own.so_far()? == line)
}

/// Whether a line of this fault is right: it is not, unless memory ran out.
pub(crate) fn is_right_at(fault: TextFault) -> Result<bool, AllocError>
    ensures { IfOk result (λ right. (right ≡ false) × (IsMemory fault → ⊥)) }
{
    match fault.kind {
        TextKind::Memory => Err(AllocError),
        _ => Ok(false),
    }
}

impl<'a> LinePlayer<'a> {
    /// One at boot, for these lines of the text. The kernel at boot is given.
    pub fn new(
        config: &'a Config,
        text: &'a [u8],
        lines: &'a Lines,
        start: &'a Kernel,
    ) -> Result<LinePlayer<'a>, AllocError>
        requires few { length lines.now.starts.items ≤ most_events }
        requires boot { start.now ≡ boot listed (no_queues config.now) config.now }
        requires processors { length start.now.processors ≡ config.now.processors }
        ensures { IfOk result (λ w. w.state ≡ spec.at_boot config.entry.now (spec.lines_from text.entry.now lines.entry.now.starts.items)) }
    {
        Ok(LinePlayer {
            config,
            text,
            lines,
            start,
            kernel: Kernel::boot(config)?,
            room: room_for(config)?,
            left: MOST,
            made: Record::answer(Event::Tick(Proc::new(1)), None, Answer::Nothing),
            own: Text::new(config.allocator()),
        })
    }

    /// Another that begins as this one does.
    pub(crate) fn twin(&self) -> Result<LinePlayer<'a>, AllocError>
        ensures { IfOk result (λ w. w.state ≡ begun self.now.state) }
    {
        LinePlayer::new(self.config, self.text, self.lines, self.start)
    }

    /// A line by its number from 0, without its line feed.
    pub(crate) fn line_at(&self, line: u32) -> Option<&'a [u8]>
        ensures line { option_copied result ≡ slice_get self.now.state.lines line }
        ensures few { IfSome result (λ text. line < most_events) }
    {
        let start = self.lines.starts.get(line as usize)?;
        Some(line_from(self.text, *start))
    }

    /// Lets an event happen, and `made` tells what was done. It takes the room of one line.
    pub(crate) fn step(&mut self, event: Event)
        requires on { (processor_of event).number ≤ self.old.state.config.processors }
        requires room { 0 < self.old.left }
        ensures state { self.new.state ≡ spec.with_machine self.old.state (step listed self.old.state.machine event).0 }
        ensures made { self.new.made ≡ (step listed self.old.state.machine event).1 }
        ensures left { self.new.left + 1 ≡ self.old.left }
    {
        self.kernel.step_into(event, &mut self.made);
        self.left -= 1;
    }

    /// Plays line n, which says this, and says whether it is right. The error is want of memory.
    pub(crate) fn follow(&mut self, n: u32, said: &Said, line: &[u8]) -> Result<bool, AllocError>
        requires on { (processor_of said.now.entry.event).number ≤ self.old.state.config.processors }
        requires room { 0 < self.old.left }
        ensures goes { IfOk result (λ right. Goes (spec.plays_said listed self.old.state n line.now said.now) right self.new.state) }
        ensures begun { begun self.new.state ≡ begun self.old.state }
    {
        self.step(said.entry.event);
        is_right(
            &mut self.own,
            self.config.names(),
            n,
            said,
            &self.made,
            line,
        )
    }
}
