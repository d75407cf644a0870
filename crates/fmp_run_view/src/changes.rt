//! The lines of the values that an event changed.
ghost use Rattle.std.specs.Prelude.{◌≡◌, ◌<◌, false};
ghost use Rattle.fmp_out.specs.Putting.{Adds};
ghost use Rattle.fmp_run_view.specs.Changes as spec;
ghost use Rattle.fmp_run_view.specs.Leaving.{Leaves, may_change};
ghost use Rattle.fmp_run_view.specs.Signals.{count as report_count, most};
ghost use Rattle.fmp_run_view.specs.Values.{value_text};

use crate::player::Player;
use crate::signal::{SIGNALS, Signal, count, put_identifier};
use fmp_codes::Record;
use fmp_law_footprint::{
    moves_buffers, moves_due, moves_locks, moves_order, moves_sync, moves_tasks, moves_time,
    moves_waits,
};
use fmp_out::Text;
use fmp_rules::Config;
use std::alloc::Global;

/// The texts of the old and the new value of a signal, to be compared. They keep their room, so that an event takes none.
#[derive(Drop)]
pub(crate) struct Texts {
    old: Text,
    new: Text,
}

impl Texts {
    /// No texts yet, and no room.
    pub(crate) fn new(alloc: Global) -> Texts {
        Texts {
            old: Text::new(alloc),
            new: Text::new(alloc),
        }
    }
}

/// Adds the line of a value that has this text.
#[tactic(auto, unfolding(crate::specs::Changes::value_line))]
fn put_line(out: &mut Text, signal: Signal, index: usize, text: &[u8])
    requires { index < most signal }
    ensures { Adds (spec.value_line signal index text.now) out.old out.new }
{
    put_identifier(out, signal, index);
    out.put_byte(b' ');
    out.put(text);
    out.put_byte(b'\n');
}

/// Adds the line of the value at a place, where all lines are told or its text is another than it was.
fn put_line_if(out: &mut Text, all: bool, signal: Signal, index: usize, old: &[u8], new: &[u8])
    requires { index < most signal }
    ensures { Adds (spec.lines_of (spec.change_if all signal index old.now new.now)) out.old out.new }
{
    if all || old != new {
        put_line(out, signal, index, new);
    }
}

/// The same for the value before an event and the value after it, whose texts are made where the values may differ.
fn put_change(
    out: &mut Text,
    texts: &mut Texts,
    all: bool,
    before: &Player,
    after: &Player,
    signal: Signal,
    index: usize,
)
    requires { index < most signal }
    ensures { Adds (spec.lines_of (spec.change_if all signal index (value_text before.now signal index) (value_text after.now signal index))) out.old out.new }
{
    if !all && before.shows_as(after, signal, index) {
        return;
    }
    texts.old.clear();
    before.put_text(&mut texts.old, signal, index);
    texts.new.clear();
    after.put_text(&mut texts.new, signal, index);
    match (texts.old.so_far(), texts.new.so_far()) {
        (Ok(old), Ok(new)) => put_line_if(out, all, signal, index, old, new),
        (Err(fault), _) | (_, Err(fault)) => out.note(Err(fault)),
    }
}

/// Adds those lines of a signal.
fn put_changes_of(
    out: &mut Text,
    texts: &mut Texts,
    config: &Config,
    all: bool,
    before: &Player,
    after: &Player,
    signal: Signal,
)
    ensures { Adds (spec.lines_of (spec.changes_to config.now all before.now after.now signal (report_count config.now signal))) out.old out.new }
{
    for index in 0..count(config, signal) {
        put_change(out, texts, all, before, after, signal, index);
    }
}

/// Whether some value of a signal may be another after an event of which this is told.
fn may_change(report: &Record, signal: Signal) -> bool
    ensures { result ≡ may_change report.now signal }
{
    match signal {
        Signal::Running => moves_tasks(report) || report.run_change.is_some(),
        Signal::Flags => true,
        Signal::Due => moves_due(report),
        Signal::State => moves_waits(report) || report.run_change.is_some(),
        Signal::Place => moves_order(report),
        Signal::Rest => moves_tasks(report),
        Signal::Semaphore | Signal::Eventflag => moves_sync(report),
        Signal::DataQueue | Signal::Pool => moves_buffers(report),
        Signal::Cyclic | Signal::Alarm => moves_time(report),
        Signal::SpinLock => moves_locks(report),
    }
}

/// Adds those lines of a signal. Where changes are told it is looked at only if the event, of which this is told, may have changed it.
#[tactic(auto, using(crate::proofs::Left::no_line))]
fn put_signal(
    out: &mut Text,
    texts: &mut Texts,
    config: &Config,
    report: &Record,
    all: bool,
    before: &Player,
    after: &Player,
    signal: Signal,
)
    requires { all ≡ false → Leaves report.now before.now after.now }
    ensures { Adds (spec.lines_of (spec.changes_to config.now all before.now after.now signal (report_count config.now signal))) out.old out.new }
{
    if !all && !may_change(report, signal) {
        return;
    }
    put_changes_of(out, texts, config, all, before, after, signal);
}

/// Adds those lines of some signals.
fn put_changes_over(
    out: &mut Text,
    texts: &mut Texts,
    config: &Config,
    report: &Record,
    all: bool,
    before: &Player,
    after: &Player,
    signals: &[Signal],
)
    requires { all ≡ false → Leaves report.now before.now after.now }
    ensures { Adds (spec.lines_over config.now all before.now after.now signals.now) out.old out.new }
{
    for signal in signals {
        put_signal(out, texts, config, report, all, before, after, *signal);
    }
}

/// Adds those lines of all signals: all where they are told for the first time, else those of the values that the event changed of which
/// this is told.
pub(crate) fn put_changes(
    out: &mut Text,
    texts: &mut Texts,
    config: &Config,
    report: &Record,
    all: bool,
    before: &Player,
    after: &Player,
)
    requires { all ≡ false → Leaves report.now before.now after.now }
    ensures { Adds (spec.lines_of (spec.changes_between config.now all before.now after.now)) out.old out.new }
{
    put_changes_over(out, texts, config, report, all, before, after, SIGNALS);
}

/// Adds the number of the last event.
#[tactic(auto, unfolding(crate::specs::Changes::number_line))]
pub(crate) fn put_number_line(out: &mut Text, number: u64)
    ensures { Adds (spec.number_line number) out.old out.new }
{
    out.put_byte(b'#');
    out.put_number(number);
    out.put_byte(b'\n');
}
