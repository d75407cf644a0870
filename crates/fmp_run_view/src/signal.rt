//! What is told of a processor, a task or an object.
ghost use Rattle.std.specs.Prelude.{◌≡◌, ◌+◌, ◌<◌, ◌≤◌};
ghost use Rattle.fmp_out.specs.Putting.{Adds};
ghost use Rattle.fmp_run_view.specs.Signals as spec;

use fmp_out::Text;
use fmp_rules::Config;

/// A value that each processor, each task or each object of a kind has.
#[derive(Clone, Copy)]
pub enum Signal {
    /// The task that runs on a processor.
    Running,
    /// Whether a processor is locked, its dispatching disabled, and a request to it pending.
    Flags,
    /// The handlers that are due on a processor.
    Due,
    /// The state of a task, with what it waits for.
    State,
    /// When a task became ready or was put last.
    Place,
    /// The processor and the priority of a task, and what is queued for it.
    Rest,
    /// The count of a semaphore.
    Semaphore,
    /// The pattern of an eventflag.
    Eventflag,
    /// The number of values in a data queue.
    DataQueue,
    /// The number of free blocks of a pool.
    Pool,
    /// The processor on which a cyclic handler is started.
    Cyclic,
    /// The processor on which an alarm is started.
    Alarm,
    /// The processor that holds a spin lock.
    SpinLock,
}

/// All of them, in the order in which they are told.
pub const SIGNALS: &[Signal] = &[
    Signal::Running,
    Signal::Flags,
    Signal::Due,
    Signal::State,
    Signal::Place,
    Signal::Rest,
    Signal::Semaphore,
    Signal::Eventflag,
    Signal::DataQueue,
    Signal::Pool,
    Signal::Cyclic,
    Signal::Alarm,
    Signal::SpinLock,
];

/// The letter of its identifiers.
fn letter(signal: Signal) -> &'static [u8]
    ensures { result.now ≡ spec.letter signal }
{
    match signal {
        Signal::Running => b"r",
        Signal::Flags => b"l",
        Signal::Due => b"h",
        Signal::State => b"s",
        Signal::Place => b"n",
        Signal::Rest => b"a",
        Signal::Semaphore => b"S",
        Signal::Eventflag => b"F",
        Signal::DataQueue => b"D",
        Signal::Pool => b"M",
        Signal::Cyclic => b"C",
        Signal::Alarm => b"A",
        Signal::SpinLock => b"X",
    }
}

/// Adds the identifier of the one at a place.
#[tactic(auto, unfolding(crate::specs::Signals::identifier))]
pub(crate) fn put_identifier(out: &mut Text, signal: Signal, index: usize)
    requires { index < spec.most signal }
    ensures { Adds (spec.identifier signal index) out.old out.new }
{
    out.put(letter(signal));
    out.put_number(index as u64 + 1);
}

/// Of how many processors, tasks or objects of a configuration a signal is told.
pub(crate) fn count(config: &Config, signal: Signal) -> usize
    ensures value { result ≡ spec.count config.now signal }
    ensures few { result ≤ spec.most signal }
{
    match signal {
        Signal::Running | Signal::Flags | Signal::Due => usize::from(config.processors()),
        Signal::State | Signal::Place | Signal::Rest => config.tasks().len(),
        Signal::Semaphore => config.semaphores().len(),
        Signal::Eventflag => config.eventflags().len(),
        Signal::DataQueue => config.data_queues().len(),
        Signal::Pool => config.pools().len(),
        Signal::Cyclic => config.cyclics().len(),
        Signal::Alarm => config.alarms().len(),
        Signal::SpinLock => usize::from(config.spin_locks()),
    }
}
