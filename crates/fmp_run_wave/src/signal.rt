//! What a waveform shows of a processor, a task or an object, and the names of that.
ghost use Rattle.std.specs.Prelude.{◌≡◌};
ghost use Rattle.fmp_out.specs.Putting.{Adds};
ghost use Rattle.fmp_trace.specs.Values.{named};
ghost use Rattle.fmp_run_wave.specs.Signals as spec;

use fmp_codes::ObjectKind;
use fmp_names::Names;
use fmp_out::Text;
use fmp_trace::put_named;

/// One of the values of a processor, of a task or of an object.
#[derive(Clone, Copy)]
pub enum Signal {
    /// The task that runs on a processor.
    Running,
    /// The last event of a processor, and its answer.
    Call,
    /// The CPU-locked state of a processor.
    Locked,
    /// That dispatching is disabled on a processor.
    Disabled,
    /// That a request to a processor is pending.
    Latch,
    /// The handler that is due on a processor.
    Due,
    /// A tick of a processor's timer, which has no value.
    Tick,
    /// The state of a task.
    State,
    /// What a task waits for.
    Wait,
    /// The priority of a task.
    Priority,
    /// How many activations of a task are queued.
    Activations,
    /// How many wakeups of a task are queued.
    Wakeups,
    /// The count of a semaphore.
    Count,
    /// The pattern of an eventflag.
    Pattern,
    /// The number of values in a data queue.
    Values,
    /// The number of free blocks of a pool.
    Free,
    /// The processor that holds a spin lock.
    Holder,
}

/// What signals stand in: one for each processor, and one each for all tasks and for all objects.
#[derive(Clone, Copy)]
pub enum Scope {
    /// That of the processor with this number.
    Processor(u8),
    Tasks,
    Objects,
}

/// The letter of the signal's identifiers.
fn letter(signal: Signal) -> &'static [u8]
    ensures { result.now ≡ spec.letter signal }
{
    match signal {
        Signal::Running => b"r",
        Signal::Call => b"c",
        Signal::Locked => b"l",
        Signal::Disabled => b"d",
        Signal::Latch => b"i",
        Signal::Due => b"h",
        Signal::Tick => b"t",
        Signal::State => b"s",
        Signal::Wait => b"w",
        Signal::Priority => b"p",
        Signal::Activations => b"a",
        Signal::Wakeups => b"u",
        Signal::Count => b"S",
        Signal::Pattern => b"F",
        Signal::Values => b"D",
        Signal::Free => b"M",
        Signal::Holder => b"X",
    }
}

/// The last word of its names.
fn word(signal: Signal) -> &'static [u8]
    ensures { result.now ≡ spec.word signal }
{
    match signal {
        Signal::Running => b"running",
        Signal::Call => b"call",
        Signal::Locked => b"locked",
        Signal::Disabled => b"disabled",
        Signal::Latch => b"latch",
        Signal::Due => b"due",
        Signal::Tick => b"tick",
        Signal::State => b"state",
        Signal::Wait => b"wait",
        Signal::Priority => b"priority",
        Signal::Activations => b"activations",
        Signal::Wakeups => b"wakeups",
        Signal::Count => b"count",
        Signal::Pattern => b"pattern",
        Signal::Values => b"values",
        Signal::Free => b"free",
        Signal::Holder => b"holder",
    }
}

/// The kind of objects that have the signal, or none where processors have it.
fn owner(signal: Signal) -> Option<ObjectKind>
    ensures { result ≡ spec.owner signal }
{
    match signal {
        Signal::State | Signal::Wait | Signal::Priority | Signal::Activations | Signal::Wakeups =>
            Some(ObjectKind::Task),
        Signal::Count => Some(ObjectKind::Semaphore),
        Signal::Pattern => Some(ObjectKind::Eventflag),
        Signal::Values => Some(ObjectKind::DataQueue),
        Signal::Free => Some(ObjectKind::Pool),
        Signal::Holder => Some(ObjectKind::SpinLock),
        _ => None,
    }
}

/// Where the signal of the processor, task or object with this number stands.
fn scope_of(signal: Signal, number: u8) -> Scope
    ensures { result ≡ spec.scope_of signal number }
{
    match signal {
        Signal::State | Signal::Wait | Signal::Priority | Signal::Activations | Signal::Wakeups =>
            Scope::Tasks,
        Signal::Count | Signal::Pattern | Signal::Values | Signal::Free | Signal::Holder => {
            Scope::Objects
        }
        _ => Scope::Processor(number),
    }
}

/// Adds the identifier of the signal of a processor, a task or an object with this number.
#[tactic(auto, unfolding(crate::specs::Signals::identifier))]
pub(crate) fn put_identifier(out: &mut Text, signal: Signal, number: u8)
    ensures { Adds (spec.identifier signal number) out.old out.new }
{
    out.put(letter(signal));
    out.put_number(u64::from(number));
}

/// Adds the name of the processor with this number.
#[tactic(auto, unfolding(crate::specs::Signals::processor_text))]
fn put_processor(out: &mut Text, number: u8)
    ensures { Adds (spec.processor_text number) out.old out.new }
{
    out.put_byte(b'P');
    out.put_number(u64::from(number));
}

/// Adds the name of a scope.
pub(crate) fn put_scope(out: &mut Text, scope: Scope)
    ensures { Adds (spec.scope_text scope) out.old out.new }
{
    match scope {
        Scope::Processor(number) => put_processor(out, number),
        Scope::Tasks => out.put(b"tasks"),
        Scope::Objects => out.put(b"objects"),
    }
}

/// Adds the name of an object.
pub(crate) fn put_object(out: &mut Text, names: &Names, kind: ObjectKind, number: u8)
    ensures { Adds (named names.now kind number) out.old out.new }
{
    let told = put_named(out.as_mut_vec(), names, kind, usize::from(number));
    out.note(told);
}

/// Adds the name of what has a signal: of a processor, or of an object of a kind.
fn put_owner(out: &mut Text, names: &Names, kind: Option<ObjectKind>, number: u8)
    ensures { Adds (spec.owner_text names.now kind number) out.old out.new }
{
    match kind {
        None => put_processor(out, number),
        Some(kind) => put_object(out, names, kind, number),
    }
}

/// Adds the name of the signal of a processor, a task or an object with this number.
#[tactic(auto, unfolding(crate::specs::Signals::name_text))]
pub(crate) fn put_name(out: &mut Text, names: &Names, signal: Signal, number: u8)
    ensures { Adds (spec.name_text names.now signal number) out.old out.new }
{
    put_owner(out, names, owner(signal), number);
    out.put_byte(b'_');
    out.put(word(signal));
}

/// Adds the scope and the name of a signal, as viewers find it.
#[tactic(auto, unfolding(crate::specs::Signals::path_text))]
pub(crate) fn put_path(out: &mut Text, names: &Names, signal: Signal, number: u8)
    ensures { Adds (spec.path_text names.now signal number) out.old out.new }
{
    put_scope(out, scope_of(signal, number));
    out.put_byte(b'.');
    put_name(out, names, signal, number);
}
