//! All signals in their order: declared in a waveform, or as the traces of GTKWave's save file.
ghost use Rattle.std.specs.Prelude.{◌≡◌, ◌++◌, ◌≤◌, length};
ghost use Rattle.fmp_out.specs.Putting.{Adds};
ghost use Rattle.fmp_run_wave.specs.Listing as spec;
ghost use Rattle.fmp_run_wave.specs.Signals.{scope_text};

use crate::resource::{Resource, count, signal_of};
use crate::signal::{Scope, Signal, put_identifier, put_name, put_path, put_scope};
use fmp_names::Names;
use fmp_out::Text;
use fmp_rules::Config;

/// What the signals are listed for.
#[derive(Clone, Copy)]
pub enum Form {
    /// The declarations of a waveform.
    Declarations,
    /// The traces of a save file.
    Traces,
}

/// Its kind and its width in bits, as in a declaration.
fn kind(signal: Signal) -> &'static [u8]
    ensures { result.now ≡ spec.kind signal }
{
    match signal {
        Signal::Running | Signal::Call | Signal::Due | Signal::State | Signal::Wait => b"string 1",
        Signal::Locked | Signal::Disabled | Signal::Latch => b"wire 1",
        Signal::Tick => b"event 1",
        Signal::Priority
        | Signal::Activations
        | Signal::Wakeups
        | Signal::Count
        | Signal::Pattern
        | Signal::Values
        | Signal::Free
        | Signal::Holder => b"integer 32",
    }
}

/// The line by which GTKWave is told how to show it.
fn format(signal: Signal) -> &'static [u8]
    ensures { result.now ≡ spec.format signal }
{
    match signal {
        Signal::Priority
        | Signal::Activations
        | Signal::Wakeups
        | Signal::Count
        | Signal::Values
        | Signal::Free
        | Signal::Holder => b"@24\n",
        Signal::Pattern => b"@22\n",
        _ => b"@28\n",
    }
}

/// Adds the declaration of the signal of a processor, a task or an object with this number.
#[tactic(auto, unfolding(crate::specs::Listing::declaration))]
fn put_declaration(out: &mut Text, names: &Names, signal: Signal, number: u8)
    ensures { Adds (spec.declaration names.now signal number) out.old out.new }
{
    out.put(b"$var ");
    out.put(kind(signal));
    out.put_byte(b' ');
    put_identifier(out, signal, number);
    out.put_byte(b' ');
    put_name(out, names, signal, number);
    out.put(b" $end\n");
}

/// Adds its trace in a save file.
#[tactic(auto, unfolding(crate::specs::Listing::trace))]
fn put_trace(out: &mut Text, names: &Names, signal: Signal, number: u8)
    ensures { Adds (spec.trace names.now signal number) out.old out.new }
{
    out.put(format(signal));
    put_path(out, names, signal, number);
    out.put_byte(b'\n');
}

/// Adds the signal of a processor, a task or an object with this number.
fn put_line(out: &mut Text, form: Form, names: &Names, signal: Signal, number: u8)
    ensures { Adds (spec.line form names.now signal number) out.old out.new }
{
    match form {
        Form::Declarations => put_declaration(out, names, signal, number),
        Form::Traces => put_trace(out, names, signal, number),
    }
}

/// Adds the name of a scope between what stands before and after it.
fn put_scope_within(out: &mut Text, before: &[u8], scope: Scope, following: &[u8])
    ensures { Adds ((before.now ++ scope_text scope ++ following.now)) out.old out.new }
{
    out.put(before);
    put_scope(out, scope);
    out.put(following);
}

/// Adds what stands before the signals of a scope.
#[tactic(auto, unfolding(crate::specs::Listing::scope_begin))]
fn put_scope_begin(out: &mut Text, form: Form, scope: Scope)
    ensures { Adds (spec.scope_begin form scope) out.old out.new }
{
    match form {
        Form::Declarations => put_scope_within(out, b"$scope module ", scope, b" $end\n"),
        Form::Traces => put_scope_within(out, b"@200\n-", scope, b"\n"),
    }
}

/// Adds what stands after the signals of a scope, if anything does.
fn put_scope_end(out: &mut Text, form: Form)
    ensures { Adds (spec.scope_end form) out.old out.new }
{
    match form {
        Form::Declarations => out.put(b"$upscope $end\n"),
        Form::Traces => {}
    }
}

/// Adds the last signals of a processor.
#[tactic(auto, unfolding(crate::specs::Listing::last_signals))]
fn put_last_signals(out: &mut Text, form: Form, names: &Names, number: u8)
    ensures { Adds (spec.last_signals form names.now number) out.old out.new }
{
    put_line(out, form, names, Signal::Latch, number);
    put_line(out, form, names, Signal::Due, number);
    put_line(out, form, names, Signal::Tick, number);
}

/// Adds all signals of a processor.
#[tactic(auto, unfolding(crate::specs::Listing::processor_signals))]
fn put_processor_signals(out: &mut Text, form: Form, names: &Names, number: u8)
    ensures { Adds (spec.processor_signals form names.now number) out.old out.new }
{
    put_line(out, form, names, Signal::Running, number);
    put_line(out, form, names, Signal::Call, number);
    put_line(out, form, names, Signal::Locked, number);
    put_line(out, form, names, Signal::Disabled, number);
    put_last_signals(out, form, names, number);
}

/// Adds the scope of a processor, with its signals.
#[tactic(auto, unfolding(crate::specs::Listing::processor_scope))]
fn put_processor_scope(out: &mut Text, form: Form, names: &Names, number: u8)
    ensures { Adds (spec.processor_scope form names.now number) out.old out.new }
{
    put_scope_begin(out, form, Scope::Processor(number));
    put_processor_signals(out, form, names, number);
    put_scope_end(out, form);
}

/// Adds the scopes of the first so many processors.
fn put_processor_scopes(out: &mut Text, form: Form, names: &Names, count: u8)
    requires { count ≤ 8 }
    ensures { Adds (spec.each (spec.processor_scope form names.now) count) out.old out.new }
{
    for index in 0..count {
        put_processor_scope(out, form, names, index + 1);
    }
}

/// Adds the signals of a task.
#[tactic(auto, unfolding(crate::specs::Listing::task_signals))]
fn put_task_signals(out: &mut Text, form: Form, names: &Names, number: u8)
    ensures { Adds (spec.task_signals form names.now number) out.old out.new }
{
    put_line(out, form, names, Signal::State, number);
    put_line(out, form, names, Signal::Wait, number);
    put_line(out, form, names, Signal::Priority, number);
    put_line(out, form, names, Signal::Activations, number);
    put_line(out, form, names, Signal::Wakeups, number);
}

/// Adds the signals of the first so many tasks.
fn put_tasks_signals(out: &mut Text, form: Form, names: &Names, count: usize)
    requires { count ≤ 64 }
    ensures { Adds (spec.each (spec.task_signals form names.now) count) out.old out.new }
{
    for index in 0..count {
        put_task_signals(out, form, names, index as u8 + 1);
    }
}

/// Adds the scope of so many tasks.
#[tactic(auto, unfolding(crate::specs::Listing::tasks_scope))]
fn put_tasks_scope(out: &mut Text, form: Form, names: &Names, count: usize)
    requires { count ≤ 64 }
    ensures { Adds (spec.tasks_scope form names.now count) out.old out.new }
{
    put_scope_begin(out, form, Scope::Tasks);
    put_tasks_signals(out, form, names, count);
    put_scope_end(out, form);
}

/// Adds one signal of the first so many objects of a kind.
fn put_lines(out: &mut Text, form: Form, names: &Names, signal: Signal, count: usize)
    requires { count ≤ 32 }
    ensures { Adds (spec.each (spec.line form names.now signal) count) out.old out.new }
{
    for index in 0..count {
        put_line(out, form, names, signal, index as u8 + 1);
    }
}

/// Adds the signals of the objects of a kind.
fn put_resource_signals(out: &mut Text, form: Form, config: &Config, resource: Resource)
    ensures { Adds (spec.resource_signals form config.now resource) out.old out.new }
{
    put_lines(
        out,
        form,
        config.names(),
        signal_of(resource),
        count(config, resource),
    )
}

/// Adds the signals of all objects that have a number.
#[tactic(auto, unfolding(crate::specs::Listing::objects_signals))]
fn put_objects_signals(out: &mut Text, form: Form, config: &Config)
    ensures { Adds (spec.objects_signals form config.now) out.old out.new }
{
    put_resource_signals(out, form, config, Resource::Semaphore);
    put_resource_signals(out, form, config, Resource::Eventflag);
    put_resource_signals(out, form, config, Resource::DataQueue);
    put_resource_signals(out, form, config, Resource::Pool);
    put_resource_signals(out, form, config, Resource::SpinLock);
}

/// Adds their scope.
#[tactic(auto, unfolding(crate::specs::Listing::objects_scope))]
fn put_objects_scope(out: &mut Text, form: Form, config: &Config)
    ensures { Adds (spec.objects_scope form config.now) out.old out.new }
{
    put_scope_begin(out, form, Scope::Objects);
    put_objects_signals(out, form, config);
    put_scope_end(out, form);
}

/// Adds all signals of a configuration's machine.
#[tactic(auto, unfolding(crate::specs::Listing::listing))]
pub(crate) fn put_listing(out: &mut Text, form: Form, config: &Config)
    ensures { Adds (spec.listing form config.now) out.old out.new }
{
    put_processor_scopes(out, form, config.names(), config.processors());
    put_tasks_scope(out, form, config.names(), config.tasks().len());
    put_objects_scope(out, form, config);
}
