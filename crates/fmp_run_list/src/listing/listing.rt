//! The lines of a listing.
ghost use Rattle.std.specs.Prelude.{◌≡◌, ◌+◌, ◌^◌, ◌<◌, IfOk};
ghost use Rattle.fmp_out.specs.Putting.{Adds};
ghost use Rattle.fmp_trace.specs.Values.{named};
ghost use Rattle.fmp_run_list.specs.Listing.Listing as spec;

use crate::listing::classes::{put_classes, put_processor};
use crate::listing::fields::{put_count, put_fields};
use crate::listing::functions::put_functions;
use fmp_codes::{NameKind, ObjectKind};
use fmp_names::Names;
use fmp_out::Text;
use fmp_setup::{Config, Limits, Timer};
use std::alloc::{AllocError, Global};

/// The kinds of objects, in the order in which they are told.
pub const KINDS: &[ObjectKind] = &[
    ObjectKind::Task,
    ObjectKind::Semaphore,
    ObjectKind::Eventflag,
    ObjectKind::DataQueue,
    ObjectKind::Pool,
    ObjectKind::Cyclic,
    ObjectKind::Alarm,
    ObjectKind::SpinLock,
];

/// The word for a kind of objects.
pub fn word(kind: ObjectKind) -> &'static [u8]
    ensures { result.now ≡ spec.word kind }
{
    match kind {
        ObjectKind::Task => b"task",
        ObjectKind::Semaphore => b"sem",
        ObjectKind::Eventflag => b"flg",
        ObjectKind::DataQueue => b"dtq",
        ObjectKind::Pool => b"mpf",
        ObjectKind::Cyclic => b"cyc",
        ObjectKind::Alarm => b"alm",
        ObjectKind::SpinLock => b"spn",
    }
}

/// How many objects of a kind there are.
pub fn count(config: &Config, kind: ObjectKind) -> usize
    ensures { result ≡ spec.count config.now kind }
{
    match kind {
        ObjectKind::Task => config.tasks().len(),
        ObjectKind::Semaphore => config.semaphores().len(),
        ObjectKind::Eventflag => config.eventflags().len(),
        ObjectKind::DataQueue => config.data_queues().len(),
        ObjectKind::Pool => config.pools().len(),
        ObjectKind::Cyclic => config.cyclics().len(),
        ObjectKind::Alarm => config.alarms().len(),
        ObjectKind::SpinLock => usize::from(config.spin_locks()),
    }
}

/// Adds the name of an object, or the number where no object has it.
#[tactic(auto, unfolding(fmp_trace::specs::Values::named))]
fn put_named(out: &mut Text, names: &Names, kind: ObjectKind, number: usize)
    ensures { Adds (named names.now kind number) out.old out.new }
{
    match names.name(NameKind::Object(kind), number) {
        Some(name) => out.put(name),
        None => out.put_number(number as u64),
    }
}

/// Adds the kind of the object at a place, from 0, its number and its name.
#[tactic(auto, unfolding(crate::specs::Listing::Listing::object_head))]
fn put_object_head(out: &mut Text, config: &Config, kind: ObjectKind, index: usize)
    requires { index + 1 < 2 ^ 64 }
    ensures { Adds (spec.object_head config.now kind index) out.old out.new }
{
    out.put(word(kind));
    out.put_byte(b' ');
    out.put_number((index + 1) as u64);
    out.put_byte(b' ');
    put_named(out, config.names(), kind, index + 1);
}

/// Adds the line of the object at a place of its kind, from 0.
#[tactic(auto, unfolding(crate::specs::Listing::Listing::object_line))]
fn put_object_line(out: &mut Text, config: &Config, kind: ObjectKind, index: usize)
    requires { index + 1 < 2 ^ 64 }
    ensures { Adds (spec.object_line config.now kind index) out.old out.new }
{
    put_object_head(out, config, kind, index);
    put_fields(out, config, kind, index);
    out.put_byte(b'\n');
}

/// Adds the lines of the objects of a kind.
fn put_objects(out: &mut Text, config: &Config, kind: ObjectKind)
    ensures { Adds (spec.objects_to config.now kind (spec.count config.now kind)) out.old out.new }
{
    for index in 0..count(config, kind) {
        put_object_line(out, config, kind, index);
    }
}

/// Adds the lines of the objects of some kinds.
fn put_kinds(out: &mut Text, config: &Config, kinds: &[ObjectKind])
    ensures { Adds (spec.objects_over config.now kinds.now) out.old out.new }
{
    for kind in kinds {
        put_objects(out, config, *kind);
    }
}

/// Adds the line of the number of processors: `processors`, a blank and the number.
#[tactic(auto, unfolding(crate::specs::Listing::Listing::processors_line))]
pub fn put_processors_line(out: &mut Text, processors: u64)
    ensures { Adds (spec.processors_line processors) out.old out.new }
{
    out.put(b"processors ");
    out.put_number(processors);
    out.put_byte(b'\n');
}

/// Adds whose ticks count: those of each processor for itself, or those of one for all.
fn put_timer(out: &mut Text, timer: Timer)
    ensures { Adds (spec.timer_text timer) out.old out.new }
{
    match timer {
        Timer::Local => out.put(b" local"),
        Timer::Global(master) => {
            out.put(b" global");
            put_processor(out, u64::from(master.number));
        }
    }
}

/// Adds the line of the timer.
#[tactic(auto, unfolding(crate::specs::Listing::Listing::timer_line))]
fn put_timer_line(out: &mut Text, timer: Timer)
    ensures { Adds (spec.timer_line timer) out.old out.new }
{
    out.put(b"timer");
    put_timer(out, timer);
    out.put_byte(b'\n');
}

/// Adds the line of the limits.
#[tactic(auto, unfolding(crate::specs::Listing::Listing::limits_line))]
fn put_limits_line(out: &mut Text, limits: Limits)
    ensures { Adds (spec.limits_line limits) out.old out.new }
{
    out.put(b"limits");
    put_count(out, b"wupcnt", u64::from(limits.wakeups));
    put_count(out, b"pri", u64::from(limits.priorities));
    out.put_byte(b'\n');
}

/// Adds the listing of a configuration.
#[tactic(auto, unfolding(crate::specs::Listing::Listing::listing_of))]
fn put_listing(out: &mut Text, config: &Config)
    ensures { Adds (spec.listing_of config.now) out.old out.new }
{
    put_processors_line(out, u64::from(config.processors()));
    put_timer_line(out, config.timer());
    put_limits_line(out, config.limits());
    put_classes(out, config.classes());
    put_kinds(out, config, KINDS);
    put_functions(out, config);
}

/// The listing of a configuration. The error is want of memory.
pub fn listing_text(alloc: Global, config: &Config) -> Result<Vec<u8>, AllocError>
    ensures { IfOk result (λ text. text.items ≡ spec.listing_of config.now) }
{
    let mut out = Text::new(alloc);
    put_listing(&mut out, config);
    out.finish()
}
