//! What a page has to know of the configuration.
ghost use Rattle.std.specs.Prelude.{◌≡◌, ◌+◌, ◌^◌, ◌<◌};
ghost use Rattle.fmp_out.specs.Putting.{Adds};
ghost use Rattle.fmp_run_list.specs.Listing.Listing.{count};
ghost use Rattle.fmp_run_view.specs.Setups as spec;

use fmp_codes::ObjectKind;
use fmp_out::Text;
use fmp_rules::{Config, Timer};
use fmp_run_list::{KINDS, count, put_processors_line, word};
use fmp_trace::put_named;

/// The priority of a task at boot, the greatest count of a semaphore, how many values a data queue or blocks a pool has, or the period of a
/// cyclic handler.
fn limit(config: &Config, kind: ObjectKind, index: usize) -> Option<u64>
    ensures { result ≡ spec.limit config.now kind index }
{
    match kind {
        ObjectKind::Task => Some(u64::from(config.tasks().get(index)?.priority.number)),
        ObjectKind::Semaphore => Some(u64::from(config.semaphores().get(index)?.most)),
        ObjectKind::DataQueue => Some(u64::from(config.data_queues().get(index)?.capacity)),
        ObjectKind::Pool => Some(u64::from(config.pools().get(index)?.blocks)),
        ObjectKind::Cyclic => Some(u64::from(config.cyclics().get(index)?.period)),
        ObjectKind::Eventflag | ObjectKind::Alarm | ObjectKind::SpinLock => None,
    }
}

/// Adds this limit of an object after a blank, if there is one.
fn put_limit(out: &mut Text, limit: Option<u64>)
    ensures { Adds (spec.limit_text limit) out.old out.new }
{
    match limit {
        None => {}
        Some(number) => {
            out.put_byte(b' ');
            out.put_number(number);
        }
    }
}

/// Adds the line of the object at a place.
#[tactic(auto, unfolding(crate::specs::Setups::object_line))]
fn put_object_line(out: &mut Text, config: &Config, kind: ObjectKind, index: usize)
    requires { index + 1 < 2 ^ 64 }
    ensures { Adds (spec.object_line config.now kind index) out.old out.new }
{
    out.put(word(kind));
    out.put_byte(b' ');
    let named = put_named(out.as_mut_vec(), config.names(), kind, index + 1);
    out.note(named);
    put_limit(out, limit(config, kind, index));
    out.put_byte(b'\n');
}

/// Adds the lines of the objects of a kind.
fn put_objects(out: &mut Text, config: &Config, kind: ObjectKind)
    ensures { Adds (spec.objects_to config.now kind (count config.now kind)) out.old out.new }
{
    for index in 0..count(config, kind) {
        put_object_line(out, config, kind, index);
    }
}

/// Adds the lines of the objects of some kinds.
fn put_kinds(out: &mut Text, config: &Config, kinds: &[ObjectKind])
    ensures { Adds (spec.objects_over config.now kinds.now) out.old out.new }
{
    for kind in kinds {
        put_objects(out, config, *kind);
    }
}

/// The number of the processor whose ticks count for all, or 0.
fn master_number(timer: Timer) -> u64
    ensures { result ≡ spec.master_number timer }
{
    match timer {
        Timer::Local => 0,
        Timer::Global(p) => u64::from(p.number),
    }
}

/// Adds the line of the timer: the number of the processor whose ticks count for all, or 0.
#[tactic(auto, unfolding(crate::specs::Setups::timer_line))]
fn put_timer_line(out: &mut Text, timer: Timer)
    ensures { Adds (spec.timer_line timer) out.old out.new }
{
    out.put(b"timer ");
    out.put_number(master_number(timer));
    out.put_byte(b'\n');
}

/// Adds the line of the version of this form.
#[tactic(auto, unfolding(crate::specs::Setups::version_line))]
fn put_version_line(out: &mut Text)
    ensures { Adds spec.version_line out.old out.new }
{
    out.put(b"view 1\n");
}

/// Adds what a page has to know of a configuration.
#[tactic(auto, unfolding(crate::specs::Setups::setup_text))]
pub(crate) fn put_setup(out: &mut Text, config: &Config)
    ensures { Adds (spec.setup_text config.now) out.old out.new }
{
    put_version_line(out);
    put_processors_line(out, u64::from(config.processors()));
    put_timer_line(out, config.timer());
    put_kinds(out, config, KINDS);
}
