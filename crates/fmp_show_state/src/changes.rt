//! The lines of the objects that are not as they were at boot: those that tasks wait for, and the spin locks.
ghost use Rattle.std.specs.Prelude.{length};
ghost use Rattle.fmp_out.specs.Putting.{Adds};
ghost use Rattle.fmp_rules.specs.Objects.{values};
ghost use Rattle.fmp_show_state.specs.Changes as spec;

use crate::handlers::{put_alarms, put_cyclics};
use crate::texts::put_named;
use fmp_codes::{Object, ObjectKind, Proc};
use fmp_names::Names;
use fmp_out::Text;
use fmp_rules::{Eventflag, Pool, Semaphore};
use fmp_step_words::Views;

/// Adds the line of an object, with a number after its word.
#[tactic(auto, unfolding(crate::specs::Changes::object_text))]
pub fn put_object(
    out: &mut Text,
    names: &Names,
    kind: ObjectKind,
    object: Object,
    word: &[u8],
    number: u64,
)
    ensures { Adds (spec.object_text names.now kind object word.now number) out.old out.new }
{
    out.put(b"  ");
    put_named(out, names, kind, usize::from(object.number));
    out.put(word);
    out.put_number(number);
    out.put_byte(b'\n');
}

/// Adds the line of a semaphore whose count is not the initial one.
fn put_count(out: &mut Text, names: &Names, s: Object, semaphore: Semaphore)
    ensures { Adds (spec.count_line names.now s semaphore) out.old out.new }
{
    if semaphore.count == semaphore.setup.initial {
        return;
    }
    let count = u64::from(semaphore.count);
    put_object(out, names, ObjectKind::Semaphore, s, b" count=", count);
}

/// Adds the line of an eventflag whose pattern is not the initial one.
fn put_pattern(out: &mut Text, names: &Names, f: Object, eventflag: Eventflag)
    ensures { Adds (spec.pattern_line names.now f eventflag) out.old out.new }
{
    if eventflag.pattern == eventflag.setup.initial {
        return;
    }
    let pattern = u64::from(eventflag.pattern);
    put_object(out, names, ObjectKind::Eventflag, f, b" pattern=", pattern);
}

/// Adds what stands before the value at this index.
fn put_value_lead(out: &mut Text, index: usize)
    ensures { Adds (spec.value_lead index) out.old out.new }
{
    if index == 0 {
        out.put(b" values=");
    } else {
        out.put(b",");
    }
}

/// Adds the value at an index after what stands before it, where there is one.
fn put_value(out: &mut Text, index: usize, value: Option<i64>)
    ensures { Adds (spec.value_text index value) out.old out.new }
{
    if let Some(value) = value {
        put_value_lead(out, index);
        out.put_signed(value);
    }
}

/// Adds the values of a data queue, the oldest first.
pub fn put_values<M: Views>(out: &mut Text, machine: &M, d: Object)
    ensures { Adds (spec.values_from 0 (values (M.world machine.now) d)) out.old out.new }
{
    for index in 0..machine.value_count(d) {
        put_value(out, index, machine.value(d, index));
    }
}

/// Adds the line of a data queue that has values.
#[tactic(auto, unfolding(crate::specs::Changes::queue_text))]
fn put_queue<M: Views>(out: &mut Text, names: &Names, machine: &M, d: Object)
    ensures { Adds (spec.queue_line names.now d (values (M.world machine.now) d)) out.old out.new }
{
    if machine.value_count(d) == 0 {
        return;
    }
    out.put(b"  ");
    put_named(out, names, ObjectKind::DataQueue, usize::from(d.number));
    put_values(out, machine, d);
    out.put_byte(b'\n');
}

/// Adds the line of a pool of which some blocks are handed out.
fn put_free(out: &mut Text, names: &Names, m: Object, pool: &Pool)
    ensures { Adds (spec.free_line names.now m pool.now) out.old out.new }
{
    let free = pool.free_blocks();
    if free == u64::from(pool.setup.blocks) {
        return;
    }
    put_object(out, names, ObjectKind::Pool, m, b" free=", free);
}

/// Adds the line of a spin lock that a processor holds.
fn put_holder(out: &mut Text, names: &Names, l: Object, holder: Option<Proc>)
    ensures { Adds (spec.holder_line names.now l holder) out.old out.new }
{
    match holder {
        None => {}
        Some(p) => {
            let number = u64::from(p.number);
            put_object(out, names, ObjectKind::SpinLock, l, b" held=P", number);
        }
    }
}

/// Adds the lines of all semaphores whose counts are not the initial ones.
fn put_counts<M: Views>(out: &mut Text, names: &Names, machine: &M)
    ensures { Adds (spec.lines_to (spec.count_at names.now (M.world machine.now).semaphores) (length (M.world machine.now).semaphores)) out.old out.new }
{
    for index in 0..machine.semaphore_count() {
        let s = Object::from_index(index);
        put_count(out, names, s, machine.semaphore(s));
    }
}

/// Adds the lines of all eventflags whose patterns are not the initial ones.
fn put_patterns<M: Views>(out: &mut Text, names: &Names, machine: &M)
    ensures { Adds (spec.lines_to (spec.pattern_at names.now (M.world machine.now).eventflags) (length (M.world machine.now).eventflags)) out.old out.new }
{
    for index in 0..machine.eventflag_count() {
        let f = Object::from_index(index);
        put_pattern(out, names, f, machine.eventflag(f));
    }
}

/// Adds the lines of all data queues that have values.
fn put_queues<M: Views>(out: &mut Text, names: &Names, machine: &M)
    ensures { Adds (spec.lines_to (spec.queue_at names.now (M.world machine.now).contents) (length (M.world machine.now).data_queues)) out.old out.new }
{
    for index in 0..machine.data_queue_count() {
        put_queue(out, names, machine, Object::from_index(index));
    }
}

/// Adds the lines of all pools of which some blocks are handed out.
fn put_pools<M: Views>(out: &mut Text, names: &Names, machine: &M)
    ensures { Adds (spec.lines_to (spec.free_at names.now (M.world machine.now).pools) (length (M.world machine.now).pools)) out.old out.new }
{
    for index in 0..machine.pool_count() {
        let m = Object::from_index(index);
        put_free(out, names, m, &machine.pool(m));
    }
}

/// Adds the lines of all spin locks that processors hold.
fn put_holders<M: Views>(out: &mut Text, names: &Names, machine: &M)
    ensures { Adds (spec.lines_to (spec.holder_at names.now (M.world machine.now).holders) (length (M.world machine.now).holders)) out.old out.new }
{
    for index in 0..machine.spin_lock_count() {
        let l = Object::from_index(index);
        put_holder(out, names, l, machine.holder(l));
    }
}

/// Adds a line for each object that tasks wait for and that is not as it was at boot.
#[tactic(auto, unfolding(crate::specs::Changes::objects_text))]
fn put_objects<M: Views>(out: &mut Text, names: &Names, machine: &M)
    ensures { let w = M.world machine.now in Adds (spec.objects_text names.now w.semaphores w.eventflags w.data_queues w.contents w.pools) out.old out.new }
{
    put_counts(out, names, machine);
    put_patterns(out, names, machine);
    put_queues(out, names, machine);
    put_pools(out, names, machine);
}

/// Adds a line for each time event handler and each spin lock that is not as it was at boot.
#[tactic(auto, unfolding(crate::specs::Changes::handlers_text))]
fn put_handlers<M: Views>(out: &mut Text, names: &Names, machine: &M)
    ensures { let w = M.world machine.now in Adds (spec.handlers_text names.now w.cyclics w.cyclics_left w.alarms w.alarms_left w.holders) out.old out.new }
{
    put_cyclics(out, names, machine);
    put_alarms(out, names, machine);
    put_holders(out, names, machine);
}

/// Adds a line for each object that is not as it was at boot.
pub(crate) fn put_changes<M: Views>(out: &mut Text, names: &Names, machine: &M)
    ensures { Adds (spec.changes_of names.now (M.world machine.now)) out.old out.new }
{
    put_objects(out, names, machine);
    put_handlers(out, names, machine);
}
