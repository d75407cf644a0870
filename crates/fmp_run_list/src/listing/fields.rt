//! What stands after the number and the name of an object.
ghost use Rattle.std.specs.Prelude.{◌≡◌, decimal};
ghost use Rattle.fmp_out.specs.Putting.{Adds};
ghost use Rattle.fmp_run_list.specs.Listing.Fields as spec;

use crate::listing::classes::put_class;
use crate::listing::functions::function_name;
use fmp_codes::ObjectKind;
use fmp_config_statements::Attribute;
use fmp_out::Text;
use fmp_setup::{
    AlarmSetup, Config, CyclicSetup, DataQueueSetup, EventflagSetup, Order, PoolSetup,
    SemaphoreSetup, TaskSetup,
};

/// Adds a word and a text, each after a blank.
#[tactic(auto, unfolding(crate::specs::Listing::Fields::field))]
fn put_field(out: &mut Text, word: &[u8], text: &[u8])
    ensures { Adds (spec.field word.now text.now) out.old out.new }
{
    out.put_byte(b' ');
    out.put(word);
    out.put_byte(b' ');
    out.put(text);
}

/// Adds a word and a number, each after a blank.
#[tactic(auto, unfolding(crate::specs::Listing::Fields::field))]
pub fn put_count(out: &mut Text, word: &[u8], number: u64)
    ensures { Adds (spec.field word.now (decimal number)) out.old out.new }
{
    out.put_byte(b' ');
    out.put(word);
    out.put_byte(b' ');
    out.put_number(number);
}

/// The attribute of a task that is started at boot or not.
fn activation(starts: bool) -> Attribute
    ensures { result ≡ spec.activation starts }
{
    if starts {
        Attribute::Activate
    } else {
        Attribute::Null
    }
}

/// The attribute of a cyclic handler that is started at boot or not.
fn start(starts: bool) -> Attribute
    ensures { result ≡ spec.start starts }
{
    if starts {
        Attribute::Start
    } else {
        Attribute::Null
    }
}

/// The attribute that says how tasks wait.
fn order(order: Order) -> Attribute
    ensures { result ≡ spec.order order }
{
    match order {
        Order::First => Attribute::InOrder,
        Order::Priority => Attribute::ByPriority,
    }
}

/// The attribute that says whether several tasks may wait.
fn waiters(many: bool) -> Attribute
    ensures { result ≡ spec.waiters many }
{
    if many {
        Attribute::Many
    } else {
        Attribute::Single
    }
}

/// Adds the attribute after a bar, where a release clears the eventflag.
fn put_clear(out: &mut Text, clears: bool)
    ensures { Adds (spec.clear clears) out.old out.new }
{
    if clears {
        out.put_byte(b'|');
        out.put(Attribute::Clear.text());
    }
}

/// Adds what is told of a task.
#[tactic(auto, unfolding(crate::specs::Listing::Fields::task_fields))]
fn put_task(out: &mut Text, config: &Config, task: TaskSetup)
    ensures { Adds (spec.task_fields config.now task) out.old out.new }
{
    put_class(out, config, task.class);
    put_field(out, b"attr", activation(task.starts).text());
    put_field(out, b"main", function_name(config, usize::from(task.main)));
    put_count(out, b"itskpri", u64::from(task.priority.number));
}

/// Adds what is told of a semaphore.
#[tactic(auto, unfolding(crate::specs::Listing::Fields::semaphore_fields))]
fn put_semaphore(out: &mut Text, semaphore: SemaphoreSetup)
    ensures { Adds (spec.semaphore_fields semaphore) out.old out.new }
{
    put_field(out, b"attr", order(semaphore.order).text());
    put_count(out, b"isemcnt", u64::from(semaphore.initial));
    put_count(out, b"maxsem", u64::from(semaphore.most));
}

/// Adds what is told of an eventflag.
#[tactic(auto, unfolding(crate::specs::Listing::Fields::eventflag_fields))]
fn put_eventflag(out: &mut Text, flag: EventflagSetup)
    ensures { Adds (spec.eventflag_fields flag) out.old out.new }
{
    put_field(out, b"attr", order(flag.order).text());
    out.put_byte(b'|');
    out.put(waiters(flag.many).text());
    put_clear(out, flag.clears);
    put_count(out, b"iflgptn", u64::from(flag.initial));
}

/// Adds what is told of a data queue.
#[tactic(auto, unfolding(crate::specs::Listing::Fields::data_queue_fields))]
fn put_data_queue(out: &mut Text, queue: DataQueueSetup)
    ensures { Adds (spec.data_queue_fields queue) out.old out.new }
{
    put_field(out, b"attr", order(queue.order).text());
    put_count(out, b"dtqcnt", u64::from(queue.capacity));
}

/// Adds what is told of a pool.
#[tactic(auto, unfolding(crate::specs::Listing::Fields::pool_fields))]
fn put_pool(out: &mut Text, pool: PoolSetup)
    ensures { Adds (spec.pool_fields pool) out.old out.new }
{
    put_field(out, b"attr", order(pool.order).text());
    put_count(out, b"blkcnt", u64::from(pool.blocks));
}

/// Adds what is told of a cyclic handler.
#[tactic(auto, unfolding(crate::specs::Listing::Fields::cyclic_fields))]
fn put_cyclic(out: &mut Text, config: &Config, cyclic: CyclicSetup)
    ensures { Adds (spec.cyclic_fields config.now cyclic) out.old out.new }
{
    put_class(out, config, cyclic.class);
    put_field(out, b"attr", start(cyclic.starts).text());
    put_field(
        out,
        b"handler",
        function_name(config, usize::from(cyclic.handler)),
    );
    put_count(out, b"cyctim", u64::from(cyclic.period));
    put_count(out, b"cycphs", u64::from(cyclic.phase));
}

/// Adds what is told of an alarm handler.
#[tactic(auto, unfolding(crate::specs::Listing::Fields::alarm_fields))]
fn put_alarm(out: &mut Text, config: &Config, alarm: AlarmSetup)
    ensures { Adds (spec.alarm_fields config.now alarm) out.old out.new }
{
    put_class(out, config, alarm.class);
    put_field(
        out,
        b"handler",
        function_name(config, usize::from(alarm.handler)),
    );
}

/// Adds what is told of the object at a place of its kind, from 0.
pub fn put_fields(out: &mut Text, config: &Config, kind: ObjectKind, index: usize)
    ensures { Adds (spec.fields config.now kind index) out.old out.new }
{
    match kind {
        ObjectKind::Task => {
            if let Some(task) = config.tasks().get(index) {
                put_task(out, config, *task);
            }
        }
        ObjectKind::Semaphore => {
            if let Some(semaphore) = config.semaphores().get(index) {
                put_semaphore(out, *semaphore);
            }
        }
        ObjectKind::Eventflag => {
            if let Some(flag) = config.eventflags().get(index) {
                put_eventflag(out, *flag);
            }
        }
        ObjectKind::DataQueue => {
            if let Some(queue) = config.data_queues().get(index) {
                put_data_queue(out, *queue);
            }
        }
        ObjectKind::Pool => {
            if let Some(pool) = config.pools().get(index) {
                put_pool(out, *pool);
            }
        }
        ObjectKind::Cyclic => {
            if let Some(cyclic) = config.cyclics().get(index) {
                put_cyclic(out, config, *cyclic);
            }
        }
        ObjectKind::Alarm => {
            if let Some(alarm) = config.alarms().get(index) {
                put_alarm(out, config, *alarm);
            }
        }
        ObjectKind::SpinLock => {}
    }
}
