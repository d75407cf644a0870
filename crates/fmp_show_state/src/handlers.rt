//! The lines of the time event handlers whose ticks left are not those at boot.
ghost use Rattle.std.specs.Prelude.{◌≡◌, length, None};
ghost use Rattle.fmp_out.specs.Putting.{Adds};
ghost use Rattle.fmp_setup.specs.declared.setup.CyclicSetup.{CyclicSetup};
ghost use Rattle.fmp_rules.specs.Boot.{phase_left};
ghost use Rattle.fmp_show_state.specs.Changes as spec;

use crate::texts::put_named;
use fmp_codes::{Object, ObjectKind};
use fmp_names::Names;
use fmp_out::Text;
use fmp_rules::CyclicSetup;
use fmp_step_words::Views;

/// Whether the ticks left are those at boot.
fn is_same_left(boot: Option<u64>, left: Option<u64>) -> bool
    ensures { result ≡ spec.is_same_left boot left }
{
    match (boot, left) {
        (None, None) => true,
        (Some(boot), Some(left)) => boot == left,
        _ => false,
    }
}

/// The ticks left of a cyclic handler at boot, where it is started then.
fn phase_left(setup: &CyclicSetup) -> Option<u64>
    ensures { result ≡ phase_left setup.now }
{
    if setup.starts {
        Some(u64::from(setup.phase) + 1)
    } else {
        None
    }
}

/// Adds the ticks left of a handler, or that it is stopped.
pub fn put_ticks(out: &mut Text, left: Option<u64>)
    ensures { Adds (spec.ticks_text left) out.old out.new }
{
    match left {
        None => out.put(b" stopped"),
        Some(left) => {
            out.put(b" left=");
            out.put_number(left);
        }
    }
}

/// Adds the line of a handler: its name, and its ticks left or that it is stopped.
#[tactic(auto, unfolding(crate::specs::Changes::handler_text))]
fn put_handler(out: &mut Text, names: &Names, kind: ObjectKind, handler: Object, left: Option<u64>)
    ensures { Adds (spec.handler_text names.now kind handler left) out.old out.new }
{
    out.put(b"  ");
    put_named(out, names, kind, usize::from(handler.number));
    put_ticks(out, left);
    out.put_byte(b'\n');
}

/// Adds the line of a handler whose ticks left are not those at boot.
fn put_line(
    out: &mut Text,
    names: &Names,
    kind: ObjectKind,
    handler: Object,
    boot: Option<u64>,
    left: Option<u64>,
)
    ensures { Adds (spec.handler_line names.now kind handler boot left) out.old out.new }
{
    if is_same_left(boot, left) {
        return;
    }
    put_handler(out, names, kind, handler, left);
}

/// Adds the lines of all cyclic handlers whose ticks left are not those at boot.
pub(crate) fn put_cyclics<M: Views>(out: &mut Text, names: &Names, machine: &M)
    ensures { Adds (spec.lines_to (spec.cyclic_at names.now (M.world machine.now).cyclics (M.world machine.now).cyclics_left) (length (M.world machine.now).cyclics)) out.old out.new }
{
    for index in 0..machine.cyclic_count() {
        let c = Object::from_index(index);
        let boot = phase_left(&machine.cyclic(c).setup);
        put_line(
            out,
            names,
            ObjectKind::Cyclic,
            c,
            boot,
            machine.cyclic_left(c),
        );
    }
}

/// Adds the lines of all alarms that are started.
pub(crate) fn put_alarms<M: Views>(out: &mut Text, names: &Names, machine: &M)
    ensures { Adds (spec.lines_to (spec.alarm_at names.now (M.world machine.now).alarms_left) (length (M.world machine.now).alarms)) out.old out.new }
{
    for index in 0..machine.alarm_count() {
        let a = Object::from_index(index);
        put_line(
            out,
            names,
            ObjectKind::Alarm,
            a,
            None,
            machine.alarm_left(a),
        );
    }
}
