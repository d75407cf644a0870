//! The whole state.
ghost use Rattle.std.specs.Prelude.{◌≡◌, ◌++◌, OnOk};
ghost use Rattle.fmp_out.specs.Putting.{Adds};
ghost use Rattle.fmp_show_state.specs.States.{ended_lines, state_end, state_lines};

use crate::changes::put_changes;
use crate::processors::put_processors;
use crate::tasks::put_tasks;
use crate::texts::{give_back, text_of};
use fmp_names::Names;
use fmp_out::Text;
use fmp_step_words::Views;
use std::alloc::AllocError;

/// Adds the lines of all processors, tasks and objects of which something is told.
#[tactic(auto, unfolding(crate::specs::States::state_lines))]
fn put_all<M: Views>(out: &mut Text, names: &Names, machine: &M)
    ensures { Adds (state_lines M.ordering names.now (M.world machine.now)) out.old out.new }
{
    put_processors(out, names, machine);
    put_tasks(out, names, machine);
    put_changes(out, names, machine);
}

/// Adds the lines of a machine's state without the one that ends it: one for each processor, then one for each task that waits, is
/// suspended or is otherwise not as at boot, and one for each object that is not as at boot. After an error parts of these
/// lines may have been added.
pub fn put_lines<M: Views>(out: &mut Vec<u8>, names: &Names, machine: &M) -> Result<(), AllocError>
    ensures { OnOk result (out.new.items ≡ out.old.items ++ state_lines M.ordering names.now (M.world machine.now)) }
{
    let mut text = text_of(out);
    put_all(&mut text, names, machine);
    give_back(out, text)
}

/// Adds the line that ends a state.
#[tactic(auto, unfolding(crate::specs::States::state_end))]
fn put_end(out: &mut Text)
    ensures { Adds state_end out.old out.new }
{
    out.put(b"  end\n");
}

/// Adds the lines of a machine's state, and the one that ends it. docs/FORMATS.md has their form. A number that is no object's is
/// printed as a number.
///
/// After an error parts of these lines may have been added.
pub fn put_state<M: Views>(out: &mut Vec<u8>, names: &Names, machine: &M) -> Result<(), AllocError>
    ensures { OnOk result (out.new.items ≡ out.old.items ++ ended_lines M.ordering names.now (M.world machine.now)) }
{
    let mut text = text_of(out);
    put_all(&mut text, names, machine);
    put_end(&mut text);
    give_back(out, text)
}
