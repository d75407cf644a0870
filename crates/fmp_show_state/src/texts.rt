//! Names in a text, and the text of a vector.
ghost use Rattle.std.specs.Prelude.{◌≡◌, false, OnOk};
ghost use Rattle.fmp_out.specs.Putting.{Adds};
ghost use Rattle.fmp_trace.specs.Lines.{runner_text, task_text};
ghost use Rattle.fmp_trace.specs.Values.{named};

use fmp_codes::{ObjectKind, Runner, Task};
use fmp_names::Names;
use fmp_out::Text;
use std::alloc::AllocError;
use std::mem;

/// Adds the name of an object, or the number where no object has it.
#[inline(always)]
pub fn put_named(out: &mut Text, names: &Names, kind: ObjectKind, number: usize)
    ensures { Adds (named names.now kind number) out.old out.new }
{
    let told = fmp_trace::put_named(out.as_mut_vec(), names, kind, number);
    out.note(told);
}

/// Adds the name of a task, or its number where no task has it.
#[inline(always)]
pub fn put_task(out: &mut Text, names: &Names, task: Task)
    ensures { Adds (task_text names.now task) out.old out.new }
{
    put_named(out, names, ObjectKind::Task, usize::from(task.number));
}

/// Adds the name of a task or a handler, or `-` where there is none.
#[inline(always)]
pub(crate) fn put_runner(out: &mut Text, names: &Names, runner: Option<Runner>)
    ensures { Adds (runner_text names.now runner) out.old out.new }
{
    let told = fmp_trace::put_runner(out.as_mut_vec(), names, runner);
    out.note(told);
}

/// A text with the bytes of a vector, which has none itself until [`give_back`].
pub fn text_of(bytes: &mut Vec<u8>) -> Text
    ensures wanting { result.wanting ≡ false }
    ensures bytes { result.bytes ≡ bytes.old.items }
{
    let mut text = Text::new(*bytes.allocator());
    mem::swap(text.as_mut_vec(), bytes);
    text
}

/// Gives a vector the bytes of a text. The error is that memory was wanting for some of them.
pub fn give_back(bytes: &mut Vec<u8>, text: Text) -> Result<(), AllocError>
    ensures { OnOk result ((text.wanting ≡ false) × (bytes.new.items ≡ text.bytes)) }
{
    let mut text = text;
    mem::swap(text.as_mut_vec(), bytes);
    text.so_far()?;
    Ok(())
}
