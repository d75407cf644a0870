//! Who is released when the pattern of an eventflag changes.
ghost use Rattle.std.specs.Prelude.{◌≡◌, ◌≤◌, length};
ghost use Rattle.fmp_flag.specs.Eventflags.{cleared, served};

use crate::Flag;
use crate::wanted::{Wanted, is_met};
use arrayvec::ArrayVec;
use fmp_codes::Task;

/// The bits of an eventflag after a release.
pub(crate) fn cleared(flag: &Flag, bits: u32) -> u32
    ensures { result ≡ cleared flag.now bits }
{
    if flag.eventflag().setup.clears {
        0
    } else {
        bits
    }
}

/// Goes over these tasks once with these bits, releases those who want what is set, and keeps the bits that are left then.
pub(crate) fn serve(
    flag: &mut Flag,
    bits: u32,
    wanted: &[Wanted],
    tasks: &[Task],
) -> ArrayVec<(Task, u32), 64>
    requires { length tasks.now ≤ 64 }
    ensures { (flag.new, result.items) ≡ served flag.old wanted.now bits tasks.now }
{
    let mut released = ArrayVec::new();
    let mut left = bits;
    for task in tasks {
        if is_met(left, wanted, *task) {
            released.push((*task, left));
            left = cleared(flag, left);
            flag.leave(*task);
        }
    }
    flag.set_pattern(left);
    released
}
