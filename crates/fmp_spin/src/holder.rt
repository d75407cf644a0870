//! The holders of spin locks.
ghost use Rattle.std.specs.Prelude.{◌≡◌, ◌≤◌, None, map, replicate};
ghost use Rattle.std.specs.List.{position};
ghost use Rattle.fmp_rules.specs.Processors.{is_at};
ghost use Rattle.fmp_spin.specs.Locks.{freed};

use arrayvec::ArrayVec;
use fmp_codes::Proc;

/// Whether the holder of a lock is this processor.
pub(crate) fn is_at(p: Proc, holder: Option<Proc>) -> bool
    ensures { result ≡ is_at p holder }
{
    match holder {
        None => false,
        Some(q) => p.number == q.number,
    }
}

/// The holder of a lock after a processor freed what it held.
fn freed(p: Proc, holder: Option<Proc>) -> Option<Proc>
    ensures { result ≡ freed p holder }
{
    if is_at(p, holder) { None } else { holder }
}

/// Frees each lock that a processor holds.
pub(crate) fn free_all(p: Proc, holders: &mut [Option<Proc>])
    ensures { holders.new ≡ map (freed p) holders.old }
{
    for holder in holders.iter_mut() {
        *holder = freed(p, *holder);
    }
}

/// The place of the first lock that a processor holds.
pub(crate) fn first_held(p: Proc, holders: &[Option<Proc>]) -> Option<usize>
    ensures { result ≡ position (is_at p) holders.now }
{
    holders.iter().position(|holder| is_at(p, *holder))
}

/// So many locks, which nobody holds.
pub(crate) fn all_free(count: u8) -> ArrayVec<Option<Proc>, 32>
    requires { count ≤ 32 }
    ensures { result.items ≡ replicate count None }
{
    let mut holders = ArrayVec::new();
    for _index in 0..count {
        holders.push(None);
    }
    holders
}
