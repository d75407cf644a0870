//! The blocks of a pool.
ghost use Rattle.std.specs.Prelude.{◌≡◌, ◌≤◌, ◌<◌, ◌≤ℤ◌, pos, IsTrue, not, length, take, slice_set, IfSome};
ghost use Rattle.std.specs.List.{position};
ghost use Rattle.fmp_plain_machine.specs.Blocks.{is_handed};

use fmp_rules::Pool;

/// For each block of a pool, whether it is handed out.
fn marks(pool: &Pool) -> &[bool]
    ensures value { result.now ≡ take pool.now.setup.blocks pool.now.handed }
    ensures few { length result.now ≤ 64 }
{
    let blocks = usize::from(pool.setup.blocks);
    &pool.handed[..blocks.min(pool.handed.len())]
}

/// The place of the first block that is not handed out.
fn first_free(marks: &[bool]) -> Option<usize>
    ensures value { result ≡ position not marks.now }
    ensures in_range { IfSome result (λ b. b < length marks.now) }
{
    marks.iter().position(|handed| !*handed)
}

/// The first block that is not handed out.
pub(crate) fn free_block(pool: &Pool) -> Option<u8>
    ensures { result ≡ position not (take pool.now.setup.blocks pool.now.handed) }
{
    let block = first_free(marks(pool))?;
    Some(block as u8)
}

/// Whether this is the number of a block that is handed out.
pub(crate) fn is_handed(pool: &Pool, block: i32) -> bool
    ensures value { result ≡ is_handed pool.now block }
    ensures few { IsTrue result → block ≤ℤ pos 63 }
{
    let marks = marks(pool);
    if block < 0 || marks.len() as i64 <= i64::from(block) {
        return false;
    }
    marks[block as usize]
}

/// The pool with a block marked as handed out or as free.
pub(crate) fn with_mark(pool: Pool, block: u8, handed: bool) -> Pool
    ensures { result ≡ record pool { handed = slice_set pool.handed block handed } }
{
    let mut pool = pool;
    if usize::from(block) < pool.handed.len() {
        pool.handed[usize::from(block)] = handed;
    }
    pool
}
