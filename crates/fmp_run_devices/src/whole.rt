//! Reading a text whole.
ghost use Rattle.std.specs.Prelude.{◌≡◌, ◌+◌, ◌-◌, ◌^◌, ◌<◌, ◌≤◌, replicate, vec_len, IfOk, if◌then◌else◌};
ghost use Rattle.fmp_run_devices.specs.Devices.{IsKnown, ReadUpTo, bytes_of, is_read_failure};
ghost use Rattle.fmp_run_devices.specs.Hearing.{IsHeard};

use crate::source::{Failed, Source};
use std::alloc::{AllocError, Global};

/// How many bytes are asked for at once.
const PIECE: usize = 65536;

/// Why a text was not read.
#[derive(Clone, Copy)]
pub enum ReadFault {
    Failed,
    Memory,
}

/// Room to read into: 64 KiB of zeros.
pub fn new_piece(alloc: Global) -> Result<Vec<u8>, AllocError>
    ensures { IfOk result (λ piece. piece.items ≡ replicate 65536 0) }
{
    vec![in alloc; 0u8; PIECE]
}

/// Reads the whole text, or, of a text longer than the limit, a prefix that is longer than the limit too, by 64 KiB at most. A source that has
/// so much at most in memory of its own gives it.
pub fn read_up_to<S: Source>(
    alloc: Global,
    source: &mut S,
    limit: usize,
) -> Result<Vec<u8>, ReadFault>
    requires { S.failures source.old < 2 ^ 64 - 1 }
    ensures count { S.failures source.new ≡ S.failures source.old + (if is_read_failure result then 1 else 0) }
    ensures bound { IfOk result (λ text. vec_len text ≤ limit + 65536) }
    ensures known { IsKnown (S.left source.old) → IsKnown (S.left source.new) }
    ensures heard { IfOk result (λ text. IsHeard limit (S.given source.old) (S.given source.new) (S.ended source.new) text.items) }
    ensures ok { IsKnown (S.left source.old) → IfOk result (λ text. ReadUpTo limit (bytes_of (S.left source.old)) text.items (bytes_of (S.left source.new))) }
{
    if let Some(text) = source.give_all(limit.saturating_add(PIECE)) {
        return Ok(text);
    }
    let mut text = Vec::new(alloc);
    let mut piece = new_piece(alloc).map_err(|_| ReadFault::Memory)?;
    while text.len() <= limit {
        match source.read(piece.as_mut_slice()) {
            Err(Failed) => return Err(ReadFault::Failed),
            Ok(0) => return Ok(text),
            Ok(count) => text
                .extend_from_slice(&piece[..count])
                .map_err(|_| ReadFault::Memory)?,
        }
    }
    Ok(text)
}
