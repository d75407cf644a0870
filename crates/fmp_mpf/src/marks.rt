//! The marks of 64 blocks, as the bits of a word.
ghost use Rattle.std.specs.Prelude.{◌≡◌, ◌<◌, ◌≤◌, IfSome, IsTrue, not, false, replicate, take, slice_index_or, slice_set};
ghost use Rattle.std.specs.List.{position};
ghost use Rattle.fmp_mpf.specs.Marks.{marks};

/// A word without marks.
pub(crate) fn no_marks() -> u64
    ensures { marks result ≡ replicate 64 false }
{
    0
}

/// The first of so many blocks that has no mark.
pub(crate) fn first_free(word: u64, blocks: u8) -> Option<u8>
    ensures value { result ≡ position not (take blocks (marks word)) }
    ensures few { IfSome result (λ b. b ≤ 63) }
{
    let block = word.trailing_ones();
    if block < u32::from(blocks.min(64)) {
        Some(block as u8)
    } else {
        None
    }
}

/// Whether a block has a mark.
pub(crate) fn is_marked(word: u64, block: u8) -> bool
    ensures value { result ≡ slice_index_or (marks word) block false }
    ensures few { IsTrue result → block < 64 }
{
    block < 64 && word >> block & 1 == 1
}

/// The marks of a word, one after the other.
pub(crate) fn all_marks(word: u64) -> [bool; 64]
    ensures { result ≡ marks word }
{
    let mut all = [false; 64];
    for block in 0..64u8 {
        all[usize::from(block)] = is_marked(word, block);
    }
    all
}

/// The word with a block marked or not.
pub(crate) fn with_mark(word: u64, block: u8, marked: bool) -> u64
    ensures { marks result ≡ slice_set (marks word) block marked }
{
    if 64 <= block {
        return word;
    }
    let bit = 1 << block;
    if marked { word | bit } else { word & !bit }
}
