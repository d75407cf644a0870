//! Words as numbers, for guesses: nothing is said of a guess, since whoever asks for one compares the word.

/// The bytes before the first that is below `0`: a word ends there.
#[inline(always)]
fn word_in(chunk: u64) -> u64 {
    let below = chunk.wrapping_sub(0x3030_3030_3030_3030) & !chunk & 0x8080_8080_8080_8080;
    let first = below & below.wrapping_neg();
    chunk & (first >> 7).wrapping_sub(1)
}

/// The first bytes, up to eight, as a number in little-endian order, and zeros after the last.
fn padded(bytes: &[u8]) -> u64 {
    let mut chunk: [u8; 8] = [0; 8];
    for index in 0..bytes.len().min(8) {
        chunk[index] = bytes[index];
    }
    u64::from_le_bytes(chunk)
}

/// The first bytes of a word as a number, up to eight, and zeros after its end.
#[inline(always)]
pub fn word_key(bytes: &[u8]) -> u64 {
    match bytes.first_chunk::<8>() {
        Some(chunk) => word_in(u64::from_le_bytes(*chunk)),
        None => word_in(padded(bytes)),
    }
}
