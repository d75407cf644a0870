//! Comparing texts many bytes at a time.
ghost use Rattle.std.specs.Prelude.{◌≡◌, ◌<◌, ◌+◌, ℕ, true, false, length, drop};
ghost use Rattle.std.specs.Str.{bytes_eq};

/// Whether eight bytes are the same as eight others, which are compared as one word.
#[inline(always)]
fn is_same_word(a: &[u8; 8], b: &[u8; 8]) -> bool
    ensures { result ≡ bytes_eq a.now b.now }
{
    u64::from_le_bytes(*a) == u64::from_le_bytes(*b)
}

/// Whether a few bytes are the same as others.
#[inline(always)]
fn is_same_rest(a: &[u8], b: &[u8]) -> bool
    ensures { result ≡ bytes_eq a.now b.now }
{
    let mut a = a;
    let mut b = b;
    while let ([byte, after @ ..], [other, others @ ..]) = (a, b) {
        if *byte != *other {
            return false;
        }
        a = after;
        b = others;
    }
    a.is_empty() && b.is_empty()
}

/// Whether two texts of one length begin with the same words of eight bytes. After these each has less than eight bytes.
#[inline(always)]
fn has_same_words(a: &[u8], b: &[u8]) -> bool
    requires { length a.now ≡ length b.now }
    ensures apart { result ≡ false → bytes_eq a.now b.now ≡ false }
    ensures rest { result ≡ true → (k : ℕ) × (length a.now < k + 8) × (bytes_eq (drop k a.now) (drop k b.now) ≡ bytes_eq a.now b.now) }
{
    let mut a = a;
    let mut b = b;
    while let (Some((word, after)), Some((other, others))) = (
        a.split_first_chunk::<8>(),
        b.split_first_chunk::<8>(),
    ) {
        if !is_same_word(word, other) {
            return false;
        }
        a = after;
        b = others;
    }
    true
}

/// Whether a text is the same as another, eight bytes at a time. The last eight overlap those before them, so that no byte is compared
/// alone where there are as many.
#[inline(always)]
pub fn is_same(a: &[u8], b: &[u8]) -> bool
    ensures { result ≡ bytes_eq a.now b.now }
{
    if a.len() != b.len() {
        return false;
    }
    match (a.last_chunk::<8>(), b.last_chunk::<8>()) {
        (Some(last), Some(end)) => has_same_words(a, b) && is_same_word(last, end),
        _ => is_same_rest(a, b),
    }
}
