//! Values that are compared, and lists of them.
ghost use Rattle.std.specs.Prelude.{◌≡◌, ◌↔◌, ℕ, IsTrue};
ghost use Rattle.fmp_kernel_parts.specs.Digests.{added_all};
ghost use Rattle.fmp_kernel_same.specs.Digests.{added_option};

use fmp_kernel_parts::Digest;

/// A value of which is told whether it is the same as another.
pub trait Same {
    /// Whether it is the same as another one.
    fn is_same(&self, other: &Self) -> bool
        ensures { IsTrue result ↔ (self.now ≡ other.now) };
}

/// A value that a digest tells apart, too.
pub trait ValueToDigest: Same {
    // What a digest is after it was added.
    ghost digested: { Self → ℕ → ℕ };

    /// Adds it to a digest. Values that are the same add the same; no answer may depend on it.
    fn add_to(&self, digest: &mut Digest)
        ensures { digest.new ≡ digested self.now digest.old };
}

/// Whether the values of two lists are the same.
pub fn are_equal<T: Same>(values: &[T], others: &[T]) -> bool
    ensures { IsTrue result ↔ (values.now ≡ others.now) }
{
    if values.len() != others.len() {
        return false;
    }
    for at in 0..values.len() {
        if !values[at].is_same(&others[at]) {
            return false;
        }
    }
    true
}

/// Adds the values of a list to a digest.
pub fn add_each<T: ValueToDigest>(values: &[T], digest: &mut Digest)
    ensures { digest.new ≡ added_all T.digested values.now digest.old }
{
    for value in values {
        value.add_to(digest);
    }
}

impl<T: Same> Same for Option<T> {
    fn is_same(&self, other: &Self) -> bool {
        match (self, other) {
            (Some(one), Some(other)) => one.is_same(other),
            (None, None) => true,
            _ => false,
        }
    }
}

impl<T: ValueToDigest> ValueToDigest for Option<T> {
    ghost digested = { λ value sum. added_option T.digested value sum };

    fn add_to(&self, digest: &mut Digest) {
        match self {
            Some(value) => value.add_to(digest),
            None => digest.add(0),
        }
    }
}
