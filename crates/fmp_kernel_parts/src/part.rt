//! Parts, and lists of them.
ghost use Rattle.std.specs.Prelude.{◌≡◌, ◌↔◌, ℕ, ◌<◌, length, slice_index_or, IsTrue};

/// A part of a kernel, which is compared with another and becomes as another is.
pub trait Part {
    // It has the memory that it needs to become as another part is.
    ghost fits: { Self → Self → Type 0 };

    /// Whether it is the same as another part.
    fn is_same(&self, other: &Self) -> bool
        ensures { IsTrue result ↔ (self.now ≡ other.now) };

    /// Becomes as another part is. Takes no memory.
    fn copy_from(&mut self, other: &Self)
        requires { fits self.old other.now }
        ensures { self.new ≡ other.now };
}

/// Whether the parts of two lists are the same.
pub fn are_same<T: Part>(parts: &[T], others: &[T]) -> bool
    ensures { IsTrue result ↔ (parts.now ≡ others.now) }
{
    if parts.len() != others.len() {
        return false;
    }
    for at in 0..parts.len() {
        if !parts[at].is_same(&others[at]) {
            return false;
        }
    }
    true
}

/// The parts of a list become as those of another list are.
pub fn copy_all<T: Part>(parts: &mut [T], others: &[T])
    requires count { length parts.old ≡ length others.now }
    requires fits { (k : ℕ) (a b : T) → k < length others.now → T.fits (slice_index_or parts.old k a) (slice_index_or others.now k b) }
    ensures { parts.new ≡ others.now }
{
    for at in 0..others.len() {
        parts[at].copy_from(&others[at]);
    }
}
