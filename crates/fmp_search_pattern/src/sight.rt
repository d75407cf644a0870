//! What a question sees of an event.
ghost use Rattle.std.specs.Prelude.{◌≡◌};
ghost use Rattle.fmp_search_pattern.specs.Sights as spec;

use fmp_facts::Asked;

/// An event, and the state after it.
pub trait Sight {
    // What is seen of it.
    ghost sight: { Self → spec.Sight };

    /// Its line of a trace without the number, with two blanks before and after it.
    fn line(&self) -> &[u8]
        ensures { result.now ≡ (sight self.now).line };

    /// Whether what is asked is so of the state after it.
    fn is_so(&self, asked: &Asked) -> bool
        ensures { result ≡ (sight self.now).is_so asked.now };

    /// Whether nothing can change any more after it.
    fn is_over(&self) -> bool
        ensures { result ≡ (sight self.now).over };
}
