//! How far a search has come.

ghost use Rattle.std.specs.Prelude.{◌≡◌, Bool, true, false};

/// One who is told how far a search has come, and may end it. No other answer depends on it.
pub trait Progress {
    // Whether it has ended the search.
    ghost over: { Self → Bool };

    /// So many places were found, and the steps are tried from one that is so many steps away from where all runs begin.
    fn tell(&mut self, places: usize, depth: u32);

    /// Whether the search is to end here. What is known by then is its answer.
    fn is_over(&mut self) -> bool
        ensures { result ≡ true → over self.new ≡ true };

    /// The search has ended, and its answer is not written yet.
    fn end(&mut self)
        ensures { over self.new ≡ over self.old };
}

/// One who does nothing of it.
#[derive(Clone, Copy)]
pub struct Quiet;

impl Progress for Quiet {
    ghost over = { λ quiet. false };

    fn tell(&mut self, _places: usize, _depth: u32) {}

    fn is_over(&mut self) -> bool {
        false
    }

    fn end(&mut self) {}
}
