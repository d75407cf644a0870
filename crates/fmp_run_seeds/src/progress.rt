//! How far a search through seeds has come.
ghost use Rattle.std.specs.Prelude.{◌≡◌, Bool, true};

/// One who is told which seed is played, and may end the search. No other answer depends on it.
pub trait SeedProgress {
    // Whether it has ended the search.
    ghost over: { Self → Bool };

    /// The run of this seed begins.
    fn tell(&mut self, seed: u64);

    /// Whether the search is to end after the seeds that were played.
    fn is_over(&mut self) -> bool
        ensures { result ≡ true → over self.new ≡ true };

    /// The last run has ended, and nothing is written yet.
    fn end(&mut self)
        ensures { over self.new ≡ over self.old };
}
