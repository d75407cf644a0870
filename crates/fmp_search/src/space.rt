//! What can be gone through.
ghost use Rattle.std.specs.Prelude.{◌≡◌, ◌≤◌, ◌<◌, ℕ, Bool, true, false, Option, None, Some, IfOk};
ghost use Rattle.fmp_interned.specs.Keys.{AreKeptBy, IsKeyOf};
ghost use Rattle.fmp_search.specs.Runs.{Closes, Goes, told_of, Watches};

use std::alloc::AllocError;

/// What is told of a step: which of up to 64 tests it passes, bit k for test k, and a number.
#[derive(Clone, Copy)]
pub struct Noted {
    pub passes: u64,
    pub number: u32,
}

/// One who stands at a place of a graph, can make numbered steps, and can go to a place by its key, or back to where all runs begin. What a step leads to
/// depends on the place alone.
pub trait Space {
    /// What places are made of, each part once and with a number, by which places are kept.
    type Tables: Drop;

    // What a place is.
    ghost Place: { Type 0 };

    // Where it stands, and where all runs begin.
    ghost place: { Self → Place };

    ghost origin: { Self → Place };

    // The place to which a step leads, if it can be made there.
    ghost after: { Place → ℕ → Option Place };

    // Whether the place is looked for.
    ghost wanted: { Place → Bool };

    // Which of up to 64 tests a step from a place passes, each as a bit.
    ghost passes: { Place → ℕ → ℕ };

    // A number that is told of a step from a place, if it can be made.
    ghost tells: { Place → ℕ → ℕ };

    // Where all runs begin at a place, a number is the key of another by these tables.
    ghost IsKey: { Place → Self.Tables → ℕ → Place → Type 0 };

    // For how many steps more there is room, before it has to go elsewhere.
    ghost room: { Self → ℕ };

    /// Tables of no place. The error is want of memory.
    fn tables(&self) -> Result<Self::Tables, AllocError>;

    /// The key of the place where it stands, by tables in which its parts are kept from then on. The error is want of memory, or of numbers for parts, and
    /// leaves the keys of other places as they were.
    fn pack(&self, tables: &mut Self::Tables) -> Result<u64, AllocError>
        ensures key { IfOk result (IsKeyOf (IsKey (origin self.now) tables.new) (place self.now)) }
        ensures kept { AreKeptBy (IsKey (origin self.now) tables.old) (IsKey (origin self.now) tables.new) };

    /// Goes to the place of a key. The keys of places near to it are found sooner from then on: no answer depends on that. The error is want of memory.
    fn unpack(&mut self, tables: &mut Self::Tables, key: u64) -> Result<(), AllocError>
        requires { (p : Place) × IsKey (origin self.old) tables.old key p }
        ensures there { IfOk result (λ done. (p : Place) → IsKey (origin self.old) tables.old key p → place self.new ≡ p) }
        ensures same { tables.new ≡ tables.old }
        ensures room { IfOk result (λ done. 0 < room self.new) }
        ensures origin { origin self.new ≡ origin self.old };

    /// Goes back to where all runs begin. The error is want of memory.
    fn restart(&mut self) -> Result<(), AllocError>
        ensures there { IfOk result (λ done. place self.new ≡ origin self.old) }
        ensures room { IfOk result (λ done. 0 < room self.new) }
        ensures origin { origin self.new ≡ origin self.old };

    /// Whether the step of a number may be one that can be made from where it stands. Where it says no it cannot, and none goes there to try.
    fn may_go(&self, step: u8) -> bool
        ensures { result ≡ false → after (place self.now) step ≡ None };

    /// Makes the step of a number, and says whether it could be made. If not, where it stands is not known, until it goes elsewhere.
    /// The error is want of memory.
    fn go(&mut self, step: u8) -> Result<bool, AllocError>
        requires { 0 < room self.old }
        ensures goes { IfOk result (λ made. Goes (after (place self.old) step) made (place self.new)) }
        ensures origin { origin self.new ≡ origin self.old };

    /// Makes the step of a number as `go` does, and tells which tests it passes, and its number. None where it could not be made. Where
    /// that shows of other steps that they cannot be made from the same place, it may add their bits to `closed`.
    fn watch(&mut self, step: u8, closed: &mut u64) -> Result<Option<Noted>, AllocError>
        requires { 0 < room self.old }
        ensures goes { IfOk result (λ report. Watches (after (place self.old) step) (told_of passes tells (place self.old) step) report (place self.new)) }
        ensures closed { Closes after (place self.old) closed.old closed.new }
        ensures origin { origin self.new ≡ origin self.old };

    /// Goes where another stands, whose runs begin at the same place. The error is want of memory.
    fn copy_from(&mut self, other: &Self) -> Result<(), AllocError>
        requires { origin other.now ≡ origin self.old }
        ensures there { IfOk result (λ done. place self.new ≡ place other.now) }
        ensures room { IfOk result (λ done. room self.new ≡ room other.now) }
        ensures origin { origin self.new ≡ origin self.old };

    /// No step of this number or a greater one can be made from where it stands.
    fn steps(&self) -> u8
        ensures { (s : ℕ) → result ≤ s → after (place self.now) s ≡ None };

    /// Whether the place where it stands is looked for.
    fn is_wanted(&self) -> bool
        ensures { result ≡ wanted (place self.now) };
}
