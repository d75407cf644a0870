//! What plays the events of lines.
ghost use Rattle.std.specs.Prelude.{◌≡◌, ◌≤◌, ◌<◌, ◌^◌, ℕ, Option, IfOk};
ghost use Rattle.fmp_interned.specs.Keys.{AreKeptBy, IsKeyOf};
ghost use Rattle.fmp_search.specs.Runs.{Goes};

use std::alloc::AllocError;

/// A machine that plays the events of lines, and tells whether what each line says is what it answered.
pub trait Player {
    /// What its states are made of, each part once and with a number, by which states are kept.
    type Tables: Drop;

    ghost State: { Type 0 };

    // Its state, and that where all begins.
    ghost state: { Self → State };

    ghost begins: { Self → State };

    // The state after the event of a line, if the line is right there.
    ghost plays: { State → ℕ → Option State };

    // Where all begins at a state, a number is the key of another by these tables.
    ghost IsKey: { State → Self.Tables → ℕ → State → Type 0 };

    // For how many lines there is room, before it has to begin anew.
    ghost room: { Self → ℕ };

    /// One more that begins alike. The error is want of memory.
    fn another(&self) -> Result<Self, AllocError>
        ensures { IfOk result (λ w. begins w ≡ begins self.now) };

    /// Tables of no state. The error is want of memory.
    fn tables(&self) -> Result<Self::Tables, AllocError>;

    /// The key of its state, by tables in which its parts are kept from then on. The error is want of memory, and leaves the keys of other states as they
    /// were.
    fn pack(&self, tables: &mut Self::Tables) -> Result<u64, AllocError>
        ensures key { IfOk result (IsKeyOf (IsKey (begins self.now) tables.new) (state self.now)) }
        ensures kept { AreKeptBy (IsKey (begins self.now) tables.old) (IsKey (begins self.now) tables.new) };

    /// Becomes as it was in the state of a key. The error is want of memory.
    fn unpack(&mut self, tables: &mut Self::Tables, key: u64) -> Result<(), AllocError>
        requires { (s : State) × IsKey (begins self.old) tables.old key s }
        ensures there { IfOk result (λ done. (s : State) → IsKey (begins self.old) tables.old key s → state self.new ≡ s) }
        ensures same { tables.new ≡ tables.old }
        ensures room { IfOk result (λ done. 0 < room self.new) }
        ensures begins { begins self.new ≡ begins self.old };

    /// Begins anew. The error is want of memory.
    fn restart(&mut self) -> Result<(), AllocError>
        ensures there { IfOk result (λ done. state self.new ≡ begins self.old) }
        ensures room { IfOk result (λ done. 2 ^ 31 ≤ room self.new) }
        ensures begins { begins self.new ≡ begins self.old };

    /// Plays the event of a line, and says whether the line is right. If not, the state is not known. The error is want of memory.
    fn play(&mut self, line: u32) -> Result<bool, AllocError>
        requires { 0 < room self.old }
        ensures goes { IfOk result (λ made. Goes (plays (state self.old) line) made (state self.new)) }
        ensures begins { begins self.new ≡ begins self.old };

    /// Becomes as another that begins alike. The error is want of memory.
    fn copy_from(&mut self, other: &Self) -> Result<(), AllocError>
        requires { begins other.now ≡ begins self.old }
        ensures there { IfOk result (λ done. state self.new ≡ state other.now) }
        ensures room { IfOk result (λ done. room self.new ≡ room other.now) }
        ensures begins { begins self.new ≡ begins self.old };
}
