//! Devices that bytes are read from.
ghost use Rattle.std.specs.Prelude.{◌≡◌, ◌+◌, ◌-◌, ◌^◌, ◌<◌, ◌≤◌, ℕ, Bool, List, Option, None, [], true, length, vec_len, IfOk, IfSome, is_err, if◌then◌else◌};
ghost use Rattle.std.specs.Io.KnownBytes.{ReadConsumes};
ghost use Rattle.fmp_run_devices.specs.Devices.{bytes_of};
ghost use Rattle.fmp_run_devices.specs.Hearing.{GivesAll, Hands};

/// A call of a device that failed.
#[derive(Clone, Copy)]
pub struct Failed;

/// A device that bytes are read from.
pub trait Source {
    // The bytes that are left to read, where they are known, as those of memory are. Those of a file are not.
    ghost left: { Self → Option (List ℕ) };

    // The bytes that its calls handed over, whether or not they were known before.
    ghost given: { Self → List ℕ };

    // The last call answered that there are no more. Then none are left, where that is known.
    ghost ended: { Self → Bool };

    ghost over: { (s : Self) → ended s ≡ true → bytes_of (left s) ≡ [] };

    ghost failures: { Self → ℕ };

    /// How many calls have failed.
    fn failures(&self) -> u64
        ensures { result ≡ failures self.now };

    /// Reads into the beginning of the buffer, and answers how many bytes. A read of 0 bytes is the end. After a failed call
    /// the same bytes are left.
    fn read(&mut self, buffer: &mut [u8]) -> Result<usize, Failed>
        requires { failures self.old < 2 ^ 64 - 1 }
        ensures fits { IfOk result (λ n. n ≤ length buffer.old) }
        ensures count { failures self.new ≡ failures self.old + (if is_err result then 1 else 0) }
        ensures bytes { ReadConsumes (left self.old) (left self.new) result buffer.new }
        ensures hands { Hands (given self.old) (given self.new) (ended self.new) result buffer.new };

    /// Gives all that is left, where the source has it in memory of its own and it is of at most so many bytes: then nobody has to copy it.
    /// Else nothing happens.
    fn give_all(&mut self, most: usize) -> Option<Vec<u8>>
        ensures bound { IfSome result (λ text. vec_len text ≤ most) }
        ensures gives { IfSome result (λ text. GivesAll (given self.old) (given self.new) (left self.old) (left self.new) (ended self.new) text.items) }
        ensures none { result ≡ None → (left self.new ≡ left self.old) × (given self.new ≡ given self.old) × (ended self.new ≡ ended self.old) }
        ensures count { failures self.new ≡ failures self.old }
    {
        None
    }
}
