//! Numbers of 64 bits in two halves.
ghost use Rattle.std.specs.Prelude.{◌≡◌, ◌+◌, ◌*◌, ◌/◌, ◌%◌, ◌^◌};

// Two halves make a number of 64 bits.
const HALF: u64 = 4_294_967_296;

/// The upper and the lower half of a number.
pub fn halves(number: u64) -> (u32, u32)
    ensures upper { result.0 ≡ number / 2 ^ 32 }
    ensures lower { result.1 ≡ number % 2 ^ 32 }
{
    ((number / HALF) as u32, (number % HALF) as u32)
}

/// The number of two halves.
pub fn joined(upper: u32, lower: u32) -> u64
    ensures number { result ≡ upper * 2 ^ 32 + lower }
    ensures upper { result / 2 ^ 32 ≡ upper }
    ensures lower { result % 2 ^ 32 ≡ lower }
{
    u64::from(upper) * HALF + u64::from(lower)
}
