//! The number of a line, with its digits.
ghost use Rattle.std.specs.Prelude.{◌≡◌, ◌+◌, ◌-◌, ◌^◌, ◌++◌, ◌<◌, decimal};
ghost use Rattle.fmp_trace_buffer.specs.Filled.{HasRoom};

use crate::line_buffer::LineBuffer;
use itoa::Buffer;
use std::marker::Model;

/// A count of lines, and its digits in decimal. They are kept, since from one number to the next mostly the last digit alone changes.
#[derive(Drop)]
pub struct Count {
    number: u32,
    digits: [u8; 16],
    length: usize,
}

impl Model for Count {
    ghost use Rattle.std.specs.Prelude.{ℕ, ◌≡◌, ◌≤◌, take, decimal};

    ghost Value = { ℕ };

    ghost view = { λ c. c.number };

    ghost invariant = { λ c. (c.length ≤ 16) × (take c.length c.digits ≡ decimal c.number) };
}

impl Count {
    /// No line yet.
    pub fn new() -> Count
        ensures { result ≡ 0 }
    {
        Count {
            number: 0,
            digits: *b"0               ",
            length: 1,
        }
    }

    /// The number of a line, with all its digits made anew.
    fn of(number: u32) -> Count
        ensures { result ≡ number }
    {
        let mut buffer = Buffer::new();
        let text = buffer.format(number).as_bytes();
        let length = text.len();
        let mut digits = *b"                ";
        digits[..length].copy_from_slice(text);
        Count {
            number,
            digits,
            length,
        }
    }

    /// Counts one line more.
    #[inline(always)]
    pub fn increase(&mut self)
        requires { self.old < 2 ^ 32 - 1 }
        ensures { self.new ≡ self.old + 1 }
    {
        let following = self.length;
        if 0 < following && self.digits[following - 1] < b'9' {
            self.digits[following - 1] += 1;
            self.number += 1;
        } else {
            *self = Count::of(self.number + 1);
        }
    }

    /// The number.
    pub fn number(&self) -> u32
        ensures { result ≡ self.now }
    {
        self.number
    }

    /// Adds the number in decimal.
    #[inline(always)]
    pub(crate) fn put(&self, out: &mut LineBuffer)
        requires { HasRoom out.old (decimal self.now) }
        ensures { out.new ≡ out.old ++ decimal self.now }
    {
        out.put_piece(&self.digits, self.length);
    }
}
