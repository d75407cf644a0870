//! Text that is gathered in memory with room for it.
//!
//! Whoever adds to it knows that there is room, so nothing is checked and nothing fails. Most of what is added is short, and is
//! written as 16 bytes in one store, of which the first few count and the next piece writes over the others.
ghost use Rattle.std.specs.Prelude.{◌≡◌, ◌+◌, ◌≤◌, ◌<◌, ◌++◌, ◌∷◌, [], nat_le, length, take, drop, decimal, IfOk};
ghost use Rattle.std.specs.Fmt.{signed_decimal};
ghost use Rattle.fmp_trace_buffer.specs.Filled.{HasRoom, buffer_bytes, full_bytes};

use itoa::Buffer;
use std::alloc::{AllocError, Global};
use std::marker::Model;

/// From so many bytes on a buffer is full: it has to be passed on before a further line is added.
const FULL: usize = 65_536;

/// How many bytes a buffer has: one that is not full has room for a line.
const ROOM: usize = 75_968;

/// Text in memory that is taken once. What is added has to have room.
#[derive(Drop)]
pub struct LineBuffer {
    bytes: Vec<u8>,
    filled: usize,
}

impl Model for LineBuffer {
    ghost use Rattle.std.specs.Prelude.{◌≡◌, ◌≤◌, ℕ, List, length, take};
    ghost use Rattle.fmp_trace_buffer.specs.Filled.{buffer_bytes};

    ghost Value = { List ℕ };

    ghost view = { λ b. take b.filled b.bytes.items };

    ghost invariant = { λ b. (length b.bytes.items ≡ buffer_bytes) × (b.filled ≤ buffer_bytes) };
}

/// Writes a piece over the bytes at a place. A copy of the piece cannot overlap these, so it is one store.
#[inline(always)]
fn store(bytes: &mut Vec<u8>, at: usize, piece: &[u8; 16])
    requires { at + 16 ≤ length bytes.old.items }
    ensures bytes { bytes.new.items ≡ take at bytes.old.items ++ (piece.now ++ drop (at + 16) bytes.old.items) }
    ensures length { length bytes.new.items ≡ length bytes.old.items }
{
    let piece = *piece;
    bytes[at..at + 16].copy_from_slice(piece.as_slice());
}

/// Writes the front of a longer text over the bytes at a place, as two stores.
#[inline(always)]
fn store_front(bytes: &mut Vec<u8>, at: usize, front: &[u8; 32])
    requires { at + 32 ≤ length bytes.old.items }
    ensures bytes { bytes.new.items ≡ take at bytes.old.items ++ (front.now ++ drop (at + 32) bytes.old.items) }
    ensures length { length bytes.new.items ≡ length bytes.old.items }
{
    let front = *front;
    bytes[at..at + 32].copy_from_slice(front.as_slice());
}

impl LineBuffer {
    /// No text yet.
    pub fn new(alloc: Global) -> Result<LineBuffer, AllocError>
        ensures { IfOk result (λ b. b ≡ []) }
    {
        let mut bytes = Vec::with_capacity(alloc, ROOM)?;
        bytes.resize(ROOM, 0)?;
        Ok(LineBuffer { bytes, filled: 0 })
    }

    /// The text.
    #[inline(always)]
    pub fn as_slice(&self) -> &[u8]
        ensures { result.now ≡ self.now }
    {
        &self.bytes[..self.filled]
    }

    /// Drops the text.
    #[inline(always)]
    pub fn clear(&mut self)
        ensures { self.new ≡ [] }
    {
        self.filled = 0;
    }

    /// Whether it has to be passed on before a further line is added.
    #[inline(always)]
    pub fn is_full(&self) -> bool
        ensures { result ≡ nat_le full_bytes (length self.now) }
    {
        FULL <= self.filled
    }

    /// Adds the first bytes of a piece.
    #[inline(always)]
    #[tactic(auto, using(crate::proofs::Stores::piece_stored))]
    pub(crate) fn put_piece(&mut self, piece: &[u8; 16], bytes: usize)
        requires few { bytes ≤ 16 }
        requires room { HasRoom self.old (take bytes piece.now) }
        ensures { self.new ≡ self.old ++ take bytes piece.now }
    {
        store(&mut self.bytes, self.filled, piece);
        self.filled += bytes;
    }

    /// Adds a byte.
    #[inline(always)]
    pub(crate) fn put_byte(&mut self, byte: u8)
        requires { HasRoom self.old (byte ∷ []) }
        ensures { self.new ≡ self.old ++ byte ∷ [] }
    {
        self.bytes[self.filled] = byte;
        self.filled += 1;
    }

    /// Adds a text of any length.
    pub(crate) fn put_text(&mut self, text: &[u8])
        requires { HasRoom self.old text.now }
        ensures { self.new ≡ self.old ++ text.now }
    {
        let end = self.filled + text.len();
        self.bytes[self.filled..end].copy_from_slice(text);
        self.filled = end;
    }

    /// Adds the first bytes of a text, which goes on after them. Up to 32 are two stores, where the text has as many.
    #[inline(always)]
    pub fn put_echo(&mut self, text: &[u8], bytes: usize)
        requires within { bytes ≤ length text.now }
        requires room { HasRoom self.old (take bytes text.now) }
        ensures { self.new ≡ self.old ++ take bytes text.now }
    {
        match text.first_chunk::<32>() {
            Some(front) if bytes <= 32 => {
                store_front(&mut self.bytes, self.filled, front);
                self.filled += bytes;
            }
            _ => self.put_text(&text[..bytes]),
        }
    }

    /// Adds a text. Names of calls have seven to nine bytes, and so many are two stores.
    #[inline(always)]
    pub(crate) fn put_word(&mut self, text: &[u8])
        requires { HasRoom self.old text.now }
        ensures { self.new ≡ self.old ++ text.now }
    {
        match text.len() {
            7 => self.put_text(&text[..7]),
            8 => self.put_text(&text[..8]),
            9 => self.put_text(&text[..9]),
            _ => self.put_text(text),
        }
    }

    /// Adds a number of any size in decimal.
    fn put_great(&mut self, number: u64)
        requires { HasRoom self.old (decimal number) }
        ensures { self.new ≡ self.old ++ decimal number }
    {
        let mut buffer = Buffer::new();
        self.put_text(buffer.format(number).as_bytes());
    }

    /// Adds a number in decimal. Most are one digit or two.
    #[inline(always)]
    #[tactic(auto, using(std::proofs::lemmas::Fmt::decimal_digit))]
    pub(crate) fn put_number(&mut self, number: u64)
        requires { HasRoom self.old (decimal number) }
        ensures { self.new ≡ self.old ++ decimal number }
    {
        if 10 <= number {
            return self.put_great(number);
        }
        self.put_byte(b'0' + number as u8);
    }

    /// Adds a number below 0.
    fn put_negative(&mut self, number: i64)
        requires { HasRoom self.old (signed_decimal number) }
        ensures { self.new ≡ self.old ++ signed_decimal number }
    {
        let mut buffer = Buffer::new();
        self.put_text(buffer.format(number).as_bytes());
    }

    /// Adds a number with its sign, where it is below 0.
    #[inline(always)]
    pub(crate) fn put_signed(&mut self, number: i64)
        requires { HasRoom self.old (signed_decimal number) }
        ensures { self.new ≡ self.old ++ signed_decimal number }
    {
        if number < 0 {
            return self.put_negative(number);
        }
        self.put_number(number as u64);
    }
}
