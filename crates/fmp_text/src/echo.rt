//! The text of an event that is printed as it was written.
ghost use Rattle.std.specs.Prelude.{◌≡◌, ◌≢◌, ◌≤◌, [], true, length, take};

use std::marker::Model;

/// The greatest number of bytes that are kept.
const ROOM: usize = 32;

/// The text of an event, where it was written as it is printed and is short. Otherwise it is empty.
#[derive(Drop)]
pub struct Echo {
    bytes: [u8; ROOM],
    length: usize,
}

impl Model for Echo {
    ghost use Rattle.std.specs.Prelude.{◌≤◌, ℕ, List, take};

    ghost Value = { List ℕ };

    ghost view = { λ e. take e.length e.bytes };

    ghost invariant = { λ e. e.length ≤ 32 };
}

impl Echo {
    /// No text.
    pub fn new() -> Echo
        ensures { result ≡ [] }
    {
        Echo {
            bytes: [0; ROOM],
            length: 0,
        }
    }

    /// Drops the text.
    #[inline(always)]
    pub fn clear(&mut self)
        ensures { self.new ≡ [] }
    {
        self.length = 0;
    }

    /// Keeps the first bytes of a text, where they are to be kept and are not too many. After them at least as many have to stand
    /// as there is room for, so that they are copied at once.
    #[inline(always)]
    pub(crate) fn keep(&mut self, is_own: bool, text: &[u8], length: usize)
        ensures { self.new ≢ [] → (is_own ≡ true) × (self.new ≡ take length text.now) }
    {
        self.length = 0;
        if !is_own {
            return;
        }
        match text.first_chunk::<ROOM>() {
            Some(front) if length <= ROOM => {
                self.bytes = *front;
                self.length = length;
            }
            _ => {}
        }
    }

    /// How many bytes the text has.
    #[inline(always)]
    pub fn len(&self) -> usize
        ensures { result ≡ length self.now }
    {
        self.length
    }

    /// The text, and bytes after it that say nothing.
    #[inline(always)]
    pub fn room(&self) -> &[u8]
        ensures text { take (length self.now) result.now ≡ self.now }
        ensures within { length self.now ≤ length result.now }
    {
        self.bytes.as_slice()
    }
}
