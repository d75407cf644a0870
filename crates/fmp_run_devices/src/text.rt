//! A source over a text in memory of its own.
ghost use Rattle.std.specs.Prelude.{◌≡◌, ◌+◌, ◌-◌, ◌^◌, ◌<◌, ◌≤◌, [], false, drop, length, min, vec_len, IfOk, IfSome, is_err, is_some, None, Some, true, if◌then◌else◌};
ghost use Rattle.std.specs.Io.KnownBytes.{ReadConsumes};
ghost use Rattle.fmp_run_devices.specs.Hearing.{GivesAll, Hands};

use crate::history::{History, Passing};
use crate::memory::fill;
use crate::source::{Failed, Source};
use std::alloc::Global;
use std::mem;

/// A text that was read whole before, to be read again. Each of its reads goes well, and takes as much as fits.
#[derive(Drop)]
pub struct TextSource {
    alloc: Global,
    text: Vec<u8>,
    /// How many bytes were read.
    at: usize,
    given: History,
    ended: bool,
    ghost within: { at ≤ vec_len text },
    ghost over: { ended ≡ true → drop at text.items ≡ [] },
}

impl TextSource {
    /// This text, from its beginning.
    pub fn new(alloc: Global, text: Vec<u8>) -> TextSource
        ensures { (result.text ≡ text) × (result.at ≡ 0) × (result.given.bytes ≡ []) × (result.ended ≡ false) }
    {
        TextSource {
            alloc,
            text,
            at: 0,
            given: History::new(),
            ended: false,
        }
    }
}

impl Source for TextSource {
    ghost left = { λ s. Some (drop s.at s.text.items) };

    ghost given = { λ s. s.given.bytes };

    ghost ended = { λ s. s.ended };

    ghost over = { λ s. s.over };

    ghost failures = { λ _. 0 };

    fn failures(&self) -> u64 {
        0
    }

    fn read(&mut self, buffer: &mut [u8]) -> Result<usize, Failed>
        ensures fits { IfOk result (λ n. n ≤ length buffer.old) }
        ensures count { is_err result ≡ false }
        ensures bytes { ReadConsumes (Some (drop self.old.at self.old.text.items)) (Some (drop self.new.at self.new.text.items)) result buffer.new }
        ensures hands { Hands self.old.given.bytes self.new.given.bytes self.new.ended result buffer.new }
        ensures most { IfOk result (λ n. n ≡ min (vec_len self.old.text - self.old.at) (length buffer.old)) }
    {
        let (_, rest) = self.text.split_at(self.at);
        let count = fill(buffer, rest);
        self.at += count;
        self.given = self.given.with(&Passing {
            bytes: &buffer[..count],
        });
        self.ended = count == 0 && !buffer.is_empty();
        Ok(count)
    }

    fn give_all(&mut self, most: usize) -> Option<Vec<u8>>
        ensures bound { IfSome result (λ text. vec_len text ≤ most) }
        ensures gives { IfSome result (λ text. GivesAll self.old.given.bytes self.new.given.bytes
            (Some (drop self.old.at self.old.text.items)) (Some (drop self.new.at self.new.text.items)) self.new.ended text.items) }
        ensures none { result ≡ None → self.new ≡ self.old }

        // It gives what it can.
        ensures short { self.old.at ≡ 0 → vec_len self.old.text ≤ most → is_some result ≡ true }
    {
        if self.at > 0 || self.text.len() > most {
            return None;
        }
        let text = mem::replace(&mut self.text, Vec::new(self.alloc));
        self.given = self.given.with(&Passing {
            bytes: text.as_slice(),
        });
        self.ended = true;
        Some(text)
    }
}
