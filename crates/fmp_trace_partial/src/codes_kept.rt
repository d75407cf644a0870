//! How much of an answer, and of each code with its value, a line writes.
ghost use Rattle.std.specs.Prelude.{◌≡◌, ◌<◌, ◌≤◌, ◌↔◌, [], ◌∷◌, ◌++◌, length, slice_get, IsTrue};

use arrayvec::ArrayVec;
use std::marker::Model;

/// How much of a code with its value a line writes.
#[derive(Clone, Copy)]
pub enum CodeKept {
    /// The code, and its value if it has one: `E_OK:5`, or `E_OK`.
    Whole,
    /// The code, and neither its value nor whether it has one: `E_OK:*`.
    NoValue,
    /// Neither of them: `*`.
    Nothing,
}

impl Default for CodeKept {
    fn default() -> Self {
        CodeKept::Whole
    }
}

/// How much of an answer a line writes.
#[derive(Clone, Copy)]
pub enum AnswerKept {
    /// All of it.
    Whole,
    /// The code that a call returned, and neither its value nor whether it has one: `E_OK:*`. An answer that is a word is written whole.
    NoValue,
    /// That the event took effect, and not what was answered: `?`.
    Happened,
    /// That the event began, and not its end: `open`. It took effect, or did not.
    Open,
}

/// How much is written of each code of a list, in order: of at most 64 of them.
#[derive(Drop)]
pub struct CodesKept {
    items: ArrayVec<CodeKept, 64>,
}

impl Model for CodesKept {
    ghost use Rattle.std.specs.Prelude.{List};
    ghost use Rattle.fmp_trace_partial.specs.declared.codes_kept.CodeKept.{CodeKept as AnyKept};

    ghost Value = { List AnyKept };

    ghost view = { λ a. a.items.items };
}

impl CodesKept {
    /// No code.
    pub fn new() -> Self
        ensures { result ≡ [] }
    {
        CodesKept {
            items: ArrayVec::new(),
        }
    }

    /// Adds how much is written of the next code.
    pub fn push(&mut self, kept: CodeKept)
        requires { length self.old < 64 }
        ensures { self.new ≡ self.old ++ kept ∷ [] }
    {
        self.items.push(kept);
    }

    /// How many codes there are.
    pub fn len(&self) -> usize
        ensures value { result ≡ length self.now }
        ensures few { result ≤ 64 }
    {
        self.items.len()
    }

    /// Whether there is none.
    pub fn is_empty(&self) -> bool
        ensures { IsTrue result ↔ (self.now ≡ []) }
    {
        self.items.is_empty()
    }

    /// How much is written of the code at a place, counted from 0.
    pub fn get(&self, at: usize) -> Option<CodeKept>
        ensures { result ≡ slice_get self.now at }
    {
        self.items.as_slice().get(at).copied()
    }
}
