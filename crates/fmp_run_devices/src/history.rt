//! What passed at a device, which only proofs read.
//!
//! Of a file or of standard output nobody knows the bytes beforehand. So a device over one keeps in mind what its calls handed over, and contracts speak of
//! that. Only proofs by hand can make a history: `proofs/history`. Each device ties its own to what is real: to the bytes that a reader or a writer has, for
//! every reader and writer.
ghost use Rattle.std.specs.Prelude.{◌≡◌, ℕ, List, [], ◌++◌};
ghost use Rattle.std.specs.Borrow.{ftrue};

use std::marker::Model;

/// The bytes that passed, in their order. It takes no memory, and its methods do nothing when the program runs.
#[derive(Drop)]
pub struct History {
    pub ghost bytes: { List ℕ },
}

impl Model for History {
    ghost also_owns = { λ _. ftrue };
}

/// Bytes that pass.
#[derive(Clone, Copy, Drop)]
pub struct Passing<'a> {
    pub bytes: &'a [u8],
}

impl History {
    /// Nothing passed yet.
    pub fn new() -> History
        ensures { result.bytes ≡ [] }
    {
        History {}
    }

    /// What passed before, and then these bytes.
    pub fn with(&self, _passing: &Passing<'_>) -> History
        ensures { result.bytes ≡ self.now.bytes ++ _passing.now.bytes.now }
    {
        History {}
    }
}
