//! Short names as pieces of 16 bytes, so that printing one is one store.
ghost use Rattle.std.specs.Prelude.{◌≡◌, ◌<◌, ◌+◌, ◌*◌, [], slice_get, IfSome, Some};
ghost use Rattle.fmp_names.specs.Pieces as spec;

use std::alloc::{AllocError, Global};

/// How many kinds of objects there are.
const KINDS: usize = 8;

/// How many pieces each kind has: one for each number, and no kind has more than 64 objects.
const NUMBERS: usize = 128;

/// A text of at most 16 bytes, which stands at the front of `bytes`. A length of 0 stands for no text, or for a longer one.
#[derive(Clone, Copy)]
pub struct Piece {
    pub bytes: [u8; 16],
    pub length: usize,
}

/// The names of objects that are short, by kind and number.
#[derive(Drop)]
pub struct Pieces {
    /// For each kind a piece for each number. Nothing before the first name is added.
    pieces: Vec<Piece>,
}

/// The piece of a text.
fn piece_of(text: &[u8]) -> Piece
    ensures { spec.IsPieceOf result text.now }
{
    let mut bytes = *b"                ";
    let length = text.len();
    if 16 < length {
        return Piece { bytes, length: 0 };
    }
    bytes[..length].copy_from_slice(text);
    Piece { bytes, length }
}

impl Pieces {
    /// No names yet. It takes no memory.
    pub fn new(alloc: Global) -> Pieces
        ensures { result.pieces.items ≡ [] }
    {
        Pieces {
            pieces: Vec::new(alloc),
        }
    }

    /// Takes the memory for all pieces, if it has none yet.
    pub fn prepare(&mut self) -> Result<(), AllocError>
        ensures { spec.AreExtended self.old.pieces.items self.new.pieces.items }
    {
        let none = Piece {
            bytes: *b"                ",
            length: 0,
        };
        if self.pieces.is_empty() {
            self.pieces.resize(KINDS * NUMBERS, none)?;
        }
        Ok(())
    }

    /// Keeps the piece of the name of an object, where it took memory.
    pub fn set(&mut self, place: usize, number: usize, name: &[u8])
        requires place { place < 8 }
        requires number { number < 128 }
        ensures { spec.IsPieceSet self.old.pieces.items (place * 128 + number) name.now self.new.pieces.items }
    {
        if let Some(piece) = self.pieces.get_mut(place * NUMBERS + number) {
            *piece = piece_of(name);
        }
    }

    /// The piece of the name of an object, where it is short and was added.
    #[inline(always)]
    pub fn get(&self, place: usize, number: usize) -> Option<&Piece>
        requires place { place < 8 }
        requires number { number < 128 }
        ensures { IfSome result (λ p. (slice_get self.now.pieces.items (place * 128 + number) ≡ Some p.now) × (0 < p.now.length)) }
    {
        let piece = self.pieces.get(place * NUMBERS + number)?;
        if piece.length == 0 {
            return None;
        }
        Some(piece)
    }
}
