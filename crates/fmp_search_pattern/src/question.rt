//! What a question is.
ghost use Rattle.std.specs.Prelude.{◌≡◌, take, IfOk};
ghost use Rattle.std.specs.Option.{option_copied};

use crate::items::Part;
use std::alloc::{AllocError, Global};
use std::marker::Model;

/// Bytes between two stars of a pattern.
#[derive(Drop)]
pub struct Piece {
    bytes: Vec<u8>,
}

impl Model for Piece {
    ghost use Rattle.std.specs.Prelude.{ℕ, List};

    ghost Value = { List ℕ };

    ghost view = { λ p. p.bytes.items };
}

impl Piece {
    /// The piece of these bytes. It may be empty, as between two stars in a row.
    pub fn new(bytes: Vec<u8>) -> Piece
        ensures { result ≡ bytes.items }
    {
        Piece { bytes }
    }

    /// The bytes that have to stand in a line, blanks among them.
    pub fn bytes(&self) -> &[u8]
        ensures { result.now ≡ self.now }
    {
        &self.bytes
    }

    /// A piece of the same bytes. The error is want of memory.
    fn copy(&self, alloc: Global) -> Result<Piece, AllocError>
        ensures { IfOk result (λ p. p ≡ self.now) }
    {
        Ok(Piece {
            bytes: Vec::from_slice(alloc, &self.bytes)?,
        })
    }
}

/// A pattern of a line: its pieces stand in the line one after the other.
#[derive(Drop)]
pub struct Pattern {
    pieces: Vec<Piece>,
}

impl Model for Pattern {
    ghost use Rattle.std.specs.Prelude.{ℕ, List};

    ghost Value = { List (List ℕ) };

    ghost view = { λ p. p.pieces.items };
}

impl Pattern {
    /// The pattern with these pieces between its stars.
    pub fn new(pieces: Vec<Piece>) -> Pattern
        ensures { result ≡ pieces.items }
    {
        Pattern { pieces }
    }

    /// The pieces, in the order in which they stand in a line.
    pub fn pieces(&self) -> &[Piece]
        ensures { result.now ≡ self.now }
    {
        &self.pieces
    }

    /// A pattern of the same pieces. The error is want of memory.
    pub fn copy(&self, alloc: Global) -> Result<Pattern, AllocError>
        ensures { IfOk result (λ p. p ≡ self.now) }
    {
        let mut pieces = Vec::new(alloc);
        for piece in self.pieces.iter() {
            pieces.push(piece.copy(alloc)?)?;
        }
        Ok(Pattern { pieces })
    }
}

/// A moment: one of its parts is there.
#[derive(Drop)]
pub struct Moment {
    parts: Vec<Part>,
}

impl Model for Moment {
    ghost use Rattle.std.specs.Prelude.{List};
    ghost use Rattle.fmp_search_pattern.specs.Items as spec;

    ghost Value = { List (List spec.Item) };

    ghost view = { λ m. m.parts.items };
}

impl Moment {
    /// The moment at which one of these parts is there.
    pub fn new(parts: Vec<Part>) -> Moment
        ensures { result ≡ parts.items }
    {
        Moment { parts }
    }

    /// The parts, of which one has to be there.
    pub fn parts(&self) -> &[Part]
        ensures { result.now ≡ self.now }
    {
        &self.parts
    }

    /// A moment of the same parts. The error is want of memory.
    fn copy(&self, alloc: Global) -> Result<Moment, AllocError>
        ensures { IfOk result (λ m. m ≡ self.now) }
    {
        let mut parts = Vec::new(alloc);
        for part in self.parts.iter() {
            parts.push(part.copy(alloc)?)?;
        }
        Ok(Moment { parts })
    }
}

/// A step of a question: a moment that is waited for, and one that must not come before it.
#[derive(Drop)]
pub struct Step {
    pub moment: Moment,
    pub without: Option<Moment>,
}

/// A copy of a moment, and none of none. The error is want of memory.
fn copied(alloc: Global, moment: Option<&Moment>) -> Result<Option<Moment>, AllocError>
    ensures { IfOk result (λ o. o ≡ option_copied moment.entry) }
{
    match moment {
        None => Ok(None),
        Some(moment) => Ok(Some(moment.copy(alloc)?)),
    }
}

impl Step {
    /// The same step once more.
    pub fn copy(&self, alloc: Global) -> Result<Step, AllocError>
        ensures { IfOk result (λ s. s ≡ self.now) }
    {
        Ok(Step {
            moment: self.moment.copy(alloc)?,
            without: copied(alloc, self.without.as_ref())?,
        })
    }
}

/// A question: steps whose moments come one after the other.
#[derive(Drop)]
pub struct Question {
    steps: Vec<Step>,
}

impl Model for Question {
    ghost use Rattle.std.specs.Prelude.{List};
    ghost use Rattle.fmp_search_pattern.specs.declared.question.Step as question;

    ghost Value = { List question.Step };

    ghost view = { λ q. q.steps.items };
}

impl Question {
    /// The question with these steps, the first step first.
    pub fn new(steps: Vec<Step>) -> Question
        ensures { result ≡ steps.items }
    {
        Question { steps }
    }

    /// The steps, in the order in which their moments are to come.
    pub fn steps(&self) -> &[Step]
        ensures { result.now ≡ self.now }
    {
        &self.steps
    }

    /// The question of the first steps, so many of them, or of all where it has fewer. The error is want of memory.
    pub fn first(&self, alloc: Global, count: usize) -> Result<Question, AllocError>
        ensures { IfOk result (λ q. q ≡ take count self.now) }
    {
        let first = self.steps.get(..count).unwrap_or(&self.steps);
        let mut steps = Vec::new(alloc);
        for step in first {
            steps.push(step.copy(alloc)?)?;
        }
        Ok(Question { steps })
    }
}
