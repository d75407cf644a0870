//! The records of a history, made again.
ghost use Rattle.std.specs.Prelude.{◌≡◌, ◌∷◌, MatchBool, IsTrue, [], ◌≤◌, ◌+◌, length};
ghost use Rattle.fmp_world.specs.Moves as moves;

use crate::history::{History, Move};
use fmp_codes::Record;
use std::marker::Model;

/// The records of a history, one after the other: a second kernel answers the events of its moves again.
#[derive(Drop)]
pub struct Replay<'h, 'a> {
    left: &'h [Move],
    again: History<'a>,
}

impl<'h, 'a> Model for Replay<'h, 'a> {
    ghost use Rattle.std.specs.Prelude.{◌≤◌, ◌+◌, List, length};
    ghost use Rattle.fmp_codes.specs.declared.records.Record.{Record};
    ghost use Rattle.fmp_world.specs.Moves.{added_by, AreMade};

    ghost Value = { List Record };

    ghost view = { λ r. added_by r.again.config r.again.scripts r.again.records r.left.now };

    ghost invariant = { λ r.
        AreMade r.again.config r.again.scripts r.again.records r.left.now × (length r.again.records + length r.left.now ≤ r.again.turns) };
}

impl<'h, 'a> Replay<'h, 'a> {
    /// The records that moves make after a history.
    pub(crate) fn new(left: &'h [Move], again: History<'a>) -> Replay<'h, 'a>
        requires made { moves.AreMade again.config again.scripts again.records left.now }
        requires room { length again.records + length left.now ≤ again.turns }
        ensures { result ≡ moves.added_by again.entry.config again.entry.scripts again.entry.records left.entry.now }
    {
        Replay { left, again }
    }

    /// Tells the next record, or says that none is left; then what was told stays.
    pub fn next(&mut self, report: &mut Record) -> bool
        ensures { MatchBool result (self.old ≡ report.new ∷ self.new) ((self.old ≡ []) × (self.new ≡ []) × (report.new ≡ report.old)) }
    {
        let Some((by, later)) = self.left.split_first() else {
            return false;
        };
        self.again.play(*by, report);
        self.left = later;
        true
    }
}
