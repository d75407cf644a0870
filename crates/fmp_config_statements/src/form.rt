//! A statement whose tokens are being read.
ghost use Rattle.std.specs.Prelude.{◌≡◌, ◌≤◌, ◌<◌, ◌+◌, ◌^◌, true};
ghost use Rattle.fmp_config_statements.specs.Forms as spec;
ghost use Rattle.fmp_config_statements.specs.Outcomes.{Leads};
ghost use Rattle.fmp_config_statements.specs.Parts.{depth_of};

use crate::Token;
use crate::fault::{ConfigKind, Fault, ReadError};
use crate::parts::{Part, Scan};
use crate::pieces::Pieces;
use crate::table::StatementName;
use crate::word::Word;
use std::alloc::Global;
use std::marker::Model;

/// A statement whose tokens are being read: its name, the line of its first word, and what was read and has to follow.
#[derive(Drop)]
pub struct Form<'a> {
    name: StatementName,
    line: u32,
    scan: Scan,
    rest: &'static [Part],
    pieces: Pieces<'a>,
}

impl<'a> Model for Form<'a> {
    ghost use Rattle.fmp_config_statements.specs.Forms.{Form as Begun};

    ghost Value = { Begun };

    ghost view = { λ f. record { name = f.name; line = f.line; scan = f.scan; rest = f.rest.now; pieces = f.pieces } };
}

impl<'a> Form<'a> {
    ghost use Rattle.std.specs.Prelude.{◌≡◌, ◌≤◌, ◌<◌, ◌+◌, ◌^◌, Ok, OnOk};
    ghost use Rattle.fmp_config_statements.specs.Forms as spec;
    ghost use Rattle.fmp_config_statements.specs.Outcomes.{Leads};
    ghost use Rattle.fmp_config_statements.specs.Parts.{depth_of, next_of};
    ghost use Rattle.fmp_config_statements.specs.Words.{word_of};

    /// A statement of this name, whose first word stands in this line.
    pub fn begun(alloc: Global, name: StatementName, line: u32) -> Self
        ensures { result ≡ spec.begun name line }
    {
        Form {
            name,
            line,
            scan: Scan::Nothing,
            rest: name.parts(),
            pieces: Pieces::none(alloc),
        }
    }

    /// The statement's name.
    pub fn name(&self) -> StatementName
        ensures { result ≡ self.now.name }
    {
        self.name
    }

    /// The line of its first word.
    pub fn line(&self) -> u32
        ensures { result ≡ self.now.line }
    {
        self.line
    }

    /// Its words.
    pub fn pieces(&self) -> &Pieces<'a>
        ensures { result.now ≡ self.now.pieces }
    {
        &self.pieces
    }

    /// Whether nothing more has to follow.
    #[tactic(auto, unfolding(crate::specs::Forms::is_complete))]
    pub fn is_complete(&self) -> bool
        ensures { result ≡ spec.is_complete self.now }
    {
        self.rest.is_empty() && matches!(self.scan, Scan::Nothing)
    }

    /// Goes on from one place of a part to another with a token.
    fn advance(&mut self, from: Scan, to: Scan, token: &Token<'a>) -> Result<(), ReadError<'a>>
        ensures { Leads result self.new (Ok (spec.advanced self.old from to token.now)) }
    {
        self.pieces.keep_from(from, Word::of(token))?;
        self.scan = to;
        Ok(())
    }

    /// Reads a token of the next part.
    #[tactic(auto, unfolding(crate::specs::Forms::next_part))]
    fn enter(&mut self, token: &Token<'a>) -> Result<(), ReadError<'a>>
        ensures exact { Leads result self.new (spec.next_part self.old self.old.rest token.now) }
        ensures depth { OnOk result (depth_of self.new.scan ≤ 1) }
    {
        let [part, rest @ ..] = self.rest else {
            return Err(Fault::at(ConfigKind::Syntax, &Word::of(token)).into());
        };
        let scan = Scan::of(*part);
        let Some(next) = scan.next(token) else {
            return Err(Fault::at(ConfigKind::Syntax, &Word::of(token)).into());
        };
        self.rest = rest;
        self.advance(scan, next, token)
    }

    /// Reads a token.
    #[tactic(auto, unfolding(crate::specs::Forms::form_step))]
    pub fn take(&mut self, token: &Token<'a>) -> Result<(), ReadError<'a>>
        requires { depth_of self.old.scan + 1 < 2 ^ 64 }
        ensures exact { Leads result self.new (spec.form_step self.old token.now) }
        ensures depth { OnOk result (depth_of self.new.scan ≤ depth_of self.old.scan + 1) }
    {
        let scan = self.scan;
        if let Some(next) = scan.next(token) {
            return self.advance(scan, next, token);
        }
        if !scan.may_end() {
            return Err(Fault::at(ConfigKind::Syntax, &Word::of(token)).into());
        }
        self.enter(token)
    }
}
