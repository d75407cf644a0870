//! Reading a configuration token by token.
ghost use Rattle.std.specs.Prelude.{◌≡◌, ◌≤◌, ◌<◌, ◌+◌, ◌^◌, OnOk};
ghost use Rattle.fmp_config.specs.Drafted.{draft_of};
ghost use Rattle.fmp_config.specs.Reading as spec;
ghost use Rattle.fmp_config.specs.Sound.{IsSound};

use crate::draft::Draft;
use fmp_config_statements::{
    ConfigKind, Directive, End, Fault, Form, ReadError, StatementName, Token, TokenKind, Word,
    find_statement, is_mark,
};
use fmp_setup::Config;
use std::alloc::{AllocError, Global};
use std::mem;

/// What was read of a text, and the statement and the directive whose tokens follow.
#[derive(Drop)]
pub struct Reader<'a> {
    alloc: Global,
    draft: Draft,
    form: Form<'a>,
    /// The tokens of a statement follow.
    in_form: bool,
    directive: Directive<'a>,
}

/// The statement that begins with a token, or its fault.
#[tactic(auto, unfolding(crate::specs::Reading::statement_at))]
fn statement_at<'a>(token: &Token<'a>) -> Result<StatementName, Fault<'a>>
    ensures { result ≡ spec.statement_at token.now }
{
    if !matches!(token.kind(), TokenKind::Identifier) {
        return Err(Fault::at(ConfigKind::Syntax, &Word::of(token)));
    }
    find_statement(token.text()).ok_or(Fault::at(ConfigKind::Unsupported, &Word::of(token)))
}

/// A statement that may stand where it stands, or its fault.
#[tactic(auto, unfolding(crate::specs::Reading::placed))]
fn placed<'a>(
    draft: &Draft,
    token: &Token<'a>,
    name: StatementName,
) -> Result<StatementName, Fault<'a>>
    ensures { result ≡ spec.placed (draft_of draft.now) token.now name }
{
    match draft.place_fault(name) {
        Some(kind) => Err(Fault::at(kind, &Word::of(token))),
        None => Ok(name),
    }
}

/// Whether the token is a `}` while a class is open.
#[tactic(auto, unfolding(crate::specs::Reading::ends_class))]
fn ends_class(draft: &Draft, token: &Token<'_>) -> bool
    ensures { result ≡ spec.ends_class (draft_of draft.now) token.now }
{
    draft.open_class.is_some() && is_mark(b'}', token)
}

impl<'a> Reader<'a> {
    ghost use Rattle.std.specs.Prelude.{◌≡◌, ◌≤◌, ◌<◌, ◌+◌, ◌^◌, true, None, OnOk, IfOk};
    ghost use Rattle.fmp_config.specs.Reading as spec;
    ghost use Rattle.fmp_config.specs.Reading.{depth_in};
    ghost use Rattle.fmp_config.specs.Readers.{state_of};
    ghost use Rattle.fmp_config.specs.Sound.{IsSound, IsSoundDirective, IsSoundState, IsWhole};
    ghost use Rattle.fmp_config.specs.Drafted.{draft_of};
    ghost use Rattle.fmp_config_statements.specs.Forms.{is_complete};
    ghost use Rattle.fmp_config_statements.specs.Named.{IsPromised};
    ghost use Rattle.fmp_config_statements.specs.Parts.{depth_of};
    ghost use Rattle.fmp_config_statements.specs.Outcomes.{Leads, Gives};

    /// Nothing was read. The error is want of memory.
    pub fn new(alloc: Global) -> Result<Self, AllocError>
        ensures { IfOk result (λ r. state_of r ≡ spec.at_start) }
    {
        Ok(Reader {
            alloc,
            draft: Draft::blank(alloc)?,
            form: Form::begun(alloc, StatementName::Include, 0),
            in_form: false,
            directive: Directive::Outside,
        })
    }

    /// Reads a token between statements.
    #[tactic(auto, unfolding(crate::specs::Reading::first_token))]
    fn first_token(&mut self, token: &Token<'a>) -> Result<(), ReadError<'a>>
        requires { (state_of self.old).form ≡ None }
        ensures exact { Leads result (state_of self.new) (spec.first_token (state_of self.old) token.now) }
        ensures depth { OnOk result (depth_in (state_of self.new) ≤ 0) }
    {
        if ends_class(&self.draft, token) {
            self.draft.open_class = None;
            return Ok(());
        }
        let name = placed(&self.draft, token, statement_at(token)?)?;
        self.form = Form::begun(self.alloc, name, token.line());
        self.in_form = true;
        Ok(())
    }

    /// Takes in what a statement says, once it is whole.
    #[tactic(auto, unfolding(crate::specs::Reading::form_read))]
    fn form_read(&mut self) -> Result<(), ReadError<'a>>
        requires there { self.old.in_form ≡ true }
        requires sound { IsSound (draft_of self.old.draft) }
        requires whole { is_complete self.old.form ≡ true → IsWhole self.old.form }
        ensures exact { Leads result (state_of self.new) (spec.form_read (state_of self.old) self.old.form) }
        ensures depth { OnOk result (depth_in (state_of self.new) ≤ depth_in (state_of self.old)) }
    {
        if self.form.is_complete() {
            self.draft.judge(&self.form)?;
            self.in_form = false;
        }
        Ok(())
    }

    /// Reads a token of a statement.
    #[tactic(auto, unfolding(crate::specs::Reading::form_token))]
    fn form_token(&mut self, token: &Token<'a>) -> Result<(), ReadError<'a>>
        requires there { self.old.in_form ≡ true }
        requires sound { IsSound (draft_of self.old.draft) }
        requires promised { IsPromised self.old.form }
        requires depth { depth_of self.old.form.scan + 1 < 2 ^ 64 }
        ensures exact { Leads result (state_of self.new) (spec.form_token (state_of self.old) self.old.form token.now) }
        ensures depth { OnOk result (depth_in (state_of self.new) ≤ depth_of self.old.form.scan + 1) }
    {
        self.form.take(token)?;
        self.form_read()
    }

    /// Reads a token outside directives.
    #[tactic(auto, unfolding(crate::specs::Reading::code_token))]
    fn code_token(&mut self, token: &Token<'a>) -> Result<(), ReadError<'a>>
        requires sound { IsSoundState (state_of self.old) }
        requires depth { depth_in (state_of self.old) + 1 < 2 ^ 64 }
        ensures exact { Leads result (state_of self.new) (spec.code_token (state_of self.old) token.now) }
        ensures depth { OnOk result (depth_in (state_of self.new) ≤ depth_in (state_of self.old) + 1) }
    {
        if matches!(token.kind(), TokenKind::Directive) {
            self.directive = Directive::Marked(token.line());
            Ok(())
        } else if self.in_form {
            self.form_token(token)
        } else {
            self.first_token(token)
        }
    }

    /// Reads a token of a directive.
    #[tactic(auto, unfolding(crate::specs::Reading::directive_token))]
    fn directive_token(&mut self, token: &Token<'a>) -> Result<(), ReadError<'a>>
        requires sound { IsSoundDirective self.old.directive }
        ensures exact { Leads result (state_of self.new) (spec.directive_token (state_of self.old) self.old.directive token.now) }
        ensures depth { OnOk result (depth_in (state_of self.new) ≤ depth_in (state_of self.old)) }
    {
        let directive = mem::replace(&mut self.directive, Directive::Outside);
        if matches!(token.kind(), TokenKind::DirectiveEnd) {
            return self.draft.end_directive(&directive);
        }
        self.directive = directive.next(token)?;
        Ok(())
    }

    /// Reads a token.
    #[tactic(auto, unfolding(crate::specs::Reading::take_token))]
    pub fn take(&mut self, token: &Token<'a>) -> Result<(), ReadError<'a>>
        requires sound { IsSoundState (state_of self.old) }
        requires depth { depth_in (state_of self.old) + 1 < 2 ^ 64 }
        ensures exact { Leads result (state_of self.new) (spec.take_token (state_of self.old) token.now) }
        ensures depth { OnOk result (depth_in (state_of self.new) ≤ depth_in (state_of self.old) + 1) }
    {
        match self.directive {
            Directive::Outside => self.code_token(token),
            _ => self.directive_token(token),
        }
    }

    /// The configuration of what was read, where the tokens end so, or the fault.
    #[tactic(auto, unfolding(crate::specs::Reading::finished, crate::specs::Reading::closed))]
    pub fn finish(self, end: End) -> Result<Config, ReadError<'a>>
        requires sound { IsSound (draft_of self.draft) }
        ensures { Gives result (spec.finished (state_of self.entry) end) }
    {
        match end {
            End::Bad(line) => return Err(Fault::of_line(ConfigKind::Syntax, line).into()),
            End::CutShort(line) => return Err(Fault::of_line(ConfigKind::CutShort, line).into()),
            End::Done => {}
        }
        if self.in_form {
            return Err(Fault::of_line(ConfigKind::CutShort, self.form.line()).into());
        }
        Ok(closed(self.draft)?)
    }
}

/// The configuration, where no class is open and the number of processors stood, or the fault.
#[tactic(auto, unfolding(crate::specs::Reading::closed))]
fn closed<'a>(draft: Draft) -> Result<Config, Fault<'a>>
    requires sound { IsSound (draft_of draft) }
    ensures { result ≡ spec.closed (draft_of draft) }
{
    if let Some(open) = draft.open_class {
        return Err(Fault::of_line(ConfigKind::CutShort, open.line));
    }
    if draft.is_at_start() {
        return Err(Fault::of_line(ConfigKind::NoProcessors, 1));
    }
    Ok(Config::of(draft.parts.into_parts()))
}
