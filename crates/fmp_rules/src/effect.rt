//! What a call does besides changing the state.
ghost use Rattle.std.specs.Prelude.{◌≡◌, [], ◌∷◌, ◌++◌};
ghost use Rattle.fmp_rules.specs.Effects.{TellsOnce};
ghost use Rattle.fmp_rules.specs.Telling.{given, answer_of, report_with};
ghost use Rattle.fmp_rules.specs.Rows.{plain, done, with_value};

use fmp_codes::{Answer, Code, Record, Release, Task};
use std::marker::Model;

/// Which answer it is, without what a call returned.
#[derive(Clone, Copy)]
enum Kind {
    Done,
    Wait,
    Spin,
    Gone,
    Idle,
    Held,
    Taken,
    Nothing,
}

/// What a call did besides changing the state: its answer, the wait that it ended, and a value that it overwrote. Contracts see
/// the wait that ended as a list. Each call hands one up, so it is kept small: what may be absent has a mark, and the marks
/// stand together.
#[derive(Drop)]
pub struct Effect {
    kind: Kind,
    code: Code,
    has_value: bool,
    ended: Option<Task>,
    ended_code: Code,
    ended_has_value: bool,
    has_lost: bool,
    value: i64,
    ended_value: i64,
    lost: i64,
}

impl Model for Effect {
    ghost use Rattle.fmp_rules.specs.Effects.{Effect as AnyEffect};
    ghost use Rattle.fmp_rules.specs.Telling.{given, answer_of, ended as ended_by};

    ghost Value = { AnyEffect };

    ghost view = { λ a. record {
      answer = answer_of a.kind a.code (given a.has_value a.value);
      releases = ended_by a.ended a.ended_code (given a.ended_has_value a.ended_value);
      lost = given a.has_lost a.lost;
    } };
}

impl Effect {
    /// Only an answer.
    #[inline(always)]
    pub fn answer(answer: Answer) -> Self
        ensures { result ≡ plain answer }
    {
        let (kind, code, value) = parts_of(answer);
        Effect {
            kind,
            code,
            has_value: value.is_some(),
            ended: None,
            ended_code: Code::Accepted,
            ended_has_value: false,
            has_lost: false,
            value: value.unwrap_or(0),
            ended_value: 0,
            lost: 0,
        }
    }

    /// An accepted call.
    #[inline(always)]
    pub fn done() -> Self
        ensures { result ≡ done }
    {
        Effect::answer(Answer::Done(Code::Accepted, None))
    }

    /// An accepted call with a value.
    #[inline(always)]
    pub fn value(value: i64) -> Self
        ensures { result ≡ with_value value }
    {
        Effect::answer(Answer::Done(Code::Accepted, Some(value)))
    }

    /// An accepted call that ended the wait of a task with a code and perhaps a value.
    #[inline(always)]
    pub fn releasing(task: Task, code: Code, value: Option<i64>) -> Self
        ensures { result ≡ record done { releases = record { task = task; code = code; value = value } ∷ [] } }
    {
        Effect {
            ended: Some(task),
            ended_code: code,
            ended_has_value: value.is_some(),
            ended_value: value.unwrap_or(0),
            ..Effect::done()
        }
    }

    /// The same with this answer.
    #[inline(always)]
    pub fn answering(self, answer: Answer) -> Self
        ensures { result ≡ record self { answer = answer } }
    {
        let (kind, code, value) = parts_of(answer);
        Effect {
            kind,
            code,
            has_value: value.is_some(),
            value: value.unwrap_or(0),
            ..self
        }
    }

    /// The same with a value that was overwritten.
    #[inline(always)]
    pub fn losing(self, lost: Option<i64>) -> Self
        ensures { result ≡ record self { lost = lost } }
    {
        Effect {
            has_lost: lost.is_some(),
            lost: lost.unwrap_or(0),
            ..self
        }
    }

    /// Makes the record of an event tell it. The waits that the event ended are told by the record already or by this, and not
    /// by both.
    #[inline(always)]
    pub fn tell(self, report: &mut Record)
        requires { TellsOnce report.old.releases self }
        ensures { report.new ≡ report_with report.old self }
    {
        if let Some(task) = self.ended {
            report.releases.push(Release {
                task,
                code: self.ended_code,
                value: given(self.ended_has_value, self.ended_value),
            });
        }
        report.answer = answer_of(self.kind, self.code, given(self.has_value, self.value));
        report.lost = given(self.has_lost, self.lost);
    }
}

/// The value, where there is one.
#[inline(always)]
fn given(is_given: bool, value: i64) -> Option<i64>
    ensures { result ≡ given is_given value }
{
    if is_given { Some(value) } else { None }
}

/// The parts of an answer: which it is, and what a call returned.
#[inline(always)]
fn parts_of(answer: Answer) -> (Kind, Code, Option<i64>)
    ensures { answer_of result.0 result.1 result.2 ≡ answer }
{
    match answer {
        Answer::Done(code, value) => (Kind::Done, code, value),
        Answer::Wait => (Kind::Wait, Code::Accepted, None),
        Answer::Spin => (Kind::Spin, Code::Accepted, None),
        Answer::Gone => (Kind::Gone, Code::Accepted, None),
        Answer::Idle => (Kind::Idle, Code::Accepted, None),
        Answer::Held => (Kind::Held, Code::Accepted, None),
        Answer::Taken => (Kind::Taken, Code::Accepted, None),
        Answer::Nothing => (Kind::Nothing, Code::Accepted, None),
    }
}

/// The answer of these parts.
#[inline(always)]
fn answer_of(kind: Kind, code: Code, value: Option<i64>) -> Answer
    ensures { result ≡ answer_of kind code value }
{
    match kind {
        Kind::Done => Answer::Done(code, value),
        Kind::Wait => Answer::Wait,
        Kind::Spin => Answer::Spin,
        Kind::Gone => Answer::Gone,
        Kind::Idle => Answer::Idle,
        Kind::Held => Answer::Held,
        Kind::Taken => Answer::Taken,
        Kind::Nothing => Answer::Nothing,
    }
}
