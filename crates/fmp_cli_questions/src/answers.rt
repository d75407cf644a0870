//! The answer to a question, and whether it is the one that is expected.
ghost use Rattle.std.specs.Prelude.{◌≡◌};
ghost use Rattle.fmp_cli_questions.specs.Answers as spec;

use crate::rows::{Expected, Row};

/// What a search has found.
#[derive(Clone, Copy)]
pub enum Answer {
    /// No order shows it.
    Never,
    /// Some order does, in so many lines.
    Shown(usize),
    /// None of at most so many lines does.
    NotWithin(u32),
}

/// Whether an answer is the one that is expected.
#[derive(Clone, Copy)]
pub enum Judgement {
    /// It is.
    Right,
    /// It is the other one.
    Wrong,
    /// That is not known.
    Unknown,
}

impl Judgement {
    ghost use Rattle.std.specs.Prelude.{◌≡◌};
    ghost use Rattle.fmp_cli_questions.specs.Answers.{is_same};

    /// Whether two are the same.
    fn is_same(self, other: Judgement) -> bool
        ensures { result ≡ is_same self other }
    {
        matches!(
            (self, other),
            (Judgement::Right, Judgement::Right)
                | (Judgement::Wrong, Judgement::Wrong)
                | (Judgement::Unknown, Judgement::Unknown)
        )
    }
}

/// A question with its answer.
#[derive(Drop)]
pub struct Reply {
    pub row: Row,
    pub answer: Answer,
    /// How many thousandths of a second its search took.
    pub thousandths: u64,
}

/// Whether an answer is the one that is expected.
fn judged(expected: Expected, answer: Answer) -> Judgement
    ensures { result ≡ spec.judged expected answer }
{
    match (expected, answer) {
        (Expected::Never, Answer::Never) | (Expected::Shown, Answer::Shown(_)) => Judgement::Right,
        (Expected::Never, Answer::Shown(_)) | (Expected::Shown, Answer::Never) => Judgement::Wrong,
        (_, Answer::NotWithin(_)) => Judgement::Unknown,
    }
}

impl Reply {
    ghost use Rattle.std.specs.Prelude.{◌≡◌};
    ghost use Rattle.fmp_cli_questions.specs.Answers.{judgement};

    /// Whether its answer is the one that is expected.
    pub fn judgement(&self) -> Judgement
        ensures { result ≡ judgement self.now }
    {
        judged(self.row.expected(), self.answer)
    }
}

/// How many replies are judged so.
pub(crate) fn count_of(judgement: Judgement, replies: &[Reply]) -> usize
    ensures { result ≡ spec.count_of judgement replies.now }
{
    let mut count: usize = 0;
    for reply in replies {
        if judgement.is_same(reply.judgement()) {
            count += 1;
        }
    }
    count
}

/// Whether all answers are as expected: wrong where one is, else unknown where one is.
pub fn judgement_of(replies: &[Reply]) -> Judgement
    ensures { result ≡ spec.judgement_of replies.now }
{
    if 0 < count_of(Judgement::Wrong, replies) {
        Judgement::Wrong
    } else if 0 < count_of(Judgement::Unknown, replies) {
        Judgement::Unknown
    } else {
        Judgement::Right
    }
}
