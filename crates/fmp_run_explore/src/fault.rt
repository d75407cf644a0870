//! Why a run through all orders did not go to its end.
ghost use Rattle.std.specs.Prelude.{◌≡◌};
ghost use Rattle.fmp_run_explore.specs.declared.fault.ExploreFault.TheVariants.{Run};
ghost use Rattle.fmp_run_texts.specs.declared.fault.RunFault.TheVariants.{Memory};
ghost use Rattle.fmp_run_explore.specs.Faults as faults;

use fmp_run_texts::{RunFault, Status};
use fmp_search_question::QuestionFault;
use std::alloc::AllocError;
use std::fmt;

/// Why a run did not go to its end.
#[derive(Drop)]
pub enum ExploreFault {
    /// A text has a fault, a device failed, or memory ran out.
    Run(RunFault),
    /// The first fault of the question, and the number of the byte, from 0, at which the word begins that has it, or of that after the
    /// last one.
    Question(QuestionFault, usize),
}

impl ExploreFault {
    ghost use Rattle.std.specs.Prelude.{◌≡◌};
    ghost use Rattle.fmp_run_explore.specs.Faults.{status_of};

    /// How the program ends after it.
    pub fn status(&self) -> Status
        ensures { result ≡ status_of self.now }
    {
        match self {
            ExploreFault::Run(fault) => fault.status(),
            ExploreFault::Question(..) => Status::Faulty,
        }
    }
}

/// The number and the words of a fault of a question.
fn words_of(fault: QuestionFault) -> &'static str
    ensures { result.now ≡ faults.words_of fault }
{
    match fault {
        QuestionFault::BadWord => "E1 bad byte",
        QuestionFault::BadForm => "E2 bad word",
        QuestionFault::UnknownName => "E3 unknown name",
        QuestionFault::TooLong => "E7 too many",
        QuestionFault::NoLine => "E9 no such line",
    }
}

/// The line that tells a fault of a question to a user: `fmpsim: --find: byte 5: E3 unknown name`, where bytes count from 1.
#[derive(Clone, Copy)]
pub struct QuestionLine {
    pub fault: QuestionFault,
    /// The number of the byte from 1.
    pub number: usize,
}

impl fmt::Display for QuestionLine {
    ghost use Rattle.std.specs.Prelude.{Some};
    ghost use Rattle.fmp_run_explore.specs.Faults.{question_line};

    ghost output = { λ line. Some (question_line line.fault line.number) };

    fn fmt<W: fmt::Write>(&self, f: &mut fmt::Formatter<W>) -> fmt::Result {
        let (number, words) = (self.number, words_of(self.fault));
        write!(f, "fmpsim: --find: byte {number}: {words}")
    }
}

impl From<RunFault> for ExploreFault {
    ghost from_gives = { λ error fault. fault ≡ Run error };

    fn from(error: RunFault) -> ExploreFault {
        ExploreFault::Run(error)
    }
}

impl From<AllocError> for ExploreFault {
    ghost from_gives = { λ _ fault. fault ≡ Run Memory };

    fn from(_error: AllocError) -> ExploreFault {
        ExploreFault::Run(RunFault::Memory)
    }
}
