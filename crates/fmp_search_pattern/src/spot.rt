//! Where in the line of a record a word stands, and which words may stand before it.
ghost use Rattle.std.specs.Prelude.{◌≡◌, ◌==◌};
ghost use Rattle.std.specs.List.{list_any};
ghost use Rattle.fmp_search_pattern.specs.Spots as spec;

use Spot::*;

/// Where in the line of a record a word stands.
#[derive(Clone, Copy)]
pub enum Spot {
    /// Nothing: a pattern begins.
    Front,
    /// A word that may be anywhere: it has a star, or is a name that is also a word of a record.
    Anything,
    /// A number alone, which stands before `times` and in no line.
    Number,
    /// `refused`, which is a pattern by itself.
    Whole,
    /// `P1`.
    Processor,
    /// `-`, where nobody runs.
    Nobody,
    /// The name of a task.
    Task,
    /// The name of an alarm or a cyclic handler.
    Handler,
    /// The name of an object that neither runs nor handles. It is a word of no record, but words of a state may follow it.
    Object,
    /// Words that ask for facts.
    Fact,
    /// `tick` or `ipi`.
    Timer,
    /// `ret_hdr`.
    Return,
    /// A call whose arguments go on, and which tells no value where it is accepted.
    Begun,
    /// The same of some call, which may tell one.
    BegunSome,
    /// The same of one that tells one.
    BegunReported,
    /// A call with all its arguments, and which tells no value where it is accepted.
    Called,
    /// The same of some call, which may tell one.
    CalledSome,
    /// The same of one that tells one.
    CalledReported,
    /// An argument with a comma after it.
    Argument,
    /// The last one of several arguments.
    LastArgument,
    /// `taken`, `held` or `none`.
    Taken,
    /// `E_OK`.
    Accepted,
    /// `E_OK` with a value.
    Report,
    /// Another answer to a call.
    Answer,
    /// ` rel=`.
    Release,
    /// ` lost=`.
    Lost,
    /// ` run=` and a task.
    Run,
    /// ` run=idle`, where no task runs after an event.
    RunIdle,
    /// ` ipi=`.
    Requests,
}

impl Spot {
    ghost use Rattle.std.specs.Prelude.{◌≡◌};
    ghost use Rattle.fmp_search_pattern.specs.Spots as spec;

    /// A number of its own for each.
    fn number(self) -> u8
        ensures { result ≡ spec.number self }
    {
        self as u8
    }

    /// What may stand right before a word of a record, but for `Front` and `Anything`, which may stand before each.
    fn before(self) -> &'static [Spot]
        ensures { result.now ≡ spec.before self }
    {
        match self {
            Nobody | Task | Handler => &[Processor],
            Timer | Return | Begun | BegunReported | Called | CalledReported => &[
                Nobody, Task, Handler,
            ],
            Argument | LastArgument => &[Begun, BegunSome, BegunReported],
            Taken => &[Timer],
            Accepted => &[Return, Called, CalledSome],
            Report => &[CalledSome, CalledReported],
            Answer => &[Return, Called, CalledSome, CalledReported],
            Release | Lost => &[Taken, Accepted, Report, Answer, Release],
            Run => &[Processor, Taken, Accepted, Report, Answer, Release, Lost],
            RunIdle => &[Taken, Accepted, Report, Answer, Release, Lost],
            Requests => &[Taken, Accepted, Report, Answer, Release, Lost, Run, RunIdle],
            _ => &[],
        }
    }

    /// Whether a pattern may end with it: not with a number, nor with the name of an object that is a word of no record.
    pub fn may_end(self) -> bool
        ensures { result ≡ spec.may_end self }
    {
        !matches!(self, Number | Object)
    }

    /// Whether this is one of some.
    fn is_among(self, spots: &[Spot]) -> bool
        ensures { result ≡ list_any (λ s. spec.number s == spec.number self) spots.now }
    {
        spots.iter().any(|spot| spot.number() == self.number())
    }

    /// Whether a word may stand after this one.
    #[tactic(auto, unfolding(crate::specs::Spots::may_follow))]
    fn may_precede(self, next: Spot) -> bool
        ensures { result ≡ spec.may_follow self next }
    {
        match (self, next) {
            (Front, _) => true,
            (Number | Whole, _) | (Anything, Number | Object) => false,
            (_, Anything | Fact) | (Anything, _) => true,
            _ => self.is_among(next.before()),
        }
    }

    /// Where the words so far end with a word more: an argument belongs to the call that begins before it, what has a star to the object that
    /// stands before it, and who runs to the processor, of which it is a fact.
    fn ended_by(self, next: Spot) -> Spot
        ensures { result ≡ spec.ended_by self next }
    {
        match (self, next) {
            (Begun, Argument) => Begun,
            (BegunReported, Argument) => BegunReported,
            (_, Argument) => BegunSome,
            (Begun, LastArgument) => Called,
            (BegunReported, LastArgument) => CalledReported,
            (_, LastArgument) => CalledSome,
            (Object, Anything) => Object,
            (Processor, Run) => Fact,
            (_, next) => next,
        }
    }

    /// Where the words so far end with a word more. None where it may not stand there, and without one.
    pub fn step(self, next: Option<Spot>) -> Option<Spot>
        ensures { result ≡ spec.stepped self next }
    {
        match next {
            Some(next) if self.may_precede(next) => Some(self.ended_by(next)),
            _ => None,
        }
    }
}
