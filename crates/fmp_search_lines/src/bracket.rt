//! Goals between which the last one lies that is reached.
ghost use Rattle.std.specs.Prelude.{◌≡◌, ◌<◌, ◌+◌, ◌-◌};

/// Two goals, of which the low one is reached and the high one is not, and where to try next.
#[derive(Clone, Copy)]
pub(crate) struct Bracket {
    pub(crate) low: u32,
    pub(crate) high: u32,
    /// The goal that is tried next, if it lies between them.
    guess: u32,
    /// How far the goal after that is from it, at most.
    stride: u32,
}

impl Bracket {
    /// All goals up to this one, and the first that is tried.
    pub(crate) fn up_to(high: u32, guess: u32) -> Bracket
        ensures low { result.low ≡ 0 }
        ensures high { result.high ≡ high }
    {
        Bracket {
            low: 0,
            high,
            guess,
            stride: 1,
        }
    }

    /// A goal between the two.
    pub(crate) fn goal(&self) -> u32
        requires { self.now.low + 1 < self.now.high }
        ensures above { self.now.low < result }
        ensures below { result < self.now.high }
    {
        if self.guess <= self.low {
            self.low + 1
        } else if self.guess >= self.high {
            self.high - 1
        } else {
            self.guess
        }
    }

    /// How far away the next goal is: half of what is left at most, so that no search beyond a few is lost where the guess was bad.
    fn step(&self) -> u32
        requires { self.now.low < self.now.high }
        ensures { result < self.now.high - self.now.low }
    {
        self.stride.min((self.high - self.low) / 2)
    }

    /// Takes in that a goal between the two is reached.
    pub(crate) fn rise(&mut self, goal: u32)
        requires above { self.old.low < goal }
        requires below { goal < self.old.high }
        ensures low { self.new.low ≡ goal }
        ensures high { self.new.high ≡ self.old.high }
    {
        self.low = goal;
        self.guess = goal + self.step();
        self.stride = self.stride.saturating_mul(2);
    }

    /// Takes in that a goal between the two is never reached.
    pub(crate) fn sink(&mut self, goal: u32)
        requires above { self.old.low < goal }
        requires below { goal < self.old.high }
        ensures low { self.new.low ≡ self.old.low }
        ensures high { self.new.high ≡ goal }
    {
        self.high = goal;
        self.guess = goal - self.step();
        self.stride = self.stride.saturating_mul(2);
    }
}
