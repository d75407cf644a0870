//! Numbers of the machine.
ghost use Rattle.std.specs.Prelude.{◌≡◌, IsTrue};
ghost use Rattle.fmp_kernel_parts.specs.Digests.{added};
ghost use Rattle.fmp_kernel_same.specs.Digests.{added_runner};

use crate::same::{Same, ValueToDigest};
use fmp_codes::{Object, Pri, Proc, Runner, Task};
use fmp_kernel_parts::Digest;

impl Same for Proc {
    #[tactic(auto, using(fmp_codes::proofs::Same::processors_same))]
    fn is_same(&self, other: &Self) -> bool {
        self.number == other.number
    }
}

impl ValueToDigest for Proc {
    ghost digested = { λ value sum. added sum value.number };

    fn add_to(&self, digest: &mut Digest) {
        digest.add(u64::from(self.number));
    }
}

impl Same for Task {
    #[tactic(auto, using(fmp_codes::proofs::Same::tasks_same))]
    fn is_same(&self, other: &Self) -> bool {
        self.number == other.number
    }
}

impl ValueToDigest for Task {
    ghost digested = { λ value sum. added sum value.number };

    fn add_to(&self, digest: &mut Digest) {
        digest.add(u64::from(self.number));
    }
}

impl Same for Object {
    #[tactic(auto, using(fmp_codes::proofs::Same::objects_same))]
    fn is_same(&self, other: &Self) -> bool {
        self.number == other.number
    }
}

impl Same for Pri {
    #[tactic(auto, using(fmp_codes::proofs::Same::priorities_same))]
    fn is_same(&self, other: &Self) -> bool {
        self.number == other.number
    }
}

impl Same for Runner {
    fn is_same(&self, other: &Self) -> bool {
        match (*self, *other) {
            (Runner::Task(one), Runner::Task(other)) => one.is_same(&other),
            (Runner::Alarm(one), Runner::Alarm(other)) => one.is_same(&other),
            (Runner::Cyclic(one), Runner::Cyclic(other)) => one.is_same(&other),
            _ => false,
        }
    }
}

impl ValueToDigest for Runner {
    ghost digested = { λ value sum. added_runner value sum };

    fn add_to(&self, digest: &mut Digest) {
        match self {
            Runner::Task(task) => digest.add(u64::from(task.number)),
            Runner::Alarm(alarm) => digest.add(64 + u64::from(alarm.number)),
            Runner::Cyclic(cyclic) => digest.add(128 + u64::from(cyclic.number)),
        }
    }
}
