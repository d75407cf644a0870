//! Records of the machine.
ghost use Rattle.std.specs.Prelude.{◌≡◌, IsTrue};
ghost use Rattle.fmp_kernel_parts.specs.Digests.{added};
ghost use Rattle.fmp_kernel_same.specs.Digests.{added_wait, added_record, added_processor};

use crate::same::{Same, ValueToDigest};
use fmp_kernel_parts::Digest;
use fmp_rules::{Alarm, Cyclic, Processor, TaskRecord, Wait};

impl Same for Wait {
    fn is_same(&self, other: &Self) -> bool {
        match (*self, *other) {
            (Wait::Sleep, Wait::Sleep) => true,
            (Wait::Delay, Wait::Delay) => true,
            (Wait::Semaphore(one), Wait::Semaphore(other)) => one.is_same(&other),
            (Wait::Eventflag(one, bits, mode), Wait::Eventflag(other, others, way)) => {
                one.is_same(&other) && bits == others && mode == way
            }
            (Wait::Send(one, value), Wait::Send(other, another)) => {
                one.is_same(&other) && value == another
            }
            (Wait::Receive(one), Wait::Receive(other)) => one.is_same(&other),
            (Wait::Pool(one), Wait::Pool(other)) => one.is_same(&other),
            _ => false,
        }
    }
}

impl ValueToDigest for Wait {
    ghost digested = { λ value sum. added_wait value sum };

    fn add_to(&self, digest: &mut Digest) {
        match self {
            Wait::Sleep => digest.add(1),
            Wait::Delay => digest.add(2),
            Wait::Semaphore(s) => digest.add(3 + 8 * u64::from(s.number)),
            Wait::Eventflag(f, bits, _) => digest.add(
                4 + 8 * u64::from(f.number) + 1024 * u64::from(*bits),
            ),
            Wait::Send(d, value) => digest.add(u64::from(d.number) ^ value.cast_unsigned()),
            Wait::Receive(d) => digest.add(5 + 8 * u64::from(d.number)),
            Wait::Pool(m) => digest.add(6 + 8 * u64::from(m.number)),
        }
    }
}

impl Same for TaskRecord {
    fn is_same(&self, other: &Self) -> bool {
        self.assigned.is_same(&other.assigned)
            && self.priority.is_same(&other.priority)
            && self.active == other.active
            && self.wait.is_same(&other.wait)
            && self.suspended == other.suspended
            && self.activations == other.activations
            && self.kept.is_same(&other.kept)
            && self.wakeups == other.wakeups
            && self.setup.is_same(&other.setup)
    }
}

impl ValueToDigest for TaskRecord {
    ghost digested = { λ value sum. added_record value sum };

    #[tactic(auto, unfolding(crate::specs::Digests::numbers_of))]
    fn add_to(&self, digest: &mut Digest) {
        digest.add(
            u64::from(self.assigned.number)
                | u64::from(self.priority.number) << 8
                | u64::from(self.active) << 16
                | u64::from(self.suspended) << 17
                | u64::from(self.activations) << 24
                | u64::from(self.wakeups) << 32,
        );
        self.wait.add_to(digest);
        self.kept.add_to(digest);
    }
}

impl Same for Processor {
    fn is_same(&self, other: &Self) -> bool {
        self.running.is_same(&other.running)
            && self.locked == other.locked
            && self.disabled == other.disabled
            && self.latch == other.latch
    }
}

impl ValueToDigest for Processor {
    ghost digested = { λ value sum. added_processor value sum };

    #[tactic(auto, unfolding(crate::specs::Digests::flags_of))]
    fn add_to(&self, digest: &mut Digest) {
        self.running.add_to(digest);
        digest.add(
            u64::from(self.locked) | u64::from(self.disabled) << 1 | u64::from(self.latch) << 2,
        );
    }
}

impl Same for Cyclic {
    fn is_same(&self, other: &Self) -> bool {
        self.assigned.is_same(&other.assigned) && self.setup.is_same(&other.setup)
    }
}

impl ValueToDigest for Cyclic {
    ghost digested = { λ value sum. added sum value.assigned.number };

    fn add_to(&self, digest: &mut Digest) {
        self.assigned.add_to(digest);
    }
}

impl Same for Alarm {
    fn is_same(&self, other: &Self) -> bool {
        self.assigned.is_same(&other.assigned) && self.setup.is_same(&other.setup)
    }
}

impl ValueToDigest for Alarm {
    ghost digested = { λ value sum. added sum value.assigned.number };

    fn add_to(&self, digest: &mut Digest) {
        self.assigned.add_to(digest);
    }
}
