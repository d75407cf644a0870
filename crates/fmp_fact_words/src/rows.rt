//! Words of patterns that stand for facts.
use fmp_facts::Key;

/// Words that stand for a fact as they are.
#[derive(Clone, Copy)]
pub(crate) enum Plain {
    Locked,
    Disabled,
    Latch,
    Dormant,
    Running,
    Ready,
    Suspended,
    Waits,
    Sleep,
    Delay,
    Semaphore,
    Eventflag,
    Send,
    Receive,
    Pool,
    Empty,
    Stopped,
    Due,
    Free,
}

/// How they are written.
pub(crate) const WORDS: [(&[u8], Plain); 19] = [
    (b"locked", Plain::Locked),
    (b"disabled", Plain::Disabled),
    (b"latch", Plain::Latch),
    (b"dormant", Plain::Dormant),
    (b"running", Plain::Running),
    (b"ready", Plain::Ready),
    (b"suspended", Plain::Suspended),
    (b"waits", Plain::Waits),
    (b"slp", Plain::Sleep),
    (b"dly", Plain::Delay),
    (b"sem", Plain::Semaphore),
    (b"flg", Plain::Eventflag),
    (b"sdtq", Plain::Send),
    (b"rdtq", Plain::Receive),
    (b"mpf", Plain::Pool),
    (b"empty", Plain::Empty),
    (b"stopped", Plain::Stopped),
    (b"due", Plain::Due),
    (b"free", Plain::Free),
];

/// Words before a `=`, and what they are about.
pub(crate) const KEYS: [(&[u8], Key); 12] = [
    (b"run", Key::Run),
    (b"ready", Key::Ready),
    (b"due", Key::Due),
    (b"left", Key::Left),
    (b"pri", Key::Priority),
    (b"act", Key::Activations),
    (b"wup", Key::Wakeups),
    (b"count", Key::Count),
    (b"pattern", Key::Pattern),
    (b"values", Key::Values),
    (b"free", Key::FreeBlocks),
    (b"held", Key::Held),
];
