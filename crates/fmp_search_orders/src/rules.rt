//! What may happen in an order, besides what scripts and the machine say.

/// Which orders are gone through.
#[derive(Clone, Copy)]
pub struct Rules {
    /// How many ticks each processor may take. Without it any number, and ticks are not counted unless `drift` asks for it.
    pub ticks: Option<u32>,
    /// Whether a request that nothing holds back is taken before its processor's next call, as `fmpsim smp` does. Without it the
    /// interrupt may come as late as it likes.
    pub prompt: bool,
    /// How many ticks more than another a processor may have taken. Without it each clock runs on its own.
    pub drift: Option<u32>,
    /// How many ticks a processor may take in a row while it has something to do and does not do it: a call of who runs there, or the interrupt of a
    /// request that nothing holds back. Without it any number, and they are not counted.
    pub pace: Option<u32>,
    /// Whether an interrupt may come at any time, as an interrupt line that is shared or disturbed makes it: also where no request is pending,
    /// which does nothing, and where the request is held, which stays pending. Without it interrupts come for requests that nothing holds back.
    pub spurious: bool,
}
