//! The service calls on tasks and on processors, over any machine that keeps its tasks by the words of the definitions.
//!
//! What a machine has to do is the trait [`fmp_step_words::Words`]. Each call is a function over it, so that it is written and proved
//! once: it looks for its errors in their order, and then does what its row says.
#![tactic(auto)]

mod rotation;
mod system_calls;
mod task_calls;
mod task_waits;

pub use system_calls::system_call;
pub use task_calls::task_call;
