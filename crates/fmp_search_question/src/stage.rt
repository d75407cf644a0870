//! How far a question of what stays was read.

/// What the words of a question of what stays for ever end with so far.
#[derive(Clone, Copy)]
pub enum Stage {
    /// A part that is not complete, or nothing.
    Words,
    /// A moment, and `for`.
    For,
    /// A complete part.
    Ever,
    /// `deadlock`.
    Deadlock,
    /// `deadlock but`.
    But,
    /// The names of the tasks that may wait.
    Named,
}
