//! Why a text is no question.

/// Why a text is no question.
#[derive(Clone, Copy)]
pub enum QuestionFault {
    /// Two blanks in a row, one at the front or at the end, or a byte that is not printed.
    BadWord,
    /// A word where it may not stand, or none where one has to.
    BadForm,
    /// A word that is no name, no call, no code and no word of a trace, and does not touch a star: it would never be found.
    UnknownName,
    /// More than 255 steps, or a pattern of more than 1,024 bytes.
    TooLong,
    /// A word that stands after those before it in the line of no record, where they speak of no state either.
    NoLine,
}

/// Why a question was not read.
#[derive(Clone, Copy)]
pub enum ReadFault {
    /// Memory ran out.
    Memory,
    /// The text is none, and this is its first fault: why, and the number of the byte from 0 at which the word begins, or of that after the
    /// last one.
    Text(QuestionFault, usize),
}
