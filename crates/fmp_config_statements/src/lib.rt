//! The tokens and the statements of a configuration: their forms and the values of their fields, with the first fault.
//!
//! The table has for each statement its word, the parts that follow, the attributes that it allows and the ranges of its
//! numbers (`table.rt`, `specs/Table`). A [`Form`] is a statement whose tokens are being read, and a [`Directive`] a line that
//! begins with `#`; both take a token at a time. What was read is kept in [`Pieces`], and judged by [`attributes_in`] and
//! [`numeral`].
//!
//! Each contract is exact: the answer is that of the definition, with the kind, the line and the word of a fault. Begin at
//! [`find_statement`] and [`Form::take`].
//!
//! The tokens of the text are read one by one, with no memory taken ([`Lexer`], `specs/Lexing`).
//!
//! Blanks are spaces, tabs, carriage returns and line feeds. A line feed ends a line, and nothing else does: lines are
//! counted from 1, also by the line feeds in comments and strings.
//!
//! A token is an identifier (a letter or `_`, and the letters, digits and `_` after it), a digit with the letters,
//! digits and `_` after it, a string, or one other byte from `!` to `~`. A string goes from `"` to the next `"`, over
//! line ends too; it holds any bytes, and a backslash takes the next byte along.
//!
//! The comments `/* .. */` and `// ..` hold any bytes and count as one blank. They stand in directives too, but not in
//! strings. The `*` that opens a comment does not close it. A comment `// ..` ends before the next line feed, or with
//! the text.
//!
//! A `#` before which only blanks and comments stand in its line begins a directive, where the line feeds in comments
//! end no line. The directive ends at the next line feed outside comments that has no backslash directly before it, or
//! with the text. A backslash and the line feed after it count as one blank, also where a comment `// ..` ends so. In a
//! directive there are no strings, and any byte that is no blank and of no word is a token.
//!
//! Elsewhere a byte that is no blank and is not from `!` to `~` is bad, and reading ends before it. Where a comment or
//! a string is not closed, the text is cut short, and the string is no token.
#![tactic(auto)]

mod attributes;
mod comments;
mod directive;
mod fault;
mod form;
mod laws;
mod lexer;
mod modes;
mod numbers;
mod parts;
mod pieces;
mod table;
mod tokens;
mod word;

pub use attributes::{Attribute, Attributes, attributes_in};
pub use directive::Directive;
pub use fault::{ConfigKind, Fault, ReadError};
pub use form::Form;
pub use laws::statements_are_found;
pub use lexer::Lexer;
pub use modes::{Mode, Place, Step, step_of};
pub use numbers::numeral;
pub use parts::{Item, Part, Scan, is_item};
pub use pieces::Pieces;
pub use table::{Range, STATEMENT_NAMES, StatementName, allowed, find_statement};
pub use tokens::{End, Token, TokenKind};
pub use word::{Word, is_mark};
