//! The words by which a text is known to be of the static API files of a TOPPERS project.

use crate::left_out::{begins_with_one, is_one};

/// How the classes are called that a kernel brings with it.
pub const CLASS_BEGINNINGS: [&[u8]; 2] = [b"TCL_", b"CLS_"];

/// How the words begin that say how a handler is told.
pub const NOTICE_BEGINNINGS: [&[u8]; 2] = [b"TNFY_", b"TENFY_"];

/// Statements of interrupts, exceptions and initialization, directives that leave out lines, and words that begin declarations of C.
pub const PROJECT_NAMES: [&[u8]; 14] = [
    b"DEF_INH", b"DEF_EXC", b"CFG_INT", b"CRE_ISR", b"ATT_ISR", b"ATT_INI", b"ATT_TER", b"if",
    b"ifdef", b"ifndef", b"enum", b"typedef", b"extern", b"static",
];

/// Whether a word is called as the classes are that a kernel brings with it.
pub fn is_class_word(word: &[u8]) -> bool {
    begins_with_one(&CLASS_BEGINNINGS, word)
}

/// Whether a word says how a handler is told.
pub fn is_notice_word(word: &[u8]) -> bool {
    begins_with_one(&NOTICE_BEGINNINGS, word)
}

/// Whether a word stands in the static API files of a project, and in no configuration.
pub fn is_project_word(word: &[u8]) -> bool {
    is_notice_word(word) || is_one(&PROJECT_NAMES, word)
}
