//! Tables of what is told of words, and the row of one.

/// What is told of a word in the place of a call that has another name elsewhere, or stands elsewhere.
pub const CALL_ROWS: [(&[u8], &[u8]); 15] = [
    (b"int", DEVICES),
    (b"inh", DEVICES),
    (b"isr", DEVICES),
    (b"irq", DEVICES),
    (b"interrupt", DEVICES),
    (b"tick", TICKS),
    (b"ipi", TICKS),
    (
        b"ret_hdr",
        b"  A handler returns at the end of its script by itself: leave the line out.\n",
    ),
    (b"sleep", WAITS),
    (b"wait", WAITS),
    (b"delay", WAITS),
    (b"syslog", OUTPUT),
    (b"printf", OUTPUT),
    (b"repeat", ROUNDS),
    (b"loop", ROUNDS),
];

const DEVICES: &[u8] =
    b"  There are no devices: a cyclic or alarm handler stands for the interrupt of one. See docs/GUIDE.md, \"Interrupts of devices\".\n";

const TICKS: &[u8] =
    b"  In a script it does not stand: `--ticks` says how many ticks the clock gives, and each request has its interrupt.\n";

const WAITS: &[u8] =
    b"  A task waits by `slp_tsk()` until it is woken up, and by `dly_tsk(5)` for so many ticks.\n";

const OUTPUT: &[u8] =
    b"  Only service calls stand here, and nothing is printed: leave the line out.\n";

const ROUNDS: &[u8] =
    b"  A line is repeated by a label before it, as `again:`, and `goto again` after a call.\n";

/// What is told of words of C in a script.
pub const JUMP_ROWS: [(&[u8], &[u8]); 1] = [(
    b"return",
    b"  A task ends at the end of its script, and before by `ext_tsk()`; a handler returns at the end of its own.\n",
)];

/// What is told of the fields behind an answer in a trace that may leave out parts.
pub const FIELD_ROWS: [(&[u8], &[u8]); 5] = [
    (
        b"rel",
        b"  rel: a task, `:` and the code of its wait with its value, as `rel=T2:E_OK:1`; `rel=T2:E_OK:*` leaves out the value, `rel=T2:*` the code too\n",
    ),
    (
        b"lost",
        b"  lost: the value that was overwritten, a number of 64 bits with a sign\n",
    ),
    (b"run", b"  run: a task, or `idle`\n"),
    (
        b"ipi",
        b"  ipi: numbers of processors in ascending order, as `ipi=1,2`\n",
    ),
    (
        b"by",
        b"  by: the number of this line or of a later one, within 32 bits\n",
    ),
];

/// What is told of a word in the place of a processor.
pub const FIRST_ROWS: [(&[u8], &[u8]); 1] = [(
    b"refused",
    b"  `tools/from-log` refused its log: this is all that it writes then, and standard error says why\n",
)];

/// What is told of characters that stand in no line: some that are not ASCII, those of a text in UTF-16, and some that are ASCII.
pub const FOREIGN_ROWS: [(&[u8], &[u8]); 10] = [
    (b"\"", QUOTED),
    (b"'", QUOTED),
    (
        b".",
        b"  here: a point, which stands in no line: numbers are whole, and no time is written\n",
    ),
    (
        b":",
        b"  here: a colon, in whose place a blank has to stand\n",
    ),
    (
        b"\xE3\x80\x80",
        b"  here: a full-width blank, in whose place a blank of ASCII has to stand\n",
    ),
    (
        b"\xEF\xBC",
        b"  here: a full-width character, in whose place one of ASCII has to stand\n",
    ),
    (
        b"\xC2\xA0",
        b"  here: a no-break space, in whose place a blank has to stand\n",
    ),
    (
        b"\xFF\xFE",
        b"  here: the mark of UTF-16: save the text as UTF-8\n",
    ),
    (
        b"\xFE\xFF",
        b"  here: the mark of UTF-16: save the text as UTF-8\n",
    ),
    (
        b"\x00",
        b"  here: a zero byte, as UTF-16 has it: save the text as UTF-8\n",
    ),
];

const QUOTED: &[u8] = b"  here: a quotation mark, and a name stands without\n";

/// What the first of these rows tells that has the word, or nothing.
pub fn report_of<'a>(rows: &[(&[u8], &'a [u8])], word: &[u8]) -> &'a [u8] {
    for row in rows {
        if row.0 == word {
            return row.1;
        }
    }
    b""
}

/// What the first of these rows tells with which the text begins, or nothing.
pub(crate) fn report_at<'a>(rows: &[(&[u8], &'a [u8])], text: &[u8]) -> &'a [u8] {
    for row in rows {
        if text.starts_with(row.0) {
            return row.1;
        }
    }
    b""
}

/// What is told of the character that begins a text, where it is one of those that are known.
pub fn foreign_words(text: &[u8]) -> &'static [u8] {
    report_at(&FOREIGN_ROWS, text)
}
