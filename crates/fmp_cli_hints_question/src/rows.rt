//! What is told of words of questions that no line of a trace has.

/// What is told of a word of a question that no line of a trace has.
pub const QUESTION_ROWS: [(&[u8], &[u8]); 14] = [
    (
        b"and",
        b"  Write `&` between patterns that have to be there at one event.\n",
    ),
    (b"two", DIGITS),
    (b"three", DIGITS),
    (b"four", DIGITS),
    (b"five", DIGITS),
    (
        b"waiting",
        b"  Write `T1 waits` for a task T1 that waits.\n",
    ),
    (b"TMO_FEVR", b"  A trace has the number: write -1.\n"),
    (b"TMO_POL", b"  A trace has the number: write 0.\n"),
    (b"TPRI_SELF", b"  A trace has the number: write 0.\n"),
    (b"TPRI_INI", b"  A trace has the number: write 0.\n"),
    (b"TPRC_INI", b"  A trace has the number: write 0.\n"),
    (
        b"started",
        b"  A handler that is not started is `stopped`, and one that is has `left=*`.\n",
    ),
    (
        b"full",
        b"  A pool without a free block is `free=0`. How many values fit into a data queue is not asked: each of them is `values=7`.\n",
    ),
    (
        b"script",
        b"  A question has no scripts: its patterns are words of a trace.\n",
    ),
];

const DIGITS: &[u8] = b"  A number is written in digits, as in `3 times`.\n";

/// What is told of a word of a question that can stand after those before it in no record, nor be a fact of what they are about.
pub const LINE_ROWS: [(&[u8], &[u8]); 33] = [
    (
        b"tick",
        b"  Who runs stands before it, as in `P1 T1 tick taken`: write `P1 * tick taken`.\n",
    ),
    (
        b"ipi",
        b"  Who runs stands before it, as in `P1 T1 ipi taken`: write `P1 * ipi taken`.\n",
    ),
    (b"taken", TIMER),
    (b"none", TIMER),
    (
        b"held",
        b"  A tick or an interrupt is `tick held` or `ipi held`, and a spin lock `held=P1`.\n",
    ),
    (
        b"E_OK",
        b"  A call stands before it, and after it the value that the call returns, as in `get_pid() E_OK:1`: write `get_pid() E_OK*`.\n",
    ),
    (
        b"wait",
        b"  It answers a call, as in `P1 T1 slp_tsk() wait`: write `T1 * wait`. A task that waits is `T1 waits`.\n",
    ),
    (
        b"spin",
        b"  It answers a call, as in `P1 T1 loc_spn(L1) spin`: write `T1 * spin`.\n",
    ),
    (
        b"gone",
        b"  It answers a call, as in `P1 T1 ext_tsk() gone`: write `T1 * gone`.\n",
    ),
    (
        b"idle",
        b"  It answers a call that nobody could make, as in `P2 - get_pid() idle`: write `P2 * idle`. A processor that runs nothing is `P2 run=-`.\n",
    ),
    (b"locked", PROCESSOR),
    (b"disabled", PROCESSOR),
    (b"latch", PROCESSOR),
    (b"dormant", TASK),
    (b"running", TASK),
    (
        b"ready",
        b"  It is so of a task, as in `T1 ready`. Of a processor it is `P1 ready=T1`.\n",
    ),
    (b"suspended", TASK),
    (b"waits", TASK),
    (b"slp", WAIT),
    (b"dly", WAIT),
    (b"sem", WAIT),
    (b"flg", WAIT),
    (b"sdtq", WAIT),
    (b"rdtq", WAIT),
    (b"mpf", WAIT),
    (b"empty", b"  It is so of a data queue, as in `D1 empty`.\n"),
    (
        b"stopped",
        b"  It is so of an alarm or a cyclic handler, as in `A1 stopped`.\n",
    ),
    (
        b"free",
        b"  It is so of a spin lock, as in `L1 free`. Of a pool it is `M1 free=2`.\n",
    ),
    (b"run", b"  The name stands after a `=`: write `run=T1`.\n"),
    (
        b"run=idle",
        b"  It stands after the answer of an event, as in `P1 T1 slp_tsk() wait run=idle`. A processor that runs nothing is `P1 run=-`.\n",
    ),
    (
        b"due",
        b"  It is so of an alarm or a cyclic handler, as in `A1 due`. Of a processor it is `P1 due=A1`.\n",
    ),
    (
        b"rel",
        b"  The name and the code stand after a `=`: write `rel=T1:E_OK`.\n",
    ),
    (b"end", b"  It stands alone: write `end & T1 waits`.\n"),
];

const TIMER: &[u8] = b"  It answers a tick or an interrupt, as in `P1 T1 tick taken`.\n";

const PROCESSOR: &[u8] = b"  It is so of a processor, as in `P1 latch`.\n";

const TASK: &[u8] = b"  It is so of a task, as in `T1 waits`.\n";

const WAIT: &[u8] = b"  It is what a task waits for, as in `T1 waits sem S1`.\n";

/// Of what a word with a `=` is so, by what stands before the `=`.
pub const KEY_ROWS: [(&[u8], &[u8]); 12] = [
    (
        b"run",
        b"  It is so of a processor, as in `P1 run=T1` or `P1 run=-`. After the answer of an event it is `run=T1` or `run=idle`.\n",
    ),
    (
        b"ready",
        b"  It is so of a processor and a task, as in `P1 ready=T1`.\n",
    ),
    (
        b"due",
        b"  It is so of a processor and a handler, as in `P1 due=A1`.\n",
    ),
    (
        b"left",
        b"  It is so of a task that waits, an alarm or a cyclic handler, as in `A1 left=5`.\n",
    ),
    (b"pri", b"  It is so of a task, as in `T1 pri=5`.\n"),
    (b"act", b"  It is so of a task, as in `T1 act=1`.\n"),
    (b"wup", b"  It is so of a task, as in `T1 wup=1`.\n"),
    (
        b"count",
        b"  It is so of a semaphore, as in `S1 count=1`.\n",
    ),
    (
        b"pattern",
        b"  It is so of an eventflag, as in `F1 pattern=3`.\n",
    ),
    (
        b"values",
        b"  It is so of a data queue, as in `D1 values=7`.\n",
    ),
    (b"free", b"  It is so of a pool, as in `M1 free=2`.\n"),
    (
        b"held",
        b"  It is so of a spin lock and a processor, as in `L1 held=P1`.\n",
    ),
];

/// The words of an event that stand in no state, besides calls and codes.
pub const EVENT_WORDS: [&[u8]; 9] = [
    b"tick", b"ipi", b"taken", b"held", b"none", b"wait", b"spin", b"gone", b"idle",
];
