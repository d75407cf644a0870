//! The words of traces, states and configurations that are no call, no statement and no fault, and what each means.
ghost use Rattle.std.specs.Prelude.{◌≡◌, is_some};
ghost use Rattle.std.specs.List.{list_any};
ghost use Rattle.std.specs.Str.{bytes_eq};

use fmp_out::Text;

/// Each word with what it means.
pub const WORDS: [(&[u8], &[u8]); 66] = [
    // Answers.
    (
        b"E_OK",
        b"The call was accepted. Where it returns a value, that stands after `:`.",
    ),
    (b"E_PAR", b"An argument is out of its range."),
    (b"E_ID", b"An argument names no task, object or processor."),
    (
        b"E_CTX",
        b"The call is not for a task or not for a handler, not for the CPU-locked state, or not while dispatching is held.",
    ),
    (
        b"E_ILUSE",
        b"The call is used as its rule forbids: `fmpsim list` shows the rule of each call.",
    ),
    (
        b"E_OBJ",
        b"The task or object is in a state in which the call cannot be made.",
    ),
    (
        b"E_QOVR",
        b"What is counted is as high as may be: activations, wakeups, a semaphore, or a task is suspended already.",
    ),
    (
        b"E_RLWAI",
        b"The wait was ended by `rel_wai` or `irel_wai`.",
    ),
    (
        b"E_TMOUT",
        b"The time of the wait is over, or what was asked for without a wait is not to be had.",
    ),
    (
        b"wait",
        b"The caller waits. A later line ends the wait, and has the answer after `rel=`.",
    ),
    (
        b"spin",
        b"The spin lock is held. Nothing changed, and the caller tries again.",
    ),
    (b"gone", b"The caller has ended."),
    // Of traces and events.
    (
        b"idle",
        b"No task and no handler runs on the processor, so that no call can be made there. `run=idle`: no task runs there now.",
    ),
    (
        b"held",
        b"The tick or interrupt was not taken, since the processor is held there: it has to be given again. `held=P1` in a state: P1 holds the spin lock.",
    ),
    (b"taken", b"The tick or interrupt was taken."),
    (
        b"none",
        b"There was no request for the interrupt, or the tick counts for nothing.",
    ),
    (
        b"rel",
        b"`rel=T2:E_OK` in a trace: the event ended the wait of T2, whose call answers E_OK.",
    ),
    (
        b"lost",
        b"`lost=5` in a trace: a forced send overwrote the value 5 of a data queue.",
    ),
    (
        b"run",
        b"`run=T2` in a trace: the event's processor now runs T2, and did not before.",
    ),
    (
        b"ipi",
        b"An event: the interrupt by which a request of another processor is taken. `ipi=2,3` in a trace: a request is sent to processors 2 and 3.",
    ),
    (b"tick", b"An event: a tick of the processor's timer."),
    (
        b"latch",
        b"A request to a processor is pending, until its interrupt `ipi` is taken.",
    ),
    // Of states and questions.
    (
        b"ready",
        b"`ready=T2,T3` in a state: the other ready tasks of the processor, the next one first. In a question `T2 ready` is so of a task that could run and does not.",
    ),
    (
        b"running",
        b"`T1 running` in a question: the processor of the task runs it.",
    ),
    (
        b"dormant",
        b"`T1 dormant` in a question: the task has ended or was never activated.",
    ),
    (
        b"empty",
        b"`D1 empty` in a question: there is no value in the data queue.",
    ),
    (b"locked", b"In a state: the processor is CPU-locked."),
    (
        b"disabled",
        b"In a state: dispatching on the processor is disabled.",
    ),
    (
        b"due",
        b"`due=A1,C1` in a state: the handlers that are due on the processor, the running one first. In a question `A1 due` is so of the handler.",
    ),
    (b"suspended", b"In a state: the task is suspended."),
    (
        b"waits",
        b"`waits sem S1` in a state: what the task waits for. `sdtq` is to send to a data queue, `rdtq` to receive of one.",
    ),
    (
        b"left",
        b"`left=3` in a state: the ticks that are left, of a timed wait or until the handler is due.",
    ),
    (
        b"pri",
        b"`pri=3` in a state: the priority of the task, where it is not the initial one.",
    ),
    (
        b"act",
        b"`act=1` in a state: so many activations of the task are queued.",
    ),
    (
        b"wup",
        b"`wup=1` in a state: so many wakeups of the task are queued.",
    ),
    (
        b"count",
        b"`count=2` in a state: the count of the semaphore, where it is not the initial one.",
    ),
    (
        b"pattern",
        b"`pattern=3` in a state: the pattern of the eventflag, where it is not the initial one.",
    ),
    (
        b"values",
        b"`values=7,-1` in a state: the values in the data queue, the oldest first.",
    ),
    (
        b"free",
        b"`free=1` in a state: so many blocks of the pool are free, where not all are. In a question `L1 free` is so of a spin lock that nobody holds.",
    ),
    (
        b"stopped",
        b"In a state: the cyclic handler was started at boot, and is stopped.",
    ),
    (
        b"end",
        b"The line that ends a state, or a script. In a question: nothing can change any more.",
    ),
    (
        b"refused",
        b"In a question: a code other than E_OK, so that a call was refused.",
    ),
    (
        b"E9",
        b"The fault of a question whose words can stand so in no line: `*` stands for the words between, as in `P1 * tick taken`.",
    ),
    // Of configurations and arguments.
    (b"TA_NULL", b"No attribute."),
    (b"TA_ACT", b"The task is started at boot."),
    (b"TA_STA", b"The cyclic handler is started at boot."),
    (
        b"TA_TFIFO",
        b"Tasks wait first come first, as they do without an attribute.",
    ),
    (
        b"TA_TPRI",
        b"Tasks wait by priority, and among equals first come first.",
    ),
    (
        b"TA_WSGL",
        b"At most one task waits for the eventflag, as is so without an attribute.",
    ),
    (b"TA_WMUL", b"Several tasks may wait for the eventflag."),
    (b"TA_CLR", b"A release clears all bits of the eventflag."),
    (b"TSK_SELF", b"0 as a task: the caller."),
    (
        b"TPRI_SELF",
        b"0 as a priority: the present one of the caller.",
    ),
    (
        b"TPRI_INI",
        b"0 as a priority: the initial one of the task.",
    ),
    (
        b"TPRC_INI",
        b"0 as a processor: the initial one of the class.",
    ),
    (b"TMO_POL", b"0 as a timeout: not to wait at all."),
    (b"TMO_FEVR", b"-1 as a timeout: to wait for ever."),
    (
        b"TWF_ANDW",
        b"A mode: all bits of the pattern have to be set.",
    ),
    (b"TWF_ORW", b"A mode: one bit of the pattern has to be set."),
    // Of what there is, by its name.
    (
        b"task",
        b"`CRE_TSK` creates one. Its calls are `act_tsk`, `slp_tsk`, `chg_pri` and others.",
    ),
    (
        b"semaphore",
        b"`CRE_SEM` creates one. Its calls are `wai_sem`, `twai_sem`, `pol_sem`, `sig_sem` and `isig_sem`.",
    ),
    (
        b"eventflag",
        b"`CRE_FLG` creates one. Its calls are `wai_flg`, `twai_flg`, `pol_flg`, `set_flg`, `iset_flg` and `clr_flg`.",
    ),
    (
        b"alarm",
        b"`CRE_ALM` creates one. Its calls are `sta_alm`, `msta_alm`, `stp_alm` and their forms for handlers.",
    ),
    (
        b"cyclic",
        b"`CRE_CYC` creates a cyclic handler. Its calls are `sta_cyc`, `msta_cyc` and `stp_cyc`.",
    ),
    (
        b"mutex",
        b"There are none. A semaphore of at most 1 excludes as one does, but changes no priority: see `CRE_SEM`.",
    ),
    (
        b"interrupt",
        b"There are no devices. The event `ipi` is an interrupt between processors, and an alarm stands for that of a device.",
    ),
];

/// What the first of these rows tells that has the word.
fn meaning_in<'a>(rows: &[(&[u8], &'a [u8])], word: &[u8]) -> Option<&'a [u8]>
    ensures { is_some result ≡ list_any (λ row. bytes_eq row.0.now word.now) rows.now }
{
    for row in rows {
        if row.0 == word {
            return Some(row.1);
        }
    }
    None
}

/// What the word means, if that is known. The table is named here alone: a function that names it costs a check by all its bytes.
fn meaning_of(word: &[u8]) -> Option<&'static [u8]>
    ensures { is_some result ≡ list_any (λ row. bytes_eq row.0.now word.now) WORDS }
{
    meaning_in(&WORDS, word)
}

/// Whether it is known what the word means.
pub(crate) fn is_word(word: &[u8]) -> bool
    ensures { result ≡ list_any (λ row. bytes_eq row.0.now word.now) WORDS }
{
    meaning_of(word).is_some()
}

/// Adds a word and what it means, in two lines.
pub(crate) fn put_word(out: &mut Text, word: &[u8]) {
    out.put(word);
    out.put(b"\n  ");
    if let Some(meaning) = meaning_of(word) {
        out.put(meaning);
    }
    out.put(b"\n");
}
