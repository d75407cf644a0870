//! What each service call does, and what it answers: two lines of it, as docs/PROFILE.md has the whole rule.
ghost use Rattle.std.specs.Prelude.{◌≡◌, map};
ghost use Rattle.fmp_cli_help.specs.Deeds as spec;

use fmp_calls::form;
use fmp_codes::Call;

/// A row for each name of a call. Calls of which the same is told stand together, so that each text stands once.
macro_rules! rows {
    ($($($call:literal)|+ => $report:literal,)+) => {
        [$($(($call, $report)),+),+]
    };
}

/// The calls on tasks, each with its name, and with what it does and what it answers, two lines.
pub const TASK_DEEDS: [(&[u8], &[u8]); 20] = rows![
    b"act_tsk" | b"iact_tsk" => b"  does: A dormant task starts where it is assigned; of an active one the activation is queued.\n  answers: E_OK; E_QOVR where an activation is queued already.\n",
    b"mact_tsk" | b"imact_tsk" => b"  does: A dormant task starts on the processor; of an active one the activation is queued, and the processor kept.\n  answers: E_OK; E_QOVR where an activation is queued already.\n",
    b"can_act" => b"  does: Queued activations are taken back, with the kept processor.\n  answers: E_OK and the number of them.\n",
    b"mig_tsk" => b"  does: The task is assigned to the processor, and comes last of its priority there.\n  answers: E_OK; E_OBJ where it is not assigned to the caller's processor.\n",
    b"ext_tsk" => b"  does: The caller ends, the processor is unlocked, a spin lock of it is freed, and dispatching is enabled.\n  answers: gone.\n",
    b"ter_tsk" => b"  does: The task ends.\n  answers: E_OK; E_ILUSE where it is the caller; E_OBJ where it is dormant or not assigned to the caller's processor.\n",
    b"chg_pri" => b"  does: The task has the priority, 0 for its initial one, and comes last of it.\n  answers: E_OK; E_OBJ where it is dormant.\n",
    b"get_pri" => b"  does: Tells the priority of the task.\n  answers: E_OK and the priority; E_OBJ where it is dormant.\n",
    b"slp_tsk" | b"tslp_tsk" => b"  does: The caller takes a queued wakeup, or else sleeps.\n  answers: E_OK or wait; then E_OK, E_TMOUT or E_RLWAI ends the wait.\n",
    b"wup_tsk" | b"iwup_tsk" => b"  does: A task that sleeps is released; of another one a wakeup is queued.\n  answers: E_OK; E_OBJ where it is dormant; E_QOVR where as many wakeups are queued as may be.\n",
    b"can_wup" => b"  does: Queued wakeups are taken back.\n  answers: E_OK and the number of them; E_OBJ where the task is dormant.\n",
    b"rel_wai" | b"irel_wai" => b"  does: The task's wait ends with E_RLWAI, whatever it waits for.\n  answers: E_OK; E_OBJ where it does not wait.\n",
    b"sus_tsk" => b"  does: The task is suspended.\n  answers: E_OK; E_OBJ where it is dormant; E_QOVR where it is suspended already.\n",
    b"rsm_tsk" => b"  does: The task is no longer suspended.\n  answers: E_OK; E_OBJ where it is not suspended.\n",
    b"dly_tsk" => b"  does: The caller waits for so many ticks and one more.\n  answers: wait; then E_OK at the end, or E_RLWAI.\n",
];

/// The calls on semaphores and eventflags, data queues and pools, cyclic handlers and alarms, likewise.
pub const OBJECT_DEEDS: [(&[u8], &[u8]); 33] = rows![
    // Semaphores and eventflags.
    b"sig_sem" | b"isig_sem" => b"  does: The first waiter is released, or else the count rises by one.\n  answers: E_OK; E_QOVR where the count is the greatest.\n",
    b"wai_sem" | b"twai_sem" => b"  does: The count falls by one, or else the caller waits.\n  answers: E_OK or wait; then E_OK, E_TMOUT or E_RLWAI ends the wait.\n",
    b"pol_sem" => b"  does: The count falls by one.\n  answers: E_OK; E_TMOUT where it is 0.\n",
    b"set_flg" | b"iset_flg" => b"  does: The bits are set, and each waiter for whom the flag's pattern holds is released.\n  answers: E_OK.\n",
    b"clr_flg" => b"  does: All bits but those of the pattern are cleared.\n  answers: E_OK.\n",
    b"wai_flg" | b"twai_flg" => b"  does: Where the flag's pattern holds the caller has it, or else waits.\n  answers: E_OK and the flag's pattern, or wait; E_PAR where the pattern is 0; E_ILUSE where a task waits and the flag is not TA_WMUL.\n",
    b"pol_flg" => b"  does: Where the flag's pattern holds the caller has it.\n  answers: E_OK and the flag's pattern; E_TMOUT where it does not hold; E_PAR where the pattern is 0; E_ILUSE where a task waits and the flag is not TA_WMUL.\n",
    // Data queues and pools.
    b"snd_dtq" | b"tsnd_dtq" => b"  does: The first task that waits to receive has the value, or it is kept, or the caller waits with it.\n  answers: E_OK or wait; then E_OK, E_TMOUT or E_RLWAI ends the wait.\n",
    b"psnd_dtq" | b"ipsnd_dtq" => b"  does: The first task that waits to receive has the value, or it is kept.\n  answers: E_OK; E_TMOUT where nobody waits to receive and no place is free.\n",
    b"fsnd_dtq" | b"ifsnd_dtq" => b"  does: The first task that waits to receive has the value, or it is kept, and where no place is free the oldest is lost for it.\n  answers: E_OK; E_ILUSE where the capacity is 0.\n",
    b"rcv_dtq" | b"trcv_dtq" => b"  does: The caller has the oldest value, or else waits.\n  answers: E_OK and the value, or wait; then E_OK and a value, E_TMOUT or E_RLWAI ends the wait.\n",
    b"prcv_dtq" => b"  does: The caller has the oldest value.\n  answers: E_OK and the value; E_TMOUT where there is none and nobody waits to send.\n",
    b"get_mpf" | b"tget_mpf" => b"  does: The caller has the free block of the least number, or else waits.\n  answers: E_OK and the block, or wait; then E_OK and a block, E_TMOUT or E_RLWAI ends the wait.\n",
    b"pget_mpf" => b"  does: The caller has the free block of the least number.\n  answers: E_OK and the block; E_TMOUT where none is free.\n",
    b"rel_mpf" => b"  does: The first waiter has the block, or else it is free.\n  answers: E_OK; E_PAR where the pool has not handed out that block.\n",
    // Cyclic handlers and alarms.
    b"sta_cyc" => b"  does: The handler is started with its phase, also where it was started.\n  answers: E_OK.\n",
    b"msta_cyc" => b"  does: The handler is assigned to the processor, and started with its phase.\n  answers: E_OK.\n",
    b"stp_cyc" => b"  does: The handler is stopped, also where it was.\n  answers: E_OK.\n",
    b"sta_alm" | b"ista_alm" => b"  does: The alarm is started with the time, also where it was started.\n  answers: E_OK.\n",
    b"msta_alm" | b"imsta_alm" => b"  does: The alarm is assigned to the processor, and started with the time.\n  answers: E_OK.\n",
    b"stp_alm" | b"istp_alm" => b"  does: The alarm is stopped, also where it was.\n  answers: E_OK.\n",
];

/// The calls on processors and spin locks, and the return of a handler, likewise.
pub const SYSTEM_DEEDS: [(&[u8], &[u8]); 25] = rows![
    // Processors.
    b"rot_rdq" | b"irot_rdq" => b"  does: The first runnable task of the priority on the caller's processor comes last of it; 0 is the caller's own.\n  answers: E_OK; E_PAR for 0 in irot_rdq.\n",
    b"mrot_rdq" | b"imrot_rdq" => b"  does: The first runnable task of the priority on the processor comes last of it; 0 is the caller's own.\n  answers: E_OK; E_PAR for 0 in imrot_rdq.\n",
    b"get_tid" | b"iget_tid" => b"  does: Tells which task runs on the processor.\n  answers: E_OK and its number, 0 where none runs.\n",
    b"get_pid" | b"iget_pid" => b"  does: Tells which processor this is.\n  answers: E_OK and its number.\n",
    b"loc_cpu" | b"iloc_cpu" => b"  does: The processor is CPU-locked, also where it was.\n  answers: E_OK.\n",
    b"unl_cpu" | b"iunl_cpu" => b"  does: The processor is no longer CPU-locked, also where it was not.\n  answers: E_OK; E_ILUSE where it holds a spin lock.\n",
    b"dis_dsp" => b"  does: Dispatching on the processor is disabled.\n  answers: E_OK.\n",
    b"ena_dsp" => b"  does: Dispatching on the processor is enabled.\n  answers: E_OK.\n",
    b"sns_ctx" => b"  does: Tells whether a handler calls.\n  answers: E_OK and 1 or 0.\n",
    b"sns_loc" => b"  does: Tells whether the processor is CPU-locked.\n  answers: E_OK and 1 or 0.\n",
    b"sns_dsp" => b"  does: Tells whether dispatching on the processor is disabled.\n  answers: E_OK and 1 or 0.\n",
    b"sns_dpn" => b"  does: Tells whether dispatching on the processor is held, for whatever reason.\n  answers: E_OK and 1 or 0.\n",
    // Spin locks.
    b"loc_spn" | b"iloc_spn" => b"  does: A free lock is held by the processor, which is CPU-locked from then on.\n  answers: E_OK; spin where the lock is held, and the caller tries again.\n",
    b"try_spn" | b"itry_spn" => b"  does: A free lock is held by the processor, which is CPU-locked from then on.\n  answers: E_OK; E_OBJ where the lock is held.\n",
    b"unl_spn" | b"iunl_spn" => b"  does: The lock is free, and the processor no longer CPU-locked.\n  answers: E_OK; E_ILUSE where the processor does not hold it.\n",
    // The return of a handler.
    b"ret_hdr" => b"  does: The handler is due no longer, the processor is unlocked, and a spin lock of it is freed.\n  answers: E_OK; E_CTX from a task.\n",
];

/// What the first of these rows tells that has the name.
fn report_in<'a>(rows: &[(&[u8], &'a [u8])], name: &[u8]) -> &'a [u8]
    ensures { result.now ≡ spec.report_in (map (λ row. record { call = row.0.now; report = row.1.now }) rows.now) name.now }
{
    match rows {
        [] => b"",
        [(call, report), ..] if *call == name => report,
        [_, rows @ ..] => report_in(rows, name),
    }
}

/// What is told of a call on tasks of this name. Each table has a function of its own: one that names a table costs a check by all its bytes.
#[tactic(auto, unfolding(crate::specs::Deeds::task_rows))]
fn task_deed(name: &[u8]) -> &'static [u8]
    ensures { result.now ≡ spec.report_in spec.task_rows name.now }
{
    report_in(&TASK_DEEDS, name)
}

/// What is told of a call on objects and handlers of this name.
#[tactic(auto, unfolding(crate::specs::Deeds::object_rows))]
fn object_deed(name: &[u8]) -> &'static [u8]
    ensures { result.now ≡ spec.report_in spec.object_rows name.now }
{
    report_in(&OBJECT_DEEDS, name)
}

/// What is told of a call on processors and spin locks, or of the return of a handler, of this name.
#[tactic(auto, unfolding(crate::specs::Deeds::system_rows))]
fn system_deed(name: &[u8]) -> &'static [u8]
    ensures { result.now ≡ spec.report_in spec.system_rows name.now }
{
    report_in(&SYSTEM_DEEDS, name)
}

/// What the call does and what it answers, two lines.
#[tactic(auto, unfolding(crate::specs::Deeds::deed))]
pub(crate) fn deed(call: Call) -> &'static [u8]
    ensures { result.now ≡ spec.deed call }
{
    let name = form(call).text;
    match call {
        Call::Task(_) => task_deed(name),
        Call::Sync(_) | Call::Buffer(_) | Call::Time(_) => object_deed(name),
        Call::System(_) | Call::Spin(_) | Call::RetHdr => system_deed(name),
    }
}
