//! The calls on objects by their families.
ghost use Rattle.std.specs.Prelude.{◌≡◌, ◌+◌, ◌≤◌, []};
ghost use Rattle.fmp_rules.specs.Effects.{TellsOnce, adding};
ghost use Rattle.fmp_rules.specs.Rows.{called};
ghost use Rattle.fmp_rules.specs.Outcomes.{effect_of};
ghost use Rattle.fmp_rules.specs.SyncCalls.{sync_row};
ghost use Rattle.fmp_rules.specs.BufferCalls.{buffer_row};
ghost use Rattle.fmp_rules.specs.TimeCalls.{time_row};
ghost use Rattle.fmp_rules.specs.SpinCalls.{spin_row};

use crate::alarms::{msta_alm, sta_alm, stp_alm};
use crate::cyclics::{msta_cyc, sta_cyc, stp_cyc};
use crate::data_queues::{fsnd_dtq, prcv_dtq, psnd_dtq, trcv_dtq, tsnd_dtq};
use crate::eventflags::{clr_flg, pol_flg, set_flg, twai_flg};
use crate::pools::{pget_mpf, rel_mpf, tget_mpf};
use crate::semaphores::{pol_sem, sig_sem, twai_sem};
use crate::spin_locks::{loc_spn, try_spn, unl_spn};
use fmp_codes::{BufferCall, Code, Proc, Releases, SpinCall, SyncCall, TimeCall};
use fmp_rules::{Context, Effect};
use fmp_step_words::Objects;

/// The timeout of a call that has none.
const FOREVER: i32 = -1;

/// A call on semaphores and eventflags from a processor: what it did, or the code with which it is refused. The releases of a
/// call that can end many waits are told, and the one release of another is in its effect.
pub fn sync_call<M: Objects>(
    machine: &mut M,
    p: Proc,
    call: SyncCall,
    releases: &mut Releases,
) -> Result<Effect, Code>
    requires room { 64 ≤ M.room machine.old }
    requires empty { releases.old ≡ [] }
    ensures row { let w = M.world machine.old in (M.world machine.new, adding releases.new (effect_of result)) ≡ called w p (sync_row M.ordering w p call) }
    ensures once { TellsOnce releases.new (effect_of result) }
    ensures room { M.room machine.old ≤ M.room machine.new + 64 }
{
    match call {
        SyncCall::SigSem(id) => sig_sem(machine, p, Context::Task, id),
        SyncCall::IsigSem(id) => sig_sem(machine, p, Context::Handler, id),
        SyncCall::WaiSem(id) => twai_sem(machine, p, id, FOREVER),
        SyncCall::TwaiSem(id, timeout) => twai_sem(machine, p, id, timeout),
        SyncCall::PolSem(id) => pol_sem(machine, p, id),
        SyncCall::SetFlg(id, pattern) => set_flg(machine, p, Context::Task, id, pattern, releases),
        SyncCall::IsetFlg(id, pattern) => set_flg(
            machine,
            p,
            Context::Handler,
            id,
            pattern,
            releases,
        ),
        SyncCall::ClrFlg(id, pattern) => clr_flg(machine, p, id, pattern),
        SyncCall::WaiFlg(id, pattern, mode) => twai_flg(machine, p, id, pattern, mode, FOREVER),
        SyncCall::TwaiFlg(id, pattern, mode, timeout) => {
            twai_flg(machine, p, id, pattern, mode, timeout)
        }
        SyncCall::PolFlg(id, pattern, mode) => pol_flg(machine, p, id, pattern, mode),
    }
}

/// A call on data queues and pools from a processor: what it did, or the code with which it is refused.
pub fn buffer_call<M: Objects>(machine: &mut M, p: Proc, call: BufferCall) -> Result<Effect, Code>
    requires { 64 ≤ M.room machine.old }
    ensures row { let w = M.world machine.old in (M.world machine.new, effect_of result) ≡ called w p (buffer_row M.ordering w p call) }
    ensures room { M.room machine.old ≤ M.room machine.new + 64 }
{
    match call {
        BufferCall::SndDtq(id, value) => tsnd_dtq(machine, p, id, value, FOREVER),
        BufferCall::TsndDtq(id, value, timeout) => tsnd_dtq(machine, p, id, value, timeout),
        BufferCall::PsndDtq(id, value) => psnd_dtq(machine, p, Context::Task, id, value),
        BufferCall::IpsndDtq(id, value) => psnd_dtq(machine, p, Context::Handler, id, value),
        BufferCall::FsndDtq(id, value) => fsnd_dtq(machine, p, Context::Task, id, value),
        BufferCall::IfsndDtq(id, value) => fsnd_dtq(machine, p, Context::Handler, id, value),
        BufferCall::RcvDtq(id) => trcv_dtq(machine, p, id, FOREVER),
        BufferCall::TrcvDtq(id, timeout) => trcv_dtq(machine, p, id, timeout),
        BufferCall::PrcvDtq(id) => prcv_dtq(machine, p, id),
        BufferCall::GetMpf(id) => tget_mpf(machine, p, id, FOREVER),
        BufferCall::TgetMpf(id, timeout) => tget_mpf(machine, p, id, timeout),
        BufferCall::PgetMpf(id) => pget_mpf(machine, p, id),
        BufferCall::RelMpf(id, block) => rel_mpf(machine, p, id, block),
    }
}

/// A call on cyclic handlers and alarms from a processor: what it did, or the code with which it is refused.
pub fn time_call<M: Objects>(machine: &mut M, p: Proc, call: TimeCall) -> Result<Effect, Code>
    ensures row { let w = M.world machine.old in (M.world machine.new, effect_of result) ≡ called w p (time_row w call) }
    ensures room { M.room machine.new ≡ M.room machine.old }
{
    match call {
        TimeCall::StaCyc(id) => sta_cyc(machine, p, id),
        TimeCall::MstaCyc(id, to) => msta_cyc(machine, p, id, to),
        TimeCall::StpCyc(id) => stp_cyc(machine, p, id),
        TimeCall::StaAlm(id, time) => sta_alm(machine, p, Context::Task, id, time),
        TimeCall::IstaAlm(id, time) => sta_alm(machine, p, Context::Handler, id, time),
        TimeCall::MstaAlm(id, time, to) => msta_alm(machine, p, Context::Task, id, time, to),
        TimeCall::ImstaAlm(id, time, to) => msta_alm(machine, p, Context::Handler, id, time, to),
        TimeCall::StpAlm(id) => stp_alm(machine, p, Context::Task, id),
        TimeCall::IstpAlm(id) => stp_alm(machine, p, Context::Handler, id),
    }
}

/// A call on spin locks from a processor: what it did, or the code with which it is refused.
pub fn spin_call<M: Objects>(machine: &mut M, p: Proc, call: SpinCall) -> Result<Effect, Code>
    ensures row { let w = M.world machine.old in (M.world machine.new, effect_of result) ≡ called w p (spin_row w p call) }
    ensures room { M.room machine.new ≡ M.room machine.old }
{
    match call {
        SpinCall::LocSpn(id) => loc_spn(machine, p, Context::Task, id),
        SpinCall::IlocSpn(id) => loc_spn(machine, p, Context::Handler, id),
        SpinCall::TrySpn(id) => try_spn(machine, p, Context::Task, id),
        SpinCall::ItrySpn(id) => try_spn(machine, p, Context::Handler, id),
        SpinCall::UnlSpn(id) => unl_spn(machine, p, Context::Task, id),
        SpinCall::IunlSpn(id) => unl_spn(machine, p, Context::Handler, id),
    }
}
