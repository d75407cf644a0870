//! What a task or a handler does next.
ghost use Rattle.std.specs.Prelude.{◌≡◌};
ghost use Rattle.fmp_smp_histories.specs.Positions.{function_of};
ghost use Rattle.fmp_smp_histories.specs.Scripted as scripted;

use fmp_codes::{Call, Runner, TaskCall};
use fmp_rules::Config;
use fmp_text_scripts::Scripts;

/// The number of the function that a task or a handler runs. None where the configuration has no such task or handler.
#[inline(always)]
pub fn function_of(config: &Config, runner: Runner) -> Option<u8>
    ensures { result ≡ function_of config.now runner }
{
    match runner {
        Runner::Task(t) => {
            let task = config.tasks().get(t.index())?;
            Some(task.main)
        }
        Runner::Alarm(a) => {
            let alarm = config.alarms().get(a.index())?;
            Some(alarm.handler)
        }
        Runner::Cyclic(c) => {
            let cyclic = config.cyclics().get(c.index())?;
            Some(cyclic.handler)
        }
    }
}

/// The call after the end of a script: a task ends itself, and a handler returns.
fn last_of(runner: Runner) -> Call
    ensures { result ≡ scripted.last_of runner }
{
    match runner {
        Runner::Task(_) => Call::Task(TaskCall::ExtTsk),
        Runner::Alarm(_) => Call::RetHdr,
        Runner::Cyclic(_) => Call::RetHdr,
    }
}

/// What a runner asks at a position of its script.
pub fn asked_at(config: &Config, scripts: &Scripts, runner: Runner, position: u32) -> Call
    ensures { result ≡ scripted.asked_at config.now scripts.now runner position }
{
    scripts
        .step(function_of(config, runner), position)
        .unwrap_or(last_of(runner))
}
