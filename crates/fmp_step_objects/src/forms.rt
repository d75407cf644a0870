//! Calls that have a form from a task and one from a handler.
ghost use Rattle.std.specs.Prelude.{◌≡◌};
ghost use Rattle.fmp_codes.specs.declared.codes.Code.TheVariants as code;
ghost use Rattle.fmp_rules.specs.Rows.{is_refused_context};
ghost use Rattle.fmp_rules.specs.Outcomes.{refused_if};
ghost use Rattle.fmp_step_objects.specs.Forms.{rule_from};

use fmp_codes::{Code, Proc};
use fmp_rules::{Context, Rule};
use fmp_step_words::{Words, check_rule};

/// The rule of the form of a call that is called from here, by that of its form from a task.
fn rule_from(context: Context, rule: Rule) -> Rule
    ensures { result ≡ rule_from context rule }
{
    match context {
        Context::Task => rule,
        Context::Handler | Context::Any => Rule { context, ..rule },
    }
}

/// Refuses the form of a call that is called from here, if it may not be made now.
pub(crate) fn check_form<M: Words>(
    machine: &M,
    p: Proc,
    context: Context,
    rule: Rule,
) -> Result<(), Code>
    ensures { result ≡ refused_if (is_refused_context (M.world machine.now) p (rule_from context rule)) code.Context }
{
    check_rule(machine, p, rule_from(context, rule))
}
