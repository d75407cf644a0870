//! What is shown of a partial trace beside its verdict.
ghost use Rattle.std.specs.Prelude.{◌≡◌, ◌++◌, List, option_map, Ok, IfOk};
ghost use Rattle.fmp_out.specs.Putting.{Adds};
ghost use Rattle.fmp_trace_orders.specs.Lines.{lines_of};
ghost use Rattle.fmp_trace_partial.specs.Saying.{said_in};
ghost use Rattle.fmp_trace_partial.specs.declared.telling.Said.{Said as AnySaid};
ghost use Rattle.fmp_run_partial.specs.Differing.{diff_head};
ghost use Rattle.fmp_run_partial.specs.Playing.{Judged};
ghost use Rattle.fmp_run_partial.specs.Showing as spec;
ghost use Rattle.fmp_run_partial.specs.Telling.{IsWithin, lines_told, up_to_told};

use crate::differing::{put_differences, put_hunk_of};
use crate::filling::put_filled;
use crate::playing::{played, put_answers};
use crate::telling::{
    Differing, Told, differing_at, line_told, lines_again, machine_after, told_at,
};
use crate::verdict::{Finding, Found, PartialVerdict};
use fmp_out::Text;
use fmp_plain::Plain;
use fmp_rules::Config;
use std::alloc::AllocError;

/// What is written of a partial trace.
#[derive(Clone, Copy)]
pub enum PartialShown {
    /// The verdict.
    Verdict,
    /// The verdict, and below `no` the machine's state before that line, the line, and the machine's own.
    First,
    /// Where the verdict is `yes` the machine's own lines, in the order in which the events took effect, and else nothing.
    Order,
    /// Each line that is not what the machine answers, as a unified diff. Where lines come in another order, it is the line with which there is none.
    Each,
    /// As for `Order`; and where the verdict is `no` the machine's own lines up to that line, and this as a whole line: what it says, and the rest as the
    /// machine answers.
    Filled,
}

/// The verdict on a partial trace, and what is shown of it.
#[derive(Drop)]
pub struct Shown {
    pub verdict: PartialVerdict,
    /// Whether it has no line to judge.
    pub is_empty: bool,
    /// What is written of it.
    pub text: Vec<u8>,
    /// Where the verdict is `no`, that line after `- `, and the machine's own line after `+ `.
    pub pair: Vec<u8>,
}

/// Adds the verdict, unless the machine's own lines are asked for in its place.
fn put_head(out: &mut Text, asked: PartialShown, verdict: PartialVerdict)
    ensures { Adds (spec.head_text asked verdict) out.old out.new }
{
    match asked {
        PartialShown::Verdict | PartialShown::First => {
            out.put(verdict.text().as_str().as_bytes());
        }
        PartialShown::Order | PartialShown::Each | PartialShown::Filled => {}
    }
}

/// Adds the lines that differ: each, as they stand, or where they come in an order the line that is told alone.
fn put_diff_lines(
    out: &mut Text,
    config: &Config,
    text: &[u8],
    order: &Option<Vec<u32>>,
    told: &Told,
)
    requires { IsWithin text.now told.now }
    ensures { Adds (lines_told config.now text.now (option_map (λ v. v.items) order.now) told.now) out.old out.new }
{
    if order.is_none() {
        return put_differences(out, config, text);
    }
    match machine_after(config, told.before.as_slice()) {
        Ok(mut plain) => {
            let line = line_told(text, told);
            put_hunk_of(
                out,
                &mut plain,
                config.names(),
                told.number,
                line,
                told.event,
            );
        }
        Err(wanting) => out.note(Err(wanting)),
    }
}

/// Adds these lines as a unified diff. The names in its head are fixed, so that no path can break its form.
fn put_diff(out: &mut Text, config: &Config, text: &[u8], order: &Option<Vec<u32>>, told: &Told)
    requires { IsWithin text.now told.now }
    ensures { Adds (diff_head ++ lines_told config.now text.now (option_map (λ v. v.items) order.now) told.now) out.old out.new }
{
    out.put(b"--- trace\n+++ machine\n");
    put_diff_lines(out, config, text, order, told);
}

/// Adds the machine's own lines up to the line that is told, and that line with what it leaves out put in.
fn put_up_to(out: &mut Text, config: &Config, text: &[u8], told: &Told)
    requires { IsWithin text.now told.now }
    ensures { Adds (up_to_told config.now text.now told.now) out.old out.new }
{
    let names = config.names();
    names.validity();
    let mut plain = match Plain::boot(config) {
        Ok(plain) => plain,
        Err(wanting) => return out.note(Err(wanting)),
    };
    put_answers(out, &mut plain, names, told.before.as_slice());
    let number = told.before.len() as u32 + 1;
    let line = line_told(text, told);
    put_filled(out, config, &mut plain, told.number, number, line);
}

/// Adds what is written of a `no`, beside the verdict.
fn put_below(
    out: &mut Text,
    config: &Config,
    text: &[u8],
    order: &Option<Vec<u32>>,
    asked: PartialShown,
    told: &Told,
    found: &Differing,
)
    requires { IsWithin text.now told.now }
    ensures { Adds (spec.below_no asked found.now.state.items found.now.pair.items
        (diff_head ++ lines_told config.now text.now (option_map (λ v. v.items) order.now) told.now)
        (up_to_told config.now text.now told.now)) out.old out.new }
{
    match asked {
        PartialShown::Verdict | PartialShown::Order => {}
        PartialShown::First => {
            out.put(found.state.as_slice());
            out.put(found.pair.as_slice());
        }
        PartialShown::Each => put_diff(out, config, text, order, told),
        PartialShown::Filled => put_up_to(out, config, text, told),
    }
}

/// What is shown of lines of which this one, counted from 1, is the first that is not the machine's, or with which no order is.
fn show_no(
    config: &Config,
    body: &[u8],
    order: &Option<Vec<u32>>,
    n: u32,
    asked: PartialShown,
    verdict: PartialVerdict,
) -> Result<Shown, AllocError>
    requires { Judged body.now (option_map (λ v. v.items) order.now) }
    ensures { IfOk result (λ s. (said : List AnySaid) → said_in config.now.names body.now ≡ Ok said
        → spec.IsShown asked config.now body.now (lines_of body.now) (spec.events_of said) (option_map (λ v. v.items) order.now) (Found.No n) verdict s) }
{
    let told = told_at(config, body, order, n)?;
    let found = differing_at(config, body, &told)?;
    let mut text = Text::new(config.allocator());
    put_head(&mut text, asked, verdict);
    put_below(&mut text, config, body, order, asked, &told, &found);
    Ok(Shown {
        verdict,
        is_empty: body.is_empty(),
        text: text.finish()?,
        pair: found.pair,
    })
}

/// The machine's own lines for those that it plays.
fn show_order(
    config: &Config,
    body: &[u8],
    order: &Option<Vec<u32>>,
    verdict: PartialVerdict,
) -> Result<Shown, AllocError>
    requires { Judged body.now (option_map (λ v. v.items) order.now) }
    ensures { IfOk result (λ s. (said : List AnySaid) → said_in config.now.names body.now ≡ Ok said
        → spec.IsShown PartialShown.Order config.now body.now (lines_of body.now) (spec.events_of said)
        (option_map (λ v. v.items) order.now) Found.Yes verdict s) }
{
    let names = config.names();
    let alloc = config.allocator();
    let lines = lines_again(config, body)?;
    let events = played(alloc, lines.events.as_slice(), lines.events.len(), order)?;
    let mut plain = Plain::boot(config)?;
    let mut text = Text::new(alloc);
    put_answers(&mut text, &mut plain, names, events.as_slice());
    Ok(Shown {
        verdict,
        is_empty: body.is_empty(),
        text: text.finish()?,
        pair: Vec::new(alloc),
    })
}

/// What is shown of lines of which no line is told, nor all: the verdict, if it is asked for.
fn show_verdict(
    config: &Config,
    body: &[u8],
    asked: PartialShown,
    verdict: PartialVerdict,
) -> Result<Shown, AllocError>
    ensures { IfOk result (spec.IsBare asked body.now verdict) }
{
    let mut text = Text::new(config.allocator());
    put_head(&mut text, asked, verdict);
    Ok(Shown {
        verdict,
        is_empty: body.is_empty(),
        text: text.finish()?,
        pair: Vec::new(config.allocator()),
    })
}

/// What is shown of lines that are the machine's own.
fn show_yes(
    config: &Config,
    body: &[u8],
    order: &Option<Vec<u32>>,
    asked: PartialShown,
    verdict: PartialVerdict,
) -> Result<Shown, AllocError>
    requires { Judged body.now (option_map (λ v. v.items) order.now) }
    ensures { IfOk result (λ s. (said : List AnySaid) → said_in config.now.names body.now ≡ Ok said
        → spec.IsShown asked config.now body.now (lines_of body.now) (spec.events_of said) (option_map (λ v. v.items) order.now) Found.Yes verdict s) }
{
    match asked {
        PartialShown::Verdict => show_verdict(config, body, PartialShown::Verdict, verdict),
        PartialShown::First => show_verdict(config, body, PartialShown::First, verdict),
        PartialShown::Order => show_order(config, body, order, verdict),
        PartialShown::Each => show_verdict(config, body, PartialShown::Each, verdict),
        PartialShown::Filled => show_order(config, body, order, verdict),
    }
}

/// What is shown of lines of which this was found.
pub(crate) fn show(
    config: &Config,
    body: &[u8],
    finding: &Finding,
    asked: PartialShown,
    verdict: PartialVerdict,
) -> Result<Shown, AllocError>
    requires { Judged body.now (option_map (λ v. v.items) finding.now.order) }
    ensures { IfOk result (λ s. (said : List AnySaid) → said_in config.now.names body.now ≡ Ok said
        → spec.IsShown asked config.now body.now (lines_of body.now) (spec.events_of said) (option_map (λ v. v.items) finding.now.order)
        finding.now.found verdict s) }
{
    match finding.found {
        Found::Yes => show_yes(config, body, &finding.order, asked, verdict),
        Found::No(n) => show_no(config, body, &finding.order, n, asked, verdict),
        Found::NotKnown => show_verdict(config, body, asked, verdict),
    }
}
