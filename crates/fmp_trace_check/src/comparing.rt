//! The lines of a trace that are not the plain machine's own, with those.
ghost use Rattle.std.specs.Prelude.{◌≡◌, ◌≤◌, ◌+◌, ◌⊎◌, [], List, length, Ok, IfOk, IfErr};
ghost use Rattle.fmp_bytes.specs.Bytes.{pieces_of};
ghost use Rattle.fmp_codes.specs.declared.records.Event.{Event as AnyEvent};
ghost use Rattle.fmp_codes.specs.declared.records.Record.{Record as AnyRecord};
ghost use Rattle.fmp_out.specs.Putting.{Adds};
ghost use Rattle.fmp_text.specs.Events.{IsMemory};
ghost use Rattle.fmp_text.specs.Limits.{most_bytes};
ghost use Rattle.fmp_trace_check.specs.Checking.{Judges, PrintsAnswers};
ghost use Rattle.fmp_trace_check.specs.Comparing as spec;
ghost use Rattle.fmp_trace_check.specs.Differences.{Contrasts, difference_text, hunk_head};
ghost use Rattle.fmp_trace_check.specs.Walking.{seen};
ghost use Rattle.fmp_trace.specs.Prints.{PrintsWithin, FirstFault};
ghost use Rattle.fmp_trace.specs.Reading.{GivesOrFails};

use crate::checking::Verdict;
use crate::walking::{Player, Stop, walk};
use crate::watching::Nobody;
use fmp_out::Text;
use fmp_rules::Config;
use fmp_text::{Names, TextFault};
use fmp_trace::next_line;
use std::alloc::Global;

/// Which of the lines that differ are shown, and how.
#[derive(Clone, Copy)]
pub enum Shown {
    /// The first one: what stands there after `- `, and the machine's own line after `+ `.
    First,
    /// Each of them, as a hunk of a unified diff.
    Each,
}

/// A trace held against what the machine answers to its events.
#[derive(Drop)]
pub struct Comparison {
    /// Whether all lines are the machine's.
    pub verdict: Verdict,
    /// The lines that are shown, each ended by a line feed.
    pub lines: Vec<u8>,
}

/// Adds a line of a trace after `- `, and the machine's own line after `+ `.
fn put_pair(out: &mut Text, line: &[u8], own: &[u8])
    ensures { Adds (difference_text Shown.First (record { number = 0; line = line.now; own = own.now })) out.old out.new }
{
    out.put(b"- ");
    out.put(line);
    out.put(b"\n+ ");
    out.put(own);
    out.put_byte(b'\n');
}

/// Adds the head of a hunk of a unified diff, for line n alone.
#[tactic(auto, unfolding(crate::specs::Differences::hunk_head))]
pub fn put_hunk_head(out: &mut Text, n: u32)
    ensures { Adds (hunk_head n) out.old out.new }
{
    out.put(b"@@ -");
    out.put_number(u64::from(n));
    out.put(b",1 +");
    out.put_number(u64::from(n));
    out.put(b",1 @@\n");
}

/// Adds line n of a trace and the machine's own line, as a hunk of a unified diff.
fn put_hunk(out: &mut Text, n: u32, line: &[u8], own: &[u8])
    ensures { Adds (difference_text Shown.Each (record { number = n; line = line.now; own = own.now })) out.old out.new }
{
    put_hunk_head(out, n);
    out.put_byte(b'-');
    out.put(line);
    out.put(b"\n+");
    out.put(own);
    out.put_byte(b'\n');
}

/// Adds a hunk for each line of a text that is not the machine's own. The text begins after line n.
fn put_hunks(out: &mut Text, player: &mut Player, names: &Names, n: u32, text: &[u8])
    requires steps { player.old.plain.steps ≤ n }
    requires count { player.old.count ≡ n }
    requires left { n + length text.now ≤ most_bytes }
    ensures { Adds (spec.hunks_from names.now player.old.plain.state (n + 1) (pieces_of 10 text.now)) out.old out.new }
{
    let mut number = n;
    let mut rest = text;
    while let Some((line, after)) = next_line(rest) {
        number += 1;
        if !player.play(names, number, line) {
            put_hunk(out, number, line, player.own.as_slice());
        }
        rest = after;
    }
}

/// Adds what is shown of lines that differ, where this is the first of them.
fn put_shown(out: &mut Text, shown: Shown, names: &Names, stop: Stop)
    requires steps { stop.player.plain.steps ≤ stop.number }
    requires count { stop.player.count ≡ stop.number }
    requires left { stop.number + length stop.rest.now ≤ most_bytes }
    ensures { Adds (spec.shown_from shown names.now
        (seen stop.entry.number stop.entry.line.now stop.entry.player.own stop.entry.player.plain.state (pieces_of 10 stop.entry.rest.now))) out.old out.new }
{
    let Stop {
        mut player,
        number,
        line,
        rest,
    } = stop;
    match shown {
        Shown::First => put_pair(out, line, player.own.as_slice()),
        Shown::Each => {
            put_hunk(out, number, line, player.own.as_slice());
            put_hunks(out, &mut player, names, number, rest);
        }
    }
}

/// The verdict on a trace, with the lines that are shown of it.
#[tactic(auto, unfolding(crate::specs::Comparing::found_in))]
fn comparison_of(
    alloc: Global,
    config: &Config,
    text: &[u8],
    shown: Shown,
) -> Result<Comparison, TextFault>
    ensures { GivesOrFails spec.found_of result (spec.found_in shown config.now text.now) }
{
    let Some(stop) = walk(alloc, config, text, &mut Nobody {})? else {
        return Ok(Comparison {
            verdict: Verdict::Yes,
            lines: Vec::new(alloc),
        });
    };
    let verdict = Verdict::No(stop.number);
    let mut lines = Text::new(alloc);
    put_shown(&mut lines, shown, config.names(), stop);
    Ok(Comparison {
        verdict,
        lines: lines.finish()?,
    })
}

/// Compares a trace line by line with what the plain machine answers to the trace's own events, whatever it is that the
/// trace says. It keeps what is shown, and no list of records.
///
/// A fault is that of `read_trace`, wherever in the text it is: only a text without one is compared.
pub fn compare_lines(
    alloc: Global,
    config: &Config,
    text: &[u8],
    shown: Shown,
) -> Result<Comparison, TextFault>
    // The lines are those in which the text differs from the machine's, and the verdict is that of `check`.
    ensures lines { IfOk result (λ found. Contrasts shown config.now text.now found.verdict found.lines.items) }
    ensures verdict { IfOk result (λ found. Judges config.now text.now found.verdict) }
    // A text that prints records is compared, unless memory ran out.
    ensures complete { (records : List AnyRecord) → PrintsWithin config.now.names text.now records → IfErr result IsMemory }
    // What the machine answers to any events, within the limits of texts, is found to be its own.
    ensures answers { (events : List AnyEvent) → PrintsAnswers config.now text.now events → GivesOrFails spec.found_of result (Ok (Verdict.Yes, [])) }
    // The fault is the first one, or want of memory.
    ensures fault { IfErr result (λ fault. FirstFault config.now.names text.now fault ⊎ IsMemory fault) }
{
    config.names().validity();
    comparison_of(alloc, config, text, shown)
}
