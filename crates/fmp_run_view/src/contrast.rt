//! What the machine answers to the events of a trace, beside the lines that were given.
ghost use Rattle.std.specs.Prelude.{◌≡◌, ◌++◌, ◌≤◌, List, [], length, IfOk, OnOk};
ghost use Rattle.fmp_codes.specs.declared.records.Record.{Record as AnyRecord};
ghost use Rattle.fmp_trace_check.specs.Checking.{own_text};
ghost use Rattle.fmp_trace_check.specs.Differences.{differences};
ghost use Rattle.fmp_text.specs.Limits.{most_bytes as MOST_BYTES};
ghost use Rattle.fmp_trace.specs.Lines.{line_text};
ghost use Rattle.fmp_trace.specs.Prints.{PrintsWithin};
ghost use Rattle.fmp_run_view.specs.Given as spec;

use fmp_codes::{Answer, Event, Proc, Record};
use fmp_plain::Plain;
use fmp_rules::Config;
use fmp_text::Names;
use fmp_trace::{event_of, next_line, put_core, put_number};
use fmp_trace_check::is_same;
use std::alloc::{AllocError, Global};

/// A trace as the machine would have it, and where that is not what was given.
#[derive(Drop)]
pub(crate) struct Contrast {
    /// The machine's own lines to the events of the trace, each ended by a line feed.
    pub(crate) own: Vec<u8>,
    /// The lines that were given where these differ, each after its number and a blank, and ended by a line feed.
    pub(crate) given: Vec<u8>,
    /// The machine's own line that was added last, without its line feed.
    line: Vec<u8>,
}

/// Adds a line that was given, after its number.
#[tactic(auto, unfolding(crate::specs::Given::given_line))]
fn put_given(out: &mut Vec<u8>, number: u32, line: &[u8]) -> Result<(), AllocError>
    ensures { OnOk result (out.new.items ≡ out.old.items ++ spec.given_line number line.now) }
{
    put_number(out, u64::from(number))?;
    out.extend_from_slice(b" ")?;
    out.extend_from_slice(line)?;
    out.extend_from_slice(b"\n")
}

impl Contrast {
    /// Nothing yet.
    fn new(alloc: Global) -> Contrast
        ensures own { result.own.items ≡ [] }
        ensures given { result.given.items ≡ [] }
    {
        Contrast {
            own: Vec::new(alloc),
            given: Vec::new(alloc),
            line: Vec::new(alloc),
        }
    }

    /// Adds the machine's own line of this number, which tells a record, and the one that was given if it is another.
    #[tactic(auto, unfolding(fmp_trace::specs::Lines::line_text))]
    fn add(
        &mut self,
        names: &Names,
        number: u32,
        report: &Record,
        line: &[u8],
    ) -> Result<(), AllocError>
        ensures own { OnOk result (self.new.own.items ≡ self.old.own.items ++ line_text names.now number report.now) }
        ensures given { OnOk result (self.new.given.items ≡ self.old.given.items ++ spec.given_beside names.now number report.now line.now) }
    {
        self.line.clear();
        put_core(&mut self.line, names, number, report)?;
        if !is_same(self.line.as_slice(), line) {
            put_given(&mut self.given, number, line)?;
        }
        self.own.extend_from_slice(self.line.as_slice())?;
        self.own.extend_from_slice(b"\n")
    }
}

/// Holds a text that prints records against what the machine answers to their events. Any other is only held up to its first line that
/// tells no event.
pub(crate) fn contrast_of(
    alloc: Global,
    config: &Config,
    text: &[u8],
) -> Result<Contrast, AllocError>
    requires { length text.now ≤ MOST_BYTES }
    ensures own { (records : List AnyRecord) → PrintsWithin config.now.names text.now records
        → IfOk result (λ found. found.own.items ≡ own_text config.now records) }
    ensures given { (records : List AnyRecord) → PrintsWithin config.now.names text.now records
        → IfOk result (λ found. found.given.items ≡ spec.given_text (differences config.now records)) }
    // No line of a text that is the machine's own differs.
    ensures same { (records : List AnyRecord) → PrintsWithin config.now.names text.now records → text.now ≡ own_text config.now records
        → IfOk result (λ found. (found.own.items ≡ text.now) × (found.given.items ≡ [])) }
{
    let names = config.names();
    names.validity();
    let mut plain = Plain::boot(config)?;
    let mut report = Record::answer(Event::Tick(Proc::new(1)), None, Answer::Nothing);
    let mut found = Contrast::new(alloc);
    let mut number: u32 = 1;
    let mut rest = text;
    while let Some((line, after)) = next_line(rest) {
        let Some(event) = event_of(names, line) else {
            return Ok(found);
        };
        plain.step_into(event, &mut report);
        found.add(names, number, &report, line)?;
        number += 1;
        rest = after;
    }
    Ok(found)
}
