//! The lines of a partial trace that are not the machine's, as a unified diff.
ghost use Rattle.std.specs.Prelude.{◌≡◌, ◌≤◌, ◌<◌, ◌+◌, false, length, IfOk};
ghost use Rattle.std.specs.Option.{option_copied};
ghost use Rattle.fmp_bytes.specs.Bytes.{pieces_of};
ghost use Rattle.fmp_out.specs.Putting.{Adds};
ghost use Rattle.fmp_rules.specs.Boot.{booted};
ghost use Rattle.fmp_text.specs.Limits.{most_bytes};
ghost use Rattle.fmp_trace_partial.specs.Saying.{line_said};
ghost use Rattle.fmp_run_partial.specs.Differing as spec;

use crate::playing::{blank, put_record};
use fmp_codes::{Event, Record};
use fmp_out::Text;
use fmp_plain::Plain;
use fmp_rules::Config;
use fmp_text::Names;
use fmp_trace::next_line;
use fmp_trace_check::put_hunk_head;
use fmp_trace_partial::{put_kept, read_said};
use std::alloc::AllocError;

/// Adds line n as it stands and what is printed of the machine's answer, as a hunk.
fn put_hunk(out: &mut Text, names: &Names, n: u32, line: &[u8], report: &Record)
    ensures { Adds (spec.hunk names.now n line.now report.now) out.old out.new }
{
    put_hunk_head(out, n);
    out.put_byte(b'-');
    out.put(line);
    out.put(b"\n+");
    put_record(out, names, n, report);
}

/// A machine that plays the lines of a text that was read before, one after the other.
#[derive(Drop)]
struct Player {
    plain: Plain,
    /// What it answered last.
    report: Record,
    /// What is printed of that where as much is left out as in the line.
    own: Text,
    scratch: Text,
}

impl Player {
    /// The machine at boot.
    fn boot(config: &Config) -> Result<Player, AllocError>
        ensures { IfOk result (λ p. p.plain ≡ record { state = booted config.now; steps = 0 }) }
    {
        let alloc = config.allocator();
        Ok(Player {
            plain: Plain::boot(config)?,
            report: blank(),
            own: Text::new(alloc),
            scratch: Text::new(alloc),
        })
    }

    /// Plays the event of line n, and adds the line where it is not what the machine answers.
    fn differ(&mut self, out: &mut Text, names: &Names, n: u32, line: &[u8])
        requires { self.old.plain.steps < 4294967295 }
        ensures text { Adds (spec.difference names.now n self.old.plain.state line.now (line_said names.now n line.now)) out.old out.new }
        ensures state { out.new.wanting ≡ false → self.new.plain.state ≡ spec.beyond self.old.plain.state (line_said names.now n line.now) }
        ensures steps { self.new.plain.steps ≤ self.old.plain.steps + 1 }
    {
        let Ok(said) = read_said(&mut self.scratch, names, n, line) else {
            // what was read before has no fault: memory was wanting
            return out.note(Err(AllocError));
        };
        self.plain.step_into(said.entry.event, &mut self.report);
        self.own.clear();
        put_kept(&mut self.own, names, n, &said.kept, &self.report);
        match self.own.so_far() {
            Ok(own) => {
                if own != line {
                    put_hunk(out, names, n, line, &self.report);
                }
            }
            Err(wanting) => out.note(Err(wanting)),
        }
    }
}

/// Adds each line of a text that was read before, without a fault, and that is not what the machine answers to its event, as they stand.
pub(crate) fn put_differences(out: &mut Text, config: &Config, text: &[u8])
    requires { length text.now ≤ most_bytes }
    ensures { Adds (spec.differences_from config.now.names 1 (booted config.now) (pieces_of 10 text.now)) out.old out.new }
{
    let names = config.names();
    names.validity();
    let mut player = match Player::boot(config) {
        Ok(player) => player,
        Err(wanting) => return out.note(Err(wanting)),
    };
    let mut number: u32 = 1;
    let mut rest = text;
    while let Some((line, after)) = next_line(rest) {
        player.differ(out, names, number, line);
        number += 1;
        rest = after;
    }
}

/// Plays the event of line n, if there is such a line, and adds the line with what the machine answers.
pub(crate) fn put_hunk_of(
    out: &mut Text,
    plain: &mut Plain,
    names: &Names,
    n: u32,
    line: Option<&[u8]>,
    event: Option<Event>,
)
    requires { plain.old.steps < 4294967295 }
    ensures { Adds (spec.hunk_of names.now n plain.old.state (option_copied line.entry) event) out.old out.new }
{
    let Some(line) = line else {
        return;
    };
    let Some(event) = event else {
        return;
    };
    let mut report = blank();
    plain.step_into(event, &mut report);
    put_hunk(out, names, n, line, &report);
}
