//! Going over a trace as long as its lines are the plain machine's own.
ghost use Rattle.std.specs.Prelude.{◌≡◌, ◌≤◌, ◌<◌, ◌+◌, [], length, true, None, Some, IfOk, IfSome, option_map};
ghost use Rattle.fmp_bytes.specs.Bytes.{pieces_of};
ghost use Rattle.fmp_rules.specs.Arrivals.{numbered};
ghost use Rattle.fmp_rules.specs.Boot.{booted};
ghost use Rattle.fmp_rules.specs.Step.{step};
ghost use Rattle.fmp_law_safety.specs.Safe.{Safe};
ghost use Rattle.fmp_text.specs.Limits.{most_bytes};
ghost use Rattle.fmp_trace_check.specs.Walking as spec;
ghost use Rattle.fmp_trace_check.specs.Watching.{watched_in};
ghost use Rattle.fmp_trace.specs.Heads.{event_of as event_reported};
ghost use Rattle.fmp_trace.specs.Reading.{Passes, records_from, records_in};

use crate::report::tell_event;
use crate::same::is_same;
use crate::watching::Watcher;
use fmp_codes::{Answer, Event, Proc, Record};
use fmp_plain::Plain;
use fmp_rules::Config;
use fmp_text::{MOST_BYTES, MOST_EVENTS, Names, TextFault, TextKind};
use fmp_trace::{next_line, validate_from};
use fmp_trace_buffer::{Count, LineBuffer, line_is_short};
use std::alloc::{AllocError, Global};

/// A plain machine that plays the events of lines.
#[derive(Drop)]
pub(crate) struct Player {
    plain: Plain,
    /// The number of the line that was played last.
    count: Count,
    /// What it answered last.
    report: Record,
    /// Its own line, without its line feed, in the place of the line that was played last.
    pub(crate) own: LineBuffer,
}

impl Player {
    /// The machine at boot.
    fn boot(alloc: Global, config: &Config) -> Result<Player, AllocError>
        ensures state { IfOk result (λ player. player.plain ≡ record { state = booted config.now; steps = 0 }) }
        ensures safe { IfOk result (λ player. Safe numbered player.plain.state) }
        ensures count { IfOk result (λ player. player.count ≡ 0) }
    {
        Ok(Player {
            plain: Plain::boot(config)?,
            count: Count::new(),
            report: Record::answer(Event::Tick(Proc::new(1)), None, Answer::Nothing),
            own: LineBuffer::new(alloc)?,
        })
    }

    /// Plays the event that line n tells, if it tells any. Says whether the line prints the answer. The line that was played last is
    /// the one before.
    pub(crate) fn play(&mut self, names: &Names, n: u32, line: &[u8]) -> bool
        requires steps { self.old.plain.steps < 4294967295 }
        requires count { self.old.count + 1 ≡ n }
        ensures same { result ≡ spec.prints_answer names.now self.old.plain.state n line.now (event_reported names.now line.now) }
        ensures own { self.new.own ≡ spec.own_core names.now self.old.plain.state n (event_reported names.now line.now) }
        ensures report { result ≡ true → event_reported names.now line.now ≡ Some self.new.report.event }
        ensures answer { result ≡ true → self.new.report ≡ (step numbered self.old.plain.state self.new.report.event).1 }
        ensures state { self.new.plain.state ≡ spec.following self.old.plain.state (event_reported names.now line.now) }
        ensures steps { self.new.plain.steps ≤ self.old.plain.steps + 1 }
        ensures count { self.new.count ≡ n }
    {
        self.own.clear();
        self.count.increase();
        if !tell_event(names, line, &mut self.report.event) {
            return false;
        }
        self.plain.step_recorded(&mut self.report);
        line_is_short(names, &self.report);
        self.own.put_core(names, &self.count, &self.report);
        is_same(self.own.as_slice(), line)
    }
}

/// A line that is not the machine's own, the machine that played it, and the text that follows the line.
#[derive(Drop)]
pub(crate) struct Stop<'a> {
    pub(crate) player: Player,
    pub(crate) number: u32,
    pub(crate) line: &'a [u8],
    pub(crate) rest: &'a [u8],
}

/// Goes over a text that is within the limit of bytes.
fn walk_within<'a, W: Watcher>(
    alloc: Global,
    config: &Config,
    text: &'a [u8],
    watcher: &mut W,
) -> Result<Option<Stop<'a>>, TextFault>
    requires { length text.now ≤ most_bytes }
    ensures passes { Passes result (records_from config.now.names 1 (pieces_of 10 text.now)) }
    ensures stop { IfOk result (λ stop. option_map (λ s. spec.seen s.number s.line.now s.player.own s.player.plain.state (pieces_of 10 s.rest.now)) stop
        ≡ spec.stop_in config.now text.now) }
    ensures watched { IfOk result (λ stop. stop ≡ None → watcher.new ≡ watched_in W.watched config.now text.now watcher.old) }
    ensures steps { IfOk result (λ stop. IfSome stop (λ s. s.player.plain.steps ≤ s.number)) }
    ensures count { IfOk result (λ stop. IfSome stop (λ s. s.player.count ≡ s.number)) }
    ensures left { IfOk result (λ stop. IfSome stop (λ s. s.number + length s.rest.now ≤ most_bytes)) }
{
    let names = config.names();
    names.validity();
    let mut player = Player::boot(alloc, config)?;
    let mut number: u32 = 1;
    let mut rest = text;
    while let Some((line, after)) = next_line(rest) {
        let own = player.play(names, number, line);
        if !own || number as usize > MOST_EVENTS {
            validate_from(alloc, rest, names, number)?;
            return Ok(Some(Stop {
                player,
                number,
                line,
                rest: after,
            }));
        }
        watcher.watch(names, number, &player.report, player.plain.machine())?;
        number += 1;
        rest = after;
    }
    validate_from(alloc, rest, names, number)?;
    Ok(None)
}

/// Goes over a text as long as its lines are the machine's own, which a watcher sees, and gives the first that is not. Lines of its own have no fault, since
/// what the machine answers fits the names; from the first other line on the text is judged as any other.
#[tactic(auto, unfolding(fmp_trace::specs::Reading::records_in))]
pub(crate) fn walk<'a, W: Watcher>(
    alloc: Global,
    config: &Config,
    text: &'a [u8],
    watcher: &mut W,
) -> Result<Option<Stop<'a>>, TextFault>
    ensures passes { Passes result (records_in config.now.names text.now) }
    ensures stop { IfOk result (λ stop. option_map (λ s. spec.seen s.number s.line.now s.player.own s.player.plain.state (pieces_of 10 s.rest.now)) stop
        ≡ spec.stop_in config.now text.now) }
    ensures watched { IfOk result (λ stop. stop ≡ None → watcher.new ≡ watched_in W.watched config.now text.now watcher.old) }
    ensures steps { IfOk result (λ stop. IfSome stop (λ s. s.player.plain.steps ≤ s.number)) }
    ensures count { IfOk result (λ stop. IfSome stop (λ s. s.player.count ≡ s.number)) }
    ensures left { IfOk result (λ stop. IfSome stop (λ s. s.number + length s.rest.now ≤ most_bytes)) }
{
    if text.len() > MOST_BYTES {
        return Err(TextFault {
            kind: TextKind::TooMany,
            line: 0,
        });
    }
    walk_within(alloc, config, text, watcher)
}
