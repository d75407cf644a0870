//! Answering each event as it comes.
ghost use Rattle.std.specs.Prelude.{◌≡◌, ◌≢◌, ◌⊎◌, ◌≤◌, ◌+◌, ◌-◌, ◌^◌, ◌<◌, ◌++◌, ℕ, Bool, List, [], true, false, IsTrue, OnOk, IfOk, IfErr, Err, OnErr, Ok, length, map};
ghost use Rattle.std.specs.Prelude.{is_err, if◌then◌else◌};
ghost use Rattle.fmp_codes.specs.Records.{processor_of};
ghost use Rattle.fmp_text_feed.specs.Feed.{IsDone, IsWanting, new_feed};
ghost use Rattle.fmp_law_lists.specs.Stands.{Stands};
ghost use Rattle.fmp_rules.specs.Boot.{booted};
ghost use Rattle.fmp_rules.specs.Arrivals.{State, numbered};
ghost use Rattle.fmp_setup.specs.Setup.{Setup};
ghost use Rattle.fmp_rules.specs.Step.{step as step_of};
ghost use Rattle.fmp_setup.specs.Valid.{IsValid};
ghost use Rattle.fmp_text.specs.Events.{Reading};
ghost use Rattle.fmp_text.specs.Fronts.{IsEcho};
ghost use Rattle.fmp_text.specs.Limits.{most_bytes, most_events};
ghost use Rattle.fmp_run_stream.specs.Details.{boot_text, entry_text, finished, report_in};
ghost use Rattle.fmp_run_stream.specs.Lives.{with_changes};
ghost use Rattle.std.specs.List.{flat_map};
ghost use Rattle.fmp_show_changes.specs.Life.Lives.{renewed, report_since};
ghost use Rattle.fmp_run_devices.specs.Devices.{BeginsWith, IsKnown, bytes_of};
ghost use Rattle.fmp_run_devices.specs.Hearing.{Moves};
ghost use Rattle.fmp_run_texts.specs.Faults.{failed_read, failed_write, is_config, is_read, is_write, is_thread_fault};
ghost use Rattle.fmp_run_stream.specs.Runs.{FirstEventFault};
ghost use Rattle.fmp_trace.specs.Lines.{event_text, line_text};
ghost use Rattle.fmp_run_stream.specs.declared.stream.Unanswered.TheVariants.{Memory};
ghost use Rattle.fmp_run_stream.specs.Streams.{Answers, AnswersOn, BeginsFrom, FirstFrom, GathersOn, Leaves, LeavesFrom, PassesSome, Streams, StreamsOn};
ghost use Rattle.fmp_run_stream.specs.Streams.{fault_of, pending};
ghost use Rattle.fmp_trace_buffer.specs.Filled.{full_bytes};

use fmp_codes::{Answer, Event, Proc, Record};
use fmp_kernel::Kernel;
use fmp_rules::Config;
use fmp_run_devices::{Failed, Sink, Source, write_all};
use fmp_run_texts::RunFault;
use fmp_show_changes::{Changes, Life};
use fmp_show_state::put_state;
use fmp_text::{Echo, Names, TextFault};
use fmp_text_feed::EventFeed;
use fmp_trace::trace_line;
use fmp_trace_buffer::{Count, LineBuffer, line_is_short};
use std::alloc::{AllocError, Global};

/// What is written of an event.
#[derive(Drop)]
pub enum Detail {
    /// Its line of the trace.
    Line,
    /// That, and the state after it, as also at boot. docs/FORMATS.md has the form of the state.
    State,
    /// Its line, and what of the state changed by it. At boot the state is told.
    Changes(Changes),
    /// Both its line and those of some things, where what is told of one of these is not what was told before.
    Life(Life),
}

/// Adds the lines of those things of which something else is told than was told last, and keeps in mind what is.
#[tactic(auto, using(fmp_show_changes::proofs::life::Alike::report_alike, fmp_show_changes::proofs::life::Alike::renewed_alike))]
fn put_news(
    life: &mut Life,
    names: &Names,
    kernel: &Kernel,
    line: &mut Vec<u8>,
) -> Result<(), AllocError>
    ensures ok { (m : State) → Stands kernel.now m → OnOk result (line.new.items ≡ line.old.items ++ flat_map (report_since names.now m) life.old) }
    ensures report { (m : State) → Stands kernel.now m → OnOk result (life.new ≡ map (renewed names.now m) life.old) }
{
    life.put_changes(line, names, kernel.machine())
}

/// Adds what is told at boot, and keeps in mind what is.
#[tactic(auto, using(fmp_show_state::proofs::Alike::states_alike))]
fn put_boot(
    detail: &mut Detail,
    names: &Names,
    kernel: &Kernel,
    line: &mut Vec<u8>,
) -> Result<(), AllocError>
    ensures ok { (m : State) → Stands kernel.now m → OnOk result (line.new.items ≡ line.old.items ++ boot_text detail.old names.now m) }
    ensures report { (m : State) → Stands kernel.now m → OnOk result (detail.new ≡ report_in detail.old names.now m) }
    ensures nothing { detail.old ≡ Detail.Line → (result ≡ Ok tt) × (line.new ≡ line.old) }
{
    match detail {
        Detail::Line => Ok(()),
        Detail::State => put_state(line, names, kernel.machine()),
        Detail::Changes(changes) => changes.put_state(line, names, kernel),
        Detail::Life(life) => put_news(life, names, kernel, line),
    }
}

/// Adds the lines of things of which something changed, or takes the line away where there are none.
fn put_life(
    life: &mut Life,
    names: &Names,
    kernel: &Kernel,
    line: &mut Vec<u8>,
) -> Result<(), AllocError>
    ensures ok { (m : State) → Stands kernel.now m → OnOk result (line.new.items ≡ with_changes line.old.items (flat_map (report_since names.now m) life.old)) }
    ensures report { (m : State) → Stands kernel.now m → OnOk result (life.new ≡ map (renewed names.now m) life.old) }
{
    let bytes = line.len();
    put_news(life, names, kernel, line)?;
    if line.len() == bytes {
        line.clear();
    }
    Ok(())
}

/// Makes of the line of an event all that is told of it, and keeps in mind what is.
#[tactic(auto, using(fmp_show_state::proofs::Alike::states_alike))]
fn put_after(
    detail: &mut Detail,
    names: &Names,
    kernel: &Kernel,
    line: &mut Vec<u8>,
) -> Result<(), AllocError>
    ensures ok { (m : State) → Stands kernel.now m → OnOk result (line.new.items ≡ finished detail.old names.now line.old.items m) }
    ensures report { (m : State) → Stands kernel.now m → OnOk result (detail.new ≡ report_in detail.old names.now m) }
    ensures nothing { detail.old ≡ Detail.Line → (result ≡ Ok tt) × (line.new ≡ line.old) }
{
    match detail {
        Detail::Line => Ok(()),
        Detail::State => put_state(line, names, kernel.machine()),
        Detail::Changes(changes) => changes.put_changes(line, names, kernel),
        Detail::Life(life) => put_life(life, names, kernel, line),
    }
}

/// Why the next event is not answered. Each event's result has room for it, so it is less than a run's fault.
#[derive(Drop)]
enum Unanswered {
    /// The fault of the text.
    Text(TextFault),
    /// Memory ran out.
    Memory,
}

impl From<AllocError> for Unanswered {
    ghost from_gives = { λ _ reason. reason ≡ Memory };

    fn from(_error: AllocError) -> Unanswered {
        Unanswered::Memory
    }
}

impl From<Unanswered> for RunFault {
    ghost from_gives = { λ reason fault. fault ≡ fault_of reason };

    fn from(reason: Unanswered) -> RunFault {
        match reason {
            Unanswered::Text(fault) => RunFault::Text(fault),
            Unanswered::Memory => RunFault::Memory,
        }
    }
}

/// Whether a run ended with a failed write.
fn has_failed_write(ended: &Result<(), RunFault>) -> bool
    ensures { result ≡ failed_write ended.now }
{
    matches!(ended, Err(RunFault::Write))
}

/// From so many bytes on what is told is passed on.
const FULL: usize = 65_536;

/// A run that answers each event as it comes. It keeps the unread rest of one line, the last record, and what is told and not
/// passed on yet.
#[derive(Drop)]
pub struct Answering {
    detail: Detail,
    feed: EventFeed,
    kernel: Kernel,
    count: Count,
    report: Record,
    /// The text of the last event, where it is printed as it was written.
    echo: Echo,
    /// What is told of one event, where that is more than its line.
    entry: Vec<u8>,
    /// What is told of events and not passed on yet, where that is more than their lines.
    entries: Vec<u8>,
    /// The lines that are not passed on yet. They come after the entries.
    lines: LineBuffer,
}

impl Answering {
    /// The machine at boot, and no byte of the events yet.
    pub fn new(alloc: Global, detail: Detail, config: &Config) -> Result<Answering, AllocError>
        ensures detail { IfOk result (λ a. a.detail ≡ detail) }
        ensures feed { IfOk result (λ a. a.feed ≡ new_feed) }
        ensures stands { IfOk result (λ a. Stands a.kernel (booted config.now)) }
        ensures processors { IfOk result (λ a. length a.kernel.processors ≡ config.now.processors) }
        ensures count { IfOk result (λ a. a.count ≡ 0) }
        ensures passed { IfOk result (λ a. pending a ≡ []) }
        ensures valid { OnOk result (IsValid config.now) }
    {
        Ok(Answering {
            detail,
            feed: EventFeed::new(alloc)?,
            kernel: Kernel::boot(config)?,
            count: Count::new(),
            report: Record::answer(Event::Tick(Proc::new(1)), None, Answer::Nothing),
            echo: Echo::new(),
            entry: Vec::new(alloc),
            entries: Vec::new(alloc),
            lines: LineBuffer::new(alloc)?,
        })
    }

    /// Whether the text of the events has ended.
    pub fn has_ended(&self) -> bool
        ensures { result ≡ self.now.feed.ended }
    {
        self.feed.ended()
    }

    /// Writes what is told before the first event: the state at boot, or the lines of things, where these are told.
    pub fn begin<W: Sink>(&mut self, names: &Names, trace: &mut W) -> Result<(), RunFault>
        requires calls { W.failures trace.old < 2 ^ 64 - 1 }
        ensures detail { (m : State) → Stands self.old.kernel m → OnOk result (self.new.detail ≡ report_in self.old.detail names.now m) }
        ensures same { (self.new.feed ≡ self.old.feed) × (self.new.kernel ≡ self.old.kernel) × (self.new.count ≡ self.old.count) }
        ensures passed { pending self.new ≡ pending self.old }
        ensures known { IsKnown (W.written trace.old) → IsKnown (W.written trace.new) }
        ensures ok { IsKnown (W.written trace.old) → (m : State) → Stands self.old.kernel m
            → OnOk result (bytes_of (W.written trace.new) ≡ bytes_of (W.written trace.old) ++ boot_text self.old.detail names.now m) }
        ensures memory { IsKnown (W.written trace.old) → result ≡ Err RunFault.Memory → bytes_of (W.written trace.new) ≡ bytes_of (W.written trace.old) }
        ensures write { IsKnown (W.written trace.old) → (m : State) → Stands self.old.kernel m → result ≡ Err RunFault.Write
            → BeginsWith (bytes_of (W.written trace.old)) (boot_text self.old.detail names.now m) (bytes_of (W.written trace.new)) }
        ensures kinds { IfErr result (λ fault. (fault ≡ RunFault.Memory) ⊎ (fault ≡ RunFault.Write)) }
        ensures no_thread_fault { IfErr result (λ fault. is_thread_fault fault ≡ false) }
        ensures writes { W.failures trace.new ≡ W.failures trace.old + (if failed_write result then 1 else 0) }
    {
        self.entry.clear();
        put_boot(&mut self.detail, names, &self.kernel, &mut self.entry)?;
        Ok(write_all(trace, self.entry.as_slice())?)
    }

    /// Adds what is told of the last event, where that is more than its line.
    #[inline(never)]
    fn put_entry(&mut self, names: &Names) -> Result<(), AllocError>
        ensures detail { (m : State) → Stands self.old.kernel m → OnOk result (self.new.detail ≡ report_in self.old.detail names.now m) }
        ensures same { (self.new.feed ≡ self.old.feed) × (self.new.kernel ≡ self.old.kernel) × (self.new.count ≡ self.old.count) }
        ensures ok { (m : State) → Stands self.old.kernel m
            → OnOk result (pending self.new ≡ pending self.old ++ finished self.old.detail names.now (line_text names.now self.old.count self.old.report) m) }
        ensures err { OnErr result (pending self.new ≡ pending self.old) }
    {
        self.entries.extend_from_slice(self.lines.as_slice())?;
        self.lines.clear();
        trace_line(self.count.number(), &self.report, names, &mut self.entry)?;
        put_after(&mut self.detail, names, &self.kernel, &mut self.entry)?;
        self.entries.extend_from_slice(self.entry.as_slice())
    }

    /// Answers the event that the last record tells, and keeps what is told of it.
    #[inline(always)]
    fn answer(&mut self, names: &Names) -> Result<(), AllocError>
        requires echo { IsEcho self.old.echo (event_text names.now self.old.report.event) }
        requires counts { self.old.count < 2 ^ 32 - 1 }
        requires on { (processor_of self.old.report.event).number ≤ length self.old.kernel.processors }
        requires room { length self.old.lines < full_bytes }
        ensures detail { (m : State) → Stands self.old.kernel m
            → OnOk result (self.new.detail ≡ report_in self.old.detail names.now (step_of numbered m self.old.report.event).0) }
        ensures feed { self.new.feed ≡ self.old.feed }
        ensures stands { (m : State) → Stands self.old.kernel m → Stands self.new.kernel (step_of numbered m self.old.report.event).0 }
        ensures processors { length self.new.kernel.processors ≡ length self.old.kernel.processors }
        ensures count { self.new.count ≡ self.old.count + 1 }
        ensures ok { (m : State) → Stands self.old.kernel m
            → OnOk result (pending self.new ≡ pending self.old ++ entry_text self.old.detail names.now (self.old.count + 1) (step_of numbered m self.old.report.event)) }
        ensures err { OnErr result (pending self.new ≡ pending self.old) }
        ensures lines { self.old.detail ≡ Detail.Line → result ≡ Ok tt }
    {
        // The digits are changed long before they are copied, so that the copy does not have to wait for them.
        self.count.increase();
        self.kernel.step_recorded(&mut self.report);
        match self.detail {
            Detail::Line => {
                line_is_short(names, &self.report);
                self.lines
                    .put_kept_line(names, &self.count, &self.report, &self.echo);
                Ok(())
            }
            _ => self.put_entry(names),
        }
    }

    /// Passes on what is told.
    #[inline(never)]
    fn pass<W: Sink>(&mut self, trace: &mut W) -> Result<(), Failed>
        requires calls { W.failures trace.old < 2 ^ 64 - 1 }
        ensures same { (self.new.feed ≡ self.old.feed) × (self.new.kernel ≡ self.old.kernel) × (self.new.count ≡ self.old.count) × (self.new.detail ≡ self.old.detail) }
        ensures known { IsKnown (W.written trace.old) → IsKnown (W.written trace.new) }
        ensures passed { OnOk result (pending self.new ≡ []) }
        ensures lines { OnOk result (self.new.lines ≡ []) }
        ensures ok { IsKnown (W.written trace.old) → OnOk result (bytes_of (W.written trace.new) ≡ bytes_of (W.written trace.old) ++ pending self.old) }
        ensures err { IsKnown (W.written trace.old) → OnErr result (BeginsWith (bytes_of (W.written trace.old)) (pending self.old) (bytes_of (W.written trace.new))) }
        ensures writes { W.failures trace.new ≡ W.failures trace.old + (if is_err result then 1 else 0) }
    {
        write_all(trace, self.entries.as_slice())?;
        self.entries.clear();
        write_all(trace, self.lines.as_slice())?;
        self.lines.clear();
        Ok(())
    }

    /// Passes on what is told, where that is much.
    #[inline(always)]
    fn make_room<W: Sink>(&mut self, trace: &mut W) -> Result<(), Failed>
        requires calls { W.failures trace.old < 2 ^ 64 - 1 }
        ensures same { (self.new.feed ≡ self.old.feed) × (self.new.kernel ≡ self.old.kernel) × (self.new.count ≡ self.old.count) × (self.new.detail ≡ self.old.detail) }
        ensures known { IsKnown (W.written trace.old) → IsKnown (W.written trace.new) }
        ensures room { OnOk result (length self.new.lines < full_bytes) }
        ensures ok { IsKnown (W.written trace.old)
            → OnOk result (PassesSome (bytes_of (W.written trace.old)) (pending self.old) (bytes_of (W.written trace.new)) (pending self.new)) }
        ensures err { IsKnown (W.written trace.old) → OnErr result (BeginsWith (bytes_of (W.written trace.old)) (pending self.old) (bytes_of (W.written trace.new))) }
        ensures writes { W.failures trace.new ≡ W.failures trace.old + (if is_err result then 1 else 0) }
    {
        if self.lines.is_full() || FULL <= self.entries.len() {
            return self.pass(trace);
        }
        Ok(())
    }

    /// Answers the next event whose line is whole, and says whether there was one.
    #[inline(always)]
    fn answer_next(&mut self, config: &Config) -> Result<bool, Unanswered>
        requires counted { self.old.count ≡ self.old.feed.events }
        requires few { self.old.feed.events ≤ most_events }
        requires processors { length self.old.kernel.processors ≡ config.now.processors }
        requires room { length self.old.lines < full_bytes }
        ensures answers { OnOk result (AnswersOn config.now self.old self.new) }
        ensures first { IfErr result (λ reason. (d : Detail) (text : List ℕ) (whole : Reading) (old out remaining : List ℕ)
            → Answers d false config.now text whole old self.old out remaining → FirstEventFault whole (fault_of reason)) }
        ensures leaves { IfErr result (λ reason. (d : Detail) (text : List ℕ) (whole : Reading) (old out remaining : List ℕ)
            → Answers d true config.now text whole old self.old out remaining → Leaves d config.now text whole old out (fault_of reason)) }
        ensures kept { OnErr result (pending self.new ≡ pending self.old) }
        ensures counted { OnOk result (self.new.count ≡ self.new.feed.events) }
        ensures moves { IfOk result (λ more. self.new.feed.events ≡ self.old.feed.events + (if more then 1 else 0)) }
        ensures few { OnOk result (self.new.feed.events ≤ most_events) }
        ensures processors { length self.new.kernel.processors ≡ length self.old.kernel.processors }
        ensures wanting { IfOk result (λ more. more ≡ false → IsWanting self.new.feed) }
        ensures done { IfOk result (λ more. more ≡ false → self.new.feed.ended ≡ true → IsDone config.now.names self.new.feed) }
        ensures same { (self.new.feed.ended ≡ self.old.feed.ended) × (self.new.feed.taken ≡ self.old.feed.taken) × (self.new.feed.dropped ≡ self.old.feed.dropped) }
        ensures kinds { IfErr result (λ reason. (is_read (fault_of reason) ≡ false) × (is_config (fault_of reason) ≡ false) × (is_write (fault_of reason) ≡ false)) }
        ensures no_thread_fault { IfErr result (λ reason. is_thread_fault (fault_of reason) ≡ false) }
    {
        let names = config.names();
        match self
            .feed
            .next_into(names, &mut self.report.event, &mut self.echo)
        {
            Ok(true) => {
                self.answer(names)?;
                Ok(true)
            }
            Ok(false) => Ok(false),
            Err(fault) => Err(Unanswered::Text(fault)),
        }
    }

    /// Answers each event whose line is whole, and passes on what is told as often as that is much.
    fn gather<W: Sink>(&mut self, config: &Config, trace: &mut W) -> Result<(), RunFault>
        requires calls { W.failures trace.old < 2 ^ 64 - 1 }
        requires counted { self.old.count ≡ self.old.feed.events }
        requires few { self.old.feed.events ≤ most_events }
        requires processors { length self.old.kernel.processors ≡ config.now.processors }
        ensures known { IsKnown (W.written trace.old) → IsKnown (W.written trace.new) }
        ensures answers { OnOk result (GathersOn config.now self.old self.new (W.written trace.old) (W.written trace.new)) }
        ensures first { IfErr result (FirstFrom config.now self.old (bytes_of (W.written trace.old))) }
        ensures leaves { IsKnown (W.written trace.old) → IfErr result (λ fault. is_write fault ≡ false
            → LeavesFrom config.now self.old (bytes_of (W.written trace.old)) (bytes_of (W.written trace.new) ++ pending self.new) fault) }
        ensures begun { IsKnown (W.written trace.old) → failed_write result ≡ false
            → BeginsFrom config.now self.old self.new (bytes_of (W.written trace.old)) (bytes_of (W.written trace.new)) }
        ensures write { IsKnown (W.written trace.old) → failed_write result ≡ true
            → LeavesFrom config.now self.old (bytes_of (W.written trace.old)) (bytes_of (W.written trace.new)) RunFault.Write }
        ensures counted { OnOk result (self.new.count ≡ self.new.feed.events) }
        ensures few { OnOk result (self.new.feed.events ≤ most_events) }
        ensures processors { length self.new.kernel.processors ≡ length self.old.kernel.processors }
        ensures wanting { OnOk result (IsWanting self.new.feed) }
        ensures done { OnOk result (self.new.feed.ended ≡ true → IsDone config.now.names self.new.feed) }
        ensures same { (self.new.feed.ended ≡ self.old.feed.ended) × (self.new.feed.taken ≡ self.old.feed.taken) × (self.new.feed.dropped ≡ self.old.feed.dropped) }
        ensures kinds { IfErr result (λ fault. (is_read fault ≡ false) × (is_config fault ≡ false)) }
        ensures no_thread_fault { IfErr result (λ fault. is_thread_fault fault ≡ false) }
        ensures writes { W.failures trace.new ≡ W.failures trace.old + (if failed_write result then 1 else 0) }
    {
        self.make_room(trace)?;
        while self.answer_next(config)? {
            self.make_room(trace)?;
        }
        Ok(())
    }

    /// Answers each event whose line is whole. What is told of them is passed on, also before a fault.
    pub fn drain<W: Sink>(&mut self, config: &Config, trace: &mut W) -> Result<(), RunFault>
        requires calls { W.failures trace.old < 2 ^ 64 - 1 }
        requires counted { self.old.count ≡ self.old.feed.events }
        requires few { self.old.feed.events ≤ most_events }
        requires processors { length self.old.kernel.processors ≡ config.now.processors }
        ensures known { IsKnown (W.written trace.old) → IsKnown (W.written trace.new) }
        ensures streams { OnOk result (StreamsOn config.now self.old self.new (W.written trace.old) (W.written trace.new)) }
        ensures first { IfErr result (FirstFrom config.now self.old (bytes_of (W.written trace.old))) }
        ensures leaves { IsKnown (W.written trace.old) → IfErr result (LeavesFrom config.now self.old (bytes_of (W.written trace.old)) (bytes_of (W.written trace.new))) }
        ensures counted { OnOk result (self.new.count ≡ self.new.feed.events) }
        ensures few { OnOk result (self.new.feed.events ≤ most_events) }
        ensures processors { length self.new.kernel.processors ≡ length self.old.kernel.processors }
        ensures wanting { OnOk result (IsWanting self.new.feed) }
        ensures done { OnOk result (self.new.feed.ended ≡ true → IsDone config.now.names self.new.feed) }
        ensures same { (self.new.feed.ended ≡ self.old.feed.ended) × (self.new.feed.taken ≡ self.old.feed.taken) × (self.new.feed.dropped ≡ self.old.feed.dropped) }
        ensures kinds { IfErr result (λ fault. (is_read fault ≡ false) × (is_config fault ≡ false)) }
        ensures no_thread_fault { IfErr result (λ fault. is_thread_fault fault ≡ false) }
        ensures writes { W.failures trace.new ≡ W.failures trace.old + (if failed_write result then 1 else 0) }
    {
        let gathered = self.gather(config, trace);
        if has_failed_write(&gathered) {
            return gathered;
        }
        self.pass(trace)?;
        gathered
    }

    /// Reads a further piece of the text, or its end. The trace holds nothing back meanwhile, so who gives events one by one has
    /// the answers to all that were given. What will come is not known: so this is told of each text that begins with what was handed over.
    pub fn take_piece<S: Source, W: Sink>(
        &mut self,
        events: &mut S,
        trace: &W,
        piece: &mut [u8],
    ) -> Result<(), RunFault>
        requires passed { W.buffered trace.now ≡ [] }
        requires calls { S.failures events.old < 2 ^ 64 - 1 }
        requires wanting { IsWanting self.old.feed }
        requires unended { self.old.feed.ended ≡ false }
        requires fits { self.old.feed.taken ≤ most_bytes }
        requires room { length piece.old ≡ 65536 }
        ensures moves { Moves (S.given events.old) (S.given events.new) (S.left events.old) (S.left events.new) }
        ensures streams { (all rest : List ℕ) → S.given events.old ++ all ≡ S.given events.new ++ rest → (self.new.feed.ended ≡ true → rest ≡ [])
            → (d : Detail) (tells : Bool) (c : Setup) (text : List ℕ) (whole : Reading) (old written : List ℕ)
            → Streams d tells c text whole old self.old written all → OnOk result (Streams d tells c text whole old self.new written rest) }
        ensures leaves { (all rest : List ℕ) → S.given events.old ++ all ≡ S.given events.new ++ rest
            → (d : Detail) (c : Setup) (text : List ℕ) (whole : Reading) (old written : List ℕ) → Streams d true c text whole old self.old written all
            → IfErr result (Leaves d c text whole old written) }
        ensures first { (whole : Reading) → IfErr result (FirstEventFault whole) }
        ensures end { OnOk result (self.new.feed.ended ≡ true → S.ended events.new ≡ true) }
        ensures counts { (self.new.count ≡ self.old.count) × (self.new.feed.events ≡ self.old.feed.events) × (self.new.kernel ≡ self.old.kernel)
            × (self.new.detail ≡ self.old.detail) × (pending self.new ≡ pending self.old) }
        ensures fits { OnOk result (self.new.feed.taken ≤ most_bytes) }
        ensures grows { OnOk result (self.new.feed.ended ≡ false → self.new.feed.dropped ≡ false → (self.old.feed.taken < self.new.feed.taken)
            × (self.new.feed.taken ≤ most_bytes)) }
        ensures kinds { IfErr result (λ fault. (is_write fault ≡ false) × (is_config fault ≡ false)) }
        ensures no_thread_fault { IfErr result (λ fault. is_thread_fault fault ≡ false) }
        ensures reads { S.failures events.new ≡ S.failures events.old + (if failed_read result then 1 else 0) }
    {
        match events.read(piece) {
            Err(Failed) => Err(RunFault::Read),
            Ok(0) => {
                self.feed.close();
                Ok(())
            }
            Ok(count) => match self.feed.push(&piece[..count]) {
                Ok(()) => Ok(()),
                Err(fault) => Err(RunFault::Text(fault)),
            },
        }
    }
}
