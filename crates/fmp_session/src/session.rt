//! A machine that answers event after event.
ghost use Rattle.std.specs.Prelude.{◌≡◌, ◌≤◌, ◌<◌, ◌+◌, ◌++◌, ◌↔◌, [], ◌∷◌, true, false, List};
ghost use Rattle.std.specs.Prelude.{IsOk, IfOk, IfErr, IfSome, OnOk, OnErr, Ok, Err, None, Some, is_some, if◌then◌else◌, slice_get, length};
ghost use Rattle.fmp_config.specs.Faults.{IsFirstFault};
ghost use Rattle.fmp_config.specs.Reading.{config_in};
ghost use Rattle.fmp_codes.specs.declared.records.Event.{Event as AnyEvent};
ghost use Rattle.fmp_codes.specs.declared.records.Record.{Record as AnyRecord};
ghost use Rattle.fmp_kernel_machine.specs.Alike.{AreAlike};
ghost use Rattle.fmp_setup.specs.Setup.{Setup};
ghost use Rattle.fmp_session.specs.Sessions as spec;
ghost use Rattle.fmp_session.specs.Sessions.{IsAt};
ghost use Rattle.fmp_show_state.specs.States.{state_text};
ghost use Rattle.fmp_text.specs.Lines.{line_event};
ghost use Rattle.fmp_trace.specs.Lines.{line_text};

use crate::refused::Refused;
use fmp_codes::{Answer, Event, Proc, Record, Release};
use fmp_config::{Config, ConfigFault, read_config};
use fmp_config_statements::ReadError;
use fmp_kernel::Kernel;
use fmp_show_state::put_state;
use fmp_text::line_event;
use fmp_trace::trace_line;
use std::alloc::{AllocError, Global};

/// The room that a session takes for a line before the first event: no line of a trace has more bytes.
const LINE_ROOM: usize = 10_394;

/// The machine of a configuration after some events. It takes its memory when it is made; a step takes none.
#[derive(Drop)]
pub struct Session {
    config: Config,
    kernel: Kernel,
    /// How many events it has answered.
    count: u32,
    /// What the last of them did, where `is_reported` says that it was answered here.
    report: Record,
    is_reported: bool,
    text: Vec<u8>,
}

/// Writes bytes at the beginning of a room, where they fit. Else nothing is written.
fn put(bytes: &[u8], room: &mut [u8]) -> Result<usize, Refused>
    ensures fits { result ≡ (spec.placed bytes.now room.old) }
    ensures ok { OnOk result (room.new ≡ spec.written_over bytes.now room.old) }
    ensures same { OnErr result (room.new ≡ room.old) }
{
    if room.len() < bytes.len() {
        return Err(Refused::Room);
    }
    room[..bytes.len()].copy_from_slice(bytes);
    Ok(bytes.len())
}

impl Session {
    /// The machine of a configuration, at boot.
    #[tactic(auto, using(crate::proofs::Runs::is_at_boot))]
    pub fn boot(alloc: Global, config: Config) -> Result<Session, AllocError>
        ensures at { IfOk result (λ s. IsAt s config []) }
        ensures fresh { IfOk result (λ s. s.is_reported ≡ false) }
    {
        let kernel = Kernel::boot(&config)?;
        Ok(Session {
            config,
            kernel,
            count: 0,
            report: Record::answer(Event::Tick(Proc::new(1)), None, Answer::Nothing),
            is_reported: false,
            text: Vec::with_capacity(alloc, LINE_ROOM)?,
        })
    }

    /// The machine of a text's configuration, at boot. The error is the text's first fault, or want of memory.
    pub fn read(alloc: Global, text: &[u8]) -> Result<Session, ConfigFault>
        ensures says { IfOk result (λ s. config_in text.now ≡ Ok s.config) }
        ensures at { IfOk result (λ s. IsAt s s.config []) }
        ensures fresh { IfOk result (λ s. s.is_reported ≡ false) }
        ensures fault { IfErr result (IsFirstFault text.now) }
    {
        let config = read_config(alloc, text)?;
        match Session::boot(alloc, config) {
            Ok(session) => Ok(session),
            Err(_) => Err(ConfigFault::of(ReadError::Memory)),
        }
    }

    /// How many events it has answered.
    pub fn count(&self) -> u32
        ensures { result ≡ self.now.count }
    {
        self.count
    }

    /// What the last event did, where it was answered here.
    pub fn report(&self) -> Option<&Record>
        ensures report { IfSome result (λ r. r.now ≡ self.now.report) }
        ensures is_reported { is_some result ≡ self.now.is_reported }
    {
        if self.is_reported {
            Some(&self.report)
        } else {
            None
        }
    }

    /// The end of a wait that the last event brought, at a place from 0.
    pub fn release(&self, place: usize) -> Option<Release>
        ensures { result ≡ (if self.now.is_reported then slice_get self.now.report.releases place else None) }
    {
        if self.is_reported {
            self.report.releases.get(place)
        } else {
            None
        }
    }

    /// The processor that the last event asks, at a place from 0.
    pub fn request(&self, place: usize) -> Option<Proc>
        ensures { result ≡ (if self.now.is_reported then slice_get self.now.report.requests place else None) }
    {
        if self.is_reported {
            self.report.requests.as_slice().get(place).copied()
        } else {
            None
        }
    }

    /// The event of a line, by the names of the configuration.
    pub fn event_in(&self, line: &[u8]) -> Result<Event, Refused>
        ensures { result ≡ spec.one_of (line_event self.now.config.names line.now) }
    {
        let found = match line_event(self.config.names(), line) {
            Ok(found) => found,
            Err(_) => return Err(Refused::Line),
        };
        match found {
            Some(event) => Ok(event),
            None => Err(Refused::Line),
        }
    }

    /// Answers an event.
    #[tactic(auto, using(crate::proofs::Runs::is_at_next))]
    pub fn step(&mut self, event: Event) -> Result<(), Refused>
        ensures allowed { result ≡ spec.allowed (length self.old.kernel.processors) self.old.count event }
        ensures at { (c : Setup) (es : List AnyEvent) → IsAt self.old c es → OnOk result (IsAt self.new c (es ++ event ∷ [])) }
        ensures record { (c : Setup) (es : List AnyEvent) → IsAt self.old c es → OnOk result (self.new.report ≡ spec.record_after c es event) }
        ensures report { OnOk result (self.new.is_reported ≡ true) }
        ensures same { OnErr result (self.new ≡ self.old) }
    {
        if self.kernel.processors() < usize::from(event.processor().number) {
            return Err(Refused::Processor);
        }
        if self.count == u32::MAX {
            return Err(Refused::Full);
        }
        self.kernel.step_into(event, &mut self.report);
        self.count += 1;
        self.is_reported = true;
        Ok(())
    }

    /// Writes the line of the last event at the beginning of a room, and says how many bytes it has.
    #[tactic(auto, using(crate::proofs::Runs::line_is))]
    pub fn put_line(&mut self, room: &mut [u8]) -> Result<usize, Refused>
        ensures ok { OnOk result (room.new ≡ spec.written_over (line_text self.old.config.names self.old.count self.old.report) room.old) }
        ensures length { IfOk result (λ n. n ≡ length (line_text self.old.config.names self.old.count self.old.report)) }
        ensures small { result ≡ Err Refused.Room → length room.old < length (line_text self.old.config.names self.old.count self.old.report) }

        // The same, of the model.
        ensures model { (c : Setup) (es : List AnyEvent) (r : AnyRecord) → IsAt self.old c es → spec.last_record c es ≡ Some r
            → OnOk result (room.new ≡ spec.written_over (line_text c.names (length es) r) room.old) }
        ensures report { (result ≡ Err Refused.Nothing) ↔ (self.old.is_reported ≡ false) }
        ensures same { OnErr result (room.new ≡ room.old) }
        ensures session { self.new ≡ record self.old { text = self.new.text } }
    {
        if !self.is_reported {
            return Err(Refused::Nothing);
        }
        if trace_line(
            self.count,
            &self.report,
            self.config.names(),
            &mut self.text,
        )
        .is_err()
        {
            return Err(Refused::Memory);
        }
        put(self.text.as_slice(), room)
    }

    /// Writes the text of the state at the beginning of a room, and says how many bytes it has.
    #[tactic(auto, using(fmp_show_state::proofs::Alike::states_alike))]
    pub fn put_state(&mut self, room: &mut [u8]) -> Result<usize, Refused>
        ensures ok { (c : Setup) (es : List AnyEvent) → IsAt self.old c es
            → OnOk result (room.new ≡ spec.written_over (state_text c.names (spec.state_after c es)) room.old) }
        ensures length { (c : Setup) (es : List AnyEvent) → IsAt self.old c es
            → IfOk result (λ n. n ≡ length (state_text c.names (spec.state_after c es))) }
        ensures small { (c : Setup) (es : List AnyEvent) → IsAt self.old c es
            → result ≡ Err Refused.Room → length room.old < length (state_text c.names (spec.state_after c es)) }
        ensures same { OnErr result (room.new ≡ room.old) }
        ensures session { self.new ≡ record self.old { text = self.new.text } }
    {
        self.text.clear();
        if put_state(&mut self.text, self.config.names(), self.kernel.machine()).is_err() {
            return Err(Refused::Memory);
        }
        put(self.text.as_slice(), room)
    }

    /// Becomes as another one is, where both are of one configuration. It takes no memory.
    #[tactic(auto, using(crate::proofs::Runs::is_at_copy))]
    pub fn copy_from(&mut self, other: &Session) -> Result<(), Refused>
        ensures at { (c : Setup) (es : List AnyEvent) → IsAt other.now c es → OnOk result (IsAt self.new c es) }
        ensures ok { OnOk result ((self.new.config ≡ other.now.config) × (self.new.kernel ≡ other.now.kernel) × (self.new.count ≡ other.now.count)) }
        ensures report { OnOk result (self.new.is_reported ≡ false) }
        ensures alike { IsOk result ↔ ((self.old.config ≡ other.now.config) × AreAlike self.old.kernel other.now.kernel) }
        ensures error { IfErr result (λ e. e ≡ Refused.Different) }
        ensures same { OnErr result (self.new ≡ self.old) }
    {
        if !self.config.is_same(&other.config) {
            return Err(Refused::Different);
        }
        if !self.kernel.copy_from(&other.kernel) {
            return Err(Refused::Different);
        }
        self.count = other.count;
        self.is_reported = false;
        Ok(())
    }
}
