//! What C calls. Each export takes the session out of C's handle, does what the library's function does, and puts it back.
//!
//! A result of 0 says that it was done; else it says why not, as `Refused` numbers it, and nothing changed but where this is said.
ghost use Rattle.std.specs.Prelude.{◌≡◌, ◌≢◌, ◌↔◌, ◌⊎◌, ◌<◌, ◌+◌, ◌++◌, ◌==◌, [], ◌∷◌, if◌then◌else◌, false};
ghost use Rattle.std.specs.Prelude.{Ok, Some, None, List, IfOk, IfErr, OnErr, IfSome, IfNone, IsSome, length, pos};
ghost use Rattle.fmp_codes.specs.declared.records.Event.{Event as AnyEvent};
ghost use Rattle.fmp_codes.specs.declared.records.Record.{Record as AnyRecord};
ghost use Rattle.fmp_config.specs.Faults.{IsFirstFault};
ghost use Rattle.fmp_config.specs.Reading.{config_in};
ghost use Rattle.fmp_setup.specs.Setup.{Setup};
ghost use Rattle.fmp_session.specs.Numbers.{event_from};
ghost use Rattle.fmp_session.specs.Refusals.{number_of};
ghost use Rattle.fmp_session.specs.Sessions as sessions;
ghost use Rattle.fmp_session.specs.Sessions.{IsAt};
ghost use Rattle.fmp_show_state.specs.States.{state_text};
ghost use Rattle.fmp_text.specs.Lines.{line_event};
ghost use Rattle.fmp_trace.specs.Lines.{line_text};
ghost use Rattle.fmp_c.specs.Machines as spec;
ghost use Rattle.fmp_c.specs.Report as plain;

use crate::handle::Held;
use crate::machine::Machine;
use crate::report::{Asked, Fault, Freed, Report, fault_of, freed_of, processor_number, report_of};
use fmp_codes::Event;
use fmp_config::ConfigFault;
use fmp_config_statements::ReadError;
use fmp_session::{Refused, Session, event_of};
use std::alloc::Global;

/// The machine of a text's configuration, at boot, in memory of its own.
fn made(alloc: Global, text: &[u8]) -> Result<Held, ConfigFault>
    ensures says { IfOk result (λ h. config_in text.now ≡ Ok h.session.value.config) }
    ensures at { IfOk result (λ h. IsAt h.session.value h.session.value.config []) }
    ensures fault { IfErr result (IsFirstFault text.now) }
{
    let session = Session::read(alloc, text)?;
    match Held::new(alloc, session) {
        Ok(held) => Ok(held),
        Err(_) => Err(ConfigFault::of(ReadError::Memory)),
    }
}

/// Tells a fault. The result is that of a text with a fault, or of want of memory.
fn tell_fault(found: &ConfigFault, report: &mut Fault) -> i32
    ensures kind { report.new.kind ≡ plain.kind_number found.now.kind }
    ensures line { report.new.line ≡ found.now.line }
    ensures which { result ≡ (if report.new.kind == 12 then pos 1 else pos 2) }
{
    *report = fault_of(found);
    if report.kind == 12 { 1 } else { 2 }
}

/// Makes the machine of a configuration text, at boot. What the handle had before is freed first. The result is 0, 1 for want of memory,
/// or 2 for a text with a fault. In both of these cases the first fault is told, and the handle has no machine.
#[unsafe(no_mangle)]
#[tactic(auto, using(crate::proofs::Steps::fault_is))]
pub extern "C" fn fmp_make_at(
    alloc: Global,
    machine: &mut Machine,
    text: &[u8],
    fault: &mut Fault,
) -> i32
    ensures says { IfSome machine.new.handle.held (λ s. config_in text.now ≡ Ok s.config) }
    ensures at { IfSome machine.new.handle.held (λ s. IsAt s s.config []) }
    ensures made { IsSome machine.new.handle.held ↔ (result ≡ pos 0) }
    ensures fault { IfNone machine.new.handle.held (spec.TellsFault text.now fault.new) }
    ensures which { IfNone machine.new.handle.held (result ≡ (if fault.new.kind == 12 then pos 1 else pos 2)) }
    ensures same { result ≡ pos 0 → fault.new ≡ fault.old }
{
    fmp_free_at(alloc, machine);
    match made(alloc, text) {
        Err(found) => tell_fault(&found, fault),
        Ok(held) => {
            machine.put(held);
            0
        }
    }
}

/// Frees a machine. A handle without one stays as it is.
#[unsafe(no_mangle)]
pub extern "C" fn fmp_free_at(alloc: Global, machine: &mut Machine)
    ensures { machine.new.handle.held ≡ None }
{
    if let Some(held) = machine.take(alloc) {
        held.free();
    }
}

/// Answers an event, where there is one, and tells what it did.
#[tactic(auto, using(crate::proofs::Steps::report_is))]
fn step_on(session: &mut Session, event: Result<Event, Refused>, report: &mut Report) -> i32
    ensures outcome { result ≡ spec.step_outcome (Some session.old) event }
    ensures at { (c : Setup) (es : List AnyEvent) (e : AnyEvent) → event ≡ Ok e → IsAt session.old c es → result ≡ pos 0 → IsAt session.new c (es ++ e ∷ []) }
    ensures report { (c : Setup) (es : List AnyEvent) (e : AnyEvent) → event ≡ Ok e → IsAt session.old c es → result ≡ pos 0
        → report.new ≡ plain.report_of (length es + 1) (sessions.record_after c es e) }
    ensures same { result ≢ pos 0 → (session.new ≡ session.old) × (report.new ≡ report.old) }
{
    let event = match event {
        Ok(event) => event,
        Err(why) => return why.number(),
    };
    if let Err(why) = session.step(event) {
        return why.number();
    }
    if let Some(record) = session.report() {
        *report = report_of(session.count(), record);
    }
    0
}

/// Answers an event that is told by numbers, and tells what it did.
#[unsafe(no_mangle)]
pub extern "C" fn fmp_step_at(
    alloc: Global,
    machine: &mut Machine,
    event: &Asked,
    report: &mut Report,
) -> i32
    ensures outcome { result ≡ spec.step_outcome machine.old.handle.held (event_from event.now.processor event.now.event event.now.arguments) }
    ensures at { (c : Setup) (es : List AnyEvent) (e : AnyEvent) → event_from event.now.processor event.now.event event.now.arguments ≡ Ok e
        → spec.Holds machine.old.handle.held c es → result ≡ pos 0 → spec.Holds machine.new.handle.held c (es ++ e ∷ []) }
    ensures report { (c : Setup) (es : List AnyEvent) (e : AnyEvent) → event_from event.now.processor event.now.event event.now.arguments ≡ Ok e
        → spec.Holds machine.old.handle.held c es → result ≡ pos 0 → report.new ≡ plain.report_of (length es + 1) (sessions.record_after c es e) }
    ensures same { result ≢ pos 0 → (machine.new.handle.held ≡ machine.old.handle.held) × (report.new ≡ report.old) }
{
    match machine.take(alloc) {
        None => Refused::NoMachine.number(),
        Some(mut held) => {
            let asked = event_of(event.processor, event.event, &event.arguments);
            let outcome = step_on(&mut held.session, asked, report);
            machine.put(held);
            outcome
        }
    }
}

/// Answers the event of a line, as `P1 act_tsk(2)` by the names of the configuration, and tells what it did.
#[unsafe(no_mangle)]
pub extern "C" fn fmp_step_text_at(
    alloc: Global,
    machine: &mut Machine,
    line: &[u8],
    report: &mut Report,
) -> i32
    ensures none { machine.old.handle.held ≡ None → result ≡ number_of Refused.NoMachine }
    ensures outcome { (c : Setup) (es : List AnyEvent) → spec.Holds machine.old.handle.held c es
        → result ≡ spec.step_outcome machine.old.handle.held (sessions.one_of (line_event c.names line.now)) }
    ensures at { (c : Setup) (es : List AnyEvent) (e : AnyEvent) → line_event c.names line.now ≡ Ok (Some e)
        → spec.Holds machine.old.handle.held c es → result ≡ pos 0 → spec.Holds machine.new.handle.held c (es ++ e ∷ []) }
    ensures report { (c : Setup) (es : List AnyEvent) (e : AnyEvent) → line_event c.names line.now ≡ Ok (Some e)
        → spec.Holds machine.old.handle.held c es → result ≡ pos 0 → report.new ≡ plain.report_of (length es + 1) (sessions.record_after c es e) }
    ensures same { result ≢ pos 0 → (machine.new.handle.held ≡ machine.old.handle.held) × (report.new ≡ report.old) }
{
    match machine.take(alloc) {
        None => Refused::NoMachine.number(),
        Some(mut held) => {
            let asked = held.session.event_in(line);
            let outcome = step_on(&mut held.session, asked, report);
            machine.put(held);
            outcome
        }
    }
}

/// Puts down how many bytes were written, if they were.
fn note_length(written: Result<usize, Refused>, length: &mut usize) -> i32
    ensures outcome { result ≡ spec.outcome written }
    ensures length { IfOk written (λ n. length.new ≡ n) }
    ensures same { OnErr written (length.new ≡ length.old) }
{
    match written {
        Ok(count) => {
            *length = count;
            0
        }
        Err(why) => why.number(),
    }
}

/// Writes the line of the last event, as it stands in a trace, with its line feed, into a room.
#[unsafe(no_mangle)]
#[tactic(auto, using(crate::proofs::Answers::outcome_is))]
pub extern "C" fn fmp_line_at(
    alloc: Global,
    machine: &mut Machine,
    room: &mut [u8],
    count: &mut usize,
) -> i32
    ensures none { machine.old.handle.held ≡ None → result ≡ number_of Refused.NoMachine }
    ensures ok { (c : Setup) (es : List AnyEvent) (r : AnyRecord) → spec.Holds machine.old.handle.held c es → sessions.last_record c es ≡ Some r
        → result ≡ pos 0 → room.new ≡ sessions.written_over (line_text c.names (length es) r) room.old }
    ensures count { (c : Setup) (es : List AnyEvent) (r : AnyRecord) → spec.Holds machine.old.handle.held c es → sessions.last_record c es ≡ Some r
        → result ≡ pos 0 → count.new ≡ length (line_text c.names (length es) r) }
    ensures nothing { IfSome machine.old.handle.held (λ s. (result ≡ number_of Refused.Nothing) ↔ (s.is_reported ≡ false)) }
    ensures small { IfSome machine.old.handle.held (λ s. result ≡ number_of Refused.Room → length room.old < length (line_text s.config.names s.count s.report)) }
    ensures at { (c : Setup) (es : List AnyEvent) → spec.Holds machine.old.handle.held c es → spec.Holds machine.new.handle.held c es }
    ensures same { result ≢ pos 0 → (room.new ≡ room.old) × (count.new ≡ count.old) }
{
    match machine.take(alloc) {
        None => Refused::NoMachine.number(),
        Some(mut held) => {
            let written = held.session.put_line(room);
            machine.put(held);
            note_length(written, count)
        }
    }
}

/// Writes the text of the state, as `fmpsim calls --state` does, with the line that ends it, into a room.
#[unsafe(no_mangle)]
#[tactic(auto, using(crate::proofs::Answers::outcome_is))]
pub extern "C" fn fmp_state_at(
    alloc: Global,
    machine: &mut Machine,
    room: &mut [u8],
    count: &mut usize,
) -> i32
    ensures none { machine.old.handle.held ≡ None → result ≡ number_of Refused.NoMachine }
    ensures ok { (c : Setup) (es : List AnyEvent) → spec.Holds machine.old.handle.held c es
        → result ≡ pos 0 → room.new ≡ sessions.written_over (state_text c.names (sessions.state_after c es)) room.old }
    ensures count { (c : Setup) (es : List AnyEvent) → spec.Holds machine.old.handle.held c es
        → result ≡ pos 0 → count.new ≡ length (state_text c.names (sessions.state_after c es)) }
    ensures small { (c : Setup) (es : List AnyEvent) → spec.Holds machine.old.handle.held c es
        → result ≡ number_of Refused.Room → length room.old < length (state_text c.names (sessions.state_after c es)) }
    ensures at { (c : Setup) (es : List AnyEvent) → spec.Holds machine.old.handle.held c es → spec.Holds machine.new.handle.held c es }
    ensures same { result ≢ pos 0 → (room.new ≡ room.old) × (count.new ≡ count.old) }
{
    match machine.take(alloc) {
        None => Refused::NoMachine.number(),
        Some(mut held) => {
            let written = held.session.put_state(room);
            machine.put(held);
            note_length(written, count)
        }
    }
}

/// Lets the machine of another handle be as this session is.
fn copy_into(alloc: Global, other: &Session, into: &mut Machine) -> i32
    ensures at { (c : Setup) (es : List AnyEvent) → IsAt other.now c es → result ≡ pos 0 → spec.Holds into.new.handle.held c es }
    ensures same { result ≢ pos 0 → into.new.handle.held ≡ into.old.handle.held }
    ensures outcome { spec.IsCopied into.old.handle.held other.now result }
{
    match into.take(alloc) {
        None => Refused::NoMachine.number(),
        Some(mut held) => {
            let copied = held.session.copy_from(other);
            into.put(held);
            match copied {
                Ok(()) => 0,
                Err(why) => why.number(),
            }
        }
    }
}

/// Lets a machine be as another one is, where both are of one configuration. After it there is no last event, until the next step.
#[unsafe(no_mangle)]
pub extern "C" fn fmp_copy_at(alloc: Global, from: &mut Machine, into: &mut Machine) -> i32
    ensures at { (c : Setup) (es : List AnyEvent) → spec.Holds from.old.handle.held c es → result ≡ pos 0 → spec.Holds into.new.handle.held c es }
    ensures from { from.new.handle.held ≡ from.old.handle.held }
    ensures same { result ≢ pos 0 → into.new.handle.held ≡ into.old.handle.held }
    ensures none { from.old.handle.held ≡ None → result ≡ number_of Refused.NoMachine }
    ensures outcome { IfSome from.old.handle.held (λ s. spec.IsCopied into.old.handle.held s result) }
{
    match from.take(alloc) {
        None => Refused::NoMachine.number(),
        Some(held) => {
            let outcome = copy_into(alloc, &held.session, into);
            from.put(held);
            outcome
        }
    }
}

/// The end of a wait that the last event brought, at a place from 0. The record says how many there are.
#[unsafe(no_mangle)]
pub extern "C" fn fmp_release_at(
    alloc: Global,
    machine: &mut Machine,
    place: usize,
    freed: &mut Freed,
) -> i32
    ensures outcome { result ≡ spec.release_outcome machine.old.handle.held place }
    ensures freed { IfSome (spec.release_at machine.old.handle.held place) (λ r. freed.new ≡ plain.freed_of r) }
    ensures same { result ≢ pos 0 → freed.new ≡ freed.old }
    ensures machine { machine.new.handle.held ≡ machine.old.handle.held }
{
    match machine.take(alloc) {
        None => Refused::NoMachine.number(),
        Some(held) => {
            let found = held.session.release(place);
            machine.put(held);
            match found {
                None => Refused::Nothing.number(),
                Some(release) => {
                    *freed = freed_of(release);
                    0
                }
            }
        }
    }
}

/// The processor that the last event asks, at a place from 0; 0 where there is none.
#[unsafe(no_mangle)]
pub extern "C" fn fmp_request_at(alloc: Global, machine: &mut Machine, place: usize) -> u32
    ensures asked { result ≡ spec.number_asked (spec.request_at machine.old.handle.held place) }
    ensures machine { machine.new.handle.held ≡ machine.old.handle.held }
{
    match machine.take(alloc) {
        None => 0,
        Some(held) => {
            let found = held.session.request(place);
            machine.put(held);
            match found {
                None => 0,
                Some(processor) => processor_number(processor),
            }
        }
    }
}
