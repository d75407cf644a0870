//! What was read of a configuration, and how it grows by whole statements and directives.
ghost use Rattle.std.specs.Prelude.{◌≡◌, ◌≤◌, true, false, OnOk, IfOk};
ghost use Rattle.fmp_setup.specs.Building.{is_refused, kind_of};
ghost use Rattle.fmp_names.specs.Names.{has_room};
ghost use Rattle.fmp_codes.specs.declared.kinds.NameKind.TheVariants.{Object};
ghost use Rattle.fmp_config.specs.Judging as spec;
ghost use Rattle.fmp_config.specs.Objects as objects;
ghost use Rattle.fmp_config.specs.Places as places;
ghost use Rattle.fmp_config.specs.Sound.{Fit};

use crate::indexed::IndexedParts;
use crate::numbers::{Numbers, class_of, number_within, numbers_of};
use fmp_codes::{NameKind, ObjectKind, Pri, Proc};
use fmp_config_statements::{
    Attributes, ConfigKind, Directive, Fault, Form, Range, ReadError, StatementName, Word, allowed,
    attributes_in,
};
use fmp_setup::{
    Class, CyclicFields, DataQueueSetup, EventflagSetup, Fields, Limits, Order, PoolSetup,
    SemaphoreSetup, TaskFields, Timer,
};
use std::alloc::{AllocError, Global};

/// How far a text has come.
#[derive(Clone, Copy)]
pub enum Phase {
    /// Before the number of processors.
    Start,
    /// Before the first class is opened.
    Head,
    /// After that.
    Body,
}

/// A class whose statements follow, and the line where it begins.
#[derive(Clone, Copy)]
pub struct OpenClass {
    pub line: u32,
    pub class: Class,
}

/// The greatest number of classes.
const MOST_CLASSES: usize = 32;

/// The parts that were read, the class whose statements follow, how far the text has come, and which statements stood.
#[derive(Drop)]
pub struct Draft {
    pub parts: IndexedParts,
    pub open_class: Option<OpenClass>,
    phase: Phase,
    timer_stood: bool,
    limits_stood: bool,
}

/// A name that is to be new, where there is room for one more.
#[tactic(auto, unfolding(crate::specs::Objects::new_name))]
fn new_name<'a>(
    parts: &IndexedParts,
    room: bool,
    line: u32,
    name: &Word<'a>,
) -> Result<(), Fault<'a>>
    ensures value { result ≡ objects.new_name parts.now room line name.now }
    ensures new { OnOk result (is_refused parts.now name.now.text ≡ false) }
    ensures room { OnOk result (room ≡ true) }
{
    if parts.is_refused(name.text()) {
        Err(Fault::at(ConfigKind::NameTaken, name))
    } else if room {
        Ok(())
    } else {
        Err(Fault::within(ConfigKind::TooMany, line, name))
    }
}

/// Whether a semaphore's initial count, the first number, is at most its greatest count, the second. Other kinds always fit.
fn counts_fit(kind: ObjectKind, numbers: Numbers) -> bool
    ensures { result ≡ objects.counts_fit kind numbers }
{
    match kind {
        ObjectKind::Semaphore => numbers.first <= numbers.second,
        _ => true,
    }
}

/// Refuses a semaphore that begins above its greatest count, with `OutOfRange` at the word of its first number.
#[tactic(auto, unfolding(crate::specs::Objects::fitting_counts))]
fn fitting_counts<'a>(kind: ObjectKind, numbers: Numbers, first: &Word<'a>) -> Result<(), Fault<'a>>
    ensures value { result ≡ objects.fitting_counts kind numbers first.now }
    ensures fit { OnOk result (objects.counts_fit kind numbers ≡ true) }
{
    if counts_fit(kind, numbers) {
        Ok(())
    } else {
        Err(Fault::at(ConfigKind::OutOfRange, first))
    }
}

/// Whether a class has this processor alone.
fn is_alone(master: Proc, class: &Class) -> bool
    ensures { result ≡ objects.is_alone master class.now }
{
    let mut members = [false; 8];
    members[master.index()] = true;
    same(&class.members, &members)
}

/// Whether two lists are the same.
fn same(a: &[bool], b: &[bool]) -> bool
    ensures { result ≡ objects.same a.now b.now }
{
    match a {
        [] => b.is_empty(),
        [first, a @ ..] => match b {
            [] => false,
            [second, b @ ..] => first == second && same(a, b),
        },
    }
}

/// Whether ticks count on each processor of a class: always where each counts its own, else where the class has the one processor alone.
fn is_served(timer: Timer, class: &Class) -> bool
    ensures { result ≡ objects.is_served timer class.now }
{
    match timer {
        Timer::Local => true,
        Timer::Global(master) => is_alone(master, class),
    }
}

/// Whether an object of this kind may be in the class: a cyclic or alarm handler only where the class is served, another always.
fn is_handled(timer: Timer, class: &Class, kind: ObjectKind) -> bool
    ensures { result ≡ objects.is_handled timer class.now kind }
{
    match kind {
        ObjectKind::Cyclic | ObjectKind::Alarm => is_served(timer, class),
        _ => true,
    }
}

/// Refuses a handler of a class that has other processors than the one whose ticks count.
#[tactic(auto, unfolding(crate::specs::Objects::served))]
fn served<'a>(
    timer: Timer,
    class: &Class,
    kind: ObjectKind,
    line: u32,
    name: &Word<'a>,
) -> Result<(), Fault<'a>>
    ensures { result ≡ objects.served timer class.now kind line name.now }
{
    if is_handled(timer, class, kind) {
        Ok(())
    } else {
        Err(Fault::within(ConfigKind::ForeignHandler, line, name))
    }
}

/// How tasks wait on an object: by priority where its attributes say so, else first come first.
fn order_of(attributes: Attributes) -> Order
    ensures { result ≡ objects.order_of attributes }
{
    if attributes.by_priority {
        Order::Priority
    } else {
        Order::First
    }
}

/// What the attributes and numbers of an object say.
fn fields_of(kind: ObjectKind, attributes: Attributes, numbers: Numbers) -> Fields
    requires { Fit kind numbers }
    ensures value { result ≡ objects.fields_of kind attributes numbers }
    ensures kind { kind_of result ≡ kind }
{
    let order = order_of(attributes);
    match kind {
        ObjectKind::Task => Fields::Task(TaskFields {
            starts: attributes.starts,
            priority: Pri::new(numbers.first as u8),
        }),
        ObjectKind::Semaphore => Fields::Semaphore(SemaphoreSetup {
            order,
            initial: numbers.first as u16,
            most: numbers.second as u16,
        }),
        ObjectKind::Eventflag => Fields::Eventflag(EventflagSetup {
            order,
            many: attributes.many,
            clears: attributes.clears,
            initial: numbers.first as u32,
        }),
        ObjectKind::DataQueue => Fields::DataQueue(DataQueueSetup {
            order,
            capacity: numbers.first as u16,
        }),
        ObjectKind::Pool => Fields::Pool(PoolSetup {
            order,
            blocks: numbers.first as u8,
        }),
        ObjectKind::Cyclic => Fields::Cyclic(CyclicFields {
            period: numbers.first as u32,
            phase: numbers.second as u32,
            starts: attributes.starts,
        }),
        ObjectKind::Alarm => Fields::Alarm,
        ObjectKind::SpinLock => Fields::SpinLock,
    }
}

/// The fields of an object that is created in a class, or the first fault.
#[tactic(auto, using(crate::proofs::Ranges::fit), unfolding(crate::specs::Objects::fields_in))]
fn fields_in<'a>(
    parts: &IndexedParts,
    class: &Class,
    kind: ObjectKind,
    form: &Form<'a>,
) -> Result<Fields, Fault<'a>>
    requires { parts.now.limits.priorities ≤ 32 }
    ensures value { result ≡ objects.fields_in parts.now class.now kind form.now }
    ensures new { OnOk result (is_refused parts.now form.now.pieces.name.text ≡ false) }
    ensures room { OnOk result (has_room parts.now.names (Object kind) ≡ true) }
    ensures kind { IfOk result (λ f. kind_of f ≡ kind) }
{
    let (line, pieces) = (form.line(), form.pieces());
    new_name(
        parts,
        parts.plain().names.has_room(NameKind::Object(kind)),
        line,
        pieces.name(),
    )?;
    served(parts.plain().timer, class, kind, line, pieces.name())?;
    let attributes = attributes_in(allowed(kind), pieces.series())?;
    let numbers = numbers_of(parts, StatementName::Create(kind), pieces)?;
    fitting_counts(kind, numbers, pieces.first())?;
    Ok(fields_of(kind, attributes, numbers))
}

/// The processors whose ticks count: each for itself, or the one that is named.
#[tactic(auto, unfolding(crate::specs::Judging::timer_of))]
fn timer_of<'a>(parts: &IndexedParts, word: &Word<'a>) -> Result<Timer, Fault<'a>>
    ensures { result ≡ spec.timer_of parts.now word.now }
{
    if word.text().is_empty() {
        return Ok(Timer::Local);
    }
    let range = Range {
        least: 1,
        most: u64::from(parts.plain().names.processors()),
    };
    let number = number_within(parts, range, word)?;
    Ok(Timer::Global(Proc::new(number as u8)))
}

impl Draft {
    ghost use Rattle.std.specs.Prelude.{◌≡◌, true, None};
    ghost use Rattle.fmp_config.specs.Drafts as drafts;
    ghost use Rattle.fmp_config.specs.Drafted.{draft_of};
    ghost use Rattle.fmp_config.specs.Judging as spec;
    ghost use Rattle.fmp_config.specs.Objects as objects;
    ghost use Rattle.fmp_config.specs.Places as places;
    ghost use Rattle.fmp_config.specs.Sound.{IsSound, IsSoundDirective, IsWhole, MayStandFor};
    ghost use Rattle.fmp_setup.specs.Building.{has_function};
    ghost use Rattle.fmp_names.specs.Names.{is_name};
    ghost use Rattle.fmp_config_statements.specs.Outcomes.{Leads};

    /// Nothing was read. The error is want of memory.
    pub fn blank(alloc: Global) -> Result<Self, AllocError>
        ensures { IfOk result (λ d. draft_of d ≡ drafts.blank_draft) }
    {
        Ok(Draft {
            parts: IndexedParts::blank(alloc)?,
            open_class: None,
            phase: Phase::Start,
            timer_stood: false,
            limits_stood: false,
        })
    }

    /// Whether the number of processors is still to come.
    pub fn is_at_start(&self) -> bool
        ensures { result ≡ drafts.is_start (draft_of self.now).phase }
    {
        matches!(self.phase, Phase::Start)
    }

    /// Outside a class, after the number of processors: the kind of fault of a statement that may not stand there.
    fn fault_outside(&self, name: StatementName) -> Option<ConfigKind>
        ensures { result ≡ places.fault_outside (draft_of self.now) name }
    {
        let in_body = matches!(self.phase, Phase::Body);
        match name {
            StatementName::Processors => Some(ConfigKind::TooMany),
            StatementName::Timer if self.timer_stood => Some(ConfigKind::TooMany),
            StatementName::Limits if self.limits_stood => Some(ConfigKind::TooMany),
            StatementName::Timer | StatementName::Limits if in_body => Some(ConfigKind::Syntax),
            StatementName::Create(_) => Some(ConfigKind::OutsideClass),
            _ => None,
        }
    }

    /// The kind of fault of a statement that may not stand where it stands.
    #[tactic(auto, unfolding(crate::specs::Places::place_fault))]
    pub fn place_fault(&self, name: StatementName) -> Option<ConfigKind>
        ensures { result ≡ places.place_fault (draft_of self.now) name }
    {
        if self.is_at_start() {
            fault_before(name)
        } else if self.open_class.is_some() {
            fault_inside(name)
        } else {
            self.fault_outside(name)
        }
    }

    /// Lets a name stand for a number, from a directive that begins in a line. The same once more changes nothing.
    #[tactic(auto, unfolding(crate::specs::Judging::define))]
    fn define<'a>(&mut self, line: u32, name: &Word<'a>, number: u64) -> Result<(), ReadError<'a>>
        requires { MayStandFor name.now number }
        ensures { Leads result (draft_of self.new) (spec.define (draft_of self.old) line name.now number) }
    {
        if let Some(known) = self.parts.defined(name.text()) {
            if u64::from(known) == number {
                return Ok(());
            }
            return Err(Fault::at(ConfigKind::NameTaken, name).into());
        }
        let room = self.parts.plain().names.has_room_to_define();
        new_name(&self.parts, room, line, name)?;
        self.parts.define(name.text(), number as u32)?;
        Ok(())
    }

    /// Ends a directive.
    #[tactic(auto, unfolding(crate::specs::Judging::ended))]
    pub fn end_directive<'a>(&mut self, directive: &Directive<'a>) -> Result<(), ReadError<'a>>
        requires { IsSoundDirective directive.now }
        ensures { Leads result (draft_of self.new) (spec.ended (draft_of self.old) directive.now) }
    {
        match directive {
            Directive::Marked(line) => Err(Fault::of_line(ConfigKind::Syntax, *line).into()),
            Directive::Defining(line, name, number) => self.define(*line, name, *number),
            _ => Ok(()),
        }
    }

    /// Adds the object of a statement to a class. The error is its first fault, or want of memory.
    #[tactic(auto, unfolding(crate::specs::Objects::create_in))]
    fn create_in<'a>(
        &mut self,
        class: Class,
        kind: ObjectKind,
        form: &Form<'a>,
    ) -> Result<(), ReadError<'a>>
        requires sound { IsSound (draft_of self.old) }
        requires name { is_name form.now.pieces.name.text ≡ true }
        requires function { has_function kind ≡ true → is_name form.now.pieces.function.text ≡ true }
        ensures { Leads result (draft_of self.new) (objects.create_in (draft_of self.old) class kind form.now) }
    {
        let fields = fields_in(&self.parts, &class, kind, form)?;
        let (name, function) = (form.pieces().name().text(), form.pieces().function().text());
        self.parts.add_object(class, name, function, fields)?;
        Ok(())
    }

    /// Adds the object of a statement to the open class. Where none is open, the fault is `OutsideClass` in the statement's line.
    #[tactic(auto, unfolding(crate::specs::Objects::create))]
    fn create<'a>(&mut self, kind: ObjectKind, form: &Form<'a>) -> Result<(), ReadError<'a>>
        requires sound { IsSound (draft_of self.old) }
        requires name { is_name form.now.pieces.name.text ≡ true }
        requires function { has_function kind ≡ true → is_name form.now.pieces.function.text ≡ true }
        ensures { Leads result (draft_of self.new) (objects.create (draft_of self.old) kind form.now) }
    {
        match self.open_class {
            Some(open) => self.create_in(open.class, kind, form),
            None => Err(Fault::of_line(ConfigKind::OutsideClass, form.line()).into()),
        }
    }

    /// Sets the number of processors, with which the start is over. The error is the fault of the number.
    #[tactic(auto, unfolding(crate::specs::Judging::count_processors))]
    fn count_processors<'a>(&mut self, form: &Form<'a>) -> Result<(), ReadError<'a>>
        ensures { Leads result (draft_of self.new) (spec.count_processors (draft_of self.old) form.now) }
    {
        let numbers = numbers_of(&self.parts, StatementName::Processors, form.pieces())?;
        self.parts.set_processors(numbers.first as u8);
        self.phase = Phase::Head;
        Ok(())
    }

    /// Sets the processors whose ticks count, and marks that the statement stood. The error is the fault of its word.
    #[tactic(auto, unfolding(crate::specs::Judging::choose_timer))]
    fn choose_timer<'a>(&mut self, form: &Form<'a>) -> Result<(), ReadError<'a>>
        ensures { Leads result (draft_of self.new) (spec.choose_timer (draft_of self.old) form.now) }
    {
        let timer = timer_of(&self.parts, form.pieces().first())?;
        self.parts.set_timer(timer);
        self.timer_stood = true;
        Ok(())
    }

    /// Sets the greatest number of queued wakeups and the greatest priority, and marks that the statement stood. The error is the first fault.
    #[tactic(auto, unfolding(crate::specs::Judging::set_limits))]
    fn set_limits<'a>(&mut self, form: &Form<'a>) -> Result<(), ReadError<'a>>
        ensures { Leads result (draft_of self.new) (spec.set_limits (draft_of self.old) form.now) }
    {
        let numbers = numbers_of(&self.parts, StatementName::Limits, form.pieces())?;
        self.parts.set_limits(Limits {
            wakeups: numbers.first as u16,
            priorities: numbers.second as u8,
        });
        self.limits_stood = true;
        Ok(())
    }

    /// Adds a class under a name that is to be new, where there is room for it. The error is the first fault, or want of memory.
    #[tactic(auto, unfolding(crate::specs::Judging::define_class))]
    fn define_class<'a>(&mut self, form: &Form<'a>) -> Result<(), ReadError<'a>>
        ensures { Leads result (draft_of self.new) (spec.define_class (draft_of self.old) form.now) }
    {
        let (line, pieces) = (form.line(), form.pieces());
        let room = self.parts.plain().classes.len() < MOST_CLASSES;
        new_name(&self.parts, room, line, pieces.name())?;
        let class = class_of(&self.parts, line, pieces)?;
        self.parts.add_class(pieces.name().text(), class)?;
        Ok(())
    }

    /// Opens the class that is named, so that the body has begun. Where no class has the name, the fault is `UnknownClass` at its word.
    #[tactic(auto, unfolding(crate::specs::Judging::begin_class))]
    fn begin_class<'a>(&mut self, form: &Form<'a>) -> Result<(), ReadError<'a>>
        ensures { Leads result (draft_of self.new) (spec.begin_class (draft_of self.old) form.now) }
    {
        let name = form.pieces().name();
        let Some(class) = self.parts.plain().class_named(name.text()) else {
            return Err(Fault::at(ConfigKind::UnknownClass, name).into());
        };
        let line = form.line();
        self.open_class = Some(OpenClass { line, class });
        self.phase = Phase::Body;
        Ok(())
    }

    /// Takes in what a whole statement says, or tells its first fault.
    #[tactic(auto, unfolding(crate::specs::Judging::judged))]
    pub fn judge<'a>(&mut self, form: &Form<'a>) -> Result<(), ReadError<'a>>
        requires sound { IsSound (draft_of self.old) }
        requires form { IsWhole form.now }
        ensures { Leads result (draft_of self.new) (spec.judged (draft_of self.old) form.now.name form.now) }
    {
        match form.name() {
            StatementName::Include => Ok(()),
            StatementName::Processors => self.count_processors(form),
            StatementName::Timer => self.choose_timer(form),
            StatementName::Limits => self.set_limits(form),
            StatementName::DefClass => self.define_class(form),
            StatementName::Class => self.begin_class(form),
            StatementName::Create(kind) => self.create(kind, form),
        }
    }
}

/// In a class: the kind of fault of a statement that may not stand there.
fn fault_inside(name: StatementName) -> Option<ConfigKind>
    ensures { result ≡ places.fault_inside name }
{
    match name {
        StatementName::Include | StatementName::Create(_) => None,
        _ => Some(ConfigKind::Syntax),
    }
}

/// Before the number of processors: the kind of fault of a statement that may not stand there.
fn fault_before(name: StatementName) -> Option<ConfigKind>
    ensures { result ≡ places.fault_before name }
{
    match name {
        StatementName::Include | StatementName::Processors => None,
        _ => Some(ConfigKind::NoProcessors),
    }
}
