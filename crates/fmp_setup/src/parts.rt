//! The parts of a configuration: its names, classes, objects, timer and limits.
ghost use Rattle.std.specs.Prelude.{◌≡◌, ◌≤◌, ◌<◌, true, false, find, OnOk};
ghost use Rattle.std.specs.List.{list_any};
ghost use Rattle.std.specs.Option.{option_copied};
ghost use Rattle.std.specs.Str.{bytes_eq};
ghost use Rattle.fmp_codes.specs.declared.kinds.NameKind.TheVariants.{Object, Function};
ghost use Rattle.fmp_names.specs.Names.{has_name, has_room, has_room_to_define, is_name, is_reserved, is_taken};
ghost use Rattle.fmp_setup.specs.Building as spec;
ghost use Rattle.fmp_setup.specs.Parts.{setup_of};
ghost use Rattle.fmp_setup.specs.Valid.{IsValid};

use crate::setup::{
    AlarmSetup, Class, CyclicSetup, DataQueueSetup, EventflagSetup, Limits, PoolSetup,
    SemaphoreSetup, TaskSetup, Timer,
};
use fmp_codes::{NameKind, ObjectKind, Pri};
use fmp_names::Names;
use std::alloc::{AllocError, Global};

/// A class and its name.
#[derive(Drop)]
pub struct NamedClass {
    pub name: Vec<u8>,
    pub class: Class,
}

/// What the fields of a task say: its priority, and whether it is started at boot.
#[derive(Clone, Copy)]
pub struct TaskFields {
    pub starts: bool,
    pub priority: Pri,
}

/// What the fields of a cyclic handler say: its times in ticks, and whether it is started at boot.
#[derive(Clone, Copy)]
pub struct CyclicFields {
    pub period: u32,
    pub phase: u32,
    pub starts: bool,
}

/// What the fields of a statement say of the object that it creates.
#[derive(Clone, Copy)]
pub enum Fields {
    Task(TaskFields),
    Semaphore(SemaphoreSetup),
    Eventflag(EventflagSetup),
    DataQueue(DataQueueSetup),
    Pool(PoolSetup),
    Cyclic(CyclicFields),
    Alarm,
    SpinLock,
}

impl Fields {
    ghost use Rattle.std.specs.Prelude.{◌≡◌};
    ghost use Rattle.fmp_setup.specs.Building.{kind_of};

    /// The kind of the object.
    pub fn kind(self) -> ObjectKind
        ensures { result ≡ kind_of self }
    {
        match self {
            Fields::Task(..) => ObjectKind::Task,
            Fields::Semaphore(..) => ObjectKind::Semaphore,
            Fields::Eventflag(..) => ObjectKind::Eventflag,
            Fields::DataQueue(..) => ObjectKind::DataQueue,
            Fields::Pool(..) => ObjectKind::Pool,
            Fields::Cyclic(..) => ObjectKind::Cyclic,
            Fields::Alarm => ObjectKind::Alarm,
            Fields::SpinLock => ObjectKind::SpinLock,
        }
    }
}

/// The parts of a configuration. The objects of each kind stand in the order of their numbers.
#[derive(Drop)]
pub struct Parts {
    pub alloc: Global,
    pub names: Names,
    pub timer: Timer,
    pub limits: Limits,
    pub classes: Vec<NamedClass>,
    pub tasks: Vec<TaskSetup>,
    pub semaphores: Vec<SemaphoreSetup>,
    pub eventflags: Vec<EventflagSetup>,
    pub data_queues: Vec<DataQueueSetup>,
    pub pools: Vec<PoolSetup>,
    pub cyclics: Vec<CyclicSetup>,
    pub alarms: Vec<AlarmSetup>,
    /// How many spin locks there are.
    pub spin_locks: u8,
}

/// Adds a function's name, where no function has it yet. The error is want of memory.
#[tactic(auto, unfolding(crate::specs::Building::with_function))]
fn add_function(names: &mut Names, function: &[u8]) -> Result<(), AllocError>
    requires name { is_name function.now ≡ true }
    ensures ok { OnOk result (names.new ≡ spec.with_function names.old function.now) }
    ensures defined { names.new.defined ≡ names.old.defined }
{
    if !names.contains_function(function) {
        names.add(NameKind::Function, function)?;
    }
    Ok(())
}

/// Whether the objects of this kind have a function.
fn has_function(kind: ObjectKind) -> bool
    ensures { result ≡ spec.has_function kind }
{
    matches!(
        kind,
        ObjectKind::Task | ObjectKind::Cyclic | ObjectKind::Alarm
    )
}

/// Adds the name of an object, and of its function where its kind has one.
#[tactic(auto, unfolding(crate::specs::Building::with_object_names))]
fn add_object_names(
    names: &mut Names,
    kind: ObjectKind,
    name: &[u8],
    function: &[u8],
) -> Result<(), AllocError>
    requires name { is_name name.now ≡ true }
    requires free { is_reserved name.now ≡ false }
    requires new { is_taken names.old (Object kind) name.now ≡ false }
    requires room { has_room names.old (Object kind) ≡ true }
    requires function { spec.has_function kind ≡ true → is_name function.now ≡ true }
    ensures ok { OnOk result (names.new ≡ spec.with_object_names names.old kind name.now function.now) }
    ensures defined { names.new.defined ≡ names.old.defined }
{
    names.add(NameKind::Object(kind), name)?;
    if has_function(kind) {
        add_function(names, function)?;
    }
    Ok(())
}

/// The number of the function with this name, from 1, and 0 where there is none.
#[tactic(auto, unfolding(crate::specs::Building::function_number))]
fn function_number(names: &Names, function: &[u8]) -> usize
    ensures { result ≡ spec.function_number names.now function.now }
{
    names.number(NameKind::Function, function).unwrap_or(0)
}

/// Whether at least one of the classes has exactly this name.
fn is_name_of_one(classes: &[NamedClass], name: &[u8]) -> bool
    ensures { result ≡ list_any (λ c. bytes_eq name.now c.name.items) classes.now }
{
    classes.iter().any(|class| name == class.name.as_slice())
}

impl Parts {
    ghost use Rattle.std.specs.Prelude.{◌≡◌, ◌≤◌, true, false, find, OnOk, OnErr};

    /// A configuration of so many processors, and nothing else yet: ticks count locally, one wakeup is queued at most, and
    /// priorities go from 1 to 16.
    pub fn new(alloc: Global, processors: u8) -> Self
        requires least { 1 ≤ processors }
        requires most { processors ≤ 8 }
        ensures { setup_of result ≡ spec.of_processors processors }
    {
        Parts {
            alloc,
            names: Names::new(alloc, processors),
            timer: Timer::Local,
            limits: Limits {
                wakeups: 1,
                priorities: 16,
            },
            classes: Vec::new(alloc),
            tasks: Vec::new(alloc),
            semaphores: Vec::new(alloc),
            eventflags: Vec::new(alloc),
            data_queues: Vec::new(alloc),
            pools: Vec::new(alloc),
            cyclics: Vec::new(alloc),
            alarms: Vec::new(alloc),
            spin_locks: 0,
        }
    }

    /// Whether a class has this name.
    pub fn has_class(&self, name: &[u8]) -> bool
        ensures { result ≡ has_name (setup_of self.now).class_names name.now }
    {
        is_name_of_one(&self.classes, name)
    }

    /// The first class that was defined with this name, together with the name.
    fn named(&self, name: &[u8]) -> Option<&NamedClass>
        ensures { option_copied result ≡ find (λ c. bytes_eq name.now c.name.items) self.now.classes.items }
    {
        self.classes
            .iter()
            .find(|class| name == class.name.as_slice())
    }

    /// The class of this name.
    #[tactic(auto, using(crate::proofs::Classes::found_by), unfolding(crate::specs::Building::class_named))]
    pub fn class_named(&self, name: &[u8]) -> Option<Class>
        ensures { result ≡ spec.class_named (setup_of self.now) name.now }
    {
        let found = self.named(name)?;
        Some(found.class)
    }

    /// Adds a class.
    #[tactic(auto, unfolding(crate::specs::Building::with_class))]
    pub fn add_class(&mut self, name: &[u8], class: Class) -> Result<(), AllocError>
        ensures ok { OnOk result (setup_of self.new ≡ spec.with_class (setup_of self.old) name.now class) }
        ensures names { self.new.names ≡ self.old.names }
    {
        let name = Vec::from_slice(self.alloc, name)?;
        self.classes.push(NamedClass { name, class })?;
        Ok(())
    }

    /// Adds an object with the number of its function, but not its names.
    #[tactic(auto, unfolding(crate::specs::Building::with_setup))]
    fn push(&mut self, class: Class, function: u8, fields: Fields) -> Result<(), AllocError>
        requires few { (setup_of self.old).spin_locks < 255 }
        ensures ok { OnOk result (setup_of self.new ≡ spec.with_setup (setup_of self.old) class function fields) }
        ensures names { self.new.names ≡ self.old.names }
    {
        match fields {
            Fields::Task(task) => self.tasks.push(TaskSetup {
                class,
                main: function,
                priority: task.priority,
                starts: task.starts,
            })?,
            Fields::Semaphore(semaphore) => self.semaphores.push(semaphore)?,
            Fields::Eventflag(eventflag) => self.eventflags.push(eventflag)?,
            Fields::DataQueue(queue) => self.data_queues.push(queue)?,
            Fields::Pool(pool) => self.pools.push(pool)?,
            Fields::Cyclic(cyclic) => self.cyclics.push(CyclicSetup {
                class,
                handler: function,
                period: cyclic.period,
                phase: cyclic.phase,
                starts: cyclic.starts,
            })?,
            Fields::Alarm => self.alarms.push(AlarmSetup {
                class,
                handler: function,
            })?,
            Fields::SpinLock => self.spin_locks += 1,
        }
        Ok(())
    }

    /// Adds an object of a class with its name. A task's or a handler's function gets its name where no other has that; for
    /// objects of the other kinds `function` is not looked at.
    #[tactic(auto, unfolding(crate::specs::Building::with_object))]
    pub fn add_object(
        &mut self,
        class: Class,
        name: &[u8],
        function: &[u8],
        fields: Fields,
    ) -> Result<(), AllocError>
        requires name { is_name name.now ≡ true }
        requires new { spec.is_refused (setup_of self.old) name.now ≡ false }
        requires room { has_room (setup_of self.old).names (Object (spec.kind_of fields)) ≡ true }
        requires function { spec.has_function (spec.kind_of fields) ≡ true → is_name function.now ≡ true }
        requires valid { IsValid (setup_of self.old) }
        ensures ok { OnOk result (setup_of self.new ≡ spec.with_object (setup_of self.old) class name.now function.now fields) }
        ensures defined { self.new.names.defined ≡ self.old.names.defined }
    {
        add_object_names(&mut self.names, fields.kind(), name, function)?;
        let number = function_number(&self.names, function);
        self.push(class, number as u8, fields)
    }

    /// Lets a name stand for a number. An `Err` defines nothing.
    #[tactic(auto, unfolding(crate::specs::Building::with_defined))]
    pub fn define(&mut self, name: &[u8], number: u32) -> Result<(), AllocError>
        requires name { is_name name.now ≡ true }
        requires new { spec.is_refused (setup_of self.old) name.now ≡ false }
        requires room { has_room_to_define (setup_of self.old).names ≡ true }
        ensures ok { OnOk result (setup_of self.new ≡ spec.with_defined (setup_of self.old) name.now number) }
        ensures err { OnErr result (self.new.names ≡ self.old.names) }
    {
        self.names.define(name, number)
    }

    /// Says how many processors there are.
    #[tactic(auto, unfolding(crate::specs::Building::with_processors))]
    pub fn set_processors(&mut self, processors: u8)
        requires least { 1 ≤ processors }
        requires most { processors ≤ 8 }
        ensures { setup_of self.new ≡ spec.with_processors (setup_of self.old) processors }
    {
        self.names.set_processors(processors);
    }

    /// Says which processors' ticks count.
    pub fn set_timer(&mut self, timer: Timer)
        ensures { setup_of self.new ≡ spec.with_timer (setup_of self.old) timer }
    {
        self.timer = timer;
    }

    /// Says how many wakeups are queued at most, and which is the greatest priority.
    pub fn set_limits(&mut self, limits: Limits)
        ensures { setup_of self.new ≡ spec.with_limits (setup_of self.old) limits }
    {
        self.limits = limits;
    }
}
