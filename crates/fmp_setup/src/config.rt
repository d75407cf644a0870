//! A valid configuration.
ghost use Rattle.std.specs.Prelude.{◌≡◌, ◌≤◌};
ghost use Rattle.std.specs.List.{list_any};
ghost use Rattle.fmp_setup.specs.Valid.{is_class_of};

use crate::equality::are_same_parts;
use crate::parts::{NamedClass, Parts};
use crate::setup::{
    AlarmSetup, Class, CyclicSetup, DataQueueSetup, EventflagSetup, Limits, PoolSetup,
    SemaphoreSetup, TaskSetup, Timer,
};
use fmp_names::Names;
use std::alloc::Global;
use std::marker::Model;

/// A valid configuration: how many processors there are, its timer and limits, the classes and objects, the names of the
/// objects and functions, and the names that are defined to stand for numbers.
#[derive(Drop)]
pub struct Config {
    /// In a box, so that who owns a configuration lets go of it by one call.
    parts: Box<Parts>,
}

impl Model for Config {
    ghost use Rattle.fmp_setup.specs.Parts.{setup_of};
    ghost use Rattle.fmp_setup.specs.Setup.{Setup};
    ghost use Rattle.fmp_setup.specs.Valid.{IsValid};

    ghost Value = { Setup };

    ghost view = { λ c. setup_of c.parts.value };

    ghost invariant = { λ c. IsValid (setup_of c.parts.value) };
}

impl Config {
    ghost use Rattle.std.specs.Prelude.{◌≡◌, ◌↔◌, IsTrue, map};
    ghost use Rattle.fmp_setup.specs.Parts.{setup_of};
    ghost use Rattle.fmp_setup.specs.Valid.{IsValid};

    /// The configuration of these parts.
    pub fn of(parts: Box<Parts>) -> Self
        requires { IsValid (setup_of parts.value) }
        ensures { result ≡ setup_of parts.value }
    {
        Config { parts }
    }

    /// The allocator that its lists are on.
    pub fn allocator(&self) -> Global {
        self.parts.alloc
    }

    /// The number of processors.
    pub fn processors(&self) -> u8
        ensures value { result ≡ self.now.processors }
        ensures valid { IsValid self.now }
    {
        self.parts.names.processors()
    }

    /// The processors whose ticks count.
    pub fn timer(&self) -> Timer
        ensures value { result ≡ self.now.timer }
        ensures valid { IsValid self.now }
    {
        self.parts.timer
    }

    /// The greatest number of queued wakeups, and the greatest priority.
    pub fn limits(&self) -> Limits
        ensures value { result ≡ self.now.limits }
        ensures valid { IsValid self.now }
    {
        self.parts.limits
    }

    /// The names of the objects and functions, and the defined names.
    pub fn names(&self) -> &Names
        ensures value { result.now ≡ self.now.names }
        ensures valid { IsValid self.now }
    {
        &self.parts.names
    }

    /// The classes with their names, in the order in which they were defined.
    pub fn classes(&self) -> &[NamedClass]
        ensures value { map (λ c. c.class) result.now ≡ self.now.classes }
        ensures names { map (λ c. c.name.items) result.now ≡ self.now.class_names }
        ensures valid { IsValid self.now }
    {
        self.parts.classes.as_slice()
    }

    /// The tasks, in the order of their numbers.
    pub fn tasks(&self) -> &[TaskSetup]
        ensures value { result.now ≡ self.now.tasks }
        ensures valid { IsValid self.now }
    {
        self.parts.tasks.as_slice()
    }

    /// The semaphores, in the order of their numbers.
    pub fn semaphores(&self) -> &[SemaphoreSetup]
        ensures value { result.now ≡ self.now.semaphores }
        ensures valid { IsValid self.now }
    {
        self.parts.semaphores.as_slice()
    }

    /// The eventflags, in the order of their numbers.
    pub fn eventflags(&self) -> &[EventflagSetup]
        ensures value { result.now ≡ self.now.eventflags }
        ensures valid { IsValid self.now }
    {
        self.parts.eventflags.as_slice()
    }

    /// The data queues, in the order of their numbers.
    pub fn data_queues(&self) -> &[DataQueueSetup]
        ensures value { result.now ≡ self.now.data_queues }
        ensures valid { IsValid self.now }
    {
        self.parts.data_queues.as_slice()
    }

    /// The pools, in the order of their numbers.
    pub fn pools(&self) -> &[PoolSetup]
        ensures value { result.now ≡ self.now.pools }
        ensures valid { IsValid self.now }
    {
        self.parts.pools.as_slice()
    }

    /// The cyclic handlers, in the order of their numbers.
    pub fn cyclics(&self) -> &[CyclicSetup]
        ensures value { result.now ≡ self.now.cyclics }
        ensures valid { IsValid self.now }
    {
        self.parts.cyclics.as_slice()
    }

    /// The alarm handlers, in the order of their numbers.
    pub fn alarms(&self) -> &[AlarmSetup]
        ensures value { result.now ≡ self.now.alarms }
        ensures valid { IsValid self.now }
    {
        self.parts.alarms.as_slice()
    }

    /// How many spin locks there are.
    pub fn spin_locks(&self) -> u8
        ensures value { result ≡ self.now.spin_locks }
        ensures valid { IsValid self.now }
    {
        self.parts.spin_locks
    }

    /// Whether all that two configurations say is equal, the names and their order included.
    pub fn is_same(&self, other: &Config) -> bool
        ensures { IsTrue result ↔ (self.now ≡ other.now) }
    {
        are_same_parts(&self.parts, &other.parts)
    }
}

/// Whether a class is one of a machine of so many processors.
pub fn is_class_of(processors: u8, class: &Class) -> bool
    requires { processors ≤ 8 }
    ensures { result ≡ is_class_of processors class.now }
{
    class.has(class.initial) && !has_one(&class.members[processors as usize..])
}

/// Whether at least one of these processors is a member.
fn has_one(members: &[bool]) -> bool
    ensures { result ≡ list_any (λ m. m) members.now }
{
    members.iter().any(|member| *member)
}
