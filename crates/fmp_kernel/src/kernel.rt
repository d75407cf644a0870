//! The kernel, which stands for a safe state of the model.
ghost use Rattle.std.specs.Prelude.{◌≡◌, ◌≤◌, ◌↔◌, false, length, IfOk, IsTrue};
ghost use Rattle.fmp_rules.specs.Boot as machine;
ghost use Rattle.fmp_rules.specs.Boot.{booted};
ghost use Rattle.fmp_setup.specs.Valid.{IsValid};
ghost use Rattle.fmp_rules.specs.Arrivals.{State, numbered};
ghost use Rattle.fmp_rules.specs.Step.{step};
ghost use Rattle.fmp_law_safety.specs.Safe.{Safe};
ghost use Rattle.fmp_law_safety.specs.Runs.{processor_of};
ghost use Rattle.fmp_law_safety.specs.Laws.{FindsNothing, TakesRequest, RunsTop};
ghost use Rattle.fmp_kernel_order.specs.Queues.{listed, no_queues};
ghost use Rattle.fmp_law_lists.specs.Stands.{Stands};
ghost use Rattle.fmp_law_lists.specs.Laws.{ListsAreRight};
ghost use Rattle.fmp_kernel_machine.specs.Alike.{AreAlike};
ghost use Rattle.fmp_kernel.specs.Kept.{IsKept};

use fmp_codes::{Answer, Event, Record};
use fmp_kernel_machine::KernelMachine;
use fmp_kernel_parts::Part;
use fmp_rules::Config;
use fmp_step::{boot, step_recorded};
use std::alloc::AllocError;
use std::marker::Model;

/// The kernel. Contracts see its state with lists, which stands for a safe state of the model.
#[derive(Drop)]
pub struct Kernel {
    /// In a box, so that who owns a kernel moves and lets go of one pointer.
    pub(crate) machine: Box<KernelMachine>,
}

impl Model for Kernel {
    ghost use Rattle.fmp_rules.specs.World.{World};
    ghost use Rattle.fmp_kernel_order.specs.Queues.{Queues};
    ghost use Rattle.fmp_kernel.specs.Kept.{IsKept};

    ghost Value = { World Queues };

    ghost view = { λ a. a.machine.value };

    ghost invariant = { λ a. IsKept a.machine.value };
}

impl Kernel {
    /// The kernel at boot. It takes all of its memory here, where it may be refused; a step takes none.
    pub fn boot(config: &Config) -> Result<Kernel, AllocError>
        ensures stands { IfOk result (λ k. Stands k (booted config.now)) }
        ensures processors { IfOk result (λ k. length k.processors ≡ config.now.processors) }
        ensures valid { IfOk result (λ k. IsValid config.now) }

        // What the state at boot is, read on its own fields.
        ensures same { IfOk result (λ k. k ≡ machine.boot listed (no_queues config.now) config.now) }
        ensures safe { IfOk result (λ k. Safe listed k) }
        ensures lists { IfOk result (λ k. ListsAreRight k) }
    {
        let blank = KernelMachine::blank(config)?;
        let mut machine = Box::new(config.allocator(), blank)?;
        boot(&mut *machine, config);
        Ok(Kernel { machine })
    }

    /// Plays one event on a processor of the machine, and tells what it answers and did.
    pub fn step(&mut self, event: Event) -> Record
        requires { (processor_of event).number ≤ length self.old.processors }
        ensures stands { (m : State) → Stands self.old m → Stands self.new (step numbered m event).0 }
        ensures record { (m : State) → Stands self.old m → result ≡ (step numbered m event).1 }
        ensures processors { length self.new.processors ≡ length self.old.processors }

        // What the new state is, read on its own fields.
        ensures same { (self.new, result) ≡ step listed self.old event }
        ensures safe { Safe listed self.new }
        ensures lists { ListsAreRight self.new }

        // What interrupts do, and that a processor which is not held in the end runs its top.
        ensures nothing { FindsNothing listed self.old event result self.new }
        ensures taken { TakesRequest self.old event result self.new }
        ensures top { RunsTop listed self.old event result self.new }
    {
        let mut report = Record::answer(event, None, Answer::Nothing);
        self.step_into(event, &mut report);
        report
    }

    /// Plays one event on a processor of the machine, and makes a record tell what it answers and did, whatever it told before.
    pub fn step_into(&mut self, event: Event, report: &mut Record)
        requires { (processor_of event).number ≤ length self.old.processors }
        ensures stands { (m : State) → Stands self.old m → Stands self.new (step numbered m event).0 }
        ensures record { (m : State) → Stands self.old m → report.new ≡ (step numbered m event).1 }
        ensures processors { length self.new.processors ≡ length self.old.processors }

        // As of `step`.
        ensures same { (self.new, report.new) ≡ step listed self.old event }
        ensures safe { Safe listed self.new }
        ensures lists { ListsAreRight self.new }
        ensures nothing { FindsNothing listed self.old event report.new self.new }
        ensures taken { TakesRequest self.old event report.new self.new }
        ensures top { RunsTop listed self.old event report.new self.new }
    {
        report.event = event;
        self.step_recorded(report);
    }

    /// Plays the event that a record tells, on a processor of the machine, and makes the record tell what the event answers and
    /// did, whatever it told of that before.
    pub fn step_recorded(&mut self, report: &mut Record)
        requires { (processor_of report.old.event).number ≤ length self.old.processors }
        ensures stands { (m : State) → Stands self.old m → Stands self.new (step numbered m report.old.event).0 }
        ensures record { (m : State) → Stands self.old m → report.new ≡ (step numbered m report.old.event).1 }
        ensures processors { length self.new.processors ≡ length self.old.processors }

        // As of `step`.
        ensures same { (self.new, report.new) ≡ step listed self.old report.old.event }
        ensures safe { Safe listed self.new }
        ensures lists { ListsAreRight self.new }
        ensures nothing { FindsNothing listed self.old report.old.event report.new self.new }
        ensures taken { TakesRequest self.old report.old.event report.new self.new }
        ensures top { RunsTop listed self.old report.old.event report.new self.new }
    {
        step_recorded(&mut *self.machine, report);
    }

    /// What holds of every kernel, for proofs: its state is safe, and its lists are right. It does nothing.
    pub fn validity(&self)
        ensures kept { IsKept self.now }
        ensures safe { Safe listed self.now }
        ensures lists { ListsAreRight self.now }
    {
        let _machine = &self.machine;
    }

    /// The machine between two events.
    pub fn machine(&self) -> &KernelMachine
        ensures { result.now ≡ self.now }
    {
        &self.machine
    }

    /// Takes another machine between two events, and gives its own for it.
    pub fn exchange(&mut self, machine: &mut Box<KernelMachine>)
        requires { IsKept machine.old.value }
        ensures taken { self.new ≡ machine.old.value }
        ensures given { machine.new.value ≡ self.old }
    {
        std::mem::swap(&mut self.machine, machine);
    }

    /// Whether it is the same as another kernel, so that both answer all events alike.
    pub fn is_same(&self, other: &Kernel) -> bool
        ensures { IsTrue result ↔ (self.now ≡ other.now) }
    {
        self.machine.is_same(&other.machine)
    }

    /// Becomes as another kernel is, in the memory that it has, and tells whether it did. It does where both have as many
    /// processors and objects of each kind, and the same data queues, as all kernels of one configuration have.
    pub fn copy_from(&mut self, other: &Kernel) -> bool
        ensures copied { IsTrue result → self.new ≡ other.now }
        ensures refused { result ≡ false → self.new ≡ self.old }
        ensures alike { IsTrue result ↔ AreAlike self.old other.now }
    {
        if !self.machine.is_alike(&other.machine) {
            return false;
        }
        self.machine.copy_from(&other.machine);
        true
    }
}
