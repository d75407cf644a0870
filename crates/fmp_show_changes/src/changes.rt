//! The lines of the state that was told last.
ghost use Rattle.std.specs.Prelude.{◌≡◌, ◌++◌, [], OnOk};
ghost use Rattle.fmp_rules.specs.Arrivals.{State, numbered};
ghost use Rattle.fmp_law_lists.specs.Stands.{Stands};
ghost use Rattle.fmp_show_state.specs.States.{state_lines, state_text};
ghost use Rattle.fmp_show_changes.specs.Changes.{changes_text};

use crate::lines::put_changes;
use fmp_kernel::Kernel;
use fmp_names::Names;
use fmp_show_state::{put_lines, put_state};
use std::alloc::{AllocError, Global};
use std::marker::Model;
use std::mem;

/// The lines of the state that was told last.
#[derive(Drop)]
pub struct Changes {
    before: Vec<u8>,
    /// The lines of the state that is told now.
    after: Vec<u8>,
}

impl Model for Changes {
    ghost use Rattle.std.specs.Prelude.{ℕ, List};

    ghost Value = { List ℕ };

    ghost view = { λ c. c.before.items };
}

impl Changes {
    /// No state was told yet.
    pub fn new(alloc: Global) -> Changes
        ensures { result ≡ [] }
    {
        Changes {
            before: Vec::new(alloc),
            after: Vec::new(alloc),
        }
    }

    /// Adds the lines of the kernel's state, and the one that ends it, and keeps them in mind. After an error parts of these lines may
    /// have been added.
    #[tactic(auto, using(fmp_show_state::proofs::Alike::states_alike))]
    pub fn put_state(
        &mut self,
        out: &mut Vec<u8>,
        names: &Names,
        kernel: &Kernel,
    ) -> Result<(), AllocError>
        ensures report { (m : State) → Stands kernel.now m → OnOk result (out.new.items ≡ out.old.items ++ state_text names.now m) }
        ensures kept { (m : State) → Stands kernel.now m → OnOk result (self.new ≡ state_lines numbered names.now m) }
    {
        self.before.clear();
        put_lines(&mut self.before, names, kernel.machine())?;
        put_state(out, names, kernel.machine())
    }

    /// Adds what of the kernel's state changed since a state was told last, and keeps this one in mind: each line of a processor and each
    /// other line that is new or differs, then the name of each line that is gone, and the line that ends a state. After an error
    /// parts of this may have been added.
    #[tactic(auto, using(fmp_show_state::proofs::Alike::states_alike))]
    pub fn put_changes(
        &mut self,
        out: &mut Vec<u8>,
        names: &Names,
        kernel: &Kernel,
    ) -> Result<(), AllocError>
        ensures report { (m : State) → Stands kernel.now m → OnOk result (out.new.items ≡ out.old.items ++ changes_text self.old (state_lines numbered names.now m)) }
        ensures kept { (m : State) → Stands kernel.now m → OnOk result (self.new ≡ state_lines numbered names.now m) }
    {
        self.after.clear();
        put_lines(&mut self.after, names, kernel.machine())?;
        put_changes(out, self.before.as_slice(), self.after.as_slice())?;
        mem::swap(&mut self.before, &mut self.after);
        Ok(())
    }
}
