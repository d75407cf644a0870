//! C's handle of a machine.
ghost use Rattle.std.specs.Prelude.{◌≡◌, ◌↔◌, IsTrue, None, Some, is_some, option_map};

use crate::handle::{Handle, Held};
use std::alloc::Global;
use std::mem::replace;

/// C's handle of a machine: its session, and whether there is one. All bytes zero is no machine.
#[repr(C)]
#[derive(Drop)]
pub struct Machine {
    pub handle: Handle,
    pub made: bool,
    pub ghost agrees: { IsTrue made ↔ IsTrue (is_some handle.held) },
}

impl Machine {
    /// Takes the session out.
    pub(crate) fn take(&mut self, alloc: Global) -> Option<Held>
        ensures taken { option_map (λ h. h.session.value) result ≡ self.old.handle.held }
        ensures empty { self.new.handle.held ≡ None }
    {
        if !self.made {
            return None;
        }
        let empty = Machine {
            handle: Handle::empty(),
            made: false,
        };
        let whole = replace(self, empty);
        let (session, block) = whole.handle.taken(alloc);
        Some(Held { session, block })
    }

    /// Keeps a session. One that was there before has to be taken out first.
    pub(crate) fn put(&mut self, held: Held)
        ensures { self.new.handle.held ≡ Some held.session.value }
    {
        *self = Machine {
            handle: Handle::of(held),
            made: true,
        };
    }
}
