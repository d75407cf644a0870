//! The handlers that are due on a processor.
ghost use Rattle.std.specs.Prelude.{◌≡◌, ◌≤◌, ◌<◌, ◌++◌, ◌∷◌, [], length};
ghost use Rattle.fmp_rules.specs.World.{first, rest};

use arrayvec::ArrayVec;
use fmp_codes::Runner;
use std::marker::Model;

/// The handlers that are due on a processor. The first one runs.
#[derive(Drop)]
pub(crate) struct Due {
    runners: ArrayVec<Runner, 64>,
}

impl Model for Due {
    ghost use Rattle.std.specs.Prelude.{List};
    ghost use Rattle.fmp_codes.specs.declared.records.Runner.{Runner as AnyRunner};

    ghost Value = { List AnyRunner };

    ghost view = { λ a. a.runners.items };
}

impl Due {
    /// The handler that runs.
    pub(crate) fn head(&self) -> Option<Runner>
        ensures { result ≡ first self.now }
    {
        self.runners.as_slice().first().copied()
    }

    /// All of them.
    pub(crate) fn as_slice(&self) -> &[Runner]
        ensures handlers { result.now ≡ self.now }
        ensures few { length result.now ≤ 64 }
    {
        self.runners.as_slice()
    }

    /// Adds a handler after the others.
    pub(crate) fn add(&mut self, handler: Runner)
        requires { length self.old < 64 }
        ensures { self.new ≡ self.old ++ handler ∷ [] }
    {
        self.runners.push(handler);
    }

    /// Takes out the handler that runs, if there is one.
    pub(crate) fn end_first(&mut self)
        ensures { self.new ≡ rest self.old }
    {
        if !self.runners.is_empty() {
            self.runners.remove(0);
        }
    }
}

impl Default for Due {
    /// No handler.
    fn default() -> Self
        ensures { result ≡ [] }
    {
        Due {
            runners: ArrayVec::new(),
        }
    }
}
