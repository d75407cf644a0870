//! The kernel as one who plays lines.
ghost use Rattle.fmp_kernel_order.specs.Queues.{listed, Queues};
ghost use Rattle.fmp_trace_orders.specs.Keys.{IsPlayingKey};
ghost use Rattle.fmp_trace_orders.specs.Standing.{begun};
ghost use Rattle.fmp_trace_orders.specs.Playing.{Playing, plays};

use crate::player::{LinePlayer, MOST, is_right_at};
use fmp_kernel_packed::{Packed, Parts, pack, unpack};
use fmp_search::{halves, joined};
use fmp_search_lines::Player;
use fmp_trace_partial::read_said;
use std::alloc::AllocError;

impl<'a> Player for LinePlayer<'a> {
    type Tables = Parts;

    ghost State = { Playing Queues };

    ghost state = { λ w. w.state };

    ghost begins = { λ w. begun w.state };

    ghost plays = { plays listed };

    ghost IsKey = { λ o t k s. IsPlayingKey t o k s };

    ghost room = { λ w. w.left };

    fn another(&self) -> Result<Self, AllocError> {
        self.twin()
    }

    fn tables(&self) -> Result<Parts, AllocError> {
        Ok(Parts::new(self.config.allocator()))
    }

    fn pack(&self, tables: &mut Parts) -> Result<u64, AllocError> {
        let packed = pack(tables, &self.kernel, self.start)?;
        tables.validity();
        Ok(joined(packed.machine, packed.counting))
    }

    fn unpack(&mut self, tables: &mut Parts, key: u64) -> Result<(), AllocError> {
        let (machine, counting) = halves(key);
        let packed = Packed { machine, counting };
        unpack(tables, packed, &mut self.room, &mut self.kernel, self.start)?;
        self.left = MOST;
        Ok(())
    }

    /// The error comes where the kernel has not the memory to become as it was at boot: kernels of one configuration have it, but no clause says so.
    fn restart(&mut self) -> Result<(), AllocError> {
        if !self.kernel.copy_from(self.start) {
            return Err(AllocError);
        }
        self.left = MOST;
        Ok(())
    }

    #[tactic(auto, unfolding(crate::specs::Playing::plays))]
    fn play(&mut self, line: u32) -> Result<bool, AllocError> {
        let Some(text) = self.line_at(line) else {
            return Ok(false);
        };
        let names = self.config.names();
        names.validity();
        match read_said(&mut self.own, names, line + 1, text) {
            Ok(said) => self.follow(line + 1, &said, text),
            Err(fault) => is_right_at(fault),
        }
    }

    /// The error is as at `restart`.
    fn copy_from(&mut self, other: &Self) -> Result<(), AllocError> {
        if !self.kernel.copy_from(&other.kernel) {
            return Err(AllocError);
        }
        self.left = other.left;
        Ok(())
    }
}
