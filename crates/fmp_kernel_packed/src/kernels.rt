//! Kernels of one configuration, packed and unpacked.
ghost use Rattle.std.specs.Prelude.{◌≡◌, IfOk, OnErr};
ghost use Rattle.fmp_kernel_order.specs.Queues.{no_queues, Queues};
ghost use Rattle.fmp_kernel_packed.specs.Kept.{ArePartsBefore};
ghost use Rattle.fmp_kernel_packed.specs.Kernels.{IsKernel};
ghost use Rattle.fmp_rules.specs.Boot.{blank};
ghost use Rattle.fmp_rules.specs.World.{World};

use crate::packed::{Packed, Parts, are_shaped};
use fmp_kernel::Kernel;
use fmp_kernel_machine::KernelMachine;
use fmp_rules::Config;
use std::alloc::AllocError;

/// A machine of a configuration, in memory of its own, into which kernels can be unpacked: every task is dormant, and no processor runs one. The error is want of
/// memory.
pub fn room_for(config: &Config) -> Result<Box<KernelMachine>, AllocError>
    ensures { IfOk result (λ m. m.value ≡ blank (no_queues config.now) config.now) }
{
    let blank = KernelMachine::blank(config)?;
    Ok(Box::new(config.allocator(), blank)?)
}

/// The numbers of what a kernel is made of, which are kept from then on. The error is want of memory, and leaves other kernels' numbers as they were. It comes,
/// too, where the kernel is not of the configuration of another one, as that at boot: a kernel that has come from it is, but no clause says so.
pub fn pack(parts: &mut Parts, kernel: &Kernel, start: &Kernel) -> Result<Packed, AllocError>
    ensures packed { IfOk result (λ k. IsKernel parts.new start.now kernel.now k.machine k.counting) }
    ensures kept { ArePartsBefore parts.old parts.new }
{
    if !are_shaped(start.machine(), kernel.machine()) {
        return Err(AllocError);
    }
    kernel.validity();
    parts.pack(kernel.machine())
}

/// A kernel becomes as that was of which these are the numbers, in the memory of a machine, which is given its own for it. The error comes where the machine is
/// not of the configuration of the kernel at boot: `room_for` gives one that is, but no clause says so. It leaves the kernel as it was.
pub fn unpack(
    parts: &mut Parts,
    packed: Packed,
    room: &mut Box<KernelMachine>,
    kernel: &mut Kernel,
    start: &Kernel,
) -> Result<(), AllocError>
    requires { (w : World Queues) × IsKernel parts.old start.now w packed.machine packed.counting }
    ensures is { IfOk result (λ done. (w : World Queues) → IsKernel parts.old start.now w packed.machine packed.counting → kernel.new ≡ w) }
    ensures same { parts.new ≡ parts.old }
    ensures left { OnErr result (kernel.new ≡ kernel.old) }
{
    if !are_shaped(room, start.machine()) {
        return Err(AllocError);
    }
    parts.unpack(packed, room);
    kernel.exchange(room);
    Ok(())
}
