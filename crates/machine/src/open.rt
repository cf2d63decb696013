//! A machine at its start.

ghost use Rattle.std.specs.Prelude.{◌≡◌, [], length, IfOk};
ghost use Rattle.evac_model.specs.Counts.{first_of_calls};
ghost use Rattle.evac_model.specs.DeviceBlocks.{device_blocks};
ghost use Rattle.machine.specs.Start.{MayStart, setting_at_start, world_at_start};

use crate::machine::Machine;
use crate::parts::{MachineDevice, Parts};
use core_state::Core;
use evac_model::{BlockNo, Geometry, Kind, NumberList, OutOfMemory, StartPage};
use mem_device::{BlockHand, Device, Slate};
use space::Space;
use std::alloc::Global;

/// The memory device of a machine at its start.
fn device_of(alloc: Global, g: Geometry, fails: NumberList) -> Result<MachineDevice, OutOfMemory>
    ensures sizes { IfOk result (λ device. device.sizes ≡ g) }
    ensures journal { IfOk result (λ device. device.journal ≡ []) }
    ensures backing { IfOk result (λ device. device.backing.calls ≡ first_of_calls fails) }
{
    let unplugged = BlockHand::new(alloc, g, BlockNo(g.plugged()), g.managed() - g.plugged())?;
    Ok(Device::open(alloc, g, Slate::new(fails), unplugged)?)
}

impl Machine {
    /// The machine of these sizes at its start, whose managed blocks are online for pages of that kind, with the
    /// start pages mapped, and with so many calls for each owner. The calls of the device's backing with these numbers,
    /// counted from 1, fail. It takes the memory of the words, of the views with room for all entries, of the frame
    /// space, and of the blocks of the device and of the driver; it fails where there is none.
    pub fn open(
        alloc: Global,
        g: Geometry,
        online: Kind,
        start: &[StartPage],
        budgets: &[u64],
        fails: NumberList,
    ) -> Result<Machine, OutOfMemory>
        requires { MayStart g online start.now budgets.now }
        ensures { IfOk result (λ m. m ≡ record { setting = setting_at_start g online start.now budgets.now fails; world = world_at_start g start.now budgets.now }) }
    {
        let held = BlockHand::new(alloc, g, BlockNo(0), 0)?;
        let space = Space::open(alloc, g, online, start)?;
        let core = Core::open(alloc, g, start, budgets)?;
        let device = device_of(alloc, g, fails)?;
        Ok(Machine::from_parts(Parts {
            core,
            space,
            device,
            held,
            owners: budgets.len() as u32,
            alloc,
        }))
    }
}
