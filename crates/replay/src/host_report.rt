//! What is reported of the host.

ghost use Rattle.std.specs.Prelude.{◌≡◌, IfOk};
ghost use Rattle.evac_model.specs.HostCommands.{host_runs};

use evac_model::{HostCommand, HostLine, HostRun, HostRunList, Listed, OutOfMemory};
use std::alloc::Global;

/// The commands that have lines, each with its own. The lines are moved.
pub(crate) fn runs(
    alloc: Global,
    commands: &[HostCommand],
    lines: Vec<HostLine>,
) -> Result<HostRunList, OutOfMemory>
    ensures { IfOk result (λ runs. runs ≡ host_runs commands.now lines.items) }
{
    let mut runs = Vec::new(alloc);
    for (command, line) in commands.iter().zip(lines) {
        runs.push(HostRun {
            command: *command,
            line,
        })?;
    }
    Ok(Listed::from_vec(runs))
}
